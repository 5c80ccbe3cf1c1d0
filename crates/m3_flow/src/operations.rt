use m3_mid::{Actual, Callee, End, Held, MemoryWord, MidOp, Operand, Proc, Shown};

const NOTHING: Operand = Operand::Number(0);

/// The operations of a block; none where there is no such block.
pub fn ops_of<'a>(p: &Proc<'a>, block: u32) -> &'a [MidOp<'a>] {
    let Some(block) = p.blocks.get(block as usize).copied() else {
        return &[];
    };
    block.ops
}

/// The operand that a word of memory names.
fn base_of(word: MemoryWord) -> Operand {
    match word {
        MemoryWord::At { base, offset: _ } => Operand::Temp(base),
        _ => NOTHING,
    }
}

/// The temporaries that name what is called.
fn callee_operands(callee: Callee) -> [Operand; 3] {
    match callee {
        Callee::Inner {
            procedure: _,
            environment,
        } => [Operand::Temp(environment), NOTHING, NOTHING],
        Callee::Value { code, environment } => {
            [Operand::Temp(code), Operand::Temp(environment), NOTHING]
        }
        _ => [NOTHING, NOTHING, NOTHING],
    }
}

/// The operands of an operation, filled up with numbers; not those of its actuals, of a service,
/// and not what is shown.
pub fn operands_of(op: MidOp) -> [Operand; 3] {
    match op {
        MidOp::Move { to: _, from } => [Operand::Temp(from), NOTHING, NOTHING],
        MidOp::Arith { left, right, .. } => [left, right, NOTHING],
        MidOp::Checked { left, right, .. } => [left, right, NOTHING],
        MidOp::Compare { left, right, .. } => [left, right, NOTHING],
        MidOp::Check { left, right, .. } => [left, right, NOTHING],
        MidOp::Load { to: _, from } => [base_of(from), NOTHING, NOTHING],
        MidOp::Store { at, from } => [base_of(at), from, NOTHING],
        MidOp::Index { array, index, .. } => [Operand::Temp(array), index, NOTHING],
        MidOp::Copy {
            to_address,
            from_address,
            words,
        } => [
            Operand::Temp(to_address),
            Operand::Temp(from_address),
            words,
        ],
        MidOp::Fill {
            at,
            words,
            distance,
        } => [Operand::Temp(at), words, distance],
        MidOp::EqualWords {
            to: _,
            left,
            right,
            words,
        } => [Operand::Temp(left), Operand::Temp(right), words],
        MidOp::TypeTest { to: _, cell, .. } => [Operand::Temp(cell), NOTHING, NOTHING],
        MidOp::MethodOf { to: _, object, .. } => [Operand::Temp(object), NOTHING, NOTHING],
        MidOp::TextByte { to: _, text, index } => [Operand::Temp(text), index, NOTHING],
        MidOp::EqualTexts { to: _, left, right } => {
            [Operand::Temp(left), Operand::Temp(right), NOTHING]
        }
        MidOp::Call { callee, .. } => callee_operands(callee),
        _ => [NOTHING, NOTHING, NOTHING],
    }
}

/// The temporaries that an operation sets.
pub fn settings_of(op: MidOp) -> [Option<u32>; 4] {
    match op {
        MidOp::Number { to, .. }
        | MidOp::Move { to, .. }
        | MidOp::Arith { to, .. }
        | MidOp::Checked { to, .. }
        | MidOp::Compare { to, .. }
        | MidOp::Load { to, .. }
        | MidOp::SlotAddress { to, .. }
        | MidOp::FrameAddress { to }
        | MidOp::GlobalAddress { to, .. }
        | MidOp::TextCell { to, .. }
        | MidOp::ConstantAddress { to, .. }
        | MidOp::Index { to, .. }
        | MidOp::EqualWords { to, .. }
        | MidOp::TypeTest { to, .. }
        | MidOp::MethodOf { to, .. }
        | MidOp::TextByte { to, .. }
        | MidOp::EqualTexts { to, .. }
        | MidOp::Make { to, .. } => [Some(to), None, None, None],
        MidOp::Service { to, raised, .. } => [to, raised, None, None],
        MidOp::Call { result, raised, .. } => match raised {
            None => [result, None, None, None],
            Some(raised) => [
                result,
                Some(raised.exception),
                Some(raised.number),
                Some(raised.tidy),
            ],
        },
        _ => [None, None, None, None],
    }
}

/// The operands of a service.
pub fn service_operands<'a>(op: MidOp<'a>) -> &'a [Operand] {
    match op {
        MidOp::Service { operands, .. } => operands,
        _ => &[],
    }
}

/// The actuals of a call.
pub fn actuals_of<'a>(op: MidOp<'a>) -> &'a [Actual] {
    match op {
        MidOp::Call { actuals, .. } => actuals,
        _ => &[],
    }
}

/// The variables that are shown at a point.
pub fn shown_at<'a>(op: MidOp<'a>) -> &'a [Shown] {
    match op {
        MidOp::Call { shown, .. }
        | MidOp::Make { shown, .. }
        | MidOp::Service { shown, .. }
        | MidOp::Point { shown } => shown,
        _ => &[],
    }
}

/// Whether an operation passes a point before it acts.
pub fn is_point(op: MidOp) -> bool {
    matches!(
        op,
        MidOp::Call { .. } | MidOp::Make { .. } | MidOp::Service { .. } | MidOp::Point { .. }
    )
}

pub fn is_call(op: MidOp) -> bool {
    matches!(op, MidOp::Call { .. })
}

/// The operands of the end of a block, filled up with numbers.
pub fn end_operands(end: End) -> [Operand; 3] {
    match end {
        End::If { left, right, .. } => [left, right, NOTHING],
        End::Return { value: Some(value) } => [value, NOTHING, NOTHING],
        End::Raise {
            exception,
            number,
            tidy,
        } => [exception, number, tidy],
        _ => [NOTHING, NOTHING, NOTHING],
    }
}

/// The blocks at which it may go on behind the end of a block.
pub fn exits_of(end: End) -> [Option<u32>; 2] {
    match end {
        End::Goto(to) => [Some(to), None],
        End::If { yes, no, .. } => [Some(yes), Some(no)],
        _ => [None, None],
    }
}

/// The temporary that an operand names.
pub fn temp_of(operand: Operand) -> Option<u32> {
    match operand {
        Operand::Temp(temp) => Some(temp),
        Operand::Number(_) => None,
    }
}

/// The temporaries of an actual.
pub(crate) fn actual_temps(actual: Actual) -> [Option<u32>; 2] {
    match actual {
        Actual::Word(operand) => [temp_of(operand), None],
        Actual::Slots { .. } => [None, None],
        Actual::Reference { address, base } => [Some(address), temp_of(base)],
    }
}

/// The temporary that holds a shown variable.
pub(crate) fn shown_temp(shown: Shown) -> Option<u32> {
    match shown.at {
        Held::Temp(temp) => Some(temp),
        Held::Slot(_) => None,
    }
}
