use crate::machine::{Activation, Machine, Stop};
use m3_mid::{Actual, Callee, MidOp, Proc, Raised};
use m3_mid_memory::Word;

/// Goes on at the start of a module body.
pub(crate) fn start_body(machine: &mut Machine<'_>, procs: &[Proc<'_>], body: u32) {
    call(machine, procs, Callee::Outermost(body), &[], None, None);
}

/// Goes on at the start of a procedure that is called with some actuals.
fn call(
    machine: &mut Machine<'_>,
    procs: &[Proc<'_>],
    callee: Callee,
    actuals: &[Actual],
    to: Option<u32>,
    raised: Option<Raised>,
) {
    let (procedure, environment) = machine.called(callee, actuals);
    let Some(proc) = procs.get(procedure as usize) else {
        return machine.stick("no such procedure");
    };
    let frame = machine.new_frame(proc.slots.len());
    machine.store(frame.further(2), environment);
    machine.pass_actuals(frame.further(3), actuals);
    let activation = Activation {
        procedure,
        block: proc.start,
        op: 0,
        frame,
        temps: Vec::new(machine.alloc),
        result: to,
        raised,
    };
    machine.start(activation, proc.temps.len());
}

/// Carries out the next operation, or the end of a block.
pub(crate) fn step(machine: &mut Machine<'_>, procs: &[Proc<'_>]) {
    let (procedure, block, place) = machine.next();
    let Some(proc) = procs.get(procedure as usize) else {
        return machine.stick("no such procedure");
    };
    let Some(row) = proc.blocks.get(block as usize) else {
        return machine.stick("no such block");
    };
    match row.ops.get(place as usize) {
        Some(op) => {
            machine.go_on(block, place.wrapping_add(1));
            carry_out(machine, procs, proc, op);
        }
        None => machine.end_block(row.end),
    }
}

fn carry_out(machine: &mut Machine<'_>, procs: &[Proc<'_>], proc: &Proc<'_>, op: &MidOp<'_>) {
    match op {
        MidOp::Service {
            service,
            operands,
            ..
        } => {
            machine.may_go(*service, operands);
            machine.pass_point(proc.temps, proc.slots);
            act(machine, procs, op);
        }
        MidOp::Call { .. } | MidOp::Make { .. } | MidOp::Point { .. } => {
            machine.pass_point(proc.temps, proc.slots);
            act(machine, procs, op);
        }
        MidOp::SlotAddress { .. }
        | MidOp::FrameAddress { .. }
        | MidOp::GlobalAddress { .. }
        | MidOp::TextCell { .. }
        | MidOp::ConstantAddress { .. }
        | MidOp::Index { .. } => find_address(machine, op),
        MidOp::TypeTest { .. }
        | MidOp::MethodOf { .. }
        | MidOp::TextByte { .. }
        | MidOp::EqualTexts { .. }
        | MidOp::EqualWords { .. } => answer(machine, op),
        _ => carry_out_plain(machine, op),
    }
}

/// An operation whose point was passed.
fn act(machine: &mut Machine<'_>, procs: &[Proc<'_>], op: &MidOp<'_>) {
    match op {
        MidOp::Call {
            callee,
            actuals,
            result,
            raised,
            ..
        } => call(machine, procs, *callee, actuals, *result, *raised),
        MidOp::Make {
            to,
            cell,
            sizes,
            ..
        } => {
            let made = machine.make(*cell, *sizes);
            machine.set(*to, made);
        }
        MidOp::Service {
            service,
            operands,
            to,
            raised,
            pos,
            ..
        } => machine.carry_out_service(*service, operands, *to, *raised, *pos),
        _ => {}
    }
}

fn carry_out_plain(machine: &mut Machine<'_>, op: &MidOp<'_>) {
    match op {
        MidOp::Number { to, value } => machine.set_number(*to, value.cast_unsigned()),
        MidOp::Move { to, from } => {
            let word = machine.temp(*from);
            machine.set(*to, word);
        }
        MidOp::Arith {
            to,
            operator,
            left,
            right,
        } => {
            let word = machine.combined(*operator, *left, *right);
            machine.set(*to, word);
        }
        MidOp::Checked {
            to,
            operator,
            left,
            right,
            pos,
        } => {
            let number = machine.checked(*operator, *left, *right, *pos);
            machine.set_number(*to, number);
        }
        MidOp::Compare {
            to,
            relation,
            left,
            right,
        } => {
            let is_true = machine.holds(*relation, *left, *right);
            machine.set_number(*to, u64::from(is_true));
        }
        MidOp::Check {
            relation,
            left,
            right,
            fault,
            pos,
        } => {
            if !machine.holds(*relation, *left, *right) {
                machine.fail(Stop::Fault(*fault, *pos));
            }
        }
        _ => carry_out_move(machine, op),
    }
}

/// An operation that moves words from and to memory.
fn carry_out_move(machine: &mut Machine<'_>, op: &MidOp<'_>) {
    match op {
        MidOp::Load { to, from } => {
            let at = machine.memory_word(*from);
            let word = machine.load(at);
            machine.set(*to, word);
        }
        MidOp::Store { at, from } => {
            let word = machine.operand(*from);
            let at = machine.memory_word(*at);
            machine.store(at, word);
        }
        MidOp::Copy {
            to_address,
            from_address,
            words,
        } => {
            let (to, from) = (machine.temp(*to_address), machine.temp(*from_address));
            let words = machine.number(*words);
            let row = machine.row(from, words);
            machine.put_row(to, row.as_slice());
        }
        MidOp::Fill {
            at,
            words,
            distance,
        } => {
            let (at, words) = (machine.temp(*at), machine.number(*words));
            let distance = machine.number(*distance);
            machine.move_words(at, at.further(distance), words);
        }
        _ => {}
    }
}

/// An operation that gives an address.
fn find_address(machine: &mut Machine<'_>, op: &MidOp<'_>) {
    match op {
        MidOp::SlotAddress { to, slot } => {
            let at = machine.slot(*slot);
            machine.set(*to, at);
        }
        MidOp::FrameAddress { to } => {
            let at = machine.frame();
            machine.set(*to, at);
        }
        MidOp::GlobalAddress { to, word } => machine.set(*to, Word::global(*word)),
        MidOp::TextCell { to, text } => {
            let at = machine.constant(machine.texts, *text);
            machine.set_number(*to, at);
        }
        MidOp::ConstantAddress { to, constant } => {
            let at = machine.constant(machine.values, *constant);
            machine.set_number(*to, at);
        }
        MidOp::Index {
            to,
            array,
            index,
            words,
            offset,
        } => {
            let array = machine.temp(*array);
            let distance = machine.number(*index).wrapping_mul(*words);
            let at = array.further(distance).further(offset.cast_unsigned());
            machine.set(*to, at);
        }
        _ => {}
    }
}

/// An operation that asks about cells and their words.
fn answer(machine: &mut Machine<'_>, op: &MidOp<'_>) {
    match op {
        MidOp::TypeTest { to, cell, tested } => {
            let kind = machine.type_at(*cell);
            let is_below = machine.is_below(kind, *tested);
            machine.set_number(*to, u64::from(is_below));
        }
        MidOp::MethodOf { to, object, method } => {
            let kind = machine.type_at(*object);
            let code = machine.method(kind, *method);
            machine.set_number(*to, u64::from(code));
        }
        MidOp::TextByte { to, text, index } => {
            let byte = machine.text_byte(*text, *index);
            machine.set_number(*to, byte);
        }
        MidOp::EqualTexts { to, left, right } => {
            let is_equal = machine.are_equal_texts(*left, *right);
            machine.set_number(*to, u64::from(is_equal));
        }
        MidOp::EqualWords {
            to,
            left,
            right,
            words,
        } => {
            let is_equal = machine.are_equal_words(*left, *right, *words);
            machine.set_number(*to, u64::from(is_equal));
        }
        _ => {}
    }
}
