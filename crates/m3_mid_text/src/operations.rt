use crate::names::{operator_name, relation_sign, service_name, word_operator_name};
use crate::operands::Text;
use m3_base::fault_name;
use m3_mid::{End, MidOp};
use std::fmt;

impl fmt::Display for Text<MidOp<'_>> {
    fn fmt<W: fmt::Write>(&self, f: &mut fmt::Formatter<W>) -> fmt::Result {
        match self.0 {
            MidOp::Number { .. }
            | MidOp::Move { .. }
            | MidOp::Arith { .. }
            | MidOp::Checked { .. }
            | MidOp::Compare { .. } => put_sum(f, self.0),
            MidOp::Load { .. }
            | MidOp::Store { .. }
            | MidOp::Copy { .. }
            | MidOp::Fill { .. }
            | MidOp::EqualWords { .. }
            | MidOp::Check { .. } => put_memory(f, self.0),
            MidOp::SlotAddress { .. }
            | MidOp::FrameAddress { .. }
            | MidOp::GlobalAddress { .. }
            | MidOp::TextCell { .. }
            | MidOp::ConstantAddress { .. }
            | MidOp::Index { .. } => put_address(f, self.0),
            MidOp::TypeTest { .. }
            | MidOp::MethodOf { .. }
            | MidOp::TextByte { .. }
            | MidOp::EqualTexts { .. } => put_question(f, self.0),
            MidOp::Call { .. } | MidOp::Make { .. } | MidOp::Service { .. } | MidOp::Point { .. } =>
                put_point(f, self.0),
        }
    }
}

/// Numbers, moves, operators and relations.
fn put_sum<W: fmt::Write>(f: &mut fmt::Formatter<W>, op: MidOp) -> fmt::Result {
    match op {
        MidOp::Number { to, value } => write!(f, "t{to} := {value}"),
        MidOp::Move { to, from } => write!(f, "t{to} := t{from}"),
        MidOp::Arith {
            to,
            operator,
            left,
            right,
        } => {
            let name = word_operator_name(operator);
            write!(f, "t{to} := {name} {}, {}", Text(left), Text(right))
        }
        MidOp::Checked {
            to,
            operator,
            left,
            right,
            pos,
        } => {
            let name = operator_name(operator);
            write!(f, "t{to} := checked {name} {}, {}", Text(left), Text(right))?;
            write!(f, " at {}", Text(pos))
        }
        MidOp::Compare {
            to,
            relation,
            left,
            right,
        } => {
            let sign = relation_sign(relation);
            write!(f, "t{to} := {} {sign} {}", Text(left), Text(right))
        }
        _ => Ok(()),
    }
}

/// Words of memory that are loaded, stored and compared, and checks.
fn put_memory<W: fmt::Write>(f: &mut fmt::Formatter<W>, op: MidOp) -> fmt::Result {
    match op {
        MidOp::Load { to, from } => write!(f, "t{to} := {}", Text(from)),
        MidOp::Store { at, from } => write!(f, "{} := {}", Text(at), Text(from)),
        MidOp::Copy {
            to_address,
            from_address,
            words,
        } => write!(f, "copy t{to_address} := t{from_address} * {}", Text(words)),
        MidOp::Fill {
            at,
            words,
            distance,
        } => write!(f, "fill t{at} * {} from {}", Text(words), Text(distance)),
        MidOp::EqualWords {
            to,
            left,
            right,
            words,
        } => write!(f, "t{to} := words t{left} = t{right} * {}", Text(words)),
        MidOp::Check {
            relation,
            left,
            right,
            fault,
            pos,
        } => {
            let sign = relation_sign(relation);
            let name = fault_name(fault);
            write!(f, "check {} {sign} {}", Text(left), Text(right))?;
            write!(f, " else {name} at {}", Text(pos))
        }
        _ => Ok(()),
    }
}

fn put_address<W: fmt::Write>(f: &mut fmt::Formatter<W>, op: MidOp) -> fmt::Result {
    match op {
        MidOp::SlotAddress { to, slot } => write!(f, "t{to} := address of s{slot}"),
        MidOp::FrameAddress { to } => write!(f, "t{to} := address of the frame"),
        MidOp::GlobalAddress { to, word } => write!(f, "t{to} := address of g{word}"),
        MidOp::TextCell { to, text } => write!(f, "t{to} := text {text}"),
        MidOp::ConstantAddress { to, constant } => {
            write!(f, "t{to} := address of constant {constant}")
        }
        MidOp::Index {
            to,
            array,
            index,
            words,
            offset,
        } => write!(
            f,
            "t{to} := index t{array} + {words} * {} + {offset}",
            Text(index)
        ),
        _ => Ok(()),
    }
}

/// What is asked of cells and texts.
fn put_question<W: fmt::Write>(f: &mut fmt::Formatter<W>, op: MidOp) -> fmt::Result {
    match op {
        MidOp::TypeTest { to, cell, tested } => write!(f, "t{to} := t{cell} has type {tested}"),
        MidOp::MethodOf { to, object, method } => write!(
            f,
            "t{to} := method {method} of t{object}"
        ),
        MidOp::TextByte { to, text, index } => {
            write!(f, "t{to} := byte {} of t{text}", Text(index))
        }
        MidOp::EqualTexts { to, left, right } => write!(f, "t{to} := texts t{left} = t{right}"),
        _ => Ok(()),
    }
}

/// The temporary that gets a result, where there is one.
fn put_target<W: fmt::Write>(f: &mut fmt::Formatter<W>, to: Option<u32>) -> fmt::Result {
    match to {
        Some(to) => write!(f, "t{to} := "),
        None => Ok(()),
    }
}

/// The operations that pass a point.
fn put_point<W: fmt::Write>(f: &mut fmt::Formatter<W>, op: MidOp) -> fmt::Result {
    match op {
        MidOp::Call {
            callee,
            actuals,
            result,
            raised,
            shown,
        } => {
            put_target(f, result)?;
            write!(f, "call {}({})", Text(callee), Text(actuals))?;
            write!(f, "{}{}", Text(raised), Text(shown))
        }
        MidOp::Make {
            to,
            cell,
            sizes,
            shown,
        } => {
            write!(f, "t{to} := new type {cell}")?;
            if let Some(first) = sizes {
                write!(f, " sizes s{first}")?;
            }
            write!(f, "{}", Text(shown))
        }
        MidOp::Service { .. } => put_service(f, op),
        MidOp::Point { shown } => write!(f, "point{}", Text(shown)),
        _ => Ok(()),
    }
}

fn put_service<W: fmt::Write>(f: &mut fmt::Formatter<W>, op: MidOp) -> fmt::Result {
    let MidOp::Service {
        service,
        operands,
        to,
        raised,
        pos,
        shown,
    } = op
    else {
        return Ok(());
    };
    put_target(f, to)?;
    let name = service_name(service);
    write!(f, "{name}({}) at {}", Text(operands), Text(pos))?;
    if let Some(temp) = raised {
        write!(f, " raised t{temp}")?;
    }
    write!(f, "{}", Text(shown))
}

impl fmt::Display for Text<End> {
    fn fmt<W: fmt::Write>(&self, f: &mut fmt::Formatter<W>) -> fmt::Result {
        match self.0 {
            End::Goto(to) => write!(f, "goto B{to}"),
            End::If {
                relation,
                left,
                right,
                yes,
                no,
            } => {
                let sign = relation_sign(relation);
                write!(f, "if {} {sign} {}", Text(left), Text(right))?;
                write!(f, " goto B{yes} else B{no}")
            }
            End::Return { value: Some(value) } => write!(f, "return {}", Text(value)),
            End::Return { value: None } => write!(f, "return"),
            End::FaultAt { kind, pos } => write!(f, "fault {} at {}", fault_name(kind), Text(pos)),
            End::Raise {
                exception,
                number,
                tidy,
            } => {
                write!(f, "raise {}", Text(exception))?;
                write!(f, " {} {}", Text(number), Text(tidy))
            }
        }
    }
}
