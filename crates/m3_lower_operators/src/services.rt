use m3_base::Pos;
use m3_core::Routine;
use m3_lower_state::{Around, Builder, Pending, choice, set};
use m3_mid::{Kind, MidOp, Operand, Relation, Service};

/// The service of the machine that a routine is.
pub fn service_of(routine: Routine) -> Option<Service> {
    match routine {
        Routine::Put => Some(Service::Put),
        Routine::PutInt => Some(Service::PutNumber),
        Routine::PutChar => Some(Service::PutByte),
        Routine::GetChar => Some(Service::GetByte),
        Routine::EndOfInput => Some(Service::EndOfInput),
        Routine::TextCat => Some(Service::Concatenate),
        Routine::TextFromChar => Some(Service::ByteText),
        Routine::TextSub => Some(Service::Subtext),
        Routine::Fork => Some(Service::Fork),
        Routine::Join => Some(Service::Join),
        Routine::Wait => Some(Service::Wait),
        Routine::Acquire => Some(Service::Acquire),
        Routine::Release => Some(Service::Release),
        Routine::Signal => Some(Service::Signal),
        Routine::Broadcast => Some(Service::Broadcast),
        Routine::MySelf => Some(Service::MySelf),
        Routine::Alert => Some(Service::Alert),
        Routine::TestAlert => Some(Service::TestAlert),
        Routine::AlertWait => Some(Service::AlertWait),
        Routine::AlertJoin => Some(Service::AlertJoin),
        _ => None,
    }
}

/// The kind of a service's result; none where it has none.
fn kind_of_result(service: Service) -> Option<Kind> {
    match service {
        Service::GetByte | Service::EndOfInput | Service::TestAlert => Some(Kind::Number),
        Service::Concatenate
        | Service::ByteText
        | Service::Subtext
        | Service::Fork
        | Service::Join
        | Service::AlertJoin
        | Service::MySelf => Some(Kind::Tidy),
        _ => None,
    }
}

/// The call of a service of the machine: its place and its operands.
#[derive(Clone, Copy)]
pub struct ServiceCall<'a> {
    pub service: Service,
    pub pos: Pos,
    pub operands: &'a [Operand],
}

/// A service, and for one that may be alerted the exception that it raises then.
pub fn serve<'m>(
    b: &mut Builder<'m, '_>,
    around: Around,
    call: ServiceCall,
    to: Option<u32>,
    rest: Pending<'m>,
) -> Pending<'m> {
    let service = call.service;
    let is_alerted = matches!(service, Service::AlertWait | Service::AlertJoin);
    let result = match kind_of_result(service) {
        Some(kind) => Some(b.temp(kind)),
        None => None,
    };
    let code = match (to, result) {
        (Some(to), Some(result)) => set(to, Operand::Temp(result), rest),
        _ => rest,
    };
    let (code, raised) = if is_alerted {
        let raised = b.temp(Kind::Number);
        (alerted(b, around, raised, code), Some(raised))
    } else {
        (code, None)
    };
    let operands = b.operand_row(call.operands);
    let shown = b.shown(around);
    code.after(MidOp::Service {
        service,
        operands,
        to: result,
        raised,
        pos: call.pos,
        shown,
    })
}

/// Raises Thread.Alerted where a service says so.
fn alerted<'m>(
    b: &mut Builder<'m, '_>,
    around: Around,
    raised: u32,
    rest: Pending<'m>,
) -> Pending<'m> {
    let next = b.seal(rest);
    let travels = b.raised;
    let raising = b
        .goto(around.raised)
        .after(MidOp::Number {
            to: travels.tidy,
            value: 0,
        })
        .after(MidOp::Number {
            to: travels.number,
            value: 0,
        })
        .after(MidOp::Number {
            to: travels.exception,
            value: i64::from(b.storage.alerted).wrapping_add(1),
        });
    let raising = b.seal(raising);
    choice(
        b,
        Relation::NotEqual,
        Operand::Temp(raised),
        Operand::Number(0),
        raising,
        next,
    )
}
