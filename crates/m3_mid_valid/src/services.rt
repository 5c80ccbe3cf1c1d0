ghost use Rattle.std.specs.Prelude.{◌≡◌, ◌↔◌, IsTrue, length};
ghost use Rattle.m3_mid_valid.specs.Calls.{IsOf, HasOperand, TakesNone, TakesOne, TakesTwo};
ghost use Rattle.m3_mid_valid.specs.Calls.{FitsOperands, given, FitsGiven, may_alert, FitsAlert};
ghost use Rattle.m3_mid_valid.specs.Calls.{FitsService};

use crate::operands::{has_kind, is_number, is_tidy};
use m3_mid::{Kind, Operand, Service};

fn is_of(temps: &[Kind], operand: Operand, kind: Kind) -> bool
    ensures { IsTrue result ↔ IsOf temps.now operand kind }
{
    match kind {
        Kind::Number => is_number(temps, operand),
        Kind::Tidy => is_tidy(temps, operand),
        Kind::Address => false,
    }
}

fn has_operand(temps: &[Kind], row: &[Operand], place: usize, kind: Kind) -> bool
    ensures { IsTrue result ↔ HasOperand temps.now row.now place kind }
{
    match row.get(place) {
        Some(operand) => is_of(temps, *operand, kind),
        None => false,
    }
}

fn takes_none(row: &[Operand]) -> bool
    ensures { IsTrue result ↔ TakesNone row.now }
{
    row.len() == 0
}

fn takes_one(temps: &[Kind], row: &[Operand], kind: Kind) -> bool
    ensures { IsTrue result ↔ TakesOne temps.now row.now kind }
{
    row.len() == 1 && has_operand(temps, row, 0, kind)
}

fn takes_two(temps: &[Kind], row: &[Operand], first: Kind, second: Kind) -> bool
    ensures { IsTrue result ↔ TakesTwo temps.now row.now first second }
{
    row.len() == 2 && (has_operand(temps, row, 0, first) && has_operand(temps, row, 1, second))
}

fn takes_part(temps: &[Kind], row: &[Operand]) -> bool
    ensures { IsTrue result ↔ FitsOperands temps.now Service.Subtext row.now }
{
    row.len() == 3
        && (has_operand(temps, row, 0, Kind::Tidy)
            && (has_operand(temps, row, 1, Kind::Number)
                && has_operand(temps, row, 2, Kind::Number)))
}

/// Whether operands are those of a service.
fn fits_operands(temps: &[Kind], service: Service, row: &[Operand]) -> bool
    ensures { IsTrue result ↔ FitsOperands temps.now service row.now }
{
    match service {
        Service::GetByte | Service::EndOfInput | Service::MySelf | Service::TestAlert => {
            takes_none(row)
        }
        Service::PutNumber | Service::PutByte | Service::ByteText => {
            takes_one(temps, row, Kind::Number)
        }
        Service::Put
        | Service::Fork
        | Service::Join
        | Service::Acquire
        | Service::Release
        | Service::Signal
        | Service::Broadcast
        | Service::Alert
        | Service::AlertJoin => takes_one(temps, row, Kind::Tidy),
        Service::Concatenate | Service::Wait | Service::AlertWait => {
            takes_two(temps, row, Kind::Tidy, Kind::Tidy)
        }
        Service::Subtext => takes_part(temps, row),
    }
}

/// The kind of what a service gives, if it gives anything.
fn kind_given(service: Service) -> Option<Kind>
    ensures { result ≡ given service }
{
    match service {
        Service::GetByte | Service::EndOfInput | Service::TestAlert => Some(Kind::Number),
        Service::Concatenate
        | Service::ByteText
        | Service::Subtext
        | Service::Fork
        | Service::Join
        | Service::AlertJoin
        | Service::MySelf => Some(Kind::Tidy),
        Service::Put
        | Service::PutNumber
        | Service::PutByte
        | Service::Acquire
        | Service::Release
        | Service::Wait
        | Service::Signal
        | Service::Broadcast
        | Service::Alert
        | Service::AlertWait => None,
    }
}

fn fits_given(temps: &[Kind], to: Option<u32>, gives: Option<Kind>) -> bool
    ensures { IsTrue result ↔ FitsGiven temps.now to gives }
{
    match to {
        Some(to) => match gives {
            Some(kind) => has_kind(temps, to, kind),
            None => false,
        },
        None => true,
    }
}

/// Whether a service may raise Thread.Alerted.
fn alerts(service: Service) -> bool
    ensures { result ≡ may_alert service }
{
    matches!(service, Service::AlertWait | Service::AlertJoin)
}

fn fits_alert(temps: &[Kind], raised: Option<u32>, alerts: bool) -> bool
    ensures { IsTrue result ↔ FitsAlert temps.now raised alerts }
{
    match raised {
        Some(temp) => alerts && has_kind(temps, temp, Kind::Number),
        None => !alerts,
    }
}

/// Whether a service takes and gives what it is to.
pub(crate) fn fits_service(
    temps: &[Kind],
    service: Service,
    row: &[Operand],
    to: Option<u32>,
    raised: Option<u32>,
) -> bool
    ensures { IsTrue result ↔ FitsService temps.now service row.now to raised }
{
    fits_operands(temps, service, row)
        && (fits_given(temps, to, kind_given(service))
            && fits_alert(temps, raised, alerts(service)))
}
