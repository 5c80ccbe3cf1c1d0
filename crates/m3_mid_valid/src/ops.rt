ghost use Rattle.std.specs.Prelude.{◌≡◌, ◌↔◌, ◌<◌, IsTrue};
ghost use Rattle.m3_mid.specs.declared.ops.MidOp.TheVariants as ops;
ghost use Rattle.m3_mid_valid.specs.Kinds.{HasKind, IsNumber};
ghost use Rattle.m3_mid_valid.specs.Calls.{FitsResult, FitsRaised, AreShown};
ghost use Rattle.m3_mid_valid.specs.WellFormed.{FitsSizes, IsOp, FitsException, IsBlockNumber};
ghost use Rattle.m3_mid_valid.specs.WellFormed.{IsEnd};

use crate::calls::{are_actuals, are_shown, fits_callee, fits_raised, fits_result};
use crate::memory::{fits_fill, fits_load, fits_row, fits_store, is_shared_slot};
use crate::operands::{Surroundings, has_kind, is_number, is_tidy, is_untidy, is_word};
use crate::operations::{
    fits_arith, fits_index, fits_move, fits_number, fits_relation, is_number_sum,
};
use crate::services::fits_service;
use m3_mid::{End, Kind, MidOp, Operand, Proc, Raised, Shown};

fn fits_sizes(p: &Proc, sizes: Option<u32>) -> bool
    ensures { IsTrue result ↔ FitsSizes p.now sizes }
{
    match sizes {
        Some(first) => (first as usize) < p.slots.len(),
        None => true,
    }
}

// What a call gives back, and what is shown while it runs.
fn fits_answer(p: &Proc, to: Option<u32>, raised: Option<Raised>, shown: &[Shown]) -> bool
    ensures { IsTrue result ↔ (FitsResult p.now to × (FitsRaised p.now raised
        × AreShown p.now shown.now)) }
{
    fits_result(p, to) && (fits_raised(p, raised) && are_shown(p, shown))
}

fn has_kinds(temps: &[Kind], first: u32, kind: Kind, second: u32, other: Kind) -> bool
    ensures { IsTrue result ↔ (HasKind temps.now first kind × HasKind temps.now second other) }
{
    has_kind(temps, first, kind) && has_kind(temps, second, other)
}

/// Whether an operation is well formed.
pub(crate) fn is_op(p: &Proc, around: &Surroundings, op: MidOp) -> bool
    ensures { IsTrue result ↔ IsOp p.now around.now op.entry }
{
    let temps = p.temps;
    match op {
        MidOp::Number { to, value } => fits_number(temps, to, value),
        MidOp::Move { to, from } => fits_move(temps, to, from),
        MidOp::Arith {
            to,
            operator,
            left,
            right,
        } => fits_arith(temps, to, operator, left, right),
        MidOp::Checked {
            to,
            operator: _,
            left,
            right,
            pos: _,
        } => is_number_sum(temps, to, left, right),
        MidOp::Compare {
            to,
            relation,
            left,
            right,
        } => has_kind(temps, to, Kind::Number) && fits_relation(temps, relation, left, right),
        MidOp::Load { to, from } => fits_load(p, around.global_words, to, from),
        MidOp::Store { at, from } => fits_store(p, around.global_words, at, from),
        MidOp::SlotAddress { to, slot } => is_untidy(temps, to) && is_shared_slot(p.slots, slot),
        MidOp::FrameAddress { to } => has_kind(temps, to, Kind::Number),
        MidOp::GlobalAddress { to, word } => is_untidy(temps, to) && word < around.global_words,
        MidOp::TextCell { to, text } => has_kind(temps, to, Kind::Tidy) && text < around.texts,
        MidOp::ConstantAddress { to, constant } => {
            is_untidy(temps, to) && constant < around.constants
        }
        MidOp::Index {
            to,
            array,
            index,
            words: _,
            offset: _,
        } => fits_index(temps, to, array, index),
        MidOp::Copy {
            to_address,
            from_address,
            words,
        } => fits_row(p, to_address, from_address, words),
        MidOp::Fill {
            at,
            words,
            distance,
        } => fits_fill(p, at, words, distance),
        MidOp::EqualWords {
            to,
            left,
            right,
            words,
        } => has_kind(temps, to, Kind::Number) && fits_row(p, left, right, words),
        MidOp::Check {
            relation,
            left,
            right,
            fault: _,
            pos: _,
        } => fits_relation(temps, relation, left, right),
        MidOp::TypeTest { to, cell, tested } => {
            has_kind(temps, to, Kind::Number)
                && (has_kind(temps, cell, Kind::Tidy) && tested < around.types)
        }
        MidOp::MethodOf {
            to,
            object,
            method: _,
        } => has_kinds(temps, to, Kind::Number, object, Kind::Tidy),
        MidOp::TextByte { to, text, index } => {
            has_kind(temps, to, Kind::Number)
                && (has_kind(temps, text, Kind::Tidy) && is_number(temps, index))
        }
        MidOp::EqualTexts { to, left, right } => {
            has_kind(temps, to, Kind::Number)
                && has_kinds(temps, left, Kind::Tidy, right, Kind::Tidy)
        }
        MidOp::Call {
            callee,
            actuals,
            result,
            raised,
            shown,
        } => {
            fits_callee(p, around.formals, callee, actuals)
                && (are_actuals(p, actuals) && fits_answer(p, result, raised, shown))
        }
        MidOp::Make {
            to,
            cell,
            sizes,
            shown,
        } => {
            has_kind(temps, to, Kind::Tidy)
                && (cell < around.types && (fits_sizes(p, sizes) && are_shown(p, shown)))
        }
        MidOp::Service {
            service,
            operands,
            to,
            raised,
            pos: _,
            shown,
        } => fits_service(temps, service, operands, to, raised) && are_shown(p, shown),
        MidOp::Point { shown } => are_shown(p, shown),
    }
}

fn fits_exception(p: &Proc, exceptions: u32, exception: Operand) -> bool
    ensures { IsTrue result ↔ FitsException p.now exceptions exception }
{
    match exception {
        Operand::Temp(temp) => has_kind(p.temps, temp, Kind::Number),
        Operand::Number(number) => 1 <= number && number <= i64::from(exceptions),
    }
}

fn is_block_number(p: &Proc, block: u32) -> bool
    ensures { IsTrue result ↔ IsBlockNumber p.now block }
{
    (block as usize) < p.blocks.len()
}

/// Whether the end of a block is well formed.
pub(crate) fn is_end(p: &Proc, around: &Surroundings, end: End) -> bool
    ensures { IsTrue result ↔ IsEnd p.now around.now end }
{
    match end {
        End::Goto(to) => is_block_number(p, to),
        End::If {
            relation,
            left,
            right,
            yes,
            no,
        } => {
            fits_relation(p.temps, relation, left, right)
                && (is_block_number(p, yes) && is_block_number(p, no))
        }
        End::Return { value } => match value {
            Some(value) => is_word(p.temps, value),
            None => true,
        },
        End::FaultAt { kind: _, pos: _ } => true,
        End::Raise {
            exception,
            number,
            tidy,
        } => {
            fits_exception(p, around.exceptions, exception)
                && (is_number(p.temps, number) && is_tidy(p.temps, tidy))
        }
    }
}
