//! When two points are the same.

ghost use Rattle.std.specs.Option.{option_copied};
ghost use Rattle.std.specs.Prelude.{◌≡◌, IfOk};
ghost use Rattle.m3_same_forms.specs.Sides.{form_at};
ghost use Rattle.m3_same_forms.specs.Same as same;

use crate::same::{same_choice, same_place, same_service};
use crate::side::Side;
use m3_mid::{Actual, Callee, Held, MidOp, Operand, Shown};
use std::alloc::AllocError;

/// The two sides.
#[derive(Clone, Copy)]
pub struct Sides<'s> {
    pub left: Side<'s>,
    pub right: Side<'s>,
}

impl<'s> Sides<'s> {
    fn same_temps(self, temp: u32, other: u32) -> Result<bool, AllocError>
        ensures { IfOk result (λ b. b
            ≡ same.same_temps
            (form_at (option_copied self.entry.left.common) self.entry.left.settings.now)
            (form_at (option_copied self.entry.right.common) self.entry.right.settings.now)
            temp other) }
    {
        let left = self.left.temp(temp)?;
        let right = self.right.temp(other)?;
        left.is_same(self.left.alloc, &right)
    }

    pub fn same_operand(self, operand: Operand, other: Operand) -> Result<bool, AllocError>
        ensures { IfOk result (λ b. b
            ≡ same.same_operand
            (form_at (option_copied self.entry.left.common) self.entry.left.settings.now)
            (form_at (option_copied self.entry.right.common) self.entry.right.settings.now)
            operand other) }
    {
        let left = self.left.operand(operand)?;
        let right = self.right.operand(other)?;
        left.is_same(self.left.alloc, &right)
    }

    fn same_operands(self, row: &[Operand], others: &[Operand]) -> Result<bool, AllocError>
        ensures { IfOk result (λ b. b
            ≡ same.same_operands
            (form_at (option_copied self.entry.left.common) self.entry.left.settings.now)
            (form_at (option_copied self.entry.right.common) self.entry.right.settings.now)
            row.now others.now) }
    {
        if row.len() != others.len() {
            return Ok(false);
        }
        let mut i = 0;
        while i < row.len() {
            if !self.same_operand(row[i], others[i])? {
                return Ok(false);
            }
            i += 1;
        }
        Ok(true)
    }

    fn same_actual(self, actual: Actual, other: Actual) -> Result<bool, AllocError>
        ensures { IfOk result (λ b. b
            ≡ same.same_actual
            (form_at (option_copied self.entry.left.common) self.entry.left.settings.now)
            (form_at (option_copied self.entry.right.common) self.entry.right.settings.now)
            actual other) }
    {
        match (actual, other) {
            (Actual::Word(word), Actual::Word(other)) => self.same_operand(word, other),
            (
                Actual::Slots { first, count },
                Actual::Slots {
                    first: other_first,
                    count: other_count,
                },
            ) => Ok(first == other_first && count == other_count),
            (
                Actual::Reference { address, base },
                Actual::Reference {
                    address: other_address,
                    base: other_base,
                },
            ) => {
                let is_address = self.same_temps(address, other_address)?;
                let is_base = self.same_operand(base, other_base)?;
                Ok(is_address && is_base)
            }
            _ => Ok(false),
        }
    }

    fn same_actuals(self, row: &[Actual], others: &[Actual]) -> Result<bool, AllocError>
        ensures { IfOk result (λ b. b
            ≡ same.same_actuals
            (form_at (option_copied self.entry.left.common) self.entry.left.settings.now)
            (form_at (option_copied self.entry.right.common) self.entry.right.settings.now)
            row.now others.now) }
    {
        if row.len() != others.len() {
            return Ok(false);
        }
        let mut i = 0;
        while i < row.len() {
            if !self.same_actual(row[i], others[i])? {
                return Ok(false);
            }
            i += 1;
        }
        Ok(true)
    }

    fn same_callee(self, callee: Callee, other: Callee) -> Result<bool, AllocError>
        ensures { IfOk result (λ b. b
            ≡ same.same_callee
            (form_at (option_copied self.entry.left.common) self.entry.left.settings.now)
            (form_at (option_copied self.entry.right.common) self.entry.right.settings.now)
            callee other) }
    {
        match (callee, other) {
            (Callee::Outermost(number), Callee::Outermost(other)) => Ok(number == other),
            (
                Callee::Inner {
                    procedure,
                    environment,
                },
                Callee::Inner {
                    procedure: other,
                    environment: other_environment,
                },
            ) => {
                let is_environment = self.same_temps(environment, other_environment)?;
                Ok(procedure == other && is_environment)
            }
            (
                Callee::Value { code, environment },
                Callee::Value {
                    code: other,
                    environment: other_environment,
                },
            ) => {
                let is_code = self.same_temps(code, other)?;
                let is_environment = self.same_temps(environment, other_environment)?;
                Ok(is_code && is_environment)
            }
            (Callee::Method(method), Callee::Method(other)) => Ok(method == other),
            _ => Ok(false),
        }
    }

    fn same_held(self, held: Held, other: Held) -> Result<bool, AllocError>
        ensures { IfOk result (λ b. b
            ≡ same.same_held
            (form_at (option_copied self.entry.left.common) self.entry.left.settings.now)
            (form_at (option_copied self.entry.right.common) self.entry.right.settings.now)
            held other) }
    {
        match (held, other) {
            (Held::Temp(temp), Held::Temp(other)) => self.same_temps(temp, other),
            (Held::Slot(slot), Held::Slot(other)) => Ok(slot == other),
            _ => Ok(false),
        }
    }

    fn same_shown(self, shown: Shown, other: Shown) -> Result<bool, AllocError>
        ensures { IfOk result (λ b. b
            ≡ same.same_shown
            (form_at (option_copied self.entry.left.common) self.entry.left.settings.now)
            (form_at (option_copied self.entry.right.common) self.entry.right.settings.now)
            shown other) }
    {
        let is_held = self.same_held(shown.at, other.at)?;
        Ok(shown.var == other.var && is_held)
    }

    fn same_showns(self, row: &[Shown], others: &[Shown]) -> Result<bool, AllocError>
        ensures { IfOk result (λ b. b
            ≡ same.same_showns
            (form_at (option_copied self.entry.left.common) self.entry.left.settings.now)
            (form_at (option_copied self.entry.right.common) self.entry.right.settings.now)
            row.now others.now) }
    {
        if row.len() != others.len() {
            return Ok(false);
        }
        let mut i = 0;
        while i < row.len() {
            if !self.same_shown(row[i], others[i])? {
                return Ok(false);
            }
            i += 1;
        }
        Ok(true)
    }

    pub fn same_point(self, op: &MidOp<'_>, other: &MidOp<'_>) -> Result<bool, AllocError>
        ensures { IfOk result (λ b. b
            ≡ same.same_point
            (form_at (option_copied self.entry.left.common) self.entry.left.settings.now)
            (form_at (option_copied self.entry.right.common) self.entry.right.settings.now)
            op.now other.now) }
    {
        match (op, other) {
            (
                MidOp::Call {
                    callee,
                    actuals,
                    shown,
                    ..
                },
                MidOp::Call {
                    callee: other_callee,
                    actuals: other_actuals,
                    shown: other_shown,
                    ..
                },
            ) => {
                let is_callee = self.same_callee(*callee, *other_callee)?;
                let is_row = self.same_actuals(actuals, other_actuals)?;
                let is_shown = self.same_showns(shown, other_shown)?;
                Ok(is_callee && is_row && is_shown)
            }
            (
                MidOp::Make {
                    cell,
                    sizes,
                    shown,
                    ..
                },
                MidOp::Make {
                    cell: other_cell,
                    sizes: other_sizes,
                    shown: other_shown,
                    ..
                },
            ) => {
                let is_shown = self.same_showns(shown, other_shown)?;
                Ok(*cell == *other_cell && same_choice(*sizes, *other_sizes) && is_shown)
            }
            (
                MidOp::Service {
                    service,
                    operands,
                    pos,
                    shown,
                    ..
                },
                MidOp::Service {
                    service: other_service,
                    operands: other_operands,
                    pos: other_pos,
                    shown: other_shown,
                    ..
                },
            ) => {
                let is_service = same_service(*service, *other_service);
                let is_row = self.same_operands(operands, other_operands)?;
                let is_place = same_place(*pos, *other_pos);
                let is_shown = self.same_showns(shown, other_shown)?;
                Ok(is_service && is_row && is_place && is_shown)
            }
            (MidOp::Point { shown }, MidOp::Point { shown: other }) => {
                self.same_showns(shown, other)
            }
            _ => Ok(false),
        }
    }
}
