//! What the temporaries of one of the two procedures hold.

ghost use Rattle.std.specs.Option.{option_copied};
ghost use Rattle.std.specs.Prelude.{◌≡◌, IfOk};
ghost use Rattle.m3_same_forms.specs.Sides.{default_form, form_at};
ghost use Rattle.m3_same_forms.specs.Sides as sides;
ghost use Rattle.m3_same_forms.specs.Seen.{operand_form};

use crate::forms::{Form, Setting, Symbol};
use m3_mid::Operand;
use std::alloc::{AllocError, Global};

/// What the temporaries of one side hold: what was set, newest first, and else what the default
/// says: of the left side the temporary itself; of the right one the left one's, where the two have
/// it in common.
#[derive(Clone, Copy)]
pub struct Side<'s> {
    pub alloc: Global,
    pub common: Option<&'s [bool]>,
    pub settings: &'s [Setting],
}

fn is_common(common: &[bool], temp: u32) -> bool
    ensures { result ≡ sides.is_common common.now temp }
{
    match common.get(temp as usize) {
        Some(is_common) => *is_common,
        None => false,
    }
}

impl<'s> Side<'s> {
    fn default_form(self, temp: u32) -> Result<Form, AllocError>
        ensures { IfOk result (λ f. f ≡ default_form (option_copied self.entry.common) temp) }
    {
        match self.common {
            None => Form::of_symbol(self.alloc, Symbol::Left(temp)),
            Some(common) => {
                if is_common(common, temp) {
                    Form::of_symbol(self.alloc, Symbol::Left(temp))
                } else {
                    Form::of_symbol(self.alloc, Symbol::Right(temp))
                }
            }
        }
    }

    /// What a temporary holds.
    pub fn temp(self, temp: u32) -> Result<Form, AllocError>
        ensures { IfOk result (λ f. f
            ≡ form_at (option_copied self.entry.common) self.entry.settings.now temp) }
    {
        for setting in self.settings {
            if temp == setting.temp {
                return setting.value.copy(self.alloc);
            }
        }
        self.default_form(temp)
    }

    /// What an operand is.
    pub fn operand(self, operand: Operand) -> Result<Form, AllocError>
        ensures { IfOk result (λ f. f ≡ operand_form
            (form_at (option_copied self.entry.common) self.entry.settings.now) operand) }
    {
        match operand {
            Operand::Temp(temp) => self.temp(temp),
            Operand::Number(number) => Form::of_number(self.alloc, number.cast_unsigned()),
        }
    }
}
