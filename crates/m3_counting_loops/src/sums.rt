//! What the temporaries of a block hold, as sums of what they held where it began.
use m3_base::NoMemory;
use m3_flow::{operands_of, settings_of, temp_of};
use m3_mid::{MidOp, Slot};
use m3_same_forms::{Form, Seen, Setting, Side, Symbol};
use std::alloc::Global;

/// The temporaries that the block at hand has set so far, and what they hold.
#[derive(Drop)]
pub(crate) struct Sums<'a> {
    alloc: Global,
    slots: &'a [Slot],
    values: Vec<Option<Form>>,
    set: Vec<u32>,
}

impl<'a> Sums<'a> {
    pub(crate) fn new(
        alloc: Global,
        slots: &'a [Slot],
        temps: usize,
    ) -> Result<Sums<'a>, NoMemory> {
        let mut values = Vec::new(alloc);
        for _temp in 0..temps {
            values.push(None)?;
        }
        Ok(Sums {
            alloc,
            slots,
            values,
            set: Vec::new(alloc),
        })
    }

    /// Begins a block.
    pub(crate) fn clear(&mut self) {
        for temp in &self.set {
            if let Some(value) = self.values.get_mut(*temp as usize) {
                *value = None;
            }
        }
        self.set.clear();
    }

    fn put(&mut self, temp: u32, value: Form) -> Result<(), NoMemory> {
        if let Some(place) = self.values.get_mut(temp as usize) {
            *place = Some(value);
            self.set.push(temp)?;
        }
        Ok(())
    }

    /// What the operands of an operation hold that the block has set.
    fn operands(&self, op: MidOp<'_>) -> Result<Vec<Setting>, NoMemory> {
        let mut settings = Vec::new(self.alloc);
        for operand in operands_of(op) {
            if let Some(temp) = temp_of(operand)
                && let Some(Some(value)) = self.values.get(temp as usize)
            {
                settings.push(Setting {
                    temp,
                    value: value.copy(self.alloc)?,
                })?;
            }
        }
        Ok(settings)
    }

    /// Goes on behind an operation. Gives the sum that it set a temporary to, if it is one.
    pub(crate) fn step(&mut self, op: MidOp<'_>) -> Result<Option<Form>, NoMemory> {
        let settings = self.operands(op)?;
        let side = Side {
            alloc: self.alloc,
            common: None,
            settings: settings.as_slice(),
        };
        if let Seen::Sets { to, value } = side.see(self.slots, &op)? {
            let sum = value.copy(self.alloc)?;
            self.put(to, value)?;
            return Ok(Some(sum));
        }
        for setting in settings_of(op) {
            if let Some(temp) = setting {
                self.put(temp, Form::of_symbol(self.alloc, Symbol::New(temp))?)?;
            }
        }
        Ok(None)
    }
}
