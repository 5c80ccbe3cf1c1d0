use crate::machine::Machine;
use m3_mid::{Kind, Slot};
use m3_mid_memory::{Memory, STALE, Word};

impl<'a> Machine<'a> {
    /// Passes a point, at which a collection may move each cell. What is no number of Kind Number
    /// and no tidy pointer of Kind Tidy isn't known to a collector: nothing may use it from here
    /// on. What a slot for tidy pointers holds is one.
    pub(crate) fn pass_point(&mut self, temps: &[Kind], slots: &[Slot]) {
        if self.is_over() {
            return;
        }
        self.points = self.points.saturating_add(1);
        if let Some(top) = self.stack.last_mut() {
            forget(&self.memory, temps, &mut top.temps);
        }
        let mut at = self.frame().further(3);
        for slot in slots {
            self.check_slot(at, slot.kind);
            at = at.further(1);
        }
    }

    fn check_slot(&mut self, at: Word, kind: Kind) {
        let word = self.load(at);
        match kind {
            Kind::Tidy if !self.memory.is_tidy(word) => {
                self.stick("no tidy pointer in a slot for one");
            }
            Kind::Number if self.memory.is_in_heap(word) => self.store(at, STALE),
            _ => {}
        }
    }
}

fn forget(memory: &Memory<'_>, kinds: &[Kind], temps: &mut Vec<Word>) {
    for (temp, kind) in temps.iter_mut().zip(kinds) {
        let is_known = match kind {
            Kind::Number => !memory.is_in_heap(*temp),
            Kind::Tidy => memory.is_tidy(*temp),
            Kind::Address => true,
        };
        if !is_known {
            *temp = STALE;
        }
    }
}
