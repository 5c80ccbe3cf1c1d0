use crate::forwarding::forward_word;
use crate::spaces::Spaces;
use m3_heap::{Copying, Steps};
use std::sync::ledger::Ledger;

impl Copying for Spaces {
    ghost use Rattle.m3_generational.specs.Collecting.{left_of, kept_of, IsKeeping};

    ghost left = { left_of };

    ghost kept = { kept_of };

    ghost keeps = { IsKeeping };

    fn forward<L: Ledger>(&mut self, word: u64, steps: &mut Steps<L>) -> Option<u64> {
        forward_word(self, word, steps)
    }

    fn word(&self, at: u64) -> Option<u64> {
        if self.is_minor {
            self.here.word(at)
        } else {
            self.there.word(at)
        }
    }

    fn put(&mut self, at: u64, word: u64) {
        if self.is_minor {
            self.here.put(at, word);
        } else {
            self.there.put(at, word);
        }
    }

    fn end(&self) -> u64 {
        if self.is_minor {
            self.here.base() + self.here.total()
        } else {
            self.there.base() + self.there.total()
        }
    }
}
