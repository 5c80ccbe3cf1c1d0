ghost use Rattle.std.specs.Prelude.{◌≡◌, IfOk};

use crate::relevance::{has_flag, relevant_temps};
use crate::sources::{Setting, all_settings};
use m3_base::NoMemory;
use m3_flow::{LiveSets, Order, block_order, live_with};
use m3_mid::Proc;
use std::alloc::Global;

/// A procedure with what is known of it before any bases are.
#[derive(Drop)]
pub(crate) struct Analysis<'a> {
    pub(crate) proc: Proc<'a>,
    pub(crate) order: Order,
    pub(crate) live: LiveSets,
    pub(crate) settings: Vec<Setting>,
    /// The derived temporaries whose bases are wanted.
    pub(crate) relevant: Vec<bool>,
}

impl<'a> Analysis<'a> {
    pub(crate) fn of(alloc: Global, p: &Proc<'a>) -> Result<Analysis<'a>, NoMemory>
        ensures { IfOk result (λ a. a.proc ≡ p.now) }
    {
        let order = block_order(alloc, p)?;
        let live = live_with(alloc, p, &order, &[])?;
        let settings = all_settings(alloc, p, &order)?;
        let relevant = relevant_temps(alloc, p, &order, &live, &settings)?;
        Ok(Analysis {
            proc: *p,
            order,
            live,
            settings,
            relevant,
        })
    }

    pub(crate) fn is_relevant(&self, temp: u32) -> bool {
        has_flag(&self.relevant, temp)
    }
}
