//! The view of a machine, and where the output of a run goes that is only looked at.
ghost use Rattle.std.specs.Prelude.{None};
ghost use Rattle.m3_image_decoded.specs.Ready.{image_of};
ghost use Rattle.m3_run_state.specs.Seen.{state_of};
ghost use Rattle.m3_inspect.specs.Shown.{Views};

use crate::values::View;
use crate::views::{ViewRefused, view_of};
use m3_heap::Store;
use m3_machine::Machine;
use m3_ports::{Sink, SinkFailed};
use std::alloc::Global;
use std::sync::ledger::Ledger;

/// A sink that takes all that is put and keeps none of it. It never fails.
#[derive(Clone, Copy, Debug, PartialEq, Eq)]
pub struct Quiet;

impl Sink for Quiet {
    ghost taken = { λ quiet. None };

    ghost waiting = { λ quiet. 0 };

    ghost faults = { λ quiet. 0 };

    fn put(&mut self, _piece: &[u8]) -> Result<(), SinkFailed> {
        Ok(())
    }
}

/// What a machine shows whose run used up its points.
pub fn view<S: Store, L: Ledger>(
    alloc: Global,
    machine: &Machine<'_, S, L>,
) -> Result<View, ViewRefused>
    ensures { Views (image_of machine.now.parts.image) (state_of machine.now.parts).all
        (state_of machine.now.parts).globals result }
{
    view_of(
        alloc,
        machine.decoded(),
        machine.threads(),
        machine.globals(),
    )
}
