ghost use Rattle.std.specs.Prelude.{◌≡◌, ◌≤◌, ℕ, None, OnErr};

use crate::sinks::{Sink, SinkFailed};
use std::io::{ErrorKind, Stderr, Stdout};
use std::marker::Model;

/// A standard stream. It tells nothing of what it took, and counts its faults.
#[derive(Drop)]
pub struct StdSink<P> {
    to: P,
    faults: u64,
}

impl<P> Model for StdSink<P> {
    ghost use Rattle.std.specs.Prelude.{ℕ};

    ghost Value = { ℕ };

    ghost view = { λ s. s.faults };
}

impl StdSink<Stdout> {
    /// Standard output, with its count at 0.
    pub fn out(to: Stdout) -> StdSink<Stdout>
        ensures { result ≡ 0 }
    {
        StdSink { to, faults: 0 }
    }
}

impl StdSink<Stderr> {
    /// Standard error, with its count at 0.
    pub fn err(to: Stderr) -> StdSink<Stderr>
        ensures { result ≡ 0 }
    {
        StdSink { to, faults: 0 }
    }
}

/// Whether all of the bytes were written.
fn prints_whole<P: Print>(to: &P, bytes: &[u8]) -> bool {
    let mut rest = bytes;
    for _turn in 0..u64::MAX {
        if rest.is_empty() {
            return true;
        }
        match to.write_some(rest) {
            Ok(0) => return false,
            Ok(count) => rest = &rest[count..],
            Err(e) if e.kind() == ErrorKind::Interrupted => {}
            Err(_) => return false,
        }
    }
    false
}

impl<P: Print> Sink for StdSink<P> {
    ghost taken = { λ _. None };

    ghost waiting = { λ _. 0 };

    ghost faults = { λ s. s };

    fn put(&mut self, piece: &[u8]) -> Result<(), SinkFailed> {
        if prints_whole(&self.to, piece) {
            return Ok(());
        }
        self.faults = self.faults.saturating_add(1);
        Err(SinkFailed)
    }
}
