//! The command `m3c`: from words, files and sinks to a status.
#![tactic(auto)]

ghost use Rattle.m3c.specs.Agreeing.{ExecAndRunAgree};

mod command;

pub use command::m3c;

/// `exec` of a text in the plain form, and `run` of the image that `build` stores of it, end alike:
/// with the same status, the same output and the same line.
pub fn exec_and_run_agree()
    ensures { ExecAndRunAgree }
{}
