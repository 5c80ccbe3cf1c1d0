//! The grammar of command lines, as `clap` takes it.
ghost use Rattle.std.specs.Prelude.{[], ◌∷◌, IfOk};
ghost use Rattle.clap.specs.Simple.{App};
ghost use Rattle.m3c_words.specs.Grammar.{build_command, command, exec_command, run_command};
ghost use Rattle.m3c_words.specs.Grammar.{file_words, flag, grammar, inspect_command, option, word};
ghost use Rattle.m3c_words.specs.Grammar.{options_with};
ghost use Rattle.m3c_words.specs.Built.{HasRule, ReadsBy, alone, with_rules};

use clap::{Arg, ArgAction, Command};
use m3_base::NoMemory;
use std::alloc::Global;

/// A command without words, flags or a help text of its own.
fn command<'a>(alloc: Global, name: &'a str) -> Command<'a>
    ensures { ReadsBy (alone (command name.entry.now [])) result }
{
    Command::new(alloc, name)
        .disable_help_flag(true)
        .disable_version_flag(true)
}

fn option<'a>(alloc: Global, name: &'a str) -> Arg<'a>
    ensures { HasRule (option name.entry.now) result }
{
    Arg::new(alloc, name).long(name).action(ArgAction::Set)
}

/// A flag, which has a value where it is written, as an option has that is written with it.
fn flag<'a>(alloc: Global, name: &'a str) -> Arg<'a>
    ensures { HasRule (flag name.entry.now) result }
{
    Arg::new(alloc, name)
        .long(name)
        .action(ArgAction::Set)
        .num_args(0)
        .default_missing_value("true")
}

/// A word that must stand there.
fn word<'a>(alloc: Global, name: &'a str) -> Arg<'a>
    ensures { HasRule (word name.entry.now) result }
{
    Arg::new(alloc, name).required(true).action(ArgAction::Set)
}

/// One FILE or more, also with options among them.
fn file_words<'a>(alloc: Global) -> Arg<'a>
    ensures { HasRule file_words result }
{
    Arg::new(alloc, "FILE")
        .required(true)
        .action(ArgAction::Append)
        .num_args(1..)
}

/// A command with the options of a run, of which one of this name says its points.
fn with_options<'a>(
    alloc: Global,
    command: Command<'a>,
    points: &'a str,
) -> Result<Command<'a>, NoMemory>
    ensures { (app : App) → ReadsBy app command.entry
        → IfOk result (ReadsBy (with_rules (options_with points.entry.now) app)) }
{
    let command = command
        .arg(option(alloc, "switches"))?
        .arg(option(alloc, points))?;
    let command = command
        .arg(option(alloc, "heap"))?
        .arg(option(alloc, "stack"))?
        .arg(option(alloc, "threads"))?;
    Ok(
        command
            .arg(option(alloc, "input"))?
            .arg(flag(alloc, "young"))?,
    )
}

fn build_command<'a>(alloc: Global) -> Result<Command<'a>, NoMemory>
    ensures { IfOk result (ReadsBy (alone build_command)) }
{
    Ok(
        command(alloc, "build")
            .arg(word(alloc, "IMAGE"))?
            .arg(file_words(alloc))?,
    )
}

fn run_command<'a>(alloc: Global) -> Result<Command<'a>, NoMemory>
    ensures { IfOk result (ReadsBy (alone run_command)) }
{
    let command = command(alloc, "run").arg(word(alloc, "IMAGE"))?;
    with_options(alloc, command, "points")
}

fn exec_command<'a>(alloc: Global) -> Result<Command<'a>, NoMemory>
    ensures { IfOk result (ReadsBy (alone exec_command)) }
{
    let command = command(alloc, "exec").arg(file_words(alloc))?;
    with_options(alloc, command, "points")
}

fn inspect_command<'a>(alloc: Global) -> Result<Command<'a>, NoMemory>
    ensures { IfOk result (ReadsBy (alone inspect_command)) }
{
    let command = command(alloc, "inspect").arg(word(alloc, "IMAGE"))?;
    with_options(alloc, command, "at")
}

/// A command with one word.
fn command_of_word<'a>(alloc: Global, name: &'a str, id: &'a str) -> Result<Command<'a>, NoMemory>
    ensures { IfOk result (ReadsBy (alone (command name.entry.now (word id.entry.now ∷ [])))) }
{
    Ok(command(alloc, name).arg(word(alloc, id))?)
}

/// The commands, one of which must be named.
pub fn whole_command<'a>(alloc: Global) -> Result<Command<'a>, NoMemory>
    ensures { IfOk result (ReadsBy grammar) }
{
    let build = build_command(alloc)?;
    let run = run_command(alloc)?;
    let exec = exec_command(alloc)?;
    let dump = command_of_word(alloc, "dump", "IMAGE")?;
    let bench = command_of_word(alloc, "bench", "N")?;
    let inspect = inspect_command(alloc)?;
    let whole = command(alloc, "m3c")
        .no_binary_name(true)
        .disable_help_subcommand(true)
        .subcommand_required(true)
        .subcommand(build)?
        .subcommand(run)?;
    let whole = whole.subcommand(exec)?.subcommand(dump)?;
    Ok(whole.subcommand(bench)?.subcommand(inspect)?)
}
