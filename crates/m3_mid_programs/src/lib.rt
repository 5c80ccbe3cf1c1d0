//! The run of a linked program of middle code: what its activations are and how they go on, so that
//! programs of middle code run as all programs do.
#![tactic(auto)]

ghost use Rattle.m3_mid_programs.specs.Laws.{AreDetermined, HasOneRun, ComesToStops, MovesAsItRuns, ResultsHaveWords};
ghost use Rattle.m3_mid_programs.specs.Living.{AllStayLiving};
ghost use Rattle.m3_mid_programs.specs.Standing.{CellsReadTheSame, CellsWriteTheSame, RowsStay};

/// Each activation of middle code has one next move, and what is made leaves one state.
pub fn one_next_move()
    ensures { AreDetermined }
{}

/// A program of middle code has one run under each schedule.
pub fn one_run()
    ensures { HasOneRun }
{}

/// An activation comes to the points at which its code stops.
pub fn comes_to_stops()
    ensures { ComesToStops }
{}

/// The moves of an activation, told the answers to its actions one by one, are what the run of its
/// procedure says for these answers.
pub fn moves_as_it_runs()
    ensures { MovesAsItRuns }
{}

/// A caller is told as many words as the result of the procedure has.
pub fn results_have_their_words()
    ensures { ResultsHaveWords }
{}

/// Where each cell of the source stands in memory under its name, both read the same of it: who
/// holds a mutex, the number and the life of a thread, and the bytes of a text.
pub fn cells_read_the_same()
    ensures { CellsReadTheSame }
{}

/// Where the source lets a thread hold a mutex or join another, or ends one, middle code writes the
/// same, and each cell stands in memory again.
pub fn cells_write_the_same()
    ensures { CellsWriteTheSame }
{}

/// A row of words that stands for a value does so for ever, as activations are only added.
pub fn rows_stay()
    ensures { RowsStay }
{}

/// Wherever a linked program comes from its start, memory has the frame of each activation that
/// waits, under a number of its own; and so it has in the midst of each turn.
pub fn activations_live()
    ensures { AllStayLiving }
{}
