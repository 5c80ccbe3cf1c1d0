//! A small instance of runs: code over cells that a collector moves does what it does over named
//! cells that never move. Its languages carry the laws of runs as contracts, which the laws of all
//! languages can't be, since a clause speaks of one language.
#![tactic(auto)]

ghost use Rattle.m3_runs_tests.specs.Example.{ExampleIsSound, ExamplePutsOne};
ghost use Rattle.m3_runs_tests.specs.Laws.{MovesUnseen, ProgramsMoveUnseen, ShowsTheSame};
ghost use Rattle.m3_runs_tests.specs.Laws.{Chooses, WakesLongest, HasOneRun, GoesOn, IgnoresLaterEntries, OutputGrows, BudgetEnds};

/// Whatever a collector moves, and whenever, isn't seen where places and rows are sound.
pub fn moves_unseen()
    ensures { MovesUnseen }
{}

/// So too of a program from its start.
pub fn programs_move_unseen()
    ensures { ProgramsMoveUnseen }
{}

/// At each point the same variables are shown.
pub fn shows_the_same()
    ensures { ShowsTheSame }
{}

/// The entry's thread goes if it may, else the one that went last, else the lowest that may.
pub fn chooses()
    ensures { Chooses }
{}

/// A Signal wakes the thread that sleeps longest on the condition.
pub fn wakes_longest()
    ensures { WakesLongest }
{}

/// A run over named cells is one.
pub fn one_run()
    ensures { HasOneRun }
{}

/// A run of more turns goes on from where a run of fewer came, and an outcome is final.
pub fn goes_on()
    ensures { GoesOn }
{}

/// Entries behind those that the turns take change nothing.
pub fn ignores_later_entries()
    ensures { IgnoresLaterEntries }
{}

/// The output only grows, at its end.
pub fn output_grows()
    ensures { OutputGrows }
{}

/// Each turn passes one point, and no run passes more than it may.
pub fn budget_ends()
    ensures { BudgetEnds }
{}

/// The example's places and rows are sound.
pub fn example_is_sound()
    ensures { ExampleIsSound }
{}

/// The example puts one number in its fifth turn and is done.
pub fn example_puts_one()
    ensures { ExamplePutsOne }
{}
