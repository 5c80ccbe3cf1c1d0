//! Laws of the meaning of checked programs, whatever the program: of runs, of single forms, and of
//! all forms together.
#![tactic(auto)]

ghost use Rattle.m3_source_laws.specs.Growing.{StoreGrows};
ghost use Rattle.m3_source_laws.specs.Limits.{AnswersFall, LoopsEnd, LoopsGoOn};
ghost use Rattle.m3_source_laws.specs.Own.{OwnStays};
ghost use Rattle.m3_source_laws.specs.Laws.{HasOneRun, GoesOn, OutputGrows, BudgetEnds, EveryTurnEnds};
ghost use Rattle.m3_source_meaning.specs.Laws.{LeftFaultsFirst, IsAssociative, FinallyNothing, FinallyRuns, FinallyReplaces, NothingHandled, ElseHandlesAll, ExitEndsLoop, PendingCounts};

/// A program has one run under each schedule.
pub fn one_run()
    ensures { HasOneRun }
{}

/// A run of more turns goes on from where a run of fewer came, and an outcome is final.
pub fn goes_further()
    ensures { GoesOn }
{}

/// The output only grows, at its end.
pub fn output_grows()
    ensures { OutputGrows }
{}

/// Each turn passes one point, and no run passes more than it may.
pub fn budget_ends()
    ensures { BudgetEnds }
{}

/// An activation has one next move, whatever it is told.
pub fn every_turn_ends()
    ensures { EveryTurnEnds }
{}

/// The fault of a left operand comes before anything of the right one.
pub fn left_faults_first()
    ensures { LeftFaultsFirst }
{}

/// Statements are in order, however they are put together.
pub fn associative()
    ensures { IsAssociative }
{}

/// TRY FINALLY without a last part is its body.
pub fn finally_nothing()
    ensures { FinallyNothing }
{}

/// The last part of TRY FINALLY comes before each of the four ways out of its body.
pub fn finally_runs()
    ensures { FinallyRuns }
{}

/// A RETURN in the last part replaces every way in which the body was left.
pub fn finally_replaces()
    ensures { FinallyReplaces }
{}

/// TRY EXCEPT without handlers is its body.
pub fn nothing_handled()
    ensures { NothingHandled }
{}

/// The ELSE of a TRY EXCEPT handles RETURN and EXIT too.
pub fn else_handles_all()
    ensures { ElseHandlesAll }
{}

/// A loop whose body is EXIT does nothing.
pub fn exit_ends_loop()
    ensures { ExitEndsLoop }
{}

/// An activation only lets the store grow: cells and activations stay, a cell keeps its type and an
/// activation the one around it.
pub fn store_grows()
    ensures { StoreGrows }
{}

/// Statements hand on no more answers than they were given.
pub fn answers_fall()
    ensures { AnswersFall }
{}

/// No loop of a program ends for want of turns: whatever stood at the limit that its meaning has,
/// it would mean the same.
pub fn loops_end()
    ensures { LoopsEnd }
{}

/// A loop is its first turn and then, where that wasn't the last, the loop again.
pub fn loops_go_on()
    ensures { LoopsGoOn }
{}

/// No place of a variable gets out that its activation doesn't share: no actual and no alias is
/// one, and no store has the variable, whatever the activation is called with and told that names
/// none.
pub fn own_stays()
    ensures { OwnStays }
{}

/// The words of a state count each cell that is named by what an activation holds for later, or by
/// the action at which its thread stands.
pub fn pending_counts()
    ensures { PendingCounts }
{}
