//! Small linked programs whose runs are computed, and laws of the runs of middle code.
#![tactic(auto)]

ghost use Rattle.m3_mid_programs_tests.specs.Example.{ExamplePuts21};
ghost use Rattle.m3_mid_programs_tests.specs.Raising.{ExamplePutsRaised};
ghost use Rattle.m3_mid_programs_tests.specs.Texts.{ExamplePutsText};
ghost use Rattle.m3_mid_programs_tests.specs.Laws.{GoesOn, OutputGrows, BudgetEnds};

/// A body calls a procedure with 20, which stores 21 and 20 at the address for its result. The body
/// puts the first, and the program is done after three turns.
pub fn example_puts_21()
    ensures { ExamplePuts21 }
{}

/// A body calls a procedure inside it, which finds 37 in the body's frame and raises an exception with
/// that argument. The body puts the argument, and which exception it was.
pub fn example_puts_raised()
    ensures { ExamplePutsRaised }
{}

/// A body makes the texts of two bytes and the text of both, and puts that one.
pub fn example_puts_text()
    ensures { ExamplePutsText }
{}

/// A run of more turns goes on from where a run of fewer came, and an outcome is final.
pub fn goes_further()
    ensures { GoesOn }
{}

/// The output only grows, at its end.
pub fn output_grows()
    ensures { OutputGrows }
{}

/// Each turn passes one point, and no run passes more than it may.
pub fn budget_ends()
    ensures { BudgetEnds }
{}
