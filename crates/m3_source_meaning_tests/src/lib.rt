//! A small program that is well typed, and whose meaning is computed.
#![tactic(auto)]

ghost use Rattle.m3_source_meaning_tests.specs.Example.{ExamplePutsThree, ExampleIsWellTyped};

/// A program that puts `1 + 2` and then divides by 0 puts 3 and ends with the fault of that line.
pub fn example_puts_three()
    ensures { ExamplePutsThree }
{}

/// The body of that program is well typed.
pub fn example_is_well_typed()
    ensures { ExampleIsWellTyped }
{}
