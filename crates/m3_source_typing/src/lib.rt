//! Which values a type has, which expressions and statements are well typed, and that these are
//! defined: no course of one comes to what has no meaning, whatever answers it is told that fit.
#![tactic(auto)]

ghost use Rattle.m3_source_typing.specs.Laws.{TypesStay, SameTypesShareValues, ExpressionsAreSound, BodiesAreSound, ProceduresAreSound};

/// A value keeps its type, however the store goes on.
pub fn types_stay()
    ensures { TypesStay }
{}

/// Types that are the same have the same values.
pub fn same_types_share_values()
    ensures { SameTypesShareValues }
{}

/// The meaning of a well typed expression is defined in each activation and gives values of its
/// type, if each answer fits the action at which its course stands.
pub fn expressions_are_sound()
    ensures { ExpressionsAreSound }
{}

/// The body of a procedure whose statements are well typed never comes to what isn't defined, and
/// leaves the store well typed, if each answer fits the action at which its course stands.
pub fn bodies_are_sound()
    ensures { BodiesAreSound }
{}

/// A well typed procedure that is called in a well typed store, with actuals that fit its formals,
/// never comes to what isn't defined, and leaves the store well typed.
pub fn procedures_are_sound()
    ensures { ProceduresAreSound }
{}
