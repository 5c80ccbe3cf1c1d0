//! Each law is the contract of a function without a body.
ghost use Rattle.m3_mid_additions.specs.Laws.{AdditionsFollow};

/// What is added changes nothing of a run that is defined.
pub fn additions_follow()
    ensures { AdditionsFollow }
{}
