//! Laws that show what the definitions say. Each is the contract of a function without a body.
ghost use Rattle.m3_mid_meaning.specs.Laws.{HasOneRun, GoesOnBehind, TakesOneArm, KeepsFault};
ghost use Rattle.m3_mid_meaning.specs.Laws.{KeepsOwnWords, GoesStepwise, GoesByStops};
ghost use Rattle.m3_mid_meaning.specs.Laws.{SameWhereDefined, FollowingComposes, AreProper};
ghost use Rattle.m3_mid_meaning.specs.WordLaws.{HaveSums, HaveTimes, HaveNumbers, HaveElements};
ghost use Rattle.m3_mid_meaning.specs.WordLaws.{HoldsInLayouts};

/// A procedure has at most one run for a list of answers: the same events, and the same end.
pub fn one_run()
    ensures { HasOneRun }
{}

/// More answers change nothing in a run that has ended, and go on behind one that waits.
pub fn more_answers()
    ensures { GoesOnBehind }
{}

/// An If leads where its relation says.
pub fn one_arm()
    ensures { TakesOneArm }
{}

/// A fault that ends a run has the kind and the place of the check that found it.
pub fn fault_in_place()
    ensures { KeepsFault }
{}

/// Wherever cells lie, sums, differences and addresses of words are the machine's.
pub fn every_layout()
    ensures { HoldsInLayouts }
{}

/// Sums and differences of words keep the laws of sums modulo 2^64.
pub fn sums_of_words()
    ensures { HaveSums }
{}

/// So do words that are taken so many times.
pub fn times_of_words()
    ensures { HaveTimes }
{}

/// Words that are numbers are added and multiplied as numbers are.
pub fn words_of_numbers()
    ensures { HaveNumbers }
{}

/// Element 0 is at the start of an array, and a sum of indices is so many elements further.
pub fn elements_of_arrays()
    ensures { HaveElements }
{}

/// A point leaves temporaries and unshared slots as they are.
pub fn own_words()
    ensures { KeepsOwnWords }
{}

/// A run is made of the effects of operations one after the other.
pub fn step_by_step()
    ensures { GoesStepwise }
{}

/// A run is the chain of its stops.
pub fn stop_by_stop()
    ensures { GoesByStops }
{}

/// A procedure that follows another has the same runs wherever these are defined.
pub fn same_where_defined()
    ensures { SameWhereDefined }
{}

/// Procedures that follow one another make a chain, as one pass after the other does.
pub fn one_after_the_other()
    ensures { FollowingComposes }
{}

/// Wherever an activation stands, temporaries are in normal form, and no address leads to its own
/// words.
pub fn proper_states()
    ensures { AreProper }
{}
