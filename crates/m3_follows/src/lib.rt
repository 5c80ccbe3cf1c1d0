//! What it means that an image follows a checked program, the promise of the whole product, and what
//! may be relied on where it holds.
#![tactic(auto)]

ghost use Rattle.m3_follows.specs.Laws.{IgnoresCollections, HasOneEnd};

/// The source takes no notice of collections: schedules that name the same threads lead to the same.
pub fn collections_ignored()
    ensures { IgnoresCollections }
{}

/// Two runs of an image that follows a program end in the same way, after as many points and with the
/// same output, whatever the sizes of their heaps and stacks are and whenever they collect, where
/// neither lacked room.
pub fn one_end()
    ensures { HasOneEnd }
{}
