ghost use Rattle.m3_same_run.specs.Laws.{CheckIsSound};

/// What the check accepts, follows: each defined run of the left procedure is a run of the right
/// one.
pub fn check_is_sound()
    ensures { CheckIsSound }
{}
