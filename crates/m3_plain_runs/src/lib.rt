//! What every run of the image of a module of the plain form puts.
#![tactic(auto)]

ghost use Rattle.std.specs.Prelude.{ℕ, ◌≡◌, ◌+◌, ◌≤◌, ◌<◌, ◌^◌, [], List};
ghost use Rattle.m3_heap.specs.Heap.{Heap};
ghost use Rattle.m3_plain.specs.Terms.{Term, points_of};
ghost use Rattle.m3_plain.specs.PlainForm.{IsPlain};
ghost use Rattle.m3_plain_image.specs.Image.{plain_program};
ghost use Rattle.m3_run_meaning.specs.State.{State};
ghost use Rattle.m3_run_meaning.specs.Runs.{Config, Begins, Leads, starting};
ghost use Rattle.m3_base.specs.declared.outcomes.Outcome.{Outcome as OutcomeValue};
ghost use Rattle.m3_plain_runs.specs.EndsAs.{IfOver, IsPlainRun};

/// Every run of the image of a text in the plain form, from its start, without switches and with
/// points for its puts, ends as the puts say, whatever the heap, the threads, the stacks and the
/// input are.
pub fn plain_runs()
    ensures { (text name : List ℕ) (puts : List Term) (heap : Heap) (threads stack points : ℕ)
        (input : List ℕ) (from : State) (c : Config) → IsPlain text puts
        → points_of puts ≤ points → points < 2 ^ 64
        → Begins (plain_program name puts) heap threads stack from
        → Leads (plain_program name puts) input (from.points + points) (starting from []) c
        → IfOver puts c.place c.output }
{}

/// Two runs of images of the same puts, over whatever heaps and stacks and on whatever input, end
/// after as many instructions.
pub fn plain_runs_agree()
    ensures { (text name other : List ℕ) (puts : List Term) (one two : State)
        (a b : OutcomeValue) → IsPlain text puts → IsPlainRun name puts one a
        → IsPlainRun other puts two b → two.instructions ≡ one.instructions }
{}
