//! The command `inspect IMAGE --at K`: an image runs for so many points, and what it shows then is
//! put.
#![tactic(auto)]

ghost use Rattle.std.specs.Prelude.{◌≢◌, ℕ, Bool, List};
ghost use Rattle.m3_image_sections.specs.Parts.{Image};
ghost use Rattle.m3c_image_commands.specs.Reports.{Setting};
ghost use Rattle.m3c_image_commands.specs.Statuses.{Putting};
ghost use Rattle.m3c_inspect_command.specs.Inspecting.{Inspected};

mod inspecting;

pub use inspecting::inspect_image;

/// A run that used up its points is told as 0 or 17: 14 never comes.
pub fn spent_is_shown_or_trapped()
    ensures { (i : Image) (setting : Setting) (tells : Bool) (out : Putting) (status : ℕ)
        (line : List ℕ) → Inspected i setting tells out status line → status ≢ 14 }
{}
