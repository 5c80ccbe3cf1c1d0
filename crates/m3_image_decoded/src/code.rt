//! The instructions of an image, each decoded once, and the procedure that each is in.
ghost use Rattle.std.specs.Prelude.{◌≡◌, ◌≤◌, ℕ, Some, length, IfOk, IfSome};
ghost use Rattle.std.specs.List.{slice_get};
ghost use Rattle.m3_image_sections.specs.declared.procs.ProcPart.{ProcPart};
ghost use Rattle.m3_image_sections.specs.Ranges.{containing};
ghost use Rattle.m3_image.specs.Views.{image_view};
ghost use Rattle.m3_image_decoded.specs.Code.{AreInstructions};

use m3_base::NoMemory;
use m3_image::{ImageView, ProcPart};
use m3_isa::Instr;
use std::alloc::Global;

/// The instructions of an image.
pub(crate) fn instructions(alloc: Global, image: &ImageView<'_>) -> Result<Vec<Instr>, NoMemory>
    ensures code { IfOk result (λ v. v.items ≡ (image_view image.now).program.code) }
    ensures good { IfOk result (λ v. AreInstructions v.items) }
{
    let mut found = Vec::new(alloc);
    for n in 0..image.code_len() {
        let Some(i) = image.code(n) else {
            break;
        };
        found.push(i)?;
    }
    Ok(found)
}

/// The procedures of an image.
pub(crate) fn procedures(alloc: Global, image: &ImageView<'_>) -> Result<Vec<ProcPart>, NoMemory>
    ensures { IfOk result (λ v. v.items ≡ (image_view image.now).program.procs) }
{
    let mut found = Vec::new(alloc);
    for proc in image.procs() {
        found.push(proc)?;
    }
    Ok(found)
}

/// The procedure of each instruction.
pub(crate) fn homes(alloc: Global, image: &ImageView<'_>) -> Result<Vec<ProcPart>, NoMemory>
    ensures homes { IfOk result
        (λ v. (n : ℕ) (p : ProcPart) → slice_get v.items n ≡ Some p
        → containing (image_view image.now).program.procs n ≡ Some p) }
    ensures all { IfOk result (λ v. length v.items ≡ length (image_view image.now).program.code) }
{
    let mut found = Vec::new(alloc);
    for n in 0..image.code_len() {
        let Some(proc) = image.containing(n) else {
            break;
        };
        found.push(proc)?;
    }
    Ok(found)
}
