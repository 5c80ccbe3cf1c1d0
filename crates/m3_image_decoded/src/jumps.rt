//! For each type a further ancestor, chosen so that any ancestor is found in logarithmic time
//! (Myers, An applicative random-access stack, 1983).
ghost use Rattle.std.specs.Prelude.{◌≡◌, ◌≤◌, ◌<◌, ℕ, length, IfOk, IsTrue, ◌↔◌, Some, map};
ghost use Rattle.m3_image_decoded.specs.Ancestors.{parent_of, IsForest, IsSubtype};
ghost use Rattle.m3_image_decoded.specs.Jumps.{JumpFits, JumpsFit};
ghost use Rattle.m3_image_decoded.specs.ReadyTypes.{ready_type};

use crate::types::ReadyType;
use m3_base::NoMemory;
use std::alloc::Global;

/// An ancestor of a type, or the type itself, and how many generations it stands above.
#[derive(Clone, Copy)]
pub(crate) struct Jump {
    pub(crate) to: usize,
    pub(crate) up: usize,
}

/// The number of a type's parent, where it has one.
#[tactic(auto, using(crate::proofs::AncestorLemmas::parent_at))]
fn parent_of(types: &[ReadyType<'_>], t: usize) -> Option<u32>
    requires { t < length types.now }
    ensures { result ≡ parent_of (map ready_type types.now) t }
{
    types[t].parent()
}

/// The jump of a type with a parent: over the parent's jump where that one and the next are as
/// long, and else to the parent.
fn jump_over(types: &[ReadyType<'_>], jumps: &[Jump], number: usize, parent: u32) -> Jump
    requires jumps { JumpsFit (map ready_type types.now) jumps.now }
    requires all { length jumps.now ≡ number }
    requires parent { parent_of (map ready_type types.now) number ≡ Some parent }
    requires lower { parent < number }
    ensures { JumpFits (map ready_type types.now) number result }
{
    let above = jumps[parent as usize];
    let far = jumps[above.to];
    if above.up == far.up {
        Jump {
            to: far.to,
            up: above.up + far.up + 1,
        }
    } else {
        Jump {
            to: parent as usize,
            up: 1,
        }
    }
}

/// The jumps of all types.
pub(crate) fn jumps(alloc: Global, types: &[ReadyType<'_>]) -> Result<Vec<Jump>, NoMemory>
    requires { IsForest (map ready_type types.now) }
    ensures fit { IfOk result (λ v. JumpsFit (map ready_type types.now) v.items) }
    ensures all { IfOk result (λ v. length v.items ≡ length types.now) }
{
    let mut found = Vec::new(alloc);
    for number in 0..types.len() {
        let jump = match parent_of(types, number) {
            Some(parent) => jump_over(types, &found, number, parent),
            None => Jump { to: number, up: 0 },
        };
        found.push(jump)?;
    }
    Ok(found)
}

/// Whether a type is another, or has it among its ancestors.
pub(crate) fn is_subtype(types: &[ReadyType<'_>], jumps: &[Jump], t: u32, u: u32) -> bool
    requires forest { IsForest (map ready_type types.now) }
    requires jumps { JumpsFit (map ready_type types.now) jumps.now }
    requires all { length jumps.now ≡ length types.now }
    requires there { t < length types.now }
    ensures { IsTrue result ↔ IsSubtype (map ready_type types.now) t u }
{
    let mut at = t as usize;
    let wanted = u as usize;
    while at > wanted {
        let jump = jumps[at];
        if jump.up > 0 && jump.to >= wanted {
            at = jump.to;
            continue;
        }
        match parent_of(types, at) {
            Some(parent) => at = parent as usize,
            None => return false,
        }
    }
    at == wanted
}
