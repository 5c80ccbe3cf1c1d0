ghost use Rattle.std.specs.Prelude.{◌≡◌, ℕ, fold};
ghost use Rattle.m3_types.specs.Definitions.{head_of, head_of_branding};
ghost use Rattle.m3_types.specs.Marks.{mix, mark_of, mark_of_branding, mark_at};

use crate::nodes::{Brand, TypeNode};

fn mark_of_text(text: &[u8]) -> u32
    ensures { result ≡ fold mix 7 text.now }
{
    let mut mark = 7u32;
    for byte in text {
        mark = mark.wrapping_mul(31).wrapping_add(u32::from(*byte));
    }
    mark
}

fn mark_of_branding(brand: Option<Brand>) -> u32
    ensures { result ≡ mark_of_branding (head_of_branding brand.entry) }
{
    match brand {
        None => 0,
        Some(Brand::Occurrence(n)) => n,
        Some(Brand::Text(text)) => mark_of_text(text),
    }
}

fn mark_of(node: TypeNode) -> u32
    ensures { (place : ℕ) → result ≡ mark_of (head_of place node.entry) }
{
    match node {
        TypeNode::RefTo(brand, _) => mark_of_branding(brand),
        TypeNode::Object(brand, _, _, _, _) => mark_of_branding(brand),
        _ => 0,
    }
}

/// The mark of a branded type, which equal brands have in common; 0 for any other type.
pub(crate) fn mark_at(nodes: &[TypeNode], place: usize) -> u32
    ensures { result ≡ mark_at nodes.now place }
{
    match nodes.get(place) {
        Some(node) => mark_of(*node),
        None => 0,
    }
}
