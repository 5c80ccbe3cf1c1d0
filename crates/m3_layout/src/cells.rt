ghost use Rattle.std.specs.Prelude.{◌≡◌, ◌↔◌, ◌+◌, ◌<◌, ◌≤◌, ◌^◌, length, IsTrue, IfOk};
ghost use Rattle.m3_layout.specs.Pointers.{RisesWithin};
ghost use Rattle.m3_layout.specs.Cells.{IsValue, IsCell, HasCell, ref_target, unveiled};
ghost use Rattle.m3_layout.specs.Shapes.{layout_of, AreInOrder};
ghost use Rattle.m3_layout.specs.Depths.{value_cell, EndsWithin, open_element, target_cell, object_cell, line_of, line_words};
ghost use Rattle.std.specs.Option.{option_map};
ghost use Rattle.m3_types.specs.Definitions.{node_at};
ghost use Rattle.m3_types_sizes.specs.Sizes.{HasSize};

use crate::lines::{line_of, object_words};
use crate::open::{array_element, open_element};
use crate::walk::Walk;
use m3_base::NoMemory;
use m3_types::{Secret, TypeId, TypeNode};
use m3_types_sizes::SizedTypes;
use std::alloc::Global;

/// The layout of the cells of a type. A cell that isn't open has `dims` 0, its `words` count its
/// header, and its `pointers` are the words, counted from the header, that hold references. An
/// open cell has after its header a size for each of its `dims` open dimensions and then its
/// elements: `words` are those of one element, and `pointers` are counted from the start of each.
#[derive(Drop)]
pub struct Shape {
    pub words: u64,
    pub dims: u32,
    /// The pointers, rising strictly.
    pub pointers: Vec<u64>,
}

/// The type that fully reveals an opaque type; any other type itself.
fn unveiled(types: &SizedTypes, t: TypeId) -> TypeId
    ensures { result.0 ≡ unveiled types.now.graph.nodes.items types.now.graph.reveals.items t.0 }
{
    match types.graph.nodes.get(t.0 as usize) {
        Some(TypeNode::Opaque(_, Secret::Revealed)) => types.graph.full_reveal(t).unwrap_or(t),
        _ => t,
    }
}

/// The target of a REF type.
fn ref_target(types: &SizedTypes, t: TypeId) -> Option<TypeId>
    ensures { option_map (λ u. u.0) result ≡ ref_target (node_at types.now.graph.nodes.items t.0) }
{
    match types.graph.nodes.get(t.0 as usize) {
        Some(TypeNode::RefTo(_, target)) => Some(*target),
        _ => None,
    }
}

/// The shape of a cell, or of an element, that holds a value of a type behind so many words of a
/// header.
fn value_shape(
    alloc: Global,
    types: &SizedTypes,
    t: TypeId,
    header: u64,
    dims: u32,
) -> Result<Shape, NoMemory>
    requires sized { HasSize types.now.graph.nodes.items t.0 }
    requires header { header ≤ 1 }
    ensures layout { IfOk result (λ shape. layout_of shape
        ≡ value_cell types.now.graph.nodes.items header dims t.0) }
    ensures rises { IfOk result (λ shape. RisesWithin header shape.words shape.pointers.items) }
{
    let words = types.words_of(t);
    let mut walk = Walk::new(alloc);
    walk.add_value(types, t, header)?;
    Ok(Shape {
        words: header + words,
        dims,
        pointers: walk.offsets,
    })
}

/// The shape of a value of a type outside a cell: its words, and those that hold references.
pub fn shape_of_value(alloc: Global, types: &SizedTypes, t: TypeId) -> Result<Shape, NoMemory>
    requires { HasSize types.now.graph.nodes.items t.0 }
    ensures value { IfOk result (λ shape.
        IsValue types.now.graph.nodes.items 0 t.0 shape.words shape.pointers.items) }
    ensures closed { IfOk result (λ shape. shape.dims ≡ 0) }
    ensures rises { IfOk result (λ shape. RisesWithin 0 shape.words shape.pointers.items) }
{
    let shape = value_shape(alloc, types, t, 0, 0)?;
    Ok(shape)
}

/// The shape of a cell that holds a value of a type, or, of an open array, its elements.
fn target_shape(alloc: Global, types: &SizedTypes, t: TypeId) -> Result<Shape, NoMemory>
    requires { HasSize types.now.graph.nodes.items (open_element types.now.graph.nodes.items t.0) }
    ensures layout { IfOk result (λ shape. layout_of shape
        ≡ target_cell types.now.graph.nodes.items t.0 (node_at types.now.graph.nodes.items t.0)) }
    ensures order { IfOk result (λ shape. AreInOrder (layout_of shape)) }
{
    let (element, dims) = open_element(types, t);
    if dims == 0 {
        let shape = value_shape(alloc, types, element, 1, 0)?;
        Ok(shape)
    } else {
        let shape = value_shape(alloc, types, element, 0, dims)?;
        Ok(shape)
    }
}

/// The shape of an object's cell: the words of MUTEX or of a type of the interface Thread, and
/// then the fields of all ancestors, the topmost first.
fn object_shape(alloc: Global, types: &SizedTypes, t: TypeId) -> Result<Shape, NoMemory>
    requires object { EndsWithin types.now.graph.nodes.items types.now.graph.reveals.items
        (length types.now.graph.nodes.items) t.0 }
    requires fits { 1 + line_words types.now.graph.nodes.items
        (line_of types.now.graph.nodes.items types.now.graph.reveals.items t.0) < 2 ^ 64 }
    ensures layout { IfOk result (λ shape. layout_of shape
        ≡ object_cell types.now.graph.nodes.items types.now.graph.reveals.items t.0) }
    ensures order { IfOk result (λ shape. AreInOrder (layout_of shape)) }
{
    let line = line_of(alloc, types, t)?;
    let mut walk = Walk::new(alloc);
    let words = walk.add_line(types, &line, 1)?;
    Ok(Shape {
        words,
        dims: 0,
        pointers: walk.offsets,
    })
}

/// Whether a type has cells: it is a REF type or an open array type and its target or elements
/// have a size, and its dimensions are below 2^32, or an object type whose fields have sizes and
/// whose ancestors end, and its words are below 2^64.
pub fn has_cell(types: &SizedTypes, t: TypeId) -> bool
    ensures { IsTrue result
        ↔ HasCell types.now.graph.nodes.items types.now.graph.reveals.items t.0 }
{
    let shown = unveiled(types, t);
    if let Some(target) = ref_target(types, shown) {
        return types.has_size(open_element(types, target).0);
    }
    if let Some(_element) = array_element(types, shown) {
        return types.has_size(open_element(types, shown).0);
    }
    object_words(types, shown).is_some()
}

/// The shape of the cells of a type: of a REF type a header and the target; of a REF to an open
/// array, and of an open array type itself, whose values are copied for VALUE formals, an element;
/// of an object type a header and the fields of its ancestors, MUTEX with its holder and Thread.T
/// with the thread's number, state and result in front. An opaque type counts as the type that
/// fully reveals it (the report, sections 2.2.5 to 2.2.9, leaves the words to the implementation).
pub fn cell_shape(alloc: Global, types: &SizedTypes, t: TypeId) -> Result<Shape, NoMemory>
    requires { HasCell types.now.graph.nodes.items types.now.graph.reveals.items t.0 }
    ensures layout { IfOk result (λ shape.
        IsCell types.now.graph.nodes.items types.now.graph.reveals.items t.0 (layout_of shape)) }
    ensures order { IfOk result (λ shape. AreInOrder (layout_of shape)) }
{
    let shown = unveiled(types, t);
    if let Some(target) = ref_target(types, shown) {
        let shape = target_shape(alloc, types, target)?;
        return Ok(shape);
    }
    if let Some(_element) = array_element(types, shown) {
        let shape = target_shape(alloc, types, shown)?;
        return Ok(shape);
    }
    let shape = object_shape(alloc, types, shown)?;
    Ok(shape)
}
