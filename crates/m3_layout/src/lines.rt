ghost use Rattle.std.specs.Prelude.{◌≡◌, ◌+◌, ◌<◌, ◌^◌, ◌++◌, [], ℕ, length, OnOk, IfOk, IfSome, IfNone, All, map};
ghost use Rattle.std.specs.Option.{option_map, option_copied};
ghost use Rattle.m3_types.specs.Definitions.{node_at};
ghost use Rattle.m3_types_sizes.specs.Sizes.{HasSize, EachField, field_words};
ghost use Rattle.m3_layout.specs.Cells.{parent_at};
ghost use Rattle.m3_layout.specs.Depths.{value_words, CanStand, object_fields, is_thread, mutex_words, EndsWithin, line_of, line_words, line_pointers, own_words, own_pointers};
ghost use Rattle.m3_layout.specs.Walking.{AreRuns};

use crate::walk::Walk;
use m3_base::NoMemory;
use m3_types::{Field, Secret, TypeId, TypeNode, node_at};
use m3_types_sizes::SizedTypes;
use std::alloc::Global;

/// What an object type adds its fields to: its parent, or the type that fully reveals an opaque
/// type.
fn parent_of(types: &SizedTypes, t: TypeId) -> Option<TypeId>
    ensures { option_map (λ u. u.0) result
        ≡ parent_at types.now.graph.nodes.items types.now.graph.reveals.items t.0 }
{
    match types.graph.nodes.get(t.0 as usize) {
        Some(TypeNode::Object(_, parent, _, _, _)) => Some(*parent),
        Some(TypeNode::Opaque(_, Secret::Revealed)) => types.graph.full_reveal(t),
        _ => None,
    }
}

/// The words of fields that have sizes; none where one hasn't, or the words pass 64 bits.
fn field_words(types: &SizedTypes, fields: &[Field]) -> Option<u64>
    ensures some { IfSome result (λ w. EachField (HasSize types.now.graph.nodes.items) fields.now
        × (w ≡ field_words (value_words types.now.graph.nodes.items) fields.now)) }
    ensures none { IfNone result (EachField (HasSize types.now.graph.nodes.items) fields.now →
        field_words (value_words types.now.graph.nodes.items) fields.now < 2 ^ 64 → ⊥) }
{
    let mut sum = 0u64;
    for field in fields {
        if !types.has_size(field.kind) {
            return None;
        }
        sum = sum.checked_add(types.words_of(field.kind))?;
    }
    Some(sum)
}

/// The words that a type has in a cell beside those of its ancestors; none where it can't stand
/// there, or the words pass 64 bits.
fn own_words(types: &SizedTypes, t: TypeId) -> Option<u64>
    ensures some { IfSome result (λ w. CanStand types.now.graph.nodes.items
        types.now.graph.reveals.items t.0 (node_at types.now.graph.nodes.items t.0)
        × (w ≡ own_words types.now.graph.nodes.items (node_at types.now.graph.nodes.items t.0))) }
    ensures none { IfNone result (CanStand types.now.graph.nodes.items
        types.now.graph.reveals.items t.0 (node_at types.now.graph.nodes.items t.0) →
        own_words types.now.graph.nodes.items (node_at types.now.graph.nodes.items t.0) < 2 ^ 64
        → ⊥) }
{
    match types.graph.nodes.get(t.0 as usize)? {
        TypeNode::Object(_, _, fields, _, _) => field_words(types, fields),
        TypeNode::Opaque(_, Secret::Revealed) => types.graph.full_reveal(t).map(|_| 0),
        TypeNode::Opaque(_, Secret::Thread) => Some(3),
        TypeNode::Opaque(_, Secret::Condition) | TypeNode::Root => Some(0),
        TypeNode::Mutex => Some(1),
        _ => None,
    }
}

/// The words of the cells of an object type; none where it is no object type or has no cells.
pub(crate) fn object_words(types: &SizedTypes, t: TypeId) -> Option<u64>
    ensures some { IfSome result (λ w. EndsWithin types.now.graph.nodes.items
        types.now.graph.reveals.items (length types.now.graph.nodes.items) t.0
        × (w ≡ 1 + line_words types.now.graph.nodes.items
        (line_of types.now.graph.nodes.items types.now.graph.reveals.items t.0)) × (w < 2 ^ 64)) }
    ensures none { IfNone result (EndsWithin types.now.graph.nodes.items
        types.now.graph.reveals.items (length types.now.graph.nodes.items) t.0 →
        1 + line_words types.now.graph.nodes.items
        (line_of types.now.graph.nodes.items types.now.graph.reveals.items t.0) < 2 ^ 64 → ⊥) }
{
    let mut words = 1u64;
    let mut top = t;
    for _type in 0..types.graph.nodes.len() {
        words = words.checked_add(own_words(types, top)?)?;
        match parent_of(types, top) {
            Some(parent) => top = parent,
            None => return Some(words),
        }
    }
    None
}

/// An object type and its ancestors, the topmost first.
pub(crate) fn line_of(alloc: Global, types: &SizedTypes, t: TypeId) -> Result<Vec<TypeId>, NoMemory>
    requires { EndsWithin types.now.graph.nodes.items types.now.graph.reveals.items
        (length types.now.graph.nodes.items) t.0 }
    ensures line { IfOk result (λ line. map (λ u. u.0) line.items
        ≡ line_of types.now.graph.nodes.items types.now.graph.reveals.items t.0) }
    ensures stand { IfOk result (λ line. All
        (λ u. CanStand types.now.graph.nodes.items types.now.graph.reveals.items u.0
        (node_at types.now.graph.nodes.items u.0)) line.items) }
{
    let mut line = Vec::new(alloc);
    line.push(t)?;
    let mut top = t;
    while let Some(parent) = parent_of(types, top) {
        line.push(parent)?;
        top = parent;
    }
    line.reverse();
    Ok(line)
}

/// The fields that an object type adds; none where a type isn't one.
fn object_fields<'a>(types: &SizedTypes<'a>, t: TypeId) -> Option<&'a [Field<'a>]>
    ensures { option_copied result ≡ object_fields (node_at types.now.graph.nodes.items t.0) }
{
    match node_at(&types.graph.nodes, t.0 as usize) {
        Some(TypeNode::Object(_, _, fields, _, _)) => Some(fields),
        _ => None,
    }
}

/// Whether a type is Thread.T.
fn is_thread(types: &SizedTypes, t: TypeId) -> bool
    ensures { result ≡ is_thread (node_at types.now.graph.nodes.items t.0) }
{
    match types.graph.nodes.get(t.0 as usize) {
        Some(node) => matches!(node, TypeNode::Opaque(_, Secret::Thread)),
        None => false,
    }
}

/// The words that MUTEX has: that of its holder.
fn mutex_words(types: &SizedTypes, t: TypeId) -> u64
    ensures { result ≡ mutex_words (node_at types.now.graph.nodes.items t.0) }
{
    match types.graph.nodes.get(t.0 as usize) {
        Some(TypeNode::Mutex) => 1,
        _ => 0,
    }
}

impl Walk {
    /// Adds the pointers that a type has in a cell beside those of its ancestors, from a word on,
    /// and gives the word after its part.
    fn add_own(&mut self, types: &SizedTypes, t: TypeId, at: u64) -> Result<u64, NoMemory>
        requires known { AreRuns types.now.graph.nodes.items self.old.offsets.items self.old.runs }
        requires idle { self.old.tasks.items ≡ [] }
        requires stands { CanStand types.now.graph.nodes.items types.now.graph.reveals.items t.0
            (node_at types.now.graph.nodes.items t.0) }
        requires fits { at + own_words types.now.graph.nodes.items
            (node_at types.now.graph.nodes.items t.0) < 2 ^ 64 }
        ensures known { OnOk result (AreRuns types.now.graph.nodes.items self.new.offsets.items
            self.new.runs) }
        ensures idle { OnOk result (self.new.tasks.items ≡ []) }
        ensures offsets { OnOk result (self.new.offsets.items ≡
            self.old.offsets.items ++ own_pointers types.now.graph.nodes.items at
            (node_at types.now.graph.nodes.items t.0)) }
        ensures after { IfOk result (λ after. after
            ≡ at + own_words types.now.graph.nodes.items
            (node_at types.now.graph.nodes.items t.0)) }
    {
        if let Some(fields) = object_fields(types, t) {
            return self.add_fields(types, fields, at);
        }
        if is_thread(types, t) {
            self.offsets.push(at + 2)?;
            return Ok(at + 3);
        }
        Ok(at + mutex_words(types, t))
    }

    /// Adds the pointers of the types of a line from a word on, and gives the word after them.
    pub(crate) fn add_line(
        &mut self,
        types: &SizedTypes,
        line: &[TypeId],
        at: u64,
    ) -> Result<u64, NoMemory>
        requires known { AreRuns types.now.graph.nodes.items self.old.offsets.items self.old.runs }
        requires idle { self.old.tasks.items ≡ [] }
        requires stand { All (λ u. CanStand types.now.graph.nodes.items
            types.now.graph.reveals.items u.0 (node_at types.now.graph.nodes.items u.0)) line.now }
        requires fits { at + line_words types.now.graph.nodes.items (map (λ u. u.0) line.now)
            < 2 ^ 64 }
        ensures offsets { OnOk result (self.new.offsets.items ≡
            self.old.offsets.items ++ line_pointers types.now.graph.nodes.items at (map
            (λ u. u.0) line.now)) }
        ensures after { IfOk result (λ after. after
            ≡ at + line_words types.now.graph.nodes.items (map (λ u. u.0) line.now)) }
    {
        let mut next = at;
        for t in line {
            next = self.add_own(types, *t, next)?;
        }
        Ok(next)
    }
}
