ghost use Rattle.std.specs.Prelude.{◌≡◌, ◌+◌, ◌<◌, ◌≤◌, ◌^◌, ◌++◌, ◌∷◌, [], ℕ, OnOk, IfOk, MatchOption, List, Some, drop, length};
ghost use Rattle.m3_types.specs.declared.nodes.Field.{Field as AField};
ghost use Rattle.m3_types.specs.declared.nodes.TypeNode.{TypeNode as ANode};
ghost use Rattle.m3_types_sizes.specs.Sizes.{HasSize, EachField, field_words};
ghost use Rattle.m3_layout.specs.Pointers.{field_pointers};
ghost use Rattle.m3_layout.specs.Depths.{value_words, value_pointers};
ghost use Rattle.m3_layout.specs.Walking.{fields_in, fields_at, is_record, array_parts, IsOpen, AreRuns};
ghost use Rattle.std.specs.Option.{option_map, option_copied, unwrap_or};
ghost use Rattle.m3_types.specs.Definitions.{node_at, head_at};
ghost use Rattle.m3_types.specs.Kinds.{is_reference};

use crate::walk::{Run, Task, Walk, Whole};
use m3_base::NoMemory;
use m3_types::{Field, TypeId, TypeNode, is_reference_at, node_at};
use m3_types_sizes::SizedTypes;
use std::alloc::Global;
use std::collections::BTreeMap;

fn record_fields<'a>(node: TypeNode<'a>) -> Option<&'a [Field<'a>]>
    ensures { unwrap_or (option_copied result) [] ≡ fields_in (Some node.entry) }
{
    match node {
        TypeNode::Fields(fields) => Some(fields),
        _ => None,
    }
}

/// The fields of a record type; none where a type isn't one.
fn fields_of<'a>(types: &SizedTypes<'a>, t: TypeId) -> Option<&'a [Field<'a>]>
    ensures { unwrap_or (option_copied result) [] ≡ fields_at types.now.graph.nodes.items t.0 }
{
    match node_at(&types.graph.nodes, t.0 as usize) {
        Some(node) => record_fields(node),
        None => None,
    }
}

/// The type of a field of a record; none past the last.
pub(crate) fn field_at(types: &SizedTypes, whole: TypeId, n: usize) -> Option<TypeId>
    ensures { MatchOption result
        (drop n (fields_at types.now.graph.nodes.items whole.0) ≡ [])
        (λ t. (f : AField) × (f.kind ≡ t) × (n
        < length (fields_at types.now.graph.nodes.items whole.0))
        × (drop n (fields_at types.now.graph.nodes.items whole.0)
        ≡ f ∷ drop (n + 1) (fields_at types.now.graph.nodes.items whole.0)) × (n + 1 < 2 ^ 64)) }
{
    let Some(fields) = fields_of(types, whole) else {
        return None;
    };
    if n < fields.len() {
        Some(fields[n].kind)
    } else {
        None
    }
}

pub(crate) fn is_record(types: &SizedTypes, t: TypeId) -> bool
    ensures { result ≡ is_record (node_at types.now.graph.nodes.items t.0) }
{
    match types.graph.nodes.get(t.0 as usize) {
        Some(node) => matches!(node, TypeNode::Fields(_)),
        None => false,
    }
}

/// The index type and the element type of a fixed array.
pub(crate) fn array_parts(types: &SizedTypes, t: TypeId) -> Option<(TypeId, TypeId)>
    ensures { option_map (λ p. (p.0.0, p.1.0)) result
        ≡ array_parts (node_at types.now.graph.nodes.items t.0) }
{
    match types.graph.nodes.get(t.0 as usize) {
        Some(TypeNode::FixedArray(index, element)) => Some((*index, *element)),
        _ => None,
    }
}

/// Whether a value of the type is a reference.
pub(crate) fn is_reference(types: &SizedTypes, t: TypeId) -> bool
    ensures { result ≡ is_reference (head_at types.now.graph.nodes.items t.0) }
{
    is_reference_at(&types.graph.nodes, t.0 as usize)
}

impl Walk {
    pub(crate) fn new(alloc: Global) -> Walk
        ensures offsets { result.offsets.items ≡ [] }
        ensures tasks { result.tasks.items ≡ [] }
        ensures known { (nodes : List ANode) → AreRuns nodes [] result.runs }
    {
        Walk {
            offsets: Vec::new(alloc),
            tasks: Vec::new(alloc),
            runs: BTreeMap::new(alloc),
        }
    }

    /// Notes where the pointers of a value stand of which all are told.
    pub(crate) fn close(&mut self, types: &SizedTypes, whole: Whole) -> Result<(), NoMemory>
        requires known { AreRuns types.now.graph.nodes.items self.old.offsets.items self.old.runs }
        requires open { IsOpen types.now.graph.nodes.items self.old.offsets.items whole [] }
        ensures known { OnOk result (AreRuns types.now.graph.nodes.items self.new.offsets.items
            self.new.runs) }
        ensures offsets { OnOk result (self.new.offsets.items ≡ self.old.offsets.items) }
        ensures tasks { OnOk result (self.new.tasks.items ≡ self.old.tasks.items) }
    {
        let _types = types;
        let run = Run {
            start: whole.start,
            end: self.offsets.len(),
            at: whole.at,
        };
        self.runs.insert(whole.kind.0, run)?;
        Ok(())
    }

    /// Adds the pointers of a value that begins at a word.
    pub(crate) fn add_value(
        &mut self,
        types: &SizedTypes,
        t: TypeId,
        at: u64,
    ) -> Result<(), NoMemory>
        requires known { AreRuns types.now.graph.nodes.items self.old.offsets.items self.old.runs }
        requires idle { self.old.tasks.items ≡ [] }
        requires sized { HasSize types.now.graph.nodes.items t.0 }
        requires fits { at + value_words types.now.graph.nodes.items t.0 < 2 ^ 64 }
        ensures known { OnOk result (AreRuns types.now.graph.nodes.items self.new.offsets.items
            self.new.runs) }
        ensures idle { OnOk result (self.new.tasks.items ≡ []) }
        ensures offsets { OnOk result (self.new.offsets.items ≡ self.old.offsets.items
            ++ value_pointers types.now.graph.nodes.items at t.0) }
    {
        let _words = types.words_of(t);
        self.tasks.push(Task::OneValue(t, at))?;
        while let Some(task) = self.tasks.pop() {
            self.tell(types, task)?;
        }
        Ok(())
    }

    /// Adds the pointers of fields that follow one another from a word on, and gives the word
    /// after them.
    pub(crate) fn add_fields(
        &mut self,
        types: &SizedTypes,
        fields: &[Field],
        at: u64,
    ) -> Result<u64, NoMemory>
        requires known { AreRuns types.now.graph.nodes.items self.old.offsets.items self.old.runs }
        requires idle { self.old.tasks.items ≡ [] }
        requires sized { EachField (HasSize types.now.graph.nodes.items) fields.now }
        requires fits { at + field_words (value_words types.now.graph.nodes.items) fields.now
            < 2 ^ 64 }
        ensures known { OnOk result (AreRuns types.now.graph.nodes.items self.new.offsets.items
            self.new.runs) }
        ensures idle { OnOk result (self.new.tasks.items ≡ []) }
        ensures offsets { OnOk result (self.new.offsets.items ≡
            self.old.offsets.items ++ field_pointers (value_words types.now.graph.nodes.items)
            (value_pointers types.now.graph.nodes.items) at fields.now) }
        ensures after { IfOk result (λ after. after
            ≡ at + field_words (value_words types.now.graph.nodes.items) fields.now) }
    {
        let mut next = at;
        for field in fields {
            self.add_value(types, field.kind, next)?;
            next += types.words_of(field.kind);
        }
        Ok(next)
    }
}
