use crate::forms::{node_of, number_of, words_of};
use m3_base::{NoMemory, place_number};
use m3_types::{Field, Secret, TypeId, TypeNode};
use m3_types_sizes::SizedTypes;
use std::alloc::Global;

/// Where the part that a type adds begins in its cells and in its table of methods.
#[derive(Clone, Copy, PartialEq, Eq)]
struct Part {
    /// The first word of its fields in a cell, the header counted.
    fields: u64,
    /// The place of its first method.
    methods: u32,
    /// How many types are above it.
    depth: u32,
}

/// The fields of record and object types, and the tables of methods of object types.
#[derive(Drop)]
pub struct Objects {
    /// For each type, the part that stands behind the cells of the type: what a child would add.
    ends: Vec<Option<Part>>,
    /// For each type the place of its fields in `offsets`.
    starts: Vec<u32>,
    /// The word of each field from the start of its record, or of its part of an object.
    offsets: Vec<u64>,
}

/// The type that fully reveals an opaque type; any other type itself.
pub fn unveiled(types: &SizedTypes, t: TypeId) -> TypeId {
    match node_of(types, t) {
        TypeNode::Opaque(_, Secret::Revealed) => {
            if (t.0 as usize) < types.graph.nodes.len() {
                types.graph.full_reveal(t).unwrap_or(t)
            } else {
                t
            }
        }
        _ => t,
    }
}

/// The type above an object type, ROOT's own cells having none; behind an opaque type the revealed
/// one.
pub fn parent_of(types: &SizedTypes, t: TypeId) -> Option<TypeId> {
    match node_of(types, t) {
        TypeNode::Object(_, parent, _, _, _) => Some(unveiled(types, parent)),
        _ => None,
    }
}

/// The words of the cells of a type that is no object type: those of MUTEX and of Thread's types.
fn built_in_words(types: &SizedTypes, t: TypeId) -> u64 {
    match node_of(types, t) {
        TypeNode::Mutex => 1,
        TypeNode::Opaque(_, Secret::Thread) => 3,
        _ => 0,
    }
}

impl Objects {
    /// The objects of some types. Parents are followed by a list of what is waiting for them.
    pub fn of(alloc: Global, types: &SizedTypes) -> Result<Objects, NoMemory> {
        let count = types.graph.nodes.len();
        let mut objects = Objects {
            ends: vec![in alloc; None; count]?,
            starts: Vec::new(alloc),
            offsets: Vec::new(alloc),
        };
        objects.add_offsets(types)?;
        for place in 0..count {
            objects.add_line(alloc, types, TypeId(place_number(place)?))?;
        }
        Ok(objects)
    }

    fn add_offsets(&mut self, types: &SizedTypes) -> Result<(), NoMemory> {
        for at in &types.graph.nodes {
            self.starts.push(place_number(self.offsets.len())?)?;
            match at {
                TypeNode::Fields(fields) | TypeNode::Object(_, _, fields, _, _) => {
                    self.add_fields(types, fields)?;
                }
                _ => {}
            }
        }
        Ok(())
    }

    fn add_fields(&mut self, types: &SizedTypes, fields: &[Field]) -> Result<(), NoMemory> {
        let mut at = 0u64;
        for field in fields {
            self.offsets.push(at)?;
            at = at.saturating_add(words_of(types, field.kind));
        }
        Ok(())
    }

    /// Notes the part of a type, and of all above it that aren't noted yet.
    fn add_line(&mut self, alloc: Global, types: &SizedTypes, t: TypeId) -> Result<(), NoMemory> {
        let mut waiting = Vec::new(alloc);
        let mut at = Some(t);
        for _ in 0..types.graph.nodes.len() {
            match at {
                Some(place) => {
                    if self.end_of(place).is_some() {
                        break;
                    }
                    waiting.push(place)?;
                    at = parent_of(types, place);
                }
                None => break,
            }
        }
        for place in waiting.iter().rev() {
            self.add_end(types, *place);
        }
        Ok(())
    }

    fn add_end(&mut self, types: &SizedTypes, t: TypeId) {
        let above = match parent_of(types, t) {
            Some(parent) => self.end_of(parent),
            None => None,
        };
        let start = above.unwrap_or(Part {
            fields: built_in_words(types, t).saturating_add(1),
            methods: 0,
            depth: 0,
        });
        let mut end = Part {
            depth: start.depth.saturating_add(1),
            ..start
        };
        if let TypeNode::Object(_, _, fields, methods, _) = node_of(types, t) {
            end.fields = end.fields.saturating_add(sum_of(types, fields));
            end.methods = end.methods.saturating_add(number_of(methods.len()));
        }
        let place = t.0 as usize;
        if place < self.ends.len() {
            self.ends[place] = Some(end);
        }
    }

    fn end_of(&self, t: TypeId) -> Option<Part> {
        match self.ends.get(t.0 as usize) {
            Some(end) => *end,
            None => None,
        }
    }

    /// The part that stands before what an object type adds.
    fn start_of(&self, types: &SizedTypes, t: TypeId) -> Option<Part> {
        match parent_of(types, t) {
            Some(parent) => self.end_of(parent),
            None => None,
        }
    }

    /// The word of a field from the start of its record, or of its part of an object.
    pub fn field(&self, t: TypeId, field: u32) -> u64 {
        let start = match self.starts.get(t.0 as usize) {
            Some(start) => *start as usize,
            None => 0,
        };
        match self.offsets.get(start.saturating_add(field as usize)) {
            Some(offset) => *offset,
            None => 0,
        }
    }

    /// The word of a field from the start of a cell, by the object type whose part declares it.
    pub fn object_field(&self, types: &SizedTypes, owner: TypeId, field: u32) -> u64 {
        let before = match self.start_of(types, owner) {
            Some(part) => part.fields,
            None => 1,
        };
        before.saturating_add(self.field(owner, field))
    }

    /// The place of a method in the tables of its object type and of all below it.
    pub fn method(&self, types: &SizedTypes, owner: TypeId, method: u32) -> u32 {
        let before = match self.start_of(types, owner) {
            Some(part) => part.methods,
            None => 0,
        };
        before.saturating_add(method)
    }

    /// How many methods the table of an object type has.
    pub fn methods(&self, t: TypeId) -> u32 {
        match self.end_of(t) {
            Some(part) => part.methods,
            None => 0,
        }
    }

    /// How many types are above a type, and itself.
    pub fn depth(&self, t: TypeId) -> u32 {
        match self.end_of(t) {
            Some(part) => part.depth,
            None => 0,
        }
    }
}

fn sum_of(types: &SizedTypes, fields: &[Field]) -> u64 {
    let mut sum = 0u64;
    for field in fields {
        sum = sum.saturating_add(words_of(types, field.kind));
    }
    sum
}
