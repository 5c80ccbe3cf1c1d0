use crate::limits::MOST_WORDS;
use m3_base::NoMemory;
use m3_types::{Field, Secret, TypeId, TypeNode};
use m3_types_sizes::SizedTypes;
use std::alloc::Global;
use std::collections::HashMap;

/// The words of the cells of objects, as far as they were asked for.
#[derive(Drop)]
pub struct Cells {
    alloc: Global,
    words: HashMap<TypeId, u64>,
}

/// What stands above the part that an object type adds.
enum Above {
    /// A parent with a part of its own.
    Part(TypeId),
    /// Another name of the type above.
    Type(TypeId),
    /// The words of a cell without fields.
    Words(u64),
}

impl Cells {
    pub fn new(alloc: Global) -> Cells {
        Cells {
            alloc,
            words: HashMap::new(alloc),
        }
    }

    /// The words of a cell of an object type: its header, its built-in words, and the fields of
    /// all ancestors and its own.
    pub fn words_of(&mut self, types: &SizedTypes<'_>, kind: TypeId) -> Result<u64, NoMemory> {
        let mut parts = Vec::new(self.alloc);
        let above = self.climb(types, kind, &mut parts)?;
        self.descend(types, above, parts.as_slice())
    }

    /// Goes up to what is known, and lists the parts below it. Gives the words of what is known.
    fn climb(
        &self,
        types: &SizedTypes<'_>,
        kind: TypeId,
        parts: &mut Vec<TypeId>,
    ) -> Result<u64, NoMemory> {
        let mut kind = kind;
        for _ in 0..types.graph.nodes.len() {
            if let Some(words) = self.words.get(&kind) {
                return Ok(*words);
            }
            match ancestor_of(types, kind) {
                Above::Part(parent) => {
                    parts.push(kind)?;
                    kind = parent;
                }
                Above::Type(other) => kind = other,
                Above::Words(words) => return Ok(words),
            }
        }
        Ok(1)
    }

    /// Adds the parts, the topmost of which is the last.
    fn descend(
        &mut self,
        types: &SizedTypes<'_>,
        above: u64,
        parts: &[TypeId],
    ) -> Result<u64, NoMemory> {
        let mut words = above;
        for part in parts.iter().rev() {
            words = words.saturating_add(part_words(types, *part));
            self.words.insert(*part, words)?;
        }
        Ok(words)
    }
}

fn ancestor_of(types: &SizedTypes<'_>, kind: TypeId) -> Above {
    match types.graph.nodes.get(kind.0 as usize) {
        Some(TypeNode::Object(_, parent, _, _, _)) => Above::Part(*parent),
        Some(TypeNode::Opaque(_, Secret::Thread)) => Above::Words(4),
        Some(TypeNode::Opaque(_, Secret::Revealed)) => match types.graph.full_reveal(kind) {
            Some(revealed) => Above::Type(revealed),
            None => Above::Words(1),
        },
        Some(TypeNode::Mutex) => Above::Words(2),
        _ => Above::Words(1),
    }
}

/// The words of the fields that an object type adds.
fn part_words(types: &SizedTypes<'_>, kind: TypeId) -> u64 {
    match types.graph.nodes.get(kind.0 as usize) {
        Some(TypeNode::Object(_, _, fields, _, _)) => fields_words(types, fields),
        _ => 0,
    }
}

fn fields_words(types: &SizedTypes<'_>, fields: &[Field<'_>]) -> u64 {
    let mut words = 0u64;
    for field in fields {
        words = words.saturating_add(field_words(types, field.kind));
    }
    words
}

/// The words of a field; one that is too large counts as more than an object may have.
fn field_words(types: &SizedTypes<'_>, kind: TypeId) -> u64 {
    if types.has_size(kind) {
        types.words_of(kind)
    } else {
        MOST_WORDS
    }
}
