use m3_types::{TypeId, TypeNode, span};
use m3_types_sizes::SizedTypes;

/// How a value of a type is kept.
#[derive(Clone, Copy, PartialEq, Eq)]
pub enum Form {
    /// One word that is no pointer: an ordinal, or a set of at most 64 members.
    Number,
    /// One word that is a reference.
    Reference,
    /// So many words that are no pointers: a procedure (what it is, and the frame around it), or a
    /// larger set.
    Numbers(u32),
    /// The words of a record or of a fixed array.
    Structure(u64),
    /// An open array, which stands at a place with its sizes.
    Open,
}

impl Form {
    /// The words of a value, and 0 for an open array.
    pub fn words(self) -> u64 {
        match self {
            Form::Number | Form::Reference => 1,
            Form::Numbers(count) => u64::from(count),
            Form::Structure(words) => words,
            Form::Open => 0,
        }
    }

    /// Whether a value is kept in temporaries, and not at a place.
    pub fn is_scalar(self) -> bool {
        match self {
            Form::Number | Form::Reference | Form::Numbers(_) => true,
            Form::Structure(_) | Form::Open => false,
        }
    }
}

/// A place in a list as a number of 32 bits; one that has none is as good as past every list.
pub fn number_of(place: usize) -> u32 {
    match u32::try_from(place) {
        Ok(number) => number,
        Err(_) => u32::MAX,
    }
}

/// A number of words as one of 32 bits; a larger one is as good as the largest.
pub fn word_number(words: u64) -> u32 {
    match u32::try_from(words) {
        Ok(number) => number,
        Err(_) => u32::MAX,
    }
}

/// The definition of a type.
pub fn node_of<'a>(types: &SizedTypes<'a>, t: TypeId) -> TypeNode<'a> {
    match types.graph.nodes.get(t.0 as usize) {
        Some(node) => *node,
        None => TypeNode::Reserved,
    }
}

/// The words of a value, and 0 where it has no size.
pub fn words_of(types: &SizedTypes, t: TypeId) -> u64 {
    if types.has_size(t) {
        types.words_of(t)
    } else {
        0
    }
}

/// How a value of a type is kept.
pub fn form_of(types: &SizedTypes, t: TypeId) -> Form {
    match node_of(types, t) {
        TypeNode::Integer
        | TypeNode::Boolean
        | TypeNode::Character
        | TypeNode::Enumeration(_)
        | TypeNode::Subrange(_, _, _) => Form::Number,
        TypeNode::SetOf(_) => match words_of(types, t) {
            0 | 1 => Form::Number,
            count => Form::Numbers(word_number(count)),
        },
        TypeNode::Procedure(_, _, _) => Form::Numbers(2),
        TypeNode::RefTo(_, _)
        | TypeNode::Object(_, _, _, _, _)
        | TypeNode::Opaque(_, _)
        | TypeNode::Null
        | TypeNode::RefAny
        | TypeNode::Text
        | TypeNode::Mutex
        | TypeNode::Root => Form::Reference,
        TypeNode::OpenArray(_) => Form::Open,
        TypeNode::FixedArray(_, _) | TypeNode::Fields(_) => Form::Structure(words_of(types, t)),
        TypeNode::Reserved | TypeNode::Constant(_) => Form::Structure(0),
    }
}

/// The first and the last value of an ordinal type; for any other type a range of none.
pub fn bounds(types: &SizedTypes, t: TypeId) -> (i64, i64) {
    match node_of(types, t) {
        TypeNode::Integer => (i64::MIN, i64::MAX),
        TypeNode::Boolean => (0, 1),
        TypeNode::Character => (0, 255),
        TypeNode::Enumeration(names) => (0, (names.len() as u64).cast_signed().wrapping_sub(1)),
        TypeNode::Subrange(_, first, last) => (first, last),
        _ => (0, -1),
    }
}

/// The number of members of an ordinal type that isn't INTEGER itself.
pub fn members(types: &SizedTypes, t: TypeId) -> u64 {
    let (first, last) = bounds(types, t);
    match u64::try_from(span(first, last)) {
        Ok(count) => count,
        Err(_) => u64::MAX,
    }
}
