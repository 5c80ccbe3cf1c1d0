/// A type, by its place in the list of definitions.
#[derive(Clone, Copy, Debug, PartialEq, Eq, PartialOrd, Ord, Hash)]
pub struct TypeId(pub u32);

/// A constant that types contain, by its place in the list of definitions.
#[derive(Clone, Copy, PartialEq, Eq, PartialOrd, Ord, Hash)]
pub struct ConstId(pub u32);

/// The value of a constant that a type contains. Its type is that of the place where it stands.
#[derive(Clone, Copy)]
pub enum ConstValue<'a> {
    /// The number of a value of an ordinal type.
    Ordinal(i64),
    Nil,
    /// A text, by its bytes.
    Text(&'a [u8]),
    /// A procedure, by its number.
    Procedure(u32),
    /// The members of a set, rising: each by its place in the base type, from 0 on.
    Set(&'a [u8]),
    /// The fields of a record, in order.
    Fields(&'a [ConstId]),
    /// An array of the given number of elements: those listed, of which the last stands for all that
    /// follow it.
    Elements(&'a [ConstId], u64),
}

/// What makes a branded type differ from every other: its text, or the number of the place where
/// BRANDED stands without a text.
#[derive(Clone, Copy)]
pub enum Brand<'a> {
    Text(&'a [u8]),
    Occurrence(u32),
}

/// A default of a field, formal or method: its value, which counts when types are compared, and the
/// number under which whoever built the graph keeps the expression, which doesn't.
#[derive(Clone, Copy)]
pub struct Initial {
    pub value: ConstId,
    pub source: u32,
}

/// A field of a record or object, with what it holds at first.
#[derive(Clone, Copy)]
pub struct Field<'a> {
    pub name: &'a [u8],
    pub kind: TypeId,
    pub default: Option<Initial>,
}

/// How an actual is passed.
#[derive(Clone, Copy, PartialEq, Eq)]
pub enum Mode {
    Value,
    Var,
    Readonly,
}

/// A formal of a procedure type, with its default.
#[derive(Clone, Copy)]
pub struct Formal<'a> {
    pub name: &'a [u8],
    pub mode: Mode,
    pub kind: TypeId,
    pub default: Option<Initial>,
}

/// A method of an object type: its signature is a procedure type without the object itself.
#[derive(Clone, Copy)]
pub struct Method<'a> {
    pub name: &'a [u8],
    pub signature: TypeId,
    pub default: Option<Initial>,
}

/// A method of an ancestor with the procedure that is bound to it anew.
#[derive(Clone, Copy)]
pub struct Override<'a> {
    pub name: &'a [u8],
    pub value: ConstId,
}

/// The exceptions that a procedure may raise, by their numbers, rising and each once.
#[derive(Clone, Copy)]
pub enum Raises<'a> {
    Any,
    Only(&'a [u32]),
}

/// What stands behind an opaque type: the type that a full reveal of the program gives, or one of the
/// two types of the interface Thread that no program reveals.
#[derive(Clone, Copy, PartialEq, Eq)]
pub enum Secret {
    Revealed,
    Thread,
    Condition,
}

/// A type's definition, with each type that it names given by its place (Modula-3 report, section 2.2),
/// or a constant.
#[derive(Clone, Copy)]
pub enum TypeNode<'a> {
    /// A place that was reserved: its definition hasn't been given yet.
    Reserved,
    Integer,
    Boolean,
    Character,
    /// The names of the members, in order.
    Enumeration(&'a [&'a [u8]]),
    /// The base type with the numbers of the first and the last member.
    Subrange(TypeId, i64, i64),
    /// The index type and the element type.
    FixedArray(TypeId, TypeId),
    OpenArray(TypeId),
    /// The fields of a record, in order.
    Fields(&'a [Field<'a>]),
    /// The type of the members.
    SetOf(TypeId),
    RefTo(Option<Brand<'a>>, TypeId),
    /// The brand, the parent (ROOT where none is written), and the part that is added to it.
    Object(Option<Brand<'a>>, TypeId, &'a [Field<'a>], &'a [Method<'a>], &'a [Override<'a>]),
    Procedure(&'a [Formal<'a>], Option<TypeId>, Raises<'a>),
    /// The bound of an opaque type.
    Opaque(TypeId, Secret),
    Null,
    RefAny,
    Text,
    Mutex,
    Root,
    /// A constant that types contain.
    Constant(ConstValue<'a>),
}

/// A revelation of an opaque type, in a unit where it applies: that its bound is a supertype, or,
/// where it is full, that it is the type itself.
#[derive(Clone, Copy, PartialEq, Eq)]
pub struct Reveal {
    pub view: u32,
    pub opaque: TypeId,
    pub bound: TypeId,
    pub full: bool,
}
