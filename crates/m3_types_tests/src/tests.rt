use bumpalo::Bump;
use m3_types::{
    Brand, ConstId, ConstValue, Field, Formal, Initial, Mode, Raises, Reveal, Secret, TypeGraph,
    TypeId, TypeNode,
};
use m3_types_sizes::SizedTypes;
use m3_types_subtype::{Assign, assignable, same, subtype};
use std::alloc::Global;
use std::fmt::{Debug, Display};
use std::process::Abort;
use std::test::Fail;

/// What was found is what was wanted.
pub(crate) fn expect<T: PartialEq + Debug + Drop>(
    rt: &impl Abort,
    found: T,
    wanted: T,
    what: &impl Display,
) {
    assert_eq!(rt; found, wanted, "{what}");
}

pub(crate) fn field<'a>(name: &'a [u8], kind: u32) -> Field<'a> {
    Field {
        name,
        kind: TypeId(kind),
        default: None,
    }
}

pub(crate) fn put<'a>(types: &mut TypeGraph<'a>, node: TypeNode<'a>) -> Result<(), Fail> {
    types.push(node)?;
    Ok(())
}

// Sets a place that was reserved.
pub(crate) fn fill<'a>(types: &mut TypeGraph<'a>, place: u32, node: TypeNode<'a>) {
    if types.is_reserved(TypeId(place)) {
        types.set(TypeId(place), node);
    }
}

// Adds a reveal of an opaque type that is there.
fn add(types: &mut TypeGraph, reveal: Reveal) -> Result<(), Fail> {
    if (reveal.opaque.0 as usize) < types.nodes.len() {
        types.reveal(reveal)?;
    }
    Ok(())
}

static NODES: [TypeNode<'static>; 52] = [
    // 0 to 11: the predeclared types, CARDINAL, [1..4], [0..3], [5..4]
    TypeNode::Integer,
    TypeNode::Boolean,
    TypeNode::Character,
    TypeNode::Null,
    TypeNode::RefAny,
    TypeNode::Text,
    TypeNode::Mutex,
    TypeNode::Root,
    TypeNode::Subrange(TypeId(0), 0, i64::MAX),
    TypeNode::Subrange(TypeId(0), 1, 4),
    TypeNode::Subrange(TypeId(0), 0, 3),
    TypeNode::Subrange(TypeId(0), 5, 4),
    // 12 to 14: {a, b} twice, {FALSE, TRUE}
    TypeNode::Enumeration(&[b"a", b"b"]),
    TypeNode::Enumeration(&[b"a", b"b"]),
    TypeNode::Enumeration(&[b"FALSE", b"TRUE"]),
    // 15 to 22: ARRAY [1..4] and [0..3] OF INTEGER, [0..3] OF CHAR, OF CHAR, OF INTEGER,
    // ARRAY [1..4] OF ARRAY [0..3] OF INTEGER, ARRAY OF 16, ARRAY OF ARRAY OF INTEGER
    TypeNode::FixedArray(TypeId(9), TypeId(0)),
    TypeNode::FixedArray(TypeId(10), TypeId(0)),
    TypeNode::FixedArray(TypeId(10), TypeId(2)),
    TypeNode::OpenArray(TypeId(2)),
    TypeNode::OpenArray(TypeId(0)),
    TypeNode::FixedArray(TypeId(9), TypeId(16)),
    TypeNode::OpenArray(TypeId(16)),
    TypeNode::OpenArray(TypeId(19)),
    // 23 to 28: A = REF RECORD n: A END, B likewise, REF RECORD m: A END
    TypeNode::RefTo(None, TypeId(24)),
    TypeNode::Fields(&[Field {
        name: b"n",
        kind: TypeId(23),
        default: None,
    }]),
    TypeNode::RefTo(None, TypeId(26)),
    TypeNode::Fields(&[Field {
        name: b"n",
        kind: TypeId(25),
        default: None,
    }]),
    TypeNode::RefTo(None, TypeId(28)),
    TypeNode::Fields(&[Field {
        name: b"m",
        kind: TypeId(23),
        default: None,
    }]),
    // 29 to 33: REF INTEGER, with two brands of its own, and twice with the brand "x"
    TypeNode::RefTo(None, TypeId(0)),
    TypeNode::RefTo(Some(Brand::Occurrence(1)), TypeId(0)),
    TypeNode::RefTo(Some(Brand::Occurrence(2)), TypeId(0)),
    TypeNode::RefTo(Some(Brand::Text(b"x")), TypeId(0)),
    TypeNode::RefTo(Some(Brand::Text(b"x")), TypeId(0)),
    // 34 to 36: OBJECT f: INTEGER END, 34 OBJECT END, 34 again
    TypeNode::Object(None, TypeId(7), &F, &[], &[]),
    TypeNode::Object(None, TypeId(34), &[], &[], &[]),
    TypeNode::Object(None, TypeId(7), &F, &[], &[]),
    // 37 to 43: PROCEDURE (), with RAISES {1}, with RAISES ANY, (x: INTEGER), (y: INTEGER),
    // (VAR x: INTEGER), (): INTEGER
    TypeNode::Procedure(&[], None, Raises::Only(&[])),
    TypeNode::Procedure(&[], None, Raises::Only(&[1])),
    TypeNode::Procedure(&[], None, Raises::Any),
    TypeNode::Procedure(
        &[Formal {
            name: b"x",
            mode: Mode::Value,
            kind: TypeId(0),
            default: None,
        }],
        None,
        Raises::Only(&[]),
    ),
    TypeNode::Procedure(
        &[Formal {
            name: b"y",
            mode: Mode::Value,
            kind: TypeId(0),
            default: None,
        }],
        None,
        Raises::Only(&[]),
    ),
    TypeNode::Procedure(
        &[Formal {
            name: b"x",
            mode: Mode::Var,
            kind: TypeId(0),
            default: None,
        }],
        None,
        Raises::Only(&[]),
    ),
    TypeNode::Procedure(&[], Some(TypeId(0)), Raises::Only(&[])),
    // 44, 45: SET OF [1..4], SET OF [0..3]
    TypeNode::SetOf(TypeId(9)),
    TypeNode::SetOf(TypeId(10)),
    // 46 to 48: T <: REFANY, U <: ROOT, BRANDED OBJECT f: INTEGER END
    TypeNode::Opaque(TypeId(4), Secret::Revealed),
    TypeNode::Opaque(TypeId(7), Secret::Revealed),
    TypeNode::Object(Some(Brand::Occurrence(3)), TypeId(7), &F, &[], &[]),
    // 49 to 51: RECORD a: INTEGER := 5 END, and without the default; the constant 5
    TypeNode::Fields(&[Field {
        name: b"a",
        kind: TypeId(0),
        default: Some(Initial {
            value: ConstId(51),
            source: 51,
        }),
    }]),
    TypeNode::Fields(&[Field {
        name: b"a",
        kind: TypeId(0),
        default: None,
    }]),
    TypeNode::Constant(ConstValue::Ordinal(5)),
];

/// f: INTEGER
const F: [Field<'static>; 1] = [Field {
    name: b"f",
    kind: TypeId(0),
    default: None,
}];

/// A view, an opaque type and its bound, and whether the reveal is full.
static REVEALS: [(u32, u32, u32, bool); 3] = [
    (1, 46, 30, true),
    (1, 47, 48, true),
    (2, 47, 34, false),
];

fn reveal(view: u32, opaque: u32, bound: u32, full: bool) -> Reveal {
    Reveal {
        view,
        opaque: TypeId(opaque),
        bound: TypeId(bound),
        full,
    }
}

pub(crate) fn put_nodes<'a>(types: &mut TypeGraph<'a>, nodes: &[TypeNode<'a>]) -> Result<(), Fail> {
    for node in nodes {
        put(types, *node)?;
    }
    Ok(())
}

pub(crate) fn put_graph(types: &mut TypeGraph) -> Result<(), Fail> {
    put_nodes(types, &NODES)?;
    for (view, opaque, bound, full) in &REVEALS {
        add(types, reveal(*view, *opaque, *bound, *full))?;
    }
    Ok(())
}

// view, the two types, whether they are the same, whether the first is a subtype, how it is
// assigned
type Row = (u32, u32, u32, bool, bool, Assign);

fn check_rows(rt: &impl Abort, alloc: Global, types: &TypeGraph, rows: &[Row]) -> Result<(), Fail> {
    for (row, (view, a, b, alike, below, assign)) in rows.iter().enumerate() {
        let a = TypeId(*a);
        let b = TypeId(*b);
        let found = (
            same(alloc, types, a, b)?,
            subtype(alloc, types, *view, a, b)?,
            assignable(alloc, types, *view, a, b)?,
        );
        expect(rt, found, (*alike, *below, *assign), &row);
    }
    Ok(())
}

/// The pairs of types are the same, or not.
fn check_same(
    rt: &impl Abort,
    alloc: Global,
    types: &TypeGraph,
    rows: &[(u32, u32, bool)],
) -> Result<(), Fail> {
    for (row, (a, b, alike)) in rows.iter().enumerate() {
        expect(
            rt,
            same(alloc, types, TypeId(*a), TypeId(*b))?,
            *alike,
            &row,
        );
    }
    Ok(())
}

/// In a view the first type is a subtype of the second, or not.
fn check_subtypes(
    rt: &impl Abort,
    alloc: Global,
    types: &TypeGraph,
    rows: &[(u32, u32, u32, bool)],
) -> Result<(), Fail> {
    for (row, (view, a, b, below)) in rows.iter().enumerate() {
        expect(
            rt,
            subtype(alloc, types, *view, TypeId(*a), TypeId(*b))?,
            *below,
            &row,
        );
    }
    Ok(())
}

static EXAMPLES: [Row; 9] = [
    (0, 23, 25, true, true, Assign::Yes),
    (0, 23, 27, false, false, Assign::No),
    (0, 15, 16, false, true, Assign::Yes),
    (0, 17, 18, false, true, Assign::Yes),
    (0, 18, 17, false, false, Assign::Checked),
    (0, 0, 8, false, false, Assign::Checked),
    (0, 1, 0, false, false, Assign::No),
    (0, 4, 29, false, false, Assign::Checked),
    (0, 37, 38, false, true, Assign::Yes),
];

static ORDINALS_AND_ARRAYS: [Row; 32] = [
    (0, 0, 0, true, true, Assign::Yes),
    (0, 8, 0, false, true, Assign::Yes),
    (0, 9, 10, false, false, Assign::Checked),
    (0, 10, 9, false, false, Assign::Checked),
    (0, 9, 8, false, true, Assign::Yes),
    (0, 8, 9, false, false, Assign::Checked),
    (0, 11, 9, false, true, Assign::Yes),
    (0, 9, 11, false, false, Assign::No),
    (0, 11, 0, false, true, Assign::Yes),
    (0, 0, 11, false, false, Assign::No),
    (0, 12, 13, true, true, Assign::Yes),
    (0, 12, 14, false, false, Assign::No),
    (0, 14, 1, false, false, Assign::No),
    (0, 1, 14, false, false, Assign::No),
    (0, 2, 0, false, false, Assign::No),
    (0, 15, 0, false, false, Assign::No),
    (0, 16, 15, false, true, Assign::Yes),
    (0, 15, 19, false, true, Assign::Yes),
    (0, 19, 15, false, false, Assign::Checked),
    (0, 17, 19, false, false, Assign::No),
    (0, 20, 21, false, true, Assign::Yes),
    (0, 21, 20, false, false, Assign::Checked),
    (0, 20, 22, false, true, Assign::Yes),
    (0, 22, 20, false, false, Assign::Checked),
    (0, 21, 22, false, true, Assign::Yes),
    (0, 22, 21, false, false, Assign::Checked),
    (0, 20, 15, false, false, Assign::No),
    (0, 15, 20, false, false, Assign::No),
    (0, 44, 45, false, false, Assign::No),
    (0, 44, 44, true, true, Assign::Yes),
    (0, 49, 50, false, false, Assign::No),
    (0, 49, 49, true, true, Assign::Yes),
];

static REFERENCES: [Row; 27] = [
    (0, 29, 4, false, true, Assign::Yes),
    (0, 29, 30, false, false, Assign::No),
    (0, 30, 31, false, false, Assign::No),
    (0, 32, 33, true, true, Assign::Yes),
    (0, 32, 30, false, false, Assign::No),
    (0, 3, 29, false, true, Assign::Yes),
    (0, 29, 3, false, false, Assign::Checked),
    (0, 3, 3, true, true, Assign::Yes),
    (0, 3, 0, false, false, Assign::No),
    (0, 0, 3, false, false, Assign::No),
    (0, 3, 5, false, true, Assign::Yes),
    (0, 5, 4, false, true, Assign::Yes),
    (0, 4, 5, false, false, Assign::Checked),
    (0, 5, 29, false, false, Assign::No),
    (0, 7, 4, false, true, Assign::Yes),
    (0, 6, 7, false, true, Assign::Yes),
    (0, 7, 6, false, false, Assign::Checked),
    (0, 6, 4, false, true, Assign::Yes),
    (0, 34, 36, true, true, Assign::Yes),
    (0, 35, 34, false, true, Assign::Yes),
    (0, 34, 35, false, false, Assign::Checked),
    (0, 35, 36, false, true, Assign::Yes),
    (0, 35, 7, false, true, Assign::Yes),
    (0, 7, 35, false, false, Assign::Checked),
    (0, 35, 4, false, true, Assign::Yes),
    (0, 35, 6, false, false, Assign::No),
    (0, 6, 35, false, false, Assign::No),
];

static PROCEDURES_AND_OPAQUE_TYPES: [Row; 28] = [
    (0, 3, 37, false, true, Assign::Yes),
    (0, 37, 3, false, false, Assign::No),
    (0, 38, 37, false, false, Assign::No),
    (0, 38, 39, false, true, Assign::Yes),
    (0, 39, 38, false, false, Assign::No),
    (0, 37, 39, false, true, Assign::Yes),
    (0, 40, 41, false, true, Assign::Yes),
    (0, 41, 40, false, true, Assign::Yes),
    (0, 40, 42, false, false, Assign::No),
    (0, 37, 40, false, false, Assign::No),
    (0, 37, 43, false, false, Assign::No),
    (0, 43, 37, false, false, Assign::No),
    (0, 46, 46, true, true, Assign::Yes),
    (0, 46, 4, false, true, Assign::Yes),
    (0, 4, 46, false, false, Assign::Checked),
    (0, 46, 30, false, false, Assign::No),
    (1, 46, 30, false, true, Assign::Yes),
    (0, 30, 46, false, false, Assign::No),
    (1, 30, 46, false, true, Assign::Yes),
    (0, 47, 7, false, true, Assign::Yes),
    (0, 47, 34, false, false, Assign::No),
    (2, 47, 34, false, true, Assign::Yes),
    (2, 34, 47, false, false, Assign::Checked),
    (2, 47, 36, false, true, Assign::Yes),
    (1, 48, 47, false, true, Assign::Yes),
    (1, 47, 48, false, true, Assign::Yes),
    (0, 48, 47, false, false, Assign::No),
    (0, 3, 47, false, true, Assign::Yes),
];

#[test]
fn relations(rt: HostRuntime) -> Result<(), Fail> {
    let alloc = rt.alloc();
    let mut types = TypeGraph::new(alloc);
    put_graph(&mut types)?;
    check_rows(&rt, alloc, &types, &EXAMPLES)?;
    check_rows(&rt, alloc, &types, &ORDINALS_AND_ARRAYS)?;
    check_rows(&rt, alloc, &types, &REFERENCES)?;
    check_rows(&rt, alloc, &types, &PROCEDURES_AND_OPAQUE_TYPES)
}

// Two families of count references to records: the i-th record has the next reference and another
// one, and the last record of the second family has other names if it is to differ. All places are
// reserved first and set from the last one on.
pub(crate) fn put_families<'a>(
    types: &mut TypeGraph<'a>,
    bump: &'a Bump,
    count: u32,
    differ: bool,
) -> Result<(), Fail> {
    for _place in 0..count.wrapping_mul(4) {
        types.reserve()?;
    }
    for family in 0..2u32 {
        let first = family.wrapping_mul(count).wrapping_mul(2);
        for step in 0..count {
            let i = count.wrapping_sub(step).wrapping_sub(1);
            let next = i.wrapping_add(1) % count.max(1);
            let other = i.wrapping_mul(7).wrapping_add(3) % count.max(1);
            let here = first.wrapping_add(i.wrapping_mul(2));
            let name: &[u8] = if differ && family == 1 && next == 0 {
                b"z"
            } else {
                b"a"
            };
            let fields = bump.try_alloc_slice_copy(&[
                field(name, first.wrapping_add(next.wrapping_mul(2))),
                field(b"b", first.wrapping_add(other.wrapping_mul(2))),
            ])?;
            fill(
                types,
                here,
                TypeNode::RefTo(None, TypeId(here.wrapping_add(1))),
            );
            fill(types, here.wrapping_add(1), TypeNode::Fields(fields));
        }
    }
    Ok(())
}

#[test]
fn families_alike(rt: HostRuntime) -> Result<(), Fail> {
    let alloc = rt.alloc();
    let bump = Bump::new(alloc);
    let mut types = TypeGraph::new(alloc);
    put_families(&mut types, &bump, 20000, false)?;
    check_same(&rt, alloc, &types, &[(0, 40000, true)])?;
    // the graph grows, and answers stay
    put(&mut types, TypeNode::RefTo(None, TypeId(1)))?;
    check_same(
        &rt,
        alloc,
        &types,
        &[(80000, 40000, true), (0, 40000, true)],
    )
}

#[test]
fn families_that_differ(rt: HostRuntime) -> Result<(), Fail> {
    let alloc = rt.alloc();
    let bump = Bump::new(alloc);
    let mut types = TypeGraph::new(alloc);
    put_families(&mut types, &bump, 20000, true)?;
    check_same(&rt, alloc, &types, &[(0, 40000, false)])?;
    check_subtypes(&rt, alloc, &types, &[(0, 0, 40000, false)])
}

/// Two chains of records by name, each of 60,000: the odd places and the even ones.
fn put_records<'a>(types: &mut TypeGraph<'a>, bump: &'a Bump) -> Result<(), Fail> {
    put(types, TypeNode::Integer)?;
    for i in 0..120000u32 {
        let below = if i < 2 { 0 } else { i - 1 };
        let fields = bump.try_alloc_slice_copy(&[field(b"r", below)])?;
        put(types, TypeNode::Fields(fields))?;
    }
    Ok(())
}

#[test]
fn long_records(rt: HostRuntime) -> Result<(), Fail> {
    let alloc = rt.alloc();
    let bump = Bump::new(alloc);
    let mut types = TypeGraph::new(alloc);
    put_records(&mut types, &bump)?;
    let rows = [(119999, 120000, true), (119998, 119999, false)];
    check_same(&rt, alloc, &types, &rows)
}

fn bare_object<'a>(brand: Option<Brand<'a>>, parent: u32) -> TypeNode<'a> {
    TypeNode::Object(brand, TypeId(parent), &[], &[], &[])
}

/// A chain of 60,000 parents, and another of 30,000 whose types are the same as its first ones.
fn put_parents(types: &mut TypeGraph) -> Result<(), Fail> {
    put(types, TypeNode::Root)?;
    for i in 0..60000u32 {
        put(types, bare_object(None, i))?;
    }
    for i in 0..30000u32 {
        let parent = if i == 0 { 0 } else { i.wrapping_add(60000) };
        put(types, bare_object(None, parent))?;
    }
    Ok(())
}

static OF_PARENTS: [(u32, u32, u32, bool); 8] = [
    (0, 60000, 1, true),
    (0, 60000, 0, true),
    (0, 1, 60000, false),
    (0, 60000, 60001, true),
    (0, 60000, 75000, true),
    (0, 90000, 30000, true),
    (0, 90000, 15000, true),
    (0, 75000, 30000, false),
];

#[test]
fn long_parents(rt: HostRuntime) -> Result<(), Fail> {
    let mut types = TypeGraph::new(rt.alloc());
    put_parents(&mut types)?;
    check_subtypes(&rt, rt.alloc(), &types, &OF_PARENTS)
}

/// A chain of 60,000 opaque types, each bounded by the one before: from 1 on the opaque types have
/// odd places, and behind each stands the branded object type that fully reveals it in view 1,
/// whose parent is the opaque type before. As it grows, questions on it are answered.
fn put_opaque_types(rt: &impl Abort, alloc: Global, types: &mut TypeGraph) -> Result<(), Fail> {
    put(types, TypeNode::Root)?;
    for i in 0..60000u32 {
        let opaque = i.wrapping_mul(2).wrapping_add(1);
        let object = opaque.wrapping_add(1);
        let below = if i == 0 { 0 } else { opaque.wrapping_sub(2) };
        put(types, TypeNode::Opaque(TypeId(below), Secret::Revealed))?;
        put(types, bare_object(Some(Brand::Occurrence(i)), below))?;
        add(types, reveal(1, opaque, object, true))?;
        if i % 20000 == 0 {
            check_subtypes(
                rt,
                alloc,
                types,
                &[(1, opaque, 1, true), (1, object, opaque, true)],
            )?;
        }
    }
    Ok(())
}

static OF_OPAQUE_TYPES: [(u32, u32, u32, bool); 7] = [
    (0, 119999, 1, true),
    (1, 119999, 1, true),
    (1, 119999, 2, true),
    (0, 119999, 2, false),
    (1, 120000, 2, true),
    (1, 1, 119999, false),
    (0, 119999, 0, true),
];

#[test]
fn long_opaque_types(rt: HostRuntime) -> Result<(), Fail> {
    let mut types = TypeGraph::new(rt.alloc());
    put_opaque_types(&rt, rt.alloc(), &mut types)?;
    check_subtypes(&rt, rt.alloc(), &types, &OF_OPAQUE_TYPES)
}

/// References to the ones before, 65,535 types in all: what a program may have.
fn put_references(types: &mut TypeGraph) -> Result<(), Fail> {
    put(types, TypeNode::Integer)?;
    for i in 0..65534u32 {
        put(types, TypeNode::RefTo(None, TypeId(i)))?;
    }
    Ok(())
}

#[test]
fn as_many_types_as_a_program_may_have(rt: HostRuntime) -> Result<(), Fail> {
    let alloc = rt.alloc();
    let mut types = TypeGraph::new(alloc);
    put_references(&mut types)?;
    let rows = [
        (0, 65534, 65533, false, false, Assign::No),
        (0, 65534, 65534, true, true, Assign::Yes),
    ];
    check_rows(&rt, alloc, &types, &rows)?;
    let sized = SizedTypes::measure(alloc, types)?;
    expect(&rt, sized.has_size(TypeId(65534)), true, &"a size");
    Ok(())
}

// 1 to 10: 5, 5, 6, the texts ab, ab and ac, (5, ab) twice by other places, (6, ab), and NIL
static CONSTANTS: [TypeNode<'static>; 11] = [
    TypeNode::Integer,
    TypeNode::Constant(ConstValue::Ordinal(5)),
    TypeNode::Constant(ConstValue::Ordinal(5)),
    TypeNode::Constant(ConstValue::Ordinal(6)),
    TypeNode::Constant(ConstValue::Text(b"ab")),
    TypeNode::Constant(ConstValue::Text(b"ab")),
    TypeNode::Constant(ConstValue::Text(b"ac")),
    TypeNode::Constant(ConstValue::Fields(&[ConstId(1), ConstId(4)])),
    TypeNode::Constant(ConstValue::Fields(&[ConstId(2), ConstId(5)])),
    TypeNode::Constant(ConstValue::Fields(&[ConstId(3), ConstId(4)])),
    TypeNode::Constant(ConstValue::Nil),
];

/// The constants, and from 11 to 20 a record whose field has each of them as its default.
fn put_constants<'a>(types: &mut TypeGraph<'a>, bump: &'a Bump) -> Result<(), Fail> {
    put_nodes(types, &CONSTANTS)?;
    for value in 1..11u32 {
        let with_default = Field {
            default: Some(Initial {
                value: ConstId(value),
                source: value,
            }),
            ..field(b"a", 0)
        };
        let fields = bump.try_alloc_slice_copy(&[with_default])?;
        put(types, TypeNode::Fields(fields))?;
    }
    Ok(())
}

static OF_CONSTANTS: [(u32, u32, bool); 9] = [
    (11, 12, true),
    (11, 13, false),
    (14, 15, true),
    (14, 16, false),
    (11, 14, false),
    (17, 18, true),
    (17, 19, false),
    (20, 14, false),
    (20, 20, true),
];

// Constants are compared by value.
#[test]
fn constants(rt: HostRuntime) -> Result<(), Fail> {
    let bump = Bump::new(rt.alloc());
    let mut types = TypeGraph::new(rt.alloc());
    put_constants(&mut types, &bump)?;
    check_same(&rt, rt.alloc(), &types, &OF_CONSTANTS)
}

// A place that is reserved is the same as itself alone, and can be set once.
#[test]
fn reserved_places(rt: HostRuntime) -> Result<(), Fail> {
    let alloc = rt.alloc();
    let mut types = TypeGraph::new(alloc);
    let first = types.reserve()?;
    let second = types.reserve()?;
    let was_reserved = types.is_reserved(first);
    check_same(&rt, alloc, &types, &[(0, 0, true), (0, 1, false)])?;
    fill(&mut types, first.0, TypeNode::Integer);
    fill(&mut types, second.0, TypeNode::Integer);
    let found = (first, second, was_reserved, types.is_reserved(first));
    expect(&rt, found, (TypeId(0), TypeId(1), true, false), &"places");
    check_same(&rt, alloc, &types, &[(0, 1, true)])
}

/// Types with their words. An open array has no size.
static WORDS: [(u32, Option<u64>); 11] = [
    (0, Some(1)),
    (5, Some(1)),
    (12, Some(1)),
    (15, Some(4)),
    (18, None),
    (20, Some(16)),
    (24, Some(1)),
    (37, Some(2)),
    (44, Some(1)),
    (46, Some(1)),
    (50, Some(1)),
];

#[test]
fn words(rt: HostRuntime) -> Result<(), Fail> {
    let mut types = TypeGraph::new(rt.alloc());
    put_graph(&mut types)?;
    let sized = SizedTypes::measure(rt.alloc(), types)?;
    for (place, words) in &WORDS {
        let t = TypeId(*place);
        let found = if sized.has_size(t) {
            Some(sized.words_of(t))
        } else {
            None
        };
        expect(&rt, found, *words, place);
    }
    Ok(())
}
