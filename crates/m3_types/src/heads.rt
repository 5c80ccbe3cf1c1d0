ghost use Rattle.std.specs.Prelude.{◌≡◌, ◌↔◌, ℕ, map, IsTrue};
ghost use Rattle.m3_types.specs.Definitions.{head_of, head_at, head_of_branding, head_of_field, head_of_formal, head_of_method, head_of_raises, head_of_value};

use crate::nodes::{Brand, ConstValue, Field, Formal, Method, Override, Raises, TypeNode};

fn same_brands(a: Option<Brand>, b: Option<Brand>) -> bool
    ensures { IsTrue result ↔ (head_of_branding a.entry ≡ head_of_branding b.entry) }
{
    match (a, b) {
        (None, None) => true,
        (Some(Brand::Text(x)), Some(Brand::Text(y))) => x == y,
        (Some(Brand::Occurrence(x)), Some(Brand::Occurrence(y))) => x == y,
        _ => false,
    }
}

fn same_name(x: &[u8], y: &[u8]) -> bool
    ensures { IsTrue result ↔ (x.now ≡ y.now) }
{
    x == y
}

fn same_names(xs: &[&[u8]], ys: &[&[u8]]) -> bool
    ensures { IsTrue result ↔ (map (λ n. n.now) xs.now ≡ map (λ n. n.now) ys.now) }
{
    if xs.len() != ys.len() {
        return false;
    }
    for (i, x) in xs.iter().enumerate() {
        if !same_name(x, ys[i]) {
            return false;
        }
    }
    true
}

fn same_field(x: &Field, y: &Field) -> bool
    ensures { IsTrue result ↔ (head_of_field x.now ≡ head_of_field y.now) }
{
    x.name == y.name && x.default.is_some() == y.default.is_some()
}

fn same_fields(xs: &[Field], ys: &[Field]) -> bool
    ensures { IsTrue result ↔ (map head_of_field xs.now ≡ map head_of_field ys.now) }
{
    if xs.len() != ys.len() {
        return false;
    }
    for (i, x) in xs.iter().enumerate() {
        if !same_field(x, &ys[i]) {
            return false;
        }
    }
    true
}

fn same_formal(x: &Formal, y: &Formal) -> bool
    ensures { IsTrue result ↔ (head_of_formal x.now ≡ head_of_formal y.now) }
{
    x.name == y.name && x.mode == y.mode && x.default.is_some() == y.default.is_some()
}

fn same_formals(xs: &[Formal], ys: &[Formal]) -> bool
    ensures { IsTrue result ↔ (map head_of_formal xs.now ≡ map head_of_formal ys.now) }
{
    if xs.len() != ys.len() {
        return false;
    }
    for (i, x) in xs.iter().enumerate() {
        if !same_formal(x, &ys[i]) {
            return false;
        }
    }
    true
}

fn same_method(x: &Method, y: &Method) -> bool
    ensures { IsTrue result ↔ (head_of_method x.now ≡ head_of_method y.now) }
{
    x.name == y.name && x.default.is_some() == y.default.is_some()
}

fn same_methods(xs: &[Method], ys: &[Method]) -> bool
    ensures { IsTrue result ↔ (map head_of_method xs.now ≡ map head_of_method ys.now) }
{
    if xs.len() != ys.len() {
        return false;
    }
    for (i, x) in xs.iter().enumerate() {
        if !same_method(x, &ys[i]) {
            return false;
        }
    }
    true
}

fn same_overrides(xs: &[Override], ys: &[Override]) -> bool
    ensures { IsTrue result ↔ (map (λ o. o.name.now) xs.now ≡ map (λ o. o.name.now) ys.now) }
{
    if xs.len() != ys.len() {
        return false;
    }
    for (i, x) in xs.iter().enumerate() {
        if !same_name(x.name, ys[i].name) {
            return false;
        }
    }
    true
}

fn same_raises(x: Raises, y: Raises) -> bool
    ensures { IsTrue result ↔ (head_of_raises x.entry ≡ head_of_raises y.entry) }
{
    match (x, y) {
        (Raises::Any, Raises::Any) => true,
        (Raises::Only(a), Raises::Only(b)) => a == b,
        _ => false,
    }
}

fn same_values(x: ConstValue, y: ConstValue) -> bool
    ensures { IsTrue result ↔ (head_of_value x.entry ≡ head_of_value y.entry) }
{
    match (x, y) {
        (ConstValue::Ordinal(a), ConstValue::Ordinal(b)) => a == b,
        (ConstValue::Nil, ConstValue::Nil) => true,
        (ConstValue::Text(a), ConstValue::Text(b)) => a == b,
        (ConstValue::Procedure(a), ConstValue::Procedure(b)) => a == b,
        (ConstValue::Set(a), ConstValue::Set(b)) => a == b,
        (ConstValue::Fields(_), ConstValue::Fields(_)) => true,
        (ConstValue::Elements(_, a), ConstValue::Elements(_, b)) => a == b,
        _ => false,
    }
}

/// Whether two definitions are equal but for the places that they name.
fn heads_match(a: usize, x: TypeNode, b: usize, y: TypeNode) -> bool
    ensures { IsTrue result ↔ (head_of a x.entry ≡ head_of b y.entry) }
{
    match (x, y) {
        (TypeNode::Integer, TypeNode::Integer)
        | (TypeNode::Boolean, TypeNode::Boolean)
        | (TypeNode::Character, TypeNode::Character)
        | (TypeNode::FixedArray(_, _), TypeNode::FixedArray(_, _))
        | (TypeNode::OpenArray(_), TypeNode::OpenArray(_))
        | (TypeNode::SetOf(_), TypeNode::SetOf(_))
        | (TypeNode::Null, TypeNode::Null)
        | (TypeNode::RefAny, TypeNode::RefAny)
        | (TypeNode::Text, TypeNode::Text)
        | (TypeNode::Mutex, TypeNode::Mutex)
        | (TypeNode::Root, TypeNode::Root) => true,
        (TypeNode::Enumeration(p), TypeNode::Enumeration(q)) => same_names(p, q),
        (TypeNode::Subrange(_, f, l), TypeNode::Subrange(_, g, m)) => f == g && l == m,
        (TypeNode::Fields(p), TypeNode::Fields(q)) => same_fields(p, q),
        (TypeNode::RefTo(p, _), TypeNode::RefTo(q, _)) => same_brands(p, q),
        (TypeNode::Object(p, _, fs, ms, os), TypeNode::Object(q, _, gs, ns, ps)) => {
            same_brands(p, q)
                && same_fields(fs, gs)
                && same_methods(ms, ns)
                && same_overrides(os, ps)
        }
        (TypeNode::Procedure(fs, r, e), TypeNode::Procedure(gs, s, f)) => {
            same_formals(fs, gs) && r.is_some() == s.is_some() && same_raises(e, f)
        }
        (TypeNode::Opaque(_, _), TypeNode::Opaque(_, _))
        | (TypeNode::Reserved, TypeNode::Reserved) => a == b,
        (TypeNode::Constant(v), TypeNode::Constant(w)) => same_values(v, w),
        _ => false,
    }
}

/// Whether the definitions at two places are equal but for the places that they name.
pub fn heads_match_at(nodes: &[TypeNode], a: usize, b: usize) -> bool
    ensures { IsTrue result ↔ (head_at nodes.now a ≡ head_at nodes.now b) }
{
    match (nodes.get(a), nodes.get(b)) {
        (Some(x), Some(y)) => heads_match(a, *x, b, *y),
        (None, None) => true,
        _ => false,
    }
}
