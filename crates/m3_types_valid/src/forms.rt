ghost use Rattle.std.specs.Prelude.{◌≤◌, ◌↔◌, IsTrue, IfOk, All, length, drop};
ghost use Rattle.std.specs.List.Sorted.{IsStrictlyIncreasing};
ghost use Rattle.m3_types_valid.specs.Forms.{IsType, IsConstant, IsMethod, FitElements, AreInOrder};
ghost use Rattle.m3_types_valid.specs.Forms.{IsValue, HasOwnForm, HasFormAt};
ghost use Rattle.m3_types_valid.specs.Rows.{HasFormOfRows};

use crate::kinds::{
    is_base_at, is_constant_at, is_ordinal_at, is_parent_at, is_procedure_at, is_type_at,
};
use m3_base::NoMemory;
use m3_types::{
    ConstValue, Method, Raises, TypeNode, is_reference_at, node_at, parts_at, types_at,
};
use std::alloc::Global;

fn all_types(nodes: &[TypeNode], places: &[usize]) -> bool
    ensures { IsTrue result ↔ All (IsType nodes.now) places.now }
{
    places.iter().all(|place| is_type_at(nodes, *place))
}

/// Whether each place behind the first ones of a row is that of a constant.
fn all_constants_from(nodes: &[TypeNode], places: &[usize], first: usize) -> bool
    requires { first ≤ length places.now }
    ensures { IsTrue result ↔ All (IsConstant nodes.now) (drop first places.now) }
{
    let places = &places[first..];
    places.iter().all(|place| is_constant_at(nodes, *place))
}

/// Whether a row of numbers rises strictly.
fn rises(row: &[u32]) -> bool
    ensures { IsTrue result ↔ IsStrictlyIncreasing row.now }
{
    for i in 1..row.len() {
        if row[i - 1] >= row[i] {
            return false;
        }
    }
    true
}

/// Whether the places of a set's members rise strictly.
fn members_rise(row: &[u8]) -> bool
    ensures { IsTrue result ↔ IsStrictlyIncreasing row.now }
{
    for i in 1..row.len() {
        if row[i - 1] >= row[i] {
            return false;
        }
    }
    true
}

/// Whether the listed elements of an array are no more than it has, and none only where it has
/// none.
fn elements_fit(listed: usize, count: u64) -> bool
    ensures { IsTrue result ↔ FitElements listed count }
{
    if listed == 0 {
        count == 0
    } else {
        listed as u64 <= count
    }
}

fn are_in_order(raises: Raises) -> bool
    ensures { IsTrue result ↔ AreInOrder raises.entry }
{
    match raises {
        Raises::Any => true,
        Raises::Only(row) => rises(row),
    }
}

fn is_value(value: ConstValue) -> bool
    ensures { IsTrue result ↔ IsValue value.entry }
{
    match value {
        ConstValue::Set(row) => members_rise(row),
        ConstValue::Elements(row, count) => elements_fit(row.len(), count),
        _ => true,
    }
}

/// Whether the signature of each method is a procedure type.
fn all_methods(nodes: &[TypeNode], methods: &[Method]) -> bool
    ensures { IsTrue result ↔ All (IsMethod nodes.now) methods.now }
{
    methods.iter().all(|method| is_procedure_at(nodes, method.signature.0 as usize))
}

fn has_own_form(nodes: &[TypeNode], node: TypeNode) -> bool
    ensures { IsTrue result ↔ HasOwnForm nodes.now node.entry }
{
    match node {
        TypeNode::Reserved => false,
        TypeNode::Subrange(base, _, _) => is_base_at(nodes, base.0 as usize),
        TypeNode::FixedArray(index, _) => is_ordinal_at(nodes, index.0 as usize),
        TypeNode::SetOf(base) => is_ordinal_at(nodes, base.0 as usize),
        TypeNode::Object(_, parent, _, methods, _) => {
            is_parent_at(nodes, parent.0 as usize) && all_methods(nodes, methods)
        }
        TypeNode::Procedure(_, _, raises) => are_in_order(raises),
        TypeNode::Opaque(bound, _) => is_reference_at(nodes, bound.0 as usize),
        TypeNode::Constant(value) => is_value(value),
        _ => true,
    }
}

/// Whether a definition that names these types, and these types and constants, has its form.
fn has_form_of_rows(nodes: &[TypeNode], node: TypeNode, types: &[usize], parts: &[usize]) -> bool
    requires { length types.now ≤ length parts.now }
    ensures { IsTrue result ↔ HasFormOfRows nodes.now node.entry types.now parts.now }
{
    all_types(nodes, types)
        && (all_constants_from(nodes, parts, types.len()) && has_own_form(nodes, node))
}

/// Whether the definition at a place has its form: it isn't only reserved, what it names is there
/// and of the kind that is asked for, and its rows are in order.
pub(crate) fn has_form(alloc: Global, nodes: &[TypeNode], place: usize) -> Result<bool, NoMemory>
    ensures { IfOk result (λ b. IsTrue b ↔ HasFormAt nodes.now place) }
{
    let Some(node) = node_at(nodes, place) else {
        return Ok(false);
    };
    let types = types_at(alloc, nodes, place)?;
    let parts = parts_at(alloc, nodes, place)?;
    Ok(has_form_of_rows(nodes, node, &types, &parts))
}
