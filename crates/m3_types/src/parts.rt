ghost use Rattle.std.specs.Prelude.{◌≡◌, ◌++◌, ℕ, map, IfOk, OnOk};
ghost use Rattle.m3_types.specs.Definitions.{types_of, types_at, constants_of, parts_of, parts_at, result_part, default_part, gather, field_default, method_default, formal_default, parts_of_value};

use crate::nodes::{
    ConstId, ConstValue, Field, Formal, Initial, Method, Override, TypeId, TypeNode,
};
use m3_base::NoMemory;
use std::alloc::Global;

fn add_fields(out: &mut Vec<usize>, fields: &[Field]) -> Result<(), NoMemory>
    ensures { OnOk result (out.new.items ≡ out.old.items ++ map (λ f. f.kind.0) fields.now) }
{
    for field in fields {
        out.push(field.kind.0 as usize)?;
    }
    Ok(())
}

fn add_methods(out: &mut Vec<usize>, methods: &[Method]) -> Result<(), NoMemory>
    ensures { OnOk result (out.new.items ≡ out.old.items ++ map (λ m. m.signature.0) methods.now) }
{
    for method in methods {
        out.push(method.signature.0 as usize)?;
    }
    Ok(())
}

fn add_formals(out: &mut Vec<usize>, formals: &[Formal]) -> Result<(), NoMemory>
    ensures { OnOk result (out.new.items ≡ out.old.items ++ map (λ f. f.kind.0) formals.now) }
{
    for formal in formals {
        out.push(formal.kind.0 as usize)?;
    }
    Ok(())
}

fn add_result(out: &mut Vec<usize>, result_type: Option<TypeId>) -> Result<(), NoMemory>
    ensures { OnOk result (out.new.items ≡ out.old.items ++ result_part result_type) }
{
    if let Some(t) = result_type {
        out.push(t.0 as usize)?;
    }
    Ok(())
}

fn add_default(out: &mut Vec<usize>, default: Option<Initial>) -> Result<(), NoMemory>
    ensures { OnOk result (out.new.items ≡ out.old.items ++ default_part default) }
{
    if let Some(d) = default {
        out.push(d.value.0 as usize)?;
    }
    Ok(())
}

fn add_field_defaults(out: &mut Vec<usize>, fields: &[Field]) -> Result<(), NoMemory>
    ensures { OnOk result (out.new.items ≡ out.old.items ++ gather field_default fields.now) }
{
    for field in fields {
        add_default(out, field.default)?;
    }
    Ok(())
}

fn add_method_defaults(out: &mut Vec<usize>, methods: &[Method]) -> Result<(), NoMemory>
    ensures { OnOk result (out.new.items ≡ out.old.items ++ gather method_default methods.now) }
{
    for method in methods {
        add_default(out, method.default)?;
    }
    Ok(())
}

fn add_formal_defaults(out: &mut Vec<usize>, formals: &[Formal]) -> Result<(), NoMemory>
    ensures { OnOk result (out.new.items ≡ out.old.items ++ gather formal_default formals.now) }
{
    for formal in formals {
        add_default(out, formal.default)?;
    }
    Ok(())
}

fn add_overrides(out: &mut Vec<usize>, overrides: &[Override]) -> Result<(), NoMemory>
    ensures { OnOk result (out.new.items ≡ out.old.items ++ map (λ o. o.value.0) overrides.now) }
{
    for bound in overrides {
        out.push(bound.value.0 as usize)?;
    }
    Ok(())
}

fn add_constants(out: &mut Vec<usize>, constants: &[ConstId]) -> Result<(), NoMemory>
    ensures { OnOk result (out.new.items ≡ out.old.items ++ map (λ c. c.0) constants.now) }
{
    for constant in constants {
        out.push(constant.0 as usize)?;
    }
    Ok(())
}

/// Adds the types that a definition names, in order.
fn add_types_of(out: &mut Vec<usize>, node: TypeNode) -> Result<(), NoMemory>
    ensures { OnOk result (out.new.items ≡ out.old.items ++ types_of node.entry) }
{
    match node {
        TypeNode::Subrange(t, _, _)
        | TypeNode::OpenArray(t)
        | TypeNode::SetOf(t)
        | TypeNode::RefTo(_, t) => out.push(t.0 as usize)?,
        TypeNode::FixedArray(index, element) => {
            out.push(index.0 as usize)?;
            out.push(element.0 as usize)?;
        }
        TypeNode::Fields(fields) => add_fields(out, fields)?,
        TypeNode::Object(_, parent, fields, methods, _) => {
            out.push(parent.0 as usize)?;
            add_fields(out, fields)?;
            add_methods(out, methods)?;
        }
        TypeNode::Procedure(formals, result_type, _) => {
            add_formals(out, formals)?;
            add_result(out, result_type)?;
        }
        _ => {}
    }
    Ok(())
}

/// Adds the constants that a constant names: the fields of a record or the elements of an array.
fn add_parts_of_value(out: &mut Vec<usize>, value: ConstValue) -> Result<(), NoMemory>
    ensures { OnOk result (out.new.items ≡ out.old.items ++ parts_of_value value.entry) }
{
    match value {
        ConstValue::Fields(fields) => add_constants(out, fields),
        ConstValue::Elements(elements, _) => add_constants(out, elements),
        _ => Ok(()),
    }
}

/// Adds the constants that a definition names, in order.
fn add_constants_of(out: &mut Vec<usize>, node: TypeNode) -> Result<(), NoMemory>
    ensures { OnOk result (out.new.items ≡ out.old.items ++ constants_of node.entry) }
{
    match node {
        TypeNode::Fields(fields) => add_field_defaults(out, fields)?,
        TypeNode::Object(_, _, fields, methods, overrides) => {
            add_field_defaults(out, fields)?;
            add_method_defaults(out, methods)?;
            add_overrides(out, overrides)?;
        }
        TypeNode::Procedure(formals, _, _) => add_formal_defaults(out, formals)?,
        TypeNode::Constant(value) => add_parts_of_value(out, value)?,
        _ => {}
    }
    Ok(())
}

/// The types that the definition at a place names; none past the end of the list.
pub fn types_at(alloc: Global, nodes: &[TypeNode], place: usize) -> Result<Vec<usize>, NoMemory>
    ensures { IfOk result (λ types. types.items ≡ types_at nodes.now place) }
{
    let mut types = Vec::new(alloc);
    if let Some(node) = nodes.get(place) {
        add_types_of(&mut types, *node)?;
    }
    Ok(types)
}

/// The types and then the constants that the definition at a place names; none past the end of the list.
pub fn parts_at(alloc: Global, nodes: &[TypeNode], place: usize) -> Result<Vec<usize>, NoMemory>
    ensures { IfOk result (λ parts. parts.items ≡ parts_at nodes.now place) }
{
    let mut parts = Vec::new(alloc);
    if let Some(node) = nodes.get(place) {
        add_types_of(&mut parts, *node)?;
        add_constants_of(&mut parts, *node)?;
    }
    Ok(parts)
}
