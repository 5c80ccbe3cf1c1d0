use crate::objects::{line, parent};
use crate::program::Program;
use crate::types::{methods_of_type, node_of};
use m3_base::NoMemory;
use m3_types::{ConstId, ConstValue, Override, TypeId, TypeNode};

/// A method's name, and the procedure that is bound to it, if it isn't NIL.
#[derive(Clone, Copy)]
struct Bound<'m> {
    name: &'m [u8],
    procedure: Option<u32>,
}

/// The procedure that a constant in the types is.
fn procedure_in(p: &Program<'_>, constant: ConstId) -> Option<u32> {
    match node_of(p, TypeId(constant.0)) {
        TypeNode::Constant(ConstValue::Procedure(procedure)) => Some(procedure),
        _ => None,
    }
}

/// What the overrides of a type bind anew: each the newest method of its name, and of two
/// overrides of one method the first counts.
fn bind_anew(p: &Program<'_>, methods: &mut [Bound<'_>], overrides: &[Override<'_>]) {
    for rebinding in overrides.iter().rev() {
        let procedure = procedure_in(p, rebinding.value);
        if let Some(newest) = newest_named(methods, rebinding.name)
            && let Some(method) = methods.get_mut(newest)
        {
            *method = Bound {
                name: method.name,
                procedure,
            };
        }
    }
}

/// The place of the last method of a name.
fn newest_named(methods: &[Bound<'_>], name: &[u8]) -> Option<usize> {
    let mut newest = None;
    for (place, method) in methods.iter().enumerate() {
        if method.name == name {
            newest = Some(place);
        }
    }
    newest
}

/// The methods of a type, those of its ancestors first.
fn methods_of<'m>(p: &Program<'m>, kind: TypeId) -> Result<Vec<Bound<'m>>, NoMemory> {
    let mut methods = Vec::new(p.alloc);
    for t in &line(p, kind)? {
        if let TypeNode::Object(_, _, _, added, overrides) = node_of(p, *t) {
            bind_anew(p, &mut methods, overrides);
            for method in added {
                let procedure = match method.default {
                    Some(default) => procedure_in(p, default.value),
                    None => None,
                };
                methods.push(Bound {
                    name: method.name,
                    procedure,
                })?;
            }
        }
    }
    Ok(methods)
}

/// The place of a method among those of an object, by the type that declares it.
pub fn method_place(p: &Program<'_>, owner: TypeId, method: u32) -> Result<usize, NoMemory> {
    let mut above = 0usize;
    if let Some(parent) = parent(p, owner) {
        for kind in &line(p, parent)? {
            above = above.saturating_add(methods_of_type(p, *kind).len());
        }
    }
    Ok(above.saturating_add(method as usize))
}

/// What an object of a type has bound to the method at a place; none where it is NIL.
pub fn procedure_of(p: &Program<'_>, kind: TypeId, place: usize) -> Result<Option<u32>, NoMemory> {
    match methods_of(p, kind)?.get(place) {
        Some(method) => Ok(method.procedure),
        None => Ok(None),
    }
}
