use m3_base::NoMemory;
use m3_core::{Core, ProcDef};
use m3_types::{Formal, Mode, Raises, TypeId, TypeNode};
use std::alloc::Global;

/// A number of what is the same in types that are the same.
fn class_of(nodes: &[TypeNode], kind: TypeId) -> u64 {
    match nodes.get(kind.0 as usize) {
        Some(
            TypeNode::Integer
            | TypeNode::Boolean
            | TypeNode::Character
            | TypeNode::Enumeration(_)
            | TypeNode::Subrange(_, _, _),
        ) => 1,
        Some(TypeNode::Fields(_)) => 2,
        Some(TypeNode::FixedArray(_, _)) => 3,
        Some(TypeNode::OpenArray(_)) => 4,
        Some(TypeNode::SetOf(_)) => 5,
        Some(TypeNode::Procedure(_, _, _)) => 6,
        _ => 7,
    }
}

fn mode_of(mode: Mode) -> u64 {
    match mode {
        Mode::Value => 0,
        Mode::Var => 8,
        Mode::Readonly => 16,
    }
}

/// A number of what is the same in signatures of which one may stand for the other.
fn signature_number(nodes: &[TypeNode], formals: &[Formal], result_type: Option<TypeId>) -> u64 {
    let mut number = match result_type {
        Some(kind) => class_of(nodes, kind),
        None => 0,
    };
    for formal in formals {
        let own = mode_of(formal.mode).wrapping_add(class_of(nodes, formal.kind));
        number = number.wrapping_mul(31).wrapping_add(own);
    }
    number
}

fn is_empty(raises: Raises) -> bool {
    match raises {
        Raises::Any => false,
        Raises::Only(exceptions) => exceptions.is_empty(),
    }
}

/// The signatures behind whose calls somebody may look for an exception, rising.
fn loud_signatures(alloc: Global, nodes: &[TypeNode]) -> Result<Vec<u64>, NoMemory> {
    let mut loud = Vec::new(alloc);
    for node in nodes {
        if let TypeNode::Procedure(formals, result_type, raises) = node
            && !is_empty(*raises)
        {
            loud.push(signature_number(nodes, formals, *result_type))?;
        }
    }
    loud.sort()?;
    Ok(loud)
}

fn is_loud(loud: &[u64], signature: u64) -> bool {
    loud.binary_search(&signature).is_ok()
}

/// Whether no procedure type with an exception in its RAISES has the signature of a procedure, nor
/// of the procedure as a method.
fn is_quiet(nodes: &[TypeNode], loud: &[u64], proc: &ProcDef) -> bool {
    let has_no_exception = match proc.raises {
        Some(exceptions) => exceptions.is_empty() && !proc.is_module,
        None => false,
    };
    if let Some(TypeNode::Procedure(formals, result_type, _)) = nodes.get(proc.kind.0 as usize) {
        let behind = formals.get(1..).unwrap_or(&[]);
        return has_no_exception
            && !is_loud(loud, signature_number(nodes, formals, *result_type))
            && !is_loud(loud, signature_number(nodes, behind, *result_type));
    }
    false
}

/// By procedure of a program, whether nobody looks for an exception behind its calls: it raises
/// none, and it is no value of a type that may raise one.
pub fn quiet_procs(alloc: Global, core: &Core) -> Result<Vec<bool>, NoMemory> {
    let nodes = core.types.graph.nodes.as_slice();
    let loud = loud_signatures(alloc, nodes)?;
    let mut quiet = Vec::new(alloc);
    for proc in core.procs {
        quiet.push(is_quiet(nodes, &loud, proc))?;
    }
    Ok(quiet)
}
