use crate::constants::constant_value;
use bumpalo::Bump;
use bumpalo::collections::into_bump_slice;
use m3_base::{NoMemory, Pos, place_number};
use m3_core::{Core, ExcDef, ProcDef, Text, Value as Constant, VarDef, VarKind, bytes_of};
use m3_source_sharing::shared_variables;
use m3_source_values::Value;
use m3_types::{Secret, TypeGraph, TypeId, TypeNode};
use m3_types_partition::Classes;
use std::alloc::Global;

/// What is asked of a procedure beside its body: its level, its formals and behind them all
/// variables of its body, the exceptions that it may raise, and its places.
#[derive(Clone, Copy)]
pub struct Heading<'m> {
    pub level: u32,
    pub variables: &'m [VarKind],
    pub has_result: bool,
    pub raises: Option<&'m [u32]>,
    pub pos: Pos,
    pub end: Pos,
}

/// A checked program without its trees. Values and all else that lives as long as a run stand in
/// the arena.
#[derive(Clone, Copy)]
pub struct Program<'m> {
    pub alloc: Global,
    pub arena: &'m Bump,
    pub(crate) nodes: &'m [TypeNode<'m>],
    /// For each type what stands behind it, where it is opaque and revealed.
    pub(crate) unveiled: &'m [TypeId],
    /// For each type the first type that is the same.
    pub(crate) kinds: &'m [TypeId],
    /// The bytes of each text of the program.
    pub(crate) texts: &'m [&'m [u8]],
    /// The value of each constant of the program.
    pub(crate) constants: &'m [Value<'m>],
    /// For each procedure which of its variables others can reach.
    pub shared: &'m [&'m [bool]],
    pub headings: &'m [Heading<'m>],
    /// For each exception the type of its argument.
    pub arguments: &'m [Option<TypeId>],
    /// The types of the variables of modules and interfaces.
    pub globals: &'m [TypeId],
    /// The module bodies in the order in which they run.
    pub order: &'m [u32],
    /// The number of the exception Thread.Alerted.
    pub alerted: u32,
}

impl<'m> Program<'m> {
    pub fn of(alloc: Global, arena: &'m Bump, core: &'m Core<'m>) -> Result<Program<'m>, NoMemory> {
        let graph = &core.types.graph;
        Ok(Program {
            alloc,
            arena,
            nodes: &graph.nodes,
            unveiled: unveiled_types(arena, graph)?,
            kinds: kinds_of(alloc, arena, graph)?,
            texts: texts_of(alloc, arena, core.texts)?,
            constants: constants_of(arena, core.values)?,
            shared: shared_variables(alloc, arena, core.procs)?,
            headings: headings_of(arena, core.procs)?,
            arguments: arguments_of(arena, core.exceptions)?,
            globals: types_of(arena, core.globals)?,
            order: core.order,
            alerted: core.alerted,
        })
    }

    /// The heading of a procedure.
    pub fn heading(&self, procedure: u32) -> Option<Heading<'m>> {
        self.headings.get(procedure as usize).copied()
    }
}

/// The type of a variable.
pub fn type_of(kind: VarKind) -> TypeId {
    match kind {
        VarKind::Variable(t)
        | VarKind::ByValue(t)
        | VarKind::ByVar(t)
        | VarKind::ByReadonly(t)
        | VarKind::Alias(t) => t,
    }
}

/// An opaque type stands for the type that fully reveals it, whatever a unit sees.
fn unveiled_types<'m>(arena: &'m Bump, graph: &TypeGraph<'_>) -> Result<&'m [TypeId], NoMemory> {
    let mut types = Vec::new(arena);
    for (place, node) in graph.nodes.iter().enumerate() {
        let t = TypeId(place_number(place)?);
        let is_revealed = matches!(node, TypeNode::Opaque(_, Secret::Revealed));
        if is_revealed && place < graph.nodes.len() {
            types.push(graph.full_reveal(t).unwrap_or(t))?;
        } else {
            types.push(t)?;
        }
    }
    Ok(into_bump_slice(types))
}

/// For each type the first type that is the same.
fn kinds_of<'m>(
    alloc: Global,
    arena: &'m Bump,
    graph: &TypeGraph<'_>,
) -> Result<&'m [TypeId], NoMemory> {
    let classes = Classes::of(alloc, graph)?;
    let count = graph.nodes.len();
    let mut firsts = vec![in alloc; None; count]?;
    let mut kinds = Vec::new(arena);
    for place in 0..count {
        let kind = TypeId(place_number(place)?);
        let class = classes.number(kind).unwrap_or(kind.0) as usize;
        let first = match firsts.get(class) {
            Some(Some(first)) => *first,
            _ => kind,
        };
        if let Some(kept) = firsts.get_mut(class) {
            *kept = Some(first);
        }
        kinds.push(first)?;
    }
    Ok(into_bump_slice(kinds))
}

/// The bytes of each text of a program.
fn texts_of<'m>(
    alloc: Global,
    arena: &'m Bump,
    texts: &[Text<'_>],
) -> Result<&'m [&'m [u8]], NoMemory> {
    let mut all = Vec::new(arena);
    for place in 0..texts.len() {
        let bytes = bytes_of(alloc, texts, place_number(place)?)?;
        all.push(&*arena.try_alloc_slice_copy(&bytes)?)?;
    }
    Ok(into_bump_slice(all))
}

/// The value of each constant of a program: those that it is made of stand before it.
fn constants_of<'m>(
    arena: &'m Bump,
    constants: &[Constant<'m>],
) -> Result<&'m [Value<'m>], NoMemory> {
    let mut values = Vec::new(arena);
    for constant in constants {
        let value = constant_value(arena, &values, *constant)?;
        values.push(value)?;
    }
    Ok(into_bump_slice(values))
}

/// The headings of procedures.
fn headings_of<'m>(arena: &'m Bump, procs: &[ProcDef<'m>]) -> Result<&'m [Heading<'m>], NoMemory> {
    let mut headings = Vec::new(arena);
    for procedure in procs {
        headings.push(Heading {
            level: procedure.level,
            variables: variables_of(arena, procedure.formals, procedure.locals)?,
            has_result: procedure.result.is_some(),
            raises: procedure.raises,
            pos: procedure.pos,
            end: procedure.end,
        })?;
    }
    Ok(into_bump_slice(headings))
}

/// The formals of a procedure, and behind them all variables of its body.
fn variables_of<'m>(
    arena: &'m Bump,
    formals: &[VarDef<'_>],
    locals: &[VarDef<'_>],
) -> Result<&'m [VarKind], NoMemory> {
    let mut kinds = Vec::new(arena);
    for variable in formals {
        kinds.push(variable.kind)?;
    }
    for variable in locals {
        kinds.push(variable.kind)?;
    }
    Ok(into_bump_slice(kinds))
}

/// The types of the arguments of exceptions.
fn arguments_of<'m>(
    arena: &'m Bump,
    exceptions: &[ExcDef<'_>],
) -> Result<&'m [Option<TypeId>], NoMemory> {
    let mut types = Vec::new(arena);
    for exception in exceptions {
        types.push(exception.argument)?;
    }
    Ok(into_bump_slice(types))
}

/// The types of variables.
fn types_of<'m>(arena: &'m Bump, variables: &[VarDef<'_>]) -> Result<&'m [TypeId], NoMemory> {
    let mut types = Vec::new(arena);
    for variable in variables {
        types.push(type_of(variable.kind))?;
    }
    Ok(into_bump_slice(types))
}
