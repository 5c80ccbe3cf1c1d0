ghost use Rattle.std.specs.Prelude.{◌<◌, All, length};

use bumpalo::Bump;
use m3_base::{Refused, Source};
use m3_check_limits::{Lists, judge_limits};
use m3_check_numbering::list_all;
use m3_check_state::Checker;
use m3_check_statement_state::Walk;
use m3_check_units::{check_units, declare_globals};
use m3_consts::{Declarations, declare};
use m3_core::Core;
use m3_decl_state::Doubtful;
use m3_link_program::read_program;
use m3_link_scopes::Linked;
use m3_syntax::Unit;
use m3_types::{TypeGraph, TypeId, TypeNode};
use m3_types_sizes::SizedTypes;
use std::alloc::Global;

/// The checked program of some sources, whose trees stand in the arena, or the least of all rules
/// that they break: by phase, unit, place and rule. A phase is judged only where no rule of an
/// earlier one is broken.
pub fn check<'a>(
    alloc: Global,
    arena: &'a Bump,
    sources: &[Source<'a>],
) -> Result<Core<'a>, Refused>
    requires { All (λ source. length source.text.now < 4294967295) sources.now }
{
    let linked = read_program(alloc, arena, sources)?;
    check_program(alloc, arena, sources, &linked)
}

/// The checked program of a linked one.
fn check_program<'a>(
    alloc: Global,
    arena: &'a Bump,
    sources: &[Source<'a>],
    linked: &Linked<'a>,
) -> Result<Core<'a>, Refused> {
    let Declarations { declared, doubtful } = declare(alloc, arena, linked)?;
    let mut walk = Walk::new(Checker::new(alloc, arena, &linked.program, declared));
    check_all(&mut walk, linked, &doubtful, sources)
}

/// Checks what a program's declarations declare, and makes the checked program of it.
fn check_all<'a>(
    walk: &mut Walk<'_, 'a>,
    linked: &Linked<'a>,
    doubtful: &[Doubtful<'a>],
    sources: &[Source<'a>],
) -> Result<Core<'a>, Refused> {
    check_declared(walk, doubtful, &linked.units)?;
    let procedures = walk.procedures.as_slice();
    let lists = list_all(&mut walk.checker, linked, procedures, sources)?;
    core_of(&mut walk.checker, &lists)
}

/// Checks what a program's declarations declare, of which then nothing is refused.
fn check_declared<'a>(
    walk: &mut Walk<'_, 'a>,
    doubtful: &[Doubtful<'a>],
    units: &[Unit<'a>],
) -> Result<(), Refused> {
    declare_globals(&mut walk.checker, units)?;
    check_units(walk, doubtful, units)?;
    walk.checker.least.check()?;
    let refused = walk.checker.declared.basic.refused;
    give_up(&mut walk.checker.declared.types, refused);
    Ok(())
}

/// The graph of types of a checker that is done with it.
fn take_types<'a>(checker: &mut Checker<'_, 'a>) -> TypeGraph<'a> {
    let empty = TypeGraph::new(checker.alloc);
    let types = &mut checker.declared.types;
    std::mem::replace(types, empty)
}

/// Defines what stood for types that were refused, since no place of a whole graph is left
/// reserved.
fn give_up(types: &mut TypeGraph<'_>, refused: TypeId) {
    if types.is_reserved(refused) {
        types.set(refused, TypeNode::Null);
    }
}

/// The checked program of a checker that is done with it, if it is within the limits.
fn core_of<'a>(checker: &mut Checker<'_, 'a>, lists: &Lists<'a>) -> Result<Core<'a>, Refused> {
    let types = SizedTypes::measure(checker.alloc, take_types(checker))?;
    let core = Core {
        types,
        procs: lists.procs,
        globals: lists.globals,
        exceptions: lists.exceptions,
        texts: lists.texts,
        order: lists.order,
        values: lists.values,
        files: lists.files,
        alerted: lists.alerted,
    };
    judge_limits(checker.alloc, checker.program, lists, &core)?;
    Ok(core)
}
