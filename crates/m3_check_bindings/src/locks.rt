use crate::bindings::{Target, bind, target_of};
use m3_base::{NoMemory, Pos, rules};
use m3_check_bodies::Body;
use m3_check_state::Checker;
use m3_check_types::is_subtype;
use m3_core::{
    Base, BuiltinCall, Chain, CoreExpr, CoreStmt, Role, Routine, Step, VarKind, WithBinding,
};
use m3_syntax::{Expr, Name};
use m3_types::TypeId;

/// The hidden name of a LOCK: its binding, and what reads it.
#[derive(Clone, Copy)]
pub struct Hidden<'a> {
    binding: WithBinding<'a>,
    mutex: CoreExpr<'a>,
}

/// Binds the hidden name to the mutex (rule 77).
pub fn hide<'a>(
    checker: &mut Checker<'_, 'a>,
    body: &mut Body<'a>,
    pos: Pos,
    mutex: &Expr<'a>,
) -> Result<Option<Hidden<'a>>, NoMemory> {
    let at = mutex.pos();
    let Some(target) = target_of(checker, mutex)? else {
        return Ok(None);
    };
    let kind = kind_of(&target);
    if !is_subtype(checker, kind, checker.declared.basic.mutex)? {
        checker.note(at, rules::NOT_A_MUTEX);
    }
    let name = Name { text: b"", pos };
    let binding = bind(checker, body, name, Role::Lock, &target)?;
    let mutex = read_of(checker, body.level, at, binding.variable, &target)?;
    Ok(Some(Hidden { binding, mutex }))
}

fn kind_of(target: &Target<'_>) -> TypeId {
    match target.kind {
        VarKind::Variable(kind)
        | VarKind::ByValue(kind)
        | VarKind::ByVar(kind)
        | VarKind::ByReadonly(kind)
        | VarKind::Alias(kind) => kind,
    }
}

/// The value of a hidden name.
fn read_of<'a>(
    checker: &Checker<'_, 'a>,
    level: u32,
    pos: Pos,
    variable: u32,
    target: &Target<'a>,
) -> Result<CoreExpr<'a>, NoMemory> {
    let kind = kind_of(target);
    let base = match target.kind {
        VarKind::Alias(_) => Base::Alias {
            level,
            variable,
            kind,
        },
        _ => Base::Local {
            level,
            variable,
            kind,
        },
    };
    let steps = &*checker.arena.try_alloc_slice_copy(&[Step::Read { kind }])?;
    let chain = &*checker.arena.try_alloc(Chain {
        pos,
        base,
        steps,
        kind: Some(kind),
    })?;
    Ok(CoreExpr::Chain(chain))
}

/// Adds a LOCK of a hidden name and its statements to a row: WITH x = m DO Thread.Acquire(x); TRY S
/// FINALLY Thread.Release(x) END END.
pub fn add_lock<'a>(
    checker: &Checker<'_, 'a>,
    row: &mut Vec<CoreStmt<'a>>,
    pos: Pos,
    hidden: &Hidden<'a>,
    body: &'a [CoreStmt<'a>],
) -> Result<(), NoMemory> {
    let acquire = routine(checker, pos, hidden.mutex, Routine::Acquire)?;
    let release = routine(checker, pos, hidden.mutex, Routine::Release)?;
    let last = &*checker.arena.try_alloc_slice_copy(&[release])?;
    let guarded = CoreStmt::TryFinally { pos, body, last };
    row.push(CoreStmt::With {
        pos,
        bindings: &*checker.arena.try_alloc_slice_copy(&[hidden.binding])?,
        body: &*checker.arena.try_alloc_slice_copy(&[acquire, guarded])?,
    })?;
    Ok(())
}

/// A call of Acquire or Release with the mutex.
fn routine<'a>(
    checker: &Checker<'_, 'a>,
    pos: Pos,
    mutex: CoreExpr<'a>,
    routine: Routine,
) -> Result<CoreStmt<'a>, NoMemory> {
    let actuals = &*checker.arena.try_alloc_slice_copy(&[mutex])?;
    let call = &*checker.arena.try_alloc(BuiltinCall {
        pos,
        routine,
        actuals,
        order: &[0],
        kind: None,
    })?;
    Ok(CoreStmt::Builtin { pos, call })
}
