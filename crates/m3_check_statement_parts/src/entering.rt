use m3_check_assignments::initial_values;
use m3_check_bodies::{declare_formals, declare_locals, known};
use m3_check_statement_state::Walk;
use m3_check_types::result_type;
use m3_core::CoreStmt;
use m3_syntax::{Decl, Name, Signature};
use m3_types::TypeId;

/// Goes into the body of a procedure, makes its formals, and gives its type. None where nothing is
/// known of it, and then the walk stays where it is.
pub fn enter<'a>(
    walk: &mut Walk<'_, 'a>,
    name: Name<'a>,
    signature: &Signature<'a>,
) -> Option<TypeId> {
    let (kind, number) = known(&walk.checker, name)?;
    let due = result_type(&walk.checker, kind);
    walk.enter(number, due);
    let formals = declare_formals(&mut walk.checker, &mut walk.body, signature, kind);
    walk.memory.made(formals);
    Some(kind)
}

/// The variables that a block declares, by their places.
pub fn locals<'a>(walk: &mut Walk<'_, 'a>, declarations: &[Decl<'a>]) -> &'a [u32] {
    let variables = declare_locals(&mut walk.checker, &mut walk.body, declarations);
    walk.memory.row(variables)
}

/// The initial values that declarations give, as statements.
pub fn initial<'a>(walk: &mut Walk<'_, 'a>, declarations: &[Decl<'a>]) -> &'a [CoreStmt<'a>] {
    let initial = initial_values(&mut walk.checker, declarations);
    walk.memory.row(initial)
}
