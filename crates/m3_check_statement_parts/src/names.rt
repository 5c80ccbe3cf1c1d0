use m3_base::Pos;
use m3_check_bindings::{ForHead, Hidden, bind_all, for_head, hide};
use m3_check_statement_state::Walk;
use m3_core::WithBinding;
use m3_syntax::{Binding, Expr, Stmt};

/// The head of a FOR (rule 75). None where it was refused.
pub fn counted<'a>(walk: &mut Walk<'_, 'a>, statement: &Stmt<'a>) -> Option<ForHead<'a>> {
    let head = for_head(&mut walk.checker, &mut walk.body, statement);
    walk.memory.found(head)
}

/// The names of a WITH, each bound to a designator, or to a new variable that can't be written.
pub fn bindings<'a>(walk: &mut Walk<'_, 'a>, bindings: &[Binding<'a>]) -> &'a [WithBinding<'a>] {
    let bindings = bind_all(&mut walk.checker, &mut walk.body, bindings);
    walk.memory.row(bindings)
}

/// The hidden name of a LOCK (rule 77). None where its mutex was refused.
pub fn mutex<'a>(walk: &mut Walk<'_, 'a>, pos: Pos, mutex: &Expr<'a>) -> Option<Hidden<'a>> {
    let hidden = hide(&mut walk.checker, &mut walk.body, pos, mutex);
    walk.memory.found(hidden)
}
