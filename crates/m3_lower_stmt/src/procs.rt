use crate::statements::statements;
use bumpalo::Bump;
use m3_base::NoMemory;
use m3_core::{Core, CoreStmt, VarDef};
use m3_lower_exits::{declare, ending, exits_of, first_moves};
use m3_lower_simple_statements::init_globals;
use m3_lower_state::{Builder, Pending};
use m3_lower_storage::{Head, Storage};
use m3_mid::Proc;
use std::alloc::Global;

/// The middle code of a procedure of the program, by its number. The module body that runs first
/// gives all global variables their defaults and their constants before anything else.
pub fn lower_proc<'m, 's>(
    alloc: Global,
    arena: &'m Bump,
    core: &Core,
    storage: &'s Storage<'s>,
    number: u32,
) -> Result<Proc<'m>, NoMemory> {
    let Some(proc) = core.procs.get(number as usize) else {
        return Err(NoMemory);
    };
    let Some(head) = storage.head(number) else {
        return Err(NoMemory);
    };
    let mut b = Builder::new(alloc, arena, storage, number);
    let globals = match core.order.first() {
        Some(first) if *first == number => Some(core.globals),
        _ => None,
    };
    let code = whole_code(&mut b, head, globals, proc.body);
    b.finish(code, head.room.formals)
}

/// The code of a procedure, from its end to its start; of the body that runs first with the first
/// values of the global variables.
fn whole_code<'m>(
    b: &mut Builder<'m, '_>,
    head: &Head,
    globals: Option<&[VarDef]>,
    body: &[CoreStmt],
) -> Pending<'m> {
    declare(b, head);
    let exits = exits_of(b, head);
    let code = ending(b, head);
    let code = statements(b, exits, body, code);
    let code = match globals {
        Some(globals) => init_globals(b, exits.around, globals, code),
        None => code,
    };
    first_moves(b, head, code)
}
