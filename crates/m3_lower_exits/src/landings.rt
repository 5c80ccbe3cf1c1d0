use m3_core::{Arm, CaseBranch, CoreStmt, Handler, TypeBranch, WithBinding};
use m3_lower_state::{Builder, Pending, clear};
use m3_lower_storage::{VarPlace, word_number, words_of_variable};

/// The slots of variables: from the first to before the last.
#[derive(Clone, Copy)]
pub struct SlotRange {
    first: u32,
    end: u32,
}

const NOTHING: SlotRange = SlotRange {
    first: u32::MAX,
    end: 0,
};

impl SlotRange {
    fn with(self, other: SlotRange) -> SlotRange {
        SlotRange {
            first: self.first.min(other.first),
            end: self.end.max(other.end),
        }
    }
}

fn range_of(b: &Builder, variable: u32) -> SlotRange {
    let words = match b.storage.kind_of_variable(b.number, variable) {
        Some(kind) => words_of_variable(b.storage.types, kind),
        None => 0,
    };
    match b.storage.place(b.number, variable) {
        VarPlace::Slots(first) if words > 0 => SlotRange {
            first,
            end: first.saturating_add(word_number(words)),
        },
        _ => NOTHING,
    }
}

fn range_of_all(b: &Builder, variables: &[u32]) -> SlotRange {
    let mut range = NOTHING;
    for variable in variables {
        range = range.with(range_of(b, *variable));
    }
    range
}

/// Clears the pointers in slots.
pub fn clear_range<'m>(
    b: &mut Builder<'m, '_>,
    range: SlotRange,
    rest: Pending<'m>,
) -> Pending<'m> {
    if range.first < range.end {
        clear(b, range.first, range.end, rest)
    } else {
        rest
    }
}

/// Clears the pointers in the slots of variables whose scope ends.
pub fn clear_variables<'m>(
    b: &mut Builder<'m, '_>,
    variables: &[u32],
    rest: Pending<'m>,
) -> Pending<'m> {
    let range = range_of_all(b, variables);
    clear_range(b, range, rest)
}

/// Clears the pointers in the slots of all variables inside statements that may have been
/// left otherwise than at their end.
pub fn clear_inside<'m>(
    b: &mut Builder<'m, '_>,
    row: &[CoreStmt],
    rest: Pending<'m>,
) -> Pending<'m> {
    let range = slots_inside(b, row);
    clear_range(b, range, rest)
}

/// The slots of all variables inside statements.
pub fn slots_inside(b: &Builder, row: &[CoreStmt]) -> SlotRange {
    if b.has_slots() {
        range_inside(b, row)
    } else {
        NOTHING
    }
}

#[cycle(landings)]
fn range_inside(b: &Builder, row: &[CoreStmt]) -> SlotRange {
    let mut range = NOTHING;
    for s in row {
        range = range.with(inside_one(b, s));
    }
    range
}

#[cycle(landings)]
fn inside_one(b: &Builder, s: &CoreStmt) -> SlotRange {
    match s {
        CoreStmt::Block {
            variables,
            body,
            ..
        } => range_of_all(b, variables).with(range_inside(b, body)),
        CoreStmt::Case { .. }
        | CoreStmt::If { .. }
        | CoreStmt::TryExcept { .. }
        | CoreStmt::TypeCase { .. } => inside_branches(b, s),
        CoreStmt::For { variable, body, .. } => range_of(b, *variable).with(range_inside(b, body)),
        CoreStmt::Loop { body, .. }
        | CoreStmt::Repeat { body, .. }
        | CoreStmt::While { body, .. } => range_inside(b, body),
        CoreStmt::TryFinally { body, last, .. } => {
            range_inside(b, body).with(range_inside(b, last))
        }
        CoreStmt::With { bindings, body, .. } => bound(b, bindings).with(range_inside(b, body)),
        CoreStmt::Assign { .. }
        | CoreStmt::Call { .. }
        | CoreStmt::Builtin { .. }
        | CoreStmt::Change { .. }
        | CoreStmt::Exit { .. }
        | CoreStmt::Eval { .. }
        | CoreStmt::Raise { .. }
        | CoreStmt::Return { .. } => NOTHING,
    }
}

/// The slots inside a statement that may have an ELSE.
#[cycle(landings)]
fn inside_branches(b: &Builder, s: &CoreStmt) -> SlotRange {
    let (range, last) = match s {
        CoreStmt::Case {
            branches,
            otherwise,
            ..
        } => (inside_cases(b, branches), otherwise.body),
        CoreStmt::If {
            arms,
            otherwise,
            ..
        } => (inside_arms(b, arms), otherwise.body),
        CoreStmt::TryExcept {
            body,
            handlers,
            otherwise,
            ..
        } => {
            let range = range_inside(b, body);
            (range.with(inside_handlers(b, handlers)), otherwise.body)
        }
        CoreStmt::TypeCase {
            branches,
            otherwise,
            ..
        } => (inside_types(b, branches), otherwise.body),
        _ => return NOTHING,
    };
    range.with(range_inside(b, last))
}

#[cycle(landings)]
fn inside_cases(b: &Builder, branches: &[CaseBranch]) -> SlotRange {
    let mut range = NOTHING;
    for branch in branches {
        range = range.with(range_inside(b, branch.body));
    }
    range
}

#[cycle(landings)]
fn inside_arms(b: &Builder, arms: &[Arm]) -> SlotRange {
    let mut range = NOTHING;
    for arm in arms {
        range = range.with(range_inside(b, arm.body));
    }
    range
}

#[cycle(landings)]
fn inside_handlers(b: &Builder, handlers: &[Handler]) -> SlotRange {
    let mut range = NOTHING;
    for handler in handlers {
        range = range.with(range_inside(b, handler.body));
        if let Some(variable) = handler.variable {
            range = range.with(range_of(b, variable));
        }
    }
    range
}

#[cycle(landings)]
fn inside_types(b: &Builder, branches: &[TypeBranch]) -> SlotRange {
    let mut range = NOTHING;
    for branch in branches {
        range = range.with(range_inside(b, branch.body));
        if let Some(variable) = branch.variable {
            range = range.with(range_of(b, variable));
        }
    }
    range
}

fn bound(b: &Builder, bindings: &[WithBinding]) -> SlotRange {
    let mut range = NOTHING;
    for binding in bindings {
        range = range.with(range_of(b, binding.variable));
    }
    range
}
