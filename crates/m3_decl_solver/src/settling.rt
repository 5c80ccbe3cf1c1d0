use crate::promises::forget_refused;
use crate::soundness::tell_unsound;
use m3_base::{NoMemory, place_number, rules};
use m3_const_values::Need;
use m3_decl_reveals::{list_reveals, note_reveals};
use m3_decl_state::{Declarer, Doubts, Promise, Trees};
use m3_decl_tasks::{make_constant, make_kind, make_methods, make_node};
use m3_link_scopes::{EntityId, EntityKind};

/// Does all tasks: the definitions of types, then with the reveals of opaque types the constants
/// and the types of variables.
pub fn settle_all<'a>(
    declarer: &mut Declarer<'_, 'a>,
    trees: &mut Trees<'_, 'a>,
) -> Result<(), NoMemory> {
    note_reveals(declarer, trees.declarations)?;
    attempt_nodes(declarer, trees)?;
    settle_nodes(declarer, trees)?;
    settle_methods(declarer, trees)?;
    tell_unsound(declarer)?;
    declarer.has_definitions = true;
    list_reveals(declarer, trees.declarations)?;
    declarer.eval.is_complete = true;
    forget_refused(declarer, &trees.doubts)?;
    judge_postponed(declarer, trees)?;
    settle_names(declarer, trees)
}

/// Tries the definition of each type once; those that lack something are settled behind that.
fn attempt_nodes<'a>(
    declarer: &mut Declarer<'_, 'a>,
    trees: &mut Trees<'_, 'a>,
) -> Result<(), NoMemory> {
    for place in 0..declarer.planned.len() {
        if let Some(kind) = declarer.planned.get(place).copied() {
            attempt(declarer, trees, Need::Node(kind))?;
        }
    }
    Ok(())
}

fn settle_nodes<'a>(
    declarer: &mut Declarer<'_, 'a>,
    trees: &mut Trees<'_, 'a>,
) -> Result<(), NoMemory> {
    for place in 0..declarer.planned.len() {
        if let Some(kind) = declarer.planned.get(place).copied() {
            settle(declarer, trees, Need::Node(kind))?;
        }
    }
    Ok(())
}

fn settle_methods<'a>(
    declarer: &mut Declarer<'_, 'a>,
    trees: &mut Trees<'_, 'a>,
) -> Result<(), NoMemory> {
    for place in 0..declarer.eval.drafted.len() {
        if let Some(kind) = declarer.eval.drafted.get(place).copied() {
            settle(declarer, trees, Need::Methods(kind))?;
        }
    }
    Ok(())
}

/// Does the tasks again whose text breaks a rule, since it is only now known which types are
/// refused, and notes the rules that are broken all the same.
fn judge_postponed<'a>(
    declarer: &mut Declarer<'_, 'a>,
    trees: &mut Trees<'_, 'a>,
) -> Result<(), NoMemory> {
    for place in 0..declarer.postponed.len() {
        if let Some(need) = declarer.postponed.get(place).copied() {
            forget_notes(declarer);
            make(declarer, trees, need)?;
            note_reasons(declarer);
        }
    }
    Ok(())
}

fn settle_names<'a>(
    declarer: &mut Declarer<'_, 'a>,
    trees: &mut Trees<'_, 'a>,
) -> Result<(), NoMemory> {
    for place in 0..declarer.eval.program.binds.entities().len() {
        let id = EntityId(place_number(place)?);
        if let Some(need) = need_of(declarer, id) {
            settle(declarer, trees, need)?;
        }
    }
    Ok(())
}

/// The task that a name is.
fn need_of<'a>(declarer: &Declarer<'_, 'a>, id: EntityId) -> Option<Need> {
    let entity = declarer.eval.program.binds.entity(id)?;
    match entity.kind {
        EntityKind::Constant => Some(Need::Constant(id)),
        EntityKind::Variable | EntityKind::Formal => match declarer.eval.declared.kind_of(id) {
            Some(_) => None,
            None => Some(Need::Kind(id)),
        },
        _ => None,
    }
}

/// Does a task, and before it those that it lacks, over an explicit stack.
fn settle<'a>(
    declarer: &mut Declarer<'_, 'a>,
    trees: &mut Trees<'_, 'a>,
    need: Need,
) -> Result<(), NoMemory> {
    let mut stack = Vec::new(declarer.eval.alloc);
    stack.push(need)?;
    'tasks: for _ in 0..u64::MAX {
        let Some(need) = stack.last().copied() else {
            break 'tasks;
        };
        if declarer.eval.settled.contains(&need) || attempt(declarer, trees, need)? {
            stack.pop();
            declarer.busy.remove(&need);
            continue 'tasks;
        }
        let place = stack.len().saturating_sub(1);
        declarer.busy.insert(need, place)?;
        push_lacks(declarer, &mut stack)?;
    }
    Ok(())
}

/// Puts what a task lacks onto the stack. Where this is a task below it, all between need
/// themselves.
fn push_lacks<'a>(declarer: &mut Declarer<'_, 'a>, stack: &mut Vec<Need>) -> Result<(), NoMemory> {
    for place in 0..declarer.eval.lacks.len() {
        if let Some(lacking) = declarer.eval.lacks.get(place).copied() {
            if let Some(below) = declarer.busy.get(&lacking).copied() {
                return refuse_cycle(declarer, stack, below);
            }
        }
    }
    for lacking in declarer.eval.lacks.iter().rev() {
        stack.push(*lacking)?;
    }
    Ok(())
}

/// Refuses the tasks from a place of the stack on that are begun (rule 46): those that have names,
/// or all where none has one.
fn refuse_cycle<'a>(
    declarer: &mut Declarer<'_, 'a>,
    stack: &[Need],
    below: usize,
) -> Result<(), NoMemory> {
    let by_name = has_named(declarer, stack, below);
    for (place, need) in stack.iter().enumerate() {
        if is_on_cycle(declarer, *need, place, below) {
            if is_named(declarer, *need) || !by_name {
                refuse_task(declarer, *need);
            }
            declarer.eval.settled.insert(*need)?;
        }
    }
    Ok(())
}

/// Whether a task at a place of the stack is begun, and stands from a place on.
fn is_on_cycle<'a>(declarer: &Declarer<'_, 'a>, need: Need, place: usize, below: usize) -> bool {
    place >= below && declarer.busy.get(&need).copied() == Some(place)
}

/// Whether a task of a cycle has a name.
fn has_named<'a>(declarer: &Declarer<'_, 'a>, stack: &[Need], below: usize) -> bool {
    for (place, need) in stack.iter().enumerate() {
        if is_on_cycle(declarer, *need, place, below) && is_named(declarer, *need) {
            return true;
        }
    }
    false
}

/// Whether a task is the definition of a name.
fn is_named<'a>(declarer: &Declarer<'_, 'a>, need: Need) -> bool {
    match need {
        Need::Constant(_) | Need::Kind(_) => true,
        Need::Node(kind) | Need::Methods(kind) => match declarer.plans.get(&kind) {
            Some(plan) => plan.is_named,
            None => false,
        },
    }
}

fn refuse_task<'a>(declarer: &mut Declarer<'_, 'a>, need: Need) {
    let at = match need {
        Need::Constant(id) | Need::Kind(id) => declarer.place_of(id),
        Need::Node(kind) | Need::Methods(kind) => match declarer.plans.get(&kind) {
            Some(plan) => Some((plan.unit, plan.pos)),
            None => None,
        },
    };
    if let Some((unit, pos)) = at {
        declarer.note(unit, pos, rules::ILLEGAL_RECURSION);
    }
}

/// Tries a task once. Whether it is done; else it lacks what is listed, and what it kept is taken
/// back.
fn attempt<'a>(
    declarer: &mut Declarer<'_, 'a>,
    trees: &mut Trees<'_, 'a>,
    need: Need,
) -> Result<bool, NoMemory> {
    forget_notes(declarer);
    trees.doubts.doubts.clear();
    trees.doubts.assumed.clear();
    let texts = declarer.eval.declared.texts.len();
    let values = declarer.eval.declared.values.len();
    let interned = declarer.intern_order.len();
    make(declarer, trees, need)?;
    if !declarer.has_all() {
        declarer.eval.declared.texts.truncate(texts);
        declarer.eval.declared.values.truncate(values);
        forget_interned(declarer, interned);
        return Ok(false);
    }
    note_flaw(declarer, &trees.doubts, need)?;
    if declarer.eval.is_complete || declarer.reasons.is_empty() {
        note_reasons(declarer);
    } else {
        declarer.postponed.push(need)?;
    }
    keep_doubts(&mut trees.doubts, need)?;
    keep_notes(declarer)?;
    declarer.eval.settled.insert(need)?;
    Ok(true)
}

/// Does a task as far as it can be done.
fn make<'a>(
    declarer: &mut Declarer<'_, 'a>,
    trees: &mut Trees<'_, 'a>,
    need: Need,
) -> Result<(), NoMemory> {
    match need {
        Need::Constant(id) => make_constant(declarer, trees, id),
        Need::Kind(id) => make_kind(declarer, trees, id),
        Need::Node(kind) => make_node(declarer, trees, kind),
        Need::Methods(kind) => make_methods(declarer, trees, kind),
    }
}

/// Forgets what the task before noted.
fn forget_notes(declarer: &mut Declarer<'_, '_>) {
    declarer.eval.lacks.clear();
    declarer.reasons.clear();
    declarer.new_brands.clear();
    declarer.new_values.clear();
}

/// Takes back the constants that were interned behind the first so many.
fn forget_interned<'a>(declarer: &mut Declarer<'_, 'a>, kept: usize) {
    for _ in kept..declarer.intern_order.len() {
        if let Some(value) = declarer.intern_order.pop() {
            declarer.interned.remove(&value);
        }
    }
}

/// Keeps what a task noted of constant expressions.
fn keep_doubts(doubts: &mut Doubts<'_>, need: Need) -> Result<(), NoMemory> {
    keep_all(doubts.doubts.as_slice(), &mut doubts.doubtful)?;
    let constant = match need {
        Need::Constant(id) => Some(id),
        _ => None,
    };
    for promise in &doubts.assumed {
        let promise = Promise {
            constant,
            ..*promise
        };
        doubts.promises.push(promise)?;
    }
    Ok(())
}

/// Keeps the brands and the procedures of methods that a task noted.
fn keep_notes<'a>(declarer: &mut Declarer<'_, 'a>) -> Result<(), NoMemory> {
    keep_all(declarer.new_brands.as_slice(), &mut declarer.brands)?;
    keep_all(declarer.new_values.as_slice(), &mut declarer.values)
}

/// Notes that the text of a type breaks a rule.
fn note_flaw<'a>(
    declarer: &mut Declarer<'_, 'a>,
    doubts: &Doubts<'a>,
    need: Need,
) -> Result<(), NoMemory> {
    if declarer.reasons.is_empty() && doubts.doubts.is_empty() {
        return Ok(());
    }
    match need {
        Need::Node(kind) | Need::Methods(kind) => declarer.flawed.push(kind)?,
        Need::Constant(_) | Need::Kind(_) => {}
    }
    Ok(())
}

fn note_reasons<'a>(declarer: &mut Declarer<'_, 'a>) {
    let unit = declarer.eval.unit;
    for place in 0..declarer.reasons.len() {
        if let Some(reason) = declarer.reasons.get(place).copied() {
            declarer.note(unit, reason.pos, reason.rule);
        }
    }
}

fn keep_all<T: Copy>(noted: &[T], kept: &mut Vec<T>) -> Result<(), NoMemory> {
    for item in noted {
        kept.push(*item)?;
    }
    Ok(())
}
