use m3_base::{NoMemory, Pos, rules};
use m3_const_values::{Known, Worth, assignability, converted};
use m3_decl_constants::worth_of;
use m3_decl_lookup::Constant;
use m3_decl_reveals::judge_reveals;
use m3_decl_rules::{
    judge_arguments, judge_bodies, judge_brands, judge_methods, judge_parts, judge_recursion,
};
use m3_decl_solver::{is_kept, tell_unsound};
use m3_decl_state::{Declarer, Doubtful, Doubts, Promise, Trees};
use m3_link_gather::LabelAt;
use m3_link_scopes::{Entity, EntityKind};
use m3_syntax::{Expr, Init};
use m3_types::TypeId;
use m3_types_subtype::Assign;

/// Judges what takes all types and constants.
pub fn judge_all<'a>(
    declarer: &mut Declarer<'_, 'a>,
    trees: &mut Trees<'_, 'a>,
) -> Result<(), NoMemory> {
    judge_recursion(declarer)?;
    judge_parts(declarer, trees)?;
    tell_unsound(declarer)?;
    judge_methods(declarer, trees.gathered.types.as_slice())?;
    judge_reveals(declarer, trees.declarations)?;
    judge_promises(declarer, &mut trees.doubts)?;
    judge_arguments(declarer, trees)?;
    judge_brands(declarer)?;
    judge_bodies(declarer, trees)?;
    judge_interface_variables(declarer, trees)?;
    tell_labels(
        declarer,
        &mut trees.doubts,
        trees.gathered.labels.as_slice(),
    )
}

/// Judges what was assumed while types were worked out: rule 44 where a place wants another type.
fn judge_promises<'a>(
    declarer: &mut Declarer<'_, 'a>,
    doubts: &mut Doubts<'a>,
) -> Result<(), NoMemory> {
    for promise in &doubts.promises {
        if !is_kept(declarer, &promise.assumed)? {
            refuse_promise(declarer, &mut doubts.doubtful, promise)?;
        }
    }
    Ok(())
}

/// Refuses a promise that isn't kept, or keeps its expression as a doubtful one.
fn refuse_promise<'a>(
    declarer: &mut Declarer<'_, 'a>,
    doubtful: &mut Vec<Doubtful<'a>>,
    promise: &Promise<'a>,
) -> Result<(), NoMemory> {
    let assumed = &promise.assumed;
    if assumed.is_wanted {
        declarer.note(assumed.unit, assumed.pos, rules::WRONG_KIND_OF_CONSTANT);
    } else {
        doubtful.push(Doubtful {
            unit: assumed.unit,
            value: promise.value,
        })?;
    }
    Ok(())
}

/// The initial values of interface variables: each is a constant (rule 49 at the variable).
fn judge_interface_variables<'a>(
    declarer: &mut Declarer<'_, 'a>,
    trees: &mut Trees<'_, 'a>,
) -> Result<(), NoMemory> {
    let program = declarer.eval.program;
    for entity in program.binds.entities() {
        if is_interface_variable(declarer, entity) {
            if let Some(value) = initial_value(trees, entity) {
                declarer.eval.unit = entity.unit;
                judge_initial(declarer, &mut trees.doubts, entity.pos, value)?;
            }
        }
    }
    Ok(())
}

/// Whether an entity is a variable that an interface declares.
fn is_interface_variable<'a>(declarer: &Declarer<'_, 'a>, entity: &Entity<'a>) -> bool {
    if entity.kind != EntityKind::Variable || !entity.is_outermost {
        return false;
    }
    match declarer.eval.program.infos.get(entity.unit as usize) {
        Some(info) => info.is_interface,
        None => false,
    }
}

/// The initial value that a declaration gives a variable.
fn initial_value<'a>(trees: &Trees<'_, 'a>, variable: &Entity<'a>) -> Option<&'a Expr<'a>> {
    match trees.init_of(variable)? {
        Init::Typed(_, value) => *value,
        Init::Untyped(value) => Some(*value),
    }
}

fn judge_initial<'a>(
    declarer: &mut Declarer<'_, 'a>,
    doubts: &mut Doubts<'a>,
    name: Pos,
    value: &'a Expr<'a>,
) -> Result<(), NoMemory> {
    let unit = declarer.eval.unit;
    let Some(id) = declarer.eval.program.binds.at(unit, name) else {
        return Ok(());
    };
    let Some(to) = declarer.eval.declared.kind_of(id) else {
        return Ok(());
    };
    if declarer
        .eval
        .declared
        .constant_at(unit, value.pos())
        .is_some()
    {
        return Ok(());
    }
    declarer.reasons.clear();
    doubts.doubts.clear();
    let worth = worth_of(declarer, doubts, value, false)?;
    let Some(worth) = worth else {
        return Ok(());
    };
    let is_known = matches!(worth.value, Known::Value(_));
    if !is_known {
        declarer.note(unit, name, rules::BAD_DECLARATION);
    } else if !declarer.is_refused(to)
        && assignability(&declarer.eval, worth.kind, to)? != Assign::No
    {
        keep_initial(declarer, name, value, worth, to)?;
    }
    Ok(())
}

/// Keeps the initial value of an interface variable.
fn keep_initial<'a>(
    declarer: &mut Declarer<'_, 'a>,
    name: Pos,
    value: &'a Expr<'a>,
    worth: Worth<'a>,
    kind: TypeId,
) -> Result<(), NoMemory> {
    let unit = declarer.eval.unit;
    let pos = value.pos();
    match converted(&mut declarer.eval, pos, worth, kind)?.value {
        Known::Value(converted) => {
            let value = declarer.eval.store(converted)?;
            declarer
                .eval
                .declared
                .place_constant(unit, pos, Constant { kind, value })
        }
        Known::Varies(_) => {
            declarer.note(unit, name, rules::BAD_DECLARATION);
            Ok(())
        }
    }
}

/// The values of the labels of CASE that are constant.
fn tell_labels<'a>(
    declarer: &mut Declarer<'_, 'a>,
    doubts: &mut Doubts<'a>,
    labels: &[LabelAt<'a>],
) -> Result<(), NoMemory> {
    for label in labels {
        tell_label(declarer, doubts, label)?;
    }
    Ok(())
}

fn tell_label<'a>(
    declarer: &mut Declarer<'_, 'a>,
    doubts: &mut Doubts<'a>,
    label: &LabelAt<'a>,
) -> Result<(), NoMemory> {
    declarer.eval.unit = label.unit;
    let Some(worth) = worth_of(declarer, doubts, label.value, false)? else {
        return Ok(());
    };
    match worth.value {
        Known::Value(value) => {
            let kind = worth.kind;
            let value = declarer.eval.store(value)?;
            let pos = label.value.pos();
            let constant = Constant { kind, value };
            declarer
                .eval
                .declared
                .place_constant(label.unit, pos, constant)
        }
        Known::Varies(_) => Ok(()),
    }
}
