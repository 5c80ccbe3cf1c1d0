use crate::modules::{ModuleHeading, check_module};
use m3_base::{NoMemory, Refused, place_number};
use m3_check_assignments::initial_value;
use m3_check_names::judge_declaration;
use m3_check_numbering::is_given;
use m3_check_state::Checker;
use m3_check_statement_state::Walk;
use m3_decl_state::Doubtful;
use m3_exprs::expression;
use m3_stmts::procedure;
use m3_syntax::{Decl, Unit, UnitKind, VarDecl};

/// Checks the doubtful expressions of declarations, and the expressions and statements of all
/// units, and lists the procedures.
pub fn check_units<'a>(
    walk: &mut Walk<'_, 'a>,
    doubtful: &[Doubtful<'a>],
    units: &[Unit<'a>],
) -> Result<(), NoMemory> {
    note_later(&mut walk.checker);
    check_constants(&mut walk.checker, doubtful)?;
    for (place, unit) in units.iter().enumerate() {
        walk.checker.unit = place_number(place)?;
        walk.checker.level = 0;
        if is_given(&walk.checker, place) {
            check_unit(walk, unit)?;
        }
    }
    walk.memory.check()
}

/// Notes the least rule of expressions that the declarations broke.
fn note_later(checker: &mut Checker<'_, '_>) {
    if let Err(Refused::Rule(refusal)) = checker.declared.later.check() {
        checker.least.note(refusal);
    }
}

/// Judges the constant expressions of declarations that break a rule of expressions.
fn check_constants<'a>(
    checker: &mut Checker<'_, 'a>,
    doubtful: &[Doubtful<'a>],
) -> Result<(), NoMemory> {
    for one in doubtful {
        checker.steps.clear();
        checker.unit = one.unit;
        expression(checker, one.value)?;
    }
    Ok(())
}

fn check_unit<'a>(walk: &mut Walk<'_, 'a>, unit: &Unit<'a>) -> Result<(), NoMemory> {
    check_procedures(walk, unit.declarations());
    match unit.kind {
        UnitKind::Interface => check_variables(&mut walk.checker, unit.declarations()),
        UnitKind::Module { .. } => {
            let heading = ModuleHeading {
                name: unit.name,
                pos: unit.pos,
                end: unit.block.end,
            };
            check_module(walk, heading, &**unit.block)
        }
        _ => Ok(()),
    }
}

/// Judges the types in declarations, and checks the procedures.
fn check_procedures<'a>(walk: &mut Walk<'_, 'a>, declarations: &[Decl<'a>]) {
    for declaration in declarations {
        judge_declaration(&mut walk.checker, declaration);
        procedure(walk, None, declaration);
    }
}

/// Judges the initial values of an interface's variables.
fn check_variables<'a>(
    checker: &mut Checker<'_, 'a>,
    declarations: &[Decl<'a>],
) -> Result<(), NoMemory> {
    for declaration in declarations {
        if let Decl::Var { variables, .. } = declaration {
            check_rows(checker, variables)?;
        }
    }
    Ok(())
}

fn check_rows<'a>(checker: &mut Checker<'_, 'a>, rows: &[VarDecl<'a>]) -> Result<(), NoMemory> {
    for row in rows {
        checker.steps.clear();
        initial_value(checker, row)?;
    }
    Ok(())
}
