use bumpalo::Bump;
use bumpalo::collections::into_bump_slice;
use m3_base::{NoMemory, place_number};
use m3_check_state::Checker;
use m3_core::{CoreExpr, Role, VarDef, VarKind};
use m3_syntax::{Decl, Init, Name, Unit, VarDecl};

/// Whether the unit at a place is given, and not built in.
pub fn is_given(checker: &Checker<'_, '_>, place: usize) -> bool {
    match checker.program.infos.get(place) {
        Some(info) => !info.is_built_in,
        None => false,
    }
}

/// The module and interface variables, by their numbers, and for each the number of its unit.
#[derive(Drop)]
struct Globals<'a> {
    definitions: Vec<VarDef<'a>, &'a Bump>,
    units: Vec<u32, &'a Bump>,
}

/// The module and interface variables, by their numbers, with the numbers of their units.
pub fn list_globals<'a>(
    checker: &mut Checker<'_, 'a>,
    units: &[Unit<'a>],
) -> Result<(&'a [VarDef<'a>], &'a [u32]), NoMemory> {
    let mut globals = Globals {
        definitions: Vec::new(checker.arena),
        units: Vec::new(checker.arena),
    };
    for (place, unit) in units.iter().enumerate() {
        checker.unit = place_number(place)?;
        if is_given(checker, place) {
            list_unit(checker, &mut globals, unit)?;
        }
    }
    let Globals { definitions, units } = globals;
    Ok((into_bump_slice(definitions), into_bump_slice(units)))
}

fn list_unit<'a>(
    checker: &Checker<'_, 'a>,
    globals: &mut Globals<'a>,
    unit: &Unit<'a>,
) -> Result<(), NoMemory> {
    for declaration in unit.declarations() {
        if let Decl::Var { variables, .. } = declaration {
            list_rows(checker, globals, unit, variables)?;
        }
    }
    Ok(())
}

fn list_rows<'a>(
    checker: &Checker<'_, 'a>,
    globals: &mut Globals<'a>,
    unit: &Unit<'a>,
    rows: &[VarDecl<'a>],
) -> Result<(), NoMemory> {
    for row in rows {
        for name in row.names {
            list_global(checker, globals, unit, *name, &row.init)?;
        }
    }
    Ok(())
}

fn list_global<'a>(
    checker: &Checker<'_, 'a>,
    globals: &mut Globals<'a>,
    unit: &Unit<'a>,
    name: Name<'a>,
    init: &Init<'a>,
) -> Result<(), NoMemory> {
    let Some(kind) = checker.kind_of_variable(name) else {
        return Ok(());
    };
    globals.units.push(unit.pos.file)?;
    globals.definitions.push(VarDef {
        unit: unit.name.text,
        name: name.text,
        kind: VarKind::Variable(kind),
        role: Role::Global,
        pos: name.pos,
        initial: constant_of(checker, init)?,
    })?;
    Ok(())
}

/// The constant that an interface variable gets; none for a module's.
fn constant_of<'a>(
    checker: &Checker<'_, 'a>,
    init: &Init<'a>,
) -> Result<Option<&'a CoreExpr<'a>>, NoMemory> {
    let is_interface = match checker.program.infos.get(checker.unit as usize) {
        Some(info) => info.is_interface,
        None => false,
    };
    if !is_interface {
        return Ok(None);
    }
    let value = match init {
        Init::Typed(_, value) => *value,
        Init::Untyped(value) => Some(*value),
    };
    let Some(value) = value else {
        return Ok(None);
    };
    let pos = value.pos();
    match checker.declared.constant_at(checker.unit, pos) {
        Some(constant) => {
            let expr = checker.constant_expr(pos, constant.kind, constant.value);
            Ok(Some(checker.keep(expr)?))
        }
        None => Ok(None),
    }
}
