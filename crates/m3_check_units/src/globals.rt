use m3_base::{NoMemory, place_number};
use m3_check_numbering::is_given;
use m3_check_state::{Checker, Held, Variable};
use m3_syntax::{Decl, Name, Unit, VarDecl};

/// Gives each module and interface variable its number, by unit and place.
pub fn declare_globals<'a>(
    checker: &mut Checker<'_, 'a>,
    units: &[Unit<'a>],
) -> Result<(), NoMemory> {
    let mut count = 0u32;
    for (place, unit) in units.iter().enumerate() {
        checker.unit = place_number(place)?;
        if is_given(checker, place) {
            count = declare_all(checker, unit.declarations(), count)?;
        }
    }
    Ok(())
}

fn declare_all<'a>(
    checker: &mut Checker<'_, 'a>,
    declarations: &[Decl<'a>],
    count: u32,
) -> Result<u32, NoMemory> {
    let mut count = count;
    for declaration in declarations {
        if let Decl::Var { variables, .. } = declaration {
            count = declare_rows(checker, variables, count)?;
        }
    }
    Ok(count)
}

fn declare_rows<'a>(
    checker: &mut Checker<'_, 'a>,
    rows: &[VarDecl<'a>],
    count: u32,
) -> Result<u32, NoMemory> {
    let mut count = count;
    for row in rows {
        for name in row.names {
            count = declare_global(checker, *name, count)?;
        }
    }
    Ok(count)
}

/// Gives a variable a number, if its type is known, and tells the next one.
fn declare_global<'a>(
    checker: &mut Checker<'_, 'a>,
    name: Name<'a>,
    number: u32,
) -> Result<u32, NoMemory> {
    let Some(id) = checker.program.binds.at(checker.unit, name.pos) else {
        return Ok(number);
    };
    let Some(kind) = checker.declared.kind_of(id) else {
        return Ok(number);
    };
    let variable = Variable {
        held: Held::Global(number),
        kind,
        is_read_only: false,
        may_be_inner: false,
    };
    checker.variables.insert(id, variable)?;
    number.checked_add(1).ok_or(NoMemory)
}
