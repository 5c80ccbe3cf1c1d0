use crate::bodies::judge_bodies;
use crate::cycles::judge_imports;
use crate::mains::main_module;
use crate::order::body_order;
use crate::reveals::judge_reveals;
use m3_base::{NoMemory, Refused};
use m3_link_scopes::{Linked, Linker, Program};
use m3_link_unit_scopes::{add_infos, declare_units, judge_units, walk_units};
use m3_syntax::Unit;
use std::alloc::Global;

/// Links the units of a program. `units` are those that generics were written out in, `given` those
/// that were read, in command order, and `built_in` the built-in interfaces.
///
/// Refuses by the least of rules 20 to 35.
pub fn link<'a>(
    alloc: Global,
    units: Vec<Unit<'a>>,
    given: &[Unit<'a>],
    built_in: &[Unit<'a>],
) -> Result<Linked<'a>, Refused> {
    let given_units = units.len();
    let mut units = units;
    for unit in built_in {
        units.push(*unit)?;
    }
    let mut linker = Linker::new(alloc);
    judge_units(&mut linker, alloc, given)?;
    add_infos(&mut linker, alloc, &units, given_units)?;
    let order = linked(&mut linker, alloc, &units)?;
    Ok(Linked {
        units,
        declarations: linker.declarations,
        program: Program {
            infos: linker.infos,
            order,
            binds: linker.binds,
            reveals: linker.reveals,
        },
    })
}

/// Finds out and judges all that linking does, and gives the order of the modules' bodies.
fn linked<'a>(
    linker: &mut Linker<'a>,
    alloc: Global,
    units: &[Unit<'a>],
) -> Result<Vec<u32>, Refused> {
    read_units(linker, units)?;
    judge_imports(linker, alloc, units)?;
    let main = main_module(linker);
    judge_reveals(linker);
    judge_bodies(linker);
    linker.least.check()?;
    Ok(body_order(alloc, linker.infos.as_slice(), main)?)
}

/// Makes the entities of all units, and finds what each name stands for.
fn read_units<'a>(linker: &mut Linker<'a>, units: &[Unit<'a>]) -> Result<(), NoMemory> {
    linker.declare_predeclared()?;
    declare_units(linker, units)?;
    walk_units(linker, units)
}
