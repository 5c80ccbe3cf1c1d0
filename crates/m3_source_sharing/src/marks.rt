use crate::statements::mark_statements;
use bumpalo::Bump;
use bumpalo::collections::into_bump_slice;
use m3_base::NoMemory;
use m3_core::ProcDef;
use std::alloc::Global;

/// A name of a variable of the procedure at a level.
#[derive(Clone, Copy)]
pub struct Use {
    pub level: u32,
    pub variable: u32,
}

/// The variables of all procedures, each of which is marked where it is shared; and the procedure
/// whose body is walked over.
#[derive(Drop)]
pub struct Marks<'m> {
    procedures: &'m [Inside],
    /// Where the variables of each procedure begin.
    starts: Vec<usize>,
    marks: Vec<bool>,
    inside: usize,
}

/// How a procedure stands in others.
#[derive(Clone, Copy)]
pub struct Inside {
    level: u32,
    outer: Option<u32>,
}

impl<'m> Marks<'m> {
    /// No variable is shared yet.
    fn of(
        alloc: Global,
        procedures: &'m [Inside],
        procs: &[ProcDef<'_>],
    ) -> Result<Marks<'m>, NoMemory> {
        let mut starts = Vec::new(alloc);
        let mut count = 0usize;
        for procedure in procs {
            starts.push(count)?;
            count = count.saturating_add(variable_count(procedure));
        }
        Ok(Marks {
            procedures,
            starts,
            marks: vec![in alloc; false; count]?,
            inside: 0,
        })
    }

    /// The procedure at a level around the one whose body is walked over, or that itself.
    fn owner(&self, level: u32) -> Option<usize> {
        let mut at = self.inside;
        for _ in 0..self.procedures.len() {
            let procedure = self.procedures.get(at)?;
            if procedure.level <= level {
                return Some(at);
            }
            at = procedure.outer? as usize;
        }
        None
    }

    /// A name of a variable stands in the body: a procedure inside the variable's own shares it.
    pub fn name(&mut self, named: Use) {
        let own = match self.procedures.get(self.inside) {
            Some(procedure) => procedure.level,
            None => 0,
        };
        if named.level != own {
            self.share(named);
        }
    }

    /// A place of a variable gets out.
    pub fn let_out(&mut self, root: Option<Use>) {
        if let Some(named) = root {
            self.share(named);
        }
    }

    fn share(&mut self, named: Use) {
        if let Some(owner) = self.owner(named.level)
            && let Some(start) = self.starts.get(owner)
            && let Some(place) = start.checked_add(named.variable as usize)
            && let Some(mark) = self.marks.get_mut(place)
        {
            *mark = true;
        }
    }

    /// The marks of the variables of a procedure.
    fn row<'a>(
        &self,
        arena: &'a Bump,
        place: usize,
        procedure: &ProcDef<'_>,
    ) -> Result<&'a [bool], NoMemory> {
        let count = procedure
            .formals
            .len()
            .saturating_add(procedure.locals.len());
        let start = self.starts.get(place).copied().unwrap_or(0);
        match self.marks.get(start..start.saturating_add(count)) {
            Some(row) => Ok(&*arena.try_alloc_slice_copy(row)?),
            None => Ok(&[]),
        }
    }
}

/// How many formals and variables a procedure has.
fn variable_count(procedure: &ProcDef<'_>) -> usize {
    procedure
        .formals
        .len()
        .saturating_add(procedure.locals.len())
}

/// How procedures stand in others.
fn insides_of<'a>(arena: &'a Bump, procs: &[ProcDef<'_>]) -> Result<&'a [Inside], NoMemory> {
    let mut insides = Vec::new(arena);
    for procedure in procs {
        insides.push(Inside {
            level: procedure.level,
            outer: procedure.outer,
        })?;
    }
    Ok(into_bump_slice(insides))
}

/// Marks what is shared in the bodies of procedures.
fn mark_bodies(marks: &mut Marks<'_>, procs: &[ProcDef<'_>]) {
    for (place, procedure) in procs.iter().enumerate() {
        marks.inside = place;
        mark_statements(marks, procedure.body);
    }
}

/// For each procedure its marks.
fn rows_of<'a>(
    arena: &'a Bump,
    marks: &Marks<'_>,
    procs: &[ProcDef<'_>],
) -> Result<&'a [&'a [bool]], NoMemory> {
    let mut rows = Vec::new(arena);
    for (place, procedure) in procs.iter().enumerate() {
        rows.push(marks.row(arena, place, procedure)?)?;
    }
    Ok(into_bump_slice(rows))
}

/// For each procedure which of its formals and variables others can reach.
pub fn shared_variables<'a>(
    alloc: Global,
    arena: &'a Bump,
    procs: &[ProcDef<'_>],
) -> Result<&'a [&'a [bool]], NoMemory> {
    let insides = insides_of(arena, procs)?;
    let mut marks = Marks::of(alloc, insides, procs)?;
    mark_bodies(&mut marks, procs);
    rows_of(arena, &marks, procs)
}
