use crate::active::{Active, ActiveSet};
use crate::plans::RowPlan;
use bumpalo::Bump;
use bumpalo::collections::into_bump_slice;
use m3_base::{NoMemory, place_number};
use m3_flow::{LiveSets, Order, RowUse, actuals_of, is_call, is_point, ops_of, shown_at};
use m3_gen_bases::{Base, Derivation, WayPlan, kind_of};
use m3_mid::{Actual, Held, Kind, MidOp, Proc};
use std::alloc::Global;

/// The derivation of a temporary; none where it isn't derived.
pub(crate) fn derivation_of<'a>(
    derivations: &'a [Derivation<'a>],
    temp: u32,
) -> Option<&'a Derivation<'a>> {
    derivations.get(temp as usize)
}

/// The rows of a procedure, while they are made.
#[derive(Drop)]
struct Rows<'a> {
    derivations: &'a [Derivation<'a>],
    /// By temporary, the number of the last row that named it as a base or shows it.
    marks: Vec<u32>,
    number: u32,
    tidy: Vec<u32>,
    derived: Vec<u32>,
    uses: Vec<RowUse>,
}

impl<'a> Rows<'a> {
    fn name(&mut self, temp: u32) {
        if let Some(mark) = self.marks.get_mut(temp as usize) {
            *mark = self.number;
        }
    }

    fn is_named(&self, temp: u32) -> bool {
        self.marks.get(temp as usize).copied() == Some(self.number)
    }

    /// Names a base, as a use by the row.
    fn use_base(&mut self, at: RowUse, base: Base) -> Result<(), NoMemory> {
        if let Base::Temp(temp) = base
            && !self.is_named(temp)
        {
            self.name(temp);
            self.uses.push(RowUse { temp, ..at })?;
        }
        Ok(())
    }

    fn use_way(&mut self, at: RowUse, way: WayPlan<'a>) -> Result<(), NoMemory> {
        for base in way.added {
            self.use_base(at, *base)?;
        }
        for base in way.subtracted {
            self.use_base(at, *base)?;
        }
        Ok(())
    }

    /// Names what a derived temporary is derived from.
    fn use_derivation(&mut self, at: RowUse, temp: u32) -> Result<(), NoMemory> {
        let Some(derivation) = derivation_of(self.derivations, temp).copied() else {
            return Ok(());
        };
        if let Some(path) = derivation.path {
            self.use_base(at, Base::Temp(path))?;
        }
        for way in derivation.ways {
            self.use_way(at, *way)?;
        }
        Ok(())
    }

    fn name_shown(&mut self, op: MidOp) {
        for shown in shown_at(op) {
            if let Held::Temp(temp) = shown.at {
                self.name(temp);
            }
        }
    }

    /// The derived temporaries that are live at a point, or that a call passes on or keeps.
    fn gather_derived(
        &mut self,
        p: &Proc,
        op: MidOp,
        place: u32,
        active: &[Active],
        at: RowUse,
    ) -> Result<(), NoMemory> {
        self.derived.clear();
        let bound = place.saturating_add(1);
        for item in active {
            if kind_of(p, item.temp) == Kind::Address && (!is_call(op) || item.to > bound) {
                self.derived.push(item.temp)?;
                self.use_derivation(at, item.temp)?;
            }
        }
        for actual in actuals_of(op) {
            if let Actual::Reference { address, base: _ } = actual {
                if kind_of(p, *address) == Kind::Address {
                    self.use_derivation(at, *address)?;
                }
            }
        }
        Ok(())
    }

    /// The tidy temporaries that are live at a point, or that a call keeps.
    fn gather_tidy(
        &mut self,
        p: &Proc,
        op: MidOp,
        place: u32,
        active: &[Active],
    ) -> Result<(), NoMemory> {
        self.tidy.clear();
        let bound = place.saturating_add(1);
        for item in active {
            if kind_of(p, item.temp) == Kind::Tidy
                && (!is_call(op) || item.to > bound || self.is_named(item.temp))
            {
                self.tidy.push(item.temp)?;
            }
        }
        Ok(())
    }

    fn gather(
        &mut self,
        p: &Proc,
        op: MidOp,
        place: u32,
        active: &[Active],
        at: RowUse,
    ) -> Result<(), NoMemory> {
        self.number = self.number.saturating_add(1);
        self.gather_derived(p, op, place, active, at)?;
        self.name_shown(op);
        self.gather_tidy(p, op, place, active)
    }
}

/// Goes through the points of a procedure in the order in which its blocks lie, and adds the row of
/// each.
#[derive(Drop)]
struct Pass<'a> {
    rows: Rows<'a>,
    plans: Vec<RowPlan<'a>, &'a Bump>,
    arena: &'a Bump,
}

impl<'a> Pass<'a> {
    fn add_block(
        &mut self,
        p: &Proc,
        number: u32,
        front: u32,
        active: &mut ActiveSet,
    ) -> Result<(), NoMemory> {
        let ops = ops_of(p, number);
        let mut place = front;
        for op in ops {
            active.go_to(place)?;
            if is_point(*op) {
                let at = place.saturating_sub(front);
                self.add_point(p, *op, number, at, place, &active.list)?;
            }
            place = place.saturating_add(1);
        }
        active.go_to(place)
    }

    fn add_point(
        &mut self,
        p: &Proc,
        op: MidOp,
        block: u32,
        number: u32,
        place: u32,
        active: &[Active],
    ) -> Result<(), NoMemory> {
        let at = RowUse {
            block,
            op: number,
            temp: 0,
        };
        self.rows.gather(p, op, place, active, at)?;
        let tidy = self.arena.try_alloc_slice_copy(&self.rows.tidy)?;
        let derived = self.arena.try_alloc_slice_copy(&self.rows.derived)?;
        self.plans.push(RowPlan {
            block,
            op: number,
            tidy,
            derived,
        })?;
        Ok(())
    }
}

/// The rows of a procedure by what is live, and what they use.
pub(crate) fn plan_rows<'a>(
    alloc: Global,
    arena: &'a Bump,
    p: &Proc,
    order: &Order,
    live: &LiveSets,
    derivations: &'a [Derivation<'a>],
) -> Result<(&'a [RowPlan<'a>], Vec<RowUse>), NoMemory> {
    let mut places = 0u32;
    for number in &order.blocks {
        places = places
            .saturating_add(place_number(ops_of(p, *number).len())?)
            .saturating_add(1);
    }
    let mut active = ActiveSet::new(alloc, p, live, places)?;
    let mut pass = Pass {
        rows: Rows {
            derivations,
            marks: vec![in alloc; 0u32; p.temps.len()]?,
            number: 0,
            tidy: Vec::new(alloc),
            derived: Vec::new(alloc),
            uses: Vec::new(alloc),
        },
        plans: Vec::new(arena),
        arena,
    };
    for number in order.blocks.iter().take(order.reached) {
        pass.add_block(p, *number, live.place(*number, 0), &mut active)?;
    }
    let Pass {
        rows,
        plans,
        arena: _,
    } = pass;
    let Rows {
        derivations: _,
        marks: _,
        number: _,
        tidy: _,
        derived: _,
        uses,
    } = rows;
    Ok((into_bump_slice(plans), uses))
}
