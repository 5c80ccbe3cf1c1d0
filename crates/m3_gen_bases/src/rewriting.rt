ghost use Rattle.std.specs.Prelude.{◌≡◌, ◌<◌, ◌≤◌, [], length, IfOk};
ghost use Rattle.m3_mid_additions.specs.Additions.{IsAdded, AreBlocksWithAdded};
ghost use Rattle.m3_gen_bases.specs.Keeping.{HasAdded, OnlyAdds, AddsWith};

use crate::analysis::Analysis;
use crate::keeping::{Keep, Keeper, KeptWay, way_of};
use crate::plans::{Base, kind_of};
use crate::shapes::{Said, Shape, Shapes, moves_on};
use crate::sources::{Setting, Source, Term};
use bumpalo::Bump;
use bumpalo::collections::into_bump_slice;
use m3_base::{NoMemory, gap, place_number};
use m3_flow::{Groups, Pair};
use m3_mid::{Block, Kind, MemoryWord, MidOp, Proc};
use std::alloc::Global;

/// A temporary that isn't one of the procedure's own.
fn added(p: &Proc<'_>, temp: u32) -> Result<u32, NoMemory>
    ensures same { IfOk result (λ t. t ≡ temp) }
    ensures behind { IfOk result (λ t. length p.now.temps.now ≤ t) }
{
    if (temp as usize) < p.temps.len() {
        return Err(gap());
    }
    Ok(temp)
}

/// The slot of the base of a formal by reference, which stands behind that of its address.
fn base_slot(p: &Proc<'_>, slot: u32) -> Result<u32, NoMemory>
    ensures { IfOk result (λ s. s < p.now.formals) }
{
    let base = slot.saturating_add(1);
    if p.formals <= base {
        return Err(gap());
    }
    Ok(base)
}

/// What keeps a base, or 0, in a temporary that was added.
fn keeping<'a>(p: &Proc<'a>, copy: u32, base: Option<Term>) -> Result<MidOp<'a>, NoMemory>
    ensures { IfOk result (λ op. IsAdded (length p.now.temps.now) p.now.formals op) }
{
    let to = added(p, copy)?;
    let Some(term) = base else {
        return Ok(MidOp::Number { to, value: 0 });
    };
    match term.base {
        Base::Temp(from) => Ok(MidOp::Move { to, from }),
        Base::Slot(slot) => Ok(MidOp::Load {
            to,
            from: MemoryWord::Slot(base_slot(p, slot)?),
        }),
    }
}

/// What tells a way by its number.
fn telling<'a>(p: &Proc<'a>, path: u32, way: usize) -> Result<MidOp<'a>, NoMemory>
    ensures { IfOk result (λ op. IsAdded (length p.now.temps.now) p.now.formals op) }
{
    let to = added(p, path)?;
    let value = i64::from(place_number(way)?);
    Ok(MidOp::Number { to, value })
}

/// The operations of a block with those that keep bases put in.
#[derive(Drop)]
struct Rewriter<'r, 'a> {
    proc: &'r Proc<'a>,
    keeper: &'r Keeper<'a>,
    ops: Vec<MidOp<'a>, &'a Bump>,
    /// The bases of the setting at hand.
    bases: Vec<Term>,
}

impl<'r, 'a> Rewriter<'r, 'a> {
    fn new(
        alloc: Global,
        arena: &'a Bump,
        proc: &'r Proc<'a>,
        keeper: &'r Keeper<'a>,
    ) -> Rewriter<'r, 'a>
        ensures proc { result.proc.now ≡ proc.now }
        ensures ops { result.ops.items ≡ [] }
    {
        Rewriter {
            proc,
            keeper,
            ops: Vec::new(arena),
            bases: Vec::new(alloc),
        }
    }

    /// Keeps a base, or 0.
    fn keep(&mut self, copy: Term, base: Option<Term>) -> Result<(), NoMemory>
        ensures stays { IfOk result (λ u. self.new.proc ≡ self.old.proc) }
        ensures adds { IfOk result (λ u. OnlyAdds self.old.proc.now self.old.ops.items
            self.new.ops.items) }
    {
        if let Base::Temp(to) = copy.base {
            self.ops.push(keeping(self.proc, to, base)?)?;
        }
        Ok(())
    }

    /// Takes the next base of a sign off the list.
    fn next_base(&mut self, is_taken: bool) -> Option<Term>
        ensures proc { self.new.proc ≡ self.old.proc }
        ensures ops { self.new.ops ≡ self.old.ops }
    {
        for at in 0..self.bases.len() {
            if let Some(term) = self.bases.get(at).copied()
                && term.is_taken == is_taken
                && at < self.bases.len()
            {
                let _gone = self.bases.remove(at);
                return Some(term);
            }
        }
        None
    }

    /// Keeps the bases of the list in these copies.
    fn keep_listed(&mut self, copies: &[Term]) -> Result<(), NoMemory>
        ensures stays { IfOk result (λ u. self.new.proc ≡ self.old.proc) }
        ensures adds { IfOk result (λ u. OnlyAdds self.old.proc.now self.old.ops.items
            self.new.ops.items) }
    {
        for copy in copies {
            let base = self.next_base(copy.is_taken);
            self.keep(*copy, base)?;
        }
        Ok(())
    }

    /// Adds the bases that a term has where it is used.
    fn list_term(&mut self, shapes: &Shapes<'a>, term: Term) -> Result<(), NoMemory>
        ensures proc { IfOk result (λ u. self.new.proc ≡ self.old.proc) }
        ensures ops { IfOk result (λ u. self.new.ops ≡ self.old.ops) }
    {
        let first = self.bases.len();
        match term.base {
            Base::Temp(temp) if kind_of(self.proc, temp) == Kind::Address => {
                match (self.keeper.keep(temp), shapes.shape(temp)) {
                    (Keep::No, Shape::Bases(terms)) => self.bases.extend_from_slice(terms)?,
                    _ => self.keeper.add_copies(temp, &mut self.bases)?,
                }
            }
            _ => self.bases.push(Term {
                base: term.base,
                is_taken: false,
            })?,
        }
        if term.is_taken {
            for item in self.bases.iter_mut().skip(first) {
                item.is_taken = !item.is_taken;
            }
        }
        Ok(())
    }

    fn list_setting(&mut self, shapes: &Shapes<'a>, setting: Setting) -> Result<(), NoMemory>
        ensures proc { IfOk result (λ u. self.new.proc ≡ self.old.proc) }
        ensures ops { IfOk result (λ u. self.new.ops ≡ self.old.ops) }
    {
        self.bases.clear();
        if let Source::Terms(terms) = setting.source {
            for item in terms {
                if let Some(term) = item {
                    self.list_term(shapes, term)?;
                }
            }
        }
        Ok(())
    }

    /// What keeps the bases of a temporary with ways at a setting.
    fn keep_way(
        &mut self,
        shapes: &mut Shapes<'a>,
        path: u32,
        ways: &'a [KeptWay<'a>],
        setting: Setting,
    ) -> Result<(), NoMemory>
        ensures stays { IfOk result (λ u. self.new.proc ≡ self.old.proc) }
        ensures adds { IfOk result (λ u. OnlyAdds self.old.proc.now self.old.ops.items
            self.new.ops.items) }
    {
        if shapes.say(self.proc, setting)? != Said::Listed {
            return Ok(());
        }
        let Some(number) = way_of(ways, &shapes.buffer) else {
            return Ok(());
        };
        for (at, way) in ways.iter().enumerate() {
            self.bases.clear();
            if at == number {
                self.bases.extend_from_slice(way.bases)?;
            }
            self.keep_listed(way.copies)?;
        }
        self.ops.push(telling(self.proc, path, number)?)?;
        Ok(())
    }

    /// An operation that sets a derived temporary, with what keeps its bases.
    fn add_setting(
        &mut self,
        shapes: &mut Shapes<'a>,
        setting: Setting,
        op: MidOp<'a>,
    ) -> Result<(), NoMemory>
        ensures stays { IfOk result (λ u. self.new.proc ≡ self.old.proc) }
        ensures adds { IfOk result (λ u. AddsWith self.old.proc.now op.entry self.old.ops.items
            self.new.ops.items) }
    {
        match self.keeper.keep(setting.temp) {
            Keep::Shared(copies) if !moves_on(setting) => match setting.source {
                Source::Own => {
                    self.ops.push(op)?;
                    self.bases.clear();
                    self.bases.push(Term {
                        base: Base::Temp(setting.temp),
                        is_taken: false,
                    })?;
                    self.keep_listed(copies)?;
                    Ok(())
                }
                Source::Terms(_) => {
                    self.list_setting(shapes, setting)?;
                    self.keep_listed(copies)?;
                    self.ops.push(op)?;
                    Ok(())
                }
            },
            Keep::Ways { path, ways } if !moves_on(setting) => {
                self.keep_way(shapes, path, ways, setting)?;
                self.ops.push(op)?;
                Ok(())
            }
            _ => {
                self.ops.push(op)?;
                Ok(())
            }
        }
    }

    /// The operations of a block, with what keeps the bases that its settings, in their order, have
    /// to keep.
    fn rewrite(
        mut self,
        shapes: &mut Shapes<'a>,
        settings: &[Setting],
        ops: &'a [MidOp<'a>],
    ) -> Result<&'a [MidOp<'a>], NoMemory>
        ensures { self.entry.ops.items ≡ []
            → IfOk result (λ all. HasAdded self.entry.proc.now ops.now all.now) }
    {
        if settings.is_empty() {
            return Ok(ops);
        }
        let mut next = 0usize;
        let mut number = 0u32;
        for op in ops {
            match settings.get(next) {
                Some(setting) if setting.op == number => {
                    self.add_setting(shapes, *setting, *op)?;
                    next = next.saturating_add(1);
                }
                _ => self.ops.push(*op)?,
            }
            number = number.saturating_add(1);
        }
        Ok(into_bump_slice(self.ops))
    }

    /// A block again, with what keeps the bases of its settings.
    fn block(
        self,
        shapes: &mut Shapes<'a>,
        settings: &[Setting],
        block: &Block<'a>,
    ) -> Result<Block<'a>, NoMemory>
        ensures ops { self.entry.ops.items ≡ []
            → IfOk result (λ b. HasAdded self.entry.proc.now block.now.ops.now b.ops.now) }
        ensures end { IfOk result (λ b. b.end ≡ block.now.end) }
    {
        Ok(Block {
            ops: self.rewrite(shapes, settings, block.ops)?,
            end: block.end,
        })
    }
}

fn is_kept(keeper: &Keeper, temp: u32) -> bool {
    !matches!(keeper.keep(temp), Keep::No)
}

/// The settings of a block that have to keep bases.
fn kept_settings(
    settings: &[Setting],
    row: &[u32],
    keeper: &Keeper,
    list: &mut Vec<Setting>,
) -> Result<(), NoMemory> {
    list.clear();
    for at in row {
        if let Some(setting) = settings.get(*at as usize)
            && is_kept(keeper, setting.temp)
        {
            list.push(*setting)?;
        }
    }
    Ok(())
}

/// The blocks of a procedure, in which the bases that have to be kept are kept.
pub(crate) fn rewrite<'a>(
    alloc: Global,
    arena: &'a Bump,
    analysis: &Analysis<'a>,
    shapes: &mut Shapes<'a>,
    keeper: &Keeper<'a>,
) -> Result<&'a [Block<'a>], NoMemory>
    ensures { IfOk result (λ all. AreBlocksWithAdded (length analysis.now.proc.temps.now)
        analysis.now.proc.formals analysis.now.proc.blocks.now all.now) }
{
    let proc = &analysis.proc;
    let mut pairs = Vec::new(alloc);
    for (at, setting) in analysis.settings.iter().enumerate() {
        pairs.push(Pair {
            group: setting.block,
            item: place_number(at)?,
        })?;
    }
    let rows = Groups::of(alloc, proc.blocks.len(), &pairs)?;
    let mut blocks = Vec::new(arena);
    let mut list = Vec::new(alloc);
    for (at, block) in proc.blocks.iter().enumerate() {
        let row = rows.row(place_number(at)?);
        kept_settings(&analysis.settings, row, keeper, &mut list)?;
        let rewriter = Rewriter::new(alloc, arena, proc, keeper);
        blocks.push(rewriter.block(shapes, &list, block)?)?;
    }
    Ok(into_bump_slice(blocks))
}
