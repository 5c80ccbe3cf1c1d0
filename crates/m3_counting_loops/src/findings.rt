//! The addresses that go with a loop, and what stands in their places.
use crate::loops::Loop;
use crate::pointers::{Pointer, Stand, Sum, distance, making_of, times_in, without_number};
use crate::sums::Sums;
use crate::temps::{Temps, add_to};
use m3_base::{NoMemory, place_number};
use m3_flow::{Pair as Link, ops_of};
use m3_mid::{Kind, MemoryWord, MidOp, Proc};
use m3_same_forms::{Form, Symbol};
use std::alloc::Global;

/// In how many temporaries a loop may keep what is needed from block to block, the pointers among
/// them: registers for more are there only at the cost of others.
const MANY_HELD: u32 = 9;

/// An operation that gives an address, as a sum of what temporaries hold where its block begins.
#[derive(Drop)]
pub struct Access {
    pub to: u32,
    pub array: u32,
    pub kind: Kind,
    pub value: Form,
    pub block: u32,
}

/// What is found in the loops of a procedure.
#[derive(Drop)]
pub struct Findings<'a> {
    pub(crate) alloc: Global,
    pub(crate) proc: Proc<'a>,
    pub(crate) temps: Temps,
    sums: Sums<'a>,
    pub(crate) pointers: Vec<Pointer>,
    /// The pointer that the loop at hand begins with.
    first: usize,
    /// Which pointers hold their sums where a block begins.
    pub(crate) holding: Vec<Link>,
    /// By temporary what stands in its place.
    pub(crate) stands: Vec<Option<Stand>>,
    /// By temporary the sum that it is set to instead.
    pub(crate) changed: Vec<Option<Sum>>,
    /// By temporary how often the block at hand loads or stores at it, and how often an address that
    /// is needed no more came from it.
    words: Vec<u32>,
    steps: Vec<u32>,
}

/// The temporary at which an operation loads or stores.
pub(crate) fn word_base(op: MidOp<'_>) -> Option<u32> {
    match op {
        MidOp::Load {
            to: _,
            from: MemoryWord::At { base, offset: _ },
        }
        | MidOp::Store {
            at: MemoryWord::At { base, offset: _ },
            from: _,
        } => Some(base),
        _ => None,
    }
}

fn count_in(counts: &[u32], temp: u32) -> u32 {
    counts.get(temp as usize).copied().unwrap_or(0)
}

fn clear(counts: &mut [u32], temp: u32) {
    if let Some(count) = counts.get_mut(temp as usize) {
        *count = 0;
    }
}

impl<'a> Findings<'a> {
    /// Nothing is found yet.
    pub fn new(alloc: Global, p: &Proc<'a>) -> Result<Findings<'a>, NoMemory> {
        let count = p.temps.len();
        Ok(Findings {
            alloc,
            proc: *p,
            temps: Temps::of(alloc, p)?,
            sums: Sums::new(alloc, p.slots, count)?,
            pointers: Vec::new(alloc),
            first: 0,
            holding: Vec::new(alloc),
            stands: vec![in alloc; None; count]?,
            changed: vec![in alloc; None; count]?,
            words: vec![in alloc; 0u32; count]?,
            steps: vec![in alloc; 0u32; count]?,
        })
    }

    /// Whether no pointer was found.
    pub fn is_empty(&self) -> bool {
        self.pointers.is_empty()
    }

    /// Begins a loop. Gives whether it sets its variable at the end of its turn alone, so that
    /// addresses may go with it.
    pub fn enter(&mut self, counted: &Loop) -> Result<bool, NoMemory> {
        let proc = self.proc;
        self.first = self.pointers.len();
        self.temps.enter(&proc, counted)
    }

    /// Whether the loop at hand may keep so many more temporaries.
    pub fn has_room(&self, more: u32) -> bool {
        self.temps.held.saturating_add(more) <= MANY_HELD
    }

    /// What stands in the place of a temporary.
    pub(crate) fn stand(&self, temp: u32) -> Option<Stand> {
        self.stands.get(temp as usize).copied().flatten()
    }

    /// Whether a sum goes with a loop: of what stays in it, and its variable.
    fn goes_with(&self, counted: &Loop, value: &Form) -> bool {
        value.terms.iter().all(|term| match term.symbol {
            Symbol::One | Symbol::Frame | Symbol::Globals | Symbol::Constant(_) => true,
            Symbol::Left(temp) => temp == counted.index || !self.temps.is_set_inside(temp),
            Symbol::Text(_) | Symbol::Right(_) | Symbol::New(_) => false,
        })
    }

    fn kind(&self, temp: u32) -> Kind {
        self.proc
            .temps
            .get(temp as usize)
            .copied()
            .unwrap_or(Kind::Number)
    }

    /// An operation that gives an address which goes with the loop, and which nothing stands for yet.
    fn access(&mut self, counted: &Loop, block: u32, op: MidOp<'a>, value: Form) -> Option<Access> {
        let MidOp::Index { to, array, .. } = op else {
            return None;
        };
        if !self.temps.is_set_once(to)
            || self.stand(to).is_some()
            || !self.goes_with(counted, &value)
        {
            return None;
        }
        clear(&mut self.words, to);
        clear(&mut self.steps, to);
        clear(&mut self.steps, array);
        Some(Access {
            to,
            array,
            kind: self.kind(to),
            value,
            block,
        })
    }

    /// Looks through a block of a loop. Gives the addresses that go with the loop, in their order.
    pub fn look(&mut self, counted: &Loop, block: u32) -> Result<Vec<Access>, NoMemory> {
        self.sums.clear();
        let mut accesses = Vec::new(self.alloc);
        let proc = self.proc;
        for op in ops_of(&proc, block) {
            if let Some(base) = word_base(*op) {
                add_to(&mut self.words, base, 1);
            }
            if let Some(value) = self.sums.step(*op)?
                && let Some(access) = self.access(counted, block, *op, value)
            {
                accesses.push(access)?;
            }
        }
        Ok(accesses)
    }

    /// How often the block at hand loads or stores at an address.
    pub fn words(&self, access: &Access) -> u32 {
        count_in(&self.words, access.to)
    }

    /// Whether an address is needed for nothing but loads and stores in its own block, and other
    /// addresses that are needed no more.
    pub fn is_for_words(&self, access: &Access) -> bool {
        let steps = count_in(&self.steps, access.to);
        self.words(access).saturating_add(steps) == self.temps.uses(access.to)
    }

    /// An address is needed no more for another that came from it.
    pub fn drop_step(&mut self, access: &Access) {
        add_to(&mut self.steps, access.array, 1);
    }

    /// A pointer of the loop at hand from which an address is not far.
    pub fn near(&self, access: &Access) -> Result<Option<Stand>, NoMemory> {
        for number in self.first..self.pointers.len() {
            if let Some(pointer) = self.pointers.get(number)
                && pointer.kind == access.kind
                && let Some(distance) = distance(self.alloc, &pointer.value, &access.value)?
            {
                return Ok(Some(Stand {
                    temp: pointer.temp,
                    distance,
                }));
            }
        }
        Ok(None)
    }

    /// Lets something stand in the place of an address: its loads and stores go by that.
    pub fn put(&mut self, access: &Access, stand: Option<Stand>) {
        if let Some(place) = self.stands.get_mut(access.to as usize) {
            *place = stand;
        }
    }

    /// Lets an address be a sum of two temporaries, by which its loads and stores go.
    pub fn change(&mut self, access: &Access, sum: Sum, distance: i32) {
        if let Some(place) = self.changed.get_mut(access.to as usize) {
            *place = Some(sum);
            self.put(
                access,
                Some(Stand {
                    temp: access.to,
                    distance,
                }),
            );
        }
    }

    /// The pointer that was found last.
    pub fn last_pointer(&self) -> Option<&Pointer> {
        self.pointers.last()
    }

    /// What a pointer is put to before a loop, and the sum that it holds in it: the address without a
    /// number, which loads and stores add, and where the variable begins with a number, without that
    /// many elements too.
    fn sums_of(&self, counted: &Loop, value: &Form) -> Result<(Form, Form), NoMemory> {
        let index = Symbol::Left(counted.index);
        let times = times_in(value, index);
        let Some(first) = counted.first else {
            let sum = without_number(self.alloc, value)?;
            return Ok((sum.copy(self.alloc)?, sum));
        };
        let gone = times.wrapping_mul(first);
        let start = without_number(self.alloc, value)?.insert(
            self.alloc,
            index,
            times.wrapping_neg(),
        )?;
        let sum = without_number(self.alloc, value)?.insert(
            self.alloc,
            Symbol::One,
            gone.wrapping_neg(),
        )?;
        Ok((start, sum))
    }

    /// Adds a pointer for an address, where a temporary for it can be had. Gives whether it did.
    pub fn add_pointer(&mut self, counted: &Loop, access: &Access) -> Result<bool, NoMemory> {
        let (start, value) = self.sums_of(counted, &access.value)?;
        if distance(self.alloc, &value, &access.value)?.is_some() {
            self.keep(counted, access.kind, &start, value)
        } else {
            let value = access.value.copy(self.alloc)?;
            self.keep(counted, access.kind, &access.value, value)
        }
    }

    /// Adds a temporary of a kind that holds a sum wherever a block of the loop begins, and is put to
    /// what that is before the loop. Gives whether one can be had.
    pub fn keep(
        &mut self,
        counted: &Loop,
        kind: Kind,
        start: &Form,
        value: Form,
    ) -> Result<bool, NoMemory> {
        if !self.has_room(1) {
            return Ok(false);
        }
        let number = self.pointers.len();
        let temp = place_number(self.proc.temps.len().saturating_add(number))?;
        let Some(begin) = making_of(self.alloc, &self.proc, temp, kind, start)? else {
            return Ok(false);
        };
        for op in begin.as_slice() {
            self.temps.use_once_more(*op)?;
        }
        self.temps.held = self.temps.held.saturating_add(1);
        self.hold(counted, place_number(number)?)?;
        let turns = times_in(&value, Symbol::Left(counted.index));
        self.pointers.push(Pointer {
            temp,
            kind,
            value,
            begin,
            before: counted.before,
            step: turns.wrapping_mul(counted.step),
            turn: counted.turn,
        })?;
        Ok(true)
    }

    /// A pointer holds its sum in all blocks of a loop.
    fn hold(&mut self, counted: &Loop, item: u32) -> Result<(), NoMemory> {
        for block in &counted.blocks {
            self.holding.push(Link {
                group: *block,
                item,
            })?;
        }
        Ok(())
    }
}
