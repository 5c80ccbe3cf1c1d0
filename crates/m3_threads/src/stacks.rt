//! The words of the stacks, of which one stands at hand.
ghost use Rattle.std.specs.Prelude.{◌≡◌, ◌≤◌, ◌<◌, IfOk, [], map, replicate, slice_set, slice_index_or};
ghost use Rattle.std.specs.Prelude.{MatchOption, length, true, false, vec_len, vec_capacity};
ghost use Rattle.m3_threads.specs.Actions.{started_stack};
ghost use Rattle.m3_threads.specs.PlacesInside.{HaveRoom, contents};
ghost use Rattle.m3_threads.specs.Stacked.{is_in};
ghost use Rattle.m3_threads.specs.Spaces.{slot_at, place_at};

use m3_base::NoMemory;
use std::alloc::Global;
use std::marker::Model;
use std::mem;

/// How far the stacks of two slots are apart.
pub(crate) const SLOT: u64 = 1 << 40;

// No stack has an address from here on.
const PAST: u64 = 65 << 40;

/// The words of the stack in each slot. One stack stands at hand, so that its words are found at
/// once, and in its slot stands a stack without words.
#[derive(Drop)]
pub(crate) struct Stacks {
    depth: usize,
    others: Vec<Vec<u64>>,
    near: Vec<u64>,
    slot: usize,
    base: u64,
}

impl Model for Stacks {
    ghost use Rattle.std.specs.Prelude.{slice_set};
    ghost use Rattle.m3_threads.specs.PlacesInside.{contents};
    ghost use Rattle.m3_threads.specs.Stacked.{Stacked, AreStacks};

    ghost Value = { Stacked };

    ghost view = { λ s. record {
      depth = s.depth;
      words = contents (slice_set s.others.items s.slot s.near);
    } };

    ghost invariant = { λ s. AreStacks s.depth s.others.items s.near s.slot s.base };
}

/// Stacks without words, each with room for so many.
fn blank_stacks(alloc: Global, slots: usize, words: usize) -> Result<Vec<Vec<u64>>, NoMemory>
    ensures blank { IfOk result (λ stacks. contents stacks.items ≡ replicate slots []) }
    ensures room { IfOk result (λ stacks. HaveRoom words stacks.items) }
{
    let mut stacks = Vec::with_capacity(alloc, slots)?;
    for _slot in 0..slots {
        stacks.push_reserved(Vec::with_capacity(alloc, words)?);
    }
    Ok(stacks)
}

/// Makes a stack without words that of a thread that starts: its first frame returns to no instruction
/// and has its cell in word 2, and every other word is 0.
fn lay_out(words: &mut Vec<u64>, stack: usize, cell: u64)
    requires large { 8 ≤ stack }
    requires blank { words.old.items ≡ [] }
    requires room { stack ≤ vec_capacity words.old }
    ensures words { words.new.items ≡ started_stack stack cell }
    ensures capacity { vec_capacity words.new ≡ vec_capacity words.old }
{
    for _word in 0..stack {
        words.push_reserved(0);
    }
    words[0] = u64::MAX;
    words[1] = 0;
    words[2] = cell;
}

/// The slot and the place of an address that is in one of these stacks, by arithmetic alone.
#[inline(never)]
fn find_word(stacks: &Vec<Vec<u64>>, at: u64) -> Option<(usize, usize)>
    requires { vec_len stacks.now ≤ 64 }
    ensures { MatchOption result (is_in (contents stacks.now.items) at ≡ false)
        (λ found. (is_in (contents stacks.now.items) at ≡ true) × (found.0 ≡ slot_at at)
        × (found.1 ≡ place_at at)) }
{
    let slot = (at / SLOT).wrapping_sub(1);
    let place = at % SLOT;
    if slot < stacks.len() as u64 && place < stacks[slot as usize].len() as u64 {
        Some((slot as usize, place as usize))
    } else {
        None
    }
}

/// Puts the stack at hand back into its slot, where one without words stood, and takes that of
/// another slot in hand.
fn change(others: &mut Vec<Vec<u64>>, near: &mut Vec<u64>, from: usize, to: usize)
    requires from { from < vec_len others.old }
    requires to { to < vec_len others.old }
    requires blank { slice_index_or (contents others.old.items) from [] ≡ [] }
    ensures whole { slice_set others.new.items to near.new
        ≡ slice_set others.old.items from near.old }
    ensures same_length { vec_len others.new ≡ vec_len others.old }
    ensures blank { slice_index_or (contents others.new.items) to [] ≡ [] }
{
    mem::swap(near, &mut others[from]);
    mem::swap(near, &mut others[to]);
}

impl Stacks {
    ghost use Rattle.std.specs.Prelude.{◌≡◌, ◌≤◌, ◌<◌, ℕ, IfOk, [], true, false, length, replicate, slice_set, slice_index_or};
    ghost use Rattle.m3_threads.specs.Actions.{started_stack};
    ghost use Rattle.m3_threads.specs.Stacked.{is_in, word_in, put_in};
    ghost use Rattle.std.specs.Borrow.{sem};
    ghost use Rattle.m3_threads.specs.LendingStacks.{LendsWordsOf};

    /// Stacks without words in so many slots, each with room for so many words.
    pub(crate) fn new(alloc: Global, slots: usize, depth: usize) -> Result<Stacks, NoMemory>
        requires some { 1 ≤ slots }
        requires few { slots ≤ 64 }
        requires small { depth ≤ 1048576 }
        ensures { IfOk result (λ s. s ≡ record { depth = depth; words = replicate slots [] }) }
    {
        let mut others = blank_stacks(alloc, slots, depth)?;
        let mut near = Vec::new(alloc);
        mem::swap(&mut near, &mut others[0]);
        Ok(Stacks {
            depth,
            others,
            near,
            slot: 0,
            base: SLOT,
        })
    }

    /// Takes the stack of a slot in hand.
    pub(crate) fn bring(&mut self, slot: usize)
        requires { slot < length self.old.words }
        ensures { self.new ≡ self.old }
    {
        change(&mut self.others, &mut self.near, self.slot, slot);
        self.slot = slot;
        self.base = SLOT * (slot as u64 + 1);
    }

    /// Makes the stack of a slot, which has no words, that of a thread that starts.
    pub(crate) fn lay_out(&mut self, slot: usize, cell: u64)
        requires large { 8 ≤ self.old.depth }
        requires within { slot < length self.old.words }
        requires blank { slice_index_or self.old.words slot [] ≡ [] }
        ensures { self.new ≡ record self.old {
          words = slice_set self.old.words slot (started_stack self.old.depth cell);
        } }
    {
        change(&mut self.others, &mut self.near, self.slot, slot);
        self.slot = slot;
        self.base = SLOT * (slot as u64 + 1);
        lay_out(&mut self.near, self.depth, cell);
    }

    /// The same of a forked thread, with its closure.
    pub(crate) fn lay_out_fork(&mut self, slot: usize, closure: u64, cell: u64)
        requires large { 8 ≤ self.old.depth }
        requires within { slot < length self.old.words }
        requires blank { slice_index_or self.old.words slot [] ≡ [] }
        ensures { self.new ≡ record self.old {
          words = slice_set self.old.words slot
              (slice_set (started_stack self.old.depth cell) 6 closure);
        } }
    {
        change(&mut self.others, &mut self.near, self.slot, slot);
        self.slot = slot;
        self.base = SLOT * (slot as u64 + 1);
        lay_out(&mut self.near, self.depth, cell);
        self.near[6] = closure;
    }

    /// Takes the words of the stack of a slot away.
    pub(crate) fn clear(&mut self, slot: usize)
        requires { slot < length self.old.words }
        ensures { self.new ≡ record self.old { words = slice_set self.old.words slot [] } }
    {
        change(&mut self.others, &mut self.near, self.slot, slot);
        self.slot = slot;
        self.base = SLOT * (slot as u64 + 1);
        self.near.clear();
    }

    /// The words of the stack of a slot.
    pub(crate) fn words(&self, slot: usize) -> &[u64]
        requires { slot < length self.now.words }
        ensures { result.now ≡ slice_index_or self.now.words slot [] }
    {
        if slot == self.slot {
            &self.near
        } else {
            &self.others[slot]
        }
    }

    /// The words of the stack of a slot, to be changed.
    pub(crate) fn words_mut(&mut self, slot: usize) -> &mut [u64]
        requires { slot < length self.old.words }
        ensures* writes_back { sem 𝓛 (LendsWordsOf self.entry slot result) }
        ensures value { result.now ≡ slice_index_or self.old.words slot [] }
    {
        change(&mut self.others, &mut self.near, self.slot, slot);
        self.slot = slot;
        self.base = SLOT * (slot as u64 + 1);
        &mut self.near
    }

    /// The word at an address, if it is in a stack.
    #[inline(always)]
    pub(crate) fn load(&self, at: u64) -> Option<u64>
        ensures { result ≡ word_in self.now.words at }
    {
        let place = at.wrapping_sub(self.base);
        if place < self.near.len() as u64 {
            return Some(self.near[place as usize]);
        }
        if at >= PAST {
            return None;
        }
        match find_word(&self.others, at) {
            Some((slot, place)) => Some(self.others[slot][place]),
            None => None,
        }
    }

    /// Replaces the word at an address, if it is in a stack, and says whether it is.
    #[inline(always)]
    pub(crate) fn store(&mut self, at: u64, word: u64) -> bool
        ensures answer { result ≡ is_in self.old.words at }
        ensures put { self.new ≡ record self.old { words = put_in self.old.words at word } }
    {
        let place = at.wrapping_sub(self.base);
        if place < self.near.len() as u64 {
            self.near[place as usize] = word;
            return true;
        }
        if at >= PAST {
            return false;
        }
        match find_word(&self.others, at) {
            Some((slot, place)) => {
                self.others[slot][place] = word;
                true
            }
            None => false,
        }
    }
}
