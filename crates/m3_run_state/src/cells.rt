ghost use Rattle.std.specs.Prelude.{◌≡◌, ◌<◌, ◌≤◌, ◌+◌, ◌-◌, ◌*◌, ◌^◌, ◌++◌, min, ℕ, true, [], ◌∷◌};
ghost use Rattle.std.specs.Prelude.{nat_le, vec_capacity, length, slice_get, Result, Ok, Err, IfOk};
ghost use Rattle.std.specs.Prelude.{IfSome, MatchResult};
ghost use Rattle.std.specs.Int.{cast_unsigned, w32};
ghost use Rattle.m3_base.specs.declared.outcomes.Outcome.{Outcome as End};
ghost use Rattle.m3_threads.specs.declared.status.Thread.{Thread};
ghost use Rattle.m3_image_sections.specs.Parts.{CellType};
ghost use Rattle.m3_image_sections.specs.PartViews.{type_of};
ghost use Rattle.m3_run_meaning.specs.State.{State, memory_of, Becomes};
ghost use Rattle.m3_run_meaning.specs.Progress.{became};
ghost use Rattle.m3_run_meaning.specs.Making.{Allocates, Makes, Makes_late, Makes_fixed, fixed_words};
ghost use Rattle.m3_run_meaning.specs.Making.{HasNew};
ghost use Rattle.m3_run_meaning.specs.NewTexts.{with_words, open_type, GivesOpen, Makes_open};
ghost use Rattle.m3_run_state.specs.Blanks.{Reads};
ghost use Rattle.m3_run_state.specs.Seen.{state_of, program_of, rest_of, IsGoing, goes_on, Running};

use crate::parts::Parts;
use m3_base::Outcome;
use m3_heap::Store;
use m3_image::TypeView;
use m3_isa::{Instr, Words};
use m3_run_meaning::Progress;
use std::sync::ledger::Ledger;

/// The words of a cell of so many dimensions, by the product of its sizes and the words of an
/// element, as far as a word can say it.
fn words_asked(product: u64, element: u32, dims: u32) -> u64
    ensures { result ≡ min (min (product * element) (2 ^ 64 - 1) + (1 + dims)) (2 ^ 64 - 1) }
{
    product
        .saturating_mul(u64::from(element))
        .saturating_add(1 + u64::from(dims))
}

/// Whether no cell has such a size.
fn is_too_large(size: u64) -> bool
    ensures { result ≡ nat_le (2 ^ 63) size }
{
    size >= 1 << 63
}

impl<'a, S: Store, L: Ledger> Parts<'a, S, L> {
    /// A new cell, where it fits.
    fn allocate(&mut self, kind: u32, words: u64) -> Option<u64>
        requires { 1 ≤ words }
        ensures rest { rest_of self.new ≡ rest_of self.old }
        ensures sizes { self.new.sizes.items ≡ self.old.sizes.items }
        ensures allocated { Allocates kind words (state_of self.old) result (state_of self.new) }
        ensures new { IfSome result (λ start. HasNew kind words start (state_of self.new)) }
        ensures low { IfSome result (λ start. (start + words ≤ 2 ^ 63) × (words < 2 ^ 32)) }
    {
        self.memory.outside.allocate(kind, words)
    }

    /// A new cell, after one collection where it doesn't fit at once.
    pub fn make_cell(&mut self, kind: u32, words: u64) -> Result<u64, Outcome>
        requires { 1 ≤ words }
        ensures rest { rest_of self.new ≡ record (rest_of self.old) { stuck = self.new.stuck } }
        ensures sizes { self.new.sizes.items ≡ self.old.sizes.items }
        ensures going { IfOk result (λ start. self.new.stuck ≡ self.old.stuck) }
        ensures made { IsGoing self.old → Makes (program_of self.old) kind words (state_of self.old)
            result (state_of self.new) }
        ensures new { IfOk result (λ start. HasNew kind words start (state_of self.new)) }
        ensures low { IfOk result (λ start. (start + words ≤ 2 ^ 63) × (words < 2 ^ 32)) }
    {
        match self.allocate(kind, words) {
            Some(cell) => Ok(cell),
            None => self.make_late(kind, words),
        }
    }

    /// A new cell after one collection.
    fn make_late(&mut self, kind: u32, words: u64) -> Result<u64, Outcome>
        requires { 1 ≤ words }
        ensures rest { rest_of self.new ≡ record (rest_of self.old) { stuck = self.new.stuck } }
        ensures sizes { self.new.sizes.items ≡ self.old.sizes.items }
        ensures going { IfOk result (λ start. self.new.stuck ≡ self.old.stuck) }
        ensures made { IsGoing self.old → Makes_late (program_of self.old) kind words
            (state_of self.old) result (state_of self.new) }
        ensures new { IfOk result (λ start. HasNew kind words start (state_of self.new)) }
        ensures low { IfOk result (λ start. (start + words ≤ 2 ^ 63) × (words < 2 ^ 32)) }
    {
        if !self.collect() {
            return Err(Outcome::Trap(9));
        }
        match self.allocate(kind, words) {
            Some(cell) => Ok(cell),
            None => Err(Outcome::HeapFull),
        }
    }

    /// The words of a cell of a fixed type.
    fn fixed_words(&self, kind: u32) -> Result<u64, Outcome>
        ensures words { result ≡ fixed_words (slice_get (program_of self.now).types kind) }
        ensures some { IfOk result (λ n. 1 ≤ n) }
    {
        let Some(shape) = self.image.shape(kind) else {
            return Err(Outcome::Trap(4));
        };
        if shape.kind() != 0 {
            return Err(Outcome::Trap(4));
        }
        Ok(u64::from(shape.words()).max(1))
    }

    /// NEW.
    pub fn make_fixed(&mut self, i: Instr) -> Progress
        requires { i.a < 16 }
        ensures rest { rest_of self.new ≡ record (rest_of self.old) { stuck = self.new.stuck } }
        ensures going { goes_on result ≡ true → self.new.stuck ≡ self.old.stuck }
        ensures makes { IsGoing self.old → Makes_fixed (program_of self.old) i
            (cast_unsigned w32 i.imm) (state_of self.old)
            (fixed_words (slice_get (program_of self.old).types (cast_unsigned w32 i.imm)))
            (became result (state_of self.new)) }
    {
        let kind = i.imm.cast_unsigned();
        let words = match self.fixed_words(kind) {
            Ok(words) => words,
            Err(outcome) => return Progress::Ends(outcome),
        };
        match self.make_cell(kind, words) {
            Ok(cell) => self.give(i.a, cell),
            Err(outcome) => Progress::Ends(outcome),
        }
    }

    /// No sizes were read.
    fn forget_sizes(&mut self)
        ensures rest { rest_of self.new ≡ rest_of self.old }
        ensures same { state_of self.new ≡ state_of self.old }
        ensures none { self.new.sizes.items ≡ [] }
        ensures room { vec_capacity self.new.sizes ≡ vec_capacity self.old.sizes }
    {
        self.sizes.clear();
    }

    /// Reads so many sizes at an address, and gives their product, as far as a word can say it.
    /// They are kept as far as there is room for them.
    fn read_sizes(&mut self, at: u64, dims: u32) -> Result<u64, Outcome>
        ensures rest { rest_of self.new ≡ rest_of self.old }
        ensures same { state_of self.new ≡ state_of self.old }
        ensures few { length self.new.sizes.items ≤ dims }
        ensures read { dims ≤ vec_capacity self.old.sizes
            → Reads (memory_of (program_of self.old) (state_of self.old)) at dims
            self.new.sizes.items result }
    {
        self.forget_sizes();
        let mut product: u64 = 1;
        'sizes: for n in 0..dims {
            let size = match self.memory.load(at.wrapping_add(u64::from(n))) {
                Some(size) => size,
                None => return Err(Outcome::Trap(2)),
            };
            if is_too_large(size) {
                return Err(Outcome::Trap(7));
            }
            product = product.saturating_mul(size);
            self.keep_size(size);
        }
        Ok(product)
    }

    /// Keeps a size, if there is room for one more.
    fn keep_size(&mut self, size: u64)
        ensures rest { rest_of self.new ≡ rest_of self.old }
        ensures same { state_of self.new ≡ state_of self.old }
        ensures room { vec_capacity self.new.sizes ≡ vec_capacity self.old.sizes }
        ensures few { length self.new.sizes.items ≤ length self.old.sizes.items + 1 }
        ensures kept { length self.old.sizes.items < vec_capacity self.old.sizes
            → self.new.sizes.items ≡ self.old.sizes.items ++ size ∷ [] }
    {
        if self.sizes.len() < self.sizes.capacity() {
            self.sizes.push_reserved(size);
        }
    }

    /// Writes the sizes behind the header of a new cell, which has as many words.
    fn write_sizes(&mut self, kind: u32, words: u64, cell: u64)
        requires room { length self.old.sizes.items < words }
        requires low { cell + words ≤ 2 ^ 63 }
        requires new { HasNew kind words cell (state_of self.old) }
        ensures rest { rest_of self.new ≡ rest_of self.old }
        ensures filled { Becomes (program_of self.old) (state_of self.old)
            (with_words (cell + 1) self.old.sizes.items
            (memory_of (program_of self.old) (state_of self.old))) (state_of self.new) }
    {
        'sizes: for n in 0..self.sizes.len() {
            let size = self.sizes[n];
            self.set_word(cell + 1 + n as u64, size);
        }
    }

    /// An open type.
    fn open_type(&self, kind: u32) -> Result<TypeView<'a>, Outcome>
        ensures { MatchResult result (λ view. open_type (slice_get (program_of self.now).types kind)
            ≡ Ok (type_of view))
            (λ outcome. open_type (slice_get (program_of self.now).types kind) ≡ Err outcome) }
    {
        match self.image.shape(kind) {
            Some(shape) => {
                if shape.kind() == 1 {
                    Ok(shape)
                } else {
                    Err(Outcome::Trap(4))
                }
            }
            None => Err(Outcome::Trap(4)),
        }
    }

    /// Makes a cell of an open type, by its sizes, which were read.
    fn make_sized(&mut self, a: u8, kind: u32, words: u64) -> Progress
        requires register { a < 16 }
        requires room { length self.old.sizes.items < words }
        ensures rest { rest_of self.new ≡ record (rest_of self.old) { stuck = self.new.stuck } }
        ensures going { goes_on result ≡ true → self.new.stuck ≡ self.old.stuck }
        ensures makes { IsGoing self.old → (made : Result ℕ End) × (u : State)
            × Makes (program_of self.old) kind words (state_of self.old) made u
            × GivesOpen (program_of self.old) a self.old.sizes.items made u
            (became result (state_of self.new)) }
    {
        match self.make_cell(kind, words) {
            Ok(cell) => {
                self.write_sizes(kind, words, cell);
                self.give(a, cell)
            }
            Err(outcome) => Progress::Ends(outcome),
        }
    }

    /// Makes a cell of an open type, by the sizes that stand where register b says.
    fn make_by_sizes(&mut self, i: Instr, kind: u32, shape: TypeView<'a>) -> Progress
        requires answer { i.a < 16 }
        requires sizes { i.b < 16 }
        requires kind { kind ≡ cast_unsigned w32 i.imm }
        ensures rest { rest_of self.new ≡ record (rest_of self.old) { stuck = self.new.stuck } }
        ensures going { goes_on result ≡ true → self.new.stuck ≡ self.old.stuck }
        ensures makes { IsGoing self.old → (type_of shape.entry).dims ≤ vec_capacity self.old.sizes
            → (t : Thread) → Running self.old t
            → Makes_open (program_of self.old) t i (state_of self.old) (Ok (type_of shape.entry))
            (became result (state_of self.new)) }
    {
        let dims = shape.dims();
        let at = self.word(i.b);
        let product = match self.read_sizes(at, dims) {
            Ok(product) => product,
            Err(outcome) => return Progress::Ends(outcome),
        };
        let element = shape.words();
        let words = words_asked(product, element, dims);
        self.make_sized(i.a, kind, words)
    }

    /// NEWO.
    pub fn make_open(&mut self, i: Instr) -> Progress
        requires answer { i.a < 16 }
        requires sizes { i.b < 16 }
        ensures rest { rest_of self.new ≡ record (rest_of self.old) { stuck = self.new.stuck } }
        ensures going { goes_on result ≡ true → self.new.stuck ≡ self.old.stuck }
        ensures makes { IsGoing self.old → (t : Thread) → Running self.old t
            → Makes_open (program_of self.old) t i (state_of self.old)
            (open_type (slice_get (program_of self.old).types (cast_unsigned w32 i.imm)))
            (became result (state_of self.new)) }
    {
        let kind = i.imm.cast_unsigned();
        match self.open_type(kind) {
            Ok(shape) => self.make_by_sizes(i, kind, shape),
            Err(outcome) => Progress::Ends(outcome),
        }
    }
}
