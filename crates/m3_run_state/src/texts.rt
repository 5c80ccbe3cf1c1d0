ghost use Rattle.std.specs.Prelude.{◌≡◌, ◌<◌, ◌≤◌, ◌+◌, ◌-◌, ◌*◌, ◌/◌, ◌%◌, ◌^◌, ◌==◌};
ghost use Rattle.std.specs.Prelude.{if◌then◌else◌, is_some, true, ℕ, List, [], ◌∷◌, min, take};
ghost use Rattle.std.specs.Prelude.{drop};
ghost use Rattle.std.specs.Prelude.{slice_index, Some, Ok, OnOk, OnErr, IfOk};
ghost use Rattle.std.specs.Int.{div_ceil};
ghost use Rattle.m3_ports.specs.Counts.{Rose};
ghost use Rattle.m3_base.specs.Words.{add_words};
ghost use Rattle.m3_isa.specs.Memory.{Memory};
ghost use Rattle.m3_isa.specs.Effects.{reg, every, next};
ghost use Rattle.m3_threads.specs.declared.status.Thread.{Thread};
ghost use Rattle.m3_run_memory.specs.Addresses.{is_from};
ghost use Rattle.m3_run_meaning.specs.State.{memory_of, Becomes};
ghost use Rattle.m3_run_meaning.specs.Act.{Puts, bytes_of, or_trap};
ghost use Rattle.m3_run_meaning.specs.Progress.{Follows, became};
ghost use Rattle.m3_run_meaning.specs.Texts.{text_words, text_byte, text_bytes, packed, text_rest};
ghost use Rattle.m3_run_meaning.specs.Making.{HasNew};
ghost use Rattle.m3_run_meaning.specs.NewTexts.{with_words, both, part_of, FillsText, GivesText};
ghost use Rattle.m3_run_meaning.specs.NewTexts.{Makes_text, Makes_char, Cats, lengths_at, sub_count};
ghost use Rattle.m3_run_meaning.specs.NewTexts.{Subs};
ghost use Rattle.m3_run_meaning.specs.Acts.{has_text, puts_text};
ghost use Rattle.m3_run_state.specs.Blanks.{WasBlank, IsWithin, both_bytes};
ghost use Rattle.m3_run_state.specs.Seen.{state_of, program_of, rest_of, IsGoing, goes_on, Running};
ghost use Rattle.m3_run_state.specs.Seen.{Took};
ghost use Rattle.m3_run_state.specs.Cuts.{CutsOff};

use crate::parts::Parts;
use m3_base::Outcome;
use m3_heap::Store;
use m3_isa::{Instr, Words};
use m3_ports::{Sink, SinkFailed};
use m3_run_meaning::Progress;
use std::sync::ledger::Ledger;

/// A new text cell that is being filled: its address, and how many words it has.
#[derive(Clone, Copy)]
struct Blank {
    start: u64,
    words: u64,
}

/// Some bytes of a text: its address, the first of the bytes, and how many they are.
#[derive(Clone, Copy)]
struct Part {
    text: u64,
    from: u64,
    count: u64,
}

/// The words of a text of so many bytes and so many more.
fn words_for(left: u64, right: u64) -> u64
    ensures some { 2 ≤ result }
    ensures words { result ≡ text_words (left + right) }
{
    2 + left / 8 + right / 8 + (left % 8 + right % 8).div_ceil(8)
}

/// How many words the bytes of a part are in.
fn words_with(part: Part) -> u64
    requires { IsWithin part }
    ensures words { result ≡ (if part.count == 0 then 0 else (part.from + part.count - 1) /
        8 + 1 - part.from / 8) }
    ensures few { part.from / 8 + result < 2 ^ 62 }
{
    if part.count == 0 {
        return 0;
    }
    (part.from + part.count - 1) / 8 + 1 - part.from / 8
}

/// How many bytes lie from one on, of so many, and no more than so many of them.
fn cut_length(bytes: u64, from: u64, most: u64) -> u64
    ensures value { result ≡ sub_count bytes from most }
    ensures within { from + result < 2 ^ 64 }
{
    if bytes <= from {
        return 0;
    }
    most.min(bytes - from)
}

/// Whether an address is that of a word of the new cell behind its header.
fn is_inside(blank: Blank, at: u64) -> bool
    ensures { result ≡ is_from (blank.start + 1) (blank.words - 1) at }
{
    at > blank.start && at - blank.start < blank.words
}

/// How many bytes of word k of a text lie below the text's length.
fn bytes_in(count: u64, k: u64) -> usize
    requires { k < div_ceil count 8 }
    ensures value { result ≡ min (count - 8 * k) 8 }
    ensures below { 8 * k < count }
{
    (count - k * 8).min(8) as usize
}

impl<'a, S: Store, L: Ledger> Parts<'a, S, L> {
    /// The word at an address as it was before a new cell was filled.
    fn load_before(&self, blank: Blank, at: u64) -> Option<u64>
        ensures { (before : Memory) → WasBlank blank.start blank.words before
            (memory_of (program_of self.now) (state_of self.now)) → result ≡ before at }
    {
        if is_inside(blank, at) {
            return Some(0);
        }
        self.memory.load(at)
    }

    /// Whether so many words of a text are there, from one on.
    fn has_words(&self, text: u64, first: u64, many: u64) -> bool
        requires { first + many < 2 ^ 62 }
        ensures { result ≡ every (λ k. is_some
            (memory_of (program_of self.now) (state_of self.now)
            (add_words text (2 + (first + k))))) many }
    {
        'words: for k in 0..many {
            if self
                .memory
                .load(text.wrapping_add(2 + (first + k)))
                .is_none()
            {
                return false;
            }
        }
        true
    }

    /// Whether the words with these bytes of a text are there.
    fn has_part(&self, part: Part) -> bool
        requires { IsWithin part }
        ensures { result ≡ has_text (memory_of (program_of self.now) (state_of self.now)) part.text
            part.from part.count }
    {
        self.has_words(part.text, part.from / 8, words_with(part))
    }

    /// A byte of a part of a text, as it was before a new cell was filled.
    fn byte_before(&self, blank: Blank, part: Part, n: u64) -> u8
        requires within { IsWithin part }
        requires there { n < part.count }
        ensures { (before : Memory) → WasBlank blank.start blank.words before
            (memory_of (program_of self.now) (state_of self.now))
            → result ≡ text_byte before part.text (part.from + n) }
    {
        let place = part.from + n;
        let word = self
            .load_before(blank, part.text.wrapping_add(2 + place / 8))
            .unwrap_or(0);
        ((word >> (8 * (place % 8))) % 256) as u8
    }

    /// A byte of one part and then another; 0 past their end.
    fn byte_of(&self, blank: Blank, left: Part, right: Part, n: u64) -> u8
        requires left { IsWithin left }
        requires right { IsWithin right }
        ensures { (before : Memory) → WasBlank blank.start blank.words before
            (memory_of (program_of self.now) (state_of self.now))
            → result ≡ slice_index (both_bytes before left right) n }
    {
        if n < left.count {
            return self.byte_before(blank, left, n);
        }
        let past = n - left.count;
        if past < right.count {
            return self.byte_before(blank, right, past);
        }
        0
    }

    /// The word of eight bytes, from one on, of one part and then another.
    fn word_before(&self, blank: Blank, left: Part, right: Part, from: u64) -> u64
        requires left { IsWithin left }
        requires right { IsWithin right }
        requires within { from + 8 < 2 ^ 64 }
        ensures { (before : Memory) → WasBlank blank.start blank.words before
            (memory_of (program_of self.now) (state_of self.now))
            → result ≡ packed (take 8 (drop from (both_bytes before left right))) }
    {
        let mut bytes = [0u8; 8];
        'bytes: for k in 0..8 {
            bytes[k] = self.byte_of(blank, left, right, from + k as u64);
        }
        u64::from_le_bytes(bytes)
    }

    /// A word of a new text behind its header: its length, and then its bytes, eight in each.
    fn text_word(&self, blank: Blank, left: Part, right: Part, k: u64) -> u64
        requires left { IsWithin left }
        requires right { IsWithin right }
        requires few { left.count + right.count < 2 ^ 40 }
        requires there { k + 1 < text_words (left.count + right.count) }
        ensures { (before : Memory) → WasBlank blank.start blank.words before
            (memory_of (program_of self.now) (state_of self.now))
            → result ≡ slice_index (text_rest (both_bytes before left right)) k }
    {
        if k == 0 {
            return left.count + right.count;
        }
        self.word_before(blank, left, right, (k - 1) * 8)
    }

    /// Fills a new text with the bytes of one part and then another.
    fn fill_text(&mut self, blank: Blank, left: Part, right: Part)
        requires left { IsWithin left }
        requires right { IsWithin right }
        requires few { left.count + right.count < 2 ^ 40 }
        requires low { blank.start + blank.words ≤ 2 ^ 63 }
        requires new { HasNew 0 blank.words blank.start (state_of self.old) }
        requires words { blank.words ≡ text_words (left.count + right.count) }
        ensures rest { rest_of self.new ≡ rest_of self.old }
        ensures filled { Becomes (program_of self.old) (state_of self.old)
            (with_words (blank.start + 1) (text_rest
            (both_bytes (memory_of (program_of self.old) (state_of self.old)) left right))
            (memory_of (program_of self.old) (state_of self.old)))
            (state_of self.new) }
    {
        'words: for k in 0..blank.words - 1 {
            let word = self.text_word(blank, left, right, k);
            self.set_word(blank.start + 1 + k, word);
        }
    }

    /// Fills a new text with the bytes of two parts, if their words are there, and the thread goes
    /// on with it.
    fn finish_text(&mut self, a: u8, blank: Blank, left: Part, right: Part) -> Progress
        requires register { a < 16 }
        requires left { IsWithin left }
        requires right { IsWithin right }
        requires few { left.count + right.count < 2 ^ 40 }
        requires low { blank.start + blank.words ≤ 2 ^ 63 }
        requires new { HasNew 0 blank.words blank.start (state_of self.old) }
        requires words { blank.words ≡ text_words (left.count + right.count) }
        ensures rest { rest_of self.new ≡ rest_of self.old }
        ensures fills { (t : Thread) → Running self.old t
            → FillsText (program_of self.old) a blank.start
            (both (part_of (memory_of (program_of self.old) (state_of self.old)) left.text left.from
            left.count) (part_of (memory_of (program_of self.old) (state_of self.old))
            right.text right.from right.count))
            (state_of self.old) t (became result (state_of self.new)) }
    {
        if !self.has_part(left) {
            return Progress::trap(2);
        }
        if !self.has_part(right) {
            return Progress::trap(2);
        }
        self.fill_text(blank, left, right);
        self.give(a, blank.start)
    }

    /// The length of a text, where it can be loaded.
    fn text_length(&self, text: u64) -> Result<u64, Outcome>
        ensures { result ≡ or_trap 2 (memory_of (program_of self.now) (state_of self.now)
            (add_words text 1)) }
    {
        match self.memory.load(text.wrapping_add(1)) {
            Some(bytes) => Ok(bytes),
            None => Err(Outcome::Trap(2)),
        }
    }

    /// The lengths of two texts, loaded one after the other.
    fn text_lengths(&self, left: u64, right: u64) -> Result<(u64, u64), Outcome>
        ensures { result ≡ lengths_at (memory_of (program_of self.now) (state_of self.now)) left
            right }
    {
        let left = self.text_length(left)?;
        let right = self.text_length(right)?;
        Ok((left, right))
    }

    /// CAT: the lengths are loaded, then the cell is made, then the bytes are loaded, by registers
    /// that are read again.
    pub fn join_texts(&mut self, i: Instr) -> Progress
        requires answer { i.a < 16 }
        requires left { i.b < 16 }
        requires right { i.c < 16 }
        ensures rest { rest_of self.new ≡ record (rest_of self.old) { stuck = self.new.stuck } }
        ensures going { goes_on result ≡ true → self.new.stuck ≡ self.old.stuck }
        ensures cats { IsGoing self.old → (t : Thread) → Running self.old t
            → Cats (program_of self.old) i (state_of self.old)
            (lengths_at (memory_of (program_of self.old) (state_of self.old)) (reg t.regs i.b)
            (reg t.regs i.c)) (became result (state_of self.new)) }
    {
        let left_text = self.word(i.b);
        let right_text = self.word(i.c);
        match self.text_lengths(left_text, right_text) {
            Ok((left, right)) => self.join_lengths(i, left, right),
            Err(outcome) => Progress::Ends(outcome),
        }
    }

    /// Joins two texts of these lengths, if a new text can be made.
    fn join_lengths(&mut self, i: Instr, left: u64, right: u64) -> Progress
        requires answer { i.a < 16 }
        requires left { i.b < 16 }
        requires right { i.c < 16 }
        ensures rest { rest_of self.new ≡ record (rest_of self.old) { stuck = self.new.stuck } }
        ensures going { goes_on result ≡ true → self.new.stuck ≡ self.old.stuck }
        ensures makes { IsGoing self.old → Makes_text (program_of self.old) i.a (state_of self.old)
            (left + right)
            (λ memory u. both (part_of memory (reg u.regs i.b) 0 left)
            (part_of memory (reg u.regs i.c) 0 right)) (became result (state_of self.new)) }
    {
        let words = words_for(left, right);
        match self.make_cell(0, words) {
            Ok(start) => self.join_into(i, start, left, right),
            Err(outcome) => Progress::Ends(outcome),
        }
    }

    /// Joins two texts of these lengths in a new text.
    fn join_into(&mut self, i: Instr, start: u64, left: u64, right: u64) -> Progress
        requires answer { i.a < 16 }
        requires left { i.b < 16 }
        requires right { i.c < 16 }
        requires small { text_words (left + right) < 2 ^ 32 }
        requires low { start + text_words (left + right) ≤ 2 ^ 63 }
        requires new { HasNew 0 (text_words (left + right)) start (state_of self.old) }
        ensures rest { rest_of self.new ≡ rest_of self.old }
        ensures fills { GivesText (program_of self.old) i.a
            (λ memory u. both (part_of memory (reg u.regs i.b) 0 left)
            (part_of memory (reg u.regs i.c) 0 right)) (Ok start) (state_of self.old)
            (became result (state_of self.new)) }
    {
        let words = words_for(left, right);
        let left_text = self.word(i.b);
        let right_text = self.word(i.c);
        let blank = Blank { start, words };
        let left = Part {
            text: left_text,
            from: 0,
            count: left,
        };
        let right = Part {
            text: right_text,
            from: 0,
            count: right,
        };
        self.finish_text(i.a, blank, left, right)
    }

    /// TCHR: a text of one byte, the low one of register b.
    pub fn make_char(&mut self, i: Instr) -> Progress
        requires answer { i.a < 16 }
        requires byte { i.b < 16 }
        ensures rest { rest_of self.new ≡ record (rest_of self.old) { stuck = self.new.stuck } }
        ensures going { goes_on result ≡ true → self.new.stuck ≡ self.old.stuck }
        ensures makes { IsGoing self.old → Makes_char (program_of self.old) i (state_of self.old)
            (became result (state_of self.new)) }
    {
        match self.make_cell(0, 3) {
            Ok(start) => self.fill_char(i, start),
            Err(outcome) => Progress::Ends(outcome),
        }
    }

    /// Puts the low byte of register b in a new text.
    fn fill_char(&mut self, i: Instr, start: u64) -> Progress
        requires answer { i.a < 16 }
        requires byte { i.b < 16 }
        requires low { start + 3 ≤ 2 ^ 63 }
        requires new { HasNew 0 3 start (state_of self.old) }
        ensures rest { rest_of self.new ≡ rest_of self.old }
        ensures fills { GivesText (program_of self.old) i.a
            (λ memory u. Some (reg u.regs i.b % 256 ∷ [])) (Ok start) (state_of self.old)
            (became result (state_of self.new)) }
    {
        let low = self.word(i.b);
        self.set_word(start + 1, 1);
        self.set_word(start + 2, low % 256);
        self.give(i.a, start)
    }

    /// The word in the register that an instruction's number names; 0 where it names none.
    fn named_word(&self, n: u32) -> u64
        ensures { (t : Thread) → Running self.now t → result ≡ reg t.regs n }
    {
        let regs = self.regs();
        let place = n as usize;
        if place < 16 { regs.r[place] } else { 0 }
    }

    /// TSUB: what of a text lies from a byte on, no more than so many bytes of it.
    pub fn make_part(&mut self, i: Instr) -> Progress
        requires answer { i.a < 16 }
        requires text { i.b < 16 }
        requires from { i.c < 16 }
        ensures rest { rest_of self.new ≡ record (rest_of self.old) { stuck = self.new.stuck } }
        ensures going { goes_on result ≡ true → self.new.stuck ≡ self.old.stuck }
        ensures subs { IsGoing self.old → (t : Thread) → Running self.old t
            → Subs (program_of self.old) t i (state_of self.old)
            (or_trap 2 (memory_of (program_of self.old) (state_of self.old)
            (add_words (reg t.regs i.b) 1))) (became result (state_of self.new)) }
    {
        let text = self.word(i.b);
        let from = self.word(i.c);
        let number = i.imm.cast_unsigned();
        let most = self.named_word(number);
        match self.text_length(text) {
            Ok(bytes) => self.make_cut(i, bytes, from, most),
            Err(outcome) => Progress::Ends(outcome),
        }
    }

    /// Makes a text of what lies from a byte on in a text of so many bytes, no more than so many of
    /// it.
    fn make_cut(&mut self, i: Instr, bytes: u64, from: u64, most: u64) -> Progress
        requires answer { i.a < 16 }
        requires text { i.b < 16 }
        ensures rest { rest_of self.new ≡ record (rest_of self.old) { stuck = self.new.stuck } }
        ensures going { goes_on result ≡ true → self.new.stuck ≡ self.old.stuck }
        ensures makes { IsGoing self.old → Makes_text (program_of self.old) i.a (state_of self.old)
            (sub_count bytes from most)
            (λ memory u. part_of memory (reg u.regs i.b) from (sub_count bytes from most))
            (became result (state_of self.new)) }
    {
        let count = cut_length(bytes, from, most);
        let words = words_for(count, 0);
        match self.make_cell(0, words) {
            Ok(start) => self.cut_into(i, start, from, count),
            Err(outcome) => Progress::Ends(outcome),
        }
    }

    /// Puts so many bytes of a text, from one on, in a new text.
    fn cut_into(&mut self, i: Instr, start: u64, from: u64, count: u64) -> Progress
        requires answer { i.a < 16 }
        requires text { i.b < 16 }
        requires within { from + count < 2 ^ 64 }
        requires small { text_words count < 2 ^ 32 }
        requires low { start + text_words count ≤ 2 ^ 63 }
        requires new { HasNew 0 (text_words count) start (state_of self.old) }
        ensures rest { rest_of self.new ≡ rest_of self.old }
        ensures fills { GivesText (program_of self.old) i.a
            (λ memory u. part_of memory (reg u.regs i.b) from count) (Ok start) (state_of self.old)
            (became result (state_of self.new)) }
    {
        let words = words_for(count, 0);
        let text = self.word(i.b);
        let blank = Blank { start, words };
        let left = Part { text, from, count };
        let right = Part {
            text: 0,
            from: 0,
            count: 0,
        };
        self.finish_text(i.a, blank, left, right)
    }

    /// Puts the bytes of a text from the first on, whose words are there.
    fn put_part<O: Sink>(&self, part: Part, out: &mut O) -> Result<(), SinkFailed>
        requires { part.from ≡ 0 }
        ensures rises { O.faults out.old ≤ O.faults out.new }
        ensures kept { OnOk result (O.faults out.new ≡ O.faults out.old) }
        ensures failed { OnErr result (Rose (O.faults out.old) (O.faults out.new)) }
        ensures took { OnOk result (Took (O.taken out.old) (O.taken out.new)
            (text_bytes (memory_of (program_of self.now) (state_of self.now)) part.text 0
            part.count)) }
        ensures cut { OnErr result (CutsOff O.Sink out.old out.new []
            (text_bytes (memory_of (program_of self.now) (state_of self.now)) part.text 0
            part.count)) }
    {
        'pieces: for k in 0..part.count.div_ceil(8) {
            let word = self.memory.load(part.text.wrapping_add(2 + k)).unwrap_or(0);
            let bytes = word.to_le_bytes();
            let left = bytes_in(part.count, k);
            out.put(&bytes[..left])?;
        }
        Ok(())
    }

    /// PUT: all words of the text are loaded before its first byte is put.
    pub fn put_text<O: Sink>(&mut self, i: Instr, out: &mut O) -> Result<Progress, SinkFailed>
        requires { i.a < 16 }
        ensures rises { O.faults out.old ≤ O.faults out.new }
        ensures kept { OnOk result (O.faults out.new ≡ O.faults out.old) }
        ensures failed { OnErr result (Rose (O.faults out.old) (O.faults out.new)) }
        ensures rest { rest_of self.new ≡ rest_of self.old }
        ensures puts { IfOk result (λ progress. (t : Thread) → Running self.old t
            → Took (O.taken out.old) (O.taken out.new)
            (bytes_of (puts_text i t.regs
            (memory_of (program_of self.old) (state_of self.old))))
            × Follows (program_of self.old) (puts_text i t.regs
            (memory_of (program_of self.old) (state_of self.old))) (state_of self.old)
            (became progress (state_of self.new))) }
        ensures cut { OnErr result ((t : Thread) → Running self.old t → (bytes : List ℕ)
            × (puts_text i t.regs (memory_of (program_of self.old) (state_of self.old))
            ≡ Puts bytes (next t.regs)) × CutsOff O.Sink out.old out.new [] bytes) }
    {
        let text = self.word(i.a);
        let count = match self.memory.load(text.wrapping_add(1)) {
            Some(count) => count,
            None => return Ok(Progress::trap(2)),
        };
        let part = Part {
            text,
            from: 0,
            count,
        };
        if !self.has_part(part) {
            return Ok(Progress::trap(2));
        }
        self.put_part(part, out)?;
        Ok(self.go_on())
    }
}
