ghost use Rattle.std.specs.Prelude.{◌≡◌, ◌≢◌, ℕ, ◌≤◌, ◌<◌, ◌+◌, ◌*◌, ◌-◌, ◌^◌, ◌%◌, ◌&&◌, ◌⊎◌, MatchOption, MatchBool, None, true, false};
ghost use Rattle.m3_base.specs.Words.{add_words};
ghost use Rattle.m3_isa.specs.Effects.{are_there, are_writable, are_equal, has_bytes, are_equal_texts, copied, filled, is_among, IsMemory};
ghost use Rattle.m3_isa.specs.LowCopies.{copied_low};

use crate::arithmetic::below_end;
use crate::memory::Words;

// Words lie below this address.
const TOP: u64 = 1 << 63;

/// Whether the n words from one address on are those from another on, and none where one of them
/// isn't there.
pub fn equal_words<W: Words>(n: u64, left: u64, right: u64, mem: &W) -> Option<bool>
    ensures { MatchOption result
        ((are_there (W.holds mem.now) left n && are_there (W.holds mem.now) right n) ≡ false)
        (λ equal. ((are_there (W.holds mem.now) left n && are_there (W.holds mem.now) right n) ≡ true)
        × (equal ≡ are_equal (W.holds mem.now) n left right)) }
{
    let mut equal = true;
    for k in 0..n {
        let x = mem.load(left.wrapping_add(k))?;
        let y = mem.load(right.wrapping_add(k))?;
        equal = equal && x == y;
    }
    Some(equal)
}

/// Whether the bytes of two texts of one length are equal, and none where a word of theirs isn't
/// there.
pub fn equal_bytes<W: Words>(bytes: u64, left: u64, right: u64, mem: &W) -> Option<bool>
    ensures { MatchOption result
        ((has_bytes (W.holds mem.now) left bytes && has_bytes (W.holds mem.now) right bytes) ≡ false)
        (λ equal. ((has_bytes (W.holds mem.now) left bytes && has_bytes (W.holds mem.now) right bytes) ≡ true)
        × (equal ≡ are_equal_texts (W.holds mem.now) bytes left right)) }
{
    let mut equal = true;
    for k in 0..bytes.div_ceil(8) {
        let x = mem.load(left.wrapping_add(2 + k))?;
        let y = mem.load(right.wrapping_add(2 + k))?;
        let x = below_end(bytes, k, x);
        let y = below_end(bytes, k, y);
        equal = equal && x == y;
    }
    Some(equal)
}

/// Fills: puts each of n words a distance above where it is, rising. Answers false where a word
/// isn't there or can't be replaced.
pub fn fill_words<W: Words>(n: u64, from: u64, distance: u64, mem: &mut W) -> bool
    ensures filled { MatchBool result
        (IsMemory (filled (W.holds mem.old) (W.writable mem.old) from distance n) (W.holds mem.new))
        (filled (W.holds mem.old) (W.writable mem.old) from distance n ≡ None) }
    ensures outside { (x : ℕ) → is_among x (add_words from distance) n ≡ false
        → W.holds mem.new x ≡ W.holds mem.old x }
    ensures writable { (x : ℕ) → W.writable mem.new x ≡ W.writable mem.old x }
    ensures keeps { W.keeps mem.old mem.new }
{
    let to = from.wrapping_add(distance);
    for k in 0..n {
        let Some(word) = mem.load(from.wrapping_add(k)) else {
            return false;
        };
        if !mem.store(to.wrapping_add(k), word) {
            return false;
        }
    }
    true
}

/// Copies n words as if all were read first. Answers false where a word isn't there or can't be
/// replaced.
pub fn copy_words<W: Words>(n: u64, from: u64, to: u64, mem: &mut W) -> bool
    ensures copied { MatchBool result
        (((are_there (W.holds mem.old) from n && are_writable (W.writable mem.old) to n) ≡ true)
        × ((x : ℕ) → W.holds mem.new x ≡ copied (W.holds mem.old) n from to x))
        ((are_there (W.holds mem.old) from n && are_writable (W.writable mem.old) to n) ≡ false) }
    ensures outside { (x : ℕ) → is_among x to n ≡ false → W.holds mem.new x ≡ W.holds mem.old x }
    ensures writable { (x : ℕ) → W.writable mem.new x ≡ W.writable mem.old x }
    ensures keeps { W.keeps mem.old mem.new }
{
    if n == 0 {
        return true;
    }
    if n > TOP || from > TOP - n || to > TOP - n {
        return false;
    }
    if to <= from {
        copy_rising(n, from, to, mem)
    } else {
        copy_falling(n, from, to, mem)
    }
}

// Copies to lower addresses, the lowest word first.
fn copy_rising<W: Words>(n: u64, from: u64, to: u64, mem: &mut W) -> bool
    requires low { from + n ≤ 2 ^ 63 }
    requires down { to ≤ from }
    ensures copied { MatchBool result
        (((are_there (W.holds mem.old) from n && are_writable (W.writable mem.old) to n) ≡ true)
        × ((x : ℕ) → W.holds mem.new x ≡ copied_low (W.holds mem.old) n from to x))
        ((are_there (W.holds mem.old) from n && are_writable (W.writable mem.old) to n) ≡ false) }
    ensures outside { (x : ℕ) → (x < to) ⊎ (to + n ≤ x) → W.holds mem.new x ≡ W.holds mem.old x }
    ensures writable { (x : ℕ) → W.writable mem.new x ≡ W.writable mem.old x }
    ensures keeps { W.keeps mem.old mem.new }
{
    for k in 0..n {
        let Some(word) = mem.load(from + k) else {
            return false;
        };
        if !mem.store(to + k, word) {
            return false;
        }
    }
    true
}

// Copies to higher addresses, the highest word first.
fn copy_falling<W: Words>(n: u64, from: u64, to: u64, mem: &mut W) -> bool
    requires low { to + n ≤ 2 ^ 63 }
    requires up { from ≤ to }
    ensures copied { MatchBool result
        (((are_there (W.holds mem.old) from n && are_writable (W.writable mem.old) to n) ≡ true)
        × ((x : ℕ) → W.holds mem.new x ≡ copied_low (W.holds mem.old) n from to x))
        ((are_there (W.holds mem.old) from n && are_writable (W.writable mem.old) to n) ≡ false) }
    ensures outside { (x : ℕ) → (x < to) ⊎ (to + n ≤ x) → W.holds mem.new x ≡ W.holds mem.old x }
    ensures writable { (x : ℕ) → W.writable mem.new x ≡ W.writable mem.old x }
    ensures keeps { W.keeps mem.old mem.new }
{
    let mut k = n;
    while k > 0 {
        k -= 1;
        let Some(word) = mem.load(from + k) else {
            return false;
        };
        if !mem.store(to + k, word) {
            return false;
        }
    }
    true
}
