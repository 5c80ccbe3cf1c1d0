//! The words of a thread by their places: the registers are 0 to 15, and 16 and more are the words
//! of its stack.
ghost use Rattle.std.specs.Prelude.{◌≡◌, ◌++◌, nat_lt, if◌then◌else◌, Some, None, slice_set};
ghost use Rattle.m3_roots.specs.ThreadWords.{word_at_place, place_from};

/// The place that a row's number stands for in a frame that begins at a word of the stack. None
/// exactly where it isn't before an end.
#[inline]
pub fn place_before(end: usize, first: usize, number: u32) -> Option<usize>
    ensures { result ≡ (if nat_lt (place_from first number) end then Some (place_from first number)
        else None) }
{
    let number = number as usize;
    if number < 16 {
        return if number < end { Some(number) } else { None };
    }
    if first < end && number < end - first {
        Some(first + number)
    } else {
        None
    }
}

/// The word that a row's number stands for, and 0 past the last.
#[inline]
pub fn word_at(r: &[u64; 16], stack: &[u64], first: usize, number: u32) -> u64
    ensures { result ≡ word_at_place (r.now ++ stack.now) (place_from first number) }
{
    match place_before(stack.len() + 16, first, number) {
        Some(place) if place < 16 => r[place],
        Some(place) => stack[place - 16],
        None => 0,
    }
}

/// Sets the word that a row's number stands for, if one is there.
#[inline]
pub fn set_word(r: &mut [u64; 16], stack: &mut [u64], first: usize, number: u32, word: u64)
    ensures { r.new ++ stack.new ≡ slice_set (r.old ++ stack.old) (place_from first number) word }
{
    match place_before(stack.len() + 16, first, number) {
        Some(place) if place < 16 => r[place] = word,
        Some(place) => stack[place - 16] = word,
        None => {}
    }
}
