ghost use Rattle.std.specs.Prelude.{◌≡◌, ◌≤◌, ◌+◌, ◌^◌, ◌<◌, length, IfSome};
ghost use Rattle.m3_lexer.specs.Reading.{begins, closed_len};

/// Whether a text begins with a byte.
pub fn begins(byte: u8, text: &[u8]) -> bool
    ensures { result ≡ begins byte text.now }
{
    match text {
        [] => false,
        [first, ..] => *first == byte,
    }
}

/// How many bytes follow an opening mark up to the end of the mark that closes it. The opening mark is
/// the byte `left` and a star, the closing one a star and the byte `right`; they nest. None where no
/// mark closes it.
#[tactic(auto, using(crate::proofs::Counts::plus_plus, crate::proofs::Counts::plus_zero))]
pub fn closed_len(left: u8, right: u8, text: &[u8]) -> Option<usize>
    ensures len { result ≡ closed_len left right 1 text.now }
    ensures within { IfSome result (λ n. n ≤ length text.now) }
{
    let mut depth = 1usize;
    let mut len = 0;
    let mut rest = text;
    while depth > 0 {
        match rest {
            [a, b, ..] if *a == left && *b == b'*' => {
                depth += 1;
                len += 2;
                rest = &rest[2..];
            }
            [a, b, ..] if *a == b'*' && *b == right => {
                depth -= 1;
                len += 2;
                rest = &rest[2..];
            }
            [_, _, ..] => {
                len += 1;
                rest = &rest[1..];
            }
            _ => return None,
        }
    }
    Some(len)
}
