ghost use Rattle.std.specs.Prelude.{◌≡◌, ◌+◌, ◌^◌, ◌<◌, ◌≤◌, length};
ghost use Rattle.m3_syntax.specs.Lexis.{place_after};

use m3_base::Pos;

/// The place behind a front that begins at a place. Line feeds alone end lines.
pub fn place_after(pos: Pos, front: &[u8]) -> Pos
    requires lines { pos.line + length front.now < 2 ^ 32 }
    requires columns { pos.col + length front.now < 2 ^ 32 }
    ensures place { result ≡ place_after pos front.now }
    ensures line { result.line ≤ pos.line + length front.now }
    ensures column { result.col ≤ pos.col + length front.now }
{
    let mut place = pos;
    for byte in front {
        place = if *byte == b'\n' {
            Pos {
                file: place.file,
                line: place.line + 1,
                col: 1,
            }
        } else {
            Pos {
                file: place.file,
                line: place.line,
                col: place.col + 1,
            }
        };
    }
    place
}
