// The places of a text.
ghost use Rattle.std.specs.Prelude.{◌<◌, ◌+◌, ◌^◌, ℕ, List, ◌++◌, length};
ghost use Rattle.vb_base.specs.Place.{IsPlaceAfter};

use crate::Pos;

/// The place after these bytes, which begin at `start`.
pub fn advance(start: Pos, bytes: &[u8]) -> Pos
    requires line { start.line + length bytes.now < 2 ^ 32 }
    requires col { start.col + length bytes.now < 2 ^ 32 }
    ensures { (before : List ℕ) → IsPlaceAfter before start → IsPlaceAfter (before ++ bytes.now) result }
{
    let mut line = start.line;
    let mut col = start.col;
    for byte in bytes {
        if *byte == b'\n' {
            line += 1;
            col = 1;
        } else {
            col += 1;
        }
    }
    Pos { line, col }
}

/// The place past the last byte of a text.
pub fn place_after(bytes: &[u8]) -> Pos
    requires { length bytes.now + 1 < 2 ^ 32 }
    ensures { IsPlaceAfter bytes.now result }
{
    advance(Pos { line: 1, col: 1 }, bytes)
}
