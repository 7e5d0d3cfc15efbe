// A place in a text.
ghost use Rattle.std.specs.Prelude.{◌≤◌, ◌<◌, ◌^◌};

/// A place in a text: a line, and a column that counts the bytes of its line. Both count from 1, and a line
/// ends at the byte 10.
#[derive(Clone, Copy, Debug, PartialEq, Eq)]
pub struct Pos {
    pub line: u32,
    pub col: u32,
    pub ghost line_in_range: { (1 ≤ line) × (line < 2 ^ 32) },
    pub ghost col_in_range: { (1 ≤ col) × (col < 2 ^ 32) },
}
