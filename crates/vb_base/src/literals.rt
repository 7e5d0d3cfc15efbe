// Numbers of a text.
ghost use Rattle.std.specs.Prelude.{◌≡◌};

use std::marker::Model;

/// How many values the low half of a number has.
const HALF: i128 = 1 << 64;

/// A number of a text, seen as the number that it is. Its halves stand beside each other, so that what it is a part of
/// lies at multiples of eight bytes and not of sixteen.
#[derive(Debug, Drop)]
pub struct Literal {
    high: i64,
    low: u64,
}

impl Model for Literal {
    ghost use Rattle.std.specs.Prelude.{ℤ, pos, ◌*ℤ◌, ◌+ℤ◌, ◌^◌};

    ghost Value = { ℤ };

    ghost view = { λ n. n.high *ℤ pos (2 ^ 64) +ℤ pos n.low };
}

impl Literal {
    /// The number of this value.
    pub fn new(value: i128) -> Literal
        ensures { result ≡ value }
    {
        Literal {
            high: value.div_euclid(HALF) as i64,
            low: value.rem_euclid(HALF) as u64,
        }
    }

    /// Its value.
    pub fn value(&self) -> i128
        ensures { result ≡ self.now }
    {
        i128::from(self.high) * HALF + i128::from(self.low)
    }
}
