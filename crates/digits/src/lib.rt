//! The decimal digits of numbers, without an allocation.
#![tactic(auto)]

ghost use Rattle.std.specs.Prelude.{◌≡◌, ◌+◌, ◌<◌, ◌≤◌, ◌/◌, ◌%◌, ◌^◌, ◌∷◌, ◌++◌, drop, length};
ghost use Rattle.std.specs.Fmt.{decimal, signed_decimal};

use std::marker::Model;

/// The most bytes of a number: those of the least `i128`.
const ROOM: usize = 40;

/// The two digits of each number below 100.
const PAIRS: &[u8; 200] = b"\
    0001020304050607080910111213141516171819\
    2021222324252627282930313233343536373839\
    4041424344454647484950515253545556575859\
    6061626364656667686970717273747576777879\
    8081828384858687888990919293949596979899";

/// The digits of a number, with what stands before them. Contracts see the list of these bytes.
#[derive(Drop)]
pub struct Digits {
    bytes: [u8; ROOM],
    /// Where the text begins, which goes to the end of the bytes.
    start: usize,
}

impl Model for Digits {
    ghost use Rattle.std.specs.Prelude.{List, ℕ, ◌≤◌, drop};

    ghost Value = { List ℕ };

    ghost view = { λ d. drop d.start d.bytes };

    ghost invariant = { λ d. d.start ≤ 40 };
}

impl Digits {
    /// Those of a number.
    pub fn of(number: u64) -> Digits
        ensures { result ≡ decimal number }
    {
        let mut bytes = [0; ROOM];
        let start = put_before(&mut bytes, ROOM, number);
        Digits { bytes, start }
    }

    /// Two bytes, and those of a number behind them.
    pub fn behind(front: &[u8; 2], number: u64) -> Digits
        ensures { result ≡ front.now ++ decimal number }
    {
        let mut bytes = [0; ROOM];
        let start = put_before(&mut bytes, ROOM, number) - 2;
        bytes[start + 1] = front[1];
        bytes[start] = front[0];
        Digits { bytes, start }
    }

    /// Those of a number, behind a `-` where it is below 0.
    pub fn of_signed(number: i128) -> Digits
        ensures { result ≡ signed_decimal number }
    {
        let mut bytes = [0; ROOM];
        let mut start = put_wide(&mut bytes, number.unsigned_abs());
        if number < 0 {
            start -= 1;
            bytes[start] = b'-';
        }
        Digits { bytes, start }
    }

    /// The bytes.
    pub fn bytes(&self) -> &[u8]
        ensures { result.now ≡ self.now }
    {
        &self.bytes[self.start..]
    }
}

/// Writes the digits of a number at the end. Tells where they begin.
fn put_wide(bytes: &mut [u8; ROOM], number: u128) -> usize
    requires { number ≤ 2 ^ 127 }
    ensures room { (0 < result) × (result ≤ 40) }
    ensures text { drop result bytes.new ≡ decimal number }
{
    let mut rest = number;
    let mut end = ROOM;
    // To divide at this width is slow, and seldom needed.
    while rest > u128::from(u64::MAX) {
        end -= 2;
        put_pair(bytes, end, (rest % 100) as usize);
        rest /= 100;
    }
    put_before(bytes, end, rest as u64)
}

/// Writes the digits of a number before a place. Tells where they begin.
fn put_before(bytes: &mut [u8; ROOM], place: usize, number: u64) -> usize
    requires room { length (decimal number) ≤ place }
    requires inside { place ≤ 40 }
    ensures room { result + length (decimal number) ≡ place }
    ensures text { drop result bytes.new ≡ decimal number ++ drop place bytes.old }
{
    let mut rest = number;
    let mut end = place;
    while rest >= 100 {
        end -= 2;
        put_pair(bytes, end, (rest % 100) as usize);
        rest /= 100;
    }
    if rest >= 10 {
        end -= 2;
        put_pair(bytes, end, rest as usize);
    } else {
        end -= 1;
        bytes[end] = b'0' + rest as u8;
    }
    end
}

/// Writes the two digits of a number below 100 at a place.
fn put_pair(bytes: &mut [u8; ROOM], place: usize, number: usize)
    requires below { number < 100 }
    requires inside { place + 2 ≤ 40 }
    ensures { drop place bytes.new ≡ (48 + number / 10) ∷ (48 + number % 10) ∷ drop (place + 2) bytes.old }
{
    bytes[place + 1] = PAIRS[2 * number + 1];
    bytes[place] = PAIRS[2 * number];
}
