// The labels of failures, and their text.
ghost use Rattle.std.specs.Prelude.{◌≡◌, ◌↔◌, ◌∷◌, ℕ, List, IsTrue, IfOk, MatchOption, Some, find};
ghost use Rattle.std.specs.Str.{all_ascii_digits, bytes_eq};
ghost use Rattle.vb_base.specs.Labels.{kind_text, place_text, text_of, Spells};
ghost use Rattle.vb_base.specs.Reading.{digit_count, IsNumber, StartsWithNumber, StartsWithPlace, StartsWithByte};

use crate::{Memory, Pos};
use std::alloc::Global;
use std::{fmt, str};

/// Why a check of permissions fails.
#[derive(Clone, Copy, Debug, PartialEq, Eq)]
pub enum Kind {
    /// A field of null is read or written.
    Null,
    /// A permission is missing.
    Perm,
    /// An assertion is false.
    Fact,
    /// A divisor is zero.
    Div,
    /// An amount is below zero.
    Negative,
    /// An amount of a fold or unfold is not positive.
    Amount,
}

/// Which check of a program fails: the step that runs (`at`), the part of it that fails, and why.
#[derive(Clone, Copy, Debug, PartialEq, Eq)]
pub struct Label {
    pub at: Pos,
    pub part: Pos,
    pub kind: Kind,
}

const KINDS: [Kind; 6] = [
    Kind::Null,
    Kind::Perm,
    Kind::Fact,
    Kind::Div,
    Kind::Negative,
    Kind::Amount,
];

/// The word of a kind in the text of a label.
fn kind_word(kind: Kind) -> &'static str
    ensures { result.now ≡ kind_text kind }
{
    match kind {
        Kind::Null => "null",
        Kind::Perm => "perm",
        Kind::Fact => "false",
        Kind::Div => "div",
        Kind::Negative => "negative",
        Kind::Amount => "amount",
    }
}

impl fmt::Display for Pos {
    ghost output = { λ p. Some (place_text p) };

    fn fmt<W: fmt::Write>(&self, f: &mut fmt::Formatter<W>) -> fmt::Result {
        let line = self.line;
        let col = self.col;
        write!(f, "{line}:{col}")
    }
}

impl fmt::Display for Kind {
    ghost output = { λ k. Some (kind_text k) };

    fn fmt<W: fmt::Write>(&self, f: &mut fmt::Formatter<W>) -> fmt::Result {
        f.write_str(kind_word(*self))
    }
}

impl fmt::Display for Label {
    ghost output = { λ l. Some (text_of l) };

    fn fmt<W: fmt::Write>(&self, f: &mut fmt::Formatter<W>) -> fmt::Result {
        let Label { at, part, kind } = self;
        write!(f, "{at} {part} {kind}")
    }
}

/// The text of a label: `line:col line:col kind`. `Memory` where there is no memory.
pub fn label_text(alloc: Global, label: &Label) -> Result<Vec<u8>, Memory>
    ensures { IfOk result (λ text. Spells text.items label.now) }
{
    Ok(format!(in alloc; "{label}")?.into_bytes())
}

/// No bytes spell two labels.
pub fn one_label()
    ensures { (bytes : List ℕ) (a : Label) (b : Label) → Spells bytes a → Spells bytes b → a ≡ b }
{}

/// Whether the two are one label.
pub fn same_label(a: &Label, b: &Label) -> bool
    ensures { IsTrue result ↔ (a.now ≡ b.now) }
{
    a == b
}

/// The label that the bytes spell, or None exactly where they spell none.
pub fn read_label(bytes: &[u8]) -> Option<Label>
    ensures { MatchOption result ((l : Label) → Spells bytes.now l → ⊥) (Spells bytes.now) }
{
    let (at, rest) = read_place(bytes)?;
    let (part, rest) = read_place(eat(b' ', rest)?)?;
    let kind = read_kind(eat(b' ', rest)?)?;
    Some(Label { at, part, kind })
}

fn read_kind(bytes: &[u8]) -> Option<Kind>
    ensures { MatchOption result ((k : Kind) → bytes.now ≡ kind_text k → ⊥) (λ k. bytes.now ≡ kind_text k) }
{
    kind_among(&KINDS, bytes)
}

/// The first of these kinds that has these bytes.
fn kind_among(kinds: &[Kind], bytes: &[u8]) -> Option<Kind>
    ensures { result ≡ find (λ k. bytes_eq bytes.now (kind_text k)) kinds.now }
{
    kinds
        .iter()
        .copied()
        .find(|kind| bytes == kind_word(*kind).as_bytes())
}

fn read_place(bytes: &[u8]) -> Option<(Pos, &[u8])>
    ensures { MatchOption result ((p : Pos) (rest : List ℕ) → StartsWithPlace bytes.now p rest → ⊥)
        (λ r. StartsWithPlace bytes.now r.0 r.1.now) }
{
    let (line, rest) = read_number(bytes)?;
    let (col, rest) = read_number(eat(b':', rest)?)?;
    Some((Pos { line, col }, rest))
}

/// The rest after this byte, if the bytes begin with it.
fn eat(byte: u8, bytes: &[u8]) -> Option<&[u8]>
    ensures { MatchOption result (¬ StartsWithByte byte bytes.now) (λ rest. bytes.now ≡ byte ∷ rest.now) }
{
    match bytes {
        [first, rest @ ..] if *first == byte => Some(rest),
        _ => None,
    }
}

/// The number with which the bytes begin, from 1 to 2^32 - 1 and without leading zeros, and the rest after it.
fn read_number(bytes: &[u8]) -> Option<(u32, &[u8])>
    ensures { MatchOption result ((n : ℕ) (rest : List ℕ) → StartsWithNumber bytes.now n rest → ⊥)
        (λ r. StartsWithNumber bytes.now r.0 r.1.now) }
{
    let (digits, rest) = bytes.split_at(digit_count(bytes));
    let number = number_of(digits)?;
    Some((number, rest))
}

/// The number from 1 to 2^32 - 1 that these digits write without leading zeros.
fn number_of(digits: &[u8]) -> Option<u32>
    requires { IsTrue (all_ascii_digits digits.now) }
    ensures { MatchOption result ((n : ℕ) → IsNumber digits.now n → ⊥) (IsNumber digits.now) }
{
    if digits.starts_with(b"0") {
        return None;
    }
    match str::from_utf8(digits) {
        Ok(text) => text.parse().ok(),
        Err(_) => None,
    }
}

/// How many digits stand at the beginning.
fn digit_count(bytes: &[u8]) -> usize
    ensures { result ≡ digit_count bytes.now }
{
    for (i, byte) in bytes.iter().enumerate() {
        if !byte.is_ascii_digit() {
            return i;
        }
    }
    bytes.len()
}
