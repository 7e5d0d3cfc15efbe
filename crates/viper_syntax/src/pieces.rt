// The longest piece with which a text begins.
ghost use Rattle.std.specs.Prelude.{◌≡◌, ◌≤◌, ◌<◌, ◌^◌, ◌==◌, not, pos, IsTrue, IfOk, MatchOption, length, slice_index};
ghost use Rattle.std.specs.Char.{is_ascii_digit};
ghost use Rattle.std.specs.List.{prefix_len, list_all};
ghost use Rattle.vb_base.specs.Names.{is_name_start, is_name_byte};
ghost use Rattle.viper_syntax.specs.Spelling.{is_blank, decimal};
ghost use Rattle.viper_syntax.specs.Piece.{Taken, HasNoClose, IsLongest};
ghost use Rattle.viper_syntax.specs.Step.{BeginsWith, IsFirstClose, IsSignOnly, IsStep};

use crate::signs::{byte_at, sign_at, sign_len};
use crate::words::word_of;
use crate::{LexFault, Tok};
use std::alloc::Global;
use vb_base::{Ident, Literal, Memory, Pos};

/// The longest piece with which a text begins: its token, unless it is a blank or a comment, and its length.
pub(crate) fn piece(alloc: Global, text: &[u8], at: Pos) -> Result<(Option<Tok>, usize), LexFault>
    requires { 0 < length text.now }
    ensures { IsStep text.now at result }
{
    let first = text[0];
    if is_blank(first) {
        Ok((None, 1))
    } else if is_name_start(first) {
        let (tok, len) = name(alloc, text)?;
        Ok((Some(tok), len))
    } else if first.is_ascii_digit() {
        number(text, at)
    } else if first == b'/' && byte_at(text, 1) == b'/' {
        Ok((None, line_len(text)))
    } else if first == b'/' && byte_at(text, 1) == b'*' {
        comment(text, at)
    } else {
        sign(text, at)
    }
}

/// The word or name with which a text begins.
fn name(alloc: Global, text: &[u8]) -> Result<(Tok, usize), Memory>
    requires { BeginsWith is_name_start text.now }
    ensures { IfOk result (λ r. IsLongest text.now r.1 (Taken r.0)) }
{
    let len = name_len(text);
    let name = &text[..len];
    let tok = match word_of(name) {
        Some(word) => Tok::Word(word),
        None => Tok::Name(Ident::new(alloc, name)?),
    };
    Ok((tok, len))
}

/// The number with which a text begins.
fn number(text: &[u8], at: Pos) -> Result<(Option<Tok>, usize), LexFault>
    requires { BeginsWith is_ascii_digit text.now }
    ensures { IsStep text.now at result }
{
    let len = digits_len(text);
    match decimal(&text[..len]) {
        Some(value) => Ok((Some(Tok::Number(Literal::new(value))), len)),
        None => Err(LexFault::BigLiteral(at)),
    }
}

/// The comment of the form `/* .. */` with which a text begins.
fn comment(text: &[u8], at: Pos) -> Result<(Option<Tok>, usize), LexFault>
    requires slash { slice_index text.now 0 ≡ 47 }
    requires star { slice_index text.now 1 ≡ 42 }
    ensures { IsStep text.now at result }
{
    match close_of(&text[2..]) {
        Some(close) => Ok((None, close + 4)),
        None => Err(LexFault::OpenComment(at)),
    }
}

/// The sign with which a text begins.
fn sign(text: &[u8], at: Pos) -> Result<(Option<Tok>, usize), LexFault>
    requires { IsSignOnly text.now }
    ensures { IsStep text.now at result }
{
    match sign_at(text) {
        Some(sign) => Ok((Some(Tok::Sign(sign)), sign_len(sign))),
        None => Err(LexFault::BadByte(at)),
    }
}

/// How many bytes from the first on can stand in a name.
fn name_len(text: &[u8]) -> usize
    ensures { result ≡ prefix_len is_name_byte text.now }
{
    text.iter().take_while(|b| is_name_byte(**b)).count()
}

/// How many bytes from the first on are digits.
fn digits_len(text: &[u8]) -> usize
    ensures { result ≡ prefix_len is_ascii_digit text.now }
{
    text.iter().take_while(|b| b.is_ascii_digit()).count()
}

/// How many bytes stand before the end of the line.
fn line_len(text: &[u8]) -> usize
    ensures { result ≡ prefix_len (λ b. not (b == 10)) text.now }
{
    text.iter().take_while(|b| **b != b'\n').count()
}

/// Where the first `*/` stands, if any.
fn close_of(text: &[u8]) -> Option<usize>
    ensures { MatchOption result (HasNoClose text.now) (IsFirstClose text.now) }
{
    let mut star = false;
    for (i, byte) in text.iter().enumerate() {
        if star && *byte == b'/' {
            return Some(i - 1);
        }
        star = *byte == b'*';
    }
    None
}

/// Whether a byte is a blank.
pub(crate) fn is_blank(byte: u8) -> bool
    ensures { result ≡ is_blank byte }
{
    byte == b'\t' || byte == b'\n' || byte == b'\r' || byte == b' '
}

/// Whether a byte can begin a name.
fn is_name_start(byte: u8) -> bool
    ensures { result ≡ is_name_start byte }
{
    byte.is_ascii_alphabetic() || byte == b'_' || byte == b'$'
}

/// Whether a byte can stand in a name, after the first.
fn is_name_byte(byte: u8) -> bool
    ensures { result ≡ is_name_byte byte }
{
    is_name_start(byte) || byte.is_ascii_digit() || byte == b'\''
}

/// The number that digits spell, unless it is above 2^127 - 1.
fn decimal(digits: &[u8]) -> Option<i128>
    requires { IsTrue (list_all is_ascii_digit digits.now) }
    ensures { MatchOption result (2 ^ 127 ≤ decimal digits.now) (λ n. (n ≡ pos (decimal digits.now)) × (decimal digits.now < 2 ^ 127)) }
{
    let mut value: u128 = 0;
    for digit in digits {
        value = value
            .checked_mul(10)?
            .checked_add(u128::from(*digit - b'0'))?;
    }
    i128::try_from(value).ok()
}
