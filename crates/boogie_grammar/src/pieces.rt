// The longest piece with which a text begins.
ghost use Rattle.std.specs.Prelude.{◌≡◌, ◌≤◌, ◌^◌, ◌==◌, ◌∷◌, not, pos, ℕ, IsTrue, IfOk, MatchOption, Option, Some, length, ◌<◌};
ghost use Rattle.std.specs.Char.{is_ascii_digit};
ghost use Rattle.std.specs.List.{prefix_len, list_all};
ghost use Rattle.std.specs.Str.Parse.{digits_value};
ghost use Rattle.vb_base.specs.Names.{is_name_start, is_name_byte};
ghost use Rattle.boogie_grammar.specs.declared.tokens.Lexeme.{Lexeme};
ghost use Rattle.boogie_tree.specs.Literals.{max_literal};
ghost use Rattle.boogie_grammar.specs.Pieces.{Piece, Letter, Digit, Quote, Other, is_blank, is_in_line, is_unquoted, is_point_zero, literal_length};
ghost use Rattle.boogie_grammar.specs.Step.{IsPiece, NoPiece, literal_of};

use crate::Lexeme;
use crate::signs::{sign_at, sign_text};
use std::alloc::Global;
use vb_base::{Ident, Literal, Memory, read_label};

/// A token, or none for a blank or a comment, and how many bytes it has.
pub type FoundLexeme = (Option<Lexeme>, usize);

/// The longest piece with which a text begins.
#[inline(always)]
pub fn piece(alloc: Global, text: &[u8]) -> Result<Option<FoundLexeme>, Memory>
    ensures { IfOk result (λ r. MatchOption r (NoPiece text.now) (λ p. IsPiece text.now p.0 p.1)) }
{
    let Some((first, rest)) = text.split_first() else {
        return Ok(None);
    };
    if is_blank(*first) {
        Ok(Some((None, 1)))
    } else if is_name_start(*first) {
        let found = name(alloc, text)?;
        Ok(Some(found))
    } else if first.is_ascii_digit() {
        Ok(number(text))
    } else if *first == b'"' {
        Ok(quoted(rest))
    } else {
        Ok(other(text))
    }
}

/// The row of bytes of names with which a text begins.
fn name(alloc: Global, text: &[u8]) -> Result<FoundLexeme, Memory>
    ensures { IfOk result (λ p. Piece Letter text.now p.0 p.1) }
{
    let len = name_len(text);
    let name = Ident::new(alloc, &text[..len])?;
    Ok((Some(Lexeme::Name(name)), len))
}

/// The number or real literal with which a text begins.
fn number(text: &[u8]) -> Option<FoundLexeme>
    ensures { MatchOption result ((o : Option Lexeme) (n : ℕ) → Piece Digit text.now o n → ⊥) (λ p. Piece Digit text.now p.0 p.1) }
{
    let len = digits_len(text);
    let value = decimal(&text[..len])?;
    Some(literal(value, len, &text[len..]))
}

/// The literal of this value, of so many digits, before these bytes.
fn literal(value: i128, len: usize, rest: &[u8]) -> FoundLexeme
    requires { len ≤ 2 ^ 63 }
    ensures token { result.0 ≡ Some (literal_of (is_point_zero rest.now) value) }
    ensures len { result.1 ≡ literal_length (is_point_zero rest.now) len }
{
    if rest.starts_with(b".0") {
        (Some(Lexeme::Real(Literal::new(value))), len + 2)
    } else {
        (Some(Lexeme::Number(Literal::new(value))), len)
    }
}

/// The label between quotes of which the first stands before these bytes.
fn quoted(rest: &[u8]) -> Option<FoundLexeme>
    ensures { MatchOption result ((o : Option Lexeme) (n : ℕ) → Piece Quote (34 ∷ rest.now) o n → ⊥) (λ p. Piece Quote (34 ∷ rest.now) p.0 p.1) }
{
    let len = unquoted_len(rest);
    if len == rest.len() {
        return None;
    }
    let label = read_label(&rest[..len])?;
    Some((Some(Lexeme::Text(label)), len + 2))
}

/// The comment or sign with which a text begins.
fn other(text: &[u8]) -> Option<FoundLexeme>
    ensures { MatchOption result ((o : Option Lexeme) (n : ℕ) → Piece Other text.now o n → ⊥) (λ p. Piece Other text.now p.0 p.1) }
{
    if text.starts_with(b"//") {
        return Some((None, line_len(&text[2..]) + 2));
    }
    let sign = sign_at(text)?;
    Some((Some(Lexeme::Sign(sign)), sign_text(sign).len()))
}

/// How many bytes from the first on can stand in a name.
fn name_len(text: &[u8]) -> usize
    ensures { result ≡ prefix_len is_name_byte text.now }
{
    text.iter().take_while(|b| is_name_byte(**b)).count()
}

/// How many bytes from the first on are digits.
fn digits_len(text: &[u8]) -> usize
    ensures { result ≡ prefix_len is_ascii_digit text.now }
{
    text.iter().take_while(|b| b.is_ascii_digit()).count()
}

/// How many bytes stand before the end of the line.
fn line_len(text: &[u8]) -> usize
    ensures is { result ≡ prefix_len is_in_line text.now }
    ensures within { result ≤ length text.now }
{
    text.iter().take_while(|b| **b != b'\n').count()
}

/// How many bytes stand before a quote.
fn unquoted_len(text: &[u8]) -> usize
    ensures { result ≡ prefix_len is_unquoted text.now }
{
    text.iter().take_while(|b| **b != b'"').count()
}

/// Whether a byte is a blank.
pub(crate) fn is_blank(byte: u8) -> bool
    ensures { result ≡ is_blank byte }
{
    byte == b' ' || byte == b'\n' || byte == b'\r' || byte == b'\t'
}

/// Whether a byte can begin a name.
fn is_name_start(byte: u8) -> bool
    ensures { result ≡ is_name_start byte }
{
    byte.is_ascii_alphabetic() || byte == b'_' || byte == b'$'
}

/// Whether a byte can stand in a name, after the first.
fn is_name_byte(byte: u8) -> bool
    ensures { result ≡ is_name_byte byte }
{
    is_name_start(byte) || byte.is_ascii_digit() || byte == b'\''
}

/// The number that digits spell, unless it is above 2^127 - 1.
fn decimal(digits: &[u8]) -> Option<i128>
    requires { IsTrue (list_all is_ascii_digit digits.now) }
    ensures { MatchOption result (max_literal < digits_value 10 digits.now) (λ n. (n ≡ pos (digits_value 10 digits.now)) × (digits_value 10 digits.now ≤ max_literal)) }
{
    let mut value: u128 = 0;
    for digit in digits {
        value = value
            .checked_mul(10)?
            .checked_add(u128::from(*digit - b'0'))?;
    }
    i128::try_from(value).ok()
}
