// The tokens that are handed out.
ghost use Rattle.std.specs.Prelude.{◌≡◌, ◌≤◌, IfErr, IfOk, List, MatchResult, length, map};
ghost use Rattle.std.specs.List.{list_all};
ghost use Rattle.vb_base.specs.Limits.{max_boogie_bytes};
ghost use Rattle.vb_base.specs.Names.{is_name, is_name_byte, is_name_start};
ghost use Rattle.boogie_grammar.specs.declared.faults.BoogieFault.{BoogieFault};
ghost use Rattle.boogie_text.specs.declared.public_tokens.BToken as handed;
ghost use Rattle.boogie_text.specs.Answers.{UnlessMemory};
ghost use Rattle.boogie_text.specs.PublicTokens.{AreTokens, GivesTokenFault, GivesTokens, IsTokenFault, shown, shown_token, stands_for, token_of};
ghost use Rattle.boogie_text.specs.ReadSteps.{IsFront};

use crate::sign_bytes::sign_of;
use crate::texts::placed_tokens;
use boogie_grammar::BoogieFault;
use boogie_grammar::signs::sign_text;
use std::alloc::Global;
use vb_base::{Ident, Label, Literal, Memory, Pos};

/// What a token is, for those who read expressions by themselves.
#[derive(Drop)]
pub enum BTok {
    /// A name or a reserved word.
    Name(Ident),
    Number(i128),
    /// A real literal: the digits before its `.0`.
    RealNumber(i128),
    /// The text of a label between quotes.
    Text(Label),
    /// The bytes of a sign.
    Sign(Ident),
}

/// A token at its place.
#[derive(Drop)]
pub struct BToken {
    pub tok: BTok,
    pub pos: Pos,
}

/// The tokens after the prelude, or the first reason for which the bytes are refused.
///
/// These are tried in this order. `Prelude` comes exactly where they do not begin with the prelude, `Syntax` where there
/// is a byte behind it at which neither a token nor a blank begins, and `Deep` where too many brackets are unclosed at once.
/// `Memory` where there is no memory.
pub fn tokens_after(alloc: Global, bytes: &[u8]) -> Result<Vec<BToken>, BoogieFault>
    requires { length bytes.now ≤ max_boogie_bytes }
    ensures tokens { IfOk result (λ v. AreTokens bytes.now v.items) }
    ensures fault { IfErr result (UnlessMemory (IsTokenFault bytes.now)) }

    // and so no other tokens, and no other fault
    ensures only_tokens { (ts : List handed.BToken) → AreTokens bytes.now ts → GivesTokens ts result }
    ensures only_fault { (f : BoogieFault) → IsTokenFault bytes.now f → GivesTokenFault f result }
{
    text_tokens(alloc, bytes)
}

fn text_tokens(alloc: Global, bytes: &[u8]) -> Result<Vec<BToken>, BoogieFault>
    requires { length bytes.now ≤ max_boogie_bytes }
    ensures { MatchResult result (λ v. AreTokens bytes.now v.items) (UnlessMemory (IsTokenFault bytes.now)) }
{
    let tokens = placed_tokens(alloc, bytes)?;
    let all = all_shown(alloc, &tokens)?;
    Ok(all)
}

/// These tokens as they are handed out.
fn all_shown(alloc: Global, tokens: &[boogie_grammar::PlacedLexeme]) -> Result<Vec<BToken>, Memory>
    ensures { IfOk result (λ v. v.items ≡ map shown_token tokens.now) }
{
    let mut all = Vec::new(alloc);
    for token in tokens {
        let tok = shown(alloc, &token.tok)?;
        let pos = token.pos;
        all.push(BToken { tok, pos })?;
    }
    Ok(all)
}

/// A token as it is handed out.
fn shown(alloc: Global, tok: &boogie_grammar::Lexeme) -> Result<BTok, Memory>
    ensures { IfOk result (λ t. t ≡ shown tok.now) }
{
    match tok {
        boogie_grammar::Lexeme::Name(name) => Ok(BTok::Name(name.copy()?)),
        boogie_grammar::Lexeme::Number(n) => Ok(BTok::Number(n.value())),
        boogie_grammar::Lexeme::Real(n) => Ok(BTok::RealNumber(n.value())),
        boogie_grammar::Lexeme::Text(label) => Ok(BTok::Text(*label)),
        boogie_grammar::Lexeme::Sign(sign) => {
            Ok(BTok::Sign(Ident::new(alloc, sign_text(*sign))?))
        }
    }
}

/// The tokens that these stand for, up to the first that stands for none.
pub(crate) fn front(
    alloc: Global,
    tokens: &[BToken],
) -> Result<Vec<boogie_grammar::PlacedLexeme>, Memory>
    ensures { IfOk result (λ v. IsFront (map token_of tokens.now) v.items) }
{
    let mut all = Vec::new(alloc);
    for token in tokens {
        let Some(tok) = stands_for(&token.tok)? else {
            return Ok(all);
        };
        let pos = token.pos;
        all.push(boogie_grammar::PlacedLexeme { tok, pos })?;
    }
    Ok(all)
}

/// What a token stands for in the grammar, if it stands for a token of it.
fn stands_for(tok: &BTok) -> Result<Option<boogie_grammar::Lexeme>, Memory>
    ensures { IfOk result (λ o. o ≡ stands_for tok.now) }
{
    match tok {
        BTok::Name(name) => {
            if !is_name(name.bytes()) {
                return Ok(None);
            }
            let name = name.copy()?;
            Ok(Some(boogie_grammar::Lexeme::Name(name)))
        }
        BTok::Number(n) if *n < 0 => Ok(None),
        BTok::Number(n) => Ok(Some(boogie_grammar::Lexeme::Number(Literal::new(*n)))),
        BTok::RealNumber(n) if *n < 0 => Ok(None),
        BTok::RealNumber(n) => Ok(Some(boogie_grammar::Lexeme::Real(Literal::new(*n)))),
        BTok::Text(label) => Ok(Some(boogie_grammar::Lexeme::Text(*label))),
        BTok::Sign(sign) => match sign_of(sign.bytes()) {
            Some(sign) => Ok(Some(boogie_grammar::Lexeme::Sign(sign))),
            None => Ok(None),
        },
    }
}

/// Whether bytes have the form of a name.
fn is_name(bytes: &[u8]) -> bool
    ensures { result ≡ is_name bytes.now }
{
    match bytes.split_first() {
        Some((first, rest)) => is_name_start(*first) && are_name_bytes(rest),
        None => false,
    }
}

fn are_name_bytes(bytes: &[u8]) -> bool
    ensures { result ≡ list_all is_name_byte bytes.now }
{
    bytes.iter().all(|byte| is_name_byte(*byte))
}

/// A letter, `_` or `$`.
fn is_name_start(byte: u8) -> bool
    ensures { result ≡ is_name_start byte }
{
    byte.is_ascii_alphabetic() || byte == b'_' || byte == b'$'
}

/// Such a byte, a digit or `'`.
fn is_name_byte(byte: u8) -> bool
    ensures { result ≡ is_name_byte byte }
{
    is_name_start(byte) || byte.is_ascii_digit() || byte == b'\''
}
