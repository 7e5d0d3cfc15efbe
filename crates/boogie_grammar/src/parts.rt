// The tokens of a text part by part.
ghost use Rattle.std.specs.Prelude.{◌≤◌, IfOk};
ghost use Rattle.vb_base.specs.Limits.{max_unclosed_brackets};
ghost use Rattle.boogie_grammar.specs.Parts.{IsNextPart};

use crate::depth::unclosed_with;
use crate::eating::word_text;
use crate::pieces::{is_blank, piece};
use crate::{BSign, BoogieWord, Lexeme, PlacedLexeme};
use std::alloc::Global;
use vb_base::limits::MAX_UNCLOSED_BRACKETS;
use vb_base::{Memory, Pos, same_bytes};

/// What a text continues with.
#[derive(Clone, Copy)]
pub enum NextPart<'a> {
    /// Blanks alone, up to its end.
    End,
    /// A part, with the text after it and how many brackets are unclosed there.
    Tokens(&'a [u8], usize),
    /// Neither, or more than `MAX_UNCLOSED_BRACKETS` unclosed brackets.
    Unread,
}

/// The next part of a text before which so many brackets are unclosed: the head of a procedure, a declaration, a statement
/// with all that is in it, or a `}`. Its tokens take the place of those in the list, all at the place 1:1. Where a first word
/// is asked for, a part that begins otherwise is not read.
pub fn next_part<'a>(
    alloc: Global,
    before: usize,
    first: Option<BoogieWord>,
    text: &'a [u8],
    tokens: &mut Vec<PlacedLexeme>,
) -> Result<NextPart<'a>, Memory>
    requires { before ≤ max_unclosed_brackets }
    ensures { IfOk result (IsNextPart before text.now tokens.new.items) }
{
    tokens.clear();
    let mut count = before;
    let mut last = Last::Itself;
    let mut rest = text;
    while !rest.is_empty() {
        // A piece too, but most pieces are blanks, and what `piece` answers takes time to move.
        if is_blank(rest[0]) {
            let (_, behind) = rest.split_at(1);
            rest = behind;
            continue;
        }
        let Some((found, len)) = piece(alloc, rest)? else {
            return Ok(NextPart::Unread);
        };
        let (_, after) = rest.split_at(len);
        rest = after;
        let Some(tok) = found else {
            continue;
        };
        if tokens.is_empty() {
            if !may_begin(first, &tok) {
                return Ok(NextPart::Unread);
            }
            last = last_behind(&tok);
        }
        count = unclosed_with(count, &tok);
        if count > MAX_UNCLOSED_BRACKETS {
            return Ok(NextPart::Unread);
        }
        let ends = is_last(alloc, last, count <= before, &tok, rest)?;
        // With room for it, the token is made where it stays, and is not moved there.
        tokens.reserve(1)?;
        tokens.push_reserved(PlacedLexeme { tok, pos: START });
        if ends {
            return Ok(NextPart::Tokens(rest, count));
        }
    }
    if tokens.is_empty() {
        Ok(NextPart::End)
    } else {
        Ok(NextPart::Unread)
    }
}

/// Where all tokens of a part stand.
const START: Pos = Pos { line: 1, col: 1 };

/// The last token of a part. Any would do: what a part is worth is that it is short and can be read for itself.
#[derive(Clone, Copy)]
enum Last {
    /// The first one.
    Itself,
    /// The first `{`.
    OpenBrace,
    /// The first `;`.
    Semicolon,
    /// The first `}` that closes what the part opened, and behind which no `else` stands.
    CloseBrace,
}

/// Whether a token is the word that is asked for, if one is.
fn may_begin(first: Option<BoogieWord>, tok: &Lexeme) -> bool {
    match (first, tok) {
        (None, _) => true,
        (Some(word), Lexeme::Name(name)) => same_bytes(name.bytes(), word_text(word)),
        _ => false,
    }
}

/// The last token of a part that begins with this one.
fn last_behind(first: &Lexeme) -> Last {
    match first {
        Lexeme::Sign(BSign::CloseBrace) => Last::Itself,
        Lexeme::Name(name) if same_bytes(name.bytes(), b"procedure") => Last::OpenBrace,
        Lexeme::Name(name) if same_bytes(name.bytes(), b"if") => Last::CloseBrace,
        _ => Last::Semicolon,
    }
}

/// Whether a token before these bytes is the last one of its part; `closed` tells whether all that the part opened is closed.
fn is_last(
    alloc: Global,
    last: Last,
    closed: bool,
    tok: &Lexeme,
    rest: &[u8],
) -> Result<bool, Memory> {
    match (last, tok) {
        (Last::Itself, _) => Ok(true),
        (Last::OpenBrace, Lexeme::Sign(BSign::OpenBrace)) => Ok(true),
        (Last::Semicolon, Lexeme::Sign(BSign::Semicolon)) => Ok(true),
        (Last::CloseBrace, Lexeme::Sign(BSign::CloseBrace)) if closed => {
            Ok(!begins_with_else(alloc, rest)?)
        }
        _ => Ok(false),
    }
}

/// Whether the first token of a text is the word `else`.
fn begins_with_else(alloc: Global, text: &[u8]) -> Result<bool, Memory> {
    let mut rest = text;
    while let Some((found, len)) = piece(alloc, rest)? {
        if let Some(tok) = found {
            return Ok(matches!(tok, Lexeme::Name(name) if same_bytes(name.bytes(), b"else")));
        }
        let (_, after) = rest.split_at(len);
        rest = after;
    }
    Ok(false)
}
