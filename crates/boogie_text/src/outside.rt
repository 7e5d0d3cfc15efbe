// The procedures of a text one by one: the head of each.
ghost use Rattle.std.specs.Prelude.{◌≡◌, false, IfOk, IfSome};
ghost use Rattle.boogie_grammar.specs.Greedy.{Parses};
ghost use Rattle.boogie_grammar.specs.Words.{is_among};
ghost use Rattle.boogie_text.specs.Tail.{FindsOutside, SpellsHead, heading};

use boogie_grammar::eating::{BoogieRead, eat_word, need_sign};
use boogie_grammar::new_names::new_name;
use boogie_grammar::scopes::BoogieNames;
use boogie_grammar::{BSign, BoogieWord, NextPart, PlacedLexeme, next_part};
use grammar::Stop;
use std::alloc::Global;
use vb_base::{Ident, Memory};

/// What stands next in a text, behind some procedures.
#[derive(Drop)]
pub enum Outside<'a> {
    /// No procedure more: the text ends.
    End,
    /// The head of a procedure of this name, with its `{`, and the text after it.
    Procedure(Ident, &'a [u8]),
    /// Neither, so far as one part of the text tells; `read` tells why.
    Unread,
}

/// What stands next in a text, behind procedures of these names. The list of tokens is there to be used again.
pub fn next_outside<'a>(
    alloc: Global,
    taken: &BoogieNames,
    text: &'a [u8],
    tokens: &mut Vec<PlacedLexeme>,
) -> Result<Outside<'a>, Memory>
    ensures { IfOk result (FindsOutside taken.now text.now) }
{
    match next_part(alloc, 0, None, text, tokens)? {
        NextPart::End => Ok(Outside::End),
        NextPart::Tokens(rest, 1) => match whole_head(taken, tokens)? {
            Some(name) => Ok(Outside::Procedure(name, rest)),
            None => Ok(Outside::Unread),
        },
        _ => Ok(Outside::Unread),
    }
}

/// The name in the head of a procedure that all of these tokens spell, if they spell one.
fn whole_head(taken: &BoogieNames, tokens: &[PlacedLexeme]) -> Result<Option<Ident>, Memory>
    ensures { IfOk result (λ o. IfSome o (λ name. SpellsHead taken.now tokens.now name)) }
{
    let Some(after) = eat_word(BoogieWord::Procedure, tokens) else {
        return Ok(None);
    };
    match head(taken, after) {
        Ok((name, rest)) if rest.is_empty() => Ok(Some(name)),
        Err(Stop::Memory) => Err(Memory),
        _ => Ok(None),
    }
}

/// `name "(" ")" "{"` after `procedure`, where the name is none of these.
fn head<'a>(taken: &BoogieNames, tokens: &'a [PlacedLexeme]) -> BoogieRead<'a, Ident>
    ensures new { IfOk result (λ r. is_among r.0 taken.now ≡ false) }
    ensures reads { Parses (λ x. x) (heading taken.now) tokens.now result }
{
    let (name, rest) = new_name(taken, tokens)?;
    let (_, rest) = need_sign(BSign::OpenParen, rest)?;
    let (_, rest) = need_sign(BSign::CloseParen, rest)?;
    let (_, rest) = need_sign(BSign::OpenBrace, rest)?;
    Ok((name, rest))
}
