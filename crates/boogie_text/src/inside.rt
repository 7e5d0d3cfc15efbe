// A procedure of a text part by part.
ghost use Rattle.std.specs.Prelude.{◌≡◌, [], false, IfOk, IfSome, IsTrue};
ghost use Rattle.boogie_tree.specs.Whole.{local_of, stmt_of};
ghost use Rattle.boogie_grammar.specs.declared.tokens.BSign.TheVariants as sign;
ghost use Rattle.boogie_grammar.specs.Greedy.{Parses, Starts};
ghost use Rattle.boogie_grammar.specs.Tests.{the_sign};
ghost use Rattle.boogie_grammar.specs.Words.{is_among};
ghost use Rattle.boogie_text.specs.Tail.{FindsInside, BeginsLocal, SpellsLocal, SpellsStatement, one_local, declaring};

use crate::stmts::statement;
use crate::types::type_of;
use boogie_grammar::eating::{BoogieRead, eat_sign, eat_word, need_sign};
use boogie_grammar::new_names::new_name;
use boogie_grammar::scopes::BoogieNames;
use boogie_grammar::{BSign, BoogieWord, NextPart, PlacedLexeme, next_part};
use boogie_tree::{BStmt, Local};
use grammar::Stop;
use std::alloc::Global;
use vb_base::Memory;

/// The declaration of a local with which a text begins, and the text after it, if its name is none of these. The list of
/// tokens is there to be used again.
pub fn next_local<'a>(
    alloc: Global,
    names: &BoogieNames,
    text: &'a [u8],
    tokens: &mut Vec<PlacedLexeme>,
) -> Result<Option<(Local, &'a [u8])>, Memory>
    ensures { IfOk result (λ o. IfSome o (λ r. BeginsLocal names.now text.now (local_of r.0) r.1.now)) }
{
    let NextPart::Tokens(rest, 1) = next_part(alloc, 1, Some(BoogieWord::Var), text, tokens)? else {
        return Ok(None);
    };
    match whole_local(alloc, names, tokens)? {
        Some(local) => Ok(Some((local, rest))),
        None => Ok(None),
    }
}

/// What stands next in a procedure, behind its locals.
#[derive(Drop)]
pub enum NextInside<'a> {
    /// A statement, and the text after it.
    Statement(BStmt, &'a [u8]),
    /// The `}` of the procedure, and the text after it.
    End(&'a [u8]),
    /// Neither, so far as one part of the text tells; `read` tells why.
    Unread,
}

/// What stands next in a procedure, behind locals of these names. The list of tokens is there to be used again.
pub fn next_statement<'a>(
    alloc: Global,
    locals: &BoogieNames,
    text: &'a [u8],
    tokens: &mut Vec<PlacedLexeme>,
) -> Result<NextInside<'a>, Memory>
    ensures { IfOk result (FindsInside locals.now text.now) }
{
    match next_part(alloc, 1, None, text, tokens)? {
        NextPart::Tokens(rest, 1) => match whole_statement(alloc, locals, tokens)? {
            Some(stmt) => Ok(NextInside::Statement(stmt, rest)),
            None => Ok(NextInside::Unread),
        },
        NextPart::Tokens(rest, 0) if is_end(tokens) => Ok(NextInside::End(rest)),
        _ => Ok(NextInside::Unread),
    }
}

/// The local that all of these tokens declare, if they declare one, whose name is none of these.
fn whole_local(
    alloc: Global,
    names: &BoogieNames,
    tokens: &[PlacedLexeme],
) -> Result<Option<Local>, Memory>
    ensures { IfOk result (λ o. IfSome o (λ l. SpellsLocal names.now tokens.now (local_of l))) }
{
    let Some(after) = eat_word(BoogieWord::Var, tokens) else {
        return Ok(None);
    };
    match declaration(alloc, names, after) {
        Ok((local, rest)) if rest.is_empty() => Ok(Some(local)),
        Err(Stop::Memory) => Err(Memory),
        _ => Ok(None),
    }
}

/// `name ":" btype ";"` after `var`, where the name is none of these.
fn declaration<'a>(
    alloc: Global,
    names: &BoogieNames,
    tokens: &'a [PlacedLexeme],
) -> BoogieRead<'a, Local>
    ensures new { IfOk result (λ r. is_among r.0.name names.now ≡ false) }
    ensures reads { Parses one_local (declaring names.now) tokens.now result }
{
    let (name, rest) = new_name(names, tokens)?;
    let (_, rest) = need_sign(BSign::Colon, rest)?;
    let (ty, rest) = type_of(alloc, rest)?;
    let (_, rest) = need_sign(BSign::Semicolon, rest)?;
    Ok((Local { name, ty }, rest))
}

/// The statement that all of these tokens spell, if they spell one, where locals have these names.
fn whole_statement(
    alloc: Global,
    locals: &BoogieNames,
    tokens: &[PlacedLexeme],
) -> Result<Option<BStmt>, Memory>
    ensures { IfOk result (λ o. IfSome o (λ a. SpellsStatement locals.now tokens.now (stmt_of a))) }
{
    match statement(alloc, locals, tokens) {
        Ok((stmt, rest)) if rest.is_empty() => Ok(Some(stmt)),
        Err(Stop::Memory) => Err(Memory),
        _ => Ok(None),
    }
}

/// Whether a `}` is the only token.
fn is_end(tokens: &[PlacedLexeme]) -> bool
    ensures { IsTrue result → Starts (the_sign sign.CloseBrace) tokens.now tt [] }
{
    match eat_sign(BSign::CloseBrace, tokens) {
        Some(rest) => rest.is_empty(),
        None => false,
    }
}
