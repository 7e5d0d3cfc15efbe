// Declarations, and the program.
ghost use Rattle.std.specs.Prelude.{◌<◌, ◌≤◌, [], length, IfOk, IfSome};
ghost use Rattle.viper_syntax.specs.View.{decl_of};
ghost use Rattle.viper_grammar.specs.Grammar as g;
ghost use Rattle.viper_grammar.specs.Greedy.{Parses};
ghost use Rattle.viper_parse.specs.View.{formals_of, clauses_of, body_of};
ghost use Rattle.viper_parse.specs.Header.{Heads};
ghost use Rattle.viper_parse.specs.Whole.{Declares, ReadsWhole};

use crate::stmts::{braced, formal, semicolons, statements};
use crate::terms::term;
use grammar::Stop;
use std::alloc::Global;
use vb_base::{Pos, pushed};
use viper_grammar::WordClass;
use viper_grammar::tokens::{ViperRead, eat_one_of, eat_sign, eat_word, name, sign};
use viper_syntax::{Decl, Formal, Named, SBlock, SClause, SMethod, Sign, Token, Word};

/// `[ formal { "," formal } ] ")"`
fn formals<'a>(alloc: Global, tokens: &'a [Token]) -> ViperRead<'a, Vec<Formal>>
    ensures shorter { IfOk result (λ r. length r.1.now < length tokens.now) }
    ensures reads { Parses formals_of (g.rule g.Formals) tokens.now result }
{
    if let Some((_, rest)) = eat_sign(Sign::CloseParen, tokens) {
        let none = Vec::new(alloc);
        return Ok((none, rest));
    }
    let (first, mut rest) = formal(tokens)?;
    let mut all = pushed(Vec::new(alloc), first)?;
    while let Some((_, after)) = eat_sign(Sign::Comma, rest) {
        let (next, after) = formal(after)?;
        all = pushed(all, next)?;
        rest = after;
    }
    let (_, after) = sign(Sign::CloseParen, rest)?;
    Ok((all, after))
}

/// `[ "returns" "(" [formals] ")" ]`
fn returns<'a>(alloc: Global, tokens: &'a [Token]) -> ViperRead<'a, Vec<Formal>>
    ensures shorter { IfOk result (λ r. length r.1.now ≤ length tokens.now) }
    ensures reads { Parses formals_of (g.rule g.Returns) tokens.now result }
{
    let Some((_, rest)) = eat_word(Word::Returns, tokens) else {
        let none = Vec::new(alloc);
        return Ok((none, tokens));
    };
    let (_, rest) = sign(Sign::OpenParen, rest)?;
    formals(alloc, rest)
}

/// `{ ("requires" | "ensures") term {";"} }`
fn clauses<'a>(alloc: Global, tokens: &'a [Token]) -> ViperRead<'a, Vec<SClause>>
    ensures shorter { IfOk result (λ r. length r.1.now ≤ length tokens.now) }
    ensures reads { Parses clauses_of (g.rule (g.Clauses [])) tokens.now result }
{
    let mut all = Vec::new(alloc);
    let mut rest = tokens;
    while let Some((word, after)) = eat_one_of(WordClass::Clause, rest) {
        let (part, after) = term(alloc, after)?;
        let after = semicolons(after);
        all = pushed(
            all,
            SClause {
                word: word.0,
                term: Box::into_inner(part.term),
            },
        )?;
        rest = after;
    }
    Ok((all, rest))
}

/// `[ block ]`
fn body<'a>(alloc: Global, tokens: &'a [Token]) -> ViperRead<'a, Option<SBlock>>
    ensures shorter { IfOk result (λ r. length r.1.now ≤ length tokens.now) }
    ensures reads { Parses body_of (g.rule g.Body) tokens.now result }
{
    let Some((at, rest)) = eat_sign(Sign::OpenBrace, tokens) else {
        return Ok((None, tokens));
    };
    let (stmts, rest) = statements(alloc, rest)?;
    Ok((Some(braced(at, stmts)), rest))
}

/// `name "(" [ formal { "," formal } ] ")"`
fn header<'a>(alloc: Global, tokens: &'a [Token]) -> ViperRead<'a, (Named, Vec<Formal>)>
    ensures shorter { IfOk result (λ r. length r.1.now < length tokens.now) }
    ensures reads { Heads tokens.now result }
{
    let (named, rest) = name(tokens)?;
    let (_, after) = sign(Sign::OpenParen, rest)?;
    let (params, rest) = formals(alloc, after)?;
    Ok(((named, params), rest))
}

/// What follows `predicate`.
fn predicate<'a>(alloc: Global, at: Pos, tokens: &'a [Token]) -> ViperRead<'a, Decl>
    ensures shorter { IfOk result (λ r. length r.1.now < length tokens.now) }
    ensures reads { Parses decl_of (g.rule (g.Predicate at)) tokens.now result }
{
    let ((named, params), rest) = header(alloc, tokens)?;
    let Some((_, inside)) = eat_sign(Sign::OpenBrace, rest) else {
        return Ok((Decl::Predicate(at, named, params, None), rest));
    };
    let (part, after) = term(alloc, inside)?;
    let (_, rest) = sign(Sign::CloseBrace, after)?;
    Ok((
        Decl::Predicate(at, named, params, Some(Box::into_inner(part.term))),
        rest,
    ))
}

/// What follows `method`.
fn method<'a>(alloc: Global, at: Pos, tokens: &'a [Token]) -> ViperRead<'a, Decl>
    ensures shorter { IfOk result (λ r. length r.1.now < length tokens.now) }
    ensures reads { Parses decl_of (g.rule (g.Method at)) tokens.now result }
{
    let ((named, params), rest) = header(alloc, tokens)?;
    let (results, rest) = returns(alloc, rest)?;
    let (conditions, rest) = clauses(alloc, rest)?;
    let (block, rest) = body(alloc, rest)?;
    let whole = SMethod {
        at,
        name: named,
        params,
        returns: results,
        clauses: conditions,
        body: block,
    };
    Ok((Decl::Method(whole), rest))
}

/// The next declaration, if one is next, and the tokens after it.
fn declaration<'a>(
    alloc: Global,
    tokens: &'a [Token],
) -> Result<Option<(Decl, &'a [Token])>, Stop<'a, Token>>
    ensures shorter { IfOk result (λ r. IfSome r (λ p. length p.1.now < length tokens.now)) }
    ensures reads { Declares tokens.now result }
{
    if let Some((_, after)) = eat_word(Word::Field, tokens) {
        let (declared, after) = formal(after)?;
        let rest = semicolons(after);
        return Ok(Some((Decl::Field(declared), rest)));
    }
    if let Some((at, after)) = eat_word(Word::Predicate, tokens) {
        return Ok(Some(predicate(alloc, at, after)?));
    }
    if let Some((at, after)) = eat_word(Word::Method, tokens) {
        return Ok(Some(method(alloc, at, after)?));
    }
    Ok(None)
}

/// The declarations of a program, up to the end of the tokens.
pub fn declarations<'a>(alloc: Global, tokens: &'a [Token]) -> Result<Vec<Decl>, Stop<'a, Token>>
    ensures { ReadsWhole tokens.now result }
{
    let mut all = Vec::new(alloc);
    let mut rest = tokens;
    while let Some((next, after)) = declaration(alloc, rest)? {
        all = pushed(all, next)?;
        rest = after;
    }
    if !rest.is_empty() {
        return Err(Stop::Before(rest));
    }
    Ok(all)
}
