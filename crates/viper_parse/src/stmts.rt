// Statements.
ghost use Rattle.std.specs.Prelude.{◌≡◌, ◌<◌, ◌≤◌, ◌∷◌, [], length, IfOk, map};
ghost use Rattle.viper_syntax.specs.Stmt as s;
ghost use Rattle.viper_syntax.specs.View.{stmt_of, block_of, arm_of, rhs_of, term_of, call_of, fold_of, amount_of, fold_amount_of, else_of};
ghost use Rattle.viper_grammar.specs.Grammar as g;
ghost use Rattle.viper_grammar.specs.Greedy.{Parses, Reads};
ghost use Rattle.viper_parse.specs.View.{arguments_of, names_of, stmts_in};

use crate::terms::{arguments, call, group, instance, term};
use std::alloc::{AllocFailed, Global};
use vb_base::{Pos, pushed};
use viper_grammar::build::assigned;
use viper_grammar::tokens::{ViperRead, eat_one_of, eat_sign, eat_word, name, one_of, sign};
use viper_grammar::{WordClass, WrittenInstance, WrittenTerm};
use viper_syntax::{
    Formal, Named, SArm, SBlock, SCall, SFold, SNew, SRhs, SStmt, Sign, Term, Token, Word,
};

/// `{ ";" }`
pub fn semicolons<'a>(tokens: &'a [Token]) -> &'a [Token]
    ensures shorter { length result.now ≤ length tokens.now }
    ensures reads { Reads _ (g.rule g.Semicolons) tokens.now tt result.now }
{
    let mut rest = tokens;
    while let Some((_, after)) = eat_sign(Sign::Semicolon, rest) {
        rest = after;
    }
    rest
}

/// `{ separator name }` after these names.
fn separated<'a>(
    separator: Sign,
    first: Vec<Named>,
    tokens: &'a [Token],
) -> ViperRead<'a, Vec<Named>>
    ensures shorter { IfOk result (λ r. length r.1.now ≤ length tokens.now) }
    ensures reads { Parses names_of (g.rule (g.Separated separator first.items)) tokens.now result }
{
    let mut names = first;
    let mut rest = tokens;
    while let Some((_, after)) = eat_sign(separator, rest) {
        let (named, after) = name(after)?;
        names = pushed(names, named)?;
        rest = after;
    }
    Ok((names, rest))
}

/// `{ separator name }` after this name.
fn names<'a>(
    alloc: Global,
    separator: Sign,
    first: Named,
    tokens: &'a [Token],
) -> ViperRead<'a, Vec<Named>>
    ensures shorter { IfOk result (λ r. length r.1.now ≤ length tokens.now) }
    ensures reads { Parses names_of (g.rule (g.Separated separator (first ∷ []))) tokens.now result }
{
    let one = pushed(Vec::new(alloc), first)?;
    separated(separator, one, tokens)
}

/// `name ":" type`
pub fn formal<'a>(tokens: &'a [Token]) -> ViperRead<'a, Formal>
    ensures shorter { IfOk result (λ r. length r.1.now < length tokens.now) }
    ensures reads { Parses (λ x. x) (g.rule g.FormalOf) tokens.now result }
{
    let (named, rest) = name(tokens)?;
    let (_, after) = sign(Sign::Colon, rest)?;
    let (ty, rest) = one_of(WordClass::Type, after)?;
    Ok((
        Formal {
            name: named,
            ty: ty.0,
        },
        rest,
    ))
}

/// `call | "new" "(" [ "*" | name { "," name } ] ")" | term`
fn rhs<'a>(alloc: Global, tokens: &'a [Token]) -> ViperRead<'a, SRhs>
    ensures shorter { IfOk result (λ r. length r.1.now < length tokens.now) }
    ensures reads { Parses rhs_of (g.rule g.Rhs) tokens.now result }
{
    if let Some((at, rest)) = eat_word(Word::New, tokens) {
        return creation(alloc, at, rest);
    }
    let (part, rest) = term(alloc, tokens)?;
    Ok((assigned(part), rest))
}

/// `"(" [ "*" | name { "," name } ] ")"` after `new`.
fn creation<'a>(alloc: Global, at: Pos, tokens: &'a [Token]) -> ViperRead<'a, SRhs>
    ensures shorter { IfOk result (λ r. length r.1.now < length tokens.now) }
    ensures reads { Parses rhs_of (g.rule (g.Creation at)) tokens.now result }
{
    let (_, rest) = sign(Sign::OpenParen, tokens)?;
    if let Some((_, closed)) = eat_sign(Sign::CloseParen, rest) {
        return Ok((created(at, false, Vec::new(alloc)), closed));
    }
    if let Some((_, starred)) = eat_sign(Sign::Star, rest) {
        let (_, closed) = sign(Sign::CloseParen, starred)?;
        return Ok((created(at, true, Vec::new(alloc)), closed));
    }
    new_fields(alloc, at, rest)
}

/// `name { "," name } ")"`
fn new_fields<'a>(alloc: Global, at: Pos, tokens: &'a [Token]) -> ViperRead<'a, SRhs>
    ensures shorter { IfOk result (λ r. length r.1.now < length tokens.now) }
    ensures reads { Parses rhs_of (g.new_fields at) tokens.now result }
{
    let (named, rest) = name(tokens)?;
    let (fields, after) = names(alloc, Sign::Comma, named, rest)?;
    let (_, closed) = sign(Sign::CloseParen, after)?;
    Ok((created(at, false, fields), closed))
}

fn created(at: Pos, every: bool, fields: Vec<Named>) -> SRhs
    ensures { rhs_of result ≡ s.NewRhs (record { at = at; every = every; fields = fields.items }) }
{
    SRhs::New(SNew { at, every, fields })
}

/// `name ":" type [ ":=" rhs ]` after `var`.
fn variable<'a>(alloc: Global, at: Pos, tokens: &'a [Token]) -> ViperRead<'a, SStmt>
    ensures shorter { IfOk result (λ r. length r.1.now < length tokens.now) }
    ensures reads { Parses stmt_of (g.rule (g.Variable at)) tokens.now result }
{
    let (declared, rest) = formal(tokens)?;
    let Some((_, after)) = eat_sign(Sign::Assign, rest) else {
        return Ok((SStmt::Var(at, declared, None), rest));
    };
    let (value, rest) = rhs(alloc, after)?;
    Ok((SStmt::Var(at, declared, Some(value)), rest))
}

/// A statement that begins with a name: a call, an assignment, or a call with several targets.
fn after_name<'a>(alloc: Global, named: Named, tokens: &'a [Token]) -> ViperRead<'a, SStmt>
    ensures shorter { IfOk result (λ r. length r.1.now < length tokens.now) }
    ensures reads { Parses stmt_of (g.rule (g.AfterName named)) tokens.now result }
{
    if let Some((_, rest)) = eat_sign(Sign::OpenParen, tokens) {
        let (args, rest) = arguments(alloc, rest)?;
        return Ok((SStmt::Call(SCall { name: named, args }), rest));
    }
    if let Some((_, rest)) = eat_sign(Sign::Comma, tokens) {
        return targets(alloc, named, rest);
    }
    let (path, rest) = names(alloc, Sign::Dot, named, tokens)?;
    let (_, after) = sign(Sign::Assign, rest)?;
    let (value, rest) = rhs(alloc, after)?;
    Ok((SStmt::Assign(path, value), rest))
}

fn pair(alloc: Global, first: Named, second: Named) -> Result<Vec<Named>, AllocFailed<Named>>
    ensures { IfOk result (λ v. v.items ≡ first ∷ second ∷ []) }
{
    let one = pushed(Vec::new(alloc), first)?;
    pushed(one, second)
}

/// `name { "," name } ":=" call` after a first target and a comma.
fn targets<'a>(alloc: Global, first: Named, tokens: &'a [Token]) -> ViperRead<'a, SStmt>
    ensures shorter { IfOk result (λ r. length r.1.now < length tokens.now) }
    ensures reads { Parses stmt_of (g.targets first) tokens.now result }
{
    let (second, rest) = name(tokens)?;
    let two = pair(alloc, first, second)?;
    let (all, after) = separated(Sign::Comma, two, rest)?;
    let (_, after) = sign(Sign::Assign, after)?;
    let (called, rest) = call(alloc, after)?;
    Ok((SStmt::CallTo(all, called), rest))
}

/// A statement.
#[cycle(stmts)]
fn statement<'a>(alloc: Global, tokens: &'a [Token]) -> ViperRead<'a, SStmt>
    ensures shorter { IfOk result (λ r. length r.1.now < length tokens.now) }
    ensures reads { Parses stmt_of (g.rule g.Statement) tokens.now result }
{
    if let Some((at, rest)) = eat_word(Word::Var, tokens) {
        return variable(alloc, at, rest);
    }
    if let Some((check, rest)) = eat_one_of(WordClass::Check, tokens) {
        let (part, rest) = term(alloc, rest)?;
        return Ok((
            SStmt::Check(check.0, check.1, Box::into_inner(part.term)),
            rest,
        ));
    }
    if let Some((at, rest)) = eat_word(Word::Fold, tokens) {
        let (held, rest) = instance(alloc, rest)?;
        return Ok((SStmt::Fold(fold(at, held)), rest));
    }
    if let Some((at, rest)) = eat_word(Word::Unfold, tokens) {
        let (held, rest) = instance(alloc, rest)?;
        return Ok((SStmt::Unfold(fold(at, held)), rest));
    }
    if let Some((at, rest)) = eat_word(Word::If, tokens) {
        return branches(alloc, at, rest);
    }
    if let Some((at, rest)) = eat_word(Word::While, tokens) {
        return while_loop(alloc, at, rest);
    }
    let (named, rest) = name(tokens)?;
    after_name(alloc, named, rest)
}

/// What a `fold` or `unfold` holds.
fn fold(at: Pos, held: WrittenInstance) -> SFold
    ensures { fold_of result ≡ record { at = at; call = call_of held.call; amount = amount_of held.amount } }
{
    SFold {
        at,
        call: held.call,
        amount: unboxed(held.amount),
    }
}

fn unboxed(amount: Option<Box<Term>>) -> Option<Term>
    ensures { fold_amount_of result ≡ amount_of amount }
{
    match amount {
        Some(term) => Some(Box::into_inner(term)),
        None => None,
    }
}

/// `"(" term ")" block` after `if` or `elseif`.
#[cycle(stmts)]
fn arm<'a>(alloc: Global, at: Pos, tokens: &'a [Token]) -> ViperRead<'a, SArm>
    ensures shorter { IfOk result (λ r. length r.1.now < length tokens.now) }
    ensures reads { Parses arm_of (g.rule (g.Arm at)) tokens.now result }
{
    let (condition, rest) = group(alloc, tokens)?;
    let (body, rest) = block(alloc, rest)?;
    Ok((
        SArm {
            at,
            condition: Box::into_inner(condition.term),
            block: body,
        },
        rest,
    ))
}

/// What follows `if`.
#[cycle(stmts)]
fn branches<'a>(alloc: Global, at: Pos, tokens: &'a [Token]) -> ViperRead<'a, SStmt>
    ensures shorter { IfOk result (λ r. length r.1.now < length tokens.now) }
    ensures reads { Parses stmt_of (g.branches at) tokens.now result }
{
    let (first, mut rest) = arm(alloc, at, tokens)?;
    let mut all = pushed(Vec::new(alloc), first)?;
    while let Some((place, after)) = eat_word(Word::Elseif, rest) {
        let (next, after) = arm(alloc, place, after)?;
        all = pushed(all, next)?;
        rest = after;
    }
    let Some((_, after)) = eat_word(Word::Else, rest) else {
        return Ok((conditional(all, None), rest));
    };
    let (last, rest) = block(alloc, after)?;
    Ok((conditional(all, Some(last)), rest))
}

fn conditional(all: Vec<SArm>, last: Option<SBlock>) -> SStmt
    ensures { stmt_of result ≡ s.If (s.arms (map arm_of all.items)) (else_of last) }
{
    SStmt::If(all, last)
}

/// What follows `while`.
#[cycle(stmts)]
fn while_loop<'a>(alloc: Global, at: Pos, tokens: &'a [Token]) -> ViperRead<'a, SStmt>
    ensures shorter { IfOk result (λ r. length r.1.now < length tokens.now) }
    ensures reads { Parses stmt_of (g.rule (g.WhileLoop at)) tokens.now result }
{
    let (condition, rest) = group(alloc, tokens)?;
    let (conditions, rest) = invariants(alloc, rest)?;
    let (body, rest) = block(alloc, rest)?;
    Ok((iteration(at, condition, conditions, body), rest))
}

fn iteration(at: Pos, condition: WrittenTerm, conditions: Vec<Term>, body: SBlock) -> SStmt
    ensures { stmt_of result ≡ s.While at (term_of condition.term.value) (map term_of conditions.items) (block_of body) }
{
    SStmt::While(at, Box::into_inner(condition.term), conditions, body)
}

/// `{ "invariant" term {";"} }`
fn invariants<'a>(alloc: Global, tokens: &'a [Token]) -> ViperRead<'a, Vec<Term>>
    ensures shorter { IfOk result (λ r. length r.1.now ≤ length tokens.now) }
    ensures reads { Parses arguments_of (g.rule (g.Invariants [])) tokens.now result }
{
    let mut all = Vec::new(alloc);
    let mut rest = tokens;
    while let Some((_, after)) = eat_word(Word::Invariant, rest) {
        let (part, after) = term(alloc, after)?;
        let after = semicolons(after);
        all = pushed(all, Box::into_inner(part.term))?;
        rest = after;
    }
    Ok((all, rest))
}

/// A block.
#[cycle(stmts)]
fn block<'a>(alloc: Global, tokens: &'a [Token]) -> ViperRead<'a, SBlock>
    ensures shorter { IfOk result (λ r. length r.1.now < length tokens.now) }
    ensures reads { Parses block_of (g.rule g.Block) tokens.now result }
{
    let (at, rest) = sign(Sign::OpenBrace, tokens)?;
    let (stmts, rest) = statements(alloc, rest)?;
    Ok((braced(at, stmts), rest))
}

/// A block with its statements.
pub fn braced(at: Pos, stmts: Vec<SStmt>) -> SBlock
    ensures { block_of result ≡ s.block at (s.stmts (map stmt_of stmts.items)) }
{
    SBlock { at, stmts }
}

/// `{ stmt {";"} } "}"`
#[cycle(stmts)]
pub fn statements<'a>(alloc: Global, tokens: &'a [Token]) -> ViperRead<'a, Vec<SStmt>>
    ensures shorter { IfOk result (λ r. length r.1.now < length tokens.now) }
    ensures reads { Parses stmts_in (g.rule (g.Statements [])) tokens.now result }
{
    let mut all = Vec::new(alloc);
    let mut rest = tokens;
    'each: loop {
        if let Some((_, after)) = eat_sign(Sign::CloseBrace, rest) {
            return Ok((all, after));
        }
        let (next, after) = statement(alloc, rest)?;
        all = pushed(all, next)?;
        rest = semicolons(after);
    }
}
