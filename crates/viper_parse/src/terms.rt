// Terms.
ghost use Rattle.std.specs.Prelude.{◌≡◌, ◌<◌, ◌≤◌, length, false, IfOk, IfSome, MatchOption};
ghost use Rattle.viper_syntax.specs.View.{amount_of, call_of};
ghost use Rattle.viper_grammar.specs.Grammar as g;
ghost use Rattle.viper_grammar.specs.Grammar.{Starts};
ghost use Rattle.viper_grammar.specs.Greedy.{Parses, Reads};
ghost use Rattle.viper_grammar.specs.Tests.{an_operator};
ghost use Rattle.viper_grammar.specs.View.{part_of, instance_of};
ghost use Rattle.viper_parse.specs.View.{arguments_of};

use std::alloc::Global;
use vb_base::{Pos, pushed};
use viper_grammar::build::{
    accessed, applied, binary, called, chosen, constant, field, number, old, unfolding, variable,
};
use viper_grammar::tokens::{
    ViperRead, eat_name, eat_negation, eat_number, eat_one_of, eat_operator, eat_sign, eat_word,
    name, sign, word,
};
use viper_grammar::{Shape, WordClass, WrittenInstance, WrittenTerm, repeats, right_level};
use viper_syntax::{Named, SCall, Sign, Term, Token, Word};

/// A term.
#[cycle(terms)]
pub fn term<'a>(alloc: Global, tokens: &'a [Token]) -> ViperRead<'a, WrittenTerm>
    ensures shorter { IfOk result (λ r. length r.1.now < length tokens.now) }
    ensures reads { Parses part_of (g.rule g.Term) tokens.now result }
{
    let (part, rest) = level(alloc, 8, tokens)?;
    choice(alloc, part, rest)
}

/// `[ "?" term ":" term ]` after a term of the loosest level.
#[cycle(terms)]
fn choice<'a>(
    alloc: Global,
    condition: WrittenTerm,
    tokens: &'a [Token],
) -> ViperRead<'a, WrittenTerm>
    ensures shorter { IfOk result (λ r. length r.1.now ≤ length tokens.now) }
    ensures reads { Parses part_of (g.choice (part_of condition)) tokens.now result }
{
    if condition.is_open() {
        return Ok((condition, tokens));
    }
    let Some((at, rest)) = eat_sign(Sign::Question, tokens) else {
        return Ok((condition, tokens));
    };
    let (first, rest) = term(alloc, rest)?;
    let (_, after) = sign(Sign::Colon, rest)?;
    let (second, rest) = term(alloc, after)?;
    let whole = chosen(alloc, condition, first, second, at)?;
    Ok((whole, rest))
}

/// A term of the levels up to n.
#[cycle(terms)]
fn level<'a>(alloc: Global, n: u32, tokens: &'a [Token]) -> ViperRead<'a, WrittenTerm>
    ensures shorter { IfOk result (λ r. length r.1.now < length tokens.now) }
    ensures reads { Parses part_of (g.rule (g.Level n)) tokens.now result }
{
    let (mut part, mut rest) = unary(alloc, tokens)?;
    for m in 0..n {
        let (longer, after) = chain(alloc, m + 1, part, rest)?;
        part = longer;
        rest = after;
    }
    Ok((part, rest))
}

/// What continues a term by operators of level n.
#[cycle(terms)]
fn chain<'a>(
    alloc: Global,
    n: u32,
    first: WrittenTerm,
    tokens: &'a [Token],
) -> ViperRead<'a, WrittenTerm>
    ensures shorter { IfOk result (λ r. length r.1.now ≤ length tokens.now) }
    ensures reads { Parses part_of (g.rule (g.Chain n (part_of first))) tokens.now result }
{
    let mut part = first;
    let mut rest = tokens;
    while let Some((operator, after)) = operator(n, &part, rest) {
        let (right, after) = level(alloc, right_level(n), after)?;
        part = binary(alloc, operator, part, right)?;
        rest = after;
        if !repeats(n) {
            return Ok((part, rest));
        }
    }
    Ok((part, rest))
}

/// The next operator, if it is of level n and may continue this term.
fn operator<'a>(
    n: u32,
    part: &WrittenTerm,
    tokens: &'a [Token],
) -> Option<((Sign, Pos), &'a [Token])>
    ensures shorter { IfSome result (λ p. length p.1.now < length tokens.now) }
    ensures goes_on { MatchOption result
        (Reads _ (g.rule (g.Chain n (part_of part.now))) tokens.now (part_of part.now) tokens.now)
        (λ p. (g.is_open part.now.shape ≡ false) × Starts (an_operator n) tokens.now p.0 p.1.now) }
{
    if part.is_open() {
        return None;
    }
    eat_operator(n, tokens)
}

/// `!a`, `-a`, an `unfolding`, or a first with its fields.
#[cycle(terms)]
fn unary<'a>(alloc: Global, tokens: &'a [Token]) -> ViperRead<'a, WrittenTerm>
    ensures shorter { IfOk result (λ r. length r.1.now < length tokens.now) }
    ensures reads { Parses part_of (g.rule g.Unary) tokens.now result }
{
    if let Some((operator, rest)) = eat_negation(tokens) {
        let (operand, rest) = unary(alloc, rest)?;
        let whole = applied(alloc, operator, operand)?;
        return Ok((whole, rest));
    }
    if let Some((at, rest)) = eat_word(Word::Unfolding, tokens) {
        return opening(alloc, at, rest);
    }
    let (part, rest) = first(alloc, tokens)?;
    fields(alloc, part, rest)
}

/// What follows an `unfolding`.
#[cycle(terms)]
fn opening<'a>(alloc: Global, at: Pos, tokens: &'a [Token]) -> ViperRead<'a, WrittenTerm>
    ensures shorter { IfOk result (λ r. length r.1.now < length tokens.now) }
    ensures reads { Parses part_of (g.opening at) tokens.now result }
{
    let (opened, rest) = instance(alloc, tokens)?;
    let (_, after) = word(Word::In, rest)?;
    let (inner, rest) = term(alloc, after)?;
    let whole = unfolding(alloc, opened, inner, at)?;
    Ok((whole, rest))
}

/// `{ "." name }` after a term.
fn fields<'a>(alloc: Global, first: WrittenTerm, tokens: &'a [Token]) -> ViperRead<'a, WrittenTerm>
    ensures shorter { IfOk result (λ r. length r.1.now ≤ length tokens.now) }
    ensures reads { Parses part_of (g.rule (g.Fields (part_of first))) tokens.now result }
{
    let mut part = first;
    let mut rest = tokens;
    while let Some((_, after)) = eat_sign(Sign::Dot, rest) {
        let (named, after) = name(after)?;
        part = field(alloc, part, named)?;
        rest = after;
    }
    Ok((part, rest))
}

/// A name, a call, a number, a constant, `old`, `acc`, or a term in parentheses.
#[cycle(terms)]
fn first<'a>(alloc: Global, tokens: &'a [Token]) -> ViperRead<'a, WrittenTerm>
    ensures shorter { IfOk result (λ r. length r.1.now < length tokens.now) }
    ensures reads { Parses part_of (g.rule g.First) tokens.now result }
{
    if let Some((named, rest)) = eat_name(tokens)? {
        return name_or_call(alloc, named, rest);
    }
    if let Some(((value, at), rest)) = eat_number(tokens) {
        let part = number(alloc, value, at)?;
        return Ok((part, rest));
    }
    if let Some((word, rest)) = eat_one_of(WordClass::Constant, tokens) {
        let part = constant(alloc, word)?;
        return Ok((part, rest));
    }
    if let Some((at, rest)) = eat_word(Word::Old, tokens) {
        let (inner, rest) = group(alloc, rest)?;
        let part = old(alloc, inner, at)?;
        return Ok((part, rest));
    }
    if let Some((at, rest)) = eat_word(Word::Acc, tokens) {
        return access(alloc, at, rest);
    }
    let (inner, rest) = group(alloc, tokens)?;
    let part = WrittenTerm {
        shape: Shape::Plain,
        term: inner.term,
    };
    Ok((part, rest))
}

/// `[ "(" [ term { "," term } ] ")" ]` after a name.
#[cycle(terms)]
fn name_or_call<'a>(alloc: Global, named: Named, tokens: &'a [Token]) -> ViperRead<'a, WrittenTerm>
    ensures shorter { IfOk result (λ r. length r.1.now ≤ length tokens.now) }
    ensures reads { Parses part_of (g.name_or_call named) tokens.now result }
{
    let Some((_, rest)) = eat_sign(Sign::OpenParen, tokens) else {
        let part = variable(alloc, named)?;
        return Ok((part, tokens));
    };
    let (args, rest) = arguments(alloc, rest)?;
    let part = called(alloc, named, args)?;
    Ok((part, rest))
}

/// `"(" term [ "," term ] ")"` after `acc`.
#[cycle(terms)]
fn access<'a>(alloc: Global, at: Pos, tokens: &'a [Token]) -> ViperRead<'a, WrittenTerm>
    ensures shorter { IfOk result (λ r. length r.1.now < length tokens.now) }
    ensures reads { Parses part_of (g.access at) tokens.now result }
{
    let (_, rest) = sign(Sign::OpenParen, tokens)?;
    let (place, rest) = term(alloc, rest)?;
    let (held, rest) = amount(alloc, rest)?;
    let whole = accessed(alloc, place, held, at)?;
    Ok((whole, rest))
}

/// `"(" term ")"`
#[cycle(terms)]
pub fn group<'a>(alloc: Global, tokens: &'a [Token]) -> ViperRead<'a, WrittenTerm>
    ensures shorter { IfOk result (λ r. length r.1.now < length tokens.now) }
    ensures reads { Parses part_of (g.rule g.Group) tokens.now result }
{
    let (_, rest) = sign(Sign::OpenParen, tokens)?;
    let (inner, rest) = term(alloc, rest)?;
    let (_, after) = sign(Sign::CloseParen, rest)?;
    Ok((inner, after))
}

/// `[ "," term ] ")"`
#[cycle(terms)]
fn amount<'a>(alloc: Global, tokens: &'a [Token]) -> ViperRead<'a, Option<Box<Term>>>
    ensures shorter { IfOk result (λ r. length r.1.now < length tokens.now) }
    ensures reads { Parses amount_of (g.rule g.Amount) tokens.now result }
{
    if let Some((_, rest)) = eat_sign(Sign::Comma, tokens) {
        let (part, rest) = term(alloc, rest)?;
        let (_, after) = sign(Sign::CloseParen, rest)?;
        return Ok((Some(part.term), after));
    }
    let (_, rest) = sign(Sign::CloseParen, tokens)?;
    Ok((None, rest))
}

/// `call | "acc" "(" call [ "," term ] ")"`
#[cycle(terms)]
pub fn instance<'a>(alloc: Global, tokens: &'a [Token]) -> ViperRead<'a, WrittenInstance>
    ensures shorter { IfOk result (λ r. length r.1.now < length tokens.now) }
    ensures reads { Parses instance_of (g.rule g.InstanceOf) tokens.now result }
{
    if let Some((_, rest)) = eat_word(Word::Acc, tokens) {
        let (_, rest) = sign(Sign::OpenParen, rest)?;
        let (named, rest) = call(alloc, rest)?;
        let (held, rest) = amount(alloc, rest)?;
        return Ok((
            WrittenInstance {
                call: named,
                amount: held,
            },
            rest,
        ));
    }
    let (named, rest) = call(alloc, tokens)?;
    Ok((
        WrittenInstance {
            call: named,
            amount: None,
        },
        rest,
    ))
}

/// `name "(" [ term { "," term } ] ")"`
#[cycle(terms)]
pub fn call<'a>(alloc: Global, tokens: &'a [Token]) -> ViperRead<'a, SCall>
    ensures shorter { IfOk result (λ r. length r.1.now < length tokens.now) }
    ensures reads { Parses call_of (g.rule g.CallOf) tokens.now result }
{
    let (named, rest) = name(tokens)?;
    let (_, rest) = sign(Sign::OpenParen, rest)?;
    let (args, rest) = arguments(alloc, rest)?;
    Ok((SCall { name: named, args }, rest))
}

/// `[ term { "," term } ] ")"`
#[cycle(terms)]
pub fn arguments<'a>(alloc: Global, tokens: &'a [Token]) -> ViperRead<'a, Vec<Term>>
    ensures shorter { IfOk result (λ r. length r.1.now < length tokens.now) }
    ensures reads { Parses arguments_of (g.rule g.Arguments) tokens.now result }
{
    if let Some((_, rest)) = eat_sign(Sign::CloseParen, tokens) {
        let none = Vec::new(alloc);
        return Ok((none, rest));
    }
    let (part, mut rest) = term(alloc, tokens)?;
    let mut all = pushed(Vec::new(alloc), Box::into_inner(part.term))?;
    while let Some((_, after)) = eat_sign(Sign::Comma, rest) {
        let (part, after) = term(alloc, after)?;
        all = pushed(all, Box::into_inner(part.term))?;
        rest = after;
    }
    let (_, after) = sign(Sign::CloseParen, rest)?;
    Ok((all, after))
}
