// Parts of terms from their parts.
ghost use Rattle.std.specs.Prelude.{◌≡◌, IfOk, map};
ghost use Rattle.viper_syntax.specs.Term as t;
ghost use Rattle.viper_syntax.specs.View.{term_of, amount_of, rhs_of};
ghost use Rattle.viper_grammar.specs.Grammar as g;
ghost use Rattle.viper_grammar.specs.View.{part_of, instance_of};

use crate::parts::{Shape, WrittenInstance, WrittenTerm};
use std::alloc::{AllocError, Global};
use vb_base::{Literal, Pos};
use viper_syntax::{Named, SCall, SRhs, SUnfolding, Sign, Term, Word};

/// The shape of a term that ends with a part of this shape.
fn ending(shape: Shape) -> Shape
    ensures { result ≡ g.ending shape }
{
    match shape {
        Shape::Open => Shape::Open,
        Shape::Call | Shape::Plain => Shape::Plain,
    }
}

impl WrittenTerm {
    /// Whether it ends with an `unfolding`.
    pub fn is_open(&self) -> bool
        ensures { result ≡ g.is_open self.now.shape }
    {
        matches!(self.shape, Shape::Open)
    }
}

/// A term of this shape.
fn part(alloc: Global, shape: Shape, term: Term) -> Result<WrittenTerm, AllocError>
    ensures { IfOk result (λ p. part_of p ≡ record { shape = shape; tree = term_of term }) }
{
    let term = Box::new(alloc, term)?;
    Ok(WrittenTerm { shape, term })
}

/// What is assigned: a right side that is wholly a call is a call of a method.
pub fn assigned(part: WrittenTerm) -> SRhs
    ensures { rhs_of result ≡ g.rhs_of (part_of part) }
{
    let term = Box::into_inner(part.term);
    match part.shape {
        Shape::Call => method_call(term),
        Shape::Open | Shape::Plain => SRhs::Term(term),
    }
}

fn method_call(term: Term) -> SRhs
    ensures { rhs_of result ≡ g.rhs_from Shape.Call (term_of term) }
{
    match term {
        Term::Inst(name, args, pos) => SRhs::Call(SCall {
            name: Named { name, pos },
            args,
        }),
        other => SRhs::Term(other),
    }
}

fn instance_term(name: Named, args: Vec<Term>) -> Term
    ensures { term_of result ≡ t.Inst name.name (t.terms (map term_of args.items)) name.pos }
{
    Term::Inst(name.name, args, name.pos)
}

/// A call in a term: an instance of a predicate.
pub fn called(alloc: Global, name: Named, args: Vec<Term>) -> Result<WrittenTerm, AllocError>
    ensures { IfOk result (λ p. part_of p ≡ g.called name (map term_of args.items)) }
{
    part(alloc, Shape::Call, instance_term(name, args))
}

/// `x`
pub fn variable(alloc: Global, name: Named) -> Result<WrittenTerm, AllocError>
    ensures { IfOk result (λ p. part_of p ≡ g.plain (t.Name name.name name.pos)) }
{
    part(alloc, Shape::Plain, Term::Name(name.name, name.pos))
}

/// `7`
pub fn number(alloc: Global, value: i128, at: Pos) -> Result<WrittenTerm, AllocError>
    ensures { IfOk result (λ p. part_of p ≡ g.plain (t.Number value at)) }
{
    part(alloc, Shape::Plain, Term::Number(Literal::new(value), at))
}

/// `true` and so on
pub fn constant(alloc: Global, constant: (Word, Pos)) -> Result<WrittenTerm, AllocError>
    ensures { IfOk result (λ p. part_of p ≡ g.plain (t.Constant constant.0 constant.1)) }
{
    part(alloc, Shape::Plain, Term::Constant(constant.0, constant.1))
}

/// `a + b`, with any binary operator
pub fn binary(
    alloc: Global,
    operator: (Sign, Pos),
    left: WrittenTerm,
    right: WrittenTerm,
) -> Result<WrittenTerm, AllocError>
    ensures { IfOk result (λ p. part_of p ≡ g.binary (part_of left) operator (part_of right)) }
{
    part(
        alloc,
        ending(right.shape),
        Term::Binary(operator.0, left.term, right.term, operator.1),
    )
}

/// `a ? b : c`
pub fn chosen(
    alloc: Global,
    condition: WrittenTerm,
    first: WrittenTerm,
    second: WrittenTerm,
    at: Pos,
) -> Result<WrittenTerm, AllocError>
    ensures { IfOk result (λ p. part_of p ≡ g.chosen (part_of condition) (part_of first) (part_of second) at) }
{
    part(
        alloc,
        ending(second.shape),
        Term::Choose(condition.term, first.term, second.term, at),
    )
}

/// `!a` or `-a`
pub fn applied(
    alloc: Global,
    operator: (Sign, Pos),
    operand: WrittenTerm,
) -> Result<WrittenTerm, AllocError>
    ensures { IfOk result (λ p. part_of p ≡ g.applied operator (part_of operand)) }
{
    part(
        alloc,
        ending(operand.shape),
        Term::Unary(operator.0, operand.term, operator.1),
    )
}

/// `a.f`
pub fn field(alloc: Global, receiver: WrittenTerm, field: Named) -> Result<WrittenTerm, AllocError>
    ensures { IfOk result (λ p. part_of p ≡ g.plain (t.Field (term_of receiver.term.value) field.name field.pos)) }
{
    part(
        alloc,
        Shape::Plain,
        Term::Field(receiver.term, field.name, field.pos),
    )
}

/// `old(a)`
pub fn old(alloc: Global, inner: WrittenTerm, at: Pos) -> Result<WrittenTerm, AllocError>
    ensures { IfOk result (λ p. part_of p ≡ g.plain (t.Old (term_of inner.term.value) at)) }
{
    part(alloc, Shape::Plain, Term::Old(inner.term, at))
}

fn accessed_term(place: Box<Term>, amount: Option<Box<Term>>, at: Pos) -> Term
    ensures { term_of result ≡ t.Acc (term_of place.value) (amount_of amount) at }
{
    Term::Acc(place, amount, at)
}

/// `acc(a)` or `acc(a, amount)`
pub fn accessed(
    alloc: Global,
    place: WrittenTerm,
    amount: Option<Box<Term>>,
    at: Pos,
) -> Result<WrittenTerm, AllocError>
    ensures { IfOk result (λ p. part_of p ≡ g.plain (t.Acc (term_of place.term.value) (amount_of amount) at)) }
{
    part(alloc, Shape::Plain, accessed_term(place.term, amount, at))
}

fn unfolding_term(
    alloc: Global,
    call: SCall,
    amount: Option<Box<Term>>,
    inner: Box<Term>,
    at: Pos,
) -> Result<Term, AllocError>
    ensures { IfOk result (λ a. term_of a ≡ t.Unfolding call.name.name (t.terms (map term_of call.args.items)) (amount_of amount) (term_of inner.value) at call.name.pos) }
{
    let SCall { name, args } = call;
    let opened = SUnfolding {
        at,
        name,
        args,
        amount,
        inner,
    };
    let unfolding = Box::new(alloc, opened)?;
    Ok(Term::Unfolding(unfolding))
}

/// `unfolding acc(P(a, b), amount) in c`
pub fn unfolding(
    alloc: Global,
    opened: WrittenInstance,
    inner: WrittenTerm,
    at: Pos,
) -> Result<WrittenTerm, AllocError>
    ensures { IfOk result (λ p. part_of p ≡ g.unfolded (instance_of opened) (part_of inner) at) }
{
    let WrittenInstance { call, amount } = opened;
    let term = unfolding_term(alloc, call, amount, inner.term, at)?;
    part(alloc, Shape::Open, term)
}
