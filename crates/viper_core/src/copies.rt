// Copies of expressions and assertions, as the copy of a predicate's body that each `unfolding` holds.
ghost use Rattle.std.specs.Prelude.{◌≡◌, IfOk};
ghost use Rattle.viper_core.specs.View.{expr_of, exprs_of, opened_of, amt_of, assertion_of};

use crate::{Amt, Assertion, Expr, Opened};
use std::alloc::Global;
use vb_base::Memory;

impl Expr {
    /// The same expression again. `Memory` where there is no memory.
    #[cycle(copies)]
    pub fn copy(&self, alloc: Global) -> Result<Expr, Memory>
        ensures { IfOk result (λ e. expr_of e ≡ expr_of self.now) }
    {
        match self {
            Expr::Var(x) => Ok(Expr::Var(*x)),
            Expr::Int(n) => Ok(Expr::Int(*n)),
            Expr::Bool(b) => Ok(Expr::Bool(*b)),
            Expr::Null => Ok(Expr::Null),
            Expr::Part(q) => Ok(Expr::Part(*q)),
            Expr::Neg(a) => Ok(Expr::Neg(boxed(alloc, a)?)),
            Expr::Not(a) => Ok(Expr::Not(boxed(alloc, a)?)),
            Expr::Bin(op, a, b, at) => Ok(Expr::Bin(*op, boxed(alloc, a)?, boxed(alloc, b)?, *at)),
            Expr::Choose(a, b, c) => Ok(Expr::Choose(
                boxed(alloc, a)?,
                boxed(alloc, b)?,
                boxed(alloc, c)?,
            )),
            Expr::Field(a, field, at) => Ok(Expr::Field(boxed(alloc, a)?, *field, *at)),
            Expr::Old(a) => Ok(Expr::Old(boxed(alloc, a)?)),
            Expr::Unfolding(opened) => Ok(Expr::Unfolding(vb_base::boxed(
                alloc,
                opened.copy(alloc)?,
            )?)),
        }
    }
}

#[cycle(copies)]
fn boxed(alloc: Global, e: &Expr) -> Result<Box<Expr>, Memory>
    ensures { IfOk result (λ b. expr_of b.value ≡ expr_of e.now) }
{
    vb_base::boxed(alloc, e.copy(alloc)?)
}

#[cycle(copies)]
fn copies(alloc: Global, es: &[Expr]) -> Result<Vec<Expr>, Memory>
    ensures { IfOk result (λ v. exprs_of v.items ≡ exprs_of es.now) }
{
    let mut copies = Vec::with_capacity(alloc, es.len())?;
    for e in es {
        copies.push(e.copy(alloc)?)?;
    }
    Ok(copies)
}

impl Opened {
    /// The same instance again. `Memory` where there is no memory.
    #[cycle(copies)]
    pub fn copy(&self, alloc: Global) -> Result<Opened, Memory>
        ensures { IfOk result (λ o. opened_of o ≡ opened_of self.now) }
    {
        let instance = both(copies(alloc, &self.args), self.amount.copy(alloc));
        let terms = both(self.body.copy(alloc), self.inner.copy(alloc));
        let ((args, amount), (body, inner)) = both(instance, terms)?;
        Ok(Opened {
            predicate: self.predicate,
            args,
            amount,
            body,
            inner,
            place: self.place,
        })
    }
}

impl Amt {
    /// The same amount again. `Memory` where there is no memory.
    #[cycle(copies)]
    pub fn copy(&self, alloc: Global) -> Result<Amt, Memory>
        ensures { IfOk result (λ m. amt_of m ≡ amt_of self.now) }
    {
        match self {
            Amt::Is(e) => Ok(Amt::Is(e.copy(alloc)?)),
            Amt::Wildcard => Ok(Amt::Wildcard),
        }
    }
}

impl Assertion {
    /// The same assertion again. `Memory` where there is no memory.
    #[cycle(copies)]
    pub fn copy(&self, alloc: Global) -> Result<Assertion, Memory>
        ensures { IfOk result (λ a. assertion_of a ≡ assertion_of self.now) }
    {
        match self {
            Assertion::Fact(e, at) => Ok(Assertion::Fact(e.copy(alloc)?, *at)),
            Assertion::Acc(e, field, amount, at) => {
                let (e, amount) = both(e.copy(alloc), amount.copy(alloc))?;
                Ok(Assertion::Acc(e, *field, amount, *at))
            }
            Assertion::Inst(predicate, args, amount, at) => {
                let (args, amount) = both(copies(alloc, args), amount.copy(alloc))?;
                Ok(Assertion::Inst(*predicate, args, amount, *at))
            }
            Assertion::And(a, b) => Ok(Assertion::And(
                boxed_assertion(alloc, a)?,
                boxed_assertion(alloc, b)?,
            )),
            Assertion::Implies(e, a) => {
                let (e, a) = both(e.copy(alloc), boxed_assertion(alloc, a))?;
                Ok(Assertion::Implies(e, a))
            }
            Assertion::Choose(e, a, b) => {
                let sides = both(boxed_assertion(alloc, a), boxed_assertion(alloc, b));
                let (e, (a, b)) = both(e.copy(alloc), sides)?;
                Ok(Assertion::Choose(e, a, b))
            }
        }
    }
}

#[cycle(copies)]
fn boxed_assertion(alloc: Global, a: &Assertion) -> Result<Box<Assertion>, Memory>
    ensures { IfOk result (λ b. assertion_of b.value ≡ assertion_of a.now) }
{
    vb_base::boxed(alloc, a.copy(alloc)?)
}

/// Both values, or the error of the first that failed. Each is dropped here, where nothing is known of its type.
fn both<A: Drop, B: Drop>(
    first: Result<A, Memory>,
    second: Result<B, Memory>,
) -> Result<(A, B), Memory>
    ensures { IfOk result (λ r. (first ≡ Ok r.0) × (second ≡ Ok r.1)) }
{
    match (first, second) {
        (Ok(first), Ok(second)) => Ok((first, second)),
        (Err(error), _) | (_, Err(error)) => Err(error),
    }
}
