// The terms of expressions.
use boogie_formula::FExpr;
use boogie_tree::{BBase, BOp};
use search_base::{SearchStop, SignedTerm, TermId, get};
use search_terms::{Problem, TermKind, TermOp, Terms};
use std::alloc::Global;

/// What a value of this type is.
pub(crate) fn kind_of(base: BBase) -> TermKind {
    match base {
        BBase::Int => TermKind::Int,
        BBase::Bool => TermKind::Bool,
        BBase::Ref => TermKind::Ref,
        BBase::Real => TermKind::Real,
        BBase::Snap => TermKind::Snap,
    }
}

/// What the names in an expression stand for.
#[derive(Clone, Copy)]
pub(crate) struct Names<'a> {
    pub(crate) problem: &'a Problem,
    /// The terms of the names that the `forall` around the expression binds; none outside.
    pub(crate) marks: &'a [TermId],
}

impl Names<'_> {
    /// What a variable or a definition stands for. `Malformed` where it does not stand before.
    pub(crate) fn literal(self, name: usize) -> Result<SignedTerm, SearchStop> {
        let variables = &self.problem.variables;
        let found = match variables.get(name) {
            Some(variable) => variable.literal(),
            None => get(
                &self.problem.definitions,
                name.saturating_sub(variables.len()),
            ),
        };
        if found.is_none() {
            Err(SearchStop::Malformed)
        } else {
            Ok(found)
        }
    }
}

/// The term of an operator and parts, as a literal.
fn made(terms: &mut Terms, op: TermOp, parts: &[SignedTerm]) -> Result<SignedTerm, SearchStop> {
    let term = terms.make(op, parts)?;
    Ok(term.literal())
}

/// The term of a written number, as a literal.
fn numeral(terms: &mut Terms, op: TermOp, value: i128) -> Result<SignedTerm, SearchStop> {
    let term = terms.numeral(op, value)?;
    Ok(term.literal())
}

/// The literal of a binary operator: of truth values there are `And` and `Eq` alone, and of orders only `Le`.
fn joined(
    terms: &mut Terms,
    op: BOp,
    a: SignedTerm,
    b: SignedTerm,
) -> Result<SignedTerm, SearchStop> {
    let (kind, parts) = match op {
        BOp::Iff | BOp::Eq | BOp::Ne => (TermOp::Eq, [a, b]),
        BOp::Implies => (TermOp::And, [a, b.negated()]),
        BOp::Or => (TermOp::And, [a.negated(), b.negated()]),
        BOp::And => (TermOp::And, [a, b]),
        BOp::Le | BOp::Gt => (TermOp::Le, [a, b]),
        BOp::Ge | BOp::Lt => (TermOp::Le, [b, a]),
        BOp::Add => (TermOp::Add, [a, b]),
        BOp::Sub => (TermOp::Sub, [a, b]),
        BOp::Mul => (TermOp::Mul, [a, b]),
        BOp::Divide => (TermOp::Div, [a, b]),
        BOp::IntDiv => (TermOp::IntDiv, [a, b]),
        BOp::IntMod => (TermOp::Mod, [a, b]),
    };
    let found = made(terms, kind, &parts)?;
    match op {
        BOp::Implies | BOp::Or | BOp::Ne | BOp::Lt | BOp::Gt => Ok(found.negated()),
        _ => Ok(found),
    }
}

/// A map at the names that the `forall` around it binds.
fn at_names(
    alloc: Global,
    map: usize,
    names: Names,
    terms: &mut Terms,
) -> Result<SignedTerm, SearchStop> {
    let mut parts = Vec::with_capacity(alloc, names.marks.len().saturating_add(1))?;
    parts.push(names.literal(map)?)?;
    for mark in names.marks {
        parts.push(mark.literal())?;
    }
    made(terms, TermOp::At, &parts)
}

/// The literal of an expression. `Malformed` where it names what does not stand before, or where a `forall` is part of it.
#[cycle(expressions)]
pub(crate) fn literal_of(
    alloc: Global,
    expr: &FExpr,
    names: Names,
    terms: &mut Terms,
) -> Result<SignedTerm, SearchStop> {
    match expr {
        FExpr::Var(name) => names.literal(*name),
        FExpr::Int(value) => numeral(terms, TermOp::Int, *value),
        FExpr::Real(value) => numeral(terms, TermOp::Real, *value),
        FExpr::Bool(truth) => Ok(terms.truth().signed(*truth)),
        FExpr::Null => made(terms, TermOp::Null, &[]),
        FExpr::Unit => made(terms, TermOp::Unit, &[]),
        FExpr::Neg(a) => made_of_one(alloc, TermOp::Neg, a, names, terms),
        FExpr::Not(a) => {
            let found = literal_of(alloc, a, names, terms)?;
            Ok(found.negated())
        }
        FExpr::Bin(op, a, b) => {
            let a = literal_of(alloc, a, names, terms)?;
            let b = literal_of(alloc, b, names, terms)?;
            joined(terms, *op, a, b)
        }
        FExpr::If(condition, a, b) => {
            let condition = literal_of(alloc, condition, names, terms)?;
            let a = literal_of(alloc, a, names, terms)?;
            let b = literal_of(alloc, b, names, terms)?;
            made(terms, TermOp::If, &[condition, a, b])
        }
        FExpr::Forall(_, _) => Err(SearchStop::Malformed),
        FExpr::ToReal(a) => made_of_one(alloc, TermOp::ToReal, a, names, terms),
        FExpr::SInt(a) => made_of_one(alloc, TermOp::SInt, a, names, terms),
        FExpr::SBool(a) => made_of_one(alloc, TermOp::SBool, a, names, terms),
        FExpr::SRef(a) => made_of_one(alloc, TermOp::SRef, a, names, terms),
        FExpr::SPerm(a) => made_of_one(alloc, TermOp::SPerm, a, names, terms),
        FExpr::Pair(a, b) => {
            let a = literal_of(alloc, a, names, terms)?;
            let b = literal_of(alloc, b, names, terms)?;
            made(terms, TermOp::SPair, &[a, b])
        }
        FExpr::At(map, keys) => {
            let mut parts = vec![in alloc; names.literal(*map)?]?;
            add_all(alloc, keys, names, terms, &mut parts)?;
            made(terms, TermOp::At, &parts)
        }
        FExpr::AtBound(map) => at_names(alloc, *map, names, terms),
        FExpr::With(map, keys, value) => {
            let map = literal_of(alloc, map, names, terms)?;
            let mut parts = vec![in alloc; map]?;
            add_all(alloc, keys, names, terms, &mut parts)?;
            parts.push(literal_of(alloc, value, names, terms)?)?;
            made(terms, TermOp::Put, &parts)
        }
    }
}

/// The literal of an operator with one part.
#[cycle(expressions)]
fn made_of_one(
    alloc: Global,
    op: TermOp,
    part: &FExpr,
    names: Names,
    terms: &mut Terms,
) -> Result<SignedTerm, SearchStop> {
    let part = literal_of(alloc, part, names, terms)?;
    made(terms, op, &[part])
}

/// Puts the literals of expressions behind those that are there.
#[cycle(expressions)]
fn add_all(
    alloc: Global,
    exprs: &[FExpr],
    names: Names,
    terms: &mut Terms,
    parts: &mut Vec<SignedTerm>,
) -> Result<(), SearchStop> {
    for expr in exprs {
        parts.push(literal_of(alloc, expr, names, terms)?)?;
    }
    Ok(())
}
