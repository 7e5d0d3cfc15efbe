// Why terms are equal: the steps that say it of what is assigned.
ghost use Rattle.std.specs.Prelude.{◌≤◌};

use crate::ways::{Edge, below, way};
use search_base::{Fuel, SearchStop, SignedTerm, TermId};
use search_classes::Why;
use search_rational::Rational;
use search_state::Prover;
use search_steps::{Lemma, StepRule, chain_step, path_step, sum_step};
use search_terms::Meaning;

/// An equation of two equal terms that differ, as it follows from the premises of a lemma. What an edge stands on was known before it,
/// and is shown first.
pub fn prove(
    prover: &mut Prover,
    a: SignedTerm,
    b: SignedTerm,
    lemma: &mut Lemma,
    fuel: &mut Fuel,
) -> Result<TermId, SearchStop>
    ensures { fuel.new.left ≤ fuel.old.left }
{
    let mut todo = vec![in prover.alloc; (a, b)]?;
    while let Some((x, y)) = todo.last().copied() {
        fuel.take(1)?;
        if lemma.equation(x, y).is_some() {
            let _ = todo.pop();
            continue;
        }
        let edges = way(prover, x, y)?;
        let before = todo.len();
        put_missing(prover, &edges, lemma, &mut todo)?;
        if todo.len() == before {
            let _ = todo.pop();
            show(prover, x, y, &edges, lemma, fuel)?;
        }
    }
    lemma.equation(a, b).ok_or(SearchStop::Exhausted)
}

/// Puts the pairs of terms to do on which edges stand, and that are not shown.
fn put_missing(
    prover: &Prover,
    edges: &[Edge],
    lemma: &Lemma,
    todo: &mut Vec<(SignedTerm, SignedTerm)>,
) -> Result<(), SearchStop> {
    for edge in edges {
        if lemma.equation(edge.a, edge.b).is_none() {
            for (a, b) in &below(prover, edge)? {
                if lemma.equation(*a, *b).is_none() {
                    todo.push((*a, *b))?;
                }
            }
        }
    }
    Ok(())
}

/// Shows an equation of two terms by edges whose grounds are shown.
fn show(
    prover: &mut Prover,
    x: SignedTerm,
    y: SignedTerm,
    edges: &[Edge],
    lemma: &mut Lemma,
    fuel: &mut Fuel,
) -> Result<(), SearchStop>
    ensures { fuel.new.left ≤ fuel.old.left }
{
    let parts = equations(prover, edges, lemma, fuel)?;
    let found = match parts.as_slice() {
        [only] => *only,
        _ => {
            let found = prover.terms.equal(x, y)?;
            let step = path_step(
                prover.alloc,
                &prover.terms,
                &mut prover.steps,
                found,
                x,
                &parts,
            )?;
            lemma.hints.push(step)?;
            found
        }
    };
    lemma.show(x, y, found)
}

/// The equations of edges, whose grounds are shown.
fn equations(
    prover: &mut Prover,
    edges: &[Edge],
    lemma: &mut Lemma,
    fuel: &mut Fuel,
) -> Result<Vec<TermId>, SearchStop>
    ensures { fuel.new.left ≤ fuel.old.left }
{
    let mut found = Vec::with_capacity(prover.alloc, edges.len())?;
    for edge in edges {
        let equation = equation_of(prover, edge, lemma, fuel)?;
        found.push(equation)?;
    }
    Ok(found)
}

fn equation_of(
    prover: &mut Prover,
    edge: &Edge,
    lemma: &mut Lemma,
    fuel: &mut Fuel,
) -> Result<TermId, SearchStop>
    ensures { fuel.new.left ≤ fuel.old.left }
{
    if let Why::Is(literal) = edge.why {
        lemma.assume(literal)?;
        return Ok(literal.term());
    }
    let equation = match (lemma.equation(edge.a, edge.b), edge.why) {
        (Some(it), _) => it,
        (None, Why::Same) => applied(prover, edge, lemma)?,
        (None, _) => folded(prover, edge, lemma, fuel)?,
    };
    lemma.show(edge.a, edge.b, equation)?;
    Ok(equation)
}

/// An equation of two terms whose parts are equal.
fn applied(prover: &mut Prover, edge: &Edge, lemma: &mut Lemma) -> Result<TermId, SearchStop> {
    let found = prover.terms.equal(edge.a, edge.b)?;
    let turned = Edge {
        a: prover.terms.part(found, 0),
        b: prover.terms.part(found, 1),
        why: Why::Same,
    };
    let mut parts = Vec::new(prover.alloc);
    for (a, b) in &below(prover, &turned)? {
        if let Some(it) = lemma.equation(*a, *b) {
            parts.push(it.literal())?;
        }
    }
    lemma.hints.push(chain_step(
        prover.alloc,
        &mut prover.steps,
        found,
        &parts,
        StepRule::Same,
    )?)?;
    Ok(found)
}

/// An equation of what is made of constants, and the constant that it is.
fn folded(
    prover: &mut Prover,
    edge: &Edge,
    lemma: &mut Lemma,
    fuel: &mut Fuel,
) -> Result<TermId, SearchStop>
    ensures { fuel.new.left ≤ fuel.old.left }
{
    let is_constant = prover.terms.value(edge.b.term()).is_some();
    let (x, y) = if is_constant {
        (edge.a, edge.b)
    } else {
        (edge.b, edge.a)
    };
    let found = prover.terms.equal(x, y)?;
    let is_first = prover.terms.part(found, 0) == x;
    let sign = one_of_sign(is_first);
    let mut pairs = below(prover, edge)?;
    pairs.sort_unstable();
    pairs.dedup();
    let meaning = prover.terms.meaning(x.term());
    let mut rows = vec![in prover.alloc; (found.literal(), Rational::ONE)]?;
    for (a, b) in &pairs {
        if let Some(it) = lemma.equation(*a, *b) {
            let is_turned = prover.terms.part(it, 0) == *a;
            let weight = sign.times(one_of_sign(!is_turned))?;
            put_row(&mut rows, it, weight.times(weight_of(&meaning, *a)?)?)?;
        }
    }
    let step = sum_step(prover.alloc, &prover.terms, &mut prover.steps, &rows, fuel)?;
    lemma.hints.push(step)?;
    Ok(found)
}

/// The number 1, or -1.
fn one_of_sign(is_positive: bool) -> Rational {
    if is_positive {
        Rational::ONE
    } else {
        Rational::MINUS_ONE
    }
}

/// Puts the negation of an equation with its weight, where that is not 0.
fn put_row(
    rows: &mut Vec<(SignedTerm, Rational)>,
    equation: TermId,
    weight: Rational,
) -> Result<(), SearchStop> {
    if !weight.is_zero() {
        rows.push((equation.literal().negated(), weight))?;
    }
    Ok(())
}

/// How many times a term stands in a sum.
fn weight_of(meaning: &Meaning, a: SignedTerm) -> Result<Rational, SearchStop> {
    let mut weight = Rational::ZERO;
    for (part, factor) in meaning.parts.iter().flatten() {
        if part.literal() == a {
            weight = weight.plus(*factor)?;
        }
    }
    Ok(weight)
}

/// Shows that just this equation holds.
pub(crate) fn prove_as(
    prover: &mut Prover,
    equation: TermId,
    lemma: &mut Lemma,
    fuel: &mut Fuel,
) -> Result<(), SearchStop>
    ensures { fuel.new.left ≤ fuel.old.left }
{
    let (a, b) = (
        prover.terms.part(equation, 0),
        prover.terms.part(equation, 1),
    );
    let edges = way(prover, a, b)?;
    prove_grounds(prover, &edges, lemma, fuel)?;
    let parts = equations(prover, &edges, lemma, fuel)?;
    if parts.as_slice() != [equation].as_slice() {
        let step = path_step(
            prover.alloc,
            &prover.terms,
            &mut prover.steps,
            equation,
            a,
            &parts,
        )?;
        lemma.hints.push(step)?;
    }
    Ok(())
}

/// Shows what edges stand on.
fn prove_grounds(
    prover: &mut Prover,
    edges: &[Edge],
    lemma: &mut Lemma,
    fuel: &mut Fuel,
) -> Result<(), SearchStop>
    ensures { fuel.new.left ≤ fuel.old.left }
{
    for edge in edges {
        let pairs = below(prover, edge)?;
        prove_pairs(prover, &pairs, lemma, fuel)?;
    }
    Ok(())
}

fn prove_pairs(
    prover: &mut Prover,
    pairs: &[(SignedTerm, SignedTerm)],
    lemma: &mut Lemma,
    fuel: &mut Fuel,
) -> Result<(), SearchStop>
    ensures { fuel.new.left ≤ fuel.old.left }
{
    for (a, b) in pairs {
        prove(prover, *a, *b, lemma, fuel)?;
    }
    Ok(())
}
