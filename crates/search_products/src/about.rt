// What is said of products, and the terms and steps for that.
use search_base::{SearchStop, SignedTerm, StepId, TermId};
use search_rational::Rational;
use search_state::Prover;
use search_steps::StepRule;
use search_terms::TermOp;
use std::alloc::Global;

/// Steps about a term, and the terms that they speak of, each of which is to be looked at too.
#[derive(Drop)]
pub struct About {
    pub steps: Vec<StepId>,
    pub look: Vec<TermId>,
}

impl About {
    /// Nothing is said.
    pub fn new(alloc: Global) -> About {
        About {
            steps: Vec::new(alloc),
            look: Vec::new(alloc),
        }
    }

    /// Nothing is said, but a term is to be looked at.
    pub(crate) fn look_at(alloc: Global, n: TermId) -> Result<About, SearchStop> {
        let mut found = About::new(alloc);
        found.look.push(n)?;
        Ok(found)
    }
}

/// Says a step whose words are terms and literals.
pub(crate) fn put(
    prover: &mut Prover,
    about: &mut About,
    literals: &[SignedTerm],
    rule: StepRule,
    words: &[SignedTerm],
) -> Result<(), SearchStop> {
    let step = prover.steps.add(literals, rule, words)?;
    about.steps.push(step)?;
    Ok(())
}

/// The number 0 of the kind of a term.
pub(crate) fn zero_of(prover: &mut Prover, it: SignedTerm) -> Result<SignedTerm, SearchStop> {
    let kind = prover.terms.kind(it);
    Ok(prover.terms.number(Rational::ZERO, kind)?.literal())
}

/// The number 1 of the kind of a term.
pub(crate) fn one_of(prover: &mut Prover, it: SignedTerm) -> Result<SignedTerm, SearchStop> {
    let kind = prover.terms.kind(it);
    Ok(prover.terms.number(Rational::ONE, kind)?.literal())
}

/// The equation of two terms in this order.
pub(crate) fn equation(
    prover: &mut Prover,
    a: SignedTerm,
    b: SignedTerm,
) -> Result<SignedTerm, SearchStop> {
    Ok(prover.terms.equation(a, b)?.literal())
}

/// The comparison that says that the first term is not above the second one.
pub(crate) fn at_most(
    prover: &mut Prover,
    a: SignedTerm,
    b: SignedTerm,
) -> Result<SignedTerm, SearchStop> {
    Ok(prover.terms.at_most(a.term(), b.term())?.literal())
}

/// The term of an operator and two parts.
pub fn made(
    prover: &mut Prover,
    op: TermOp,
    a: SignedTerm,
    b: SignedTerm,
) -> Result<SignedTerm, SearchStop> {
    Ok(prover.terms.make(op, &[a, b])?.literal())
}

/// The product of two terms.
pub fn times(prover: &mut Prover, a: SignedTerm, b: SignedTerm) -> Result<SignedTerm, SearchStop> {
    made(prover, TermOp::Mul, a, b)
}

/// Says an equation that is so by the laws of sums and products.
pub fn ring(
    prover: &mut Prover,
    left: SignedTerm,
    right: SignedTerm,
    about: &mut About,
) -> Result<(), SearchStop> {
    let equation = equation(prover, left, right)?;
    put(prover, about, &[equation], StepRule::Ring, &[equation])
}

/// Two numbers that are compared: the first one with the second.
pub(crate) type Way = (SignedTerm, SignedTerm);

/// Says what the products of a and b with c and d are, where a is not above b, and c not above d; and where they are below.
pub(crate) fn signs(
    prover: &mut Prover,
    one: Way,
    two: Way,
    about: &mut About,
) -> Result<(), SearchStop> {
    let ((a, b), (c, d)) = (one, two);
    let less = both(prover, (a, d), (b, c))?;
    let more = both(prover, (a, c), (b, d))?;
    let (p, q) = (at_most(prover, a, b)?, at_most(prover, c, d)?);
    let r = at_most(prover, less, more)?;
    put(
        prover,
        about,
        &[p.negated(), q.negated(), r],
        StepRule::Times,
        &[p, q, r],
    )?;
    let (p, q) = (at_most(prover, b, a)?, at_most(prover, d, c)?);
    let r = at_most(prover, more, less)?;
    put(
        prover,
        about,
        &[p, q, r.negated()],
        StepRule::Above,
        &[p, q, r],
    )
}

/// The sum of two products.
fn both(prover: &mut Prover, one: Way, two: Way) -> Result<SignedTerm, SearchStop> {
    let (x, y) = (times(prover, one.0, one.1)?, times(prover, two.0, two.1)?);
    made(prover, TermOp::Add, x, y)
}

/// Has comparisons looked at.
pub(crate) fn look_at_ways(
    prover: &mut Prover,
    ways: &[Way],
    about: &mut About,
) -> Result<(), SearchStop> {
    for (a, b) in ways {
        about.look.push(at_most(prover, *a, *b)?.term())?;
    }
    Ok(())
}

/// Says what follows of two products for each two of these ways in which their factors compare.
pub(crate) fn all_signs(
    prover: &mut Prover,
    ones: &[Way],
    twos: &[Way],
    about: &mut About,
) -> Result<(), SearchStop> {
    for one in ones {
        for two in twos {
            signs(prover, *one, *two, about)?;
        }
    }
    Ok(())
}
