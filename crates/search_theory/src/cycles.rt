// A step that says that no content is inside of itself.
ghost use Rattle.std.specs.Prelude.{◌≤◌};

use crate::proofs::prove;
use search_base::{Found, Fuel, SearchStop, SignedTerm, StepId, copied, number, set};
use search_state::Prover;
use search_steps::{Lemma, StepRule, chain_step};
use search_terms::{TermKind, TermOp};
use std::collections::BTreeSet;

/// A class on the way into contents: its name, its content, and the place of the part that is gone into next.
#[derive(Clone, Copy)]
struct Visit {
    name: SignedTerm,
    content: SignedTerm,
    next: usize,
}

/// The classes that were gone through, and those on the way to where it stands.
#[derive(Drop)]
struct Walk {
    done: BTreeSet<SignedTerm>,
    path: Vec<Visit>,
}

/// A step that is false where a content is inside of itself by what is assigned.
pub fn cycle(prover: &mut Prover, fuel: &mut Fuel) -> Found
    ensures { fuel.new.left ≤ fuel.old.left }
{
    if !prover.classes.contents_joined {
        return Ok(None);
    }
    let mut walk = Walk {
        done: BTreeSet::new(prover.alloc),
        path: Vec::new(prover.alloc),
    };
    for start in &copied(prover.alloc, prover.classes.entered())? {
        if prover.classes.name(*start) == *start && walk.enter(prover, *start)? {
            if let Some(round) = walk.round(prover, fuel)? {
                return Ok(Some(no_round(prover, &round, fuel)?));
            }
        }
    }
    prover.classes.contents_joined = false;
    Ok(None)
}

impl Walk {
    /// Goes into a class that has a content with parts and was not gone through. Whether it does.
    fn enter(&mut self, prover: &Prover, name: SignedTerm) -> Result<bool, SearchStop> {
        let Some(content) = prover.classes.content(name) else {
            return Ok(false);
        };
        if prover.terms.op(content.term()) == TermOp::Unit || self.done.contains(&name) {
            return Ok(false);
        }
        self.path.push(Visit {
            name,
            content,
            next: 0,
        })?;
        Ok(true)
    }

    /// Goes on until nothing is left on the way, or it comes to a class that is on it: then the way from there on is given.
    fn round(&mut self, prover: &Prover, fuel: &mut Fuel) -> Result<Option<Vec<Visit>>, SearchStop>
        ensures { fuel.new.left ≤ fuel.old.left }
    {
        while let Some(visit) = self.path.last().copied() {
            fuel.take(1)?;
            if visit.next >= prover.terms.arity(visit.content.term()) {
                self.done.insert(visit.name)?;
                let _ = self.path.pop();
                continue;
            }
            if let Some(last) = self.path.last_mut() {
                last.next = last.next.saturating_add(1);
            }
            let part = prover.terms.part(visit.content.term(), visit.next);
            let name = prover.classes.name(part);
            if prover.terms.kind(part) == TermKind::Snap && !name.is_none() {
                if let Some(at) = self.path.iter().position(|it| it.name == name) {
                    return Ok(Some(copied(prover.alloc, self.path.get(at..).unwrap_or(&[]))?));
                }
                self.enter(prover, name)?;
            }
        }
        Ok(None)
    }
}

/// The step that says that contents do not stand in each other in this round. What was gone into is one before `next`.
fn no_round(prover: &mut Prover, round: &[Visit], fuel: &mut Fuel) -> Result<StepId, SearchStop>
    ensures { fuel.new.left ≤ fuel.old.left }
{
    let mut visits = copied(prover.alloc, round)?;
    visits.reverse();
    let mut lemma = Lemma::new(prover.alloc);
    let (mut inner, mut outer, mut bottom) = (SignedTerm::NONE, SignedTerm::NONE, SignedTerm::NONE);
    for visit in &visits {
        if inner.is_none() {
            bottom = prover
                .terms
                .part(visit.content.term(), visit.next.saturating_sub(1));
            outer = visit.content;
        } else {
            outer = wrapped(prover, visit, inner, outer, &mut lemma, fuel)?;
        }
        inner = visit.content;
    }
    let Some(equation) = linked(prover, bottom, inner, outer, &mut lemma, fuel)? else {
        return Err(SearchStop::Exhausted);
    };
    let words = words(prover, equation, round)?;
    lemma.hints.push(
        prover
            .steps
            .add_words(&[equation.negated()], StepRule::Inside, &words)?,
    )?;
    prover.finish(&lemma, &[], fuel)
}

/// The words of the step: its equation, and the places of the parts that were gone into.
fn words(prover: &Prover, equation: SignedTerm, round: &[Visit]) -> Result<Vec<i64>, SearchStop> {
    let mut found = vec![in prover.alloc; equation.word()]?;
    for visit in round {
        found.push(i64::from(number(visit.next.saturating_sub(1))?))?;
    }
    Ok(found)
}

/// A content with another one in place of the part that was gone into, which equals that.
fn wrapped(
    prover: &mut Prover,
    visit: &Visit,
    inner: SignedTerm,
    outer: SignedTerm,
    lemma: &mut Lemma,
    fuel: &mut Fuel,
) -> Result<SignedTerm, SearchStop>
    ensures { fuel.new.left ≤ fuel.old.left }
{
    let n = visit.content.term();
    let place = visit.next.saturating_sub(1);
    let part = prover.terms.part(n, place);
    let mut parts = prover.terms.parts(n)?;
    set(&mut parts, place, outer)?;
    let op = prover.terms.op(n);
    let whole = prover.terms.make(op, &parts)?.literal();
    if whole != visit.content {
        let link = linked(prover, part, inner, outer, lemma, fuel)?;
        let equation = prover.terms.equation(visit.content, whole)?;
        let mut links = Vec::new(prover.alloc);
        if let Some(it) = link {
            links.push(it)?;
        }
        lemma.hints.push(chain_step(
            prover.alloc,
            &mut prover.steps,
            equation,
            &links,
            StepRule::Same,
        )?)?;
    }
    Ok(whole)
}

/// The equation of a term with what its content equals, where the two are not the same.
fn linked(
    prover: &mut Prover,
    a: SignedTerm,
    made: SignedTerm,
    whole: SignedTerm,
    lemma: &mut Lemma,
    fuel: &mut Fuel,
) -> Result<Option<SignedTerm>, SearchStop>
    ensures { fuel.new.left ≤ fuel.old.left }
{
    if a == whole {
        return Ok(None);
    }
    let mut parts = Vec::new(prover.alloc);
    if a != made {
        parts.push(prove(prover, a, made, lemma, fuel)?.literal())?;
    }
    if made != whole {
        parts.push(prover.terms.equation(made, whole)?.literal())?;
    }
    let equation = prover.terms.equation(a, whole)?.literal();
    if parts.as_slice() != [equation].as_slice() {
        lemma.hints.push(chain_step(
            prover.alloc,
            &mut prover.steps,
            equation.term(),
            &parts,
            StepRule::Path,
        )?)?;
    }
    Ok(Some(equation))
}
