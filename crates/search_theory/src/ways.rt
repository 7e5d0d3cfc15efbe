// Ways between terms of one class, in the tree of its reasons.
use search_base::{SearchStop, SignedTerm};
use search_classes::{Classes, Why, arguments};
use search_state::Prover;
use std::collections::BTreeSet;

/// Two terms that are equal, and why.
#[derive(Clone, Copy)]
pub(crate) struct Edge {
    pub(crate) a: SignedTerm,
    pub(crate) b: SignedTerm,
    pub(crate) why: Why,
}

/// The edge from a term to the next one on the way to the root of its tree.
fn next_edge(classes: &Classes, it: SignedTerm) -> Option<Edge> {
    let link = classes.link(it);
    if link.next.is_none() {
        return None;
    }
    Some(Edge {
        a: it,
        b: link.next,
        why: link.why,
    })
}

/// The edges that lead from a term to an equal one.
pub(crate) fn way(prover: &Prover, a: SignedTerm, b: SignedTerm) -> Result<Vec<Edge>, SearchStop> {
    let classes = &prover.classes;
    let most = classes.entered().len().saturating_add(1);
    let (up, meet) = way_up(prover, &above(prover, a)?, b)?;
    let mut found = Vec::new(prover.alloc);
    let mut it = a;
    for _ in 0..most {
        let Some(next) = next_edge(classes, it) else {
            break;
        };
        if it == meet {
            break;
        }
        found.push(next)?;
        it = next.b;
    }
    for edge in up.iter().rev() {
        found.push(*edge)?;
    }
    Ok(found)
}

/// A term, and those on the way from it to the root of its tree.
fn above(prover: &Prover, a: SignedTerm) -> Result<BTreeSet<SignedTerm>, SearchStop> {
    let mut found = BTreeSet::new(prover.alloc);
    let mut it = a;
    for _ in 0..prover.classes.entered().len().saturating_add(1) {
        found.insert(it)?;
        match next_edge(&prover.classes, it) {
            None => break,
            Some(next) => it = next.b,
        }
    }
    Ok(found)
}

/// The edges from a term up to the first one of these, turned round; and that one.
fn way_up(
    prover: &Prover,
    ends: &BTreeSet<SignedTerm>,
    b: SignedTerm,
) -> Result<(Vec<Edge>, SignedTerm), SearchStop> {
    let mut found = Vec::new(prover.alloc);
    let mut it = b;
    for _ in 0..prover.classes.entered().len().saturating_add(1) {
        let Some(next) = next_edge(&prover.classes, it) else {
            break;
        };
        if ends.contains(&it) {
            break;
        }
        found.push(Edge {
            a: next.b,
            b: it,
            why: next.why,
        })?;
        it = next.b;
    }
    Ok((found, it))
}

/// The pairs of terms that differ whose equations an edge stands on.
pub(crate) fn below(
    prover: &Prover,
    edge: &Edge,
) -> Result<Vec<(SignedTerm, SignedTerm)>, SearchStop> {
    let mut found = Vec::new(prover.alloc);
    match edge.why {
        Why::Nothing | Why::Is(_) => {}
        Why::Same => {
            let one = arguments(prover.alloc, &prover.terms, edge.a)?;
            let two = arguments(prover.alloc, &prover.terms, edge.b)?;
            for (a, b) in one.iter().zip(&two) {
                if *a != *b {
                    found.push((*a, *b))?;
                }
            }
        }
        Why::Fold(number) => {
            for (a, b) in prover.classes.fold(number) {
                if *a != *b {
                    found.push((*a, *b))?;
                }
            }
        }
    }
    Ok(found)
}
