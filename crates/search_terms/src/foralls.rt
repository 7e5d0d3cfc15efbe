// What a `forall` says at keys.
ghost use Rattle.std.specs.Prelude.{◌≤◌};

use crate::ops::TermOp;
use crate::terms::Terms;
use search_base::{Fuel, SearchStop, SignedTerm, TermId};
use std::alloc::Global;
use std::collections::{BTreeMap, BTreeSet};

/// A `forall`: its term, the names that it binds, and its body over them.
#[derive(Drop)]
pub struct Forall {
    pub term: TermId,
    pub marks: Vec<TermId>,
    pub body: SignedTerm,
    /// The terms in the body that speak of the names, rising: so parts stand before their whole.
    inner: BTreeSet<TermId>,
}

/// The terms in a body that speak of names that are bound.
fn inner(
    alloc: Global,
    terms: &Terms,
    body: SignedTerm,
    fuel: &mut Fuel,
) -> Result<BTreeSet<TermId>, SearchStop>
    ensures { fuel.new.left ≤ fuel.old.left }
{
    let mut found = BTreeSet::new(alloc);
    let mut todo = vec![in alloc; body.term()]?;
    while let Some(n) = todo.pop() {
        fuel.take(1)?;
        if terms.is_marked(n) && terms.op(n) != TermOp::Mark && found.insert(n)? {
            for k in 0..terms.arity(n) {
                todo.push(terms.part(n, k).term())?;
            }
        }
    }
    Ok(found)
}

/// What a literal is where terms are replaced.
fn replaced(it: SignedTerm, by: &BTreeMap<TermId, SignedTerm>) -> SignedTerm {
    match by.get(&it.term()) {
        Some(to) if it.is_negated() => to.negated(),
        Some(to) => *to,
        None => it,
    }
}

impl Forall {
    /// The `forall` of this term, with the names that it binds and its body.
    pub fn new(
        alloc: Global,
        terms: &Terms,
        term: TermId,
        marks: Vec<TermId>,
        body: SignedTerm,
        fuel: &mut Fuel,
    ) -> Result<Forall, SearchStop>
        ensures { fuel.new.left ≤ fuel.old.left }
    {
        let inner = inner(alloc, terms, body, fuel)?;
        Ok(Forall {
            term,
            marks,
            body,
            inner,
        })
    }

    /// The body with these keys for the names.
    pub fn at(
        &self,
        alloc: Global,
        keys: &[SignedTerm],
        terms: &mut Terms,
    ) -> Result<SignedTerm, SearchStop> {
        let mut made = BTreeMap::new(alloc);
        for (mark, key) in self.marks.iter().zip(keys) {
            made.insert(*mark, *key)?;
        }
        for n in &self.inner {
            let mut parts = Vec::with_capacity(alloc, terms.arity(*n))?;
            for k in 0..terms.arity(*n) {
                parts.push(replaced(terms.part(*n, k), &made))?;
            }
            let term = terms.make(terms.op(*n), &parts)?;
            made.insert(*n, term.literal())?;
        }
        Ok(replaced(self.body, &made))
    }

    /// The maps that the body reads at just the names.
    pub fn maps(&self, alloc: Global, terms: &Terms) -> Result<Vec<TermId>, SearchStop> {
        let mut found = Vec::new(alloc);
        for n in &self.inner {
            if terms.op(*n) == TermOp::At && self.is_at_names(*n, terms) {
                found.push(terms.part(*n, 0).term())?;
            }
        }
        Ok(found)
    }

    /// Whether a map is read at just the names.
    fn is_at_names(&self, n: TermId, terms: &Terms) -> bool {
        let mut k = 1usize;
        for mark in &self.marks {
            if terms.part(n, k) != mark.literal() {
                return false;
            }
            k = k.saturating_add(1);
        }
        terms.arity(n) == k
    }
}
