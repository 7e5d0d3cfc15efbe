// What a search knows.
use crate::notes::{Conditional, Instance, ProductNotes, Said};
use search_agenda::{Agenda, Item};
use search_base::{SearchStop, SignedTerm, TermId, number, push_to};
use search_classes::Classes;
use search_numbers::NumberTheory;
use search_paths::Paths;
use search_steps::Steps;
use search_terms::{Problem, Terms};
use search_values::Values;
use std::alloc::Global;
use std::collections::{BTreeMap, BTreeSet};

/// What a search knows. It refutes one goal after the other: literals that say that an assertion fails.
#[derive(Drop)]
pub struct Prover {
    pub problem: Problem,
    pub terms: Terms,
    pub steps: Steps,
    pub values: Values,
    pub classes: Classes,
    pub numbers: NumberTheory,
    pub paths: Paths,
    pub agenda: Agenda,
    pub products: ProductNotes,
    /// The places on the way to the goal that are decided, each in a level of its own: what was looked at there is not looked at anew
    /// for the next goal behind them.
    pub bases: Vec<SignedTerm>,
    /// By term, whether its clauses are there, and whether it is the body of a `forall`.
    pub gated: Vec<bool>,
    pub bodies: Vec<bool>,
    /// By map, the numbers of the `forall`s that read it at just their names.
    pub triggers: Vec<Vec<u32>>,
    /// What `forall`s say at keys, by their numbers.
    pub instances: BTreeMap<(u32, Vec<SignedTerm>), Instance>,
    /// Equations of terms that are linked to those of their contents.
    pub linked: BTreeSet<(TermId, TermId)>,
    /// What follows at a place, and what was used there at least once.
    pub said: BTreeMap<(SignedTerm, SignedTerm), Said>,
    pub used: BTreeSet<(SignedTerm, SignedTerm)>,
    /// By term, how often it was wanted as an equation of keys.
    pub wanted: Vec<u32>,
    /// The item that is looked at.
    pub item: Item,
    /// The choices of numbers among items.
    pub choices: BTreeMap<Item, Conditional>,
    /// Comparisons of numbers that are open: whether what is known of numbers decides them is looked at before anything is decided.
    pub probes: BTreeSet<TermId>,
    /// The choices that were bounded for the goal, with their conditions and the classes of their values.
    pub bounded: BTreeSet<(TermId, SignedTerm, SignedTerm, SignedTerm)>,
    /// How many branches were made for the goal.
    pub branches: u32,
    /// How many terms had a value when all was looked at again.
    pub looked_through: Option<usize>,
    /// Whether a goal behind a branch is looked at where a run came through the side that was looked at last.
    pub by_side: bool,
    /// How many decisions were made since a step was false.
    pub calm: u64,
    pub alloc: Global,
}

impl Prover {
    /// Nothing is known yet but the terms of the conditions. `Memory` where there is no memory.
    pub fn new(alloc: Global, problem: Problem, terms: Terms) -> Result<Prover, SearchStop> {
        let triggers = triggers(alloc, &problem, &terms)?;
        Ok(Prover {
            problem,
            terms,
            steps: Steps::new(alloc)?,
            values: Values::new(alloc)?,
            classes: Classes::new(alloc)?,
            numbers: NumberTheory::new(alloc),
            paths: Paths::new(alloc),
            agenda: Agenda::new(alloc),
            products: ProductNotes::new(alloc),
            bases: Vec::new(alloc),
            gated: Vec::new(alloc),
            bodies: Vec::new(alloc),
            triggers,
            instances: BTreeMap::new(alloc),
            linked: BTreeSet::new(alloc),
            said: BTreeMap::new(alloc),
            used: BTreeSet::new(alloc),
            wanted: Vec::new(alloc),
            item: Item::default(),
            choices: BTreeMap::new(alloc),
            probes: BTreeSet::new(alloc),
            bounded: BTreeSet::new(alloc),
            branches: 0,
            looked_through: None,
            by_side: true,
            calm: 0,
            alloc,
        })
    }
}

/// By map, the numbers of the `forall`s that read it at just their names.
fn triggers(alloc: Global, problem: &Problem, terms: &Terms) -> Result<Vec<Vec<u32>>, SearchStop> {
    let mut found = Vec::new(alloc);
    for (n, forall) in problem.foralls.iter().enumerate() {
        let place = number(n)?;
        for map in &forall.maps(alloc, terms)? {
            push_to(alloc, &mut found, map.place(), place)?;
        }
    }
    Ok(found)
}
