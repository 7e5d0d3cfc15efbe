// The search for a certificate of a procedure.
ghost use Rattle.std.specs.Prelude.{◌≤◌};

use boogie_formula::Conditions;
use search_base::{Fuel, SearchStop};
use search_reading::read;
use search_refuting::{Refutation, refute_all};
use search_state::Prover;
use search_terms::Terms;
use search_writing::write;
use std::alloc::Global;
use vb_base::{Label, Memory};

/// So many steps are enough for nearly all procedures.
pub const DEFAULT_STEPS: u64 = 26_000_000;

/// What a search found of a unit.
#[derive(Drop)]
pub enum Searched {
    /// A certificate. Nothing is promised of it: it has yet to be checked.
    Certificate(Vec<u8>),
    /// There is none; the first assertion, in the order of the conditions, that is not shown, by its label.
    Open(Label),
    /// The steps were used up (or a number went past 128 bits) before an answer.
    Spent,
}

/// Searches a certificate of a procedure of this name and these conditions, in at most `steps` steps (the fuel: proved to end it).
pub fn search(
    alloc: Global,
    name: &[u8],
    conditions: &Conditions,
    steps: u64,
) -> Result<Searched, Memory> {
    let mut fuel = Fuel::new(steps);
    let found = certificate(alloc, name, conditions, &mut fuel);
    let Fuel { left: _ } = fuel;
    match found {
        Ok(found) => Ok(found),
        Err(SearchStop::Memory) => Err(Memory),
        Err(_) => Ok(Searched::Spent),
    }
}

/// A search that knows nothing yet but the terms of these conditions.
pub fn begin(alloc: Global, conditions: &Conditions, fuel: &mut Fuel) -> Result<Prover, SearchStop>
    ensures { fuel.new.left ≤ fuel.old.left }
{
    let mut terms = Terms::new(alloc)?;
    let problem = read(alloc, conditions, &mut terms, fuel)?;
    Prover::new(alloc, problem, terms)
}

fn certificate(
    alloc: Global,
    name: &[u8],
    conditions: &Conditions,
    fuel: &mut Fuel,
) -> Result<Searched, SearchStop> {
    let mut prover = begin(alloc, conditions, fuel)?;
    match refute_all(&mut prover, fuel)? {
        Refutation::All(wanted) => {
            let text = write(
                alloc,
                &prover.problem,
                &prover.terms,
                &prover.steps,
                name,
                &wanted,
            )?;
            Ok(Searched::Certificate(text))
        }
        Refutation::Open(place) => match conditions.fails.get(place) {
            Some(fail) => Ok(Searched::Open(fail.label)),
            None => Err(SearchStop::Malformed),
        },
    }
}
