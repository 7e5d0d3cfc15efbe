// What is paid for the memory of a search.
ghost use Rattle.std.specs.Prelude.{◌≤◌};

use search_base::{Fuel, SearchStop};
use search_rows::LinearRow;
use search_state::Prover;

/// What is paid for a term, a step, and a term or source of a row, by the memory that they take in all lists and that lies idle between
/// these.
const COST_OF_TERM: usize = 48;

const COST_OF_STEP: usize = 32;

const COST_OF_ENTRY: usize = 14;

/// What all that a search keeps costs.
fn cost_of_kept(prover: &Prover) -> usize {
    let terms = prover.terms.end().saturating_mul(COST_OF_TERM);
    let steps = prover.steps.end().saturating_mul(COST_OF_STEP);
    let solved = entries(prover.numbers.solved.rows());
    let entries = solved.saturating_add(entries(&prover.numbers.rows));
    terms
        .saturating_add(steps)
        .saturating_add(entries.saturating_mul(COST_OF_ENTRY))
}

/// How many terms and sources rows have.
fn entries(rows: &[LinearRow]) -> usize {
    let mut found: usize = 0;
    for row in rows {
        found = found.saturating_add(row.terms.len());
        found = found.saturating_add(row.sources.len());
    }
    found
}

/// What was paid for memory: for the most that a search kept so far.
#[derive(Clone, Copy, Default)]
pub struct Paid {
    cost: usize,
}

impl Paid {
    /// Pays for what a search keeps beyond that.
    pub(crate) fn pay(&mut self, prover: &Prover, fuel: &mut Fuel) -> Result<(), SearchStop>
        ensures { fuel.new.left ≤ fuel.old.left }
    {
        let cost = cost_of_kept(prover);
        if cost <= self.cost {
            return Ok(());
        }
        let more = cost - self.cost;
        self.cost = cost;
        fuel.take(more)
    }
}
