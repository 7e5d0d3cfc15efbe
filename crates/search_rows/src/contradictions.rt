// Contradictions among rows, and values at which there is none.
ghost use Rattle.std.specs.Prelude.{◌≤◌};

use crate::pruning::needed;
use crate::rows::{LinearRow, Point};
use crate::simplex::Simplex;
use search_base::{Fuel, SearchStop};
use std::alloc::Global;

/// So many turns of a simplex are made, and then the search ends.
const MOST_TURNS: u32 = 20_000;

/// Rows that contradict each other, as one. Of what is not 0 none is looked at.
pub fn contradiction(
    alloc: Global,
    rows: &[LinearRow],
    fuel: &mut Fuel,
) -> Result<Option<LinearRow>, SearchStop>
    ensures { fuel.new.left ≤ fuel.old.left }
{
    let rows = needed(alloc, rows, &[], fuel)?;
    if rows.is_empty() {
        return Ok(None);
    }
    fuel.take(rows.len())?;
    let mut simplex = Simplex::new(alloc, &rows)?;
    simplex.solve(MOST_TURNS, fuel)
}

/// Values at which some rows, which have no contradiction, are true.
pub fn solution(alloc: Global, rows: &[LinearRow], fuel: &mut Fuel) -> Result<Point, SearchStop>
    ensures { fuel.new.left ≤ fuel.old.left }
{
    fuel.take(rows.len())?;
    let mut simplex = Simplex::new(alloc, rows)?;
    simplex.solve(MOST_TURNS, fuel)?;
    simplex.point()
}
