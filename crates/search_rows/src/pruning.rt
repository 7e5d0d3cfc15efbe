// The rows that may contradict each other.
ghost use Rattle.std.specs.Prelude.{◌≤◌};

use crate::rows::{LinearRow, RowSign};
use search_base::{Fuel, SearchStop, TermId};
use std::alloc::Global;
use std::collections::BTreeSet;

/// The terms that stand in rows with a factor above 0, and those with one below.
#[derive(Drop)]
struct Ways {
    rising: BTreeSet<TermId>,
    falling: BTreeSet<TermId>,
}

impl Ways {
    fn of(alloc: Global, rows: &[&LinearRow]) -> Result<Ways, SearchStop> {
        let mut found = Ways {
            rising: BTreeSet::new(alloc),
            falling: BTreeSet::new(alloc),
        };
        for row in rows {
            for (term, by) in &row.terms {
                if by.is_positive() {
                    found.rising.insert(*term)?;
                } else {
                    found.falling.insert(*term)?;
                }
            }
        }
        Ok(found)
    }

    fn has_both(&self, term: &TermId) -> bool {
        self.rising.contains(term) && self.falling.contains(term)
    }
}

/// The rows that may contradict each other: a term that stands in them one way alone, if it is not among those kept, which rise,
/// makes its rows true. Of what is not 0 none is given.
pub fn needed(
    alloc: Global,
    rows: &[LinearRow],
    kept: &[TermId],
    fuel: &mut Fuel,
) -> Result<Vec<LinearRow>, SearchStop>
    ensures { fuel.new.left ≤ fuel.old.left }
{
    let mut left: Vec<&LinearRow> = rows
        .iter()
        .filter(|it| it.sign != RowSign::NotZero)
        .collect(alloc)?;
    for _ in 0..rows.len() {
        fuel.take(left.len())?;
        let ways = Ways::of(alloc, &left)?;
        let before = left.len();
        left.retain(|row| row.terms.iter().all(|it| kept.binary_search(&it.0).is_ok()
            || ways.has_both(&it.0)));
        if left.len() == before {
            break;
        }
    }
    let mut found = Vec::with_capacity(alloc, left.len())?;
    for row in &left {
        found.push(row.again()?)?;
    }
    Ok(found)
}
