// Maps but for one value.
ghost use Rattle.cert_terms.specs.Lawful.{IsLawOf};
ghost use Rattle.std.specs.Prelude.{IfOk};

use crate::clauses::two;
use crate::equality::linked;
use crate::reading::{change_of, closed, equation, is_among, place_of, same_literals};
use cert_terms::{ClauseLiteral, LineFault, LineRefusal, TermTable};
use std::alloc::Global;

/// The clause of an equation between a changed map at keys and the new value, by equations of the keys that differ.
pub fn hit(
    alloc: Global,
    table: &TermTable,
    name: usize,
    hints: &[usize],
) -> Result<Vec<ClauseLiteral>, LineFault>
    ensures { IfOk result (λ c. IsLawOf table.now c.items) }
{
    let sides = equation(table, name)?;
    let place = place_of(table, sides.left)?;
    let change = change_of(table, place.map)?;
    if change.value != sides.right {
        return Err(LineFault::Refused(LineRefusal::Shape));
    }
    let clause = linked(alloc, table, change.keys, place.keys, hints)?;
    closed(clause, name)
}

/// The clause of an equation between a changed map and the map before, both at the same keys, and of one between a key and
/// that of the change.
pub fn miss(
    alloc: Global,
    table: &TermTable,
    name: usize,
    hint: usize,
) -> Result<Vec<ClauseLiteral>, LineFault>
    ensures { IfOk result (λ c. IsLawOf table.now c.items) }
{
    let sides = equation(table, name)?;
    let place = place_of(table, sides.left)?;
    let before = place_of(table, sides.right)?;
    let change = change_of(table, place.map)?;
    let between = equation(table, hint)?;
    if change.map != before.map {
        return Err(LineFault::Refused(LineRefusal::Shape));
    }
    if !same_literals(place.keys, before.keys) {
        return Err(LineFault::Refused(LineRefusal::Shape));
    }
    if !is_among(between, change.keys, place.keys) {
        return Err(LineFault::Refused(LineRefusal::Shape));
    }
    two(alloc, ClauseLiteral::of(hint), ClauseLiteral::of(name))
}
