// Equality: what it leads to, and what has equal parts.
ghost use Rattle.cert_terms.specs.Lawful.{IsLawOf, terms_of, types_of};
ghost use Rattle.std.specs.Prelude.{◌≡◌, ◌⊎◌, IfOk, OnOk, List};
ghost use Rattle.boogie_tree.specs.Value.{BValue};
ghost use Rattle.cert_terms.specs.Terms.{HoldsIn};
ghost use Rattle.cert_rules.specs.Reasons.{value_of, values_of, IsLawUnless};

use crate::heads::{is_same, made_of};
use crate::reading::{EquationSides, closed, equation, is_between, no};
use cert_terms::{ClauseLiteral, LineFault, LineRefusal, TermTable};
use std::alloc::Global;

/// The hint at this place.
fn hint_at(hints: &[usize], place: usize) -> Result<usize, LineFault> {
    match hints.get(place) {
        Some(hint) => Ok(*hint),
        None => Err(LineFault::Refused(LineRefusal::Count)),
    }
}

/// Adds to the clause that these two differ, by the hint at this place, unless they are one literal. Tells the place of the
/// next hint.
fn link(
    table: &TermTable,
    a: ClauseLiteral,
    b: ClauseLiteral,
    hints: &[usize],
    place: usize,
    clause: &mut Vec<ClauseLiteral>,
) -> Result<usize, LineFault>
    ensures longer { OnOk result ((values : List BValue) → HoldsIn values clause.old.items → HoldsIn values clause.new.items) }
    ensures equal { OnOk result (IsLawUnless (terms_of table.now) (types_of table.now) clause.new.items (λ values. value_of values a ≡ value_of values b)) }
{
    if a == b {
        return Ok(place);
    }
    let hint = hint_at(hints, place)?;
    let between = equation(table, hint)?;
    if !is_between(between, a, b) {
        return Err(LineFault::Refused(LineRefusal::Shape));
    }
    clause.push(no(hint))?;
    match place.checked_add(1) {
        Some(next) => Ok(next),
        None => Err(LineFault::Refused(LineRefusal::Count)),
    }
}

/// The clause that some two of these differ, by a hint for each two that are not one literal.
pub(crate) fn linked(
    alloc: Global,
    table: &TermTable,
    left: &[ClauseLiteral],
    right: &[ClauseLiteral],
    hints: &[usize],
) -> Result<Vec<ClauseLiteral>, LineFault>
    ensures { IfOk result (λ c. IsLawUnless (terms_of table.now) (types_of table.now) c.items (λ values. values_of values left.now ≡ values_of values right.now)) }
{
    if left.len() != right.len() {
        return Err(LineFault::Refused(LineRefusal::Shape));
    }
    let mut clause = Vec::new(alloc);
    let mut next = 0;
    for place in 0..left.len() {
        let after = link(table, left[place], right[place], hints, next, &mut clause)?;
        next = after;
    }
    if next != hints.len() {
        return Err(LineFault::Refused(LineRefusal::Count));
    }
    Ok(clause)
}

/// The side of the equation that is not this one.
fn across(sides: EquationSides, at: ClauseLiteral) -> Result<ClauseLiteral, LineFault>
    ensures { IfOk result (λ r. ((sides.left ≡ at) × (sides.right ≡ r)) ⊎ ((sides.right ≡ at) × (sides.left ≡ r))) }
{
    if sides.left == at {
        return Ok(sides.right);
    }
    if sides.right == at {
        return Ok(sides.left);
    }
    Err(LineFault::Refused(LineRefusal::Shape))
}

/// The clause of an equation to whose right side these equations lead from its left side.
pub fn path(
    alloc: Global,
    table: &TermTable,
    name: usize,
    hints: &[usize],
) -> Result<Vec<ClauseLiteral>, LineFault>
    ensures { IfOk result (λ c. IsLawOf table.now c.items) }
{
    let sides = equation(table, name)?;
    let mut clause = Vec::new(alloc);
    let mut at = sides.left;
    for hint in hints {
        let between = equation(table, *hint)?;
        let next = across(between, at)?;
        clause.push(no(*hint))?;
        at = next;
    }
    if at != sides.right {
        return Err(LineFault::Refused(LineRefusal::Shape));
    }
    closed(clause, name)
}

/// The clause of an equation between what one operator makes of parts that these equations tell equal.
pub fn same(
    alloc: Global,
    table: &TermTable,
    name: usize,
    hints: &[usize],
) -> Result<Vec<ClauseLiteral>, LineFault>
    ensures { IfOk result (λ c. IsLawOf table.now c.items) }
{
    let sides = equation(table, name)?;
    let left = made_of(alloc, table, sides.left)?;
    let right = made_of(alloc, table, sides.right)?;
    if !is_same(left.head, right.head) {
        return Err(LineFault::Refused(LineRefusal::Shape));
    }
    let clause = linked(alloc, table, &left.parts, &right.parts, hints)?;
    closed(clause, name)
}
