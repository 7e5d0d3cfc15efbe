// A clause by clauses that are shown: with all its literals false, these contradict.
ghost use Rattle.cert_terms.specs.Lawful.{types_of};
ghost use Rattle.std.specs.Prelude.{◌≡◌, ◌⊎◌, ◌↔◌, Some, All, IfOk, OnOk, IsTrue, slice_get};
ghost use Rattle.cert_terms.specs.declared.terms.ClauseLiteral.{ClauseLiteral};
ghost use Rattle.cert_rules.specs.Reasons.{IsStep};
ghost use Rattle.cert_rules.specs.Refutes.{IsNoted, AreFalse, HoldsUnless, FollowsFrom};

use cert_terms::{ClauseLiteral, LineFault, LineRefusal, TermTable};
use std::alloc::Global;
use std::collections::BTreeMap;

/// Notes that the literal is false.
fn note_false(known: &mut BTreeMap<usize, bool>, literal: ClauseLiteral) -> Result<(), LineFault>
    ensures { OnOk result ((l : ClauseLiteral) → IsNoted known.new l → IsNoted known.old l ⊎ (l ≡ literal)) }
{
    known.insert(literal.name, literal.negated)?;
    Ok(())
}

/// Whether it is noted that the literal is false.
fn is_false(known: &BTreeMap<usize, bool>, literal: ClauseLiteral) -> bool
    ensures { IsTrue result ↔ IsNoted known.now literal }
{
    match known.get(&literal.name) {
        Some(negated) => *negated == literal.negated,
        None => false,
    }
}

/// Each literal of the clause is a truth value, and is noted to be false.
fn begin(
    alloc: Global,
    table: &TermTable,
    clause: &[ClauseLiteral],
) -> Result<BTreeMap<usize, bool>, LineFault>
    ensures { IfOk result (λ known. HoldsUnless (types_of table.now) clause.now (AreFalse known)) }
{
    let mut known = BTreeMap::new(alloc);
    for literal in clause {
        table.truth(*literal)?;
        note_false(&mut known, *literal)?;
    }
    Ok(known)
}

/// The one literal of the step that is not noted to be false, if there is one. There have to be no two.
fn remaining(
    known: &BTreeMap<usize, bool>,
    step: &[ClauseLiteral],
) -> Result<Option<ClauseLiteral>, LineFault>
    ensures { IfOk result (λ left. All (λ l. IsNoted known.now l ⊎ (left ≡ Some l)) step.now) }
{
    let mut left: Option<ClauseLiteral> = None;
    for literal in step {
        if !is_false(known, *literal) {
            match left {
                None => left = Some(*literal),
                Some(other) => {
                    if other != *literal {
                        return Err(LineFault::Refused(LineRefusal::Hint));
                    }
                }
            }
        }
    }
    Ok(left)
}

/// The clause of a step.
fn step_at(clauses: &[Vec<ClauseLiteral>], hint: usize) -> Result<&[ClauseLiteral], LineFault>
    ensures { IfOk result (λ step. IsStep clauses.now hint step.now) }
{
    match clauses.get(hint) {
        Some(step) => Ok(step.as_slice()),
        None => Err(LineFault::Refused(LineRefusal::Name)),
    }
}

/// Refuses a clause that does not follow from these steps in this order: with all its literals false, each has all its
/// literals false, which ends it, or all but one, which is then true.
fn refute(
    alloc: Global,
    table: &TermTable,
    clauses: &[Vec<ClauseLiteral>],
    clause: &[ClauseLiteral],
    hints: &[usize],
) -> Result<(), LineFault>
    ensures { OnOk result (FollowsFrom (types_of table.now) clauses.now clause.now) }
{
    let mut known = begin(alloc, table, clause)?;
    for hint in hints {
        match remaining(&known, step_at(clauses, *hint)?)? {
            None => return Ok(()),
            Some(literal) => note_false(&mut known, literal.turned())?,
        }
    }
    Err(LineFault::Refused(LineRefusal::Open))
}

/// The clause, which holds wherever these steps do.
pub fn rup(
    alloc: Global,
    table: &TermTable,
    clauses: &[Vec<ClauseLiteral>],
    clause: Vec<ClauseLiteral>,
    hints: &[usize],
) -> Result<Vec<ClauseLiteral>, LineFault>
    ensures { IfOk result (λ c. FollowsFrom (types_of table.now) clauses.now c.items) }
{
    refute(alloc, table, clauses, &clause, hints)?;
    Ok(clause)
}
