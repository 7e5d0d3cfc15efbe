// The end of a certificate: that each assertion is shown to hold.
ghost use Rattle.std.specs.Prelude.{◌≡◌, ◌⊎◌, ◌∷◌, [], All, IfOk, IfSome, IsTrue, OnOk, slice_get};
ghost use Rattle.cert_terms.specs.declared.terms.ClauseLiteral.{ClauseLiteral};
ghost use Rattle.cert_check.specs.Ends.{AreAlone, IsDenied, IsNoted, IsOpposed};

use crate::progress::Progress;
use boogie_formula::Fail;
use cert_terms::{ClauseLiteral, LineFault, LineRefusal};
use std::alloc::Global;
use std::collections::BTreeMap;

/// The literal that is the whole clause.
fn alone(clause: &[ClauseLiteral]) -> Option<ClauseLiteral>
    ensures { IfSome result (λ l. clause.now ≡ l ∷ []) }
{
    match clause {
        [literal] => Some(*literal),
        _ => None,
    }
}

/// Notes that a clause is just this literal.
fn note(units: &mut BTreeMap<usize, bool>, literal: ClauseLiteral) -> Result<(), LineFault>
    ensures { OnOk result ((l : ClauseLiteral) → IsNoted units.new l → IsNoted units.old l ⊎ (l ≡ literal)) }
{
    units.insert(literal.name, literal.negated)?;
    Ok(())
}

/// The literals that a clause has alone. No clauses show both a literal and its negation, so one sign is kept of each name.
fn units_of(
    alloc: Global,
    clauses: &[Vec<ClauseLiteral>],
) -> Result<BTreeMap<usize, bool>, LineFault>
    ensures { IfOk result (λ units. AreAlone units clauses.now) }
{
    let mut units = BTreeMap::new(alloc);
    for clause in clauses {
        match alone(clause) {
            Some(literal) => note(&mut units, literal)?,
            None => {}
        }
    }
    Ok(units)
}

/// Whether it is noted that a clause is just this literal.
fn is_noted(units: &BTreeMap<usize, bool>, literal: ClauseLiteral) -> bool
    ensures { IsTrue result → IsNoted units.now literal }
{
    match units.get(&literal.name) {
        Some(negated) => *negated == literal.negated,
        None => false,
    }
}

/// The literal that a name is told to be.
fn told(aliases: &[Option<ClauseLiteral>], name: usize) -> Option<ClauseLiteral>
    ensures { IfSome result (λ l. slice_get aliases.now name ≡ Some (Some l)) }
{
    match aliases.get(name) {
        Some(alias) => *alias,
        None => None,
    }
}

/// Whether a name is told to be a literal of which the negation is noted.
fn is_opposed(units: &BTreeMap<usize, bool>, aliases: &[Option<ClauseLiteral>], name: usize) -> bool
    ensures { IsTrue result → IsOpposed units.now aliases.now name }
{
    match told(aliases, name) {
        Some(literal) => is_noted(units, literal.turned()),
        None => false,
    }
}

/// Refuses where an assertion is not shown to hold.
pub(crate) fn finish(alloc: Global, shown: &Progress, fails: &[Fail]) -> Result<(), LineFault>
    ensures { OnOk result (All (λ a. IsDenied shown.now.clauses.items shown.now.aliases.items a) fails.now) }
{
    let units = units_of(alloc, &shown.clauses)?;
    for assertion in fails {
        if !is_opposed(&units, &shown.aliases, assertion.name) {
            return Err(LineFault::Refused(LineRefusal::Missing));
        }
    }
    Ok(())
}
