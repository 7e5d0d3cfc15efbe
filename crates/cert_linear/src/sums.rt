// The reason `sum`.
ghost use Rattle.std.specs.Prelude.{IfOk, OnOk, List};
ghost use Rattle.cert_terms.specs.declared.terms.ClauseLiteral.{ClauseLiteral};
ghost use Rattle.cert_terms.specs.Lawful.{IsLawOf};
ghost use Rattle.cert_terms.specs.Terms.{IsLaw};
ghost use Rattle.cert_terms.specs.View.{terms_in, types_in};
ghost use Rattle.cert_linear.specs.Numbers.{Follows};

use crate::literals::row;
use crate::meanings::meaning;
use crate::totals::Sum;
use cert_terms::{ClauseLiteral, LineFault, TermTable, TypedTerm};
use std::alloc::Global;

/// Adds a literal to a clause, and with a weight what is known where it is false to a sum.
fn add_literal(
    names: &[TypedTerm],
    weight: i128,
    literal: ClauseLiteral,
    total: &mut Sum,
    clause: &mut Vec<ClauseLiteral>,
) -> Result<(), LineFault>
    ensures { OnOk result (Follows (terms_in names.now) (types_in names.now) clause.old.items total.old.products.items total.old.number total.old.sign → Follows (terms_in names.now) (types_in names.now) clause.new.items total.new.products.items total.new.number total.new.sign) }
{
    let known = row(names, literal)?;
    total.add(weight, &known)?;
    clause.push(literal)?;
    Ok(())
}

/// Adds what a name is to a sum with a weight.
fn add_name(
    names: &[TypedTerm],
    weight: i128,
    name: usize,
    total: &mut Sum,
) -> Result<(), LineFault>
    ensures { OnOk result ((clause : List ClauseLiteral) → Follows (terms_in names.now) (types_in names.now) clause total.old.products.items total.old.number total.old.sign → Follows (terms_in names.now) (types_in names.now) clause total.new.products.items total.new.number total.new.sign) }
{
    let known = meaning(names, name)?;
    total.add(weight, &known)?;
    Ok(())
}

/// The clause of these literals, if a contradiction follows where all of them are false: what is known of numbers then, and what these
/// terms are, each with its weight.
fn contradicted(
    alloc: Global,
    names: &[TypedTerm],
    literals: &[(i128, ClauseLiteral)],
    terms: &[(i128, usize)],
) -> Result<Vec<ClauseLiteral>, LineFault>
    ensures { IfOk result (λ clause. IsLaw (terms_in names.now) (types_in names.now) clause.items) }
{
    let mut total = Sum::new(alloc);
    let mut clause = Vec::new(alloc);
    for (weight, literal) in literals {
        add_literal(names, *weight, *literal, &mut total, &mut clause)?;
    }
    for (weight, name) in terms {
        add_name(names, *weight, *name, &mut total)?;
    }
    total.contradict()?;
    Ok(clause)
}

/// The clause of these literals. Each says, where it is false, how a sum of numbers stands to 0, and each of these terms is such a sum
/// that is 0. All are taken as often as their weights say, and together no name is left, and a number that does not stand to 0 as it
/// has to. What is known of ints that are not at most others counts: they are above them by 1.
pub fn sum(
    alloc: Global,
    table: &TermTable,
    literals: &[(i128, ClauseLiteral)],
    terms: &[(i128, usize)],
) -> Result<Vec<ClauseLiteral>, LineFault>
    ensures law { IfOk result (λ clause. IsLawOf table.now clause.items) }
{
    let clause = contradicted(alloc, &table.names, literals, terms)?;
    Ok(clause)
}
