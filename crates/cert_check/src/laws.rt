// The clauses that the terms alone give.
ghost use Rattle.std.specs.Prelude.{IfOk};
ghost use Rattle.cert_terms.specs.Lawful.{IsLawOf};

use crate::names::{NameCounts, count, first, only, three, two};
use crate::words::{Listed, Paired, Reason, Single, Triple};
use cert_linear::sum;
use cert_rules::{
    FactorLaw, above, apart, below, case, gate, hit, inside, miss, over, part, path, rest, ring,
    same, split, times, zero,
};
use cert_terms::{ClauseLiteral, LineFault, LineRefusal, TermTable};
use std::alloc::Global;

/// What the numbers of a step are looked up in.
#[derive(Clone, Copy)]
pub(crate) struct StepContext<'a> {
    pub(crate) alloc: Global,
    pub(crate) table: &'a TermTable,
    pub(crate) names: NameCounts,
}

/// The clause of a reason that speaks of terms alone.
pub(crate) fn law(
    scope: StepContext,
    reason: Reason,
    numbers: &[i128],
) -> Result<Vec<ClauseLiteral>, LineFault>
    ensures { IfOk result (λ c. IsLawOf scope.entry.table.now c.items) }
{
    match reason {
        Reason::Gate => {
            let (name, which) = two(numbers)?;
            gate(
                scope.alloc,
                scope.table,
                scope.names.name(name)?,
                count(which)?,
            )
        }
        Reason::Case => {
            let (name, which) = two(numbers)?;
            case(
                scope.alloc,
                scope.table,
                scope.names.name(name)?,
                count(which)?,
            )
        }
        Reason::Listed(listed) => of_list(scope, listed, numbers),
        Reason::Paired(paired) => of_pair(scope, paired, numbers),
        Reason::Single(single) => of_one(scope, single, numbers),
        Reason::Triple(triple) => of_three(scope, triple, numbers),
        Reason::Inside => of_places(scope, numbers),
        Reason::Sum => of_sum(scope, numbers),
        Reason::Inst | Reason::Rup => Err(LineFault::Refused(LineRefusal::Word)),
    }
}

fn of_list(
    scope: StepContext,
    listed: Listed,
    numbers: &[i128],
) -> Result<Vec<ClauseLiteral>, LineFault>
    ensures { IfOk result (λ c. IsLawOf scope.entry.table.now c.items) }
{
    let (equation, others) = first(numbers)?;
    let name = scope.names.name(equation)?;
    let hints = scope.names.names(scope.alloc, others)?;
    match listed {
        Listed::Hit => hit(scope.alloc, scope.table, name, &hints),
        Listed::Path => path(scope.alloc, scope.table, name, &hints),
        Listed::Same => same(scope.alloc, scope.table, name, &hints),
    }
}

fn of_pair(
    scope: StepContext,
    paired: Paired,
    numbers: &[i128],
) -> Result<Vec<ClauseLiteral>, LineFault>
    ensures { IfOk result (λ c. IsLawOf scope.entry.table.now c.items) }
{
    let (one, other) = two(numbers)?;
    let one = scope.names.name(one)?;
    let other = scope.names.name(other)?;
    match paired {
        Paired::Miss => miss(scope.alloc, scope.table, one, other),
        Paired::Part => part(scope.alloc, scope.table, one, other),
        Paired::Over => over(
            scope.alloc,
            scope.table,
            ClauseLiteral::of(one),
            ClauseLiteral::of(other),
        ),
        Paired::Zero => zero(
            scope.alloc,
            scope.table,
            ClauseLiteral::of(one),
            ClauseLiteral::of(other),
        ),
        Paired::Below => below(scope.alloc, scope.table, one, other),
    }
}

fn of_one(
    scope: StepContext,
    single: Single,
    numbers: &[i128],
) -> Result<Vec<ClauseLiteral>, LineFault>
    ensures { IfOk result (λ c. IsLawOf scope.entry.table.now c.items) }
{
    let name = scope.names.name(only(numbers)?)?;
    match single {
        Single::Apart => apart(scope.alloc, scope.table, name),
        Single::Rest => rest(scope.alloc, scope.table, name),
        Single::Ring => ring(scope.alloc, scope.table, name),
    }
}

fn of_three(
    scope: StepContext,
    triple: Triple,
    numbers: &[i128],
) -> Result<Vec<ClauseLiteral>, LineFault>
    ensures { IfOk result (λ c. IsLawOf scope.entry.table.now c.items) }
{
    let (one, other, last) = three(numbers)?;
    let one = scope.names.name(one)?;
    let other = scope.names.name(other)?;
    let last = scope.names.name(last)?;
    match triple {
        Triple::Split => split(scope.alloc, scope.table, one, other, last),
        Triple::Times => times(scope.alloc, scope.table, factor_law(one, other, last)),
        Triple::Above => above(scope.alloc, scope.table, factor_law(one, other, last)),
    }
}

fn factor_law(first: usize, second: usize, comparison: usize) -> FactorLaw {
    FactorLaw {
        first: ClauseLiteral::of(first),
        second: ClauseLiteral::of(second),
        comparison: ClauseLiteral::of(comparison),
    }
}

fn of_places(scope: StepContext, numbers: &[i128]) -> Result<Vec<ClauseLiteral>, LineFault>
    ensures { IfOk result (λ c. IsLawOf scope.entry.table.now c.items) }
{
    let (equation, others) = first(numbers)?;
    let name = scope.names.name(equation)?;
    let mut places = Vec::with_capacity(scope.alloc, others.len())?;
    for number in others {
        places.push(count(*number)?)?;
    }
    inside(scope.alloc, scope.table, name, &places)
}

/// The literals and the terms of a sum, each with its weight before it. A 0 stands between the two lists.
fn of_sum(scope: StepContext, numbers: &[i128]) -> Result<Vec<ClauseLiteral>, LineFault>
    ensures { IfOk result (λ c. IsLawOf scope.entry.table.now c.items) }
{
    let mut literals = Vec::new(scope.alloc);
    let mut terms = Vec::new(scope.alloc);
    let mut weight = None;
    let mut behind = false;
    for number in numbers {
        match weight {
            None => {
                if *number == 0 && !behind {
                    behind = true;
                } else {
                    weight = Some(*number);
                }
            }
            Some(times) => {
                if behind {
                    terms.push((times, scope.names.name(*number)?))?;
                } else {
                    literals.push((times, scope.names.literal(*number)?))?;
                }
                weight = None;
            }
        }
    }
    if weight.is_some() || !behind {
        return Err(LineFault::Refused(LineRefusal::Count));
    }
    sum(scope.alloc, scope.table, &literals, &terms)
}
