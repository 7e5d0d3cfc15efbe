// What the truth values of terms say of each other, and choices.
ghost use Rattle.cert_terms.specs.Lawful.{IsLawOf, terms_of, types_of};
ghost use Rattle.std.specs.Prelude.{◌≡◌, ◌⊎◌, ◌∷◌, [], Some, IfOk, OnOk, List, slice_get};
ghost use Rattle.boogie_tree.specs.Value.{BValue};
ghost use Rattle.cert_terms.specs.Literals.{turned};
ghost use Rattle.cert_terms.specs.Terms.{HoldsIn, IsTruth};
ghost use Rattle.cert_terms.specs.declared.terms.CertificateTerm.TheVariants as term;
ghost use Rattle.cert_rules.specs.Gates.{IsAnd, IsEqual, IsIf};
ghost use Rattle.cert_rules.specs.Reasons.{yes};

use crate::clauses::{one, three, two};
use crate::reading::{equation, named, place_of, same_literals};
use boogie_tree::BOp;
use cert_terms::{CertificateTerm, ClauseLiteral, LineFault, LineRefusal, TermTable};
use std::alloc::Global;

/// A clause of n = a && b.
fn and_gate(
    alloc: Global,
    n: ClauseLiteral,
    a: ClauseLiteral,
    b: ClauseLiteral,
    case: usize,
) -> Result<Vec<ClauseLiteral>, LineFault>
    ensures { IfOk result (λ c. (values : List BValue) → IsAnd values n a b → HoldsIn values c.items) }
{
    match case {
        0 => three(alloc, n, a.turned(), b.turned()),
        1 => two(alloc, n.turned(), a),
        2 => two(alloc, n.turned(), b),
        _ => Err(LineFault::Refused(LineRefusal::Case)),
    }
}

/// A clause of n = (a == b) between truth values.
fn equal_gate(
    alloc: Global,
    n: ClauseLiteral,
    a: ClauseLiteral,
    b: ClauseLiteral,
    case: usize,
) -> Result<Vec<ClauseLiteral>, LineFault>
    ensures { IfOk result (λ c. (values : List BValue) → IsEqual values n a b → HoldsIn values c.items) }
{
    match case {
        0 => three(alloc, n, a, b),
        1 => three(alloc, n, a.turned(), b.turned()),
        2 => three(alloc, n.turned(), a.turned(), b),
        3 => three(alloc, n.turned(), a, b.turned()),
        _ => Err(LineFault::Refused(LineRefusal::Case)),
    }
}

/// A clause of n = if c a b, a truth value.
fn if_gate(
    alloc: Global,
    n: ClauseLiteral,
    c: ClauseLiteral,
    a: ClauseLiteral,
    b: ClauseLiteral,
    case: usize,
) -> Result<Vec<ClauseLiteral>, LineFault>
    ensures { IfOk result (λ r. (values : List BValue) → IsIf values n c a b → HoldsIn values r.items) }
{
    match case {
        0 => three(alloc, n.turned(), c.turned(), a),
        1 => three(alloc, n.turned(), c, b),
        2 => three(alloc, n, c.turned(), a.turned()),
        3 => three(alloc, n, c, b.turned()),
        _ => Err(LineFault::Refused(LineRefusal::Case)),
    }
}

/// Refuses sides that are no truth values.
fn truths(table: &TermTable, a: ClauseLiteral, b: ClauseLiteral) -> Result<(), LineFault>
    ensures left { OnOk result (IsTruth (types_of table.now) a) }
    ensures right { OnOk result (IsTruth (types_of table.now) b) }
{
    table.truth(a)?;
    table.truth(b)
}

/// A clause of the truth table of an operator with two sides.
fn binary_gate(
    alloc: Global,
    table: &TermTable,
    name: usize,
    op: BOp,
    a: ClauseLiteral,
    b: ClauseLiteral,
    case: usize,
) -> Result<Vec<ClauseLiteral>, LineFault>
    requires there { slice_get (terms_of table.now) name ≡ Some (term.Bin op a b) }
    requires truth { IsTruth (types_of table.now) (yes name) }
    ensures { IfOk result (λ c. IsLawOf table.now c.items) }
{
    match op {
        BOp::And => and_gate(alloc, ClauseLiteral::of(name), a, b, case),
        BOp::Eq => {
            truths(table, a, b)?;
            equal_gate(alloc, ClauseLiteral::of(name), a, b, case)
        }
        _ => Err(LineFault::Refused(LineRefusal::Shape)),
    }
}

/// A clause of the truth table of an operator, by its number.
pub fn gate(
    alloc: Global,
    table: &TermTable,
    name: usize,
    case: usize,
) -> Result<Vec<ClauseLiteral>, LineFault>
    ensures { IfOk result (λ c. IsLawOf table.now c.items) }
{
    table.truth(ClauseLiteral::of(name))?;
    let term = table.term(name)?;
    match term {
        CertificateTerm::Bool(true) => one(alloc, ClauseLiteral::of(name)),
        CertificateTerm::Bin(op, left, right) => binary_gate(
            alloc, table, name, *op, *left, *right, case,
        ),
        CertificateTerm::If(condition, first, second) => {
            if_gate(
                alloc,
                ClauseLiteral::of(name),
                *condition,
                *first,
                *second,
                case,
            )
        }
        _ => Err(LineFault::Refused(LineRefusal::Shape)),
    }
}

/// The clause that the equation holds unless the condition chooses the other side, where it is of the side that is chosen.
fn chosen(
    alloc: Global,
    name: usize,
    side: ClauseLiteral,
    c: ClauseLiteral,
    a: ClauseLiteral,
    b: ClauseLiteral,
    which: usize,
) -> Result<Vec<ClauseLiteral>, LineFault>
    ensures { IfOk result (λ r. ((side ≡ a) × (r.items ≡ turned c ∷ yes name ∷ [])) ⊎ ((side ≡ b) × (r.items ≡ c ∷ yes name ∷ []))) }
{
    if which == 0 && side == a {
        return two(alloc, c.turned(), ClauseLiteral::of(name));
    }
    if which == 1 && side == b {
        return two(alloc, c, ClauseLiteral::of(name));
    }
    Err(LineFault::Refused(LineRefusal::Case))
}

/// The case of a place of a choice between maps.
fn place_case(
    alloc: Global,
    table: &TermTable,
    name: usize,
    which: usize,
) -> Result<Vec<ClauseLiteral>, LineFault>
    ensures { IfOk result (λ c. IsLawOf table.now c.items) }
{
    let sides = equation(table, name)?;
    let place = place_of(table, sides.left)?;
    let other = place_of(table, sides.right)?;
    if !same_literals(place.keys, other.keys) {
        return Err(LineFault::Refused(LineRefusal::Shape));
    }
    let term = table.term(place.map)?;
    match term {
        CertificateTerm::If(condition, first, second) => chosen(
            alloc,
            name,
            ClauseLiteral::of(other.map),
            *condition,
            *first,
            *second,
            which,
        ),
        _ => Err(LineFault::Refused(LineRefusal::Shape)),
    }
}

/// The case of a choice between values.
fn value_case(
    alloc: Global,
    table: &TermTable,
    name: usize,
    which: usize,
) -> Result<Vec<ClauseLiteral>, LineFault>
    ensures { IfOk result (λ c. IsLawOf table.now c.items) }
{
    let sides = equation(table, name)?;
    let term = named(table, sides.left)?;
    match term {
        CertificateTerm::If(condition, first, second) => {
            chosen(alloc, name, sides.right, *condition, *first, *second, which)
        }
        _ => Err(LineFault::Refused(LineRefusal::Shape)),
    }
}

/// The clause of an equation between a choice and the side that is chosen, or between a place of a choice of maps and the
/// same place of the map that is chosen.
pub fn case(
    alloc: Global,
    table: &TermTable,
    name: usize,
    which: usize,
) -> Result<Vec<ClauseLiteral>, LineFault>
    ensures { IfOk result (λ c. IsLawOf table.now c.items) }
{
    match named(table, equation(table, name)?.left)? {
        CertificateTerm::At(_, _) => place_case(alloc, table, name, which),
        _ => value_case(alloc, table, name, which),
    }
}
