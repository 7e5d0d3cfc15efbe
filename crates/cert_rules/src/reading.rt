// What a reason finds at the names that it is given.
ghost use Rattle.cert_terms.specs.Lawful.{terms_of, types_of};
ghost use Rattle.std.specs.Prelude.{◌≡◌, ◌⊎◌, ◌∷◌, ◌++◌, [], IfOk, IsTrue};
ghost use Rattle.cert_rules.specs.Reasons.{no, yes, IsAmong, IsChange, IsEquation, IsNamed, IsPlace};

use boogie_tree::BOp;
use cert_terms::{CertificateTerm, ClauseLiteral, LineFault, LineRefusal, TermTable};
use std::alloc::Global;

/// The negation of the name.
pub(crate) fn no(name: usize) -> ClauseLiteral
    ensures { result ≡ no name }
{
    ClauseLiteral {
        name,
        negated: true,
    }
}

/// The two sides of an equation.
#[derive(Clone, Copy)]
pub(crate) struct EquationSides {
    pub(crate) left: ClauseLiteral,
    pub(crate) right: ClauseLiteral,
}

/// The sides of the name, which has to be an equation.
pub(crate) fn equation(table: &TermTable, name: usize) -> Result<EquationSides, LineFault>
    ensures { IfOk result (λ r. IsEquation (terms_of table.now) (types_of table.now) name r.left r.right) }
{
    table.truth(ClauseLiteral::of(name))?;
    match table.term(name)? {
        CertificateTerm::Bin(BOp::Eq, left, right) => Ok(EquationSides {
            left: *left,
            right: *right,
        }),
        _ => Err(LineFault::Refused(LineRefusal::Shape)),
    }
}

/// What the literal is, which has to be no negation.
pub(crate) fn named(
    table: &TermTable,
    literal: ClauseLiteral,
) -> Result<&CertificateTerm, LineFault>
    ensures { IfOk result (λ t. IsNamed (terms_of table.now) literal t.now) }
{
    if literal.negated {
        return Err(LineFault::Refused(LineRefusal::Shape));
    }
    table.term(literal.name)
}

/// A map at keys.
#[derive(Clone, Copy)]
pub(crate) struct MapPlace<'a> {
    pub(crate) map: usize,
    pub(crate) keys: &'a [ClauseLiteral],
}

/// The place that the literal is, which has to be one.
pub(crate) fn place_of(table: &TermTable, literal: ClauseLiteral) -> Result<MapPlace<'_>, LineFault>
    ensures { IfOk result (λ p. IsPlace (terms_of table.now) literal p.map p.keys.now) }
{
    match named(table, literal)? {
        CertificateTerm::At(map, keys) => Ok(MapPlace {
            map: *map,
            keys: keys.as_slice(),
        }),
        _ => Err(LineFault::Refused(LineRefusal::Shape)),
    }
}

/// A map but for the value at keys.
#[derive(Clone, Copy)]
pub(crate) struct MapChange<'a> {
    pub(crate) map: usize,
    pub(crate) keys: &'a [ClauseLiteral],
    pub(crate) value: ClauseLiteral,
}

/// The change that the name is, which has to be one.
pub(crate) fn change_of(table: &TermTable, name: usize) -> Result<MapChange<'_>, LineFault>
    ensures { IfOk result (λ c. IsChange (terms_of table.now) name c.map c.keys.now c.value) }
{
    match table.term(name)? {
        CertificateTerm::Put(map, keys, value) => Ok(MapChange {
            map: *map,
            keys: keys.as_slice(),
            value: *value,
        }),
        _ => Err(LineFault::Refused(LineRefusal::Shape)),
    }
}

/// Whether these are the same literals.
pub(crate) fn same_literals(left: &[ClauseLiteral], right: &[ClauseLiteral]) -> bool
    ensures { IsTrue result → left.now ≡ right.now }
{
    if left.len() != right.len() {
        return false;
    }
    for place in 0..left.len() {
        if left[place] != right[place] {
            return false;
        }
    }
    true
}

/// Whether the equation is one of these two, either way round.
pub(crate) fn is_between(sides: EquationSides, a: ClauseLiteral, b: ClauseLiteral) -> bool
    ensures { IsTrue result → ((sides.left ≡ a) × (sides.right ≡ b)) ⊎ ((sides.left ≡ b) × (sides.right ≡ a)) }
{
    (sides.left == a && sides.right == b) || (sides.left == b && sides.right == a)
}

/// Whether the equation is one of two that stand at one place of these.
pub(crate) fn is_among(
    sides: EquationSides,
    left: &[ClauseLiteral],
    right: &[ClauseLiteral],
) -> bool
    ensures { IsTrue result → IsAmong left.now right.now sides.left sides.right }
{
    for place in 0..left.len() {
        if place >= right.len() {
            return false;
        }
        if is_between(sides, left[place], right[place]) {
            return true;
        }
    }
    false
}

/// The clause with the equation of this name.
pub(crate) fn closed(
    clause: Vec<ClauseLiteral>,
    name: usize,
) -> Result<Vec<ClauseLiteral>, LineFault>
    ensures { IfOk result (λ c. c.items ≡ clause.items ++ yes name ∷ []) }
{
    let mut clause = clause;
    clause.push(ClauseLiteral::of(name))?;
    Ok(clause)
}
