// Contents, which constructors make.
ghost use Rattle.cert_terms.specs.Lawful.{IsLawOf, terms_of};
ghost use Rattle.std.specs.Prelude.{◌≡◌, IfOk, IsTrue};
ghost use Rattle.cert_rules.specs.Heads.{is_constructor, IsConstructed, IsPart};

use crate::clauses::{one, two};
use crate::heads::{MadeTerm, TermHead, is_same, made_of};
use crate::reading::{equation, is_among, no};
use cert_terms::{ClauseLiteral, LineFault, LineRefusal, TermTable};
use std::alloc::Global;

/// Whether it makes a content.
fn is_constructor(head: TermHead) -> bool
    ensures { result ≡ is_constructor head }
{
    matches!(
        head,
        TermHead::Unit
            | TermHead::SInt
            | TermHead::SBool
            | TermHead::SRef
            | TermHead::SPerm
            | TermHead::Pair
    )
}

/// What the literal is made of, which has to be a constructor.
fn constructed(
    alloc: Global,
    table: &TermTable,
    literal: ClauseLiteral,
) -> Result<MadeTerm, LineFault>
    ensures { IfOk result (λ m. IsConstructed (terms_of table.now) literal m.head m.parts.items) }
{
    let made = made_of(alloc, table, literal)?;
    if !is_constructor(made.head) {
        return Err(LineFault::Refused(LineRefusal::Shape));
    }
    Ok(made)
}

/// The clause that what one constructor makes is equal only where this part is.
pub fn part(
    alloc: Global,
    table: &TermTable,
    name: usize,
    hint: usize,
) -> Result<Vec<ClauseLiteral>, LineFault>
    ensures { IfOk result (λ c. IsLawOf table.now c.items) }
{
    let sides = equation(table, name)?;
    let left = constructed(alloc, table, sides.left)?;
    let right = constructed(alloc, table, sides.right)?;
    let between = equation(table, hint)?;
    if !is_same(left.head, right.head) {
        return Err(LineFault::Refused(LineRefusal::Shape));
    }
    if !is_among(between, &left.parts, &right.parts) {
        return Err(LineFault::Refused(LineRefusal::Shape));
    }
    two(alloc, no(name), ClauseLiteral::of(hint))
}

/// Whether these are two constructors.
fn are_apart(a: TermHead, b: TermHead) -> bool
    ensures { IsTrue result → a ≡ b → ⊥ }
{
    match a {
        TermHead::Unit => !matches!(b, TermHead::Unit),
        TermHead::SInt => !matches!(b, TermHead::SInt),
        TermHead::SBool => !matches!(b, TermHead::SBool),
        TermHead::SRef => !matches!(b, TermHead::SRef),
        TermHead::SPerm => !matches!(b, TermHead::SPerm),
        TermHead::Pair => !matches!(b, TermHead::Pair),
        _ => false,
    }
}

/// The clause that what two constructors make differs.
pub fn apart(alloc: Global, table: &TermTable, name: usize) -> Result<Vec<ClauseLiteral>, LineFault>
    ensures { IfOk result (λ c. IsLawOf table.now c.items) }
{
    let sides = equation(table, name)?;
    let left = constructed(alloc, table, sides.left)?;
    let right = constructed(alloc, table, sides.right)?;
    if !are_apart(left.head, right.head) {
        return Err(LineFault::Refused(LineRefusal::Shape));
    }
    one(alloc, no(name))
}

/// The part of this number, from 0, of what a constructor makes.
fn part_at(
    alloc: Global,
    table: &TermTable,
    literal: ClauseLiteral,
    place: usize,
) -> Result<ClauseLiteral, LineFault>
    ensures { IfOk result (λ p. IsPart (terms_of table.now) literal place p) }
{
    let made = constructed(alloc, table, literal)?;
    match made.parts.get(place) {
        Some(part) => Ok(*part),
        None => Err(LineFault::Refused(LineRefusal::Case)),
    }
}

/// The clause that a content is none of its own parts, where the left side is part of a part of the right side by these
/// numbers.
pub fn inside(
    alloc: Global,
    table: &TermTable,
    name: usize,
    places: &[usize],
) -> Result<Vec<ClauseLiteral>, LineFault>
    ensures { IfOk result (λ c. IsLawOf table.now c.items) }
{
    let sides = equation(table, name)?;
    let mut at = sides.right;
    for place in places {
        let next = part_at(alloc, table, at, *place)?;
        at = next;
    }
    if places.len() == 0 {
        return Err(LineFault::Refused(LineRefusal::Count));
    }
    if at != sides.left {
        return Err(LineFault::Refused(LineRefusal::Shape));
    }
    one(alloc, no(name))
}
