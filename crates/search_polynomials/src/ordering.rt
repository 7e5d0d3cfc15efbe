// Products of products as products of terms in one order.
ghost use Rattle.std.specs.Prelude.{◌≤◌};

use crate::polynomials::{Monomial, merged, term_of};
use search_base::{Fuel, SearchStop, SignedTerm, TermId, copied, get};
use search_products::{About, ring, times};
use search_state::Prover;

/// Says that a product of two products is the one that has all their terms in order, and gives that.
pub(crate) fn join(
    prover: &mut Prover,
    one: &[TermId],
    two: &[TermId],
    about: &mut About,
    fuel: &mut Fuel,
) -> Result<Monomial, SearchStop>
    ensures { fuel.new.left ≤ fuel.old.left }
{
    let mut whole = copied(prover.alloc, one)?;
    for k in 0..two.len() {
        let before = two.get(..k).unwrap_or(&[]);
        let atom = get(two, k);
        append(prover, one, before, atom, about)?;
        whole = insert(prover, &whole, atom, about, fuel)?;
    }
    Ok(whole)
}

/// Says that a product of two products, times a term, is the product of the first with the second times the term.
fn append(
    prover: &mut Prover,
    one: &[TermId],
    before: &[TermId],
    atom: TermId,
    about: &mut About,
) -> Result<(), SearchStop> {
    if before.is_empty() || one.is_empty() {
        return Ok(());
    }
    let (first, second) = (term_of(prover, one)?, term_of(prover, before)?);
    let left = times(prover, first, second)?;
    let mut next = copied(prover.alloc, before)?;
    next.push(atom)?;
    let third = term_of(prover, &next)?;
    let left = times(prover, left, atom.literal())?;
    let right = times(prover, first, third)?;
    ring(prover, left, right, about)
}

/// Says that a product in order, times a term, is the product in order that has it too.
fn insert(
    prover: &mut Prover,
    product: &[TermId],
    atom: TermId,
    about: &mut About,
    fuel: &mut Fuel,
) -> Result<Monomial, SearchStop>
    ensures { fuel.new.left ≤ fuel.old.left }
{
    let mut rest = copied(prover.alloc, product)?;
    while let Some(last) = rest.pop() {
        fuel.take(1)?;
        if last <= atom {
            break;
        }
        exchange(prover, &rest, last, atom, about)?;
        if rest.is_empty() {
            break;
        }
        let placed = merged(prover.alloc, &rest, &[atom, last])?;
        register(prover, &placed, fuel)?;
    }
    let whole = merged(prover.alloc, product, &[atom])?;
    register(prover, &whole, fuel)?;
    Ok(whole)
}

/// Gives the term of a product a class.
fn register(prover: &mut Prover, monomial: &[TermId], fuel: &mut Fuel) -> Result<(), SearchStop>
    ensures { fuel.new.left ≤ fuel.old.left }
{
    let term = term_of(prover, monomial)?;
    if term.is_none() {
        return Ok(());
    }
    prover.register(term, fuel)
}

/// Says that two terms may be exchanged in a product behind others.
fn exchange(
    prover: &mut Prover,
    rest: &[TermId],
    last: TermId,
    atom: TermId,
    about: &mut About,
) -> Result<(), SearchStop> {
    let (x, y) = (last.literal(), atom.literal());
    let (turned, plain) = (times(prover, x, y)?, times(prover, y, x)?);
    ring(prover, turned, plain, about)?;
    if rest.is_empty() {
        return Ok(());
    }
    let before = term_of(prover, rest)?;
    move_together(prover, before, (x, y), turned, about)?;
    move_together(prover, before, (y, x), plain, about)
}

/// Says that a product times two terms, one after the other, is the product times their product.
fn move_together(
    prover: &mut Prover,
    before: SignedTerm,
    terms: (SignedTerm, SignedTerm),
    inner: SignedTerm,
    about: &mut About,
) -> Result<(), SearchStop> {
    let left = times(prover, before, terms.0)?;
    let left = times(prover, left, terms.1)?;
    let right = times(prover, before, inner)?;
    ring(prover, left, right, about)
}
