// The values of terms by what is assigned.
ghost use Rattle.std.specs.Prelude.{◌≤◌};

use crate::table::{Value, ValueId, ValueTable};
use search_base::{Fuel, SearchStop, SignedTerm, number};
use search_points::number_at;
use search_rows::Point;
use search_state::Prover;
use search_terms::{TermKind, TermOp};
use std::collections::BTreeMap;

/// Contents are looked into so deep.
const MOST_DEPTH: u32 = 1_000;

/// A content of which nothing is known, and from which something differs, is a whole number of its own, from this one on.
const FIRST_OWN: i128 = 1_000;

/// What the values of terms are read from: values of numbers, and a number for each class of references.
#[derive(Drop)]
pub(crate) struct Known {
    pub(crate) point: Point,
    references: BTreeMap<SignedTerm, u32>,
}

impl Known {
    /// The values of these numbers, and of the references that have classes. Null is 0.
    pub(crate) fn new(prover: &Prover, point: Point) -> Result<Known, SearchStop> {
        let mut references = BTreeMap::new(prover.alloc);
        for it in prover.classes.entered() {
            if prover.terms.op(it.term()) == TermOp::Null {
                references.insert(prover.classes.name(*it), 0)?;
            }
        }
        for it in prover.classes.entered() {
            let name = prover.classes.name(*it);
            let is_reference = prover.terms.kind(*it) == TermKind::Ref;
            if is_reference && !references.contains_key(&name) {
                let next = number(references.len())? + 1;
                references.insert(name, next)?;
            }
        }
        Ok(Known { point, references })
    }

    /// The number of a reference.
    fn reference(&self, prover: &Prover, it: SignedTerm) -> u32 {
        let name = prover.classes.name(it);
        self.references.get(&name).copied().unwrap_or(0)
    }
}

/// The value of a term that is no map.
pub(crate) fn value_of(
    prover: &mut Prover,
    known: &Known,
    it: SignedTerm,
    table: &mut ValueTable,
    fuel: &mut Fuel,
) -> Result<ValueId, SearchStop>
    ensures { fuel.new.left ≤ fuel.old.left }
{
    if prover.terms.kind(it) == TermKind::Snap {
        content_of(prover, known, it, table, MOST_DEPTH, fuel)
    } else {
        scalar_of(prover, known, it, table, fuel)
    }
}

/// The value of a term that is no content and no map.
fn scalar_of(
    prover: &mut Prover,
    known: &Known,
    it: SignedTerm,
    table: &mut ValueTable,
    fuel: &mut Fuel,
) -> Result<ValueId, SearchStop>
    ensures { fuel.new.left ≤ fuel.old.left }
{
    match prover.terms.kind(it) {
        TermKind::Int => {
            let found = number_at(prover, it.term(), &known.point, fuel)?;
            table.put(Value::Whole(found.floor()?))
        }
        TermKind::Real => {
            let found = number_at(prover, it.term(), &known.point, fuel)?;
            table.put(Value::Real(found))
        }
        TermKind::Ref => table.put(Value::Reference(known.reference(prover, it))),
        _ => table.put(Value::Truth(prover.values.is_true(it))),
    }
}

/// The constructor of a content, as a term, or none.
fn constructor(prover: &Prover, it: SignedTerm) -> SignedTerm {
    if prover.classes.has(it) {
        prover.classes.content(it).unwrap_or(SignedTerm::NONE)
    } else {
        it
    }
}

/// The value of a content, by its constructor and the values of its parts.
fn content_of(
    prover: &mut Prover,
    known: &Known,
    it: SignedTerm,
    table: &mut ValueTable,
    depth: u32,
    fuel: &mut Fuel,
) -> Result<ValueId, SearchStop>
    ensures { fuel.new.left ≤ fuel.old.left }
{
    if depth == 0 {
        return Err(SearchStop::Budget);
    }
    fuel.take(1)?;
    let made = constructor(prover, it).term();
    let (a, b) = (prover.terms.part(made, 0), prover.terms.part(made, 1));
    match prover.terms.op(made) {
        TermOp::SPair => {
            let one = content_of(prover, known, a, table, depth - 1, fuel)?;
            let two = content_of(prover, known, b, table, depth - 1, fuel)?;
            table.put(Value::Pair(one, two))
        }
        TermOp::SInt | TermOp::SBool | TermOp::SRef | TermOp::SPerm => {
            let of = scalar_of(prover, known, a, table, fuel)?;
            table.put(Value::Leaf(of))
        }
        TermOp::Unit => table.put(Value::Unit),
        _ => unknown_content(prover, it, table),
    }
}

/// The value of a content of which no constructor is known.
fn unknown_content(
    prover: &Prover,
    it: SignedTerm,
    table: &mut ValueTable,
) -> Result<ValueId, SearchStop> {
    if prover.classes.different(it).is_empty() {
        return table.put(Value::Unit);
    }
    let name = prover.classes.name(it).term().number();
    let own = table.put(Value::Whole(FIRST_OWN.saturating_add(i128::from(name))))?;
    table.put(Value::Leaf(own))
}
