// What the parts of truth values have to be.
ghost use Rattle.std.specs.Prelude.{◌≤◌};

use search_agenda::{Item, Note};
use search_base::{Found, Fuel, SearchStop, SignedTerm, StepId, TermId, get};
use search_state::Prover;
use search_steps::{StepRule, chain_step};
use search_terms::{TermKind, TermOp};
use search_theory::{attach, close};

/// The ranks of what is wanted: a part of any conjunction first, then which way a run came, and then a part of what a `forall` says.
const PART_RANK: u32 = 2;

const SIDE_RANK: u32 = 1;

const BODY_RANK: u32 = 0;

/// Of a conjunction that is true both parts are looked at, of one that is false a part that is false.
pub(crate) fn truth_and(prover: &mut Prover, n: TermId, holds: bool) -> Result<(), SearchStop> {
    if holds {
        return prover.look_at_parts(n);
    }
    let (a, b) = (prover.terms.part(n, 0), prover.terms.part(n, 1));
    let (is_first, is_second) = (prover.values.is_false(a), prover.values.is_false(b));
    if is_first && (!is_second || prover.agenda.is_seen(Item::of(a.term()))) {
        return prover.look_at(a);
    }
    if is_second {
        return prover.look_at(b);
    }
    open_parts(prover, n, a, b)
}

/// Of a false conjunction no part is false: the last one that is open is wanted.
fn open_parts(
    prover: &mut Prover,
    n: TermId,
    a: SignedTerm,
    b: SignedTerm,
) -> Result<(), SearchStop> {
    let mut open = Vec::new(prover.alloc);
    for it in [a, b] {
        if prover.values.is_open(it) {
            open.push(it)?;
        }
    }
    for it in &open {
        prover.wait_for(*it)?;
        prover.probe_later(*it)?;
    }
    for it in &open {
        look_ahead(prover, it.term())?;
    }
    let Some(last) = open.last().copied() else {
        return Ok(());
    };
    let rank = if prover.paths.is_joined(n) {
        SIDE_RANK
    } else if get(&prover.bodies, n.place()) {
        BODY_RANK
    } else {
        PART_RANK
    };
    prover.want(last.negated(), rank)
}

/// Looks at a comparison ahead, once.
fn look_ahead(prover: &mut Prover, n: TermId) -> Result<(), SearchStop> {
    if prover.terms.is_comparison(n) && prover.agenda.note(n, Note::Peeked)? {
        prover.agenda.add(Item::ahead_of(n))?;
        prover.look_at_parts(n)?;
    }
    Ok(())
}

/// Of a choice the condition is looked at, and the side that it takes.
pub(crate) fn truth_if(prover: &mut Prover, n: TermId) -> Result<(), SearchStop> {
    let condition = prover.terms.part(n, 0);
    prover.look_at(condition)?;
    let side = match prover.values.value(condition) {
        None => return prover.wait_for(condition),
        Some(true) => prover.terms.part(n, 1),
        Some(false) => prover.terms.part(n, 2),
    };
    prover.look_at(side)
}

/// Two contents that differ, made by one constructor, differ in a part.
pub(crate) fn truth_equal(prover: &mut Prover, n: TermId, holds: bool, fuel: &mut Fuel) -> Found
    ensures { fuel.new.left ≤ fuel.old.left }
{
    prover.look_at_parts(n)?;
    let (a, b) = (prover.terms.part(n, 0), prover.terms.part(n, 1));
    if holds || prover.terms.kind(a) == TermKind::Bool {
        return Ok(None);
    }
    prover.register(a, fuel)?;
    prover.register(b, fuel)?;
    match contents(prover, a, b) {
        Some(made) => some_part(prover, n, [a, b], made, fuel),
        None => {
            prover.wait_for_classes(&[a, b])?;
            close(prover, fuel)
        }
    }
}

/// The contents that two terms equal, where they are two that one constructor makes of parts.
fn contents(prover: &Prover, a: SignedTerm, b: SignedTerm) -> Option<[SignedTerm; 2]> {
    let one = prover.classes.content(a)?;
    let two = prover.classes.content(b)?;
    let op = prover.terms.op(one.term());
    if one != two && op == prover.terms.op(two.term()) && op != TermOp::Unit {
        Some([one, two])
    } else {
        None
    }
}

/// Says that the contents of two sides differ in a part, and the sides where the contents do.
fn some_part(
    prover: &mut Prover,
    n: TermId,
    sides: [SignedTerm; 2],
    made: [SignedTerm; 2],
    fuel: &mut Fuel,
) -> Found
    ensures { fuel.new.left ≤ fuel.old.left }
{
    let whole = prover.terms.equal(made[0], made[1])?;
    let is_turned = prover.terms.part(whole, 0) != made[0];
    let (sides, made) = if is_turned {
        ([sides[1], sides[0]], [made[1], made[0]])
    } else {
        (sides, made)
    };
    let parts = equations_of_parts(prover, made)?;
    let step = chain_step(
        prover.alloc,
        &mut prover.steps,
        whole,
        &parts,
        StepRule::Same,
    )?;
    let mut conflict = attach(prover, step, fuel)?;
    if conflict.is_none() && whole != n && prover.linked.insert((n, whole))? {
        let step = link(prover, n, whole, sides, made)?;
        conflict = attach(prover, step, fuel)?;
    }
    for it in &parts {
        prover.look_at(*it)?;
    }
    prover.look_at(whole.literal())?;
    Ok(conflict)
}

/// The equations of the parts of two contents that differ.
fn equations_of_parts(
    prover: &mut Prover,
    made: [SignedTerm; 2],
) -> Result<Vec<SignedTerm>, SearchStop> {
    let (one, two) = (made[0].term(), made[1].term());
    let mut found = Vec::new(prover.alloc);
    for k in 0..prover.terms.arity(one).min(prover.terms.arity(two)) {
        let (a, b) = (prover.terms.part(one, k), prover.terms.part(two, k));
        if a != b {
            found.push(prover.terms.equal(a, b)?.literal())?;
        }
    }
    Ok(found)
}

/// The step that says that two sides are equal where their contents are.
fn link(
    prover: &mut Prover,
    n: TermId,
    whole: TermId,
    sides: [SignedTerm; 2],
    made: [SignedTerm; 2],
) -> Result<StepId, SearchStop> {
    let mut links = Vec::new(prover.alloc);
    if sides[0] != made[0] {
        links.push(prover.terms.equal(sides[0], made[0])?.literal())?;
    }
    links.push(whole.literal())?;
    if made[1] != sides[1] {
        links.push(prover.terms.equal(made[1], sides[1])?.literal())?;
    }
    if prover.terms.part(n, 0) != sides[0] {
        links.reverse();
    }
    chain_step(prover.alloc, &mut prover.steps, n, &links, StepRule::Path)
}
