// What follows from literals that are true.
ghost use Rattle.std.specs.Prelude.{◌≤◌};

use crate::equalities::{close, parts_equal, same};
use crate::gates::attach_all;
use search_base::{Found, Fuel, SearchStop, SignedTerm, StepId};
use search_classes::News;
use search_state::Prover;
use search_terms::TermOp;

/// Assigns what follows, by clauses and then by what literals mean, until the goal is false. Gives back a step that is false.
pub fn propagate(prover: &mut Prover, fuel: &mut Fuel) -> Found
    ensures { fuel.new.left ≤ fuel.old.left }
{
    while !prover.values.is_done() {
        fuel.take(1)?;
        let conflict = prover.values.follow_all(&prover.steps, fuel)?;
        if conflict.is_some() {
            return Ok(conflict);
        }
        let Some(literal) = prover.values.tell() else {
            return Ok(None);
        };
        let conflict = assigned(prover, literal, fuel)?;
        if conflict.is_some() {
            return Ok(conflict);
        }
    }
    Ok(None)
}

/// Takes a literal that is true now.
fn assigned(prover: &mut Prover, literal: SignedTerm, fuel: &mut Fuel) -> Found
    ensures { fuel.new.left ≤ fuel.old.left }
{
    prover.agenda.changed(literal.term())?;
    prover.classes.assigned(literal, &mut prover.terms, fuel)?;
    if compares_numbers(prover, literal) {
        prover.numbers.assigned(literal)?;
    }
    let conflict = close(prover, fuel)?;
    if conflict.is_some() {
        return Ok(conflict);
    }
    take_news(prover, fuel)
}

/// Whether a literal is a comparison of numbers, and no equation that holds: of that the classes tell.
fn compares_numbers(prover: &Prover, literal: SignedTerm) -> bool {
    let n = literal.term();
    match prover.terms.op(n) {
        TermOp::Le => true,
        TermOp::Eq => literal.is_negated()
            && prover.terms.is_number(prover.terms.part(n, 0).term()),
        _ => false,
    }
}

/// Says what follows from the unions of classes. Gives back a step that is false.
fn take_news(prover: &mut Prover, fuel: &mut Fuel) -> Found
    ensures { fuel.new.left ≤ fuel.old.left }
{
    while let Some(news) = prover.classes.next_news() {
        fuel.take(1)?;
        let steps = told(prover, news, fuel)?;
        let conflict = attach_all(prover, &steps, fuel)?;
        if conflict.is_some() {
            return Ok(conflict);
        }
    }
    Ok(None)
}

/// The steps that say what follows from a union.
fn told(prover: &mut Prover, news: News, fuel: &mut Fuel) -> Result<Vec<StepId>, SearchStop>
    ensures { fuel.new.left ≤ fuel.old.left }
{
    match news {
        News::Parts(one, two) => parts_equal(prover, one, two, fuel),
        News::Truths(one, two) => {
            let equation = prover.terms.equal(one, two)?;
            let step = same(prover, equation, fuel)?;
            Ok(vec![in prover.alloc; step]?)
        }
    }
}
