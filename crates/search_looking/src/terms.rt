// What the terms of a literal are. Each gives back a step that is false.
ghost use Rattle.std.specs.Prelude.{◌≤◌};

use crate::choices::choose;
use crate::places::read;
use search_base::{Found, Fuel, SignedTerm, TermId};
use search_products::product;
use search_state::Prover;
use search_terms::TermOp;
use search_theory::{close, gate};

/// Looks at a term.
pub(crate) fn term(prover: &mut Prover, n: TermId, fuel: &mut Fuel) -> Found
    ensures { fuel.new.left ≤ fuel.old.left }
{
    prover.register(n.literal(), fuel)?;
    let conflict = close(prover, fuel)?;
    if conflict.is_some() {
        return Ok(conflict);
    }
    match prover.terms.op(n) {
        TermOp::At => read(prover, n, fuel),
        TermOp::If => {
            let condition = prover.terms.part(n, 0);
            let values = [prover.terms.part(n, 1), prover.terms.part(n, 2)];
            choose(prover, n, condition, values, fuel)
        }
        TermOp::SBool => {
            let literal = prover.terms.part(n, 0);
            known_truth(prover, literal, fuel)
        }
        TermOp::Div | TermOp::IntDiv | TermOp::Mod | TermOp::Mul => {
            prover.look_at_parts(n)?;
            product(prover, n, fuel)
        }
        op if op.is_leaf() => Ok(None),
        _ => {
            prover.look_at_parts(n)?;
            Ok(None)
        }
    }
}

/// A truth value that is a part of something equals true or false.
fn known_truth(prover: &mut Prover, literal: SignedTerm, fuel: &mut Fuel) -> Found
    ensures { fuel.new.left ≤ fuel.old.left }
{
    prover.look_at(literal)?;
    let truth = prover.terms.truth();
    let Some(holds) = prover.values.value(literal) else {
        prover.wait_for(literal)?;
        return Ok(None);
    };
    if literal.term() == truth {
        return Ok(None);
    }
    let equation = prover.terms.equal(literal, truth.signed(holds))?;
    gate(prover, equation, fuel)
}
