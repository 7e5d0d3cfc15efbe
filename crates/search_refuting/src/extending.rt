// Saying more of products.
ghost use Rattle.std.specs.Prelude.{◌≤◌};

use search_base::{Fuel, SearchStop, StepId, TermId};
use search_polynomials::multiplied_out;
use search_products::{About, factored_out, further, swapped, together};
use search_state::Prover;
use search_theory::attach;

/// How much is said of a product: nothing yet, that it was multiplied out, or how its factors compare with 1.
const NOTHING: u8 = 0;

const MULTIPLIED: u8 = 1;

const COMPARED: u8 = 2;

/// Says more of a product, if there is more to say: all of them are multiplied out before more is said of signs. Whether there was.
pub(crate) fn extend(prover: &mut Prover, fuel: &mut Fuel) -> Result<bool, SearchStop>
    ensures { fuel.new.left ≤ fuel.old.left }
{
    if let Some(product) = next_at(prover, NOTHING) {
        let about = multiplied_out(prover, product, fuel)?;
        return take(prover, &about, fuel);
    }
    if let Some(made) = made_of_others(prover, fuel)? {
        prover.products.extra.push(made)?;
        return Ok(true);
    }
    if let Some(product) = next_at(prover, MULTIPLIED) {
        let about = further(prover, product)?;
        return take(prover, &about, fuel);
    }
    if let Some(product) = next_at(prover, COMPARED) {
        let about = together(prover, product)?;
        return take(prover, &about, fuel);
    }
    Ok(false)
}

/// A product that is made of others: with a sum in place of a factor, or of a factor that others share.
fn made_of_others(prover: &mut Prover, fuel: &mut Fuel) -> Result<Option<TermId>, SearchStop>
    ensures { fuel.new.left ≤ fuel.old.left }
{
    let found = swapped(prover)?;
    if found.is_some() {
        return Ok(found);
    }
    factored_out(prover, fuel)
}

/// The first product that has a class, and of which just so much was said. Notes that more is.
fn next_at(prover: &mut Prover, stage: u8) -> Option<TermId> {
    let classes = &prover.classes;
    let factors = &mut prover.products.factors;
    let at = factors.iter().position(|it| it.stage == stage && classes.has(it.product.literal()))?;
    let factor = factors.get_mut(at)?;
    factor.stage = stage.saturating_add(1);
    Some(factor.product)
}

/// Takes what is said of a product.
fn take(prover: &mut Prover, about: &About, fuel: &mut Fuel) -> Result<bool, SearchStop>
    ensures { fuel.new.left ≤ fuel.old.left }
{
    prover.products.extra.extend_from_slice(&about.look)?;
    attach_each(prover, &about.steps, fuel)?;
    Ok(true)
}

/// Puts steps among the clauses. One that is false is met again when what it stands on is followed.
fn attach_each(prover: &mut Prover, steps: &[StepId], fuel: &mut Fuel) -> Result<(), SearchStop>
    ensures { fuel.new.left ≤ fuel.old.left }
{
    for step in steps {
        attach(prover, *step, fuel)?;
    }
    Ok(())
}
