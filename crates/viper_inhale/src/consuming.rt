// Consuming an assertion: what it says is checked in the state at the start, and its permission is taken from what is left.
ghost use Rattle.vb_value.specs.Bound.{Bounded};
ghost use Rattle.viper_core.specs.Literals.{IsWithinAmount, IsWithinAssertion};
ghost use Rattle.viper_core.specs.View.{amt_of, assertion_of};
ghost use Rattle.viper_state.specs.View.{state_of, feed_of};
ghost use Rattle.viper_state.specs.Within.{IsWithinState, IsWithinScene};
ghost use Rattle.viper_meaning.specs.Assertions as m;
ghost use Rattle.viper_eval.specs.View.{lent};
ghost use Rattle.viper_inhale.specs.Answers.{Does};
ghost use Rattle.viper_inhale.specs.View.{resource_of};

use crate::answers::StepHalt;
use crate::choices::take_amount;
use crate::resources::{PlacedScale, Resource, instance, place, something_held, take, take_some};
use std::alloc::Global;
use vb_base::Kind;
use vb_value::Frac;
use viper_core::{Amt, Assertion};
use viper_eval::{SceneRef, failure, permission_of, truth_of};
use viper_state::{Feed, State};

/// What expressions are read in: the state at the start, and what they see besides it.
#[derive(Clone, Copy)]
struct StartReading<'a> {
    start: &'a State,
    scene: SceneRef<'a>,
}

/// Consumes an amount of a resource.
fn consume_amount(
    alloc: Global,
    amount: &Amt,
    reading: StartReading,
    share: PlacedScale,
    left: &mut State,
    resource: Resource,
    feed: &mut Feed,
) -> Result<(), StepHalt>
    requires amount_within { IsWithinAmount (amt_of amount.now) }
    requires start_within { IsWithinState (state_of reading.start.now) }
    requires scene_within { IsWithinScene (lent reading.scene) }
    ensures { Does (λ _. state_of left.new) (feed_of feed.old)
        (m.consume_amount Bounded (amt_of amount.now) (state_of reading.entry.start.now) (lent reading.entry.scene) share.scale share.at (state_of left.old) (resource_of resource))
        (feed_of feed.new) result }
{
    let StartReading { start, scene } = reading;
    match amount {
        Amt::Is(e) => {
            let amount = permission_of(alloc, e, start, scene, feed)?;
            Ok(take(scene, left, resource, share, amount)?)
        }
        Amt::Wildcard => {
            let held = something_held(scene, left, &resource, share.at)?;
            let amount = take_amount(feed)?;
            Ok(take_some(left, resource, share.at, held, amount)?)
        }
    }
}

/// Consumes an assertion, its amounts times a scale.
pub fn consume_in(
    alloc: Global,
    assertion: &Assertion,
    start: &State,
    left: &mut State,
    scene: SceneRef,
    scale: Frac,
    feed: &mut Feed,
) -> Result<(), StepHalt>
    requires assertion_within { IsWithinAssertion (assertion_of assertion.now) }
    requires start_within { IsWithinState (state_of start.now) }
    requires scene_within { IsWithinScene (lent scene) }
    ensures { Does (λ _. state_of left.new) (feed_of feed.old)
        (m.consume Bounded (assertion_of assertion.now) (state_of start.now) (lent scene.entry) scale (state_of left.old)) (feed_of feed.new) result }
{
    let reading = StartReading { start, scene };
    match assertion {
        Assertion::Fact(e, at) => {
            if truth_of(alloc, e, start, scene, feed)? {
                Ok(())
            } else {
                Err(StepHalt::from(failure(scene, *at, Kind::Fact)))
            }
        }
        Assertion::Acc(e, field, amount, at) => {
            let resource = place(alloc, e, *field, start, scene, feed)?;
            let share = PlacedScale::of(scale, *at);
            consume_amount(alloc, amount, reading, share, left, resource, feed)
        }
        Assertion::Inst(predicate, args, amount, at) => {
            let resource = instance(alloc, *predicate, args, start, scene, feed)?;
            let share = PlacedScale::of(scale, *at);
            consume_amount(alloc, amount, reading, share, left, resource, feed)
        }
        Assertion::And(a, b) => {
            consume_in(alloc, a, start, left, scene, scale, feed)?;
            consume_in(alloc, b, start, left, scene, scale, feed)
        }
        Assertion::Implies(e, a) => {
            if truth_of(alloc, e, start, scene, feed)? {
                consume_in(alloc, a, start, left, scene, scale, feed)
            } else {
                Ok(())
            }
        }
        Assertion::Choose(e, a, b) => {
            if truth_of(alloc, e, start, scene, feed)? {
                consume_in(alloc, a, start, left, scene, scale, feed)
            } else {
                consume_in(alloc, b, start, left, scene, scale, feed)
            }
        }
    }
}
