// Producing an assertion: what it says is assumed, and its permission is added.
ghost use Rattle.std.specs.Prelude.{All};
ghost use Rattle.vb_value.specs.Bound.{Bounded};
ghost use Rattle.viper_core.specs.Literals.{IsWithinAmount, IsWithinAssertion};
ghost use Rattle.viper_core.specs.View.{amt_of, assertion_of};
ghost use Rattle.viper_state.specs.View.{state_of, feed_of};
ghost use Rattle.viper_state.specs.Within.{IsWithinState, IsWithinChoice, IsWithinScene};
ghost use Rattle.viper_meaning.specs.Assertions as m;
ghost use Rattle.viper_eval.specs.View.{lent};
ghost use Rattle.viper_inhale.specs.Answers.{Does};
ghost use Rattle.viper_inhale.specs.View.{resource_of};

use crate::answers::StepHalt;
use crate::choices::take_amount;
use crate::resources::{PlacedScale, Resource, give, give_some, instance, place};
use std::alloc::Global;
use vb_value::Frac;
use viper_core::{Amt, Assertion};
use viper_eval::{SceneRef, assumed, permission_of, truth_of};
use viper_state::{Feed, State};

/// Produces an amount of a resource.
fn produce_amount(
    alloc: Global,
    amount: &Amt,
    scene: SceneRef,
    share: PlacedScale,
    state: &mut State,
    resource: Resource,
    feed: &mut Feed,
) -> Result<(), StepHalt>
    requires amount_within { IsWithinAmount (amt_of amount.now) }
    requires state_within { IsWithinState (state_of state.old) }
    requires scene_within { IsWithinScene (lent scene) }
    ensures { Does (λ _. state_of state.new) (feed_of feed.old)
        (m.produce_amount Bounded (amt_of amount.now) (lent scene.entry) share.scale share.at (state_of state.old) (resource_of resource))
        (feed_of feed.new) result }
{
    match amount {
        Amt::Is(e) => {
            let amount = permission_of(alloc, e, state, scene, feed)?;
            Ok(give(scene, state, resource, share, amount)?)
        }
        Amt::Wildcard => {
            let amount = take_amount(feed)?;
            Ok(give_some(state, resource, share, amount)?)
        }
    }
}

/// Produces an assertion, its amounts times a scale.
pub fn produce_in(
    alloc: Global,
    assertion: &Assertion,
    state: &mut State,
    scene: SceneRef,
    scale: Frac,
    feed: &mut Feed,
) -> Result<(), StepHalt>
    requires assertion_within { IsWithinAssertion (assertion_of assertion.now) }
    requires state_within { IsWithinState (state_of state.old) }
    requires scene_within { IsWithinScene (lent scene) }
    requires choices_within { All IsWithinChoice (feed_of feed.old).left }
    ensures { Does (λ _. state_of state.new) (feed_of feed.old)
        (m.produce Bounded (assertion_of assertion.now) (lent scene.entry) scale (state_of state.old)) (feed_of feed.new) result }
{
    match assertion {
        Assertion::Fact(e, _) => {
            let holds = truth_of(alloc, e, state, scene, feed)?;
            Ok(assumed(holds)?)
        }
        Assertion::Acc(e, field, amount, at) => {
            let resource = place(alloc, e, *field, state, scene, feed)?;
            let share = PlacedScale::of(scale, *at);
            produce_amount(alloc, amount, scene, share, state, resource, feed)
        }
        Assertion::Inst(predicate, args, amount, at) => {
            let resource = instance(alloc, *predicate, args, state, scene, feed)?;
            let share = PlacedScale::of(scale, *at);
            produce_amount(alloc, amount, scene, share, state, resource, feed)
        }
        Assertion::And(a, b) => {
            produce_in(alloc, a, state, scene, scale, feed)?;
            produce_in(alloc, b, state, scene, scale, feed)
        }
        Assertion::Implies(e, a) => {
            if truth_of(alloc, e, state, scene, feed)? {
                produce_in(alloc, a, state, scene, scale, feed)
            } else {
                Ok(())
            }
        }
        Assertion::Choose(e, a, b) => {
            if truth_of(alloc, e, state, scene, feed)? {
                produce_in(alloc, a, state, scene, scale, feed)
            } else {
                produce_in(alloc, b, state, scene, scale, feed)
            }
        }
    }
}
