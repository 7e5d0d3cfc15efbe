// What a run takes from outside.
ghost use Rattle.std.specs.Prelude.{◌≡◌};
ghost use Rattle.viper_state.specs.View.{choice_of, feed_of};
ghost use Rattle.viper_meaning.specs.Run as m;
ghost use Rattle.viper_inhale.specs.Answers.{Does};

use crate::answers::{StepHalt, StepStop};
use vb_value::Frac;
use viper_state::{Choice, Event, Feed};

/// The amount that a choice is, if it is one.
fn amount_in(choice: &Choice) -> Option<Frac>
    ensures { result ≡ m.amount_in (choice_of choice.now) }
{
    match choice {
        Choice::Amount(amount) => Some(*amount),
        _ => None,
    }
}

/// Takes the next choice, which has to be an amount, and records it.
pub(crate) fn take_amount(feed: &mut Feed) -> Result<Frac, StepHalt>
    ensures { Does (λ q. q) (feed_of feed.old) (m.taking_amount m.goes) (feed_of feed.new) result }
{
    match feed.take() {
        Some(choice) => match amount_in(&choice) {
            Some(amount) => {
                feed.record(Event::Wild(amount))?;
                Ok(amount)
            }
            None => Err(StepHalt::Stops(StepStop::Blocked)),
        },
        None => Err(StepHalt::Stops(StepStop::Short)),
    }
}
