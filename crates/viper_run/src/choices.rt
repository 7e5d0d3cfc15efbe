// What a run takes from outside.
ghost use Rattle.std.specs.Prelude.{◌≡◌, All};
ghost use Rattle.std.specs.Option.{option_map};
ghost use Rattle.viper_core.specs.View.{program_of};
ghost use Rattle.viper_state.specs.Fits.{FitsChoice};
ghost use Rattle.viper_state.specs.Event as event;
ghost use Rattle.viper_state.specs.State as tree;
ghost use Rattle.viper_state.specs.View.{choice_of, event_of, feed_of, memo_of, state_of};
ghost use Rattle.viper_meaning.specs.Run as run;
ghost use Rattle.viper_meaning.specs.Statements as m;
ghost use Rattle.viper_inhale.specs.Answers.{Does};
ghost use Rattle.viper_inhale.specs.View.{filled_in};
ghost use Rattle.viper_run.specs.Steps.{taking_value_of};

use std::alloc::Global;
use vb_value::{Ty, Value};
use viper_core::Program;
use viper_eval::found;
use viper_inhale::{StepHalt, StepStop};
use viper_state::{Choice, Event, Feed, Memo, State, empty_state};

/// The way that a choice is, if it is one.
fn branch_in(choice: &Choice) -> Option<bool>
    ensures { result ≡ m.branch_in (choice_of choice.now) }
{
    match choice {
        Choice::Branch(way) => Some(*way),
        _ => None,
    }
}

/// Takes the next choice, which has to be one of two ways, and records it.
pub(crate) fn take_branch(feed: &mut Feed) -> Result<bool, StepHalt>
    ensures { Does (λ b. b) (feed_of feed.old) (m.taking_branch run.goes) (feed_of feed.new) result }
{
    match feed.take() {
        Some(choice) => match branch_in(&choice) {
            Some(way) => {
                feed.record(Event::Branch(way))?;
                Ok(way)
            }
            None => Err(StepHalt::Stops(StepStop::Blocked)),
        },
        None => Err(StepHalt::Stops(StepStop::Short)),
    }
}

/// The new reference that a choice is, if it is one.
fn fresh_in(choice: &Choice) -> Option<u64>
    ensures { result ≡ m.fresh_in (choice_of choice.now) }
{
    match choice {
        Choice::Fresh(reference) => Some(*reference),
        _ => None,
    }
}

/// Takes the next choice, which has to be a new reference, and records it.
pub(crate) fn take_fresh(feed: &mut Feed) -> Result<u64, StepHalt>
    ensures { Does (λ r. r) (feed_of feed.old) (m.taking_fresh run.goes) (feed_of feed.new) result }
{
    match feed.take() {
        Some(choice) => match fresh_in(&choice) {
            Some(reference) => {
                feed.record(Event::Fresh(reference))?;
                Ok(reference)
            }
            None => Err(StepHalt::Stops(StepStop::Blocked)),
        },
        None => Err(StepHalt::Stops(StepStop::Short)),
    }
}

/// The value of this type that a choice is, if it is one.
fn value_in(ty: Ty, choice: &Choice) -> Option<Value>
    ensures { result ≡ m.value_in ty (choice_of choice.now) }
{
    match choice {
        Choice::Took(value) => (value.ty() == ty).then_some(*value),
        _ => None,
    }
}

/// Takes the next choice, which has to be a value of this type.
fn next_value(ty: Ty, feed: &mut Feed) -> Result<Value, StepHalt>
    ensures { Does (λ v. v) (feed_of feed.old) (run.taking (m.value_in ty) run.goes) (feed_of feed.new) result }
{
    match feed.take() {
        Some(choice) => match value_in(ty, &choice) {
            Some(value) => Ok(value),
            None => Err(StepHalt::Stops(StepStop::Blocked)),
        },
        None => Err(StepHalt::Stops(StepStop::Short)),
    }
}

/// That a value was taken.
fn took_event(value: &Value) -> Event
    ensures { event_of result ≡ event.Took value.now }
{
    Event::Took(*value)
}

/// Takes the next choice, which has to be a value of this type, and records it.
fn take_value(ty: Ty, feed: &mut Feed) -> Result<Value, StepHalt>
    ensures { Does (λ v. v) (feed_of feed.old) (m.taking_value ty run.goes) (feed_of feed.new) result }
{
    let value = next_value(ty, feed)?;
    feed.record(took_event(&value))?;
    Ok(value)
}

/// Takes a value of the type of this number.
pub(crate) fn take_value_of(types: &[Ty], number: u32, feed: &mut Feed) -> Result<Value, StepHalt>
    ensures { Does (λ v. v) (feed_of feed.old) (taking_value_of types.now number) (feed_of feed.new) result }
{
    let ty = found(types.get(number as usize).copied())?;
    take_value(ty, feed)
}

/// Takes a value for each of these variables, in their order.
pub fn take_values(
    alloc: Global,
    types: &[Ty],
    variables: &[u32],
    feed: &mut Feed,
) -> Result<Vec<Value>, StepHalt>
    ensures { Does (λ vs. vs.items) (feed_of feed.old) (m.taking_values types.now variables.now) (feed_of feed.new) result }
{
    let mut values = Vec::with_capacity(alloc, variables.len())?;
    for variable in variables {
        values.push(take_value_of(types, *variable, feed)?)?;
    }
    Ok(values)
}

/// The heap and contents that a choice is, if it is some.
fn memo_in(choice: Choice) -> Option<Memo>
    ensures { option_map memo_of result ≡ filled_in (choice_of choice) }
{
    match choice {
        Choice::Memo(memo) => Some(memo),
        _ => None,
    }
}

/// The state with this heap and these contents, in which nothing is held. They are recorded.
fn state_from(
    alloc: Global,
    program: &Program,
    memo: Memo,
    feed: &mut Feed,
) -> Result<State, StepHalt>
    ensures { Does state_of (feed_of feed.old)
        (run.noting (event.Whole (memo_of memo)) (run.goes (tree.empty_state (program_of program.now).layout (memo_of memo))))
        (feed_of feed.new) result }
{
    let state = empty_state(alloc, &program.layout, &memo)?;
    feed.record(Event::Whole(memo))?;
    Ok(state)
}

/// Takes the next choice, which has to be a heap and contents, and begins with them a state in which nothing is held.
pub(crate) fn take_state(
    alloc: Global,
    program: &Program,
    feed: &mut Feed,
) -> Result<State, StepHalt>
    requires choices_fit { All (FitsChoice (program_of program.now).layout) (feed_of feed.old).left }
    ensures { Does state_of (feed_of feed.old) (m.taking_state (program_of program.now) run.goes) (feed_of feed.new) result }
{
    match feed.take() {
        Some(choice) => match memo_in(choice) {
            Some(memo) => state_from(alloc, program, memo, feed),
            None => Err(StepHalt::Stops(StepStop::Blocked)),
        },
        None => Err(StepHalt::Stops(StepStop::Short)),
    }
}
