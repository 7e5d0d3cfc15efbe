// What a run takes and records, and how it ends.
ghost use Rattle.std.specs.Prelude.{◌≡◌, ◌++◌, ◌∷◌, [], MatchOption, None, OnOk};
ghost use Rattle.viper_state.specs.View.{choice_of, event_of, feed_of};

use crate::{Memo, State};
use std::mem;
use vb_base::{Label, Memory, Pos};
use vb_value::{Content, Frac, Value};

/// Where a run of a unit begins.
#[derive(Drop)]
pub struct Opening {
    /// A value for each parameter and then for each return.
    pub store: Vec<Value>,
    pub memo: Memo,
}

/// One value that a run takes from outside.
#[derive(Drop)]
pub enum Choice {
    /// Which of two ways it goes.
    Branch(bool),
    /// The new value of a variable or a place.
    Took(Value),
    /// How much a `wildcard` is.
    Amount(Frac),
    /// The reference of a new object.
    Fresh(u64),
    /// A heap and contents for what is forgotten, or for a state in which nothing is held.
    Memo(Memo),
}

/// A step of a run for which its translation takes choices.
#[derive(Drop)]
pub enum Event {
    /// A `Branch` choice was taken.
    Branch(bool),
    /// A `Took` choice was taken.
    Took(Value),
    /// An `Amount` choice was taken.
    Wild(Frac),
    /// A `Fresh` choice was taken.
    Fresh(u64),
    /// A heap and contents as they are after something was forgotten, or were chosen for an empty state.
    Whole(Memo),
    /// An instance was opened at a conjunction, with these parts of its content.
    Split(Content, Content),
    /// An instance was opened at a place, with this value.
    Leaf(Value),
}

/// The choices of a run, and what it recorded so far.
#[derive(Drop)]
pub struct Feed {
    pub choices: Vec<Choice>,
    /// How many of the choices were taken.
    pub next: usize,
    pub events: Vec<Event>,
}

impl Feed {
    /// Takes the next choice. None exactly where all were taken.
    pub fn take(&mut self) -> Option<Choice>
        ensures next { MatchOption result ((feed_of self.old).left ≡ [])
            (λ choice. (feed_of self.old).left ≡ choice_of choice ∷ (feed_of self.new).left) }
        ensures none { result ≡ None → feed_of self.new ≡ feed_of self.old }
        ensures events { (feed_of self.new).events ≡ (feed_of self.old).events }
    {
        let slot = self.choices.get_mut(self.next)?;
        self.next += 1;
        Some(mem::replace(slot, Choice::Branch(false)))
    }

    /// Records an event. `Memory` where there is no memory.
    pub fn record(&mut self, event: Event) -> Result<(), Memory>
        ensures events { OnOk result ((feed_of self.new).events ≡ (feed_of self.old).events ++ event_of event ∷ []) }
        ensures left { (feed_of self.new).left ≡ (feed_of self.old).left }
    {
        self.events.push(event)?;
        Ok(())
    }
}

/// What an expression is read in, besides the state.
#[derive(Drop)]
pub struct Scene {
    /// The values of the variables.
    pub store: Vec<Value>,
    /// The old state.
    pub old: State,
    /// The place of the step that is running.
    pub at: Pos,
}

/// How a run ends.
#[derive(Clone, Copy, Debug, PartialEq, Eq)]
pub enum Outcome {
    Done,
    Failed(Label),
    /// An assumption ended the run.
    Blocked,
    /// A choice was missing.
    Short,
    /// A number or a content left its bound.
    Over(Pos),
}
