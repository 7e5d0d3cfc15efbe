// Where an execution stands. What is still to be done lies on a stack of frames.
ghost use Rattle.std.specs.Prelude.{◌≡◌, [], ◌∷◌, IfOk};
ghost use Rattle.viper_meaning.specs.Statements as m;
ghost use Rattle.viper_eval.specs.View.{lent};
ghost use Rattle.viper_run.specs.View.{configuration_of};
ghost use Rattle.viper_exec.specs.Frames.{Return};
ghost use Rattle.viper_exec.specs.View.{activation_in, caller_of, frame_of, frames_over};

use std::alloc::Global;
use vb_base::{Memory, Pos};
use vb_value::Ty;
use viper_core::{Loop, Method, Program, Stmt};
use viper_eval::SceneRef;
use viper_run::{Configuration, Store};
use viper_state::State;

/// What a caller had, and where the returns of the method that it called go.
#[derive(Drop)]
pub(crate) struct Caller<'a> {
    pub callee: &'a Method,
    pub targets: &'a [u32],
    pub vars: &'a [Ty],
    pub start: State,
    pub store: Store,
}

/// What is still to be done.
#[derive(Drop)]
pub(crate) enum Frame<'a> {
    /// The statements of a block.
    Block(&'a [Stmt]),
    /// The end of a turn of this loop, and then its further turns.
    Turn(&'a Loop),
    /// The end of a body that begins at this place: the postconditions of its method are asserted.
    End(&'a Method, Pos),
    /// The caller continues.
    Return(Box<Caller<'a>>),
}

/// Where an execution stands: the body that runs, and the frames, of which the last is on top.
#[derive(Drop)]
pub(crate) struct Machine<'a> {
    pub program: &'a Program,
    pub vars: &'a [Ty],
    /// The state in which the body began.
    pub start: State,
    pub configuration: Configuration,
    pub frames: Vec<Frame<'a>>,
}

impl<'a> Machine<'a> {
    /// The scene of the step at this place.
    pub fn scene(&self, at: Pos) -> SceneRef<'_>
        ensures { lent result ≡ m.scene (activation_in self.now) (configuration_of self.now.configuration) at }
    {
        SceneRef {
            store: &self.configuration.store.values,
            old: &self.start,
            at,
        }
    }
}

/// One more frame on top.
pub(crate) fn add_frame<'a>(frames: &mut Vec<Frame<'a>>, frame: Frame<'a>) -> Result<(), Memory>
    ensures { IfOk result (λ _. frames_over frames.new.items [] ≡ frame_of frame.entry ∷ frames_over frames.old.items []) }
{
    Ok(frames.push(frame)?)
}

/// A caller on top, which continues after the frames above it.
pub(crate) fn add_caller<'a>(
    alloc: Global,
    frames: &mut Vec<Frame<'a>>,
    caller: Caller<'a>,
) -> Result<(), Memory>
    ensures { IfOk result (λ _. frames_over frames.new.items [] ≡ Return (caller_of caller.entry) ∷ frames_over frames.old.items []) }
{
    let caller = Box::new(alloc, caller)?;
    add_frame(frames, Frame::Return(caller))
}
