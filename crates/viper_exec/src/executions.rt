// Executions of methods.
ghost use Rattle.std.specs.Prelude.{⊤, ◌≡◌, ◌≤◌, ◌-◌, All, IfOk, IsErr, Ok, map, vec_len};
ghost use Rattle.vb_value.specs.Bound.{Bounded};
ghost use Rattle.viper_core.specs.Formed.{IsFormed};
ghost use Rattle.viper_core.specs.View.{body_of, method_of, program_of};
ghost use Rattle.viper_state.specs.Fits.{FitsChoice};
ghost use Rattle.viper_state.specs.View.{choice_of, feed_of, opening_of, state_of};
ghost use Rattle.viper_state.specs.Within.{IsWithinChoice, IsWithinOpening};
ghost use Rattle.viper_meaning.specs.Run.{on};
ghost use Rattle.viper_inhale.specs.Answers.{stopped};
ghost use Rattle.viper_inhale.specs.declared.answers.StepHalt.TheVariants as halt;
ghost use Rattle.viper_inhale.specs.declared.answers.StepStop.{StepStop};
ghost use Rattle.viper_run.specs.Ready.{CanBegin};
ghost use Rattle.viper_exec_meaning.specs.Execution as meaning;
ghost use Rattle.viper_exec_meaning.specs.Execution.{CanExecute, execution};
ghost use Rattle.viper_exec.specs.Answers.{Executes};
ghost use Rattle.viper_exec.specs.Outcome.{EndsExecution, end_of};
ghost use Rattle.viper_exec.specs.Steps.{IsReadyBody};
ghost use Rattle.viper_exec.specs.declared.answers.Quit.TheVariants as quit;
ghost use Rattle.viper_exec.specs.declared.executions.ExecEnd.TheVariants as end;

use crate::answers::Quit;
use crate::machine::exec_body;
use std::alloc::Global;
use vb_base::{Label, Memory, Pos};
use viper_core::{Body, Method, Program};
use viper_eval::found;
use viper_inhale::{StepHalt, StepStop};
use viper_run::begin_method;
use viper_state::{Choice, Feed, Opening, State, empty_state};

/// How an execution ends.
#[derive(Clone, Copy, Debug, PartialEq, Eq)]
pub enum ExecEnd {
    Done,
    Failed(Label),
    /// An assumption ended the execution.
    Blocked,
    /// A choice was missing.
    Short,
    /// A number or a content left its bound.
    Over(Pos),
    /// A turn of a loop or a called body was to begin, and nothing was left of the budget.
    Spent,
}

/// How an execution ended.
#[derive(Drop)]
pub struct Executed {
    pub end: ExecEnd,
    /// The final state where the end is `Done`; after another end nothing is said of it.
    pub state: State,
    /// How many turns of loops and called bodies were begun.
    pub spent: u64,
    /// How many choices were left.
    pub unused: usize,
}

/// Begins as the method's unit does, and executes its body.
fn exec_begun(
    alloc: Global,
    program: &Program,
    method: &Method,
    body: &Body,
    opening: &Opening,
    budget: &mut u64,
    feed: &mut Feed,
) -> Result<State, Quit>
    requires formed { IsFormed (program_of program.now) }
    requires body { IsReadyBody (program_of program.now) (method_of method.now) (body_of body.now) }
    requires begin { CanBegin (program_of program.now) (opening_of opening.now) (feed_of feed.old) }
    ensures { Executes state_of (feed_of feed.old) budget.old
        (meaning.exec Bounded (program_of program.now) (method_of method.now) (body_of body.now) (opening_of opening.now))
        (feed_of feed.new) budget.new result }
{
    let first = begin_method(alloc, program, method, opening, feed)?;
    let last = exec_body(alloc, program, method, body, first, budget, feed)?;
    Ok(last.state)
}

/// Executes the method of this number.
fn exec_numbered(
    alloc: Global,
    program: &Program,
    number: u32,
    opening: &Opening,
    budget: &mut u64,
    feed: &mut Feed,
) -> Result<State, Quit>
    requires formed { IsFormed (program_of program.now) }
    requires begin { CanBegin (program_of program.now) (opening_of opening.now) (feed_of feed.old) }
    ensures { Executes state_of (feed_of feed.old) budget.old
        (execution Bounded (program_of program.now) number (opening_of opening.now)) (feed_of feed.new) budget.new result }
{
    let method = found(program.methods.get(number as usize))?;
    let body = found(method.body.as_ref())?;
    exec_begun(alloc, program, method, body, opening, budget, feed)
}

/// The end of an execution that did not continue, if not for lack of memory.
fn end_of(why: Quit) -> Result<ExecEnd, Memory>
    ensures stops { (w : StepStop) → why ≡ quit.Halts (halt.Stops w) → result ≡ Ok (end_of (stopped {X = meaning.Went ⊤} w)) }
    ensures spent { why ≡ quit.Spent → result ≡ Ok end.Spent }
    ensures memory { why ≡ quit.Halts halt.Memory → IsErr result }
{
    match why {
        Quit::Halts(StepHalt::Stops(StepStop::Fails(label))) => Ok(ExecEnd::Failed(label)),
        Quit::Halts(StepHalt::Stops(StepStop::Blocked)) => Ok(ExecEnd::Blocked),
        Quit::Halts(StepHalt::Stops(StepStop::Short)) => Ok(ExecEnd::Short),
        Quit::Halts(StepHalt::Stops(StepStop::Over(at))) => Ok(ExecEnd::Over(at)),
        Quit::Spent => Ok(ExecEnd::Spent),
        Quit::Halts(StepHalt::Memory) => Err(Memory),
    }
}

/// What an execution that ended so answers.
fn answer(end: ExecEnd, state: State, spent: u64, feed: &Feed) -> Executed
    ensures { result ≡ record { end = end; state = state; spent = spent; unused = vec_len feed.now.choices - feed.now.next } }
{
    Executed {
        end,
        state,
        spent,
        unused: feed.choices.len().saturating_sub(feed.next),
    }
}

/// Executes a method with a body, by its number: called bodies and the turns of loops are run, on one state. At most as many of
/// them begin as the budget has.
///
/// Numbers have magnitude at most 2^127 - 1, and contents at most `MAX_CONTENT_NODES` nodes; what would leave this bound ends `Over`.
///
/// `Memory` where there is no memory.
///
/// Source: Viper tutorial; Parthasarathy and others, PLDI 2024 (total heaps with masks).
pub fn exec_method(
    alloc: Global,
    program: &Program,
    method: u32,
    opening: &Opening,
    choices: Vec<Choice>,
    budget: u64,
) -> Result<Executed, Memory>
    requires formed { IsFormed (program_of program.now) }
    requires opens { CanExecute (program_of program.now) method (opening_of opening.now) }
    requires opening_within { IsWithinOpening (opening_of opening.now) }
    requires choices_within { All IsWithinChoice (map choice_of choices.items) }
    requires choices_fit { All (FitsChoice (program_of program.now).layout) (map choice_of choices.items) }
    ensures { IfOk result (EndsExecution (λ n. on (execution Bounded (program_of program.now) method (opening_of opening.now) n) (map choice_of choices.items)) budget) }
{
    let begin = empty_state(alloc, &program.layout, &opening.memo)?;
    let mut feed = Feed {
        choices,
        next: 0,
        events: Vec::new(alloc),
    };
    let mut left = budget;
    match exec_numbered(alloc, program, method, opening, &mut left, &mut feed) {
        Ok(state) => Ok(answer(ExecEnd::Done, state, budget.saturating_sub(left), &feed)),
        Err(quit) => Ok(answer(end_of(quit)?, begin, budget.saturating_sub(left), &feed)),
    }
}
