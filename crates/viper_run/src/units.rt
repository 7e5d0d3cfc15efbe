// Runs of methods, predicates and units.
ghost use Rattle.std.specs.Prelude.{⊤, ◌≡◌, ◌-◌, All, IfOk, IsErr, Ok, map, vec_len};
ghost use Rattle.vb_value.specs.Bound.{Bounded, IsWithin};
ghost use Rattle.vb_value.specs.Fraction.{IsWithinFraction};
ghost use Rattle.viper_core.specs.Formed.{IsFormed};
ghost use Rattle.viper_core.specs.Literals.{IsWithinAssertion};
ghost use Rattle.viper_core.specs.View.{assertion_of, body_of, method_of, predicate_of, program_of};
ghost use Rattle.viper_core.specs.declared.programs.Unit.TheVariants as unit;
ghost use Rattle.viper_state.specs.Fits.{FitsChoice};
ghost use Rattle.viper_state.specs.View.{opening_of, choice_of, feed_of, state_of};
ghost use Rattle.viper_state.specs.Within.{IsWithinOpening, IsWithinChoice};
ghost use Rattle.viper_meaning.specs.Run.{on};
ghost use Rattle.viper_meaning.specs.StatementLiterals.{AllBodyLiterals, IsWithinMethod, IsWithinProgram};
ghost use Rattle.viper_meaning.specs.Statements as m;
ghost use Rattle.viper_meaning.specs.Units as u;
ghost use Rattle.viper_meaning.specs.Units.{Opens, unit_run};
ghost use Rattle.viper_inhale.specs.Answers.{Does, stopped};
ghost use Rattle.viper_inhale.specs.declared.answers.StepStop.{StepStop};
ghost use Rattle.viper_inhale.specs.declared.answers.StepHalt.TheVariants as ended;
ghost use Rattle.viper_run.specs.Outcome.{Ends, outcome_of};
ghost use Rattle.viper_run.specs.Ready.{CanBegin, IsReady};
ghost use Rattle.viper_run.specs.Steps.{method_begun};
ghost use Rattle.viper_run.specs.View.{activation_of, configuration_of};

use crate::activations::{Activation, Configuration, Store};
use crate::choices::{take_branch, take_state};
use crate::clauses::{consume_all, produce_all};
use crate::statements::run_block;
use std::alloc::Global;
use vb_base::Memory;
use vb_value::{Frac, Value};
use viper_core::{Assertion, Body, Method, Predicate, Program, Unit};
use viper_eval::{SceneRef, found};
use viper_inhale::{StepHalt, StepStop, produce_in};
use viper_state::{Choice, Event, Feed, Opening, Outcome, State, copy_state, empty_state};

/// The values of the variables at the start: those given, and defaults for the others.
pub fn first_store(alloc: Global, method: &Method, given: &[Value]) -> Result<Store, Memory>
    ensures { IfOk result (λ store. store.values.items ≡ u.first_store (method_of method.now) given.now) }
{
    let mut values = Vec::with_capacity(alloc, method.vars.len())?;
    values.extend_from_slice(given)?;
    for i in method.params as usize + method.returns as usize..method.vars.len() {
        values.push(Value::default_of(method.vars[i]))?;
    }
    Ok(Store { values })
}

/// Checks the postcondition by itself: it is produced in any state in which nothing is held. Nothing continues after it.
fn check_postcondition(
    alloc: Global,
    activation: Activation,
    method: &Method,
    configuration: &Configuration,
    feed: &mut Feed,
) -> Result<(), StepHalt>
    requires method_within { IsWithinMethod (method_of method.now) }
    requires ready { IsReady (activation_of activation) (configuration_of configuration.now) (feed_of feed.old) }
    ensures { Does (λ _. state_of configuration.now.state) (feed_of feed.old)
        (u.check_postcondition Bounded (activation_of activation.entry) (method_of method.now) (configuration_of configuration.now).store)
        (feed_of feed.new) result }
{
    let mut any = take_state(alloc, activation.program, feed)?;
    let scene = activation.scene(&configuration.store, method.name_at);
    produce_all(alloc, &method.postconditions, scene, &mut any, feed)?;
    Err(StepHalt::Stops(StepStop::Blocked))
}

/// The end of a method's body: the postcondition is consumed.
fn end_body(
    alloc: Global,
    activation: Activation,
    method: &Method,
    body: &Body,
    configuration: &mut Configuration,
    feed: &mut Feed,
) -> Result<(), StepHalt>
    requires method_within { IsWithinMethod (method_of method.now) }
    requires ready { IsReady (activation_of activation) (configuration_of configuration.old) (feed_of feed.old) }
    ensures { Does (λ _. state_of configuration.new.state) (feed_of feed.old)
        (m.consume_all Bounded (method_of method.now).postconditions (configuration_of configuration.old).state
        (m.scene (activation_of activation.entry) (configuration_of configuration.old) body.now.turn) (configuration_of configuration.old).state)
        (feed_of feed.new) result }
{
    let start = copy_state(alloc, &configuration.state)?;
    let scene = activation.scene(&configuration.store, body.turn);
    consume_all(
        alloc,
        &method.postconditions,
        &start,
        scene,
        &mut configuration.state,
        feed,
    )
}

/// Runs the body of a method, and consumes the postcondition.
fn run_body(
    alloc: Global,
    activation: Activation,
    method: &Method,
    body: &Body,
    configuration: &mut Configuration,
    feed: &mut Feed,
) -> Result<(), StepHalt>
    requires method_within { IsWithinMethod (method_of method.now) }
    requires body_within { AllBodyLiterals IsWithin IsWithinFraction (body_of body.now) }
    requires ready { IsReady (activation_of activation) (configuration_of configuration.old) (feed_of feed.old) }
    ensures { Does (λ _. state_of configuration.new.state) (feed_of feed.old)
        (u.run_body Bounded (activation_of activation.entry) (method_of method.now) (body_of body.now) (configuration_of configuration.old))
        (feed_of feed.new) result }
{
    run_block(alloc, activation, &body.stmts, configuration, feed)?;
    end_body(alloc, activation, method, body, configuration, feed)
}

/// A choice decides between the body and the check of the postcondition. Without a body there is the check alone.
fn run_method(
    alloc: Global,
    activation: Activation,
    method: &Method,
    configuration: &mut Configuration,
    feed: &mut Feed,
) -> Result<(), StepHalt>
    requires method_within { IsWithinMethod (method_of method.now) }
    requires ready { IsReady (activation_of activation) (configuration_of configuration.old) (feed_of feed.old) }
    ensures { Does (λ _. state_of configuration.new.state) (feed_of feed.old)
        (u.run_method Bounded (activation_of activation.entry) (method_of method.now) (method_of method.now).body (configuration_of configuration.old))
        (feed_of feed.new) result }
{
    match &method.body {
        Some(body) => {
            if take_branch(feed)? {
                run_body(alloc, activation, method, body, configuration, feed)
            } else {
                check_postcondition(alloc, activation, method, configuration, feed)
            }
        }
        None => check_postcondition(alloc, activation, method, configuration, feed),
    }
}

/// The precondition is produced where nothing is held.
pub fn begin_method(
    alloc: Global,
    program: &Program,
    method: &Method,
    opening: &Opening,
    feed: &mut Feed,
) -> Result<Configuration, StepHalt>
    requires method_within { IsWithinMethod (method_of method.now) }
    requires begin { CanBegin (program_of program.now) (opening_of opening.now) (feed_of feed.old) }
    ensures { Does configuration_of (feed_of feed.old)
        (method_begun (program_of program.now) (method_of method.now) (opening_of opening.now)) (feed_of feed.new) result }
{
    let store = first_store(alloc, method, &opening.store)?;
    let mut state = empty_state(alloc, &program.layout, &opening.memo)?;
    let old = copy_state(alloc, &state)?;
    let scene = SceneRef {
        store: &store.values,
        old: &old,
        at: method.at,
    };
    produce_all(alloc, &method.preconditions, scene, &mut state, feed)?;
    Ok(Configuration { store, state })
}

/// Runs a method. What the precondition makes is its old state.
fn start_method(
    alloc: Global,
    program: &Program,
    method: &Method,
    opening: &Opening,
    feed: &mut Feed,
) -> Result<State, StepHalt>
    requires method_within { IsWithinMethod (method_of method.now) }
    requires program_within { IsWithinProgram (program_of program.now) }
    requires begin { CanBegin (program_of program.now) (opening_of opening.now) (feed_of feed.old) }
    ensures { Does state_of (feed_of feed.old)
        (u.start_method Bounded (program_of program.now) (method_of method.now) (opening_of opening.now)) (feed_of feed.new) result }
{
    let mut configuration = begin_method(alloc, program, method, opening, feed)?;
    let old = copy_state(alloc, &configuration.state)?;
    let activation = Activation {
        program,
        vars: &method.vars,
        old: &old,
    };
    run_method(alloc, activation, method, &mut configuration, feed)?;
    Ok(configuration.state)
}

/// Runs the body of a predicate: it is produced where nothing is held.
fn start_predicate(
    alloc: Global,
    program: &Program,
    predicate: &Predicate,
    body: &Assertion,
    opening: &Opening,
    feed: &mut Feed,
) -> Result<State, StepHalt>
    requires body_within { IsWithinAssertion (assertion_of body.now) }
    requires begin { CanBegin (program_of program.now) (opening_of opening.now) (feed_of feed.old) }
    ensures { Does state_of (feed_of feed.old)
        (u.start_predicate Bounded (program_of program.now) (predicate_of predicate.now) (assertion_of body.now) (opening_of opening.now)) (feed_of feed.new) result }
{
    let mut state = empty_state(alloc, &program.layout, &opening.memo)?;
    let old = copy_state(alloc, &state)?;
    let scene = SceneRef {
        store: &opening.store,
        old: &old,
        at: predicate.at,
    };
    produce_in(alloc, body, &mut state, scene, Frac::write(), feed)?;
    Ok(state)
}

/// Runs the predicate of this number.
fn run_predicate(
    alloc: Global,
    program: &Program,
    number: u32,
    opening: &Opening,
    feed: &mut Feed,
) -> Result<State, StepHalt>
    requires program_within { IsWithinProgram (program_of program.now) }
    requires begin { CanBegin (program_of program.now) (opening_of opening.now) (feed_of feed.old) }
    ensures { Does state_of (feed_of feed.old)
        (u.run_of_unit Bounded (program_of program.now) (unit.Predicate number) (opening_of opening.now)) (feed_of feed.new) result }
{
    let predicate = found(program.predicates.get(number as usize))?;
    let body = found(predicate.body.as_ref())?;
    start_predicate(alloc, program, predicate, body, opening, feed)
}

/// Runs the method of this number.
fn run_numbered(
    alloc: Global,
    program: &Program,
    number: u32,
    opening: &Opening,
    feed: &mut Feed,
) -> Result<State, StepHalt>
    requires program_within { IsWithinProgram (program_of program.now) }
    requires begin { CanBegin (program_of program.now) (opening_of opening.now) (feed_of feed.old) }
    ensures { Does state_of (feed_of feed.old)
        (u.run_of_unit Bounded (program_of program.now) (unit.Method number) (opening_of opening.now)) (feed_of feed.new) result }
{
    let method = found(program.methods.get(number as usize))?;
    start_method(alloc, program, method, opening, feed)
}

/// Runs the unit of this number.
fn run_of(
    alloc: Global,
    program: &Program,
    number: u32,
    opening: &Opening,
    feed: &mut Feed,
) -> Result<State, StepHalt>
    requires program_within { IsWithinProgram (program_of program.now) }
    requires begin { CanBegin (program_of program.now) (opening_of opening.now) (feed_of feed.old) }
    ensures { Does state_of (feed_of feed.old)
        (unit_run Bounded (program_of program.now) number (opening_of opening.now)) (feed_of feed.new) result }
{
    match found(program.units.get(number as usize).copied())? {
        Unit::Method(number) => run_numbered(alloc, program, number, opening, feed),
        Unit::Predicate(number) => run_predicate(alloc, program, number, opening, feed),
    }
}

/// How a run ended.
#[derive(Drop)]
pub struct Run {
    pub outcome: Outcome,
    /// The final state where the outcome is `Done`; after another outcome nothing is said of it.
    pub state: State,
    /// What was recorded, in order.
    pub events: Vec<Event>,
    /// How many choices were left.
    pub unused: usize,
}

/// The outcome of an end after which nothing continues, if not for lack of memory.
fn outcome(halt: StepHalt) -> Result<Outcome, Memory>
    ensures stops { (w : StepStop) → halt ≡ ended.Stops w → result ≡ Ok (outcome_of (stopped {X = ⊤} w)) }
    ensures memory { halt ≡ ended.Memory → IsErr result }
{
    match halt {
        StepHalt::Stops(StepStop::Fails(label)) => Ok(Outcome::Failed(label)),
        StepHalt::Stops(StepStop::Blocked) => Ok(Outcome::Blocked),
        StepHalt::Stops(StepStop::Short) => Ok(Outcome::Short),
        StepHalt::Stops(StepStop::Over(at)) => Ok(Outcome::Over(at)),
        StepHalt::Memory => Err(Memory),
    }
}

/// What a run that ended so answers.
fn ended(outcome: Outcome, state: State, feed: Feed) -> Run
    ensures { result ≡ record { outcome = outcome; state = state; events = feed.events; unused = vec_len feed.choices - feed.next } }
{
    let unused = feed.choices.len().saturating_sub(feed.next);
    Run {
        outcome,
        state,
        events: feed.events,
        unused,
    }
}

/// Runs a unit of a program, by its number: a method against its contract, or the body of a predicate.
///
/// Numbers have magnitude at most 2^127 - 1, and contents at most `MAX_CONTENT_NODES` nodes; what would leave this bound ends `Over`.
///
/// `Memory` where there is no memory.
///
/// Source: Viper tutorial; Parthasarathy and others, PLDI 2024 (total heaps with masks).
pub fn run_unit(
    alloc: Global,
    program: &Program,
    unit: u32,
    opening: &Opening,
    choices: Vec<Choice>,
) -> Result<Run, Memory>
    requires formed { IsFormed (program_of program.now) }
    requires opens { Opens (program_of program.now) unit (opening_of opening.now) }
    requires opening_within { IsWithinOpening (opening_of opening.now) }
    requires choices_within { All IsWithinChoice (map choice_of choices.items) }
    requires choices_fit { All (FitsChoice (program_of program.now).layout) (map choice_of choices.items) }
    ensures { IfOk result (λ x. Ends (on (unit_run Bounded (program_of program.now) unit (opening_of opening.now)) (map choice_of choices.items)) x) }
{
    let begin = empty_state(alloc, &program.layout, &opening.memo)?;
    let mut feed = Feed {
        choices,
        next: 0,
        events: Vec::new(alloc),
    };
    match run_of(alloc, program, unit, opening, &mut feed) {
        Ok(state) => Ok(ended(Outcome::Done, state, feed)),
        Err(halt) => Ok(ended(outcome(halt)?, begin, feed)),
    }
}
