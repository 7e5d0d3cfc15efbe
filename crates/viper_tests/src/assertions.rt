// How assertions are consumed and produced, and what is forgotten: each row is a call, an assertion over `x`, `y` and `n`,
// the scale, the values of the variables, the state, the choices, what is other in the state afterwards, the end with the
// number of choices that are left, and the events. A place in line 2 is a column of the assertion.
ghost use Rattle.std.specs.Prelude.{◌≡◌, All, IfOk, true};
ghost use Rattle.vb_value.specs.Fraction.{is_positive};
ghost use Rattle.viper_core.specs.Formed.{IsFormed};
ghost use Rattle.viper_core.specs.Literals.{IsWithinAssertion};
ghost use Rattle.viper_core.specs.View.{assertion_of, program_of};
ghost use Rattle.viper_state.specs.View.{choice_of, feed_of, scene_of, state_of};
ghost use Rattle.viper_state.specs.Within.{IsWithinChoice, IsWithinFeed, IsWithinScene, IsWithinState};

use crate::told::{stepped, with_choices};
use row_columns::{first_other, four, other_than, two};
use std::alloc::Global;
use std::test::Fail;
use vb_value::{Frac, Value};
use viper_core::{Assertion, Program, Stmt};
use viper_fixtures::files::{first_stmt, program};
use viper_fixtures::scenes::{is_changed, scene, state_of};
use viper_fixtures::words::fraction;
use viper_inhale::{Step, consume, forget, produce};
use viper_state::{Choice, Event, Feed, Memo, Scene, State};

/// What stands before the assertion.
const START: &str =
    "field f: Int field g: Ref predicate P(x: Ref) { acc(x.f) } predicate Q(n: Int, x: Ref) predicate R(x: Ref, n: Int) method m(x: Ref, y: Ref, n: Int) { inhale";

/// Consume reads each expression in the state at the start, and produce in the state that the earlier parts have made.
const READS: &str = "\
consume ; acc(x.f) && x.f > 0 ; 1/1 ; #1 #2 5 ; #1.f:1/1 ;  ;  ; 9:1 2:13 false, 0 left
consume ; acc(x.f) && x.f > 0 ; 1/1 ; #1 #2 5 ; #1.f=5 #1.f:1/1 ;  ; #1.f:0/1 ; goes, 0 left
produce ; x.f > 0 && acc(x.f) ; 1/1 ; #1 #2 5 ; #1.f=5 ;  ;  ; 9:1 2:3 perm, 0 left";

/// Two names for one reference, and for two. A place is held at most whole, an instance as often as one likes.
const SUMS: &str = "\
produce ; acc(x.f, 1/2) && acc(y.f, 1/2) && acc(x.f, 1/2) ; 1/1 ; #1 #1 5 ;  ;  ;  ; blocked, 0 left
produce ; acc(x.f, 1/2) && acc(y.f, 1/2) && acc(x.f, 1/2) ; 1/1 ; #1 #2 5 ;  ;  ; #1.f:1/1 #2.f:1/2 ; goes, 0 left
produce ; P(x) && P(y) ; 1/1 ; #1 #1 5 ; P(#1)=3 P(#1):1/2 ;  ; P(#1):5/2 ; goes, 0 left
consume ; acc(P(x), 3/2) && P(y) ; 1/1 ; #1 #1 5 ; P(#1)=3 P(#1):3/1 ;  ; P(#1):1/2 ; goes, 0 left";

/// A negative amount fails.
const SIGNS: &str = "\
consume ; acc(x.f, -1/2) ; 1/1 ; #1 #2 5 ;  ;  ;  ; 9:1 2:7 negative, 0 left";

/// A `wildcard` that is consumed is a positive part of what is left, but not all of it. No scale multiplies it.
const TAKEN: &str = "\
consume ; acc(x.f, wildcard) ; 1/1 ; #1 #2 5 ; #1.f:1/2 ; 1/2 | 1/4 ;  ; blocked, 1 left ; 1/2
consume ; acc(x.f, wildcard) ; 1/1 ; #1 #2 5 ; #1.f:1/2 ; 1/4 | 1/2 ; #1.f:1/4 ; goes, 1 left ; 1/4
consume ; acc(x.f, wildcard) ; 1/1 ; #1 #2 5 ; #1.f:1/2 ; 3/4 ;  ; blocked, 0 left ; 3/4
consume ; acc(x.f, wildcard) ; 1/1 ; #1 #2 5 ; #1.f:1/2 ; 0/1 ;  ; blocked, 0 left ; 0/1
consume ; acc(x.f, wildcard) ; 1/1 ; #1 #2 5 ; #1.f:1/2 ; -1/4 ;  ; blocked, 0 left ; -1/4
consume ; acc(x.f, wildcard) ; 1/2 ; #1 #2 5 ; #1.f:1/1 ; 3/4 ; #1.f:1/4 ; goes, 0 left ; 3/4
consume ; acc(P(x), wildcard) ; 1/3 ; #1 #2 5 ; P(#1):2/1 ; 3/2 ; P(#1):1/2 ; goes, 0 left ; 3/2
consume ; acc(x.f, wildcard) && acc(y.f, wildcard) ; 1/1 ; #1 #1 5 ; #1.f:1/1 ; 3/4 | 1/8 | branch ; #1.f:1/8 ; goes, 1 left ; 3/4 1/8
consume ; acc(x.f, wildcard) && acc(y.f, wildcard) ; 1/1 ; #1 #1 5 ; #1.f:1/1 ; 3/4 | 1/4 | branch ;  ; blocked, 1 left ; 3/4 1/4
consume ; acc(x.f, wildcard) && acc(y.f, wildcard) ; 1/1 ; #1 #1 5 ; #1.f:1/1 ; 3/4 ;  ; short, 0 left ; 3/4
consume ; acc(x.g, wildcard) && unfolding P(x) in x.f > 9 ; 1/1 ; #1 #2 5 ; #1.g:1/1 P(#1)=5 P(#1):1/1 ; 1/2 | 1/3 ;  ; 9:1 2:23 false, 1 left ; 1/2 5
consume ; acc(x.g, wildcard) && unfolding P(x) in x.f == 5 ; 1/1 ; #1 #2 5 ; #1.g:1/1 P(#1)=5 P(#1):1/1 ; 1/2 | 1/3 ; #1.g:1/2 ; goes, 1 left ; 1/2 5";

/// A `wildcard` that is produced is positive, and the scale multiplies it.
const GIVEN: &str = "\
produce ; acc(x.f, wildcard) ; 1/1 ; #1 #2 5 ;  ; 1/2 | branch ; #1.f:1/2 ; goes, 1 left ; 1/2
produce ; acc(x.f, wildcard) ; 1/2 ; #1 #2 5 ;  ; 1/2 ; #1.f:1/4 ; goes, 0 left ; 1/2
produce ; acc(x.f, wildcard) ; 1/1 ; #1 #2 5 ; #1.f:1/2 ; 3/4 | 1/4 ;  ; blocked, 1 left ; 3/4
produce ; acc(x.f, wildcard) ; 1/1 ; #0 #2 5 ;  ; 3/4 ;  ; blocked, 0 left ; 3/4
produce ; acc(x.f, wildcard) ; 1/1 ; #1 #2 5 ;  ; 0/1 ;  ; blocked, 0 left ; 0/1
produce ; acc(x.f, wildcard) ; 1/1 ; #1 #2 5 ; #1.f:1/1 ; -1/2 ;  ; blocked, 0 left ; -1/2
produce ; acc(P(x), wildcard) ; 1/2 ; #0 #2 5 ; P(#0)=3 P(#0):1/1 ; 3/1 ; P(#0):5/2 ; goes, 0 left ; 3/1
produce ; acc(x.f, wildcard) && acc(y.f, wildcard) ; 1/1 ; #1 #2 5 ;  ; 1/2 | 1/4 ; #1.f:1/2 #2.f:1/4 ; goes, 0 left ; 1/2 1/4
produce ; acc(x.f, wildcard) && acc(y.f, wildcard) ; 1/1 ; #1 #2 5 ;  ; 1/2 ;  ; short, 0 left ; 1/2
produce ; acc(x.f, wildcard) && y.f > 0 ; 1/1 ; #1 #2 5 ;  ; 1/2 | 1/4 ;  ; 9:1 2:25 perm, 1 left ; 1/2";

/// The scale multiplies each amount that is written.
const SCALES: &str = "\
consume ; acc(x.f) && acc(P(x), 3/1) ; 1/2 ; #1 #2 5 ; #1.f:1/1 P(#1):2/1 ;  ; #1.f:1/2 P(#1):1/2 ; goes, 0 left
consume ; acc(x.f) ; 3/2 ; #1 #2 5 ; #1.f:1/1 ;  ;  ; 9:1 2:7 perm, 0 left
produce ; acc(x.f) && acc(P(x), 3/1) ; 1/2 ; #1 #2 5 ;  ;  ; #1.f:1/2 P(#1):3/2 ; goes, 0 left
produce ; acc(x.f) ; 3/2 ; #1 #2 5 ;  ;  ;  ; blocked, 0 left
produce ; acc(x.f, 2/1) ; 1/2 ; #1 #2 5 ;  ;  ; #1.f:1/1 ; goes, 0 left";

/// Instances with two parameters of different types.
const INSTANCES: &str = "\
produce ; Q(n, y) && R(y, n) ; 1/1 ; #1 #2 5 ; Q(5,#1):1/1 R(#1,5):1/1 ;  ; Q(5,#2):1/1 R(#2,5):1/1 ; goes, 0 left
produce ; Q(n, x) && R(y, 4) ; 1/1 ; #1 #2 5 ; Q(5,#1):1/1 R(#2,5):1/1 ;  ; Q(5,#1):2/1 R(#2,4):1/1 ; goes, 0 left
consume ; Q(n, y) && acc(R(y, n), 1/2) ; 1/1 ; #1 #2 5 ; Q(5,#2)=7 Q(5,#2):1/1 R(#2,5):2/1 ;  ; Q(5,#2):0/1 R(#2,5):3/2 ; goes, 0 left";

/// What leaves the bound is over at the name of the field. In the last row the choice was taken.
const OVER: &str = "\
produce ; acc(x.f, 1/2) ; 1/MAX ; #1 #2 5 ;  ;  ;  ; over 2:7, 0 left
consume ; acc(x.f, wildcard) ; 1/1 ; #1 #2 5 ; #1.f:1/2 ; 1/MAX ;  ; over 2:7, 0 left ; 1/170141183460469231731687303715884105727";

/// What is not held gets what is chosen, and what is held keeps its own.
const FORGOTTEN: &str = "\
forget ; true ; 1/1 ;  ; #1.f=5 #1.f:1/2 #2.f=6 P(#1)=3 P(#1):1/1 P(#2)=4 ; memo #1.f=9 #2.f=8 #3.g=#7 P(#1)=1 P(#2)=2 Q(5,#2)=3 ; #2.f=8 #3.g=#7 P(#2)=2 Q(5,#2)=3 ; goes, 0 left ; memo
forget ; true ; 1/1 ;  ; #1.f=5 #1.f:1/2 #2.f=6 P(#1)=3 P(#1):1/1 P(#2)=4 ; memo | branch ; #2.f=0 P(#2)=_ ; goes, 1 left ; memo
forget ; true ; 1/1 ;  ; #1.f:1/2 P(#1):1/1 ; memo #1.f=9 P(#1)=1 ;  ; goes, 0 left ; memo
forget ; true ; 1/1 ;  ; #1.f=5 ; branch | memo ;  ; blocked, 1 left
forget ; true ; 1/1 ;  ; #1.f=5 ; 1/2 ;  ; blocked, 0 left
forget ; true ; 1/1 ;  ; #1.f=5 ;  ;  ; short, 0 left";

/// The columns of a row.
#[derive(Clone, Copy)]
struct AssertionRow<'a> {
    call: &'a str,
    assertion: &'a str,
    scale: &'a str,
    variables: &'a str,
    before: &'a str,
    choices: &'a str,
    other: &'a str,
    want: &'a str,
}

fn row_of(row: &str) -> Result<AssertionRow<'_>, Fail> {
    let (call, assertion, scale, rest) = four(row)?;
    let (variables, before, choices, rest) = four(rest)?;
    let (other, want) = two(rest)?;
    Ok(AssertionRow {
        call,
        assertion,
        scale,
        variables,
        before,
        choices,
        other,
        want,
    })
}

/// The heap and the contents of a state that words tell.
fn memo(alloc: Global, words: &str) -> Result<Choice, Fail>
    ensures { IfOk result (λ c. IsWithinChoice (choice_of c)) }
{
    let State { heap, content, .. } = state_of(alloc, words)?;
    Ok(Choice::Memo(Memo { heap, content }))
}

/// A choice: `branch`, an amount, or `memo` and the words of a state.
fn choice(alloc: Global, text: &str) -> Result<Choice, Fail>
    ensures { IfOk result (λ c. IsWithinChoice (choice_of c)) }
{
    if text == "branch" {
        return Ok(Choice::Branch(true));
    }
    match text.strip_prefix("memo") {
        Some(words) => memo(alloc, words),
        None => Ok(Choice::Amount(fraction(text)?)),
    }
}

/// Choices that stand with a bar between them.
fn choices(alloc: Global, text: &str) -> Result<Vec<Choice>, Fail>
    ensures { IfOk result (λ v. All (λ c. IsWithinChoice (choice_of c)) v.items) }
{
    let mut choices = Vec::new(alloc);
    for part in text.split(" | ") {
        if part != "" {
            choices.push(choice(alloc, part)?)?;
        }
    }
    Ok(choices)
}

/// A feed with these choices, in which an event is recorded.
fn feed(alloc: Global, text: &str) -> Result<Feed, Fail>
    ensures { IfOk result (λ f. IsWithinFeed (feed_of f)) }
{
    let events = vec![in alloc; Event::Branch(false)]?;
    let choices = choices(alloc, text)?;
    let next = 0;
    Ok(Feed {
        choices,
        next,
        events,
    })
}

fn scale(text: &str) -> Result<Frac, Fail>
    ensures { IfOk result (λ q. is_positive q ≡ true) }
{
    let scale = fraction(text)?;
    if !Frac::is_positive(scale) {
        return Err("no scale")?;
    }
    Ok(scale)
}

/// How the call of a row ends.
fn ending(
    alloc: Global,
    assertion: &Assertion,
    row: &AssertionRow,
    state: &mut State,
    scene: &Scene,
    scale: Frac,
    feed: &mut Feed,
) -> Result<Step, Fail>
    requires assertion_within { IsWithinAssertion (assertion_of assertion.now) }
    requires state_within { IsWithinState (state_of state.old) }
    requires scene_within { IsWithinScene (scene_of scene.now) }
    requires scale_positive { is_positive scale ≡ true }
    requires feed_within { IsWithinFeed (feed_of feed.old) }
{
    match row.call.as_bytes() {
        b"consume" => {
            let start = state_of(alloc, row.before)?;
            Ok(consume(alloc, assertion, &start, state, scene, scale, feed)?)
        }
        b"produce" => Ok(produce(alloc, assertion, state, scene, scale, feed)?),
        b"forget" => Ok(forget(alloc, state, feed)?),
        _ => Err("no call")?,
    }
}

/// How the call of a row ends with its values and its scale.
fn ending_in(
    alloc: Global,
    assertion: &Assertion,
    row: &AssertionRow,
    state: &mut State,
    feed: &mut Feed,
) -> Result<Step, Fail>
    requires assertion_within { IsWithinAssertion (assertion_of assertion.now) }
    requires state_within { IsWithinState (state_of state.old) }
    requires feed_within { IsWithinFeed (feed_of feed.old) }
{
    let scale = scale(row.scale)?;
    let scene = scene(alloc, row.variables, "")?;
    ending(alloc, assertion, row, state, &scene, scale, feed)
}

/// Whether no value of a heap is a greater reference than the state knows.
fn knows_greatest(state: &State) -> bool {
    for heap in &state.heap {
        for i in 0..heap.len() {
            match *heap.get(heap.key_at(i)) {
                Value::Ref(reference) if reference > state.greatest() => return false,
                _ => {}
            }
        }
    }
    true
}

/// How the call of a row ends, what is left and what is recorded. Where the run continues, the state is as it should be.
fn told_in(
    alloc: Global,
    assertion: &Assertion,
    row: &AssertionRow,
    state: &mut State,
    feed: &mut Feed,
) -> Result<String, Fail>
    requires assertion_within { IsWithinAssertion (assertion_of assertion.now) }
    requires state_within { IsWithinState (state_of state.old) }
    requires feed_within { IsWithinFeed (feed_of feed.old) }
{
    let end = ending_in(alloc, assertion, row, state, feed)?;
    if end == Step::Goes && !is_changed(alloc, state, row.before, row.other)? {
        return Ok("another state".to_string(alloc)?);
    }
    if !knows_greatest(state) {
        return Ok("a greater reference".to_string(alloc)?);
    }
    with_choices(alloc, stepped(alloc, end)?, feed)
}

/// The same in the state of the row, with its choices.
fn told(alloc: Global, assertion: &Assertion, row: &AssertionRow) -> Result<String, Fail>
    requires { IsWithinAssertion (assertion_of assertion.now) }
{
    let mut feed = feed(alloc, row.choices)?;
    let mut state = state_of(alloc, row.before)?;
    told_in(alloc, assertion, row, &mut state, &mut feed)
}

/// The same of the assertion of a program.
fn told_of(alloc: Global, program: &Program, row: &AssertionRow) -> Result<String, Fail>
    requires { IsFormed (program_of program.now) }
{
    match first_stmt(program) {
        Some(Stmt::Inhale(_, assertion)) => told(alloc, assertion, row),
        _ => Err("no assertion")?,
    }
}

/// What came of a row, where the row says otherwise.
fn wrong_row(alloc: Global, start: &str, row: &str) -> Result<Option<String>, Fail> {
    let row = row_of(row)?;
    let program = program(alloc, start, row.assertion)?;
    let came = told_of(alloc, &program, &row)?;
    Ok(other_than(row.want, came))
}

/// Each end, each event, each state and the choices that are left are what their row says.
#[test]
fn assertions_end_as_the_tables_say(rt: HostRuntime) -> Result<(), Fail> {
    let alloc = rt.alloc();
    let tables = [
        READS, SUMS, SIGNS, TAKEN, GIVEN, SCALES, INSTANCES, OVER, FORGOTTEN,
    ];
    for table in tables {
        let other = first_other(alloc, table, |row| wrong_row(alloc, START, row))?;
        if let Some(told) = other {
            panic!(rt; "{told}");
        }
    }
    Ok(())
}
