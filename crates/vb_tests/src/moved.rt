// The choices of Boogie that events turn into: each row is a run of Viper with a bar between its lines, and the run of a procedure
// of Boogie that takes its moves. The contents that the run begins with are opened first, and then all its choices are taken.
ghost use Rattle.std.specs.Prelude.{IfOk, length};
ghost use Rattle.viper_core.specs.Formed.{IsFormed};
ghost use Rattle.viper_core.specs.View.{program_of};

use crate::rows::none_other;
use boogie_fixtures::procedures::boogie_program;
use boogie_tree::BRun;
use row_columns::{bytes_of, first_other, other_lines, two};
use run_file::{ViperRun, moves, print_boogie_run, read_viper_run};
use sparse::Sparse;
use std::alloc::Global;
use std::test::Fail;
use vb_value::{Content, Key};
use viper_core::Program;
use viper_fixtures::files::checked;
use viper_state::{Choice, Event, copy_memo};

/// A predicate without parameters, and one with two.
const PROGRAM: &str =
    "field f: Int field g: Ref predicate E() predicate Q(n: Int, b: Bool) method m()";

/// A procedure that all is given to.
const PROCEDURE: &str = "procedure go() { var i: int; }";

const ROWS: &str = "\
viper run | pick true ; boogie run go | pick true
viper run | pick false | value 7 | value true | value #3 | value -2/4 | amount 1/3 | fresh #4 ; boogie run go | pick false | value 7 | value true | value #3 | value -1/2 | value 1/3 | value #4
viper run | state ; boogie run go | entries | entries | entries | entries
viper run | state | heap g #3 #1 | heap f #2 -5 | heap f #1 4 | content Q 3 false pair leaf #1 unit | content Q -2 true leaf null | content E leaf 1/2 ; boogie run go | entries | at #1 4 | at #2 -5 | entries | at #3 #1 | entries | at 0 leaf 1/2 | entries | at -2 true leaf null | at 3 false pair leaf #1 unit
viper run | content E leaf #9 ; boogie run go | value #9
viper run | content Q 1 true pair leaf 2 pair unit leaf true ; boogie run go | value leaf 2 | value pair unit leaf true
viper run | content E leaf 6 | content Q 0 false pair unit leaf 1 | pick true | value false | amount 3/2 | fresh #1 | state | heap f #1 2 ; boogie run go | value 6 | value unit | value leaf 1 | pick true | value false | value 3/2 | value #1 | entries | at #1 2 | entries | entries | entries";

/// The run of the method that the lines spell.
fn run_of(alloc: Global, program: &Program, text: &str) -> Result<ViperRun, Fail>
    requires { IsFormed (program_of program.now) }
{
    let bytes = bytes_of(alloc, text)?;
    if bytes.len() > 33_554_432 || program.units.is_empty() {
        return Err("no run")?;
    }
    Ok(read_viper_run(alloc, &bytes, program, 0)?)
}

/// What is recorded where a content is opened.
fn opened(alloc: Global, content: &Content) -> Result<Event, Fail> {
    match content {
        Content::Unit => Err("nothing to open")?,
        Content::Leaf(value) => Ok(Event::Leaf(*value)),
        Content::Pair(left, right) => Ok(Event::Split(left.copy(alloc)?, right.copy(alloc)?)),
    }
}

/// What is recorded where a choice is taken.
fn taken(alloc: Global, choice: &Choice) -> Result<Event, Fail> {
    Ok(match choice {
        Choice::Branch(way) => Event::Branch(*way),
        Choice::Took(value) => Event::Took(*value),
        Choice::Amount(amount) => Event::Wild(*amount),
        Choice::Fresh(reference) => Event::Fresh(*reference),
        Choice::Memo(memo) => Event::Whole(copy_memo(alloc, memo)?),
    })
}

fn open_all(
    alloc: Global,
    contents: &Sparse<Key, Content>,
    events: &mut Vec<Event>,
) -> Result<(), Fail> {
    for i in 0..contents.len() {
        events.push(opened(alloc, contents.get(contents.key_at(i)))?)?;
    }
    Ok(())
}

fn events_of(alloc: Global, run: &ViperRun) -> Result<Vec<Event>, Fail> {
    let mut events = Vec::new(alloc);
    for contents in run.opening.memo.content.as_slice() {
        open_all(alloc, contents, &mut events)?;
    }
    for choice in run.choices.as_slice() {
        events.push(taken(alloc, choice)?)?;
    }
    Ok(events)
}

/// The run of the procedure that takes the moves of the events.
fn printed(alloc: Global, program: &Program, events: &Vec<Event>) -> Result<Vec<u8>, Fail> {
    let boogie = boogie_program(alloc, PROCEDURE.as_bytes())?;
    let proc = boogie.procs.first().ok_or("no procedure")?;
    let run = BRun {
        settings: Vec::new(alloc),
        choices: moves(alloc, events, program)?,
    };
    Ok(print_boogie_run(alloc, proc, &run)?)
}

/// What came of a row, where the row says otherwise.
fn wrong_row(alloc: Global, row: &str) -> Result<Option<String>, Fail> {
    let (text, want) = two(row)?;
    let program = checked(alloc, PROGRAM.as_bytes())?;
    let events = events_of(alloc, &run_of(alloc, &program, text)?)?;
    let came = printed(alloc, &program, &events)?;
    other_lines(alloc, want, &came)
}

/// Events turn into the moves that the rows say.
#[test]
fn events_turn_into_moves(rt: HostRuntime) -> Result<(), Fail> {
    let alloc = rt.alloc();
    let other = first_other(alloc, ROWS, |row| wrong_row(alloc, row))?;
    none_other(&rt, other);
    Ok(())
}
