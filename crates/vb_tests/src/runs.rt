// Run files that are read, printed and read again: each row is a run with a bar between its lines, and the run as it is
// printed. A run of Viper has the number of its unit in front.
ghost use Rattle.std.specs.Prelude.{◌<◌, length, IfSome};
ghost use Rattle.vb_base.specs.Names.{NamesDiffer};
ghost use Rattle.viper_core.specs.Formed.{IsFormed};
ghost use Rattle.viper_core.specs.View.{program_of};
ghost use Rattle.boogie_tree.specs.Whole as boogie;
ghost use Rattle.boogie_grammar.specs.Grammar.{local_names};
ghost use Rattle.boogie_print.specs.Printable.{IsPrintable};

use crate::programs::PROGRAMS;
use crate::rows::none_other;
use boogie_fixtures::procedures::boogie_program;
use boogie_tree::{BProgram, Proc};
use row_columns::{bytes_of, first_other, other_lines, small, three, two};
use run_file::{print_boogie_run, print_viper_run, read_boogie_run, read_viper_run};
use std::alloc::Global;
use std::test::Fail;
use viper_core::Program;
use viper_fixtures::files::checked;

/// A method over a number, and its runs.
const NUMBER: (&str, &str) = (
    "method m(x: Int) { assert x < 3 }",
    "\
0 ; viper run ; viper run
0 ; viper run | var x 5 | pick true ; viper run | var x 5 | pick true
0 ; viper run | var x 0 | pick false | state ; viper run | pick false | state
0 ; // a comment | viper  run |  | var x -7 ; viper run | var x -7",
);

/// A place of one field: what is given at the start, what is chosen in place of what was exhaled, and amounts.
const PLACE: (&str, &str) = (
    "field f: Int method m(x: Ref, n: Int) { exhale acc(x.f, wildcard) }",
    "\
0 ; viper run | var x null | pick true ; viper run | pick true
0 ; viper run | var x #1 | heap f #1 5 | pick true | state ; viper run | var x #1 | heap f #1 5 | pick true | state
0 ; viper run | var x #1 | pick true | amount 2/4 | state | amount 1/2 ; viper run | var x #1 | pick true | amount 1/2 | state | amount 1/2
0 ; viper run | var x #1 | pick true | state | heap f #1 9 ; viper run | var x #1 | pick true | state | heap f #1 9
0 ; viper run | var x #1 | var n 1 | pick true | state | value 0 | pick true | state ; viper run | var x #1 | var n 1 | pick true | state | value 0 | pick true | state
0 ; viper run | var x #1 | pick true | value null | fresh #2 | value 5 ; viper run | var x #1 | pick true | value null | fresh #2 | value 5",
);

/// Runs of the program of lists: of the method that reads the first number of one, and of the predicate of lists.
const LIST_RUNS: &str = "\
4 ; viper run | var x #1 | content list #1 pair leaf null pair pair leaf 4 unit unit | pick true ; viper run | var x #1 | content list #1 pair leaf null pair pair leaf 4 unit unit | pick true
4 ; viper run | content list #1 unit | var v 3 ; viper run | var v 3
1 ; viper run | content cell #2 leaf 4 | content list null leaf true | var x #2 ; viper run | var x #2 | content cell #2 leaf 4 | content list null leaf true";

/// All kinds of lines, out of order.
const ALL: (&str, &str) = (
    "field f: Int field g: Ref field b: Bool predicate P(x: Ref) predicate Q(n: Int, b: Bool) method m(n: Int, b: Bool, p: Perm)",
    "\
0 ; viper run | heap g #2 #3 | content Q 3 true leaf 1/2 | var p 2/4 | heap f #10 4 | var n 7 | content Q -3 false unit | heap f #9 -4 | content P #1 pair unit leaf #3 | var b true | heap b #1 false ; viper run | var n 7 | var b true | var p 1/2 | heap f #9 -4 | heap f #10 4 | heap g #2 #3 | content P #1 pair unit leaf #3 | content Q 3 true leaf 1/2
0 ; viper run | value -2/6 | value true | amount 3/3 | fresh #7 | state | content P #2 leaf -1 | heap b #1 true | heap f #1 0 | pick false ; viper run | value -1/3 | value true | amount 1/1 | fresh #7 | state | heap b #1 true | content P #2 leaf -1 | pick false",
);

/// A procedure over a number.
const ASSERTED: (&str, &str) = (
    "procedure M$m() { var v$x: int; havoc v$x; assert {:msg \"1:20 1:27 false\"} (v$x < 3); }",
    "\
boogie run M$m ; boogie run M$m
boogie run M$m | var v$x 5 | pick true ; boogie run M$m | var v$x 5 | pick true
boogie run M$m | var v$x 0 | value 5 ; boogie run M$m | value 5",
);

/// Variables of all types.
const TYPES: (&str, &str) = (
    "procedure go() { var m: [Ref]int; var i: int; var b: bool; var c: [int, bool]Snap; var r: real; var n: Ref; var s: Snap; }",
    "\
boogie run go | var n #3 | var r 2/4 | var b true | entries c | at 3 true pair unit leaf 1/2 | at 2 true leaf null | entries m | at #2 7 | at #1 4 | at #3 0 | var s leaf 3 | var i -1 ; boogie run go | entries m | at #1 4 | at #2 7 | var i -1 | var b true | entries c | at 2 true leaf null | at 3 true pair unit leaf 1/2 | var r 1/2 | var n #3 | var s leaf 3
boogie run go | entries m | pick false | value 6/4 | entries | at #9 1 | at #8 0 | value unit | entries | pick true ; boogie run go | pick false | value 3/2 | entries | at #9 1 | value unit | entries | pick true",
);

/// The run of Viper that the bytes spell, printed.
fn printed(alloc: Global, program: &Program, unit: u32, bytes: &[u8]) -> Result<Vec<u8>, Fail>
    requires formed { IsFormed (program_of program.now) }
    requires unit { unit < length (program_of program.now).units }
{
    let run = read_viper_run(alloc, small(bytes)?, program, unit)?;
    Ok(print_viper_run(alloc, program, unit, &run)?)
}

/// What is printed of a run of Viper, where it is read again as it was.
fn printed_twice(alloc: Global, program: &Program, unit: u32, text: &str) -> Result<Vec<u8>, Fail>
    requires { IsFormed (program_of program.now) }
{
    if unit as usize >= program.units.len() {
        return Err("no unit")?;
    }
    let once = printed(alloc, program, unit, &bytes_of(alloc, text)?)?;
    let twice = printed(alloc, program, unit, &once)?;
    if twice != once {
        return Err("another run")?;
    }
    Ok(once)
}

/// What came of a row of Viper, where the row says otherwise.
fn wrong_viper_row(alloc: Global, file: &str, row: &str) -> Result<Option<String>, Fail> {
    let (unit, text, want) = three(row)?;
    let unit = unit.parse::<u32>().ok().ok_or("no number")?;
    let program = checked(alloc, file.as_bytes())?;
    let came = printed_twice(alloc, &program, unit, text)?;
    other_lines(alloc, want, &came)
}

/// The first procedure of a program.
fn first_procedure(program: &BProgram) -> Option<&Proc>
    requires { IsPrintable (boogie.program_of program.now) }
    ensures { IfSome result (λ d. NamesDiffer (local_names (boogie.proc_of d.now).locals)) }
{
    program.procs.first()
}

/// The run of Boogie that the bytes spell, printed.
fn printed_boogie(alloc: Global, proc: &Proc, bytes: &[u8]) -> Result<Vec<u8>, Fail>
    requires { NamesDiffer (local_names (boogie.proc_of proc.now).locals) }
{
    let run = read_boogie_run(alloc, small(bytes)?, proc)?;
    Ok(print_boogie_run(alloc, proc, &run)?)
}

/// What is printed of a run of Boogie, where it is read again as it was.
fn printed_boogie_twice(alloc: Global, proc: &Proc, text: &str) -> Result<Vec<u8>, Fail>
    requires { NamesDiffer (local_names (boogie.proc_of proc.now).locals) }
{
    let once = printed_boogie(alloc, proc, &bytes_of(alloc, text)?)?;
    let twice = printed_boogie(alloc, proc, &once)?;
    if twice != once {
        return Err("another run")?;
    }
    Ok(once)
}

/// What came of a row of Boogie, where the row says otherwise.
fn wrong_boogie_row(alloc: Global, file: &str, row: &str) -> Result<Option<String>, Fail> {
    let (text, want) = two(row)?;
    let program = boogie_program(alloc, file.as_bytes())?;
    let proc = first_procedure(&program).ok_or("no procedure")?;
    let came = printed_boogie_twice(alloc, proc, text)?;
    other_lines(alloc, want, &came)
}

/// The program of lists of cells.
fn lists() -> Result<&'static str, Fail> {
    let mut programs = PROGRAMS.split("\n\n");
    let found = programs.find(|file| file.starts_with("field val: Int"));
    Ok(found.ok_or("no lists")?)
}

/// Each run is printed as its row says, and read again.
#[test]
fn runs_are_printed_and_read_back(rt: HostRuntime) -> Result<(), Fail> {
    let alloc = rt.alloc();
    for (file, table) in [NUMBER, PLACE, (lists()?, LIST_RUNS), ALL] {
        let other = first_other(alloc, table, |row| wrong_viper_row(alloc, file, row))?;
        none_other(&rt, other);
    }
    for (file, table) in [ASSERTED, TYPES] {
        let other = first_other(alloc, table, |row| wrong_boogie_row(alloc, file, row))?;
        none_other(&rt, other);
    }
    Ok(())
}
