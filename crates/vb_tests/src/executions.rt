// Executions of methods: a row is the number of a unit, a run file of it, with a bar between its lines, and a budget, and then
// the end, how many turns and called bodies were begun, how many choices are left, and of what is done the state.
ghost use Rattle.viper_core.specs.Formed.{IsFormed};
ghost use Rattle.viper_core.specs.View.{program_of};

use crate::rows::none_other;
use row_columns::{bytes_of, first_other, four, other_than, small};
use run_file::{ViperRun, read_viper_run};
use std::alloc::Global;
use std::test::Fail;
use viper_core::{Program, Unit};
use viper_exec::{ExecEnd, Executed, exec_method};
use viper_fixtures::files::checked;
use viper_fixtures::scenes::is_changed;

/// A loop whose turns each call a method that adds to a place, and to a return.
const FILE: &str = "\
field f: Int field g: Ref
predicate P(x: Ref) predicate Q(x: Ref) predicate R(x: Ref)
method go(x: Ref, n: Int) returns (r: Int)
requires acc(x.f)
ensures acc(x.f) && r == n * 2
{
var i: Int := 0
while (i < n)
invariant acc(x.f)
{
r := add(x, r)
i := i + 1
}
assert x.f != 6
}
method add(x: Ref, a: Int) returns (b: Int)
requires acc(x.f) && a < 100
ensures acc(x.f)
{
x.f := x.f + 2
b := a + 2
}";

/// Each end, with and without turns and calls.
const ENDS: &str = "\
0 ; viper run | var x #1 | heap f #1 9 | pick true ; 0 ; done, 0 begun, 1 left ; #1.f=9 #1.f:1/1
0 ; viper run | var x #1 | var n 1 | heap f #1 1 | value 7 ; 9 ; done, 2 begun, 0 left ; #1.f=3 #1.f:1/1
0 ; viper run | var x #1 | var n 2 | heap f #1 1 | heap f #2 5 | heap g #1 #3 | value 7 | value 8 ; 4 ; done, 4 begun, 0 left ; #1.f=5 #2.f=5 #1.g=#3 #1.f:1/1
1 ; viper run | var x #2 | var a 5 | heap f #2 -4 ; 0 ; done, 0 begun, 0 left ; #2.f=-2 #2.f:1/1
0 ; viper run | var x #1 | var n 1 | heap f #1 4 | value 7 ; 9 ; failed 14:1 14:8 false, 2 begun, 0 left
0 ; viper run | var x #1 | var n 1 | var r 100 | value 7 ; 9 ; failed 11:1 17:22 false, 1 begun, 1 left
0 ; viper run | var x #1 | var n 1 | var r 1 | value 7 ; 2 ; failed 6:1 5:21 false, 2 begun, 0 left
0 ; viper run | var n 1 | value 7 ; 9 ; blocked, 0 begun, 1 left
0 ; viper run | var x #1 | var n 1 | value true ; 9 ; blocked, 1 begun, 0 left
0 ; viper run | var x #1 | var n 2 | value 7 | pick true ; 9 ; blocked, 3 begun, 0 left
0 ; viper run | var x #1 | var n 1 ; 9 ; short, 1 begun, 0 left
0 ; viper run | var x #1 | var n 2 | value 7 ; 3 ; short, 3 begun, 0 left
0 ; viper run | var x #1 | var n 2 | heap f #1 170141183460469231731687303715884105725 | value 7 | value 8 ; 9 ; over 20:12, 4 begun, 0 left
0 ; viper run | var x #1 | var n 2 | value 7 | value 8 ; 3 ; spent, 3 begun, 0 left
0 ; viper run | var x #1 | var n 2 | value 7 | value 8 ; 2 ; spent, 2 begun, 1 left
0 ; viper run | var x #1 | var n 2 ; 0 ; spent, 0 begun, 0 left";

/// The execution of a unit that is a method with a body, on the run that the bytes spell, within a budget.
fn executed(
    alloc: Global,
    program: &Program,
    unit: u32,
    bytes: &[u8],
    budget: u64,
) -> Result<Executed, Fail>
    requires { IsFormed (program_of program.now) }
{
    if unit as usize >= program.units.len() {
        return Err("no unit")?;
    }
    let Unit::Method(number) = program.units[unit as usize] else {
        return Err("no method")?;
    };
    let Some(method) = program.methods.get(number as usize) else {
        return Err("no method")?;
    };
    let Some(_body) = &method.body else {
        return Err("no body")?;
    };
    let few = small(bytes)?;
    let run = read_viper_run(alloc, few, program, unit)?;
    let ViperRun { opening, choices } = run;
    Ok(exec_method(alloc, program, number, &opening, choices, budget)?)
}

/// An end, as the rows write it.
fn ended(alloc: Global, end: ExecEnd) -> Result<String, Fail> {
    Ok(match end {
        ExecEnd::Done => "done".to_string(alloc)?,
        ExecEnd::Failed(label) => format!(in alloc; "failed {label}")?,
        ExecEnd::Blocked => "blocked".to_string(alloc)?,
        ExecEnd::Short => "short".to_string(alloc)?,
        ExecEnd::Over(at) => format!(in alloc; "over {at}")?,
        ExecEnd::Spent => "spent".to_string(alloc)?,
    })
}

/// What came of an execution whose state is to be this one where it is done.
fn told(alloc: Global, executed: &Executed, state: &str) -> Result<String, Fail> {
    if executed.end == ExecEnd::Done && !is_changed(alloc, &executed.state, "", state)? {
        return Ok("another state".to_string(alloc)?);
    }
    let end = ended(alloc, executed.end)?;
    let (begun, left) = (executed.spent, executed.unused);
    Ok(format!(in alloc; "{end}, {begun} begun, {left} left")?)
}

/// What came of a row, where the row says otherwise.
fn wrong_row(alloc: Global, file: &str, row: &str) -> Result<Option<String>, Fail> {
    let (unit, text, budget, rest) = four(row)?;
    let (want, state) = rest.split_once(" ; ").unwrap_or((rest, ""));
    let unit = unit.parse::<u32>().ok().ok_or("no number")?;
    let budget = budget.parse::<u64>().ok().ok_or("no number")?;
    let program = checked(alloc, file.as_bytes())?;
    let bytes = bytes_of(alloc, text)?;
    let executed = Box::new(alloc, executed(alloc, &program, unit, &bytes, budget)?)?;
    Ok(other_than(want, told(alloc, &executed, state)?))
}

/// Each execution ends as its row says.
#[test]
fn executions_end_as_the_table_says(rt: HostRuntime) -> Result<(), Fail> {
    let alloc = rt.alloc();
    let other = first_other(alloc, ENDS, |row| wrong_row(alloc, FILE, row))?;
    none_other(&rt, other);
    Ok(())
}
