// Programs of Boogie with loops and calls: each row is the text behind the prelude, and the number of the first procedure that is
// ill-typed, or that there is none. With tables and without, the answer is the same.
use boogie_loops_text::read_wide;
use boogie_loops_types::{check_wide, first_ill_typed_wide};
use boogie_tree::PRELUDE;
use row_columns::{first_other, other_than, parts, small};
use std::alloc::Global;
use std::test::Fail;

/// Calls to procedures above and below, with their targets, and loops.
const PROGRAMS: &str = "\
procedure p() { } = none
procedure p() { call p(); } procedure q() { call r(); } procedure r(); = none
procedure p() { call q(); } = 1
procedure p() { } procedure q() { call p(); call r(); } = 2
procedure p(n: int) returns (k: int); procedure q() { var x: int; var y: int; call x := p((y + 1)); } = none
procedure p(n: int) returns (k: int); procedure q() { var x: int; call x := p(true); } procedure r() { call p(1); } = 2
procedure p(n: int) returns (k: int); procedure q() { call p(1); } = 2
procedure p(n: int) returns (k: int); procedure q() { var b: bool; call b := p(1); } = 2
procedure p() returns (j: int, k: int); procedure q() { var x: int; var y: int; call x, y := p(); call y, x := p(); } = none
procedure p() returns (j: int, k: int); procedure q() { var x: int; var y: int; call x, x := p(); } = 2
procedure p() returns (i: int, j: bool, k: int); procedure q() { var x: int; var y: bool; call x, y, x := p(); } = 2
procedure p(n: int) { var b: bool; while (b) invariant {:msg \"1:1 1:1 false\"} (n > 0); { b := (n > 1); } } = none
procedure p(n: int) { while (n) { } } = 1
procedure p(n: int) { while ((n > 0)) invariant {:msg \"1:1 1:1 false\"} n; { } } = 1
procedure q(n: int) requires {:msg \"1:1 1:1 false\"} (n > 0); { } procedure p(n: int) ensures {:msg \"1:1 1:1 false\"} n; { } = 2";

/// An answer, as a row has it.
fn told(alloc: Global, answer: Option<usize>) -> Result<String, Fail> {
    match answer {
        Some(number) => Ok(format!(in alloc; "{number}")?),
        None => Ok(String::from_str(alloc, "none")?),
    }
}

/// What came of a row, where the row says otherwise: without tables, and with them.
fn wrong_row(alloc: Global, row: &str) -> Result<Option<String>, Fail> {
    let (text, want) = parts(row, " = ")?;
    let mut bytes = PRELUDE.to_vec(alloc)?;
    bytes.extend_from_slice(text.as_bytes())?;
    let Ok(program) = read_wide(alloc, small(&bytes)?) else {
        return Err("no program")?;
    };
    let plainly = told(alloc, check_wide(&program).err())?;
    let tabled = told(alloc, first_ill_typed_wide(alloc, &program)?)?;
    match other_than(want, plainly) {
        Some(came) => Ok(Some(came)),
        None => Ok(other_than(want, tabled)),
    }
}

/// Each program is well-typed, or the procedure that its row says is the first that is not.
#[test]
fn calls_and_loops_have_types(rt: HostRuntime) -> Result<(), Fail> {
    let alloc = rt.alloc();
    let other = first_other(alloc, PROGRAMS, |row| wrong_row(alloc, row))?;
    if let Some(told) = other {
        panic!(rt; "{told}");
    }
    Ok(())
}
