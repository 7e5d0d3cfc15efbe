// What is written of whole programs: it is well-typed, it is read back, and each procedure has the locals of its unit.
ghost use Rattle.viper_core.specs.Formed.{IsFormed};
ghost use Rattle.viper_core.specs.View.{program_of};

use boogie_fixtures::procedures::{boogie_program, head_text};
use boogie_run::check_types;
use boogie_text::print;
use boogie_tree::{PRELUDE, Proc};
use enc_stmt::{Written, encode_to, unit_locals};
use row_columns::shown;
use std::alloc::Global;
use std::test::Fail;
use vb_outer::MemSink;
use viper_core::Program;
use viper_fixtures::files::checked;

/// Programs with statements of all forms, an empty line between each two.
pub(crate) const PROGRAMS: &str = "\
method m(n: Int, b: Bool) {
  assert n > 0
  assume b
  assert b
}

field f: Int
field g: Ref
method nothing()

predicate A() { true }
predicate B(n: Int, b: Bool)
predicate C(x: Ref, y: Ref) {
  A() && acc(B(3, true), 1/2) && x != y
}

field f: Int
field g: Ref
predicate P(x: Ref, n: Int) {
  acc(x.f, 1/2) && (x.f > n ==> acc(x.g))
}

field f: Int
method add(x: Ref, n: Int) returns (r: Int)
  requires acc(x.f)
  ensures acc(x.f)
  ensures r == old(x.f) + n

field f: Int
method go(x: Ref, n: Int) returns (r: Int)
  requires acc(x.f)
  ensures acc(x.f)
  ensures r >= n
{
  var i: Int := n
  var c: Bool
  while (i < x.f)
    invariant acc(x.f)
    invariant i >= n
  {
    i := i + 1
  }
  if (x.f > i) {
    r := x.f
  } else {
    r := i
    x.f := r
  }
}

field val: Int
field next: Ref
predicate cell(x: Ref) { acc(x.val) && x.val >= 0 }
predicate list(x: Ref) {
  acc(x.next) && cell(x) && (x.next != null ==> list(x.next))
}
method make(v: Int) returns (r: Ref)
  requires v >= 0
  ensures list(r)
{
  r := new(val, next)
  r.val := v
  r.next := null
  fold cell(r)
  fold list(r)
}
method push(x: Ref, v: Int) returns (r: Ref)
  requires list(x) && v >= 0
  ensures list(r)
{
  r := new(*)
  r.val := v
  r.next := x
  fold cell(r)
  fold list(r)
}
method head(x: Ref) returns (v: Int)
  requires list(x)
  ensures list(x) && v >= 0
{
  unfold list(x)
  unfold cell(x)
  v := x.val
  fold cell(x)
  fold list(x)
}
method fill(n: Int) returns (r: Ref)
  requires n >= 0
  ensures list(r)
{
  var i: Int := 0
  r := make(0)
  while (i < n)
    invariant list(r) && i >= 0
  {
    r := push(r, i)
    i := i + 1
  }
}

field f: Int
field b: Bool
field g: Ref
field q: Perm
predicate E()
predicate All(x: Ref, n: Int, b: Bool) {
  acc(x.f, 1/2) && acc(x.b) && (b ? acc(x.q) : acc(x.g, 1/3) && E())
}
method all(x: Ref, n: Int, b: Bool, p: Perm) returns (y: Ref, m: Int, c: Bool, r: Perm)
  requires All(x, n, b)
  requires p > none
  ensures acc(All(x, n, b), p) && acc(y.g)
  ensures old(n) == m
{
  var z: Ref
  var k: Int := n * 2
  var d: Bool
  var e: Perm := p / 2
  y := new(g, q, b, f)
  if (d && b) {
    unfold All(x, n, b)
    x.f := k % 3
    fold acc(All(x, n, true), 1/2)
  } elseif (k > 2) {
    y.q := e
    y.b := d <==> b
  } else {
    while (k < 10 && d)
      invariant acc(y.q) && k > 0
      invariant acc(y.b, 1/2)
    {
      var w: Int
      k := k + 1
      w := k
      while (w > 0) {
        w := w - 1
        d := !d
        z := x
      }
    }
  }
  exhale acc(y.f, wildcard) && E()
  inhale acc(x.g, wildcard) && x.g == y
  assert old(n) == k || b && x.g == z
  r := b ? p : e
  y, m, c, r := all(y, m, c, r)
}

field f: Int
predicate P(x: Ref) { acc(x.f) }
method down(x: Ref, n: Int) returns (r: Bool)
  requires P(x) && (unfolding P(x) in x.f >= n)
  ensures P(x) && (unfolding P(x) in x.f) == old(unfolding P(x) in x.f)
{
  if (n > 0) {
    r := down(x, n - 1)
  } else {
    r := unfolding acc(P(x), 1/2) in x.f > 0
  }
  up(x, unfolding P(x) in x.f)
}
method up(x: Ref, n: Int)
  requires acc(P(x), 2/3)
  ensures acc(P(x), 1/3) && acc(P(x), 1/3)
{
  var r: Bool
  if (n < 0) {
    r := down(x, 0 - n)
  }
}";

/// Whether a text has so many bytes and asserts.
fn is_counted(written: Written, text: &str) -> bool {
    let mut asserts: u64 = 0;
    for line in text.lines() {
        if line.starts_with("assert ") {
            asserts = asserts.saturating_add(1);
        }
    }
    written.bytes == text.len() as u64 && written.asserts == asserts
}

/// What is written of a program.
fn written(alloc: Global, program: &Program) -> Result<String, Fail>
    requires { IsFormed (program_of program.now) }
{
    let mut sink = MemSink::make(alloc, Vec::new(alloc), 4096)?;
    let written = encode_to(alloc, program, &mut sink)?;
    let text = shown(alloc, sink.written())?;
    if !is_counted(written, text.as_str()) {
        return Err("another count")?;
    }
    Ok(text)
}

/// Whether the locals of a unit are those of a procedure.
fn has_locals(alloc: Global, program: &Program, unit: u32, proc: &Proc) -> Result<bool, Fail>
    requires { IsFormed (program_of program.now) }
{
    if unit as usize >= program.units.len() {
        return Ok(false);
    }
    let locals = unit_locals(alloc, program, unit)?;
    Ok(head_text(alloc, &locals)? == head_text(alloc, &proc.locals)?)
}

/// Whether each unit has a procedure, with its locals.
fn have_locals(alloc: Global, program: &Program, procs: &[Proc]) -> Result<bool, Fail>
    requires { IsFormed (program_of program.now) }
{
    let mut unit: u32 = 0;
    for proc in procs {
        if !has_locals(alloc, program, unit, proc)? {
            return Ok(false);
        }
        unit = unit.checked_add(1).ok_or("many units")?;
    }
    Ok(procs.len() == program.units.len())
}

/// What is wrong with the text that is written of a program, which stands behind the prelude.
fn wrong_text(alloc: Global, program: &Program, text: &[u8]) -> Result<Option<&'static str>, Fail>
    requires { IsFormed (program_of program.now) }
{
    let front = text.strip_prefix(PRELUDE).ok_or("no prelude")?;
    let boogie = boogie_program(alloc, front)?;
    if check_types(&boogie).is_err() {
        return Ok(Some("ill-typed"));
    }
    if *print(alloc, &boogie)? != *text || !have_locals(alloc, program, &boogie.procs)? {
        return Ok(Some("another text"));
    }
    Ok(None)
}

/// What is wrong with what is written of the program of a file.
fn wrong_file(alloc: Global, file: &str) -> Result<Option<&'static str>, Fail> {
    let program = checked(alloc, file.as_bytes())?;
    let text = written(alloc, &program)?;
    wrong_text(alloc, &program, text.as_bytes())
}

/// What is written of programs is well-typed and is read back, and has the locals of the units.
#[test]
fn programs_are_written_as_they_are_read(rt: HostRuntime) -> Result<(), Fail> {
    for file in PROGRAMS.split("\n\n") {
        if let Some(wrong) = wrong_file(rt.alloc(), file)? {
            panic!(rt; "{file}: {wrong}");
        }
    }
    Ok(())
}
