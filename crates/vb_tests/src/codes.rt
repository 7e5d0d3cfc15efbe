// The code of Boogie that is written for expressions, assertions and instances over `x`, `y`, `n`, `b` and `p`: it is well-typed, and
// what is printed of it is read back. A row is a call and what it is handed, with the statements where they are given, with a bar
// between the lines. A place in line 2 is a column of what is handed, and one in line 1 stands in the body of a predicate.
ghost use Rattle.std.specs.Prelude.{IfOk};
ghost use Rattle.viper_core.specs.Formed.{IsFormed};
ghost use Rattle.viper_core.specs.View as viper;

use crate::emitted::{if_wrong, nothing, told};
use crate::rows::none_other;
use boogie_tree::{BBase, BExpr, BOp, BStmt};
use enc_assert::{consume_code, forget_code, produce_code};
use enc_expr::{Emit, Kinds, Maps, OwnKinds, Place, Reading, checked, content_of, plain};
use enc_fold::{fold_code, unfold_code};
use row_columns::{first_other, other_than, three};
use std::alloc::Global;
use std::test::Fail;
use vb_base::Pos;
use viper_core::{Assertion, Expr, Program, Stmt};
use viper_fixtures::files::{first_stmt, program};

/// What stands before the statement.
const START: &str =
    "field f: Int field g: Ref predicate P(x: Ref) { acc(x.f) } predicate Q(n: Int, x: Ref) { acc(x.g) && (n > 0 ==> acc(P(x.g), 1/2)) } predicate E() { true } method m(x: Ref, y: Ref, n: Int, b: Bool, p: Perm) {";

/// The locals of the variables, of the present state, of the old state, and of what is left of permission.
const LOCALS: &str = "\
procedure t() { var v$x: Ref; var v$y: Ref; var v$n: int; var v$b: bool; var v$p: real; var h$f: [Ref]int; var h$g: [Ref]Ref; var m$f: [Ref]real; var m$g: [Ref]real; var a$P: [Ref]real; var a$Q: [int, Ref]real; var a$E: [int]real; var c$P: [Ref]Snap; var c$Q: [int, Ref]Snap; var c$E: [int]Snap; var oh$f: [Ref]int; var oh$g: [Ref]Ref; var om$f: [Ref]real; var om$g: [Ref]real; var oa$P: [Ref]real; var oa$Q: [int, Ref]real; var oa$E: [int]real; var oc$P: [Ref]Snap; var oc$Q: [int, Ref]Snap; var oc$E: [int]Snap; var lm$f: [Ref]real; var lm$g: [Ref]real; var la$P: [Ref]real; var la$Q: [int, Ref]real; var la$E: [int]real; }";

/// The local of `p`.
const AMOUNT: usize = 4;

/// The statements that are written.
const TEXTS: &str = "\
check ; n > 0 ; assume (v$n > 0);
check ; x.f == n ; assert {:msg \"9:1 2:3 null\"} (v$x != null); | assert {:msg \"9:1 2:3 perm\"} (m$f[v$x] != 0.0); | assume (h$f[v$x] == v$n);
check ; 7 \\ n == 0 ; assert {:msg \"9:1 2:3 div\"} (v$n != 0); | assume ((7 div v$n) == 0);
check ; b ==> x.f > 0 ; t$30 := v$b; | if (t$30) { | assert {:msg \"9:1 2:9 null\"} (v$x != null); | assert {:msg \"9:1 2:9 perm\"} (m$f[v$x] != 0.0); | } else { | } | assume (t$30 ==> (h$f[v$x] > 0));
produce ; acc(x.f) ; assume (v$x != null); | assume (m$f[v$x] >= 0.0); | m$f[v$x] := (m$f[v$x] + 1.0); | assume (m$f[v$x] <= 1.0);
produce ; acc(x.f, 1/2) ; t$30 := (1.0 / 2.0); | assert {:msg \"9:1 2:7 negative\"} (t$30 >= 0.0); | assume ((t$30 > 0.0) ==> (v$x != null)); | assume (m$f[v$x] >= 0.0); | m$f[v$x] := (m$f[v$x] + t$30); | assume ((t$30 > 0.0) ==> (m$f[v$x] <= 1.0));
produce by half of p ; acc(x.f) ; t$30 := (v$p / 2.0); | assume (v$x != null); | assume (m$f[v$x] >= 0.0); | m$f[v$x] := (m$f[v$x] + t$30); | assume (m$f[v$x] <= 1.0);
produce by half of p ; acc(x.f, 1/2) ; t$30 := (v$p / 2.0); | t$31 := (1.0 / 2.0); | assert {:msg \"9:1 2:7 negative\"} (t$31 >= 0.0); | assume ((t$31 > 0.0) ==> (v$x != null)); | assume (m$f[v$x] >= 0.0); | m$f[v$x] := (m$f[v$x] + (t$30 * t$31)); | assume ((t$31 > 0.0) ==> (m$f[v$x] <= 1.0));
consume ; acc(x.f) && x.f > 0 ; assert {:msg \"9:1 2:7 perm\"} (lm$f[v$x] >= 1.0); | lm$f[v$x] := (lm$f[v$x] - 1.0); | assert {:msg \"9:1 2:15 null\"} (v$x != null); | assert {:msg \"9:1 2:15 perm\"} (m$f[v$x] != 0.0); | assert {:msg \"9:1 2:13 false\"} (h$f[v$x] > 0);
consume ; acc(P(x), wildcard) ; assert {:msg \"9:1 2:5 perm\"} (la$P[v$x] != 0.0); | havoc t$30; | assume (t$30 > 0.0); | assume (t$30 < la$P[v$x]); | la$P[v$x] := (la$P[v$x] - t$30);
forget ; true ; havoc t$30; | assume (forall q0: Ref :: ((m$f[q0] != 0.0) ==> (h$f[q0] == t$30[q0]))); | h$f := t$30; | havoc t$31; | assume (forall q0: Ref :: ((m$g[q0] != 0.0) ==> (h$g[q0] == t$31[q0]))); | h$g := t$31; | havoc t$32; | assume (forall q0: Ref :: ((a$P[q0] != 0.0) ==> (c$P[q0] == t$32[q0]))); | c$P := t$32; | havoc t$33; | assume (forall q0: int, q1: Ref :: ((a$Q[q0, q1] != 0.0) ==> (c$Q[q0, q1] == t$33[q0, q1]))); | c$Q := t$33; | havoc t$34; | assume (forall q0: int :: ((a$E[q0] != 0.0) ==> (c$E[q0] == t$34[q0]))); | c$E := t$34;";

/// What is written where an instance is folded and unfolded.
const FOLDED: &str = "\
fold ; P(x) ; t$30 := m$f; | t$31 := m$g; | t$32 := a$P; | t$33 := a$Q; | t$34 := a$E; | assert {:msg \"9:1 1:55 perm\"} (m$f[v$x] >= 1.0); | m$f[v$x] := (m$f[v$x] - 1.0); | t$35 := sInt(h$f[v$x]); | assume ((a$P[v$x] != 0.0) ==> (c$P[v$x] == t$35)); | c$P[v$x] := t$35; | assume (a$P[v$x] >= 0.0); | a$P[v$x] := (a$P[v$x] + 1.0);
fold ; acc(Q(n + 1, y), p) ; t$30 := (v$n + 1); | assert {:msg \"9:1 2:5 amount\"} (v$p > 0.0); | t$31 := m$f; | t$32 := m$g; | t$33 := a$P; | t$34 := a$Q; | t$35 := a$E; | assert {:msg \"9:1 1:96 perm\"} (m$g[v$y] >= v$p); | m$g[v$y] := (m$g[v$y] - v$p); | t$36 := (t$30 > 0); | if (t$36) { | assert {:msg \"9:1 1:121 null\"} (v$y != null); | assert {:msg \"9:1 1:121 perm\"} (t$32[v$y] != 0.0); | } else { | } | if (t$36) { | t$37 := h$g[v$y]; | t$38 := (1.0 / 2.0); | assert {:msg \"9:1 1:117 negative\"} (t$38 >= 0.0); | assert {:msg \"9:1 1:117 perm\"} (a$P[t$37] >= (v$p * t$38)); | a$P[t$37] := (a$P[t$37] - (v$p * t$38)); | } else { | } | t$39 := sPair(sRef(h$g[v$y]), (if (t$30 > 0) then (if ((1.0 / 2.0) > 0.0) then c$P[h$g[v$y]] else sUnit) else sUnit)); | assume ((a$Q[t$30, v$y] != 0.0) ==> (c$Q[t$30, v$y] == t$39)); | c$Q[t$30, v$y] := t$39; | assume (a$Q[t$30, v$y] >= 0.0); | a$Q[t$30, v$y] := (a$Q[t$30, v$y] + v$p);
fold ; E() ; t$30 := m$f; | t$31 := m$g; | t$32 := a$P; | t$33 := a$Q; | t$34 := a$E; | assert {:msg \"9:1 1:149 false\"} true; | t$35 := sUnit; | assume ((a$E[0] != 0.0) ==> (c$E[0] == t$35)); | c$E[0] := t$35; | assume (a$E[0] >= 0.0); | a$E[0] := (a$E[0] + 1.0);
unfold ; P(x) ; assert {:msg \"9:1 2:1 perm\"} (a$P[v$x] >= 1.0); | a$P[v$x] := (a$P[v$x] - 1.0); | t$30 := c$P[v$x]; | assume (v$x != null); | havoc t$31; | assume (t$30 == sInt(t$31)); | assume ((m$f[v$x] != 0.0) ==> (h$f[v$x] == t$31)); | h$f[v$x] := t$31; | assume (m$f[v$x] >= 0.0); | m$f[v$x] := (m$f[v$x] + 1.0); | assume (m$f[v$x] <= 1.0);
unfold ; acc(Q(3, x.g), 1/2) ; assert {:msg \"9:1 2:12 null\"} (v$x != null); | assert {:msg \"9:1 2:12 perm\"} (m$g[v$x] != 0.0); | t$30 := 3; | t$31 := h$g[v$x]; | t$32 := (1.0 / 2.0); | assert {:msg \"9:1 2:5 amount\"} (t$32 > 0.0); | assert {:msg \"9:1 2:5 perm\"} (a$Q[t$30, t$31] >= t$32); | a$Q[t$30, t$31] := (a$Q[t$30, t$31] - t$32); | t$33 := c$Q[t$30, t$31]; | havoc t$34; | havoc t$35; | assume (t$33 == sPair(t$34, t$35)); | assume (t$31 != null); | havoc t$36; | assume (t$34 == sRef(t$36)); | assume ((m$g[t$31] != 0.0) ==> (h$g[t$31] == t$36)); | h$g[t$31] := t$36; | assume (m$g[t$31] >= 0.0); | m$g[t$31] := (m$g[t$31] + t$32); | assume (m$g[t$31] <= 1.0); | t$37 := (t$30 > 0); | t$38 := (! t$37); | if (t$37) { | assert {:msg \"9:1 1:121 null\"} (t$31 != null); | assert {:msg \"9:1 1:121 perm\"} (m$g[t$31] != 0.0); | } else { | } | if (t$37) { | t$39 := h$g[t$31]; | t$40 := (1.0 / 2.0); | assert {:msg \"9:1 1:117 negative\"} (t$40 >= 0.0); | if ((t$40 > 0.0)) { | assume ((a$P[t$39] != 0.0) ==> (c$P[t$39] == t$35)); | c$P[t$39] := t$35; | assume (a$P[t$39] >= 0.0); | a$P[t$39] := (a$P[t$39] + (t$32 * t$40)); | } else { | assume (t$35 == sUnit); | } | } else { | } | if (t$38) { | assume (t$35 == sUnit); | } else { | }
unfold ; acc(E(), p) ; assert {:msg \"9:1 2:5 amount\"} (v$p > 0.0); | assert {:msg \"9:1 2:5 perm\"} (a$E[0] >= v$p); | a$E[0] := (a$E[0] - v$p); | t$30 := c$E[0]; | assume (t$30 == sUnit); | assume true;";

/// The values of expressions, and what assertions contain, without any checks.
const PLAIN: &str = "\
plain ; 7 \\ n == x.f % 2 ; assume ((7 div v$n) == (h$f[v$x] mod 2));
plain ; b && x.f > 0 || !b ; assume ((v$b && (h$f[v$x] > 0)) || (! v$b));
plain ; -n < 3 ? b : y == null ; assume (if ((- v$n) < 3) then v$b else (v$y == null));
plain ; n * p == write ==> n / 2 < p / n ; assume (((real(v$n) * v$p) == 1.0) ==> ((real(v$n) / 2.0) < (v$p / real(v$n))));
plain ; old(x.g.f) == 1 <==> x.g.f == 1 ; assume ((oh$f[oh$g[v$x]] == 1) <==> (h$f[h$g[v$x]] == 1));
plain ; unfolding P(x) in x.f > 0 ; assume (h$f[v$x] > 0);
content ; x.f > 0 ; t$30 := sUnit;
content ; acc(x.f) && acc(y.g, write) ; t$30 := sPair(sInt(h$f[v$x]), sRef(h$g[v$y]));
content ; acc(x.f, p) && acc(y.f, none) ; t$30 := sPair((if (v$p > 0.0) then sInt(h$f[v$x]) else sUnit), (if (0.0 > 0.0) then sInt(h$f[v$y]) else sUnit));
content ; P(x) && acc(Q(n + 1, y), 1/2) ; t$30 := sPair(c$P[v$x], (if ((1.0 / 2.0) > 0.0) then c$Q[(v$n + 1), v$y] else sUnit));
content ; b ? E() : acc(x.g.f, n * p) ; t$30 := (if v$b then c$E[0] else (if ((real(v$n) * v$p) > 0.0) then sInt(h$f[h$g[v$x]]) else sUnit));
content ; x.g != y && x != null ==> P(x.g) ; t$30 := (if ((h$g[v$x] != v$y) && (v$x != null)) then c$P[h$g[v$x]] else sUnit);";

/// Expressions of all forms.
const CHECKED: &str = "\
x.g.f + n > 3 * n - 2
b ? x.f > 0 : y.f > 0
b || x.f == 1 || !(y.g == null)
b && x.f == 1 && y.f \\ n == -3 && 7 % n == 1
(b <==> n == 2) ==> old(x.f) == x.f
p * p + n * p - 1/2 < p / 3
none <= p && p != write && p / n >= -p
unfolding P(x) in x.f > 0
unfolding acc(P(x), p) in x.f > old(x.f)
unfolding Q(n + 1, y) in unfolding acc(P(y.g), 1/2) in y.g.f == 0
unfolding E() in true
b ==> (unfolding Q(3, x) in x.g == y)
old(unfolding P(x) in x.f > n)";

/// Assertions of all forms, which are produced and consumed.
const ASSERTIONS: &str = "\
x.f > 0 ==> acc(x.g)
acc(x.g) && (x.g != null ==> acc(x.g.f)) && Q(n, x.g)
b ? acc(x.f) : acc(P(x), p)
acc(E(), wildcard) && E()
acc(x.f, wildcard) && acc(y.f, -p)
acc(x.f, 1/2) && acc(Q(n, x), wildcard) && acc(P(y), n * p)
acc(x.f) && acc(y.f, 1/2) && acc(x.f, 1/2)
x.f > 0 && acc(x.f)
acc(x.f, wildcard) && acc(x.f, wildcard)
acc(x.f, -1/2)
acc(P(x)) && (unfolding P(x) in x.f > 0) && old(n == 3)";

/// Instances, which are folded and unfolded.
const INSTANCES: &str = "\
acc(P(x.g), 2/3)
acc(P(y), p / n)
Q(x.f + n, b ? x : y.g)
acc(Q(-n, null), unfolding P(x) in x.f > 0 ? p : write)
acc(E(), n * p)
Q(old(x.f), old(x.g))";

/// The numbers of the maps of a state, of which these are the first of heaps and contents, and of permission.
fn maps(
    alloc: Global,
    heap: usize,
    mask: usize,
    amount: usize,
    content: usize,
) -> Result<Maps, Fail> {
    Ok(Maps {
        heap: row(alloc, heap, 2)?,
        mask: row(alloc, mask, 2)?,
        amount: row(alloc, amount, 3)?,
        content: row(alloc, content, 3)?,
    })
}

/// So many numbers from the first one on.
fn row(alloc: Global, first: usize, count: usize) -> Result<Vec<usize>, Fail> {
    let mut numbers = Vec::new(alloc);
    for i in 0..count {
        numbers.push(first.saturating_add(i))?;
    }
    Ok(numbers)
}

/// The place at which all is read.
fn place(alloc: Global) -> Result<Place, Fail> {
    Ok(Place {
        vars: row(alloc, 0, 5)?,
        now: maps(alloc, 5, 7, 9, 12)?,
        old: maps(alloc, 15, 17, 19, 22)?,
        at: Pos { line: 9, col: 1 },
    })
}

/// Writes the code of an expression, and assumes its value.
fn write_check(alloc: Global, e: &Expr, place: &Place, out: &mut Emit) -> Result<(), Fail> {
    let value = checked(alloc, e, place, out)?;
    out.code.push(BStmt::Assume(value))?;
    Ok(())
}

/// Assumes the value of an expression without its checks.
fn write_plain(alloc: Global, e: &Expr, place: &Place, out: &mut Emit) -> Result<(), Fail> {
    let own = OwnKinds::of(alloc, place, out)?;
    let value = plain(alloc, e, Reading::of(Kinds::of(&own), place))?;
    out.code.push(BStmt::Assume(Box::into_inner(value.expr)))?;
    Ok(())
}

/// Puts what an assertion contains into a local.
fn write_content(
    alloc: Global,
    assertion: &Assertion,
    place: &Place,
    out: &mut Emit,
) -> Result<(), Fail> {
    let own = OwnKinds::of(alloc, place, out)?;
    let local = out.fresh_scalar(alloc, BBase::Snap)?;
    let content = content_of(alloc, assertion, Reading::of(Kinds::of(&own), place))?;
    out.code.push(BStmt::Assign(local, content))?;
    Ok(())
}

/// Writes the code that permission is taken by.
fn write_consumed(
    alloc: Global,
    assertion: &Assertion,
    place: &Place,
    scale: &BExpr,
    out: &mut Emit,
) -> Result<(), Fail> {
    let left = maps(alloc, 5, 25, 27, 12)?;
    Ok(consume_code(alloc, assertion, place, &left, scale, out)?)
}

/// Half of `p`, which is no atom.
fn half(alloc: Global) -> Result<Box<BExpr>, Fail> {
    let left = Box::new(alloc, BExpr::Var(AMOUNT))?;
    let right = Box::new(alloc, BExpr::Real(2))?;
    Ok(Box::new(alloc, BExpr::Bin(BOp::Divide, left, right))?)
}

/// By how much a call produces or consumes.
fn scale(alloc: Global, amount: &str) -> Result<Box<BExpr>, Fail> {
    match amount.as_bytes() {
        b"half of p" => half(alloc),
        b"p" => Ok(Box::new(alloc, BExpr::Var(AMOUNT))?),
        _ => Ok(Box::new(alloc, BExpr::Real(1))?),
    }
}

/// Writes the code of a call.
fn write_code(
    alloc: Global,
    call: &str,
    assertion: &Assertion,
    place: &Place,
    out: &mut Emit,
) -> Result<(), Fail> {
    let (verb, amount) = call.split_once(" by ").unwrap_or((call, "write"));
    let scale = scale(alloc, amount)?;
    match verb.as_bytes() {
        b"produce" => Ok(produce_code(alloc, assertion, place, &scale, out)?),
        b"consume" => write_consumed(alloc, assertion, place, &scale, out),
        b"forget" => Ok(forget_code(alloc, place, out)?),
        b"content" => write_content(alloc, assertion, place, out),
        _ => Err("no call")?,
    }
}

/// Writes the code of a call for the statement of a program.
fn write(
    alloc: Global,
    call: &str,
    program: &Program,
    place: &Place,
    out: &mut Emit,
) -> Result<(), Fail>
    requires { IsFormed (viper.program_of program.now) }
{
    match first_stmt(program) {
        Some(Stmt::Var(_, _, Some(e))) if call == "plain" => write_plain(alloc, e, place, out),
        Some(Stmt::Var(_, _, Some(e))) => write_check(alloc, e, place, out),
        Some(Stmt::Inhale(_, assertion)) => write_code(alloc, call, assertion, place, out),
        Some(Stmt::Fold(s)) => Ok(fold_code(alloc, program, s, place, out)?),
        Some(Stmt::Unfold(s)) => Ok(unfold_code(alloc, program, s, place, out)?),
        _ => Err("another statement")?,
    }
}

/// What a call writes for the statement of a program.
fn written(alloc: Global, call: &str, program: &Program) -> Result<Emit, Fail>
    requires { IsFormed (viper.program_of program.now) }
{
    let mut out = nothing(alloc, LOCALS)?;
    let place = place(alloc)?;
    write(alloc, call, program, &place, &mut out)?;
    Ok(out)
}

/// The words that stand before what a call is handed.
fn words_before(call: &str) -> &'static str {
    match call.as_bytes() {
        b"check" | b"plain" => "var r: Bool :=",
        b"fold" => "fold",
        b"unfold" => "unfold",
        _ => "inhale",
    }
}

/// What came of a call, or `ill-typed` or `another text`.
fn told_of(alloc: Global, call: &str, handed: &str) -> Result<String, Fail> {
    let before = words_before(call);
    let start = format!(in alloc; "{START} {before}")?;
    let program = program(alloc, start.as_str(), handed)?;
    let out = written(alloc, call, &program)?;
    told(alloc, out)
}

/// What came of a row, where the row says otherwise.
fn wrong_text(alloc: Global, row: &str) -> Result<Option<String>, Fail> {
    let (call, handed, want) = three(row)?;
    Ok(other_than(want, told_of(alloc, call, handed)?))
}

/// What is wrong with the code that the call writes for what it is handed.
fn wrong_code(alloc: Global, call: &str, handed: &str) -> Result<Option<String>, Fail> {
    Ok(if_wrong(told_of(alloc, call, handed)?))
}

/// What is written is what the rows say, is well-typed and is read back.
#[test]
fn code_is_well_typed_and_read_back(rt: HostRuntime) -> Result<(), Fail> {
    let alloc = rt.alloc();
    for table in [TEXTS, FOLDED, PLAIN] {
        let other = first_other(alloc, table, |row| wrong_text(alloc, row))?;
        none_other(&rt, other);
    }
    for call in ["check", "plain"] {
        let other = first_other(alloc, CHECKED, |row| wrong_code(alloc, call, row))?;
        none_other(&rt, other);
    }
    for call in [
        "produce",
        "produce by p",
        "consume",
        "consume by p",
        "content",
    ] {
        let other = first_other(alloc, ASSERTIONS, |row| wrong_code(alloc, call, row))?;
        none_other(&rt, other);
    }
    for call in ["fold", "unfold"] {
        let other = first_other(alloc, INSTANCES, |row| wrong_code(alloc, call, row))?;
        none_other(&rt, other);
    }
    Ok(())
}
