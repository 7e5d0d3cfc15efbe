// Expressions of Boogie that are read from tokens: each row is the number of the first token, what stands behind the prelude, and
// the expression with the number of the token after it, or the column of the fault. Of the locals `x`, `m` and `z` the last is not
// known. A name that begins with `N$` or `S$` stands for the name or the sign of the bytes behind that, and one that begins with `M$`
// for the number -5.
ghost use Rattle.std.specs.Prelude.{◌≤◌, length};
ghost use Rattle.boogie_tree.specs.Whole as boogie;
ghost use Rattle.boogie_print.specs.Printable.{FitsProc};

use boogie_fixtures::procedures::{boogie_program, last_procedure, locals_of, told};
use boogie_text::{BTok, BToken, BoogieFault, ReadExpr, end_after, read_bexpr, tokens_after};
use boogie_tree::{BStmt, PRELUDE, Proc};
use row_columns::{first_other, other_than, parts, small};
use std::alloc::Global;
use std::str;
use std::test::Fail;
use vb_base::{Ident, Pos};

const LOCALS: &str = "procedure t() { var x: int; var m: [int, int]bool; var z: bool; }";

/// How many of the locals are known.
const KNOWN: usize = 2;

/// The expression ends where its bracket does, or with its token.
const EXPRESSIONS: &str = "\
0 | (x == x) | assume (x == x); 5
0 | true ; | assume true; 1
1 | ; m[x, 2] ; m | assume m[x, 2]; 7
0 | ((x + 1) == (- x)) (x == x) | assume ((x + 1) == (- x)); 12
0 | (1.0 == real(x)) | assume (1.0 == real(x)); 8
0 | (forall q: int, r: int :: m[q, r]) | assume (forall q0: int, q1: int :: m[q0, q1]); 17
0 | (forall q: int :: true) } | assume (forall q0: int :: true); 8";

/// There is none: a `[` follows, or a bracket is open, or there is no token.
const ENDS: &str = "\
0 | m[x, 2][ | at 8
0 | 5[x] | at 2
0 | (x == x)[1] | at 9
0 | (forall q: int :: true) [] | at 25
0 | x[] | at 3
0 | x[ | at 3
0 | (x == | at 6
0 |  | at 1
3 | x + 1 | at 6
0 | (x] | at 3
0 | \"9:1 2:3 null\" | at 1";

/// A local that is not known is no variable, and a bound variable has the name of no local.
const NAMES: &str = "\
0 | z | at 1
0 | (! z) | at 4
0 | z[1, 2] | at 1
0 | m[z, 2] | at 3
0 | (forall q: int, r: int :: m[q]) | at 30
0 | (forall q: int, r: int :: m[r, q]) | at 29
0 | (forall q: int, r: int :: m[q, q]) | at 32
0 | (forall x: int :: true) | at 9
0 | (forall z: int :: true) | at 9
0 | (forall int: int :: true) | at 9
0 | (forall q: int, q: int :: true) | at 17
0 | (forall q: int :: (forall r: int :: true)) | at 20";

/// Tokens that no text has stand in no expression.
const ODD: &str = "\
0 | (x S$ab 1) | at 4
0 | (x == N$1z) | at 7
0 | (N$x == 1) | assume (x == 1); 5
0 | M$5 | at 1
0 | (x == M$5) | at 7
0 | (x == x) M$5 [ | assume (x == x); 5
0 | x ~ | no token at 3";

fn ident(alloc: Global, bytes: &[u8]) -> Result<Ident, Fail> {
    Ok(Ident::new(alloc, bytes)?)
}

/// What a name stands for.
fn odd_name(alloc: Global, name: &[u8]) -> Result<BTok, Fail> {
    match name {
        [b'N', b'$', rest @ ..] => Ok(BTok::Name(ident(alloc, rest)?)),
        [b'S', b'$', rest @ ..] => Ok(BTok::Sign(ident(alloc, rest)?)),
        [b'M', b'$', ..] => Ok(BTok::Number(-5)),
        _ => Ok(BTok::Name(ident(alloc, name)?)),
    }
}

fn odd(alloc: Global, tok: &BTok) -> Result<BTok, Fail> {
    match tok {
        BTok::Name(name) => odd_name(alloc, name.bytes()),
        BTok::Number(number) => Ok(BTok::Number(*number)),
        BTok::RealNumber(number) => Ok(BTok::RealNumber(*number)),
        BTok::Text(label) => Ok(BTok::Text(*label)),
        BTok::Sign(sign) => Ok(BTok::Sign(ident(alloc, sign.bytes())?)),
    }
}

fn all_odd(alloc: Global, tokens: &[BToken]) -> Result<Vec<BToken>, Fail> {
    let mut all = Vec::new(alloc);
    for token in tokens {
        let tok = odd(alloc, &token.tok)?;
        let pos = token.pos;
        all.push(BToken { tok, pos })?;
    }
    Ok(all)
}

/// The expression, with the number of the token after it.
fn told_expr(alloc: Global, read: ReadExpr) -> Result<String, Fail> {
    let ReadExpr { e, next } = read;
    let code = vec![in alloc; BStmt::Assume(e)]?;
    let text = told(alloc, locals_of(alloc, LOCALS)?, code)?;
    Ok(format!(in alloc; "{text} {next}")?)
}

/// What is read of the tokens, or the column of the fault.
fn read_from(
    alloc: Global,
    proc: &Proc,
    tokens: &Vec<BToken>,
    from: usize,
    end: Pos,
) -> Result<String, Fail>
    requires { FitsProc (boogie.proc_of proc.now) }
{
    if from > tokens.len() || KNOWN > proc.locals.len() {
        return Err("no token")?;
    }
    match read_bexpr(alloc, tokens, from, &proc.locals, KNOWN, end) {
        Ok(read) => told_expr(alloc, read),
        Err(BoogieFault::Syntax(at)) => {
            let column = at.col;
            Ok(format!(in alloc; "at {column}")?)
        }
        Err(_) => Err("another fault")?,
    }
}

/// What comes of a text from this token on.
fn told_from(alloc: Global, from: usize, text: &[u8]) -> Result<String, Fail> {
    let mut bytes = PRELUDE.to_vec(alloc)?;
    bytes.extend_from_slice(text)?;
    let end = end_after(small(text)?);
    let proc = last_procedure(boogie_program(alloc, LOCALS.as_bytes())?).ok_or("no procedure")?;
    match tokens_after(alloc, small(&bytes)?) {
        Ok(tokens) => read_from(alloc, &proc, &all_odd(alloc, &tokens)?, from, end),
        Err(BoogieFault::Syntax(at)) => {
            let column = at.col;
            Ok(format!(in alloc; "no token at {column}")?)
        }
        Err(_) => Err("another fault")?,
    }
}

/// What came of a row, where the row says otherwise.
fn wrong_row(alloc: Global, row: &str) -> Result<Option<String>, Fail> {
    let (from, rest) = parts(row, " | ")?;
    let (text, want) = parts(rest, " | ")?;
    let from = from.parse::<usize>().ok().ok_or("no number")?;
    let came = told_from(alloc, from, text.as_bytes())?;
    Ok(other_than(want, came))
}

/// Each text begins with the expression that its row says.
#[test]
fn tokens_begin_with_their_expressions(rt: HostRuntime) -> Result<(), Fail> {
    let alloc = rt.alloc();
    for table in [EXPRESSIONS, ENDS, NAMES, ODD] {
        let other = first_other(alloc, table, |row| wrong_row(alloc, row))?;
        if let Some(told) = other {
            panic!(rt; "{told}");
        }
    }
    Ok(())
}
