// An expression from tokens that were handed out.
ghost use Rattle.std.specs.Prelude.{◌≡◌, ◌≤◌, [], ℕ, All, IfErr, IfOk, MatchResult, OnOk, drop, false, length, map, take};
ghost use Rattle.vb_base.specs.Names.{NamesDiffer};
ghost use Rattle.boogie_tree.specs.Expr as t;
ghost use Rattle.boogie_tree.specs.Whole.{expr_of, locals_of};
ghost use Rattle.boogie_grammar.specs.declared.faults.BoogieFault.{BoogieFault};
ghost use Rattle.boogie_grammar.specs.Grammar.{local_names};
ghost use Rattle.boogie_grammar.specs.ReadView.{scope_of};
ghost use Rattle.boogie_grammar.specs.Words.{is_reserved};
ghost use Rattle.boogie_text.specs.Answers.{UnlessMemory};
ghost use Rattle.boogie_text.specs.PublicTokens.{token_of};
ghost use Rattle.boogie_text.specs.ReadExpr.{Finds, GivesExpr, GivesExprFault, IsExprFault, IsReadExpr, place_in, scope_before};
ghost use Rattle.boogie_text.specs.ReadSteps.{ReadsAlone, found_of};

use crate::exprs::expr;
use crate::public_tokens::{BTok, BToken, front};
use boogie_grammar::eating::{BoogieRead, eat_sign};
use boogie_grammar::scopes::{BoogieNames, ExprScope};
use boogie_grammar::{BSign, BoogieFault};
use boogie_tree::{BExpr, Local};
use grammar::Stop;
use std::alloc::Global;
use symbol_table::{Digest, NameKey};
use vb_base::{Memory, Pos};

/// An expression, and the number of the first token after it.
#[derive(Drop)]
pub struct ReadExpr {
    pub e: BExpr,
    pub next: usize,
}

/// An expression, if there is one, and how many tokens it has; or the number of the first token through which the tokens
/// begin none.
type FoundExpr = (Option<Box<BExpr>>, usize);

/// The expression that begins at the token number `from`, where no `[` follows it directly. There is at most one.
///
/// Its free names are among the first `known` locals. What a `forall` binds has the name of no local, and no reserved one.
/// A token that no text has stands in no expression: a name or a sign whose bytes are none, and a number below 0.
/// `Syntax` comes exactly where there is no such expression: at the first token such that the tokens from `from` through it
/// begin none, or at `end` where all of them begin one. `Memory` where there is no memory.
pub fn read_bexpr(
    alloc: Global,
    tokens: &Vec<BToken>,
    from: usize,
    locals: &Vec<Local>,
    known: usize,
    end: Pos,
) -> Result<ReadExpr, BoogieFault>
    requires from { from ≤ length tokens.now.items }
    requires known { known ≤ length locals.now.items }
    requires differ { NamesDiffer (local_names (locals_of locals.now.items)) }
    requires free { All (λ x. is_reserved x ≡ false) (local_names (locals_of locals.now.items)) }
    ensures expr { IfOk result (λ r. IsReadExpr (scope_before (local_names (locals_of locals.now.items)) known) tokens.now.items from (expr_of r.e) r.next) }
    ensures fault { IfErr result (UnlessMemory (IsExprFault (scope_before (local_names (locals_of locals.now.items)) known) tokens.now.items from end)) }

    // and so no other expression, and no other fault
    ensures only_expr { (e : t.BExpr) (next : ℕ) → IsReadExpr (scope_before (local_names (locals_of locals.now.items)) known) tokens.now.items from e next → GivesExpr e next result }
    ensures only_fault { (f : BoogieFault) → IsExprFault (scope_before (local_names (locals_of locals.now.items)) known) tokens.now.items from end f → GivesExprFault f result }
{
    read_before(alloc, tokens, from, locals, known, end)
}

fn read_before(
    alloc: Global,
    tokens: &[BToken],
    from: usize,
    locals: &[Local],
    known: usize,
    end: Pos,
) -> Result<ReadExpr, BoogieFault>
    requires from { from ≤ length tokens.now }
    requires known { known ≤ length locals.now }
    requires differ { NamesDiffer (local_names (locals_of locals.now)) }
    ensures { MatchResult result
        (λ r. IsReadExpr (scope_before (local_names (locals_of locals.now)) known) tokens.now from (expr_of r.e) r.next)
        (UnlessMemory (IsExprFault (scope_before (local_names (locals_of locals.now)) known) tokens.now from end)) }
{
    let rest = &tokens[from..];
    let (found, size) = found_before(alloc, rest, locals, known)?;
    match found {
        Some(e) => Ok(ReadExpr {
            e: Box::into_inner(e),
            next: from + size,
        }),
        None => Err(BoogieFault::Syntax(place_in(rest, size, end))),
    }
}

/// What these tokens begin with, where the first locals are known.
fn found_before(
    alloc: Global,
    tokens: &[BToken],
    locals: &[Local],
    known: usize,
) -> Result<FoundExpr, Memory>
    requires known { known ≤ length locals.now }
    requires differ { NamesDiffer (local_names (locals_of locals.now)) }
    ensures { IfOk result (λ r. Finds (scope_before (local_names (locals_of locals.now)) known) (map token_of tokens.now) (found_of r.0) r.1) }
{
    let key = key_of(locals, tokens);
    let mut names = BoogieNames::new(alloc, key);
    add_names(&mut names, &locals[..known])?;
    let mut others = BoogieNames::new(alloc, key);
    add_names(&mut others, &locals[known..])?;
    let scope = ExprScope {
        locals: &names,
        others: &others,
        bound: &[],
    };
    found(alloc, scope, tokens)
}

/// A key that comes of the names of these locals, and of those in the expression with which the tokens begin.
fn key_of(locals: &[Local], tokens: &[BToken]) -> NameKey {
    let mut digest = Digest::new();
    for local in locals {
        digest.add(local.name.bytes());
    }
    for token in &tokens[..extent(tokens)] {
        if let BTok::Name(name) = &token.tok {
            digest.add(name.bytes());
        }
    }
    digest.key()
}

/// The names of these locals, which differ.
fn add_names(names: &mut BoogieNames, locals: &[Local]) -> Result<(), Memory>
    requires none { names.now ≡ [] }
    requires differ { NamesDiffer (local_names (locals_of locals.now)) }
    ensures { OnOk result (names.new ≡ local_names (locals_of locals.now)) }
{
    for local in locals {
        names.add(local.name.copy()?)?;
    }
    Ok(())
}

/// What these tokens begin with. As a rule no token is looked at but those of the expression and the one behind it.
fn found(alloc: Global, scope: ExprScope<'_>, tokens: &[BToken]) -> Result<FoundExpr, Memory>
    ensures { IfOk result (λ r. Finds (scope_of scope.entry) (map token_of tokens.now) (found_of r.0) r.1) }
{
    let extent = extent(tokens);
    let (first, size) = found_in(alloc, scope, &tokens[..extent])?;
    if size < extent || extent == tokens.len() {
        return Ok((first, size));
    }
    found_in(alloc, scope, tokens)
}

/// What these tokens begin with, each of which is looked at.
fn found_in(alloc: Global, scope: ExprScope<'_>, tokens: &[BToken]) -> Result<FoundExpr, Memory>
    ensures { IfOk result (λ r. Finds (scope_of scope.entry) (map token_of tokens.now) (found_of r.0) r.1) }
{
    let inner = front(alloc, tokens)?;
    match alone(alloc, scope, &inner) {
        Ok((e, rest)) => Ok((Some(e), inner.len() - rest.len())),
        Err(Stop::Before(rest)) => Ok((None, inner.len() - rest.len())),
        Err(Stop::Memory) => Err(Memory),
    }
}

/// An expression that no `[` follows.
fn alone<'a>(
    alloc: Global,
    scope: ExprScope<'_>,
    tokens: &'a [boogie_grammar::PlacedLexeme],
) -> BoogieRead<'a, Box<BExpr>>
    ensures { ReadsAlone (scope_of scope.entry) tokens.now result }
{
    match expr(alloc, scope, tokens) {
        Ok((e, rest)) => {
            if eat_sign(BSign::OpenBracket, rest).is_some() {
                return Err(Stop::Before(rest));
            }
            Ok((e, rest))
        }
        Err(stop) => Err(stop),
    }
}

/// How many tokens are enough for the expression with which these begin, and for the one behind it: an expression is one
/// token, or what stands in brackets, or a name and what stands in brackets.
fn extent(tokens: &[BToken]) -> usize
    ensures { result ≤ length tokens.now }
{
    let mut unclosed: usize = 0;
    for (i, token) in tokens.iter().enumerate() {
        let opens = is_one_of(token, &[b"(", b"[", b"{"]);
        if unclosed == 0 && (i > 1 || i == 1 && !opens) {
            return i + 1;
        }
        if opens {
            unclosed = unclosed.saturating_add(1);
        } else if is_one_of(token, &[b")", b"]", b"}"]) {
            unclosed = unclosed.saturating_sub(1);
        }
    }
    tokens.len()
}

/// Whether a token is one of these signs.
fn is_one_of(token: &BToken, signs: &[&[u8]]) -> bool {
    match &token.tok {
        BTok::Sign(sign) => signs.iter().any(|bytes| sign.bytes() == *bytes),
        _ => false,
    }
}

/// The place of the token of this number, or the end where there is none.
fn place_in(tokens: &[BToken], number: usize, end: Pos) -> Pos
    ensures { result ≡ place_in tokens.now number end }
{
    if number < tokens.len() {
        tokens[number].pos
    } else {
        end
    }
}
