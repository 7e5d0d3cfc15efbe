// The clauses of a procedure, and the names that are bound in them.
ghost use Rattle.std.specs.Prelude.{◌≡◌, ◌<◌, ◌≤◌, ◌++◌, [], ℕ, List, length, IfOk, IfSome, OnOk, MatchOption};
ghost use Rattle.boogie_loops.specs.View.{clause_of};
ghost use Rattle.boogie_loops_grammar.specs.Grammar as g;
ghost use Rattle.boogie_loops_grammar.specs.Trees.{no_clauses};
ghost use Rattle.boogie_loops_text.specs.Bound.{bound_in, binds, BindsNone, Binds};
ghost use Rattle.boogie_loops_text.specs.ClauseView.{ReadsBound, contract_of, adding, ReadsKind, NoKind};
ghost use Rattle.boogie_loops_text.specs.Greedy.{Parses};

use crate::parts::{mark, whole_expr};
use crate::reserved::Within;
use crate::words::{WideWord, eat_wide};
use boogie_grammar::eating::{BoogieRead, eat_sign, need_sign};
use boogie_grammar::{BSign, Lexeme, PlacedLexeme};
use boogie_loops::Clause;
use vb_base::{Ident, Memory, pushed};

/// The name that a token is, where it stands before a `:`.
fn named<'a>(token: &'a PlacedLexeme, rest: &[PlacedLexeme]) -> Option<&'a Ident>
    ensures { MatchOption result (BindsNone token.now rest.now) (λ name. Binds token.now rest.now name.now) }
{
    match &token.tok {
        Lexeme::Name(name) => {
            let _ = eat_sign(BSign::Colon, rest)?;
            Some(name)
        }
        _ => None,
    }
}

/// One name more, if a token is one that stands before a `:`.
fn push_named(
    bound: &mut Vec<Ident>,
    token: &PlacedLexeme,
    rest: &[PlacedLexeme],
) -> Result<(), Memory>
    ensures { OnOk result (bound.new.items ≡ bound.old.items ++ binds token.now.tok rest.now) }
{
    if let Some(name) = named(token, rest) {
        bound.push(name.copy()?)?;
    }
    Ok(())
}

/// The names before a `:`, behind these.
fn push_bound(bound: &mut Vec<Ident>, tokens: &[PlacedLexeme]) -> Result<(), Memory>
    ensures { OnOk result (bound.new.items ≡ bound.old.items ++ bound_in tokens.now) }
{
    let mut left = tokens;
    while let Some((first, rest)) = left.split_first() {
        push_named(bound, first, rest)?;
        left = rest;
    }
    Ok(())
}

/// A label and `bexpr ";"`. The names that the expression binds come behind these.
fn bound_clause<'a>(
    within: Within<'_>,
    bound: &mut Vec<Ident>,
    tokens: &'a [PlacedLexeme],
) -> BoogieRead<'a, Clause>
    ensures shorter { IfOk result (λ r. length r.1.now < length tokens.now) }
    ensures reads { ReadsBound within.entry.locals.now bound.old.items bound.new.items tokens.now result }
{
    let (label, rest) = mark(tokens)?;
    let (e, left) = whole_expr(within, rest)?;
    let (_, after) = need_sign(BSign::Semicolon, left)?;
    push_bound(bound, &rest[..rest.len() - left.len()])?;
    Ok((Clause { label, e }, after))
}

/// The preconditions and postconditions of a procedure.
#[derive(Drop)]
pub(crate) struct Clauses {
    pub(crate) preconditions: Vec<Clause>,
    pub(crate) postconditions: Vec<Clause>,
}

/// Which of the two a clause is.
#[derive(Clone, Copy)]
enum ClauseKind {
    Requires,
    Ensures,
}

/// The word with which a clause begins, if it is next.
fn eat_kind(tokens: &[PlacedLexeme]) -> Option<(ClauseKind, &[PlacedLexeme])>
    ensures shorter { IfSome result (λ r. length r.1.now < length tokens.now) }
    ensures eats { MatchOption result (NoKind tokens.now) (λ r. ReadsKind tokens.now r.0 r.1.now) }
{
    if let Some(rest) = eat_wide(WideWord::Requires, tokens) {
        return Some((ClauseKind::Requires, rest));
    }
    let rest = eat_wide(WideWord::Ensures, tokens)?;
    Some((ClauseKind::Ensures, rest))
}

/// The clauses with one more.
fn with_clause(all: Clauses, kind: ClauseKind, clause: Clause) -> Result<Clauses, Memory>
    ensures { IfOk result (λ r. (bound names : List (List ℕ)) → contract_of (bound ++ names) r ≡ adding kind (contract_of bound all) (clause_of clause) names) }
{
    let Clauses {
        preconditions,
        postconditions,
    } = all;
    match kind {
        ClauseKind::Requires => Ok(Clauses {
            preconditions: pushed(preconditions, clause)?,
            postconditions,
        }),
        ClauseKind::Ensures => Ok(Clauses {
            preconditions,
            postconditions: pushed(postconditions, clause)?,
        }),
    }
}

/// The clauses of a procedure. The names that they bind come into the empty list.
pub(crate) fn read_clauses<'a>(
    within: Within<'_>,
    bound: &mut Vec<Ident>,
    tokens: &'a [PlacedLexeme],
) -> BoogieRead<'a, Clauses>
    requires { bound.now.items ≡ [] }
    ensures shorter { IfOk result (λ r. length r.1.now ≤ length tokens.now) }
    ensures reads { Parses (contract_of bound.new.items) (g.rule (g.Clauses within.entry.locals.now no_clauses)) tokens.now result }
{
    let mut all = Clauses {
        preconditions: Vec::new(within.alloc),
        postconditions: Vec::new(within.alloc),
    };
    let mut rest = tokens;
    while let Some((kind, after)) = eat_kind(rest) {
        let (clause, after) = bound_clause(within, bound, after)?;
        all = with_clause(all, kind, clause)?;
        rest = after;
    }
    Ok((all, rest))
}
