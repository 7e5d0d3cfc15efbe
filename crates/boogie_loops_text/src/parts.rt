// Expressions, and clauses with their labels.
ghost use Rattle.std.specs.Prelude.{◌<◌, length, IfOk};
ghost use Rattle.boogie_tree.specs.Whole.{expr_of};
ghost use Rattle.boogie_grammar.specs.Grammar as g;
ghost use Rattle.boogie_grammar.specs.Greedy.{Parses};
ghost use Rattle.boogie_grammar.specs.ReadView.{all_exprs_of};
ghost use Rattle.boogie_loops_grammar.specs.Grammar.{scope};
ghost use Rattle.boogie_loops_text.specs.View.{ReadsMark, ReadsClause};

use crate::reserved::{Within, none_bound};
use boogie_grammar::eating::{BoogieRead, need_label, need_sign, need_word};
use boogie_grammar::scopes::ExprScope;
use boogie_grammar::{BSign, BoogieWord, PlacedLexeme};
use boogie_loops::Clause;
use boogie_text::exprs::{expr, exprs};
use boogie_tree::BExpr;
use vb_base::Label;

/// An expression that stands in no `forall`.
pub(crate) fn whole_expr<'a>(
    within: Within<'_>,
    tokens: &'a [PlacedLexeme],
) -> BoogieRead<'a, BExpr>
    ensures shorter { IfOk result (λ r. length r.1.now < length tokens.now) }
    ensures reads { Parses expr_of (g.rule (g.Expr (scope within.entry.locals.now))) tokens.now result }
{
    let scope = ExprScope {
        locals: within.locals,
        others: within.words.names(),
        bound: none_bound(),
    };
    let (inner, rest) = expr(within.alloc, scope, tokens)?;
    Ok((Box::into_inner(inner), rest))
}

/// Indices that stand in no `forall`, with the `]`.
pub(crate) fn whole_exprs<'a>(
    within: Within<'_>,
    tokens: &'a [PlacedLexeme],
) -> BoogieRead<'a, Vec<BExpr>>
    ensures shorter { IfOk result (λ r. length r.1.now < length tokens.now) }
    ensures reads { Parses all_exprs_of (g.rule (g.Exprs (scope within.entry.locals.now))) tokens.now result }
{
    let scope = ExprScope {
        locals: within.locals,
        others: within.words.names(),
        bound: none_bound(),
    };
    exprs(within.alloc, scope, tokens)
}

/// `"{" ":" "msg" string "}"`
pub(crate) fn mark(tokens: &[PlacedLexeme]) -> BoogieRead<'_, Label>
    ensures shorter { IfOk result (λ r. length r.1.now < length tokens.now) }
    ensures reads { ReadsMark tokens.now result }
{
    let (_, rest) = need_sign(BSign::OpenBrace, tokens)?;
    let (_, rest) = need_sign(BSign::Colon, rest)?;
    let (_, rest) = need_word(BoogieWord::Msg, rest)?;
    let (text, rest) = need_label(rest)?;
    let (_, rest) = need_sign(BSign::CloseBrace, rest)?;
    Ok((text, rest))
}

/// A label and `bexpr ";"`.
pub(crate) fn read_clause<'a>(
    within: Within<'_>,
    tokens: &'a [PlacedLexeme],
) -> BoogieRead<'a, Clause>
    ensures shorter { IfOk result (λ r. length r.1.now < length tokens.now) }
    ensures reads { ReadsClause within.entry.locals.now tokens.now result }
{
    let (label, rest) = mark(tokens)?;
    let (e, rest) = whole_expr(within, rest)?;
    let (_, after) = need_sign(BSign::Semicolon, rest)?;
    Ok((Clause { label, e }, after))
}
