// Expressions from their parts.
ghost use Rattle.std.specs.Prelude.{◌≡◌, IfOk};
ghost use Rattle.boogie_tree.specs.Expr as t;
ghost use Rattle.boogie_tree.specs.Whole.{expr_of};
ghost use Rattle.boogie_grammar.specs.ReadView.{boxed_of, all_exprs_of, wrap_of};

use boogie_grammar::leaves::Wrap;
use boogie_tree::BExpr;
use std::alloc::Global;
use vb_base::{Memory, boxed};

/// A form with one expression.
fn form_of(form: Wrap, inner: Box<BExpr>) -> BExpr
    ensures { expr_of result ≡ wrap_of form (boxed_of inner) }
{
    match form {
        Wrap::Real => BExpr::ToReal(inner),
        Wrap::Int => BExpr::SInt(inner),
        Wrap::Bool => BExpr::SBool(inner),
        Wrap::Ref => BExpr::SRef(inner),
        Wrap::Perm => BExpr::SPerm(inner),
        Wrap::Neg => BExpr::Neg(inner),
        Wrap::Not => BExpr::Not(inner),
    }
}

/// A form with one expression, in a box.
pub(crate) fn wrap(alloc: Global, form: Wrap, inner: Box<BExpr>) -> Result<Box<BExpr>, Memory>
    ensures { IfOk result (λ b. boxed_of b ≡ wrap_of form (boxed_of inner)) }
{
    let whole = boxed(alloc, form_of(form, inner))?;
    Ok(whole)
}

/// The map of this number at these indices.
pub(crate) fn at(alloc: Global, i: usize, indices: Vec<BExpr>) -> Result<Box<BExpr>, Memory>
    ensures { IfOk result (λ b. boxed_of b ≡ t.At i (t.exprs (all_exprs_of indices))) }
{
    let whole = boxed(alloc, BExpr::At(i, indices))?;
    Ok(whole)
}
