// Expressions of Boogie.
ghost use Rattle.std.specs.Prelude.{◌≡◌, IfOk};
ghost use Rattle.boogie_tree.specs.Expr as t;
ghost use Rattle.boogie_tree.specs.Whole.{expr_of, exprs_of};
ghost use Rattle.enc_expr.specs.Encoding as code;
ghost use Rattle.enc_expr.specs.Pieces as piece;
ghost use Rattle.enc_expr.specs.View.{atom_of, index_in};

use crate::operands::Atom;
use boogie_tree::{BExpr, BOp};
use std::alloc::Global;
use vb_base::{Memory, boxed, boxed_pair};
use vb_value::Ty;

/// An operator at two operands.
pub fn binary(alloc: Global, op: BOp, left: BExpr, right: BExpr) -> Result<BExpr, Memory>
    ensures { IfOk result (λ x. expr_of x ≡ t.Bin op (expr_of left) (expr_of right)) }
{
    let (left, right) = boxed_pair(alloc, left, right)?;
    Ok(BExpr::Bin(op, left, right))
}

pub(crate) fn negation(alloc: Global, a: BExpr) -> Result<BExpr, Memory>
    ensures { IfOk result (λ x. expr_of x ≡ t.Not (expr_of a)) }
{
    Ok(BExpr::Not(boxed(alloc, a)?))
}

/// Where a map is looked at.
#[derive(Clone, Copy)]
pub enum Index<'a> {
    /// At a reference.
    Reference(Atom),
    /// At the instance whose arguments these locals hold. One without arguments has the index 0.
    Instance(&'a [usize]),
}

impl<'a> Index<'a> {
    /// It as expressions.
    pub fn exprs(self, alloc: Global) -> Result<Vec<BExpr>, Memory>
        ensures { IfOk result (λ xs. exprs_of xs.items ≡ index_in self.entry) }
    {
        match self {
            Index::Reference(reference) => Ok(vec![in alloc; reference.expr()]?),
            Index::Instance(locals) => arguments(alloc, locals),
        }
    }
}

fn arguments(alloc: Global, locals: &[usize]) -> Result<Vec<BExpr>, Memory>
    ensures { IfOk result (λ xs. exprs_of xs.items ≡ piece.index locals.now) }
{
    if locals.is_empty() {
        return Ok(vec![in alloc; BExpr::Int(0)]?);
    }
    let mut index = Vec::with_capacity(alloc, locals.len())?;
    for local in locals {
        index.push(BExpr::Var(*local))?;
    }
    Ok(index)
}

/// A map at an index.
pub fn at(alloc: Global, map: usize, index: Index) -> Result<BExpr, Memory>
    ensures { IfOk result (λ x. expr_of x ≡ t.At map (index_in index.entry)) }
{
    let index = index.exprs(alloc)?;
    Ok(BExpr::At(map, index))
}

/// An int as a real.
pub(crate) fn real(alloc: Global, a: BExpr) -> Result<BExpr, Memory>
    ensures { IfOk result (λ x. expr_of x ≡ piece.real (expr_of a)) }
{
    match a {
        BExpr::Int(n) => Ok(BExpr::Real(n)),
        a => Ok(BExpr::ToReal(boxed(alloc, a)?)),
    }
}

/// The content of a place with the value of an expression.
pub(crate) fn leaf(alloc: Global, ty: Ty, a: BExpr) -> Result<BExpr, Memory>
    ensures { IfOk result (λ x. expr_of x ≡ code.leaf ty (expr_of a)) }
{
    let a = boxed(alloc, a)?;
    Ok(match ty {
        Ty::Int => BExpr::SInt(a),
        Ty::Bool => BExpr::SBool(a),
        Ty::Ref => BExpr::SRef(a),
        Ty::Perm => BExpr::SPerm(a),
    })
}

/// An amount times a scale.
pub fn scaled(alloc: Global, scale: Atom, amount: Atom) -> Result<BExpr, Memory>
    ensures { IfOk result (λ x. expr_of x ≡ piece.scaled (atom_of scale) (atom_of amount)) }
{
    if scale.is_one() {
        Ok(amount.expr())
    } else if amount.is_one() {
        Ok(scale.expr())
    } else {
        binary(alloc, BOp::Mul, scale.expr(), amount.expr())
    }
}
