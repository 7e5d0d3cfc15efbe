// Copies of expressions, with other numbers of variables.
ghost use Rattle.std.specs.Prelude.{◌≡◌, IfOk};
ghost use Rattle.boogie_tree.specs.Whole.{expr_of, exprs_of};
ghost use Rattle.boogie_meaning.specs.Renamed.{renamed, renamed_in};
ghost use Rattle.boogie_cut.specs.View.{number_by};

use boogie_tree::{BBase, BExpr};
use std::alloc::Global;
use vb_base::{Memory, boxed};

/// The numbers that variables get.
#[derive(Clone, Copy)]
pub(crate) enum Renumbering<'a> {
    /// Their own.
    Own,
    /// Those at their places.
    Of(&'a [usize]),
}

/// The number that a variable gets.
fn number(names: Renumbering<'_>, local: usize) -> usize
    ensures { result ≡ number_by names.entry local }
{
    match names {
        Renumbering::Own => local,
        Renumbering::Of(numbers) => numbers.get(local).copied().unwrap_or(0),
    }
}

/// The expression with these numbers of its variables.
#[cycle(copying)]
fn renumbered(alloc: Global, names: Renumbering<'_>, e: &BExpr) -> Result<Box<BExpr>, Memory>
    ensures { IfOk result (λ x. expr_of x.value ≡ renamed (number_by names.entry) (expr_of e.now)) }
{
    match e {
        BExpr::Var(i) => boxed(alloc, BExpr::Var(number(names, *i))),
        BExpr::Int(n) => boxed(alloc, BExpr::Int(*n)),
        BExpr::Real(n) => boxed(alloc, BExpr::Real(*n)),
        BExpr::Bool(b) => boxed(alloc, BExpr::Bool(*b)),
        BExpr::Null => boxed(alloc, BExpr::Null),
        BExpr::Unit => boxed(alloc, BExpr::Unit),
        BExpr::Neg(a) => boxed(alloc, BExpr::Neg(renumbered(alloc, names, a)?)),
        BExpr::Not(a) => boxed(alloc, BExpr::Not(renumbered(alloc, names, a)?)),
        BExpr::Bin(op, a, b) => {
            let left = renumbered(alloc, names, a)?;
            boxed(alloc, BExpr::Bin(*op, left, renumbered(alloc, names, b)?))
        }
        BExpr::If(c, a, b) => {
            let condition = renumbered(alloc, names, c)?;
            let left = renumbered(alloc, names, a)?;
            boxed(
                alloc,
                BExpr::If(condition, left, renumbered(alloc, names, b)?),
            )
        }
        BExpr::Forall(us, a) => {
            let bound = bases(alloc, us)?;
            boxed(alloc, BExpr::Forall(bound, renumbered(alloc, names, a)?))
        }
        BExpr::ToReal(a) => boxed(alloc, BExpr::ToReal(renumbered(alloc, names, a)?)),
        BExpr::SInt(a) => boxed(alloc, BExpr::SInt(renumbered(alloc, names, a)?)),
        BExpr::SBool(a) => boxed(alloc, BExpr::SBool(renumbered(alloc, names, a)?)),
        BExpr::SRef(a) => boxed(alloc, BExpr::SRef(renumbered(alloc, names, a)?)),
        BExpr::SPerm(a) => boxed(alloc, BExpr::SPerm(renumbered(alloc, names, a)?)),
        BExpr::Pair(a, b) => {
            let left = renumbered(alloc, names, a)?;
            boxed(alloc, BExpr::Pair(left, renumbered(alloc, names, b)?))
        }
        BExpr::At(map, index) => {
            let keys = renumbered_all(alloc, names, index)?;
            boxed(alloc, BExpr::At(number(names, *map), keys))
        }
        BExpr::AtBound(map) => boxed(alloc, BExpr::AtBound(number(names, *map))),
    }
}

/// The same of the indices of a map.
#[cycle(copying)]
fn renumbered_all(alloc: Global, names: Renumbering<'_>, es: &[BExpr]) -> Result<Vec<BExpr>, Memory>
    ensures { IfOk result (λ xs. exprs_of xs.items ≡ renamed_in (number_by names.entry) (exprs_of es.now)) }
{
    let mut keys = Vec::with_capacity(alloc, es.len())?;
    for e in es {
        keys.push(Box::into_inner(renumbered(alloc, names, e)?))?;
    }
    Ok(keys)
}

/// A copy of an expression with these numbers of its variables.
pub(crate) fn copy_by(alloc: Global, names: Renumbering<'_>, e: &BExpr) -> Result<BExpr, Memory>
    ensures { IfOk result (λ x. expr_of x ≡ renamed (number_by names.entry) (expr_of e.now)) }
{
    Ok(Box::into_inner(renumbered(alloc, names, e)?))
}

/// A copy of an expression.
pub(crate) fn copy(alloc: Global, e: &BExpr) -> Result<BExpr, Memory>
    ensures { IfOk result (λ x. expr_of x ≡ expr_of e.now) }
{
    copy_by(alloc, Renumbering::Own, e)
}

/// A copy of indices.
pub(crate) fn copy_all(alloc: Global, es: &[BExpr]) -> Result<Vec<BExpr>, Memory>
    ensures { IfOk result (λ xs. exprs_of xs.items ≡ exprs_of es.now) }
{
    renumbered_all(alloc, Renumbering::Own, es)
}

/// A copy of types.
pub(crate) fn bases(alloc: Global, types: &[BBase]) -> Result<Vec<BBase>, Memory>
    ensures { IfOk result (λ us. us.items ≡ types.now) }
{
    let mut copy = Vec::new(alloc);
    copy.extend_from_slice(types)?;
    Ok(copy)
}
