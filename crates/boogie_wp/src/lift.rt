// Expressions of a program as those of a formula.
ghost use Rattle.std.specs.Prelude.{◌≡◌, IfOk};
ghost use Rattle.boogie_tree.specs.Whole.{expr_of, exprs_of};
ghost use Rattle.boogie_formula.specs.View.{fexpr_of, fexprs_of};
ghost use Rattle.boogie_wp.specs.Build.{number_at};
ghost use Rattle.boogie_wp.specs.Lifted.{lifted, lifted_all};

use boogie_formula::FExpr;
use boogie_tree::{BBase, BExpr};
use std::alloc::Global;
use vb_base::{Memory, boxed};

/// The name of a local, by the names of all.
pub(crate) fn name_of(names: &[usize], local: usize) -> usize
    ensures { result ≡ number_at names.now local }
{
    names.get(local).copied().unwrap_or(0)
}

/// The expression with the names of its variables.
#[cycle(lifting)]
pub(crate) fn lift(alloc: Global, names: &[usize], e: &BExpr) -> Result<Box<FExpr>, Memory>
    ensures { IfOk result (λ x. fexpr_of x.value ≡ lifted (number_at names.now) (expr_of e.now)) }
{
    match e {
        BExpr::Var(i) => boxed(alloc, FExpr::Var(name_of(names, *i))),
        BExpr::Int(n) => boxed(alloc, FExpr::Int(*n)),
        BExpr::Real(n) => boxed(alloc, FExpr::Real(*n)),
        BExpr::Bool(b) => boxed(alloc, FExpr::Bool(*b)),
        BExpr::Null => boxed(alloc, FExpr::Null),
        BExpr::Unit => boxed(alloc, FExpr::Unit),
        BExpr::Neg(a) => boxed(alloc, FExpr::Neg(lift(alloc, names, a)?)),
        BExpr::Not(a) => boxed(alloc, FExpr::Not(lift(alloc, names, a)?)),
        BExpr::Bin(op, a, b) => {
            let left = lift(alloc, names, a)?;
            boxed(alloc, FExpr::Bin(*op, left, lift(alloc, names, b)?))
        }
        BExpr::If(c, a, b) => {
            let condition = lift(alloc, names, c)?;
            let left = lift(alloc, names, a)?;
            boxed(alloc, FExpr::If(condition, left, lift(alloc, names, b)?))
        }
        BExpr::Forall(us, a) => {
            let bound = bases(alloc, us)?;
            boxed(alloc, FExpr::Forall(bound, lift(alloc, names, a)?))
        }
        BExpr::ToReal(a) => boxed(alloc, FExpr::ToReal(lift(alloc, names, a)?)),
        BExpr::SInt(a) => boxed(alloc, FExpr::SInt(lift(alloc, names, a)?)),
        BExpr::SBool(a) => boxed(alloc, FExpr::SBool(lift(alloc, names, a)?)),
        BExpr::SRef(a) => boxed(alloc, FExpr::SRef(lift(alloc, names, a)?)),
        BExpr::SPerm(a) => boxed(alloc, FExpr::SPerm(lift(alloc, names, a)?)),
        BExpr::Pair(a, b) => {
            let left = lift(alloc, names, a)?;
            boxed(alloc, FExpr::Pair(left, lift(alloc, names, b)?))
        }
        BExpr::At(map, index) => {
            let keys = lift_all(alloc, names, index)?;
            boxed(alloc, FExpr::At(name_of(names, *map), keys))
        }
        BExpr::AtBound(map) => boxed(alloc, FExpr::AtBound(name_of(names, *map))),
    }
}

/// The same of the indices of a map.
#[cycle(lifting)]
pub(crate) fn lift_all(alloc: Global, names: &[usize], es: &[BExpr]) -> Result<Vec<FExpr>, Memory>
    ensures { IfOk result (λ xs. fexprs_of xs.items ≡ lifted_all (number_at names.now) (exprs_of es.now)) }
{
    let mut keys = Vec::with_capacity(alloc, es.len())?;
    for e in es {
        keys.push(Box::into_inner(lift(alloc, names, e)?))?;
    }
    Ok(keys)
}

/// A copy of types.
pub(crate) fn bases(alloc: Global, types: &[BBase]) -> Result<Vec<BBase>, Memory>
    ensures { IfOk result (λ us. us.items ≡ types.now) }
{
    let mut copy = Vec::new(alloc);
    copy.extend_from_slice(types)?;
    Ok(copy)
}
