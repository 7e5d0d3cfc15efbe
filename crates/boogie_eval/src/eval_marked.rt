// The maps that an expression indexes by the bound names.
ghost use Rattle.std.specs.Prelude.{◌≡◌, ◌++◌, OnOk};
ghost use Rattle.boogie_tree.specs.Whole.{expr_of, exprs_of};
ghost use Rattle.boogie_eval.specs.Columns.{numbers_in, numbers_in_all};

use boogie_tree::BExpr;
use vb_base::Memory;

/// Adds the numbers of the maps that an expression indexes by the bound names.
#[cycle(marking)]
pub(crate) fn mark(e: &BExpr, numbers: &mut Vec<usize>) -> Result<(), Memory>
    ensures { OnOk result (numbers.new.items ≡ numbers.old.items ++ numbers_in (expr_of e.now)) }
{
    match e {
        BExpr::Neg(a) => mark(a, numbers),
        BExpr::Not(a) => mark(a, numbers),
        BExpr::Bin(_, x, y) => {
            mark(x, numbers)?;
            mark(y, numbers)
        }
        BExpr::If(c, x, y) => {
            mark(c, numbers)?;
            mark(x, numbers)?;
            mark(y, numbers)
        }
        BExpr::ToReal(a) => mark(a, numbers),
        BExpr::SInt(a) => mark(a, numbers),
        BExpr::SBool(a) => mark(a, numbers),
        BExpr::SRef(a) => mark(a, numbers),
        BExpr::SPerm(a) => mark(a, numbers),
        BExpr::Pair(x, y) => {
            mark(x, numbers)?;
            mark(y, numbers)
        }
        BExpr::At(_, es) => mark_all(es, numbers),
        BExpr::AtBound(number) => Ok(numbers.push(*number)?),
        BExpr::Var(_) => Ok(()),
        BExpr::Int(_) => Ok(()),
        BExpr::Real(_) => Ok(()),
        BExpr::Bool(_) => Ok(()),
        BExpr::Null => Ok(()),
        BExpr::Unit => Ok(()),
        BExpr::Forall(_, _) => Ok(()),
    }
}

/// Adds those of indices.
#[cycle(marking)]
fn mark_all(es: &[BExpr], numbers: &mut Vec<usize>) -> Result<(), Memory>
    ensures { OnOk result (numbers.new.items ≡ numbers.old.items ++ numbers_in_all (exprs_of es.now)) }
{
    for e in es {
        mark(e, numbers)?;
    }
    Ok(())
}
