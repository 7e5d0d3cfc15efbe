//! The `assert`s of a translation. All of them are written here, so that what stands under a label is promised in one place.
#![tactic(auto)]

ghost use Rattle.std.specs.Prelude.{◌≡◌, ◌++◌, ◌∷◌, [], OnOk};
ghost use Rattle.boogie_tree.specs.declared.stmts.BStmt.TheVariants as stmt;

use boogie_tree::{BExpr, BStmt};
use vb_base::{Label, Memory};

/// Asserts a condition under a label, behind the statements of a block. `Memory` where there is no memory for one more.
pub fn add_assert(block: &mut Vec<BStmt>, label: Label, condition: BExpr) -> Result<(), Memory>
    ensures { OnOk result (block.new.items ≡ block.old.items ++ stmt.Assert label condition ∷ []) }
{
    Ok(block.push(BStmt::Assert(label, condition))?)
}
