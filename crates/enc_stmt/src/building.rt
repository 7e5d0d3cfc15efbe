// The steps of a unit as a tree: each is written into the block that is open.
ghost use Rattle.std.specs.Prelude.{◌≡◌, ◌++◌, [], length, map, All, OnOk};
ghost use Rattle.boogie_tree.specs.Whole.{stmt_of, stmts_of};
ghost use Rattle.enc_expr.specs.Emits.{emit_of, temporaries};
ghost use Rattle.enc_stmt.specs.Built.{around_of, built_of, closed, condition_of, if_code, opened, turned, with_pieces};
ghost use Rattle.enc_units.specs.Rows.{bracket_pieces, row_pieces, row_types};
ghost use Rattle.enc_units.specs.View.{bracket_of, coder_of, step_of};
ghost use Rattle.enc_units.specs.Written.{IsStep};

use boogie_tree::{BExpr, BStmt};
use enc_expr::{Emit, add};
use enc_units::{Bracket, RowStep, Writer};
use std::alloc::Global;
use std::mem;
use vb_base::Memory;

/// An `if` of which a block is open.
#[derive(Drop)]
pub struct Branch {
    /// Its condition. None: `*`.
    pub condition: Option<Box<BExpr>>,
    /// The statements before it.
    pub before: Vec<BStmt>,
    /// Its first block, where the second is open.
    pub first: Vec<BStmt>,
}

/// An `if` of this condition, or of `*` where there is none.
fn if_statement(condition: Option<Box<BExpr>>, first: Vec<BStmt>, second: Vec<BStmt>) -> BStmt
    ensures { stmt_of result ≡ if_code (condition_of condition) (stmts_of first.items) (stmts_of second.items) }
{
    match condition {
        Some(condition) => BStmt::If(Box::into_inner(condition), first, second),
        None => BStmt::Either(first, second),
    }
}

/// Opens the first block of an `if`.
fn open_branch(
    alloc: Global,
    condition: Option<Box<BExpr>>,
    branches: &mut Vec<Branch>,
    block: &mut Vec<BStmt>,
) -> Result<(), Memory>
    ensures { OnOk result (built_of branches.new.items block.new.items ≡ opened (condition_of condition) (built_of branches.old.items block.old.items)) }
{
    let before = mem::replace(block, Vec::new(alloc));
    let first = Vec::new(alloc);
    let branch = Branch {
        condition,
        before,
        first,
    };
    add(branches, branch)
}

/// Opens the second block of the innermost `if`.
fn turn_branch(
    alloc: Global,
    branches: &mut Vec<Branch>,
    block: &mut Vec<BStmt>,
) -> Result<(), Memory>
    ensures { OnOk result (built_of branches.new.items block.new.items ≡ turned (stmts_of block.old.items) (around_of branches.old.items)) }
{
    let Some(branch) = branches.pop() else {
        return Ok(());
    };
    let Branch {
        condition,
        before,
        first: _,
    } = branch;
    let first = mem::replace(block, Vec::new(alloc));
    let turned = Branch {
        condition,
        before,
        first,
    };
    add(branches, turned)
}

/// Ends the second block of the innermost `if`, which stands behind the statements before it.
fn close_branch(branches: &mut Vec<Branch>, block: &mut Vec<BStmt>) -> Result<(), Memory>
    ensures { OnOk result (built_of branches.new.items block.new.items ≡ closed (stmts_of block.old.items) (around_of branches.old.items)) }
{
    let Some(branch) = branches.pop() else {
        return Ok(());
    };
    let Branch {
        condition,
        before,
        first,
    } = branch;
    let second = mem::replace(block, before);
    add(block, if_statement(condition, first, second))
}

/// Opens or ends a block, if there is a bracket.
fn build_bracket(
    alloc: Global,
    bracket: Bracket,
    branches: &mut Vec<Branch>,
    block: &mut Vec<BStmt>,
) -> Result<(), Memory>
    ensures { OnOk result (built_of branches.new.items block.new.items
        ≡ with_pieces (bracket_pieces (bracket_of bracket)) (built_of branches.old.items block.old.items)) }
{
    match bracket {
        Bracket::Nothing => Ok(()),
        Bracket::If(condition) => open_branch(alloc, Some(condition), branches, block),
        Bracket::Either => open_branch(alloc, None, branches, block),
        Bracket::Else => turn_branch(alloc, branches, block),
        Bracket::End => close_branch(branches, block),
    }
}

/// Builds the steps of a row, behind what stands in `out`. The code of no step is copied.
pub fn build_row(
    alloc: Global,
    writer: Writer,
    row: &[RowStep<'_>],
    out: &mut Emit,
) -> Result<(), Memory>
    requires { All IsStep (map step_of row.now) }
    ensures locals { OnOk result ((emit_of out.new).locals ≡ (emit_of out.old).locals ++ temporaries (length (emit_of out.old).locals)
        (row_types (coder_of writer.entry) (map step_of row.now) (length (emit_of out.old).locals))) }
    ensures code { OnOk result ((emit_of out.new).stmts
        ≡ (with_pieces (row_pieces (coder_of writer.entry) (map step_of row.now) (length (emit_of out.old).locals)) (built_of [] out.old.code.items)).block) }
{
    let mut branches = Vec::new(alloc);
    for step in row {
        let bracket = writer.code(alloc, step, out)?;
        build_bracket(alloc, bracket, &mut branches, &mut out.code)?;
    }
    Ok(())
}
