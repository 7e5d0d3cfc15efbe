// The text of statements.
ghost use Rattle.std.specs.Prelude.{◌≡◌, ◌++◌, OnOk, [], codes};
ghost use Rattle.vb_base.specs.Labels.{text_of};
ghost use Rattle.boogie_tree.specs.Whole as b;
ghost use Rattle.boogie_grammar.specs.Naming.{naming_of};
ghost use Rattle.boogie_grammar.specs.Printed as text;
ghost use Rattle.boogie_print.specs.Pieces.{else_text, end_text};

use crate::put_exprs::{put_after, put_exprs, put_map, put_name};
use crate::put_leaves::put_label;
use boogie_grammar::naming::Naming;
use boogie_tree::{BExpr, BStmt};
use std::alloc::Global;
use vb_base::{Label, Memory, put};

#[cycle(statements)]
pub(crate) fn put_statements(
    alloc: Global,
    out: &mut Vec<u8>,
    names: &Naming<'_>,
    stmts: &[BStmt],
) -> Result<(), Memory>
    ensures { OnOk result (out.new.items ≡ out.old.items ++ text.stmts_text (naming_of names.now) (b.stmts_of stmts.now)) }
{
    for stmt in stmts {
        put_statement(alloc, out, names, stmt)?;
    }
    Ok(())
}

#[cycle(statements)]
fn put_statement(
    alloc: Global,
    out: &mut Vec<u8>,
    names: &Naming<'_>,
    stmt: &BStmt,
) -> Result<(), Memory>
    ensures { OnOk result (out.new.items ≡ out.old.items ++ text.stmt_text (naming_of names.now) (b.stmt_of stmt.now)) }
{
    match stmt {
        BStmt::Assign(i, value) => put_assignment(alloc, out, names, *i, value),
        BStmt::Put(i, indices, value) => put_change(alloc, out, names, *i, indices, value),
        BStmt::Havoc(i) => put_havoc(out, names, *i),
        BStmt::Assume(truth) => put_line(alloc, out, names, b"assume ", truth),
        BStmt::Assert(label, truth) => put_assertion(alloc, out, names, label, truth),
        BStmt::If(truth, a, b) => {
            put_branch(alloc, out, names, truth)?;
            put_statements(alloc, out, names, a)?;
            put_else(out)?;
            put_statements(alloc, out, names, b)?;
            put_end(out)
        }
        BStmt::Either(a, b) => {
            put_choice(out)?;
            put_statements(alloc, out, names, a)?;
            put_else(out)?;
            put_statements(alloc, out, names, b)?;
            put_end(out)
        }
    }
}

/// An `if` of a condition up to the `{` of its first block.
pub(crate) fn put_branch(
    alloc: Global,
    out: &mut Vec<u8>,
    names: &Naming<'_>,
    truth: &BExpr,
) -> Result<(), Memory>
    ensures { OnOk result (out.new.items ≡ out.old.items ++ (codes "if (" ++ text.expr_text (naming_of names.now) (b.expr_of truth.now) ++ codes ") {\n")) }
{
    put_after(alloc, out, names, b"if (", truth)?;
    put(out, b") {\n")
}

/// The same with `*`.
pub(crate) fn put_choice(out: &mut Vec<u8>) -> Result<(), Memory>
    ensures { OnOk result (out.new.items ≡ out.old.items ++ codes "if (*) {\n") }
{
    put(out, b"if (*) {\n")
}

/// Appends what stands between the two blocks of an `if`.
pub fn put_else(out: &mut Vec<u8>) -> Result<(), Memory>
    ensures { OnOk result (out.new.items ≡ out.old.items ++ else_text) }
{
    put(out, b"} else {\n")
}

/// Appends the end of an `if` or of a procedure.
pub fn put_end(out: &mut Vec<u8>) -> Result<(), Memory>
    ensures { OnOk result (out.new.items ≡ out.old.items ++ end_text) }
{
    put(out, b"}\n")
}

/// These bytes, and then an expression and the end of a statement.
fn put_line(
    alloc: Global,
    out: &mut Vec<u8>,
    names: &Naming<'_>,
    front: &[u8],
    expr: &BExpr,
) -> Result<(), Memory>
    ensures { OnOk result (out.new.items ≡ out.old.items ++ front.now ++ text.expr_text (naming_of names.now) (b.expr_of expr.now) ++ codes ";\n") }
{
    put_after(alloc, out, names, front, expr)?;
    put(out, b";\n")
}

fn put_assignment(
    alloc: Global,
    out: &mut Vec<u8>,
    names: &Naming<'_>,
    i: usize,
    value: &BExpr,
) -> Result<(), Memory>
    ensures { OnOk result (out.new.items ≡ out.old.items ++ text.name_at (naming_of names.now).locals i ++ codes " := " ++
        text.expr_text (naming_of names.now) (b.expr_of value.now) ++ codes ";\n") }
{
    put_name(out, names, i)?;
    put_line(alloc, out, names, b" := ", value)
}

fn put_change(
    alloc: Global,
    out: &mut Vec<u8>,
    names: &Naming<'_>,
    map: usize,
    indices: &[BExpr],
    value: &BExpr,
) -> Result<(), Memory>
    ensures { OnOk result (out.new.items ≡ out.old.items ++ text.name_at (naming_of names.now).locals map ++ codes "[" ++
        text.exprs_text (naming_of names.now) [] (b.exprs_of indices.now) ++ codes "] := " ++ text.expr_text (naming_of names.now) (b.expr_of value.now) ++ codes ";\n") }
{
    put_map(out, names, map)?;
    put_exprs(alloc, out, names, indices)?;
    put_line(alloc, out, names, b"] := ", value)
}

fn put_havoc(out: &mut Vec<u8>, names: &Naming<'_>, i: usize) -> Result<(), Memory>
    ensures { OnOk result (out.new.items ≡ out.old.items ++ codes "havoc " ++ text.name_at (naming_of names.now).locals i ++ codes ";\n") }
{
    put(out, b"havoc ")?;
    put_name(out, names, i)?;
    put(out, b";\n")
}

fn put_assertion(
    alloc: Global,
    out: &mut Vec<u8>,
    names: &Naming<'_>,
    label: &Label,
    truth: &BExpr,
) -> Result<(), Memory>
    ensures { OnOk result (out.new.items ≡ out.old.items ++ codes "assert {:msg \"" ++ text_of label.now ++ codes "\"} " ++
        text.expr_text (naming_of names.now) (b.expr_of truth.now) ++ codes ";\n") }
{
    put(out, b"assert {:msg \"")?;
    put_label(out, *label)?;
    put_line(alloc, out, names, b"\"} ", truth)
}
