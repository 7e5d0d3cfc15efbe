// The text of expressions.
ghost use Rattle.std.specs.Prelude.{◌≡◌, ◌++◌, ◌≤◌, OnOk, [], drop, codes, length};
ghost use Rattle.boogie_tree.specs.Whole as b;
ghost use Rattle.boogie_grammar.specs.Naming.{naming_of};
ghost use Rattle.boogie_grammar.specs.Printed as text;

use crate::put_leaves::{
    put_binders, put_byte, put_names, put_number, put_numbered, put_operator, put_real, truth_text,
};
use boogie_grammar::naming::{Naming, bound_names};
use boogie_tree::{BBase, BExpr};
use std::alloc::Global;
use vb_base::{Memory, put};

/// An expression.
#[cycle(expressions)]
pub(crate) fn put_expr(
    alloc: Global,
    out: &mut Vec<u8>,
    names: &Naming<'_>,
    expr: &BExpr,
) -> Result<(), Memory>
    ensures { OnOk result (out.new.items ≡ out.old.items ++ text.expr_text (naming_of names.now) (b.expr_of expr.now)) }
{
    match expr {
        BExpr::Var(i) => put_name(out, names, *i),
        BExpr::Int(n) => put_number(out, *n),
        BExpr::Real(n) => put_real(out, *n),
        BExpr::Bool(truth) => put(out, truth_text(*truth)),
        BExpr::Null => put(out, b"null"),
        BExpr::Unit => put(out, b"sUnit"),
        BExpr::Neg(a) => put_wrapped(alloc, out, names, b"(- ", a),
        BExpr::Not(a) => put_wrapped(alloc, out, names, b"(! ", a),
        BExpr::Bin(op, a, b) => {
            put_byte(out, b'(')?;
            put_expr(alloc, out, names, a)?;
            put_operator(out, *op)?;
            put_byte(out, b' ')?;
            put_closed(alloc, out, names, b)
        }
        BExpr::If(a, b, c) => {
            put_after(alloc, out, names, b"(if ", a)?;
            put_after(alloc, out, names, b" then ", b)?;
            put_wrapped(alloc, out, names, b" else ", c)
        }
        BExpr::Forall(types, a) => put_forall(alloc, out, names, types, a),
        BExpr::ToReal(a) => put_wrapped(alloc, out, names, b"real(", a),
        BExpr::SInt(a) => put_wrapped(alloc, out, names, b"sInt(", a),
        BExpr::SBool(a) => put_wrapped(alloc, out, names, b"sBool(", a),
        BExpr::SRef(a) => put_wrapped(alloc, out, names, b"sRef(", a),
        BExpr::SPerm(a) => put_wrapped(alloc, out, names, b"sPerm(", a),
        BExpr::Pair(a, b) => {
            put_after(alloc, out, names, b"sPair(", a)?;
            put_wrapped(alloc, out, names, b", ", b)
        }
        BExpr::At(i, indices) => {
            put_map(out, names, *i)?;
            put_exprs(alloc, out, names, indices)?;
            put_byte(out, b']')
        }
        BExpr::AtBound(i) => put_at_bound(out, names, *i),
    }
}

/// These bytes, and then an expression.
#[cycle(expressions)]
pub(crate) fn put_after(
    alloc: Global,
    out: &mut Vec<u8>,
    names: &Naming<'_>,
    front: &[u8],
    a: &BExpr,
) -> Result<(), Memory>
    ensures { OnOk result (out.new.items ≡ out.old.items ++ front.now ++ text.expr_text (naming_of names.now) (b.expr_of a.now)) }
{
    put(out, front)?;
    put_expr(alloc, out, names, a)
}

/// An expression between these bytes and a `)`.
#[cycle(expressions)]
fn put_wrapped(
    alloc: Global,
    out: &mut Vec<u8>,
    names: &Naming<'_>,
    front: &[u8],
    a: &BExpr,
) -> Result<(), Memory>
    ensures { OnOk result (out.new.items ≡ out.old.items ++ front.now ++ text.expr_text (naming_of names.now) (b.expr_of a.now) ++ codes ")") }
{
    put(out, front)?;
    put_closed(alloc, out, names, a)
}

/// An expression and a `)`.
#[cycle(expressions)]
fn put_closed(alloc: Global, out: &mut Vec<u8>, names: &Naming<'_>, a: &BExpr) -> Result<(), Memory>
    ensures { OnOk result (out.new.items ≡ out.old.items ++ text.expr_text (naming_of names.now) (b.expr_of a.now) ++ codes ")") }
{
    put_expr(alloc, out, names, a)?;
    put_byte(out, b')')
}

#[cycle(expressions)]
fn put_forall(
    alloc: Global,
    out: &mut Vec<u8>,
    names: &Naming<'_>,
    types: &[BBase],
    body: &BExpr,
) -> Result<(), Memory>
    ensures { OnOk result (out.new.items ≡ out.old.items ++ codes "(forall " ++ text.binders_text [] (text.bound_names names.now.taken.now [] types.now) types.now ++
        codes " :: " ++ text.expr_text (text.under (naming_of names.now) types.now) (b.expr_of body.now) ++ codes ")") }
{
    let bound = bound_names(alloc, names.taken, types)?;
    put(out, b"(forall ")?;
    put_binders(out, &bound, types)?;
    put(out, b" :: ")?;
    let inner = Naming {
        bound: &bound,
        ..*names
    };
    put_expr(alloc, out, &inner, body)?;
    put_byte(out, b')')
}

/// Expressions with `, ` between them.
#[cycle(expressions)]
pub(crate) fn put_exprs(
    alloc: Global,
    out: &mut Vec<u8>,
    names: &Naming<'_>,
    exprs: &[BExpr],
) -> Result<(), Memory>
    ensures { OnOk result (out.new.items ≡ out.old.items ++ text.exprs_text (naming_of names.now) [] (b.exprs_of exprs.now)) }
{
    let mut before: &[u8] = b"";
    for expr in exprs {
        put_after(alloc, out, names, before, expr)?;
        before = b", ";
    }
    Ok(())
}

fn put_at_bound(out: &mut Vec<u8>, names: &Naming<'_>, map: usize) -> Result<(), Memory>
    ensures { OnOk result (out.new.items ≡ out.old.items ++ text.name_at (naming_of names.now).locals map ++ codes "[" ++
        text.names_text [] names.now.bound.now ++ codes "]") }
{
    put_map(out, names, map)?;
    put_names(out, names.bound)?;
    put_byte(out, b']')
}

/// The name of the map of this number, and `[`.
pub(crate) fn put_map(out: &mut Vec<u8>, names: &Naming<'_>, i: usize) -> Result<(), Memory>
    ensures { OnOk result (out.new.items ≡ out.old.items ++ text.name_at (naming_of names.now).locals i ++ codes "[") }
{
    put_name(out, names, i)?;
    put_byte(out, b'[')
}

/// The name of the variable of this number.
pub(crate) fn put_name(out: &mut Vec<u8>, names: &Naming<'_>, i: usize) -> Result<(), Memory>
    ensures { OnOk result (out.new.items ≡ out.old.items ++ text.name_at (naming_of names.now).locals i) }
{
    match names.locals.get(i) {
        Some(local) => put(out, local.name.bytes()),
        None => put_temporary(out, names, i),
    }
}

/// The same, where the variable is none of the first ones.
fn put_temporary(out: &mut Vec<u8>, names: &Naming<'_>, i: usize) -> Result<(), Memory>
    requires { length names.now.locals.now ≤ i }
    ensures { OnOk result (out.new.items ≡ out.old.items ++ text.name_at (naming_of names.now).locals i) }
{
    if i - names.locals.len() < names.temporaries {
        return put_numbered(out, i);
    }
    Ok(())
}
