// The text of expressions.
ghost use Rattle.std.specs.Prelude.{◌≡◌, ◌++◌, OnOk, [], drop, codes};
ghost use Rattle.boogie_formula.specs.View as f;
ghost use Rattle.boogie_grammar.specs.Printed as text;
ghost use Rattle.boogie_formula_text.specs.Printed.{fexpr_text, fexprs_text};
ghost use Rattle.boogie_formula_text.specs.View.{naming_of};

use crate::scopes::{FormulaScope, put_name};
use boogie_formula::FExpr;
use boogie_grammar::naming::bound_names;
use boogie_print::{put_binders, put_names, put_number, put_operator, put_real, truth_text};
use boogie_tree::BBase;
use std::alloc::Global;
use vb_base::{Memory, put};

/// Appends an expression.
#[cycle(expressions)]
pub(crate) fn put_expr(
    alloc: Global,
    out: &mut Vec<u8>,
    scope: &FormulaScope<'_>,
    expr: &FExpr,
) -> Result<(), Memory>
    ensures { OnOk result (out.new.items ≡ out.old.items ++ fexpr_text (naming_of scope.now) (f.fexpr_of expr.now)) }
{
    match expr {
        FExpr::Var(i) => put_name(alloc, out, scope, *i),
        FExpr::Int(n) => put_number(out, *n),
        FExpr::Real(n) => put_real(out, *n),
        FExpr::Bool(truth) => put(out, truth_text(*truth)),
        FExpr::Null => put(out, b"null"),
        FExpr::Unit => put(out, b"sUnit"),
        FExpr::Neg(a) => put_between(alloc, out, scope, b"(- ", a, b")"),
        FExpr::Not(a) => put_between(alloc, out, scope, b"(! ", a, b")"),
        FExpr::Bin(op, a, b) => {
            put_after(alloc, out, scope, b"(", a)?;
            put_operator(out, *op)?;
            put_between(alloc, out, scope, b" ", b, b")")
        }
        FExpr::If(a, b, c) => {
            put_after(alloc, out, scope, b"(if ", a)?;
            put_after(alloc, out, scope, b" then ", b)?;
            put_between(alloc, out, scope, b" else ", c, b")")
        }
        FExpr::Forall(types, a) => put_forall(alloc, out, scope, types, a),
        FExpr::ToReal(a) => put_between(alloc, out, scope, b"real(", a, b")"),
        FExpr::SInt(a) => put_between(alloc, out, scope, b"sInt(", a, b")"),
        FExpr::SBool(a) => put_between(alloc, out, scope, b"sBool(", a, b")"),
        FExpr::SRef(a) => put_between(alloc, out, scope, b"sRef(", a, b")"),
        FExpr::SPerm(a) => put_between(alloc, out, scope, b"sPerm(", a, b")"),
        FExpr::Pair(a, b) => {
            put_after(alloc, out, scope, b"sPair(", a)?;
            put_between(alloc, out, scope, b", ", b, b")")
        }
        FExpr::At(i, keys) => {
            put_map(alloc, out, scope, *i)?;
            put_exprs(alloc, out, scope, keys)?;
            put(out, b"]")
        }
        FExpr::AtBound(i) => put_at_bound(alloc, out, scope, *i),
        FExpr::With(map, keys, value) => {
            put_between(alloc, out, scope, b"", map, b"[")?;
            put_exprs(alloc, out, scope, keys)?;
            put_between(alloc, out, scope, b" := ", value, b"]")
        }
    }
}

/// These bytes, and then an expression.
#[cycle(expressions)]
fn put_after(
    alloc: Global,
    out: &mut Vec<u8>,
    scope: &FormulaScope<'_>,
    front: &[u8],
    a: &FExpr,
) -> Result<(), Memory>
    ensures { OnOk result (out.new.items ≡ out.old.items ++ front.now ++ fexpr_text (naming_of scope.now) (f.fexpr_of a.now)) }
{
    put(out, front)?;
    put_expr(alloc, out, scope, a)
}

/// An expression between these bytes and those.
#[cycle(expressions)]
pub(crate) fn put_between(
    alloc: Global,
    out: &mut Vec<u8>,
    scope: &FormulaScope<'_>,
    front: &[u8],
    a: &FExpr,
    behind: &[u8],
) -> Result<(), Memory>
    ensures { OnOk result (out.new.items ≡ out.old.items ++ front.now ++ fexpr_text (naming_of scope.now) (f.fexpr_of a.now) ++ behind.now) }
{
    put(out, front)?;
    put_expr(alloc, out, scope, a)?;
    put(out, behind)
}

#[cycle(expressions)]
fn put_forall(
    alloc: Global,
    out: &mut Vec<u8>,
    scope: &FormulaScope<'_>,
    types: &[BBase],
    body: &FExpr,
) -> Result<(), Memory>
    ensures { OnOk result (out.new.items ≡ out.old.items ++ codes "(forall " ++ text.binders_text [] (text.bound_names [] [] types.now) types.now ++
        codes " :: " ++ fexpr_text (text.under (naming_of scope.now) types.now) (f.fexpr_of body.now) ++ codes ")") }
{
    let bound = bound_names(alloc, &[], types)?;
    put(out, b"(forall ")?;
    put_binders(out, &bound, types)?;
    put(out, b" :: ")?;
    let inner = FormulaScope {
        bound: &bound,
        ..*scope
    };
    put_expr(alloc, out, &inner, body)?;
    put(out, b")")
}

/// Expressions with `, ` between them.
#[cycle(expressions)]
fn put_exprs(
    alloc: Global,
    out: &mut Vec<u8>,
    scope: &FormulaScope<'_>,
    exprs: &[FExpr],
) -> Result<(), Memory>
    ensures { OnOk result (out.new.items ≡ out.old.items ++ fexprs_text (naming_of scope.now) [] (f.fexprs_of exprs.now)) }
{
    let mut before: &[u8] = b"";
    for expr in exprs {
        put_after(alloc, out, scope, before, expr)?;
        before = b", ";
    }
    Ok(())
}

fn put_at_bound(
    alloc: Global,
    out: &mut Vec<u8>,
    scope: &FormulaScope<'_>,
    map: usize,
) -> Result<(), Memory>
    ensures { OnOk result (out.new.items ≡ out.old.items ++ text.name_at (naming_of scope.now).locals map ++ codes "[" ++
        text.names_text [] scope.now.bound.now ++ codes "]") }
{
    put_map(alloc, out, scope, map)?;
    put_names(out, scope.bound)?;
    put(out, b"]")
}

/// The name of the map of this number, and `[`.
fn put_map(
    alloc: Global,
    out: &mut Vec<u8>,
    scope: &FormulaScope<'_>,
    i: usize,
) -> Result<(), Memory>
    ensures { OnOk result (out.new.items ≡ out.old.items ++ text.name_at (naming_of scope.now).locals i ++ codes "[") }
{
    put_name(alloc, out, scope, i)?;
    put(out, b"[")
}
