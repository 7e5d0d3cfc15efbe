// The types of expressions and statements.
ghost use Rattle.std.specs.Prelude.{◌≡◌, ◌↔◌, true, false, slice_get, map, None, IsOk, IfErr};
ghost use Rattle.boogie_tree.specs.Expr as t;
ghost use Rattle.boogie_tree.specs.Whole.{expr_of, exprs_of, stmt_of, stmts_of, proc_of, program_of};
ghost use Rattle.boogie_tree.specs.declared.exprs.BBase.TheVariants as base;
ghost use Rattle.boogie_meaning.specs.Types as ty;
ghost use Rattle.boogie_meaning.specs.Types.{then_some, base_of, bases_of};
ghost use Rattle.boogie_meaning.specs.Programs.{IsTypedProgram, IsFirstIllTyped, have_keys, is_typed_proc, ill_typed_among};
ghost use Rattle.boogie_types.specs.Typed.{types_in, bound_by, choice_at, are_bases, indexed_by, some_plain};

use crate::operators::{answer, given, is_index, negated, pair, same_type};
use boogie_tree::{BBase, BExpr, BProgram, BStmt, Local, Proc, are_keys, same_base, same_bases};

/// The type of a choice between two sides of one type.
fn choice(condition: Option<BBase>, left: Option<BBase>, right: Option<BBase>) -> Option<BBase>
    ensures { result ≡ choice_at condition left right }
{
    match (condition, left) {
        (Some(BBase::Bool), Some(side)) => given(side, side, right),
        _ => None,
    }
}

/// The type of a variable that is no map.
fn plain(locals: &[Local], number: usize) -> Option<BBase>
    ensures { result ≡ then_some (slice_get (types_in locals.now) number) (λ l. ty.plain_base l.keys l.base) }
{
    let local = locals.get(number)?;
    if local.ty.keys.is_empty() {
        Some(local.ty.base)
    } else {
        None
    }
}

/// The type of the values of a map that the bound names index, inside a `forall`.
fn bound(locals: &[Local], names: Option<&[BBase]>, number: usize) -> Option<BBase>
    ensures { result ≡ base_of (types_in locals.now) (bound_by names.entry) (t.AtBound number) }
{
    let keys = names?;
    let local = locals.get(number)?;
    if !local.ty.keys.is_empty() && same_bases(keys, &local.ty.keys) {
        Some(local.ty.base)
    } else {
        None
    }
}

/// The type of an expression, if it has one: by the types of the variables and, where it is inside a `forall`, of the names
/// that this binds.
#[cycle(typing)]
fn base_of(locals: &[Local], names: Option<&[BBase]>, e: &BExpr) -> Option<BBase>
    ensures { result ≡ base_of (types_in locals.now) (bound_by names.entry) (expr_of e.now) }
{
    match e {
        BExpr::Var(number) => plain(locals, *number),
        BExpr::Int(_) => Some(BBase::Int),
        BExpr::Real(_) => Some(BBase::Real),
        BExpr::Bool(_) => Some(BBase::Bool),
        BExpr::Null => Some(BBase::Ref),
        BExpr::Unit => Some(BBase::Snap),
        BExpr::Neg(a) => negated(base_of(locals, names, a)),
        BExpr::Not(a) => given(BBase::Bool, BBase::Bool, base_of(locals, names, a)),
        BExpr::Bin(op, a, b) => answer(*op, base_of(locals, names, a), base_of(locals, names, b)),
        BExpr::If(c, a, b) => choice(
            base_of(locals, names, c),
            base_of(locals, names, a),
            base_of(locals, names, b),
        ),
        BExpr::Forall(us, a) => match names {
            None if are_keys(us) => {
                given(
                    BBase::Bool,
                    BBase::Bool,
                    base_of(locals, Some(us.as_slice()), a),
                )
            }
            _ => None,
        },
        BExpr::ToReal(a) => given(BBase::Int, BBase::Real, base_of(locals, names, a)),
        BExpr::SInt(a) => given(BBase::Int, BBase::Snap, base_of(locals, names, a)),
        BExpr::SBool(a) => given(BBase::Bool, BBase::Snap, base_of(locals, names, a)),
        BExpr::SRef(a) => given(BBase::Ref, BBase::Snap, base_of(locals, names, a)),
        BExpr::SPerm(a) => given(BBase::Real, BBase::Snap, base_of(locals, names, a)),
        BExpr::Pair(a, b) => pair(base_of(locals, names, a), base_of(locals, names, b)),
        BExpr::At(number, es) => at(locals, names, *number, es),
        BExpr::AtBound(number) => bound(locals, names, *number),
    }
}

/// The type of a map's values at indices.
#[cycle(typing)]
fn at(locals: &[Local], names: Option<&[BBase]>, number: usize, es: &[BExpr]) -> Option<BBase>
    ensures { result ≡ indexed_by (slice_get (types_in locals.now) number)
        (bases_of (types_in locals.now) (bound_by names.entry) (exprs_of es.now)) }
{
    let local = locals.get(number)?;
    if !local.ty.keys.is_empty() && are_of(locals, names, es, &local.ty.keys) {
        Some(local.ty.base)
    } else {
        None
    }
}

/// Whether indices have these types.
#[cycle(typing)]
fn are_of(locals: &[Local], names: Option<&[BBase]>, es: &[BExpr], wanted: &[BBase]) -> bool
    ensures { result ≡ are_bases (bases_of (types_in locals.now) (bound_by names.entry) (exprs_of es.now)) wanted.now }
{
    let mut count = 0;
    for e in es {
        let Some(key) = wanted.get(count) else {
            return false;
        };
        if !is_index(base_of(locals, names, e), *key) {
            return false;
        }
        count += 1;
    }
    count == wanted.len()
}

/// The type of an expression that stands under no `forall`, if it has one.
pub fn base_of_expr(locals: &[Local], e: &BExpr) -> Option<BBase>
    ensures { result ≡ base_of (types_in locals.now) None (expr_of e.now) }
{
    base_of(locals, None, e)
}

fn is_base(found: Option<BBase>, wanted: BBase) -> bool
    ensures { result ≡ ty.is_base found wanted }
{
    match found {
        Some(base) => same_base(base, wanted),
        None => false,
    }
}

/// Whether an expression is a bool, under no `forall`.
pub fn is_bool(locals: &[Local], e: &BExpr) -> bool
    ensures { result ≡ ty.is_base (base_of (types_in locals.now) None (expr_of e.now)) base.Bool }
{
    is_base(base_of(locals, None, e), BBase::Bool)
}

/// Whether the variable has the type of the other one, which may be a map.
fn is_copy(locals: &[Local], number: usize, other: usize) -> bool
    ensures { result ≡ ty.is_type (slice_get (types_in locals.now) number) (slice_get (types_in locals.now) other) }
{
    match (locals.get(number), locals.get(other)) {
        (Some(to), Some(from)) => same_type(&to.ty, &from.ty),
        _ => false,
    }
}

/// Whether the variable is no map, and has the type that is found.
fn is_plain(locals: &[Local], number: usize, found: Option<BBase>) -> bool
    ensures { result ≡ ty.is_type (slice_get (types_in locals.now) number) (some_plain found) }
{
    match locals.get(number) {
        Some(local) => match found {
            Some(base) => same_bases(&local.ty.keys, &[]) && same_base(local.ty.base, base),
            None => false,
        },
        None => false,
    }
}

/// Whether an assignment is well-typed.
pub fn is_assign(locals: &[Local], number: usize, e: &BExpr) -> bool
    ensures { result ≡ ty.is_type (slice_get (types_in locals.now) number) (ty.side_type (types_in locals.now) (expr_of e.now)) }
{
    match e {
        BExpr::Var(other) => is_copy(locals, number, *other),
        _ => is_plain(locals, number, base_of(locals, None, e)),
    }
}

/// Whether a map takes the value at the indices.
pub fn is_put(locals: &[Local], number: usize, es: &[BExpr], e: &BExpr) -> bool
    ensures { result ≡ ty.is_put (slice_get (types_in locals.now) number) (bases_of (types_in locals.now) None (exprs_of es.now))
        (base_of (types_in locals.now) None (expr_of e.now)) }
{
    match base_of(locals, None, e) {
        Some(base) => is_base(at(locals, None, number, es), base),
        None => false,
    }
}

/// Whether a statement is well-typed.
#[cycle(blocks)]
pub fn is_typed_stmt(locals: &[Local], stmt: &BStmt) -> bool
    ensures { result ≡ ty.is_typed_stmt (types_in locals.now) (stmt_of stmt.now) }
{
    match stmt {
        BStmt::Assign(number, e) => is_assign(locals, *number, e),
        BStmt::Put(number, es, e) => is_put(locals, *number, es, e),
        BStmt::Havoc(number) => *number < locals.len(),
        BStmt::Assume(e) => is_bool(locals, e),
        BStmt::Assert(_, e) => is_bool(locals, e),
        BStmt::If(e, then, other) => {
            if !is_bool(locals, e) {
                return false;
            }
            is_typed(locals, then) && is_typed(locals, other)
        }
        BStmt::Either(then, other) => is_typed(locals, then) && is_typed(locals, other),
    }
}

/// Whether each statement of a block is.
#[cycle(blocks)]
fn is_typed(locals: &[Local], stmts: &[BStmt]) -> bool
    ensures { result ≡ ty.is_typed (types_in locals.now) (stmts_of stmts.now) }
{
    for stmt in stmts {
        if !is_typed_stmt(locals, stmt) {
            return false;
        }
    }
    true
}

/// Whether each procedure of the program is well-typed, or the number, from 1 on, of the first one that is not.
pub fn check_types(program: &BProgram) -> Result<(), usize>
    ensures typed { IsOk result ↔ IsTypedProgram (program_of program.now) }
    ensures first { IfErr result (IsFirstIllTyped (program_of program.now)) }
{
    match first_ill_typed(&program.procs) {
        Some(number) => Err(number),
        None => Ok(()),
    }
}

/// Whether the types of the variables are types, and each statement is well-typed.
fn is_typed_proc(proc: &Proc) -> bool
    ensures { result ≡ is_typed_proc (proc_of proc.now) }
{
    have_keys(&proc.locals) && is_typed(&proc.locals, &proc.body)
}

/// Whether the indices of each map have types of keys.
pub fn have_keys(locals: &[Local]) -> bool
    ensures { result ≡ have_keys (types_in locals.now) }
{
    for local in locals {
        if !are_keys(&local.ty.keys) {
            return false;
        }
    }
    true
}

fn first_ill_typed(procs: &[Proc]) -> Option<usize>
    ensures { result ≡ ill_typed_among (map proc_of procs.now) }
{
    let mut number = 0;
    for proc in procs {
        number += 1;
        if !is_typed_proc(proc) {
            return Some(number);
        }
    }
    None
}
