// The parts of a procedure's head, and conditions.
ghost use Rattle.std.specs.Prelude.{◌≡◌, ◌≤◌, ◌+◌, ◌&&◌, map, take, drop, length, nat_le};
ghost use Rattle.std.specs.List.{list_all};
ghost use Rattle.std.specs.Option.{option_map};
ghost use Rattle.boogie_tree.specs.Whole.{expr_of, type_of};
ghost use Rattle.boogie_types.specs.Typed.{types_in};
ghost use Rattle.boogie_loops.specs.Procedures.{param_types, return_types, head_types};
ghost use Rattle.boogie_loops.specs.View.{clause_of, wproc_of};
ghost use Rattle.boogie_loops.specs.WideTypes as ty;

use boogie_loops::{Clause, WProc};
use boogie_tree::{BExpr, BType, Local, same_base, same_bases};
use boogie_types::is_bool;

/// So many of the locals, or all where there are fewer.
fn first_of(locals: &[Local], many: usize) -> &[Local]
    ensures { result.now ≡ take many locals.now }
{
    if many < locals.len() {
        &locals[..many]
    } else {
        locals
    }
}

/// The locals behind so many.
fn rest_of(locals: &[Local], many: usize) -> &[Local]
    ensures { result.now ≡ drop many locals.now }
{
    if many < locals.len() {
        &locals[many..]
    } else {
        &[]
    }
}

/// The parameters of a procedure.
pub(crate) fn params(proc: &WProc) -> &[Local]
    ensures { types_in result.now ≡ param_types (wproc_of proc.now) }
{
    first_of(&proc.locals, proc.params)
}

/// The returns of a procedure.
pub(crate) fn returns(proc: &WProc) -> &[Local]
    ensures { types_in result.now ≡ return_types (wproc_of proc.now) }
{
    first_of(rest_of(&proc.locals, proc.params), proc.returns)
}

/// Whether each condition is a bool.
pub(crate) fn are_bools(locals: &[Local], clauses: &[Clause]) -> bool
    ensures { result ≡ ty.are_bools (types_in locals.now) (map clause_of clauses.now) }
{
    for clause in clauses {
        if !is_bool(locals, &clause.e) {
            return false;
        }
    }
    true
}

/// Whether the guard of a loop is a bool, where it has one.
pub(crate) fn is_guard(locals: &[Local], guard: &Option<BExpr>) -> bool
    ensures { result ≡ ty.is_guard (types_in locals.now) (option_map expr_of guard.now) }
{
    match guard {
        Some(e) => is_bool(locals, e),
        None => true,
    }
}

fn is_plain(found: &BType) -> bool
    ensures { result ≡ ty.is_plain (type_of found.now) }
{
    same_bases(&found.keys, &[]) && same_base(found.base, found.base)
}

/// Whether no local is a map.
fn are_plain(locals: &[Local]) -> bool
    ensures { result ≡ list_all ty.is_plain (types_in locals.now) }
{
    for local in locals {
        if !is_plain(&local.ty) {
            return false;
        }
    }
    true
}

/// Whether there are so many locals, and so many more.
fn has_both(len: usize, params: usize, returns: usize) -> bool
    ensures { result ≡ nat_le (params + returns) len }
{
    params <= len && returns <= len - params
}

/// The parameters and the returns of a procedure.
fn head(proc: &WProc) -> &[Local]
    requires { proc.now.params + proc.now.returns ≤ length proc.now.locals.items }
    ensures { types_in result.now ≡ head_types (wproc_of proc.now) }
{
    first_of(&proc.locals, proc.params + proc.returns)
}

/// Whether the conditions on the parameters, and those on the returns too, are bools.
fn are_conditions(proc: &WProc) -> bool
    requires { proc.now.params + proc.now.returns ≤ length proc.now.locals.items }
    ensures { result ≡ (ty.are_bools (param_types (wproc_of proc.now)) (wproc_of proc.now).preconditions
        && ty.are_bools (head_types (wproc_of proc.now)) (wproc_of proc.now).postconditions) }
{
    are_bools(params(proc), &proc.preconditions) && are_bools(head(proc), &proc.postconditions)
}

/// Whether the parameters and the returns are there and are no maps, and the conditions on them are bools.
pub(crate) fn is_head(proc: &WProc) -> bool
    ensures { result ≡ ty.is_wide_head (wproc_of proc.now) }
{
    if !has_both(proc.locals.len(), proc.params, proc.returns) {
        return false;
    }
    are_plain(head(proc)) && are_conditions(proc)
}
