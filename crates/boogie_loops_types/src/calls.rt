// The types of calls.
ghost use Rattle.std.specs.Prelude.{◌≡◌, nat_le, map, slice_get, Some};
ghost use Rattle.std.specs.List.{list_all};
ghost use Rattle.boogie_tree.specs.Whole.{expr_of, exprs_of, type_of};
ghost use Rattle.boogie_meaning.specs.Types.{is_type};
ghost use Rattle.boogie_types.specs.Typed.{types_in};
ghost use Rattle.boogie_loops.specs.Procedures.{proc_named};
ghost use Rattle.boogie_loops.specs.View.{wproc_of};
ghost use Rattle.boogie_loops.specs.WideTypes as ty;

use crate::heads::{params, returns};
use crate::marks::Marks;
use boogie_loops::{Procs, WProc};
use boogie_tree::{BExpr, BType, Local, same_base, same_bases};
use boogie_types::{base_of_expr, same_type};
use vb_base::Ident;

/// Whether an expression has this type, which is that of no map.
fn is_argument(locals: &[Local], e: &BExpr, param: &BType) -> bool
    ensures { result ≡ ty.is_argument (types_in locals.now) (expr_of e.now) (type_of param.now) }
{
    match base_of_expr(locals, e) {
        Some(base) => same_bases(&param.keys, &[]) && same_base(param.base, base),
        None => false,
    }
}

/// Whether there are as many arguments as parameters, each of its type.
fn are_arguments(locals: &[Local], es: &[BExpr], params: &[Local]) -> bool
    ensures { result ≡ ty.are_arguments (types_in locals.now) (exprs_of es.now) (types_in params.now) }
{
    let mut count = 0;
    for e in es {
        let Some(param) = params.get(count) else {
            return false;
        };
        if !is_argument(locals, e, &param.ty) {
            return false;
        }
        count += 1;
    }
    count == params.len()
}

/// Whether the variable of this number is there and has this type.
fn is_target(locals: &[Local], number: usize, wanted: &BType) -> bool
    ensures { result ≡ is_type (slice_get (types_in locals.now) number) (Some (type_of wanted.now)) }
{
    match locals.get(number) {
        Some(local) => same_type(&local.ty, wanted),
        None => false,
    }
}

/// Whether there are as many targets as returns, each of its type.
fn are_targets(locals: &[Local], targets: &[usize], returns: &[Local]) -> bool
    ensures { result ≡ ty.are_targets (types_in locals.now) targets.now (types_in returns.now) }
{
    let mut count = 0;
    for target in targets {
        let Some(local) = returns.get(count) else {
            return false;
        };
        if !is_target(locals, *target, &local.ty) {
            return false;
        }
        count += 1;
    }
    count == returns.len()
}

/// Whether none of the variables is a parameter, of which there are so many.
fn are_own(params: usize, targets: &[usize]) -> bool
    ensures { result ≡ list_all (nat_le params) targets.now }
{
    targets.iter().all(|target| params <= *target)
}

/// Whether a call of this procedure is well-typed, among variables of which so many are parameters.
fn is_call_of(
    marks: &mut Marks,
    locals: &[Local],
    own_params: usize,
    targets: &[usize],
    es: &[BExpr],
    callee: &WProc,
) -> bool
    ensures { result ≡ ty.is_call_of (types_in locals.now) own_params targets.now (exprs_of es.now) (Some (wproc_of callee.now)) }
{
    are_arguments(locals, es, params(callee))
        && are_targets(locals, targets, returns(callee))
        && are_own(own_params, targets)
        && marks.all_differ(targets)
}

/// Whether a call is well-typed, among variables of which so many are parameters.
pub(crate) fn is_call(
    procs: &Procs<'_>,
    marks: &mut Marks,
    locals: &[Local],
    own_params: usize,
    targets: &[usize],
    name: &Ident,
    es: &[BExpr],
) -> bool
    ensures { result ≡ ty.is_call_of (types_in locals.now) own_params targets.now (exprs_of es.now)
        (proc_named (map wproc_of procs.now.all.now) name.now) }
{
    match procs.named(name) {
        Some(callee) => is_call_of(marks, locals, own_params, targets, es, callee),
        None => false,
    }
}
