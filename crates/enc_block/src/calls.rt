// The code of calls.
ghost use Rattle.std.specs.Prelude.{◌≡◌, ◌+◌, ◌++◌, length, map, take, None, IfOk, OnOk};
ghost use Rattle.viper_core.specs.View.{exprs_of, method_of};
ghost use Rattle.enc_expr.specs.Emits.{emit_of, Emits};
ghost use Rattle.enc_expr.specs.Place.{maps_of, number};
ghost use Rattle.enc_expr.specs.View.{all_seen, kinds_of, place_in, seen};
ghost use Rattle.enc_block.specs.Encoding as code;
ghost use Rattle.enc_block.specs.Fixed.{Fixes};
ghost use Rattle.enc_block.specs.View.{home_of};

use crate::clauses::{consume_all, produce_all};
use crate::homes::{Home, Setting};
use crate::states::havoc;
use boogie_tree::BStmt;
use enc_assert::forget;
use enc_expr::{Emit, Kinds, Maps, Operand, Reading, add, check_all, number};
use enc_fold::copy;
use enc_locals::{first_of, formals};
use std::alloc::Global;
use vb_base::{Memory, Pos};
use viper_core::{Expr, Method};

/// The method that is called, and the variables that get what it returns.
#[derive(Clone, Copy)]
pub struct Calling<'a> {
    pub targets: &'a [u32],
    pub callee: &'a Method,
}

// ---- arguments

/// A value gets a new local.
fn fix_one(alloc: Global, value: Operand, out: &mut Emit) -> Result<usize, Memory>
    ensures { IfOk result (λ i. Fixes (seen value) (emit_of out.old) (emit_of out.new) i) }
{
    let local = out.fresh_scalar(alloc, value.base)?;
    let block = vec![in alloc; BStmt::Assign(local, Box::into_inner(value.expr))]?;
    out.put(alloc, None, block)?;
    Ok(local)
}

/// Each value gets a new local: a target may stand among the arguments.
fn fix(alloc: Global, values: Vec<Operand>, out: &mut Emit) -> Result<Vec<usize>, Memory>
    ensures { IfOk result (λ ns. Emits (code.fixed (all_seen values.items) (length (emit_of out.old).locals))
        (emit_of out.old) (emit_of out.new) ns.items) }
{
    let mut locals = Vec::new(alloc);
    for value in values {
        let local = fix_one(alloc, value, out)?;
        add(&mut locals, local)?;
    }
    Ok(locals)
}

/// The locals of variables, behind others.
fn add_targets(home: &Home, targets: &[u32], locals: &mut Vec<usize>) -> Result<(), Memory>
    ensures { OnOk result (locals.new.items ≡ locals.old.items ++ map (number (home_of home.entry.now).vars) targets.now) }
{
    for target in targets {
        add(locals, number(&home.vars, *target))?;
    }
    Ok(())
}

// ---- clauses

/// The precondition is read in the state before the call, and taken from the present one.
fn take_precondition(
    alloc: Global,
    step: Pos,
    callee: &Method,
    given: &[usize],
    before: &Maps,
    setting: Setting,
    out: &mut Emit,
) -> Result<(), Memory>
    ensures { OnOk result (Emits (code.consume_all_code
        (record { vars = take (method_of callee.now).params (method_of callee.now).vars; layout = (kinds_of setting.entry.kinds).layout })
        (record { vars = given.now; now = maps_of before.entry.now; old = (home_of setting.entry.home.now).old; at = step })
        (home_of setting.entry.home.now).now (method_of callee.now).preconditions (length (emit_of out.old).locals))
        (emit_of out.old) (emit_of out.new) tt) }
{
    let home = setting.home;
    let kinds = Kinds {
        vars: first_of(&callee.vars, callee.params as usize),
        layout: setting.kinds.layout,
    };
    let reading = Reading {
        kinds,
        vars: given,
        now: before,
        old: &home.old,
        at: step,
        guard: None,
    };
    consume_all(alloc, &callee.preconditions, &home.now, reading, out)
}

/// The postcondition is produced. Its `old` is the state before the call.
fn give_postcondition(
    alloc: Global,
    step: Pos,
    callee: &Method,
    locals: &[usize],
    before: &Maps,
    setting: Setting,
    out: &mut Emit,
) -> Result<(), Memory>
    ensures { OnOk result (Emits (code.produce_all_code
        (record { vars = take ((method_of callee.now).params + (method_of callee.now).returns) (method_of callee.now).vars; layout = (kinds_of setting.entry.kinds).layout })
        (record { vars = locals.now; now = (home_of setting.entry.home.now).now; old = maps_of before.entry.now; at = step })
        (method_of callee.now).postconditions (length (emit_of out.old).locals)) (emit_of out.old) (emit_of out.new) tt) }
{
    let home = setting.home;
    let kinds = Kinds {
        vars: first_of(&callee.vars, formals(callee)),
        layout: setting.kinds.layout,
    };
    let reading = Reading {
        kinds,
        vars: locals,
        now: &home.now,
        old: before,
        at: step,
        guard: None,
    };
    produce_all(alloc, &callee.postconditions, reading, out)
}

/// The call, once its arguments and the state before it have locals of their own.
fn called(
    alloc: Global,
    step: Pos,
    calling: Calling,
    mut locals: Vec<usize>,
    before: &Maps,
    setting: Setting,
    out: &mut Emit,
) -> Result<(), Memory>
    ensures { OnOk result (Emits (code.called_code (kinds_of setting.entry.kinds).layout (home_of setting.entry.home.now) step calling.entry.targets.now
        (method_of calling.entry.callee.now) locals.items (maps_of before.entry.now) (length (emit_of out.old).locals)) (emit_of out.old) (emit_of out.new) tt) }
{
    let home = setting.home;
    let callee = calling.callee;
    take_precondition(alloc, step, callee, &locals, before, setting, out)?;
    forget(alloc, setting.kinds.layout, &home.now, out)?;
    havoc(alloc, home, calling.targets, out)?;
    add_targets(home, calling.targets, &mut locals)?;
    give_postcondition(alloc, step, callee, &locals, before, setting, out)
}

/// Writes the code of a call of a method.
pub fn call(
    alloc: Global,
    step: Pos,
    calling: Calling,
    args: &[Expr],
    setting: Setting,
    out: &mut Emit,
) -> Result<(), Memory>
    ensures { OnOk result (Emits (code.call_code (kinds_of setting.entry.kinds) (home_of setting.entry.home.now) step calling.entry.targets.now
        (method_of calling.entry.callee.now) (exprs_of args.now) (length (emit_of out.old).locals)) (emit_of out.old) (emit_of out.new) tt) }
{
    let home = setting.home;
    let values = check_all(alloc, args, setting.reading(step), out)?;
    let given = fix(alloc, values, out)?;
    let before = copy(alloc, setting.kinds.layout, &home.now, out)?;
    called(alloc, step, calling, given, &before, setting, out)
}
