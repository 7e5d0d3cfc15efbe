// The parts of a method, around its body.
ghost use Rattle.std.specs.Prelude.{length, OnOk};
ghost use Rattle.viper_core.specs.View.{assertions_of, method_of};
ghost use Rattle.enc_expr.specs.Emits.{emit_of, Emits};
ghost use Rattle.enc_expr.specs.View.{kinds_of};
ghost use Rattle.enc_block.specs.Encoding as code;
ghost use Rattle.enc_block.specs.Parts as part;
ghost use Rattle.enc_block.specs.View.{home_of};

use crate::clauses::{assert_all, produce_all};
use crate::homes::Setting;
use crate::states::{any_state, keep_old, stop};
use enc_expr::Emit;
use std::alloc::Global;
use vb_base::{Memory, Pos};
use viper_core::Method;

/// Writes the start of a method, before its body: the state that its precondition makes is the old one too.
pub fn method_start(
    alloc: Global,
    method: &Method,
    setting: Setting,
    out: &mut Emit,
) -> Result<(), Memory>
    ensures { OnOk result (Emits (part.start_code (kinds_of setting.entry.kinds) (home_of setting.entry.home.now) (method_of method.now)
        (length (emit_of out.old).locals)) (emit_of out.old) (emit_of out.new) tt) }
{
    produce_all(
        alloc,
        &method.preconditions,
        setting.reading(method.at),
        out,
    )?;
    keep_old(alloc, setting.home, out)
}

/// Writes what stands behind the body of a method, at the place where the body begins: its postcondition is asserted.
pub fn method_end(
    alloc: Global,
    method: &Method,
    turn: Pos,
    setting: Setting,
    out: &mut Emit,
) -> Result<(), Memory>
    ensures { OnOk result (Emits (code.assert_code (kinds_of setting.entry.kinds) (home_of setting.entry.home.now) turn
        (assertions_of method.now.postconditions.items) (length (emit_of out.old).locals)) (emit_of out.old) (emit_of out.new) tt) }
{
    assert_all(alloc, &method.postconditions, turn, setting, out)
}

/// Writes the check of the postcondition by itself.
pub fn method_check(
    alloc: Global,
    method: &Method,
    setting: Setting,
    out: &mut Emit,
) -> Result<(), Memory>
    ensures { OnOk result (Emits (code.check_code (kinds_of setting.entry.kinds) (home_of setting.entry.home.now) (method_of method.now)
        (length (emit_of out.old).locals)) (emit_of out.old) (emit_of out.new) tt) }
{
    any_state(alloc, setting.kinds.layout, setting.home, out)?;
    produce_all(
        alloc,
        &method.postconditions,
        setting.reading(method.name_at),
        out,
    )?;
    stop(alloc, out)
}
