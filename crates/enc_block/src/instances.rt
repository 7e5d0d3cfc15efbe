// The code of folding and unfolding in the present state.
ghost use Rattle.std.specs.Prelude.{length, OnOk};
ghost use Rattle.viper_core.specs.View.{fold_of, program_of};
ghost use Rattle.viper_meaning.specs.Contents.{body_of};
ghost use Rattle.enc_expr.specs.Emits.{emit_of, Emits};
ghost use Rattle.enc_expr.specs.View.{kinds_of};
ghost use Rattle.enc_fold.specs.Encoding.{fold_code, unfold_code};
ghost use Rattle.enc_block.specs.Encoding as code;
ghost use Rattle.enc_block.specs.Home.{place};
ghost use Rattle.enc_block.specs.View.{home_of};

use crate::homes::Setting;
use enc_expr::Emit;
use enc_fold::{body_of, fold, unfold};
use std::alloc::Global;
use vb_base::Memory;
use viper_core::{FoldStmt, Program};

/// Writes the code of `fold`. The instance of a predicate without a body cannot be folded.
pub fn fold_instance(
    alloc: Global,
    program: &Program,
    f: &FoldStmt,
    setting: Setting,
    out: &mut Emit,
) -> Result<(), Memory>
    ensures { OnOk result (Emits (code.with_body (body_of (program_of program.now) (fold_of f.now).predicate)
        (fold_code (kinds_of setting.entry.kinds) (place (home_of setting.entry.home.now) (fold_of f.now).at) (fold_of f.now))
        (length (emit_of out.old).locals)) (emit_of out.old) (emit_of out.new) tt) }
{
    match body_of(program, f.predicate) {
        Some(body) => fold(alloc, f, body, setting.reading(f.at), out),
        None => Ok(()),
    }
}

/// Writes the code of `unfold`, likewise.
pub fn unfold_instance(
    alloc: Global,
    program: &Program,
    f: &FoldStmt,
    setting: Setting,
    out: &mut Emit,
) -> Result<(), Memory>
    ensures { OnOk result (Emits (code.with_body (body_of (program_of program.now) (fold_of f.now).predicate)
        (unfold_code (kinds_of setting.entry.kinds) (place (home_of setting.entry.home.now) (fold_of f.now).at) (fold_of f.now))
        (length (emit_of out.old).locals)) (emit_of out.old) (emit_of out.new) tt) }
{
    match body_of(program, f.predicate) {
        Some(body) => unfold(alloc, f, body, setting.reading(f.at), out),
        None => Ok(()),
    }
}
