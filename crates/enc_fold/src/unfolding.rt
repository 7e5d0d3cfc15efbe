// The code of unfolding.
ghost use Rattle.std.specs.Prelude.{length, OnOk};
ghost use Rattle.viper_core.specs.View.{assertion_of, fold_of};
ghost use Rattle.enc_expr.specs.Emits.{emit_of, Emits};
ghost use Rattle.enc_expr.specs.View.{kinds_of, place_in};
ghost use Rattle.enc_fold.specs.Encoding as code;

use crate::folding::always;
use boogie_tree::BBase;
use enc_expr::{
    Emit, InstanceAmount, Reading, Source, add_all, atomic, check, check_all, fill, in_locals,
    taking,
};
use std::alloc::Global;
use vb_base::Memory;
use viper_core::{Assertion, FoldStmt};

/// Writes the code of `unfold` of an instance, whose predicate has this body. It always counts.
pub fn unfold(
    alloc: Global,
    f: &FoldStmt,
    body: &Assertion,
    reading: Reading,
    out: &mut Emit,
) -> Result<(), Memory>
    ensures { OnOk result (Emits (code.unfold_code (kinds_of reading.entry.kinds) (place_in reading.entry) (fold_of f.now) (assertion_of body.now)
        (length (emit_of out.old).locals)) (emit_of out.old) (emit_of out.new) tt) }
{
    let plain = always(reading);
    let given = check_all(alloc, &f.args, plain, out)?;
    let asked = check(alloc, &f.amount, plain, out)?;
    let args = in_locals(alloc, given, out)?;
    let amount = atomic(alloc, asked, out)?;
    let content = out.fresh_scalar(alloc, BBase::Snap)?;
    let locals = args.locals;
    let part = InstanceAmount {
        predicate: f.predicate,
        args: &locals,
        amount: amount.atom,
        at: f.place,
    };
    let mut block = args.sets;
    add_all(&mut block, amount.sets)?;
    let nothing = Vec::new(alloc);
    taking(
        alloc,
        part,
        reading.now,
        nothing,
        content,
        reading,
        &mut block,
    )?;
    out.put(alloc, None, block)?;
    let source = Source {
        content,
        scale: part.amount,
    };
    let inside = plain.in_body(f.predicate, &locals);
    fill(alloc, body, source, inside, out)
}
