// The code of folding.
ghost use Rattle.std.specs.Prelude.{◌≡◌, length, None, OnOk};
ghost use Rattle.viper_core.specs.View.{assertion_of, fold_of};
ghost use Rattle.boogie_tree.specs.Whole.{stmts_of};
ghost use Rattle.enc_expr.specs.Code.{join};
ghost use Rattle.enc_expr.specs.Emits.{emit_of, Emits};
ghost use Rattle.enc_expr.specs.Encoding.{fill_instance_code};
ghost use Rattle.enc_expr.specs.Pieces.{index, one_real};
ghost use Rattle.enc_expr.specs.View.{atom_of, kinds_of, place_in};
ghost use Rattle.enc_fold.specs.Encoding as code;

use crate::saving::save;
use boogie_tree::{BBase, BStmt};
use enc_assert::{Taking, consume};
use enc_expr::{
    Atom, Emit, Index, Reading, add_all, add_to, atomic, check, check_all, check_positive,
    content_of, in_locals, number, set_value,
};
use std::alloc::Global;
use vb_base::{Kind, Memory};
use viper_core::{Assertion, FoldStmt};

/// The same place, where the part always counts.
pub fn always<'a>(reading: Reading<'a>) -> Reading<'a>
    ensures kinds { kinds_of result.kinds ≡ kinds_of reading.entry.kinds }
    ensures place { place_in result ≡ place_in reading.entry }
    ensures guard { result.guard ≡ None }
{
    Reading {
        guard: None,
        ..reading
    }
}

/// So much more of an instance is held, with the content in a local. Where some of it is held, it contains just that.
fn fill_whole(
    alloc: Global,
    predicate: u32,
    args: &[usize],
    amount: Atom,
    content: usize,
    reading: Reading,
    block: &mut Vec<BStmt>,
) -> Result<(), Memory>
    ensures { OnOk result (stmts_of block.new.items ≡ join (stmts_of block.old.items)
        (fill_instance_code (place_in reading.entry) one_real predicate (index args.now) (atom_of amount) content)) }
{
    let amounts = number(&reading.now.amount, predicate);
    let contents = number(&reading.now.content, predicate);
    let index = Index::Instance(args);
    set_value(alloc, amounts, contents, index, content, block)?;
    add_to(alloc, amounts, index, Atom::Real(1), amount, block)
}

/// The body is read in the state as it was, and consumed; the instance takes what it contained.
fn close(
    alloc: Global,
    predicate: u32,
    body: &Assertion,
    args: &[usize],
    amount: Atom,
    reading: Reading,
    out: &mut Emit,
) -> Result<(), Memory>
    ensures { OnOk result (Emits (code.closing_code (kinds_of reading.entry.kinds) (place_in reading.entry) predicate (assertion_of body.now)
        args.now (atom_of amount) (length (emit_of out.old).locals)) (emit_of out.old) (emit_of out.new) tt) }
{
    let left = reading.now;
    let start = save(alloc, reading.kinds.layout, left, out)?;
    let inside = always(reading).with_now(&start).in_body(predicate, args);
    let taking = Taking {
        left,
        scale: amount,
    };
    consume(alloc, body, taking, inside, out)?;
    let content = out.fresh_scalar(alloc, BBase::Snap)?;
    let value = content_of(alloc, body, inside)?;
    let mut block = vec![in alloc; BStmt::Assign(content, value)]?;
    fill_whole(alloc, predicate, args, amount, content, reading, &mut block)?;
    out.put(alloc, None, block)
}

/// Writes the code of `fold` of an instance, whose predicate has this body. It always counts.
pub fn fold(
    alloc: Global,
    f: &FoldStmt,
    body: &Assertion,
    reading: Reading,
    out: &mut Emit,
) -> Result<(), Memory>
    ensures { OnOk result (Emits (code.fold_code (kinds_of reading.entry.kinds) (place_in reading.entry) (fold_of f.now) (assertion_of body.now)
        (length (emit_of out.old).locals)) (emit_of out.old) (emit_of out.new) tt) }
{
    let plain = always(reading);
    let given = check_all(alloc, &f.args, plain, out)?;
    let asked = check(alloc, &f.amount, plain, out)?;
    let args = in_locals(alloc, given, out)?;
    let amount = atomic(alloc, asked, out)?;
    let atom = amount.atom;
    let locals = args.locals;
    let mut block = args.sets;
    add_all(&mut block, amount.sets)?;
    let label = reading.label(f.place, Kind::Amount);
    check_positive(alloc, label, atom, &mut block)?;
    out.put(alloc, None, block)?;
    close(alloc, f.predicate, body, &locals, atom, reading, out)
}
