// The code of `new`: a reference of which nothing is known, and its fields.
ghost use Rattle.std.specs.Prelude.{◌≡◌, ◌∷◌, [], length, IfOk, OnOk};
ghost use Rattle.boogie_meaning.specs.Patterns.{avoid_code};
ghost use Rattle.boogie_tree.specs.Stmt as s;
ghost use Rattle.boogie_tree.specs.Whole.{stmt_of, stmts_of};
ghost use Rattle.boogie_tree.specs.declared.exprs.BBase.TheVariants as base;
ghost use Rattle.enc_expr.specs.Code.{join};
ghost use Rattle.enc_expr.specs.Emits.{emit_of, Emits};
ghost use Rattle.enc_expr.specs.Place.{maps_of};
ghost use Rattle.enc_expr.specs.View.{kinds_of};
ghost use Rattle.enc_block.specs.Encoding as code;
ghost use Rattle.enc_block.specs.View.{home_of};

use crate::homes::{Home, Setting};
use boogie_tree::{BBase, BExpr, BOp, BStmt};
use enc_expr::{Atom, Emit, Index, Kinds, Maps, add, at, base_for, binary, local_at, number};
use std::alloc::Global;
use vb_base::{Memory, boxed};
use vb_value::{Layout, Ty};

// ---- a reference of which nothing is known

/// It is none of these variables.
fn unnamed(
    alloc: Global,
    home: &Home,
    reference: usize,
    refs: &[u32],
    block: &mut Vec<BStmt>,
) -> Result<(), Memory>
    ensures { OnOk result (stmts_of block.new.items ≡ join (stmts_of block.old.items)
        (code.unnamed_code (home_of home.entry.now) reference refs.now)) }
{
    for variable in refs {
        let local = number(&home.vars, *variable);
        let other = binary(alloc, BOp::Ne, BExpr::Var(reference), BExpr::Var(local))?;
        add(block, BStmt::Assume(other))?;
    }
    Ok(())
}

/// Nothing is held of its fields.
fn unheld(
    alloc: Global,
    now: &Maps,
    reference: usize,
    fields: &[Ty],
    block: &mut Vec<BStmt>,
) -> Result<(), Memory>
    ensures { OnOk result (stmts_of block.new.items ≡ join (stmts_of block.old.items)
        (code.unheld_code (maps_of now.entry.now) reference fields.now 0)) }
{
    for (i, _) in fields.iter().enumerate() {
        let held = at(
            alloc,
            local_at(&now.mask, i),
            Index::Reference(Atom::Var(reference)),
        )?;
        let none = binary(alloc, BOp::Eq, held, BExpr::Real(0))?;
        add(block, BStmt::Assume(none))?;
    }
    Ok(())
}

/// Where some permission is held, the field has another value.
fn avoid(alloc: Global, held: usize, heap: usize, reference: usize) -> Result<BStmt, Memory>
    ensures { IfOk result (λ x. stmt_of x ≡ avoid_code (base.Ref ∷ []) held heap reference) }
{
    let keys = vec![in alloc; BBase::Ref]?;
    let some = binary(alloc, BOp::Ne, BExpr::AtBound(held), BExpr::Real(0))?;
    let other = binary(alloc, BOp::Ne, BExpr::AtBound(heap), BExpr::Var(reference))?;
    let avoided = binary(alloc, BOp::Implies, some, other)?;
    Ok(BStmt::Assume(BExpr::Forall(keys, boxed(alloc, avoided)?)))
}

/// A field of this type does not hold it anywhere.
fn unstored_at(
    alloc: Global,
    ty: Ty,
    now: &Maps,
    reference: usize,
    i: usize,
    block: &mut Vec<BStmt>,
) -> Result<(), Memory>
    ensures { OnOk result (stmts_of block.new.items ≡ join (stmts_of block.old.items)
        (code.unstored_at ty (maps_of now.entry.now) reference i)) }
{
    match ty {
        Ty::Ref => {
            let held = local_at(&now.mask, i);
            let heap = local_at(&now.heap, i);
            add(block, avoid(alloc, held, heap, reference)?)
        }
        Ty::Int | Ty::Bool | Ty::Perm => Ok(()),
    }
}

/// It stands nowhere where something is held.
fn unstored(
    alloc: Global,
    now: &Maps,
    reference: usize,
    fields: &[Ty],
    block: &mut Vec<BStmt>,
) -> Result<(), Memory>
    ensures { OnOk result (stmts_of block.new.items ≡ join (stmts_of block.old.items)
        (code.unstored_code (maps_of now.entry.now) reference fields.now 0)) }
{
    for (i, ty) in fields.iter().enumerate() {
        unstored_at(alloc, *ty, now, reference, i, block)?;
    }
    Ok(())
}

/// It takes any value, and then nothing is known of it.
fn fresh_reference(
    alloc: Global,
    layout: &Layout,
    home: &Home,
    reference: usize,
    refs: &[u32],
) -> Result<Vec<BStmt>, Memory>
    ensures { IfOk result (λ xs. stmts_of xs.items ≡ s.first (s.Havoc reference)
        (code.fresh_tests layout.now (home_of home.entry.now) reference refs.now)) }
{
    let set = binary(alloc, BOp::Ne, BExpr::Var(reference), BExpr::Null)?;
    let mut block = vec![in alloc; BStmt::Havoc(reference), BStmt::Assume(set)]?;
    unnamed(alloc, home, reference, refs, &mut block)?;
    unheld(alloc, &home.now, reference, &layout.fields, &mut block)?;
    unstored(alloc, &home.now, reference, &layout.fields, &mut block)?;
    Ok(block)
}

// ---- its fields

/// A field takes any value, and is held whole.
fn created_field(
    alloc: Global,
    home: &Home,
    reference: usize,
    field: u32,
    value: usize,
) -> Result<Vec<BStmt>, Memory>
    ensures { IfOk result (λ xs. stmts_of xs.items ≡ code.created_field (home_of home.entry.now) reference field value) }
{
    let index = Index::Reference(Atom::Var(reference));
    let heap = number(&home.now.heap, field);
    let mask = number(&home.now.mask, field);
    let mut block = vec![in alloc; BStmt::Havoc(value)]?;
    add(
        &mut block,
        BStmt::Put(heap, index.exprs(alloc)?, BExpr::Var(value)),
    )?;
    add(
        &mut block,
        BStmt::Put(mask, index.exprs(alloc)?, BExpr::Real(1)),
    )?;
    Ok(block)
}

/// Its fields take any values, and are held whole.
fn created(
    alloc: Global,
    kinds: Kinds,
    home: &Home,
    reference: usize,
    fields: &[u32],
    out: &mut Emit,
) -> Result<(), Memory>
    ensures { OnOk result (Emits (code.created_code (kinds_of kinds.entry).layout (home_of home.entry.now) reference fields.now
        (length (emit_of out.old).locals)) (emit_of out.old) (emit_of out.new) tt) }
{
    for field in fields {
        let value = out.fresh_scalar(alloc, base_for(kinds.field(*field)))?;
        let block = created_field(alloc, home, reference, *field, value)?;
        out.put(alloc, None, block)?;
    }
    Ok(())
}

/// Writes the code of `new`: a variable gets an object with these fields, and none of these variables names it before.
pub fn create(
    alloc: Global,
    variable: u32,
    fields: &[u32],
    refs: &[u32],
    setting: Setting,
    out: &mut Emit,
) -> Result<(), Memory>
    ensures { OnOk result (Emits (code.new_code (kinds_of setting.entry.kinds) (home_of setting.entry.home.now) variable fields.now refs.now
        (length (emit_of out.old).locals)) (emit_of out.old) (emit_of out.new) tt) }
{
    let home = setting.home;
    let kinds = setting.kinds;
    let reference = out.fresh_scalar(alloc, BBase::Ref)?;
    let tests = fresh_reference(alloc, kinds.layout, home, reference, refs)?;
    out.put(alloc, None, tests)?;
    created(alloc, kinds, home, reference, fields, out)?;
    let local = number(&home.vars, variable);
    let named = vec![in alloc; BStmt::Assign(local, BExpr::Var(reference))]?;
    out.put(alloc, None, named)
}
