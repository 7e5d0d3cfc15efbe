// What an accessibility predicate speaks of, once its parts are read.
ghost use Rattle.std.specs.Prelude.{◌≡◌, length, IfOk};
ghost use Rattle.viper_core.specs.View.{expr_of, exprs_of, amt_of};
ghost use Rattle.enc_expr.specs.Emits.{emit_of, Emits};
ghost use Rattle.enc_expr.specs.Place.{maps_of};
ghost use Rattle.enc_expr.specs.View.{index_in, kinds_of, place_in};
ghost use Rattle.enc_assert.specs.Access.{place_access, part_access, target_of, access_of};
ghost use Rattle.enc_assert.specs.Target as t;

use boogie_tree::BStmt;
use enc_expr::{
    Atom, Emit, Index, Maps, Operand, Reading, atomic, check, check_all, check_amount, in_locals,
    number,
};
use std::alloc::Global;
use vb_base::Memory;
use viper_core::{Amt, Expr};

/// What an accessibility predicate speaks of.
#[derive(Drop)]
pub(crate) enum AccessTarget {
    /// The field of a reference.
    Field(u32, Atom),
    /// The instance of a predicate whose arguments these locals hold.
    Instance(u32, Vec<usize>),
}

impl AccessTarget {
    /// The local of its mask or amounts.
    pub(crate) fn held_in(&self, maps: &Maps) -> usize
        ensures { result ≡ t.held_in (maps_of maps.now) (target_of self.now) }
    {
        match self {
            AccessTarget::Field(field, _) => number(&maps.mask, *field),
            AccessTarget::Instance(predicate, _) => number(&maps.amount, *predicate),
        }
    }

    /// Its index there.
    pub(crate) fn index(&self) -> Index
        ensures { index_in result ≡ t.key_of (target_of self.now) }
    {
        match self {
            AccessTarget::Field(_, receiver) => Index::Reference(*receiver),
            AccessTarget::Instance(_, locals) => Index::Instance(locals),
        }
    }
}

/// An accessibility predicate whose parts are read.
#[derive(Drop)]
pub(crate) struct Access {
    pub amount: Operand,
    pub target: AccessTarget,
    /// The statements that set what the target names.
    pub sets: Vec<BStmt>,
}

/// Of a place: the receiver is an atom.
pub(crate) fn read_place(
    alloc: Global,
    field: u32,
    e: &Expr,
    amount: &Amt,
    reading: Reading,
    out: &mut Emit,
) -> Result<Access, Memory>
    ensures { IfOk result (λ x. Emits (place_access (kinds_of reading.entry.kinds) (place_in reading.entry) reading.entry.guard
        field (expr_of e.now) (amt_of amount.now) (length (emit_of out.old).locals)) (emit_of out.old) (emit_of out.new) (access_of x)) }
{
    let receiver = check(alloc, e, reading, out)?;
    let amount = check_amount(alloc, amount, reading, out)?;
    let receiver = atomic(alloc, receiver, out)?;
    Ok(Access {
        amount,
        target: AccessTarget::Field(field, receiver.atom),
        sets: receiver.sets,
    })
}

/// Of an instance: its arguments are in locals.
pub(crate) fn read_part(
    alloc: Global,
    predicate: u32,
    args: &[Expr],
    amount: &Amt,
    reading: Reading,
    out: &mut Emit,
) -> Result<Access, Memory>
    ensures { IfOk result (λ x. Emits (part_access (kinds_of reading.entry.kinds) (place_in reading.entry) reading.entry.guard
        predicate (exprs_of args.now) (amt_of amount.now) (length (emit_of out.old).locals)) (emit_of out.old) (emit_of out.new) (access_of x)) }
{
    let args = check_all(alloc, args, reading, out)?;
    let amount = check_amount(alloc, amount, reading, out)?;
    let args = in_locals(alloc, args, out)?;
    Ok(Access {
        amount,
        target: AccessTarget::Instance(predicate, args.locals),
        sets: args.sets,
    })
}
