// Expressions that have the values of operands, and those that may be written twice.
ghost use Rattle.std.specs.Prelude.{◌≡◌, length, true, false, IfOk, OnOk, MatchOption};
ghost use Rattle.boogie_tree.specs.Expr as t;
ghost use Rattle.boogie_tree.specs.Whole.{expr_of};
ghost use Rattle.boogie_tree.specs.declared.exprs.BBase.TheVariants as base;
ghost use Rattle.enc_expr.specs.Emits.{emit_of, Emits, Locates};
ghost use Rattle.enc_expr.specs.Pieces as piece;
ghost use Rattle.enc_expr.specs.View.{seen, all_seen, atom_of, held_of, located_of};

use crate::blocks::add;
use crate::emits::Emit;
use boogie_tree::{BBase, BExpr, BStmt};
use std::alloc::Global;
use vb_base::{Memory, boxed};
use vb_value::Frac;

/// An expression of Boogie that has the value of one of Viper, and its type.
#[derive(Drop)]
pub struct Operand {
    pub expr: Box<BExpr>,
    pub base: BBase,
}

impl Operand {
    /// An expression and its type.
    pub fn of(alloc: Global, expr: BExpr, base: BBase) -> Result<Operand, Memory>
        ensures { IfOk result (λ x. seen x ≡ record { expr = expr_of expr; base = base }) }
    {
        let expr = boxed(alloc, expr)?;
        Ok(Operand { expr, base })
    }
}

/// A number as an operand.
pub(crate) fn int_operand(alloc: Global, number: &i128) -> Result<Operand, Memory>
    ensures { IfOk result (λ x. seen x ≡ record { expr = t.Int number.now; base = base.Int }) }
{
    Operand::of(alloc, BExpr::Int(*number), BBase::Int)
}

/// A permission literal, which is a whole number, as an operand.
pub(crate) fn part_operand(alloc: Global, part: &Frac) -> Result<Operand, Memory>
    ensures { IfOk result (λ x. seen x ≡ record { expr = t.Real part.now.num; base = base.Real }) }
{
    let number = Frac::num(*part);
    Operand::of(alloc, BExpr::Real(number), BBase::Real)
}

/// A variable or literal, which may be written twice.
#[derive(Clone, Copy)]
pub enum Atom {
    Var(usize),
    Int(i128),
    Real(i128),
    Bool(bool),
    Null,
}

impl Atom {
    /// The expression, where it is a variable or literal.
    pub fn of(expr: &BExpr) -> Option<Atom>
        ensures { MatchOption result (piece.is_atom (expr_of expr.now) ≡ false)
            (λ a. (piece.is_atom (expr_of expr.now) ≡ true) × (atom_of a ≡ expr_of expr.now)) }
    {
        match expr {
            BExpr::Var(i) => Some(Atom::Var(*i)),
            BExpr::Int(n) => Some(Atom::Int(*n)),
            BExpr::Real(n) => Some(Atom::Real(*n)),
            BExpr::Bool(b) => Some(Atom::Bool(*b)),
            BExpr::Null => Some(Atom::Null),
            _ => None,
        }
    }

    /// It as an expression.
    pub fn expr(self) -> BExpr
        ensures { expr_of result ≡ atom_of self }
    {
        match self {
            Atom::Var(i) => BExpr::Var(i),
            Atom::Int(n) => BExpr::Int(n),
            Atom::Real(n) => BExpr::Real(n),
            Atom::Bool(b) => BExpr::Bool(b),
            Atom::Null => BExpr::Null,
        }
    }

    /// Whether it is the real literal 1.
    pub fn is_one(self) -> bool
        ensures { result ≡ piece.is_one (atom_of self) }
    {
        match self {
            Atom::Real(n) => n == 1,
            _ => false,
        }
    }

    /// Whether it is a real literal, which is not negative.
    pub(crate) fn is_amount(self) -> bool
        ensures { result ≡ piece.is_amount_literal (atom_of self) }
    {
        match self {
            Atom::Real(n) => n >= 0,
            _ => false,
        }
    }

    /// Whether it is an int literal other than 0.
    pub(crate) fn is_divisor(self) -> bool
        ensures { result ≡ piece.is_divisor_literal (atom_of self) }
    {
        match self {
            Atom::Int(n) => n != 0,
            _ => false,
        }
    }
}

/// An atom, and the statement that sets it where it is a new local.
#[derive(Drop)]
pub struct HeldAtom {
    pub atom: Atom,
    pub sets: Vec<BStmt>,
}

/// The operand itself where it is an atom, and else a new local, which the statement sets.
pub fn atomic(alloc: Global, x: Operand, out: &mut Emit) -> Result<HeldAtom, Memory>
    ensures { IfOk result (λ a. Emits (piece.atomic (seen x) (length (emit_of out.old).locals))
        (emit_of out.old) (emit_of out.new) (held_of a)) }
{
    if let Some(atom) = Atom::of(&x.expr) {
        return Ok(HeldAtom {
            atom,
            sets: Vec::new(alloc),
        });
    }
    in_local(alloc, x, out)
}

fn in_local(alloc: Global, x: Operand, out: &mut Emit) -> Result<HeldAtom, Memory>
    ensures { IfOk result (λ a. Emits (piece.in_local (seen x) (length (emit_of out.old).locals))
        (emit_of out.old) (emit_of out.new) (held_of a)) }
{
    let local = out.fresh_scalar(alloc, x.base)?;
    let sets = vec![in alloc; BStmt::Assign(local, Box::into_inner(x.expr))]?;
    Ok(HeldAtom {
        atom: Atom::Var(local),
        sets,
    })
}

/// Locals that hold operands, and the statements that set those that are new.
#[derive(Drop)]
pub struct Located {
    pub locals: Vec<usize>,
    pub sets: Vec<BStmt>,
}

impl Located {
    /// One more operand, in a local: its own where it is a variable.
    fn locate(&mut self, alloc: Global, x: Operand, out: &mut Emit) -> Result<(), Memory>
        ensures { OnOk result (Locates (seen x) (seen x).expr (emit_of out.old) (emit_of out.new)
            (located_of self.old) (located_of self.new)) }
    {
        if let Some(local) = variable_in(&x.expr) {
            return add(&mut self.locals, local);
        }
        let local = out.fresh_scalar(alloc, x.base)?;
        let set = BStmt::Assign(local, Box::into_inner(x.expr));
        add(&mut self.sets, set)?;
        add(&mut self.locals, local)
    }
}

fn variable_in(expr: &BExpr) -> Option<usize>
    ensures { result ≡ piece.variable_in (expr_of expr.now) }
{
    match expr {
        BExpr::Var(i) => Some(*i),
        _ => None,
    }
}

/// Locals that hold the operands. A literal gets one too.
pub fn in_locals(alloc: Global, xs: Vec<Operand>, out: &mut Emit) -> Result<Located, Memory>
    ensures { IfOk result (λ l. Emits (piece.located (all_seen xs.items) (length (emit_of out.old).locals))
        (emit_of out.old) (emit_of out.new) (located_of l)) }
{
    let mut located = Located {
        locals: Vec::new(alloc),
        sets: Vec::new(alloc),
    };
    for x in xs {
        located.locate(alloc, x, out)?;
    }
    Ok(located)
}
