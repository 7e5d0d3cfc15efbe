// The types of operators.
ghost use Rattle.std.specs.Prelude.{◌≡◌};
ghost use Rattle.viper_core.specs.Typing.{value_type};

use crate::Op;
use vb_value::Ty;

impl Op {
    /// The type of the operator's value at operands of these types, or None where it does not take them.
    pub fn value_type(self, left: Ty, right: Ty) -> Option<Ty>
        ensures { result ≡ value_type self left right }
    {
        match self {
            Op::Iff | Op::Implies | Op::Or | Op::And => match (left, right) {
                (Ty::Bool, Ty::Bool) => Some(Ty::Bool),
                _ => None,
            },
            Op::Eq | Op::Ne => (left == right).then_some(Ty::Bool),
            Op::Lt | Op::Le | Op::Gt | Op::Ge => match (left, right) {
                (Ty::Int, Ty::Int) | (Ty::Perm, Ty::Perm) => Some(Ty::Bool),
                _ => None,
            },
            Op::Add | Op::Sub => match (left, right) {
                (Ty::Int, Ty::Int) | (Ty::Perm, Ty::Perm) => Some(left),
                _ => None,
            },
            Op::Mul => match (left, right) {
                (Ty::Int, Ty::Int) => Some(Ty::Int),
                (Ty::Int | Ty::Perm, Ty::Int | Ty::Perm) => Some(Ty::Perm),
                _ => None,
            },
            Op::Divide => match (left, right) {
                (Ty::Int | Ty::Perm, Ty::Int) => Some(Ty::Perm),
                _ => None,
            },
            Op::IntDiv | Op::IntMod => match (left, right) {
                (Ty::Int, Ty::Int) => Some(Ty::Int),
                _ => None,
            },
        }
    }
}
