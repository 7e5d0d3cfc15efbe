// The types that operators take and give.
ghost use Rattle.std.specs.Prelude.{◌≡◌};
ghost use Rattle.boogie_tree.specs.Values.{same_type};
ghost use Rattle.boogie_tree.specs.Whole.{type_of};
ghost use Rattle.boogie_meaning.specs.Types as ty;
ghost use Rattle.boogie_meaning.specs.Types.{then_some};
ghost use Rattle.boogie_types.specs.Typed.{answer_at, pair_at, is_index};

use boogie_tree::{BBase, BOp, BType, is_key, same_base, same_bases};

/// The type `then`, where the operand has the type that is wanted.
pub fn given(wanted: BBase, then: BBase, operand: Option<BBase>) -> Option<BBase>
    ensures { result ≡ then_some operand (ty.given wanted then) }
{
    match operand {
        Some(found) if same_base(found, wanted) => Some(then),
        _ => None,
    }
}

/// Negation is of ints and reals.
pub fn negated(operand: Option<BBase>) -> Option<BBase>
    ensures { result ≡ then_some operand ty.negated }
{
    match operand {
        Some(BBase::Int) => Some(BBase::Int),
        Some(BBase::Real) => Some(BBase::Real),
        _ => None,
    }
}

/// The type of an operator's value, where it takes two operands of this type.
fn answer_of(op: BOp, operand: BBase) -> Option<BBase>
    ensures { result ≡ ty.answer_of op operand }
{
    match op {
        BOp::Iff | BOp::Implies | BOp::Or | BOp::And => match operand {
            BBase::Bool => Some(BBase::Bool),
            _ => None,
        },
        BOp::Eq | BOp::Ne => Some(BBase::Bool),
        BOp::Lt | BOp::Le | BOp::Gt | BOp::Ge => match operand {
            BBase::Int | BBase::Real => Some(BBase::Bool),
            _ => None,
        },
        BOp::Add | BOp::Sub | BOp::Mul => match operand {
            BBase::Int => Some(BBase::Int),
            BBase::Real => Some(BBase::Real),
            _ => None,
        },
        BOp::Divide => match operand {
            BBase::Real => Some(BBase::Real),
            _ => None,
        },
        BOp::IntDiv | BOp::IntMod => match operand {
            BBase::Int => Some(BBase::Int),
            _ => None,
        },
    }
}

/// The type of an operator's value at two operands.
pub fn answer(op: BOp, left: Option<BBase>, right: Option<BBase>) -> Option<BBase>
    ensures { result ≡ answer_at op left right }
{
    match (left, right) {
        (Some(left), Some(right)) if same_base(right, left) => answer_of(op, left),
        _ => None,
    }
}

/// The type of a pair of contents.
pub fn pair(left: Option<BBase>, right: Option<BBase>) -> Option<BBase>
    ensures { result ≡ pair_at left right }
{
    match left {
        Some(BBase::Snap) => given(BBase::Snap, BBase::Snap, right),
        _ => None,
    }
}

/// Whether an index has this type, which is a key type.
pub fn is_index(found: Option<BBase>, key: BBase) -> bool
    ensures { result ≡ is_index found key }
{
    match found {
        Some(base) => same_base(base, key) && is_key(base),
        None => false,
    }
}

/// Whether two types are the same.
pub fn same_type(a: &BType, b: &BType) -> bool
    ensures { result ≡ same_type (type_of a.now) (type_of b.now) }
{
    same_bases(&a.keys, &b.keys) && same_base(a.base, b.base)
}
