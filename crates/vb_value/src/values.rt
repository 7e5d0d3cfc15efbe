//! Types and values.

ghost use Rattle.std.specs.Prelude.{◌≡◌};
ghost use Rattle.vb_value.specs.Value.{type_of, default_of};

use crate::fractions::Frac;
use std::marker::Model;

/// The types of values.
#[derive(Clone, Copy, Debug, PartialEq, Eq)]
pub enum Ty {
    Int,
    Bool,
    Ref,
    Perm,
}

/// A whole number, a truth value, a reference or a fraction. The reference null is 0.
#[derive(Clone, Copy, Debug, PartialEq, Eq)]
pub enum Value {
    Int(i128),
    Bool(bool),
    Ref(u64),
    Perm(Frac),
}

impl Value {
    /// The type of the value.
    pub fn ty(&self) -> Ty
        ensures { result ≡ type_of self.now }
    {
        match self {
            Value::Int(_) => Ty::Int,
            Value::Bool(_) => Ty::Bool,
            Value::Ref(_) => Ty::Ref,
            Value::Perm(_) => Ty::Perm,
        }
    }

    /// The value of a place or variable that was never given one: 0, false, null or none.
    pub fn default_of(ty: Ty) -> Value
        ensures { result ≡ default_of ty }
    {
        match ty {
            Ty::Int => Value::Int(0),
            Ty::Bool => Value::Bool(false),
            Ty::Ref => Value::Ref(0),
            Ty::Perm => Value::Perm(Frac::none()),
        }
    }
}

/// What a state has places for, seen as lists: the types of the fields, and of the arguments of each
/// predicate.
#[derive(Debug, Drop)]
pub struct Layout {
    pub fields: Vec<Ty>,
    pub keys: Vec<Vec<Ty>>,
}

impl Model for Layout {
    ghost use Rattle.std.specs.Prelude.{map};
    ghost use Rattle.vb_value.specs.Layout.{Layout as Plain};

    ghost Value = { Plain };

    ghost view = { λ l. record { fields = l.fields.items; keys = map (λ v. v.items) l.keys.items } };
}
