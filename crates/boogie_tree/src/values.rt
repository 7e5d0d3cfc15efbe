// Values, and what a run takes from outside.
ghost use Rattle.std.specs.Prelude.{◌≡◌, ◌↔◌, IfOk, IsTrue};
ghost use Rattle.std.specs.Cmp.{partial_equiv_from_equiv};
ghost use Rattle.std.specs.Ordering.{on};
ghost use Rattle.boogie_tree.specs.Equality.{same_scalar_equiv};
ghost use Rattle.boogie_tree.specs.Value.{same_scalar};
ghost use Rattle.boogie_tree.specs.Whole.{scalar_of};

use sparse::Sparse;
use std::alloc::AllocError;
use vb_value::{Content, Frac, Key};

/// A value that is no map.
#[derive(Debug, Drop)]
pub enum BScalar {
    Int(i128),
    Bool(bool),
    /// A reference; `null` is 0.
    Ref(u64),
    Real(Frac),
    Snap(Content),
}

impl BScalar {
    /// Whether the two values are equal.
    pub fn same(&self, other: &BScalar) -> bool
        ensures { result ≡ same_scalar (scalar_of self.now) (scalar_of other.now) }
    {
        match self {
            BScalar::Int(a) => match other {
                BScalar::Int(b) => *a == *b,
                _ => false,
            },
            BScalar::Bool(a) => match other {
                BScalar::Bool(b) => *a == *b,
                _ => false,
            },
            BScalar::Ref(a) => match other {
                BScalar::Ref(b) => *a == *b,
                _ => false,
            },
            BScalar::Real(a) => match other {
                BScalar::Real(b) => *a == *b,
                _ => false,
            },
            BScalar::Snap(a) => match other {
                BScalar::Snap(b) => *a == *b,
                _ => false,
            },
        }
    }
}

impl PartialEq for BScalar {
    ghost eq = { on scalar_of same_scalar };

    ghost laws = { partial_equiv_from_equiv same_scalar_equiv };

    fn eq(&self, other: &BScalar) -> bool {
        self.same(other)
    }
}

impl Eq for BScalar {
    ghost laws = { same_scalar_equiv };
}

impl Clone for BScalar {
    ghost is_clone = { λ x y. scalar_of y ≡ scalar_of x };

    fn clone(&self) -> Result<BScalar, AllocError> {
        match self {
            BScalar::Int(a) => Ok(BScalar::Int(*a)),
            BScalar::Bool(a) => Ok(BScalar::Bool(*a)),
            BScalar::Ref(a) => Ok(BScalar::Ref(*a)),
            BScalar::Real(a) => Ok(BScalar::Real(*a)),
            BScalar::Snap(a) => Ok(BScalar::Snap(a.clone()?)),
        }
    }
}

/// A value: of a base type, or a map.
#[derive(Debug, Drop)]
pub enum BValue {
    One(BScalar),
    Map(Sparse<Key, BScalar>),
}

/// The value of a map at a key. The keys of a list of entries ascend, and no value is the default of its type.
#[derive(Debug, Drop)]
pub struct Entry {
    pub key: Key,
    pub value: BScalar,
}

/// What a run takes from outside.
#[derive(Debug, Drop)]
pub enum BChoice {
    /// The branch of an `if (*)`.
    Pick(bool),
    /// The value of a variable that is no map.
    Value(BScalar),
    /// Where a map has another value than the default of its type.
    Entries(Vec<Entry>),
}

/// The value of a variable where a run begins.
#[derive(Debug, Drop)]
pub struct BSetting {
    pub var: usize,
    pub value: BValue,
}

/// A run: the values of some variables where it begins, the others have the default of their type, and the choices.
#[derive(Debug, Drop)]
pub struct BRun {
    pub settings: Vec<BSetting>,
    pub choices: Vec<BChoice>,
}
