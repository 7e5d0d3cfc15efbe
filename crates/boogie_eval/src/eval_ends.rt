// How evaluations end.
ghost use Rattle.boogie_eval.specs.declared.eval_ends.Miss.TheVariants as miss;
ghost use Rattle.std.specs.Prelude.{◌≡◌};

use boogie_tree::BScalar;
use std::alloc::{AllocError, AllocFailed};
use vb_base::Memory;

/// Why there is no value.
#[derive(Clone, Copy, Debug, PartialEq, Eq)]
pub enum Miss {
    /// There was no memory.
    Memory,
    /// A number or a content leaves the bound.
    Over,
    /// An operand has the wrong type, which it has in no typed program.
    Wrong,
}

/// The value of an expression.
pub type Answer = Result<BScalar, Miss>;

impl From<Memory> for Miss {
    ghost from_gives = { λ _ e. e ≡ miss.Memory };

    fn from(_: Memory) -> Miss {
        Miss::Memory
    }
}

impl From<AllocError> for Miss {
    ghost from_gives = { λ _ e. e ≡ miss.Memory };

    fn from(_: AllocError) -> Miss {
        Miss::Memory
    }
}

impl<T: Drop> From<AllocFailed<T>> for Miss {
    ghost from_gives = { λ _ e. e ≡ miss.Memory };

    fn from(_: AllocFailed<T>) -> Miss {
        Miss::Memory
    }
}
