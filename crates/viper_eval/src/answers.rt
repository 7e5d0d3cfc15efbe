// How evaluations end.
ghost use Rattle.viper_eval.specs.declared.answers.EvalHalt.TheVariants as halt;
ghost use Rattle.std.specs.Prelude.{◌≡◌};

use std::alloc::{AllocError, AllocFailed};
use vb_base::{Label, Memory, Pos};
use vb_value::Value;

/// How the evaluation of an expression ends.
#[derive(Clone, Copy, Debug, PartialEq, Eq)]
pub enum Evaluated {
    Is(Value),
    Fails(Label),
    /// An assumption does not hold.
    Blocked,
    /// A number left its bound, at this place.
    Over(Pos),
}

/// How it ends to produce an assertion from a content.
#[derive(Clone, Copy, Debug, PartialEq, Eq)]
pub enum Opening1 {
    Goes,
    Fails(Label),
    /// An assumption does not hold.
    Blocked,
    /// A number left its bound, at this place.
    Over(Pos),
}

/// An end without a value.
#[derive(Clone, Copy, Debug, PartialEq, Eq)]
pub enum EvalStop {
    Fails(Label),
    /// An assumption does not hold.
    Blocked,
    /// A number or a content left its bound, at this place.
    Over(Pos),
}

/// Why there is no value.
#[derive(Clone, Copy, Debug, PartialEq, Eq)]
pub enum EvalHalt {
    /// There was no memory.
    Memory,
    Stops(EvalStop),
}

impl From<EvalStop> for EvalHalt {
    ghost from_gives = { λ stop e. e ≡ halt.Stops stop };

    fn from(stop: EvalStop) -> EvalHalt {
        EvalHalt::Stops(stop)
    }
}

impl From<Memory> for EvalHalt {
    ghost from_gives = { λ _ e. e ≡ halt.Memory };

    fn from(_: Memory) -> EvalHalt {
        EvalHalt::Memory
    }
}

impl From<AllocError> for EvalHalt {
    ghost from_gives = { λ _ e. e ≡ halt.Memory };

    fn from(_: AllocError) -> EvalHalt {
        EvalHalt::Memory
    }
}

impl<T: Drop> From<AllocFailed<T>> for EvalHalt {
    ghost from_gives = { λ _ e. e ≡ halt.Memory };

    fn from(_: AllocFailed<T>) -> EvalHalt {
        EvalHalt::Memory
    }
}
