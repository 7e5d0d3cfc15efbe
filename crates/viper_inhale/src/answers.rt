// How the steps of a run end.
ghost use Rattle.std.specs.Prelude.{◌≡◌};
ghost use Rattle.viper_inhale.specs.Answers.{run_stop, run_halt};
ghost use Rattle.viper_inhale.specs.declared.answers.StepHalt.TheVariants as halt;

use std::alloc::{AllocError, AllocFailed};
use vb_base::{Label, Memory, Pos};

/// How a step of a run ends.
#[derive(Clone, Copy, Debug, PartialEq, Eq)]
pub enum Step {
    Goes,
    Fails(Label),
    /// An assumption does not hold, or a choice is not of the kind that the step needs.
    Blocked,
    /// A choice is missing.
    Short,
    /// A number or a content left its bound, at this place.
    Over(Pos),
}

/// An end of a step after which nothing continues.
#[derive(Clone, Copy, Debug, PartialEq, Eq)]
pub enum StepStop {
    Fails(Label),
    /// An assumption does not hold, or a choice is not of the kind that the step needs.
    Blocked,
    /// A choice is missing.
    Short,
    /// A number or a content left its bound, at this place.
    Over(Pos),
}

/// Why a step does not continue.
#[derive(Clone, Copy, Debug, PartialEq, Eq)]
pub enum StepHalt {
    /// There was no memory.
    Memory,
    Stops(StepStop),
}

impl From<viper_eval::EvalStop> for StepStop {
    ghost from_gives = { λ stop e. e ≡ run_stop stop };

    fn from(stop: viper_eval::EvalStop) -> StepStop {
        match stop {
            viper_eval::EvalStop::Fails(label) => StepStop::Fails(label),
            viper_eval::EvalStop::Blocked => StepStop::Blocked,
            viper_eval::EvalStop::Over(at) => StepStop::Over(at),
        }
    }
}

impl From<viper_eval::EvalStop> for StepHalt {
    ghost from_gives = { λ stop e. e ≡ halt.Stops (run_stop stop) };

    fn from(stop: viper_eval::EvalStop) -> StepHalt {
        StepHalt::Stops(stop.into())
    }
}

impl From<viper_eval::EvalHalt> for StepHalt {
    ghost from_gives = { λ stop e. e ≡ run_halt stop };

    fn from(halt: viper_eval::EvalHalt) -> StepHalt {
        match halt {
            viper_eval::EvalHalt::Memory => StepHalt::Memory,
            viper_eval::EvalHalt::Stops(stop) => StepHalt::Stops(stop.into()),
        }
    }
}

impl From<Memory> for StepHalt {
    ghost from_gives = { λ _ e. e ≡ halt.Memory };

    fn from(_: Memory) -> StepHalt {
        StepHalt::Memory
    }
}

impl From<AllocError> for StepHalt {
    ghost from_gives = { λ _ e. e ≡ halt.Memory };

    fn from(_: AllocError) -> StepHalt {
        StepHalt::Memory
    }
}

impl<T: Drop> From<AllocFailed<T>> for StepHalt {
    ghost from_gives = { λ _ e. e ≡ halt.Memory };

    fn from(_: AllocFailed<T>) -> StepHalt {
        StepHalt::Memory
    }
}
