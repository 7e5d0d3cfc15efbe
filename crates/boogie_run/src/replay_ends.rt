// How runs stop.
ghost use Rattle.boogie_run.specs.declared.replay_ends.ReplayHalt.TheVariants as halt;
ghost use Rattle.boogie_run.specs.Runs.{halted};
ghost use Rattle.std.specs.Prelude.{◌≡◌, IfOk};

use boogie_eval::Miss;
use vb_base::{Label, Memory};

/// Why a run stops.
#[derive(Clone, Copy, Debug, PartialEq, Eq)]
pub(crate) enum ReplayStop {
    Failed(Label),
    /// An `assume` is false, or a choice is of another kind or type than the step takes.
    Blocked,
    /// A choice is missing.
    Short,
    /// A number or a content leaves the bound.
    Over,
    /// An operand has the wrong type, which it has in no typed program.
    Wrong,
}

/// Why a run does not continue.
#[derive(Clone, Copy, Debug, PartialEq, Eq)]
pub(crate) enum ReplayHalt {
    /// There was no memory.
    Memory,
    Stops(ReplayStop),
}

/// Why a run stops that does not continue, unless there was no memory.
pub(crate) fn stop_of(halt: ReplayHalt) -> Result<ReplayStop, Memory>
    ensures { IfOk result (λ stop. halt ≡ ReplayHalt.Stops stop) }
{
    match halt {
        ReplayHalt::Memory => Err(Memory),
        ReplayHalt::Stops(stop) => Ok(stop),
    }
}

impl From<Memory> for ReplayHalt {
    ghost from_gives = { λ _ e. e ≡ halt.Memory };

    fn from(_: Memory) -> ReplayHalt {
        ReplayHalt::Memory
    }
}

impl From<Miss> for ReplayHalt {
    ghost from_gives = { λ m e. e ≡ halted m };

    fn from(miss: Miss) -> ReplayHalt {
        match miss {
            Miss::Memory => ReplayHalt::Memory,
            Miss::Over => ReplayHalt::Stops(ReplayStop::Over),
            Miss::Wrong => ReplayHalt::Stops(ReplayStop::Wrong),
        }
    }
}
