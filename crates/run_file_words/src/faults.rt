// Why no run was read.
ghost use Rattle.std.specs.Prelude.{◌≡◌};
ghost use Rattle.run_file_words.specs.declared.faults.RunFileFault.TheVariants.{Memory as NoMemory};

use vb_base::{Memory, Pos};

/// Why no run was read.
#[derive(Clone, Copy, Debug, PartialEq, Eq)]
pub enum RunFileFault {
    /// Memory was refused.
    Memory,
    /// The first line that may not stand where it does, in column 1.
    Syntax(Pos),
}

impl From<Memory> for RunFileFault {
    ghost from_gives = { λ _ e. e ≡ NoMemory };

    fn from(_: Memory) -> RunFileFault {
        RunFileFault::Memory
    }
}
