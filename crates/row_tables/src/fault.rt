// Why a row or a table cannot be run.

use std::alloc::{AllocError, AllocFailed};
use std::fmt;
use std::num::ParseIntError;
use vb_base::Memory;

/// Why a line of a table cannot be taken, or a row cannot be run.
#[derive(Clone, Copy, Debug, PartialEq, Eq)]
pub enum Fault {
    /// Memory was refused.
    Memory,
    /// The line may not stand there, or a number is none.
    Line,
    /// Two files have one name.
    Files,
}

impl fmt::Display for Fault {
    fn fmt<W: fmt::Write>(&self, f: &mut fmt::Formatter<W>) -> fmt::Result {
        f.write_str(match self {
            Fault::Memory => "there is no memory",
            Fault::Line => "this line may not stand here",
            Fault::Files => "two files have one name",
        })
    }
}

impl From<AllocError> for Fault {
    fn from(_: AllocError) -> Fault {
        Fault::Memory
    }
}

impl<T: Drop> From<AllocFailed<T>> for Fault {
    fn from(_: AllocFailed<T>) -> Fault {
        Fault::Memory
    }
}

impl From<Memory> for Fault {
    fn from(_: Memory) -> Fault {
        Fault::Memory
    }
}

impl From<ParseIntError> for Fault {
    fn from(_: ParseIntError) -> Fault {
        Fault::Line
    }
}
