// Why a certificate is not accepted.
use std::alloc::{AllocError, AllocFailed};
use vb_base::Memory;

/// Why a line of a certificate is refused.
#[derive(Clone, Copy, Debug, PartialEq, Eq)]
pub enum LineRefusal {
    /// The first line names another procedure.
    Header,
    /// The last line has no end.
    Ending,
    /// No line begins with this word.
    Word,
    /// A word that has to be a number is none, or is too large.
    Number,
    /// There are too many or too few numbers.
    Count,
    /// There is no such name, step or definition.
    Name,
    /// A part has another type than is needed.
    Type,
    /// A definition is something else, or is told already.
    Definition,
    /// A term has another operator or other parts than the reason needs.
    Shape,
    /// The reason has no such case.
    Case,
    /// The sum is no contradiction.
    Sum,
    /// A sum leaves the numbers of 128 bits.
    Large,
    /// A step leaves two literals or more.
    Hint,
    /// The steps do not contradict.
    Open,
    /// A clause has too many literals, a map too many keys, or a `forall` too many parts.
    Long,
    /// An assertion is not shown to hold.
    Missing,
}

/// Why a line is not taken: there is no memory, or it is refused.
#[derive(Clone, Copy, Debug, PartialEq, Eq)]
pub enum LineFault {
    Memory,
    Refused(LineRefusal),
}

impl From<AllocError> for LineFault {
    fn from(_: AllocError) -> LineFault {
        LineFault::Memory
    }
}

impl<T: Drop> From<AllocFailed<T>> for LineFault {
    fn from(_: AllocFailed<T>) -> LineFault {
        LineFault::Memory
    }
}

impl From<Memory> for LineFault {
    fn from(_: Memory) -> LineFault {
        LineFault::Memory
    }
}
