// Why a search ends without a certificate.
use crate::names::StepId;
use std::alloc::{AllocError, AllocFailed};

/// Why a search ends without a certificate.
#[derive(Clone, Copy, PartialEq, Eq)]
pub enum SearchStop {
    /// The fuel that was given to it is used up.
    Budget,
    /// A number leaves 128 bits, a weight 63, or there are 2^30 terms or steps.
    Overflow,
    /// There is nothing more to look at: perhaps an assertion fails.
    Exhausted,
    /// The conditions name a variable or a definition that does not stand before.
    Malformed,
    /// There is no memory.
    Memory,
}

/// A step whose literals are all false by what is assigned, where there is one.
pub type Found = Result<Option<StepId>, SearchStop>;

impl From<AllocError> for SearchStop {
    fn from(_: AllocError) -> SearchStop {
        SearchStop::Memory
    }
}

impl<T: Drop> From<AllocFailed<T>> for SearchStop {
    fn from(_: AllocFailed<T>) -> SearchStop {
        SearchStop::Memory
    }
}
