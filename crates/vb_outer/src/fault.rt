//! What a call answers in place of a result.
ghost use Rattle.std.specs.Prelude.{◌≡◌, ◌≤◌};
ghost use Rattle.vb_outer.specs.Faults.{one_more};
ghost use Rattle.vb_outer.specs.declared.fault.FileFault.TheVariants as fault;

use std::alloc::{AllocError, AllocFailed};

/// A device failed.
#[derive(Clone, Copy, Debug, PartialEq, Eq)]
pub struct Failed;

/// Why a file was not read.
#[derive(Clone, Copy, Debug, PartialEq, Eq)]
pub enum FileFault {
    /// There is no memory for its bytes.
    Memory,
    /// The shelf failed, or has no file of that name.
    Failed,
    /// It is longer than the caller's limit.
    Long,
}

impl From<AllocError> for FileFault {
    ghost from_gives = { λ _ e. e ≡ fault.Memory };

    fn from(_: AllocError) -> Self {
        FileFault::Memory
    }
}

impl<T: Drop> From<AllocFailed<T>> for FileFault {
    ghost from_gives = { λ _ e. e ≡ fault.Memory };

    fn from(_: AllocFailed<T>) -> Self {
        FileFault::Memory
    }
}

impl From<Failed> for FileFault {
    ghost from_gives = { λ _ e. e ≡ fault.Failed };

    fn from(_: Failed) -> Self {
        FileFault::Failed
    }
}

/// Counts a fault, and is the answer to it.
pub(crate) fn count_fault(faults: &mut u64) -> Failed
    ensures counted { faults.new ≡ one_more faults.old }
    ensures later { faults.old ≤ faults.new }
{
    *faults = faults.saturating_add(1);
    Failed
}
