// Why certificates cannot be gone on with.
ghost use Rattle.std.specs.Prelude.{◌≡◌};
ghost use Rattle.unit_proof.specs.declared.faults.CertificateFault.TheVariants as fault;

use std::alloc::AllocError;
use vb_base::Memory;

/// Why certificates cannot be gone on with.
#[derive(Clone, Copy, Debug, PartialEq, Eq)]
pub enum CertificateFault {
    /// There is no memory for one, or for what it is checked against.
    Memory,
    /// They could not be read.
    Read,
}

impl From<Memory> for CertificateFault {
    ghost from_gives = { λ _ e. e ≡ fault.Memory };

    fn from(_: Memory) -> CertificateFault {
        CertificateFault::Memory
    }
}

impl From<AllocError> for CertificateFault {
    ghost from_gives = { λ _ e. e ≡ fault.Memory };

    fn from(_: AllocError) -> CertificateFault {
        CertificateFault::Memory
    }
}
