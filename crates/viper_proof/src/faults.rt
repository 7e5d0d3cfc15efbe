// Why nothing is told of a file.
ghost use Rattle.std.specs.Prelude.{◌≡◌};
ghost use Rattle.viper_proof.specs.Parts.{unproved_of_certificates, unproved_of_file};

use unit_proof::CertificateFault;
use viper_file::{ViperFault, ViperRefusal};

/// Why nothing is told of the units of a file.
#[derive(Clone, Copy, Debug, PartialEq, Eq)]
pub enum Unproved {
    /// There is no memory for it.
    Memory,
    /// The certificates could not be read.
    Read,
    /// The file is refused.
    Refused(ViperRefusal),
}

impl From<CertificateFault> for Unproved {
    ghost from_gives = { λ fault e. e ≡ unproved_of_certificates fault };

    fn from(fault: CertificateFault) -> Unproved {
        match fault {
            CertificateFault::Memory => Unproved::Memory,
            CertificateFault::Read => Unproved::Read,
        }
    }
}

impl From<ViperFault> for Unproved {
    ghost from_gives = { λ fault e. e ≡ unproved_of_file fault };

    fn from(fault: ViperFault) -> Unproved {
        match fault {
            ViperFault::Memory => Unproved::Memory,
            ViperFault::Refused(refusal) => Unproved::Refused(refusal),
        }
    }
}
