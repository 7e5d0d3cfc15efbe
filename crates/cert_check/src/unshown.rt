// Why a certificate is not accepted.
use cert_terms::{LineFault, LineRefusal};

/// Why a certificate is not accepted: there is no memory, or the line of this number, from 1 on, is refused.
#[derive(Clone, Copy, Debug, PartialEq, Eq)]
pub enum Unshown {
    Memory,
    Refused(usize, LineRefusal),
}

/// A fault of a line.
pub(crate) fn at(line: usize, fault: LineFault) -> Unshown {
    match fault {
        LineFault::Memory => Unshown::Memory,
        LineFault::Refused(refusal) => Unshown::Refused(line, refusal),
    }
}
