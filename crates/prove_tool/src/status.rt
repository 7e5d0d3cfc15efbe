// How a call ends, and the line that it then writes to the error stream.
ghost use Rattle.std.specs.Prelude.{◌≡◌, IfOk};
ghost use Rattle.std.specs.String.{string_bytes};
ghost use Rattle.prove_tool.specs.Parts.{status_of_boogie, status_of_certificates, status_of_file, status_of_proof, status_of_viper};
ghost use Rattle.prove_tool.specs.Status.{kind_of, line_of, number_of};

use crate::language::Language;
use crate::refusal::ProveRefusal;
use boogie_file::BoogieTrouble;
use std::alloc::{AllocError, Global};
use tool_common::CallStatus;
use unit_proof::CertificateFault;
use vb_outer::FileFault;
use viper_file::ViperFault;
use viper_proof::Unproved;

/// How a call ends. The status that the process ends with is its number.
#[derive(Clone, Copy, Debug, PartialEq, Eq)]
pub enum ProveStatus {
    /// What was asked for is done. Where it is a proof, each unit is proved.
    Done,
    /// A file is refused.
    Refused(ProveRefusal),
    /// The words are those of no command.
    Usage,
    /// The shelf failed, or has no file of one of the names.
    ReadFault,
    /// The sink of the output or of the errors failed.
    WriteFault,
    /// Memory was refused.
    NoMemory,
    /// A unit is open.
    Open,
}

impl ProveStatus {
    /// The status of the process.
    pub fn number(self) -> u8
        ensures { result ≡ number_of self }
    {
        match self {
            ProveStatus::Done => 0,
            ProveStatus::Refused(_) => 1,
            ProveStatus::Usage => 2,
            ProveStatus::ReadFault => 3,
            ProveStatus::WriteFault => 4,
            ProveStatus::NoMemory => 5,
            ProveStatus::Open => 10,
        }
    }
}

impl CallStatus for ProveStatus {
    ghost kind = { kind_of };

    fn write_fault() -> Self {
        ProveStatus::WriteFault
    }

    fn no_memory() -> Self {
        ProveStatus::NoMemory
    }
}

/// The line that a call with this status writes to the error stream; nothing, where it writes none.
pub fn line(alloc: Global, status: ProveStatus) -> Result<String, AllocError>
    ensures { IfOk result (λ text. string_bytes text ≡ line_of status) }
{
    match status {
        ProveStatus::Refused(refusal) => format!(in alloc; "error: {refusal}\n"),
        ProveStatus::Usage => format!(in alloc;
            "usage: prove[-boogie] FILE [STEPS] | certificates[-boogie] FILE [STEPS] | certify[-boogie] FILE CERTIFICATES | conditions[-boogie] FILE | values[-boogie] FILE [STEPS]\n"
        ),
        ProveStatus::ReadFault => format!(in alloc; "error: read\n"),
        ProveStatus::Done | ProveStatus::WriteFault | ProveStatus::NoMemory | ProveStatus::Open => {
            Ok(String::new(alloc))
        }
    }
}

/// The status where a file of the language could not be read.
pub fn of_file(language: Language, fault: FileFault) -> ProveStatus
    ensures { result ≡ status_of_file language fault }
{
    match fault {
        FileFault::Memory => ProveStatus::NoMemory,
        FileFault::Failed => ProveStatus::ReadFault,
        FileFault::Long => ProveStatus::Refused(language.too_long()),
    }
}

/// The status where a file of Viper has no typed program.
pub fn of_viper(fault: ViperFault) -> ProveStatus
    ensures { result ≡ status_of_viper fault }
{
    match fault {
        ViperFault::Memory => ProveStatus::NoMemory,
        ViperFault::Refused(refusal) => ProveStatus::Refused(ProveRefusal::Viper(refusal)),
    }
}

/// The status where a text of Boogie has no typed program, or nothing is told of its procedures.
pub fn of_boogie(trouble: BoogieTrouble) -> ProveStatus
    ensures { result ≡ status_of_boogie trouble }
{
    match trouble {
        BoogieTrouble::Memory => ProveStatus::NoMemory,
        BoogieTrouble::Read => ProveStatus::ReadFault,
        BoogieTrouble::Refused(refusal) => ProveStatus::Refused(ProveRefusal::Boogie(refusal)),
    }
}

/// The status where nothing is told of the units of a file of Viper.
pub fn of_proof(unproved: Unproved) -> ProveStatus
    ensures { result ≡ status_of_proof unproved }
{
    match unproved {
        Unproved::Memory => ProveStatus::NoMemory,
        Unproved::Read => ProveStatus::ReadFault,
        Unproved::Refused(refusal) => ProveStatus::Refused(ProveRefusal::Viper(refusal)),
    }
}

/// The status where certificates cannot be gone on with.
pub fn of_certificates(fault: CertificateFault) -> ProveStatus
    ensures { result ≡ status_of_certificates fault }
{
    match fault {
        CertificateFault::Memory => ProveStatus::NoMemory,
        CertificateFault::Read => ProveStatus::ReadFault,
    }
}
