// Why a command did not do its work.
ghost use Rattle.std.specs.Prelude.{◌≡◌};
ghost use Rattle.vb_tool.specs.declared.trouble.Trouble.TheVariants as trouble;
ghost use Rattle.vb_tool.specs.Converted.{trouble_of_file, trouble_of_viper_file, trouble_of_boogie, trouble_of_boogie_file, trouble_of_run, trouble_of_making, status_of_trouble};

use crate::status::{Refusal, Status};
use boogie_text::BoogieFault;
use run_file::RunFileFault;
use vb_base::Memory;
use vb_gen::GenFault;
use vb_outer::FileFault;
use viper_file::ViperFault;

/// Why the files of a command gave no text.
#[derive(Clone, Copy, Debug, PartialEq, Eq)]
pub enum Trouble {
    Memory,
    /// One of them could not be read.
    Read,
    Refused(Refusal),
}

impl From<ViperFault> for Trouble {
    ghost from_gives = { λ fault e. e ≡ trouble_of_viper_file fault };

    fn from(fault: ViperFault) -> Trouble {
        match fault {
            ViperFault::Memory => Trouble::Memory,
            ViperFault::Refused(refusal) => Trouble::Refused(Refusal::from(refusal)),
        }
    }
}

impl From<BoogieFault> for Trouble {
    ghost from_gives = { λ fault e. e ≡ trouble_of_boogie fault };

    fn from(fault: BoogieFault) -> Trouble {
        match fault {
            BoogieFault::Memory => Trouble::Memory,
            BoogieFault::Prelude(at) => Trouble::Refused(Refusal::Prelude(at)),
            BoogieFault::Syntax(at) => Trouble::Refused(Refusal::BoogieSyntax(at)),
            BoogieFault::Deep(at) => Trouble::Refused(Refusal::Deep(at)),
        }
    }
}

impl From<RunFileFault> for Trouble {
    ghost from_gives = { λ fault e. e ≡ trouble_of_run fault };

    fn from(fault: RunFileFault) -> Trouble {
        match fault {
            RunFileFault::Memory => Trouble::Memory,
            RunFileFault::Syntax(at) => Trouble::Refused(Refusal::RunSyntax(at)),
        }
    }
}

impl From<GenFault> for Trouble {
    ghost from_gives = { λ fault e. e ≡ trouble_of_making fault };

    fn from(fault: GenFault) -> Trouble {
        match fault {
            GenFault::Memory => Trouble::Memory,
            GenFault::Range => Trouble::Refused(Refusal::Range),
        }
    }
}

impl From<boogie_file::BoogieTrouble> for Trouble {
    ghost from_gives = { λ trouble e. e ≡ trouble_of_boogie_file trouble };

    fn from(trouble: boogie_file::BoogieTrouble) -> Trouble {
        match trouble {
            boogie_file::BoogieTrouble::Memory => Trouble::Memory,
            boogie_file::BoogieTrouble::Read => Trouble::Read,
            boogie_file::BoogieTrouble::Refused(refusal) => Trouble::Refused(Refusal::from(
                refusal,
            )),
        }
    }
}

impl From<FileFault> for Trouble {
    ghost from_gives = { λ fault e. e ≡ trouble_of_file fault };

    fn from(fault: FileFault) -> Trouble {
        match fault {
            FileFault::Memory => Trouble::Memory,
            FileFault::Failed => Trouble::Read,
            FileFault::Long => Trouble::Refused(Refusal::Size),
        }
    }
}

impl From<Memory> for Trouble {
    ghost from_gives = { λ _ e. e ≡ trouble.Memory };

    fn from(_: Memory) -> Trouble {
        Trouble::Memory
    }
}

impl From<Trouble> for Status {
    ghost from_gives = { λ trouble e. e ≡ status_of_trouble trouble };

    fn from(trouble: Trouble) -> Status {
        match trouble {
            Trouble::Memory => Status::NoMemory,
            Trouble::Read => Status::ReadFault,
            Trouble::Refused(refusal) => Status::Refused(refusal),
        }
    }
}
