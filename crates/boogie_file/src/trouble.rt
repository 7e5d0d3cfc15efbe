// Why a file is not accepted.
ghost use Rattle.std.specs.Prelude.{◌≡◌};
ghost use Rattle.boogie_file.specs.Parts.{trouble_of_file, trouble_of_boogie, status_of};
ghost use Rattle.boogie_file.specs.declared.trouble.BoogieTrouble.TheVariants as trouble;

use crate::refusal::BoogieRefusal;
use boogie_text::BoogieFault;
use tool_common::ToolStatus;
use vb_base::Memory;
use vb_outer::FileFault;

/// Why a file is not accepted.
#[derive(Clone, Copy, Debug, PartialEq, Eq)]
pub enum BoogieTrouble {
    Memory,
    /// It could not be read.
    Read,
    Refused(BoogieRefusal),
}

impl From<Memory> for BoogieTrouble {
    ghost from_gives = { λ _ e. e ≡ trouble.Memory };

    fn from(_: Memory) -> BoogieTrouble {
        BoogieTrouble::Memory
    }
}

impl From<FileFault> for BoogieTrouble {
    ghost from_gives = { λ fault e. e ≡ trouble_of_file fault };

    fn from(fault: FileFault) -> BoogieTrouble {
        match fault {
            FileFault::Memory => BoogieTrouble::Memory,
            FileFault::Failed => BoogieTrouble::Read,
            FileFault::Long => BoogieTrouble::Refused(BoogieRefusal::Size),
        }
    }
}

impl From<BoogieFault> for BoogieTrouble {
    ghost from_gives = { λ fault e. e ≡ trouble_of_boogie fault };

    fn from(fault: BoogieFault) -> BoogieTrouble {
        match fault {
            BoogieFault::Memory => BoogieTrouble::Memory,
            BoogieFault::Prelude(at) => BoogieTrouble::Refused(BoogieRefusal::Prelude(at)),
            BoogieFault::Syntax(at) => BoogieTrouble::Refused(BoogieRefusal::BoogieSyntax(at)),
            BoogieFault::Deep(at) => BoogieTrouble::Refused(BoogieRefusal::Deep(at)),
        }
    }
}

impl From<BoogieTrouble> for ToolStatus<BoogieRefusal> {
    ghost from_gives = { λ trouble e. e ≡ status_of trouble };

    fn from(trouble: BoogieTrouble) -> ToolStatus<BoogieRefusal> {
        match trouble {
            BoogieTrouble::Memory => ToolStatus::NoMemory,
            BoogieTrouble::Read => ToolStatus::ReadFault,
            BoogieTrouble::Refused(refusal) => ToolStatus::Refused(refusal),
        }
    }
}
