// Why a file has no typed program.
ghost use Rattle.std.specs.Prelude.{◌≡◌};
ghost use Rattle.viper_file.specs.Parts.{fault_of_lex, fault_of_parse, fault_of_types};

use vb_base::Pos;
use viper_syntax::{LexFault, ParseFault};
use viper_types::TypeFault;

/// Why a file is refused. The reasons are tried in this order.
#[derive(Clone, Copy, Debug, PartialEq, Eq)]
pub enum ViperRefusal {
    /// It has more than `MAX_VIPER_BYTES` bytes.
    Size,
    /// It has no tokens: a byte, a comment, a number, a bracket or a word is wrong at a place.
    Lex(LexFault),
    /// Its tokens spell no program. The place is that of the first token with which they begin none, or the end of the file where all
    /// of them begin one.
    Syntax(Pos),
    /// Its program breaks the rule of this number at this place, and none before it.
    Rule(Pos, u32),
    /// Its program is well-typed and weighs more than `MAX_WEIGHT`; the weight is told as `TOO_HEAVY`.
    Weight(u64),
}

/// Why there is no typed program of a file.
#[derive(Clone, Copy, Debug, PartialEq, Eq)]
pub enum ViperFault {
    /// There is no memory for it.
    Memory,
    /// The file is refused.
    Refused(ViperRefusal),
}

impl From<LexFault> for ViperFault {
    ghost from_gives = { λ fault e. e ≡ fault_of_lex fault };

    fn from(fault: LexFault) -> ViperFault {
        match fault {
            LexFault::Memory => ViperFault::Memory,
            _ => ViperFault::Refused(ViperRefusal::Lex(fault)),
        }
    }
}

impl From<ParseFault> for ViperFault {
    ghost from_gives = { λ fault e. e ≡ fault_of_parse fault };

    fn from(fault: ParseFault) -> ViperFault {
        match fault {
            ParseFault::Memory => ViperFault::Memory,
            ParseFault::Syntax(at) => ViperFault::Refused(ViperRefusal::Syntax(at)),
        }
    }
}

impl From<TypeFault> for ViperFault {
    ghost from_gives = { λ fault e. e ≡ fault_of_types fault };

    fn from(fault: TypeFault) -> ViperFault {
        match fault {
            TypeFault::Memory => ViperFault::Memory,
            TypeFault::Rule(at, rule) => ViperFault::Refused(ViperRefusal::Rule(at, rule)),
            TypeFault::Weight(weight) => ViperFault::Refused(ViperRefusal::Weight(weight)),
        }
    }
}
