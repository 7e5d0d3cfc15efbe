// The language of a file.
ghost use Rattle.std.specs.Prelude.{◌≡◌};
ghost use Rattle.prove_tool.specs.Parts.{too_long};
ghost use Rattle.prove_tool.specs.Subject.{most_bytes};

use crate::refusal::ProveRefusal;
use boogie_file::BoogieRefusal;
use vb_base::limits::{MAX_BOOGIE_BYTES, MAX_VIPER_BYTES};
use viper_file::ViperRefusal;

/// The language of a file.
#[derive(Clone, Copy, Debug, PartialEq, Eq)]
pub enum Language {
    /// A file of Viper. Its units are the methods and predicates with a body.
    Viper,
    /// A text of Boogie. Its units are the procedures.
    Boogie,
}

impl Language {
    /// The most bytes of a file.
    pub fn most_bytes(self) -> usize
        ensures { result ≡ most_bytes self }
    {
        match self {
            Language::Viper => MAX_VIPER_BYTES,
            Language::Boogie => MAX_BOOGIE_BYTES,
        }
    }

    /// The refusal of a file that has more bytes.
    pub fn too_long(self) -> ProveRefusal
        ensures { result ≡ too_long self }
    {
        match self {
            Language::Viper => ProveRefusal::Viper(ViperRefusal::Size),
            Language::Boogie => ProveRefusal::Boogie(BoogieRefusal::Size),
        }
    }
}
