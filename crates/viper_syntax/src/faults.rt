// Why tokens are no program.
use vb_base::Pos;

/// Why tokens are no program.
#[derive(Clone, Copy, Debug, PartialEq, Eq)]
pub enum ParseFault {
    /// Memory was refused.
    Memory,
    /// The place of the first token such that the tokens through it begin no program, or the end where all of them
    /// begin one.
    Syntax(Pos),
}
