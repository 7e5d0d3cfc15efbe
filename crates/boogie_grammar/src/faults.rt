// Why a text is no program.
ghost use Rattle.std.specs.Prelude.{◌≡◌};
ghost use Rattle.boogie_grammar.specs.declared.faults.BoogieFault.TheVariants as fault;

use vb_base::{Memory, Pos};

/// Why a text was not read.
#[derive(Clone, Copy)]
pub enum BoogieFault {
    /// Memory was refused.
    Memory,
    /// It does not begin with the prelude; the first byte that differs, or the end.
    Prelude(Pos),
    /// The first byte at which nothing begins, or the first token with which no program continues, or the end.
    Syntax(Pos),
    /// The first sign with which more than `MAX_UNCLOSED_BRACKETS` are unclosed.
    Deep(Pos),
}

impl From<Memory> for BoogieFault {
    ghost from_gives = { λ _ e. e ≡ fault.Memory };

    fn from(_: Memory) -> Self {
        BoogieFault::Memory
    }
}
