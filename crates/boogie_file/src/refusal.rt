// Why a file of Boogie is refused.
ghost use Rattle.std.specs.Prelude.{Some};

use std::fmt;
use vb_base::Pos;

/// Why a file is refused. The reasons are tried in this order, but that a byte at which no token begins comes before the brackets.
#[derive(Clone, Copy, Debug, PartialEq, Eq)]
pub enum BoogieRefusal {
    /// It has more than `MAX_BOOGIE_BYTES` bytes.
    Size,
    /// It does not begin with the prelude of Boogie. The place is that of the first byte that differs, or the end of the file.
    Prelude(Pos),
    /// More than `MAX_UNCLOSED_BRACKETS` of its brackets are unclosed at once; the place is that of the first one too many.
    Deep(Pos),
    /// It spells no program of Boogie. The place is that of the first byte behind the prelude at which no token begins, or else of
    /// the first token with which the tokens begin no program, or the end of the file where all of them begin one.
    BoogieSyntax(Pos),
    /// Its procedure of this number, from 1 on, is ill-typed, and none before it.
    BoogieType(usize),
    /// Its program has no procedure of the name.
    NoProcedure,
}

impl fmt::Display for BoogieRefusal {
    ghost use Rattle.boogie_file.specs.Refusals.{refusal_text};

    ghost output = { λ r. Some (refusal_text r) };

    fn fmt<W: fmt::Write>(&self, f: &mut fmt::Formatter<W>) -> fmt::Result {
        match self {
            BoogieRefusal::Size => f.write_str("size"),
            BoogieRefusal::Prelude(at) => write!(f, "prelude {at}"),
            BoogieRefusal::Deep(at) => write!(f, "deep {at}"),
            BoogieRefusal::BoogieSyntax(at) => write!(f, "syntax {at}"),
            BoogieRefusal::BoogieType(number) => write!(f, "boogie-type {number}"),
            BoogieRefusal::NoProcedure => f.write_str("no-procedure"),
        }
    }
}
