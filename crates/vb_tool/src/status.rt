// How a call of the tool ends, and the line that it then writes to the error stream.
ghost use Rattle.std.specs.Prelude.{◌≡◌, IfOk, Some};
ghost use Rattle.std.specs.String.{string_bytes};
ghost use Rattle.vb_tool.specs.Status.{line_of};

use std::alloc::{AllocError, Global};
use std::fmt;
use tool_common::CallStatus;
use vb_base::{Label, Pos};
use viper_file::ViperRefusal;
use viper_syntax::LexFault;

/// Why a command is refused. The reasons of one command are tried in this order, with three exceptions: a budget that is out of
/// range comes first; in a file of Boogie a byte at which no token begins comes before brackets that are too deep; and a wrong
/// header of a run file comes before the name in it.
#[derive(Clone, Copy, Debug, PartialEq, Eq)]
pub enum Refusal {
    /// The file has more bytes than it may have: `MAX_VIPER_BYTES` for a program of Viper, `MAX_BOOGIE_BYTES` for one of Boogie.
    Size,
    /// The run file has more bytes than the file may have.
    RunSize,
    /// The file has no tokens: a byte, a comment, a number, a bracket or a word is wrong at a place.
    Lex(LexFault),
    /// Its tokens spell no program. The place is that of the first token with which they begin none, or the end of the
    /// file where all of them begin one.
    Syntax(Pos),
    /// Its program breaks the rule of this number at this place, and none before it.
    Rule(Pos, u32),
    /// Its program is well-typed and weighs more than `MAX_WEIGHT`; the weight is told as `TOO_HEAVY`.
    Weight(u64),
    /// Its first token that is `wildcard`, `inhale` or `assume` stands at this place, and `exec` runs no program that has one.
    Unframed(Pos),
    /// Its program has no unit of that name; for `exec`, no method of that name that has a body.
    NoUnit,
    /// The file does not begin with the prelude of Boogie. The place is that of the first byte that differs, or the end of
    /// the file.
    Prelude(Pos),
    /// More than `MAX_UNCLOSED_BRACKETS` of its brackets are unclosed at once; the place is that of the first one too many.
    Deep(Pos),
    /// It spells no program of Boogie. The place is that of the first byte behind the prelude at which no token begins, or
    /// else of the first token with which the tokens begin no program, or the end of the file where all of them begin one.
    BoogieSyntax(Pos),
    /// Its procedure of this number, from 1 on, is ill-typed, and none before it.
    BoogieType(usize),
    /// Its program has no procedure of the name in the header of the run file; for `vc`, of the name that is given.
    NoProcedure,
    /// The run file spells no run of the unit or procedure. The place is that of the first line that may not stand where it
    /// does. A wrong header is refused before `NoProcedure`.
    RunSyntax(Pos),
    /// No program is made of that many methods: there are none, or more than `MAX_MADE_METHODS`. For `exec`, the budget is
    /// more than `MAX_EXECUTION_BUDGET`.
    Range,
}

/// How a call ends. The status that the process ends with is its number.
#[derive(Clone, Copy, Debug, PartialEq, Eq)]
pub enum Status {
    /// The command did its work. A run came to its end.
    Done,
    /// A file is refused, or a number.
    Refused(Refusal),
    /// The words are none of the forms of a command.
    Usage,
    /// The shelf failed, or has no file of that name.
    ReadFault,
    /// The sink of the output or of the errors failed.
    WriteFault,
    /// Memory was refused.
    NoMemory,
    /// The run fails, at this check.
    Failed(Label),
    /// An assumption ended the run.
    Blocked,
    /// A choice was missing in the run.
    Short,
    /// A number or a content left its bound in the run.
    Over,
    /// One more called body or turn of a loop was to begin, and the budget was spent.
    Spent,
}

impl Status {
    ghost use Rattle.vb_tool.specs.Status.{number_of};

    /// The status of the process.
    pub fn number(self) -> u8
        ensures { result ≡ number_of self }
    {
        match self {
            Status::Done => 0,
            Status::Refused(_) => 1,
            Status::Usage => 2,
            Status::ReadFault => 3,
            Status::WriteFault => 4,
            Status::NoMemory => 5,
            Status::Failed(_) => 10,
            Status::Blocked => 11,
            Status::Short => 12,
            Status::Over => 13,
            Status::Spent => 14,
        }
    }
}

impl fmt::Display for Refusal {
    ghost use Rattle.vb_tool.specs.Status.{refusal_text};

    ghost output = { λ r. Some (refusal_text r) };

    fn fmt<W: fmt::Write>(&self, f: &mut fmt::Formatter<W>) -> fmt::Result {
        match self {
            Refusal::Size => f.write_str("size"),
            Refusal::RunSize => f.write_str("run-size"),
            Refusal::Lex(LexFault::BadByte(at)) => write!(f, "bad-byte {at}"),
            Refusal::Lex(LexFault::OpenComment(at)) => write!(f, "open-comment {at}"),
            Refusal::Lex(LexFault::BigLiteral(at)) => write!(f, "big-literal {at}"),
            Refusal::Lex(LexFault::Braces(at)) => write!(f, "braces {at}"),
            Refusal::Lex(LexFault::LongGroup(at)) => write!(f, "long-group {at}"),
            Refusal::Lex(LexFault::Unsupported(at)) => write!(f, "unsupported {at}"),
            Refusal::Lex(LexFault::Memory) => f.write_str("memory"),
            Refusal::Syntax(at) => write!(f, "syntax {at}"),
            Refusal::Rule(at, rule) => write!(f, "type {at} rule {rule}"),
            Refusal::Weight(weight) => write!(f, "weight {weight}"),
            Refusal::Unframed(at) => write!(f, "unframed {at}"),
            Refusal::NoUnit => f.write_str("no-unit"),
            Refusal::Prelude(at) => write!(f, "prelude {at}"),
            Refusal::Deep(at) => write!(f, "deep {at}"),
            Refusal::BoogieSyntax(at) => write!(f, "syntax {at}"),
            Refusal::BoogieType(number) => write!(f, "boogie-type {number}"),
            Refusal::NoProcedure => f.write_str("no-procedure"),
            Refusal::RunSyntax(at) => write!(f, "run-syntax {at}"),
            Refusal::Range => f.write_str("range"),
        }
    }
}

/// The line of the forms of the commands.
const USAGE: &str =
    "usage: translate FILE | run FILE UNIT RUNFILE | replay BPL BRUN | make N | exec FILE METHOD RUNFILE N | cut BPL | vc BPL PROC AT PART KIND\n";

impl fmt::Display for Status {
    ghost use Rattle.vb_tool.specs.Status.{line_of};

    ghost output = { λ s. Some (line_of s) };

    fn fmt<W: fmt::Write>(&self, f: &mut fmt::Formatter<W>) -> fmt::Result {
        match self {
            Status::Refused(refusal) => writeln!(f, "error: {refusal}"),
            Status::Usage => f.write_str(USAGE),
            Status::ReadFault => f.write_str("error: read\n"),
            Status::WriteFault | Status::NoMemory => Ok(()),
            Status::Done
            | Status::Failed(_)
            | Status::Blocked
            | Status::Short
            | Status::Over
            | Status::Spent => Ok(()),
        }
    }
}

impl From<ViperRefusal> for Refusal {
    ghost use Rattle.vb_tool.specs.ViperRefusals.{refusal_of_viper};

    ghost from_gives = { λ refusal e. e ≡ refusal_of_viper refusal };

    fn from(refusal: ViperRefusal) -> Refusal {
        match refusal {
            ViperRefusal::Size => Refusal::Size,
            ViperRefusal::Lex(fault) => Refusal::Lex(fault),
            ViperRefusal::Syntax(at) => Refusal::Syntax(at),
            ViperRefusal::Rule(at, rule) => Refusal::Rule(at, rule),
            ViperRefusal::Weight(weight) => Refusal::Weight(weight),
        }
    }
}

impl From<boogie_file::BoogieRefusal> for Refusal {
    ghost use Rattle.vb_tool.specs.BoogieRefusals.{refusal_of_boogie};

    ghost from_gives = { λ refusal e. e ≡ refusal_of_boogie refusal };

    fn from(refusal: boogie_file::BoogieRefusal) -> Refusal {
        match refusal {
            boogie_file::BoogieRefusal::Size => Refusal::Size,
            boogie_file::BoogieRefusal::Prelude(at) => Refusal::Prelude(at),
            boogie_file::BoogieRefusal::Deep(at) => Refusal::Deep(at),
            boogie_file::BoogieRefusal::BoogieSyntax(at) => Refusal::BoogieSyntax(at),
            boogie_file::BoogieRefusal::BoogieType(number) => Refusal::BoogieType(number),
            boogie_file::BoogieRefusal::NoProcedure => Refusal::NoProcedure,
        }
    }
}

impl CallStatus for Status {
    ghost use Rattle.vb_tool.specs.Status.{kind_of};

    ghost kind = { kind_of };

    fn write_fault() -> Self {
        Status::WriteFault
    }

    fn no_memory() -> Self {
        Status::NoMemory
    }
}

/// The line that a call with this status writes to the error stream; nothing, where it writes none.
pub fn line(alloc: Global, status: Status) -> Result<String, AllocError>
    ensures { IfOk result (λ text. string_bytes text ≡ line_of status) }
{
    format!(in alloc; "{status}")
}
