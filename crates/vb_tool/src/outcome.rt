// The work of a command, and how a run ended.
ghost use Rattle.std.specs.Prelude.{◌≡◌, ◌++◌, IfOk, Some};
ghost use Rattle.std.specs.String.{string_bytes};
ghost use Rattle.vb_tool.specs.Outcome.{status_of, outcome_text};

use crate::status::Status;
use std::alloc::{AllocError, Global};
use std::fmt;
use vb_base::Memory;
use viper_core::Program;
use viper_state::Outcome;

/// What a command came to: its status, and the text that tells of it.
#[derive(Drop)]
pub struct Ending {
    pub status: Status,
    pub text: Vec<u8>,
}

/// What is left to do for a command that is not refused: to write a text.
#[derive(Drop)]
pub enum Work {
    /// That of the translation of a program.
    Translate(Program),
    /// This one.
    Tell(Ending),
}

/// The status of a call whose run ended so.
fn status_of(outcome: Outcome) -> Status
    ensures { result ≡ status_of outcome }
{
    match outcome {
        Outcome::Done => Status::Done,
        Outcome::Failed(label) => Status::Failed(label),
        Outcome::Blocked => Status::Blocked,
        Outcome::Short => Status::Short,
        Outcome::Over(_) => Status::Over,
    }
}

/// The line of an outcome.
#[derive(Clone, Copy)]
struct OutcomeLine(Outcome);

impl fmt::Display for OutcomeLine {
    ghost use Rattle.vb_tool.specs.Outcome.{end_line};

    ghost output = { λ l. Some (end_line l.0) };

    fn fmt<W: fmt::Write>(&self, f: &mut fmt::Formatter<W>) -> fmt::Result {
        match self.0 {
            Outcome::Done => f.write_str("// done\n"),
            Outcome::Failed(label) => writeln!(f, "// failed {label}"),
            Outcome::Blocked => f.write_str("// blocked\n"),
            Outcome::Short => f.write_str("// short\n"),
            Outcome::Over(at) => writeln!(f, "// over {at}"),
        }
    }
}

/// The two lines that tell how a run ended, and how many of its choices it did not take.
fn outcome_text(alloc: Global, outcome: Outcome, unused: usize) -> Result<String, AllocError>
    ensures { IfOk result (λ text. string_bytes text ≡ outcome_text outcome unused) }
{
    let line = OutcomeLine(outcome);
    format!(in alloc; "{line}// unused {unused}\n")
}

impl Ending {
    /// The same, with more of a text.
    pub fn with_text(self, more: &[u8]) -> Result<Ending, Memory>
        ensures status { IfOk result (λ t. t.status ≡ self.status) }
        ensures text { IfOk result (λ t. t.text.items ≡ self.text.items ++ more.now) }
    {
        let Ending { status, mut text } = self;
        text.extend_from_slice(more)?;
        Ok(Ending { status, text })
    }
}

/// What is told of a run that ended so, and left over so many choices.
pub fn told(alloc: Global, outcome: Outcome, unused: usize) -> Result<Ending, Memory>
    ensures status { IfOk result (λ t. t.status ≡ status_of outcome) }
    ensures text { IfOk result (λ t. t.text.items ≡ outcome_text outcome unused) }
{
    let text = outcome_text(alloc, outcome, unused)?;
    Ok(Ending {
        status: status_of(outcome),
        text: text.into_bytes(),
    })
}
