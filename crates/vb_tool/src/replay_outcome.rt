// The outcome of a run of a procedure.
ghost use Rattle.std.specs.Prelude.{◌≡◌, IfOk, Some};
ghost use Rattle.std.specs.String.{string_bytes};
ghost use Rattle.vb_tool.specs.ReplayOutcome.{replay_status, replay_text};

use crate::outcome::Ending;
use crate::status::Status;
use boogie_run::BOutcome;
use std::alloc::{AllocError, Global};
use std::fmt;
use vb_base::Memory;

/// The status of a call whose run of a procedure ended so.
fn status_of(outcome: BOutcome) -> Status
    ensures { result ≡ replay_status outcome }
{
    match outcome {
        BOutcome::Done => Status::Done,
        BOutcome::Failed(label) => Status::Failed(label),
        BOutcome::Blocked => Status::Blocked,
        BOutcome::Short => Status::Short,
        BOutcome::Over => Status::Over,
    }
}

/// The line that tells how a run of a procedure ended.
#[derive(Clone, Copy)]
struct ReplayLine(BOutcome);

impl fmt::Display for ReplayLine {
    ghost use Rattle.vb_tool.specs.ReplayOutcome.{replay_text};

    ghost output = { λ l. Some (replay_text l.0) };

    fn fmt<W: fmt::Write>(&self, f: &mut fmt::Formatter<W>) -> fmt::Result {
        match self.0 {
            BOutcome::Done => f.write_str("// done\n"),
            BOutcome::Failed(label) => writeln!(f, "// failed {label}"),
            BOutcome::Blocked => f.write_str("// blocked\n"),
            BOutcome::Short => f.write_str("// short\n"),
            BOutcome::Over => f.write_str("// over\n"),
        }
    }
}

fn line_of(alloc: Global, outcome: BOutcome) -> Result<String, AllocError>
    ensures { IfOk result (λ text. string_bytes text ≡ replay_text outcome) }
{
    let line = ReplayLine(outcome);
    format!(in alloc; "{line}")
}

/// What is told of a run of a procedure that ended so.
pub fn told(alloc: Global, outcome: BOutcome) -> Result<Ending, Memory>
    ensures status { IfOk result (λ t. t.status ≡ replay_status outcome) }
    ensures text { IfOk result (λ t. t.text.items ≡ replay_text outcome) }
{
    let text = line_of(alloc, outcome)?;
    Ok(Ending {
        status: status_of(outcome),
        text: text.into_bytes(),
    })
}
