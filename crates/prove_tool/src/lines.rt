// The lines that tell what is shown of units.
ghost use Rattle.std.specs.Prelude.{◌≡◌, ◌++◌, IfOk, OnOk, Some};
ghost use Rattle.std.specs.String.{string_bytes};
ghost use Rattle.prove_tool.specs.Lines.{back_of, front_of, lines_text, unit_line, word_of};

use cert_terms::LineRefusal;
use std::alloc::{AllocError, Global};
use std::fmt;
use unit_proof::{Unfound, UnitAnswer, UnitVerdict};
use vb_base::{Memory, put};

/// The word of a reason for which a line of a certificate is refused.
fn word_of(reason: LineRefusal) -> &'static str
    ensures { result.now ≡ word_of reason }
{
    match reason {
        LineRefusal::Header => "header",
        LineRefusal::Ending => "ending",
        LineRefusal::Word => "word",
        LineRefusal::Number => "number",
        LineRefusal::Count => "count",
        LineRefusal::Name => "name",
        LineRefusal::Type => "type",
        LineRefusal::Definition => "definition",
        LineRefusal::Shape => "shape",
        LineRefusal::Case => "case",
        LineRefusal::Sum => "sum",
        LineRefusal::Large => "large",
        LineRefusal::Hint => "hint",
        LineRefusal::Open => "open",
        LineRefusal::Long => "long",
        LineRefusal::Missing => "missing",
    }
}

/// The line at which a certificate is refused, and why.
#[derive(Clone, Copy)]
struct RefusedAt {
    line: usize,
    reason: LineRefusal,
}

impl fmt::Display for RefusedAt {
    ghost use Rattle.prove_tool.specs.Lines.{refused_text};

    ghost output = { λ r. Some (refused_text r.line r.reason) };

    fn fmt<W: fmt::Write>(&self, f: &mut fmt::Formatter<W>) -> fmt::Result {
        let RefusedAt { line, reason } = self;
        let word = word_of(*reason);
        write!(f, "certificate {line} {word}")
    }
}

/// What stands behind the name of a unit.
fn back_of(alloc: Global, verdict: UnitVerdict) -> Result<String, AllocError>
    ensures { IfOk result (λ text. string_bytes text ≡ back_of verdict) }
{
    match verdict {
        UnitVerdict::Proved | UnitVerdict::Uncertified(Unfound::Missing) => Ok(String::new(alloc)),
        UnitVerdict::Uncertified(Unfound::Open(label)) => format!(in alloc; " {label}"),
        UnitVerdict::Uncertified(Unfound::Spent) => format!(in alloc; " steps"),
        UnitVerdict::Refused(line, reason) => {
            let at = RefusedAt { line, reason };
            format!(in alloc; " {at}")
        }
    }
}

/// The word with which the line of a unit begins, and a blank.
fn front_of(verdict: UnitVerdict) -> &'static [u8]
    ensures { result.now ≡ front_of verdict }
{
    match verdict {
        UnitVerdict::Proved => b"proved ",
        UnitVerdict::Uncertified(_) | UnitVerdict::Refused(_, _) => b"open ",
    }
}

/// Appends the line of a unit.
fn put_line(alloc: Global, out: &mut Vec<u8>, answer: &UnitAnswer) -> Result<(), Memory>
    ensures { OnOk result (out.new.items ≡ out.old.items ++ unit_line answer.now) }
{
    let back = back_of(alloc, answer.verdict)?;
    put(out, front_of(answer.verdict))?;
    put(out, answer.name.bytes())?;
    put(out, back.as_bytes())?;
    put(out, b"\n")
}

/// Appends a line for each unit.
fn put_lines(alloc: Global, out: &mut Vec<u8>, answers: &[UnitAnswer]) -> Result<(), Memory>
    ensures { OnOk result (out.new.items ≡ out.old.items ++ lines_text answers.now) }
{
    for answer in answers {
        put_line(alloc, out, answer)?;
    }
    Ok(())
}

/// A line for each unit.
pub fn lines(alloc: Global, answers: &[UnitAnswer]) -> Result<Vec<u8>, Memory>
    ensures { IfOk result (λ out. out.items ≡ lines_text answers.now) }
{
    let mut out = Vec::new(alloc);
    put_lines(alloc, &mut out, answers)?;
    Ok(out)
}
