// The whole of a certificate.
ghost use Rattle.std.specs.Prelude.{IsOk};
ghost use Rattle.boogie_formula.specs.Types.{IsTypedConditions};
ghost use Rattle.boogie_formula.specs.View.{conditions_of};
ghost use Rattle.cert_check.specs.Shown.{NoneCanFail};

use crate::ends::finish;
use crate::laws::StepContext;
use crate::lines::next_line;
use crate::names::NameCounts;
use crate::progress::read_steps;
use crate::tables::{FIRST, read_table};
use crate::unshown::{Unshown, at};
use boogie_formula::Conditions;
use cert_terms::LineRefusal;
use std::alloc::Global;

/// The word of the first line, with the space behind it.
const HEADER: &[u8] = b"certificate ";

/// Whether a line is the header of the certificate of this procedure.
fn is_header(name: &[u8], line: &[u8]) -> bool {
    match line.strip_prefix(HEADER) {
        Some(named) => named == name,
        None => false,
    }
}

/// The lines behind the first, which has to be the header.
fn body<'a>(name: &[u8], bytes: &'a [u8]) -> Result<&'a [u8], Unshown> {
    let (line, behind) = match next_line(bytes) {
        Some((line, behind)) => (line, Some(behind)),
        None => (bytes, None),
    };
    if !is_header(name, line) {
        return Err(Unshown::Refused(1, LineRefusal::Header));
    }
    behind.ok_or(Unshown::Refused(1, LineRefusal::Ending))
}

/// The number of the line that begins behind the last byte 10 of these.
fn last(lines: &[u8]) -> usize {
    let count = lines.iter().filter(|byte| **byte == b'\n').count();
    count.saturating_add(FIRST)
}

/// Checks a certificate against well-typed conditions of the procedure of this name. Accepted, it shows that no assertion can
/// fail at any values of the variables.
///
/// Its first line is `certificate`, a space and the name. The lines behind it are terms, definitions and steps, and each ends with
/// a byte 10. At the end, each definition that says that an assertion fails has to be a literal whose negation is a step alone.
/// Where a line is refused, its number counts from 1, and what is wrong only at the end is refused at the number of the line that
/// would follow. Terms are all read first, so a wrong term is refused before a wrong definition or step that stands above it.
pub fn check(
    alloc: Global,
    name: &[u8],
    conditions: &Conditions,
    bytes: &[u8],
) -> Result<(), Unshown>
    requires { IsTypedConditions (conditions_of conditions.now) }
    ensures shown { IsOk result → NoneCanFail (conditions_of conditions.now) }
{
    let lines = body(name, bytes)?;
    let table = read_table(alloc, conditions, lines)?;
    let scope = StepContext {
        alloc,
        table: &table,
        names: NameCounts::of(conditions),
    };
    let shown = read_steps(scope, conditions, lines)?;
    match finish(alloc, &shown, &conditions.fails) {
        Ok(()) => Ok(()),
        Err(fault) => Err(at(last(lines), fault)),
    }
}
