// A program from its tokens.
ghost use Rattle.boogie_loops_text.specs.Whole.{ReadsWhole, ReadsProgram};

use crate::procs::procedures;
use boogie_grammar::{BoogieFault, PlacedLexeme, fault};
use boogie_loops::{WProc, WProgram};
use grammar::Stop;
use std::alloc::Global;
use vb_base::Pos;

/// The program that these tokens spell, or the place of the first one with which they begin none; `end` is the place
/// past the last byte.
pub(crate) fn program(
    alloc: Global,
    tokens: &[PlacedLexeme],
    end: Pos,
) -> Result<WProgram, BoogieFault>
    ensures { ReadsProgram tokens.now end result }
{
    match all_procedures(alloc, tokens) {
        Ok(procs) => Ok(WProgram { procs }),
        Err(stop) => Err(fault(stop, end)),
    }
}

/// The procedures that these tokens spell, up to the last token.
fn all_procedures(
    alloc: Global,
    tokens: &[PlacedLexeme],
) -> Result<Vec<WProc>, Stop<'_, PlacedLexeme>>
    ensures { ReadsWhole tokens.now result }
{
    let (procs, rest) = procedures(alloc, tokens)?;
    if !rest.is_empty() {
        return Err(Stop::Before(rest));
    }
    Ok(procs)
}
