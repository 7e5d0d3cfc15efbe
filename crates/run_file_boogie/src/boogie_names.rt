// The procedure whose run a run file of Boogie is.
ghost use Rattle.std.specs.Prelude.{◌≡◌, ◌≤◌, ◌<◌, ◌^◌, ℕ, List, IfOk, IfErr, MatchResult, length};
ghost use Rattle.std.specs.Option.{option_map};
ghost use Rattle.vb_base.specs.Limits.{max_boogie_bytes};
ghost use Rattle.vb_base.specs.declared.places.Pos.{Pos};
ghost use Rattle.run_file_boogie.specs.BoogieProgress as progress;
ghost use Rattle.run_file_boogie.specs.BoogieRun.{SpellsName, NamesNothingAt};
ghost use Rattle.run_file_boogie.specs.BoogieView.{IsFirstSaid};
ghost use Rattle.run_file_words.specs.Answers.{Gives, GivesPlace};
ghost use Rattle.run_file_words.specs.Answers.{UnlessMemory};
ghost use Rattle.run_file_words.specs.Text.{lines_of, words_of};

use run_file_words::{RunFileFault, is_skipped, next_line, next_word};
use std::alloc::Global;
use vb_base::{Ident, Pos};

/// The name of the procedure on the header line of a run file, or else where the header is wrong: at the first line that is
/// not skipped, or at the last where there is none. `Memory` where there is no memory.
pub fn boogie_run_name(alloc: Global, bytes: &[u8]) -> Result<Ident, RunFileFault>
    requires { length bytes.now ≤ max_boogie_bytes }
    ensures name { IfOk result (λ x. SpellsName bytes.now x) }
    ensures fault { IfErr result (UnlessMemory (NamesNothingAt bytes.now)) }

    // and so no other name, and no other place
    ensures only_name { (name : List ℕ) → SpellsName bytes.now name → Gives (λ x. x ≡ name) result }
    ensures only_place { (at : Pos) → NamesNothingAt bytes.now at → GivesPlace at result }
{
    let (line, text) = first_said(bytes);
    match said_name(text) {
        Some(name) => Ok(Ident::new(alloc, name)?),
        None => Err(RunFileFault::Syntax(Pos { line, col: 1 })),
    }
}

/// The number of the first line that is not skipped, and the line, or else the number of the last line.
fn first_said(bytes: &[u8]) -> (u32, Option<&[u8]>)
    requires { length bytes.now ≤ max_boogie_bytes }
    ensures { IsFirstSaid (lines_of bytes.now) result }
{
    let mut rest = Some(bytes);
    let mut line = 0;
    while let Some(text) = rest {
        let (text, after) = next_line(text);
        line += 1;
        if !is_skipped(text) {
            return (line, Some(text));
        }
        rest = after;
    }
    (line, None)
}

fn said_name(line: Option<&[u8]>) -> Option<&[u8]>
    ensures { option_map (λ w. w.now) result ≡ progress.name_said (option_map (λ w. w.now) line.entry) }
{
    header_name(line?)
}

/// The name on a header line, if the line is one.
pub(crate) fn header_name(line: &[u8]) -> Option<&[u8]>
    ensures { option_map (λ w. w.now) result ≡ progress.header_name (words_of line.now) }
{
    let (first, rest) = next_word(line)?;
    let (second, rest) = next_word(rest)?;
    let (name, rest) = next_word(rest)?;
    if next_word(rest).is_some() {
        return None;
    }
    if first == b"boogie".as_slice() && second == b"run".as_slice() {
        Some(name)
    } else {
        None
    }
}
