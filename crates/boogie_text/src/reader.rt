// A program from its bytes.
ghost use Rattle.std.specs.Prelude.{◌≡◌, ◌≤◌, ◌++◌, length, IfErr, IfOk, MatchResult};
ghost use Rattle.vb_base.specs.Limits.{max_boogie_bytes};
ghost use Rattle.vb_base.specs.Place.{IsPlaceAfter};
ghost use Rattle.boogie_tree.specs.Program as p;
ghost use Rattle.boogie_tree.specs.Text.{prelude};
ghost use Rattle.boogie_tree.specs.Whole.{program_of};
ghost use Rattle.boogie_grammar.specs.declared.faults.BoogieFault.{BoogieFault};
ghost use Rattle.boogie_grammar.specs.Faults.{IsFault};
ghost use Rattle.boogie_grammar.specs.Spells.{BSpells};
ghost use Rattle.boogie_print.specs.Read.{IsRead};
ghost use Rattle.boogie_text.specs.Answers.{UnlessMemory, GivesProgram, GivesFault};

use crate::program::program;
use crate::texts::placed_tokens;
use boogie_grammar::BoogieFault;
use boogie_tree::{BProgram, PRELUDE};
use std::alloc::Global;
use vb_base::{Pos, advance, place_after};

/// The program that these bytes spell, or the first reason for which they are refused.
///
/// These are tried in this order. `Prelude` comes exactly where they do not begin with the prelude, `Syntax` where there
/// is a byte behind it at which neither a token nor a blank begins, `Deep` where too many brackets are unclosed at once, and
/// `Syntax` again where the tokens spell no program: at the first token with which they begin none, or at the end.
/// `Memory` where there is no memory.
pub fn read(alloc: Global, bytes: &[u8]) -> Result<BProgram, BoogieFault>
    requires { length bytes.now ≤ max_boogie_bytes }
    ensures program { IfOk result (λ b. IsRead bytes.now (program_of b)) }
    ensures fault { IfErr result (UnlessMemory (IsFault bytes.now)) }

    // and so no other program, and no other fault
    ensures only_program { (b : p.BProgram) → BSpells bytes.now b → GivesProgram b result }
    ensures only_fault { (f : BoogieFault) → IsFault bytes.now f → GivesFault f result }
{
    read_text(alloc, bytes)
}

fn read_text(alloc: Global, bytes: &[u8]) -> Result<BProgram, BoogieFault>
    requires { length bytes.now ≤ max_boogie_bytes }
    ensures { MatchResult result (λ b. IsRead bytes.now (program_of b)) (UnlessMemory (IsFault bytes.now)) }
{
    let tokens = placed_tokens(alloc, bytes)?;
    program(alloc, &tokens, place_after(bytes))
}

/// The place past the last byte of the prelude and these bytes.
#[tactic(auto, unfolding(boogie_tree::specs::Text::prelude))]
pub fn end_after(rest: &[u8]) -> Pos
    requires { length rest.now ≤ max_boogie_bytes }
    ensures { IsPlaceAfter (prelude ++ rest.now) result }
{
    advance(place_after(PRELUDE), rest)
}
