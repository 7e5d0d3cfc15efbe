// A program from its bytes.
ghost use Rattle.std.specs.Prelude.{◌≤◌, length, IfErr, IfOk, MatchResult};
ghost use Rattle.vb_base.specs.Limits.{max_boogie_bytes};
ghost use Rattle.boogie_grammar.specs.declared.faults.BoogieFault.{BoogieFault};
ghost use Rattle.boogie_text.specs.Answers.{UnlessMemory, GivesFault};
ghost use Rattle.boogie_loops.specs.View.{wprogram_of};
ghost use Rattle.boogie_loops.specs.Wide as w;
ghost use Rattle.boogie_loops_grammar.specs.Spells.{WideSpells};
ghost use Rattle.boogie_loops_text.specs.Answers.{IsWideRead, GivesProgram};
ghost use Rattle.boogie_loops_text.specs.Faults.{IsWideFault};

use crate::program::program;
use boogie_grammar::BoogieFault;
use boogie_loops::WProgram;
use boogie_text::texts::placed_tokens;
use std::alloc::Global;
use vb_base::place_after;

/// The program with loops, calls and contracts that these bytes spell, or the first reason for which they are refused.
///
/// These are tried in this order. `Prelude` comes exactly where they do not begin with the prelude, `Syntax` where there
/// is a byte behind it at which neither a token nor a blank begins, `Deep` where too many brackets are unclosed at once, and
/// `Syntax` again where the tokens spell no program: at the first token with which they begin none, or at the end.
/// `Memory` where there is no memory.
pub fn read_wide(alloc: Global, bytes: &[u8]) -> Result<WProgram, BoogieFault>
    requires { length bytes.now ≤ max_boogie_bytes }
    ensures program { IfOk result (λ b. IsWideRead bytes.now (wprogram_of b)) }
    ensures fault { IfErr result (UnlessMemory (IsWideFault bytes.now)) }

    // and so no other program, and no other fault
    ensures only_program { (b : w.WProgram) → WideSpells bytes.now b → GivesProgram b result }
    ensures only_fault { (f : BoogieFault) → IsWideFault bytes.now f → GivesFault f result }
{
    read_text(alloc, bytes)
}

fn read_text(alloc: Global, bytes: &[u8]) -> Result<WProgram, BoogieFault>
    requires { length bytes.now ≤ max_boogie_bytes }
    ensures { MatchResult result (λ b. IsWideRead bytes.now (wprogram_of b)) (UnlessMemory (IsWideFault bytes.now)) }
{
    let tokens = placed_tokens(alloc, bytes)?;
    program(alloc, &tokens, place_after(bytes))
}
