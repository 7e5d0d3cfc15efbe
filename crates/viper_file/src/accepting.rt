// From the bytes of a file to its typed program.
ghost use Rattle.std.specs.Prelude.{◌≡◌, ◌≤◌, length, IfOk, IsErrOf};
ghost use Rattle.vb_base.specs.Limits.{max_viper_bytes};
ghost use Rattle.viper_core.specs.Formed.{IsFormed};
ghost use Rattle.viper_core.specs.View.{program_of};
ghost use Rattle.viper_exec_subset.specs.Unframed as unframed;
ghost use Rattle.viper_file.specs.Accepted.{IsAccepted, IsTextRefusal};

use crate::fault::{ViperFault, ViperRefusal};
use std::alloc::Global;
use vb_base::{Pos, place_after};
use viper_core::Program;
use viper_exec_subset::first_unframed;
use viper_parse::parse;
use viper_syntax::lex;
use viper_types::check;

/// The typed program of a file. What a stage leaves over is freed before the next.
///
/// A text that is refused is `Refused`, for the reason that the contract tells. `Memory` where there is no memory.
pub fn typed_program(alloc: Global, bytes: &[u8]) -> Result<Program, ViperFault>
    requires { length bytes.now ≤ max_viper_bytes }
    ensures accepted { IfOk result (λ p. IsAccepted bytes.now (program_of p)) }
    ensures formed { IfOk result (λ p. IsFormed (program_of p)) }
    ensures refused { (r : ViperRefusal) → IsErrOf result (ViperFault.Refused r) → IsTextRefusal bytes.now r }
{
    let tokens = lex(alloc, bytes)?;
    let source = parse(alloc, &tokens, place_after(bytes))?;
    drop(tokens);
    Ok(check(alloc, &source)?)
}

/// The same, with the place of the first of the words `wildcard`, `inhale` and `assume`, where the file has one of them.
pub fn program_and_word(alloc: Global, bytes: &[u8]) -> Result<(Program, Option<Pos>), ViperFault>
    requires { length bytes.now ≤ max_viper_bytes }
    ensures accepted { IfOk result (λ p. (accepted : IsAccepted bytes.now (program_of p.0)) × (unframed.first_unframed accepted.tokens ≡ p.1)) }
    ensures formed { IfOk result (λ p. IsFormed (program_of p.0)) }
    ensures refused { (r : ViperRefusal) → IsErrOf result (ViperFault.Refused r) → IsTextRefusal bytes.now r }
{
    let tokens = lex(alloc, bytes)?;
    let word = first_unframed(&tokens);
    let tree = parse(alloc, &tokens, place_after(bytes))?;
    drop(tokens);
    let program = check(alloc, &tree)?;
    Ok((program, word))
}
