// From a file to its program.
ghost use Rattle.std.specs.Prelude.{◌≡◌, ◌≤◌, ℕ, length, IfErr, IfOk};
ghost use Rattle.vb_base.specs.Limits.{max_boogie_bytes, max_viper_bytes};
ghost use Rattle.vb_outer.specs.Shelf.{IsWhole};
ghost use Rattle.prove_tool.specs.Call.{StopsAtFile};
ghost use Rattle.prove_tool.specs.Parts.{IsSound, StopsAtBytes, subject_of};
ghost use Rattle.prove_tool.specs.Subject.{IsAcceptedAs, most_bytes};
ghost use Rattle.prove_tool.specs.Written.{IsProgramOf};

use crate::language::Language;
use crate::status::{ProveStatus, of_boogie, of_file, of_viper};
use crate::subject::Subject;
use boogie_file::boogie_program;
use std::alloc::Global;
use vb_outer::{Shelf, read_file};
use viper_file::typed_program;

/// The typed program of the bytes of a file of Viper.
fn viper_subject(alloc: Global, bytes: &[u8]) -> Result<Subject, ProveStatus>
    requires { length bytes.now ≤ max_viper_bytes }
    ensures accepted { IfOk result (λ p. IsAcceptedAs bytes.now Language.Viper (subject_of p)) }
    ensures sound { IfOk result (λ p. IsSound (subject_of p)) }
    ensures stops { (before now : ℕ) → IfErr result (StopsAtBytes bytes.now Language.Viper before now) }
{
    match typed_program(alloc, bytes) {
        Ok(program) => Ok(Subject::Viper(program)),
        Err(fault) => Err(of_viper(fault)),
    }
}

/// The typed program of the bytes of a text of Boogie.
fn boogie_subject(alloc: Global, bytes: &[u8]) -> Result<Subject, ProveStatus>
    requires { length bytes.now ≤ max_boogie_bytes }
    ensures accepted { IfOk result (λ p. IsAcceptedAs bytes.now Language.Boogie (subject_of p)) }
    ensures sound { IfOk result (λ p. IsSound (subject_of p)) }
    ensures stops { (before now : ℕ) → IfErr result (StopsAtBytes bytes.now Language.Boogie before now) }
{
    match boogie_program(alloc, bytes) {
        Ok(program) => Ok(Subject::Boogie(program)),
        Err(trouble) => Err(of_boogie(trouble)),
    }
}

/// The typed program of the bytes of a file of the language.
fn program_of_bytes(alloc: Global, language: Language, bytes: &[u8]) -> Result<Subject, ProveStatus>
    requires { length bytes.now ≤ most_bytes language }
    ensures accepted { IfOk result (λ p. IsAcceptedAs bytes.now language (subject_of p)) }
    ensures sound { IfOk result (λ p. IsSound (subject_of p)) }
    ensures stops { (before now : ℕ) → IfErr result (StopsAtBytes bytes.now language before now) }
{
    match language {
        Language::Viper => viper_subject(alloc, bytes),
        Language::Boogie => boogie_subject(alloc, bytes),
    }
}

/// Reads a file of the language: its typed program. Its bytes are given up behind.
pub fn program_of_file<H: Shelf>(
    alloc: Global,
    shelf: &mut H,
    language: Language,
    file: &str,
) -> Result<Subject, ProveStatus>
    ensures program { IfOk result (λ p. IsProgramOf (IsWhole (H.files shelf.old)) language file.now (subject_of p)) }
    ensures sound { IfOk result (λ p. IsSound (subject_of p)) }
    ensures stops { IfErr result (StopsAtFile (H.files shelf.old) language file.now (H.faults shelf.old) (H.faults shelf.new)) }
    ensures later { H.faults shelf.old ≤ H.faults shelf.new }
    ensures files { H.files shelf.new ≡ H.files shelf.old }
{
    match read_file(alloc, shelf, file, language.most_bytes()) {
        Ok(bytes) => program_of_bytes(alloc, language, &bytes),
        Err(fault) => Err(of_file(language, fault)),
    }
}
