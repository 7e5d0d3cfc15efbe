// A law, as the contract of a function that does nothing.
ghost use Rattle.std.specs.Prelude.{ℕ, List};
ghost use Rattle.viper_core.specs.Program.{Program};
ghost use Rattle.viper_file.specs.Accepted.{IsAccepted};
ghost use Rattle.enc_units.specs.Translates.{Translates};
ghost use Rattle.prove_tool.specs.Subject.{NothingFails};

use crate::language::Language;

/// Where nothing of a translation fails, nothing of the file of Viper does: no unit, no method from a state that satisfies its
/// precondition, and no whole execution, if the file has none of the words `wildcard`, `inhale` and `assume`. A call of `translate` that
/// is done writes a translation, and one of `prove-boogie` or `certify-boogie` shows that nothing of its text fails.
pub fn where_nothing_of_a_translation_fails_nothing_of_the_file_does()
    ensures { (source : List ℕ) (program : Program) (text : List ℕ) → IsAccepted source program → Translates program text
        → NothingFails text Language.Boogie → NothingFails source Language.Viper }
{}
