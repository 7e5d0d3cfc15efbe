//! Laws, each as the contract of a function that does nothing.
ghost use Rattle.std.specs.Prelude.{ℕ, List};
ghost use Rattle.vb_value.specs.Bound.{Bound};
ghost use Rattle.viper_core.specs.Program.{Program};
ghost use Rattle.viper_exec_meaning.specs.Frame.{NoExecutionFails, NoUnitFails};
ghost use Rattle.viper_file.specs.Accepted.{HasOneAnswer, IsAccepted};
ghost use Rattle.viper_file.specs.Framed.{IsFramed};
ghost use Rattle.viper_file.specs.Verified.{HasNoFailure};

/// Bytes are the text of exactly one program, or refused for exactly one reason.
pub fn one_answer()
    ensures { (bytes : List ℕ) → HasOneAnswer bytes }
{}

/// Where no run of a unit of a file fails, no method fails, with the bound or without it, from a state that satisfies its
/// precondition: one whose permissions are exactly those that the precondition denotes, and in which nothing is held where it has no
/// clause. And no whole execution of a method does, with all that it calls and however often loops turn, from any opening that fits,
/// on any choices, within any budget, where the file has none of the words `wildcard`, `inhale` and `assume`.
pub fn where_no_unit_fails_nothing_does()
    ensures methods { (bytes : List ℕ) (program : Program) → IsAccepted bytes program → NoUnitFails program → HasNoFailure program }
    ensures executions { (bytes : List ℕ) (program : Program) → IsFramed bytes program → NoUnitFails program → (b : Bound) → NoExecutionFails b program }
{}
