//! A law, as the contract of a function that does nothing.
ghost use Rattle.std.specs.Prelude.{ℕ, List};
ghost use Rattle.boogie_file.specs.Accepted.{HasOneAnswer};

/// A file and a name have exactly one procedure, or are refused for exactly one reason.
pub fn one_answer()
    ensures { (bytes name : List ℕ) → HasOneAnswer bytes name }
{}
