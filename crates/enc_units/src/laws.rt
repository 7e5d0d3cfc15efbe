//! Laws of the code of units, each as the contract of a function that does nothing.

ghost use Rattle.std.specs.Prelude.{◌≡◌, ℕ, Some, slice_get};
ghost use Rattle.viper_core.specs.declared.programs.Unit.{Unit};
ghost use Rattle.viper_core.specs.Formed.{IsFormed};
ghost use Rattle.viper_core.specs.Program.{Program};
ghost use Rattle.boogie_meaning.specs.Programs.{IsTypedProc};
ghost use Rattle.enc_block.specs.Runs.{Runs};
ghost use Rattle.enc_units.specs.Units.{IsExact, Transfers, unit_procedure};

/// For each method of a formed program and each predicate with a body, and for each label, some run of its procedure fails there
/// exactly when some run of the method or predicate does. Runs of the procedure start from any values of its locals, and nothing
/// has a bound. And a run within the bound that fails is one of the procedure, from the opening's values with defaults elsewhere
/// and on the moves of what it recorded, which fails at the same label with no choice left, with the bound and without it.
pub fn procedures_fail_exactly_where_their_units_do()
    ensures exact { (p : Program) (n : ℕ) (u : Unit) → IsFormed p → slice_get p.units n ≡ Some u → IsExact p n u }
    ensures transfers { (p : Program) (n : ℕ) (u : Unit) → IsFormed p → slice_get p.units n ≡ Some u → Transfers p n u }
{}

/// The procedure of each method of a formed program, and of each predicate with a body, is well-typed.
pub fn procedures_are_well_typed()
    ensures { (p : Program) (n : ℕ) (u : Unit) → IsFormed p → slice_get p.units n ≡ Some u → IsTypedProc (unit_procedure p u) }
{}
