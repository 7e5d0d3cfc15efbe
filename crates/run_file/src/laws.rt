//! Laws of run files, each as the contract of a function that does nothing.
ghost use Rattle.std.specs.Prelude.{◌≡◌, ◌≤◌, ◌⊎◌, ℕ, List, length};
ghost use Rattle.vb_base.specs.Limits.{max_boogie_bytes};
ghost use Rattle.vb_base.specs.declared.places.Pos.{Pos};
ghost use Rattle.viper_core.specs.Formed.{IsFormed};
ghost use Rattle.viper_core.specs.Program.{Program};
ghost use Rattle.run_file.specs.Printable.{IsPrintable};
ghost use Rattle.run_file.specs.Printed.{run_text};
ghost use Rattle.run_file.specs.Run.{ViperRun, SpellsViperRun, GoesWrongAt};

/// Bytes spell at most one run of a unit of a formed program.
pub fn one_run()
    ensures { (bytes : List ℕ) (p : Program) (n : ℕ) (a b : ViperRun) → IsFormed p →
        SpellsViperRun bytes p n a → SpellsViperRun bytes p n b → a ≡ b }
{}

/// Bytes spell a run, or they go wrong at one place.
pub fn a_run_or_one_place()
    ensures either { (bytes : List ℕ) (p : Program) (n : ℕ) → length bytes ≤ max_boogie_bytes → IsFormed p →
        ((run : ViperRun) × SpellsViperRun bytes p n run) ⊎ ((at : Pos) × GoesWrongAt bytes p n at) }
    ensures not_both { (bytes : List ℕ) (p : Program) (n : ℕ) (run : ViperRun) (at : Pos) → IsFormed p →
        SpellsViperRun bytes p n run → GoesWrongAt bytes p n at → ⊥ }
    ensures one_place { (bytes : List ℕ) (p : Program) (n : ℕ) (at to : Pos) → IsFormed p →
        GoesWrongAt bytes p n at → GoesWrongAt bytes p n to → at ≡ to }
{}

/// The printed text of a run spells that run, where it fits the program, is within the bound, and has references below 2^64.
pub fn a_printed_run_is_spelled()
    ensures { (p : Program) (n : ℕ) (run : ViperRun) → IsFormed p → IsPrintable p n run →
        SpellsViperRun (run_text p n run) p n run }
{}

/// Each run that bytes spell can be printed so that the text spells it.
pub fn a_spelled_run_is_printable()
    ensures { (bytes : List ℕ) (p : Program) (n : ℕ) (run : ViperRun) → SpellsViperRun bytes p n run →
        IsPrintable p n run }
{}
