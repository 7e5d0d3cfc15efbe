//! Laws of run files of Boogie, each as the contract of a function that does nothing.
ghost use Rattle.std.specs.Prelude.{◌≡◌, ◌≤◌, ◌⊎◌, ℕ, List, length};
ghost use Rattle.vb_base.specs.Limits.{max_boogie_bytes};
ghost use Rattle.vb_base.specs.Names.{NamesDiffer};
ghost use Rattle.vb_base.specs.declared.places.Pos.{Pos};
ghost use Rattle.boogie_tree.specs.Program.{Proc};
ghost use Rattle.boogie_tree.specs.Value.{BRun};
ghost use Rattle.run_file_boogie.specs.BoogieLines.{known};
ghost use Rattle.run_file_boogie.specs.BoogiePrintable.{IsPrintable, KeepsNames};
ghost use Rattle.run_file_boogie.specs.BoogiePrinted.{run_text};
ghost use Rattle.run_file_boogie.specs.BoogieRun.{SameRun, SpellsBoogieRun, GoesWrongAt, SpellsName, NamesNothingAt};

/// Bytes spell at most one run of a procedure whose variables have different names: all that they spell begin with the same
/// values and take the same choices.
pub fn one_boogie_run()
    ensures { (bytes : List ℕ) (d : Proc) (a b : BRun) → NamesDiffer (known d.locals).names →
        SpellsBoogieRun bytes d a → SpellsBoogieRun bytes d b → SameRun d.locals a b }
{}

/// Bytes spell a run, or they go wrong at one place.
pub fn a_boogie_run_or_one_place()
    ensures either { (bytes : List ℕ) (d : Proc) → length bytes ≤ max_boogie_bytes → NamesDiffer (known d.locals).names →
        ((run : BRun) × SpellsBoogieRun bytes d run) ⊎ ((at : Pos) × GoesWrongAt bytes d at) }
    ensures not_both { (bytes : List ℕ) (d : Proc) (run : BRun) (at : Pos) → NamesDiffer (known d.locals).names →
        SpellsBoogieRun bytes d run → GoesWrongAt bytes d at → ⊥ }
    ensures one_place { (bytes : List ℕ) (d : Proc) (at to : Pos) → NamesDiffer (known d.locals).names →
        GoesWrongAt bytes d at → GoesWrongAt bytes d to → at ≡ to }
{}

/// The printed text of a run spells that run, where the procedure keeps the rules on names, each setting gives a variable a
/// value of its type, and all can be spelled.
pub fn a_printed_boogie_run_is_spelled()
    ensures { (d : Proc) (run : BRun) → KeepsNames d → IsPrintable d run → SpellsBoogieRun (run_text d run) d run }
{}

/// The header of a file names a procedure, or goes wrong at one place, and never both.
pub fn a_header_or_one_place()
    ensures either { (bytes : List ℕ) → length bytes ≤ max_boogie_bytes → ((name : List ℕ) × SpellsName bytes name) ⊎ ((at : Pos) × NamesNothingAt bytes at) }
    ensures one_name { (bytes name other : List ℕ) → SpellsName bytes name → SpellsName bytes other → name ≡ other }
    ensures not_both { (bytes name : List ℕ) (at : Pos) → SpellsName bytes name → NamesNothingAt bytes at → ⊥ }
    ensures one_place { (bytes : List ℕ) (at to : Pos) → NamesNothingAt bytes at → NamesNothingAt bytes to → at ≡ to }
{}
