// Laws of the text, each the contract of a function with nothing to do.
ghost use Rattle.std.specs.Prelude.{◌≡◌, ◌≤◌, ◌⊎◌, ◌++◌, [], List, ℕ, length, take};
ghost use Rattle.vb_base.specs.Limits.{max_boogie_bytes};
ghost use Rattle.vb_base.specs.Place.{IsPlace};
ghost use Rattle.boogie_tree.specs.Program as p;
ghost use Rattle.boogie_tree.specs.Text.{prelude};
ghost use Rattle.boogie_tree.specs.Nested.{program_depth};
ghost use Rattle.boogie_grammar.specs.declared.tokens.PlacedLexeme.{PlacedLexeme};
ghost use Rattle.boogie_grammar.specs.declared.faults.BoogieFault.{BoogieFault};
ghost use Rattle.boogie_grammar.specs.Depth.{IsShallow, unclosed};
ghost use Rattle.boogie_grammar.specs.Faults.{IsFault};
ghost use Rattle.boogie_grammar.specs.Spells.{Spells, BSpells, IsProgram, GoesWrong};
ghost use Rattle.boogie_print.specs.Read.{IsRead};
ghost use Rattle.boogie_print.specs.Printable.{IsPrintable};
ghost use Rattle.boogie_text.specs.Tail.{IsTail};

/// No bytes spell two programs.
pub fn one_program()
    ensures { (bytes : List ℕ) (a : p.BProgram) (b : p.BProgram) → BSpells bytes a → BSpells bytes b → a ≡ b }
{}

/// A list of tokens spells at most one program.
pub fn one_tree()
    ensures { (ts : List PlacedLexeme) (a : p.BProgram) (b : p.BProgram) → Spells ts a → Spells ts b → a ≡ b }
{}

/// A list of tokens goes wrong at one place at most.
pub fn one_place()
    ensures { (ts : List PlacedLexeme) (i j : ℕ) → IsPlace IsProgram ts i → IsPlace IsProgram ts j → i ≡ j }
{}

/// Each list of tokens spells a program, or spells none and goes wrong at a place.
pub fn some_answer()
    ensures { (ts : List PlacedLexeme) → IsProgram ts ⊎ GoesWrong ts }
{}

/// A text that continues behind the prelude, as behind no procedure, so that all procedures are these, is read as these.
pub fn read_by_procedures()
    ensures { (bytes rest : List ℕ) (ps : List p.Proc) → bytes ≡ prelude ++ rest → IsTail [] rest ps → IsRead bytes (record { procs = ps }) }
{}

/// A text that is not too long spells a program whose brackets are not too deep, or is refused.
pub fn some_text_answer()
    ensures { (bytes : List ℕ) → length bytes ≤ max_boogie_bytes → ((b : p.BProgram) × IsRead bytes b) ⊎ ((f : BoogieFault) × IsFault bytes f) }
{}

/// Bytes are refused in one way at most.
pub fn one_fault()
    ensures { (bytes : List ℕ) (f g : BoogieFault) → IsFault bytes f → IsFault bytes g → f ≡ g }
{}

/// Bytes that spell a program whose brackets are not too deep are not refused.
pub fn not_refused()
    ensures { (bytes : List ℕ) (f : BoogieFault) (b : p.BProgram) (h : BSpells bytes b) → IsShallow h.tokens → IsFault bytes f → ⊥ }
{}

/// The tokens of a program have no more brackets unclosed at once than the program is nested.
pub fn brackets_are_nested()
    ensures { (ts : List PlacedLexeme) (p : p.BProgram) → Spells ts p → (n : ℕ) → unclosed (take n ts) ≤ program_depth p }
{}

/// What bytes spell can be printed: names are names that are not reserved and differ where they have to, literals are within
/// the bound, and the number of each variable exists.
pub fn spelled_is_printable()
    ensures { (bytes : List ℕ) (b : p.BProgram) → BSpells bytes b → IsPrintable b }
{}
