// Laws of the text, each the contract of a function with nothing to do.
ghost use Rattle.std.specs.Prelude.{◌≡◌, ◌≤◌, ◌⊎◌, List, ℕ, length, All};
ghost use Rattle.vb_base.specs.Limits.{max_boogie_bytes};
ghost use Rattle.boogie_grammar.specs.Depth.{IsShallow};
ghost use Rattle.boogie_grammar.specs.declared.faults.BoogieFault.{BoogieFault};
ghost use Rattle.boogie_grammar.specs.declared.tokens.PlacedLexeme.{PlacedLexeme};
ghost use Rattle.boogie_print.specs.Printable.{IsFreeName};
ghost use Rattle.boogie_loops.specs.Wide as w;
ghost use Rattle.boogie_loops.specs.Conditions.{HasNames, NamesAreApart, ProcLiteralsFit};
ghost use Rattle.boogie_loops_text.specs.Answers.{IsWideRead};
ghost use Rattle.boogie_loops_text.specs.Faults.{IsWideFault};
ghost use Rattle.boogie_loops_grammar.specs.Spells.{Spells, WideSpells, SpellsWideProgram, GoesWrong};

/// No bytes spell two programs.
pub fn one_program()
    ensures { (bytes : List ℕ) (a : w.WProgram) (b : w.WProgram) → WideSpells bytes a → WideSpells bytes b → a ≡ b }
{}

/// A list of tokens spells at most one program.
pub fn one_tree()
    ensures { (ts : List PlacedLexeme) (a : w.WProgram) (b : w.WProgram) → Spells ts a → Spells ts b → a ≡ b }
{}

/// Each list of tokens spells a program, or spells none and goes wrong at a place.
pub fn some_answer()
    ensures { (ts : List PlacedLexeme) → SpellsWideProgram ts ⊎ GoesWrong ts }
{}

/// A text that is not too long spells a program whose brackets are not too deep, or is refused.
pub fn some_text_answer()
    ensures { (bytes : List ℕ) → length bytes ≤ max_boogie_bytes → ((program : w.WProgram) × IsWideRead bytes program) ⊎ ((f : BoogieFault) × IsWideFault bytes f) }
{}

/// Bytes are refused in one way at most.
pub fn one_fault()
    ensures { (bytes : List ℕ) (f g : BoogieFault) → IsWideFault bytes f → IsWideFault bytes g → f ≡ g }
{}

/// Bytes that spell a program whose brackets are not too deep are not refused.
pub fn not_refused()
    ensures { (bytes : List ℕ) (f : BoogieFault) (b : w.WProgram) (h : WideSpells bytes b) → IsShallow h.tokens → IsWideFault bytes f → ⊥ }
{}

/// What bytes spell keeps the conditions on names and literals: the names that have to differ do, none of them is reserved, each
/// literal is within the bound, and each `forall` binds a variable.
pub fn what_is_spelled_can_be_printed()
    ensures { (bytes : List ℕ) (program : w.WProgram) → WideSpells bytes program → (NamesAreApart program) × (All (HasNames IsFreeName) program.procs) × (All ProcLiteralsFit program.procs) }
{}
