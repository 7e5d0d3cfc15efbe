//! The law of the steps, as the contract of a function that does nothing.

ghost use Rattle.std.specs.Prelude.{◌≡◌, ℕ, List};
ghost use Rattle.viper_core.specs.Program.{Program};
ghost use Rattle.viper_core.specs.declared.programs.Unit.{Unit};
ghost use Rattle.boogie_grammar.specs.Printed.{Naming, stmts_text};
ghost use Rattle.boogie_print.specs.Asserts.{asserts_in};
ghost use Rattle.boogie_print.specs.Pieces.{Piece, pieces_text};
ghost use Rattle.boogie_tree.specs.Stmt.{BStmts};
ghost use Rattle.enc_units.specs.Forms.{Forms};
ghost use Rattle.enc_units.specs.Rows.{pieces_asserts, row_types, row_pieces};
ghost use Rattle.enc_units.specs.Steps.{unit_row, unit_step};
ghost use Rattle.enc_units.specs.Units.{unit_code};

/// The steps of each unit, one after the other, declare the locals of its code, and their statements and brackets form its
/// statements. Pieces that form statements have their text, and as many asserts.
pub fn the_steps_of_a_unit_are_its_code()
    ensures locals { (p : Program) (u : Unit) (n : ℕ) → row_types (unit_step p u) (unit_row p u) n ≡ (unit_code p u n).locals }
    ensures statements { (p : Program) (u : Unit) (n : ℕ) → Forms (row_pieces (unit_step p u) (unit_row p u) n) (unit_code p u n).stmts }
    ensures text { (names : Naming) (ps : List Piece) (xs : BStmts) → Forms ps xs → pieces_text names ps ≡ stmts_text names xs }
    ensures asserts { (ps : List Piece) (xs : BStmts) → Forms ps xs → pieces_asserts ps ≡ asserts_in xs }
{}
