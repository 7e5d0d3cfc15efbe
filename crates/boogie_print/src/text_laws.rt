// Laws of what is written, each the contract of a function with nothing to do.
ghost use Rattle.std.specs.Prelude.{◌≡◌, ◌+◌, ◌^◌, ◌<◌, ◌++◌, ◌≤◌, ℕ, List, [], ◌∷◌, length};
ghost use Rattle.std.specs.List.{flat_map};
ghost use Rattle.vb_base.specs.Limits.{max_unclosed_brackets};
ghost use Rattle.boogie_tree.specs.Expr as t;
ghost use Rattle.boogie_tree.specs.Stmt as s;
ghost use Rattle.boogie_tree.specs.Program as p;
ghost use Rattle.boogie_tree.specs.Text.{prelude};
ghost use Rattle.boogie_tree.specs.Nested.{program_depth};
ghost use Rattle.boogie_tree.specs.declared.exprs.BBase.{BBase};
ghost use Rattle.boogie_grammar.specs.Grammar.{local_names};
ghost use Rattle.boogie_grammar.specs.Depth.{IsShallow};
ghost use Rattle.boogie_grammar.specs.Printed.{Naming, naming, under, stmt_text, stmts_text, proc_text, program_text};
ghost use Rattle.boogie_grammar.specs.Spells.{BSpells};
ghost use Rattle.boogie_print.specs.Fresh.{AreFresh};
ghost use Rattle.boogie_print.specs.Pieces.{Piece, Code, If, Either, Else, End, head_text, pieces_text};
ghost use Rattle.boogie_print.specs.Printable.{IsPrintable};
ghost use Rattle.boogie_print.specs.Short.{IsShort};

/// The text of a program is the prelude and then each procedure: its head, the pieces that its statements are written in, and
/// its end.
pub fn programs_are_written_in_pieces()
    ensures program { (program : p.BProgram) → program_text program ≡ prelude ++ flat_map proc_text program.procs }
    ensures procedure { (d : p.Proc) (ps : List Piece)
        → pieces_text (naming (local_names d.locals)) ps ≡ stmts_text (naming (local_names d.locals)) d.body
        → proc_text d ≡ head_text d.name d.locals ++ pieces_text (naming (local_names d.locals)) (ps ++ (End ∷ [])) }
{}

/// Statements are written in rows of pieces in which each block is closed: whole statements in one piece, one row behind
/// another, and an `if` in its bracket, the pieces of its first block, `else`, those of the second, and the end.
pub fn statements_are_written_in_pieces()
    ensures whole { (x : Naming) (xs : s.BStmts) → pieces_text x (Code xs ∷ []) ≡ stmts_text x xs }
    ensures both { (x : Naming) (xs ys : List s.BStmt) (ps qs : List Piece)
        → pieces_text x ps ≡ stmts_text x (s.stmts xs) → pieces_text x qs ≡ stmts_text x (s.stmts ys)
        → pieces_text x (ps ++ qs) ≡ stmts_text x (s.stmts (xs ++ ys)) }
    ensures branch { (x : Naming) (c : t.BExpr) (a b : s.BStmts) (ps qs : List Piece)
        → pieces_text x ps ≡ stmts_text x a → pieces_text x qs ≡ stmts_text x b
        → pieces_text x (If c ∷ (ps ++ (Else ∷ (qs ++ (End ∷ []))))) ≡ stmt_text x (s.If c a b) }
    ensures choice { (x : Naming) (a b : s.BStmts) (ps qs : List Piece)
        → pieces_text x ps ≡ stmts_text x a → pieces_text x qs ≡ stmts_text x b
        → pieces_text x (Either ∷ (ps ++ (Else ∷ (qs ++ (End ∷ []))))) ≡ stmt_text x (s.Either a b) }
{}

/// What is written spells the program, if it can be printed and numbers no more names than differ.
pub fn written_is_spelled()
    ensures { (program : p.BProgram) → IsPrintable program → IsShort program → BSpells (program_text program) program }
{}

/// The tokens of a program that is not nested too deep have not too many brackets unclosed at once.
pub fn nested_is_shallow()
    ensures { (bytes : List ℕ) (program : p.BProgram) (h : BSpells bytes program) → program_depth program ≤ max_unclosed_brackets → IsShallow h.tokens }
{}

/// What is written for the variables that a `forall` binds, where they and the locals are fewer than 2^63: for each of them
/// `q` and a number, a name that no local has, and no two the same.
pub fn bound_names_are_fresh()
    ensures { (locals : List (List ℕ)) (types : List BBase) → length locals + length types < 2 ^ 63 → AreFresh locals types (under (naming locals) types).bound }
{}
