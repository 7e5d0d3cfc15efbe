//! Laws of the code, each as the contract of a function that does nothing.

ghost use Rattle.std.specs.Prelude.{◌≤◌, ◌+◌, ◌*◌, ℕ, List, length};
ghost use Rattle.vb_value.specs.Bound.{Bound};
ghost use Rattle.vb_base.specs.Limits.{max_term_depth};
ghost use Rattle.viper_core.specs.Depth as depth;
ghost use Rattle.viper_core.specs.Formed.{IsFormed};
ghost use Rattle.viper_core.specs.Scope.{Scope};
ghost use Rattle.viper_core.specs.Stmt.{Stmt, Stmts};
ghost use Rattle.viper_core.specs.Typing.{MethodContext, IsStmt, AreStmts};
ghost use Rattle.viper_core.specs.Weight.{stmt_weight, stmts_weight};
ghost use Rattle.viper_meaning.specs.Statements.{Activation, run_stmt, run_block};
ghost use Rattle.boogie_tree.specs.Nested.{stmts_depth};
ghost use Rattle.boogie_tree.specs.Program.{BType};
ghost use Rattle.enc_expr.specs.Nodes.{written};
ghost use Rattle.enc_expr.specs.Place.{HasSizes};
ghost use Rattle.enc_expr.specs.Typed.{IsTypedPiece};
ghost use Rattle.enc_block.specs.Encoding.{stmt_code, block_code};
ghost use Rattle.enc_block.specs.Home.{Home, IsHome, kinds_of};
ghost use Rattle.enc_block.specs.Runs.{Runs};
ghost use Rattle.enc_block.specs.Sizes.{results_of, results_in};
ghost use Rattle.enc_block.specs.Typed.{HasHomeTypes};

/// From each environment in which a configuration stands, a well-typed statement of a formed program and its code end alike, and
/// so do blocks, with a bound and without one. On the moves of what the run records the code is done or fails where the run does.
/// And each run of the code on proper choices that is done or fails is backed by choices on which the run does the same, and took
/// the moves of what that one records. Where they are done, the configuration after the statement stands in the environment after
/// its code. With the bound the run may leave it: nothing is said of its end.
pub fn statements_and_their_code_end_alike()
    ensures stmt { (ts : List BType) (b : Bound) (k : Activation) (h : Home) (params : ℕ) (sc : Scope) (x : Stmt)
        → IsFormed k.program → IsHome ts k h
        → IsStmt (record { program = k.program; vars = k.vars; params = params }) sc x
        → Runs ts b k h (stmt_code k.program (kinds_of k) h x) (run_stmt b k x) }
    ensures block { (ts : List BType) (b : Bound) (k : Activation) (h : Home) (params : ℕ) (sc : Scope) (xs : Stmts)
        → IsFormed k.program → IsHome ts k h
        → AreStmts (record { program = k.program; vars = k.vars; params = params }) sc xs
        → Runs ts b k h (block_code k.program (kinds_of k) h xs) (run_block b k xs) }
{}

/// Behind locals of the types that a layout has, the code of a well-typed block of a formed program is well-typed, with its own locals
/// behind those, whose maps have indices of key types.
pub fn code_is_well_typed()
    ensures { (m : MethodContext) (h : Home) (ts : List BType) (sc : Scope) (xs : Stmts) → IsFormed m.program → AreStmts m sc xs
        → HasHomeTypes m.vars m.program.layout h ts
        → IsTypedPiece ts (block_code m.program (record { vars = m.vars; layout = m.program.layout }) h xs (length ts)) }
{}

/// The code of a well-typed block of a formed program, whose terms have at most 1,024 levels, has at most 1,366 brackets open at once
/// and one more for itself and each block that stands in another.
pub fn code_is_shallow()
    ensures { (m : MethodContext) (h : Home) (n : ℕ) (sc : Scope) (xs : Stmts) → IsFormed m.program → AreStmts m sc xs
        → depth.stmts_depth xs ≤ max_term_depth
        → stmts_depth (block_code m.program (record { vars = m.vars; layout = m.program.layout }) h xs n).stmts ≤ 1366 + (1 + depth.blocks_in xs) }
{}

/// The code of a well-typed statement of a formed program is at most 256 times as large as what the statement weighs, with each target
/// of its calls counted as one more, and so is that of a block. Of the code each node counts and each new local.
pub fn code_is_linear()
    ensures stmt { (m : MethodContext) (h : Home) (n : ℕ) (sc : Scope) (x : Stmt) → IsFormed m.program → HasSizes m.program.layout h.now
        → IsStmt m sc x → written (stmt_code m.program (record { vars = m.vars; layout = m.program.layout }) h x n)
        ≤ 256 * (stmt_weight m.program x + results_of x) }
    ensures block { (m : MethodContext) (h : Home) (n : ℕ) (sc : Scope) (xs : Stmts) → IsFormed m.program → HasSizes m.program.layout h.now
        → AreStmts m sc xs → written (block_code m.program (record { vars = m.vars; layout = m.program.layout }) h xs n)
        ≤ 256 * (stmts_weight m.program xs + results_in xs) }
{}
