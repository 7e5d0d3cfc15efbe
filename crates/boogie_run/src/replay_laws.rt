//! Laws of where runs begin and of how they continue, as the contracts of functions that do nothing.

ghost use Rattle.std.specs.Prelude.{◌≡◌, ◌++◌, ◌∷◌, [], List, All};
ghost use Rattle.vb_value.specs.Bound.{Bound};
ghost use Rattle.boogie_tree.specs.Program.{BType};
ghost use Rattle.boogie_tree.specs.Stmt.{BStmt, stmts};
ghost use Rattle.boogie_tree.specs.Value.{BChoice, BSetting, BValue};
ghost use Rattle.boogie_tree.specs.Values.{IsEnvironment};
ghost use Rattle.boogie_meaning.specs.Run.{brun, brun_stmt, then_run};
ghost use Rattle.boogie_run.specs.Start.{FitsSetting, start_of};

/// Where each setting gives a variable a value of its type, a run begins with a value of its type for each variable.
pub fn settings_of_their_types_make_an_environment()
    ensures { (ls : List BType) (xs : List BSetting) → All (FitsSetting ls) xs → IsEnvironment ls (start_of ls xs) }
{}

/// A run of statements with one more behind them is the run of this one from where the run of the others is done.
pub fn a_run_goes_on_statement_by_statement()
    ensures { (ls : List BType) (b : Bound) (xs : List BStmt) (x : BStmt) (env : List BValue) (cs : List BChoice) →
        brun ls b (stmts (xs ++ x ∷ [])) env cs ≡ then_run (brun ls b (stmts xs) env cs) (brun_stmt ls b x) }
{}
