//! Laws of runs, each as the contract of a function that does nothing.

ghost use Rattle.std.specs.Prelude.{◌≡◌, false, List, ◌++◌, All};
ghost use Rattle.vb_value.specs.Bound.{Bound, Unbounded, Bounded};
ghost use Rattle.boogie_tree.specs.Stmt as s;
ghost use Rattle.boogie_tree.specs.Program.{BType, BProgram};
ghost use Rattle.boogie_tree.specs.Value.{BValue, BChoice};
ghost use Rattle.boogie_meaning.specs.Compared.{StaysWithin, RunIsBoundedBy};
ghost use Rattle.boogie_meaning.specs.Kept.{KeepsTypes};
ghost use Rattle.boogie_meaning.specs.Programs.{IsTypedProgram, NeverWrong};
ghost use Rattle.boogie_meaning.specs.Run.{TakesSome, brun, is_short, with_more};
ghost use Rattle.boogie_meaning.specs.Types.{IsTyped};
ghost use Rattle.boogie_tree.specs.Values.{IsEnvironment, IsReducedChoice};

/// Choices that are left over do not change the end of a run.
pub fn choices_left_over_change_nothing()
    ensures { (ls : List BType) (b : Bound) (xs : s.BStmts) (env : List BValue) (cs : List BChoice) (more : List BChoice)
        → is_short (brun ls b xs env cs) ≡ false → brun ls b xs env (cs ++ more) ≡ with_more more (brun ls b xs env cs) }
{}

/// A run that wants no more choices takes some of those that it is given and leaves the others. On the ones that it takes, with
/// any others behind them, it ends alike and leaves just these others.
pub fn a_run_takes_some_of_its_choices()
    ensures { (ls : List BType) (b : Bound) (xs : s.BStmts) (env : List BValue) (cs : List BChoice)
        → is_short (brun ls b xs env cs) ≡ false → TakesSome (λ ds. brun ls b xs env ds) cs }
{}

/// A run within the bound that does not leave it is the run without it. Without a bound no run leaves it.
pub fn the_bound_changes_nothing_else_of_a_run()
    ensures run { (ls : List BType) (xs : s.BStmts) (env : List BValue) (cs : List BChoice)
        → RunIsBoundedBy (brun ls Bounded xs env cs) (brun ls Unbounded xs env cs) }
    ensures never_over { (ls : List BType) (xs : s.BStmts) (env : List BValue) (cs : List BChoice)
        → StaysWithin (brun ls Unbounded xs env cs) }
{}

/// A well-typed run is never Wrong, with the bound or without it, and keeps each variable of its type.
pub fn well_typed_runs_are_never_wrong()
    ensures run { (ls : List BType) (b : Bound) (xs : s.BStmts) (env : List BValue) (cs : List BChoice) → IsTyped ls xs
        → IsEnvironment ls env → All IsReducedChoice cs → KeepsTypes ls (brun ls b xs env cs) }
    ensures program { (program : BProgram) → IsTypedProgram program → NeverWrong program }
{}
