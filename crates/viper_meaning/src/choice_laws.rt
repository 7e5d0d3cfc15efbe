//! Laws of the choices that a run takes, each as the contract of a function that does nothing.

ghost use Rattle.std.specs.Prelude.{◌≡◌, ◌⊎◌, ℕ, ◌++◌, List, ◌∷◌, All, false};
ghost use Rattle.vb_base.specs.declared.labels.Label.{Label};
ghost use Rattle.vb_value.specs.Bound.{Bound, Unbounded};
ghost use Rattle.vb_value.specs.Fraction.{Fraction};
ghost use Rattle.vb_value.specs.Layout.{Layout};
ghost use Rattle.viper_core.specs.Expr as t;
ghost use Rattle.viper_core.specs.Program.{Program};
ghost use Rattle.viper_core.specs.Stmt.{Stmt, Stmts, FoldStmt};
ghost use Rattle.viper_state.specs.Choice.{Choice};
ghost use Rattle.viper_state.specs.Event.{Event};
ghost use Rattle.viper_state.specs.Fits.{FitsChoice};
ghost use Rattle.viper_state.specs.Run.{Opening, Scene};
ghost use Rattle.viper_state.specs.State.{State};
ghost use Rattle.viper_meaning.specs.Asked.{Splits, Passes, Asked, IsAsked, Asks, IsReducedChoice};
ghost use Rattle.viper_meaning.specs.Assertions.{produce, consume};
ghost use Rattle.viper_meaning.specs.Contents.{fold_instance};
ghost use Rattle.viper_meaning.specs.Forgotten.{forget};
ghost use Rattle.viper_meaning.specs.Run.{Run, Step, Fails, Blocked, Short, ran, on, is_short};
ghost use Rattle.viper_meaning.specs.Statements.{Activation, Configuration, run_stmt, run_block};
ghost use Rattle.viper_meaning.specs.Units.{unit_run, Opens, ViperFails};

/// A run that is not short took the first of its choices, and left the others. On those that it took, whatever stands behind
/// them, it ends alike, with the same events, and leaves just that; on fewer of them it is short. So it is with each run:
/// those of assertions, of instances that are folded, and of predicates and methods end in a state, those of statements in a
/// configuration.
pub fn a_run_takes_the_first_of_its_choices()
    ensures states { (r : Run State) (choices : List Choice) (events : List Event) (step : Step State) (left : List Choice)
        → on r choices ≡ ran events step left → is_short (ran events step left) ≡ false → Splits r choices events step left }
    ensures configurations { (r : Run Configuration) (choices : List Choice) (events : List Event) (step : Step Configuration)
        (left : List Choice) → on r choices ≡ ran events step left → is_short (ran events step left) ≡ false
        → Splits r choices events step left }
{}

/// A statement, a block or a unit that is not short took the first of its choices, and left the others. On those that it took,
/// whatever stands behind them, it ends alike, with the same events, and leaves just that; on fewer of them it is short.
pub fn a_statement_takes_the_first_of_its_choices()
    ensures stmt { (b : Bound) (a : Activation) (x : Stmt) (c : Configuration) (choices : List Choice) (events : List Event)
        (step : Step Configuration) (left : List Choice) → on (run_stmt b a x c) choices ≡ ran events step left
        → is_short (ran events step left) ≡ false → Splits (run_stmt b a x c) choices events step left }
    ensures block { (b : Bound) (a : Activation) (xs : Stmts) (c : Configuration) (choices : List Choice) (events : List Event)
        (step : Step Configuration) (left : List Choice) → on (run_block b a xs c) choices ≡ ran events step left
        → is_short (ran events step left) ≡ false → Splits (run_block b a xs c) choices events step left }
    ensures unit { (b : Bound) (program : Program) (n : ℕ) (o : Opening) (choices : List Choice) (events : List Event)
        (step : Step State) (left : List Choice) → on (unit_run b program n o) choices ≡ ran events step left
        → is_short (ran events step left) ≡ false → Splits (unit_run b program n o) choices events step left }
{}

/// Wherever a run takes a choice it asks for one of some kind: one of two ways, a value of a type, an amount, a reference, or a
/// heap and contents that fit the program. Any other blocks it at once.
pub fn a_run_asks_for_what_it_takes()
    ensures produce { (l : Layout) (b : Bound) (a : t.Assertion) (sc : Scene) (k : Fraction) (s : State)
        → Asks l (produce b a sc k s) }
    ensures consume { (l : Layout) (b : Bound) (a : t.Assertion) (start : State) (sc : Scene) (k : Fraction) (left : State)
        → Asks l (consume b a start sc k left) }
    ensures forget { (l : Layout) (s : State) → Asks l (forget l s) }
    ensures fold { (l : Layout) (b : Bound) (program : Program) (f : FoldStmt) (s : State) (sc : Scene)
        → Asks l (fold_instance b program f s sc) }
    ensures stmt { (b : Bound) (a : Activation) (x : Stmt) (c : Configuration) → Asks a.program.layout (run_stmt b a x c) }
    ensures block { (b : Bound) (a : Activation) (xs : Stmts) (c : Configuration) → Asks a.program.layout (run_block b a xs c) }
    ensures unit { (b : Bound) (program : Program) (n : ℕ) (o : Opening) → Asks program.layout (unit_run b program n o) }
{}

/// Where the choices of a unit run out, it asks for one of some kind. Any other blocks it there: it is recorded nowhere, and what
/// stands behind it is left.
pub fn what_was_not_asked_for_blocks()
    ensures { (b : Bound) (program : Program) (n : ℕ) (o : Opening) (firsts : List Choice) (events : List Event)
        (left : List Choice) → on (unit_run b program n o) firsts ≡ ran events Short left
        → (w : Asked) × ((c : Choice) (rest : List Choice)
        → IsAsked program.layout w c ⊎ (on (unit_run b program n o) (firsts ++ c ∷ rest) ≡ ran events Blocked rest)) }
{}

/// Choices that a run did not take need not fit. All that it took fit the program, unless it is blocked or short, where those
/// that are given are in lowest terms, as each fraction of the program is by its type. On just those it ends alike, with the
/// same events. So a unit that fails on some choices fails on choices that fit, at the same label.
pub fn what_was_taken_fits()
    ensures stmt { (b : Bound) (a : Activation) (x : Stmt) (c : Configuration) (choices : List Choice) (events : List Event)
        (step : Step Configuration) (left : List Choice) → on (run_stmt b a x c) choices ≡ ran events step left → Passes step
        → All IsReducedChoice choices
        → (h : Splits (run_stmt b a x c) choices events step left) × All (FitsChoice a.program.layout) h.taken }
    ensures block { (b : Bound) (a : Activation) (xs : Stmts) (c : Configuration) (choices : List Choice) (events : List Event)
        (step : Step Configuration) (left : List Choice) → on (run_block b a xs c) choices ≡ ran events step left → Passes step
        → All IsReducedChoice choices
        → (h : Splits (run_block b a xs c) choices events step left) × All (FitsChoice a.program.layout) h.taken }
    ensures unit { (b : Bound) (program : Program) (n : ℕ) (o : Opening) (choices : List Choice) (events : List Event)
        (step : Step State) (left : List Choice) → on (unit_run b program n o) choices ≡ ran events step left → Passes step
        → All IsReducedChoice choices
        → (h : Splits (unit_run b program n o) choices events step left) × All (FitsChoice program.layout) h.taken }
    ensures fails { (program : Program) (n : ℕ) (o : Opening) (label : Label) (choices : List Choice) (events : List Event)
        (left : List Choice) → Opens program n o → All IsReducedChoice choices
        → on (unit_run Unbounded program n o) choices ≡ ran events (Fails label) left → ViperFails program n label }
{}
