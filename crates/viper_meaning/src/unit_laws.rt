//! Laws of units, of the clauses with which they begin, and of what statements look at and change, each as the contract of a
//! function that does nothing.

ghost use Rattle.std.specs.Prelude.{◌≡◌, ◌+◌, ◌++◌, ◌<◌, ℕ, false, List, ◌∷◌, Some, All, Contains, map, take, slice_get};
ghost use Rattle.vb_base.specs.declared.places.Pos.{Pos};
ghost use Rattle.vb_value.specs.Bound.{Bound, Unbounded};
ghost use Rattle.vb_value.specs.Content.{Content, IsReducedContent};
ghost use Rattle.vb_value.specs.Fraction.{Fraction, IsReduced, write, is_negative};
ghost use Rattle.vb_value.specs.Layout.{Layout};
ghost use Rattle.vb_value.specs.declared.values.Ty.{Ty};
ghost use Rattle.vb_value.specs.declared.values.Value.{Value};
ghost use Rattle.viper_core.specs.Expr as t;
ghost use Rattle.viper_core.specs.Formed.{IsFormed};
ghost use Rattle.viper_core.specs.Literals.{IsProperAssertion};
ghost use Rattle.viper_core.specs.Plain.{AssertionOpensNothing};
ghost use Rattle.viper_core.specs.Part.{IsFrame};
ghost use Rattle.viper_core.specs.Program.{Program, Method};
ghost use Rattle.viper_core.specs.Scope.{Scope, scope_after, stmts_scope, some_assigns, loop_targets};
ghost use Rattle.viper_core.specs.Stmt.{Stmt, Stmts, While, loop};
ghost use Rattle.viper_core.specs.Typing.{Context, MethodContext, HasType, IsAssertion, IsStmt, AreStmts};
ghost use Rattle.viper_core.specs.declared.programs.Unit.TheVariants as unit;
ghost use Rattle.viper_state.specs.Choice as choice;
ghost use Rattle.viper_state.specs.Choice.{Choice};
ghost use Rattle.viper_state.specs.Event.{Event};
ghost use Rattle.viper_state.specs.Fits.{FitsStore, FitsMemo, FitsState, FitsScene, FitsOpening, FitsChoice, FitsEvent};
ghost use Rattle.viper_state.specs.Run.{Opening, Scene};
ghost use Rattle.viper_state.specs.State.{Memo, State, empty_state};
ghost use Rattle.viper_state.specs.Within.{IsProperMemo, IsProperScene, IsProperChoice};
ghost use Rattle.viper_meaning.specs.Alike.{RanAlike, LooksAlike};
ghost use Rattle.viper_meaning.specs.Assertions.{produce, consume};
ghost use Rattle.viper_meaning.specs.Ends.{the_end};
ghost use Rattle.viper_meaning.specs.Forgotten.{forgotten, forget};
ghost use Rattle.viper_meaning.specs.HeldWhole.{HoldsAtMostWhole};
ghost use Rattle.viper_meaning.specs.Kept.{IsAny};
ghost use Rattle.viper_meaning.specs.KeptRuns.{KeepsRun};
ghost use Rattle.viper_meaning.specs.More.{Besides, HoldsBeside, KeepsOfRest, AreScenes, EndsWithMore};
ghost use Rattle.viper_meaning.specs.Run.{Run, then_do, Goes, ran, on, then_ran};
ghost use Rattle.viper_meaning.specs.Sat.{conjoined, SatAll, Arrives, memo_of_state};
ghost use Rattle.viper_meaning.specs.Statements.{Activation, Configuration, taking_state, produce_all, consume_all, run_stmt, run_block};
ghost use Rattle.viper_meaning.specs.Units.{first_store, first_scene, begin_method, Begins, run_method, unit_run};
ghost use Rattle.viper_meaning.specs.Value.{value, opened};

/// Where nothing is held all is forgotten. So a run that takes any state in which nothing is held is one that loses what a
/// state holds, and forgets.
pub fn where_nothing_is_held_all_is_forgotten()
    ensures forgotten { (l : Layout) (s : State) (m : Memo) → FitsState l s → FitsMemo l m
        → forgotten (empty_state l (memo_of_state s)) m ≡ m }
    ensures taken { (program : Program) (s : State) (go : State → Run State) → FitsState program.layout s
        → taking_state program go ≡ then_do (forget program.layout (empty_state program.layout (memo_of_state s))) go }
{}

/// The first clause and those after it are one assertion, wherever they are produced or consumed.
pub fn clauses_are_one_assertion()
    ensures produced { (b : Bound) (a : t.Assertion) (rest : List t.Assertion) (sc : Scene) (s : State)
        → produce_all b (a ∷ rest) sc s ≡ produce b (conjoined a rest) sc write s }
    ensures consumed { (b : Bound) (a : t.Assertion) (rest : List t.Assertion) (start : State) (sc : Scene) (left : State)
        → consume_all b (a ∷ rest) start sc left ≡ consume b (conjoined a rest) start sc write left }
{}

/// Where clauses without `unfolding` are produced in a state in which nothing is held, what is reached satisfies them, with the
/// amounts that were taken.
pub fn what_clauses_make_satisfies_them()
    ensures { (b : Bound) (l : Layout) (m : Memo) (clauses : List t.Assertion) (sc : Scene) (choices : List Choice)
        (events : List Event) (u : State) (left : List Choice) → All AssertionOpensNothing clauses
        → All (IsProperAssertion Unbounded) clauses → IsProperMemo Unbounded m → IsProperScene Unbounded sc
        → All (IsProperChoice Unbounded) choices
        → on (produce_all b clauses sc (empty_state l m)) choices ≡ ran events (Goes u) left
        → (qs : List Fraction) × ((choices ≡ map choice.Amount qs ++ left) × SatAll clauses u sc qs) }
{}

/// Let a state satisfy clauses, or hold nothing where there is none. Where they are produced in the state with the same heap
/// and contents in which nothing is held, on the amounts of their wildcards, they never block and lack no choice; and where
/// they continue, they reach exactly the state that satisfies them, and leave the other choices.
pub fn what_satisfies_clauses_is_reached()
    ensures { (b : Bound) (l : Layout) (clauses : List t.Assertion) (sc : Scene) (u : State) (qs : List Fraction)
        (left : List Choice) → All (IsProperAssertion Unbounded) clauses → IsProperScene Unbounded sc → FitsState l u
        → All IsReduced qs → SatAll clauses u sc qs
        → Arrives (λ s. s ≡ u) left
        (on (produce_all b clauses sc (empty_state l (memo_of_state u))) (map choice.Amount qs ++ left)) }
{}

/// A unit that is a method begins, and then runs from the state in which it began, on the choices that are left. Where nothing
/// is held, and so where a unit begins, of no place more than the whole is held, and nothing of a field of null.
pub fn a_unit_begins_and_then_runs()
    ensures unit { (b : Bound) (program : Program) (n k : ℕ) (m : Method) (o : Opening) (choices : List Choice)
        → slice_get program.units n ≡ Some (unit.Method k) → slice_get program.methods k ≡ Some m
        → on (unit_run b program n o) choices ≡ then_ran (on (begin_method b program m o) choices)
        (λ s. on (run_method b (record { program = program; vars = m.vars; old = s }) m m.body
        (record { store = first_store m o.store; state = s }))) }
    ensures fits { (b : Bound) (program : Program) (k : ℕ) (m : Method) (o : Opening) → IsFormed program
        → slice_get program.methods k ≡ Some m → FitsOpening program.layout (take (m.params + m.returns) m.vars) o
        → KeepsRun (FitsEvent program.layout) (FitsChoice program.layout) (FitsState program.layout)
        (begin_method b program m o) }
    ensures whole { (b : Bound) (program : Program) (m : Method) (o : Opening)
        → KeepsRun IsAny IsAny HoldsAtMostWhole (begin_method b program m o) }
    ensures nothing { (l : Layout) (m : Memo) → HoldsAtMostWhole (empty_state l m) }
{}

/// Let a state satisfy the precondition of a method of a formed program. From its heap and contents, on the amounts of the
/// wildcards, the method begins just there, and leaves the other choices; or producing the precondition fails, or is over. And
/// where a precondition has no `unfolding`, each state in which the method begins satisfies it.
pub fn a_method_begins_where_its_precondition_is_satisfied()
    ensures begins { (b : Bound) (program : Program) (k : ℕ) (m : Method) (store : List Value) (s : State)
        (qs : List Fraction) (left : List Choice) → IsFormed program → slice_get program.methods k ≡ Some m
        → FitsStore (take (m.params + m.returns) m.vars) store → FitsState program.layout s → All IsReduced qs
        → SatAll m.preconditions s (first_scene program m (record { store = store; memo = memo_of_state s })) qs
        → Arrives (λ w. w ≡ s) left (on (begin_method b program m (record { store = store; memo = memo_of_state s }))
        (map choice.Amount qs ++ left)) }
    ensures satisfied { (b : Bound) (program : Program) (k : ℕ) (m : Method) (o : Opening) (s : State)
        → IsFormed program → slice_get program.methods k ≡ Some m → All AssertionOpensNothing m.preconditions
        → Begins b program m o s → (qs : List Fraction) × SatAll m.preconditions s (first_scene program m o) qs }
{}

/// A loop changes no variable but its targets, since it continues after its turns and no turn continues. What a block does not
/// assign, and what was numbered before it, keeps its value. So of the visible variables a turn changes the targets alone: the
/// others that it changes are declared in it.
pub fn a_loop_changes_only_its_targets()
    ensures statement { (b : Bound) (a : Activation) (at : Pos) (guard : t.Expr) (invariants : List t.Assertion)
        (body : Stmts) (turn : Pos) (targets : List ℕ) (c : Configuration) (x : ℕ) → (Contains targets x → ⊥)
        → KeepsRun IsAny IsAny (λ d. slice_get d.store x ≡ slice_get c.store x)
        (run_stmt b a (While (loop at guard invariants body turn targets)) c) }
    ensures block { (b : Bound) (m : MethodContext) (sc : Scope) (a : Activation) (xs : Stmts) (c : Configuration) (x : ℕ)
        → AreStmts m sc xs → x < sc.fresh → some_assigns x xs ≡ false
        → KeepsRun IsAny IsAny (λ d. slice_get d.store x ≡ slice_get c.store x) (run_block b a xs c) }
    ensures turn { (b : Bound) (m : MethodContext) (sc : Scope) (a : Activation) (body : Stmts) (c : Configuration) (x : ℕ)
        → IsFrame m sc → AreStmts m sc body → Contains sc.visible x → (Contains (loop_targets sc body) x → ⊥)
        → KeepsRun IsAny IsAny (λ d. slice_get d.store x ≡ slice_get c.store x) (run_block b a body c) }
{}

/// A statement looks at visible variables alone. From two configurations with the same state whose visible variables have the
/// same values it runs alike on any choices: with the same events, the same end and the same choices left, and where it
/// continues, to the same state and the same values of the variables that are then visible.
pub fn a_statement_looks_at_visible_variables_alone()
    ensures stmt { (b : Bound) (m : MethodContext) (sc : Scope) (a : Activation) (x : Stmt) (c d : Configuration)
        (choices : List Choice) → IsStmt m sc x → LooksAlike sc.visible c d
        → RanAlike (LooksAlike (scope_after sc x).visible) (on (run_stmt b a x c) choices) (on (run_stmt b a x d) choices) }
    ensures block { (b : Bound) (m : MethodContext) (sc : Scope) (a : Activation) (xs : Stmts) (c d : Configuration)
        (choices : List Choice) → AreStmts m sc xs → LooksAlike sc.visible c d
        → RanAlike (LooksAlike (stmts_scope sc xs).visible) (on (run_block b a xs c) choices)
        (on (run_block b a xs d) choices) }
{}

/// More permission over the same values and contents changes no value. Let a state hold of each resource so much that with what
/// others hold besides it is at most what another state holds. A typed expression that is blocked in the first is blocked in
/// the second; where both have a value it is the same; and what fails in the second fails in the first. So it is with the body
/// of a predicate that is produced from a content, and what is made so lies as before: of what the others hold no value and no
/// content changes. The scenes may be two, that agree on the visible variables and whose old states lie so too.
pub fn more_permission_changes_no_value()
    ensures value { (c : Context) (rest : Besides) (s w : State) (sc sd : Scene) (e : t.Expr) (u : Ty)
        → IsFormed c.program → HasType c e u → HoldsBeside c.program.layout rest s w → AreScenes c rest sc sd
        → FitsScene c.program.layout c.vars sd
        → EndsWithMore (λ x y. x ≡ y) (the_end (value Unbounded e s sc)) (the_end (value Unbounded e w sd)) }
    ensures opened { (c : Context) (rest : Besides) (s w : State) (sc sd : Scene) (a : t.Assertion) (d : Content)
        (k : Fraction) → IsFormed c.program → IsAssertion c a → IsReducedContent d → IsReduced k → is_negative k ≡ false
        → HoldsBeside c.program.layout rest s w → AreScenes c rest sc sd → FitsScene c.program.layout c.vars sd
        → EndsWithMore (λ x y. HoldsBeside c.program.layout rest x y × KeepsOfRest rest w y)
        (the_end (opened Unbounded a d s sc k)) (the_end (opened Unbounded a d w sd k)) }
{}
