//! Laws of statements and units, each as the contract of a function that does nothing.

ghost use Rattle.std.specs.Bool.{Decides};
ghost use Rattle.std.specs.Prelude.{◌≡◌, ◌⊎◌, ℕ, ◌++◌, List, [], ◌∷◌, All, false};
ghost use Rattle.vb_value.specs.Bound.{Bound, Unbounded, Bounded};
ghost use Rattle.vb_value.specs.Content.{Content};
ghost use Rattle.vb_value.specs.Fraction.{Fraction, write, is_negative};
ghost use Rattle.vb_value.specs.Layout.{Layout};
ghost use Rattle.vb_value.specs.declared.values.Value.{Value};
ghost use Rattle.viper_core.specs.Expr as t;
ghost use Rattle.viper_core.specs.Formed.{IsFormed};
ghost use Rattle.viper_core.specs.Literals.{IsWithinExpr, AreWithinExprs, IsProperExpr, AreProperExprs};
ghost use Rattle.viper_core.specs.Plain.{AssertionOpensNothing};
ghost use Rattle.viper_core.specs.Program.{Program};
ghost use Rattle.viper_core.specs.Scope.{Scope};
ghost use Rattle.viper_core.specs.Stmt.{Stmt, Stmts, FoldStmt, Fold, Unfold, next};
ghost use Rattle.viper_core.specs.Typing.{Context, MethodContext, IsFold, IsStmt, AreStmts};
ghost use Rattle.viper_core.specs.Written.{HasNoWildcard};
ghost use Rattle.viper_state.specs.Choice.{Choice};
ghost use Rattle.viper_state.specs.Event.{Event, Split, Leaf};
ghost use Rattle.viper_state.specs.Fits.{FitsState, FitsScene, FitsChoice, FitsEvent, HasMaps, MemoHasMaps};
ghost use Rattle.viper_state.specs.Run.{Opening, Scene};
ghost use Rattle.viper_state.specs.State.{State};
ghost use Rattle.viper_state.specs.Within.{IsWithinState, IsWithinScene, IsWithinOpening, IsWithinChoice, IsWithinEvent, IsProperState, IsProperScene, IsProperOpening, IsProperChoice, IsProperEvent, IsNonnegative};
ghost use Rattle.viper_meaning.specs.Assertions.{produce, consume};
ghost use Rattle.viper_meaning.specs.Compared.{IsBoundedBy};
ghost use Rattle.viper_meaning.specs.ComparedRuns.{is_over};
ghost use Rattle.viper_meaning.specs.Configurations.{IsWithinConfiguration, IsProperConfiguration, FitsConfiguration};
ghost use Rattle.viper_meaning.specs.Contents.{content_in, fold_instance, unfold_instance};
ghost use Rattle.viper_meaning.specs.Ends.{Evaluated, events_of, then_with};
ghost use Rattle.viper_meaning.specs.Fresh.{KnowsNothingOf};
ghost use Rattle.viper_meaning.specs.HeldWhole.{HoldsAtMostWhole};
ghost use Rattle.viper_meaning.specs.Kept.{IsAny, Keeps};
ghost use Rattle.viper_meaning.specs.KeptRuns.{KeepsRun};
ghost use Rattle.viper_meaning.specs.Produced.{IsProduced};
ghost use Rattle.viper_meaning.specs.Run.{Run, ended, on, then_do, then_ran, is_short, with_more};
ghost use Rattle.viper_meaning.specs.Sat.{Has};
ghost use Rattle.viper_meaning.specs.StatementLiterals.{IsWithinStmt, AreWithinStmts, IsWithinProgram, IsProperStmt, AreProperStmts, IsProperProgram};
ghost use Rattle.viper_meaning.specs.Statements.{Activation, Configuration, scene, is_fresh, produce_all, consume_all, run_stmt, run_block};
ghost use Rattle.viper_meaning.specs.Units.{unit_run, Opens};
ghost use Rattle.viper_meaning.specs.Value.{values, perm_in, opened};

/// The literals of a formed program are within the bound, and proper with the bound and without it.
pub fn the_literals_of_a_program_are_within_the_bound()
    ensures within { (program : Program) → IsFormed program → IsWithinProgram program }
    ensures proper { (b : Bound) (program : Program) → IsFormed program → IsProperProgram b program }
{}

/// A statement and what follows it are the statement on the choices, and then what follows on those that it left. So it is with
/// a block, and with what a method does after its body; and the statements of a block run one after the other.
pub fn what_follows_a_statement_goes_on_with_what_is_left()
    ensures stmt { (b : Bound) (a : Activation) (x : Stmt) (c : Configuration) (go : Configuration → Run Configuration)
        (choices : List Choice)
        → on (then_do (run_stmt b a x c) go) choices ≡ then_ran (on (run_stmt b a x c) choices) (λ d. on (go d)) }
    ensures block { (b : Bound) (a : Activation) (xs : Stmts) (c : Configuration) (go : Configuration → Run Configuration)
        (choices : List Choice)
        → on (then_do (run_block b a xs c) go) choices ≡ then_ran (on (run_block b a xs c) choices) (λ d. on (go d)) }
    ensures body { (b : Bound) (a : Activation) (xs : Stmts) (c : Configuration) (go : Configuration → Run State)
        (choices : List Choice)
        → on (then_do (run_block b a xs c) go) choices ≡ then_ran (on (run_block b a xs c) choices) (λ d. on (go d)) }
    ensures in_turn { (b : Bound) (a : Activation) (x : Stmt) (xs : Stmts) (c : Configuration) (choices : List Choice)
        → on (run_block b a (next x xs) c) choices
        ≡ then_ran (on (run_stmt b a x c) choices) (λ d. on (run_block b a xs d)) }
{}

/// A run of a statement, a block or a unit has one end, and choices that are left over do not change it.
pub fn choices_left_over_change_no_statement()
    ensures stmt { (b : Bound) (a : Activation) (x : Stmt) (c : Configuration) (choices more : List Choice)
        → is_short (on (run_stmt b a x c) choices) ≡ false
        → on (run_stmt b a x c) (choices ++ more) ≡ with_more more (on (run_stmt b a x c) choices) }
    ensures block { (b : Bound) (a : Activation) (xs : Stmts) (c : Configuration) (choices more : List Choice)
        → is_short (on (run_block b a xs c) choices) ≡ false
        → on (run_block b a xs c) (choices ++ more) ≡ with_more more (on (run_block b a xs c) choices) }
    ensures unit { (b : Bound) (program : Program) (n : ℕ) (o : Opening) (choices more : List Choice)
        → is_short (on (unit_run b program n o) choices) ≡ false
        → on (unit_run b program n o) (choices ++ more) ≡ with_more more (on (unit_run b program n o) choices) }
{}

/// The clauses of a method are one conjunction, in their order: to produce or consume two and then the rest is to produce or
/// consume their conjunction and then the rest, and one alone is the assertion that it is. They are the same runs: on each list
/// of choices they have the same events and end, and leave the same choices.
pub fn clauses_are_one_conjunction()
    ensures one_produced { (b : Bound) (x : t.Assertion) (sc : Scene) (s : State)
        → produce_all b (x ∷ []) sc s ≡ produce b x sc write s }
    ensures two_produced { (b : Bound) (x y : t.Assertion) (rest : List t.Assertion) (sc : Scene) (s : State)
        → produce_all b (x ∷ y ∷ rest) sc s ≡ produce_all b (t.And x y ∷ rest) sc s }
    ensures one_consumed { (b : Bound) (x : t.Assertion) (start : State) (sc : Scene) (left : State)
        → consume_all b (x ∷ []) start sc left ≡ consume b x start sc write left }
    ensures two_consumed { (b : Bound) (x y : t.Assertion) (rest : List t.Assertion) (start : State) (sc : Scene) (left : State)
        → consume_all b (x ∷ y ∷ rest) start sc left ≡ consume_all b (t.And x y ∷ rest) start sc left }
{}

/// What runs within the bound and is not Over runs so without it, with the same events, end and choices left.
pub fn the_bound_changes_nothing_else_of_a_statement()
    ensures stmt { (a : Activation) (x : Stmt) (c : Configuration) (choices : List Choice)
        → is_over (on (run_stmt Bounded a x c) choices) ≡ false
        → on (run_stmt Bounded a x c) choices ≡ on (run_stmt Unbounded a x c) choices }
    ensures block { (a : Activation) (xs : Stmts) (c : Configuration) (choices : List Choice)
        → is_over (on (run_block Bounded a xs c) choices) ≡ false
        → on (run_block Bounded a xs c) choices ≡ on (run_block Unbounded a xs c) choices }
    ensures fold { (program : Program) (f : FoldStmt) (s : State) (sc : Scene) (choices : List Choice)
        → is_over (on (fold_instance Bounded program f s sc) choices) ≡ false
        → on (fold_instance Bounded program f s sc) choices ≡ on (fold_instance Unbounded program f s sc) choices }
    ensures unfold { (program : Program) (f : FoldStmt) (s : State) (sc : Scene)
        → IsBoundedBy (unfold_instance Bounded program f s sc) (unfold_instance Unbounded program f s sc) }
    ensures unit { (program : Program) (n : ℕ) (o : Opening) (choices : List Choice)
        → is_over (on (unit_run Bounded program n o) choices) ≡ false
        → on (unit_run Bounded program n o) choices ≡ on (unit_run Unbounded program n o) choices }
{}

/// Without a bound no statement and no unit is Over.
pub fn no_statement_is_over_without_a_bound()
    ensures stmt { (a : Activation) (x : Stmt) (c : Configuration) (choices : List Choice)
        → is_over (on (run_stmt Unbounded a x c) choices) ≡ false }
    ensures block { (a : Activation) (xs : Stmts) (c : Configuration) (choices : List Choice)
        → is_over (on (run_block Unbounded a xs c) choices) ≡ false }
    ensures fold { (program : Program) (f : FoldStmt) (s : State) (sc : Scene) (choices : List Choice)
        → is_over (on (fold_instance Unbounded program f s sc) choices) ≡ false }
    ensures unit { (program : Program) (n : ℕ) (o : Opening) (choices : List Choice)
        → is_over (on (unit_run Unbounded program n o) choices) ≡ false }
{}

/// What runs within the bound, and is given only choices within it, leaves what is within it. So is every event on the way.
pub fn a_statement_stays_within_the_bound()
    ensures stmt { (a : Activation) → IsWithinProgram a.program → IsWithinState a.old → (x : Stmt) (c : Configuration)
        → IsWithinStmt x → IsWithinConfiguration c
        → KeepsRun IsWithinEvent IsWithinChoice IsWithinConfiguration (run_stmt Bounded a x c) }
    ensures block { (a : Activation) → IsWithinProgram a.program → IsWithinState a.old → (xs : Stmts) (c : Configuration)
        → AreWithinStmts xs → IsWithinConfiguration c
        → KeepsRun IsWithinEvent IsWithinChoice IsWithinConfiguration (run_block Bounded a xs c) }
    ensures fold { (program : Program) (f : FoldStmt) (s : State) (sc : Scene) → IsWithinProgram program
        → AreWithinExprs f.args → IsWithinExpr f.amount → IsWithinState s → IsWithinScene sc
        → KeepsRun IsWithinEvent IsWithinChoice IsWithinState (fold_instance Bounded program f s sc) }
    ensures unfold { (program : Program) (f : FoldStmt) (s : State) (sc : Scene) → IsWithinProgram program
        → AreWithinExprs f.args → IsWithinExpr f.amount → IsWithinState s → IsWithinScene sc
        → Keeps IsWithinEvent IsWithinState (unfold_instance Bounded program f s sc) }
    ensures unit { (program : Program) → IsWithinProgram program → (o : Opening) → IsWithinOpening o → (n : ℕ)
        → KeepsRun IsWithinEvent IsWithinChoice IsWithinState (unit_run Bounded program n o) }
{}

/// What runs from what is proper, and is given only proper choices, leaves what is proper, with the bound and without it.
pub fn a_statement_stays_proper()
    ensures stmt { (b : Bound) (a : Activation) → IsProperProgram b a.program → IsProperState b a.old → (x : Stmt)
        (c : Configuration) → IsProperStmt b x → IsProperConfiguration b c
        → KeepsRun (IsProperEvent b) (IsProperChoice b) (IsProperConfiguration b) (run_stmt b a x c) }
    ensures block { (b : Bound) (a : Activation) → IsProperProgram b a.program → IsProperState b a.old → (xs : Stmts)
        (c : Configuration) → AreProperStmts b xs → IsProperConfiguration b c
        → KeepsRun (IsProperEvent b) (IsProperChoice b) (IsProperConfiguration b) (run_block b a xs c) }
    ensures fold { (b : Bound) (program : Program) (f : FoldStmt) (s : State) (sc : Scene) → IsProperProgram b program
        → AreProperExprs b f.args → IsProperExpr b f.amount → IsProperState b s → IsProperScene b sc
        → KeepsRun (IsProperEvent b) (IsProperChoice b) (IsProperState b) (fold_instance b program f s sc) }
    ensures unfold { (b : Bound) (program : Program) (f : FoldStmt) (s : State) (sc : Scene) → IsProperProgram b program
        → AreProperExprs b f.args → IsProperExpr b f.amount → IsProperState b s → IsProperScene b sc
        → Keeps (IsProperEvent b) (IsProperState b) (unfold_instance b program f s sc) }
    ensures unit { (b : Bound) (program : Program) → IsProperProgram b program → (o : Opening) → IsProperOpening b o → (n : ℕ)
        → KeepsRun (IsProperEvent b) (IsProperChoice b) (IsProperState b) (unit_run b program n o) }
{}

/// No statement and no unit makes a permission negative, whatever is chosen.
pub fn no_statement_makes_a_permission_negative()
    ensures stmt { (b : Bound) (a : Activation) (x : Stmt) (c : Configuration) → IsNonnegative c.state
        → KeepsRun IsAny IsAny (λ d. IsNonnegative d.state) (run_stmt b a x c) }
    ensures block { (b : Bound) (a : Activation) (xs : Stmts) (c : Configuration) → IsNonnegative c.state
        → KeepsRun IsAny IsAny (λ d. IsNonnegative d.state) (run_block b a xs c) }
    ensures fold { (b : Bound) (program : Program) (f : FoldStmt) (s : State) (sc : Scene) → IsNonnegative s
        → KeepsRun IsAny IsAny IsNonnegative (fold_instance b program f s sc) }
    ensures unfold { (b : Bound) (program : Program) (f : FoldStmt) (s : State) (sc : Scene) → IsNonnegative s
        → Keeps IsAny IsNonnegative (unfold_instance b program f s sc) }
    ensures unit { (b : Bound) (program : Program) (o : Opening) (n : ℕ)
        → KeepsRun IsAny IsAny IsNonnegative (unit_run b program n o) }
{}

/// Of no place more than the whole is held, and nothing of a field of null, whatever is chosen: where that is so it stays so,
/// and a unit begins so.
pub fn no_place_is_held_more_than_whole()
    ensures opened { (b : Bound) (a : t.Assertion) (c : Content) (s : State) (sc : Scene) (k : Fraction)
        → HoldsAtMostWhole s → Keeps IsAny HoldsAtMostWhole (opened b a c s sc k) }
    ensures produce { (b : Bound) (a : t.Assertion) (sc : Scene) (k : Fraction) (s : State) → HoldsAtMostWhole s
        → KeepsRun IsAny IsAny HoldsAtMostWhole (produce b a sc k s) }
    ensures consume { (b : Bound) (a : t.Assertion) (start : State) (sc : Scene) (k : Fraction) (left : State)
        → is_negative k ≡ false → HoldsAtMostWhole left
        → KeepsRun IsAny IsAny HoldsAtMostWhole (consume b a start sc k left) }
    ensures stmt { (b : Bound) (a : Activation) (x : Stmt) (c : Configuration) → HoldsAtMostWhole c.state
        → KeepsRun IsAny IsAny (λ d. HoldsAtMostWhole d.state) (run_stmt b a x c) }
    ensures block { (b : Bound) (a : Activation) (xs : Stmts) (c : Configuration) → HoldsAtMostWhole c.state
        → KeepsRun IsAny IsAny (λ d. HoldsAtMostWhole d.state) (run_block b a xs c) }
    ensures fold { (b : Bound) (program : Program) (f : FoldStmt) (s : State) (sc : Scene) → HoldsAtMostWhole s
        → KeepsRun IsAny IsAny HoldsAtMostWhole (fold_instance b program f s sc) }
    ensures unfold { (b : Bound) (program : Program) (f : FoldStmt) (s : State) (sc : Scene) → HoldsAtMostWhole s
        → Keeps IsAny HoldsAtMostWhole (unfold_instance b program f s sc) }
    ensures unit { (b : Bound) (program : Program) (o : Opening) (n : ℕ)
        → KeepsRun IsAny IsAny HoldsAtMostWhole (unit_run b program n o) }
{}

/// A state that has a map for each field and each predicate of the program keeps them, typed or not, whatever is chosen.
pub fn the_maps_of_the_program_stay()
    ensures stmt { (b : Bound) (a : Activation) (x : Stmt) (c : Configuration) → HasMaps a.program.layout c.state
        → KeepsRun IsAny IsAny (λ d. HasMaps a.program.layout d.state) (run_stmt b a x c) }
    ensures block { (b : Bound) (a : Activation) (xs : Stmts) (c : Configuration) → HasMaps a.program.layout c.state
        → KeepsRun IsAny IsAny (λ d. HasMaps a.program.layout d.state) (run_block b a xs c) }
    ensures unit { (b : Bound) (program : Program) (o : Opening) (n : ℕ) → MemoHasMaps program.layout o.memo
        → KeepsRun IsAny IsAny (HasMaps program.layout) (unit_run b program n o) }
{}

/// In a formed program a `fold` and an `unfold` take no choice. A `fold` records just what its arguments and its amount do. An
/// `unfold` records that too, and then the parts of the content, as it is taken apart: pairs (Split) and values (Leaf).
pub fn fold_and_unfold_take_no_choice()
    ensures fold { (b : Bound) (a : Activation) (f : FoldStmt) (c : Configuration) → IsFormed a.program
        → (e : Evaluated Configuration) × ((run_stmt b a (Fold f) c ≡ ended e)
        × (events_of e ≡ events_of (then_with (values b f.args c.state (scene a c f.at))
        (λ vs. perm_in b f.amount c.state (scene a c f.at))))) }
    ensures unfold { (b : Bound) (a : Activation) (f : FoldStmt) (c : Configuration) → IsFormed a.program
        → (e : Evaluated Configuration) × ((run_stmt b a (Unfold f) c ≡ ended e)
        × ((parts : List Event) × ((events_of e ≡ events_of (then_with (values b f.args c.state (scene a c f.at))
        (λ vs. perm_in b f.amount c.state (scene a c f.at))) ++ parts)
        × All (λ x. ((d : Content) × (o : Content) × (x ≡ Split d o)) ⊎ ((v : Value) × (x ≡ Leaf v))) parts))) }
{}

/// What was consumed has a content: where an assertion without `wildcard` was consumed, what it contained at the start is there.
pub fn what_was_consumed_has_a_content()
    ensures { (b : Bound) (program : Program) (start : State) (sc : Scene) → HasMaps program.layout start
        → (a : t.Assertion) (k : Fraction) (left : State) → HasNoWildcard a → HasMaps program.layout left
        → KeepsRun IsAny IsAny (λ u. (c : Content) × Has c (content_in b a start sc)) (consume b a start sc k left) }
{}

/// A typed statement of a formed program takes what fits the program to what fits it, where it is given only choices that fit.
/// So does an instance that is folded or unfolded, and a unit from its opening.
pub fn a_statement_goes_to_what_fits()
    ensures stmt { (b : Bound) (m : MethodContext) (sc : Scope) (old : State) (x : Stmt) (c : Configuration) → IsFormed m.program
        → IsStmt m sc x → FitsState m.program.layout old → FitsConfiguration m.program.layout m.vars c
        → KeepsRun (FitsEvent m.program.layout) (FitsChoice m.program.layout) (FitsConfiguration m.program.layout m.vars)
        (run_stmt b (record { program = m.program; vars = m.vars; old = old }) x c) }
    ensures block { (b : Bound) (m : MethodContext) (sc : Scope) (old : State) (xs : Stmts) (c : Configuration) → IsFormed m.program
        → AreStmts m sc xs → FitsState m.program.layout old → FitsConfiguration m.program.layout m.vars c
        → KeepsRun (FitsEvent m.program.layout) (FitsChoice m.program.layout) (FitsConfiguration m.program.layout m.vars)
        (run_block b (record { program = m.program; vars = m.vars; old = old }) xs c) }
    ensures fold { (b : Bound) (c : Context) (f : FoldStmt) (s : State) (sc : Scene) → IsFormed c.program → IsFold c f
        → FitsState c.program.layout s → FitsScene c.program.layout c.vars sc
        → KeepsRun (FitsEvent c.program.layout) (FitsChoice c.program.layout) (FitsState c.program.layout)
        (fold_instance b c.program f s sc) }
    ensures unfold { (b : Bound) (c : Context) (f : FoldStmt) (s : State) (sc : Scene) → IsFormed c.program → IsFold c f
        → FitsState c.program.layout s → FitsScene c.program.layout c.vars sc
        → Keeps (FitsEvent c.program.layout) (FitsState c.program.layout) (unfold_instance b c.program f s sc) }
    ensures unit { (b : Bound) (program : Program) (n : ℕ) (o : Opening) → IsFormed program → Opens program n o
        → KeepsRun (FitsEvent program.layout) (FitsChoice program.layout) (FitsState program.layout)
        (unit_run b program n o) }
{}

/// A reference is new just where the method knows nothing of it: it is not null, no variable in scope has it, nothing is held
/// of its fields, and no place of which something is held has it.
pub fn a_new_reference_is_unknown()
    ensures { (l : Layout) (r : ℕ) (refs : List ℕ) (c : Configuration) → FitsState l c.state
        → Decides (is_fresh r refs c) (KnowsNothingOf r refs c) }
{}

/// Where a body contains something in one state, to produce it from that in another, with the same values and contents, ends as
/// to produce it does, whatever is held. Producing it takes no choice, and changes nothing but what is held. Neither need continue
/// where the body was consumed: `x.f > 0 && acc(x.f)` reads the field before it gives the permission to it.
pub fn a_body_produced_from_what_it_contains_is_produced()
    ensures { (b : Bound) (l : Layout) (a : t.Assertion) (c : Content) (s u : State) (sc : Scene) (k : Fraction)
        → HasNoWildcard a → AssertionOpensNothing a → FitsState l s → s.heap ≡ u.heap → s.content ≡ u.content
        → Has c (content_in b a u sc) → IsProduced s (produce b a sc k s) (opened b a c s sc k) }
{}
