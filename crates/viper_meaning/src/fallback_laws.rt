//! Laws of what is there: each definition says what comes where something is missing or of another kind, and nothing that is typed
//! meets that. Each law is the contract of a function that does nothing.

ghost use Rattle.std.specs.Prelude.{◌≡◌, ◌↔◌, ℕ, Some, None, List, [], ◌∷◌, ◌++◌, map, slice_get};
ghost use Rattle.vb_base.specs.declared.places.Pos.{Pos};
ghost use Rattle.vb_value.specs.Bound.{Bound};
ghost use Rattle.vb_value.specs.Content.{Content, IsReducedContent};
ghost use Rattle.vb_value.specs.Fraction.{Fraction, IsReduced};
ghost use Rattle.vb_value.specs.Layout.{Layout};
ghost use Rattle.vb_value.specs.Value.{type_of};
ghost use Rattle.vb_value.specs.declared.values.Ty.{Ty};
ghost use Rattle.vb_value.specs.declared.values.Value.{Value};
ghost use Rattle.viper_core.specs.Expr as t;
ghost use Rattle.viper_core.specs.Formed.{IsFormed};
ghost use Rattle.viper_core.specs.Plain.{OpensNothing, OpenNothing, AssertionOpensNothing};
ghost use Rattle.viper_core.specs.Program.{Program, Predicate, Method};
ghost use Rattle.viper_core.specs.Scope.{Scope};
ghost use Rattle.viper_core.specs.Stmt.{FoldStmt, Var, Assign, Write, Call};
ghost use Rattle.viper_core.specs.Typing.{Context, MethodContext, HasType, HaveTypes, IsAssertion, IsFold, IsStmt};
ghost use Rattle.viper_core.specs.Written.{HasNoWildcard};
ghost use Rattle.viper_core.specs.declared.programs.Unit.TheVariants as unit;
ghost use Rattle.viper_state.specs.Choice as choice;
ghost use Rattle.viper_state.specs.Choice.{Choice};
ghost use Rattle.viper_state.specs.Event as event;
ghost use Rattle.viper_state.specs.Fits.{FitsKey, FitsStore, FitsMemo, FitsState, FitsScene};
ghost use Rattle.viper_state.specs.Run.{Opening, Scene};
ghost use Rattle.viper_state.specs.State.{Key, Memo, State, content_at, amount_at};
ghost use Rattle.viper_meaning.specs.Assertions.{instance_in, consume};
ghost use Rattle.viper_meaning.specs.BodyBlocked.{BodyBlocks};
ghost use Rattle.viper_meaning.specs.Configurations.{FitsConfiguration};
ghost use Rattle.viper_meaning.specs.Contents.{body_of, fold_instance, unfold_instance};
ghost use Rattle.viper_meaning.specs.Ends.{Evaluated, Blocked, the_end, IsNotBlocked};
ghost use Rattle.viper_meaning.specs.Forgotten.{forget, forgotten, with_memo};
ghost use Rattle.viper_meaning.specs.Named.{OfTheirTypes, with_fields};
ghost use Rattle.viper_meaning.specs.Places.{key_of, taken};
ghost use Rattle.viper_meaning.specs.Run.{ended, evaluating, Goes, ran, on};
ghost use Rattle.viper_meaning.specs.Statements.{Activation, Configuration, scene, with_variable, taking_values, created, called, run_stmt};
ghost use Rattle.viper_meaning.specs.StillHeld.{HoldsAnother};
ghost use Rattle.viper_meaning.specs.Units.{start_method, start_predicate, unit_run};
ghost use Rattle.viper_meaning.specs.Value.{value, values};

/// An instance is there. Values of the types of a predicate's parameters are its arguments, and no two lists of values are the
/// same arguments. In a state that fits, something is held of each instance, perhaps none, and it contains something. To read
/// the arguments of a typed instance is not blocked, where they have no `unfolding`, nor is it to take some of it; and the predicate
/// of a `fold` or `unfold` has its body.
pub fn a_typed_instance_is_found()
    ensures key { (c : Context) (p : ℕ) (d : Predicate) (vs : List Value) → IsFormed c.program
        → slice_get c.program.predicates p ≡ Some d → FitsStore d.params vs
        → (key : Key) × ((key_of vs ≡ Some key) × FitsKey d.params key) }
    ensures one_key { (vs ws : List Value) (key : Key) → key_of vs ≡ Some key → key_of ws ≡ Some key → vs ≡ ws }
    ensures amount { (c : Context) (p : ℕ) (d : Predicate) (key : Key) (s : State) → IsFormed c.program
        → slice_get c.program.predicates p ≡ Some d → FitsState c.program.layout s
        → (q : Fraction) × ((amount_at s p key ≡ Some q) × IsReduced q) }
    ensures content { (c : Context) (p : ℕ) (d : Predicate) (key : Key) (s : State) → IsFormed c.program
        → slice_get c.program.predicates p ≡ Some d → FitsState c.program.layout s
        → (x : Content) × ((content_at s p key ≡ Some x) × IsReducedContent x) }
    ensures instance { (b : Bound) (c : Context) (p : ℕ) (d : Predicate) (args : t.Exprs) (s : State) (sc : Scene)
        → IsFormed c.program → slice_get c.program.predicates p ≡ Some d → HaveTypes c args d.params → OpenNothing args
        → FitsState c.program.layout s → FitsScene c.program.layout c.vars sc → IsNotBlocked (instance_in b p args s sc) }
    ensures taken { (b : Bound) (c : Context) (sc : Scene) (s : State) (p : ℕ) (d : Predicate) (key : Key) (q : Fraction)
        (at : Pos) → IsFormed c.program → slice_get c.program.predicates p ≡ Some d → FitsKey d.params key → IsReduced q
        → FitsState c.program.layout s → IsNotBlocked (taken b sc s p key q at) }
    ensures body { (c : Context) (f : FoldStmt) (h : IsFold c f) → body_of c.program f.predicate ≡ Some h.body }
{}

/// To consume a typed assertion without `wildcard` and `unfolding` is never blocked: from states and a scene that fit the
/// program it continues, fails, or is over.
pub fn consuming_is_never_blocked()
    ensures { (b : Bound) (c : Context) (a : t.Assertion) (start : State) (sc : Scene) (k : Fraction) (left : State)
        → IsFormed c.program → IsAssertion c a → HasNoWildcard a → AssertionOpensNothing a
        → FitsState c.program.layout start → FitsState c.program.layout left → FitsScene c.program.layout c.vars sc
        → IsReduced k → (e : Evaluated State) × ((consume b a start sc k left ≡ ended e) × IsNotBlocked e) }
{}

/// A typed `fold` is blocked just where some of the instance is still held after its body was consumed, and the instance contains
/// something else than the body did. Its arguments and its amount have no `unfolding` here; a body has none, and no `wildcard`.
pub fn a_fold_is_blocked_by_another_content()
    ensures { (b : Bound) (c : Context) (f : FoldStmt) (s : State) (sc : Scene) → IsFormed c.program → IsFold c f
        → OpenNothing f.args → OpensNothing f.amount → FitsState c.program.layout s → FitsScene c.program.layout c.vars sc
        → (e : Evaluated State) × ((fold_instance b c.program f s sc ≡ ended e)
        × ((the_end e ≡ Blocked) ↔ HoldsAnother b c.program f s sc)) }
{}

/// A typed `unfold` or `unfolding` is blocked just where the instance was taken and producing its body from what it contains is
/// blocked. Its arguments and its amount, and what is read in an `unfolding`, have no `unfolding` here.
pub fn an_unfold_is_blocked_by_the_body()
    ensures unfold { (b : Bound) (c : Context) (f : FoldStmt) (h : IsFold c f) (s : State) (sc : Scene) → IsFormed c.program
        → OpenNothing f.args → OpensNothing f.amount → FitsState c.program.layout s → FitsScene c.program.layout c.vars sc
        → (the_end (unfold_instance b c.program f s sc) ≡ Blocked)
        ↔ BodyBlocks b f.predicate f.args f.amount h.body f.place s sc }
    ensures inside { (b : Bound) (c : Context) (p : ℕ) (args : t.Exprs) (amount : t.Expr) (body : t.Assertion)
        (inner : t.Expr) (at : Pos) (u : Ty) (s : State) (sc : Scene) → IsFormed c.program
        → HasType c (t.Unfolding (t.opened p args amount body inner at)) u → OpenNothing args → OpensNothing amount
        → OpensNothing inner → FitsState c.program.layout s → FitsScene c.program.layout c.vars sc
        → (the_end (value b (t.Unfolding (t.opened p args amount body inner at)) s sc) ≡ Blocked)
        ↔ BodyBlocks b p args amount body at s sc }
{}

/// What a typed statement names is found. A declared variable, the targets of a call or a loop, and the fields of a new object
/// take values of their types, and what is forgotten takes a heap and contents that fit. To assign a variable or a field is never
/// blocked, where the expressions have no `unfolding`. A call runs the method that it calls, and a unit its method or predicate.
pub fn what_a_statement_names_is_found()
    ensures declared { (b : Bound) (a : Activation) (at : Pos) (x : ℕ) (c : Configuration) (v : Value) (more : List Choice)
        → slice_get a.vars x ≡ Some (type_of v)
        → on (run_stmt b a (Var at x None) c) (choice.Took v ∷ more) ≡ ran (event.Took v ∷ []) (Goes (with_variable c x v)) more }
    ensures targets { (us : List Ty) (xs : List ℕ) (vs : List Value) (more : List Choice) → OfTheirTypes us xs vs
        → on (taking_values us xs) (map choice.Took vs ++ more) ≡ ran (map event.Took vs) (Goes vs) more }
    ensures fields { (us : List Ty) (r : ℕ) (fs : List ℕ) (vs : List Value) (s : State) (more : List Choice)
        → OfTheirTypes us fs vs
        → on (created us r fs s) (map choice.Took vs ++ more) ≡ ran (map event.Took vs) (Goes (with_fields r fs vs s)) more }
    ensures forgotten { (l : Layout) (s : State) (m : Memo) (more : List Choice) → FitsMemo l m
        → on (forget l s) (choice.Filled m ∷ more)
        ≡ ran (event.Whole (forgotten s m) ∷ []) (Goes (with_memo s (forgotten s m))) more }
    ensures assigned { (b : Bound) (m : MethodContext) (sc : Scope) (old : State) → IsFormed m.program → (c : Configuration)
        → FitsState m.program.layout old → FitsConfiguration m.program.layout m.vars c → (at : Pos) (x : ℕ) (e : t.Expr)
        → IsStmt m sc (Assign at x e) → OpensNothing e → (end : Evaluated Configuration)
        × ((run_stmt b (record { program = m.program; vars = m.vars; old = old }) (Assign at x e) c ≡ ended end)
        × IsNotBlocked end) }
    ensures initial { (b : Bound) (m : MethodContext) (sc : Scope) (old : State) → IsFormed m.program → (c : Configuration)
        → FitsState m.program.layout old → FitsConfiguration m.program.layout m.vars c → (at : Pos) (x : ℕ) (e : t.Expr)
        → IsStmt m sc (Var at x (Some e)) → OpensNothing e → (end : Evaluated Configuration)
        × ((run_stmt b (record { program = m.program; vars = m.vars; old = old }) (Var at x (Some e)) c ≡ ended end)
        × IsNotBlocked end) }
    ensures written { (b : Bound) (m : MethodContext) (sc : Scope) (old : State) → IsFormed m.program → (c : Configuration)
        → FitsState m.program.layout old → FitsConfiguration m.program.layout m.vars c → (at : Pos) (e : t.Expr) (f : ℕ)
        (place : Pos) (d : t.Expr) → IsStmt m sc (Write at e f place d) → OpensNothing e → OpensNothing d
        → (end : Evaluated Configuration)
        × ((run_stmt b (record { program = m.program; vars = m.vars; old = old }) (Write at e f place d) c ≡ ended end)
        × IsNotBlocked end) }
    ensures called { (b : Bound) (a : Activation) (at : Pos) (xs : List ℕ) (k : ℕ) (es : t.Exprs) (c : Configuration)
        (callee : Method) → slice_get a.program.methods k ≡ Some callee → run_stmt b a (Call at xs k es) c
        ≡ evaluating (values b es c.state (scene a c at)) (λ vs. called b a xs callee vs at c) }
    ensures method { (b : Bound) (program : Program) (n k : ℕ) (o : Opening) (m : Method)
        → slice_get program.units n ≡ Some (unit.Method k) → slice_get program.methods k ≡ Some m
        → unit_run b program n o ≡ start_method b program m o }
    ensures predicate { (b : Bound) (program : Program) (n k : ℕ) (o : Opening) (d : Predicate) (body : t.Assertion)
        → slice_get program.units n ≡ Some (unit.Predicate k) → slice_get program.predicates k ≡ Some d
        → d.body ≡ Some body → unit_run b program n o ≡ start_predicate b program d body o }
{}
