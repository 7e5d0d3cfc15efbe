//! Laws of the definitions, each as the contract of a function that does nothing.

ghost use Rattle.std.specs.Prelude.{◌≡◌, ℕ, true, List, []};
ghost use Rattle.vb_base.specs.declared.places.Pos.{Pos};
ghost use Rattle.vb_value.specs.Bound.{Bound, Unbounded, Bounded};
ghost use Rattle.vb_value.specs.Content.{Content, IsWithinContent, IsProperContent, IsReducedContent};
ghost use Rattle.vb_value.specs.Fraction.{Fraction, IsReduced, is_positive};
ghost use Rattle.vb_value.specs.Value.{IsWithinValue, IsProperValue};
ghost use Rattle.vb_value.specs.declared.values.Ty.{Ty};
ghost use Rattle.vb_value.specs.declared.values.Value.{Value};
ghost use Rattle.viper_core.specs.Expr as t;
ghost use Rattle.viper_state.specs.State.{State, Key};
ghost use Rattle.viper_state.specs.Fits.{FitsValue, FitsState, FitsScene, FitsEvent};
ghost use Rattle.viper_state.specs.Run.{Scene, with_variables, with_old};
ghost use Rattle.viper_state.specs.Within.{IsWithinState, IsWithinScene, IsWithinEvent, IsProperState, IsProperScene, IsProperEvent, IsNonnegative};
ghost use Rattle.viper_meaning.specs.Ends.{events_of, IsNotBlocked};
ghost use Rattle.viper_meaning.specs.Places.{taken};
ghost use Rattle.viper_meaning.specs.Value.{value, opened};
ghost use Rattle.viper_meaning.specs.Variables.{AgreeOn};
ghost use Rattle.viper_meaning.specs.Compared.{IsNotOver, IsBoundedBy};
ghost use Rattle.viper_core.specs.Formed.{IsFormed};
ghost use Rattle.viper_core.specs.Typing.{Context, HasType, IsAssertion};
ghost use Rattle.viper_core.specs.Literals.{IsWithinExpr, IsWithinAssertion, IsProperExpr, IsProperAssertion};
ghost use Rattle.viper_meaning.specs.Kept.{IsAny, Keeps};
ghost use Rattle.viper_core.specs.Plain.{OpensNothing, HasNoOld, AssertionHasNoOld};

/// What is computed within the bound and is not Over is what is computed without it, with the same events. Without a bound
/// nothing is Over.
pub fn the_bound_changes_nothing_else()
    ensures value { (e : t.Expr) (s : State) (sc : Scene) → IsBoundedBy (value Bounded e s sc) (value Unbounded e s sc) }
    ensures opened { (a : t.Assertion) (c : Content) (s : State) (sc : Scene) (k : Fraction)
        → IsBoundedBy (opened Bounded a c s sc k) (opened Unbounded a c s sc k) }
    ensures value_is_never_over { (e : t.Expr) (s : State) (sc : Scene) → IsNotOver (value Unbounded e s sc) }
    ensures opened_is_never_over { (a : t.Assertion) (c : Content) (s : State) (sc : Scene) (k : Fraction)
        → IsNotOver (opened Unbounded a c s sc k) }
{}

/// What is computed within the bound from what is within it is within it, and so is every event on the way.
pub fn what_is_within_stays_within()
    ensures value { (e : t.Expr) (s : State) (sc : Scene) → IsWithinExpr e → IsWithinState s → IsWithinScene sc
        → Keeps IsWithinEvent IsWithinValue (value Bounded e s sc) }
    ensures opened { (a : t.Assertion) (c : Content) (s : State) (sc : Scene) (k : Fraction) → IsWithinAssertion a
        → IsWithinContent c → IsWithinState s → IsWithinScene sc → Keeps IsWithinEvent IsWithinState (opened Bounded a c s sc k) }
{}

/// What is computed from what is proper is proper, with the bound and without it: each fraction is in lowest terms, and where
/// there is a bound all is within it.
pub fn what_is_proper_stays_proper()
    ensures value { (b : Bound) (e : t.Expr) (s : State) (sc : Scene) → IsProperExpr b e → IsProperState b s
        → IsProperScene b sc → Keeps (IsProperEvent b) (IsProperValue b) (value b e s sc) }
    ensures opened { (b : Bound) (a : t.Assertion) (c : Content) (s : State) (sc : Scene) (k : Fraction)
        → IsProperAssertion b a → IsProperContent b c → IsProperState b s → IsProperScene b sc → IsReduced k
        → Keeps (IsProperEvent b) (IsProperState b) (opened b a c s sc k) }
{}

/// Only an `unfolding` records events.
pub fn only_unfolding_records()
    ensures { (b : Bound) (e : t.Expr) (s : State) (sc : Scene) → OpensNothing e → events_of (value b e s sc) ≡ [] }
{}

/// Only `old` looks at the old state: without it an expression or a body has the same value whatever the old state is.
pub fn old_alone_looks_at_the_old_state()
    ensures value { (b : Bound) (e : t.Expr) (s : State) (sc : Scene) (old : State) → HasNoOld e
        → value b e s (with_old old sc) ≡ value b e s sc }
    ensures opened { (b : Bound) (a : t.Assertion) (c : Content) (s : State) (sc : Scene) (k : Fraction) (old : State)
        → AssertionHasNoOld a → opened b a c s (with_old old sc) k ≡ opened b a c s sc k }
{}

/// An expression looks at no variables but its own: those of the body of an `unfolding` are the arguments.
pub fn an_expression_looks_at_its_own_variables()
    ensures { (b : Bound) (e : t.Expr) (s : State) (sc : Scene) (vs : List Value) → AgreeOn vs sc.store e
        → value b e s (with_variables vs sc) ≡ value b e s sc }
{}

/// No permission becomes negative where so much of an instance is taken, or a body is produced by a positive scale.
pub fn no_permission_becomes_negative()
    ensures taken { (b : Bound) (sc : Scene) (s : State) (p : ℕ) (key : Key) (q : Fraction) (at : Pos) → IsNonnegative s
        → Keeps IsAny IsNonnegative (taken b sc s p key q at) }
    ensures opened { (b : Bound) (a : t.Assertion) (c : Content) (s : State) (sc : Scene) (k : Fraction)
        → is_positive k ≡ true → IsNonnegative s → Keeps IsAny IsNonnegative (opened b a c s sc k) }
{}

/// A typed expression meets no fallback for untyped ones: from a state and a scene that fit the program its value is of its
/// type, and without `unfolding` it never blocks. A typed body makes of a state that fits one that fits.
pub fn typed_expressions_meet_no_fallback()
    ensures value { (b : Bound) (c : Context) (e : t.Expr) (u : Ty) (s : State) (sc : Scene) → IsFormed c.program
        → HasType c e u → FitsState c.program.layout s → FitsScene c.program.layout c.vars sc
        → Keeps (FitsEvent c.program.layout) (FitsValue u) (value b e s sc) }
    ensures never_blocked { (b : Bound) (c : Context) (e : t.Expr) (u : Ty) (s : State) (sc : Scene) → IsFormed c.program
        → HasType c e u → OpensNothing e → FitsState c.program.layout s → FitsScene c.program.layout c.vars sc
        → IsNotBlocked (value b e s sc) }
    ensures opened { (b : Bound) (c : Context) (a : t.Assertion) (d : Content) (s : State) (sc : Scene) (k : Fraction)
        → IsFormed c.program → IsAssertion c a → IsReducedContent d → FitsState c.program.layout s
        → FitsScene c.program.layout c.vars sc → IsReduced k
        → Keeps (FitsEvent c.program.layout) (FitsState c.program.layout) (opened b a d s sc k) }
{}
