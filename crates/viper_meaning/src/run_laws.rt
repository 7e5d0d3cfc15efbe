//! Laws of runs, each as the contract of a function that does nothing.

ghost use Rattle.std.specs.Prelude.{◌≡◌, ℕ, ◌++◌, List, [], Some, false, if◌then◌else◌};
ghost use Rattle.vb_value.specs.Bound.{Bound, Unbounded, Bounded};
ghost use Rattle.vb_value.specs.Fraction.{Fraction, IsReduced, is_negative, is_none};
ghost use Rattle.vb_value.specs.Layout.{Layout};
ghost use Rattle.vb_value.specs.declared.values.Value.{Value};
ghost use Rattle.viper_core.specs.Expr as t;
ghost use Rattle.viper_core.specs.Formed.{IsFormed};
ghost use Rattle.viper_core.specs.Literals.{IsWithinAssertion, IsProperAssertion};
ghost use Rattle.viper_core.specs.Plain.{AssertionHasNoOld, AssertionOpensNothing};
ghost use Rattle.viper_core.specs.Typing.{Context, IsAssertion};
ghost use Rattle.viper_core.specs.Written.{HasNoWildcard};
ghost use Rattle.viper_state.specs.Choice.{Choice};
ghost use Rattle.viper_state.specs.Fits.{FitsMemo, FitsState, FitsScene, FitsChoice, FitsEvent};
ghost use Rattle.viper_state.specs.State.{Key, Memo, State, value_at, mask_at, content_at, amount_at};
ghost use Rattle.viper_state.specs.Run.{Scene, with_variables, with_old};
ghost use Rattle.viper_state.specs.Within.{IsWithinState, IsWithinScene, IsWithinChoice, IsWithinEvent, IsProperState, IsProperScene, IsProperChoice, IsProperEvent, IsNonnegative};
ghost use Rattle.viper_meaning.specs.Run.{Run, ended, on, then_do, then_ran, is_short, with_more};
ghost use Rattle.viper_meaning.specs.ComparedRuns.{is_over};
ghost use Rattle.viper_meaning.specs.Kept.{IsAny};
ghost use Rattle.viper_meaning.specs.KeptRuns.{KeepsRun};
ghost use Rattle.viper_meaning.specs.Assertions.{produce, consume};
ghost use Rattle.viper_meaning.specs.Contents.{content_in};
ghost use Rattle.viper_meaning.specs.Ends.{Evaluated, events_of};
ghost use Rattle.viper_meaning.specs.Variables.{AgreeOnAssertion};
ghost use Rattle.viper_meaning.specs.Forgotten.{forget, forgotten, with_memo};

/// A run after a run is the first on the choices, and then the second on those that it left.
pub fn a_run_goes_on_with_what_is_left()
    ensures { (first : Run State) (second : State → Run State) (choices : List Choice)
        → on (then_do first second) choices ≡ then_ran (on first choices) (λ s. on (second s)) }
{}

/// Choices that are left over do not change the end of a run.
pub fn choices_left_over_change_nothing()
    ensures { (r : Run State) (choices more : List Choice) → is_short (on r choices) ≡ false
        → on r (choices ++ more) ≡ with_more more (on r choices) }
{}

/// A run within the bound that is not Over is the run without it, with the same events, end and choices left.
pub fn the_bound_changes_nothing_else_of_a_run()
    ensures produce { (a : t.Assertion) (sc : Scene) (k : Fraction) (s : State) (choices : List Choice)
        → is_over (on (produce Bounded a sc k s) choices) ≡ false
        → on (produce Bounded a sc k s) choices ≡ on (produce Unbounded a sc k s) choices }
    ensures consume { (a : t.Assertion) (start : State) (sc : Scene) (k : Fraction) (left : State) (choices : List Choice)
        → is_over (on (consume Bounded a start sc k left) choices) ≡ false
        → on (consume Bounded a start sc k left) choices ≡ on (consume Unbounded a start sc k left) choices }
{}

/// Without a bound nothing is Over.
pub fn no_run_is_over_without_a_bound()
    ensures produce { (a : t.Assertion) (sc : Scene) (k : Fraction) (s : State) (choices : List Choice)
        → is_over (on (produce Unbounded a sc k s) choices) ≡ false }
    ensures consume { (a : t.Assertion) (start : State) (sc : Scene) (k : Fraction) (left : State) (choices : List Choice)
        → is_over (on (consume Unbounded a start sc k left) choices) ≡ false }
    ensures forget { (layout : Layout) (s : State) (choices : List Choice) → is_over (on (forget layout s) choices) ≡ false }
{}

/// A run within the bound that is given only choices within it leaves what is within it, and so is every event on the way.
pub fn a_run_stays_within_the_bound()
    ensures produce { (a : t.Assertion) (sc : Scene) (k : Fraction) (s : State) → IsWithinAssertion a → IsWithinState s
        → IsWithinScene sc → KeepsRun IsWithinEvent IsWithinChoice IsWithinState (produce Bounded a sc k s) }
    ensures consume { (a : t.Assertion) (start : State) (sc : Scene) (k : Fraction) (left : State) → IsWithinAssertion a
        → IsWithinState start → IsWithinState left → IsWithinScene sc
        → KeepsRun IsWithinEvent IsWithinChoice IsWithinState (consume Bounded a start sc k left) }
    ensures forget { (layout : Layout) (s : State) → IsWithinState s
        → KeepsRun IsWithinEvent IsWithinChoice IsWithinState (forget layout s) }
{}

/// A run from what is proper that is given only proper choices leaves what is proper, with the bound and without it.
pub fn a_run_stays_proper()
    ensures produce { (b : Bound) (a : t.Assertion) (sc : Scene) (k : Fraction) (s : State) → IsProperAssertion b a
        → IsProperState b s → IsProperScene b sc → IsReduced k
        → KeepsRun (IsProperEvent b) (IsProperChoice b) (IsProperState b) (produce b a sc k s) }
    ensures consume { (b : Bound) (a : t.Assertion) (start : State) (sc : Scene) (k : Fraction) (left : State)
        → IsProperAssertion b a → IsProperState b start → IsProperState b left → IsProperScene b sc → IsReduced k
        → KeepsRun (IsProperEvent b) (IsProperChoice b) (IsProperState b) (consume b a start sc k left) }
    ensures forget { (b : Bound) (layout : Layout) (s : State) → IsProperState b s
        → KeepsRun (IsProperEvent b) (IsProperChoice b) (IsProperState b) (forget layout s) }
{}

/// No run makes a permission negative, whatever is chosen.
pub fn no_run_makes_a_permission_negative()
    ensures produce { (b : Bound) (a : t.Assertion) (sc : Scene) (k : Fraction) (s : State) → is_negative k ≡ false
        → IsNonnegative s → KeepsRun IsAny IsAny IsNonnegative (produce b a sc k s) }
    ensures consume { (b : Bound) (a : t.Assertion) (start : State) (sc : Scene) (k : Fraction) (left : State)
        → IsNonnegative left → KeepsRun IsAny IsAny IsNonnegative (consume b a start sc k left) }
    ensures forget { (layout : Layout) (s : State) → IsNonnegative s → KeepsRun IsAny IsAny IsNonnegative (forget layout s) }
{}

/// Producing and consuming change what is held, and neither the heap nor the contents.
pub fn only_what_is_held_changes()
    ensures produce { (b : Bound) (a : t.Assertion) (sc : Scene) (k : Fraction) (s : State)
        → KeepsRun IsAny IsAny (λ u. (u.heap ≡ s.heap) × (u.content ≡ s.content)) (produce b a sc k s) }
    ensures consume { (b : Bound) (a : t.Assertion) (start : State) (sc : Scene) (k : Fraction) (left : State)
        → KeepsRun IsAny IsAny (λ u. (u.heap ≡ left.heap) × (u.content ≡ left.content)) (consume b a start sc k left) }
{}

/// An assertion without `unfolding` and `wildcard` takes no choice and records no event, where it is produced or consumed. Nor
/// is any recorded where what it contains is told.
pub fn a_plain_assertion_takes_and_records_nothing()
    ensures produce { (b : Bound) (a : t.Assertion) (sc : Scene) (k : Fraction) (s : State) → HasNoWildcard a
        → AssertionOpensNothing a → (e : Evaluated State) × ((produce b a sc k s ≡ ended e) × (events_of e ≡ [])) }
    ensures consume { (b : Bound) (a : t.Assertion) (start : State) (sc : Scene) (k : Fraction) (left : State)
        → HasNoWildcard a → AssertionOpensNothing a
        → (e : Evaluated State) × ((consume b a start sc k left ≡ ended e) × (events_of e ≡ [])) }
    ensures content { (b : Bound) (a : t.Assertion) (s : State) (sc : Scene) → AssertionOpensNothing a
        → events_of (content_in b a s sc) ≡ [] }
{}

/// What forgetting leaves: a place to which nothing is held has the value that was taken from outside, and any other its own.
/// So it is with what instances contain.
pub fn what_is_not_held_is_forgotten()
    ensures value { (l : Layout) (s : State) (m : Memo) (field r : ℕ) (q : Fraction) → FitsState l s → FitsMemo l m
        → mask_at s field r ≡ Some q
        → value_at (with_memo s (forgotten s m)) field r
        ≡ (if is_none q then value_at (with_memo s m) field r else value_at s field r) }
    ensures content { (l : Layout) (s : State) (m : Memo) (p : ℕ) (key : Key) (q : Fraction) → FitsState l s → FitsMemo l m
        → amount_at s p key ≡ Some q
        → content_at (with_memo s (forgotten s m)) p key
        ≡ (if is_none q then content_at (with_memo s m) p key else content_at s p key) }
{}

/// A run from what fits the program goes to what fits it, where it is given only choices that fit. Forgetting does so whatever
/// is chosen.
pub fn what_fits_goes_to_what_fits()
    ensures produce { (b : Bound) (c : Context) (a : t.Assertion) (sc : Scene) (k : Fraction) (s : State)
        → IsFormed c.program → IsAssertion c a → FitsState c.program.layout s → FitsScene c.program.layout c.vars sc
        → IsReduced k
        → KeepsRun (FitsEvent c.program.layout) (FitsChoice c.program.layout) (FitsState c.program.layout) (produce b a sc k s) }
    ensures consume { (b : Bound) (c : Context) (a : t.Assertion) (start : State) (sc : Scene) (k : Fraction) (left : State)
        → IsFormed c.program → IsAssertion c a → FitsState c.program.layout start → FitsState c.program.layout left
        → FitsScene c.program.layout c.vars sc → IsReduced k
        → KeepsRun (FitsEvent c.program.layout) (FitsChoice c.program.layout) (FitsState c.program.layout)
        (consume b a start sc k left) }
    ensures forget { (l : Layout) (s : State) → FitsState l s
        → KeepsRun (FitsEvent l) IsAny (FitsState l) (forget l s) }
{}

/// Only `old` looks at the old state: a run of an assertion without it does the same whatever the old state is.
pub fn old_alone_looks_at_the_old_state_of_a_run()
    ensures produce { (b : Bound) (a : t.Assertion) (sc : Scene) (k : Fraction) (s old : State) → AssertionHasNoOld a
        → produce b a (with_old old sc) k s ≡ produce b a sc k s }
    ensures consume { (b : Bound) (a : t.Assertion) (start : State) (sc : Scene) (k : Fraction) (left old : State)
        → AssertionHasNoOld a → consume b a start (with_old old sc) k left ≡ consume b a start sc k left }
{}

/// A run of an assertion looks at no variables but those of the assertion.
pub fn an_assertion_looks_at_its_own_variables()
    ensures produce { (b : Bound) (a : t.Assertion) (sc : Scene) (k : Fraction) (s : State) (vs : List Value)
        → AgreeOnAssertion vs sc.store a → produce b a (with_variables vs sc) k s ≡ produce b a sc k s }
    ensures consume { (b : Bound) (a : t.Assertion) (start : State) (sc : Scene) (k : Fraction) (left : State) (vs : List Value)
        → AgreeOnAssertion vs sc.store a → consume b a start (with_variables vs sc) k left ≡ consume b a start sc k left }
{}
