//! The law of satisfaction: what producing an assertion reaches is what the assertion says of one state. Each part is the
//! contract of a function that does nothing.

ghost use Rattle.std.specs.Prelude.{◌≡◌, ◌++◌, List, map, All};
ghost use Rattle.vb_value.specs.Bound.{Unbounded, Bounded};
ghost use Rattle.vb_value.specs.Fraction.{Fraction, IsReduced, write};
ghost use Rattle.vb_value.specs.Layout.{Layout};
ghost use Rattle.viper_core.specs.Expr as t;
ghost use Rattle.viper_core.specs.Literals.{IsProperAssertion};
ghost use Rattle.viper_core.specs.Plain.{AssertionOpensNothing};
ghost use Rattle.viper_state.specs.Choice as choice;
ghost use Rattle.viper_state.specs.Choice.{Choice};
ghost use Rattle.viper_state.specs.Event.{Event};
ghost use Rattle.viper_state.specs.Fits.{FitsState};
ghost use Rattle.viper_state.specs.State.{State, Memo, empty_state};
ghost use Rattle.viper_state.specs.Run.{Scene};
ghost use Rattle.viper_state.specs.Within.{IsProperMemo, IsProperScene, IsProperChoice};
ghost use Rattle.viper_meaning.specs.Run.{Goes, ran, on};
ghost use Rattle.viper_meaning.specs.Assertions.{produce};
ghost use Rattle.viper_meaning.specs.Sat.{Sat, Arrives, memo_of_state};

/// Where an assertion without `unfolding` is produced in a state in which nothing is held, what is reached satisfies it, with
/// the amounts that were taken.
pub fn what_is_produced_satisfies()
    ensures unbounded { (l : Layout) (m : Memo) (a : t.Assertion) (sc : Scene) (choices : List Choice) (events : List Event)
        (u : State) (left : List Choice) → AssertionOpensNothing a → IsProperAssertion Unbounded a
        → IsProperMemo Unbounded m → IsProperScene Unbounded sc → All (IsProperChoice Unbounded) choices
        → on (produce Unbounded a sc write (empty_state l m)) choices ≡ ran events (Goes u) left
        → (qs : List Fraction) × ((choices ≡ map choice.Amount qs ++ left) × Sat a u sc qs) }
    ensures bounded { (l : Layout) (m : Memo) (a : t.Assertion) (sc : Scene) (choices : List Choice) (events : List Event)
        (u : State) (left : List Choice) → AssertionOpensNothing a → IsProperAssertion Unbounded a
        → IsProperMemo Unbounded m → IsProperScene Unbounded sc → All (IsProperChoice Unbounded) choices
        → on (produce Bounded a sc write (empty_state l m)) choices ≡ ran events (Goes u) left
        → (qs : List Fraction) × ((choices ≡ map choice.Amount qs ++ left) × Sat a u sc qs) }
{}

/// Let a state satisfy an assertion. Where the assertion is produced in the state with the same heap and contents in which
/// nothing is held, on the amounts of its wildcards, it never blocks and lacks no choice; and where it continues, it reaches
/// exactly the state that satisfies it, and leaves the other choices. It may fail, as the order of its parts says.
pub fn what_satisfies_is_reached()
    ensures unbounded { (l : Layout) (a : t.Assertion) (sc : Scene) (u : State) (qs : List Fraction) (left : List Choice)
        → IsProperAssertion Unbounded a → IsProperScene Unbounded sc → FitsState l u → All IsReduced qs
        → Sat a u sc qs
        → Arrives (λ s. s ≡ u) left (on (produce Unbounded a sc write (empty_state l (memo_of_state u))) (map choice.Amount qs ++ left)) }
    ensures bounded { (l : Layout) (a : t.Assertion) (sc : Scene) (u : State) (qs : List Fraction) (left : List Choice)
        → IsProperAssertion Unbounded a → IsProperScene Unbounded sc → FitsState l u → All IsReduced qs
        → Sat a u sc qs
        → Arrives (λ s. s ≡ u) left (on (produce Bounded a sc write (empty_state l (memo_of_state u))) (map choice.Amount qs ++ left)) }
{}
