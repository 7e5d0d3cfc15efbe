//! Laws of states, each as the contract of a function that does nothing.

ghost use Rattle.std.specs.Prelude.{◌≡◌, ◌≢◌, ◌⊎◌, ℕ, Some, List, slice_get, false};
ghost use Rattle.std.specs.Bool.{Decides};
ghost use Rattle.vb_value.specs.Bound.{Bound, Bounded, IfBounded};
ghost use Rattle.vb_value.specs.Content.{Content, IsReducedContent, IsProperContent};
ghost use Rattle.vb_value.specs.Fraction.{Fraction, IsReduced, IsProperFraction, is_negative};
ghost use Rattle.vb_value.specs.Key.{IsProperKey};
ghost use Rattle.vb_value.specs.Layout.{Layout};
ghost use Rattle.vb_value.specs.Value.{IsProperValue};
ghost use Rattle.vb_value.specs.declared.values.Ty.{Ty};
ghost use Rattle.vb_value.specs.declared.values.Value.{Value};
ghost use Rattle.viper_state.specs.State.{Key, Memo, State, empty_state, value_at, mask_at, content_at, amount_at, with_value, with_mask, with_content, with_amount};
ghost use Rattle.viper_state.specs.Run.{Opening, Scene, Feed};
ghost use Rattle.viper_state.specs.Choice as choice;
ghost use Rattle.viper_state.specs.Event as event;
ghost use Rattle.viper_state.specs.Fits.{FitsKey, FitsValue, FitsMemo, FitsState, FitsScene, FitsOpening, FitsChoice, FitsEvent, FitsFeed};
ghost use Rattle.viper_state.specs.FitsTest.{fits_memo};
ghost use Rattle.viper_state.specs.Within.{IsWithinMemo, IsWithinState, IsWithinScene, IsWithinOpening, IsWithinChoice, IsWithinEvent, IsWithinFeed, IsProperMemo, IsProperState, IsProperScene, IsProperOpening, IsProperChoice, IsProperEvent, IsProperFeed, IsNonnegative};

/// A state keeps fitting where a value of the field's type is set, or at arguments of the predicate's types a content or an
/// amount, in lowest terms. From a heap and contents that fit begins a state that fits.
pub fn changes_keep_what_fits()
    ensures value { (l : Layout) (s : State) (f r : ℕ) (u : Ty) (v : Value) → FitsState l s
        → slice_get l.fields f ≡ Some u → FitsValue u v → FitsState l (with_value s f r v) }
    ensures mask { (l : Layout) (s : State) (f r : ℕ) (q : Fraction) → FitsState l s
        → IsReduced q → FitsState l (with_mask s f r q) }
    ensures content { (l : Layout) (s : State) (p : ℕ) (us : List Ty) (k : Key) (c : Content) → FitsState l s
        → slice_get l.keys p ≡ Some us → FitsKey us k → IsReducedContent c → FitsState l (with_content s p k c) }
    ensures amount { (l : Layout) (s : State) (p : ℕ) (us : List Ty) (k : Key) (q : Fraction) → FitsState l s
        → slice_get l.keys p ≡ Some us → FitsKey us k → IsReduced q → FitsState l (with_amount s p k q) }
    ensures start { (l : Layout) (m : Memo) → FitsMemo l m → FitsState l (empty_state l m) }
{}

/// Each field that a layout has is found in a state that fits, with a value of its type, and each predicate with a content and
/// an amount.
pub fn what_a_layout_has_is_found()
    ensures value { (l : Layout) (s : State) (f r : ℕ) (u : Ty) → FitsState l s → slice_get l.fields f ≡ Some u
        → (v : Value) × ((value_at s f r ≡ Some v) × FitsValue u v) }
    ensures mask { (l : Layout) (s : State) (f r : ℕ) (u : Ty) → FitsState l s → slice_get l.fields f ≡ Some u
        → (q : Fraction) × ((mask_at s f r ≡ Some q) × IsReduced q) }
    ensures content { (l : Layout) (s : State) (p : ℕ) (k : Key) (us : List Ty) → FitsState l s
        → slice_get l.keys p ≡ Some us → (c : Content) × ((content_at s p k ≡ Some c) × IsReducedContent c) }
    ensures amount { (l : Layout) (s : State) (p : ℕ) (k : Key) (us : List Ty) → FitsState l s
        → slice_get l.keys p ≡ Some us → (q : Fraction) × ((amount_at s p k ≡ Some q) × IsReduced q) }
{}

/// What was set at a place or an instance is read there.
pub fn what_was_set_is_read()
    ensures value { (l : Layout) (s : State) (f r : ℕ) (u : Ty) (v : Value) → FitsState l s
        → slice_get l.fields f ≡ Some u → value_at (with_value s f r v) f r ≡ Some v }
    ensures mask { (l : Layout) (s : State) (f r : ℕ) (u : Ty) (q : Fraction) → FitsState l s
        → slice_get l.fields f ≡ Some u → mask_at (with_mask s f r q) f r ≡ Some q }
    ensures content { (l : Layout) (s : State) (p : ℕ) (k : Key) (us : List Ty) (c : Content) → FitsState l s
        → slice_get l.keys p ≡ Some us → content_at (with_content s p k c) p k ≡ Some c }
    ensures amount { (l : Layout) (s : State) (p : ℕ) (k : Key) (us : List Ty) (q : Fraction) → FitsState l s
        → slice_get l.keys p ≡ Some us → amount_at (with_amount s p k q) p k ≡ Some q }
{}

/// At another field or reference, predicate or arguments, stands what stood there.
pub fn what_was_not_set_stays()
    ensures value { (l : Layout) (s : State) (f r g x : ℕ) (v : Value) → FitsState l s
        → (f ≢ g) ⊎ (r ≢ x) → value_at (with_value s f r v) g x ≡ value_at s g x }
    ensures mask { (l : Layout) (s : State) (f r g x : ℕ) (q : Fraction) → FitsState l s
        → (f ≢ g) ⊎ (r ≢ x) → mask_at (with_mask s f r q) g x ≡ mask_at s g x }
    ensures content { (l : Layout) (s : State) (p o : ℕ) (k j : Key) (c : Content) → FitsState l s
        → (p ≢ o) ⊎ (k ≢ j) → content_at (with_content s p k c) o j ≡ content_at s o j }
    ensures amount { (l : Layout) (s : State) (p o : ℕ) (k j : Key) (q : Fraction) → FitsState l s
        → (p ≢ o) ⊎ (k ≢ j) → amount_at (with_amount s p k q) o j ≡ amount_at s o j }
{}

/// A state stays proper where what is proper is set, with a bound and without one. From a heap and contents that are proper
/// begins a state that is proper.
pub fn changes_keep_what_is_proper()
    ensures value { (b : Bound) (s : State) (f r : ℕ) (v : Value) → IsProperState b s
        → IsProperValue b v → IsProperState b (with_value s f r v) }
    ensures mask { (b : Bound) (s : State) (f r : ℕ) (q : Fraction) → IsProperState b s
        → IsProperFraction b q → IsProperState b (with_mask s f r q) }
    ensures content { (b : Bound) (s : State) (p : ℕ) (k : Key) (c : Content) → IsProperState b s
        → IsProperKey b k → IsProperContent b c → IsProperState b (with_content s p k c) }
    ensures amount { (b : Bound) (s : State) (p : ℕ) (k : Key) (q : Fraction) → IsProperState b s
        → IsProperKey b k → IsProperFraction b q → IsProperState b (with_amount s p k q) }
    ensures start { (b : Bound) (l : Layout) (m : Memo) → IsProperMemo b m → IsProperState b (empty_state l m) }
{}

/// What fits is proper, under the bound where it is within it.
pub fn what_fits_is_proper()
    ensures states { (b : Bound) (l : Layout) (s : State) → FitsState l s → IfBounded b (IsWithinState s)
        → IsProperState b s }
    ensures scenes { (b : Bound) (l : Layout) (us : List Ty) (sc : Scene) → FitsScene l us sc
        → IfBounded b (IsWithinScene sc) → IsProperScene b sc }
    ensures memos { (b : Bound) (l : Layout) (m : Memo) → FitsMemo l m → IfBounded b (IsWithinMemo m)
        → IsProperMemo b m }
    ensures openings { (b : Bound) (l : Layout) (us : List Ty) (o : Opening) → FitsOpening l us o
        → IfBounded b (IsWithinOpening o) → IsProperOpening b o }
    ensures choices { (b : Bound) (l : Layout) (c : choice.Choice) → FitsChoice l c → IfBounded b (IsWithinChoice c)
        → IsProperChoice b c }
    ensures events { (b : Bound) (l : Layout) (e : event.Event) → FitsEvent l e → IfBounded b (IsWithinEvent e)
        → IsProperEvent b e }
    ensures feeds { (b : Bound) (l : Layout) (f : Feed) → FitsFeed l f → IfBounded b (IsWithinFeed f)
        → IsProperFeed b f }
{}

/// What is proper under the bound is within it.
pub fn what_is_proper_is_within()
    ensures states { (s : State) → IsProperState Bounded s → IsWithinState s }
    ensures scenes { (sc : Scene) → IsProperScene Bounded sc → IsWithinScene sc }
    ensures memos { (m : Memo) → IsProperMemo Bounded m → IsWithinMemo m }
    ensures openings { (o : Opening) → IsProperOpening Bounded o → IsWithinOpening o }
    ensures choices { (c : choice.Choice) → IsProperChoice Bounded c → IsWithinChoice c }
    ensures events { (e : event.Event) → IsProperEvent Bounded e → IsWithinEvent e }
    ensures feeds { (f : Feed) → IsProperFeed Bounded f → IsWithinFeed f }
{}

/// No mask and no amount becomes negative by a change that sets none.
pub fn changes_keep_what_is_not_negative()
    ensures value { (s : State) (f r : ℕ) (v : Value) → IsNonnegative s → IsNonnegative (with_value s f r v) }
    ensures mask { (s : State) (f r : ℕ) (q : Fraction) → IsNonnegative s → is_negative q ≡ false
        → IsNonnegative (with_mask s f r q) }
    ensures content { (s : State) (p : ℕ) (k : Key) (c : Content) → IsNonnegative s
        → IsNonnegative (with_content s p k c) }
    ensures amount { (s : State) (p : ℕ) (k : Key) (q : Fraction) → IsNonnegative s → is_negative q ≡ false
        → IsNonnegative (with_amount s p k q) }
    ensures start { (l : Layout) (m : Memo) → IsNonnegative (empty_state l m) }
{}

/// Whether a heap and contents fit can be tested.
pub fn the_test_of_what_fits_is_exact()
    ensures { (l : Layout) (m : Memo) → Decides (fits_memo l m) (FitsMemo l m) }
{}
