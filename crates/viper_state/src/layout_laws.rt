//! Laws of what fits a program, each as the contract of a function that does nothing.

ghost use Rattle.std.specs.Prelude.{◌≡◌, ℕ, List, Some, slice_get};
ghost use Rattle.sparse.specs.Map.{Map};
ghost use Rattle.vb_value.specs.Content.{Content};
ghost use Rattle.vb_value.specs.Fraction.{Fraction};
ghost use Rattle.vb_value.specs.Layout.{Layout};
ghost use Rattle.vb_value.specs.declared.values.Ty.{Ty};
ghost use Rattle.vb_value.specs.declared.values.Value.{Value};
ghost use Rattle.viper_state.specs.State.{Key, Memo, State};
ghost use Rattle.viper_state.specs.Fits.{FitsHeap, FitsMask, FitsContents, FitsAmounts, FitsMemo, FitsState, HasMaps, MemoHasMaps};

/// A heap and contents that fit have a map of its type for each field and each predicate of the layout, and no other. A state
/// that fits has masks and amounts besides.
pub fn what_fits_has_its_maps()
    ensures memo { (l : Layout) (m : Memo) → FitsMemo l m → MemoHasMaps l m }
    ensures state { (l : Layout) (s : State) → FitsState l s → HasMaps l s }
    ensures memo_heap { (l : Layout) (m : Memo) (f : ℕ) (u : Ty) → FitsMemo l m → slice_get l.fields f ≡ Some u
        → (h : Map ℕ Value) × ((slice_get m.heap f ≡ Some h) × FitsHeap u h) }
    ensures memo_content { (l : Layout) (m : Memo) (p : ℕ) (us : List Ty) → FitsMemo l m → slice_get l.keys p ≡ Some us
        → (c : Map Key Content) × ((slice_get m.content p ≡ Some c) × FitsContents us c) }
    ensures heap { (l : Layout) (s : State) (f : ℕ) (u : Ty) → FitsState l s → slice_get l.fields f ≡ Some u
        → (h : Map ℕ Value) × ((slice_get s.heap f ≡ Some h) × FitsHeap u h) }
    ensures content { (l : Layout) (s : State) (p : ℕ) (us : List Ty) → FitsState l s → slice_get l.keys p ≡ Some us
        → (c : Map Key Content) × ((slice_get s.content p ≡ Some c) × FitsContents us c) }
    ensures mask { (l : Layout) (s : State) (f : ℕ) (u : Ty) → FitsState l s → slice_get l.fields f ≡ Some u
        → (q : Map ℕ Fraction) × ((slice_get s.mask f ≡ Some q) × FitsMask u q) }
    ensures amount { (l : Layout) (s : State) (p : ℕ) (us : List Ty) → FitsState l s → slice_get l.keys p ≡ Some us
        → (q : Map Key Fraction) × ((slice_get s.amount p ≡ Some q) × FitsAmounts us q) }
{}
