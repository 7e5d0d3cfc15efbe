//! Laws of assumed quantifiers, each as the contract of a function that does nothing.

ghost use Rattle.std.specs.Prelude.{◌≡◌, ◌⊎◌, ℕ, true, false, List, ◌∷◌, All, slice_get, Some};
ghost use Rattle.sparse.specs.Map.{Map, empty};
ghost use Rattle.vb_value.specs.Bound.{Bound};
ghost use Rattle.vb_value.specs.Fraction.{none};
ghost use Rattle.boogie_tree.specs.Expr as t;
ghost use Rattle.boogie_tree.specs.Program.{BType};
ghost use Rattle.boogie_tree.specs.Value.{Key, BScalar, Real, BValue, Many, BChoice};
ghost use Rattle.boogie_tree.specs.declared.exprs.BBase.{BBase};
ghost use Rattle.boogie_tree.specs.declared.exprs.BBase.TheVariants as base;
ghost use Rattle.boogie_meaning.specs.Ends.{Is};
ghost use Rattle.boogie_meaning.specs.Forall.{IsTruth};
ghost use Rattle.boogie_meaning.specs.Patterns.{assume_all, zero_code, forget_code, Agrees, CanForget, with_both, HasForgotten, GoesFrom, GoesOrBlocks, avoid_code, Avoids, AreThere};
ghost use Rattle.boogie_meaning.specs.Run.{Done, Stop, Stops, Blocked, Short, chosen, brun_stmt, brun};
ghost use Rattle.boogie_meaning.specs.Value.{body_at};
ghost use Rattle.boogie_tree.specs.Values.{FitsKey, IsMapOf, map_type, IsReducedChoice};

/// `assume` of a quantifier continues just where the body is true at every list of keys.
pub fn assuming_a_quantifier_is_assuming_it_at_each_key()
    ensures holds { (ls : List BType) (b : Bound) (us : List BBase) (a : t.BExpr) (env : List BValue) (cs : List BChoice)
        → ((k : Key) → FitsKey us k → body_at b a env k ≡ Is true) → brun_stmt ls b (assume_all us a) env cs ≡ Done env cs }
    ensures done { (ls : List BType) (b : Bound) (us : List BBase) (a : t.BExpr) (env : List BValue) (cs : List BChoice) (new : List BValue)
        (left : List BChoice) → brun_stmt ls b (assume_all us a) env cs ≡ Done new left
        → ((k : Key) → FitsKey us k → body_at b a env k ≡ Is true) × GoesFrom env cs new left }
    ensures blocked { (ls : List BType) (b : Bound) (us : List BBase) (a : t.BExpr) (env : List BValue) (cs : List BChoice)
        → ((k : Key) → FitsKey us k → IsTruth (body_at b a env k)) → (k : Key) → FitsKey us k → body_at b a env k ≡ Is false
        → brun_stmt ls b (assume_all us a) env cs ≡ Stops Blocked cs }
    ensures ends { (ls : List BType) (b : Bound) (us : List BBase) (a : t.BExpr) (env : List BValue) (cs : List BChoice)
        → ((k : Key) → FitsKey us k → IsTruth (body_at b a env k)) → GoesOrBlocks env cs (brun_stmt ls b (assume_all us a) env cs) }
{}

/// To assume that a map is 0 at each key continues just where it is the map of zeros.
pub fn assuming_zeros_is_assuming_the_map_of_zeros()
    ensures goes { (ls : List BType) (b : Bound) (us : List BBase) (env : List BValue) (m : ℕ) (cs : List BChoice)
        → slice_get env m ≡ Some (Many (empty (Real none))) → brun_stmt ls b (zero_code us m) env cs ≡ Done env cs }
    ensures done { (ls : List BType) (b : Bound) (us : List BBase) (env : List BValue) (m : ℕ) (n : Map Key BScalar)
        → slice_get env m ≡ Some (Many n) → IsMapOf us base.Real n → (cs : List BChoice) (new : List BValue) (left : List BChoice)
        → brun_stmt ls b (zero_code us m) env cs ≡ Done new left → (n ≡ empty (Real none)) × GoesFrom env cs new left }
    ensures ends { (ls : List BType) (b : Bound) (us : List BBase) (env : List BValue) (m : ℕ) (n : Map Key BScalar)
        → slice_get env m ≡ Some (Many n) → IsMapOf us base.Real n → (cs : List BChoice)
        → GoesOrBlocks env cs (brun_stmt ls b (zero_code us m) env cs) }
{}

/// Code that gives a map any values where another one is 0 takes one choice. It is done just where that is a map of the type
/// that agrees with the old one elsewhere, which then stands in its place.
pub fn forgetting_is_choosing_a_map_that_agrees()
    ensures goes { (ls : List BType) (b : Bound) (env : List BValue) (u : BBase) (us : List BBase) (w : BBase) (held old new : ℕ)
        (held_map old_map : Map Key BScalar) → CanForget ls env u us w held old new held_map old_map
        → (c : BChoice) (cs : List BChoice) (new_map : Map Key BScalar) → IsMapOf (u ∷ us) w new_map
        → chosen (map_type u us w) c ≡ Some (Many new_map) → Agrees (u ∷ us) held_map old_map new_map
        → brun ls b (forget_code (u ∷ us) held old new) env (c ∷ cs) ≡ Done (with_both env old new new_map) cs }
    ensures agrees { (ls : List BType) (b : Bound) (env : List BValue) (u : BBase) (us : List BBase) (w : BBase) (held old new : ℕ)
        (held_map old_map : Map Key BScalar) → CanForget ls env u us w held old new held_map old_map
        → (cs : List BChoice) (then : List BValue) (left : List BChoice) → All IsReducedChoice cs
        → brun ls b (forget_code (u ∷ us) held old new) env cs ≡ Done then left
        → HasForgotten env u us w old new held_map old_map cs then left }
    ensures stops { (ls : List BType) (b : Bound) (env : List BValue) (u : BBase) (us : List BBase) (w : BBase) (held old new : ℕ)
        (held_map old_map : Map Key BScalar) → CanForget ls env u us w held old new held_map old_map
        → (cs : List BChoice) (why : Stop) (left : List BChoice) → All IsReducedChoice cs
        → brun ls b (forget_code (u ∷ us) held old new) env cs ≡ Stops why left → (why ≡ Blocked) ⊎ (why ≡ Short) }
{}

/// To assume that a map has another value than a variable wherever a further map is not 0 continues just where that is so.
pub fn assuming_that_a_map_avoids_a_value_is_assuming_it_at_each_key()
    ensures goes { (ls : List BType) (b : Bound) (us : List BBase) (env : List BValue) (w : BBase) (held m r : ℕ)
        (held_map map : Map Key BScalar) (v : BScalar) → AreThere env us w held m r held_map map v
        → (cs : List BChoice) → Avoids us held_map map v → brun_stmt ls b (avoid_code us held m r) env cs ≡ Done env cs }
    ensures done { (ls : List BType) (b : Bound) (us : List BBase) (env : List BValue) (w : BBase) (held m r : ℕ)
        (held_map map : Map Key BScalar) (v : BScalar) → AreThere env us w held m r held_map map v
        → (cs : List BChoice) (new : List BValue) (left : List BChoice) → brun_stmt ls b (avoid_code us held m r) env cs ≡ Done new left
        → Avoids us held_map map v × GoesFrom env cs new left }
    ensures ends { (ls : List BType) (b : Bound) (us : List BBase) (env : List BValue) (w : BBase) (held m r : ℕ)
        (held_map map : Map Key BScalar) (v : BScalar) → AreThere env us w held m r held_map map v
        → (cs : List BChoice) → GoesOrBlocks env cs (brun_stmt ls b (avoid_code us held m r) env cs) }
{}
