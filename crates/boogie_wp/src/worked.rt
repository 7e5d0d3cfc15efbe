//! Worked examples, each as the contract of a function that does nothing: where the goals of small procedures are false, and where
//! their assertions fail.

ghost use Rattle.std.specs.Prelude.{◌≡◌, pos, ℤ, true, false, [], ◌∷◌};
ghost use Rattle.boogie_meaning.specs.Ends.{Is};
ghost use Rattle.boogie_formula.specs.Follows.{ConditionsFollow, Follows, IsExact};
ghost use Rattle.boogie_formula.specs.Formula.{Conditions, Formula};
ghost use Rattle.boogie_formula.specs.Value.{formula_value, FailsIn, Valid};
ghost use Rattle.boogie_wp.specs.Worked.{bool, chosen, elsewhere, here, int, joining, picking, twice};

/// The value of a `havoc` is that of its variable, whatever the local was before. Where no assertion has the label, the formula is
/// valid.
pub fn a_chosen_value_fails_its_assertion()
    ensures fails { (f : Formula) → Follows chosen here f → (x : ℤ) → formula_value f (int x ∷ int (pos 5) ∷ []) ≡ Is false }
    ensures holds { (f : Formula) → Follows chosen here f → (x : ℤ) → formula_value f (int x ∷ int (pos 2) ∷ []) ≡ Is true }
    ensures other_label { (f : Formula) → Follows chosen elsewhere f → Valid f }
{}

/// An assertion of another label stands before: where it is false the run does not come here.
pub fn earlier_assertions_are_on_the_path()
    ensures before { (f : Formula) → Follows twice here f → formula_value f (int (pos 7) ∷ []) ≡ Is true }
    ensures at_it { (f : Formula) → Follows twice elsewhere f → formula_value f (int (pos 7) ∷ []) ≡ Is false }
{}

/// After both branches a local has the value of the branch that was taken.
pub fn a_join_has_the_values_of_its_branch()
    ensures first { (f : Formula) → Follows joining here f → formula_value f (int (pos 0) ∷ []) ≡ Is true }
    ensures second { (f : Formula) → Follows joining here f → formula_value f (int (pos 4) ∷ []) ≡ Is false }
{}

/// A branch that is not taken meets none of its choices.
pub fn a_pick_skips_the_choices_of_the_other_branch()
    ensures taken { (f : Formula) → Follows picking here f → formula_value f (int (pos 0) ∷ bool true ∷ int (pos 5) ∷ []) ≡ Is false }
    ensures skipped { (f : Formula) → Follows picking here f → formula_value f (int (pos 0) ∷ bool false ∷ int (pos 5) ∷ []) ≡ Is true }
{}

/// Each assertion fails under its own label, and where one fails none behind it does.
pub fn an_assertion_fails_under_its_own_label()
    ensures first { (x : Conditions) → ConditionsFollow twice x → FailsIn x (int (pos 7) ∷ []) elsewhere }
    ensures not_behind { (x : Conditions) → ConditionsFollow twice x → FailsIn x (int (pos 7) ∷ []) here → ⊥ }
    ensures none { (x : Conditions) → ConditionsFollow twice x → FailsIn x (int (pos 2) ∷ []) elsewhere → ⊥ }
{}

/// An assertion fails at the values of the branch that was taken.
pub fn an_assertion_behind_a_join_fails_at_its_branch()
    ensures second { (x : Conditions) → ConditionsFollow joining x → FailsIn x (int (pos 4) ∷ []) here }
    ensures not_first { (x : Conditions) → ConditionsFollow joining x → FailsIn x (int (pos 0) ∷ []) here → ⊥ }
{}
