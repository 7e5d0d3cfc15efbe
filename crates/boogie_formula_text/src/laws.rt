// Laws of the text, each the contract of a function with nothing to do.
ghost use Rattle.std.specs.Prelude.{◌≡◌, ℕ, List};
ghost use Rattle.vb_base.specs.declared.labels.Label.{Label};
ghost use Rattle.boogie_print.specs.Printable.{IsFreeName};
ghost use Rattle.boogie_formula.specs.Formula.{Conditions, Formula};
ghost use Rattle.boogie_formula.specs.Printable.{IsPrintableConditions, IsPrintableFormula};
ghost use Rattle.boogie_formula_text.specs.Printed.{conditions_text, formula_text};
ghost use Rattle.boogie_formula_text.specs.Short.{AreShortConditions, IsShortFormula};
ghost use Rattle.boogie_formula_text.specs.Spells.{SpellsConditions, SpellsFormula};

/// No bytes spell two formulas, or one of two procedures or labels.
pub fn one_formula()
    ensures { (bytes : List ℕ) (n m : List ℕ) (k l : Label) (f g : Formula) → SpellsFormula bytes n k f → SpellsFormula bytes m l g
        → (n ≡ m) × (k ≡ l) × (f ≡ g) }
{}

/// What is written spells the formula, if it can be printed and numbers no more names than differ.
pub fn written_is_spelled()
    ensures { (name : List ℕ) (label : Label) (f : Formula) → IsFreeName name → IsPrintableFormula f → IsShortFormula f
        → SpellsFormula (formula_text name label f) name label f }
{}

/// What bytes spell can be printed: the name is not reserved, literals are within the bound, and each number names what stands
/// before it.
pub fn spelled_is_printable()
    ensures { (bytes name : List ℕ) (label : Label) (f : Formula) → SpellsFormula bytes name label f → IsFreeName name × IsPrintableFormula f }
{}

/// No bytes spell the conditions of two procedures, or two of one.
pub fn one_conditions()
    ensures { (bytes : List ℕ) (n m : List ℕ) (x y : Conditions) → SpellsConditions bytes n x → SpellsConditions bytes m y → (n ≡ m) × (x ≡ y) }
{}

/// What is written spells the conditions, if they can be printed and number no more names than differ.
pub fn written_conditions_are_spelled()
    ensures { (name : List ℕ) (x : Conditions) → IsFreeName name → IsPrintableConditions x → AreShortConditions x
        → SpellsConditions (conditions_text name x) name x }
{}

/// What conditions bytes spell can be printed, and each assertion names a definition.
pub fn spelled_conditions_are_printable()
    ensures { (bytes name : List ℕ) (x : Conditions) → SpellsConditions bytes name x → IsFreeName name × IsPrintableConditions x }
{}
