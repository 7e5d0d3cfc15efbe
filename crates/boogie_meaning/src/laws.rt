//! Laws of types, values and quantifiers, each as the contract of a function that does nothing.

ghost use Rattle.std.specs.Prelude.{◌≡◌, ◌↔◌, ℕ, Bool as Truth, true, false, List, All, Some, None, Option, length, slice_get};
ghost use Rattle.std.specs.Bool.{Decides};
ghost use Rattle.sparse.specs.Map.{Map, empty, get, set};
ghost use Rattle.vb_value.specs.Bound.{Bound, Unbounded, Bounded};
ghost use Rattle.vb_value.specs.Key.{key_cmp};
ghost use Rattle.boogie_tree.specs.Expr as t;
ghost use Rattle.boogie_tree.specs.Stmt as s;
ghost use Rattle.boogie_tree.specs.Fits.{FitsExpr, FitStmts};
ghost use Rattle.boogie_tree.specs.Literals.{LiteralsFit, BlockLiteralsFit};
ghost use Rattle.boogie_tree.specs.Program.{BType, BProgram};
ghost use Rattle.boogie_tree.specs.Value.{Key, BScalar, same_scalar, BValue, BChoice};
ghost use Rattle.boogie_tree.specs.declared.exprs.BBase.{BBase};
ghost use Rattle.boogie_tree.specs.declared.exprs.BBase.TheVariants as base;
ghost use Rattle.boogie_meaning.specs.Compared.{IsNotOver, IsBoundedBy};
ghost use Rattle.boogie_meaning.specs.Decided.{is_listed};
ghost use Rattle.boogie_meaning.specs.Ends.{End, Keeps};
ghost use Rattle.boogie_meaning.specs.Forall.{IsForall};
ghost use Rattle.boogie_meaning.specs.Marked.{marked, AtMarked, AtMarkedOr};
ghost use Rattle.boogie_meaning.specs.Programs.{default_value, IsTypedProgram, first_ill_typed, IsFirstIllTyped};
ghost use Rattle.boogie_meaning.specs.Quantified.{quantified, bvalue, bkey, side};
ghost use Rattle.boogie_meaning.specs.Renamed.{renamed, renamed_in, AllVariables, AllVariablesIn};
ghost use Rattle.boogie_meaning.specs.Run.{chosen, choice_for};
ghost use Rattle.boogie_meaning.specs.Types.{HasType, HaveTypes, SideHasType, IsTyped, base_of, is_typed};
ghost use Rattle.boogie_meaning.specs.Value.{body_at};
ghost use Rattle.boogie_tree.specs.Values.{AreKeys, default_of, FitsKey, FitsScalar, IsMapOf, IsOfType, IsEnvironment, IsReducedChoice};

/// A quantifier has one end, which is what is true of its body at every list of keys of its type.
pub fn a_quantifier_has_one_end()
    ensures has { (b : Bound) (us : List BBase) (a : t.BExpr) (env : List BValue)
        → IsForall (FitsKey us) (body_at b a env) (quantified b us a env).0 }
    ensures one { (b : Bound) (us : List BBase) (a : t.BExpr) (env : List BValue) (e : End Truth)
        → IsForall (FitsKey us) (body_at b a env) e → e ≡ (quantified b us a env).0 }
{}

/// The body of a quantifier has one end at all lists of keys that are not marked, so the marked ones and one that is not
/// marked decide, and where each list is marked, the marked ones alone. Where the bound names have key types, each list is
/// marked only where each name is a bool.
pub fn the_marked_keys_decide_a_quantifier()
    ensures alike { (b : Bound) (a : t.BExpr) (env : List BValue) (k : Key) (j : Key)
        → is_listed (marked a env) k ≡ false → is_listed (marked a env) j ≡ false → body_at b a env k ≡ body_at b a env j }
    ensures decide { (b : Bound) (us : List BBase) (a : t.BExpr) (env : List BValue) (j : Key) (e : End Truth)
        → FitsKey us j → is_listed (marked a env) j ≡ false → IsForall (AtMarkedOr a env us j) (body_at b a env) e
        → IsForall (FitsKey us) (body_at b a env) e }
    ensures alone { (b : Bound) (us : List BBase) (a : t.BExpr) (env : List BValue) (e : End Truth)
        → ((k : Key) → FitsKey us k → is_listed (marked a env) k ≡ true) → IsForall (AtMarked a env us) (body_at b a env) e
        → IsForall (FitsKey us) (body_at b a env) e }
    ensures missing { (us : List BBase) (a : t.BExpr) (env : List BValue) → AreKeys us
        → ((k : Key) → FitsKey us k → is_listed (marked a env) k ≡ true) → All (λ u. u ≡ base.Bool) us }
{}

/// The functions on types answer just what the rules say: an expression has one type or none, and the first ill-typed procedure
/// is found.
pub fn types_are_computed_exactly()
    ensures expressions { (ls : List BType) (o : Option (List BBase)) (e : t.BExpr) (u : BBase)
        → (base_of ls o e ≡ Some u) ↔ HasType ls o e u }
    ensures statements { (ls : List BType) (xs : s.BStmts) → Decides (is_typed ls xs) (IsTyped ls xs) }
    ensures programs { (program : BProgram) → (first_ill_typed program ≡ None) ↔ IsTypedProgram program }
    ensures first { (program : BProgram) (number : ℕ) → (first_ill_typed program ≡ Some number) ↔ IsFirstIllTyped program number }
{}

/// An empty map is of its type, and one that is set stays of it; each value of a map is of the type of its values.
pub fn maps_keep_their_type()
    ensures empty { (us : List BBase) (u : BBase) → IsMapOf us u (empty (default_of u)) }
    ensures get { (us : List BBase) (u : BBase) (m : Map Key BScalar) (k : Key) → IsMapOf us u m → FitsScalar u (get key_cmp m k) }
    ensures set { (us : List BBase) (u : BBase) (m : Map Key BScalar) (k : Key) (v : BScalar) → IsMapOf us u m → FitsKey us k
        → FitsScalar u v → IsMapOf us u (set key_cmp same_scalar m k v) }
{}

/// What a choice gives a variable is of its type, and each value of the type is given by a choice.
pub fn choices_give_just_the_values_of_a_type()
    ensures given { (u : BType) (c : BChoice) (v : BValue) → IsReducedChoice c → chosen u c ≡ Some v → IsOfType v u }
    ensures each { (u : BType) (v : BValue) → IsOfType v u → chosen u (choice_for v) ≡ Some v }
    ensures default { (u : BType) → IsOfType (default_value u) u }
{}

/// A well-typed expression is never Wrong, and its value is of its type.
pub fn well_typed_expressions_have_values_of_their_types()
    ensures value { (b : Bound) (ls : List BType) (env : List BValue) (e : t.BExpr) (u : BBase) → IsEnvironment ls env
        → HasType ls None e u → Keeps (FitsScalar u) (bvalue b e env) }
    ensures key { (b : Bound) (ls : List BType) (env : List BValue) (es : t.BExprs) (us : List BBase) → IsEnvironment ls env
        → HaveTypes ls None es us → Keeps (FitsKey us) (bkey b es env) }
    ensures side { (b : Bound) (ls : List BType) (env : List BValue) (e : t.BExpr) (u : BType) → IsEnvironment ls env
        → SideHasType ls e u → Keeps (λ v. IsOfType v u) (side b e env) }
{}

/// What is computed within the bound and is not Over is what is computed without it. Without a bound nothing is Over.
pub fn the_bound_changes_nothing_else()
    ensures value { (e : t.BExpr) (env : List BValue) → IsBoundedBy (bvalue Bounded e env) (bvalue Unbounded e env) }
    ensures key { (es : t.BExprs) (env : List BValue) → IsBoundedBy (bkey Bounded es env) (bkey Unbounded es env) }
    ensures side { (e : t.BExpr) (env : List BValue) → IsBoundedBy (side Bounded e env) (side Unbounded e env) }
    ensures value_is_never_over { (e : t.BExpr) (env : List BValue) → IsNotOver (bvalue Unbounded e env) }
{}

/// An expression looks at its own variables alone, whatever their numbers are.
pub fn an_expression_looks_at_its_own_variables()
    ensures value { (b : Bound) (f : ℕ → ℕ) (env : List BValue) (new : List BValue) (e : t.BExpr)
        → AllVariables (λ i. slice_get new (f i) ≡ slice_get env i) e → bvalue b (renamed f e) new ≡ bvalue b e env }
    ensures key { (b : Bound) (f : ℕ → ℕ) (env : List BValue) (new : List BValue) (es : t.BExprs)
        → AllVariablesIn (λ i. slice_get new (f i) ≡ slice_get env i) es → bkey b (renamed_in f es) new ≡ bkey b es env }
{}

/// What is well-typed, and has literals that can be spelled, can be spelled among as many locals.
pub fn what_is_typed_can_be_printed()
    ensures expression { (ts : List BType) (x : t.BExpr) (u : BBase) → HasType ts None x u → LiteralsFit x
        → FitsExpr (length ts) false x }
    ensures statements { (ts : List BType) (xs : s.BStmts) → IsTyped ts xs → BlockLiteralsFit xs → FitStmts (length ts) xs }
{}
