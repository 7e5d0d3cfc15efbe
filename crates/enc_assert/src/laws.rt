//! Laws of the code, each as the contract of a function that does nothing.

ghost use Rattle.std.specs.Prelude.{⊤, ◌≡◌, ◌≤◌, ◌+◌, ◌*◌, ℕ, List, length, None};
ghost use Rattle.vb_value.specs.Bound.{Bound};
ghost use Rattle.vb_value.specs.Fraction.{Fraction};
ghost use Rattle.vb_value.specs.Layout.{Layout};
ghost use Rattle.viper_core.specs.Depth.{assertion_depth};
ghost use Rattle.viper_core.specs.Expr as e;
ghost use Rattle.viper_core.specs.Formed.{IsFormed};
ghost use Rattle.viper_core.specs.Program.{Program};
ghost use Rattle.viper_core.specs.Size.{assertion_size};
ghost use Rattle.viper_core.specs.Typing.{Context, IsAssertion};
ghost use Rattle.viper_core.specs.Weight.{base_of};
ghost use Rattle.viper_state.specs.State.{State};
ghost use Rattle.viper_state.specs.Run.{Scene};
ghost use Rattle.viper_state.specs.Fits.{FitsStore};
ghost use Rattle.viper_meaning.specs.Assertions.{produce, consume};
ghost use Rattle.viper_meaning.specs.Forgotten.{forget};
ghost use Rattle.boogie_tree.specs.Expr as t;
ghost use Rattle.boogie_tree.specs.Literals.{LiteralsFit, BlockLiteralsFit};
ghost use Rattle.boogie_tree.specs.Nested.{expr_depth, stmts_depth};
ghost use Rattle.boogie_tree.specs.Program.{BType};
ghost use Rattle.boogie_tree.specs.declared.exprs.BBase.TheVariants as base;
ghost use Rattle.boogie_meaning.specs.Run.{brun};
ghost use Rattle.boogie_meaning.specs.Types as types;
ghost use Rattle.enc_expr.specs.Place.{Maps, Place, with_now};
ghost use Rattle.enc_expr.specs.Kinds.{Kinds, kinds_in};
ghost use Rattle.enc_expr.specs.Code.{Guard};
ghost use Rattle.enc_expr.specs.Fits.{FitsPiece};
ghost use Rattle.enc_expr.specs.Literals.{AssertionLiteralsFit};
ghost use Rattle.enc_expr.specs.Nodes.{expr_nodes, written};
ghost use Rattle.enc_expr.specs.Coupling.{Env, HasMaps, IsSound, IsCoupled, AreLocals, IsReady};
ghost use Rattle.enc_expr.specs.Alike.{IsScale};
ghost use Rattle.enc_expr.specs.Shallow.{IsShallow};
ghost use Rattle.enc_expr.specs.Typed.{HasStateTypes, HasPlaceTypes, HasGuardType, IsTypedPiece};
ghost use Rattle.enc_assert.specs.Encoding.{produce_code, consume_code, forget_code};
ghost use Rattle.enc_assert.specs.Held.{
  HasPlaces,
  IsGrowing,
  IsShrinking,
  IsForgetting,
  IsProduced,
  IsConsumed,
  IsForgotten,
};
ghost use Rattle.enc_assert.specs.Alongside.{AreAlongside};
ghost use Rattle.enc_assert.specs.Typed.{HasHeldTypes};

/// From each environment in which a state is coupled, producing a well-typed assertion and its code end alike, with a bound and
/// without one. On the moves of what the run records the code is done or fails where the run does, and is blocked or short of a
/// choice where the run is. And each run of the code on proper choices that is done or fails is backed by choices on which the
/// run does the same, and took the moves of what that one records. Where they are done, the state to which permission came is
/// coupled, and nothing but its masks and amounts, and new locals, was changed. With the bound the run may leave it: the code took
/// the moves of what was recorded until then, and nothing is said of its end.
pub fn producing_and_its_code_end_alike()
    ensures { (ts : List BType) (b : Bound) (c : Context) (p : Place) (g : Guard) (s : State) (sc : Scene) (n : ℕ) (E : Env)
        (scale : t.BExpr) (k : Fraction) (a : e.Assertion) → IsFormed c.program → IsCoupled b c n p s sc E → IsAssertion c a
        → IsGrowing c p → FitsStore c.vars sc.store → IsScale b n E scale k
        → IsReady ts g n (produce_code (kinds_in c) p g scale a n).locals E
        → AreAlongside ⊤ b c.program.layout (IsProduced b c n (produce_code (kinds_in c) p g scale a n).next p sc E)
        (produce b a sc k s) (λ cs. brun ts b (produce_code (kinds_in c) p g scale a n).stmts E cs) }
{}

/// The same of consuming. Expressions are read in the state that is coupled, and permission is taken from another one, whose masks
/// and amounts are no locals of what is read. The amount of a `wildcard` is not scaled. Where they are done, the maps hold the
/// state that is left, and nothing but its masks and amounts, and new locals, was changed.
pub fn consuming_and_its_code_end_alike()
    ensures { (ts : List BType) (b : Bound) (c : Context) (p : Place) (left : Maps) (g : Guard) (s u : State) (sc : Scene) (n : ℕ)
        (E : Env) (scale : t.BExpr) (k : Fraction) (a : e.Assertion) → IsFormed c.program → IsCoupled b c n p s sc E
        → HasMaps c.program.layout n left u E → IsSound b c.program.layout u → IsAssertion c a → IsShrinking c p left
        → FitsStore c.vars sc.store → IsScale b n E scale k
        → IsReady ts g n (consume_code (kinds_in c) p left g scale a n).locals E
        → AreAlongside ⊤ b c.program.layout (IsConsumed b c n (consume_code (kinds_in c) p left g scale a n).next left E)
        (consume b a s sc k u) (λ cs. brun ts b (consume_code (kinds_in c) p left g scale a n).stmts E cs) }
{}

/// Behind consuming the state that is read is still coupled, and at the same place so is the one that is left, in its stead.
pub fn what_consuming_reads_and_leaves_is_coupled()
    ensures read { (b : Bound) (c : Context) (p : Place) (left : Maps) (s u w : State) (sc : Scene) (n m : ℕ) (E F : Env) → n ≤ m
        → IsCoupled b c n p s sc E → HasMaps c.program.layout n left u E → IsShrinking c p left → IsConsumed b c n m left E w F
        → IsCoupled b c m p s sc F }
    ensures left { (b : Bound) (c : Context) (p : Place) (left : Maps) (s u w : State) (sc : Scene) (n m : ℕ) (E F : Env) → n ≤ m
        → IsCoupled b c n p s sc E → HasMaps c.program.layout n left u E → IsShrinking c p left → IsConsumed b c n m left E w F
        → IsCoupled b c m (with_now left p) w sc F }
{}

/// The same of forgetting, but that a run of the code may have taken the maps of the moves in another form. Where they are done,
/// the state that is left is coupled, and nothing but its heaps and contents, and new locals, was changed. In a program without
/// fields and predicates the code takes no choice, and forgetting still takes one, so that the code is not promised to wait for
/// it there.
pub fn forgetting_and_its_code_end_alike()
    ensures { (ts : List BType) (b : Bound) (c : Context) (p : Place) (s : State) (sc : Scene) (n : ℕ) (E : Env)
        → IsCoupled b c n p s sc E → IsForgetting c p → length E ≡ length ts
        → AreLocals ts n (forget_code c.program.layout p.now n).locals
        → AreAlongside (HasPlaces c.program.layout) b c.program.layout
        (IsForgotten b c n (forget_code c.program.layout p.now n).next p sc E) (forget c.program.layout s)
        (λ cs. brun ts b (forget_code c.program.layout p.now n).stmts E cs) }
{}

/// Behind locals of the types that its place names, the code of producing or consuming a well-typed assertion is well-typed,
/// with its own locals behind those, whose maps have indices of key types. Of the maps that permission is taken from only masks
/// and amounts have to have their types. So is the code of forgetting behind the maps of a state.
pub fn code_is_well_typed()
    ensures produce { (c : Context) (p : Place) (g : Guard) (scale : t.BExpr) (a : e.Assertion) (ts : List BType)
        → IsFormed c.program → IsAssertion c a → HasPlaceTypes c p ts → HasGuardType g ts
        → types.HasType ts None scale base.Real
        → IsTypedPiece ts (produce_code (kinds_in c) p g scale a (length ts)) }
    ensures consume { (c : Context) (p : Place) (left : Maps) (g : Guard) (scale : t.BExpr) (a : e.Assertion) (ts : List BType)
        → IsFormed c.program → IsAssertion c a → HasPlaceTypes c p ts → HasHeldTypes c.program.layout left ts
        → HasGuardType g ts → types.HasType ts None scale base.Real
        → IsTypedPiece ts (consume_code (kinds_in c) p left g scale a (length ts)) }
    ensures forget { (p : Program) (m : Maps) (ts : List BType) → IsFormed p → HasStateTypes p.layout m ts
        → IsTypedPiece ts (forget_code p.layout m (length ts)) }
{}

/// The text of the code of producing or consuming a well-typed assertion of a formed program has at most one more bracket open at
/// once than the assertion has levels, or than a term of a program may have, since an `unfolding` opens a body. The code of
/// forgetting keeps within 4.
pub fn code_is_shallow()
    ensures produce { (c : Context) (p : Place) (g : Guard) (scale : t.BExpr) (a : e.Assertion) (n : ℕ) → IsFormed c.program
        → IsAssertion c a → expr_depth scale ≡ 0
        → IsShallow (assertion_depth a) (produce_code (kinds_in c) p g scale a n) }
    ensures consume { (c : Context) (p : Place) (left : Maps) (g : Guard) (scale : t.BExpr) (a : e.Assertion) (n : ℕ)
        → IsFormed c.program → IsAssertion c a → expr_depth scale ≡ 0
        → IsShallow (assertion_depth a) (consume_code (kinds_in c) p left g scale a n) }
    ensures forget { (layout : Layout) (m : Maps) (n : ℕ) → stmts_depth (forget_code layout m n).stmts ≤ 4 }
{}

/// The code of producing or consuming an assertion of a formed program is at most 64 times as large as the assertion. Of the code
/// each node counts and each new local, of an expression each node; and an `unfolding` counts the body that it opens, and each
/// field and each predicate of the program. The types of new locals are not counted. The code of forgetting counts 13 for each
/// field and each predicate.
pub fn code_is_linear()
    ensures produce { (c : Context) (p : Place) (g : Guard) (scale : t.BExpr) (a : e.Assertion) (n : ℕ) → IsFormed c.program
        → expr_nodes scale ≡ 1
        → written (produce_code (kinds_in c) p g scale a n) ≤ 64 * assertion_size (base_of c.program) a }
    ensures consume { (c : Context) (p : Place) (left : Maps) (g : Guard) (scale : t.BExpr) (a : e.Assertion) (n : ℕ)
        → IsFormed c.program → expr_nodes scale ≡ 1
        → written (consume_code (kinds_in c) p left g scale a n) ≤ 64 * assertion_size (base_of c.program) a }
    ensures forget { (layout : Layout) (m : Maps) (n : ℕ)
        → written (forget_code layout m n) ≡ 13 * (length layout.fields + length layout.keys) }
{}

/// The literals of the code of producing or consuming an assertion can be spelled where those of the assertion and the scale can,
/// and those of the code of forgetting always.
pub fn literals_of_code_fit()
    ensures produce { (k : Kinds) (p : Place) (g : Guard) (scale : t.BExpr) (a : e.Assertion) (n : ℕ) → AssertionLiteralsFit a
        → LiteralsFit scale → BlockLiteralsFit (produce_code k p g scale a n).stmts }
    ensures consume { (k : Kinds) (p : Place) (left : Maps) (g : Guard) (scale : t.BExpr) (a : e.Assertion) (n : ℕ)
        → AssertionLiteralsFit a → LiteralsFit scale → BlockLiteralsFit (consume_code k p left g scale a n).stmts }
    ensures forget { (layout : Layout) (m : Maps) (n : ℕ) → BlockLiteralsFit (forget_code layout m n).stmts }
{}

/// So the code of producing or consuming a well-typed assertion of a formed program can be spelled, behind the locals that its
/// place names and among its own, and so can that of forgetting.
pub fn code_can_be_printed()
    ensures produce { (c : Context) (p : Place) (g : Guard) (scale : t.BExpr) (a : e.Assertion) (ts : List BType)
        → IsFormed c.program → IsAssertion c a → HasPlaceTypes c p ts → HasGuardType g ts
        → types.HasType ts None scale base.Real → LiteralsFit scale
        → FitsPiece (length ts) (produce_code (kinds_in c) p g scale a (length ts)) }
    ensures consume { (c : Context) (p : Place) (left : Maps) (g : Guard) (scale : t.BExpr) (a : e.Assertion) (ts : List BType)
        → IsFormed c.program → IsAssertion c a → HasPlaceTypes c p ts → HasHeldTypes c.program.layout left ts
        → HasGuardType g ts → types.HasType ts None scale base.Real → LiteralsFit scale
        → FitsPiece (length ts) (consume_code (kinds_in c) p left g scale a (length ts)) }
    ensures forget { (p : Program) (m : Maps) (ts : List BType) → IsFormed p → HasStateTypes p.layout m ts
        → FitsPiece (length ts) (forget_code p.layout m (length ts)) }
{}
