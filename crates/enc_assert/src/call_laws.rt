//! Laws of what the calls for assertions write, which read the types of variables, fields and predicates off the locals.

ghost use Rattle.std.specs.Prelude.{⊤, ◌≡◌, ◌≤◌, ◌+◌, ◌*◌, ℕ, List, length, max, None};
ghost use Rattle.vb_value.specs.Bound.{Bound};
ghost use Rattle.vb_value.specs.Fraction.{Fraction};
ghost use Rattle.viper_core.specs.Depth.{assertion_depth};
ghost use Rattle.viper_core.specs.Expr as e;
ghost use Rattle.viper_core.specs.Formed.{IsFormed};
ghost use Rattle.viper_core.specs.Size.{assertion_size};
ghost use Rattle.viper_core.specs.Typing.{Context, IsAssertion};
ghost use Rattle.viper_core.specs.Weight.{base_of};
ghost use Rattle.viper_state.specs.State.{State};
ghost use Rattle.viper_state.specs.Run.{Scene};
ghost use Rattle.viper_state.specs.Fits.{FitsStore};
ghost use Rattle.viper_meaning.specs.Assertions.{produce, consume};
ghost use Rattle.viper_meaning.specs.Forgotten.{forget};
ghost use Rattle.boogie_tree.specs.Expr as t;
ghost use Rattle.boogie_tree.specs.Literals.{LiteralsFit};
ghost use Rattle.boogie_tree.specs.Nested.{expr_depth, stmts_depth};
ghost use Rattle.boogie_tree.specs.Program.{BType};
ghost use Rattle.boogie_tree.specs.declared.exprs.BBase.TheVariants as base;
ghost use Rattle.boogie_meaning.specs.Run.{brun};
ghost use Rattle.boogie_meaning.specs.Types as types;
ghost use Rattle.enc_expr.specs.Code.{Guard};
ghost use Rattle.enc_expr.specs.Coupling.{Env, HasMaps, IsSound, IsCoupled, AreLocals, IsReady};
ghost use Rattle.enc_expr.specs.Fits.{FitsPiece};
ghost use Rattle.enc_expr.specs.Kinds.{kinds_in};
ghost use Rattle.enc_expr.specs.Nodes.{expr_nodes, written};
ghost use Rattle.enc_expr.specs.Place.{Maps, Place};
ghost use Rattle.enc_expr.specs.ReadOff.{kinds_at, HasNumbers};
ghost use Rattle.enc_expr.specs.Shallow.{IsShallow};
ghost use Rattle.enc_expr.specs.Typed.{HasPlaceTypes, IsTypedPiece};
ghost use Rattle.enc_assert.specs.Alongside.{AreAlongside};
ghost use Rattle.enc_assert.specs.Calls.{produce_call, consume_call, forget_call, IsScaling};
ghost use Rattle.enc_assert.specs.Encoding.{produce_code, consume_code, forget_code};
ghost use Rattle.enc_assert.specs.Held.{
  HasPlaces,
  IsGrowing,
  IsShrinking,
  IsForgetting,
  IsProduced,
  IsConsumed,
  IsForgotten,
};
ghost use Rattle.enc_assert.specs.Typed.{HasHeldTypes};

/// Where the locals of a place have the types that a program gives them, what is written for a well-typed assertion, and to forget,
/// with the types that the locals tell is what is written with those of the program.
pub fn types_are_read_off_the_locals()
    ensures produce { (c : Context) (p : Place) (g : Guard) (scale : t.BExpr) (a : e.Assertion) (ts : List BType) → IsFormed c.program
        → IsAssertion c a → HasPlaceTypes c p ts → HasNumbers c p
        → produce_code (kinds_at p ts) p g scale a ≡ produce_code (kinds_in c) p g scale a }
    ensures consume { (c : Context) (p : Place) (left : Maps) (g : Guard) (scale : t.BExpr) (a : e.Assertion) (ts : List BType)
        → IsFormed c.program → IsAssertion c a → HasPlaceTypes c p ts → HasNumbers c p
        → consume_code (kinds_at p ts) p left g scale a ≡ consume_code (kinds_in c) p left g scale a }
    ensures forget { (c : Context) (p : Place) (ts : List BType) → HasPlaceTypes c p ts → HasNumbers c p
        → forget_call ts p ≡ forget_code c.program.layout p.now }
{}

/// So what a call writes goes alongside producing, consuming and forgetting, as the code by the program's types does. The scale may
/// be any expression that has a positive value; it is read once, before anything else.
pub fn calls_end_alike()
    ensures produce { (ts us : List BType) (b : Bound) (c : Context) (p : Place) (s : State) (sc : Scene) (E : Env) (scale : t.BExpr)
        (k : Fraction) (a : e.Assertion) → IsFormed c.program → IsCoupled b c (length us) p s sc E → IsAssertion c a → IsGrowing c p
        → FitsStore c.vars sc.store → IsScaling b (length us) E scale k → HasPlaceTypes c p us → HasNumbers c p
        → IsReady ts None (length us) (produce_call us p scale a (length us)).locals E
        → AreAlongside ⊤ b c.program.layout (IsProduced b c (length us) (produce_call us p scale a (length us)).next p sc E)
        (produce b a sc k s) (λ cs. brun ts b (produce_call us p scale a (length us)).stmts E cs) }
    ensures consume { (ts us : List BType) (b : Bound) (c : Context) (p : Place) (left : Maps) (s u : State) (sc : Scene) (E : Env)
        (scale : t.BExpr) (k : Fraction) (a : e.Assertion) → IsFormed c.program → IsCoupled b c (length us) p s sc E
        → HasMaps c.program.layout (length us) left u E → IsSound b c.program.layout u → IsAssertion c a → IsShrinking c p left
        → FitsStore c.vars sc.store → IsScaling b (length us) E scale k → HasPlaceTypes c p us → HasNumbers c p
        → IsReady ts None (length us) (consume_call us p left scale a (length us)).locals E
        → AreAlongside ⊤ b c.program.layout (IsConsumed b c (length us) (consume_call us p left scale a (length us)).next left E)
        (consume b a s sc k u) (λ cs. brun ts b (consume_call us p left scale a (length us)).stmts E cs) }
    ensures forget { (ts us : List BType) (b : Bound) (c : Context) (p : Place) (s : State) (sc : Scene) (E : Env)
        → IsCoupled b c (length us) p s sc E → IsForgetting c p → HasPlaceTypes c p us → HasNumbers c p → length E ≡ length ts
        → AreLocals ts (length us) (forget_call us p (length us)).locals
        → AreAlongside (HasPlaces c.program.layout) b c.program.layout
        (IsForgotten b c (length us) (forget_call us p (length us)).next p sc E) (forget c.program.layout s)
        (λ cs. brun ts b (forget_call us p (length us)).stmts E cs) }
{}

/// What a call writes is well-typed behind the locals so far, where those that the place names have the types that the program gives
/// them, and those that permission is taken from have. The scale is a real.
pub fn calls_are_well_typed()
    ensures produce { (c : Context) (p : Place) (scale : t.BExpr) (a : e.Assertion) (ts : List BType) → IsFormed c.program
        → IsAssertion c a → HasPlaceTypes c p ts → HasNumbers c p → types.HasType ts None scale base.Real
        → IsTypedPiece ts (produce_call ts p scale a (length ts)) }
    ensures consume { (c : Context) (p : Place) (left : Maps) (scale : t.BExpr) (a : e.Assertion) (ts : List BType) → IsFormed c.program
        → IsAssertion c a → HasPlaceTypes c p ts → HasNumbers c p → HasHeldTypes c.program.layout left ts
        → types.HasType ts None scale base.Real → IsTypedPiece ts (consume_call ts p left scale a (length ts)) }
    ensures forget { (c : Context) (p : Place) (ts : List BType) → IsFormed c.program → HasPlaceTypes c p ts → HasNumbers c p
        → IsTypedPiece ts (forget_call ts p (length ts)) }
{}

/// So what a call writes can be spelled, behind the locals so far and among its own, where the literals of the scale can.
pub fn calls_can_be_printed()
    ensures produce { (c : Context) (p : Place) (scale : t.BExpr) (a : e.Assertion) (ts : List BType) → IsFormed c.program
        → IsAssertion c a → HasPlaceTypes c p ts → HasNumbers c p → types.HasType ts None scale base.Real → LiteralsFit scale
        → FitsPiece (length ts) (produce_call ts p scale a (length ts)) }
    ensures consume { (c : Context) (p : Place) (left : Maps) (scale : t.BExpr) (a : e.Assertion) (ts : List BType) → IsFormed c.program
        → IsAssertion c a → HasPlaceTypes c p ts → HasNumbers c p → HasHeldTypes c.program.layout left ts
        → types.HasType ts None scale base.Real → LiteralsFit scale
        → FitsPiece (length ts) (consume_call ts p left scale a (length ts)) }
    ensures forget { (c : Context) (p : Place) (ts : List BType) → IsFormed c.program → HasPlaceTypes c p ts → HasNumbers c p
        → FitsPiece (length ts) (forget_call ts p (length ts)) }
{}

/// The text of what a call writes has at most 1,025 brackets open at once, or one more than the assertion has levels, or the scale
/// brackets, where that is more than 1,024. What is written to forget keeps within 4.
pub fn calls_are_shallow()
    ensures produce { (c : Context) (p : Place) (scale : t.BExpr) (a : e.Assertion) (ts : List BType) (n : ℕ) → IsFormed c.program
        → IsAssertion c a → HasPlaceTypes c p ts → HasNumbers c p
        → IsShallow (max (assertion_depth a) (expr_depth scale)) (produce_call ts p scale a n) }
    ensures consume { (c : Context) (p : Place) (left : Maps) (scale : t.BExpr) (a : e.Assertion) (ts : List BType) (n : ℕ)
        → IsFormed c.program → IsAssertion c a → HasPlaceTypes c p ts → HasNumbers c p
        → IsShallow (max (assertion_depth a) (expr_depth scale)) (consume_call ts p left scale a n) }
    ensures forget { (p : Place) (ts : List BType) (n : ℕ) → stmts_depth (forget_call ts p n).stmts ≤ 4 }
{}

/// What a call writes is at most 64 times as large as the assertion, and as large as the scale and 4 more. What is written to forget
/// counts 13 for each field and each predicate.
pub fn calls_are_linear()
    ensures produce { (c : Context) (p : Place) (scale : t.BExpr) (a : e.Assertion) (ts : List BType) (n : ℕ) → IsFormed c.program
        → IsAssertion c a → HasPlaceTypes c p ts → HasNumbers c p
        → written (produce_call ts p scale a n) ≤ 64 * assertion_size (base_of c.program) a + expr_nodes scale + 4 }
    ensures consume { (c : Context) (p : Place) (left : Maps) (scale : t.BExpr) (a : e.Assertion) (ts : List BType) (n : ℕ)
        → IsFormed c.program → IsAssertion c a → HasPlaceTypes c p ts → HasNumbers c p
        → written (consume_call ts p left scale a n) ≤ 64 * assertion_size (base_of c.program) a + expr_nodes scale + 4 }
    ensures forget { (c : Context) (p : Place) (ts : List BType) (n : ℕ) → HasPlaceTypes c p ts → HasNumbers c p
        → written (forget_call ts p n) ≡ 13 * (length c.program.layout.fields + length c.program.layout.keys) }
{}
