//! Laws of the code, each as the contract of a function that does nothing.

ghost use Rattle.std.specs.Prelude.{◌≡◌, ◌≤◌, ◌+◌, ◌*◌, ℕ, false, List, length, None, Some, slice_get};
ghost use Rattle.vb_value.specs.Bound.{Bound};
ghost use Rattle.vb_value.specs.Content.{Content};
ghost use Rattle.vb_value.specs.Fraction.{Fraction};
ghost use Rattle.vb_value.specs.declared.values.Ty.{Ty};
ghost use Rattle.viper_core.specs.Depth.{depth, assertion_depth};
ghost use Rattle.viper_core.specs.Expr as e;
ghost use Rattle.viper_core.specs.Formed.{IsFormed};
ghost use Rattle.viper_core.specs.Program.{Program};
ghost use Rattle.viper_core.specs.declared.programs.Unit.{Unit};
ghost use Rattle.viper_core.specs.Size.{size, assertion_size};
ghost use Rattle.viper_core.specs.Typing as typing;
ghost use Rattle.viper_core.specs.Typing.{Context, IsAssertion, allows_old, is_outside_predicates};
ghost use Rattle.viper_core.specs.Weight.{base_of};
ghost use Rattle.viper_state.specs.State.{State};
ghost use Rattle.viper_state.specs.Run.{Opening, Scene};
ghost use Rattle.viper_state.specs.Fits.{FitsStore, FitsOpening};
ghost use Rattle.viper_meaning.specs.Contents.{content_in};
ghost use Rattle.viper_meaning.specs.Kept.{IsAny, Keeps};
ghost use Rattle.viper_meaning.specs.Value.{value, opened};
ghost use Rattle.boogie_tree.specs.Expr as t;
ghost use Rattle.boogie_tree.specs.Literals.{LiteralsFit, BlockLiteralsFit};
ghost use Rattle.boogie_tree.specs.Nested.{expr_depth};
ghost use Rattle.boogie_tree.specs.Program.{BType};
ghost use Rattle.boogie_tree.specs.Values.{plain_type, IsEnvironment};
ghost use Rattle.boogie_tree.specs.declared.exprs.BBase.TheVariants as base;
ghost use Rattle.boogie_meaning.specs.Run.{brun};
ghost use Rattle.boogie_meaning.specs.Types as types;
ghost use Rattle.enc_expr.specs.Place.{Place};
ghost use Rattle.enc_expr.specs.Kinds.{Kinds, kinds_in};
ghost use Rattle.enc_expr.specs.Code.{Guard};
ghost use Rattle.enc_expr.specs.Encoding.{code, body_code};
ghost use Rattle.enc_expr.specs.Front.{types_of, front_types, front_values, HasFront};
ghost use Rattle.enc_expr.specs.Fits.{FitsPiece, FitsCode};
ghost use Rattle.enc_expr.specs.Literals.{ViperLiteralsFit, AssertionLiteralsFit};
ghost use Rattle.enc_expr.specs.Nodes.{expr_nodes, written};
ghost use Rattle.enc_expr.specs.Coupling.{Env, IsCoupled, IsOwn, IsReady};
ghost use Rattle.enc_expr.specs.Alike.{IsValued, IsScale, IsSource, IsFilled};
ghost use Rattle.enc_expr.specs.Boundary.{AreAlike};
ghost use Rattle.enc_expr.specs.Plain.{plain, content_expr};
ghost use Rattle.enc_expr.specs.Shallow.{IsShallow, IsShallowExpression};
ghost use Rattle.enc_expr.specs.Typed.{HasPlaceTypes, HasGuardType, IsTypedPiece, IsTypedExpression};
ghost use Rattle.enc_expr.specs.Worth.{IsPlain, IsContent};

/// From each environment in which a state is coupled, the code of a well-typed expression ends as the expression does there, with
/// a bound and without one. On the moves of the events of the expression the code is done or fails where the expression has a
/// value or fails, and is blocked or short of a choice where the expression is blocked. And each run of the code that is done
/// or fails, whatever it chooses, has such an end of the expression, and took its moves. Where it is done, the operand has the
/// value, and nothing but new locals was changed. With the bound the expression may leave it: then the choices begin with its moves,
/// and nothing is said of the end of the code.
pub fn an_expression_and_its_code_end_alike()
    ensures { (ts : List BType) (b : Bound) (c : Context) (p : Place) (g : Guard) (s : State) (sc : Scene) (n : ℕ) (E : Env)
        (a : e.Expr) (u : Ty) → IsFormed c.program → IsCoupled b c n p s sc E → typing.HasType c a u
        → IsReady ts g n (code (kinds_in c) p g a n).locals E
        → AreAlike b (IsValued b n (code (kinds_in c) p g a n).next (code (kinds_in c) p g a n).value u E) (value b a s sc)
        (λ cs. brun ts b (code (kinds_in c) p g a n).stmts E cs) }
{}

/// The same of the code that produces the body of a predicate from a content, with its amounts times a scale. Where it is done,
/// the state that the body leaves is coupled, and nothing but the maps of the present state, and new locals, was changed.
pub fn a_body_and_its_code_end_alike()
    ensures { (ts : List BType) (b : Bound) (c : Context) (p : Place) (g : Guard) (s : State) (sc : Scene) (n : ℕ) (E : Env)
        (scale : t.BExpr) (k : Fraction) (a : e.Assertion) (d : Content) (from : ℕ) → IsFormed c.program
        → IsCoupled b c n p s sc E → IsAssertion c a → is_outside_predicates c.site ≡ false → IsOwn c p
        → FitsStore c.vars sc.store → IsSource b n E from d → IsScale b n E scale k
        → IsReady ts g n (body_code (kinds_in c) p g scale a from n).locals E
        → AreAlike b (IsFilled b c n (body_code (kinds_in c) p g scale a from n).next p sc E) (opened b a d s sc k)
        (λ cs. brun ts b (body_code (kinds_in c) p g scale a from n).stmts E cs) }
{}

/// Where an expression of the body of a predicate has a value in a state that is coupled, the expression without checks has it
/// too; and what an assertion there contains is the value of its content, where it is small enough for the bound.
pub fn what_is_not_checked_has_the_value()
    ensures expression { (b : Bound) (c : Context) (p : Place) (s : State) (sc : Scene) (n : ℕ) (E : Env) (a : e.Expr) (u : Ty)
        → IsFormed c.program → IsCoupled b c n p s sc E → allows_old c.site ≡ false → is_outside_predicates c.site ≡ false
        → typing.HasType c a u → Keeps IsAny (IsPlain b u (plain (kinds_in c) p a) E) (value b a s sc) }
    ensures content { (b : Bound) (c : Context) (p : Place) (s : State) (sc : Scene) (n : ℕ) (E : Env) (a : e.Assertion)
        → IsFormed c.program → IsCoupled b c n p s sc E → allows_old c.site ≡ false → is_outside_predicates c.site ≡ false
        → IsAssertion c a → Keeps IsAny (IsContent b E (content_expr (kinds_in c) p a)) (content_in b a s sc) }
{}

/// Behind locals of the types that its place names, the code of a well-typed expression or body is well-typed, with its own
/// locals behind those, whose maps have indices of key types. The operand of an expression has the expression's type.
pub fn code_is_well_typed()
    ensures expression { (c : Context) (p : Place) (g : Guard) (a : e.Expr) (u : Ty) (ts : List BType) → IsFormed c.program
        → typing.HasType c a u → HasPlaceTypes c p ts → HasGuardType g ts
        → IsTypedExpression ts u (code (kinds_in c) p g a (length ts)) }
    ensures body { (c : Context) (p : Place) (g : Guard) (scale : t.BExpr) (a : e.Assertion) (from : ℕ) (ts : List BType)
        → IsFormed c.program → IsAssertion c a → HasPlaceTypes c p ts → HasGuardType g ts
        → types.HasType ts None scale base.Real → slice_get ts from ≡ Some (plain_type base.Snap)
        → IsTypedPiece ts (body_code (kinds_in c) p g scale a from (length ts)) }
{}

/// The value of a well-typed expression of a formed program has no more brackets open at once than the expression has levels. The
/// statements of its code, and of that of a body, have at most one more than the expression or body has levels, or than a term of a
/// program may have, since an `unfolding` opens a body.
pub fn code_is_shallow()
    ensures expression { (c : Context) (p : Place) (g : Guard) (a : e.Expr) (u : Ty) (n : ℕ) → IsFormed c.program
        → typing.HasType c a u → IsShallowExpression (depth a) u (code (kinds_in c) p g a n) }
    ensures body { (c : Context) (p : Place) (g : Guard) (scale : t.BExpr) (a : e.Assertion) (from n : ℕ) → IsFormed c.program
        → IsAssertion c a → expr_depth scale ≡ 0
        → IsShallow (assertion_depth a) (body_code (kinds_in c) p g scale a from n) }
{}

/// The code of an expression or body of a formed program is at most 64 times as large as the expression or body. Of the code
/// each node counts and each new local, of an expression each node; and an `unfolding` counts the body that it opens, and each
/// field and each predicate of the program. The types of new locals are not counted.
pub fn code_is_linear()
    ensures expression { (c : Context) (p : Place) (g : Guard) (a : e.Expr) (n : ℕ) → IsFormed c.program
        → written (code (kinds_in c) p g a n) + expr_nodes (code (kinds_in c) p g a n).value.expr ≤ 64 * size (base_of c.program) a }
    ensures body { (c : Context) (p : Place) (g : Guard) (scale : t.BExpr) (a : e.Assertion) (from n : ℕ) → IsFormed c.program
        → expr_nodes scale ≡ 1
        → written (body_code (kinds_in c) p g scale a from n) ≤ 64 * assertion_size (base_of c.program) a }
{}

/// The literals of the code of an expression or body can be spelled where those of the expression or body can.
pub fn literals_of_code_fit()
    ensures expression { (k : Kinds) (p : Place) (g : Guard) (a : e.Expr) (n : ℕ) → ViperLiteralsFit a
        → BlockLiteralsFit (code k p g a n).stmts × LiteralsFit (code k p g a n).value.expr }
    ensures body { (k : Kinds) (p : Place) (g : Guard) (scale : t.BExpr) (a : e.Assertion) (from n : ℕ) → AssertionLiteralsFit a
        → LiteralsFit scale → BlockLiteralsFit (body_code k p g scale a from n).stmts }
{}

/// The literals of a typed expression or assertion of a formed program can be spelled.
pub fn literals_of_programs_fit()
    ensures expression { (c : Context) (a : e.Expr) (u : Ty) → IsFormed c.program → typing.HasType c a u → ViperLiteralsFit a }
    ensures assertion { (c : Context) (a : e.Assertion) → IsFormed c.program → IsAssertion c a → AssertionLiteralsFit a }
{}

/// The code of a typed expression or body of a formed program can be spelled, behind the locals that its place names and
/// among its own.
pub fn code_can_be_printed()
    ensures expression { (c : Context) (p : Place) (g : Guard) (a : e.Expr) (u : Ty) (ts : List BType) → IsFormed c.program
        → typing.HasType c a u → HasPlaceTypes c p ts → HasGuardType g ts
        → FitsCode (length ts) (code (kinds_in c) p g a (length ts)) }
    ensures body { (c : Context) (p : Place) (g : Guard) (scale : t.BExpr) (a : e.Assertion) (from : ℕ) (ts : List BType)
        → IsFormed c.program → IsAssertion c a → HasPlaceTypes c p ts → HasGuardType g ts
        → types.HasType ts None scale base.Real → LiteralsFit scale → slice_get ts from ≡ Some (plain_type base.Snap)
        → FitsPiece (length ts) (body_code (kinds_in c) p g scale a from (length ts)) }
{}

/// The locals that hold the opening of a unit of a formed program have names, no two of which are the same, and as many types.
/// Each name has a `$`, so that it is no word of Viper or Boogie. The values of an opening that fits the unit have these types.
pub fn names_of_openings_differ()
    ensures names { (p : Program) (u : Unit) → IsFormed p → HasFront p u }
    ensures values { (p : Program) (u : Unit) (x : Opening) → FitsOpening p.layout (types_of p u) x
        → IsEnvironment (front_types p u) (front_values x) }
{}
