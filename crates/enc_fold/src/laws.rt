//! Laws of the code, each as the contract of a function that does nothing.

ghost use Rattle.std.specs.Prelude.{⊤, ◌≡◌, ◌≤◌, ◌+◌, ◌*◌, max, ℕ, List, false, length, None};
ghost use Rattle.vb_base.specs.Limits.{max_term_depth};
ghost use Rattle.vb_value.specs.Bound.{Bound};
ghost use Rattle.viper_core.specs.Depth.{fold_depth, assertion_depth};
ghost use Rattle.viper_core.specs.Expr as e;
ghost use Rattle.viper_core.specs.Formed.{IsFormed};
ghost use Rattle.viper_core.specs.Stmt.{FoldStmt};
ghost use Rattle.viper_core.specs.Typing.{Context, IsAssertion, IsFold, allows_old, is_outside_predicates};
ghost use Rattle.viper_core.specs.Weight.{fold_weight};
ghost use Rattle.viper_state.specs.Fits.{FitsStore};
ghost use Rattle.viper_state.specs.Run.{Scene};
ghost use Rattle.viper_state.specs.State.{State};
ghost use Rattle.viper_meaning.specs.Contents.{fold_instance, unfold_instance};
ghost use Rattle.boogie_tree.specs.Literals.{BlockLiteralsFit};
ghost use Rattle.boogie_tree.specs.Nested.{expr_depth, stmts_depth};
ghost use Rattle.boogie_tree.specs.Program.{BType};
ghost use Rattle.boogie_meaning.specs.Run.{brun};
ghost use Rattle.enc_expr.specs.Place.{Place};
ghost use Rattle.enc_expr.specs.Fits.{FitsPiece};
ghost use Rattle.enc_expr.specs.Kinds.{Kinds, kinds_in};
ghost use Rattle.enc_expr.specs.Literals.{AssertionLiteralsFit};
ghost use Rattle.enc_expr.specs.Nodes.{written};
ghost use Rattle.enc_expr.specs.Plain.{content_expr};
ghost use Rattle.enc_expr.specs.Coupling.{Env, IsCoupled, IsOwn, IsReady};
ghost use Rattle.enc_expr.specs.Alike.{IsFilled};
ghost use Rattle.enc_expr.specs.Boundary.{AreAlike};
ghost use Rattle.enc_expr.specs.Typed.{HasPlaceTypes, IsTypedPiece};
ghost use Rattle.enc_assert.specs.Alongside.{AreAlongside};
ghost use Rattle.enc_fold.specs.Encoding.{fold_code, unfold_code};
ghost use Rattle.enc_fold.specs.Spelled.{FoldLiteralsFit};

/// From each environment in which a state is coupled, folding an instance and its code end alike, with a bound and without one. On
/// the moves of what the run records the code is done or fails where the run does, and is blocked or short of a choice where the
/// run is. And each run of the code on proper choices that is done or fails is backed by choices on which the run does the same,
/// and took the moves of what that one records. Where they are done, the state that is left is coupled, and nothing but the maps
/// of the present state, and new locals, was changed. Nothing is said of a run that leaves the bound.
pub fn folding_and_its_code_end_alike()
    ensures { (ts : List BType) (b : Bound) (c : Context) (p : Place) (s : State) (sc : Scene) (n : ℕ) (E : Env) (f : FoldStmt)
        (typed : IsFold c f) → IsFormed c.program → IsCoupled b c n p s sc E → IsOwn c p → FitsStore c.vars sc.store
        → IsReady ts None n (fold_code (kinds_in c) p f typed.body n).locals E
        → AreAlongside ⊤ b c.program.layout (IsFilled b c n (fold_code (kinds_in c) p f typed.body n).next p sc E)
        (fold_instance b c.program f s sc) (λ cs. brun ts b (fold_code (kinds_in c) p f typed.body n).stmts E cs) }
{}

/// The same of unfolding, which takes no choice of its own: what its body is produced from is recorded.
pub fn unfolding_and_its_code_end_alike()
    ensures { (ts : List BType) (b : Bound) (c : Context) (p : Place) (s : State) (sc : Scene) (n : ℕ) (E : Env) (f : FoldStmt)
        (typed : IsFold c f) → IsFormed c.program → IsCoupled b c n p s sc E → IsOwn c p
        → IsReady ts None n (unfold_code (kinds_in c) p f typed.body n).locals E
        → AreAlike b (IsFilled b c n (unfold_code (kinds_in c) p f typed.body n).next p sc E)
        (unfold_instance b c.program f s sc) (λ cs. brun ts b (unfold_code (kinds_in c) p f typed.body n).stmts E cs) }
{}

/// Behind locals of the types that its place names, the code of folding or unfolding is well-typed, with its own locals behind
/// those, whose maps have indices of key types.
pub fn code_is_well_typed()
    ensures fold { (c : Context) (p : Place) (f : FoldStmt) (ts : List BType) → IsFormed c.program → (typed : IsFold c f)
        → HasPlaceTypes c p ts → IsTypedPiece ts (fold_code (kinds_in c) p f typed.body (length ts)) }
    ensures unfold { (c : Context) (p : Place) (f : FoldStmt) (ts : List BType) → IsFormed c.program → (typed : IsFold c f)
        → HasPlaceTypes c p ts → IsTypedPiece ts (unfold_code (kinds_in c) p f typed.body (length ts)) }
{}

/// What an assertion of a predicate contains has at most four brackets open at once for three of its levels, and two thirds of one
/// more: two conversions on a path have a comparison and a choice between them. So does the code of folding or unfolding, for the
/// levels of its arguments and amount, or of a term of a program, since it has the body of the predicate in it.
pub fn code_is_shallow()
    ensures content { (c : Context) (p : Place) (a : e.Assertion) → allows_old c.site ≡ false
        → is_outside_predicates c.site ≡ false → IsAssertion c a
        → 3 * expr_depth (content_expr (kinds_in c) p a) ≤ 4 * assertion_depth a + 2 }
    ensures fold { (c : Context) (p : Place) (f : FoldStmt) (n : ℕ) → IsFormed c.program → (typed : IsFold c f)
        → 3 * stmts_depth (fold_code (kinds_in c) p f typed.body n).stmts ≤ 4 * max max_term_depth (fold_depth f) + 2 }
    ensures unfold { (c : Context) (p : Place) (f : FoldStmt) (n : ℕ) → IsFormed c.program → (typed : IsFold c f)
        → 3 * stmts_depth (unfold_code (kinds_in c) p f typed.body n).stmts ≤ 4 * max max_term_depth (fold_depth f) + 2 }
{}

/// The code of folding or unfolding is at most 72 times as large as what the statement weighs. Of the code each node counts and
/// each new local; the types of new locals are not counted.
pub fn code_is_linear()
    ensures fold { (c : Context) (p : Place) (f : FoldStmt) (n : ℕ) → IsFormed c.program → (typed : IsFold c f)
        → written (fold_code (kinds_in c) p f typed.body n) ≤ 72 * fold_weight c.program f }
    ensures unfold { (c : Context) (p : Place) (f : FoldStmt) (n : ℕ) → IsFormed c.program → (typed : IsFold c f)
        → written (unfold_code (kinds_in c) p f typed.body n) ≤ 72 * fold_weight c.program f }
{}

/// The literals of the code of folding or unfolding can be spelled where those of the statement and of the body can.
pub fn literals_of_code_fit()
    ensures fold { (k : Kinds) (p : Place) (f : FoldStmt) (body : e.Assertion) (n : ℕ) → FoldLiteralsFit f
        → AssertionLiteralsFit body → BlockLiteralsFit (fold_code k p f body n).stmts }
    ensures unfold { (k : Kinds) (p : Place) (f : FoldStmt) (body : e.Assertion) (n : ℕ) → FoldLiteralsFit f
        → AssertionLiteralsFit body → BlockLiteralsFit (unfold_code k p f body n).stmts }
{}

/// So the code of a well-typed `fold` or `unfold` of a formed program can be spelled, behind the locals that its place names and
/// among its own.
pub fn code_can_be_printed()
    ensures fold { (c : Context) (p : Place) (f : FoldStmt) (ts : List BType) → IsFormed c.program → (typed : IsFold c f)
        → HasPlaceTypes c p ts → FitsPiece (length ts) (fold_code (kinds_in c) p f typed.body (length ts)) }
    ensures unfold { (c : Context) (p : Place) (f : FoldStmt) (ts : List BType) → IsFormed c.program → (typed : IsFold c f)
        → HasPlaceTypes c p ts → FitsPiece (length ts) (unfold_code (kinds_in c) p f typed.body (length ts)) }
{}
