//! Laws of contexts and of what loops assign, each as the contract of a function that does nothing.

ghost use Rattle.std.specs.Prelude.{ℕ, List, All};
ghost use Rattle.vb_value.specs.declared.values.Ty.{Ty};
ghost use Rattle.viper_core.specs.Expr as t;
ghost use Rattle.viper_core.specs.Part.{Allows, among};
ghost use Rattle.viper_core.specs.Scope.{Scope, loop_targets};
ghost use Rattle.viper_core.specs.Stmt.{Stmts, FoldStmt};
ghost use Rattle.viper_core.specs.Typing.{Site, Context, MethodContext, HasType, HaveTypes, IsAmount, IsAssertion, IsFold, IsVariable, AreStmts};

/// What is typed is typed with other variables too, where each visible variable is visible among them and has its type, and
/// where as much may be said.
pub fn the_types_of_visible_variables_suffice()
    ensures expr { (c : Context) (us : List Ty) (visible : List ℕ) (site : Site) (e : t.Expr) (u : Ty)
        → Allows c us visible site → HasType c e u → HasType (among c us visible site) e u }
    ensures arguments { (c : Context) (us : List Ty) (visible : List ℕ) (site : Site) (es : t.Exprs) (tys : List Ty)
        → Allows c us visible site → HaveTypes c es tys → HaveTypes (among c us visible site) es tys }
    ensures amount { (c : Context) (us : List Ty) (visible : List ℕ) (site : Site) (m : t.Amt)
        → Allows c us visible site → IsAmount c m → IsAmount (among c us visible site) m }
    ensures assertion { (c : Context) (us : List Ty) (visible : List ℕ) (site : Site) (a : t.Assertion)
        → Allows c us visible site → IsAssertion c a → IsAssertion (among c us visible site) a }
    ensures fold { (c : Context) (us : List Ty) (visible : List ℕ) (site : Site) (f : FoldStmt)
        → Allows c us visible site → IsFold c f → IsFold (among c us visible site) f }
{}

/// The targets of a loop are variables of its method.
pub fn loop_targets_are_variables()
    ensures { (m : MethodContext) (sc : Scope) (body : Stmts) → AreStmts m sc body → All (IsVariable m) (loop_targets sc body) }
{}
