//! Laws of the definitions, each as the contract of a function that does nothing.

ghost use Rattle.std.specs.Prelude.{◌≡◌, ◌≤◌, ◌<◌, ◌+◌, ◌⊎◌, ℕ, List, ◌∷◌, None, Some, All, Contains, IsTrue, slice_get};
ghost use Rattle.vb_base.specs.Limits.{max_weight, too_heavy};
ghost use Rattle.vb_base.specs.declared.places.Pos.{Pos};
ghost use Rattle.vb_value.specs.Bound.{Bound};
ghost use Rattle.vb_value.specs.declared.values.Ty.{Ty};
ghost use Rattle.vb_value.specs.declared.values.Ty.TheVariants as ty;
ghost use Rattle.viper_core.specs.declared.exprs.Op.{Op};
ghost use Rattle.viper_core.specs.declared.programs.Unit.TheVariants as unit;
ghost use Rattle.viper_core.specs.Expr as t;
ghost use Rattle.viper_core.specs.Formed.{IsTypedProgram, IsFormed, HasBodyAt, predicate_context, precondition_context, postcondition_context, method_frame, method_scope};
ghost use Rattle.viper_core.specs.Literals.{IsProperExpr, IsProperAssertion, IsWithinExpr, IsWithinAssertion};
ghost use Rattle.viper_core.specs.Part.{IsContext, IsPartExpr, ArePartExprs, IsPartAmount, IsPartAssertion, IsPartStmt, ArePartStmts, OpensParts, FoldParts, IsWider, widened, SeesBelow, cut};
ghost use Rattle.viper_core.specs.Plain.{AssertionOpensNothing, AssertionHasNoOld};
ghost use Rattle.viper_core.specs.Program as p;
ghost use Rattle.viper_core.specs.Scope.{Scope, after_block, scope_after, some_assigns, stmts_scope, refs_in, loop_targets};
ghost use Rattle.viper_core.specs.Stmt as s;
ghost use Rattle.viper_core.specs.Typing.{Site, Context, MethodContext, inside, value_type, HasType, HaveTypes, Opens, IsAmount, IsAssertion, IsTarget, Receive, AreFields, params_of, returns_of, AreStmts};
ghost use Rattle.viper_core.specs.Weight.{weight, told_weight, predicate_weight, method_weight};
ghost use Rattle.viper_core.specs.Written.{HasNoWildcard};

/// An expression has at most one type.
pub fn an_expression_has_one_type()
    ensures { (c : Context) (e : t.Expr) (u : Ty) (v : Ty) → HasType c e u → HasType c e v → u ≡ v }
{}

/// A weight is told as it is up to the limit, and as `TOO_HEAVY` where it is more.
pub fn a_told_weight_tells()
    ensures light { (q : p.Program) → weight q ≤ max_weight → told_weight q ≡ weight q }
    ensures heavy { (q : p.Program) → max_weight < weight q → told_weight q ≡ too_heavy }
{}

/// A predicate or a method weighs no more than its program.
pub fn a_part_weighs_no_more()
    ensures predicate { (q : p.Program) (k : ℕ) (d : p.Predicate) → slice_get q.predicates k ≡ Some d
        → predicate_weight q d ≤ weight q }
    ensures method { (q : p.Program) (k : ℕ) (m : p.Method) → slice_get q.methods k ≡ Some m
        → method_weight q m ≤ weight q }
{}

/// Variables are numbered upward, and what statements assign was visible before them or is declared by them.
pub fn assigned_variables_are_visible_or_new()
    ensures upward { (sc : Scope) (ss : s.Stmts) → sc.fresh ≤ (stmts_scope sc ss).fresh }
    ensures assigned { (m : MethodContext) (sc : Scope) (ss : s.Stmts) (x : ℕ) → AreStmts m sc ss → IsTrue (some_assigns x ss)
        → Contains sc.visible x ⊎ (sc.fresh ≤ x) }
{}

/// What is typed is typed wherever at least as many variables are visible and as much may be said, and what is visible
/// stays so to the end of its block.
pub fn more_may_be_visible()
    ensures later { (sc : Scope) (ss : s.Stmts) (x : ℕ) → Contains sc.visible x → Contains (stmts_scope sc ss).visible x }
    ensures expr { (c : Context) (e : t.Expr) (u : Ty) (visible : List ℕ) (site : Site) → IsWider c visible site
        → HasType c e u → HasType (widened c visible site) e u }
    ensures assertion { (c : Context) (a : t.Assertion) (visible : List ℕ) (site : Site) → IsWider c visible site
        → IsAssertion c a → IsAssertion (widened c visible site) a }
{}

/// The unit of a number is a method or a predicate with a body.
pub fn a_unit_is_declared()
    ensures method { (q : p.Program) (i : ℕ) (k : ℕ) → IsTypedProgram q → slice_get q.units i ≡ Some (unit.Method k)
        → (m : p.Method) × (slice_get q.methods k ≡ Some m) }
    ensures predicate { (q : p.Program) (i : ℕ) (k : ℕ) → IsTypedProgram q
        → slice_get q.units i ≡ Some (unit.Predicate k) → HasBodyAt q.predicates k }
{}

/// The bodies of predicates have no `unfolding`, no `old` and no `wildcard`, and preconditions have no `old`.
pub fn bodies_are_plain()
    ensures opens_nothing { (q : p.Program) (d : p.Predicate) (a : t.Assertion) → IsAssertion (predicate_context q d) a
        → AssertionOpensNothing a }
    ensures has_no_old { (q : p.Program) (d : p.Predicate) (a : t.Assertion) → IsAssertion (predicate_context q d) a
        → AssertionHasNoOld a }
    ensures has_no_wildcard { (q : p.Program) (d : p.Predicate) (a : t.Assertion) → IsAssertion (predicate_context q d) a
        → HasNoWildcard a }
    ensures precondition { (q : p.Program) (m : p.Method) (a : t.Assertion) → IsTypedProgram q
        → IsAssertion (precondition_context q m) a → AssertionHasNoOld a }
{}

/// Literals of a typed program are within the bound, and its literal permissions in lowest terms.
pub fn a_typed_literal_is_proper()
    ensures expr { (b : Bound) (c : Context) (e : t.Expr) (u : Ty) → IsTypedProgram c.program → HasType c e u
        → IsProperExpr b e }
    ensures assertion { (b : Bound) (c : Context) (a : t.Assertion) → IsTypedProgram c.program → IsAssertion c a
        → IsProperAssertion b a }
    ensures expr_within { (c : Context) (e : t.Expr) (u : Ty) → IsTypedProgram c.program → HasType c e u
        → IsWithinExpr e }
    ensures assertion_within { (c : Context) (a : t.Assertion) → IsTypedProgram c.program → IsAssertion c a
        → IsWithinAssertion a }
{}

/// The body of a predicate, the clauses of a method and the statements of its body are parts of their program. A body
/// sees the parameters of its predicate alone; that much is so of each typed program, whatever it weighs.
pub fn a_program_has_parts()
    ensures typed_body { (q : p.Program) (k : ℕ) (d : p.Predicate) (a : t.Assertion) → IsTypedProgram q
        → slice_get q.predicates k ≡ Some d → d.body ≡ Some a → IsAssertion (predicate_context q d) a }
    ensures body { (q : p.Program) (k : ℕ) (d : p.Predicate) (a : t.Assertion) → IsFormed q
        → slice_get q.predicates k ≡ Some d → d.body ≡ Some a → IsPartAssertion (predicate_context q d) a }
    ensures preconditions { (q : p.Program) (k : ℕ) (m : p.Method) → IsFormed q → slice_get q.methods k ≡ Some m
        → All (IsPartAssertion (precondition_context q m)) m.preconditions }
    ensures postconditions { (q : p.Program) (k : ℕ) (m : p.Method) → IsFormed q → slice_get q.methods k ≡ Some m
        → All (IsPartAssertion (postcondition_context q m)) m.postconditions }
    ensures stmts { (q : p.Program) (k : ℕ) (m : p.Method) (b : p.Body) → IsFormed q → slice_get q.methods k ≡ Some m
        → m.body ≡ Some b → ArePartStmts (method_frame q m) (method_scope m) b.stmts }
{}

/// What is typed where only the first variables are visible is typed among these alone. So a clause of a method is a part
/// in the variables that a call gives it: the parameters before the call, and the returns too after it.
pub fn the_first_variables_suffice()
    ensures context { (c : Context) (n : ℕ) → SeesBelow c n → IsContext c → IsContext (cut c n) }
    ensures expr { (c : Context) (n : ℕ) (e : t.Expr) (u : Ty) → SeesBelow c n → HasType c e u → HasType (cut c n) e u }
    ensures arguments { (c : Context) (n : ℕ) (es : t.Exprs) (us : List Ty) → SeesBelow c n → HaveTypes c es us
        → HaveTypes (cut c n) es us }
    ensures opened { (c : Context) (n : ℕ) (o : t.Opened) (u : Ty) → SeesBelow c n → Opens c o u → Opens (cut c n) o u }
    ensures amount { (c : Context) (n : ℕ) (m : t.Amt) → SeesBelow c n → IsAmount c m → IsAmount (cut c n) m }
    ensures assertion { (c : Context) (n : ℕ) (a : t.Assertion) → SeesBelow c n → IsAssertion c a
        → IsAssertion (cut c n) a }
    ensures preconditions { (q : p.Program) (k : ℕ) (m : p.Method) → IsFormed q → slice_get q.methods k ≡ Some m
        → All (IsPartAssertion (cut (precondition_context q m) m.params)) m.preconditions }
    ensures postconditions { (q : p.Program) (k : ℕ) (m : p.Method) → IsFormed q → slice_get q.methods k ≡ Some m
        → All (IsPartAssertion (cut (postcondition_context q m) (m.params + m.returns))) m.postconditions }
{}

/// What a part opens is the body of its predicate, and a part of the program too.
pub fn an_opened_body_is_a_part()
    ensures unfolding { (c : Context) (k : ℕ) (es : t.Exprs) (m : t.Expr) (a : t.Assertion) (e : t.Expr) (at : Pos)
        (u : Ty) → IsPartExpr c (t.Unfolding (t.opened k es m a e at)) u → OpensParts c k es m a e u }
    ensures fold { (m : MethodContext) (sc : Scope) (f : s.FoldStmt) → IsPartStmt m sc (s.Fold f) → FoldParts (inside m sc) f }
    ensures unfold { (m : MethodContext) (sc : Scope) (f : s.FoldStmt) → IsPartStmt m sc (s.Unfold f)
        → FoldParts (inside m sc) f }
{}

/// The statements in a part are parts, each in the scope in which it begins, and so is what a statement says. Its targets
/// are variables of the method, of the types of their values. `an_opened_body_is_a_part` speaks of `fold` and `unfold`.
pub fn statements_have_parts()
    ensures first { (m : MethodContext) (sc : Scope) (a : s.Stmt) (rest : s.Stmts) → ArePartStmts m sc (s.next a rest)
        → IsPartStmt m sc a }
    ensures rest { (m : MethodContext) (sc : Scope) (a : s.Stmt) (rest : s.Stmts) → ArePartStmts m sc (s.next a rest)
        → ArePartStmts m (scope_after sc a) rest }
    ensures branches { (m : MethodContext) (sc : Scope) (at : Pos) (e : t.Expr) (a : s.Stmts) (b : s.Stmts)
        → IsPartStmt m sc (s.If at e a b) → IsPartExpr (inside m sc) e ty.Bool × ArePartStmts m sc a
        × ArePartStmts m (after_block sc (stmts_scope sc a)) b }
    ensures turns { (m : MethodContext) (sc : Scope) (at : Pos) (e : t.Expr) (is : List t.Assertion) (body : s.Stmts)
        (turn : Pos) (targets : List ℕ) → IsPartStmt m sc (s.While (s.loop at e is body turn targets))
        → IsPartExpr (inside m sc) e ty.Bool × All (IsPartAssertion (inside m sc)) is × ArePartStmts m sc body
        × (targets ≡ loop_targets sc body) }
    ensures declared { (m : MethodContext) (sc : Scope) (at : Pos) (x : ℕ) → IsPartStmt m sc (s.Var at x None)
        → (u : Ty) × (x ≡ sc.fresh) × (slice_get m.vars x ≡ Some u) }
    ensures initial { (m : MethodContext) (sc : Scope) (at : Pos) (x : ℕ) (e : t.Expr) → IsPartStmt m sc (s.Var at x (Some e))
        → (u : Ty) × (x ≡ sc.fresh) × (slice_get m.vars x ≡ Some u) × IsPartExpr (inside m sc) e u }
    ensures assigned { (m : MethodContext) (sc : Scope) (at : Pos) (x : ℕ) (e : t.Expr) → IsPartStmt m sc (s.Assign at x e)
        → (u : Ty) × IsTarget m sc x u × IsPartExpr (inside m sc) e u }
    ensures written { (m : MethodContext) (sc : Scope) (at : Pos) (e : t.Expr) (f : ℕ) (place : Pos) (d : t.Expr)
        → IsPartStmt m sc (s.Write at e f place d)
        → (u : Ty) × (slice_get m.program.layout.fields f ≡ Some u) × IsPartExpr (inside m sc) e ty.Ref
        × IsPartExpr (inside m sc) d u }
    ensures created { (m : MethodContext) (sc : Scope) (at : Pos) (x : ℕ) (fields : List ℕ) (refs : List ℕ)
        → IsPartStmt m sc (s.New at x fields refs)
        → (slice_get m.vars x ≡ Some ty.Ref) × (IsTarget m sc x ty.Ref ⊎ (x ≡ sc.fresh)) × AreFields m.program fields
        × (refs ≡ refs_in m.vars sc) }
    ensures called { (m : MethodContext) (sc : Scope) (at : Pos) (xs : List ℕ) (k : ℕ) (es : t.Exprs)
        → IsPartStmt m sc (s.Call at xs k es)
        → (callee : p.Method) × (slice_get m.program.methods k ≡ Some callee)
        × ArePartExprs (inside m sc) es (params_of callee) × Receive m sc xs (returns_of callee) }
    ensures inhaled { (m : MethodContext) (sc : Scope) (at : Pos) (a : t.Assertion) → IsPartStmt m sc (s.Inhale at a)
        → IsPartAssertion (inside m sc) a }
    ensures exhaled { (m : MethodContext) (sc : Scope) (at : Pos) (a : t.Assertion) → IsPartStmt m sc (s.Exhale at a)
        → IsPartAssertion (inside m sc) a }
    ensures asserted { (m : MethodContext) (sc : Scope) (at : Pos) (a : t.Assertion) → IsPartStmt m sc (s.Assert at a)
        → IsPartAssertion (inside m sc) a }
{}

/// The operands in a part are parts, of the types that its form asks for.
pub fn expressions_have_parts()
    ensures negative { (c : Context) (a : t.Expr) (u : Ty) → IsPartExpr c (t.Neg a) u → IsPartExpr c a u }
    ensures negation { (c : Context) (a : t.Expr) (u : Ty) → IsPartExpr c (t.Not a) u → IsPartExpr c a ty.Bool }
    ensures binary { (c : Context) (o : Op) (a : t.Expr) (b : t.Expr) (at : Pos) (u : Ty)
        → IsPartExpr c (t.Bin o a b at) u
        → (left : Ty) × (right : Ty) × IsPartExpr c a left × IsPartExpr c b right × (value_type o left right ≡ Some u) }
    ensures choice { (c : Context) (a : t.Expr) (b : t.Expr) (d : t.Expr) (u : Ty) → IsPartExpr c (t.Choose a b d) u
        → IsPartExpr c a ty.Bool × IsPartExpr c b u × IsPartExpr c d u }
    ensures field { (c : Context) (a : t.Expr) (f : ℕ) (at : Pos) (u : Ty) → IsPartExpr c (t.Field a f at) u
        → (slice_get c.program.layout.fields f ≡ Some u) × IsPartExpr c a ty.Ref }
    ensures old { (c : Context) (a : t.Expr) (u : Ty) → IsPartExpr c (t.Old a) u → IsPartExpr c a u }
    ensures arguments { (c : Context) (a : t.Expr) (rest : t.Exprs) (u : Ty) (us : List Ty)
        → ArePartExprs c (t.more a rest) (u ∷ us) → IsPartExpr c a u × ArePartExprs c rest us }
{}

/// The parts of an assertion are parts.
pub fn assertions_have_parts()
    ensures fact { (c : Context) (e : t.Expr) (at : Pos) → IsPartAssertion c (t.Fact e at) → IsPartExpr c e ty.Bool }
    ensures access { (c : Context) (e : t.Expr) (f : ℕ) (m : t.Amt) (at : Pos) → IsPartAssertion c (t.Acc e f m at)
        → (u : Ty) × (slice_get c.program.layout.fields f ≡ Some u) × IsPartExpr c e ty.Ref × IsPartAmount c m }
    ensures instance { (c : Context) (k : ℕ) (es : t.Exprs) (m : t.Amt) (at : Pos)
        → IsPartAssertion c (t.Inst k es m at)
        → (d : p.Predicate) × (slice_get c.program.predicates k ≡ Some d) × ArePartExprs c es d.params × IsPartAmount c m }
    ensures both { (c : Context) (a : t.Assertion) (b : t.Assertion) → IsPartAssertion c (t.And a b)
        → IsPartAssertion c a × IsPartAssertion c b }
    ensures implied { (c : Context) (e : t.Expr) (a : t.Assertion) → IsPartAssertion c (t.Implies e a)
        → IsPartExpr c e ty.Bool × IsPartAssertion c a }
    ensures chosen { (c : Context) (e : t.Expr) (a : t.Assertion) (b : t.Assertion)
        → IsPartAssertion c (t.ChooseAssertion e a b)
        → IsPartExpr c e ty.Bool × IsPartAssertion c a × IsPartAssertion c b }
    ensures amount { (c : Context) (e : t.Expr) → IsPartAmount c (t.Is e) → IsPartExpr c e ty.Perm }
{}
