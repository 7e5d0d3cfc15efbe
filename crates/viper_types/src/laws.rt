//! Laws of the definitions, each as the contract of a function that does nothing.

ghost use Rattle.std.specs.Prelude.{◌≡◌, ◌⊎◌, ℕ};
ghost use Rattle.vb_base.specs.declared.places.Pos.{Pos};
ghost use Rattle.vb_value.specs.declared.values.Ty.{Ty};
ghost use Rattle.viper_core.specs.Expr as e;
ghost use Rattle.viper_core.specs.Formed.{IsTypedProgram};
ghost use Rattle.viper_core.specs.Program as p;
ghost use Rattle.viper_core.specs.Stmt as c;
ghost use Rattle.viper_syntax.specs.Decl as d;
ghost use Rattle.viper_syntax.specs.Stmt as s;
ghost use Rattle.viper_syntax.specs.Term as t;
ghost use Rattle.viper_scope.specs.declared.rules.Rule.{Rule};
ghost use Rattle.viper_scope.specs.Context.{Context};
ghost use Rattle.viper_types.specs.Frame.{MethodVariables};
ghost use Rattle.viper_syntax.specs.Good.{IsGoodSource};
ghost use Rattle.viper_types.specs.Declaring.{program_typing};
ghost use Rattle.viper_scope.specs.Outcome.{Broken};
ghost use Rattle.viper_types.specs.Program.{IsProgram};
ghost use Rattle.viper_types.specs.Stepped.{Stepped};
ghost use Rattle.viper_types.specs.Typed.{Typed, Asserts};
ghost use Rattle.viper_scope.specs.Scope.{VariableScope};

/// A term is at most one expression, of at most one type, and at most one assertion.
pub fn one_expression()
    ensures expression { (k : Context) (sc : VariableScope) (a : t.Term) (x : e.Expr) (y : e.Expr) (u : Ty) (v : Ty) → Typed k sc a x u
        → Typed k sc a y v → (x ≡ y) × (u ≡ v) }
    ensures assertion { (k : Context) (sc : VariableScope) (a : t.Term) (x : e.Assertion) (y : e.Assertion) → Asserts k sc a x
        → Asserts k sc a y → x ≡ y }
{}

/// A statement is at most one statement of the core.
pub fn one_statement()
    ensures { (k : Context) (d : ℕ) (fr : MethodVariables) (a : s.SStmt) (x : c.Stmt) (y : c.Stmt) → Stepped k d fr a x → Stepped k d fr a y
        → x ≡ y }
{}

/// A file is at most one program.
pub fn one_program()
    ensures { (source : d.SourceProgram) (q : p.Program) (r : p.Program) → IsProgram source q → IsProgram source r → q ≡ r }
{}

/// A file is a program, or its walk tells a broken rule, and never both.
pub fn typed_or_broken()
    ensures either { (source : d.SourceProgram) → ((q : p.Program) × IsProgram source q) ⊎ ((at : Pos) × (r : Rule) × (program_typing source ≡ Broken at r)) }
    ensures not_both { (source : d.SourceProgram) (q : p.Program) (at : Pos) (r : Rule) → IsProgram source q → program_typing source ≡ Broken at r → ⊥ }
{}

/// The program that a file is, is formed, but for its weight.
pub fn a_typed_program_is_formed()
    ensures { (source : d.SourceProgram) (q : p.Program) → IsGoodSource source → IsProgram source q → IsTypedProgram q }
{}
