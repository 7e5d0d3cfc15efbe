//! Laws of the text of the code, each as the contract of a function that does nothing.

ghost use Rattle.std.specs.Prelude.{◌≡◌, ◌≢◌, ◌≤◌, ◌+◌, ◌^◌, ℕ, List, length, None, Some, slice_get, All};
ghost use Rattle.vb_base.specs.Limits.{max_term_depth, max_unclosed_brackets};
ghost use Rattle.vb_base.specs.Names.{NamesDiffer};
ghost use Rattle.vb_value.specs.declared.values.Ty.{Ty};
ghost use Rattle.viper_core.specs.Depth.{depth, assertion_depth};
ghost use Rattle.viper_core.specs.Expr as e;
ghost use Rattle.viper_core.specs.Formed.{IsFormed};
ghost use Rattle.viper_core.specs.Program.{Program};
ghost use Rattle.viper_core.specs.Typing as typing;
ghost use Rattle.viper_core.specs.Typing.{Context, IsAssertion};
ghost use Rattle.viper_core.specs.declared.programs.Unit.{Unit};
ghost use Rattle.boogie_tree.specs.Expr as t;
ghost use Rattle.boogie_tree.specs.Nested.{expr_depth, proc_depth};
ghost use Rattle.boogie_tree.specs.Program.{BType, BProgram};
ghost use Rattle.boogie_tree.specs.Values.{plain_type};
ghost use Rattle.boogie_tree.specs.declared.exprs.BBase.TheVariants as base;
ghost use Rattle.boogie_meaning.specs.Programs.{HaveKeys};
ghost use Rattle.boogie_meaning.specs.Types as types;
ghost use Rattle.boogie_grammar.specs.Grammar.{local_names};
ghost use Rattle.boogie_grammar.specs.Printed.{bound_name};
ghost use Rattle.boogie_grammar.specs.Spells.{BSpells};
ghost use Rattle.boogie_print.specs.Read.{IsRead};
ghost use Rattle.boogie_print.specs.Printable.{IsFreeName, FitsLocal, FitsProc};
ghost use Rattle.enc_expr.specs.Place.{Place};
ghost use Rattle.enc_expr.specs.Kinds.{kinds_in};
ghost use Rattle.enc_expr.specs.Code.{Guard};
ghost use Rattle.enc_expr.specs.Encoding.{code, body_code};
ghost use Rattle.enc_expr.specs.Typed.{HasPlaceTypes, HasGuardType};
ghost use Rattle.boogie_tree.specs.Literals.{LiteralsFit};
ghost use Rattle.enc_expr.specs.Locals.{locals_of_unit};
ghost use Rattle.enc_text.specs.Fits.{types_before, procedure_of};

/// The locals of a unit's procedure can be spelled: the fixed ones, and temporaries behind them. Their names are names, none is
/// reserved, no two of them are the same, and none is one that a `forall` binds.
pub fn locals_can_be_printed()
    ensures fit { (p : Program) (u : Unit) (us : List BType) → IsFormed p → HaveKeys us → length (types_before p u us) ≤ 2 ^ 64
        → All FitsLocal (locals_of_unit p u us) }
    ensures differ { (p : Program) (u : Unit) (us : List BType) → IsFormed p → length (types_before p u us) ≤ 2 ^ 64
        → NamesDiffer (local_names (locals_of_unit p u us)) }
    ensures unbound { (p : Program) (u : Unit) (us : List BType) → IsFormed p
        → All (λ x. (n : ℕ) → x ≢ bound_name n) (local_names (locals_of_unit p u us)) }
{}

/// A procedure can be printed that consists of the code of a typed expression or body, behind the locals of a unit of a
/// formed program. Only its name has to be free, and a number has to have 64 bits.
pub fn procedures_can_be_printed()
    ensures expression { (name : List ℕ) (i : Unit) (us : List BType) (c : Context) (p : Place) (g : Guard) (a : e.Expr) (u : Ty)
        → IsFreeName name → IsFormed c.program → HaveKeys us → typing.HasType c a u
        → HasPlaceTypes c p (types_before c.program i us) → HasGuardType g (types_before c.program i us)
        → length (types_before c.program i us) + length (code (kinds_in c) p g a (length (types_before c.program i us))).locals ≤ 2 ^ 64
        → FitsProc (procedure_of name c.program i us (code (kinds_in c) p g a (length (types_before c.program i us)))) }
    ensures body { (name : List ℕ) (i : Unit) (us : List BType) (c : Context) (p : Place) (g : Guard) (scale : t.BExpr) (a : e.Assertion)
        (from : ℕ) → IsFreeName name → IsFormed c.program → HaveKeys us → IsAssertion c a
        → HasPlaceTypes c p (types_before c.program i us) → HasGuardType g (types_before c.program i us)
        → types.HasType (types_before c.program i us) None scale base.Real → LiteralsFit scale
        → slice_get (types_before c.program i us) from ≡ Some (plain_type base.Snap)
        → length (types_before c.program i us) + length (body_code (kinds_in c) p g scale a from (length (types_before c.program i us))).locals ≤ 2 ^ 64
        → FitsProc (procedure_of name c.program i us (body_code (kinds_in c) p g scale a from (length (types_before c.program i us)))) }
{}

/// Its text has at most two more brackets open at once than an expression or body may have levels, where this one has no more.
pub fn procedures_are_shallow()
    ensures expression { (name : List ℕ) (i : Unit) (us : List BType) (c : Context) (p : Place) (g : Guard) (a : e.Expr) (u : Ty) (n : ℕ)
        → IsFormed c.program → typing.HasType c a u → depth a ≤ max_term_depth
        → proc_depth (procedure_of name c.program i us (code (kinds_in c) p g a n)) ≤ max_term_depth + 2 }
    ensures body { (name : List ℕ) (i : Unit) (us : List BType) (c : Context) (p : Place) (g : Guard) (scale : t.BExpr) (a : e.Assertion)
        (from n : ℕ) → IsFormed c.program → IsAssertion c a → expr_depth scale ≡ 0 → assertion_depth a ≤ max_term_depth
        → proc_depth (procedure_of name c.program i us (body_code (kinds_in c) p g scale a from n)) ≤ max_term_depth + 2 }
{}

/// So a text of such procedures is read back: it spells them, and its brackets are not too deep.
pub fn shallow_procedures_are_read()
    ensures { (bytes : List ℕ) (program : BProgram) → All (λ d. proc_depth d ≤ max_unclosed_brackets) program.procs → BSpells bytes program
        → IsRead bytes program }
{}
