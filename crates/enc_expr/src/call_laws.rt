//! Laws of what the call for an expression writes, which reads the types of variables, fields and predicates off the locals.

ghost use Rattle.std.specs.Prelude.{◌≡◌, List, length, None};
ghost use Rattle.vb_value.specs.Bound.{Bound};
ghost use Rattle.vb_value.specs.declared.values.Ty.{Ty};
ghost use Rattle.viper_core.specs.Expr as e;
ghost use Rattle.viper_core.specs.Formed.{IsFormed};
ghost use Rattle.viper_core.specs.Typing as typing;
ghost use Rattle.viper_core.specs.Typing.{Context};
ghost use Rattle.viper_state.specs.State.{State};
ghost use Rattle.viper_state.specs.Run.{Scene};
ghost use Rattle.viper_meaning.specs.Value.{value};
ghost use Rattle.boogie_tree.specs.Program.{BType};
ghost use Rattle.boogie_meaning.specs.Run.{brun};
ghost use Rattle.enc_expr.specs.Alike.{IsValued};
ghost use Rattle.enc_expr.specs.Boundary.{AreAlike};
ghost use Rattle.enc_expr.specs.Code.{Guard};
ghost use Rattle.enc_expr.specs.Coupling.{Env, IsCoupled, IsReady};
ghost use Rattle.enc_expr.specs.Encoding.{code};
ghost use Rattle.enc_expr.specs.Kinds.{kinds_in};
ghost use Rattle.enc_expr.specs.Place.{Place};
ghost use Rattle.enc_expr.specs.ReadOff.{kinds_at, HasNumbers};
ghost use Rattle.enc_expr.specs.Typed.{HasPlaceTypes};

/// Where the locals of a place have the types that a program gives them, what is written for a well-typed expression with the types
/// that the locals tell is what is written with those of the program. So it ends as the expression does.
pub fn types_are_read_off_the_locals()
    ensures code { (c : Context) (p : Place) (g : Guard) (a : e.Expr) (u : Ty) (ts : List BType) → IsFormed c.program
        → typing.HasType c a u → HasPlaceTypes c p ts → HasNumbers c p → code (kinds_at p ts) p g a ≡ code (kinds_in c) p g a }
    ensures alike { (ts us : List BType) (b : Bound) (c : Context) (p : Place) (s : State) (sc : Scene) (E : Env) (a : e.Expr) (u : Ty)
        → IsFormed c.program → IsCoupled b c (length us) p s sc E → typing.HasType c a u → HasPlaceTypes c p us → HasNumbers c p
        → IsReady ts None (length us) (code (kinds_at p us) p None a (length us)).locals E
        → AreAlike b (IsValued b (length us) (code (kinds_at p us) p None a (length us)).next
        (code (kinds_at p us) p None a (length us)).value u E) (value b a s sc)
        (λ cs. brun ts b (code (kinds_at p us) p None a (length us)).stmts E cs) }
{}
