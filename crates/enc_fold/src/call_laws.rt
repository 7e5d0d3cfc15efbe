//! Laws of the calls, each as the contract of a function that does nothing.

ghost use Rattle.std.specs.Prelude.{◌≡◌, List};
ghost use Rattle.viper_core.specs.Stmt.{FoldStmt};
ghost use Rattle.viper_core.specs.Typing.{Context, IsFold};
ghost use Rattle.boogie_tree.specs.Program.{BType};
ghost use Rattle.enc_expr.specs.Place.{Place};
ghost use Rattle.enc_expr.specs.Kinds.{kinds_in};
ghost use Rattle.enc_expr.specs.ReadOff.{HasNumbers};
ghost use Rattle.enc_expr.specs.Typed.{HasPlaceTypes};
ghost use Rattle.enc_fold.specs.Calls.{fold_call, unfold_call};
ghost use Rattle.enc_fold.specs.Encoding.{fold_code, unfold_code};

/// Where the locals of a place have the types that a program gives them, what the calls write for a well-typed `fold` or `unfold` is
/// its code with the types of the program. So it goes alongside, is well-typed, shallow and linear, as the laws of the code say.
pub fn types_are_read_off_the_locals()
    ensures fold { (c : Context) (p : Place) (f : FoldStmt) (ts : List BType) (typed : IsFold c f) → HasPlaceTypes c p ts
        → HasNumbers c p → fold_call ts c.program p f ≡ fold_code (kinds_in c) p f typed.body }
    ensures unfold { (c : Context) (p : Place) (f : FoldStmt) (ts : List BType) (typed : IsFold c f) → HasPlaceTypes c p ts
        → HasNumbers c p → unfold_call ts c.program p f ≡ unfold_code (kinds_in c) p f typed.body }
{}
