//! Laws of what is written for loops and calls, each as the contract of a function that does nothing.

ghost use Rattle.std.specs.Prelude.{ℕ, List};
ghost use Rattle.vb_value.specs.Bound.{Unbounded, Bounded};
ghost use Rattle.boogie_tree.specs.Value.{BValue, BChoice};
ghost use Rattle.boogie_meaning.specs.Compared.{RunIsBoundedBy};
ghost use Rattle.boogie_loops.specs.Modular.{cutrun_proc};
ghost use Rattle.boogie_loops.specs.Turning.{wrun_proc};
ghost use Rattle.boogie_loops.specs.Wide.{WStmts, WProc, WProgram};
ghost use Rattle.boogie_loops.specs.WideTypes.{IsWideProgram};
ghost use Rattle.boogie_cut.specs.Bounded.{IsTurnedBoundedBy};
ghost use Rattle.boogie_cut.specs.Cut.{cut_program};
ghost use Rattle.boogie_cut.specs.Follows.{AreCutOf};

/// For each procedure that has a body one is written. Its runs are the modular runs, and where a turning run fails, some run of
/// it fails as well.
pub fn what_is_written_follows_the_loops()
    ensures { (program : WProgram) → IsWideProgram program → AreCutOf program (cut_program program) }
{}

/// A modular run within the bound ends as the one without it, or is over; and so does a turning run, whatever the number of turns.
/// Without the bound neither is ever over.
pub fn the_bound_only_ends_runs()
    ensures modular { (ps : List WProc) (d : WProc) (body : WStmts) (env : List BValue) (cs : List BChoice)
        → RunIsBoundedBy (cutrun_proc ps Bounded d body env cs) (cutrun_proc ps Unbounded d body env cs) }
    ensures turning { (ps : List WProc) (d : WProc) (body : WStmts) (env : List BValue) (cs : List BChoice) (n : ℕ)
        → IsTurnedBoundedBy (wrun_proc ps Bounded d body env cs n) (wrun_proc ps Unbounded d body env cs n) }
{}
