//! Worked examples: a procedure that counts up to its parameter, with an invariant that holds its return below the parameter, and
//! with one that only holds it below eight.

ghost use Rattle.std.specs.Prelude.{◌≡◌, [], ◌∷◌};
ghost use Rattle.vb_value.specs.Bound.{Bounded};
ghost use Rattle.boogie_meaning.specs.Programs.{brun_proc};
ghost use Rattle.boogie_meaning.specs.Run.{Done, Stops, Failed, Blocked};
ghost use Rattle.boogie_loops.specs.Turning.{Goes, Spent, wrun_proc};
ghost use Rattle.boogie_cut.specs.Sum.{Labels, sum, body, written, at_most_n, at_most_seven, values, choice};

/// With five as the parameter, and as the value of the return at the last head of the loop, the procedure ends as it should.
pub fn a_loop_is_left_at_its_last_head()
    ensures { (labels : Labels) → brun_proc Bounded (written labels at_most_n) (values 5 0) (choice 5) ≡ Done (values 5 5) [] }
{}

/// A turn from a head at which the invariant holds ends where it does not.
pub fn an_invariant_is_not_kept_by_a_turn()
    ensures { (labels : Labels) → brun_proc Bounded (written labels at_most_seven) (values 9 0) (choice 7) ≡ Stops (Failed labels.head) [] }
{}

/// A weak invariant lets the loop end with other values than a run of its turns does: five turns lead to five, and four are too
/// few.
pub fn a_weak_invariant_allows_what_no_turns_lead_to()
    ensures written { (labels : Labels) → brun_proc Bounded (written labels at_most_seven) (values 5 0) (choice 7) ≡ Stops (Failed labels.after) [] }
    ensures turns { (labels : Labels) → wrun_proc (sum labels at_most_seven ∷ []) Bounded (sum labels at_most_seven) (body labels at_most_seven) (values 5 0) [] 5 ≡ Goes (values 5 5) [] 0 }
    ensures too_few { (labels : Labels) → wrun_proc (sum labels at_most_seven ∷ []) Bounded (sum labels at_most_seven) (body labels at_most_seven) (values 5 0) [] 4 ≡ Spent [] }
{}

/// A value at which the invariant does not hold is not one of a head.
pub fn a_value_without_the_invariant_is_blocked()
    ensures { (labels : Labels) → brun_proc Bounded (written labels at_most_seven) (values 9 0) (choice 8) ≡ Stops Blocked [] }
{}
