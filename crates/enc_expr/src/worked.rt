//! Worked examples, each as the contract of a function that does nothing: how an expression ends in a state, how a run of its
//! code ends on the moves of its events, and that the code is well-typed.

ghost use Rattle.std.specs.Prelude.{pos, negsuc, true, false, [], ◌∷◌};
ghost use Rattle.vb_base.specs.declared.labels.Kind.TheVariants as kind;
ghost use Rattle.vb_value.specs.Bound.{Bound, Bounded, Unbounded};
ghost use Rattle.vb_value.specs.Content as content;
ghost use Rattle.vb_value.specs.declared.values.Value.TheVariants as v;
ghost use Rattle.viper_state.specs.Event as event;
ghost use Rattle.viper_meaning.specs.Ends as meaning;
ghost use Rattle.boogie_tree.specs.Value as boogie;
ghost use Rattle.boogie_meaning.specs.Run as run;
ghost use Rattle.enc_expr.specs.Worked.{Ends, Gives, Fails, reads_f, computes, sum, quotient, quotients, opens_P, opens_and_reads, holding, wholly, leaf_int, in_all, whole, nested, in_whole, operators, by_amounts, opens_more, opens_twice, opens_part, with_leaf, key_P, leaf_ref, half_held, events_Q, choices_Q, events_in_all, choices_in_all, at_1_20, at_1_24, at_1_29, at_1_33, at_1_42, at_6_20, at_6_24, at_6_36, at_6_38, at_6_41, at_6_43, at_6_51, at_6_72, at_6_106, at_6_124, at_8_37};

/// Null has no field, and a field that is not held is not read.
pub fn a_field_is_read()
    ensures null { (b : Bound) → Fails b (reads_f 0 []) [] [] at_1_42 kind.Null }
    ensures no_permission { (b : Bound) → Fails b (reads_f 1 []) [] [] at_1_42 kind.Perm }
    ensures permission { (b : Bound) → Gives b (reads_f 1 ((1, half_held) ∷ [])) [] true [] }
{}

/// Within the bound a sum beyond it is Over on both sides. Without one it is a number.
pub fn a_sum_may_leave_the_bound()
    ensures beyond { Ends Bounded (computes at_1_24 sum (pos 1)) [] (meaning.Over at_1_33) [] (run.Stops run.Over []) }
    ensures within { (b : Bound) → Gives b (computes at_1_24 sum (pos 0)) [] true [] }
    ensures unbounded { Gives Unbounded (computes at_1_24 sum (pos 1)) [] true [] }
{}

/// A division by zero fails at its operator, and a remainder is not negative. An Int times a Perm is a Perm.
pub fn operators_have_their_values()
    ensures by_zero { (b : Bound) → Fails b (computes at_1_20 quotient (pos 0)) [] [] at_1_29 kind.Div }
    ensures euclidean { (b : Bound) → Gives b (computes at_1_20 quotients (pos 0)) [] true [] }
    ensures operators_true { (b : Bound) → Gives b (computes at_1_20 operators (pos 5)) [] true [] }
    ensures operators_false { (b : Bound) → Gives b (computes at_1_20 operators (pos 4)) [] false [] }
{}

/// What an instance contains is read in a copy of the state, and not behind it. Where the content has no value, the
/// meaning is Blocked, and the code wants a choice that there is not.
pub fn an_instance_is_opened()
    ensures opened { (b : Bound) → Gives b (with_leaf opens_P 5) (event.Leaf (v.Int (pos 5)) ∷ []) true (boogie.Value (boogie.Int (pos 5)) ∷ []) }
    ensures opened_zero { (b : Bound) → Gives b (with_leaf opens_P 0) (event.Leaf (v.Int (pos 0)) ∷ []) false (boogie.Value (boogie.Int (pos 0)) ∷ []) }
    ensures no_value { (b : Bound) → Ends b (holding opens_P 1 (pos 5) [] (wholly 1) []) [] meaning.Blocked [] (run.Stops run.Short []) }
    ensures not_held { (b : Bound) → Fails b (holding opens_P 1 (pos 5) [] [] ((key_P 1, leaf_int (pos 5)) ∷ [])) [] [] at_6_20 kind.Perm }
    ensures closed_behind { (b : Bound) → Fails b (with_leaf opens_and_reads 5) (event.Leaf (v.Int (pos 5)) ∷ []) (boogie.Value (boogie.Int (pos 5)) ∷ []) at_6_43 kind.Perm }
    ensures taken_out { (b : Bound) → Fails b (with_leaf opens_twice 5) (event.Leaf (v.Int (pos 5)) ∷ []) (boogie.Value (boogie.Int (pos 5)) ∷ []) at_6_38 kind.Perm }
{}

/// A part of an instance is opened. A place of which some is held keeps its value, at most all of it is held, and null has none.
/// By an amount of none it is filled from nothing alone.
pub fn a_place_takes_what_an_instance_contains()
    ensures none_of_it { (b : Bound) → Fails b (holding opens_part 1 (pos 0) [] (wholly 1) ((key_P 1, leaf_int (pos 5)) ∷ [])) [] [] at_6_24 kind.Amount }
    ensures other_value { (b : Bound) → Ends b (holding opens_part 1 (pos 1) ((1, half_held) ∷ []) (wholly 1) ((key_P 1, leaf_int (pos 5)) ∷ [])) (event.Leaf (v.Int (pos 5)) ∷ []) meaning.Blocked (boogie.Value (boogie.Int (pos 5)) ∷ []) (run.Stops run.Blocked []) }
    ensures same_value { (b : Bound) → Gives b (holding opens_part 1 (pos 1) ((1, half_held) ∷ []) (wholly 1) ((key_P 1, leaf_int (pos 3)) ∷ [])) (event.Leaf (v.Int (pos 3)) ∷ []) true (boogie.Value (boogie.Int (pos 3)) ∷ []) }
    ensures too_much { (b : Bound) → Ends b (holding opens_P 1 (pos 5) ((1, half_held) ∷ []) (wholly 1) ((key_P 1, leaf_int (pos 3)) ∷ [])) (event.Leaf (v.Int (pos 3)) ∷ []) meaning.Blocked (boogie.Value (boogie.Int (pos 3)) ∷ []) (run.Stops run.Blocked []) }
    ensures of_null { (b : Bound) → Ends b (holding opens_P 0 (pos 5) [] (wholly 0) ((key_P 0, leaf_int (pos 5)) ∷ [])) [] meaning.Blocked [] (run.Stops run.Blocked []) }
    ensures negative { (b : Bound) → Fails b (by_amounts 1 (negsuc 0)) [] [] at_8_37 kind.Negative }
    ensures nothing { (b : Bound) → Gives b (by_amounts 1 (pos 0)) [] false [] }
    ensures not_nothing { (b : Bound) → Ends b (by_amounts 2 (pos 0)) [] meaning.Blocked [] (run.Stops run.Blocked []) }
{}

/// `old`, a choice, two predicates by half and a lazy operator: the sides that do not count are not read.
pub fn all_forms_are_read_together()
    ensures in_all_true { (b : Bound) → Gives b (in_all true (pos 2) (pos 4)) events_in_all true choices_in_all }
    ensures right_side { (b : Bound) → Fails b (in_all false (pos 2) (pos 4)) events_in_all choices_in_all at_6_124 kind.Perm }
    ensures other_side { (b : Bound) → Fails b (in_all true (pos 2) (pos 3)) [] [] at_6_106 kind.Perm }
    ensures other_key { (b : Bound) → Fails b (in_all true (pos 1) (pos 4)) [] [] at_6_41 kind.Perm }
    ensures implies_nothing { (b : Bound) → Fails b (in_all true (pos 0) (pos 4)) (event.Split (leaf_ref 1) content.Unit ∷ event.Leaf (v.Ref 1) ∷ []) (boogie.Value (boogie.Snap (leaf_ref 1)) ∷ boogie.Value (boogie.Snap content.Unit) ∷ boogie.Value (boogie.Ref 1) ∷ []) at_6_72 kind.Perm }
    ensures implies_more { (b : Bound) → Ends b (in_all true (negsuc 0) (pos 4)) events_Q meaning.Blocked choices_Q (run.Stops run.Blocked []) }
    ensures other_content { (b : Bound) → Ends b (in_whole whole ((key_P 1, half_held) ∷ []) true (pos 2) (pos 4)) events_Q meaning.Blocked choices_Q (run.Stops run.Blocked []) }
    ensures by_half { (b : Bound) → Fails b (in_whole opens_more [] true (pos 2) (pos 4)) events_Q choices_Q at_6_51 kind.Perm }
    ensures asleep { (b : Bound) → Gives b (in_whole nested [] false (pos 5) (pos 4)) [] true [] }
    ensures asleep_too { (b : Bound) → Gives b (in_whole nested [] false (negsuc 4) (pos 4)) [] false [] }
    ensures awake { (b : Bound) → Fails b (in_whole nested [] true (negsuc 4) (pos 4)) [] [] at_6_36 kind.Perm }
{}
