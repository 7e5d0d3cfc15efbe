//! Worked examples, each as the contract of a function that does nothing: how statements end in a state on some choices, how a run
//! of their code ends on the moves of their events, and that the code is well-typed.

ghost use Rattle.std.specs.Prelude.{pos, negsuc, true, false, [], ◌∷◌, ◌++◌};
ghost use Rattle.vb_base.specs.declared.labels.Kind.TheVariants as kind;
ghost use Rattle.vb_value.specs.Bound.{Bound, Bounded, Unbounded};
ghost use Rattle.vb_value.specs.Content as content;
ghost use Rattle.vb_value.specs.Fraction.{write};
ghost use Rattle.vb_value.specs.declared.values.Value.TheVariants as v;
ghost use Rattle.viper_state.specs.Choice as choice;
ghost use Rattle.viper_state.specs.Event as event;
ghost use Rattle.viper_meaning.specs.Run as meaning;
ghost use Rattle.boogie_tree.specs.Value as boogie;
ghost use Rattle.boogie_meaning.specs.Run as run;
ghost use Rattle.enc_expr.specs.Worked.{half_held, leaf_int, leaf_ref};
ghost use Rattle.enc_examples.specs.Worked.{at_3_1, at_3_21, at_3_25, at_4_29, at_4_89, at_6_18, at_7_11, at_7_12, at_8_1, at_13_3, at_13_7, at_13_8, at_13_10, at_13_12, at_13_14, at_13_16, at_13_22, at_13_31, at_13_32, at_13_34, at_13_45, at_14_3, at_14_7, at_14_13, at_14_21, at_15_1, at_15_15, at_16_3, at_16_5, at_16_7, at_16_14, at_18_3, at_18_14, at_21_5, at_21_7, Ends, Goes, Fails, Blocks, quarter, memo, state, moved_memo, store, before, calling, after_call, call_choices, call_events, call_moves, turning, head_choices, head_events, head_moves, turn_choices, turn_events, turn_moves, keeping, folding, folded, folded_moves, creating, created_choices, created_events, created_moves, created, BlocksAt, writing, writing_null, closing, closed, asserting, asserted_choices, asserted_memo, asserted_moves, kept_P, kept_h, third, choosing, chosen_memo, chosen_moves, opening, three_quarters, circling, inhaling, exhaling, folding_part, inhaling_P, exhaling_P, counting, calling_old, nesting, nested_choices, nested_events, nested_moves, folds_L, opens_half_of_L, listed, listing, last_of_list, two, memo_of, moves_of_memo, UnitEnds, UnitFails, down_opening, down_values, bad_opening, bad_values, B_opening, B_values, behind_down};

/// The arguments of a call keep their values, though targets stand among them. In the postconditions `old` is the state before the
/// call, with what was held there. The preconditions are read there too, in their order.
pub fn a_call_has_its_arguments()
    ensures goes { (b : Bound) → Goes b (calling 3 ((1, write) ∷ [])) (call_choices 9 4) (call_events 9 4) (call_moves 9 4) (store 2 2 4 0)
        (state (after_call 9) ((1, write) ∷ []) ((2, write) ∷ []) [] ((2, write) ∷ [])) }
    ensures other_return { (b : Bound) → Blocks b (calling 3 ((1, write) ∷ [])) (call_choices 9 5) (call_events 9 5) (call_moves 9 5) }
    ensures other_old { (b : Bound) → Blocks b (calling 3 ((1, write) ∷ [])) (call_choices 10 4) (call_events 10 4) (call_moves 10 4) }
    ensures precondition { (b : Bound) → Fails b (calling 5 ((1, write) ∷ [])) [] [] [] at_13_3 at_7_12 kind.Fact }
    ensures not_held { (b : Bound) → Fails b (calling 3 ((1, half_held) ∷ [])) [] [] [] at_13_3 at_6_18 kind.Perm }
{}

/// An arbitrary turn begins with the targets at any values, calls, and ends with the invariants at the `{`. Where it ends well it blocks.
/// Behind the loop the invariants hold, and the guard does not.
pub fn a_loop_calls_in_its_turns()
    ensures well { (b : Bound) → Blocks b turning (head_choices 8 (pos 4) true ++ turn_choices ((1, 6) ∷ (2, 1) ∷ []) ((1, 11) ∷ []) 5)
        (head_events 8 (pos 4) true ++ turn_events ((1, 6) ∷ (2, 1) ∷ []) ((1, 11) ∷ []) 5)
        (head_moves 8 (pos 4) true ++ turn_moves ((1, 6) ∷ (2, 1) ∷ []) ((1, 11) ∷ []) 5) }
    ensures invariant_is_lost { (b : Bound) → Fails b turning (head_choices 8 (negsuc 0) true ++ turn_choices [] [] 0)
        (head_events 8 (negsuc 0) true ++ turn_events [] [] 0) (head_moves 8 (negsuc 0) true ++ turn_moves [] [] 0) at_16_3 at_15_15 kind.Fact }
    ensures behind { (b : Bound) → Goes b turning (head_choices 8 (pos 7) false) (head_events 8 (pos 7) false) (head_moves 8 (pos 7) false) (store 1 3 7 5)
        (state (memo ((1, 8) ∷ []) ((2, 1) ∷ []) [] []) ((1, write) ∷ []) ((2, write) ∷ []) [] []) }
    ensures guard_holds { (b : Bound) → Blocks b turning (head_choices 8 (pos 4) false) (head_events 8 (pos 4) false) (head_moves 8 (pos 4) false) }
{}

/// In a turn nothing is held but by the invariant. Behind the loop what was held besides is held again.
pub fn a_turn_holds_its_invariant_alone()
    ensures turn { (b : Bound) → Fails b (keeping 3)
        (choice.Filled (memo ((1, 4) ∷ []) ((1, 3) ∷ []) [] []) ∷ choice.Branch true ∷ choice.Filled (memo [] ((1, 3) ∷ []) [] []) ∷ [])
        (event.Whole (memo ((1, 4) ∷ []) ((1, 4) ∷ []) [] []) ∷ event.Branch true ∷ event.Whole (memo [] ((1, 3) ∷ []) [] []) ∷ [])
        (moved_memo ((1, 4) ∷ []) ((1, 4) ∷ []) [] [] ++ (boogie.Pick true ∷ []) ++ moved_memo [] ((1, 3) ∷ []) [] []) at_16_5 at_16_7 kind.Perm }
    ensures behind { (b : Bound) → Goes b (keeping 5) (choice.Filled (memo ((1, 4) ∷ []) ((1, 3) ∷ []) [] []) ∷ choice.Branch false ∷ [])
        (event.Whole (memo ((1, 4) ∷ []) ((1, 4) ∷ []) [] []) ∷ event.Branch false ∷ [])
        (moved_memo ((1, 4) ∷ []) ((1, 4) ∷ []) [] [] ++ (boogie.Pick false ∷ [])) (store 1 2 5 5)
        (state (memo ((1, 4) ∷ []) ((1, 2) ∷ []) [] []) ((1, write) ∷ []) ((1, write) ∷ []) [] []) }
{}

/// Where some of an instance is still held, it is folded again with what it contains, and with nothing else.
pub fn a_half_is_folded_twice()
    ensures same { (b : Bound) → Goes b folding (choice.Filled (memo ((1, 5) ∷ []) [] [] []) ∷ []) (event.Whole (folded 5) ∷ []) (folded_moves 5)
        (store 1 2 3 5) (state (folded 5) [] [] [] ((1, write) ∷ (2, write) ∷ [])) }
    ensures other { (b : Bound) → Blocks b folding (choice.Filled (memo ((1, 7) ∷ []) [] [] []) ∷ []) (event.Whole (folded 7) ∷ []) (folded_moves 7) }
{}

/// A new object is none that the method knows: not null, not that of a variable in scope, not one of which something is held, and not
/// one that stands where something is held. It may stand where nothing is held, or in a variable that is not in scope.
pub fn a_new_object_is_not_known()
    ensures null { (b : Bound) → BlocksAt b (0 ∷ 1 ∷ []) 0 }
    ensures in_scope { (b : Bound) → BlocksAt b (0 ∷ 1 ∷ []) 7 }
    ensures out_of_scope { (b : Bound) → Goes b (creating (0 ∷ [])) (created_choices 7) (created_events 7) (created_moves 7) (store 7 7 3 5) (created 7) }
    ensures held { (b : Bound) → BlocksAt b (0 ∷ 1 ∷ []) 5 }
    ensures stands_where_held { (b : Bound) → BlocksAt b (0 ∷ 1 ∷ []) 3 }
    ensures stands_elsewhere { (b : Bound) → Goes b (creating (0 ∷ 1 ∷ [])) (created_choices 6) (created_events 6) (created_moves 6) (store 6 7 3 5) (created 6) }
{}

/// Both operands are read, and then null and the whole permission are tested. What is written through one name is read through another.
pub fn two_fields_are_written()
    ensures goes { (b : Bound) → Goes b (writing 2 ((1, half_held) ∷ (2, write) ∷ [])) [] [] [] (store 1 2 3 8)
        (state (memo ((1, 5) ∷ (2, 8) ∷ []) ((1, 2) ∷ []) [] []) ((1, half_held) ∷ (2, write) ∷ []) ((1, write) ∷ []) [] []) }
    ensures of_itself { (b : Bound) → Goes b (writing 1 ((1, write) ∷ [])) [] [] [] (store 1 1 3 8)
        (state (memo ((1, 8) ∷ []) ((1, 1) ∷ []) [] []) ((1, write) ∷ []) ((1, write) ∷ []) [] []) }
    ensures not_wholly { (b : Bound) → Fails b (writing 2 ((1, half_held) ∷ (2, half_held) ∷ [])) [] [] [] at_14_3 at_14_7 kind.Perm }
    ensures null { (b : Bound) → Fails b (writing 0 ((1, half_held) ∷ [])) [] [] [] at_14_3 at_14_7 kind.Null }
    ensures value_first { (b : Bound) → Fails b (writing_null []) [] [] [] at_13_3 at_13_14 kind.Perm }
    ensures then_null { (b : Bound) → Fails b (writing_null ((2, half_held) ∷ [])) [] [] [] at_13_3 at_13_7 kind.Null }
{}

/// A predicate without parameters has one instance. A half of it is unfolded by half of each amount.
pub fn a_predicate_without_parameters()
    ensures goes { (b : Bound) → Goes b (closing write) [] (event.Split (leaf_int (pos 5)) content.Unit ∷ [])
        (boogie.Value (boogie.Snap (leaf_int (pos 5))) ∷ boogie.Value (boogie.Snap content.Unit) ∷ []) (store 1 2 3 0) closed }
    ensures not_held { (b : Bound) → Fails b (closing quarter) [] [] [] at_13_3 at_3_21 kind.Perm }
{}

/// Each form of an assertion is consumed and produced: an amount that is chosen, an instance under a condition, and one of two sides. An
/// `assert` takes nothing away.
pub fn assertions_of_each_form()
    ensures instance { (b : Bound) → Goes b (asserting 4 ((1, half_held) ∷ [])) (asserted_choices quarter []) (event.Wild quarter ∷ event.Whole asserted_memo ∷ event.Whole kept_P ∷ [])
        (asserted_moves ++ moved_memo ((1, 5) ∷ (2, 3) ∷ []) ((2, 5) ∷ []) (leaf_int (pos 6) ∷ []) ((1, leaf_int (pos 8)) ∷ (2, leaf_int (pos 6)) ∷ []))
        (store 1 2 4 0) (state kept_P ((1, quarter) ∷ []) [] [] ((1, quarter) ∷ [])) }
    ensures place { (b : Bound) → Goes b (asserting 3 ((1, half_held) ∷ [])) (asserted_choices quarter (choice.Amount third ∷ []))
        (event.Wild quarter ∷ event.Whole asserted_memo ∷ event.Wild third ∷ event.Whole kept_h ∷ [])
        (asserted_moves ++ (boogie.Value (boogie.Real third) ∷ []) ++ moved_memo ((1, 5) ∷ (2, 3) ∷ []) ((2, 1) ∷ []) (leaf_int (pos 6) ∷ []) ((2, leaf_int (pos 6)) ∷ []))
        (store 1 2 3 0) (state kept_h ((1, quarter) ∷ []) ((2, third) ∷ []) [] []) }
    ensures all_of_it { (b : Bound) → Blocks b (asserting 4 ((1, half_held) ∷ [])) (choice.Amount half_held ∷ []) (event.Wild half_held ∷ []) (boogie.Value (boogie.Real half_held) ∷ []) }
    ensures nothing_held { (b : Bound) → Fails b (asserting 4 []) [] [] [] at_13_3 at_13_16 kind.Perm }
    ensures not_above { (b : Bound) → Fails b (asserting 5 ((1, half_held) ∷ [])) (choice.Amount quarter ∷ []) (event.Wild quarter ∷ []) (boogie.Value (boogie.Real quarter) ∷ []) at_13_3 at_13_32 kind.Fact }
{}

/// One of two blocks runs, and what follows is read where it ends. In `old` the permission of the old state counts.
pub fn one_of_two_blocks_runs()
    ensures first { (b : Bound) → Goes b (choosing 4 ((1, half_held) ∷ [])) (choice.Filled (memo ((1, 9) ∷ (2, 8) ∷ []) ((1, 1) ∷ []) [] []) ∷ []) (event.Whole chosen_memo ∷ [])
        chosen_moves (store 1 2 4 11) (state chosen_memo ((1, half_held) ∷ []) [] [] []) }
    ensures second { (b : Bound) → Goes b (choosing 5 ((1, half_held) ∷ [])) [] [] [] (store 1 2 5 11)
        (state (memo ((1, 5) ∷ []) [] [] ((1, leaf_int (pos 5)) ∷ [])) ((1, half_held) ∷ []) [] [] ((1, half_held) ∷ [])) }
    ensures old_not_held { (b : Bound) → Fails b (choosing 5 []) [] [] [] at_18_3 at_18_14 kind.Perm }
{}

/// What an instance contains stands at its places. Where something is held of a place, it keeps its value, and at most all of it is held.
pub fn a_half_is_unfolded()
    ensures nothing_held { (b : Bound) → Goes b (opening 1 [] write 7) [] (event.Leaf (v.Int (pos 7)) ∷ []) (boogie.Value (boogie.Int (pos 7)) ∷ [])
        (store 1 2 3 0) (state (memo ((1, 7) ∷ []) [] [] ((1, leaf_int (pos 7)) ∷ [])) ((1, half_held) ∷ []) [] [] ((1, half_held) ∷ [])) }
    ensures same_value { (b : Bound) → Goes b (opening 1 ((1, quarter) ∷ []) write 5) [] (event.Leaf (v.Int (pos 5)) ∷ []) (boogie.Value (boogie.Int (pos 5)) ∷ [])
        (store 1 2 3 0) (state (memo ((1, 5) ∷ []) [] [] ((1, leaf_int (pos 5)) ∷ [])) ((1, three_quarters) ∷ []) [] [] ((1, half_held) ∷ [])) }
    ensures other_value { (b : Bound) → Blocks b (opening 1 ((1, quarter) ∷ []) write 7) [] (event.Leaf (v.Int (pos 7)) ∷ []) (boogie.Value (boogie.Int (pos 7)) ∷ []) }
    ensures too_much { (b : Bound) → Blocks b (opening 1 ((1, three_quarters) ∷ []) write 5) [] (event.Leaf (v.Int (pos 5)) ∷ []) (boogie.Value (boogie.Int (pos 5)) ∷ []) }
    ensures of_null { (b : Bound) → Blocks b (opening 0 [] write 5) [] [] [] }
    ensures too_little { (b : Bound) → Fails b (opening 1 [] quarter 5) [] [] [] at_13_3 at_13_14 kind.Perm }
{}

/// A loop without an invariant forgets alone. In a turn nothing at all is held, and behind it all that was.
pub fn a_loop_without_an_invariant()
    ensures turn { (b : Bound) → Fails b (circling 5) (choice.Filled (memo [] [] [] []) ∷ choice.Branch true ∷ choice.Filled (memo ((1, 9) ∷ []) [] [] []) ∷ [])
        (event.Whole (memo ((1, 5) ∷ []) [] [] []) ∷ event.Branch true ∷ event.Whole (memo ((1, 9) ∷ []) [] [] []) ∷ [])
        (moved_memo ((1, 5) ∷ []) [] [] [] ++ (boogie.Pick true ∷ []) ++ moved_memo ((1, 9) ∷ []) [] [] []) at_13_3 at_13_12 kind.Perm }
    ensures behind { (b : Bound) → Goes b (circling 5) (choice.Filled (memo [] [] [] []) ∷ choice.Branch false ∷ [])
        (event.Whole (memo ((1, 5) ∷ []) [] [] []) ∷ event.Branch false ∷ []) (moved_memo ((1, 5) ∷ []) [] [] [] ++ (boogie.Pick false ∷ []))
        (store 1 2 5 0) (state (memo ((1, 5) ∷ []) [] [] []) ((1, write) ∷ []) [] [] []) }
    ensures goes_on { (b : Bound) → Blocks b (circling 4) (choice.Filled (memo [] [] [] []) ∷ choice.Branch false ∷ [])
        (event.Whole (memo ((1, 5) ∷ []) [] [] []) ∷ event.Branch false ∷ []) (moved_memo ((1, 5) ∷ []) [] [] [] ++ (boogie.Pick false ∷ [])) }
{}

/// What is inhaled is held from there on: the next part may read it, where the amount is positive. A false fact, null and more than the
/// whole block. No amount changes nothing, not even of null, and a negative one fails. Of an instance more than the whole may be held.
pub fn what_is_inhaled()
    ensures goes { (b : Bound) → Goes b (inhaling 1 (pos 1) 5 ((1, quarter) ∷ [])) [] [] [] (store 1 2 1 0) (state (memo ((1, 5) ∷ []) [] [] []) ((1, three_quarters) ∷ []) [] [] []) }
    ensures is_false { (b : Bound) → Blocks b (inhaling 1 (pos 1) 2 []) [] [] [] }
    ensures of_null { (b : Bound) → Blocks b (inhaling 0 (pos 1) 5 []) [] [] [] }
    ensures too_much { (b : Bound) → Blocks b (inhaling 1 (pos 1) 5 ((1, three_quarters) ∷ [])) [] [] [] }
    ensures nothing { (b : Bound) → Fails b (inhaling 1 (pos 0) 5 []) [] [] [] at_13_3 at_13_31 kind.Perm }
    ensures nothing_of_null { (b : Bound) → Fails b (inhaling 0 (pos 0) 5 []) [] [] [] at_13_3 at_13_31 kind.Null }
    ensures negative { (b : Bound) → Fails b (inhaling 1 (negsuc 0) 5 []) [] [] [] at_13_3 at_13_16 kind.Negative }
    ensures twice { (b : Bound) → Goes b (inhaling_P write) [] [] [] (store 1 2 3 0)
        (state (memo [] [] [] ((1, leaf_int (pos 5)) ∷ [])) [] [] [] ((1, two) ∷ [])) }
{}

/// What is exhaled is taken part by part, and read where all was held still.
pub fn what_is_exhaled()
    ensures goes { (b : Bound) → Goes b (exhaling 1 (pos 4) 5 ((1, write) ∷ [])) (choice.Filled (memo ((1, 8) ∷ []) [] [] []) ∷ []) (event.Whole (memo ((1, 8) ∷ []) [] [] []) ∷ [])
        (moved_memo ((1, 8) ∷ []) [] [] []) (store 1 2 4 0) (state (memo ((1, 8) ∷ []) [] [] []) [] [] [] []) }
    ensures too_little { (b : Bound) → Fails b (exhaling 1 (pos 4) 5 ((1, three_quarters) ∷ [])) [] [] [] at_13_3 at_13_34 kind.Perm }
    ensures is_false { (b : Bound) → Fails b (exhaling 1 (pos 5) 5 ((1, write) ∷ [])) [] [] [] at_13_3 at_13_45 kind.Fact }
    ensures of_instance { (b : Bound) → Goes b (exhaling_P ((1, half_held) ∷ [])) (choice.Amount quarter ∷ choice.Filled (memo ((1, 8) ∷ []) [] [] ((1, leaf_int (pos 8)) ∷ [])) ∷ [])
        (event.Wild quarter ∷ event.Whole (memo ((1, 8) ∷ []) [] [] ((1, leaf_int (pos 5)) ∷ [])) ∷ [])
        ((boogie.Value (boogie.Real quarter) ∷ []) ++ moved_memo ((1, 8) ∷ []) [] [] ((1, leaf_int (pos 5)) ∷ [])) (store 1 2 3 0)
        (state (memo ((1, 8) ∷ []) [] [] ((1, leaf_int (pos 5)) ∷ [])) [] [] [] ((1, quarter) ∷ [])) }
    ensures all_of_instance { (b : Bound) → Blocks b (exhaling_P ((1, half_held) ∷ [])) (choice.Amount half_held ∷ []) (event.Wild half_held ∷ [])
        (boogie.Value (boogie.Real half_held) ∷ []) }
    ensures no_instance { (b : Bound) → Fails b (exhaling_P []) [] [] [] at_13_3 at_13_14 kind.Perm }
{}

/// A `fold` asks for a positive amount, and then for so much of its body. Of null nothing is held.
pub fn a_part_is_folded()
    ensures goes { (b : Bound) → Goes b (folding_part 1 (pos 1) 5 ((1, three_quarters) ∷ [])) [] [] [] (store 1 2 1 0)
        (state (memo ((1, 5) ∷ []) [] [] ((1, leaf_int (pos 5)) ∷ [])) ((1, quarter) ∷ []) [] [] ((1, half_held) ∷ [])) }
    ensures nothing { (b : Bound) → Fails b (folding_part 1 (pos 0) 5 ((1, write) ∷ [])) [] [] [] at_13_3 at_13_12 kind.Amount }
    ensures negative { (b : Bound) → Fails b (folding_part 1 (negsuc 0) 5 ((1, write) ∷ [])) [] [] [] at_13_3 at_13_12 kind.Amount }
    ensures too_little { (b : Bound) → Fails b (folding_part 1 (pos 2) 5 ((1, three_quarters) ∷ [])) [] [] [] at_13_3 at_4_29 kind.Perm }
    ensures of_null { (b : Bound) → Fails b (folding_part 0 (pos 1) 5 ((1, write) ∷ [])) [] [] [] at_13_3 at_4_29 kind.Perm }
{}

/// Within the bound a number beyond it is Over on both sides. Without one it is a number.
pub fn a_number_may_leave_the_bound()
    ensures beyond { Ends Bounded counting [] [] (meaning.Over at_13_10) [] (run.Stops run.Over []) }
    ensures unbounded { Goes Unbounded counting [] [] [] (store 1 2 170141183460469231731687303715884105727 170141183460469231731687303715884105728) (before 5) }
{}

/// A choice of another kind or type is used up and blocks, without an event: there the code wants a choice that there is not. So it does
/// where a choice is missing.
pub fn a_choice_has_its_kind()
    ensures other_kind { (b : Bound) → Ends b (calling 3 ((1, write) ∷ [])) (choice.Branch true ∷ []) [] meaning.Blocked [] (run.Stops run.Short []) }
    ensures other_type { (b : Bound) → Ends b (creating (0 ∷ [])) (choice.Fresh 7 ∷ choice.Took (v.Int (pos 9)) ∷ []) (event.Fresh 7 ∷ []) meaning.Blocked
        (boogie.Value (boogie.Ref 7) ∷ []) (run.Stops run.Short []) }
    ensures missing { (b : Bound) → Ends b (creating (0 ∷ [])) (choice.Fresh 7 ∷ []) (event.Fresh 7 ∷ []) meaning.Short (boogie.Value (boogie.Ref 7) ∷ []) (run.Stops run.Short []) }
{}

/// Among the arguments of a call `old` is the old state of the method that calls.
pub fn old_is_an_argument()
    ensures goes { (b : Bound) → Goes b (calling_old ((1, half_held) ∷ [])) (call_choices 10 5) (call_events 10 5) (call_moves 10 5) (store 2 2 5 0)
        (state (after_call 10) ((1, write) ∷ []) ((2, write) ∷ []) [] ((2, write) ∷ [])) }
    ensures not_held { (b : Bound) → Fails b (calling_old []) [] [] [] at_13_3 at_13_22 kind.Perm }
{}

/// A loop stands in the turn of another. What the outer invariant holds is passed to the inner one, and what was held before the outer
/// loop is not held behind the inner one. `old` is the old state of the method.
pub fn a_loop_in_a_turn()
    ensures behind { (b : Bound) → Fails b nesting (nested_choices ++ (choice.Branch false ∷ [])) (nested_events ++ (event.Branch false ∷ []))
        (nested_moves ++ (boogie.Pick false ∷ [])) at_21_5 at_21_7 kind.Perm }
    ensures turn { (b : Bound) → Blocks b nesting (nested_choices ++ (choice.Branch true ∷ choice.Filled (memo ((1, 1) ∷ []) [] [] []) ∷ []))
        (nested_events ++ (event.Branch true ∷ event.Whole (memo ((1, 1) ∷ []) [] [] []) ∷ []))
        (nested_moves ++ (boogie.Pick true ∷ []) ++ moved_memo ((1, 1) ∷ []) [] [] []) }
    ensures not_held { (b : Bound) → Fails b (record nesting { now = state (memo ((1, 5) ∷ []) [] [] []) ((1, quarter) ∷ []) [] [] [] }) [] [] [] at_13_3 at_14_21 kind.Perm }
{}

/// A part of a body that counts only under a condition is folded and unfolded where it holds. An instance that its own body contains is
/// exhaled first; what is held of it besides has to contain the same.
pub fn a_list_is_folded()
    ensures goes { (b : Bound) → Goes b (listing (folds_L ∷ opens_half_of_L ∷ []) (listed ((1, 2) ∷ []) ((1, write) ∷ []) ((2, write) ∷ []) ((2, last_of_list) ∷ []))) []
        (event.Split (leaf_ref 2) last_of_list ∷ event.Leaf (v.Ref 2) ∷ [])
        (boogie.Value (boogie.Snap (leaf_ref 2)) ∷ boogie.Value (boogie.Snap last_of_list) ∷ boogie.Value (boogie.Ref 2) ∷ []) (store 1 2 3 0)
        (listed ((1, 2) ∷ []) ((1, half_held) ∷ []) ((1, half_held) ∷ (2, half_held) ∷ []) ((1, content.Pair (leaf_ref 2) last_of_list) ∷ (2, last_of_list) ∷ [])) }
    ensures last { (b : Bound) → Goes b (listing (folds_L ∷ opens_half_of_L ∷ []) (listed [] ((1, write) ∷ []) [] [])) []
        (event.Split (leaf_ref 0) content.Unit ∷ event.Leaf (v.Ref 0) ∷ [])
        (boogie.Value (boogie.Snap (leaf_ref 0)) ∷ boogie.Value (boogie.Snap content.Unit) ∷ boogie.Value (boogie.Ref 0) ∷ []) (store 1 2 3 0)
        (listed [] ((1, half_held) ∷ []) ((1, half_held) ∷ []) ((1, last_of_list) ∷ [])) }
    ensures rest_not_held { (b : Bound) → Fails b (listing (folds_L ∷ []) (listed ((1, 2) ∷ []) ((1, write) ∷ []) ((2, half_held) ∷ []) ((2, last_of_list) ∷ []))) [] [] []
        at_13_3 at_4_89 kind.Perm }
    ensures of_itself { (b : Bound) → Goes b (listing (folds_L ∷ []) (listed ((1, 1) ∷ []) ((1, write) ∷ []) ((1, write) ∷ []) ((1, last_of_list) ∷ []))) [] [] [] (store 1 2 3 0)
        (listed ((1, 1) ∷ []) [] ((1, write) ∷ []) ((1, content.Pair (leaf_ref 1) last_of_list) ∷ [])) }
    ensures held_besides { (b : Bound) → Blocks b (listing (folds_L ∷ []) (listed ((1, 1) ∷ []) ((1, write) ∷ []) ((1, two) ∷ []) ((1, last_of_list) ∷ []))) [] [] [] }
    ensures opened_by_half { (b : Bound) → Blocks b (listing (folds_L ∷ opens_half_of_L ∷ []) (listed ((1, 1) ∷ []) ((1, write) ∷ []) ((1, write) ∷ []) ((1, last_of_list) ∷ []))) []
        (event.Split (leaf_ref 1) last_of_list ∷ event.Leaf (v.Ref 1) ∷ [])
        (boogie.Value (boogie.Snap (leaf_ref 1)) ∷ boogie.Value (boogie.Snap last_of_list) ∷ boogie.Value (boogie.Ref 1) ∷ []) }
{}

/// A method begins where its precondition holds, and its old state is the one that this made. Where its body ends, the postcondition has
/// to hold. The other way the postcondition is read by itself.
pub fn a_method_runs()
    ensures postcondition { (b : Bound) → UnitFails b 1 (down_opening 5) (choice.Branch true ∷ []) (event.Branch true ∷ []) (down_values 5) (boogie.Pick true ∷ []) at_8_1 at_7_11 kind.Fact }
    ensures well { (b : Bound) → UnitEnds b 1 (down_opening 6) (choice.Branch true ∷ []) (event.Branch true ∷ []) (meaning.Goes behind_down) (down_values 6) (boogie.Pick true ∷ []) (run.Done [] []) }
    ensures precondition { (b : Bound) → UnitEnds b 1 (down_opening 4) [] [] meaning.Blocked (down_values 4) [] (run.Stops run.Blocked []) }
    ensures by_itself { (b : Bound) → UnitEnds b 1 (down_opening 5) (choice.Branch false ∷ choice.Filled (memo_of [] ((1, 4) ∷ []) []) ∷ [])
        (event.Branch false ∷ event.Whole (memo_of [] ((1, 4) ∷ []) []) ∷ []) meaning.Blocked (down_values 5)
        ((boogie.Pick false ∷ []) ++ moves_of_memo [] ((1, 4) ∷ []) []) (run.Stops run.Blocked []) }
    ensures not_defined { (b : Bound) → UnitFails b 2 (bad_opening 1) (choice.Filled (memo_of ((3, 1) ∷ []) ((1, 7) ∷ []) []) ∷ [])
        (event.Whole (memo_of ((3, 1) ∷ []) ((1, 7) ∷ []) []) ∷ []) (bad_values 1) (moves_of_memo ((3, 1) ∷ []) ((1, 7) ∷ []) []) at_13_8 at_14_13 kind.Perm }
    ensures not_defined_before { (b : Bound) → UnitFails b 3 (bad_opening 1) [] [] (bad_values 1) [] at_15_1 at_16_14 kind.Perm }
{}

/// The body of a predicate is produced by itself, where nothing is held.
pub fn a_predicate_is_read_by_itself()
    ensures not_held { (b : Bound) → UnitFails b 0 (B_opening 1) [] [] (B_values 1) [] at_3_1 at_3_25 kind.Perm }
    ensures null { (b : Bound) → UnitFails b 0 (B_opening 0) [] [] (B_values 0) [] at_3_1 at_3_25 kind.Null }
{}
