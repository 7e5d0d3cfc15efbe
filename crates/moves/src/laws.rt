//! Laws of the moves, each as the contract of a function that does nothing.
ghost use Rattle.std.specs.Prelude.{List, All};
ghost use Rattle.vb_value.specs.Layout.{Layout};
ghost use Rattle.viper_state.specs.Event.{Event};
ghost use Rattle.viper_state.specs.Fits.{FitsEvent};
ghost use Rattle.viper_state.specs.Within.{IsWithinEvent};
ghost use Rattle.boogie_tree.specs.Values.{IsReducedChoice};
ghost use Rattle.moves.specs.Moves.{moves};
ghost use Rattle.moves.specs.Printable.{IsNamedMove, IsPrintableChoice, IsWithinMove};

/// In the moves of events that fit a program all fractions are in lowest terms.
pub fn moves_are_reduced()
    ensures { (layout : Layout) (events : List Event) → All (FitsEvent layout) events → All IsReducedChoice (moves events) }
{}

/// Where events are within the bound, so is each move of theirs.
pub fn moves_are_within()
    ensures { (events : List Event) → All IsWithinEvent events → All IsWithinMove (moves events) }
{}

/// The moves of events can be printed, where the events fit a program and are within the bound, and the moves name references
/// below 2^64.
pub fn moves_can_be_printed()
    ensures { (layout : Layout) (events : List Event) → All (FitsEvent layout) events → All IsWithinEvent events → All IsNamedMove (moves events) →
        All IsPrintableChoice (moves events) }
{}
