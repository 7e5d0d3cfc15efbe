//! The law of the frame, as the contract of a function that does nothing.

ghost use Rattle.viper_exec_meaning.specs.Frame.{FramesHold};

/// Where no unit of a formed program without `inhale`, `assume` and `wildcard` fails, no execution of its methods does, from any
/// opening that fits, on any choices, and within any budget: whatever the callers hold besides, and however often loops
/// turn and methods call one another. So it is with the bound of numbers and without it.
pub fn where_no_unit_fails_no_execution_does()
    ensures { FramesHold }
{}
