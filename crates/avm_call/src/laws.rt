//! The laws of runs and calls, each the contract of a function without work.

ghost use Rattle.avm_call.specs.Ends.{PathsEnd, StepsAreInstructions, CheckedIsLaidOut, CheckedStepsAreInstructions, CallsAskLittle};
ghost use Rattle.avm_call.specs.Places.{OutcomesHavePlaces};

/// Every path of a program ends, and asks for at most three items a step.
pub fn paths_end()
    ensures { PathsEnd }
{}

/// A path has at most as many steps as its program has instructions, and one at its end.
pub fn steps_are_instructions()
    ensures { StepsAreInstructions }
{}

/// A checked program's instructions stand one behind another, its branches lead to one of them or the end, and its path
/// has at most as many steps as it has instructions, and one at its end.
pub fn checked_programs()
    ensures laid_out { CheckedIsLaidOut }
    ensures steps { CheckedStepsAreInstructions }
{}

/// A call asks for at most two items before its program, and for three at each of at most 700 instructions.
pub fn calls_ask_little()
    ensures { CallsAskLittle }
{}

/// A fault of a call is at a place of a program, or at its end: at most 1024.
pub fn outcomes_have_places()
    ensures { OutcomesHavePlaces }
{}
