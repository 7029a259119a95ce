//! Why no instruction is read, as the contract of a function without work.

ghost use Rattle.teal_code.specs.FaultLaws.{FaultsAreTheGrammars};

/// Each fault of reading is what the grammar says of it.
pub fn faults_are_the_grammars()
    ensures { FaultsAreTheGrammars }
{}
