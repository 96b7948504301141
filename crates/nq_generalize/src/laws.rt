//! What GEN's definition promises. The function's contract is the law and its body is empty.
ghost use Rattle.nq_generalize.specs.Laws.{NewVariablesAreNew};

/// The variables that come in are in no term of the goal, nor of an earlier goal of its path.
pub fn new_variables_are_new()
    ensures { NewVariablesAreNew }
{}
