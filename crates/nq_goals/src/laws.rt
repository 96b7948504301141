//! Laws of goals, moves and trees. The bodies are empty: what a caller gets is the law.
ghost use Rattle.nq_goals.specs.Forests.{UnsolvedIsFailureTree};
ghost use Rattle.nq_goals.specs.SimplifyingLaws.{SimplifyingLaws};
ghost use Rattle.nq_goals.specs.Matching.{InstancesAreTold, ExchangesAreTold};
ghost use Rattle.nq_goals.specs.Solving.{SolverLaws};
ghost use Rattle.nq_goals.specs.Normal.{NormalIsTold};
ghost use Rattle.nq_goals.specs.Spent.{HasOneCause};
ghost use Rattle.nq_goals.specs.Recursion.{RecursionIsTold};

/// The steps of an unsolved goal in preorder are a tree of a failure.
pub fn failure_trees()
    ensures { UnsolvedIsFailureTree }
{}

/// How a solver that goes depth first grows the steps of a failure.
pub fn solver_laws()
    ensures { SolverLaws }
{}

/// How simplifications are made of small ones.
pub fn simplifying_laws()
    ensures { SimplifyingLaws }
{}

/// The tests of instances and of exchanged variables are exact.
pub fn instance_tests()
    ensures instances { InstancesAreTold }
    ensures exchanges { ExchangesAreTold }
{}

/// The test of the normal form is exact.
pub fn normal_test()
    ensures { NormalIsTold }
{}

/// A goal is left over for one cause only.
pub fn one_cause()
    ensures { HasOneCause }
{}

/// In a history that meets the Definition Principle a definition has a measure exactly where it calls its own function.
pub fn recursion()
    ensures { RecursionIsTold }
{}
