//! Evaluation at work: examples that are computed. Each expected value comes from the meaning of the functions.

ghost use Rattle.nq_fragments.specs.EvaluationExamples.{SumsHaveValues, DefinitionsAreOpened, RecursionIsOpened, ShellsHaveValues, OneSideIsTaken, SizesAreOpened, DeclaredFunctionsBlock, DeepestNesting, DeeperNesting, FuelEnds, FragmentHolds};

/// Rows of the table, definitions, shells, and the sides of IF.
pub fn values()
    ensures sums { SumsHaveValues }
    ensures definitions { DefinitionsAreOpened }
    ensures recursion { RecursionIsOpened }
    ensures shells { ShellsHaveValues }
    ensures sides { OneSideIsTaken }
    ensures sizes { SizesAreOpened }
{}

/// Terms without a value.
pub fn no_values()
    ensures declared { DeclaredFunctionsBlock }
    ensures deepest { DeepestNesting }
    ensures deeper { DeeperNesting }
    ensures fuel { FuelEnds }
{}

/// Lemmas in the fragment of evaluation, a false one, and others.
pub fn fragment()
    ensures { FragmentHolds }
{}
