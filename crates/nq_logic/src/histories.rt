//! What holds of terms, of whole histories and of the tests on them.

ghost use Rattle.nq_logic.specs.Laws.{CallsDiffer};
ghost use Rattle.nq_logic.specs.Trees.{TreesAgree, Growth};
ghost use Rattle.nq_logic.specs.Tests.{NumeralsHaveNumbers, NumbersAreOfNumerals, NamesFound, NamesWithin, NamesDistinct, VariablesTold, TermsTold, ShellsRefused, FirstRepeated, FirstOutside, FirstFree, ShapesTold};
ghost use Rattle.nq_logic.specs.Additions.{LemmasAddNothing, DeclarationsAddNoAxiom};
ghost use Rattle.nq_logic.specs.Classes.{ClassesChangeNothing};
ghost use Rattle.nq_logic.specs.ShellTable.{OneClauseForRow, BaseRowsNeedBase};

/// Calls are equal only where their functions and arguments are.
pub fn calls_differ()
    ensures { CallsDiffer }
{}

/// The terms that have a number are the numerals below the limit.
pub fn numerals_have_numbers()
    ensures numerals { NumeralsHaveNumbers }
    ensures numbers { NumbersAreOfNumerals }
{}

/// Lists and trees of inferences derive the same formulas.
pub fn trees_agree()
    ensures { TreesAgree }
{}

/// What is derivable stays derivable when events are added.
pub fn growth()
    ensures { Growth }
{}

/// Lemmas, toggles and declarations add no axioms: a lemma that was proved can be left out.
pub fn lemmas_add_nothing()
    ensures lemmas { LemmasAddNothing }
    ensures declarations { DeclarationsAddNoAxiom }
{}

/// Rule classes change nothing of what follows from a history.
pub fn classes_change_nothing()
    ensures { ClassesChangeNothing }
{}

/// What the tests on names tell.
pub fn names_tested()
    ensures found { NamesFound }
    ensures within { NamesWithin }
    ensures distinct { NamesDistinct }
{}

/// What the test on the variables of a term tells.
pub fn variables_tested()
    ensures { VariablesTold }
{}

/// What the test on the functions of a term tells.
pub fn terms_tested()
    ensures { TermsTold }
{}

/// A shell is not refused exactly where the Shell Principle accepts it and there is room.
pub fn shells_refused()
    ensures { ShellsRefused }
{}

/// No name is the first that fails exactly where none fails.
pub fn first_names_tested()
    ensures repeated { FirstRepeated }
    ensures outside { FirstOutside }
    ensures free { FirstFree }
{}

/// What the test on the shape of a rule tells.
pub fn shapes_tested()
    ensures { ShapesTold }
{}

/// A row of the table of shell axioms has one clause for each part and each earlier shell, and the rows that speak of
/// the base are there only with a base.
pub fn shell_rows_are_single()
    ensures single { OneClauseForRow }
    ensures base { BaseRowsNeedBase }
{}
