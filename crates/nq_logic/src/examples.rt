//! The definitions at work: the tables as they are written, and examples that are computed. Each expected value comes from
//! the table or the meaning of the function, and from no definition here.

ghost use Rattle.nq_logic.specs.TermExamples.{TermsAreTold, LiteralsAreTerms, SubstitutionsCompute, FormulasAreRead, NumeralsEnd, ValuesAreTold, SizesAreTold};
ghost use Rattle.nq_logic.specs.DerivationExamples.{RulesOfLogic, AxiomsOfLogic};
ghost use Rattle.nq_logic.specs.GroundTable.{IsGroundTable};
ghost use Rattle.nq_logic.specs.ValueExamples.{TruthFunctionsCompute, NumberFunctionsCompute, ListFunctionsCompute, OrdinalFunctionsCompute};
ghost use Rattle.nq_logic.specs.ShellTable.{ShellRows};
ghost use Rattle.nq_logic.specs.ShellExamples.{ShellsAccepted, ShellsRefusedFor};
ghost use Rattle.nq_logic.specs.DefinitionExamples.{ObligationsCompute, AdmissibleDefinitions, RecursionFalls, NoMeasureByItself};
ghost use Rattle.nq_logic.specs.NameExamples.{NamesInUse, NamesEnabled, EventsFound};
ghost use Rattle.nq_logic.specs.RuleExamples.{RewriteShapes, ElimShapes, GeneralizeShapes, PermutativeRules};

/// Substitution, formulas, numerals, values and sizes of terms.
pub fn terms()
    ensures terms { TermsAreTold }
    ensures literals { LiteralsAreTerms }
    ensures substitutions { SubstitutionsCompute }
    ensures formulas { FormulasAreRead }
    ensures numerals { NumeralsEnd }
    ensures values { ValuesAreTold }
    ensures sizes { SizesAreTold }
{}

/// The rules of inference, and the axioms.
pub fn rules_of_logic()
    ensures rules { RulesOfLogic }
    ensures axioms { AxiomsOfLogic }
{}

/// The ground history is the table of functions, definitions and measures.
pub fn ground_table()
    ensures { IsGroundTable }
{}

/// What the ground definitions compute.
pub fn definitions_compute()
    ensures truth { TruthFunctionsCompute }
    ensures numbers { NumberFunctionsCompute }
    ensures lists { ListFunctionsCompute }
    ensures ordinals { OrdinalFunctionsCompute }
{}

/// The clauses of the ground shells and of a shell with a base and two parts.
pub fn shell_rows()
    ensures { ShellRows }
{}

/// Shells that the Shell Principle accepts, and others with their refusals.
pub fn shells()
    ensures accepted { ShellsAccepted }
    ensures refused { ShellsRefusedFor }
{}

/// What is to be shown of recursive calls, and definitions that the Definition Principle admits or not.
pub fn definitions()
    ensures obligations { ObligationsCompute }
    ensures admissible { AdmissibleDefinitions }
    ensures recursive { RecursionFalls }
    ensures by_itself { NoMeasureByItself }
{}

/// Names in use, enabled names, and events by name.
pub fn names()
    ensures in_use { NamesInUse }
    ensures enabled { NamesEnabled }
    ensures events { EventsFound }
{}

/// Terms that can serve as rules of each class, and permutative rules.
pub fn rules()
    ensures rewrite { RewriteShapes }
    ensures elim { ElimShapes }
    ensures generalize { GeneralizeShapes }
    ensures permutative { PermutativeRules }
{}
