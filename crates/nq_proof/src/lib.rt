//! The rules of the log, each with the clause that it gives, and their soundness.
//!
//! One definition, `conclusion`, says which clause each rule gives after lines with clauses, or that the rule is not allowed
//! there. The kernel, the definition of a right log and the checker cite it, and nothing else says what a line may claim.
//! What any of its rules gives is derivable: `soundness` says so for the rules that rest on no arithmetic.
#![tactic(auto)]

ghost use Rattle.nq_proof.specs.Laws.{KeptSymbols, Soundness, LogSoundness, MoreLinesAllowMore, RulesMayBeRenumbered, ClassesChangeNothing, AcceptedShellsAreClosed};

/// The clause of a rule is derivable where the cited lines are.
pub fn soundness()
    ensures { Soundness }
{}

/// The clause of a rule is over the history's symbols.
pub fn kept_symbols()
    ensures { KeptSymbols }
{}

/// A rule that is allowed stays allowed when there are more lines.
pub fn more_lines()
    ensures { MoreLinesAllowMore }
{}

/// Line numbers are nothing but names of clauses.
pub fn renumbered_rules()
    ensures { RulesMayBeRenumbered }
{}

/// The rule classes of axioms and lemmas change nothing of what the rules allow.
pub fn rule_classes()
    ensures { ClassesChangeNothing }
{}

/// Shells that were accepted by the Shell Principle speak of the history's functions alone.
pub fn accepted_shells()
    ensures { AcceptedShellsAreClosed }
{}

/// What a log of allowed lines ends in is derivable.
pub fn log_soundness()
    ensures { LogSoundness }
{}
