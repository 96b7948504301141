//! Derivable clauses lead to derivable clauses.

ghost use Rattle.nq_logic.specs.Laws.{MoreLiterals, ExcludedMiddle, Cut, Instance, Reflexivity, Replacement, Join, SplitFirst, SplitSecond, DoubleNegation, Induction, TruthHolds, FalsityDoesNot, SizeIsNumber, OneLessIsLess, FalsityIsOnlyFalsity, EqualIsTruthValue, IfOfFalsity, IfOfTruth};
ghost use Rattle.nq_logic.specs.Shapes.{Tautology};

/// A clause with the same literals and perhaps more, in any order and number, is derivable.
pub fn more_literals()
    ensures { MoreLiterals }
{}

/// A clause with a literal and its NOT is derivable.
pub fn excluded_middle()
    ensures { ExcludedMiddle }
{}

/// Two derivable clauses, joined without a literal of the one and its NOT of the other, are derivable.
pub fn cut()
    ensures { Cut }
{}

/// A derivable clause is derivable with terms in place of variables.
pub fn instance()
    ensures { Instance }
{}

/// `(EQUAL t t)` is derivable.
pub fn reflexivity()
    ensures { Reflexivity }
{}

/// Equals may stand in the place of equals within a literal.
pub fn replacement()
    ensures { Replacement }
{}

/// Two clauses on the two sides of a test give one with the IF.
pub fn join()
    ensures { Join }
{}

/// A clause with an IF gives one for each of its sides.
pub fn split()
    ensures first { SplitFirst }
    ensures second { SplitSecond }
{}

/// A literal may stand in the place of the NOT of its NOT.
pub fn double_negation()
    ensures { DoubleNegation }
{}

/// A term that is true whatever the values of its parts are is derivable.
pub fn tautology()
    ensures { Tautology }
{}

/// Induction over the ordinals, on clauses.
pub fn induction()
    ensures { Induction }
{}

/// The rows of the table of ground axioms: on T and F, EQUAL, IF, COUNT and LESSP.
pub fn ground_rows()
    ensures truth { TruthHolds }
    ensures no_falsity { FalsityDoesNot }
    ensures falsity { FalsityIsOnlyFalsity }
    ensures equal { EqualIsTruthValue }
    ensures if_false { IfOfFalsity }
    ensures if_true { IfOfTruth }
    ensures size { SizeIsNumber }
    ensures one_less { OneLessIsLess }
{}
