//! Arithmetic: the laws that the two rules of arithmetic rest on, and so the soundness of every rule of the log.
//!
//! VALUE and LINEAR are shown sound from printed laws, which are derivations on terms with variables. So the layers above
//! cite `full_soundness`: what a rule of the log gives is derivable. The named laws, the descents through the parts of a
//! shell, and definitions and rows at terms are for their own proofs.
#![tactic(auto)]

ghost use Rattle.nq_arith.specs.NumeralLaws.{NumeralIsNumber, SumOfNumerals, ProductOfNumerals, DifferenceOfNumerals, QuotientOfNumerals, RemainderOfNumerals, LessOfNumerals};
ghost use Rattle.nq_arith.specs.Laws.{ValueHolds, LinearHolds, FullSoundness, FullLogSoundness};
ghost use Rattle.nq_arith.specs.Structural.{StructuralIsMeasured};
ghost use Rattle.nq_arith.specs.Openings.{DefinitionAtTerms, RowAtTerms};
ghost use Rattle.nq_arith.specs.Nests.{PartIsSmaller, NestIsSmaller};
ghost use Rattle.nq_arith.specs.NamedLaws.{SumIsNumber, SumCommutes, SumAssociates, LessIsIrreflexive, SizeIsOrdinal, NumberIsOrdinal, LessIsTransitive, SumIsMonotone, ProductDistributes, OrdinalLessIsLess, FirstIsSmaller, RestIsSmaller};

/// PLUS is a number, commutes and associates.
pub fn plus_laws()
    ensures number { SumIsNumber }
    ensures commutes { SumCommutes }
    ensures associates { SumAssociates }
{}

/// LESSP is irreflexive, transitive and monotone in PLUS, and ORD-LESSP is LESSP where neither is a list.
pub fn less_laws()
    ensures irreflexive { LessIsIrreflexive }
    ensures transitive { LessIsTransitive }
    ensures monotone { SumIsMonotone }
    ensures ordinals { OrdinalLessIsLess }
{}

/// The size of a term is an ordinal, a term as a number is one, and the parts of a pair are smaller than the pair.
pub fn measure_laws()
    ensures size { SizeIsOrdinal }
    ensures number { NumberIsOrdinal }
    ensures first { FirstIsSmaller }
    ensures rest { RestIsSmaller }
{}

/// TIMES distributes over PLUS.
pub fn times_laws()
    ensures { ProductDistributes }
{}

/// The values of functions of numbers on numerals.
pub fn numeral_values()
    ensures number { NumeralIsNumber }
    ensures sum { SumOfNumerals }
    ensures product { ProductOfNumerals }
    ensures difference { DifferenceOfNumerals }
    ensures quotient { QuotientOfNumerals }
    ensures remainder { RemainderOfNumerals }
    ensures less { LessOfNumerals }
{}

/// A call on values equals its value by the table.
pub fn value_holds()
    ensures { ValueHolds }
{}

/// Literals whose expressions have a negative sum without positive factors are not all false.
pub fn linear_holds()
    ensures { LinearHolds }
{}

/// The clause of each rule is derivable where the cited lines are.
pub fn full_soundness()
    ensures { FullSoundness }
{}

/// What a log ends in is derivable, with rules of arithmetic too.
pub fn full_log_soundness()
    ensures { FullLogSoundness }
{}

/// A part of a value that a shell made is smaller than the value.
pub fn part_is_smaller()
    ensures { PartIsSmaller }
{}

/// A nest of a shell's accessors is smaller than what it is around, where the tests of each level hold.
pub fn nest_is_smaller()
    ensures { NestIsSmaller }
{}

/// A call of a defined function equals the body at its arguments.
pub fn definition_at_terms()
    ensures { DefinitionAtTerms }
{}

/// A row of a shell's table holds at terms.
pub fn row_at_terms()
    ensures { RowAtTerms }
{}

/// The size of a structural formal is a measure of the definition.
pub fn structural_is_measured()
    ensures { StructuralIsMeasured }
{}
