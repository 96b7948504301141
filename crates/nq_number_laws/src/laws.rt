//! The laws of numbers that show facts. They are printed.
ghost use Rattle.std.specs.Prelude.{◌∷◌, [], IsSome};
ghost use Rattle.nq_replay.specs.LawClauses.{size_falls_clause};
ghost use Rattle.nq_replay.specs.Replaying.{law_clause};

use crate::tables::below_is_less::BELOW_IS_LESS;
use crate::tables::difference_is_enough::DIFFERENCE_IS_ENOUGH;
use crate::tables::difference_is_exact::DIFFERENCE_IS_EXACT;
use crate::tables::difference_is_no_more::DIFFERENCE_IS_NO_MORE;
use crate::tables::difference_is_none::DIFFERENCE_IS_NONE;
use crate::tables::difference_is_number::DIFFERENCE_IS_NUMBER;
use crate::tables::fix_is_enough::FIX_IS_ENOUGH;
use crate::tables::fix_is_no_more::FIX_IS_NO_MORE;
use crate::tables::fix_is_number::FIX_IS_NUMBER;
use crate::tables::less_is_below::LESS_IS_BELOW;
use crate::tables::less_is_truth::LESS_IS_TRUTH;
use crate::tables::nested_test::NESTED_TEST;
use crate::tables::no_first::NO_FIRST;
use crate::tables::no_rest::NO_REST;
use crate::tables::number_is_more::NUMBER_IS_MORE;
use crate::tables::number_is_more_turned::NUMBER_IS_MORE_TURNED;
use crate::tables::numbers_compare::NUMBERS_COMPARE;
use crate::tables::one_less_is_enough::ONE_LESS_IS_ENOUGH;
use crate::tables::one_less_is_no_more::ONE_LESS_IS_NO_MORE;
use crate::tables::one_less_is_number::ONE_LESS_IS_NUMBER;
use crate::tables::one_less_of_positive::ONE_LESS_OF_POSITIVE;
use crate::tables::one_less_of_zero::ONE_LESS_OF_ZERO;
use crate::tables::one_more_is_number::ONE_MORE_IS_NUMBER;
use crate::tables::positive_is_more::POSITIVE_IS_MORE;
use crate::tables::positive_is_number::POSITIVE_IS_NUMBER;
use crate::tables::product_is_number::PRODUCT_IS_NUMBER;
use crate::tables::product_of_positive::PRODUCT_OF_POSITIVE;
use crate::tables::quotient_is_number::QUOTIENT_IS_NUMBER;
use crate::tables::size_is_number::SIZE_IS_NUMBER;
use crate::tables::size_of_number::SIZE_OF_NUMBER;
use crate::tables::size_of_pair::SIZE_OF_PAIR;
use crate::tables::size_of_positive::SIZE_OF_POSITIVE;
use crate::tables::sum_is_number::SUM_IS_NUMBER;
use crate::tables::turned_test::TURNED_TEST;
use crate::tables::zero_is_no_more::ZERO_IS_NO_MORE;
use crate::tables::zero_is_number::ZERO_IS_NUMBER;
use nq_replay::Law;

/// A law from axioms alone.
#[derive(Clone, Copy, Debug, PartialEq, Eq)]
pub enum PlainLaw {
    /// `(NUMBERP (PLUS X Y))`.
    SumIsNumber,
    /// `(NUMBERP (QUOTIENT X Y))`.
    QuotientIsNumber,
    /// `(NUMBERP (COUNT X))`.
    SizeIsNumber,
    /// `(NUMBERP (ADD1 X))`.
    OneMoreIsNumber,
    /// `(NUMBERP (SUB1 X))`.
    OneLessIsNumber,
    /// `(NUMBERP (FIX X))`.
    FixIsNumber,
    /// `(NUMBERP 0)`.
    ZeroIsNumber,
    /// `(NUMBERP X)`, `(NOT (LESSP 0 X))`.
    PositiveIsNumber,
    /// `(ZEROP X)`, `(LESSP 0 X)`.
    PositiveIsMore,
    /// `(NOT (ZEROP X))`, `(NOT (LESSP 0 X))`.
    ZeroIsNoMore,
    /// `(LESSP 0 X)`, `(NOT (NUMBERP X))`, `(EQUAL X 0)`.
    NumberIsMore,
    /// `(LESSP 0 Y)`, `(NOT (NUMBERP Y))`, `(EQUAL 0 Y)`.
    NumberIsMoreTurned,
    /// `(NOT (NUMBERP X))`, `(NOT (NUMBERP Y))`, `(LESSP X Y)`, `(NOT (ORD-LESSP X Y))`.
    BelowIsLess,
    /// `(NOT (NUMBERP X))`, `(NOT (NUMBERP Y))`, `(ORD-LESSP X Y)`, `(NOT (LESSP X Y))`.
    LessIsBelow,
    /// `(EQUAL (ADD1 (SUB1 X)) X)`, `(NOT (LESSP 0 X))`.
    OneLessOfPositive,
    /// `(LESSP 0 X)`, `(EQUAL (SUB1 X) 0)`.
    OneLessOfZero,
    /// `(LISTP X)`, `(EQUAL (COUNT (CAR X)) 0)`.
    NoFirst,
    /// `(LISTP X)`, `(EQUAL (COUNT (CDR X)) 0)`.
    NoRest,
    /// `(EQUAL (COUNT (CONS X Y)) (ADD1 (PLUS (COUNT X) (COUNT Y))))`.
    SizeOfPair,
    /// `(EQUAL (TIMES X Y) (PLUS Y (TIMES (SUB1 X) Y)))`, `(NOT (LESSP 0 X))`.
    ProductOfPositive,
    /// `(EQUAL (IF (NOT A) X Y) (IF A Y X))`.
    TurnedTest,
    /// `(EQUAL (IF (IF A B Z) X Y) (IF A (IF B X Y) (IF Z X Y)))`.
    NestedTest,
}

/// A law by induction on a size, which falls where a number gets one less.
#[derive(Clone, Copy, Debug, PartialEq, Eq)]
pub enum InductiveLaw {
    /// `(NUMBERP (TIMES X Y))`.
    ProductIsNumber,
    /// `(NUMBERP (DIFFERENCE X Y))`.
    DifferenceIsNumber,
    /// `(NOT (NUMBERP Y))`, `(NOT (NUMBERP X))`, `(LESSP Y X)`, `(LESSP X Y)`, `(EQUAL X Y)`.
    NumbersCompare,
    /// `(NOT (LESSP X Y))`, `(EQUAL (LESSP X Y) T)`.
    LessIsTruth,
    /// `(NOT (LESSP (FIX X) X))`.
    FixIsEnough,
    /// `(NOT (LESSP X (FIX X)))`.
    FixIsNoMore,
    /// `(NOT (LESSP X (SUB1 X)))`.
    OneLessIsNoMore,
    /// `(NOT (LESSP (ADD1 (SUB1 X)) X))`.
    OneLessIsEnough,
    /// `(NOT (LESSP X (DIFFERENCE X Y)))`.
    DifferenceIsNoMore,
    /// `(NOT (LESSP (PLUS Y (DIFFERENCE X Y)) X))`.
    DifferenceIsEnough,
    /// `(LESSP X Y)`, `(NOT (LESSP X (PLUS Y (DIFFERENCE X Y))))`.
    DifferenceIsExact,
    /// `(LESSP Y X)`, `(NOT (LESSP 0 (DIFFERENCE X Y)))`.
    DifferenceIsNone,
    /// `(NOT (NUMBERP X))`, `(EQUAL (COUNT X) X)`.
    SizeOfNumber,
    /// `(NOT (LESSP 0 X))`, `(EQUAL (COUNT X) X)`.
    SizeOfPositive,
}

/// The table of a law from axioms alone.
pub fn plain_table(law: PlainLaw) -> Law
    ensures { IsSome (law_clause result []) }
{
    match law {
        PlainLaw::SumIsNumber => SUM_IS_NUMBER,
        PlainLaw::QuotientIsNumber => QUOTIENT_IS_NUMBER,
        PlainLaw::SizeIsNumber => SIZE_IS_NUMBER,
        PlainLaw::OneMoreIsNumber => ONE_MORE_IS_NUMBER,
        PlainLaw::OneLessIsNumber => ONE_LESS_IS_NUMBER,
        PlainLaw::FixIsNumber => FIX_IS_NUMBER,
        PlainLaw::ZeroIsNumber => ZERO_IS_NUMBER,
        PlainLaw::PositiveIsNumber => POSITIVE_IS_NUMBER,
        PlainLaw::PositiveIsMore => POSITIVE_IS_MORE,
        PlainLaw::ZeroIsNoMore => ZERO_IS_NO_MORE,
        PlainLaw::NumberIsMore => NUMBER_IS_MORE,
        PlainLaw::NumberIsMoreTurned => NUMBER_IS_MORE_TURNED,
        PlainLaw::BelowIsLess => BELOW_IS_LESS,
        PlainLaw::LessIsBelow => LESS_IS_BELOW,
        PlainLaw::OneLessOfPositive => ONE_LESS_OF_POSITIVE,
        PlainLaw::OneLessOfZero => ONE_LESS_OF_ZERO,
        PlainLaw::NoFirst => NO_FIRST,
        PlainLaw::NoRest => NO_REST,
        PlainLaw::SizeOfPair => SIZE_OF_PAIR,
        PlainLaw::ProductOfPositive => PRODUCT_OF_POSITIVE,
        PlainLaw::TurnedTest => TURNED_TEST,
        PlainLaw::NestedTest => NESTED_TEST,
    }
}

/// The table of a law by induction, after the line that a size falls.
pub fn inductive_table(law: InductiveLaw) -> Law
    ensures { IsSome (law_clause result (size_falls_clause ∷ [])) }
{
    match law {
        InductiveLaw::ProductIsNumber => PRODUCT_IS_NUMBER,
        InductiveLaw::DifferenceIsNumber => DIFFERENCE_IS_NUMBER,
        InductiveLaw::NumbersCompare => NUMBERS_COMPARE,
        InductiveLaw::LessIsTruth => LESS_IS_TRUTH,
        InductiveLaw::FixIsEnough => FIX_IS_ENOUGH,
        InductiveLaw::FixIsNoMore => FIX_IS_NO_MORE,
        InductiveLaw::OneLessIsNoMore => ONE_LESS_IS_NO_MORE,
        InductiveLaw::OneLessIsEnough => ONE_LESS_IS_ENOUGH,
        InductiveLaw::DifferenceIsNoMore => DIFFERENCE_IS_NO_MORE,
        InductiveLaw::DifferenceIsEnough => DIFFERENCE_IS_ENOUGH,
        InductiveLaw::DifferenceIsExact => DIFFERENCE_IS_EXACT,
        InductiveLaw::DifferenceIsNone => DIFFERENCE_IS_NONE,
        InductiveLaw::SizeOfNumber => SIZE_OF_NUMBER,
        InductiveLaw::SizeOfPositive => SIZE_OF_POSITIVE,
    }
}
