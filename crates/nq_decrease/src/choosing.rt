//! Which level of a nest the tests allow.
ghost use Rattle.std.specs.Prelude.{◌≡◌, All, true};
ghost use Rattle.nq_bank.specs.Content.{Stands, IsNamed, text_at, term_at, terms_at};
ghost use Rattle.nq_decrease.specs.Levels.{kind_at, level_at, list_level, one_level, number_level};
ghost use Rattle.nq_decrease.specs.Guards.{is_test_name};

use crate::guard::Guard;
use crate::guards::has_test;
use crate::kind::Kind;
use crate::level::Level;
use nq_bank::{Bank, Sym, TermId, ground};

/// The shell that has an accessor.
pub fn kind_of(bank: &Bank, f: Sym) -> Option<Kind>
    requires { IsNamed bank.now f }
    ensures { result ≡ kind_at (text_at bank.now f) }
{
    if bank.is_ground(f, ground::CAR) {
        Some(Kind::Pairs)
    } else if bank.is_ground(f, ground::CDR) {
        Some(Kind::Pairs)
    } else if bank.is_ground(f, ground::SUB1) {
        Some(Kind::Numbers)
    } else if bank.is_ground(f, ground::UNPACK) {
        Some(Kind::Atoms)
    } else if bank.is_ground(f, ground::NEGATIVE_GUTS) {
        Some(Kind::Negatives)
    } else {
        None
    }
}

/// One of two levels of a list, by the test that is there.
fn level_of_list(
    bank: &Bank,
    y: TermId,
    tests: &[TermId],
    plain: Level,
    by_no_atom: Level,
) -> Option<Level>
    requires y { Stands bank.now y }
    requires tests { All (Stands bank.now) tests.now }
    ensures { result ≡ list_level (term_at bank.now y) (terms_at bank.now tests.now) plain by_no_atom }
{
    if has_test(bank, Guard::Call(ground::LISTP), y, tests) {
        Some(plain)
    } else if has_test(bank, Guard::Denial(ground::NLISTP), y, tests) {
        Some(by_no_atom)
    } else {
        None
    }
}

/// A level, where its recognizer's test is there.
fn level_of_one(
    bank: &Bank,
    recognizer: Sym,
    y: TermId,
    tests: &[TermId],
    level: Level,
) -> Option<Level>
    requires recognizer { is_test_name recognizer ≡ true }
    requires y { Stands bank.now y }
    requires tests { All (Stands bank.now) tests.now }
    ensures { result ≡ one_level recognizer (term_at bank.now y) (terms_at bank.now tests.now) level }
{
    if has_test(bank, Guard::Call(recognizer), y, tests) {
        Some(level)
    } else {
        None
    }
}

/// A level of a number, by the tests that are there.
fn level_of_number(bank: &Bank, y: TermId, tests: &[TermId]) -> Option<Level>
    requires y { Stands bank.now y }
    requires tests { All (Stands bank.now) tests.now }
    ensures { result ≡ number_level (term_at bank.now y) (terms_at bank.now tests.now) }
{
    if has_test(bank, Guard::Denial(ground::ZEROP), y, tests) {
        Some(Level::OneLessByNoZero)
    } else if !has_test(bank, Guard::Call(ground::NUMBERP), y, tests) {
        None
    } else if has_test(bank, Guard::NoZero, y, tests) {
        Some(Level::OneLessOfNumber)
    } else if has_test(bank, Guard::NoZeroTurned, y, tests) {
        Some(Level::OneLessOfNumberTurned)
    } else {
        None
    }
}

/// The level of a nest where an accessor of the shell is applied to y, if the tests say that the constructor made y.
pub fn level_of(bank: &Bank, kind: Kind, f: Sym, y: TermId, tests: &[TermId]) -> Option<Level>
    requires function { IsNamed bank.now f }
    requires y { Stands bank.now y }
    requires tests { All (Stands bank.now) tests.now }
    ensures { result ≡ level_at kind (text_at bank.now f) (term_at bank.now y) (terms_at bank.now tests.now) }
{
    match kind {
        Kind::Pairs => {
            if bank.is_ground(f, ground::CAR) {
                level_of_list(bank, y, tests, Level::First, Level::FirstByNoAtom)
            } else if bank.is_ground(f, ground::CDR) {
                level_of_list(bank, y, tests, Level::Rest, Level::RestByNoAtom)
            } else {
                None
            }
        }
        Kind::Numbers => {
            if bank.is_ground(f, ground::SUB1) {
                level_of_number(bank, y, tests)
            } else {
                None
            }
        }
        Kind::Atoms => {
            if bank.is_ground(f, ground::UNPACK) {
                level_of_one(bank, ground::LITATOM, y, tests, Level::AtomPart)
            } else {
                None
            }
        }
        Kind::Negatives => {
            if bank.is_ground(f, ground::NEGATIVE_GUTS) {
                level_of_one(bank, ground::NEGATIVEP, y, tests, Level::NegativePart)
            } else {
                None
            }
        }
    }
}
