//! Which tests stand among others, and which part they say is smaller.
ghost use Rattle.std.specs.Prelude.{◌≡◌, ◌||◌, ◌&&◌, All, true};
ghost use Rattle.nq_logic.specs.Words.{not_term, equal_term, zero_term};
ghost use Rattle.nq_bank.specs.Content.{Stands, IsNamed, text_at, term_at, terms_at};
ghost use Rattle.nq_proof.specs.Clauses.{same_term, has_term};
ghost use Rattle.nq_decrease.specs.Guards.{IsGuardNamed, is_test_name, call_of, test_of};

use crate::calls::{call_of_one, denied, equation_of, is_same, is_zero};
use crate::guard::Guard;
use nq_bank::{Bank, Sym, TermId};

fn is_both(left: bool, right: bool) -> bool
    ensures { result ≡ (left && right) }
{
    left && right
}

fn is_either(left: bool, right: bool) -> bool
    ensures { result ≡ (left || right) }
{
    left || right
}

/// Is u the call of y by a ground function?
fn is_call_of(bank: &Bank, f: Sym, y: TermId, u: TermId) -> bool
    requires function { is_test_name f ≡ true }
    requires y { Stands bank.now y }
    requires u { Stands bank.now u }
    ensures { result ≡ same_term (call_of f (term_at bank.now y)) (term_at bank.now u) }
{
    match call_of_one(bank, u) {
        Some(c) => is_both(bank.is_ground(c.function, f), is_same(bank, y, c.argument)),
        None => false,
    }
}

/// Is u the NOT of the call of y by a ground function?
fn is_denied_call(bank: &Bank, f: Sym, y: TermId, u: TermId) -> bool
    requires function { is_test_name f ≡ true }
    requires y { Stands bank.now y }
    requires u { Stands bank.now u }
    ensures { result ≡ same_term (not_term (call_of f (term_at bank.now y))) (term_at bank.now u) }
{
    match denied(bank, u) {
        Some(v) => is_call_of(bank, f, y, v),
        None => false,
    }
}

/// Is u the equation of y and 0?
fn is_zero_equation(bank: &Bank, y: TermId, u: TermId) -> bool
    requires y { Stands bank.now y }
    requires u { Stands bank.now u }
    ensures { result ≡ same_term (equal_term (term_at bank.now y) zero_term) (term_at bank.now u) }
{
    match equation_of(bank, u) {
        Some(e) => is_both(is_same(bank, y, e.left), is_zero(bank, e.right)),
        None => false,
    }
}

/// Is u the equation of 0 and y?
fn is_turned_equation(bank: &Bank, y: TermId, u: TermId) -> bool
    requires y { Stands bank.now y }
    requires u { Stands bank.now u }
    ensures { result ≡ same_term (equal_term zero_term (term_at bank.now y)) (term_at bank.now u) }
{
    match equation_of(bank, u) {
        Some(e) => is_both(is_zero(bank, e.left), is_same(bank, y, e.right)),
        None => false,
    }
}

/// Is u the NOT of the equation of y and 0?
fn is_no_zero(bank: &Bank, y: TermId, u: TermId) -> bool
    requires y { Stands bank.now y }
    requires u { Stands bank.now u }
    ensures { result ≡ same_term (not_term (equal_term (term_at bank.now y) zero_term)) (term_at bank.now u) }
{
    match denied(bank, u) {
        Some(v) => is_zero_equation(bank, y, v),
        None => false,
    }
}

/// Is u the NOT of the equation of 0 and y?
fn is_no_zero_turned(bank: &Bank, y: TermId, u: TermId) -> bool
    requires y { Stands bank.now y }
    requires u { Stands bank.now u }
    ensures { result ≡ same_term (not_term (equal_term zero_term (term_at bank.now y))) (term_at bank.now u) }
{
    match denied(bank, u) {
        Some(v) => is_turned_equation(bank, y, v),
        None => false,
    }
}

/// Is u this test of y?
fn is_test(bank: &Bank, guard: Guard, y: TermId, u: TermId) -> bool
    requires function { IsGuardNamed guard }
    requires y { Stands bank.now y }
    requires u { Stands bank.now u }
    ensures { result ≡ same_term (test_of guard (term_at bank.now y)) (term_at bank.now u) }
{
    match guard {
        Guard::Call(f) => is_call_of(bank, f, y, u),
        Guard::Denial(f) => is_denied_call(bank, f, y, u),
        Guard::NoZero => is_no_zero(bank, y, u),
        Guard::NoZeroTurned => is_no_zero_turned(bank, y, u),
    }
}

/// Is this test of y among the tests?
pub fn has_test(bank: &Bank, guard: Guard, y: TermId, tests: &[TermId]) -> bool
    requires function { IsGuardNamed guard }
    requires y { Stands bank.now y }
    requires tests { All (Stands bank.now) tests.now }
    ensures { result ≡ has_term (test_of guard (term_at bank.now y)) (terms_at bank.now tests.now) }
{
    let mut found = false;
    for u in tests {
        let same = is_test(bank, guard, y, *u);
        found = is_either(found, same);
    }
    found
}
