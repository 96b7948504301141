//! Whether tests say that the constructor of a user's shell made a term, exactly.
ghost use Rattle.std.specs.Prelude.{◌≡◌, ◌||◌, ◌&&◌, All};
ghost use Rattle.nq_logic.specs.Terms.{Applied, Function, call};
ghost use Rattle.nq_logic.specs.Words.{equal_term, not_term};
ghost use Rattle.nq_bank.specs.Content.{IsNamed, Stands, term_at, terms_at, text_at};
ghost use Rattle.nq_bank.specs.Shells.{ShellStands, shell_at};
ghost use Rattle.nq_proof.specs.Clauses.{has_term, same_term};
ghost use Rattle.nq_decrease.specs.OwnGuards.{GuardIsExact, IsNoSuccessor, IsNoZero, IsOwnTest, IsUserShell, base_guard, guard_at, own_test};

use crate::calls::{call_of_one, denied, equation_of, is_same};
use crate::own_tests::{OwnGuard, OwnTest};
use nq_bank::{Bank, Node, Shell, Sym, TermId, is_same_name};

fn is_both(left: bool, right: bool) -> bool
    ensures { result ≡ (left && right) }
{
    left && right
}

fn is_either(left: bool, right: bool) -> bool
    ensures { result ≡ (left || right) }
{
    left || right
}

/// Is u the call of y by a function other than ADD1?
fn is_call_by(bank: &Bank, r: Sym, y: TermId, u: TermId) -> bool
    requires function { IsNoSuccessor bank.now r }
    requires y { Stands bank.now y }
    requires u { Stands bank.now u }
    ensures { result ≡ same_term (Applied (Function (text_at bank.now r)) (term_at bank.now y)) (term_at bank.now u) }
{
    match call_of_one(bank, u) {
        Some(c) => is_both(
            is_same_name(bank, c.function, r),
            is_same(bank, y, c.argument),
        ),
        None => false,
    }
}

/// Is the call of f on these arguments a constant?
fn is_constant_call(bank: &Bank, b: Sym, t: TermId, f: Sym, arguments: &[TermId]) -> bool
    requires constant { IsNamed bank.now b }
    requires function { IsNamed bank.now f }
    requires call { term_at bank.now t ≡ call (text_at bank.now f) (terms_at bank.now arguments.now) }
    ensures { result ≡ same_term (Function (text_at bank.now b)) (term_at bank.now t) }
{
    match arguments {
        [] => is_same_name(bank, b, f),
        _ => false,
    }
}

/// Is a term this constant, which is not ZERO?
fn is_constant(bank: &Bank, b: Sym, t: TermId) -> bool
    requires constant { IsNoZero bank.now b }
    requires term { Stands bank.now t }
    ensures { result ≡ same_term (Function (text_at bank.now b)) (term_at bank.now t) }
{
    match bank.node(t) {
        Node::App(f, _) => is_constant_call(bank, b, t, f, bank.args(t)),
        Node::Num(_) => false,
        Node::Var(_) => false,
    }
}

/// Is u the equation of y and the base?
fn is_base_equation(bank: &Bank, b: Sym, y: TermId, u: TermId) -> bool
    requires constant { IsNoZero bank.now b }
    requires y { Stands bank.now y }
    requires u { Stands bank.now u }
    ensures { result ≡ same_term (equal_term (term_at bank.now y) (Function (text_at bank.now b))) (term_at bank.now u) }
{
    match equation_of(bank, u) {
        Some(e) => is_both(is_same(bank, y, e.left), is_constant(bank, b, e.right)),
        None => false,
    }
}

/// Is u the equation of the base and y?
fn is_turned_equation(bank: &Bank, b: Sym, y: TermId, u: TermId) -> bool
    requires constant { IsNoZero bank.now b }
    requires y { Stands bank.now y }
    requires u { Stands bank.now u }
    ensures { result ≡ same_term (equal_term (Function (text_at bank.now b)) (term_at bank.now y)) (term_at bank.now u) }
{
    match equation_of(bank, u) {
        Some(e) => is_both(is_constant(bank, b, e.left), is_same(bank, y, e.right)),
        None => false,
    }
}

/// Is u the NOT of the equation of y and the base?
fn is_no_base(bank: &Bank, b: Sym, y: TermId, u: TermId) -> bool
    requires constant { IsNoZero bank.now b }
    requires y { Stands bank.now y }
    requires u { Stands bank.now u }
    ensures { result ≡ same_term (not_term (equal_term (term_at bank.now y) (Function (text_at bank.now b)))) (term_at bank.now u) }
{
    match denied(bank, u) {
        Some(v) => is_base_equation(bank, b, y, v),
        None => false,
    }
}

/// Is u the NOT of the equation of the base and y?
fn is_no_base_turned(bank: &Bank, b: Sym, y: TermId, u: TermId) -> bool
    requires constant { IsNoZero bank.now b }
    requires y { Stands bank.now y }
    requires u { Stands bank.now u }
    ensures { result ≡ same_term (not_term (equal_term (Function (text_at bank.now b)) (term_at bank.now y))) (term_at bank.now u) }
{
    match denied(bank, u) {
        Some(v) => is_turned_equation(bank, b, y, v),
        None => false,
    }
}

/// Is u this test of y?
fn is_own_test(bank: &Bank, test: OwnTest, y: TermId, u: TermId) -> bool
    requires test { IsOwnTest bank.now test }
    requires y { Stands bank.now y }
    requires u { Stands bank.now u }
    ensures { result ≡ same_term (own_test bank.now test (term_at bank.now y)) (term_at bank.now u) }
{
    match test {
        OwnTest::Recognizes(r) => is_call_by(bank, r, y, u),
        OwnTest::NoBase(b) => is_no_base(bank, b, y, u),
        OwnTest::NoBaseTurned(b) => is_no_base_turned(bank, b, y, u),
    }
}

/// Is this test of y among the tests?
fn has_own_test(bank: &Bank, test: OwnTest, y: TermId, tests: &[TermId]) -> bool
    requires test { IsOwnTest bank.now test }
    requires y { Stands bank.now y }
    requires tests { All (Stands bank.now) tests.now }
    ensures { result ≡ has_term (own_test bank.now test (term_at bank.now y)) (terms_at bank.now tests.now) }
{
    let mut found = false;
    for u in tests {
        let same = is_own_test(bank, test, y, *u);
        found = is_either(found, same);
    }
    found
}

/// How the tests say that y is not the base, if they do.
fn unequal(bank: &Bank, b: Sym, y: TermId, tests: &[TermId]) -> Option<OwnGuard>
    requires constant { IsNoZero bank.now b }
    requires y { Stands bank.now y }
    requires tests { All (Stands bank.now) tests.now }
    ensures { result ≡ base_guard (text_at bank.now b) (term_at bank.now y) (terms_at bank.now tests.now) }
{
    if has_own_test(bank, OwnTest::NoBase(b), y, tests) {
        Some(OwnGuard::Unequal)
    } else if has_own_test(bank, OwnTest::NoBaseTurned(b), y, tests) {
        Some(OwnGuard::UnequalTurned)
    } else {
        None
    }
}

/// How the tests say that the constructor of a user's shell made y, if they do.
pub fn own_guard(bank: &Bank, shell: &Shell, y: TermId, tests: &[TermId]) -> Option<OwnGuard>
    requires stands { ShellStands bank.now shell.now }
    requires user { IsUserShell (shell_at bank.now shell.now) }
    requires y { Stands bank.now y }
    requires tests { All (Stands bank.now) tests.now }
    ensures { result ≡ guard_at (shell_at bank.now shell.now) (term_at bank.now y) (terms_at bank.now tests.now) }
{
    if !has_own_test(bank, OwnTest::Recognizes(shell.recognizer), y, tests) {
        return None;
    }
    match shell.base {
        None => Some(OwnGuard::Recognized),
        Some(b) => unequal(bank, b, y, tests),
    }
}

/// The tests say that a user's shell has made a term exactly where there is a guard. It does nothing.
pub fn guard_is_exact()
    ensures { GuardIsExact }
{}
