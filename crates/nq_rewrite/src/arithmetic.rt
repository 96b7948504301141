//! What linear arithmetic knows of a test that compares numbers: `(LESSP A C)` is true where `(LESSP A B)` and `(LESSP B C)` are
//! assumed.
//!
//! The test, or its NOT, and the opposites of what is assumed are a goal that is refuted. Which tests are asked about decides only
//! what is tried.
ghost use Rattle.std.specs.Prelude.{◌≡◌, ◌∷◌, ◌++◌, [], All, IfOk, IfSome, OnOk, Err};
ghost use Rattle.nq_bank.specs.Content.{Stands, term_at, terms_at};
ghost use Rattle.nq_kernel.specs.Growing.{WorkGrows, WorkStands};
ghost use Rattle.nq_instances.specs.Parts.{IsLine};
ghost use Rattle.nq_lines.specs.Lines.{IsTermIn, LineHasOnly};
ghost use Rattle.nq_reduce.specs.Rewriting.{CanRewrite, IsKnown, denials};

use crate::comparable::{is_comparable, is_relievable};
use crate::search::{NUMBERS, Search, mixed};
use crate::terms::{is_call_of, shares_variable, variables_of};
use crate::way::Way;
use nq_arithmetic::arithmetic_line;
use nq_bank::{Bank, TermId, ground};
use nq_history::{Hints, History};
use nq_kernel::{Stop, Work};
use nq_lines::deny;
use nq_reduce::{Known, argument_of, kept_among};

/// How often arithmetic is asked in the rewriting of one literal.
const ASK_LIMIT: u32 = 12;

/// The most nodes of a test that arithmetic is asked about.
pub const NODE_LIMIT: u64 = 60;

/// The most literals of a goal of arithmetic.
const TOLD_LIMIT: usize = 8;

/// What stands under the NOT of an assumption.
pub fn denied(work: &Work, history: &History, a: TermId) -> Option<TermId>
    requires stands { WorkStands history.now work.now }
    requires term { IsTermIn history.now work.now a }
    ensures { IfSome result (IsTermIn history.now work.now) }
{
    if !is_call_of(&work.bank, ground::NOT, a) {
        return None;
    }
    match argument_of(work, history, a, 1) {
        Some(b) => Some(b),
        None => None,
    }
}

/// Is a term a comparison of two numbers by LESSP or EQUAL?
fn is_comparison(bank: &Bank, t: TermId) -> bool
    requires { Stands bank.now t }
{
    is_call_of(bank, ground::LESSP, t) || is_call_of(bank, ground::EQUAL, t)
}

/// What stands under the NOT of an assumption, or the assumption itself.
pub fn plain_of(work: &Work, history: &History, a: TermId) -> TermId
    requires stands { WorkStands history.now work.now }
    requires term { IsTermIn history.now work.now a }
    ensures { IsTermIn history.now work.now result }
{
    match denied(work, history, a) {
        Some(b) => b,
        None => a,
    }
}

/// Has an assumption one of these variables, and does it compare two terms, or say of one whether it is a number?
fn tells_numbers(work: &Work, history: &History, variables: u64, a: TermId) -> bool
    requires stands { WorkStands history.now work.now }
    requires term { IsTermIn history.now work.now a }
{
    let plain = plain_of(work, history, a);
    shares_variable(&work.bank, variables, a)
        && work.bank.size(a) <= NODE_LIMIT
        && (is_comparison(&work.bank, plain) || is_call_of(&work.bank, ground::NUMBERP, plain))
}

/// The opposite of an assumption: its NOT, or what stands under its NOT.
fn opposite(work: &mut Work, history: &History, a: TermId) -> Result<TermId, Stop>
    requires stands { WorkStands history.now work.old }
    requires term { IsTermIn history.now work.old a }
    ensures term { IfOk result (IsTermIn history.now work.new) }
    ensures grows { WorkGrows history.now work.old work.new }
    ensures out { result ≡ Err Stop.OutOfSteps → work.new.counter.used ≡ work.new.counter.limit }
{
    match denied(work, history, a) {
        Some(b) => Ok(b),
        None => deny(work, history, a),
    }
}

/// Adds a literal.
fn push(literals: &mut Vec<TermId>, t: TermId) -> Result<(), Stop>
    ensures ok { OnOk result (literals.new.items ≡ literals.old.items ++ t ∷ []) }
    ensures memory { result ≡ Err Stop.OutOfSteps → ⊥ }
{
    match literals.push(t) {
        Ok(()) => Ok(()),
        Err(_) => Err(Stop::Memory),
    }
}

/// Adds the opposite of an assumption.
fn add_opposite(
    work: &mut Work,
    history: &History,
    literals: &mut Vec<TermId>,
    a: TermId,
) -> Result<(), Stop>
    requires stands { WorkStands history.now work.old }
    requires literals { All (IsTermIn history.now work.old) literals.old.items }
    requires term { IsTermIn history.now work.old a }
    ensures literals { OnOk result (All (IsTermIn history.now work.new) literals.new.items) }
    ensures grows { WorkGrows history.now work.old work.new }
    ensures out { result ≡ Err Stop.OutOfSteps → work.new.counter.used ≡ work.new.counter.limit }
{
    let t = opposite(work, history, a)?;
    push(literals, t)
}

/// The same, where the assumption tells something of numbers that have these variables, and there is room.
fn add_told(
    work: &mut Work,
    history: &History,
    variables: u64,
    literals: &mut Vec<TermId>,
    a: TermId,
) -> Result<(), Stop>
    requires stands { WorkStands history.now work.old }
    requires literals { All (IsTermIn history.now work.old) literals.old.items }
    requires term { IsTermIn history.now work.old a }
    ensures literals { OnOk result (All (IsTermIn history.now work.new) literals.new.items) }
    ensures grows { WorkGrows history.now work.old work.new }
    ensures out { result ≡ Err Stop.OutOfSteps → work.new.counter.used ≡ work.new.counter.limit }
{
    if literals.len() < TOLD_LIMIT && tells_numbers(work, history, variables, a) {
        add_opposite(work, history, literals, a)
    } else {
        Ok(())
    }
}

/// A literal, and the opposites of what is assumed of numbers.
fn goal_of(
    work: &mut Work,
    history: &History,
    assumed: &[TermId],
    first: TermId,
) -> Result<Vec<TermId>, Stop>
    requires can { CanRewrite history.now work.old assumed.now first }
    ensures goal { IfOk result (λ ts. All (IsTermIn history.now work.new) ts.items) }
    ensures grows { WorkGrows history.now work.old work.new }
    ensures out { result ≡ Err Stop.OutOfSteps → work.new.counter.used ≡ work.new.counter.limit }
{
    let variables = variables_of(&work.bank, first);
    let mut literals = Vec::new(work.bank.alloc());
    push(&mut literals, first)?;
    for a in assumed {
        add_told(work, history, variables, &mut literals, *a)?;
    }
    Ok(literals)
}

/// The line of a literal and the NOTs of what is assumed, by linear arithmetic.
pub fn line_by_arithmetic(
    work: &mut Work,
    history: &History,
    hints: &Hints,
    assumed: &[TermId],
    first: TermId,
) -> Result<Option<u64>, Stop>
    requires can { CanRewrite history.now work.old assumed.now first }
    ensures line { IfOk result (λ found. IfSome found (λ n. LineHasOnly work.new n (term_at work.old.bank first ∷ denials (terms_at work.old.bank assumed.now)))) }
    ensures grows { WorkGrows history.now work.old work.new }
    ensures out { result ≡ Err Stop.OutOfSteps → work.new.counter.used ≡ work.new.counter.limit }
{
    let goal = goal_of(work, history, assumed, first)?;
    line_of_goal(work, history, hints, assumed, first, goal.as_slice())
}

/// The same, by the goal of the literal and the opposites of what is assumed.
fn line_of_goal(
    work: &mut Work,
    history: &History,
    hints: &Hints,
    assumed: &[TermId],
    first: TermId,
    goal: &[TermId],
) -> Result<Option<u64>, Stop>
    requires can { CanRewrite history.now work.old assumed.now first }
    requires goal { All (IsTermIn history.now work.old) goal.now }
    ensures line { IfOk result (λ found. IfSome found (λ n. LineHasOnly work.new n (term_at work.old.bank first ∷ denials (terms_at work.old.bank assumed.now)))) }
    ensures grows { WorkGrows history.now work.old work.new }
    ensures out { result ≡ Err Stop.OutOfSteps → work.new.counter.used ≡ work.new.counter.limit }
{
    match arithmetic_line(work, history, hints, goal, &[])? {
        Some(line) => kept_among(work, history, assumed, first, goal, line),
        None => Ok(None),
    }
}

/// What linear arithmetic knows of a test.
fn told_by_arithmetic(
    work: &mut Work,
    history: &History,
    hints: &Hints,
    assumed: &[TermId],
    t: TermId,
) -> Result<Option<Known>, Stop>
    requires can { CanRewrite history.now work.old assumed.now t }
    ensures known { IfOk result (λ found. IfSome found (λ k. IsKnown work.new (terms_at work.old.bank assumed.now) (term_at work.old.bank t) k)) }
    ensures grows { WorkGrows history.now work.old work.new }
    ensures out { result ≡ Err Stop.OutOfSteps → work.new.counter.used ≡ work.new.counter.limit }
{
    match line_by_arithmetic(work, history, hints, assumed, t)? {
        Some(line) => Ok(Some(Known { value: true, line })),
        None => false_by_arithmetic(work, history, hints, assumed, t),
    }
}

/// The same, where it doesn't know that the test is true.
fn false_by_arithmetic(
    work: &mut Work,
    history: &History,
    hints: &Hints,
    assumed: &[TermId],
    t: TermId,
) -> Result<Option<Known>, Stop>
    requires can { CanRewrite history.now work.old assumed.now t }
    ensures known { IfOk result (λ found. IfSome found (λ k. IsKnown work.new (terms_at work.old.bank assumed.now) (term_at work.old.bank t) k)) }
    ensures grows { WorkGrows history.now work.old work.new }
    ensures out { result ≡ Err Stop.OutOfSteps → work.new.counter.used ≡ work.new.counter.limit }
{
    let denial = deny(work, history, t)?;
    match line_by_arithmetic(work, history, hints, assumed, denial)? {
        Some(line) => Ok(Some(Known { value: false, line })),
        None => Ok(None),
    }
}

/// May arithmetic be asked about a test?
fn is_askable(
    work: &Work,
    history: &History,
    way: &Way<'_>,
    search: &Search,
    assumed: &[TermId],
    t: TermId,
) -> bool
    requires can { CanRewrite history.now work.now assumed.now t }
{
    if way.hints.no_arith || search.asked >= ASK_LIMIT || work.bank.size(t) > NODE_LIMIT {
        return false;
    }
    if way.relieved.as_slice().is_empty() {
        is_comparable(work, history, assumed, t)
    } else {
        is_relievable(work, history, assumed, t)
    }
}

/// What linear arithmetic knows of a test, if it is asked. That it knows nothing is remembered.
pub fn known_by_arithmetic(
    work: &mut Work,
    history: &History,
    way: &Way<'_>,
    search: &mut Search,
    assumed: &[TermId],
    t: TermId,
) -> Result<Option<Known>, Stop>
    requires can { CanRewrite history.now work.old assumed.now t }
    ensures known { IfOk result (λ found. IfSome found (λ k. IsKnown work.new (terms_at work.old.bank assumed.now) (term_at work.old.bank t) k)) }
    ensures grows { WorkGrows history.now work.old work.new }
    ensures out { result ≡ Err Stop.OutOfSteps → work.new.counter.used ≡ work.new.counter.limit }
{
    if !is_askable(work, history, way, search, assumed, t) {
        return Ok(None);
    }
    let mark = mixed(NUMBERS, search.mark_of(&work.bank, assumed, t));
    if search.is_settled(mark) {
        return Ok(None);
    }
    search.ask();
    search.settle(mark)?;
    told_by_arithmetic(work, history, way.hints, assumed, t)
}
