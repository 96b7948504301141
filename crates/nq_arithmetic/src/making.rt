//! Terms that are made of others.
ghost use Rattle.std.specs.Prelude.{◌≡◌, ◌<◌, ◌∷◌, ◌++◌, [], All, IfOk, OnOk, Err};
ghost use Rattle.nq_bank.specs.GroundNames.{ground_count};
ghost use Rattle.nq_kernel.specs.Growing.{WorkGrows, WorkStands};
ghost use Rattle.nq_lines.specs.Lines.{IsTermIn};
ghost use Rattle.nq_arithmetic.specs.Functions.{IsFunctionOf};

use crate::functions::{One, name_of_one, name_of_two};
use crate::template::Make;
use nq_bank::{Sym, TermId, ground, ground_name};
use nq_history::History;
use nq_kernel::{Stop, Work};
use nq_lines::variable;

/// One more term.
pub fn push_term(terms: &mut Vec<TermId>, t: TermId) -> Result<(), Stop>
    ensures ok { OnOk result (terms.new.items ≡ terms.old.items ++ t ∷ []) }
    ensures memory { result ≡ Err Stop.OutOfSteps → ⊥ }
{
    match terms.push(t) {
        Ok(()) => Ok(()),
        Err(_) => Err(Stop::Memory),
    }
}

/// Makes the constant 0.
pub fn zero(work: &mut Work, history: &History) -> Result<TermId, Stop>
    requires stands { WorkStands history.now work.old }
    ensures term { IfOk result (λ t. IsTermIn history.now work.new t) }
    ensures grows { WorkGrows history.now work.old work.new }
    ensures out { result ≡ Err Stop.OutOfSteps → work.new.counter.used ≡ work.new.counter.limit }
{
    let name = ground_name(&work.bank, ground::ZERO);
    work.app(history, name, &[])
}

/// Makes the constant T.
fn truth(work: &mut Work, history: &History) -> Result<TermId, Stop>
    requires stands { WorkStands history.now work.old }
    ensures term { IfOk result (λ t. IsTermIn history.now work.new t) }
    ensures grows { WorkGrows history.now work.old work.new }
    ensures out { result ≡ Err Stop.OutOfSteps → work.new.counter.used ≡ work.new.counter.limit }
{
    let name = ground_name(&work.bank, ground::TRUE);
    work.app(history, name, &[])
}

/// Makes the call of a function of one argument.
fn call_one(work: &mut Work, history: &History, f: Sym, a: TermId) -> Result<TermId, Stop>
    requires stands { WorkStands history.now work.old }
    requires ground { f.0 < ground_count }
    requires function { IsFunctionOf f 1 }
    requires argument { IsTermIn history.now work.old a }
    ensures term { IfOk result (λ t. IsTermIn history.now work.new t) }
    ensures grows { WorkGrows history.now work.old work.new }
    ensures out { result ≡ Err Stop.OutOfSteps → work.new.counter.used ≡ work.new.counter.limit }
{
    let name = ground_name(&work.bank, f);
    work.app(history, name, &[a])
}

/// Makes `(ADD1 X)`.
pub fn one_more_than_x(work: &mut Work, history: &History) -> Result<TermId, Stop>
    requires stands { WorkStands history.now work.old }
    ensures term { IfOk result (λ t. IsTermIn history.now work.new t) }
    ensures grows { WorkGrows history.now work.old work.new }
    ensures out { result ≡ Err Stop.OutOfSteps → work.new.counter.used ≡ work.new.counter.limit }
{
    let x = variable(work, history, b"X")?;
    let name = name_of_one(One::Add1);
    call_one(work, history, name, x)
}

/// Makes the call of a function of two arguments.
pub fn call_two(
    work: &mut Work,
    history: &History,
    f: Sym,
    a: TermId,
    b: TermId,
) -> Result<TermId, Stop>
    requires stands { WorkStands history.now work.old }
    requires ground { f.0 < ground_count }
    requires function { IsFunctionOf f 2 }
    requires first { IsTermIn history.now work.old a }
    requires second { IsTermIn history.now work.old b }
    ensures term { IfOk result (λ t. IsTermIn history.now work.new t) }
    ensures grows { WorkGrows history.now work.old work.new }
    ensures out { result ≡ Err Stop.OutOfSteps → work.new.counter.used ≡ work.new.counter.limit }
{
    let name = ground_name(&work.bank, f);
    work.app(history, name, &[a, b])
}

/// The term at a place, or another where there is none.
fn term_or(work: &Work, history: &History, terms: &[TermId], place: usize, other: TermId) -> TermId
    requires terms { All (IsTermIn history.now work.now) terms.now }
    requires other { IsTermIn history.now work.now other }
    ensures { IsTermIn history.now work.now result }
{
    let _ = work.bank.alloc();
    if place < terms.len() {
        terms[place]
    } else {
        other
    }
}

/// Makes a term of those at hand. Another stands for a term that is not there.
fn make(
    work: &mut Work,
    history: &History,
    terms: &[TermId],
    other: TermId,
    step: Make,
) -> Result<TermId, Stop>
    requires stands { WorkStands history.now work.old }
    requires terms { All (IsTermIn history.now work.old) terms.now }
    requires other { IsTermIn history.now work.old other }
    ensures term { IfOk result (λ t. IsTermIn history.now work.new t) }
    ensures grows { WorkGrows history.now work.old work.new }
    ensures out { result ≡ Err Stop.OutOfSteps → work.new.counter.used ≡ work.new.counter.limit }
{
    match step {
        Make::One(f, i) => {
            let a = term_or(work, history, terms, i, other);
            let name = name_of_one(f);
            call_one(work, history, name, a)
        }
        Make::Two(f, i, k) => {
            let a = term_or(work, history, terms, i, other);
            let b = term_or(work, history, terms, k, other);
            let name = name_of_two(f);
            call_two(work, history, name, a, b)
        }
    }
}

/// The terms at the first four places.
fn first_terms(
    work: &mut Work,
    history: &History,
    x: TermId,
    y: TermId,
) -> Result<Vec<TermId>, Stop>
    requires stands { WorkStands history.now work.old }
    requires first { IsTermIn history.now work.old x }
    requires second { IsTermIn history.now work.old y }
    ensures terms { IfOk result (λ ts. All (IsTermIn history.now work.new) ts.items) }
    ensures grows { WorkGrows history.now work.old work.new }
    ensures out { result ≡ Err Stop.OutOfSteps → work.new.counter.used ≡ work.new.counter.limit }
{
    let none = zero(work, history)?;
    let true_term = truth(work, history)?;
    match vec![in work.bank.alloc(); x, y, none, true_term] {
        Ok(terms) => Ok(terms),
        Err(_) => Err(Stop::Memory),
    }
}

/// Makes one more term, at the next place.
fn make_next(
    work: &mut Work,
    history: &History,
    terms: &mut Vec<TermId>,
    other: TermId,
    step: Make,
) -> Result<TermId, Stop>
    requires stands { WorkStands history.now work.old }
    requires terms { All (IsTermIn history.now work.old) terms.old.items }
    requires other { IsTermIn history.now work.old other }
    ensures terms { OnOk result (All (IsTermIn history.now work.new) terms.new.items) }
    ensures term { IfOk result (λ t. IsTermIn history.now work.new t) }
    ensures grows { WorkGrows history.now work.old work.new }
    ensures out { result ≡ Err Stop.OutOfSteps → work.new.counter.used ≡ work.new.counter.limit }
{
    let t = make(work, history, terms.as_slice(), other, step)?;
    push_term(terms, t)?;
    Ok(t)
}

/// Makes the terms of a pattern of two terms, and tells the last.
pub fn make_term(
    work: &mut Work,
    history: &History,
    steps: &[Make],
    x: TermId,
    y: TermId,
) -> Result<TermId, Stop>
    requires stands { WorkStands history.now work.old }
    requires first { IsTermIn history.now work.old x }
    requires second { IsTermIn history.now work.old y }
    ensures term { IfOk result (λ t. IsTermIn history.now work.new t) }
    ensures grows { WorkGrows history.now work.old work.new }
    ensures out { result ≡ Err Stop.OutOfSteps → work.new.counter.used ≡ work.new.counter.limit }
{
    let mut terms = first_terms(work, history, x, y)?;
    let mut last = x;
    for step in steps {
        last = make_next(work, history, &mut terms, last, *step)?;
    }
    Ok(last)
}
