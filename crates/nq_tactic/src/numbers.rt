//! What linear arithmetic is told of the terms of a goal: that the calls of functions are numbers of which the work knows it, as
//! `(NUMBERP (FACT N))`.
ghost use Rattle.std.specs.Prelude.{◌≡◌, ◌∷◌, ◌++◌, [], All, IfOk, IfSome, OnOk, Err};
ghost use Rattle.nq_bank.specs.Content.{IsNamed};
ghost use Rattle.nq_history.specs.Events.{events_at};
ghost use Rattle.nq_kernel.specs.Growing.{WorkGrows, WorkStands};
ghost use Rattle.nq_lines.specs.Facts.{IsFact};
ghost use Rattle.nq_lines.specs.Lines.{IsTermIn};
ghost use Rattle.nq_lines.specs.OwnTerms.{HasOwnTerms};
ghost use Rattle.nq_instances.specs.Parts.{IsLine};

use crate::comparisons::add_compared;
use nq_arithmetic::{is_number_by_law, terms_in};
use nq_bank::{Sym, TermId, ground};
use nq_history::History;
use nq_kernel::{Stop, Work};
use nq_lines::Fact;
use nq_rewrite::{kind_fact, known_recognizer, named_function};

/// The most numbers that are told.
const NUMBER_LIMIT: usize = 20;

/// Are the calls of a function known to be numbers?
fn makes_numbers(work: &Work, history: &History, f: Sym) -> bool
    requires { WorkStands history.now work.now }
{
    match known_recognizer(work, history, f) {
        Some(r) => r.0 == ground::NUMBERP.0,
        None => false,
    }
}

/// The line that a call of this function is a number, if that is known.
fn number_called(
    work: &mut Work,
    history: &History,
    f: Sym,
    t: TermId,
) -> Result<Option<Fact>, Stop>
    requires stands { WorkStands history.now work.old }
    requires ready { HasOwnTerms (events_at work.old.bank history.now) }
    requires function { IsNamed work.old.bank f }
    requires term { IsTermIn history.now work.old t }
    ensures fact { IfOk result (λ found. IfSome found (IsFact history.now work.new)) }
    ensures grows { WorkGrows history.now work.old work.new }
    ensures out { result ≡ Err Stop.OutOfSteps → work.new.counter.used ≡ work.new.counter.limit }
{
    if makes_numbers(work, history, f) {
        kind_fact(work, history, f, t)
    } else {
        Ok(None)
    }
}

/// The line that a term is a number, if it is a call of which that is known, and no law of arithmetic says it.
fn number_fact(work: &mut Work, history: &History, t: TermId) -> Result<Option<Fact>, Stop>
    requires stands { WorkStands history.now work.old }
    requires ready { HasOwnTerms (events_at work.old.bank history.now) }
    requires term { IsTermIn history.now work.old t }
    ensures fact { IfOk result (λ found. IfSome found (IsFact history.now work.new)) }
    ensures grows { WorkGrows history.now work.old work.new }
    ensures out { result ≡ Err Stop.OutOfSteps → work.new.counter.used ≡ work.new.counter.limit }
{
    if is_number_by_law(&work.bank, t) {
        return Ok(None);
    }
    match named_function(&work.bank, t) {
        Some(f) => number_called(work, history, f, t),
        None => Ok(None),
    }
}

/// Adds a fact.
pub fn push(facts: &mut Vec<Fact>, fact: Fact) -> Result<(), Stop>
    ensures ok { OnOk result (facts.new.items ≡ facts.old.items ++ fact ∷ []) }
    ensures memory { result ≡ Err Stop.OutOfSteps → ⊥ }
{
    match facts.push(fact) {
        Ok(()) => Ok(()),
        Err(_) => Err(Stop::Memory),
    }
}

/// Adds the line that a term is a number, if it is found.
fn add_found(
    work: &mut Work,
    history: &History,
    facts: &mut Vec<Fact>,
    t: TermId,
) -> Result<(), Stop>
    requires stands { WorkStands history.now work.old }
    requires ready { HasOwnTerms (events_at work.old.bank history.now) }
    requires facts { All (IsLine history.now work.old) facts.old.items }
    requires term { IsTermIn history.now work.old t }
    ensures facts { OnOk result (All (IsLine history.now work.new) facts.new.items) }
    ensures grows { WorkGrows history.now work.old work.new }
    ensures out { result ≡ Err Stop.OutOfSteps → work.new.counter.used ≡ work.new.counter.limit }
{
    match number_fact(work, history, t)? {
        Some(fact) => {
            push(facts, fact)?;
            Ok(())
        }
        None => Ok(()),
    }
}

/// The same, where there is room.
fn add_number(
    work: &mut Work,
    history: &History,
    facts: &mut Vec<Fact>,
    t: TermId,
) -> Result<(), Stop>
    requires stands { WorkStands history.now work.old }
    requires ready { HasOwnTerms (events_at work.old.bank history.now) }
    requires facts { All (IsLine history.now work.old) facts.old.items }
    requires term { IsTermIn history.now work.old t }
    ensures facts { OnOk result (All (IsLine history.now work.new) facts.new.items) }
    ensures grows { WorkGrows history.now work.old work.new }
    ensures out { result ≡ Err Stop.OutOfSteps → work.new.counter.used ≡ work.new.counter.limit }
{
    if facts.len() < NUMBER_LIMIT {
        add_found(work, history, facts, t)
    } else {
        Ok(())
    }
}

/// The lines that terms of a goal are numbers, each term once.
fn numbers_of(work: &mut Work, history: &History, goal: &[TermId]) -> Result<Vec<Fact>, Stop>
    requires stands { WorkStands history.now work.old }
    requires ready { HasOwnTerms (events_at work.old.bank history.now) }
    requires goal { All (IsTermIn history.now work.old) goal.now }
    ensures facts { IfOk result (λ fs. All (IsLine history.now work.new) fs.items) }
    ensures grows { WorkGrows history.now work.old work.new }
    ensures out { result ≡ Err Stop.OutOfSteps → work.new.counter.used ≡ work.new.counter.limit }
{
    let terms = terms_in(work, history, goal)?;
    let mut facts = Vec::new(work.bank.alloc());
    for t in terms.as_slice() {
        add_number(work, history, &mut facts, *t)?;
    }
    Ok(facts)
}

/// The lines that terms of a goal are numbers, and those of the comparisons that it denies to be T.
pub fn numbers_in(work: &mut Work, history: &History, goal: &[TermId]) -> Result<Vec<Fact>, Stop>
    requires stands { WorkStands history.now work.old }
    requires ready { HasOwnTerms (events_at work.old.bank history.now) }
    requires goal { All (IsTermIn history.now work.old) goal.now }
    ensures facts { IfOk result (λ fs. All (IsLine history.now work.new) fs.items) }
    ensures grows { WorkGrows history.now work.old work.new }
    ensures out { result ≡ Err Stop.OutOfSteps → work.new.counter.used ≡ work.new.counter.limit }
{
    let mut facts = numbers_of(work, history, goal)?;
    for t in goal {
        add_compared(work, history, &mut facts, *t)?;
    }
    Ok(facts)
}
