//! The line of a goal.
ghost use Rattle.std.specs.Prelude.{◌≡◌, All, IfOk, IfSome, Err};
ghost use Rattle.nq_bank.specs.Content.{terms_at};
ghost use Rattle.nq_history.specs.Events.{events_at};
ghost use Rattle.nq_kernel.specs.Growing.{LineStands, WorkGrows, WorkStands};
ghost use Rattle.nq_lines.specs.Lines.{IsTermIn, LineHasOnly};
ghost use Rattle.nq_lines.specs.OwnTerms.{HasOwnTerms};
ghost use Rattle.nq_instances.specs.Parts.{IsLine};
ghost use Rattle.nq_arithmetic.specs.Claims.{AreOperandsIn, IsAssumptionIn};

use crate::assumptions::{Assumption, literals_with};
use crate::bounding::instances_of;
use crate::checking::checked;
use crate::guards::{are_met, fact_line};
use crate::keeping::{Question, is_kept, keep, key_of_lemmas, key_of_told};
use crate::reading::{Operands, is_call_of, operands_of};
use crate::refuting::refuted;
use crate::resolving::resolved;
use crate::rounds::facts_of;
use crate::templates::COMPARISON;
use crate::told::with_told;
use nq_bank::{TermId, ground};
use nq_history::{Hints, History};
use nq_kernel::{Stop, Work};
use nq_lines::Fact;

/// A line without the facts that it rests on, where it has only literals of the goal then.
fn finished(
    work: &mut Work,
    history: &History,
    goal: &[TermId],
    assumptions: &[Assumption],
    line: u64,
) -> Result<Option<u64>, Stop>
    requires stands { WorkStands history.now work.old }
    requires goal { All (IsTermIn history.now work.old) goal.now }
    requires assumptions { All (IsAssumptionIn history.now work.old) assumptions.now }
    requires line { LineStands work.old line }
    ensures line { IfOk result (λ found. IfSome found (λ n. LineHasOnly work.new n (terms_at work.old.bank goal.now))) }
    ensures grows { WorkGrows history.now work.old work.new }
    ensures out { result ≡ Err Stop.OutOfSteps → work.new.counter.used ≡ work.new.counter.limit }
{
    let last = resolved(work, history, goal, assumptions, line)?;
    Ok(checked(work, history, goal, last))
}

/// The line of a goal with the equation of two numbers, neither of which is below the other.
fn by_comparison(
    work: &mut Work,
    history: &History,
    goal: &[TermId],
    assumptions: &[Assumption],
    at: Operands,
) -> Result<Option<u64>, Stop>
    requires stands { WorkStands history.now work.old }
    requires goal { All (IsTermIn history.now work.old) goal.now }
    requires assumptions { All (IsAssumptionIn history.now work.old) assumptions.now }
    requires at { AreOperandsIn history.now work.old at }
    ensures line { IfOk result (λ found. IfSome found (λ n. LineHasOnly work.new n (terms_at work.old.bank goal.now))) }
    ensures grows { WorkGrows history.now work.old work.new }
    ensures out { result ≡ Err Stop.OutOfSteps → work.new.counter.used ≡ work.new.counter.limit }
{
    let literals = literals_with(work, history, goal, assumptions, assumptions.len())?;
    if are_met(work, history, literals.as_slice(), COMPARISON.guards, at)? {
        let line = fact_line(work, history, literals.as_slice(), COMPARISON, at)?;
        finished(work, history, goal, assumptions, line)
    } else {
        Ok(None)
    }
}

/// The same, of a literal, if it is an equation.
fn by_literal(
    work: &mut Work,
    history: &History,
    goal: &[TermId],
    assumptions: &[Assumption],
    t: TermId,
) -> Result<Option<u64>, Stop>
    requires stands { WorkStands history.now work.old }
    requires goal { All (IsTermIn history.now work.old) goal.now }
    requires assumptions { All (IsAssumptionIn history.now work.old) assumptions.now }
    requires literal { IsTermIn history.now work.old t }
    ensures line { IfOk result (λ found. IfSome found (λ n. LineHasOnly work.new n (terms_at work.old.bank goal.now))) }
    ensures grows { WorkGrows history.now work.old work.new }
    ensures out { result ≡ Err Stop.OutOfSteps → work.new.counter.used ≡ work.new.counter.limit }
{
    if !is_call_of(&work.bank, t, ground::EQUAL) {
        return Ok(None);
    }
    match operands_of(work, history, t) {
        Some(at) => by_comparison(work, history, goal, assumptions, at),
        None => Ok(None),
    }
}

/// A line that was found, or else the one by a literal.
fn or_by_literal(
    work: &mut Work,
    history: &History,
    goal: &[TermId],
    assumptions: &[Assumption],
    found: Option<u64>,
    t: TermId,
) -> Result<Option<u64>, Stop>
    requires stands { WorkStands history.now work.old }
    requires goal { All (IsTermIn history.now work.old) goal.now }
    requires assumptions { All (IsAssumptionIn history.now work.old) assumptions.now }
    requires found { IfSome found (λ n. LineHasOnly work.old n (terms_at work.old.bank goal.now)) }
    requires literal { IsTermIn history.now work.old t }
    ensures line { IfOk result (λ found. IfSome found (λ n. LineHasOnly work.new n (terms_at work.old.bank goal.now))) }
    ensures grows { WorkGrows history.now work.old work.new }
    ensures out { result ≡ Err Stop.OutOfSteps → work.new.counter.used ≡ work.new.counter.limit }
{
    match found {
        Some(line) => Ok(Some(line)),
        None => by_literal(work, history, goal, assumptions, t),
    }
}

/// The line of a goal by one of its equations.
fn by_equations(
    work: &mut Work,
    history: &History,
    goal: &[TermId],
    assumptions: &[Assumption],
) -> Result<Option<u64>, Stop>
    requires stands { WorkStands history.now work.old }
    requires goal { All (IsTermIn history.now work.old) goal.now }
    requires assumptions { All (IsAssumptionIn history.now work.old) assumptions.now }
    ensures line { IfOk result (λ found. IfSome found (λ n. LineHasOnly work.new n (terms_at work.old.bank goal.now))) }
    ensures grows { WorkGrows history.now work.old work.new }
    ensures out { result ≡ Err Stop.OutOfSteps → work.new.counter.used ≡ work.new.counter.limit }
{
    let mut found = None;
    for t in goal {
        found = or_by_literal(work, history, goal, assumptions, found, *t)?;
    }
    Ok(found)
}

/// The line of a goal with these facts.
fn with_facts(
    work: &mut Work,
    history: &History,
    goal: &[TermId],
    assumptions: &[Assumption],
) -> Result<Option<u64>, Stop>
    requires stands { WorkStands history.now work.old }
    requires goal { All (IsTermIn history.now work.old) goal.now }
    requires assumptions { All (IsAssumptionIn history.now work.old) assumptions.now }
    ensures line { IfOk result (λ found. IfSome found (λ n. LineHasOnly work.new n (terms_at work.old.bank goal.now))) }
    ensures grows { WorkGrows history.now work.old work.new }
    ensures out { result ≡ Err Stop.OutOfSteps → work.new.counter.used ≡ work.new.counter.limit }
{
    let literals = literals_with(work, history, goal, assumptions, assumptions.len())?;
    match refuted(work, history, literals.as_slice())? {
        Some(line) => finished(work, history, goal, assumptions, line),
        None => by_equations(work, history, goal, assumptions),
    }
}

/// The line of a goal with the facts that are found for it, with these instances of lemmas.
fn by_facts(
    work: &mut Work,
    history: &History,
    goal: &[TermId],
    instances: &[Fact],
) -> Result<Option<u64>, Stop>
    requires stands { WorkStands history.now work.old }
    requires goal { All (IsTermIn history.now work.old) goal.now }
    requires instances { All (IsLine history.now work.old) instances.now }
    ensures line { IfOk result (λ found. IfSome found (λ n. LineHasOnly work.new n (terms_at work.old.bank goal.now))) }
    ensures grows { WorkGrows history.now work.old work.new }
    ensures out { result ≡ Err Stop.OutOfSteps → work.new.counter.used ≡ work.new.counter.limit }
{
    let assumptions = facts_of(work, history, goal, instances)?;
    with_facts(work, history, goal, assumptions.as_slice())
}

/// The line of a goal with what is told and with facts by lemmas too.
fn by_lemmas(
    work: &mut Work,
    history: &History,
    hints: &Hints,
    goal: &[TermId],
    told: &[Fact],
) -> Result<Option<u64>, Stop>
    requires stands { WorkStands history.now work.old }
    requires ready { HasOwnTerms (events_at work.old.bank history.now) }
    requires goal { All (IsTermIn history.now work.old) goal.now }
    requires told { All (IsLine history.now work.old) told.now }
    ensures line { IfOk result (λ found. IfSome found (λ n. LineHasOnly work.new n (terms_at work.old.bank goal.now))) }
    ensures grows { WorkGrows history.now work.old work.new }
    ensures out { result ≡ Err Stop.OutOfSteps → work.new.counter.used ≡ work.new.counter.limit }
{
    let instances = instances_of(work, history, hints, goal)?;
    let all = with_told(work, history, told, instances.as_slice())?;
    by_facts(work, history, goal, all.as_slice())
}

/// The line of a goal as it is, or else with the facts that are found for it and with what is told.
fn by_told(
    work: &mut Work,
    history: &History,
    goal: &[TermId],
    told: &[Fact],
) -> Result<Option<u64>, Stop>
    requires stands { WorkStands history.now work.old }
    requires goal { All (IsTermIn history.now work.old) goal.now }
    requires told { All (IsLine history.now work.old) told.now }
    ensures line { IfOk result (λ found. IfSome found (λ n. LineHasOnly work.new n (terms_at work.old.bank goal.now))) }
    ensures grows { WorkGrows history.now work.old work.new }
    ensures out { result ≡ Err Stop.OutOfSteps → work.new.counter.used ≡ work.new.counter.limit }
{
    match refuted(work, history, goal)? {
        Some(line) => Ok(checked(work, history, goal, line)),
        None => by_facts(work, history, goal, told),
    }
}

/// The same, with facts by lemmas too.
fn by_told_and_lemmas(
    work: &mut Work,
    history: &History,
    hints: &Hints,
    goal: &[TermId],
    told: &[Fact],
) -> Result<Option<u64>, Stop>
    requires stands { WorkStands history.now work.old }
    requires ready { HasOwnTerms (events_at work.old.bank history.now) }
    requires goal { All (IsTermIn history.now work.old) goal.now }
    requires told { All (IsLine history.now work.old) told.now }
    ensures line { IfOk result (λ found. IfSome found (λ n. LineHasOnly work.new n (terms_at work.old.bank goal.now))) }
    ensures grows { WorkGrows history.now work.old work.new }
    ensures out { result ≡ Err Stop.OutOfSteps → work.new.counter.used ≡ work.new.counter.limit }
{
    match refuted(work, history, goal)? {
        Some(line) => Ok(checked(work, history, goal, line)),
        None => by_lemmas(work, history, hints, goal, told),
    }
}

/// Keeps a question where no line was found.
fn keep_if_none(work: &mut Work, question: Question, number: u64, found: Option<u64>)
    ensures { work.new ≡ work.old }
{
    if found.is_none() {
        keep(work, question, number);
    }
}

/// A line that has only literals of a goal, by linear arithmetic: of its literals as they are, together with facts about the
/// terms in it by laws and with what is told of them, and for an equation of two numbers by comparing them. None is found under
/// NO-BUILT-IN-ARITH, nor where none was found before.
pub fn arithmetic_line(
    work: &mut Work,
    history: &History,
    hints: &Hints,
    goal: &[TermId],
    told: &[Fact],
) -> Result<Option<u64>, Stop>
    requires stands { WorkStands history.now work.old }
    requires goal { All (IsTermIn history.now work.old) goal.now }
    requires told { All (IsLine history.now work.old) told.now }
    ensures line { IfOk result (λ found. IfSome found (λ n. LineHasOnly work.new n (terms_at work.old.bank goal.now))) }
    ensures grows { WorkGrows history.now work.old work.new }
    ensures out { result ≡ Err Stop.OutOfSteps → work.new.counter.used ≡ work.new.counter.limit }
{
    let number = key_of_told(goal, told);
    if hints.no_arith || is_kept(work, Question::Told, number) {
        return Ok(None);
    }
    let found = by_told(work, history, goal, told)?;
    keep_if_none(work, Question::Told, number, found);
    Ok(found)
}

/// The same, with facts by enabled lemmas of the history too.
pub fn arithmetic_line_by_lemmas(
    work: &mut Work,
    history: &History,
    hints: &Hints,
    goal: &[TermId],
    told: &[Fact],
) -> Result<Option<u64>, Stop>
    requires stands { WorkStands history.now work.old }
    requires ready { HasOwnTerms (events_at work.old.bank history.now) }
    requires goal { All (IsTermIn history.now work.old) goal.now }
    requires told { All (IsLine history.now work.old) told.now }
    ensures line { IfOk result (λ found. IfSome found (λ n. LineHasOnly work.new n (terms_at work.old.bank goal.now))) }
    ensures grows { WorkGrows history.now work.old work.new }
    ensures out { result ≡ Err Stop.OutOfSteps → work.new.counter.used ≡ work.new.counter.limit }
{
    let number = key_of_lemmas(history, hints, goal, told);
    if hints.no_arith || is_kept(work, Question::ToldAndLemmas, number) {
        return Ok(None);
    }
    let found = by_told_and_lemmas(work, history, hints, goal, told)?;
    keep_if_none(work, Question::ToldAndLemmas, number, found);
    Ok(found)
}
