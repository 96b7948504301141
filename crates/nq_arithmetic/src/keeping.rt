//! Questions of linear arithmetic that were asked before. A question is known again by a number that is made of all on which its
//! answer depends, and under which a line is kept: any line that stands tells that the question was asked.
//!
//! Two questions that have one number are seldom met. Where they are, something may not be found; what is found is shown by lines.
ghost use Rattle.std.specs.Prelude.{◌≡◌};

use crate::claims::Claim;
use nq_bank::{Sym, TermId};
use nq_history::{Hints, History};
use nq_kernel::{Work, mark_of};
use nq_lines::Fact;

/// Each number of a question has this bit, and no number has it under which the line of a law is kept.
const QUESTION: u64 = 1 << 63;

/// What is asked. The numbers of different kinds of questions are made differently.
#[derive(Clone, Copy, Debug)]
pub enum Question {
    /// Is a line found without lemmas? It is asked no more where none was.
    Told,
    /// Is a line found with lemmas? It is asked no more where none was.
    ToldAndLemmas,
    /// Is a claim met? It is not.
    Unmet,
    /// Is a claim met? It is.
    Met,
}

/// A number that tells what is asked.
fn number_of(question: Question) -> u64 {
    match question {
        Question::Told => 1,
        Question::ToldAndLemmas => 2,
        Question::Unmet => 3,
        Question::Met => 4,
    }
}

/// The number of what comes after other things.
fn after(mark: u64, next: u64) -> u64 {
    mark_of(&[TermId(mark), TermId(next)])
}

/// The number of these facts after other things.
fn after_facts(before: u64, facts: &[Fact]) -> u64 {
    let mut mark = before;
    for fact in facts {
        mark = after(after(mark, fact.term.0), fact.line);
    }
    mark
}

/// The number of these names after other things.
fn after_names(before: u64, names: &[Sym]) -> u64 {
    let mut mark = after(before, names.len() as u64);
    for name in names {
        mark = after(mark, name.0);
    }
    mark
}

/// The number of the question for the line of a goal with what is told.
pub fn key_of_told(goal: &[TermId], told: &[Fact]) -> u64 {
    after_facts(mark_of(goal), told)
}

/// The same of a history, with what the hints say of its lemmas.
pub fn key_of_lemmas(history: &History, hints: &Hints, goal: &[TermId], told: &[Fact]) -> u64 {
    let mark = after(key_of_told(goal, told), history.len());
    let enabled = after_names(mark, hints.enable.as_slice());
    after_names(enabled, hints.disable.as_slice())
}

/// The number of the question whether a claim is met among these literals.
pub fn key_of_claim(literals: &[TermId], claim: Claim) -> u64 {
    let mark = after(mark_of(literals), claim.test.0);
    after(mark, u64::from(claim.denied))
}

/// The key under which a question with a number is kept.
fn key_of(question: Question, number: u64) -> u64 {
    after(number, number_of(question)) | QUESTION
}

/// Was a question kept?
pub fn is_kept(work: &Work, question: Question, number: u64) -> bool {
    work.kept(key_of(question, number)).is_some()
}

/// Keeps a question. As long as the log has no line it can't be kept.
pub fn keep(work: &mut Work, question: Question, number: u64)
    ensures { work.new ≡ work.old }
{
    let line = work.log.len();
    work.keep(key_of(question, number), line);
}
