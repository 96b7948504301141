//! Which terms of a lemma are looked for in a goal. They decide only what is tried.
ghost use Rattle.std.specs.Prelude.{◌≡◌, All, IfOk, IfSome, Err};
ghost use Rattle.nq_bank.specs.Content.{Stands};
ghost use Rattle.nq_kernel.specs.Growing.{WorkGrows, WorkStands};
ghost use Rattle.nq_lines.specs.Lines.{IsTermIn};

use crate::functions::{Two, name_of_two};
use crate::hypotheses::conclusion_in;
use crate::making::call_two;
use crate::reading::{has_id, terms_of};
use nq_bank::{Bank, Node, Sym, TermId, ground};
use nq_history::History;
use nq_kernel::{Stop, Work};

/// The functions whose calls are not looked for: arithmetic sees through them, or they stand nearly everywhere.
const PLAIN: &[Sym] = &[
    ground::ADD1,
    ground::PLUS,
    ground::LESSP,
    ground::EQUAL,
    ground::NUMBERP,
    ground::ZEROP,
    ground::FIX,
    ground::LISTP,
    ground::NOT,
    ground::AND,
    ground::OR,
    ground::IMPLIES,
    ground::IF,
];

/// What is looked for in a goal.
#[derive(Clone, Copy, Debug, PartialEq, Eq)]
pub struct Trigger {
    /// A term, or the CONS of two.
    pub pattern: TermId,
    /// It is the CONS of two.
    pub is_pair: bool,
}

/// Is a function one of those whose calls are not looked for?
fn is_plain(f: Sym) -> bool {
    for i in 0..PLAIN.len() {
        if PLAIN[i].0 == f.0 {
            return true;
        }
    }
    false
}

/// May a term be looked for?
fn is_sought(bank: &Bank, t: TermId) -> bool
    requires { Stands bank.now t }
{
    match bank.node(t) {
        Node::App(f, _) => !is_plain(f),
        Node::Num(_) => false,
        Node::Var(_) => false,
    }
}

/// Is a term a variable that is not among these?
fn is_new_variable(bank: &Bank, t: TermId, known: &[TermId]) -> bool
    requires { Stands bank.now t }
{
    match bank.node(t) {
        Node::Var(_) => !has_id(known, t),
        Node::App(_, _) => false,
        Node::Num(_) => false,
    }
}

/// How many variables stand in a term that are not among these.
fn new_variables(work: &Work, history: &History, t: TermId, known: &[TermId]) -> Result<usize, Stop>
    requires stands { WorkStands history.now work.now }
    requires term { IsTermIn history.now work.now t }
    ensures memory { result ≡ Err Stop.OutOfSteps → ⊥ }
{
    let terms = terms_of(work, history, t)?;
    let mut count: usize = 0;
    for i in 0..terms.len() {
        if is_new_variable(&work.bank, terms[i], known) {
            count = count.saturating_add(1);
        }
    }
    Ok(count)
}

/// Of terms that may be looked for, the first with the most variables that are not among these.
fn best_of(
    work: &Work,
    history: &History,
    terms: &[TermId],
    known: &[TermId],
) -> Result<Option<TermId>, Stop>
    requires stands { WorkStands history.now work.now }
    requires terms { All (IsTermIn history.now work.now) terms.now }
    ensures best { IfOk result (λ found. IfSome found (IsTermIn history.now work.now)) }
    ensures memory { result ≡ Err Stop.OutOfSteps → ⊥ }
{
    let mut best = None;
    let mut most: usize = 0;
    for i in 0..terms.len() {
        let count = if is_sought(&work.bank, terms[i]) {
            new_variables(work, history, terms[i], known)?
        } else {
            0
        };
        if count > most {
            most = count;
            best = Some(terms[i]);
        }
    }
    Ok(best)
}

/// The term of a lemma that is looked for first: one of its conclusion, or else one of its hypotheses.
fn first_of(work: &Work, history: &History, rule: TermId) -> Result<Option<TermId>, Stop>
    requires stands { WorkStands history.now work.now }
    requires rule { IsTermIn history.now work.now rule }
    ensures first { IfOk result (λ found. IfSome found (IsTermIn history.now work.now)) }
    ensures memory { result ≡ Err Stop.OutOfSteps → ⊥ }
{
    let conclusion = conclusion_in(work, history, rule);
    let terms = terms_of(work, history, conclusion)?;
    match best_of(work, history, terms.as_slice(), &[])? {
        Some(first) => Ok(Some(first)),
        None => {
            let whole = terms_of(work, history, rule)?;
            best_of(work, history, whole.as_slice(), &[])
        }
    }
}

/// The term of a lemma that is looked for beside another, where the lemma has variables that are not in that.
fn second_of(
    work: &Work,
    history: &History,
    rule: TermId,
    first: TermId,
) -> Result<Option<TermId>, Stop>
    requires stands { WorkStands history.now work.now }
    requires rule { IsTermIn history.now work.now rule }
    requires first { IsTermIn history.now work.now first }
    ensures second { IfOk result (λ found. IfSome found (IsTermIn history.now work.now)) }
    ensures memory { result ≡ Err Stop.OutOfSteps → ⊥ }
{
    let whole = terms_of(work, history, rule)?;
    let known = terms_of(work, history, first)?;
    best_of(work, history, whole.as_slice(), known.as_slice())
}

/// What is looked for, where all variables of the lemma stand in it.
fn if_whole(
    work: &Work,
    history: &History,
    rule: TermId,
    trigger: Trigger,
) -> Result<Option<Trigger>, Stop>
    requires stands { WorkStands history.now work.now }
    requires rule { IsTermIn history.now work.now rule }
    requires trigger { IsTermIn history.now work.now trigger.pattern }
    ensures trigger { IfOk result (λ found. IfSome found (λ t. IsTermIn history.now work.now t.pattern)) }
    ensures memory { result ≡ Err Stop.OutOfSteps → ⊥ }
{
    let known = terms_of(work, history, trigger.pattern)?;
    if new_variables(work, history, rule, known.as_slice())? == 0 {
        Ok(Some(trigger))
    } else {
        Ok(None)
    }
}

/// What is looked for: two terms of a lemma.
fn pair_of(
    work: &mut Work,
    history: &History,
    rule: TermId,
    first: TermId,
    second: TermId,
) -> Result<Option<Trigger>, Stop>
    requires stands { WorkStands history.now work.old }
    requires rule { IsTermIn history.now work.old rule }
    requires first { IsTermIn history.now work.old first }
    requires second { IsTermIn history.now work.old second }
    ensures trigger { IfOk result (λ found. IfSome found (λ t. IsTermIn history.now work.new t.pattern)) }
    ensures grows { WorkGrows history.now work.old work.new }
    ensures out { result ≡ Err Stop.OutOfSteps → work.new.counter.used ≡ work.new.counter.limit }
{
    let pattern = call_two(work, history, name_of_two(Two::Cons), first, second)?;
    if_whole(
        work,
        history,
        rule,
        Trigger {
            pattern,
            is_pair: true,
        },
    )
}

/// What is looked for: this term of a lemma, with another, where that has more variables.
fn trigger_with(
    work: &mut Work,
    history: &History,
    rule: TermId,
    first: TermId,
) -> Result<Option<Trigger>, Stop>
    requires stands { WorkStands history.now work.old }
    requires rule { IsTermIn history.now work.old rule }
    requires first { IsTermIn history.now work.old first }
    ensures trigger { IfOk result (λ found. IfSome found (λ t. IsTermIn history.now work.new t.pattern)) }
    ensures grows { WorkGrows history.now work.old work.new }
    ensures out { result ≡ Err Stop.OutOfSteps → work.new.counter.used ≡ work.new.counter.limit }
{
    match second_of(work, history, rule, first)? {
        Some(second) => pair_of(work, history, rule, first, second),
        None => if_whole(
            work,
            history,
            rule,
            Trigger {
                pattern: first,
                is_pair: false,
            },
        ),
    }
}

/// What is looked for in a goal, so that all variables of a lemma are known.
pub fn trigger_of(work: &mut Work, history: &History, rule: TermId) -> Result<Option<Trigger>, Stop>
    requires stands { WorkStands history.now work.old }
    requires rule { IsTermIn history.now work.old rule }
    ensures trigger { IfOk result (λ found. IfSome found (λ t. IsTermIn history.now work.new t.pattern)) }
    ensures grows { WorkGrows history.now work.old work.new }
    ensures out { result ≡ Err Stop.OutOfSteps → work.new.counter.used ≡ work.new.counter.limit }
{
    match first_of(work, history, rule)? {
        Some(first) => trigger_with(work, history, rule, first),
        None => Ok(None),
    }
}
