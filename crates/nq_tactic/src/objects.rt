//! Goals with a literal that is true by what it is, as a call of a constructor, or of a function of whose calls the kind is known. The
//! rewriter shows that such a term does not equal F.
ghost use Rattle.std.specs.Prelude.{◌≡◌, ◌<◌, ◌∷◌, [], IfOk, IfSome, Err, length};
ghost use Rattle.nq_logic.specs.Words.{equal_term, false_term};
ghost use Rattle.nq_bank.specs.Content.{Stands, term_at, terms_at};
ghost use Rattle.nq_history.specs.Events.{events_at};
ghost use Rattle.nq_kernel.specs.Growing.{WorkStands, WorkGrows};
ghost use Rattle.nq_lines.specs.Lines.{IsTermIn, LineHasOnly};
ghost use Rattle.nq_lines.specs.OwnTerms.{HasOwnTerms};
ghost use Rattle.nq_search.specs.Goals.{IsGoalIn};

use crate::circular::circular_line;
use crate::reading::is_call_of;
use crate::told_truths::truth_value_line;
use nq_bank::{Node, TermId, ground};
use nq_history::{Hints, History};
use nq_kernel::{Stop, Work};
use nq_lines::{cut, equate, falsity, from_equal_false, true_or_false};
use nq_rewrite::{is_constructor, known_recognizer, rewrite};
use nq_rule_table::Rules;

/// The line of a term, by the line that its equation with F is F.
fn line_apart(
    work: &mut Work,
    history: &History,
    t: TermId,
    equation: TermId,
    line: u64,
) -> Result<u64, Stop>
    requires stands { WorkStands history.now work.old }
    requires term { IsTermIn history.now work.old t }
    requires equation { IsTermIn history.now work.old equation }
    requires is { term_at work.old.bank equation ≡ equal_term (term_at work.old.bank t) false_term }
    requires line { LineHasOnly work.old line (equal_term (term_at work.old.bank equation) false_term ∷ []) }
    ensures line { IfOk result (λ n. LineHasOnly work.new n (term_at work.old.bank t ∷ [])) }
    ensures grows { WorkGrows history.now work.old work.new }
    ensures out { result ≡ Err Stop.OutOfSteps → work.new.counter.used ≡ work.new.counter.limit }
{
    let apart = from_equal_false(work, history, equation, line)?;
    let law = true_or_false(work, history, t)?;
    cut(work, history, law, apart, equation)
}

/// The line of a term, where the rewriter shows that it does not equal F.
fn line_of_object(
    work: &mut Work,
    history: &History,
    hints: &Hints,
    rules: &Rules,
    t: TermId,
) -> Result<Option<u64>, Stop>
    requires stands { WorkStands history.now work.old }
    requires ready { HasOwnTerms (events_at work.old.bank history.now) }
    requires term { IsTermIn history.now work.old t }
    ensures line { IfOk result (λ found. IfSome found (λ n. LineHasOnly work.new n (term_at work.old.bank t ∷ []))) }
    ensures grows { WorkGrows history.now work.old work.new }
    ensures out { result ≡ Err Stop.OutOfSteps → work.new.counter.used ≡ work.new.counter.limit }
{
    let no = falsity(work, history)?;
    let equation = equate(work, history, t, no)?;
    let found = rewrite(work, history, hints, rules, &[], equation)?;
    if found.0 == no {
        let line = line_apart(work, history, t, equation, found.1)?;
        Ok(Some(line))
    } else {
        Ok(None)
    }
}

/// Is it known of what kind a term is, so that it may be shown to be another object than F?
fn has_kind(work: &Work, history: &History, t: TermId) -> bool
    requires stands { WorkStands history.now work.now }
    requires term { Stands work.now.bank t }
{
    match work.bank.node(t) {
        Node::App(f, _) => {
            is_constructor(history, f) || known_recognizer(work, history, f).is_some()
        }
        Node::Num(_) => false,
        Node::Var(_) => false,
    }
}

/// The line of a goal by the literal at an index, where that says of a truth value that it is T, or denies that a term equals one in which
/// it stands.
fn plain_line(
    work: &mut Work,
    history: &History,
    hints: &Hints,
    rules: &Rules,
    goal: &[TermId],
    at: usize,
) -> Result<Option<u64>, Stop>
    requires stands { WorkStands history.now work.old }
    requires ready { HasOwnTerms (events_at work.old.bank history.now) }
    requires goal { IsGoalIn history.now work.old goal.now }
    requires at { at < length goal.now }
    ensures line { IfOk result (λ found. IfSome found (λ n. LineHasOnly work.new n (terms_at work.new.bank goal.now))) }
    ensures grows { WorkGrows history.now work.old work.new }
    ensures out { result ≡ Err Stop.OutOfSteps → work.new.counter.used ≡ work.new.counter.limit }
{
    if is_call_of(&work.bank, ground::EQUAL, goal[at]) {
        truth_value_line(work, history, goal, at)
    } else {
        circular_line(work, history, hints, rules, goal, at)
    }
}

/// The line of a goal by the literal at an index, where that is another object than F, or denies that a term equals one in which it
/// stands.
pub fn object_line(
    work: &mut Work,
    history: &History,
    hints: &Hints,
    rules: &Rules,
    goal: &[TermId],
    at: usize,
) -> Result<Option<u64>, Stop>
    requires stands { WorkStands history.now work.old }
    requires ready { HasOwnTerms (events_at work.old.bank history.now) }
    requires goal { IsGoalIn history.now work.old goal.now }
    requires at { at < length goal.now }
    ensures line { IfOk result (λ found. IfSome found (λ n. LineHasOnly work.new n (terms_at work.new.bank goal.now))) }
    ensures grows { WorkGrows history.now work.old work.new }
    ensures out { result ≡ Err Stop.OutOfSteps → work.new.counter.used ≡ work.new.counter.limit }
{
    if has_kind(work, history, goal[at]) {
        line_of_object(work, history, hints, rules, goal[at])
    } else {
        plain_line(work, history, hints, rules, goal, at)
    }
}
