//! The search for the line of a lemma. Of each instance that its hints name the negation stands in the goal, and the line that is
//! found is cut by the instance's own.
ghost use Rattle.std.specs.Prelude.{◌≡◌, ◌<◌, ◌∷◌, [], IfOk, IfSome, Err, length};
ghost use Rattle.nq_bank.specs.Content.{term_at, terms_at};
ghost use Rattle.nq_kernel.specs.Growing.{WorkGrows};
ghost use Rattle.nq_lines.specs.Facts.{IsFact};
ghost use Rattle.nq_lines.specs.Lines.{IsTermIn};
ghost use Rattle.nq_search.specs.Goals.{CanSearch, IsGoalIn};
ghost use Rattle.nq_search.specs.Searching.{IsFound};

use crate::falls::learn_falls;
use crate::kinds::{learn_kinds, learn_truths};
use crate::order::{INDUCTIONS, TURNS};
use crate::tactic::Waterfall;
use crate::uses::used;
use nq_bank::TermId;
use nq_history::{Hints, History};
use nq_kernel::{Stop, Work, ready_histories};
use nq_lines::{Fact, cut, deny};
use nq_reduce::with_more;
use nq_rule_table::Rules;
use nq_search::{Plan, seek};

/// A round of the search.
#[derive(Clone, Copy)]
struct Round {
    /// Into how many parts the steps are divided of which the round gets one.
    part: u64,
    /// The share, in tenths, of the steps that a way gets where others follow.
    share: u64,
}

/// The round of this number, from 0: first with few steps, then with more, and then with all. In the last more of the steps go to the
/// ways that come first.
fn round_of(number: u32) -> Option<Round>
    ensures some { IfSome result (λ round. 0 < round.part) }
    ensures last { IfSome result (λ round. number < 3) }
{
    match number {
        0 => Some(Round { part: 32, share: 5 }),
        1 => Some(Round { part: 8, share: 5 }),
        2 => Some(Round { part: 1, share: 8 }),
        _ => None,
    }
}

/// The plan of a search that ends at a count of steps.
fn plan_until(until: u64) -> Plan {
    Plan {
        levels: 60,
        inductions: INDUCTIONS,
        turns: TURNS,
        whole: true,
        simplified: false,
        inducted: false,
        eliminations: 0,
        until,
    }
}

/// Into how many parts the steps are divided of which a round that had nothing more to try needs less than one.
const IDLE_PART: u64 = 500;

/// Did a round end so early that there was nothing more to try?
fn is_exhausted(work: &Work, before: u64) -> bool {
    let used = work.counter.used().saturating_sub(before);
    used < work.counter.limit() / IDLE_PART
}

/// Seeks a line of a goal, where it is known first of what kind the calls of its functions are.
fn seek_rounds(
    work: &mut Work,
    history: &History,
    hints: &Hints,
    rules: &Rules,
    goal: &[TermId],
) -> Result<Option<u64>, Stop>
    requires can { CanSearch history.now hints.now work.old }
    requires goal { IsGoalIn history.now work.old goal.now }
    ensures found { IfOk result (IsFound work.new (terms_at work.old.bank goal.now)) }
    ensures grows { WorkGrows history.now work.old work.new }
    ensures out { result ≡ Err Stop.OutOfSteps → work.new.counter.used ≡ work.new.counter.limit }
{
    ready_histories();
    learn_kinds(work, history, hints, rules, goal)?;
    seek_after_kinds(work, history, hints, rules, goal)
}

/// The same, where it is known too which of its functions have truth values.
fn seek_after_kinds(
    work: &mut Work,
    history: &History,
    hints: &Hints,
    rules: &Rules,
    goal: &[TermId],
) -> Result<Option<u64>, Stop>
    requires can { CanSearch history.now hints.now work.old }
    requires goal { IsGoalIn history.now work.old goal.now }
    ensures found { IfOk result (IsFound work.new (terms_at work.old.bank goal.now)) }
    ensures grows { WorkGrows history.now work.old work.new }
    ensures out { result ≡ Err Stop.OutOfSteps → work.new.counter.used ≡ work.new.counter.limit }
{
    ready_histories();
    learn_truths(work, history, hints, rules, goal)?;
    seek_after_falls(work, history, hints, rules, goal)
}

/// The same, where it is known too how the measures of its functions fall.
fn seek_after_falls(
    work: &mut Work,
    history: &History,
    hints: &Hints,
    rules: &Rules,
    goal: &[TermId],
) -> Result<Option<u64>, Stop>
    requires can { CanSearch history.now hints.now work.old }
    requires goal { IsGoalIn history.now work.old goal.now }
    ensures found { IfOk result (IsFound work.new (terms_at work.old.bank goal.now)) }
    ensures grows { WorkGrows history.now work.old work.new }
    ensures out { result ≡ Err Stop.OutOfSteps → work.new.counter.used ≡ work.new.counter.limit }
{
    ready_histories();
    learn_falls(work, history, hints, rules, goal)?;
    let mut tactic = Waterfall::new(work.bank.alloc(), rules, 0);
    seek_widening(work, &mut tactic, history, hints, 0, goal)
}

/// Seeks a line of a goal by one round after the other, from this one on.
#[cycle(rounds)]
fn seek_widening(
    work: &mut Work,
    tactic: &mut Waterfall<'_>,
    history: &History,
    hints: &Hints,
    number: u32,
    goal: &[TermId],
) -> Result<Option<u64>, Stop>
    requires can { CanSearch history.now hints.now work.old }
    requires goal { IsGoalIn history.now work.old goal.now }
    ensures found { IfOk result (IsFound work.new (terms_at work.old.bank goal.now)) }
    ensures grows { WorkGrows history.now work.old work.new }
    ensures out { result ≡ Err Stop.OutOfSteps → work.new.counter.used ≡ work.new.counter.limit }
{
    ready_histories();
    match round_of(number) {
        Some(round) => seek_round(work, tactic, history, hints, number, round, goal),
        None => Ok(None),
    }
}

/// The same, by a round and those after it.
#[cycle(rounds)]
fn seek_round(
    work: &mut Work,
    tactic: &mut Waterfall<'_>,
    history: &History,
    hints: &Hints,
    number: u32,
    round: Round,
    goal: &[TermId],
) -> Result<Option<u64>, Stop>
    requires some { 0 < round.part }
    requires last { number < 3 }
    requires can { CanSearch history.now hints.now work.old }
    requires goal { IsGoalIn history.now work.old goal.now }
    ensures found { IfOk result (IsFound work.new (terms_at work.old.bank goal.now)) }
    ensures grows { WorkGrows history.now work.old work.new }
    ensures out { result ≡ Err Stop.OutOfSteps → work.new.counter.used ≡ work.new.counter.limit }
{
    ready_histories();
    let before = work.counter.used();
    let limit = work.counter.limit();
    let plan = plan_until(before.saturating_add(limit / round.part).min(limit));
    tactic.give(round.share);
    match seek(work, tactic, history, hints, plan, goal)? {
        Some(line) => Ok(Some(line)),
        None => seek_again(work, tactic, history, hints, number, goal, before),
    }
}

/// The same, where a round found none.
#[cycle(rounds)]
fn seek_again(
    work: &mut Work,
    tactic: &mut Waterfall<'_>,
    history: &History,
    hints: &Hints,
    number: u32,
    goal: &[TermId],
    before: u64,
) -> Result<Option<u64>, Stop>
    requires last { number < 3 }
    requires can { CanSearch history.now hints.now work.old }
    requires goal { IsGoalIn history.now work.old goal.now }
    ensures found { IfOk result (IsFound work.new (terms_at work.old.bank goal.now)) }
    ensures grows { WorkGrows history.now work.old work.new }
    ensures out { result ≡ Err Stop.OutOfSteps → work.new.counter.used ≡ work.new.counter.limit }
{
    if is_exhausted(work, before) {
        return Ok(None);
    }
    seek_widening(work, tactic, history, hints, number + 1, goal)
}

/// Seeks a line of a lemma.
pub fn seek_lemma(
    work: &mut Work,
    history: &History,
    hints: &Hints,
    rules: &Rules,
    goal: TermId,
) -> Result<Option<u64>, Stop>
    requires can { CanSearch history.now hints.now work.old }
    requires goal { IsTermIn history.now work.old goal }
    ensures found { IfOk result (IsFound work.new (term_at work.old.bank goal ∷ [])) }
    ensures grows { WorkGrows history.now work.old work.new }
    ensures out { result ≡ Err Stop.OutOfSteps → work.new.counter.used ≡ work.new.counter.limit }
{
    seek_under(work, history, hints, rules, 0, &[goal])
}

/// Seeks a line of a goal under the instances of the hints from a place on.
#[cycle(under)]
fn seek_under(
    work: &mut Work,
    history: &History,
    hints: &Hints,
    rules: &Rules,
    from: usize,
    goal: &[TermId],
) -> Result<Option<u64>, Stop>
    requires can { CanSearch history.now hints.now work.old }
    requires goal { IsGoalIn history.now work.old goal.now }
    ensures found { IfOk result (IsFound work.new (terms_at work.old.bank goal.now)) }
    ensures grows { WorkGrows history.now work.old work.new }
    ensures out { result ≡ Err Stop.OutOfSteps → work.new.counter.used ≡ work.new.counter.limit }
{
    ready_histories();
    if from >= hints.instances.len() {
        return seek_rounds(work, history, hints, rules, goal);
    }
    match used(work, history, &hints.instances[from])? {
        Some(fact) => seek_beside(work, history, hints, rules, from + 1, goal, fact),
        None => seek_under(work, history, hints, rules, from + 1, goal),
    }
}

/// The same, with the denial of a fact beside the goal's literals, which the fact's line cuts away.
#[cycle(under)]
fn seek_beside(
    work: &mut Work,
    history: &History,
    hints: &Hints,
    rules: &Rules,
    from: usize,
    goal: &[TermId],
    fact: Fact,
) -> Result<Option<u64>, Stop>
    requires can { CanSearch history.now hints.now work.old }
    requires goal { IsGoalIn history.now work.old goal.now }
    requires fact { IsFact history.now work.old fact }
    ensures found { IfOk result (IsFound work.new (terms_at work.old.bank goal.now)) }
    ensures grows { WorkGrows history.now work.old work.new }
    ensures out { result ≡ Err Stop.OutOfSteps → work.new.counter.used ≡ work.new.counter.limit }
{
    ready_histories();
    let denied = deny(work, history, fact.term)?;
    let longer = with_more(work, denied, goal)?;
    match seek_under(work, history, hints, rules, from, longer.as_slice())? {
        Some(line) => {
            let line = cut(work, history, fact.line, line, fact.term)?;
            Ok(Some(line))
        }
        None => Ok(None),
    }
}
