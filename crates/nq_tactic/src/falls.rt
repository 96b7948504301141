//! That the measures of the functions of a goal are ordinals and fall: what no line at hand says is proved by the search itself, and
//! its line is known from then on. An induction by such a function then needs no tests that say it.
ghost use Rattle.std.specs.Prelude.{◌≡◌, IfOk, Err};
ghost use Rattle.nq_bank.specs.Content.{IsNamed, terms_at};
ghost use Rattle.nq_kernel.specs.Growing.{WorkGrows};
ghost use Rattle.nq_lines.specs.Facts.{IsFact};
ghost use Rattle.nq_lines.specs.Lines.{IsTermIn};
ghost use Rattle.nq_schemes.specs.Owed.{AreGoalsIn};
ghost use Rattle.nq_search.specs.Goals.{CanSearch, IsGoalIn};
ghost use Rattle.nq_search.specs.Searching.{IsFound};

use crate::guessing::{called_in, has_name};
use crate::kinds::remember;
use crate::order::TURNS;
use crate::tactic::Waterfall;
use nq_bank::{Sym, TermId};
use nq_history::{Hints, History};
use nq_kernel::{Stop, Work, ready_histories};
use nq_lines::{Fact, row_fact, sides_of};
use nq_ready::own_terms;
use nq_rule_table::Rules;
use nq_schemes::{owed_falls, owed_ordinal};
use nq_search::{Plan, seek};

/// Into how many parts the steps are divided of which the search for one line gets one.
const FALL_PART: u64 = 20;

/// The plan of the search for a line.
fn plan_of_fall(work: &Work) -> Plan {
    let used = work.counter.used();
    Plan {
        levels: 20,
        inductions: 1,
        turns: TURNS,
        whole: false,
        simplified: false,
        inducted: false,
        eliminations: 0,
        until: used.saturating_add(work.counter.limit() / FALL_PART),
    }
}

/// Learns how the measures fall of the recursive functions that a goal and its hints call, the oldest first.
pub fn learn_falls(
    work: &mut Work,
    history: &History,
    hints: &Hints,
    rules: &Rules,
    goal: &[TermId],
) -> Result<(), Stop>
    requires can { CanSearch history.now hints.now work.old }
    ensures grows { WorkGrows history.now work.old work.new }
    ensures out { result ≡ Err Stop.OutOfSteps → work.new.counter.used ≡ work.new.counter.limit }
{
    match called_in(&work.bank, goal, hints) {
        Ok(names) => learn_falls_among(work, history, hints, rules, names.as_slice()),
        Err(_) => Err(Stop::Memory),
    }
}

/// The same, of these functions.
fn learn_falls_among(
    work: &mut Work,
    history: &History,
    hints: &Hints,
    rules: &Rules,
    names: &[Sym],
) -> Result<(), Stop>
    requires can { CanSearch history.now hints.now work.old }
    ensures grows { WorkGrows history.now work.old work.new }
    ensures out { result ≡ Err Stop.OutOfSteps → work.new.counter.used ≡ work.new.counter.limit }
{
    let count = history.len();
    for place in 0..count {
        learn_falls_at(work, history, hints, rules, names, place)?;
    }
    Ok(())
}

/// The same, of the function that the event at a place defines.
fn learn_falls_at(
    work: &mut Work,
    history: &History,
    hints: &Hints,
    rules: &Rules,
    names: &[Sym],
    place: u64,
) -> Result<(), Stop>
    requires can { CanSearch history.now hints.now work.old }
    ensures can { IfOk result (λ _. CanSearch history.now hints.now work.new) }
    ensures grows { WorkGrows history.now work.old work.new }
    ensures out { result ≡ Err Stop.OutOfSteps → work.new.counter.used ≡ work.new.counter.limit }
{
    ready_histories();
    if place < history.len() {
        learn_falls_named(
            work,
            history,
            hints,
            rules,
            names,
            history.entry(place).name,
        )?;
    }
    Ok(())
}

/// The same, of a function, if it is one of these.
fn learn_falls_named(
    work: &mut Work,
    history: &History,
    hints: &Hints,
    rules: &Rules,
    names: &[Sym],
    f: Sym,
) -> Result<(), Stop>
    requires can { CanSearch history.now hints.now work.old }
    requires function { IsNamed work.old.bank f }
    ensures grows { WorkGrows history.now work.old work.new }
    ensures out { result ≡ Err Stop.OutOfSteps → work.new.counter.used ≡ work.new.counter.limit }
{
    if has_name(names, f) {
        learn_falls_of(work, history, hints, rules, f)
    } else {
        Ok(())
    }
}

/// The same, of a function.
fn learn_falls_of(
    work: &mut Work,
    history: &History,
    hints: &Hints,
    rules: &Rules,
    f: Sym,
) -> Result<(), Stop>
    requires can { CanSearch history.now hints.now work.old }
    requires function { IsNamed work.old.bank f }
    ensures grows { WorkGrows history.now work.old work.new }
    ensures out { result ≡ Err Stop.OutOfSteps → work.new.counter.used ≡ work.new.counter.limit }
{
    own_terms();
    ready_histories();
    match row_fact(work, history, f)? {
        Some(definition) => learn_falls_defined(work, history, hints, rules, f, definition),
        None => Ok(()),
    }
}

/// The same, by the definition of the function.
fn learn_falls_defined(
    work: &mut Work,
    history: &History,
    hints: &Hints,
    rules: &Rules,
    f: Sym,
    definition: Fact,
) -> Result<(), Stop>
    requires can { CanSearch history.now hints.now work.old }
    requires function { IsNamed work.old.bank f }
    requires definition { IsFact history.now work.old definition }
    ensures grows { WorkGrows history.now work.old work.new }
    ensures out { result ≡ Err Stop.OutOfSteps → work.new.counter.used ≡ work.new.counter.limit }
{
    match sides_of(work, history, definition.term) {
        Some(sides) => learn_ordinal(work, history, hints, rules, f, sides.left),
        None => Ok(()),
    }
}

/// Learns that the measure of a function is an ordinal, and then how it falls, by the call of the function on its formals.
fn learn_ordinal(
    work: &mut Work,
    history: &History,
    hints: &Hints,
    rules: &Rules,
    f: Sym,
    call: TermId,
) -> Result<(), Stop>
    requires can { CanSearch history.now hints.now work.old }
    requires function { IsNamed work.old.bank f }
    requires call { IsTermIn history.now work.old call }
    ensures grows { WorkGrows history.now work.old work.new }
    ensures out { result ≡ Err Stop.OutOfSteps → work.new.counter.used ≡ work.new.counter.limit }
{
    ready_histories();
    match owed_ordinal(work, history, call)? {
        Some(goal) => learn_owed_after(work, history, hints, rules, f, call, goal),
        None => learn_owed(work, history, hints, rules, f, call),
    }
}

/// Learns that the measure of a function is an ordinal, as a goal says, and then how it falls.
fn learn_owed_after(
    work: &mut Work,
    history: &History,
    hints: &Hints,
    rules: &Rules,
    f: Sym,
    call: TermId,
    goal: TermId,
) -> Result<(), Stop>
    requires can { CanSearch history.now hints.now work.old }
    requires function { IsNamed work.old.bank f }
    requires call { IsTermIn history.now work.old call }
    requires goal { IsTermIn history.now work.old goal }
    ensures grows { WorkGrows history.now work.old work.new }
    ensures out { result ≡ Err Stop.OutOfSteps → work.new.counter.used ≡ work.new.counter.limit }
{
    learn_line(work, history, hints, rules, f, &[goal])?;
    learn_owed(work, history, hints, rules, f, call)
}

/// Learns how the measure of a function falls.
fn learn_owed(
    work: &mut Work,
    history: &History,
    hints: &Hints,
    rules: &Rules,
    f: Sym,
    call: TermId,
) -> Result<(), Stop>
    requires can { CanSearch history.now hints.now work.old }
    requires function { IsNamed work.old.bank f }
    requires call { IsTermIn history.now work.old call }
    ensures grows { WorkGrows history.now work.old work.new }
    ensures out { result ≡ Err Stop.OutOfSteps → work.new.counter.used ≡ work.new.counter.limit }
{
    ready_histories();
    let goals = owed_falls(work, history, call, !hints.no_arith)?;
    learn_goals(work, history, hints, rules, f, goals.as_slice())
}

/// Learns these goals.
fn learn_goals(
    work: &mut Work,
    history: &History,
    hints: &Hints,
    rules: &Rules,
    f: Sym,
    goals: &[Vec<TermId>],
) -> Result<(), Stop>
    requires can { CanSearch history.now hints.now work.old }
    requires function { IsNamed work.old.bank f }
    requires goals { AreGoalsIn history.now work.old goals.now }
    ensures grows { WorkGrows history.now work.old work.new }
    ensures out { result ≡ Err Stop.OutOfSteps → work.new.counter.used ≡ work.new.counter.limit }
{
    for goal in goals {
        learn_line(work, history, hints, rules, f, goal.as_slice())?;
    }
    Ok(())
}

/// Seeks a line of a goal by a tactic of its own.
fn seek_briefly(
    work: &mut Work,
    history: &History,
    hints: &Hints,
    rules: &Rules,
    plan: Plan,
    goal: &[TermId],
) -> Result<Option<u64>, Stop>
    requires can { CanSearch history.now hints.now work.old }
    requires goal { IsGoalIn history.now work.old goal.now }
    ensures found { IfOk result (IsFound work.new (terms_at work.old.bank goal.now)) }
    ensures grows { WorkGrows history.now work.old work.new }
    ensures out { result ≡ Err Stop.OutOfSteps → work.new.counter.used ≡ work.new.counter.limit }
{
    let mut tactic = Waterfall::new(work.bank.alloc(), rules, 7);
    seek(work, &mut tactic, history, hints, plan, goal)
}

/// Keeps the line of a goal, if it is found.
fn learn_line(
    work: &mut Work,
    history: &History,
    hints: &Hints,
    rules: &Rules,
    f: Sym,
    goal: &[TermId],
) -> Result<(), Stop>
    requires can { CanSearch history.now hints.now work.old }
    requires function { IsNamed work.old.bank f }
    requires goal { IsGoalIn history.now work.old goal.now }
    ensures can { IfOk result (λ _. CanSearch history.now hints.now work.new) }
    ensures grows { WorkGrows history.now work.old work.new }
    ensures out { result ≡ Err Stop.OutOfSteps → work.new.counter.used ≡ work.new.counter.limit }
{
    ready_histories();
    let plan = plan_of_fall(work);
    match seek_briefly(work, history, hints, rules, plan, goal)? {
        Some(line) => {
            remember(work, history, f, line)?;
            Ok(())
        }
        None => Ok(()),
    }
}
