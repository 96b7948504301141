//! Lines that the calls of a function are T where they are true, as `(NOT (MEMBER X Y))`, `(EQUAL (MEMBER X Y) T)`: they are learnt by the
//! search itself, and close goals that have an instance of them.
ghost use Rattle.std.specs.Prelude.{◌≡◌, IfOk, Err};
ghost use Rattle.nq_bank.specs.Content.{IsNamed};
ghost use Rattle.nq_kernel.specs.Growing.{WorkGrows, WorkStands};
ghost use Rattle.nq_lines.specs.Facts.{IsFact};
ghost use Rattle.nq_lines.specs.Lines.{IsTermIn};
ghost use Rattle.nq_search.specs.Goals.{CanSearch, IsGoalIn};

use crate::kinds::{plan_of_kind, remember};
use crate::tactic::Waterfall;
use crate::truths::may_be_truth;
use nq_bank::{Sym, TermId};
use nq_history::{Hints, History};
use nq_kernel::{Stop, Work, ready_histories};
use nq_lines::{Fact, deny, equate, instance, row_fact, sides_of, truth};
use nq_ready::own_terms;
use nq_rule_table::Rules;
use nq_search::seek;

/// Learns that the calls of a function are T where they are true, if its definition tells it.
pub fn learn_truth(
    work: &mut Work,
    history: &History,
    hints: &Hints,
    rules: &Rules,
    f: Sym,
) -> Result<(), Stop>
    requires can { CanSearch history.now hints.now work.old }
    requires function { IsNamed work.old.bank f }
    ensures grows { WorkGrows history.now work.old work.new }
    ensures out { result ≡ Err Stop.OutOfSteps → work.new.counter.used ≡ work.new.counter.limit }
{
    if may_be_truth(work, history, f) {
        learn_defined(work, history, hints, rules, f)
    } else {
        Ok(())
    }
}

/// The same, where it is defined.
fn learn_defined(
    work: &mut Work,
    history: &History,
    hints: &Hints,
    rules: &Rules,
    f: Sym,
) -> Result<(), Stop>
    requires can { CanSearch history.now hints.now work.old }
    requires function { IsNamed work.old.bank f }
    ensures grows { WorkGrows history.now work.old work.new }
    ensures out { result ≡ Err Stop.OutOfSteps → work.new.counter.used ≡ work.new.counter.limit }
{
    own_terms();
    ready_histories();
    match row_fact(work, history, f)? {
        Some(definition) => learn_by_definition(work, history, hints, rules, f, definition),
        None => Ok(()),
    }
}

/// The same, by the definition.
fn learn_by_definition(
    work: &mut Work,
    history: &History,
    hints: &Hints,
    rules: &Rules,
    f: Sym,
    definition: Fact,
) -> Result<(), Stop>
    requires can { CanSearch history.now hints.now work.old }
    requires function { IsNamed work.old.bank f }
    requires definition { IsFact history.now work.old definition }
    ensures grows { WorkGrows history.now work.old work.new }
    ensures out { result ≡ Err Stop.OutOfSteps → work.new.counter.used ≡ work.new.counter.limit }
{
    match sides_of(work, history, definition.term) {
        Some(sides) => learn_call(work, history, hints, rules, f, sides.left),
        None => Ok(()),
    }
}

/// The same, by the call of the function on its formals.
fn learn_call(
    work: &mut Work,
    history: &History,
    hints: &Hints,
    rules: &Rules,
    f: Sym,
    call: TermId,
) -> Result<(), Stop>
    requires can { CanSearch history.now hints.now work.old }
    requires function { IsNamed work.old.bank f }
    requires call { IsTermIn history.now work.old call }
    ensures grows { WorkGrows history.now work.old work.new }
    ensures out { result ≡ Err Stop.OutOfSteps → work.new.counter.used ≡ work.new.counter.limit }
{
    ready_histories();
    let goal = truth_goal(work, history, call)?;
    learn_goal(work, history, hints, rules, f, goal.as_slice())
}

/// The goal that a term is T where it is true.
fn truth_goal(work: &mut Work, history: &History, t: TermId) -> Result<Vec<TermId>, Stop>
    requires stands { WorkStands history.now work.old }
    requires term { IsTermIn history.now work.old t }
    ensures goal { IfOk result (λ v. IsGoalIn history.now work.new v.items) }
    ensures grows { WorkGrows history.now work.old work.new }
    ensures out { result ≡ Err Stop.OutOfSteps → work.new.counter.used ≡ work.new.counter.limit }
{
    let denied = deny(work, history, t)?;
    let yes = truth(work, history)?;
    let equation = equate(work, history, t, yes)?;
    match vec![in work.bank.alloc(); denied, equation] {
        Ok(goal) => Ok(goal),
        Err(_) => Err(Stop::Memory),
    }
}

/// Learns a line of this goal of a function, if the search finds one.
fn learn_goal(
    work: &mut Work,
    history: &History,
    hints: &Hints,
    rules: &Rules,
    f: Sym,
    goal: &[TermId],
) -> Result<(), Stop>
    requires can { CanSearch history.now hints.now work.old }
    requires function { IsNamed work.old.bank f }
    requires goal { IsGoalIn history.now work.old goal.now }
    ensures grows { WorkGrows history.now work.old work.new }
    ensures out { result ≡ Err Stop.OutOfSteps → work.new.counter.used ≡ work.new.counter.limit }
{
    let plan = plan_of_kind(work);
    let mut tactic = Waterfall::new(work.bank.alloc(), rules, 7);
    match seek(work, &mut tactic, history, hints, plan, goal)? {
        Some(line) => remember(work, history, f, line),
        None => Ok(()),
    }
}
