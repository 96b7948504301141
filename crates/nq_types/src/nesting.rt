//! All that assumptions say that a term is not, in one literal: the right nest of AND of the NOTs of its recognizers, in the order of
//! their bits.
ghost use Rattle.std.specs.Prelude.{◌≡◌, ◌≤◌, All, IfOk, IfSome, Err, length};
ghost use Rattle.nq_logic.specs.ShellPrinciple.{shells_of};
ghost use Rattle.nq_history.specs.Events.{events_at};
ghost use Rattle.nq_kernel.specs.Growing.{LineStands, WorkGrows, WorkStands};
ghost use Rattle.nq_kernel.specs.Ready.{IsReady};
ghost use Rattle.nq_lines.specs.Lines.{IsTermIn};
ghost use Rattle.nq_lines.specs.Branches.{AreBranchesIn};
ghost use Rattle.nq_types.specs.Guessing.{IsGuessed};

use crate::denied::{denied_by, denying};
use crate::denying::denied_fact;
use crate::outside::recognizer_count;
use nq_bank::{TermId, ground, ground_name};
use nq_history::History;
use nq_kernel::{Stop, Work};
use nq_lines::{Fact, condition, falsity, join, opening, rewrite_literal, row_line, truth};
use nq_ready::own_terms;
use nq_rule::{Branches, Side};

/// Makes an IF, and adds its line from those by its branches.
fn joined_fact(
    work: &mut Work,
    history: &History,
    parts: Branches,
    first: u64,
    second: u64,
) -> Result<Fact, Stop>
    requires stands { WorkStands history.now work.old }
    requires parts { AreBranchesIn history.now work.old parts }
    requires first { LineStands work.old first }
    requires second { LineStands work.old second }
    ensures fact { IfOk result (IsGuessed history.now work.new) }
    ensures grows { WorkGrows history.now work.old work.new }
    ensures out { result ≡ Err Stop.OutOfSteps → work.new.counter.used ≡ work.new.counter.limit }
{
    let term = condition(work, history, parts)?;
    let line = join(work, history, first, second, parts)?;
    Ok(Fact { term, line })
}

/// Adds the line that a literal is T, by an IF that has T and F as its branches.
fn truth_of(work: &mut Work, history: &History, fact: Fact) -> Result<Fact, Stop>
    requires stands { WorkStands history.now work.old }
    requires fact { IsGuessed history.now work.old fact }
    ensures fact { IfOk result (IsGuessed history.now work.new) }
    ensures grows { WorkGrows history.now work.old work.new }
    ensures out { result ≡ Err Stop.OutOfSteps → work.new.counter.used ≡ work.new.counter.limit }
{
    let first = truth(work, history)?;
    let second = falsity(work, history)?;
    let name = ground_name(&work.bank, ground::TRUE);
    let law = row_line(work, history, name, 1, 0)?;
    let parts = Branches {
        test: fact.term,
        first,
        second,
    };
    joined_fact(work, history, parts, law, fact.line)
}

/// Adds the line of the body of the AND of two literals, from those of the first and of the truth of the second.
fn both_hold(work: &mut Work, history: &History, fact: Fact, rest: Fact) -> Result<Fact, Stop>
    requires stands { WorkStands history.now work.old }
    requires fact { IsGuessed history.now work.old fact }
    requires rest { IsGuessed history.now work.old rest }
    ensures fact { IfOk result (IsGuessed history.now work.new) }
    ensures grows { WorkGrows history.now work.old work.new }
    ensures out { result ≡ Err Stop.OutOfSteps → work.new.counter.used ≡ work.new.counter.limit }
{
    let second = falsity(work, history)?;
    let parts = Branches {
        test: fact.term,
        first: rest.term,
        second,
    };
    joined_fact(work, history, parts, rest.line, fact.line)
}

/// Makes the AND of two terms.
fn conjunction(work: &mut Work, history: &History, p: TermId, q: TermId) -> Result<TermId, Stop>
    requires stands { WorkStands history.now work.old }
    requires first { IsTermIn history.now work.old p }
    requires second { IsTermIn history.now work.old q }
    ensures over { IfOk result (λ u. IsTermIn history.now work.new u) }
    ensures grows { WorkGrows history.now work.old work.new }
    ensures out { result ≡ Err Stop.OutOfSteps → work.new.counter.used ≡ work.new.counter.limit }
{
    let name = ground_name(&work.bank, ground::AND);
    work.app(history, name, &[p, q])
}

/// Adds the line of a call, from one of its body.
fn closed(
    work: &mut Work,
    history: &History,
    term: TermId,
    body: Fact,
) -> Result<Option<Fact>, Stop>
    requires stands { WorkStands history.now work.old }
    requires ready { IsReady (events_at work.old.bank history.now) }
    requires term { IsTermIn history.now work.old term }
    requires body { IsGuessed history.now work.old body }
    ensures fact { IfOk result (λ found. IfSome found (IsGuessed history.now work.new)) }
    ensures grows { WorkGrows history.now work.old work.new }
    ensures out { result ≡ Err Stop.OutOfSteps → work.new.counter.used ≡ work.new.counter.limit }
{
    own_terms();
    match opening(work, history, term)? {
        Some(law) => {
            let line = rewrite_literal(
                work,
                history,
                Side::Backwards,
                body.term,
                term,
                body.line,
                law.line,
            )?;
            Ok(Some(Fact { term, line }))
        }
        None => Ok(None),
    }
}

/// Adds the line of the AND of two literals, from theirs.
fn conjoined(
    work: &mut Work,
    history: &History,
    fact: Fact,
    rest: Fact,
) -> Result<Option<Fact>, Stop>
    requires stands { WorkStands history.now work.old }
    requires ready { IsReady (events_at work.old.bank history.now) }
    requires fact { IsGuessed history.now work.old fact }
    requires rest { IsGuessed history.now work.old rest }
    ensures fact { IfOk result (λ found. IfSome found (IsGuessed history.now work.new)) }
    ensures grows { WorkGrows history.now work.old work.new }
    ensures out { result ≡ Err Stop.OutOfSteps → work.new.counter.used ≡ work.new.counter.limit }
{
    let term = conjunction(work, history, fact.term, rest.term)?;
    let held = truth_of(work, history, rest)?;
    let body = both_hold(work, history, fact, held)?;
    closed(work, history, term, body)
}

/// The nest of a literal and those so far.
fn nested(
    work: &mut Work,
    history: &History,
    fact: Fact,
    nest: Option<Fact>,
) -> Result<Option<Fact>, Stop>
    requires stands { WorkStands history.now work.old }
    requires ready { IsReady (events_at work.old.bank history.now) }
    requires fact { IsGuessed history.now work.old fact }
    requires nest { IfSome nest (IsGuessed history.now work.old) }
    ensures fact { IfOk result (λ found. IfSome found (IsGuessed history.now work.new)) }
    ensures grows { WorkGrows history.now work.old work.new }
    ensures out { result ≡ Err Stop.OutOfSteps → work.new.counter.used ≡ work.new.counter.limit }
{
    match nest {
        Some(rest) => conjoined(work, history, fact, rest),
        None => Ok(Some(fact)),
    }
}

/// The nest of what an assumption says that a term is not and those so far.
fn nested_by(
    work: &mut Work,
    history: &History,
    a: TermId,
    t: TermId,
    nest: Option<Fact>,
) -> Result<Option<Fact>, Stop>
    requires stands { WorkStands history.now work.old }
    requires ready { IsReady (events_at work.old.bank history.now) }
    requires room { length (shells_of (events_at work.old.bank history.now)) ≤ 61 }
    requires assumption { IsTermIn history.now work.old a }
    requires term { IsTermIn history.now work.old t }
    requires nest { IfSome nest (IsGuessed history.now work.old) }
    ensures fact { IfOk result (λ found. IfSome found (IsGuessed history.now work.new)) }
    ensures grows { WorkGrows history.now work.old work.new }
    ensures out { result ≡ Err Stop.OutOfSteps → work.new.counter.used ≡ work.new.counter.limit }
{
    match denied_by(work, history, a, t) {
        Some(denied) => {
            let fact = denied_fact(work, history, a, denied, t)?;
            nested(work, history, fact, nest)
        }
        None => Ok(nest),
    }
}

/// The nest so far, and that a term is not the recognizer at a bit, where an assumption says so.
fn nested_at(
    work: &mut Work,
    history: &History,
    assumed: &[TermId],
    t: TermId,
    place: usize,
    nest: Option<Fact>,
) -> Result<Option<Fact>, Stop>
    requires stands { WorkStands history.now work.old }
    requires ready { IsReady (events_at work.old.bank history.now) }
    requires room { length (shells_of (events_at work.old.bank history.now)) ≤ 61 }
    requires assumed { All (IsTermIn history.now work.old) assumed.now }
    requires term { IsTermIn history.now work.old t }
    requires nest { IfSome nest (IsGuessed history.now work.old) }
    ensures fact { IfOk result (λ found. IfSome found (IsGuessed history.now work.new)) }
    ensures grows { WorkGrows history.now work.old work.new }
    ensures out { result ≡ Err Stop.OutOfSteps → work.new.counter.used ≡ work.new.counter.limit }
{
    match denying(work, history, assumed, t, place) {
        Some(a) => nested_by(work, history, a, t, nest),
        None => Ok(nest),
    }
}

/// The nest of all that the assumptions say that a term is not.
fn nest_of(
    work: &mut Work,
    history: &History,
    assumed: &[TermId],
    t: TermId,
) -> Result<Option<Fact>, Stop>
    requires stands { WorkStands history.now work.old }
    requires ready { IsReady (events_at work.old.bank history.now) }
    requires room { length (shells_of (events_at work.old.bank history.now)) ≤ 61 }
    requires assumed { All (IsTermIn history.now work.old) assumed.now }
    requires term { IsTermIn history.now work.old t }
    ensures fact { IfOk result (λ found. IfSome found (IsGuessed history.now work.new)) }
    ensures grows { WorkGrows history.now work.old work.new }
    ensures out { result ≡ Err Stop.OutOfSteps → work.new.counter.used ≡ work.new.counter.limit }
{
    let count = recognizer_count(&work.bank, history);
    let mut nest = None;
    for done in 0..count {
        let place = (count - done - 1) as usize;
        nest = nested_at(work, history, assumed, t, place, nest)?;
    }
    Ok(nest)
}

/// Adds the line of what the assumptions say that a term is not, if there is anything.
pub fn nest_line(
    work: &mut Work,
    history: &History,
    assumed: &[TermId],
    t: TermId,
) -> Result<Option<u64>, Stop>
    requires stands { WorkStands history.now work.old }
    requires ready { IsReady (events_at work.old.bank history.now) }
    requires room { length (shells_of (events_at work.old.bank history.now)) ≤ 61 }
    requires assumed { All (IsTermIn history.now work.old) assumed.now }
    requires term { IsTermIn history.now work.old t }
    ensures line { IfOk result (λ found. IfSome found (LineStands work.new)) }
    ensures grows { WorkGrows history.now work.old work.new }
    ensures out { result ≡ Err Stop.OutOfSteps → work.new.counter.used ≡ work.new.counter.limit }
{
    match nest_of(work, history, assumed, t)? {
        Some(fact) => Ok(Some(fact.line)),
        None => Ok(None),
    }
}
