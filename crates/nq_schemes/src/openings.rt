//! The bodies of calls of a goal.
ghost use Rattle.std.specs.Prelude.{◌≡◌, All, IfOk, IfSome, OnOk, IsTrue, Err};
ghost use Rattle.nq_history.specs.Events.{events_at};
ghost use Rattle.nq_kernel.specs.Growing.{WorkStands, WorkGrows};
ghost use Rattle.nq_kernel.specs.Ready.{IsReady};
ghost use Rattle.nq_lines.specs.Lines.{IsTermIn};
ghost use Rattle.nq_schemes.specs.Known.{IsOpenedIn, with_some};

use crate::known::is_within;
use crate::opened::Opened;
use crate::terms::is_walked;
use nq_bank::TermId;
use nq_history::History;
use nq_kernel::{Stop, Work, ready_histories};
use nq_lines::{Fact, opening};
use nq_ready::own_terms;

/// Does a term stand in one of these?
fn is_within_one(work: &Work, history: &History, goal: &[TermId], t: TermId) -> bool
    requires { All (IsTermIn history.now work.now) goal.now }
    ensures { IsTrue result → IsTermIn history.now work.now t }
{
    for literal in goal {
        if is_walked(&work.bank, *literal) {
            if is_within(work, history, *literal, t) {
                return true;
            }
        }
    }
    false
}

/// A call with its body, where this was found and is no larger than what is walked.
fn opened_by(work: &Work, history: &History, call: TermId, found: Option<Fact>) -> Option<Opened>
    requires call { IsTermIn history.now work.now call }
    requires body { IfSome found (λ f. IsTermIn history.now work.now f.term) }
    ensures { IfSome result (IsOpenedIn history.now work.now) }
{
    let fact = found?;
    if is_walked(&work.bank, fact.term) {
        Some(Opened {
            call,
            body: fact.term,
        })
    } else {
        None
    }
}

/// A call of the goal and its body, where the function is defined.
fn opened_in(
    work: &mut Work,
    history: &History,
    goal: &[TermId],
    call: TermId,
) -> Result<Option<Opened>, Stop>
    requires stands { WorkStands history.now work.old }
    requires ready { IsReady (events_at work.old.bank history.now) }
    requires goal { All (IsTermIn history.now work.old) goal.now }
    ensures opened { IfOk result (λ found. IfSome found (IsOpenedIn history.now work.new)) }
    ensures grows { WorkGrows history.now work.old work.new }
    ensures out { result ≡ Err Stop.OutOfSteps → work.new.counter.used ≡ work.new.counter.limit }
{
    if !is_within_one(work, history, goal, call) {
        return Ok(None);
    }
    own_terms();
    let found = opening(work, history, call)?;
    Ok(opened_by(work, history, call, found))
}

/// One call more, if there is one.
pub fn add_opened(opened: &mut Vec<Opened>, found: Option<Opened>) -> Result<(), Stop>
    ensures more { OnOk result (opened.new.items ≡ with_some opened.old.items found) }
    ensures memory { result ≡ Err Stop.OutOfSteps → ⊥ }
{
    match found {
        Some(o) => match opened.push(o) {
            Ok(()) => Ok(()),
            Err(_) => Err(Stop::Memory),
        },
        None => Ok(()),
    }
}

/// Calls of the goal and their bodies.
pub fn all_opened(
    work: &mut Work,
    history: &History,
    goal: &[TermId],
    calls: &[TermId],
) -> Result<Vec<Opened>, Stop>
    requires stands { WorkStands history.now work.old }
    requires ready { IsReady (events_at work.old.bank history.now) }
    requires goal { All (IsTermIn history.now work.old) goal.now }
    ensures opened { IfOk result (λ v. All (IsOpenedIn history.now work.new) v.items) }
    ensures grows { WorkGrows history.now work.old work.new }
    ensures out { result ≡ Err Stop.OutOfSteps → work.new.counter.used ≡ work.new.counter.limit }
{
    ready_histories();
    let mut opened = Vec::new(work.bank.alloc());
    for call in calls {
        let found = opened_in(work, history, goal, *call)?;
        add_opened(&mut opened, found)?;
    }
    Ok(opened)
}
