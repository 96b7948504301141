//! The kinds of the parts that destructor calls take, as facts beside an elimination: a part that must be of a kind is of that kind, and
//! so is the new variable that takes its place. So where X gave way to `(ADD1 V)` it is known that V is a number.
ghost use Rattle.std.specs.Prelude.{◌≡◌, ◌++◌, ◌∷◌, [], All, IfOk, IfSome, OnOk, Err};
ghost use Rattle.nq_bank.specs.Content.{IsNamed, term_at, terms_at};
ghost use Rattle.nq_history.specs.Events.{events_at};
ghost use Rattle.nq_kernel.specs.Growing.{WorkStands, WorkGrows};
ghost use Rattle.nq_lines.specs.Lines.{IsTermIn};
ghost use Rattle.nq_lines.specs.OwnTerms.{HasOwnTerms};
ghost use Rattle.nq_reduce.specs.Rewriting.{IsKnown};
ghost use Rattle.nq_elim.specs.Reasons.{FactHolds, IsReason};

use crate::reasons::Reason;
use nq_arithmetic::kind_line;
use nq_bank::{Sym, TermId};
use nq_history::History;
use nq_kernel::{Stop, Work};
use nq_lines::Fact;
use nq_reduce::{Known, settled};
use nq_rewrite::one_call;

/// The recognizer of the shell at a place.
fn recognizer_at(work: &Work, history: &History, place: usize) -> Option<Sym>
    requires { WorkStands history.now work.now }
    ensures { IfSome result (IsNamed work.now.bank) }
{
    let shells = history.shells();
    let _ = work.bank.alloc();
    if place < shells.len() {
        Some(shells[place].recognizer)
    } else {
        None
    }
}

/// A term that is known to be true, as a fact.
fn fact_of(work: &Work, history: &History, t: TermId, known: Known) -> Option<Fact>
    requires term { IsTermIn history.now work.now t }
    requires known { IsKnown work.now [] (term_at work.now.bank t) known }
    ensures { IfSome result (FactHolds history.now work.now []) }
{
    let _ = (history.len(), work.bank.alloc());
    if known.value {
        Some(Fact {
            term: t,
            line: known.line,
        })
    } else {
        None
    }
}

/// A term as a fact, where it says of a number that it is one, as of a difference.
fn number_fact(work: &mut Work, history: &History, t: TermId) -> Result<Option<Fact>, Stop>
    requires stands { WorkStands history.now work.old }
    requires term { IsTermIn history.now work.old t }
    ensures fact { IfOk result (λ found. IfSome found (FactHolds history.now work.new [])) }
    ensures grows { WorkGrows history.now work.old work.new }
    ensures out { result ≡ Err Stop.OutOfSteps → work.new.counter.used ≡ work.new.counter.limit }
{
    match kind_line(work, history, &[t])? {
        Some(line) => Ok(Some(Fact { term: t, line })),
        None => Ok(None),
    }
}

/// A term as a fact, where it is known to be true.
fn known_fact(work: &mut Work, history: &History, t: TermId) -> Result<Option<Fact>, Stop>
    requires stands { WorkStands history.now work.old }
    requires ready { HasOwnTerms (events_at work.old.bank history.now) }
    requires term { IsTermIn history.now work.old t }
    ensures fact { IfOk result (λ found. IfSome found (FactHolds history.now work.new [])) }
    ensures grows { WorkGrows history.now work.old work.new }
    ensures out { result ≡ Err Stop.OutOfSteps → work.new.counter.used ≡ work.new.counter.limit }
{
    match settled(work, history, &[], t)? {
        Some(known) => Ok(fact_of(work, history, t, known)),
        None => number_fact(work, history, t),
    }
}

/// That this recognizer holds of a call, as a fact, where it must.
fn kind_by(work: &mut Work, history: &History, r: Sym, call: TermId) -> Result<Option<Fact>, Stop>
    requires stands { WorkStands history.now work.old }
    requires ready { HasOwnTerms (events_at work.old.bank history.now) }
    requires recognizer { IsNamed work.old.bank r }
    requires call { IsTermIn history.now work.old call }
    ensures fact { IfOk result (λ found. IfSome found (FactHolds history.now work.new [])) }
    ensures grows { WorkGrows history.now work.old work.new }
    ensures out { result ≡ Err Stop.OutOfSteps → work.new.counter.used ≡ work.new.counter.limit }
{
    match one_call(work, history, r, call)? {
        Some(t) => known_fact(work, history, t),
        None => Ok(None),
    }
}

/// The same of the recognizer of the shell at a place.
fn kind_at(
    work: &mut Work,
    history: &History,
    place: usize,
    call: TermId,
) -> Result<Option<Fact>, Stop>
    requires stands { WorkStands history.now work.old }
    requires ready { HasOwnTerms (events_at work.old.bank history.now) }
    requires call { IsTermIn history.now work.old call }
    ensures fact { IfOk result (λ found. IfSome found (FactHolds history.now work.new [])) }
    ensures grows { WorkGrows history.now work.old work.new }
    ensures out { result ≡ Err Stop.OutOfSteps → work.new.counter.used ≡ work.new.counter.limit }
{
    match recognizer_at(work, history, place) {
        Some(r) => kind_by(work, history, r, call),
        None => Ok(None),
    }
}

/// One more fact.
fn push_fact(facts: &mut Vec<Fact>, fact: Fact) -> Result<(), Stop>
    ensures ok { OnOk result (facts.new.items ≡ facts.old.items ++ fact ∷ []) }
    ensures memory { result ≡ Err Stop.OutOfSteps → ⊥ }
{
    match facts.push(fact) {
        Ok(()) => Ok(()),
        Err(_) => Err(Stop::Memory),
    }
}

/// Adds the kind of the shell at a place, where a call must be of it.
fn add_kind(
    work: &mut Work,
    history: &History,
    found: &mut Vec<Fact>,
    place: usize,
    call: TermId,
) -> Result<(), Stop>
    requires stands { WorkStands history.now work.old }
    requires ready { HasOwnTerms (events_at work.old.bank history.now) }
    requires found { All (FactHolds history.now work.old []) found.old.items }
    requires call { IsTermIn history.now work.old call }
    ensures found { OnOk result (All (FactHolds history.now work.new []) found.new.items) }
    ensures grows { WorkGrows history.now work.old work.new }
    ensures out { result ≡ Err Stop.OutOfSteps → work.new.counter.used ≡ work.new.counter.limit }
{
    match kind_at(work, history, place, call)? {
        Some(fact) => {
            push_fact(found, fact)?;
            Ok(())
        }
        None => Ok(()),
    }
}

/// Adds the kinds of which a call must be.
fn add_kinds(
    work: &mut Work,
    history: &History,
    found: &mut Vec<Fact>,
    call: TermId,
) -> Result<(), Stop>
    requires stands { WorkStands history.now work.old }
    requires ready { HasOwnTerms (events_at work.old.bank history.now) }
    requires found { All (FactHolds history.now work.old []) found.old.items }
    requires call { IsTermIn history.now work.old call }
    ensures found { OnOk result (All (FactHolds history.now work.new []) found.new.items) }
    ensures grows { WorkGrows history.now work.old work.new }
    ensures out { result ≡ Err Stop.OutOfSteps → work.new.counter.used ≡ work.new.counter.limit }
{
    for place in 0..history.shells().len() {
        add_kind(work, history, found, place, call)?;
    }
    Ok(())
}

/// The kinds of which calls must be.
fn kinds_of(work: &mut Work, history: &History, calls: &[TermId]) -> Result<Vec<Fact>, Stop>
    requires stands { WorkStands history.now work.old }
    requires ready { HasOwnTerms (events_at work.old.bank history.now) }
    requires calls { All (IsTermIn history.now work.old) calls.now }
    ensures kinds { IfOk result (λ v. All (FactHolds history.now work.new []) v.items) }
    ensures grows { WorkGrows history.now work.old work.new }
    ensures out { result ≡ Err Stop.OutOfSteps → work.new.counter.used ≡ work.new.counter.limit }
{
    let mut found = Vec::new(work.bank.alloc());
    for call in calls {
        add_kinds(work, history, &mut found, *call)?;
    }
    Ok(found)
}

/// Adds facts, which hold beside these literals too.
fn add_facts(
    work: &Work,
    history: &History,
    these: &[TermId],
    facts: &mut Vec<Fact>,
    more: &[Fact],
) -> Result<(), Stop>
    requires facts { All (FactHolds history.now work.now (terms_at work.now.bank these.now)) facts.old.items }
    requires more { All (FactHolds history.now work.now []) more.now }
    ensures facts { OnOk result (All (FactHolds history.now work.now (terms_at work.now.bank these.now)) facts.new.items) }
    ensures memory { result ≡ Err Stop.OutOfSteps → ⊥ }
{
    let _ = (history.len(), work.bank.alloc(), these.len());
    for fact in more {
        push_fact(facts, *fact)?;
    }
    Ok(())
}

/// A reason with more facts.
fn with_facts(
    work: &Work,
    history: &History,
    goal: &[TermId],
    reason: Reason,
    more: &[Fact],
) -> Result<Reason, Stop>
    requires reason { IsReason history.now work.now goal.now reason }
    requires more { All (FactHolds history.now work.now []) more.now }
    ensures reason { IfOk result (IsReason history.now work.now goal.now) }
    ensures memory { result ≡ Err Stop.OutOfSteps → ⊥ }
{
    let _ = goal.len();
    let Reason {
        equation,
        mut facts,
        cases,
        rest,
    } = reason;
    add_facts(work, history, rest.as_slice(), &mut facts, more)?;
    Ok(Reason {
        equation,
        facts,
        cases,
        rest,
    })
}

/// A reason with the kinds of which these calls must be.
pub fn with_kinds(
    work: &mut Work,
    history: &History,
    goal: &[TermId],
    reason: Reason,
    calls: &[TermId],
) -> Result<Reason, Stop>
    requires stands { WorkStands history.now work.old }
    requires ready { HasOwnTerms (events_at work.old.bank history.now) }
    requires goal { All (IsTermIn history.now work.old) goal.now }
    requires reason { IsReason history.now work.old goal.now reason }
    requires calls { All (IsTermIn history.now work.old) calls.now }
    ensures reason { IfOk result (IsReason history.now work.new goal.now) }
    ensures grows { WorkGrows history.now work.old work.new }
    ensures out { result ≡ Err Stop.OutOfSteps → work.new.counter.used ≡ work.new.counter.limit }
{
    let more = kinds_of(work, history, calls)?;
    with_facts(work, history, goal, reason, more.as_slice())
}
