//! ELIM: the move.
ghost use Rattle.std.specs.Prelude.{◌≡◌, All, IfOk, IfSome, Err};
ghost use Rattle.nq_bank.specs.Content.{terms_at};
ghost use Rattle.nq_history.specs.Events.{events_at};
ghost use Rattle.nq_kernel.specs.Growing.{WorkStands, WorkGrows};
ghost use Rattle.nq_kernel.specs.Ready.{IsReady};
ghost use Rattle.nq_lines.specs.Lines.{IsTermIn};
ghost use Rattle.nq_lines.specs.OwnTerms.{HasOwnTerms};
ghost use Rattle.nq_reduce.specs.Clauses.{AreLiterals, LineIsIn};
ghost use Rattle.nq_elim.specs.Candidates.{CandidateStands};
ghost use Rattle.nq_elim.specs.Eliminations.{IsEliminationWay};
ghost use Rattle.nq_elim.specs.Reasons.{FactHolds, IsReason};

use crate::candidates::{Candidate, candidates_of, ranked};
use crate::destructors::{destructor_calls, equation_among};
use crate::kinds::with_kinds;
use crate::making::{Elimination, eliminated};
use crate::reasons::{Reason, is_futile, reason_beside, reason_of};
use crate::rows::{literals_of, shell_line};
use nq_bank::TermId;
use nq_history::{Hints, History};
use nq_kernel::{Stop, Work};
use nq_lines::Fact;
use nq_ready::own_terms;

/// The elimination for a reason. It is none where the goal is one of its cases.
pub fn by_reason(
    work: &mut Work,
    history: &History,
    hints: &Hints,
    goal: &[TermId],
    reason: Reason,
) -> Result<Option<Elimination>, Stop>
    requires stands { WorkStands history.now work.old }
    requires ready { HasOwnTerms (events_at work.old.bank history.now) }
    requires goal { All (IsTermIn history.now work.old) goal.now }
    requires reason { IsReason history.now work.old goal.now reason }
    ensures way { IfOk result (λ found. IfSome found (IsEliminationWay history.now work.new goal.now)) }
    ensures grows { WorkGrows history.now work.old work.new }
    ensures out { result ≡ Err Stop.OutOfSteps → work.new.counter.used ≡ work.new.counter.limit }
{
    if is_futile(&work.bank, &reason, goal) {
        return Ok(None);
    }
    let calls = destructor_calls(work, history, reason.equation)?;
    let reason = with_kinds(work, history, goal, reason, calls.as_slice())?;
    eliminated(work, history, hints, goal, reason, calls.as_slice())
}

/// The elimination by a line of these literals, of which one is the equation.
fn by_equation(
    work: &mut Work,
    history: &History,
    hints: &Hints,
    goal: &[TermId],
    line: u64,
    literals: &[TermId],
    equation: TermId,
) -> Result<Option<Elimination>, Stop>
    requires stands { WorkStands history.now work.old }
    requires ready { HasOwnTerms (events_at work.old.bank history.now) }
    requires goal { All (IsTermIn history.now work.old) goal.now }
    requires literals { AreLiterals history.now work.old line literals.now }
    requires equation { IsTermIn history.now work.old equation }
    ensures way { IfOk result (λ found. IfSome found (IsEliminationWay history.now work.new goal.now)) }
    ensures grows { WorkGrows history.now work.old work.new }
    ensures out { result ≡ Err Stop.OutOfSteps → work.new.counter.used ≡ work.new.counter.limit }
{
    match reason_of(work, history, goal, line, literals, equation)? {
        Some(reason) => by_reason(work, history, hints, goal, reason),
        None => Ok(None),
    }
}

/// The elimination by a line of these literals.
fn by_literals(
    work: &mut Work,
    history: &History,
    hints: &Hints,
    goal: &[TermId],
    line: u64,
    literals: &[TermId],
) -> Result<Option<Elimination>, Stop>
    requires stands { WorkStands history.now work.old }
    requires ready { HasOwnTerms (events_at work.old.bank history.now) }
    requires goal { All (IsTermIn history.now work.old) goal.now }
    requires literals { AreLiterals history.now work.old line literals.now }
    ensures way { IfOk result (λ found. IfSome found (IsEliminationWay history.now work.new goal.now)) }
    ensures grows { WorkGrows history.now work.old work.new }
    ensures out { result ≡ Err Stop.OutOfSteps → work.new.counter.used ≡ work.new.counter.limit }
{
    match equation_among(work, history, literals) {
        Some(equation) => by_equation(work, history, hints, goal, line, literals, equation),
        None => Ok(None),
    }
}

/// The elimination by a line that says what a variable is.
fn by_line(
    work: &mut Work,
    history: &History,
    hints: &Hints,
    goal: &[TermId],
    line: u64,
) -> Result<Option<Elimination>, Stop>
    requires stands { WorkStands history.now work.old }
    requires ready { HasOwnTerms (events_at work.old.bank history.now) }
    requires goal { All (IsTermIn history.now work.old) goal.now }
    requires line { LineIsIn history.now work.old line }
    ensures way { IfOk result (λ found. IfSome found (IsEliminationWay history.now work.new goal.now)) }
    ensures grows { WorkGrows history.now work.old work.new }
    ensures out { result ≡ Err Stop.OutOfSteps → work.new.counter.used ≡ work.new.counter.limit }
{
    let literals = literals_of(work, history, line)?;
    by_literals(work, history, hints, goal, line, literals.as_slice())
}

/// The elimination of a candidate.
fn by_candidate(
    work: &mut Work,
    history: &History,
    hints: &Hints,
    goal: &[TermId],
    c: Candidate,
) -> Result<Option<Elimination>, Stop>
    requires stands { WorkStands history.now work.old }
    requires ready { HasOwnTerms (events_at work.old.bank history.now) }
    requires goal { All (IsTermIn history.now work.old) goal.now }
    requires candidate { CandidateStands history.now work.old c }
    ensures way { IfOk result (λ found. IfSome found (IsEliminationWay history.now work.new goal.now)) }
    ensures grows { WorkGrows history.now work.old work.new }
    ensures out { result ≡ Err Stop.OutOfSteps → work.new.counter.used ≡ work.new.counter.limit }
{
    match shell_line(work, history, c.place, c.variable)? {
        Some(line) => by_line(work, history, hints, goal, line),
        None => Ok(None),
    }
}

/// The elimination of the candidate of a rank.
fn by_rank(
    work: &mut Work,
    history: &History,
    hints: &Hints,
    goal: &[TermId],
    candidates: &[Candidate],
    rank: usize,
) -> Result<Option<Elimination>, Stop>
    requires stands { WorkStands history.now work.old }
    requires ready { HasOwnTerms (events_at work.old.bank history.now) }
    requires goal { All (IsTermIn history.now work.old) goal.now }
    requires candidates { All (CandidateStands history.now work.old) candidates.now }
    ensures way { IfOk result (λ found. IfSome found (IsEliminationWay history.now work.new goal.now)) }
    ensures grows { WorkGrows history.now work.old work.new }
    ensures out { result ≡ Err Stop.OutOfSteps → work.new.counter.used ≡ work.new.counter.limit }
{
    match ranked(work, history, candidates, rank) {
        Some(c) => by_candidate(work, history, hints, goal, c),
        None => Ok(None),
    }
}

/// The elimination of the first candidate from a rank on that can be eliminated.
fn from_rank(
    work: &mut Work,
    history: &History,
    hints: &Hints,
    goal: &[TermId],
    candidates: &[Candidate],
    first: usize,
) -> Result<Option<Elimination>, Stop>
    requires stands { WorkStands history.now work.old }
    requires ready { HasOwnTerms (events_at work.old.bank history.now) }
    requires goal { All (IsTermIn history.now work.old) goal.now }
    requires candidates { All (CandidateStands history.now work.old) candidates.now }
    ensures way { IfOk result (λ found. IfSome found (IsEliminationWay history.now work.new goal.now)) }
    ensures grows { WorkGrows history.now work.old work.new }
    ensures out { result ≡ Err Stop.OutOfSteps → work.new.counter.used ≡ work.new.counter.limit }
{
    for rank in first..candidates.len() {
        if let Some(found) = by_rank(work, history, hints, goal, candidates, rank)? {
            return Ok(Some(found));
        }
    }
    Ok(None)
}

/// ELIM: a variable of which the goal speaks by its parts gives way to what the parts make. The turn is the number of ways that were
/// tried before; it is none where there are no more.
pub fn eliminate(
    work: &mut Work,
    history: &History,
    hints: &Hints,
    goal: &[TermId],
    turn: u32,
) -> Result<Option<Elimination>, Stop>
    requires stands { WorkStands history.now work.old }
    requires ready { IsReady (events_at work.old.bank history.now) }
    requires goal { All (IsTermIn history.now work.old) goal.now }
    ensures found { IfOk result (λ found. IfSome found (IsEliminationWay history.now work.new goal.now)) }
    ensures grows { WorkGrows history.now work.old work.new }
    ensures out { result ≡ Err Stop.OutOfSteps → work.new.counter.used ≡ work.new.counter.limit }
{
    own_terms();
    let candidates = candidates_of(work, history, goal)?;
    from_rank(
        work,
        history,
        hints,
        goal,
        candidates.as_slice(),
        turn as usize,
    )
}

/// The elimination of a variable by an equation that a line shows beside the goal.
pub fn eliminate_by(
    work: &mut Work,
    history: &History,
    hints: &Hints,
    goal: &[TermId],
    fact: Fact,
) -> Result<Option<Elimination>, Stop>
    requires stands { WorkStands history.now work.old }
    requires goal { All (IsTermIn history.now work.old) goal.now }
    requires fact { FactHolds history.now work.old (terms_at work.old.bank goal.now) fact }
    ensures way { IfOk result (λ found. IfSome found (IsEliminationWay history.now work.new goal.now)) }
    ensures grows { WorkGrows history.now work.old work.new }
    ensures out { result ≡ Err Stop.OutOfSteps → work.new.counter.used ≡ work.new.counter.limit }
{
    let reason = reason_beside(work, history, goal, fact)?;
    eliminated(work, history, hints, goal, reason, &[])
}
