//! The way back from the goals to which an elimination led.
ghost use Rattle.std.specs.Prelude.{◌≡◌, ◌∷◌, ◌++◌, [], All, IfOk, Err};
ghost use Rattle.nq_bank.specs.Content.{terms_at};
ghost use Rattle.nq_kernel.specs.Growing.{WorkStands, WorkGrows, LineStands};
ghost use Rattle.nq_lines.specs.Lines.{IsTermIn, LineHasOnly};
ghost use Rattle.nq_moves.specs.Dropped.{HoldChildren};
ghost use Rattle.nq_moves.specs.Found.{goals_at};
ghost use Rattle.nq_moves.specs.Ways.{IsMove};
ghost use Rattle.nq_elim.specs.Cases.{CaseStands, CaseCloses, case_goals, literals_at};
ghost use Rattle.nq_elim.specs.Reasons.{FactHolds, IsReason, denied_at, whole_at};
ghost use Rattle.nq_elim.specs.Eliminations.{IsRenamedClause, IsEliminationWay};

use crate::cases::Case;
use crate::lists::copied_pairs;
use crate::making::Elimination;
use crate::reasons::Reason;
use nq_bank::TermId;
use nq_history::History;
use nq_kernel::{Stop, Work};
use nq_lines::{Fact, cut};
use nq_moves::{close_move, put_back};

/// Adds a line without the literal of a case, from one with it, and from one with its opposite.
fn close_case(
    work: &mut Work,
    history: &History,
    case: Case,
    line: u64,
    other: u64,
) -> Result<u64, Stop>
    requires stands { WorkStands history.now work.old }
    requires case { CaseStands history.now work.old case }
    requires line { LineStands work.old line }
    requires other { LineStands work.old other }
    ensures line { IfOk result (λ n. CaseCloses work.old work.new case line other n) }
    ensures grows { WorkGrows history.now work.old work.new }
    ensures out { result ≡ Err Stop.OutOfSteps → work.new.counter.used ≡ work.new.counter.limit }
{
    if case.denied {
        cut(work, history, other, line, case.other)
    } else {
        cut(work, history, line, other, case.literal)
    }
}

/// Adds the line of a goal, from one that has the literals of the cases too, and from those of the goals of the cases.
fn close_cases(
    work: &mut Work,
    history: &History,
    goal: &[TermId],
    cases: &[Case],
    lines: &[u64],
    line: u64,
) -> Result<u64, Stop>
    requires stands { WorkStands history.now work.old }
    requires goal { All (IsTermIn history.now work.old) goal.now }
    requires cases { All (CaseStands history.now work.old) cases.now }
    requires lines { HoldChildren work.old (case_goals work.old.bank cases.now (terms_at work.old.bank goal.now)) lines.now }
    requires line { LineHasOnly work.old line (literals_at work.old.bank cases.now ++ terms_at work.old.bank goal.now) }
    ensures line { IfOk result (λ n. LineHasOnly work.new n (terms_at work.old.bank goal.now)) }
    ensures grows { WorkGrows history.now work.old work.new }
    ensures out { result ≡ Err Stop.OutOfSteps → work.new.counter.used ≡ work.new.counter.limit }
{
    let mut left = line;
    for i in 0..cases.len() {
        left = close_case(work, history, cases[i], left, lines[i])?;
    }
    Ok(left)
}

/// Adds the line of the rest, from one that has the denials of facts too.
fn close_facts(
    work: &mut Work,
    history: &History,
    rest: &[TermId],
    facts: &[Fact],
    line: u64,
) -> Result<u64, Stop>
    requires stands { WorkStands history.now work.old }
    requires facts { All (FactHolds history.now work.old (terms_at work.old.bank rest.now)) facts.now }
    requires line { LineHasOnly work.old line (denied_at work.old.bank facts.now ++ terms_at work.old.bank rest.now) }
    ensures line { IfOk result (λ n. LineHasOnly work.new n (terms_at work.old.bank rest.now)) }
    ensures grows { WorkGrows history.now work.old work.new }
    ensures out { result ≡ Err Stop.OutOfSteps → work.new.counter.used ≡ work.new.counter.limit }
{
    let _ = rest.len();
    let mut left = line;
    for fact in facts {
        left = cut(work, history, fact.line, left, fact.term)?;
    }
    Ok(left)
}

/// Adds the line of the goal beside the denied facts and the literals of the cases, from that of the first goal.
fn close_first(
    work: &mut Work,
    history: &History,
    elimination: &Elimination,
    line: u64,
) -> Result<u64, Stop>
    requires stands { WorkStands history.now work.old }
    requires renaming { IsRenamedClause history.now work.old (whole_at work.old.bank elimination.now.reason) elimination.now.renaming }
    requires moved { IsMove history.now work.old elimination.now.renaming.literals.items elimination.now.moved }
    requires line { HoldChildren work.old (goals_at work.old.bank elimination.now.moved.children.items) (line ∷ []) }
    ensures line { IfOk result (λ n. LineHasOnly work.new n (whole_at work.old.bank elimination.now.reason)) }
    ensures grows { WorkGrows history.now work.old work.new }
    ensures out { result ≡ Err Stop.OutOfSteps → work.new.counter.used ≡ work.new.counter.limit }
{
    let renaming = &elimination.renaming;
    let renamed = close_move(
        work,
        history,
        renaming.literals.as_slice(),
        &elimination.moved,
        &[line],
    )?;
    let pairs = copied_pairs(work.bank.alloc(), renaming.pairs.as_slice())?;
    put_back(work, history, renamed, pairs)
}

/// Adds the line of a goal, from that of the goal beside the denied facts and the literals of the cases, and from those of the goals
/// of the cases.
fn close_rest(
    work: &mut Work,
    history: &History,
    goal: &[TermId],
    reason: &Reason,
    whole: u64,
    lines: &[u64],
) -> Result<u64, Stop>
    requires stands { WorkStands history.now work.old }
    requires goal { All (IsTermIn history.now work.old) goal.now }
    requires reason { IsReason history.now work.old goal.now reason.now }
    requires whole { LineHasOnly work.old whole (whole_at work.old.bank reason.now) }
    requires lines { HoldChildren work.old (case_goals work.old.bank reason.now.cases.items (terms_at work.old.bank goal.now)) lines.now }
    ensures line { IfOk result (λ n. LineHasOnly work.new n (terms_at work.old.bank goal.now)) }
    ensures grows { WorkGrows history.now work.old work.new }
    ensures out { result ≡ Err Stop.OutOfSteps → work.new.counter.used ≡ work.new.counter.limit }
{
    let line = close_facts(
        work,
        history,
        reason.rest.as_slice(),
        reason.facts.as_slice(),
        whole,
    )?;
    close_cases(work, history, goal, reason.cases.as_slice(), lines, line)
}

/// Adds a line with only literals of a goal, from such lines of the goals to which its elimination led.
pub fn close_elimination(
    work: &mut Work,
    history: &History,
    goal: &[TermId],
    elimination: &Elimination,
    lines: &[u64],
) -> Result<u64, Stop>
    requires stands { WorkStands history.now work.old }
    requires goal { All (IsTermIn history.now work.old) goal.now }
    requires way { IsEliminationWay history.now work.old goal.now elimination.now }
    requires lines { HoldChildren work.old (goals_at work.old.bank elimination.now.nexts.items) lines.now }
    ensures line { IfOk result (λ n. LineHasOnly work.new n (terms_at work.old.bank goal.now)) }
    ensures grows { WorkGrows history.now work.old work.new }
    ensures out { result ≡ Err Stop.OutOfSteps → work.new.counter.used ≡ work.new.counter.limit }
{
    match lines {
        [first, others @ ..] => {
            let whole = close_first(work, history, elimination, *first)?;
            close_rest(work, history, goal, &elimination.reason, whole, others)
        }
        [] => unreachable!(),
    }
}
