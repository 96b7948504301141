//! Why a variable can give way: a line with the equation that says what it is, and with literals of which each is a case or stands in
//! the goal.
ghost use Rattle.std.specs.Prelude.{◌≡◌, ◌∷◌, ◌++◌, [], All, IfOk, IfSome, IsTrue, Err};
ghost use Rattle.nq_bank.specs.Content.{term_at, terms_at};
ghost use Rattle.nq_kernel.specs.Growing.{WorkStands, WorkGrows};
ghost use Rattle.nq_lines.specs.Lines.{IsTermIn, LineHasOnly};
ghost use Rattle.nq_reduce.specs.Clauses.{AreLiterals};
ghost use Rattle.nq_elim.specs.Reasons.{FactHolds, IsReason};

use crate::cases::{Case, cases_of, is_case};
use crate::lists::{are_among, has_id, joined, push_id, with_first};
use nq_bank::{Bank, TermId};
use nq_history::History;
use nq_kernel::{Stop, Work};
use nq_lines::Fact;
use std::alloc::Global;

/// The equation that says what a variable is, and what else is known where the goal and its cases fail.
#[derive(Drop)]
pub struct Reason {
    /// The equation.
    pub equation: TermId,
    /// The equation, and what is known beside it. The line of each has only it and the literals of the rest.
    pub facts: Vec<Fact>,
    /// The literals of the equation's line that do not stand in the goal, as cases.
    pub cases: Vec<Case>,
    /// These literals, and then the goal's.
    pub rest: Vec<TermId>,
}

/// The literals other than the equation that do not stand in the goal.
fn new_literals(
    work: &Work,
    history: &History,
    goal: &[TermId],
    equation: TermId,
    literals: &[TermId],
) -> Result<Vec<TermId>, Stop>
    requires { All (IsTermIn history.now work.now) literals.now }
    ensures literals { IfOk result (λ v. All (IsTermIn history.now work.now) v.items) }
    ensures memory { result ≡ Err Stop.OutOfSteps → ⊥ }
{
    let _ = history.len();
    let mut kept = Vec::new(work.bank.alloc());
    for literal in literals {
        if literal.0 != equation.0 && !has_id(&work.bank, goal, *literal) {
            push_id(&mut kept, *literal)?;
        }
    }
    Ok(kept)
}

/// Has a line of these literals only the equation and the rest?
fn has_only(
    work: &Work,
    history: &History,
    line: u64,
    literals: &[TermId],
    equation: TermId,
    rest: &[TermId],
) -> Result<bool, Stop>
    requires literals { AreLiterals history.now work.now line literals.now }
    requires equation { IsTermIn history.now work.now equation }
    requires rest { All (IsTermIn history.now work.now) rest.now }
    ensures only { IfOk result (λ b. IsTrue b → LineHasOnly work.now line (term_at work.now.bank equation ∷ terms_at work.now.bank rest.now)) }
    ensures memory { result ≡ Err Stop.OutOfSteps → ⊥ }
{
    let _ = history.len();
    let these = with_first(work.bank.alloc(), equation, rest)?;
    Ok(are_among(&work.bank, literals, these.as_slice()))
}

/// A list of one fact.
fn one_fact(alloc: Global, fact: Fact) -> Result<Vec<Fact>, Stop>
    ensures ok { IfOk result (λ v. v.items ≡ fact ∷ []) }
    ensures memory { result ≡ Err Stop.OutOfSteps → ⊥ }
{
    match Vec::from_slice(alloc, &[fact]) {
        Ok(v) => Ok(v),
        Err(_) => Err(Stop::Memory),
    }
}

/// The reason of a line, whose further literals are known.
fn reason_with(
    work: &mut Work,
    history: &History,
    goal: &[TermId],
    line: u64,
    literals: &[TermId],
    equation: TermId,
    more: &[TermId],
) -> Result<Option<Reason>, Stop>
    requires stands { WorkStands history.now work.old }
    requires goal { All (IsTermIn history.now work.old) goal.now }
    requires literals { AreLiterals history.now work.old line literals.now }
    requires equation { IsTermIn history.now work.old equation }
    requires more { All (IsTermIn history.now work.old) more.now }
    ensures reason { IfOk result (λ found. IfSome found (IsReason history.now work.new goal.now)) }
    ensures grows { WorkGrows history.now work.old work.new }
    ensures out { result ≡ Err Stop.OutOfSteps → work.new.counter.used ≡ work.new.counter.limit }
{
    let rest = joined(work.bank.alloc(), more, goal)?;
    if !has_only(work, history, line, literals, equation, rest.as_slice())? {
        return Ok(None);
    }
    let cases = cases_of(work, history, more)?;
    let facts = one_fact(
        work.bank.alloc(),
        Fact {
            term: equation,
            line,
        },
    )?;
    Ok(Some(Reason {
        equation,
        facts,
        cases,
        rest,
    }))
}

/// The reason of a line of these literals, of which one is the equation. It is none where the goal is one of its cases.
pub fn reason_of(
    work: &mut Work,
    history: &History,
    goal: &[TermId],
    line: u64,
    literals: &[TermId],
    equation: TermId,
) -> Result<Option<Reason>, Stop>
    requires stands { WorkStands history.now work.old }
    requires goal { All (IsTermIn history.now work.old) goal.now }
    requires literals { AreLiterals history.now work.old line literals.now }
    requires equation { IsTermIn history.now work.old equation }
    ensures reason { IfOk result (λ found. IfSome found (IsReason history.now work.new goal.now)) }
    ensures grows { WorkGrows history.now work.old work.new }
    ensures out { result ≡ Err Stop.OutOfSteps → work.new.counter.used ≡ work.new.counter.limit }
{
    let more = new_literals(work, history, goal, equation, literals)?;
    reason_with(
        work,
        history,
        goal,
        line,
        literals,
        equation,
        more.as_slice(),
    )
}

/// The reason of an equation that a line shows beside the goal. It has no cases.
pub fn reason_beside(
    work: &Work,
    history: &History,
    goal: &[TermId],
    fact: Fact,
) -> Result<Reason, Stop>
    requires goal { All (IsTermIn history.now work.now) goal.now }
    requires fact { FactHolds history.now work.now (terms_at work.now.bank goal.now) fact }
    ensures reason { IfOk result (IsReason history.now work.now goal.now) }
    ensures memory { result ≡ Err Stop.OutOfSteps → ⊥ }
{
    let _ = history.len();
    let alloc = work.bank.alloc();
    let rest = joined(alloc, &[], goal)?;
    let facts = one_fact(alloc, fact)?;
    let cases = Vec::new(alloc);
    Ok(Reason {
        equation: fact.term,
        facts,
        cases,
        rest,
    })
}

/// The reason of an equation that a line shows beside these literals and the goal. The literals are its cases.
pub fn reason_where(
    work: &mut Work,
    history: &History,
    goal: &[TermId],
    more: &[TermId],
    fact: Fact,
) -> Result<Reason, Stop>
    requires stands { WorkStands history.now work.old }
    requires goal { All (IsTermIn history.now work.old) goal.now }
    requires more { All (IsTermIn history.now work.old) more.now }
    requires fact { FactHolds history.now work.old (terms_at work.old.bank (more.now ++ goal.now)) fact }
    ensures reason { IfOk result (IsReason history.now work.new goal.now) }
    ensures grows { WorkGrows history.now work.old work.new }
    ensures out { result ≡ Err Stop.OutOfSteps → work.new.counter.used ≡ work.new.counter.limit }
{
    let rest = joined(work.bank.alloc(), more, goal)?;
    let cases = cases_of(work, history, more)?;
    let facts = one_fact(work.bank.alloc(), fact)?;
    Ok(Reason {
        equation: fact.term,
        facts,
        cases,
        rest,
    })
}

/// Is the goal one of the cases of a reason?
pub fn is_futile(bank: &Bank, reason: &Reason, goal: &[TermId]) -> bool {
    is_case(bank, reason.cases.as_slice(), goal)
}
