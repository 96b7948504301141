//! Lines that decide a proposition under an assignment: each has only the proposition or its NOT, as it is true or false, and
//! literals that the assignment makes false.
//!
//! An IF is decided by its test and the branch that is chosen, and a connective by the line of its case, with the two sides in
//! place of P and Q. That line is made once, from the opening of the connective. A side that the line doesn't need isn't
//! decided.
ghost use Rattle.std.specs.Prelude.{◌≡◌, ◌<◌, ◌∷◌, IfOk, false};
ghost use Rattle.nq_logic.specs.Sizes.{depth_of, depth_limit};
ghost use Rattle.nq_bank.specs.Content.{IsIdOf, term_at};
ghost use Rattle.nq_kernel.specs.Growing.{WorkStands};
ghost use Rattle.nq_quick.specs.declared.heads.Head.TheVariants as head;
ghost use Rattle.nq_quick.specs.Decisions.{CanDecide, Decides, IsCaseOf, CanInstantiate, IsCaseAssignment, denials_at, truth_at};
ghost use Rattle.nq_quick.specs.Heads.{HasHead};
ghost use Rattle.nq_quick.specs.Lines.{LineHasOnly, GrowsUncounted, signed, denial};
ghost use Rattle.nq_quick.specs.Patterns.{IsPattern, case_literals, instance_literals};

use crate::assignments::{Assignment, case_assignment, case_of, denials_of};
use crate::choices::branch_of;
use crate::closings::{
    close_case, close_choice, close_denial, close_left, close_right, decide_falsity, decide_other,
    decide_truth,
};
use crate::heads::{Head, head_of};
use crate::instances::add_instance;
use crate::kept::{Kept, find_line, says};
use crate::patterns::{Case, Pattern, open, pattern_of};
use crate::truth::{is_true, truth_of_case};
use nq_bank::TermId;
use nq_history::History;
use nq_kernel::Work;
use nq_rule::Branches;
use std::alloc::AllocError;

/// A line that decides a term.
#[cycle(decisions)]
pub fn decide(
    work: &mut Work,
    history: &History,
    kept: &mut Vec<Kept>,
    assignment: &Assignment,
    t: TermId,
) -> Result<u64, AllocError>
    requires stands { WorkStands history.now work.old }
    requires can { CanDecide work.old.bank history.now assignment.now t }
    ensures line { IfOk result (λ n. Decides work.new n assignment.now t) }
    ensures grows { GrowsUncounted history.now work.old work.new }
{
    let value = is_true(&work.bank, t, assignment.trues.as_slice());
    let denials = assignment.denials.as_slice();
    if let Some(line) = find_line(work, kept.as_slice(), value, t, denials) {
        return Ok(line);
    }
    let line = decide_anew(work, history, kept, assignment, t)?;
    kept.push(Kept { term: t, line })?;
    Ok(line)
}

/// A line that decides a term, where no kept line does.
#[cycle(decisions)]
fn decide_anew(
    work: &mut Work,
    history: &History,
    kept: &mut Vec<Kept>,
    assignment: &Assignment,
    t: TermId,
) -> Result<u64, AllocError>
    requires stands { WorkStands history.now work.old }
    requires can { CanDecide work.old.bank history.now assignment.now t }
    ensures line { IfOk result (λ n. Decides work.new n assignment.now t) }
    ensures grows { GrowsUncounted history.now work.old work.new }
{
    match head_of(&work.bank, t) {
        Head::Other => decide_other(work, history, assignment, t),
        Head::Truth => decide_truth(work, history, assignment, t),
        Head::Falsity => decide_falsity(work, history, assignment, t),
        Head::Choice(parts) => decide_choice(work, history, kept, assignment, t, parts),
        Head::Denial(p) => decide_denial(work, history, kept, assignment, t, p),
        Head::Joined(connective, p, q) => {
            let case = case_of(&work.bank, assignment, connective, p, q);
            decide_joined(work, history, kept, assignment, t, case, p, q)
        }
    }
}

/// A line that decides an IF.
#[cycle(decisions)]
fn decide_choice(
    work: &mut Work,
    history: &History,
    kept: &mut Vec<Kept>,
    assignment: &Assignment,
    t: TermId,
    parts: Branches,
) -> Result<u64, AllocError>
    requires stands { WorkStands history.now work.old }
    requires can { CanDecide work.old.bank history.now assignment.now t }
    requires head { HasHead work.old.bank t (head.Choice parts) }
    ensures line { IfOk result (λ n. Decides work.new n assignment.now t) }
    ensures grows { GrowsUncounted history.now work.old work.new }
{
    let test = is_true(&work.bank, parts.test, assignment.trues.as_slice());
    let branch = branch_of(parts, test);
    let test_line = decide(work, history, kept, assignment, parts.test)?;
    let branch_line = decide(work, history, kept, assignment, branch)?;
    close_choice(work, history, assignment, t, parts, test_line, branch_line)
}

/// A line that decides a NOT.
#[cycle(decisions)]
fn decide_denial(
    work: &mut Work,
    history: &History,
    kept: &mut Vec<Kept>,
    assignment: &Assignment,
    t: TermId,
    p: TermId,
) -> Result<u64, AllocError>
    requires stands { WorkStands history.now work.old }
    requires can { CanDecide work.old.bank history.now assignment.now t }
    requires head { HasHead work.old.bank t (head.Denial p) }
    ensures line { IfOk result (λ n. Decides work.new n assignment.now t) }
    ensures grows { GrowsUncounted history.now work.old work.new }
{
    let line = decide(work, history, kept, assignment, p)?;
    close_denial(work, history, assignment, t, p, line)
}

/// A line that decides a connective of two sides.
#[cycle(decisions)]
fn decide_joined(
    work: &mut Work,
    history: &History,
    kept: &mut Vec<Kept>,
    assignment: &Assignment,
    t: TermId,
    case: Case,
    p: TermId,
    q: TermId,
) -> Result<u64, AllocError>
    requires stands { WorkStands history.now work.old }
    requires can { CanDecide work.old.bank history.now assignment.now t }
    requires case { IsCaseOf work.old.bank assignment.now t case p q }
    ensures line { IfOk result (λ n. Decides work.new n assignment.now t) }
    ensures grows { GrowsUncounted history.now work.old work.new }
{
    let line = instance_line(work, history, kept, case, t, p, q)?;
    let left_line = decide(work, history, kept, assignment, p)?;
    let rest = close_left(work, history, assignment, t, case, p, q, line, left_line)?;
    decide_right(work, history, kept, assignment, t, case, p, q, rest)
}

/// A line that decides a connective, from one that may hold its right side or the NOT of it besides.
#[cycle(decisions)]
fn decide_right(
    work: &mut Work,
    history: &History,
    kept: &mut Vec<Kept>,
    assignment: &Assignment,
    t: TermId,
    case: Case,
    p: TermId,
    q: TermId,
    rest: u64,
) -> Result<u64, AllocError>
    requires stands { WorkStands history.now work.old }
    requires can { CanDecide work.old.bank history.now assignment.now t }
    requires case { IsCaseOf work.old.bank assignment.now t case p q }
    requires rest { LineHasOnly work.old rest (denial case.right (term_at work.old.bank q) ∷ signed (truth_at work.old.bank assignment.now t) (term_at work.old.bank t) ∷ denials_at work.old.bank assignment.now) }
    ensures line { IfOk result (λ n. Decides work.new n assignment.now t) }
    ensures grows { GrowsUncounted history.now work.old work.new }
{
    let value = is_true(&work.bank, t, assignment.trues.as_slice());
    if says(work, rest, value, t, assignment.denials.as_slice()) {
        return Ok(rest);
    }
    let line = decide(work, history, kept, assignment, q)?;
    close_right(work, history, assignment, t, case, p, q, rest, line)
}

/// The line of a case for two terms.
#[cycle(decisions)]
fn instance_line(
    work: &mut Work,
    history: &History,
    kept: &mut Vec<Kept>,
    case: Case,
    t: TermId,
    p: TermId,
    q: TermId,
) -> Result<u64, AllocError>
    requires stands { WorkStands history.now work.old }
    requires can { CanInstantiate work.old.bank history.now case t p q }
    ensures line { IfOk result (λ n. LineHasOnly work.new n (instance_literals case (term_at work.old.bank p) (term_at work.old.bank q))) }
    ensures grows { GrowsUncounted history.now work.old work.new }
{
    let literals = denials_of(work, history, case, p, q)?;
    let value = truth_of_case(case);
    if let Some(line) = find_line(work, kept.as_slice(), value, t, literals.as_slice()) {
        return Ok(line);
    }
    let line = case_line(work, history, kept, case)?;
    let line = add_instance(work, history, case, line, t, p, q)?;
    kept.push(Kept { term: t, line })?;
    Ok(line)
}

/// The line of a case for P and Q.
#[cycle(decisions)]
fn case_line(
    work: &mut Work,
    history: &History,
    kept: &mut Vec<Kept>,
    case: Case,
) -> Result<u64, AllocError>
    requires { WorkStands history.now work.old }
    ensures line { IfOk result (λ n. LineHasOnly work.new n (case_literals case)) }
    ensures grows { GrowsUncounted history.now work.old work.new }
{
    let pattern = pattern_of(work, history, case.connective)?;
    let assignment = case_assignment(work, history, case, pattern)?;
    let value = truth_of_case(case);
    let literals = assignment.denials.as_slice();
    if let Some(line) = find_line(work, kept.as_slice(), value, pattern.whole, literals) {
        return Ok(line);
    }
    let line = case_line_anew(work, history, kept, case, pattern, &assignment)?;
    kept.push(Kept {
        term: pattern.whole,
        line,
    })?;
    Ok(line)
}

/// The line of a case for P and Q, from the opening of the connective.
#[cycle(decisions)]
fn case_line_anew(
    work: &mut Work,
    history: &History,
    kept: &mut Vec<Kept>,
    case: Case,
    pattern: Pattern,
    assignment: &Assignment,
) -> Result<u64, AllocError>
    requires stands { WorkStands history.now work.old }
    requires pattern { IsPattern work.old.bank case.connective pattern }
    requires assignment { IsCaseAssignment work.old.bank case assignment.now }
    ensures line { IfOk result (λ n. LineHasOnly work.new n (case_literals case)) }
    ensures grows { GrowsUncounted history.now work.old work.new }
{
    let opened = open(work, history, case.connective)?;
    let line = decide(work, history, kept, assignment, opened.body)?;
    close_case(work, history, case, pattern, assignment, opened, line)
}
