//! Lines that decide a proposition, from the lines that decide its parts.
ghost use Rattle.std.specs.Prelude.{◌≡◌, ◌∷◌, IfOk};
ghost use Rattle.nq_bank.specs.Content.{term_at};
ghost use Rattle.nq_kernel.specs.Growing.{WorkStands};
ghost use Rattle.nq_quick.specs.declared.heads.Head.TheVariants as head;
ghost use Rattle.nq_quick.specs.Choices.{branch_of};
ghost use Rattle.nq_quick.specs.Decisions.{CanDecide, Decides, IsCaseOf, IsCaseAssignment, denials_at, truth_at};
ghost use Rattle.nq_quick.specs.Heads.{HasHead};
ghost use Rattle.nq_quick.specs.Lines.{LineHasOnly, GrowsUncounted, signed, denial};
ghost use Rattle.nq_quick.specs.Patterns.{IsPattern, IsOpening, case_literals, instance_literals};

use crate::assignments::Assignment;
use crate::choices::add_choice;
use crate::lines::{add_cut, add_either, add_resolved};
use crate::patterns::{Case, Opening, Pattern, add_folding};
use crate::rows::{add_falsity, add_truth};
use crate::truth::{is_true, truth_of_case};
use nq_bank::TermId;
use nq_history::History;
use nq_kernel::Work;
use nq_rule::Branches;
use std::alloc::AllocError;

/// The line of another term and its NOT.
pub fn decide_other(
    work: &mut Work,
    history: &History,
    assignment: &Assignment,
    t: TermId,
) -> Result<u64, AllocError>
    requires stands { WorkStands history.now work.old }
    requires can { CanDecide work.old.bank history.now assignment.now t }
    requires head { HasHead work.old.bank t head.Other }
    ensures line { IfOk result (λ n. Decides work.new n assignment.now t) }
    ensures grows { GrowsUncounted history.now work.old work.new }
{
    work.bank.is_sound();
    add_either(work, history, t)
}

/// The line of T.
pub fn decide_truth(
    work: &mut Work,
    history: &History,
    assignment: &Assignment,
    t: TermId,
) -> Result<u64, AllocError>
    requires stands { WorkStands history.now work.old }
    requires can { CanDecide work.old.bank history.now assignment.now t }
    requires head { HasHead work.old.bank t head.Truth }
    ensures line { IfOk result (λ n. Decides work.new n assignment.now t) }
    ensures grows { GrowsUncounted history.now work.old work.new }
{
    add_truth(work, history)
}

/// The line of the NOT of F.
pub fn decide_falsity(
    work: &mut Work,
    history: &History,
    assignment: &Assignment,
    t: TermId,
) -> Result<u64, AllocError>
    requires stands { WorkStands history.now work.old }
    requires can { CanDecide work.old.bank history.now assignment.now t }
    requires head { HasHead work.old.bank t head.Falsity }
    ensures line { IfOk result (λ n. Decides work.new n assignment.now t) }
    ensures grows { GrowsUncounted history.now work.old work.new }
{
    add_falsity(work, history)
}

/// Decides an IF, from the lines of its test and of the branch that is chosen.
pub fn close_choice(
    work: &mut Work,
    history: &History,
    assignment: &Assignment,
    t: TermId,
    parts: Branches,
    test_line: u64,
    branch_line: u64,
) -> Result<u64, AllocError>
    requires stands { WorkStands history.now work.old }
    requires can { CanDecide work.old.bank history.now assignment.now t }
    requires head { HasHead work.old.bank t (head.Choice parts) }
    requires test { Decides work.old test_line assignment.now parts.test }
    requires branch { Decides work.old branch_line assignment.now (branch_of parts (truth_at work.old.bank assignment.now parts.test)) }
    ensures line { IfOk result (λ n. Decides work.new n assignment.now t) }
    ensures grows { GrowsUncounted history.now work.old work.new }
{
    let test = is_true(&work.bank, parts.test, assignment.trues.as_slice());
    let value = is_true(&work.bank, t, assignment.trues.as_slice());
    add_choice(work, history, t, parts, test, value, test_line, branch_line)
}

/// Decides a NOT, from the line of what stands under it.
pub fn close_denial(
    work: &mut Work,
    history: &History,
    assignment: &Assignment,
    t: TermId,
    p: TermId,
    line: u64,
) -> Result<u64, AllocError>
    requires stands { WorkStands history.now work.old }
    requires can { CanDecide work.old.bank history.now assignment.now t }
    requires head { HasHead work.old.bank t (head.Denial p) }
    requires line { Decides work.old line assignment.now p }
    ensures line { IfOk result (λ n. Decides work.new n assignment.now t) }
    ensures grows { GrowsUncounted history.now work.old work.new }
{
    if !is_true(&work.bank, p, assignment.trues.as_slice()) {
        return Ok(line);
    }
    let either = add_either(work, history, t)?;
    add_cut(work, history, line, either, p)
}

/// Takes the left side from the line of a case.
pub fn close_left(
    work: &mut Work,
    history: &History,
    assignment: &Assignment,
    t: TermId,
    case: Case,
    p: TermId,
    q: TermId,
    line: u64,
    left_line: u64,
) -> Result<u64, AllocError>
    requires stands { WorkStands history.now work.old }
    requires can { CanDecide work.old.bank history.now assignment.now t }
    requires case { IsCaseOf work.old.bank assignment.now t case p q }
    requires line { LineHasOnly work.old line (instance_literals case (term_at work.old.bank p) (term_at work.old.bank q)) }
    requires left { Decides work.old left_line assignment.now p }
    ensures line { IfOk result (λ n. LineHasOnly work.new n (denial case.right (term_at work.old.bank q) ∷ signed (truth_at work.old.bank assignment.now t) (term_at work.old.bank t) ∷ denials_at work.old.bank assignment.now)) }
    ensures grows { GrowsUncounted history.now work.old work.new }
{
    add_resolved(work, history, case.left, p, left_line, line)
}

/// Takes the right side from what is left of the line of a case.
pub fn close_right(
    work: &mut Work,
    history: &History,
    assignment: &Assignment,
    t: TermId,
    case: Case,
    p: TermId,
    q: TermId,
    rest: u64,
    right_line: u64,
) -> Result<u64, AllocError>
    requires stands { WorkStands history.now work.old }
    requires can { CanDecide work.old.bank history.now assignment.now t }
    requires case { IsCaseOf work.old.bank assignment.now t case p q }
    requires rest { LineHasOnly work.old rest (denial case.right (term_at work.old.bank q) ∷ signed (truth_at work.old.bank assignment.now t) (term_at work.old.bank t) ∷ denials_at work.old.bank assignment.now) }
    requires right { Decides work.old right_line assignment.now q }
    ensures line { IfOk result (λ n. Decides work.new n assignment.now t) }
    ensures grows { GrowsUncounted history.now work.old work.new }
{
    add_resolved(work, history, case.right, q, right_line, rest)
}

/// The line of a case for P and Q, from the line that decides the body of the connective's definition.
pub fn close_case(
    work: &mut Work,
    history: &History,
    case: Case,
    pattern: Pattern,
    assignment: &Assignment,
    opened: Opening,
    line: u64,
) -> Result<u64, AllocError>
    requires stands { WorkStands history.now work.old }
    requires pattern { IsPattern work.old.bank case.connective pattern }
    requires assignment { IsCaseAssignment work.old.bank case assignment.now }
    requires opened { IsOpening work.old case.connective opened }
    requires line { Decides work.old line assignment.now opened.body }
    ensures line { IfOk result (λ n. LineHasOnly work.new n (case_literals case)) }
    ensures grows { GrowsUncounted history.now work.old work.new }
{
    let value = truth_of_case(case);
    let folding = add_folding(work, history, case.connective, value, pattern.whole, opened)?;
    add_resolved(work, history, value, opened.body, line, folding)
}
