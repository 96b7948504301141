//! Assignments of truth to terms.
ghost use Rattle.std.specs.Prelude.{◌≡◌, ◌<◌, ◌∷◌, [], All, IfOk};
ghost use Rattle.nq_logic.specs.Sizes.{depth_of, depth_limit};
ghost use Rattle.nq_bank.specs.Content.{Stands, term_at, terms_at};
ghost use Rattle.nq_kernel.specs.Growing.{WorkStands};
ghost use Rattle.nq_quick.specs.Decisions.{AssignmentStands, IsCaseAssignment, true_sides, truth_at};
ghost use Rattle.nq_quick.specs.Lines.{GrowsUncounted, denial};
ghost use Rattle.nq_quick.specs.Patterns.{IsPattern};

use crate::lines::denial_of;
use crate::patterns::{Case, Pattern};
use crate::truth::is_true;
use nq_bank::{Bank, TermId};
use nq_fragments::Connective;
use nq_history::History;
use nq_kernel::Work;
use std::alloc::{AllocError, Global};

/// Terms that are true, all others being false, and literals that are false then.
#[derive(Drop)]
pub struct Assignment {
    /// The terms that are true.
    pub trues: Vec<TermId>,
    /// Literals that are false.
    pub denials: Vec<TermId>,
}

/// The case of a connective under an assignment.
pub fn case_of(
    bank: &Bank,
    assignment: &Assignment,
    connective: Connective,
    left: TermId,
    right: TermId,
) -> Case
    requires left { Stands bank.now left }
    requires right { Stands bank.now right }
    requires assignment { AssignmentStands bank.now assignment.now }
    ensures { result ≡ record { connective = connective; left = truth_at bank.now assignment.now left; right = truth_at bank.now assignment.now right } }
{
    let trues = assignment.trues.as_slice();
    Case {
        connective,
        left: is_true(bank, left, trues),
        right: is_true(bank, right, trues),
    }
}

/// The literals that are false in a case of two terms.
pub fn denials_of(
    work: &mut Work,
    history: &History,
    case: Case,
    p: TermId,
    q: TermId,
) -> Result<Vec<TermId>, AllocError>
    requires stands { WorkStands history.now work.old }
    requires left { Stands work.old.bank p }
    requires right { Stands work.old.bank q }
    requires left_room { depth_of (term_at work.old.bank p) < depth_limit }
    requires right_room { depth_of (term_at work.old.bank q) < depth_limit }
    ensures stand { IfOk result (λ ids. All (Stands work.new.bank) ids.items) }
    ensures denials { IfOk result (λ ids. terms_at work.new.bank ids.items ≡ denial case.left (term_at work.old.bank p) ∷ denial case.right (term_at work.old.bank q) ∷ []) }
    ensures grows { GrowsUncounted history.now work.old work.new }
{
    let left = denial_of(work, history, case.left, p)?;
    let right = denial_of(work, history, case.right, q)?;
    Ok(vec![in work.bank.alloc(); left, right]?)
}

/// The assignment of a case to P and Q.
pub fn case_assignment(
    work: &mut Work,
    history: &History,
    case: Case,
    pattern: Pattern,
) -> Result<Assignment, AllocError>
    requires stands { WorkStands history.now work.old }
    requires pattern { IsPattern work.old.bank case.connective pattern }
    ensures assignment { IfOk result (λ a. IsCaseAssignment work.new.bank case a) }
    ensures grows { GrowsUncounted history.now work.old work.new }
{
    let denials = denials_of(work, history, case, pattern.left, pattern.right)?;
    let trues = true_sides(work.bank.alloc(), case, pattern.left, pattern.right)?;
    Ok(Assignment { trues, denials })
}

/// Those of two terms that are true in a case.
fn true_sides(
    alloc: Global,
    case: Case,
    left: TermId,
    right: TermId,
) -> Result<Vec<TermId>, AllocError>
    ensures { IfOk result (λ ids. ids.items ≡ true_sides case.left case.right left right) }
{
    if case.left {
        if case.right {
            Ok(vec![in alloc; left, right]?)
        } else {
            Ok(vec![in alloc; left]?)
        }
    } else if case.right {
        Ok(vec![in alloc; right]?)
    } else {
        Ok(Vec::new(alloc))
    }
}
