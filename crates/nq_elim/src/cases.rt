//! The further literals of a fact. Each is a case of its own: the goal is to be shown beside the opposite of the literal.
ghost use Rattle.std.specs.Prelude.{◌≡◌, ◌++◌, ◌∷◌, [], All, IfOk, OnOk, Err, map};
ghost use Rattle.nq_kernel.specs.Growing.{WorkStands, WorkGrows};
ghost use Rattle.nq_lines.specs.Lines.{IsTermIn};
ghost use Rattle.nq_elim.specs.Cases.{CaseStands, next_ids};

use crate::lists::{has_id, with_first};
use nq_bank::{Bank, TermId, ground};
use nq_history::History;
use nq_kernel::{Stop, Work};
use nq_lines::deny;
use nq_rules::one_of;
use std::alloc::Global;

/// A literal of a fact, and its opposite.
#[derive(Clone, Copy, Debug, PartialEq, Eq)]
pub struct Case {
    /// The literal.
    pub literal: TermId,
    /// The term whose NOT the literal is, or the NOT of the literal.
    pub other: TermId,
    /// Is the literal the NOT of the other?
    pub denied: bool,
}

/// The case of a literal.
fn case_of(work: &mut Work, history: &History, literal: TermId) -> Result<Case, Stop>
    requires stands { WorkStands history.now work.old }
    requires literal { IsTermIn history.now work.old literal }
    ensures case { IfOk result (CaseStands history.now work.new) }
    ensures literal { IfOk result (λ c. c.literal ≡ literal) }
    ensures grows { WorkGrows history.now work.old work.new }
    ensures out { result ≡ Err Stop.OutOfSteps → work.new.counter.used ≡ work.new.counter.limit }
{
    match one_of(&work.bank, ground::NOT, literal) {
        Some(other) => Ok(Case {
            literal,
            other,
            denied: true,
        }),
        None => {
            let other = deny(work, history, literal)?;
            Ok(Case {
                literal,
                other,
                denied: false,
            })
        }
    }
}

/// One more case.
fn push_case(cases: &mut Vec<Case>, case: Case) -> Result<(), Stop>
    ensures ok { OnOk result (cases.new.items ≡ cases.old.items ++ case ∷ []) }
    ensures memory { result ≡ Err Stop.OutOfSteps → ⊥ }
{
    match cases.push(case) {
        Ok(()) => Ok(()),
        Err(_) => Err(Stop::Memory),
    }
}

/// The cases of literals.
pub fn cases_of(work: &mut Work, history: &History, literals: &[TermId]) -> Result<Vec<Case>, Stop>
    requires stands { WorkStands history.now work.old }
    requires literals { All (IsTermIn history.now work.old) literals.now }
    ensures cases { IfOk result (λ v. All (CaseStands history.now work.new) v.items) }
    ensures literals { IfOk result (λ v. map (λ c. c.literal) v.items ≡ literals.now) }
    ensures grows { WorkGrows history.now work.old work.new }
    ensures out { result ≡ Err Stop.OutOfSteps → work.new.counter.used ≡ work.new.counter.limit }
{
    let mut cases = Vec::new(work.bank.alloc());
    for literal in literals {
        let case = case_of(work, history, *literal)?;
        push_case(&mut cases, case)?;
    }
    Ok(cases)
}

/// One more goal.
fn push_goal(goals: &mut Vec<Vec<TermId>>, goal: Vec<TermId>) -> Result<(), Stop>
    ensures ok { OnOk result (map (λ g. g.items) goals.new.items ≡ map (λ g. g.items) goals.old.items ++ goal.items ∷ []) }
    ensures memory { result ≡ Err Stop.OutOfSteps → ⊥ }
{
    match goals.push(goal) {
        Ok(()) => Ok(()),
        Err(_) => Err(Stop::Memory),
    }
}

/// The first goal, and then the goal of each case.
pub fn nexts_of(
    alloc: Global,
    first: Vec<TermId>,
    cases: &[Case],
    goal: &[TermId],
) -> Result<Vec<Vec<TermId>>, Stop>
    ensures nexts { IfOk result (λ v. map (λ g. g.items) v.items ≡ first.items ∷ next_ids cases.now goal.now) }
    ensures memory { result ≡ Err Stop.OutOfSteps → ⊥ }
{
    let mut nexts = Vec::new(alloc);
    push_goal(&mut nexts, first)?;
    for case in cases {
        let next = with_first(alloc, case.other, goal)?;
        push_goal(&mut nexts, next)?;
    }
    Ok(nexts)
}

/// Has a goal the opposite of one of the cases as a literal? Then it is a goal of that case already.
pub fn is_case(bank: &Bank, cases: &[Case], goal: &[TermId]) -> bool {
    for case in cases {
        if has_id(bank, goal, case.other) {
            return true;
        }
    }
    false
}
