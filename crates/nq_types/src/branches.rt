//! IFs: what their branches are, each under the test or its NOT, is what they are.
ghost use Rattle.std.specs.Prelude.{◌≡◌, ◌≤◌, ◌∷◌, All, IfOk, IfSome, Err, length};
ghost use Rattle.nq_logic.specs.ShellPrinciple.{shells_of};
ghost use Rattle.nq_history.specs.Events.{events_at};
ghost use Rattle.nq_kernel.specs.Growing.{LineStands, WorkGrows, WorkStands};
ghost use Rattle.nq_lines.specs.Lines.{IsTermIn};
ghost use Rattle.nq_lines.specs.Branches.{AreBranchesIn};

use crate::denied::denied_term;
use crate::replacing::carried;
use crate::rows::argument;
use nq_bank::{Node, TermId, ground};
use nq_history::History;
use nq_kernel::{Stop, Work};
use nq_lines::{deny, deny_twice, first_chosen, second_chosen, undeny};
use nq_rule::Branches;
use std::alloc::AllocError;

/// Is a term an IF?
fn is_if(work: &Work, history: &History, t: TermId) -> bool
    requires stands { WorkStands history.now work.now }
    requires term { IsTermIn history.now work.now t }
{
    let _ = history.len();
    match work.bank.node(t) {
        Node::App(f, _) => work.bank.is_ground(f, ground::IF),
        Node::Num(_) => false,
        Node::Var(_) => false,
    }
}

/// The test and the branches of a term that is an IF.
pub fn branches_of(work: &Work, history: &History, t: TermId) -> Option<Branches>
    requires stands { WorkStands history.now work.now }
    requires term { IsTermIn history.now work.now t }
    ensures { IfSome result (AreBranchesIn history.now work.now) }
{
    if !is_if(work, history, t) {
        return None;
    }
    let test = argument(work, history, t, 0)?;
    let first = argument(work, history, t, 1)?;
    let second = argument(work, history, t, 2)?;
    Some(Branches {
        test,
        first,
        second,
    })
}

/// These terms and one more, which stands first.
fn with_first(work: &Work, more: TermId, assumed: &[TermId]) -> Result<Vec<TermId>, AllocError>
    ensures { IfOk result (λ all. all.items ≡ more ∷ assumed.now) }
{
    let mut all = vec![in work.bank.alloc(); more]?;
    all.extend_from_slice(assumed)?;
    Ok(all)
}

/// What is assumed, and one assumption more.
pub fn with_more(
    work: &Work,
    history: &History,
    more: TermId,
    assumed: &[TermId],
) -> Result<Vec<TermId>, Stop>
    requires more { IsTermIn history.now work.now more }
    requires assumed { All (IsTermIn history.now work.now) assumed.now }
    ensures all { IfOk result (λ all. All (IsTermIn history.now work.now) all.items) }
    ensures memory { result ≡ Err Stop.OutOfSteps → ⊥ }
{
    let _ = history.len();
    match with_first(work, more, assumed) {
        Ok(all) => Ok(all),
        Err(_) => Err(Stop::Memory),
    }
}

/// Adds a line of what an IF is, or that its test is false, from one of what its first branch is.
pub fn first_told(
    work: &mut Work,
    history: &History,
    t: TermId,
    parts: Branches,
    line: u64,
) -> Result<u64, Stop>
    requires stands { WorkStands history.now work.old }
    requires room { length (shells_of (events_at work.old.bank history.now)) ≤ 61 }
    requires term { IsTermIn history.now work.old t }
    requires parts { AreBranchesIn history.now work.old parts }
    requires line { LineStands work.old line }
    ensures line { IfOk result (LineStands work.new) }
    ensures grows { WorkGrows history.now work.old work.new }
    ensures out { result ≡ Err Stop.OutOfSteps → work.new.counter.used ≡ work.new.counter.limit }
{
    let law = first_chosen(work, history, parts.test, parts.first, parts.second)?;
    carried(work, history, t, parts.first, law, line)
}

/// Adds a line of what an IF is, or that its test holds, from one of what its second branch is.
pub fn second_told(
    work: &mut Work,
    history: &History,
    t: TermId,
    parts: Branches,
    line: u64,
) -> Result<u64, Stop>
    requires stands { WorkStands history.now work.old }
    requires room { length (shells_of (events_at work.old.bank history.now)) ≤ 61 }
    requires term { IsTermIn history.now work.old t }
    requires parts { AreBranchesIn history.now work.old parts }
    requires line { LineStands work.old line }
    ensures line { IfOk result (LineStands work.new) }
    ensures grows { WorkGrows history.now work.old work.new }
    ensures out { result ≡ Err Stop.OutOfSteps → work.new.counter.used ≡ work.new.counter.limit }
{
    let law = second_chosen(work, history, parts.test, parts.first, parts.second)?;
    let told = carried(work, history, t, parts.second, law, line)?;
    undeny(work, history, parts.test, told)
}

/// What is assumed in the second branch of an IF: the NOT of the test, or, where the test is the NOT of a term, that term.
pub fn denial_of(work: &mut Work, history: &History, test: TermId) -> Result<TermId, Stop>
    requires stands { WorkStands history.now work.old }
    requires test { IsTermIn history.now work.old test }
    ensures over { IfOk result (λ u. IsTermIn history.now work.new u) }
    ensures grows { WorkGrows history.now work.old work.new }
    ensures out { result ≡ Err Stop.OutOfSteps → work.new.counter.used ≡ work.new.counter.limit }
{
    match denied_term(work, history, test) {
        Some(q) => Ok(q),
        None => deny(work, history, test),
    }
}

/// Adds a line whose literals are denials of what is assumed, from one that has the test of an IF, whose denial is assumed.
pub fn under_denial(
    work: &mut Work,
    history: &History,
    test: TermId,
    line: u64,
) -> Result<u64, Stop>
    requires stands { WorkStands history.now work.old }
    requires test { IsTermIn history.now work.old test }
    requires line { LineStands work.old line }
    ensures line { IfOk result (LineStands work.new) }
    ensures grows { WorkGrows history.now work.old work.new }
    ensures out { result ≡ Err Stop.OutOfSteps → work.new.counter.used ≡ work.new.counter.limit }
{
    match denied_term(work, history, test) {
        Some(_) => Ok(line),
        None => deny_twice(work, history, test, line),
    }
}
