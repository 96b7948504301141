//! Which variables of a goal may give way, and to what. It decides only what is tried.
ghost use Rattle.std.specs.Prelude.{◌≡◌, ◌++◌, ◌∷◌, [], All, IfOk, IfSome, OnOk, Err};
ghost use Rattle.nq_bank.specs.Content.{Stands};
ghost use Rattle.nq_kernel.specs.Growing.{WorkStands};
ghost use Rattle.nq_lines.specs.Lines.{IsTermIn};
ghost use Rattle.nq_elim.specs.Candidates.{CandidateStands};

use crate::calls::flat_calls;
use nq_bank::{Bank, Node, Part, Sym, TermId};
use nq_history::History;
use nq_kernel::{Stop, Work};

/// A variable, and the shell of which it may be an object.
#[derive(Clone, Copy, Debug, PartialEq, Eq)]
pub struct Candidate {
    /// The place of the shell.
    pub place: usize,
    /// The variable.
    pub variable: TermId,
    /// How often its parts stand in the goal.
    pub weight: u64,
}

/// Does a function take one of these parts?
fn takes_part(parts: &[Part], f: Sym) -> bool {
    for part in parts {
        if part.accessor.0 == f.0 {
            return true;
        }
    }
    false
}

/// The place of the shell whose part a function takes.
fn taken_place(history: &History, f: Sym) -> Option<usize> {
    let shells = history.shells();
    for place in 0..shells.len() {
        if takes_part(shells[place].parts.as_slice(), f) {
            return Some(place);
        }
    }
    None
}

/// The place of the shell whose part a call takes.
fn place_of(bank: &Bank, history: &History, call: TermId) -> Option<usize>
    requires { Stands bank.now call }
{
    match bank.node(call) {
        Node::App(f, _) => taken_place(history, f),
        Node::Num(_) => None,
        Node::Var(_) => None,
    }
}

/// The argument of a call that has just one.
fn only_argument(work: &Work, history: &History, call: TermId) -> Option<TermId>
    requires stands { WorkStands history.now work.now }
    requires call { IsTermIn history.now work.now call }
    ensures { IfSome result (IsTermIn history.now work.now) }
{
    let _ = history.len();
    match work.bank.node(call) {
        Node::App(_, _) => match work.bank.args(call) {
            [a] => Some(*a),
            [] => None,
            _ => None,
        },
        Node::Num(_) => None,
        Node::Var(_) => None,
    }
}

/// Is a call one that takes a part of a variable by the shell at a place?
fn is_part(bank: &Bank, history: &History, call: TermId, place: usize, variable: TermId) -> bool
    requires { Stands bank.now call }
{
    if place_of(bank, history, call) != Some(place) {
        return false;
    }
    match bank.node(call) {
        Node::App(_, _) => match bank.args(call) {
            [a] => a.0 == variable.0,
            [] => false,
            _ => false,
        },
        Node::Num(_) => false,
        Node::Var(_) => false,
    }
}

/// How often parts of a variable by the shell at a place are among calls.
fn count_parts(
    bank: &Bank,
    history: &History,
    calls: &[TermId],
    place: usize,
    variable: TermId,
) -> u64
    requires { All (Stands bank.now) calls.now }
{
    let mut count = 0u64;
    for call in calls {
        if is_part(bank, history, *call, place, variable) {
            count = count.saturating_add(1);
        }
    }
    count
}

/// Is a variable among the candidates for the shell at a place?
fn is_listed(candidates: &[Candidate], place: usize, variable: TermId) -> bool {
    for c in candidates {
        if c.place == place && c.variable.0 == variable.0 {
            return true;
        }
    }
    false
}

/// One more candidate.
fn push_candidate(candidates: &mut Vec<Candidate>, c: Candidate) -> Result<(), Stop>
    ensures ok { OnOk result (candidates.new.items ≡ candidates.old.items ++ c ∷ []) }
    ensures memory { result ≡ Err Stop.OutOfSteps → ⊥ }
{
    match candidates.push(c) {
        Ok(()) => Ok(()),
        Err(_) => Err(Stop::Memory),
    }
}

/// The candidate of which a call takes a part.
fn candidate_of(work: &Work, history: &History, calls: &[TermId], call: TermId) -> Option<Candidate>
    requires stands { WorkStands history.now work.now }
    requires calls { All (IsTermIn history.now work.now) calls.now }
    requires call { IsTermIn history.now work.now call }
    ensures { IfSome result (CandidateStands history.now work.now) }
{
    let place = place_of(&work.bank, history, call)?;
    let variable = only_argument(work, history, call)?;
    let weight = count_parts(&work.bank, history, calls, place, variable);
    Some(Candidate {
        place,
        variable,
        weight,
    })
}

/// Puts a candidate to the others, unless it is among them.
fn add_candidate(
    work: &Work,
    history: &History,
    candidates: &mut Vec<Candidate>,
    c: Candidate,
) -> Result<(), Stop>
    requires candidates { All (CandidateStands history.now work.now) candidates.old.items }
    requires candidate { CandidateStands history.now work.now c }
    ensures candidates { OnOk result (All (CandidateStands history.now work.now) candidates.new.items) }
    ensures memory { result ≡ Err Stop.OutOfSteps → ⊥ }
{
    let _ = (work.bank.alloc(), history.len());
    if is_listed(candidates.as_slice(), c.place, c.variable) {
        Ok(())
    } else {
        push_candidate(candidates, c)
    }
}

/// The candidates of which these calls take parts.
fn candidates_in(work: &Work, history: &History, calls: &[TermId]) -> Result<Vec<Candidate>, Stop>
    requires stands { WorkStands history.now work.now }
    requires calls { All (IsTermIn history.now work.now) calls.now }
    ensures candidates { IfOk result (λ v. All (CandidateStands history.now work.now) v.items) }
    ensures memory { result ≡ Err Stop.OutOfSteps → ⊥ }
{
    let mut candidates = Vec::new(work.bank.alloc());
    for call in calls {
        if let Some(c) = candidate_of(work, history, calls, *call) {
            add_candidate(work, history, &mut candidates, c)?;
        }
    }
    Ok(candidates)
}

/// The variables of a goal of whose parts it speaks.
pub fn candidates_of(
    work: &Work,
    history: &History,
    goal: &[TermId],
) -> Result<Vec<Candidate>, Stop>
    requires stands { WorkStands history.now work.now }
    requires goal { All (IsTermIn history.now work.now) goal.now }
    ensures candidates { IfOk result (λ v. All (CandidateStands history.now work.now) v.items) }
    ensures memory { result ≡ Err Stop.OutOfSteps → ⊥ }
{
    let calls = flat_calls(work, history, goal)?;
    candidates_in(work, history, calls.as_slice())
}

/// How many candidates come before the one at a place: those of a greater weight, and the earlier ones of the same.
fn rank_of(candidates: &[Candidate], place: usize, weight: u64) -> usize {
    let mut rank = 0usize;
    for i in 0..candidates.len() {
        let other = candidates[i].weight;
        if other > weight || (other == weight && i < place) {
            rank = rank.saturating_add(1);
        }
    }
    rank
}

/// The candidate of a rank; those whose parts stand in the goal most often come first.
pub fn ranked(
    work: &Work,
    history: &History,
    candidates: &[Candidate],
    rank: usize,
) -> Option<Candidate>
    requires { All (CandidateStands history.now work.now) candidates.now }
    ensures { IfSome result (CandidateStands history.now work.now) }
{
    let _ = (work.bank.alloc(), history.len());
    for i in 0..candidates.len() {
        if rank_of(candidates, i, candidates[i].weight) == rank {
            return Some(candidates[i]);
        }
    }
    None
}
