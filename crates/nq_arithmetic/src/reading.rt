//! Terms that are read.
ghost use Rattle.std.specs.Prelude.{◌≡◌, All, IfSome, IfOk, OnOk, Err};
ghost use Rattle.nq_bank.specs.Content.{Stands};
ghost use Rattle.nq_kernel.specs.Growing.{LineStands, WorkStands};
ghost use Rattle.nq_lines.specs.Lines.{IsTermIn};
ghost use Rattle.nq_arithmetic.specs.Claims.{AreOperandsIn};

use crate::making::push_term;
use nq_bank::{Bank, Node, Sym, TermId, ground};
use nq_history::History;
use nq_kernel::{Stop, Work};

/// The most terms of a goal that are looked at.
const TERM_LIMIT: usize = 400;

/// The most parts of a conjunction that are looked at.
const PART_LIMIT: usize = 40;

/// The two terms of which a fact speaks.
#[derive(Clone, Copy, Debug, PartialEq, Eq)]
pub struct Operands {
    /// The first.
    pub first: TermId,
    /// The second, or the first where there is just one.
    pub second: TermId,
}

/// Is a term among these?
pub fn has_id(ids: &[TermId], t: TermId) -> bool {
    for u in ids {
        if u.0 == t.0 {
            return true;
        }
    }
    false
}

/// Is a term a call of this function?
pub fn is_call_of(bank: &Bank, t: TermId, f: Sym) -> bool
    requires { Stands bank.now t }
{
    match bank.node(t) {
        Node::App(g, _) => g.0 == f.0,
        Node::Num(_) => false,
        Node::Var(_) => false,
    }
}

/// The arguments of a call of one or two arguments.
pub fn operands_of(work: &Work, history: &History, t: TermId) -> Option<Operands>
    requires stands { WorkStands history.now work.now }
    requires term { IsTermIn history.now work.now t }
    ensures { IfSome result (AreOperandsIn history.now work.now) }
{
    let arguments = work.bank.args(t);
    match arguments {
        [a] => Some(Operands {
            first: *a,
            second: *a,
        }),
        [a, b] => Some(Operands {
            first: *a,
            second: *b,
        }),
        [] => None,
        _ => None,
    }
}

/// Has a line this literal?
pub fn line_has(work: &Work, history: &History, line: u64, t: TermId) -> bool
    requires stands { WorkStands history.now work.now }
    requires line { LineStands work.now line }
{
    has_id(work.log.clause_over(&work.bank, line), t)
}

/// Adds a term, if it is not there yet.
pub fn push_new(
    work: &Work,
    history: &History,
    terms: &mut Vec<TermId>,
    t: TermId,
) -> Result<(), Stop>
    requires term { IsTermIn history.now work.now t }
    requires terms { All (IsTermIn history.now work.now) terms.old.items }
    ensures terms { OnOk result (All (IsTermIn history.now work.now) terms.new.items) }
    ensures memory { result ≡ Err Stop.OutOfSteps → ⊥ }
{
    let _ = work.bank.alloc();
    if has_id(terms.as_slice(), t) {
        Ok(())
    } else {
        push_term(terms, t)?;
        Ok(())
    }
}

/// Adds the arguments of a term that are not there yet.
fn add_arguments(
    work: &Work,
    history: &History,
    terms: &mut Vec<TermId>,
    t: TermId,
) -> Result<(), Stop>
    requires stands { WorkStands history.now work.now }
    requires term { IsTermIn history.now work.now t }
    requires terms { All (IsTermIn history.now work.now) terms.old.items }
    ensures terms { OnOk result (All (IsTermIn history.now work.now) terms.new.items) }
    ensures memory { result ≡ Err Stop.OutOfSteps → ⊥ }
{
    let arguments = work.bank.args(t);
    for i in 0..arguments.len() {
        push_new(work, history, terms, arguments[i])?;
    }
    Ok(())
}

/// Adds the arguments of the term at a place that are not there yet.
fn add_arguments_at(
    work: &Work,
    history: &History,
    terms: &mut Vec<TermId>,
    place: usize,
) -> Result<(), Stop>
    requires stands { WorkStands history.now work.now }
    requires terms { All (IsTermIn history.now work.now) terms.old.items }
    ensures terms { OnOk result (All (IsTermIn history.now work.now) terms.new.items) }
    ensures memory { result ≡ Err Stop.OutOfSteps → ⊥ }
{
    if place < terms.len() {
        let t = terms[place];
        add_arguments(work, history, terms, t)
    } else {
        Ok(())
    }
}

/// The terms that stand in a goal, each once, the outer ones first.
pub fn terms_in(work: &Work, history: &History, goal: &[TermId]) -> Result<Vec<TermId>, Stop>
    requires stands { WorkStands history.now work.now }
    requires goal { All (IsTermIn history.now work.now) goal.now }
    ensures terms { IfOk result (λ ts. All (IsTermIn history.now work.now) ts.items) }
    ensures memory { result ≡ Err Stop.OutOfSteps → ⊥ }
{
    let mut terms = copied(work, history, goal)?;
    for place in 0..TERM_LIMIT {
        add_arguments_at(work, history, &mut terms, place)?;
    }
    Ok(terms)
}

/// A term, and the terms that stand in it.
pub fn terms_of(work: &Work, history: &History, t: TermId) -> Result<Vec<TermId>, Stop>
    requires stands { WorkStands history.now work.now }
    requires term { IsTermIn history.now work.now t }
    ensures terms { IfOk result (λ ts. All (IsTermIn history.now work.now) ts.items) }
    ensures memory { result ≡ Err Stop.OutOfSteps → ⊥ }
{
    let mut whole = Vec::new(work.bank.alloc());
    push_new(work, history, &mut whole, t)?;
    terms_in(work, history, whole.as_slice())
}

/// Adds the two sides of the AND at a place, if there is one, that are not there yet.
fn add_sides_at(
    work: &Work,
    history: &History,
    parts: &mut Vec<TermId>,
    place: usize,
) -> Result<(), Stop>
    requires stands { WorkStands history.now work.now }
    requires parts { All (IsTermIn history.now work.now) parts.old.items }
    ensures parts { OnOk result (All (IsTermIn history.now work.now) parts.new.items) }
    ensures memory { result ≡ Err Stop.OutOfSteps → ⊥ }
{
    if place < parts.len() && is_call_of(&work.bank, parts[place], ground::AND) {
        let t = parts[place];
        add_arguments(work, history, parts, t)
    } else {
        Ok(())
    }
}

/// The parts of a conjunction, with the conjunctions that they stand in before them.
pub fn parts_in(work: &Work, history: &History, t: TermId) -> Result<Vec<TermId>, Stop>
    requires stands { WorkStands history.now work.now }
    requires term { IsTermIn history.now work.now t }
    ensures parts { IfOk result (λ ts. All (IsTermIn history.now work.now) ts.items) }
    ensures memory { result ≡ Err Stop.OutOfSteps → ⊥ }
{
    let mut parts = Vec::new(work.bank.alloc());
    push_new(work, history, &mut parts, t)?;
    for place in 0..PART_LIMIT {
        add_sides_at(work, history, &mut parts, place)?;
    }
    Ok(parts)
}

/// A copy of terms.
pub fn copied(work: &Work, history: &History, terms: &[TermId]) -> Result<Vec<TermId>, Stop>
    requires terms { All (IsTermIn history.now work.now) terms.now }
    ensures terms { IfOk result (λ ts. All (IsTermIn history.now work.now) ts.items) }
    ensures memory { result ≡ Err Stop.OutOfSteps → ⊥ }
{
    match Vec::from_slice(work.bank.alloc(), terms) {
        Ok(copy) => Ok(copy),
        Err(_) => Err(Stop::Memory),
    }
}
