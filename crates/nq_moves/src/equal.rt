//! Terms in which one term takes another's place, and lines that say that they are equal.
ghost use Rattle.std.specs.Prelude.{◌≡◌, ◌∷◌, [], nat_eq, Some, IfOk, OnOk, Err};
ghost use Rattle.std.specs.HashMap.{get, Updates};
ghost use Rattle.nq_logic.specs.Words.{equal_term};
ghost use Rattle.nq_bank.specs.Content.{Stands, IsIdOf, term_at};
ghost use Rattle.nq_bank.specs.Parts.{parts_of};
ghost use Rattle.nq_proof.specs.Clauses.{literal_at};
ghost use Rattle.nq_rule.specs.Results.{with_argument};
ghost use Rattle.nq_kernel.specs.Growing.{WorkStands, WorkGrows, LineStands};
ghost use Rattle.nq_lines.specs.Lines.{IsTermIn, LineHasOnly};
ghost use Rattle.nq_goals.specs.Replacing.{exchanged};
ghost use Rattle.nq_moves.specs.Carrying.{IsCall, CarriesOn};
ghost use Rattle.nq_moves.specs.Equal.{swap_at, SwapStands, IsEqual, HasEquals};

use crate::carrying::carry;
use crate::clauses::is_same;
use crate::known::copied;
use nq_bank::{Node, TermId};
use nq_history::History;
use nq_kernel::{Stop, Work};
use nq_lines::{Equated, reflexive};
use std::collections::HashMap;

/// A term, the term that takes its place, and the line that says that they are equal, under a hypothesis.
#[derive(Clone, Copy, Debug, PartialEq, Eq)]
pub struct Swap {
    /// The term.
    pub from: TermId,
    /// The term that takes its place.
    pub into: TermId,
    /// The hypothesis.
    pub hypothesis: TermId,
    /// The line.
    pub line: u64,
}

/// What is known of a term.
pub fn known_equal(known: &HashMap<u64, Equated>, t: TermId) -> Option<Equated>
    ensures { result ≡ get nat_eq known.now t.0 }
{
    known.get(&t.0).copied()
}

/// Keeps what is known of a term.
pub fn keep_equal(known: &mut HashMap<u64, Equated>, t: TermId, e: Equated) -> Result<(), Stop>
    ensures ok { OnOk result (Updates nat_eq known.old known.new t.0 (Some e)) }
    ensures memory { result ≡ Err Stop.OutOfSteps → ⊥ }
{
    match known.insert(t.0, e) {
        Ok(_) => Ok(()),
        Err(_) => Err(Stop::Memory),
    }
}

/// A term equals itself.
fn itself(work: &mut Work, history: &History, s: TermId) -> Result<Equated, Stop>
    requires stands { WorkStands history.now work.old }
    requires term { IsTermIn history.now work.old s }
    ensures term { IfOk result (λ e. e.term ≡ s) }
    ensures line { IfOk result (λ e. LineHasOnly work.new e.line (equal_term (term_at work.old.bank s) (term_at work.old.bank s) ∷ [])) }
    ensures grows { WorkGrows history.now work.old work.new }
    ensures out { result ≡ Err Stop.OutOfSteps → work.new.counter.used ≡ work.new.counter.limit }
{
    let line = reflexive(work, history, s)?;
    Ok(Equated { term: s, line })
}

/// What a term equals that stays as it is.
fn equal_alone(work: &mut Work, history: &History, swap: Swap, s: TermId) -> Result<Equated, Stop>
    requires stands { WorkStands history.now work.old }
    requires swap { SwapStands history.now work.old swap }
    requires term { IsTermIn history.now work.old s }
    requires stays { exchanged (swap_at work.old.bank swap) (term_at work.old.bank s) ≡ term_at work.old.bank s }
    ensures equal { IfOk result (λ e. IsEqual history.now work.new swap s e) }
    ensures grows { WorkGrows history.now work.old work.new }
    ensures out { result ≡ Err Stop.OutOfSteps → work.new.counter.used ≡ work.new.counter.limit }
{
    itself(work, history, s)
}

/// What s equals, where it equals a call whose argument a equals another term: the call with that term as its argument.
fn carry_part(
    work: &mut Work,
    history: &History,
    s: TermId,
    call: Equated,
    place: u64,
    a: TermId,
    part: Equated,
) -> Result<Equated, Stop>
    requires stands { WorkStands history.now work.old }
    requires whole { IsTermIn history.now work.old s }
    requires call { IsTermIn history.now work.old call.term }
    requires part { IsTermIn history.now work.old part.term }
    requires argument { Stands work.old.bank a }
    requires head { IsCall (term_at work.old.bank call.term) }
    requires place { literal_at place (parts_of (term_at work.old.bank call.term)) ≡ Some (term_at work.old.bank a) }
    requires line { LineStands work.old call.line }
    requires equation { LineStands work.old part.line }
    ensures call { IfOk result (λ r. IsIdOf work.new.bank r.term (with_argument place (term_at work.old.bank part.term) (term_at work.old.bank call.term))) }
    ensures over { IfOk result (λ r. IsTermIn history.now work.new r.term) }
    ensures line { IfOk result (λ r. CarriesOn work.old work.new place s call part r.line) }
    ensures grows { WorkGrows history.now work.old work.new }
    ensures out { result ≡ Err Stop.OutOfSteps → work.new.counter.used ≡ work.new.counter.limit }
{
    if is_same(&work.bank, a, part.term) {
        Ok(call)
    } else {
        carry(work, history, s, call, place, part)
    }
}

/// What a term equals: itself with the one term in place of the other, where that of some terms is known.
pub fn equal_within(
    work: &mut Work,
    history: &History,
    known: &mut HashMap<u64, Equated>,
    swap: Swap,
    s: TermId,
) -> Result<Equated, Stop>
    requires stands { WorkStands history.now work.old }
    requires swap { SwapStands history.now work.old swap }
    requires term { IsTermIn history.now work.old s }
    requires known { HasEquals history.now work.old swap known.old }
    ensures equal { IfOk result (λ e. IsEqual history.now work.new swap s e) }
    ensures known { OnOk result (HasEquals history.now work.new swap known.new) }
    ensures grows { WorkGrows history.now work.old work.new }
    ensures out { result ≡ Err Stop.OutOfSteps → work.new.counter.used ≡ work.new.counter.limit }
{
    if is_same(&work.bank, swap.from, s) {
        return Ok(Equated {
            term: swap.into,
            line: swap.line,
        });
    }
    match work.bank.node(s) {
        Node::Var(_) => equal_alone(work, history, swap, s),
        Node::Num(_) => equal_alone(work, history, swap, s),
        Node::App(_, _) => match known_equal(known, s) {
            Some(e) => Ok(e),
            None => {
                let alloc = work.bank.alloc();
                let arguments = copied(alloc, work.bank.args(s))?;
                let mut call = itself(work, history, s)?;
                for i in 0..arguments.len() {
                    let a = arguments[i];
                    let part = equal_within(work, history, known, swap, a)?;
                    call = carry_part(work, history, s, call, i as u64 + 1, a, part)?;
                }
                keep_equal(known, s, call)?;
                Ok(call)
            }
        },
    }
}
