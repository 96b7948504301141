//! What is read from lines and terms.
ghost use Rattle.std.specs.Prelude.{◌≡◌, length, nat_lt};

use crate::halt::Halt;
use nq_bank::{Bank, Node, Sym, TermId};
use nq_kernel::Work;

/// Does a term stand?
pub fn stands(bank: &Bank, t: TermId) -> bool
    ensures { result ≡ nat_lt t.0 (length bank.now.terms) }
{
    t.0 < bank.len()
}

/// How many literals a line has.
pub fn literal_count(work: &Work, line: u64) -> usize {
    match work.log.cited(line) {
        Some(literals) => literals.len(),
        None => 0,
    }
}

/// The literal of a line at a place, counted from 0.
pub fn literal_at(work: &Work, line: u64, place: usize) -> Result<TermId, Halt> {
    match work.log.cited(line) {
        Some(literals) => match literals.get(place) {
            Some(t) => Ok(*t),
            None => Err(Halt::Stuck),
        },
        None => Err(Halt::Stuck),
    }
}

/// The last literal of a line.
pub fn last_literal(work: &Work, line: u64) -> Result<TermId, Halt> {
    let count = literal_count(work, line);
    if count == 0 {
        return Err(Halt::Stuck);
    }
    literal_at(work, line, count - 1)
}

/// The arguments of a term.
pub fn arguments(bank: &Bank, t: TermId) -> Result<Vec<TermId>, Halt> {
    if stands(bank, t) {
        Ok(Vec::from_slice(bank.alloc(), bank.args(t))?)
    } else {
        Err(Halt::Stuck)
    }
}

/// The argument of a term at a place, counted from 0.
pub fn argument(bank: &Bank, t: TermId, place: usize) -> Result<TermId, Halt> {
    if !stands(bank, t) {
        return Err(Halt::Stuck);
    }
    match bank.args(t).get(place) {
        Some(a) => Ok(*a),
        None => Err(Halt::Stuck),
    }
}

/// The function of a call.
pub fn function_of(bank: &Bank, t: TermId) -> Option<Sym> {
    if !stands(bank, t) {
        return None;
    }
    match bank.node(t) {
        Node::App(f, _) => Some(f),
        Node::Num(_) => None,
        Node::Var(_) => None,
    }
}

/// Is a term a call of this ground function?
pub fn is_call(bank: &Bank, known: Sym, t: TermId) -> bool {
    match function_of(bank, t) {
        Some(f) => f.0 == known.0,
        None => false,
    }
}

/// How deep a term is.
pub fn depth_of(bank: &Bank, t: TermId) -> u32 {
    if stands(bank, t) { bank.depth(t) } else { 0 }
}
