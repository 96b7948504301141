//! Terms in other terms' places, where new terms are counted.
ghost use Rattle.std.specs.Prelude.{◌≡◌, ◌<◌, ℕ, map, All, IfOk, OnOk, Err, MatchOption};
ghost use Rattle.nq_logic.specs.Numerals.{numeral_limit};
ghost use Rattle.nq_logic.specs.Words.{numeral};
ghost use Rattle.nq_bank.specs.Content.{Stands, IsIdOf, term_at, terms_at};
ghost use Rattle.nq_kernel.specs.Growing.{WorkStands, WorkGrows};
ghost use Rattle.nq_goals.specs.Replacing.{exchanged};
ghost use Rattle.nq_moves.specs.Exchanging.{exchange_at, ExchangeStands, HasImages, StandsFor, Stays};

use crate::clauses::is_same;
use crate::known::{copied, keep_id, known_id, push_id};
use nq_bank::{Bank, Node, TermId};
use nq_history::History;
use nq_kernel::{Stop, Work};
use std::collections::HashMap;

/// A term, and the term that takes its place.
#[derive(Clone, Copy, Debug, PartialEq, Eq)]
pub struct Exchanging {
    /// The term.
    pub from: TermId,
    /// The term that takes its place.
    pub into: TermId,
}

/// What stands in the place of a term; none where it is no exchanged one.
pub fn replacing(bank: &Bank, t: TermId, exchange: &[Exchanging]) -> Option<TermId>
    requires term { Stands bank.now t }
    requires exchange { All (ExchangeStands bank.now) exchange.now }
    ensures { MatchOption result (Stays bank.now exchange.now t) (StandsFor bank.now exchange.now t) }
{
    for e in exchange {
        if is_same(bank, e.from, t) {
            return Some(e.into);
        }
    }
    None
}

/// The id of the term with terms in others' places, where the ids of some are known. New terms are counted.
pub fn exchange_within(
    work: &mut Work,
    history: &History,
    known: &mut HashMap<u64, TermId>,
    t: TermId,
    exchange: &[Exchanging],
) -> Result<TermId, Stop>
    requires stands { WorkStands history.now work.old }
    requires term { Stands work.old.bank t }
    requires exchange { All (ExchangeStands work.old.bank) exchange.now }
    requires numerals { (n : ℕ) → n < numeral_limit → exchanged (exchange_at work.old.bank exchange.now) (numeral n) ≡ numeral n }
    requires ids { HasImages work.old.bank (exchanged (exchange_at work.old.bank exchange.now)) known.old }
    ensures ok { IfOk result (λ r. IsIdOf work.new.bank r (exchanged (exchange_at work.old.bank exchange.now) (term_at work.old.bank t))) }
    ensures ids { OnOk result (HasImages work.new.bank (exchanged (exchange_at work.old.bank exchange.now)) known.new) }
    ensures grows { WorkGrows history.now work.old work.new }
    ensures out { result ≡ Err Stop.OutOfSteps → work.new.counter.used ≡ work.new.counter.limit }
{
    if let Some(id) = replacing(&work.bank, t, exchange) {
        return Ok(id);
    }
    match work.bank.node(t) {
        Node::Var(_) => Ok(t),
        Node::Num(_) => Ok(t),
        Node::App(f, _) => match known_id(known, t) {
            Some(r) => Ok(r),
            None => {
                let alloc = work.bank.alloc();
                let arguments = copied(alloc, work.bank.args(t))?;
                let mut parts = Vec::new(alloc);
                for a in &arguments {
                    let part = exchange_within(work, history, known, *a, exchange)?;
                    push_id(&mut parts, part)?;
                }
                let r = work.app(history, f, parts.as_slice())?;
                keep_id(known, t, r)?;
                Ok(r)
            }
        },
    }
}

/// The terms, with terms in others' places in each. New terms are counted.
pub fn exchange_all(
    work: &mut Work,
    history: &History,
    terms: &[TermId],
    exchange: &[Exchanging],
) -> Result<Vec<TermId>, Stop>
    requires stands { WorkStands history.now work.old }
    requires terms { All (Stands work.old.bank) terms.now }
    requires exchange { All (ExchangeStands work.old.bank) exchange.now }
    requires numerals { (n : ℕ) → n < numeral_limit → exchanged (exchange_at work.old.bank exchange.now) (numeral n) ≡ numeral n }
    ensures terms { IfOk result (λ v. terms_at work.new.bank v.items ≡ map (exchanged (exchange_at work.old.bank exchange.now)) (terms_at work.old.bank terms.now)) }
    ensures stand { IfOk result (λ v. All (Stands work.new.bank) v.items) }
    ensures grows { WorkGrows history.now work.old work.new }
    ensures out { result ≡ Err Stop.OutOfSteps → work.new.counter.used ≡ work.new.counter.limit }
{
    let alloc = work.bank.alloc();
    let mut known = HashMap::new(alloc);
    let mut parts = Vec::new(alloc);
    for t in terms {
        let part = exchange_within(work, history, &mut known, *t, exchange)?;
        push_id(&mut parts, part)?;
    }
    Ok(parts)
}
