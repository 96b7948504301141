//! Groups of literals that share no variables with the others.
ghost use Rattle.std.specs.Prelude.{◌≡◌, ◌++◌, ◌∷◌, [], All, IfOk, OnOk, Err, length, not};
ghost use Rattle.nq_bank.specs.Content.{Stands, term_at, terms_at};
ghost use Rattle.nq_goals.specs.Dropping.{is_tied, tied, untied, group_from, group_of, others};

use crate::clauses::{clause_without, contains, keep_unless};
use crate::known::push_id;
use crate::sharing::is_tied;
use nq_bank::{Bank, TermId};
use nq_kernel::Stop;

/// Has t a variable of one of these?
fn has_tie(bank: &Bank, these: &[TermId], t: TermId) -> Result<bool, Stop>
    requires these { All (Stands bank.now) these.now }
    requires term { Stands bank.now t }
    ensures answer { IfOk result (λ answer. answer ≡ is_tied (terms_at bank.now these.now) (term_at bank.now t)) }
    ensures memory { result ≡ Err Stop.OutOfSteps → ⊥ }
{
    match is_tied(bank, these, t) {
        Ok(answer) => Ok(answer),
        Err(_) => Err(Stop::Memory),
    }
}

/// The other: it is a function of its own so that its contract says so in a loop.
fn opposite(b: bool) -> bool
    ensures { result ≡ not b }
{
    !b
}

/// The terms that have a variable of one of these.
fn tied_to(bank: &Bank, these: &[TermId], terms: &[TermId]) -> Result<Vec<TermId>, Stop>
    requires these { All (Stands bank.now) these.now }
    requires terms { All (Stands bank.now) terms.now }
    ensures clause { IfOk result (λ c. terms_at bank.now c.items ≡ tied (terms_at bank.now these.now) (terms_at bank.now terms.now)) }
    ensures stand { IfOk result (λ c. All (Stands bank.now) c.items) }
    ensures memory { result ≡ Err Stop.OutOfSteps → ⊥ }
{
    let mut kept = Vec::new(bank.alloc());
    for t in terms {
        let here = has_tie(bank, these, *t)?;
        let left_out = opposite(here);
        keep_unless(&mut kept, left_out, *t)?;
    }
    Ok(kept)
}

/// The terms that have no variable of one of these.
fn untied_to(bank: &Bank, these: &[TermId], terms: &[TermId]) -> Result<Vec<TermId>, Stop>
    requires these { All (Stands bank.now) these.now }
    requires terms { All (Stands bank.now) terms.now }
    ensures clause { IfOk result (λ c. terms_at bank.now c.items ≡ untied (terms_at bank.now these.now) (terms_at bank.now terms.now)) }
    ensures stand { IfOk result (λ c. All (Stands bank.now) c.items) }
    ensures memory { result ≡ Err Stop.OutOfSteps → ⊥ }
{
    let mut kept = Vec::new(bank.alloc());
    for t in terms {
        let here = has_tie(bank, these, *t)?;
        keep_unless(&mut kept, here, *t)?;
    }
    Ok(kept)
}

/// The terms that are none of these.
pub fn others_than(bank: &Bank, these: &[TermId], terms: &[TermId]) -> Result<Vec<TermId>, Stop>
    requires these { All (Stands bank.now) these.now }
    requires terms { All (Stands bank.now) terms.now }
    ensures clause { IfOk result (λ c. terms_at bank.now c.items ≡ others (terms_at bank.now these.now) (terms_at bank.now terms.now)) }
    ensures stand { IfOk result (λ c. All (Stands bank.now) c.items) }
    ensures memory { result ≡ Err Stop.OutOfSteps → ⊥ }
{
    let mut kept = Vec::new(bank.alloc());
    for t in terms {
        let here = contains(bank, *t, these);
        keep_unless(&mut kept, here, *t)?;
    }
    Ok(kept)
}

/// More ids at the end.
fn extend(ids: &mut Vec<TermId>, more: &[TermId]) -> Result<(), Stop>
    ensures ok { OnOk result (ids.new.items ≡ ids.old.items ++ more.now) }
    ensures memory { result ≡ Err Stop.OutOfSteps → ⊥ }
{
    match ids.extend_from_slice(more) {
        Ok(()) => Ok(()),
        Err(_) => Err(Stop::Memory),
    }
}

/// The terms inside with those outside that are tied to them, so many times over.
fn group_from(
    bank: &Bank,
    rounds: usize,
    inside: Vec<TermId>,
    outside: Vec<TermId>,
) -> Result<Vec<TermId>, Stop>
    requires inside { All (Stands bank.now) inside.items }
    requires outside { All (Stands bank.now) outside.items }
    ensures clause { IfOk result (λ c. terms_at bank.now c.items ≡ group_from rounds (terms_at bank.now inside.items) (terms_at bank.now outside.items)) }
    ensures stand { IfOk result (λ c. All (Stands bank.now) c.items) }
    ensures memory { result ≡ Err Stop.OutOfSteps → ⊥ }
{
    if rounds == 0 {
        return Ok(inside);
    }
    let tied = tied_to(bank, inside.as_slice(), outside.as_slice())?;
    let left = untied_to(bank, inside.as_slice(), outside.as_slice())?;
    let more = joined(inside, tied.as_slice())?;
    group_from(bank, rounds - 1, more, left)
}

/// The ids, and then others.
fn joined(ids: Vec<TermId>, more: &[TermId]) -> Result<Vec<TermId>, Stop>
    ensures ok { IfOk result (λ v. v.items ≡ ids.items ++ more.now) }
    ensures memory { result ≡ Err Stop.OutOfSteps → ⊥ }
{
    let mut all = ids;
    extend(&mut all, more)?;
    Ok(all)
}

/// A list of one id.
fn only(bank: &Bank, t: TermId) -> Result<Vec<TermId>, Stop>
    ensures ok { IfOk result (λ v. v.items ≡ t ∷ []) }
    ensures memory { result ≡ Err Stop.OutOfSteps → ⊥ }
{
    let mut ids = Vec::new(bank.alloc());
    push_id(&mut ids, t)?;
    Ok(ids)
}

/// The group of a literal.
pub fn group_of(bank: &Bank, goal: &[TermId], t: TermId) -> Result<Vec<TermId>, Stop>
    requires goal { All (Stands bank.now) goal.now }
    requires literal { Stands bank.now t }
    ensures clause { IfOk result (λ c. terms_at bank.now c.items ≡ group_of (terms_at bank.now goal.now) (term_at bank.now t)) }
    ensures stand { IfOk result (λ c. All (Stands bank.now) c.items) }
    ensures memory { result ≡ Err Stop.OutOfSteps → ⊥ }
{
    let outside = clause_without(bank, t, goal)?;
    let inside = only(bank, t)?;
    group_from(bank, goal.len(), inside, outside)
}
