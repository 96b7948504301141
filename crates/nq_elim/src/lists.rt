//! Lists of ids.
ghost use Rattle.std.specs.Prelude.{◌≡◌, ◌++◌, ◌∷◌, [], All, IfOk, IsTrue, OnOk, Err};
ghost use Rattle.nq_logic.specs.Terms.{IsAmong};
ghost use Rattle.nq_bank.specs.Content.{term_at, terms_at};

use nq_bank::{Bank, TermId};
use nq_clause::Pair;
use nq_kernel::Stop;
use std::alloc::{AllocError, Global};

/// One more id.
pub fn push_id(ids: &mut Vec<TermId>, id: TermId) -> Result<(), Stop>
    ensures ok { OnOk result (ids.new.items ≡ ids.old.items ++ id ∷ []) }
    ensures memory { result ≡ Err Stop.OutOfSteps → ⊥ }
{
    match ids.push(id) {
        Ok(()) => Ok(()),
        Err(_) => Err(Stop::Memory),
    }
}

/// A copy of ids.
pub fn copied(alloc: Global, ids: &[TermId]) -> Result<Vec<TermId>, Stop>
    ensures ok { IfOk result (λ v. v.items ≡ ids.now) }
    ensures memory { result ≡ Err Stop.OutOfSteps → ⊥ }
{
    match Vec::from_slice(alloc, ids) {
        Ok(v) => Ok(v),
        Err(_) => Err(Stop::Memory),
    }
}

/// A copy of pairs.
pub fn copied_pairs(alloc: Global, pairs: &[Pair]) -> Result<Vec<Pair>, Stop>
    ensures ok { IfOk result (λ v. v.items ≡ pairs.now) }
    ensures memory { result ≡ Err Stop.OutOfSteps → ⊥ }
{
    match Vec::from_slice(alloc, pairs) {
        Ok(v) => Ok(v),
        Err(_) => Err(Stop::Memory),
    }
}

fn try_joined(alloc: Global, first: &[TermId], second: &[TermId]) -> Result<Vec<TermId>, AllocError>
    ensures { IfOk result (λ v. v.items ≡ first.now ++ second.now) }
{
    let mut ids = Vec::from_slice(alloc, first)?;
    ids.extend_from_slice(second)?;
    Ok(ids)
}

/// The first ids, and then the second.
pub fn joined(alloc: Global, first: &[TermId], second: &[TermId]) -> Result<Vec<TermId>, Stop>
    ensures ok { IfOk result (λ v. v.items ≡ first.now ++ second.now) }
    ensures memory { result ≡ Err Stop.OutOfSteps → ⊥ }
{
    match try_joined(alloc, first, second) {
        Ok(ids) => Ok(ids),
        Err(_) => Err(Stop::Memory),
    }
}

/// An id, and then the others.
pub fn with_first(alloc: Global, first: TermId, others: &[TermId]) -> Result<Vec<TermId>, Stop>
    ensures ok { IfOk result (λ v. v.items ≡ first ∷ others.now) }
    ensures memory { result ≡ Err Stop.OutOfSteps → ⊥ }
{
    joined(alloc, &[first], others)
}

/// Is an id among these?
pub fn has_id(bank: &Bank, these: &[TermId], t: TermId) -> bool
    ensures { IsTrue result → IsAmong (term_at bank.now t) (terms_at bank.now these.now) }
{
    for u in these {
        if u.0 == t.0 {
            return true;
        }
    }
    false
}

/// Is each of some ids among these?
pub fn are_among(bank: &Bank, ids: &[TermId], these: &[TermId]) -> bool
    ensures { IsTrue result → All (λ t. IsAmong (term_at bank.now t) (terms_at bank.now these.now)) ids.now }
{
    for t in ids {
        if !has_id(bank, these, *t) {
            return false;
        }
    }
    true
}
