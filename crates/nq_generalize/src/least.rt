//! Which candidates are replaced: the smallest ones.
ghost use Rattle.std.specs.Prelude.{◌≡◌, ◌≤◌, ◌∷◌, [], All, IfOk, Err, length};
ghost use Rattle.nq_bank.specs.Content.{Stands, terms_at};
ghost use Rattle.nq_lines.specs.Lines.{AreAmong};

use crate::sides::stands_inside;
use nq_bank::{Bank, TermId};
use nq_kernel::Stop;
use nq_moves::keep_unless;
use std::alloc::Global;

/// Does one of these that is no value stand in a term?
fn holds_one(bank: &Bank, these: &[TermId], t: TermId) -> Result<bool, Stop>
    requires these { All (Stands bank.now) these.now }
    requires term { Stands bank.now t }
    ensures memory { result ≡ Err Stop.OutOfSteps → ⊥ }
{
    for a in these {
        if !bank.is_value(*a) && stands_inside(bank, *a, t)? {
            return Ok(true);
        }
    }
    Ok(false)
}

/// A list of one id.
fn only(alloc: Global, t: TermId) -> Result<Vec<TermId>, Stop>
    ensures ok { IfOk result (λ v. v.items ≡ t ∷ []) }
    ensures memory { result ≡ Err Stop.OutOfSteps → ⊥ }
{
    match Vec::from_slice(alloc, &[t]) {
        Ok(v) => Ok(v),
        Err(_) => Err(Stop::Memory),
    }
}

/// The first term, and those of the others in which none that is kept stands.
pub fn least_of(bank: &Bank, first: TermId, others: &[TermId]) -> Result<Vec<TermId>, Stop>
    requires first { Stands bank.now first }
    requires others { All (Stands bank.now) others.now }
    ensures within { IfOk result (λ v. AreAmong (terms_at bank.now v.items) (terms_at bank.now (first ∷ others.now))) }
    ensures some { IfOk result (λ v. 1 ≤ length v.items) }
    ensures stand { IfOk result (λ v. All (Stands bank.now) v.items) }
    ensures memory { result ≡ Err Stop.OutOfSteps → ⊥ }
{
    let mut kept = only(bank.alloc(), first)?;
    for t in others {
        let held = holds_one(bank, kept.as_slice(), *t)?;
        keep_unless(&mut kept, held, *t)?;
    }
    Ok(kept)
}
