//! The literals of the goals of a path, and lists of ids.
ghost use Rattle.std.specs.Prelude.{◌≡◌, ◌++◌, ◌∷◌, [], IfOk, OnOk, Err};
ghost use Rattle.nq_eliminate.specs.Literals.{joined};

use nq_bank::TermId;
use nq_kernel::Stop;
use std::alloc::Global;

/// One more id.
pub fn push_id(ids: &mut Vec<TermId>, id: TermId) -> Result<(), Stop>
    ensures ok { OnOk result (ids.new.items ≡ ids.old.items ++ id ∷ []) }
    ensures memory { result ≡ Err Stop.OutOfSteps → ⊥ }
{
    match ids.push(id) {
        Ok(()) => Ok(()),
        Err(_) => Err(Stop::Memory),
    }
}

/// A copy of ids.
pub fn copied(alloc: Global, ids: &[TermId]) -> Result<Vec<TermId>, Stop>
    ensures ok { IfOk result (λ v. v.items ≡ ids.now) }
    ensures memory { result ≡ Err Stop.OutOfSteps → ⊥ }
{
    match Vec::from_slice(alloc, ids) {
        Ok(v) => Ok(v),
        Err(_) => Err(Stop::Memory),
    }
}

/// Puts more ids at the end.
pub fn put_all(ids: &mut Vec<TermId>, more: &[TermId]) -> Result<(), Stop>
    ensures ok { OnOk result (ids.new.items ≡ ids.old.items ++ more.now) }
    ensures memory { result ≡ Err Stop.OutOfSteps → ⊥ }
{
    match ids.extend_from_slice(more) {
        Ok(()) => Ok(()),
        Err(_) => Err(Stop::Memory),
    }
}

/// The literals of the goals of a path, then those of the goal below it, then a term and others.
pub fn known_terms(
    alloc: Global,
    path: &[Vec<TermId>],
    goal: &[TermId],
    t: TermId,
    others: &[TermId],
) -> Result<Vec<TermId>, Stop>
    ensures all { IfOk result (λ v. v.items ≡ (joined path.now ++ goal.now) ++ t ∷ others.now) }
    ensures memory { result ≡ Err Stop.OutOfSteps → ⊥ }
{
    let mut all = Vec::new(alloc);
    for earlier in path {
        put_all(&mut all, earlier.as_slice())?;
    }
    put_all(&mut all, goal)?;
    push_id(&mut all, t)?;
    put_all(&mut all, others)?;
    Ok(all)
}
