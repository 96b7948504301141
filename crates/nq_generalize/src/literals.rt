//! The literals of the goals of a path.
ghost use Rattle.std.specs.Prelude.{◌≡◌, ◌++◌, IfOk, OnOk, Err};
ghost use Rattle.nq_generalize.specs.Literals.{joined};

use nq_bank::TermId;
use nq_kernel::Stop;
use std::alloc::Global;

/// Puts more ids at the end.
fn put_all(ids: &mut Vec<TermId>, more: &[TermId]) -> Result<(), Stop>
    ensures ok { OnOk result (ids.new.items ≡ ids.old.items ++ more.now) }
    ensures memory { result ≡ Err Stop.OutOfSteps → ⊥ }
{
    match ids.extend_from_slice(more) {
        Ok(()) => Ok(()),
        Err(_) => Err(Stop::Memory),
    }
}

/// The literals of the goals of a path, and then those of the goal below it.
pub fn all_literals(
    alloc: Global,
    path: &[Vec<TermId>],
    goal: &[TermId],
) -> Result<Vec<TermId>, Stop>
    ensures all { IfOk result (λ v. v.items ≡ joined path.now ++ goal.now) }
    ensures memory { result ≡ Err Stop.OutOfSteps → ⊥ }
{
    let mut all = Vec::new(alloc);
    for earlier in path {
        put_all(&mut all, earlier.as_slice())?;
    }
    put_all(&mut all, goal)?;
    Ok(all)
}
