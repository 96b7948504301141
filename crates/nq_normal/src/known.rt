//! Answers that are known for terms, so that a shared term is walked once.
ghost use Rattle.std.specs.Prelude.{◌≡◌, nat_eq, Some, OnOk};
ghost use Rattle.std.specs.HashMap.{get, Updates};

use nq_bank::TermId;
use std::alloc::AllocError;
use std::collections::HashMap;

/// The answer that is known for a term.
pub fn known_answer(known: &HashMap<u64, bool>, t: TermId) -> Option<bool>
    ensures { result ≡ get nat_eq known.now t.0 }
{
    known.get(&t.0).copied()
}

/// Keeps the answer for a term.
pub fn keep_answer(
    known: &mut HashMap<u64, bool>,
    t: TermId,
    answer: bool,
) -> Result<(), AllocError>
    ensures { OnOk result (Updates nat_eq known.old known.new t.0 (Some answer)) }
{
    known.insert(t.0, answer)?;
    Ok(())
}
