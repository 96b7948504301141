//! What is known of terms that were walked, by their ids.
ghost use Rattle.std.specs.Prelude.{◌≡◌, nat_eq, Some, OnOk, Err};
ghost use Rattle.std.specs.HashMap.{get, Updates};

use crate::binding::Bound;
use nq_bank::{BankFault, TermId};
use std::alloc::AllocError;
use std::collections::HashMap;

/// The id that is known for a term.
pub fn known_id(known: &HashMap<u64, TermId>, t: TermId) -> Option<TermId>
    ensures { result ≡ get nat_eq known.now t.0 }
{
    known.get(&t.0).copied()
}

/// Keeps the id for a term.
pub fn keep_id(known: &mut HashMap<u64, TermId>, t: TermId, id: TermId) -> Result<(), BankFault>
    ensures ok { OnOk result (Updates nat_eq known.old known.new t.0 (Some id)) }
    ensures not_deep { result ≡ Err BankFault.Deep → ⊥ }
{
    match known.insert(t.0, id) {
        Ok(_) => Ok(()),
        Err(_) => Err(BankFault::Memory),
    }
}

/// The answer that is known for a term.
pub fn known_answer(known: &HashMap<u64, bool>, t: TermId) -> Option<bool>
    ensures { result ≡ get nat_eq known.now t.0 }
{
    known.get(&t.0).copied()
}

/// Keeps the answer for a term.
pub fn keep_answer(
    known: &mut HashMap<u64, bool>,
    t: TermId,
    answer: bool,
) -> Result<(), AllocError>
    ensures { OnOk result (Updates nat_eq known.old known.new t.0 (Some answer)) }
{
    known.insert(t.0, answer)?;
    Ok(())
}

/// What a term is known to be matched with.
pub fn known_bound(known: &HashMap<u64, Bound>, t: TermId) -> Option<Bound>
    ensures { result ≡ get nat_eq known.now t.0 }
{
    known.get(&t.0).copied()
}

/// Keeps what a term is matched with.
pub fn keep_bound(
    known: &mut HashMap<u64, Bound>,
    t: TermId,
    bound: Bound,
) -> Result<(), AllocError>
    ensures { OnOk result (Updates nat_eq known.old known.new t.0 (Some bound)) }
{
    known.insert(t.0, bound)?;
    Ok(())
}
