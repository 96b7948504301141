//! Lists of ids.
ghost use Rattle.std.specs.Prelude.{◌≡◌, ◌||◌, ◌&&◌, ◌++◌, ◌∷◌, [], All, IfOk, OnOk, if◌then◌else◌};
ghost use Rattle.nq_bank.specs.Content.{Stands, term_at, terms_at};
ghost use Rattle.nq_proof.specs.Clauses.{same_term, has_term, without};

use crate::fault::Fault;
use nq_bank::{Bank, TermId};

/// Is one of them true? It is a function of its own so that its contract says so in a loop.
pub fn is_either(left: bool, right: bool) -> bool
    ensures { result ≡ (left || right) }
{
    left || right
}

/// Are both true? It is a function of its own so that its contract says so.
pub fn is_both(left: bool, right: bool) -> bool
    ensures { result ≡ (left && right) }
{
    left && right
}

/// Are two terms one?
pub fn is_same(bank: &Bank, left: TermId, right: TermId) -> bool
    requires left { Stands bank.now left }
    requires right { Stands bank.now right }
    ensures { result ≡ same_term (term_at bank.now left) (term_at bank.now right) }
{
    bank.is_sound();
    left.0 == right.0
}

/// Is a term among these?
pub fn contains(bank: &Bank, t: TermId, terms: &[TermId]) -> bool
    requires stands { Stands bank.now t }
    requires terms { All (Stands bank.now) terms.now }
    ensures { result ≡ has_term (term_at bank.now t) (terms_at bank.now terms.now) }
{
    let mut found = false;
    for u in terms {
        let same = is_same(bank, t, *u);
        found = is_either(found, same);
    }
    found
}

/// Puts a term at the end, unless it is to be left out.
fn keep_unless(kept: &mut Vec<TermId>, left_out: bool, t: TermId) -> Result<(), Fault>
    ensures { OnOk result (kept.new.items ≡ (if left_out then kept.old.items else kept.old.items ++ t ∷ [])) }
{
    if left_out {
        return Ok(());
    }
    match kept.push(t) {
        Ok(()) => Ok(()),
        Err(_) => Err(Fault::Memory),
    }
}

/// The terms but for t.
pub fn clause_without(bank: &Bank, t: TermId, terms: &[TermId]) -> Result<Vec<TermId>, Fault>
    requires stands { Stands bank.now t }
    requires terms { All (Stands bank.now) terms.now }
    ensures clause { IfOk result (λ c. terms_at bank.now c.items ≡ without (term_at bank.now t) (terms_at bank.now terms.now)) }
    ensures stand { IfOk result (λ c. All (Stands bank.now) c.items) }
{
    let mut kept = Vec::new(bank.alloc());
    for u in terms {
        let same = is_same(bank, t, *u);
        keep_unless(&mut kept, same, *u)?;
    }
    Ok(kept)
}
