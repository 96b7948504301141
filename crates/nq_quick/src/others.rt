//! The other terms of a proposition.
ghost use Rattle.std.specs.Prelude.{◌≡◌, ◌++◌, ◌∷◌, [], All, IfOk, OnOk, if◌then◌else◌};
ghost use Rattle.nq_bank.specs.Content.{Stands, term_at, terms_at};
ghost use Rattle.nq_proof.specs.Clauses.{distinct};
ghost use Rattle.nq_fragments.specs.Propositions.{proposition_of, others_in};
ghost use Rattle.nq_quick.specs.Answers.{AreOthers};

use crate::heads::{Head, head_of};
use crate::truth::contains;
use nq_bank::{Bank, TermId};
use std::alloc::AllocError;

/// Adds the other terms of a term, each as often as it stands there.
pub fn add_others(bank: &Bank, t: TermId, others: &mut Vec<TermId>) -> Result<(), AllocError>
    requires stands { Stands bank.now t }
    requires others { All (Stands bank.now) others.old.items }
    ensures added { OnOk result (terms_at bank.now others.new.items ≡ terms_at bank.now others.old.items ++ others_in (proposition_of (term_at bank.now t))) }
    ensures stand { OnOk result (All (Stands bank.now) others.new.items) }
{
    match head_of(bank, t) {
        Head::Other => {
            others.push(t)?;
            Ok(())
        }
        Head::Truth => Ok(()),
        Head::Falsity => Ok(()),
        Head::Choice(parts) => {
            add_others(bank, parts.test, others)?;
            add_others(bank, parts.first, others)?;
            add_others(bank, parts.second, others)
        }
        Head::Denial(p) => add_others(bank, p, others),
        Head::Joined(_, p, q) => {
            add_others(bank, p, others)?;
            add_others(bank, q, others)
        }
    }
}

/// The other terms of a term, each once.
pub fn others_of(bank: &Bank, t: TermId) -> Result<Vec<TermId>, AllocError>
    requires { Stands bank.now t }
    ensures { IfOk result (λ others. AreOthers bank.now t others.items) }
{
    let mut others = Vec::new(bank.alloc());
    add_others(bank, t, &mut others)?;
    distinct_terms(bank, others.as_slice())
}

/// The terms without later copies.
fn distinct_terms(bank: &Bank, terms: &[TermId]) -> Result<Vec<TermId>, AllocError>
    requires { All (Stands bank.now) terms.now }
    ensures clause { IfOk result (λ c. terms_at bank.now c.items ≡ distinct (terms_at bank.now terms.now)) }
    ensures stand { IfOk result (λ c. All (Stands bank.now) c.items) }
{
    let mut kept = Vec::new(bank.alloc());
    for u in terms {
        let stood = contains(bank, *u, kept.as_slice());
        keep_unless(&mut kept, stood, *u)?;
    }
    Ok(kept)
}

/// Puts a term at the end, unless it is to be left out.
fn keep_unless(kept: &mut Vec<TermId>, left_out: bool, t: TermId) -> Result<(), AllocError>
    ensures { OnOk result (kept.new.items ≡ (if left_out then kept.old.items else kept.old.items ++ t ∷ [])) }
{
    if !left_out {
        kept.push(t)?;
    }
    Ok(())
}
