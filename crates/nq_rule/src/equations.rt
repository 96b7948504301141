//! The clauses of one literal: EVENT and REFL.
ghost use Rattle.std.specs.Prelude.{◌≡◌, ◌∷◌, [], IfOk, Err, Some};
ghost use Rattle.nq_logic.specs.Words.{equal_term};
ghost use Rattle.nq_bank.specs.Content.{Stands, Grows, term_at};
ghost use Rattle.nq_rule.specs.Conclusions.{Concludes, IsDeep};

use crate::making::ground_call;
use crate::memory::or_memory;
use nq_bank::{Bank, BankFault, TermId, ground};
use std::alloc::{AllocError, Global};

fn single_clause(alloc: Global, t: TermId) -> Result<Vec<TermId>, AllocError>
    ensures { IfOk result (λ c. c.items ≡ t ∷ []) }
{
    let mut c = Vec::new(alloc);
    c.push(t)?;
    Ok(c)
}

/// The clause of one literal.
pub fn clause_of_one(bank: &Bank, t: TermId) -> Result<Vec<TermId>, BankFault>
    requires { Stands bank.now t }
    ensures ok { IfOk result (λ c. Concludes bank.now c.items (Some (term_at bank.now t ∷ []))) }
    ensures not_deep { result ≡ Err BankFault.Deep → ⊥ }
{
    or_memory(single_clause(bank.alloc(), t))
}

/// The clause `(EQUAL t t)`.
pub fn reflexive_clause(bank: &mut Bank, t: TermId) -> Result<Vec<TermId>, BankFault>
    requires { Stands bank.old t }
    ensures ok { IfOk result (λ c. Concludes bank.new c.items (Some (equal_term (term_at bank.old t) (term_at bank.old t) ∷ []))) }
    ensures grows { Grows bank.old bank.new }
    ensures names { bank.new.names ≡ bank.old.names }
    ensures deep { result ≡ Err BankFault.Deep → IsDeep (Some (equal_term (term_at bank.old t) (term_at bank.old t) ∷ [])) }
{
    let equation = ground_call(bank, ground::EQUAL, &[t, t])?;
    clause_of_one(bank, equation)
}
