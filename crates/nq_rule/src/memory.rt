//! Lists of ids that are made, where the only fault is want of memory.
ghost use Rattle.std.specs.Prelude.{◌≡◌, ◌++◌, ◌∷◌, [], IfOk, OnOk, Err, Ok};

use nq_bank::{BankFault, TermId};
use std::alloc::AllocError;

/// The only fault of such a clause is want of memory.
pub fn or_memory(answer: Result<Vec<TermId>, AllocError>) -> Result<Vec<TermId>, BankFault>
    ensures ok { IfOk result (λ c. answer ≡ Ok c) }
    ensures not_deep { result ≡ Err BankFault.Deep → ⊥ }
{
    match answer {
        Ok(c) => Ok(c),
        Err(_) => Err(BankFault::Memory),
    }
}

/// Puts a literal at the end.
pub fn push_literal(literals: &mut Vec<TermId>, t: TermId) -> Result<(), BankFault>
    ensures ok { OnOk result (literals.new.items ≡ literals.old.items ++ t ∷ []) }
    ensures not_deep { result ≡ Err BankFault.Deep → ⊥ }
{
    match literals.push(t) {
        Ok(()) => Ok(()),
        Err(_) => Err(BankFault::Memory),
    }
}
