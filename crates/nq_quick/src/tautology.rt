//! Which goals are small tautologies.
ghost use Rattle.std.specs.Prelude.{◌≡◌, ◌++◌, ◌∷◌, [], ◌↔◌, ◌≤◌, All, IfOk, IsTrue};
ghost use Rattle.nq_bank.specs.Content.{Stands, term_at, terms_at};
ghost use Rattle.nq_fragments.specs.Propositions.{proposition_of, nodes_in};
ghost use Rattle.nq_quick.specs.Assignments.{true_in_all};
ghost use Rattle.nq_quick.specs.Answers.{AreOthers, IsAnswer};
ghost use Rattle.nq_fragments.specs.Tautologies.{IsSmallTautology, node_limit};

use crate::nodes::nodes_left;
use crate::others::others_of;
use crate::truth::is_true;
use nq_bank::{Bank, TermId};
use std::alloc::{AllocError, Global};

/// The most nodes of IF, NOT, AND, OR, IMPLIES, IFF, T and F.
const NODE_LIMIT: u64 = 200;

/// The most other terms.
const OTHER_LIMIT: usize = 8;

/// The terms, with one more at the end.
pub fn with_term(alloc: Global, terms: &[TermId], t: TermId) -> Result<Vec<TermId>, AllocError>
    ensures { IfOk result (λ more. more.items ≡ terms.now ++ t ∷ []) }
{
    let mut more = Vec::from_slice(alloc, terms)?;
    more.push(t)?;
    Ok(more)
}

/// Is a proposition true where the others are true or false in each way, and these besides are true?
fn is_true_in_all(
    bank: &Bank,
    t: TermId,
    others: &[TermId],
    trues: &[TermId],
) -> Result<bool, AllocError>
    requires stands { Stands bank.now t }
    requires others { All (Stands bank.now) others.now }
    requires trues { All (Stands bank.now) trues.now }
    ensures { IfOk result (λ b. b ≡ true_in_all (terms_at bank.now others.now) (terms_at bank.now trues.now) (proposition_of (term_at bank.now t))) }
{
    match others {
        [] => Ok(is_true(bank, t, trues)),
        [first, rest @ ..] => {
            let more = with_term(bank.alloc(), trues, *first)?;
            if is_true_in_all(bank, t, rest, more.as_slice())? {
                is_true_in_all(bank, t, rest, trues)
            } else {
                Ok(false)
            }
        }
    }
}

/// Is a proposition true where the others are true or false in each way?
fn is_always_true(bank: &Bank, t: TermId, others: &[TermId]) -> Result<bool, AllocError>
    requires stands { Stands bank.now t }
    requires others { All (Stands bank.now) others.now }
    ensures { IfOk result (λ b. b ≡ true_in_all (terms_at bank.now others.now) [] (proposition_of (term_at bank.now t))) }
{
    let none = Vec::new(bank.alloc());
    is_true_in_all(bank, t, others, none.as_slice())
}

/// Has a proposition no more nodes than a small tautology may have?
pub fn has_few_nodes(bank: &Bank, t: TermId) -> bool
    requires { Stands bank.now t }
    ensures { IsTrue result ↔ (nodes_in (proposition_of (term_at bank.now t)) ≤ node_limit) }
{
    nodes_left(bank, t, NODE_LIMIT).is_some()
}

/// The other terms of a small tautology, each once; None exactly where the term is none.
pub fn small_tautology(bank: &Bank, t: TermId) -> Result<Option<Vec<TermId>>, AllocError>
    requires { Stands bank.now t }
    ensures { IfOk result (IsAnswer bank.now t) }
{
    if !has_few_nodes(bank, t) {
        return Ok(None);
    }
    let others = others_of(bank, t)?;
    if others.len() > OTHER_LIMIT {
        return Ok(None);
    }
    if is_always_true(bank, t, others.as_slice())? {
        Ok(Some(others))
    } else {
        Ok(None)
    }
}

/// Is a term a small tautology?
pub fn is_small_tautology(bank: &Bank, t: TermId) -> Result<bool, AllocError>
    requires { Stands bank.now t }
    ensures { IfOk result (λ b. IsTrue b ↔ IsSmallTautology (term_at bank.now t)) }
{
    Ok(small_tautology(bank, t)?.is_some())
}
