//! The term of a form, or why there is none.
ghost use Rattle.std.specs.Prelude.{◌≡◌, IfOk, IfErr, None};
ghost use Rattle.nq_language.specs.Refusals.{met, translation};
ghost use Rattle.nq_language.specs.Limits.{is_too_large};
ghost use Rattle.nq_bank.specs.Content.{Grows, Stands, term_at};
ghost use Rattle.nq_sexp.specs.Tree.{tree};
ghost use Rattle.nq_abbrev.specs.Known.{arity_over};
ghost use Rattle.nq_abbrev.specs.Meant.{IsTermOf, IsRefusalOf};

use crate::arities::{Arities, nests_of};
use crate::refusal::Refusal;
use crate::refusals::first_refusal;
use crate::terms::term_in;
use nq_bank::{Bank, BankFault, TermId};
use nq_sexp::Sexp;
use thiserror::Error;

/// Why a form has no term.
#[derive(Clone, Copy, Debug, PartialEq, Eq, Error)]
pub enum TranslateFault<'a> {
    /// The first refusal that is met in the form; where there is none, that its term is too large.
    #[error("the form is refused")]
    Refused(Refusal<'a>),
    /// Memory is wanting.
    #[error("out of memory")]
    Memory,
}

/// The term for which a form stands, where functions have these arities; else the first refusal that is met in the form,
/// and `TooLarge` only where there is no other. What LET binds is made once, and counts as often as it is used. After an
/// error the bank may have grown.
pub fn translate<'a, A: Arities>(
    bank: &mut Bank,
    form: &Sexp<'a>,
    arities: &A,
) -> Result<TermId, TranslateFault<'a>>
    ensures term { IfOk result (IsTermOf bank.new (translation (arity_over bank.old.names (A.at arities.now)) (tree form.now))) }
    ensures refused { IfErr result (IsRefusalOf (translation (arity_over bank.old.names (A.at arities.now)) (tree form.now))) }
    ensures grows { Grows bank.old bank.new }
{
    match first_refusal(bank, arities, form) {
        Some(refusal) => Err(TranslateFault::Refused(refusal)),
        None => unrefused(bank, form, arities),
    }
}

/// The term of a form in which nothing is refused, or that it is too large.
fn unrefused<'a, A: Arities>(
    bank: &mut Bank,
    form: &Sexp<'a>,
    arities: &A,
) -> Result<TermId, TranslateFault<'a>>
    requires { met (arity_over bank.old.names (A.at arities.now)) (tree form.now) ≡ None }
    ensures term { IfOk result (IsTermOf bank.new (translation (arity_over bank.old.names (A.at arities.now)) (tree form.now))) }
    ensures refused { IfErr result (IsRefusalOf (translation (arity_over bank.old.names (A.at arities.now)) (tree form.now))) }
    ensures grows { Grows bank.old bank.new }
{
    let nests = nests_of(bank, arities);
    match term_in(bank, &nests, form, &[]) {
        Ok(t) => {
            if is_too_large(bank, t) {
                Err(TranslateFault::Refused(Refusal::TooLarge))
            } else {
                Ok(t)
            }
        }
        Err(BankFault::Deep) => Err(TranslateFault::Refused(Refusal::TooLarge)),
        Err(BankFault::Memory) => Err(TranslateFault::Memory),
    }
}

/// Has a term more nodes than a term of an event may have, or is it deeper? It is told from what the bank keeps of a term,
/// and so no tree is walked.
fn is_too_large(bank: &Bank, t: TermId) -> bool
    requires { Stands bank.now t }
    ensures { result ≡ is_too_large (term_at bank.now t) }
{
    bank.size(t) > 100_000 || bank.depth(t) > 2000
}
