//! The goals of an induction by one case.
ghost use Rattle.std.specs.Prelude.{◌∷◌, [], IfOk};
ghost use Rattle.nq_bank.specs.Content.{Grows, IsIdOf, Stands, term_at};
ghost use Rattle.nq_goals.specs.Inducting.{base_case, step_case};
ghost use Rattle.nq_tracer.specs.Leads.{DraftStands, draft_at};

use crate::drafts::Draft;
use crate::terms::{both, deny, implies};
use nq_bank::{Bank, BankFault, TermId};
use nq_clause::substitute;

/// The goals of an induction, each as one literal.
#[derive(Clone, Copy)]
pub struct Nexts {
    /// The base case.
    pub base: TermId,
    /// The step case.
    pub step: TermId,
}

/// Makes the base case.
fn base_of(bank: &mut Bank, p: TermId, draft: &Draft) -> Result<TermId, BankFault>
    requires claim { Stands bank.old p }
    requires draft { DraftStands bank.old draft.now }
    ensures ok { IfOk result (λ t. IsIdOf bank.new t (base_case (term_at bank.old p) (draft_at bank.old draft.now ∷ []))) }
    ensures grows { Grows bank.old bank.new }
{
    let denied = deny(bank, draft.test)?;
    implies(bank, denied, p)
}

/// Makes the step case.
fn step_of(bank: &mut Bank, p: TermId, draft: &Draft) -> Result<TermId, BankFault>
    requires claim { Stands bank.old p }
    requires draft { DraftStands bank.old draft.now }
    ensures ok { IfOk result (λ t. IsIdOf bank.new t (step_case (term_at bank.old p) (draft_at bank.old draft.now))) }
    ensures grows { Grows bank.old bank.new }
{
    let supposed = substitute(bank, p, draft.pairs.as_slice())?;
    let hypothesis = both(bank, draft.test, supposed)?;
    implies(bank, hypothesis, p)
}

/// Makes the goals of an induction by one case.
pub fn nexts_of(bank: &mut Bank, p: TermId, draft: &Draft) -> Result<Nexts, BankFault>
    requires claim { Stands bank.old p }
    requires draft { DraftStands bank.old draft.now }
    ensures base { IfOk result (λ n. IsIdOf bank.new n.base (base_case (term_at bank.old p) (draft_at bank.old draft.now ∷ []))) }
    ensures step { IfOk result (λ n. IsIdOf bank.new n.step (step_case (term_at bank.old p) (draft_at bank.old draft.now))) }
    ensures grows { Grows bank.old bank.new }
{
    let base = base_of(bank, p, draft)?;
    let step = step_of(bank, p, draft)?;
    Ok(Nexts { base, step })
}
