//! Facts that are added to a goal's literals: the opposite of each is one literal more.
ghost use Rattle.std.specs.Prelude.{◌≡◌, All, IfOk, OnOk, Err};
ghost use Rattle.nq_lines.specs.Lines.{IsTermIn};
ghost use Rattle.nq_arithmetic.specs.Claims.{IsAssumptionIn};

use crate::claims::{Claim, opposite_of};
use crate::making::push_term;
use crate::reading::{Operands, copied};
use crate::template::Template;
use nq_bank::TermId;
use nq_history::History;
use nq_kernel::{Stop, Work};
use nq_lines::Fact;

/// How the line of a fact is made.
#[derive(Clone, Copy, Debug)]
pub enum Source {
    /// From a law about two terms.
    Law(Template, Operands),
    /// From the instance of a lemma, whose conclusion is the fact.
    Lemma(Fact),
}

/// A fact.
#[derive(Clone, Copy, Debug)]
pub struct Assumption {
    /// The fact.
    pub claim: Claim,
    /// How its line is made.
    pub source: Source,
}

/// Is a fact among these?
pub fn is_assumed(assumptions: &[Assumption], claim: Claim) -> bool {
    for a in assumptions {
        if a.claim.test.0 == claim.test.0 && a.claim.denied == claim.denied {
            return true;
        }
    }
    false
}

/// Adds the opposite of the fact at a place, if it is before this number.
fn add_opposite(
    work: &Work,
    history: &History,
    literals: &mut Vec<TermId>,
    assumption: Assumption,
    is_before: bool,
) -> Result<(), Stop>
    requires literals { All (IsTermIn history.now work.now) literals.old.items }
    requires assumption { IsAssumptionIn history.now work.now assumption }
    ensures literals { OnOk result (All (IsTermIn history.now work.now) literals.new.items) }
    ensures memory { result ≡ Err Stop.OutOfSteps → ⊥ }
{
    if is_before {
        let opposite = opposite_of(work, history, assumption.claim);
        push_term(literals, opposite)?;
        Ok(())
    } else {
        Ok(())
    }
}

/// The literals of a goal, and the opposites of so many facts.
pub fn literals_with(
    work: &Work,
    history: &History,
    goal: &[TermId],
    assumptions: &[Assumption],
    count: usize,
) -> Result<Vec<TermId>, Stop>
    requires goal { All (IsTermIn history.now work.now) goal.now }
    requires assumptions { All (IsAssumptionIn history.now work.now) assumptions.now }
    ensures literals { IfOk result (λ ts. All (IsTermIn history.now work.now) ts.items) }
    ensures memory { result ≡ Err Stop.OutOfSteps → ⊥ }
{
    let mut literals = copied(work, history, goal)?;
    for i in 0..assumptions.len() {
        add_opposite(work, history, &mut literals, assumptions[i], i < count)?;
    }
    Ok(literals)
}
