//! The rounds in which facts are found for a goal, each with those found before.
ghost use Rattle.std.specs.Prelude.{◌≡◌, All, IfOk, OnOk, Err};
ghost use Rattle.nq_kernel.specs.Growing.{WorkGrows, WorkStands};
ghost use Rattle.nq_lines.specs.Lines.{IsTermIn};
ghost use Rattle.nq_instances.specs.Parts.{IsLine};
ghost use Rattle.nq_arithmetic.specs.Claims.{IsAssumptionIn};

use crate::assumptions::Assumption;
use crate::gathering::add_round;
use crate::reading::{copied, push_new, terms_in};
use nq_bank::TermId;
use nq_history::History;
use nq_kernel::{Stop, Work};
use nq_lines::Fact;

/// How often facts are looked for.
const ROUNDS: u32 = 3;

/// Adds the facts of a round, if the round before added one. It tells whether this one does, or is the first, in which no guard is
/// asked about.
fn add_round_after(
    work: &mut Work,
    history: &History,
    goal: &[TermId],
    instances: &[Fact],
    terms: &[TermId],
    found: &mut Vec<Assumption>,
    round: u32,
    added: bool,
) -> Result<bool, Stop>
    requires stands { WorkStands history.now work.old }
    requires goal { All (IsTermIn history.now work.old) goal.now }
    requires instances { All (IsLine history.now work.old) instances.now }
    requires terms { All (IsTermIn history.now work.old) terms.now }
    requires found { All (IsAssumptionIn history.now work.old) found.old.items }
    ensures found { OnOk result (All (IsAssumptionIn history.now work.new) found.new.items) }
    ensures grows { WorkGrows history.now work.old work.new }
    ensures out { result ≡ Err Stop.OutOfSteps → work.new.counter.used ≡ work.new.counter.limit }
{
    if !added {
        return Ok(false);
    }
    let before = found.len();
    add_round(work, history, goal, instances, terms, found, round)?;
    Ok(round == 0 || found.len() > before)
}

/// A goal's literals, and the terms of these instances.
fn with_instances(
    work: &Work,
    history: &History,
    goal: &[TermId],
    instances: &[Fact],
) -> Result<Vec<TermId>, Stop>
    requires goal { All (IsTermIn history.now work.now) goal.now }
    requires instances { All (IsLine history.now work.now) instances.now }
    ensures terms { IfOk result (λ ts. All (IsTermIn history.now work.now) ts.items) }
    ensures memory { result ≡ Err Stop.OutOfSteps → ⊥ }
{
    let mut terms = copied(work, history, goal)?;
    for instance in instances {
        push_new(work, history, &mut terms, instance.term)?;
    }
    Ok(terms)
}

/// The facts that are found for a goal, with these instances of lemmas.
pub fn facts_of(
    work: &mut Work,
    history: &History,
    goal: &[TermId],
    instances: &[Fact],
) -> Result<Vec<Assumption>, Stop>
    requires stands { WorkStands history.now work.old }
    requires goal { All (IsTermIn history.now work.old) goal.now }
    requires instances { All (IsLine history.now work.old) instances.now }
    ensures found { IfOk result (λ v. All (IsAssumptionIn history.now work.new) v.items) }
    ensures grows { WorkGrows history.now work.old work.new }
    ensures out { result ≡ Err Stop.OutOfSteps → work.new.counter.used ≡ work.new.counter.limit }
{
    let whole = with_instances(work, history, goal, instances)?;
    let terms = terms_in(work, history, whole.as_slice())?;
    let mut found = Vec::new(work.bank.alloc());
    let mut added = true;
    for round in 0..ROUNDS {
        added = add_round_after(
            work,
            history,
            goal,
            instances,
            terms.as_slice(),
            &mut found,
            round,
            added,
        )?;
    }
    Ok(found)
}
