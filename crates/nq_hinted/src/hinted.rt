//! Lemmas that are hinted.
ghost use Rattle.std.specs.Prelude.{◌≡◌, ◌↔◌, ◌<◌, ◌∷◌, [], All, IfOk, IsTrue, length};
ghost use Rattle.nq_bank.specs.Content.{IsIdOf, Stands, term_at, terms_at};
ghost use Rattle.nq_fragments.specs.Fragments.{IsInNoFragment};
ghost use Rattle.nq_fragments.specs.Tautologies.{IsSmallTautology};
ghost use Rattle.nq_history.specs.Events.{events_at};
ghost use Rattle.nq_history.specs.Hints.{HintsStand, InstanceStands};
ghost use Rattle.nq_event.specs.EventsAt.{hints_at};
ghost use Rattle.nq_goals.specs.Hints.{first_goal};
ghost use Rattle.nq_kernel.specs.Growing.{WorkStands};
ghost use Rattle.nq_kernel.specs.Hints.{HintsAreIn};
ghost use Rattle.nq_kernel.specs.Over.{TermIsIn};
ghost use Rattle.nq_kernel.specs.Ready.{IsReady};
ghost use Rattle.nq_lines.specs.Lines.{LineHasOnly};
ghost use Rattle.nq_eval.specs.Lines.{GrowsUncounted};
ghost use Rattle.nq_hinted.specs.Answers.{CanBeHinted, HasFirstGoal, HaveDistinctPairs, IsHintedAnswer};
ghost use Rattle.nq_hinted.specs.Nests.{nest};

use crate::nests::nest_of;
use crate::uncounted::unwind_uncounted;
use nq_bank::TermId;
use nq_history::{Hints, History, Instance};
use nq_kernel::Work;
use nq_quick::{is_small_tautology, quick};
use nq_rule::are_distinct_variables;
use nq_uses::first_goal;
use std::alloc::AllocError;

/// The most literals after the first that a goal has whose nest is small.
const LITERAL_LIMIT: usize = 100;

/// Are the variables of each instance distinct?
fn have_distinct_pairs(work: &Work, instances: &[Instance]) -> bool
    requires stand { All (InstanceStands work.now.bank) instances.now }
    ensures { IsTrue result ↔ HaveDistinctPairs work.now.bank instances.now }
{
    for instance in instances {
        if !are_distinct_variables(&work.bank, instance.pairs.as_slice()) {
            return false;
        }
    }
    true
}

/// The line of a small tautology.
fn tautology_line(work: &mut Work, history: &History, t: TermId) -> Result<u64, AllocError>
    requires stands { WorkStands history.now work.old }
    requires term { Stands work.old.bank t }
    requires over { TermIsIn work.old.bank history.now t }
    requires ready { IsReady (events_at work.old.bank history.now) }
    requires tautology { IsSmallTautology (term_at work.old.bank t) }
    ensures line { IfOk result (λ n. LineHasOnly work.new n (term_at work.old.bank t ∷ [])) }
    ensures grows { GrowsUncounted history.now work.old work.new }
{
    match quick(work, history, t)? {
        Some(found) => Ok(found.1),
        None => unreachable!(),
    }
}

/// Proves a lemma, where its first goal has this nest and the nest is a small tautology.
fn prove_nest(
    work: &mut Work,
    history: &History,
    hints: &Hints,
    goal: TermId,
    first: TermId,
    rest: &[TermId],
    whole: TermId,
) -> Result<Option<u64>, AllocError>
    requires can { CanBeHinted history.now hints.now work.old goal }
    requires literals { HasFirstGoal history.now hints.now work.old.bank goal first rest.now }
    requires whole { IsIdOf work.old.bank whole (nest (term_at work.old.bank first) (terms_at work.old.bank rest.now)) }
    requires over { TermIsIn work.old.bank history.now whole }
    ensures answer { IfOk result (IsHintedAnswer history.now hints.now work.old work.new goal) }
    ensures grows { GrowsUncounted history.now work.old work.new }
{
    let small = is_small_tautology(&work.bank, whole)?;
    if small {
        let line = prove_small(work, history, hints, goal, first, rest, whole)?;
        Ok(Some(line))
    } else {
        Ok(None)
    }
}

/// Adds the line of a lemma, where its first goal has this nest, which is a small tautology.
fn prove_small(
    work: &mut Work,
    history: &History,
    hints: &Hints,
    goal: TermId,
    first: TermId,
    rest: &[TermId],
    whole: TermId,
) -> Result<u64, AllocError>
    requires can { CanBeHinted history.now hints.now work.old goal }
    requires literals { HasFirstGoal history.now hints.now work.old.bank goal first rest.now }
    requires whole { IsIdOf work.old.bank whole (nest (term_at work.old.bank first) (terms_at work.old.bank rest.now)) }
    requires over { TermIsIn work.old.bank history.now whole }
    requires tautology { IsSmallTautology (term_at work.old.bank whole) }
    ensures line { IfOk result (λ n. LineHasOnly work.new n (term_at work.old.bank goal ∷ [])) }
    ensures grows { GrowsUncounted history.now work.old work.new }
{
    let line = tautology_line(work, history, whole)?;
    let instances = hints.instances.as_slice();
    unwind_uncounted(work, history, instances, first, rest, whole, line)
}

/// Has a goal more literals than one whose nest is small?
fn has_many(rest: &[TermId]) -> bool
    ensures { IsTrue result ↔ (100 < length rest.now) }
{
    rest.len() > LITERAL_LIMIT
}

/// Proves a lemma of whose first goal these are the literals, where it is hinted.
fn prove_goal(
    work: &mut Work,
    history: &History,
    hints: &Hints,
    goal: TermId,
    first: TermId,
    rest: &[TermId],
) -> Result<Option<u64>, AllocError>
    requires can { CanBeHinted history.now hints.now work.old goal }
    requires first { Stands work.old.bank first }
    requires rest { All (Stands work.old.bank) rest.now }
    requires literals { term_at work.old.bank first ∷ terms_at work.old.bank rest.now ≡ first_goal (events_at work.old.bank history.now) (hints_at work.old.bank hints.now) (term_at work.old.bank goal) }
    ensures answer { IfOk result (IsHintedAnswer history.now hints.now work.old work.new goal) }
    ensures grows { GrowsUncounted history.now work.old work.new }
{
    if has_many(rest) {
        Ok(None)
    } else {
        prove_few(work, history, hints, goal, first, rest)
    }
}

/// The same, where the literals are few.
fn prove_few(
    work: &mut Work,
    history: &History,
    hints: &Hints,
    goal: TermId,
    first: TermId,
    rest: &[TermId],
) -> Result<Option<u64>, AllocError>
    requires can { CanBeHinted history.now hints.now work.old goal }
    requires literals { HasFirstGoal history.now hints.now work.old.bank goal first rest.now }
    ensures answer { IfOk result (IsHintedAnswer history.now hints.now work.old work.new goal) }
    ensures grows { GrowsUncounted history.now work.old work.new }
{
    match nest_of(&mut work.bank, first, rest) {
        Ok(whole) => prove_nest(work, history, hints, goal, first, rest, whole),
        Err(_) => Err(AllocError),
    }
}

/// The same of the literals in a list.
fn prove_literals(
    work: &mut Work,
    history: &History,
    hints: &Hints,
    goal: TermId,
    literals: &[TermId],
) -> Result<Option<u64>, AllocError>
    requires can { CanBeHinted history.now hints.now work.old goal }
    requires stand { All (Stands work.old.bank) literals.now }
    requires literals { terms_at work.old.bank literals.now ≡ first_goal (events_at work.old.bank history.now) (hints_at work.old.bank hints.now) (term_at work.old.bank goal) }
    ensures answer { IfOk result (IsHintedAnswer history.now hints.now work.old work.new goal) }
    ensures grows { GrowsUncounted history.now work.old work.new }
{
    match literals {
        [] => Ok(None),
        [first, rest @ ..] => prove_goal(work, history, hints, goal, *first, rest),
    }
}

/// Proves a lemma, where it is hinted.
fn prove_distinct(
    work: &mut Work,
    history: &History,
    hints: &Hints,
    goal: TermId,
) -> Result<Option<u64>, AllocError>
    requires can { CanBeHinted history.now hints.now work.old goal }
    ensures answer { IfOk result (IsHintedAnswer history.now hints.now work.old work.new goal) }
    ensures grows { GrowsUncounted history.now work.old work.new }
{
    match first_goal(&mut work.bank, history, hints, goal) {
        Ok(literals) => prove_literals(work, history, hints, goal, literals.as_slice()),
        Err(_) => Err(AllocError),
    }
}

/// Proves a lemma in no fragment that is hinted: where the nest of OR of the literals of its first goal is a small tautology. The
/// line has only the lemma, and no step is counted. None exactly where the lemma is not hinted, or an instance of a hint replaces a
/// variable twice, as no lawful hint does. It fails only for want of memory; a term that is deeper than a bank allows counts as
/// such, and a lawful hint leads to none.
pub fn prove_hinted(
    work: &mut Work,
    history: &History,
    hints: &Hints,
    goal: TermId,
) -> Result<Option<u64>, AllocError>
    requires stands { WorkStands history.now work.old }
    requires ready { IsReady (events_at work.old.bank history.now) }
    requires goal { Stands work.old.bank goal }
    requires over { TermIsIn work.old.bank history.now goal }
    requires none { IsInNoFragment (events_at work.old.bank history.now) (term_at work.old.bank goal) }
    requires hints { HintsStand work.old.bank hints.now }
    requires hint_terms { HintsAreIn work.old.bank history.now hints.now }
    ensures answer { IfOk result (IsHintedAnswer history.now hints.now work.old work.new goal) }
    ensures grows { GrowsUncounted history.now work.old work.new }
{
    if have_distinct_pairs(work, hints.instances.as_slice()) {
        prove_distinct(work, history, hints, goal)
    } else {
        Ok(None)
    }
}
