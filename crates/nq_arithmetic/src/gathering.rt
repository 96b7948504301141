//! The facts that are found for a goal.
ghost use Rattle.std.specs.Prelude.{◌≡◌, ◌∷◌, ◌++◌, [], All, IfOk, IfSome, OnOk, Err};
ghost use Rattle.nq_kernel.specs.Growing.{WorkGrows, WorkStands};
ghost use Rattle.nq_lines.specs.Lines.{IsTermIn};
ghost use Rattle.nq_instances.specs.Parts.{IsLine};
ghost use Rattle.nq_arithmetic.specs.Claims.{AreOperandsIn, IsAssumptionIn, IsClaimIn};

use crate::assumptions::{Assumption, Source, is_assumed, literals_with};
use crate::claims::{Claim, claim_at, claim_of};
use crate::hypotheses::conclusion_in;
use crate::reading::{Operands, is_call_of, operands_of};
use crate::sources::is_source_met;
use crate::template::Template;
use crate::templates::TEMPLATES;
use nq_bank::{Sym, TermId};
use nq_history::History;
use nq_kernel::{Stop, Work};
use nq_lines::Fact;

/// The most facts that are added to a goal.
const FACT_LIMIT: usize = 80;

/// The arguments of the first argument of a call, where that is a call of this function.
fn inner_operands(work: &Work, history: &History, outer: Operands, inner: Sym) -> Option<Operands>
    requires stands { WorkStands history.now work.now }
    requires outer { AreOperandsIn history.now work.now outer }
    ensures { IfSome result (AreOperandsIn history.now work.now) }
{
    if is_call_of(&work.bank, outer.first, inner) {
        operands_of(work, history, outer.first)
    } else {
        None
    }
}

/// The same, or those of the call itself, where no function is asked for.
fn operands_within(
    work: &Work,
    history: &History,
    outer: Operands,
    inner: Option<Sym>,
) -> Option<Operands>
    requires stands { WorkStands history.now work.now }
    requires outer { AreOperandsIn history.now work.now outer }
    ensures { IfSome result (AreOperandsIn history.now work.now) }
{
    match inner {
        Some(f) => inner_operands(work, history, outer, f),
        None => Some(outer),
    }
}

/// The terms of which a fact speaks, at a call of its function, where so many facts leave room.
fn operands_at(
    work: &Work,
    history: &History,
    template: Template,
    t: TermId,
    count: usize,
) -> Option<Operands>
    requires stands { WorkStands history.now work.now }
    requires term { IsTermIn history.now work.now t }
    ensures { IfSome result (AreOperandsIn history.now work.now) }
{
    if count >= FACT_LIMIT || !is_call_of(&work.bank, t, template.outer) {
        return None;
    }
    match operands_of(work, history, t) {
        Some(outer) => operands_within(work, history, outer, template.inner),
        None => None,
    }
}

/// Adds a fact.
fn push(found: &mut Vec<Assumption>, assumption: Assumption) -> Result<(), Stop>
    ensures ok { OnOk result (found.new.items ≡ found.old.items ++ assumption ∷ []) }
    ensures memory { result ≡ Err Stop.OutOfSteps → ⊥ }
{
    match found.push(assumption) {
        Ok(()) => Ok(()),
        Err(_) => Err(Stop::Memory),
    }
}

/// Adds a fact, where that is met on which it rests.
fn add_met(
    work: &mut Work,
    history: &History,
    literals: &[TermId],
    found: &mut Vec<Assumption>,
    assumption: Assumption,
) -> Result<(), Stop>
    requires stands { WorkStands history.now work.old }
    requires literals { All (IsTermIn history.now work.old) literals.now }
    requires found { All (IsAssumptionIn history.now work.old) found.old.items }
    requires assumption { IsAssumptionIn history.now work.old assumption }
    ensures found { OnOk result (All (IsAssumptionIn history.now work.new) found.new.items) }
    ensures grows { WorkGrows history.now work.old work.new }
    ensures out { result ≡ Err Stop.OutOfSteps → work.new.counter.used ≡ work.new.counter.limit }
{
    if is_source_met(work, history, literals, assumption.source)? {
        push(found, assumption)?;
        Ok(())
    } else {
        Ok(())
    }
}

/// Adds a fact about two terms, where its guards are met and it is not there yet.
fn add_fact(
    work: &mut Work,
    history: &History,
    literals: &[TermId],
    found: &mut Vec<Assumption>,
    template: Template,
    at: Operands,
) -> Result<(), Stop>
    requires stands { WorkStands history.now work.old }
    requires literals { All (IsTermIn history.now work.old) literals.now }
    requires found { All (IsAssumptionIn history.now work.old) found.old.items }
    requires at { AreOperandsIn history.now work.old at }
    ensures found { OnOk result (All (IsAssumptionIn history.now work.new) found.new.items) }
    ensures grows { WorkGrows history.now work.old work.new }
    ensures out { result ≡ Err Stop.OutOfSteps → work.new.counter.used ≡ work.new.counter.limit }
{
    let claim = claim_at(work, history, template.fact, at)?;
    if is_assumed(found.as_slice(), claim) {
        Ok(())
    } else {
        let assumption = Assumption {
            claim,
            source: Source::Law(template, at),
        };
        add_met(work, history, literals, found, assumption)
    }
}

/// Adds the fact of a template at a term, where there is room.
fn add_at(
    work: &mut Work,
    history: &History,
    literals: &[TermId],
    found: &mut Vec<Assumption>,
    template: Template,
    t: TermId,
) -> Result<(), Stop>
    requires stands { WorkStands history.now work.old }
    requires literals { All (IsTermIn history.now work.old) literals.now }
    requires found { All (IsAssumptionIn history.now work.old) found.old.items }
    requires term { IsTermIn history.now work.old t }
    ensures found { OnOk result (All (IsAssumptionIn history.now work.new) found.new.items) }
    ensures grows { WorkGrows history.now work.old work.new }
    ensures out { result ≡ Err Stop.OutOfSteps → work.new.counter.used ≡ work.new.counter.limit }
{
    match operands_at(work, history, template, t, found.len()) {
        Some(at) => add_fact(work, history, literals, found, template, at),
        None => Ok(()),
    }
}

/// Adds the fact of a template at a term: in the first round one without guards, and later one with some.
fn add_in_round(
    work: &mut Work,
    history: &History,
    literals: &[TermId],
    found: &mut Vec<Assumption>,
    round: u32,
    template: Template,
    t: TermId,
) -> Result<(), Stop>
    requires stands { WorkStands history.now work.old }
    requires literals { All (IsTermIn history.now work.old) literals.now }
    requires found { All (IsAssumptionIn history.now work.old) found.old.items }
    requires term { IsTermIn history.now work.old t }
    ensures found { OnOk result (All (IsAssumptionIn history.now work.new) found.new.items) }
    ensures grows { WorkGrows history.now work.old work.new }
    ensures out { result ≡ Err Stop.OutOfSteps → work.new.counter.used ≡ work.new.counter.limit }
{
    if (round == 0) == template.guards.is_empty() {
        add_at(work, history, literals, found, template, t)
    } else {
        Ok(())
    }
}

/// Adds the facts of all templates at a term.
fn add_all_at(
    work: &mut Work,
    history: &History,
    goal: &[TermId],
    found: &mut Vec<Assumption>,
    round: u32,
    t: TermId,
) -> Result<(), Stop>
    requires stands { WorkStands history.now work.old }
    requires goal { All (IsTermIn history.now work.old) goal.now }
    requires found { All (IsAssumptionIn history.now work.old) found.old.items }
    requires term { IsTermIn history.now work.old t }
    ensures found { OnOk result (All (IsAssumptionIn history.now work.new) found.new.items) }
    ensures grows { WorkGrows history.now work.old work.new }
    ensures out { result ≡ Err Stop.OutOfSteps → work.new.counter.used ≡ work.new.counter.limit }
{
    let literals = literals_with(work, history, goal, found.as_slice(), found.len())?;
    for template in TEMPLATES {
        add_in_round(
            work,
            history,
            literals.as_slice(),
            found,
            round,
            *template,
            t,
        )?;
    }
    Ok(())
}

/// Adds the facts of all templates at these terms.
fn add_laws(
    work: &mut Work,
    history: &History,
    goal: &[TermId],
    terms: &[TermId],
    found: &mut Vec<Assumption>,
    round: u32,
) -> Result<(), Stop>
    requires stands { WorkStands history.now work.old }
    requires goal { All (IsTermIn history.now work.old) goal.now }
    requires terms { All (IsTermIn history.now work.old) terms.now }
    requires found { All (IsAssumptionIn history.now work.old) found.old.items }
    ensures found { OnOk result (All (IsAssumptionIn history.now work.new) found.new.items) }
    ensures grows { WorkGrows history.now work.old work.new }
    ensures out { result ≡ Err Stop.OutOfSteps → work.new.counter.used ≡ work.new.counter.limit }
{
    for t in terms {
        add_all_at(work, history, goal, found, round, *t)?;
    }
    Ok(())
}

/// Is a fact not there yet, and is there room for it?
fn is_wanted(found: &[Assumption], claim: Claim) -> bool {
    found.len() < FACT_LIMIT && !is_assumed(found, claim)
}

/// Adds the fact of an instance of a lemma, where its hypotheses are met and it is not there yet.
fn add_instance_of(
    work: &mut Work,
    history: &History,
    goal: &[TermId],
    found: &mut Vec<Assumption>,
    instance: Fact,
    claim: Claim,
) -> Result<(), Stop>
    requires stands { WorkStands history.now work.old }
    requires goal { All (IsTermIn history.now work.old) goal.now }
    requires found { All (IsAssumptionIn history.now work.old) found.old.items }
    requires instance { IsLine history.now work.old instance }
    requires claim { IsClaimIn history.now work.old claim }
    ensures found { OnOk result (All (IsAssumptionIn history.now work.new) found.new.items) }
    ensures grows { WorkGrows history.now work.old work.new }
    ensures out { result ≡ Err Stop.OutOfSteps → work.new.counter.used ≡ work.new.counter.limit }
{
    if !is_wanted(found.as_slice(), claim) {
        return Ok(());
    }
    let literals = literals_with(work, history, goal, found.as_slice(), found.len())?;
    let assumption = Assumption {
        claim,
        source: Source::Lemma(instance),
    };
    add_met(work, history, literals.as_slice(), found, assumption)
}

/// Adds the fact of an instance of a lemma: its conclusion.
fn add_instance(
    work: &mut Work,
    history: &History,
    goal: &[TermId],
    found: &mut Vec<Assumption>,
    instance: Fact,
) -> Result<(), Stop>
    requires stands { WorkStands history.now work.old }
    requires goal { All (IsTermIn history.now work.old) goal.now }
    requires found { All (IsAssumptionIn history.now work.old) found.old.items }
    requires instance { IsLine history.now work.old instance }
    ensures found { OnOk result (All (IsAssumptionIn history.now work.new) found.new.items) }
    ensures grows { WorkGrows history.now work.old work.new }
    ensures out { result ≡ Err Stop.OutOfSteps → work.new.counter.used ≡ work.new.counter.limit }
{
    let conclusion = conclusion_in(work, history, instance.term);
    let claim = claim_of(work, history, conclusion)?;
    add_instance_of(work, history, goal, found, instance, claim)
}

/// Adds the facts of instances of lemmas.
fn add_instances(
    work: &mut Work,
    history: &History,
    goal: &[TermId],
    instances: &[Fact],
    found: &mut Vec<Assumption>,
) -> Result<(), Stop>
    requires stands { WorkStands history.now work.old }
    requires goal { All (IsTermIn history.now work.old) goal.now }
    requires instances { All (IsLine history.now work.old) instances.now }
    requires found { All (IsAssumptionIn history.now work.old) found.old.items }
    ensures found { OnOk result (All (IsAssumptionIn history.now work.new) found.new.items) }
    ensures grows { WorkGrows history.now work.old work.new }
    ensures out { result ≡ Err Stop.OutOfSteps → work.new.counter.used ≡ work.new.counter.limit }
{
    for instance in instances {
        add_instance(work, history, goal, found, *instance)?;
    }
    Ok(())
}

/// Adds the facts of instances, and those about all these terms.
pub fn add_round(
    work: &mut Work,
    history: &History,
    goal: &[TermId],
    instances: &[Fact],
    terms: &[TermId],
    found: &mut Vec<Assumption>,
    round: u32,
) -> Result<(), Stop>
    requires stands { WorkStands history.now work.old }
    requires goal { All (IsTermIn history.now work.old) goal.now }
    requires instances { All (IsLine history.now work.old) instances.now }
    requires terms { All (IsTermIn history.now work.old) terms.now }
    requires found { All (IsAssumptionIn history.now work.old) found.old.items }
    ensures found { OnOk result (All (IsAssumptionIn history.now work.new) found.new.items) }
    ensures grows { WorkGrows history.now work.old work.new }
    ensures out { result ≡ Err Stop.OutOfSteps → work.new.counter.used ≡ work.new.counter.limit }
{
    add_instances(work, history, goal, instances, found)?;
    add_laws(work, history, goal, terms, found, round)
}
