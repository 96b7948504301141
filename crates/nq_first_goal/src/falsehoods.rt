//! The steps from a lemma that is a proposition over variables, and is false under some assignment.
ghost use Rattle.std.specs.Prelude.{◌≡◌, ◌++◌, ◌∷◌, [], All, IfOk, IfSome, List, None, OnOk, true};
ghost use Rattle.nq_logic.specs.Terms.{Each};
ghost use Rattle.nq_logic.specs.Words.{not_term};
ghost use Rattle.nq_bank.specs.Content.{Grows, IsIdOf, Stands, term_at, terms_at};
ghost use Rattle.nq_history.specs.Events.{HistoryStands, events_at};
ghost use Rattle.nq_history.specs.Hints.{HintsStand};
ghost use Rattle.nq_comment.specs.ReportViews.{steps_of};
ghost use Rattle.nq_event.specs.EventsAt.{hints_at};
ghost use Rattle.nq_fragments.specs.Propositions.{proposition_of};
ghost use Rattle.nq_goals.specs.Decided.{IsVariable};
ghost use Rattle.nq_goals.specs.Trees.{Step};
ghost use Rattle.nq_answers.specs.Shown.{shown_steps};
ghost use Rattle.nq_decided.specs.FailedFalsehoods.{clauses_steps};
ghost use Rattle.nq_decided.specs.Falsehoods.{false_clauses};
ghost use Rattle.nq_ground_goals.specs.Literals.{IsLiteral};
ghost use Rattle.nq_first_goal.specs.Falsehoods.{AreNots, AreVariablesOf, FailsBy, IsLoneStuck};

use crate::dropping::push_clause;
use nq_bank::{Bank, Node, TermId, ground, ground_name};
use nq_comment::ShownStep;
use nq_history::{Hints, History};
use nq_quick::{has_few_nodes, is_true, others_of};
use nq_stuck::is_stuck;
use std::alloc::{AllocError, Global};

/// The most variables.
const VARIABLE_LIMIT: usize = 8;

/// Are these all variables?
fn are_variables(bank: &Bank, terms: &[TermId]) -> bool
    requires { All (Stands bank.now) terms.now }
    ensures { result ≡ true → Each IsVariable (terms_at bank.now terms.now) }
{
    match terms {
        [] => true,
        [first, rest @ ..] => match bank.node(*first) {
            Node::Var(_) => are_variables(bank, rest),
            Node::Num(_) => false,
            Node::App(_, _) => false,
        },
    }
}

/// The variables of a small proposition over variables, of which there is one; None for another term.
fn variables_of(bank: &Bank, lemma: TermId) -> Result<Option<Vec<TermId>>, AllocError>
    requires { Stands bank.now lemma }
    ensures { IfOk result (λ o. IfSome o (λ v. AreVariablesOf bank.now lemma v.items)) }
{
    if !has_few_nodes(bank, lemma) {
        return Ok(None);
    }
    let others = others_of(bank, lemma)?;
    if others.len() > VARIABLE_LIMIT || others.len() < 1 {
        return Ok(None);
    }
    if are_variables(bank, others.as_slice()) {
        Ok(Some(others))
    } else {
        Ok(None)
    }
}

/// Makes the NOT of a term. It fails only for want of memory, as which a term counts that is deeper than a bank allows.
fn not_of(bank: &mut Bank, t: TermId) -> Result<TermId, AllocError>
    requires { Stands bank.old t }
    ensures not { IfOk result (λ n. IsIdOf bank.new n (not_term (term_at bank.old t))) }
    ensures grows { Grows bank.old bank.new }
{
    let name = ground_name(bank, ground::NOT);
    match bank.app(name, &[t]) {
        Ok(denied) => Ok(denied),
        Err(_) => Err(AllocError),
    }
}

/// Makes the NOT of each of these terms.
fn nots_of(bank: &mut Bank, terms: &[TermId]) -> Result<Vec<TermId>, AllocError>
    requires { All (Stands bank.old) terms.now }
    ensures nots { IfOk result (λ v. AreNots bank.new (terms_at bank.old terms.now) v.items) }
    ensures grows { Grows bank.old bank.new }
{
    let mut nots = Vec::new(bank.alloc());
    for t in terms {
        let denied = not_of(bank, *t)?;
        nots.push(denied)?;
    }
    Ok(nots)
}

/// Is a literal stuck where it is a goal alone?
fn is_lone_stuck(
    bank: &Bank,
    history: &History,
    hints: &Hints,
    literal: TermId,
) -> Result<bool, AllocError>
    requires history { HistoryStands bank.now history.now }
    requires hints { HintsStand bank.now hints.now }
    requires literal { Stands bank.now literal }
    ensures { IfOk result (λ b. b ≡ true → IsLoneStuck (events_at bank.now history.now) (hints_at bank.now hints.now) (term_at bank.now literal)) }
{
    is_stuck(bank, history, hints, &[literal])
}

/// Is each of these literals stuck where it is a goal alone?
#[cycle(alone)]
fn are_stuck(
    bank: &Bank,
    history: &History,
    hints: &Hints,
    literals: &[TermId],
) -> Result<bool, AllocError>
    requires history { HistoryStands bank.now history.now }
    requires hints { HintsStand bank.now hints.now }
    requires literals { All (Stands bank.now) literals.now }
    ensures { IfOk result (λ b. b ≡ true → Each (IsLoneStuck (events_at bank.now history.now) (hints_at bank.now hints.now)) (terms_at bank.now literals.now)) }
{
    match literals {
        [] => Ok(true),
        [first, rest @ ..] => are_stuck_from(bank, history, hints, *first, rest),
    }
}

/// The same of a first literal and others.
#[cycle(alone)]
fn are_stuck_from(
    bank: &Bank,
    history: &History,
    hints: &Hints,
    first: TermId,
    rest: &[TermId],
) -> Result<bool, AllocError>
    requires history { HistoryStands bank.now history.now }
    requires hints { HintsStand bank.now hints.now }
    requires first { Stands bank.now first }
    requires rest { All (Stands bank.now) rest.now }
    ensures { IfOk result (λ b. b ≡ true → Each (IsLoneStuck (events_at bank.now history.now) (hints_at bank.now hints.now)) (term_at bank.now first ∷ terms_at bank.now rest.now)) }
{
    if is_lone_stuck(bank, history, hints, first)? {
        are_stuck(bank, history, hints, rest)
    } else {
        Ok(false)
    }
}

/// The terms, with one more at the end.
fn with_term(alloc: Global, terms: &[TermId], t: TermId) -> Result<Vec<TermId>, AllocError>
    ensures { IfOk result (λ more. more.items ≡ terms.now ++ t ∷ []) }
{
    let mut more = Vec::from_slice(alloc, terms)?;
    more.push(t)?;
    Ok(more)
}

/// Pushes the steps of the clauses of false assignments: of each way to make these variables true or false, where other terms are
/// true, and literals are there of which each is false.
#[cycle(pushing)]
fn push_clauses(
    bank: &Bank,
    lemma: TermId,
    variables: &[TermId],
    nots: &[TermId],
    trues: &[TermId],
    literals: &[TermId],
    steps: &mut Vec<ShownStep>,
) -> Result<(), AllocError>
    requires lemma { Stands bank.now lemma }
    requires variables { All (Stands bank.now) variables.now }
    requires nots { AreNots bank.now (terms_at bank.now variables.now) nots.now }
    requires trues { All (Stands bank.now) trues.now }
    requires literals { All (Stands bank.now) literals.now }
    ensures { OnOk result ((old : List Step) → steps_of steps.old.items ≡ shown_steps old → steps_of steps.new.items ≡ shown_steps (clauses_steps (false_clauses (terms_at bank.now variables.now) (terms_at bank.now trues.now) (terms_at bank.now literals.now) (proposition_of (term_at bank.now lemma))) old)) }
{
    match variables {
        [] => {
            if is_true(bank, lemma, trues) {
                Ok(())
            } else {
                push_clause(bank, literals, steps)
            }
        }
        [first, rest @ ..] => match nots {
            [] => unreachable!(),
            [denied, more @ ..] => push_both(
                bank, lemma, *first, rest, *denied, more, trues, literals, steps,
            ),
        },
    }
}

/// The same of a first variable and others: where it is true, and then where it is false.
#[cycle(pushing)]
fn push_both(
    bank: &Bank,
    lemma: TermId,
    first: TermId,
    rest: &[TermId],
    denied: TermId,
    more: &[TermId],
    trues: &[TermId],
    literals: &[TermId],
    steps: &mut Vec<ShownStep>,
) -> Result<(), AllocError>
    requires lemma { Stands bank.now lemma }
    requires first { Stands bank.now first }
    requires rest { All (Stands bank.now) rest.now }
    requires denied { IsIdOf bank.now denied (not_term (term_at bank.now first)) }
    requires more { AreNots bank.now (terms_at bank.now rest.now) more.now }
    requires trues { All (Stands bank.now) trues.now }
    requires literals { All (Stands bank.now) literals.now }
    ensures { OnOk result ((old : List Step) → steps_of steps.old.items ≡ shown_steps old → steps_of steps.new.items ≡ shown_steps (clauses_steps (false_clauses (term_at bank.now first ∷ terms_at bank.now rest.now) (terms_at bank.now trues.now) (terms_at bank.now literals.now) (proposition_of (term_at bank.now lemma))) old)) }
{
    let alloc = bank.alloc();
    let held = with_term(alloc, trues, first)?;
    let with_not = with_term(alloc, literals, denied)?;
    push_clauses(
        bank,
        lemma,
        rest,
        more,
        held.as_slice(),
        with_not.as_slice(),
        steps,
    )?;
    let with_first = with_term(alloc, literals, first)?;
    push_clauses(bank, lemma, rest, more, trues, with_first.as_slice(), steps)
}

/// The steps from a small proposition over these variables, of which these are the NOTs; none where one of them is not stuck alone.
fn steps_over(
    bank: &Bank,
    history: &History,
    hints: &Hints,
    lemma: TermId,
    variables: &[TermId],
    nots: &[TermId],
) -> Result<Vec<ShownStep>, AllocError>
    requires history { HistoryStands bank.now history.now }
    requires hints { HintsStand bank.now hints.now }
    requires free { (hints_at bank.now hints.now).induct ≡ None }
    requires lemma { IsLiteral bank.now history.now lemma }
    requires variables { AreVariablesOf bank.now lemma variables.now }
    requires nots { AreNots bank.now (terms_at bank.now variables.now) nots.now }
    ensures { IfOk result (λ v. FailsBy (events_at bank.now history.now) (hints_at bank.now hints.now) (term_at bank.now lemma) (steps_of v.items)) }
{
    let mut steps = Vec::new(bank.alloc());
    if !are_stuck(bank, history, hints, variables)? {
        return Ok(steps);
    }
    if !are_stuck(bank, history, hints, nots)? {
        return Ok(steps);
    }
    push_clauses(bank, lemma, variables, nots, &[], &[], &mut steps)?;
    Ok(steps)
}

/// The steps from a small proposition over these variables.
fn steps_from(
    bank: &mut Bank,
    history: &History,
    hints: &Hints,
    lemma: TermId,
    variables: &[TermId],
) -> Result<Vec<ShownStep>, AllocError>
    requires history { HistoryStands bank.old history.now }
    requires hints { HintsStand bank.old hints.now }
    requires free { (hints_at bank.old hints.now).induct ≡ None }
    requires lemma { IsLiteral bank.old history.now lemma }
    requires variables { AreVariablesOf bank.old lemma variables.now }
    ensures told { IfOk result (λ v. FailsBy (events_at bank.old history.now) (hints_at bank.old hints.now) (term_at bank.old lemma) (steps_of v.items)) }
    ensures bank { IfOk result (λ _. bank.new ≡ bank.old) }
{
    let mark = bank.mark();
    let nots = nots_of(bank, variables)?;
    let steps = steps_over(bank, history, hints, lemma, variables, nots.as_slice())?;
    bank.release(mark);
    Ok(steps)
}

/// The steps of the tree of a failure from a lemma that is a small proposition over variables and false under some assignment: a
/// SIMP to the clauses of these, and IRR from each of them down to one literal. There is none for another lemma, under an INDUCT hint,
/// or where a literal is not stuck alone. What it made in the bank is given back.
pub(crate) fn falsehood_steps(
    bank: &mut Bank,
    history: &History,
    hints: &Hints,
    lemma: TermId,
) -> Result<Vec<ShownStep>, AllocError>
    requires history { HistoryStands bank.old history.now }
    requires hints { HintsStand bank.old hints.now }
    requires lemma { IsLiteral bank.old history.now lemma }
    ensures told { IfOk result (λ v. FailsBy (events_at bank.old history.now) (hints_at bank.old hints.now) (term_at bank.old lemma) (steps_of v.items)) }
    ensures bank { IfOk result (λ _. bank.new ≡ bank.old) }
{
    if hints.induct.is_some() {
        return Ok(Vec::new(bank.alloc()));
    }
    match variables_of(bank, lemma)? {
        Some(variables) => steps_from(bank, history, hints, lemma, variables.as_slice()),
        None => Ok(Vec::new(bank.alloc())),
    }
}
