//! Instances of rules with variables that their left sides do not bind: an assumption that a hypothesis takes binds them.
//!
//! As with `(IMPLIES (AND (MEMBER E X) (SUBSETP X Y)) (MEMBER E Y))`, whose left side says nothing of X: `(MEMBER A C)` is
//! rewritten by it where some `(MEMBER A B)` is assumed. Where no assumption serves, the rule is not tried.
ghost use Rattle.std.specs.Prelude.{◌≡◌, IfOk, IfSome, Err};
ghost use Rattle.nq_bank.specs.Content.{IsNamed, terms_at};
ghost use Rattle.nq_history.specs.Events.{events_at};
ghost use Rattle.nq_kernel.specs.Growing.{WorkGrows, WorkStands};
ghost use Rattle.nq_lines.specs.Facts.{IsFact};
ghost use Rattle.nq_lines.specs.Lines.{IsTermIn};
ghost use Rattle.nq_lines.specs.OwnTerms.{HasOwnTerms};
ghost use Rattle.nq_reduce.specs.Held.{IsHeld};
ghost use Rattle.nq_reduce.specs.Rewriting.{CanRewrite};

use crate::rules::takes;
use crate::terms::variables_of;
use nq_bank::{Sym, TermId, ground};
use nq_history::History;
use nq_instances::two_in;
use nq_kernel::{Stop, Work};
use nq_lines::{Fact, equate, event_fact, matched_fact};
use nq_rules::{is_call, left_side};

/// The left side of a rule, and a hypothesis with a variable that it has not.
#[derive(Clone, Copy)]
struct Unbound {
    /// The left side.
    left: TermId,
    /// The hypothesis.
    hypothesis: TermId,
}

/// The left side of a conclusion of one part.
fn left_in(work: &Work, history: &History, conclusion: TermId) -> Option<TermId>
    requires stands { WorkStands history.now work.now }
    requires conclusion { IsTermIn history.now work.now conclusion }
    ensures { IfSome result (IsTermIn history.now work.now) }
{
    if two_in(work, history, ground::AND, conclusion).is_some() {
        return None;
    }
    if two_in(work, history, ground::IMPLIES, conclusion).is_some() {
        return None;
    }
    Some(left_side(&work.bank, conclusion))
}

/// The first of the hypotheses that has other variables than these.
fn unbound_among(
    work: &Work,
    history: &History,
    variables: u64,
    hypotheses: TermId,
) -> Option<TermId>
    requires stands { WorkStands history.now work.now }
    requires hypotheses { IsTermIn history.now work.now hypotheses }
    ensures { IfSome result (IsTermIn history.now work.now) }
{
    match two_in(work, history, ground::AND, hypotheses) {
        Some(sides) => match unbound_among(work, history, variables, sides.left) {
            Some(found) => Some(found),
            None => unbound_among(work, history, variables, sides.right),
        },
        None => {
            if (variables_of(&work.bank, hypotheses) & !variables) != 0 {
                Some(hypotheses)
            } else {
                None
            }
        }
    }
}

/// What is not bound in a rule of one conclusion.
fn unbound_in(work: &Work, history: &History, rule: TermId) -> Option<Unbound>
    requires stands { WorkStands history.now work.now }
    requires rule { IsTermIn history.now work.now rule }
    ensures left { IfSome result (λ u. IsTermIn history.now work.now u.left) }
    ensures hypothesis { IfSome result (λ u. IsTermIn history.now work.now u.hypothesis) }
{
    match two_in(work, history, ground::IMPLIES, rule) {
        Some(sides) => match left_in(work, history, sides.right) {
            Some(left) => {
                let variables = variables_of(&work.bank, left);
                match unbound_among(work, history, variables, sides.left) {
                    Some(hypothesis) => Some(Unbound { left, hypothesis }),
                    None => None,
                }
            }
            None => None,
        },
        None => None,
    }
}

/// The instance of a rule that takes its left side to a term and a hypothesis to an assumption.
fn instance_by(
    work: &mut Work,
    history: &History,
    name: Sym,
    t: TermId,
    unbound: Unbound,
    a: TermId,
) -> Result<Option<Fact>, Stop>
    requires stands { WorkStands history.now work.old }
    requires ready { HasOwnTerms (events_at work.old.bank history.now) }
    requires name { IsNamed work.old.bank name }
    requires term { IsTermIn history.now work.old t }
    requires left { IsTermIn history.now work.old unbound.left }
    requires hypothesis { IsTermIn history.now work.old unbound.hypothesis }
    requires assumption { IsTermIn history.now work.old a }
    ensures fact { IfOk result (λ found. IfSome found (IsFact history.now work.new)) }
    ensures grows { WorkGrows history.now work.old work.new }
    ensures out { result ≡ Err Stop.OutOfSteps → work.new.counter.used ≡ work.new.counter.limit }
{
    let pattern = equate(work, history, unbound.left, unbound.hypothesis)?;
    let target = equate(work, history, t, a)?;
    match event_fact(work, history, name)? {
        Some(fact) => matched_fact(work, history, fact, pattern, target),
        None => Ok(None),
    }
}

/// The instance of a rule by the first assumption that binds what is not bound.
fn bound_instance(
    work: &mut Work,
    history: &History,
    assumed: &[TermId],
    name: Sym,
    t: TermId,
    unbound: Unbound,
) -> Result<Option<Fact>, Stop>
    requires can { CanRewrite history.now work.old assumed.now t }
    requires name { IsNamed work.old.bank name }
    requires left { IsTermIn history.now work.old unbound.left }
    requires hypothesis { IsTermIn history.now work.old unbound.hypothesis }
    ensures fact { IfOk result (λ found. IfSome found (IsFact history.now work.new)) }
    ensures grows { WorkGrows history.now work.old work.new }
    ensures out { result ≡ Err Stop.OutOfSteps → work.new.counter.used ≡ work.new.counter.limit }
{
    for at in 0..assumed.len() {
        if takes(&work.bank, unbound.hypothesis, assumed[at])? {
            let found = instance_by(work, history, name, t, unbound, assumed[at])?;
            if found.is_some() {
                return Ok(found);
            }
        }
    }
    Ok(None)
}

/// The left side that takes a term to itself, of the parts of a rule's conclusion. A part that is an implication has a conclusion of
/// its own.
fn left_for(work: &Work, history: &History, rule: TermId, t: TermId) -> Result<Option<TermId>, Stop>
    requires stands { WorkStands history.now work.now }
    requires rule { IsTermIn history.now work.now rule }
    requires term { IsTermIn history.now work.now t }
    ensures left { IfOk result (λ found. IfSome found (IsTermIn history.now work.now)) }
    ensures memory { result ≡ Err Stop.OutOfSteps → ⊥ }
{
    if let Some(sides) = two_in(work, history, ground::IMPLIES, rule) {
        return left_for(work, history, sides.right, t);
    }
    match two_in(work, history, ground::AND, rule) {
        Some(sides) => match left_for(work, history, sides.left, t)? {
            Some(left) => Ok(Some(left)),
            None => left_for(work, history, sides.right, t),
        },
        None => left_of_part(work, history, rule, t),
    }
}

/// The left side of one part, where it is a call that takes a term to itself.
fn left_of_part(
    work: &Work,
    history: &History,
    part: TermId,
    t: TermId,
) -> Result<Option<TermId>, Stop>
    requires stands { WorkStands history.now work.now }
    requires part { IsTermIn history.now work.now part }
    requires term { IsTermIn history.now work.now t }
    ensures left { IfOk result (λ found. IfSome found (IsTermIn history.now work.now)) }
    ensures memory { result ≡ Err Stop.OutOfSteps → ⊥ }
{
    let left = left_side(&work.bank, part);
    if is_call(&work.bank, left) && takes(&work.bank, left, t)? {
        Ok(Some(left))
    } else {
        Ok(None)
    }
}

/// The instance of a rule that takes a left side of it to a term.
fn bound_whole(
    work: &mut Work,
    history: &History,
    name: Sym,
    rule: TermId,
    t: TermId,
) -> Result<Option<Fact>, Stop>
    requires stands { WorkStands history.now work.old }
    requires ready { HasOwnTerms (events_at work.old.bank history.now) }
    requires name { IsNamed work.old.bank name }
    requires rule { IsTermIn history.now work.old rule }
    requires term { IsTermIn history.now work.old t }
    ensures fact { IfOk result (λ found. IfSome found (IsFact history.now work.new)) }
    ensures grows { WorkGrows history.now work.old work.new }
    ensures out { result ≡ Err Stop.OutOfSteps → work.new.counter.used ≡ work.new.counter.limit }
{
    match left_for(work, history, rule, t)? {
        Some(left) => left_instance(work, history, name, left, t),
        None => Ok(None),
    }
}

/// The same, where the left side is known.
fn left_instance(
    work: &mut Work,
    history: &History,
    name: Sym,
    left: TermId,
    t: TermId,
) -> Result<Option<Fact>, Stop>
    requires stands { WorkStands history.now work.old }
    requires ready { HasOwnTerms (events_at work.old.bank history.now) }
    requires name { IsNamed work.old.bank name }
    requires left { IsTermIn history.now work.old left }
    requires term { IsTermIn history.now work.old t }
    ensures fact { IfOk result (λ found. IfSome found (IsFact history.now work.new)) }
    ensures grows { WorkGrows history.now work.old work.new }
    ensures out { result ≡ Err Stop.OutOfSteps → work.new.counter.used ≡ work.new.counter.limit }
{
    match event_fact(work, history, name)? {
        Some(fact) => matched_fact(work, history, fact, left, t),
        None => Ok(None),
    }
}

/// The instance of an axiom or lemma whose term is known.
fn instance_of(
    work: &mut Work,
    history: &History,
    assumed: &[TermId],
    name: Sym,
    rule: TermId,
    t: TermId,
) -> Result<Option<Fact>, Stop>
    requires can { CanRewrite history.now work.old assumed.now t }
    requires name { IsNamed work.old.bank name }
    requires rule { IsTermIn history.now work.old rule }
    ensures fact { IfOk result (λ found. IfSome found (IsFact history.now work.new)) }
    ensures grows { WorkGrows history.now work.old work.new }
    ensures out { result ≡ Err Stop.OutOfSteps → work.new.counter.used ≡ work.new.counter.limit }
{
    match unbound_in(work, history, rule) {
        Some(unbound) => bound_instance(work, history, assumed, name, t, unbound),
        None => bound_whole(work, history, name, rule, t),
    }
}

/// The same, where the term of the axiom or lemma is looked up.
fn instance_at_hand(
    work: &mut Work,
    history: &History,
    assumed: &[TermId],
    name: Sym,
    t: TermId,
) -> Result<Option<Fact>, Stop>
    requires can { CanRewrite history.now work.old assumed.now t }
    requires name { IsNamed work.old.bank name }
    ensures fact { IfOk result (λ found. IfSome found (IsFact history.now work.new)) }
    ensures grows { WorkGrows history.now work.old work.new }
    ensures out { result ≡ Err Stop.OutOfSteps → work.new.counter.used ≡ work.new.counter.limit }
{
    match history.term_of(&work.bank, name) {
        Some(rule) => instance_of(work, history, assumed, name, rule, t),
        None => Ok(None),
    }
}

/// The instance of an axiom or lemma that has a part with this term as its left side, where what that does not bind is bound by an
/// assumption.
pub fn rule_at_hand(
    work: &mut Work,
    history: &History,
    assumed: &[TermId],
    name: Sym,
    t: TermId,
) -> Result<Option<Fact>, Stop>
    requires can { CanRewrite history.now work.old assumed.now t }
    requires name { IsNamed work.old.bank name }
    ensures held { IfOk result (λ found. IfSome found (IsHeld history.now work.new (terms_at work.old.bank assumed.now))) }
    ensures grows { WorkGrows history.now work.old work.new }
    ensures out { result ≡ Err Stop.OutOfSteps → work.new.counter.used ≡ work.new.counter.limit }
{
    instance_at_hand(work, history, assumed, name, t)
}
