//! The instances of USE, with their terms.
ghost use Rattle.std.specs.Prelude.{◌≡◌, All, IfOk, IfErr, map};
ghost use Rattle.nq_bank.specs.Content.{Grows};
ghost use Rattle.nq_sexp.specs.Tree.{tree};
ghost use Rattle.nq_history.specs.Events.{events_at, HistoryStands};
ghost use Rattle.nq_events.specs.WrittenHints.{pair_in};
ghost use Rattle.nq_events.specs.TermRefusals.{arity_of, instances_forms, pair_forms, term_refusal, terms_refusal};
ghost use Rattle.nq_events.specs.HintTerms.{instance_given, pair_given};
ghost use Rattle.nq_clause.specs.Substitution.{PairStands};
ghost use Rattle.nq_history.specs.Hints.{InstanceStands};
ghost use Rattle.nq_event.specs.EventsAt.{instance_at as instance_of, pair_at as pair_of};
ghost use Rattle.nq_event.specs.Hints.{instance_at, instances_at, pair_at, pairs_at, no_pair};
ghost use Rattle.nq_event.specs.Reads.{value_or};
ghost use Rattle.nq_event.specs.Readings.{IsReadAs, IsToldOf};

use crate::fault::EventFault;
use crate::instances::{InstanceOutline, PairOutline, instance_or_none, pair_of};
use crate::terms::term_in;
use nq_bank::Bank;
use nq_clause::Pair;
use nq_history::{History, Instance};
use nq_sexp::Sexp;

/// A pair with its term.
fn pair_with(
    bank: &mut Bank,
    history: &History,
    outline: &PairOutline<'_>,
) -> Result<Pair, EventFault>
    requires { HistoryStands bank.old history.now }
    ensures read { IfOk result (IsReadAs (PairStands bank.new) (pair_of bank.new) (term_refusal (arity_of (events_at bank.old history.now)) (pair_at outline.now).form) (pair_given (events_at bank.old history.now) (pair_at outline.now))) }
    ensures refused { IfErr result (IsToldOf (term_refusal (arity_of (events_at bank.old history.now)) (pair_at outline.now).form)) }
    ensures grows { Grows bank.old bank.new }
{
    let term = term_in(bank, history, outline.form)?;
    let variable = bank.name(outline.variable)?;
    Ok(Pair { variable, term })
}

/// The pair of a form. Any other form is one of the empty names.
#[tactic(auto, using(nq_sexp::proofs::Trees::tree_rules))]
fn pair_or_none(bank: &mut Bank, history: &History, form: &Sexp<'_>) -> Result<Pair, EventFault>
    requires { HistoryStands bank.old history.now }
    ensures read { IfOk result (IsReadAs (PairStands bank.new) (pair_of bank.new) (term_refusal (arity_of (events_at bank.old history.now)) (value_or no_pair (pair_in (tree form.now))).form) (pair_given (events_at bank.old history.now) (value_or no_pair (pair_in (tree form.now))))) }
    ensures refused { IfErr result (IsToldOf (term_refusal (arity_of (events_at bank.old history.now)) (value_or no_pair (pair_in (tree form.now))).form)) }
    ensures grows { Grows bank.old bank.new }
{
    match pair_of(form) {
        Some(outline) => pair_with(bank, history, &outline),
        None => {
            let empty = Sexp::Symbol(b"");
            let outline = PairOutline {
                variable: b"",
                form: &empty,
            };
            pair_with(bank, history, &outline)
        }
    }
}

/// The pairs of forms, in their order; or the first refusal of the term of one.
fn pairs_in(bank: &mut Bank, history: &History, forms: &[Sexp<'_>]) -> Result<Vec<Pair>, EventFault>
    requires { HistoryStands bank.old history.now }
    ensures read { IfOk result (IsReadAs (λ pairs. All (PairStands bank.new) pairs.items) (λ pairs. map (pair_of bank.new) pairs.items) (terms_refusal (arity_of (events_at bank.old history.now)) (pair_forms (pairs_at forms.now))) (map (pair_given (events_at bank.old history.now)) (pairs_at forms.now))) }
    ensures refused { IfErr result (IsToldOf (terms_refusal (arity_of (events_at bank.old history.now)) (pair_forms (pairs_at forms.now)))) }
    ensures grows { Grows bank.old bank.new }
{
    let mut pairs = Vec::new(bank.alloc());
    for form in forms {
        let pair = pair_or_none(bank, history, form)?;
        pairs.push(pair)?;
    }
    Ok(pairs)
}

/// An instance with its terms.
fn instance_with(
    bank: &mut Bank,
    history: &History,
    outline: &InstanceOutline<'_>,
) -> Result<Instance, EventFault>
    requires { HistoryStands bank.old history.now }
    ensures read { IfOk result (IsReadAs (InstanceStands bank.new) (instance_of bank.new) (terms_refusal (arity_of (events_at bank.old history.now)) (pair_forms (instance_at outline.now).pairs)) (instance_given (events_at bank.old history.now) (instance_at outline.now))) }
    ensures refused { IfErr result (IsToldOf (terms_refusal (arity_of (events_at bank.old history.now)) (pair_forms (instance_at outline.now).pairs))) }
    ensures grows { Grows bank.old bank.new }
{
    let pairs = pairs_in(bank, history, outline.pairs)?;
    let name = bank.name(outline.name)?;
    Ok(Instance { name, pairs })
}

/// The instances of forms, in their order; or the first refusal of one of their terms.
pub fn instances_in(
    bank: &mut Bank,
    history: &History,
    forms: &[Sexp<'_>],
) -> Result<Vec<Instance>, EventFault>
    requires { HistoryStands bank.old history.now }
    ensures read { IfOk result (IsReadAs (λ instances. All (InstanceStands bank.new) instances.items) (λ instances. map (instance_of bank.new) instances.items) (terms_refusal (arity_of (events_at bank.old history.now)) (instances_forms (instances_at forms.now))) (map (instance_given (events_at bank.old history.now)) (instances_at forms.now))) }
    ensures refused { IfErr result (IsToldOf (terms_refusal (arity_of (events_at bank.old history.now)) (instances_forms (instances_at forms.now)))) }
    ensures grows { Grows bank.old bank.new }
{
    let mut instances = Vec::new(bank.alloc());
    for form in forms {
        let outline = instance_or_none(form);
        let instance = instance_with(bank, history, &outline)?;
        instances.push(instance)?;
    }
    Ok(instances)
}
