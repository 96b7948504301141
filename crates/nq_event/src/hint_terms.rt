//! Hints with their terms, and whether they are good.
ghost use Rattle.std.specs.Prelude.{◌≡◌, IfOk, IfErr, OnOk, Some};
ghost use Rattle.nq_bank.specs.Content.{Grows};
ghost use Rattle.nq_history.specs.Events.{events_at, HistoryStands};
ghost use Rattle.nq_events.specs.WrittenHints.{Use, Enable, Disable, Expand, Induct, HandsOff};
ghost use Rattle.nq_events.specs.TermRefusals.{arity_of, hint_forms, terms_refusal};
ghost use Rattle.nq_sexp.specs.Tree.{tree};
ghost use Rattle.nq_history.specs.Hints.{HintsStand};
ghost use Rattle.nq_event.specs.Hints.{instances_at, kind_if, kind_at};
ghost use Rattle.nq_event.specs.HintSums.{id_or, IsAdded};
ghost use Rattle.nq_event.specs.Reads.{forms_of};
ghost use Rattle.nq_event.specs.Readings.{IsToldOf};
ghost use Rattle.nq_event.specs.Shapes.{names_at};

use crate::fault::EventFault;
use crate::hints::HintKind;
use crate::inductions::{are_opened, suggests_induction};
use crate::instance_terms::instances_in;
use crate::named::{are_events, are_functions};
use crate::names::names_of;
use crate::terms::{term_in, terms_in};
use crate::usable::are_usable;
use nq_bank::{Bank, TermId};
use nq_history::{Hints, History};
use nq_sexp::Sexp;

/// Adds the instances of USE.
fn add_used(
    bank: &mut Bank,
    history: &History,
    forms: &[Sexp<'_>],
    hints: &mut Hints,
) -> Result<bool, EventFault>
    requires history { HistoryStands bank.old history.now }
    requires hints { HintsStand bank.old hints.old }
    ensures added { IfOk result (λ good. IsAdded (events_at bank.old history.now) bank.old bank.new (Some (Use (instances_at forms.now))) hints.old hints.new good) }
    ensures refused { IfErr result (IsToldOf (terms_refusal (arity_of (events_at bank.old history.now)) (hint_forms (Some (Use (instances_at forms.now)))))) }
    ensures grows { Grows bank.old bank.new }
{
    let mut instances = instances_in(bank, history, forms)?;
    hints.instances.append(&mut instances)?;
    Ok(are_usable(bank, history, forms))
}

/// Adds the names of ENABLE.
fn add_enabled(
    bank: &mut Bank,
    history: &History,
    forms: &[Sexp<'_>],
    hints: &mut Hints,
) -> Result<bool, EventFault>
    requires history { HistoryStands bank.old history.now }
    requires hints { HintsStand bank.old hints.old }
    ensures added { IfOk result (λ good. IsAdded (events_at bank.old history.now) bank.old bank.new (Some (Enable (names_at forms.now))) hints.old hints.new good) }
    ensures refused { IfErr result (IsToldOf (terms_refusal (arity_of (events_at bank.old history.now)) (hint_forms (Some (Enable (names_at forms.now)))))) }
    ensures grows { Grows bank.old bank.new }
{
    let names = names_of(bank, forms)?;
    hints.enable.extend_from_slice(names.as_slice())?;
    Ok(are_events(bank, history, forms))
}

/// Adds the names of DISABLE.
fn add_disabled(
    bank: &mut Bank,
    history: &History,
    forms: &[Sexp<'_>],
    hints: &mut Hints,
) -> Result<bool, EventFault>
    requires history { HistoryStands bank.old history.now }
    requires hints { HintsStand bank.old hints.old }
    ensures added { IfOk result (λ good. IsAdded (events_at bank.old history.now) bank.old bank.new (Some (Disable (names_at forms.now))) hints.old hints.new good) }
    ensures refused { IfErr result (IsToldOf (terms_refusal (arity_of (events_at bank.old history.now)) (hint_forms (Some (Disable (names_at forms.now)))))) }
    ensures grows { Grows bank.old bank.new }
{
    let names = names_of(bank, forms)?;
    hints.disable.extend_from_slice(names.as_slice())?;
    Ok(are_events(bank, history, forms))
}

/// Adds the functions of HANDS-OFF.
fn add_hands_off(
    bank: &mut Bank,
    history: &History,
    forms: &[Sexp<'_>],
    hints: &mut Hints,
) -> Result<bool, EventFault>
    requires history { HistoryStands bank.old history.now }
    requires hints { HintsStand bank.old hints.old }
    ensures added { IfOk result (λ good. IsAdded (events_at bank.old history.now) bank.old bank.new (Some (HandsOff (names_at forms.now))) hints.old hints.new good) }
    ensures refused { IfErr result (IsToldOf (terms_refusal (arity_of (events_at bank.old history.now)) (hint_forms (Some (HandsOff (names_at forms.now)))))) }
    ensures grows { Grows bank.old bank.new }
{
    let names = names_of(bank, forms)?;
    hints.hands_off.extend_from_slice(names.as_slice())?;
    Ok(are_functions(bank, history, forms))
}

/// Adds the calls of EXPAND.
fn add_expanded(
    bank: &mut Bank,
    history: &History,
    forms: &[Sexp<'_>],
    hints: &mut Hints,
) -> Result<bool, EventFault>
    requires history { HistoryStands bank.old history.now }
    requires hints { HintsStand bank.old hints.old }
    ensures added { IfOk result (λ good. IsAdded (events_at bank.old history.now) bank.old bank.new (Some (Expand (forms_of forms.now))) hints.old hints.new good) }
    ensures refused { IfErr result (IsToldOf (terms_refusal (arity_of (events_at bank.old history.now)) (hint_forms (Some (Expand (forms_of forms.now)))))) }
    ensures grows { Grows bank.old bank.new }
{
    let terms = terms_in(bank, history, forms)?;
    hints.expand.extend_from_slice(terms.as_slice())?;
    Ok(are_opened(bank, history, terms.as_slice()))
}

/// The earlier of two terms.
fn first_of(earlier: Option<TermId>, t: TermId) -> Option<TermId>
    ensures { result ≡ id_or earlier t }
{
    match earlier {
        Some(first) => Some(first),
        None => Some(t),
    }
}

/// Adds the term of INDUCT. An earlier one stays the first.
fn add_inducted(
    bank: &mut Bank,
    history: &History,
    form: &Sexp<'_>,
    hints: &mut Hints,
) -> Result<bool, EventFault>
    requires history { HistoryStands bank.old history.now }
    requires hints { HintsStand bank.old hints.old }
    ensures added { IfOk result (λ good. IsAdded (events_at bank.old history.now) bank.old bank.new (Some (Induct (tree form.now))) hints.old hints.new good) }
    ensures refused { IfErr result (IsToldOf (terms_refusal (arity_of (events_at bank.old history.now)) (hint_forms (Some (Induct (tree form.now)))))) }
    ensures grows { Grows bank.old bank.new }
{
    let t = term_in(bank, history, form)?;
    hints.induct = first_of(hints.induct, t);
    Ok(suggests_induction(bank, history, t)?)
}

/// Adds what a hint of the right shape says. The answer is whether it is good.
fn add_kind(
    bank: &mut Bank,
    history: &History,
    kind: HintKind<'_>,
    hints: &mut Hints,
) -> Result<bool, EventFault>
    requires history { HistoryStands bank.old history.now }
    requires hints { HintsStand bank.old hints.old }
    ensures added { IfOk result (λ good. IsAdded (events_at bank.old history.now) bank.old bank.new (Some (kind_at kind.entry)) hints.old hints.new good) }
    ensures refused { IfErr result (IsToldOf (terms_refusal (arity_of (events_at bank.old history.now)) (hint_forms (Some (kind_at kind.entry))))) }
    ensures grows { Grows bank.old bank.new }
{
    match kind {
        HintKind::Use(forms) => add_used(bank, history, forms, hints),
        HintKind::Enable(forms) => add_enabled(bank, history, forms, hints),
        HintKind::Disable(forms) => add_disabled(bank, history, forms, hints),
        HintKind::Expand(forms) => add_expanded(bank, history, forms, hints),
        HintKind::Induct(form) => add_inducted(bank, history, form, hints),
        HintKind::HandsOff(forms) => add_hands_off(bank, history, forms, hints),
        HintKind::DoNotInduct => {
            hints.no_induct = true;
            Ok(true)
        }
        HintKind::DoNotGeneralize => {
            hints.no_generalize = true;
            Ok(true)
        }
        HintKind::NoArithmetic => {
            hints.no_arith = true;
            Ok(true)
        }
        HintKind::Time => Ok(true),
    }
}

/// Adds what a hint says. The answer is whether it is good; one without a kind isn't.
pub fn add_hint(
    bank: &mut Bank,
    history: &History,
    kind: Option<HintKind<'_>>,
    hints: &mut Hints,
) -> Result<bool, EventFault>
    requires history { HistoryStands bank.old history.now }
    requires hints { HintsStand bank.old hints.old }
    ensures added { IfOk result (λ good. IsAdded (events_at bank.old history.now) bank.old bank.new (kind_if kind.entry) hints.old hints.new good) }
    ensures refused { IfErr result (IsToldOf (terms_refusal (arity_of (events_at bank.old history.now)) (hint_forms (kind_if kind.entry)))) }
    ensures grows { Grows bank.old bank.new }
{
    match kind {
        Some(kind) => add_kind(bank, history, kind, hints),
        None => Ok(false),
    }
}
