//! The terms of an event, over the functions that it may call.
ghost use Rattle.std.specs.Prelude.{◌≡◌, All, IfOk, IfErr, Result, map};
ghost use Rattle.nq_logic.specs.Terms.{Term};
ghost use Rattle.nq_language.specs.Refusals as language;
ghost use Rattle.nq_language.specs.Translation.{translated};
ghost use Rattle.nq_bank.specs.Content.{Grows, Stands, term_at, terms_at};
ghost use Rattle.nq_sexp.specs.Tree.{tree};
ghost use Rattle.nq_abbrev.specs.Met.{refusal_of};
ghost use Rattle.nq_abbrev.specs.Meant.{IsRefusalOf};
ghost use Rattle.nq_history.specs.Events.{events_at, HistoryStands};
ghost use Rattle.nq_events.specs.Refusals.{OfLanguage};
ghost use Rattle.nq_events.specs.TermRefusals.{arity_of, language_refusal, term_refusal, terms_refusal};
ghost use Rattle.nq_events.specs.HintTerms.{term_in};
ghost use Rattle.nq_event.specs.Arities.{arities_at, FunctionsStand};
ghost use Rattle.nq_event.specs.Faults.{IsTold};
ghost use Rattle.nq_event.specs.Reads.{forms_of};
ghost use Rattle.nq_event.specs.Readings.{IsReadAs, IsToldOf};

use crate::arities::Functions;
use crate::fault::EventFault;
use nq_abbrev::{Refusal, TranslateFault, translate};
use nq_bank::{Bank, TermId};
use nq_history::History;
use nq_sexp::Sexp;
use std::alloc::Global;

/// The fault that tells a refusal of a term, or want of memory for its words.
fn term_refused(alloc: Global, refusal: Refusal<'_>) -> EventFault
    ensures { IsTold (OfLanguage (refusal_of refusal.entry)) result }
{
    match refusal.words(alloc) {
        Ok(words) => EventFault::Refused(refusal.code(), words),
        Err(_) => EventFault::Memory,
    }
}

/// The fault that tells that a term is too large.
pub fn too_large(alloc: Global) -> EventFault
    ensures { IsTold (OfLanguage language.TooLarge) result }
{
    term_refused(alloc, Refusal::TooLarge)
}

/// The fault that tells why a form has no term.
fn term_fault(alloc: Global, fault: TranslateFault<'_>) -> EventFault
    ensures { (meant : Result Term language.Refusal) → IsRefusalOf meant fault.entry → IsToldOf (language_refusal meant) result }
{
    match fault {
        TranslateFault::Refused(refusal) => term_refused(alloc, refusal),
        TranslateFault::Memory => EventFault::Memory,
    }
}

/// The term of a form, over these functions; or its first refusal, 10 to 15. After an error the bank may have grown.
pub fn term_by(
    bank: &mut Bank,
    functions: &Functions<'_>,
    form: &Sexp<'_>,
) -> Result<TermId, EventFault>
    requires { FunctionsStand bank.old functions.now }
    ensures read { IfOk result (IsReadAs (Stands bank.new) (term_at bank.new) (term_refusal (arities_at bank.old functions.now) (tree form.now)) (translated (arities_at bank.old functions.now) (tree form.now))) }
    ensures refused { IfErr result (IsToldOf (term_refusal (arities_at bank.old functions.now) (tree form.now))) }
    ensures grows { Grows bank.old bank.new }
{
    bank.is_sound();
    match translate(bank, form, functions) {
        Ok(t) => Ok(t),
        Err(fault) => Err(term_fault(bank.alloc(), fault)),
    }
}

/// The same, over the functions of the history.
pub fn term_in(bank: &mut Bank, history: &History, form: &Sexp<'_>) -> Result<TermId, EventFault>
    requires { HistoryStands bank.old history.now }
    ensures read { IfOk result (IsReadAs (Stands bank.new) (term_at bank.new) (term_refusal (arity_of (events_at bank.old history.now)) (tree form.now)) (term_in (events_at bank.old history.now) (tree form.now))) }
    ensures refused { IfErr result (IsToldOf (term_refusal (arity_of (events_at bank.old history.now)) (tree form.now))) }
    ensures grows { Grows bank.old bank.new }
{
    let functions = Functions {
        history,
        defined: None,
    };
    term_by(bank, &functions, form)
}

/// The terms of forms, in their order; or the first refusal of one.
pub fn terms_in(
    bank: &mut Bank,
    history: &History,
    forms: &[Sexp<'_>],
) -> Result<Vec<TermId>, EventFault>
    requires { HistoryStands bank.old history.now }
    ensures read { IfOk result (IsReadAs (λ ids. All (Stands bank.new) ids.items) (λ ids. terms_at bank.new ids.items) (terms_refusal (arity_of (events_at bank.old history.now)) (forms_of forms.now)) (map (term_in (events_at bank.old history.now)) (forms_of forms.now))) }
    ensures refused { IfErr result (IsToldOf (terms_refusal (arity_of (events_at bank.old history.now)) (forms_of forms.now))) }
    ensures grows { Grows bank.old bank.new }
{
    let mut terms = Vec::new(bank.alloc());
    for form in forms {
        let t = term_in(bank, history, form)?;
        terms.push(t)?;
    }
    Ok(terms)
}
