//! The hints of a lemma.
ghost use Rattle.std.specs.Prelude.{◌≡◌, ◌&&◌, not, All, IfOk, IfErr, None, Some, if◌then◌else◌, map};
ghost use Rattle.nq_bank.specs.Content.{Content, Grows};
ghost use Rattle.nq_sexp.specs.Tree.{tree};
ghost use Rattle.nq_history.specs.Events.{events_at, HistoryStands};
ghost use Rattle.nq_events.specs.Refusals.{BadHint};
ghost use Rattle.nq_events.specs.WrittenHints.{hint_in};
ghost use Rattle.nq_events.specs.TermRefusals.{arity_of, first, hints_forms, terms_refusal};
ghost use Rattle.nq_events.specs.HintTerms.{hints_given};
ghost use Rattle.nq_events.specs.Reading.{given_refusal};
ghost use Rattle.nq_history.specs.Hints.{HintsStand};
ghost use Rattle.nq_event.specs.EventsAt.{hints_at as hints_of};
ghost use Rattle.nq_event.specs.Hints.{hint_at, hints_at, no_hint};
ghost use Rattle.nq_event.specs.HintSums.{bad_hint, no_hints, AreHintsRead};
ghost use Rattle.nq_event.specs.Reads.{value_or};
ghost use Rattle.nq_event.specs.Readings.{IsReadAs, IsToldOf};

use crate::fault::{EventFault, refused};
use crate::hint_terms::add_hint;
use crate::hint_words::stands_twice;
use crate::hints::{HintOutline, hint_of};
use crate::large::have_large;
use crate::refusal::Refusal;
use crate::terms::too_large;
use nq_bank::Bank;
use nq_history::{Hints, History};
use nq_sexp::Sexp;
use std::alloc::Global;

/// Hints, and the word of the first bad one, if there is one.
#[derive(Drop)]
struct ReadHints<'a> {
    hints: Hints,
    bad: Option<&'a [u8]>,
}

/// Hints that say nothing.
pub fn no_hints(alloc: Global) -> Hints
    ensures are { (bank : Content) → hints_of bank result ≡ no_hints }
    ensures stand { (bank : Content) → HintsStand bank result }
{
    Hints {
        instances: Vec::new(alloc),
        enable: Vec::new(alloc),
        disable: Vec::new(alloc),
        expand: Vec::new(alloc),
        induct: None,
        hands_off: Vec::new(alloc),
        no_induct: false,
        no_generalize: false,
        no_arith: false,
    }
}

/// The hint of a form. Any other form is one of the empty word.
fn hint_or_none<'a>(form: &Sexp<'a>) -> HintOutline<'a>
    ensures { hint_at result ≡ value_or no_hint (hint_in (tree form.now)) }
{
    match hint_of(form) {
        Some(hint) => hint,
        None => HintOutline {
            word: b"",
            kind: None,
        },
    }
}

/// The word of the first bad hint, with one hint more, whose word may stand twice.
fn first_bad<'a>(
    bad: Option<&'a [u8]>,
    is_good: bool,
    twice: bool,
    word: &'a [u8],
) -> Option<&'a [u8]>
    ensures { bad_hint result ≡ first (bad_hint bad.entry) (if is_good && not twice then None else Some (BadHint word.now)) }
{
    match bad {
        Some(earlier) => Some(earlier),
        None => if is_good && !twice { None } else { Some(word) },
    }
}

/// The hints of forms, in their order, with the first bad one; or the first refusal of one of their terms.
fn hints_with_bad<'a>(
    bank: &mut Bank,
    history: &History,
    forms: &'a [Sexp<'a>],
) -> Result<ReadHints<'a>, EventFault>
    requires { HistoryStands bank.old history.now }
    ensures read { IfOk result (λ read. AreHintsRead (events_at bank.old history.now) bank.new (hints_at forms.now) read.hints read.bad) }
    ensures refused { IfErr result (IsToldOf (terms_refusal (arity_of (events_at bank.old history.now)) (hints_forms (hints_at forms.now)))) }
    ensures grows { Grows bank.old bank.new }
{
    let mut hints = no_hints(bank.alloc());
    let mut bad = None;
    for form in forms {
        let hint = hint_or_none(form);
        let is_good = add_hint(bank, history, hint.kind, &mut hints)?;
        bad = first_bad(bad, is_good, stands_twice(hint.word, forms), hint.word);
    }
    Ok(ReadHints { hints, bad })
}

/// The hints of a lemma; or the first refusal of one of their terms, or else 22, or else 15 for an instance of USE.
pub fn hints_in<'a>(
    bank: &mut Bank,
    history: &History,
    forms: &'a [Sexp<'a>],
) -> Result<Hints, EventFault>
    requires { HistoryStands bank.old history.now }
    ensures read { IfOk result (IsReadAs (HintsStand bank.new) (hints_of bank.new) (first (terms_refusal (arity_of (events_at bank.old history.now)) (hints_forms (hints_at forms.now))) (given_refusal (events_at bank.old history.now) (hints_at forms.now))) (hints_given (events_at bank.old history.now) (hints_at forms.now))) }
    ensures refused { IfErr result (IsToldOf (first (terms_refusal (arity_of (events_at bank.old history.now)) (hints_forms (hints_at forms.now))) (given_refusal (events_at bank.old history.now) (hints_at forms.now)))) }
    ensures grows { Grows bank.old bank.new }
{
    let read = hints_with_bad(bank, history, forms)?;
    match read.bad {
        Some(word) => Err(refused(bank.alloc(), Refusal::BadHint(word))),
        None => {
            let large = have_large(bank, history, read.hints.instances.as_slice())?;
            if large {
                Err(too_large(bank.alloc()))
            } else {
                Ok(read.hints)
            }
        }
    }
}
