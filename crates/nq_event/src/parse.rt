//! The event of a form.
ghost use Rattle.std.specs.Prelude.{◌≡◌, IfErr, IfOk, Ok};
ghost use Rattle.nq_bank.specs.Content.{Grows};
ghost use Rattle.nq_history.specs.Events.{events_at, HistoryStands};
ghost use Rattle.nq_sexp.specs.Tree.{tree};
ghost use Rattle.nq_events.specs.Reading.{event_after, reading, refusal_after};
ghost use Rattle.nq_event.specs.EventsAt.{event_at, EventStands};
ghost use Rattle.nq_event.specs.Outlines.{outline_at};
ghost use Rattle.nq_event.specs.Readings.{IsReadAs, IsToldOf};
ghost use Rattle.nq_event.specs.Parsed.{IsEventOf, IsFaultOf};

use crate::event::Event;
use crate::fault::{EventFault, refused};
use crate::name_events::{declared_event, shell_event, switch_event, toggle_event, undo_event};
use crate::outline::{Outline, outline_of};
use crate::term_events::{axiom_event, defined_event, lemma_event};
use nq_bank::Bank;
use nq_history::History;
use nq_sexp::Sexp;

/// The event of an outline; or the first refusal of its terms and hints.
fn event_by(bank: &mut Bank, history: &History, outline: &Outline<'_>) -> Result<Event, EventFault>
    requires { HistoryStands bank.old history.now }
    ensures read { IfOk result (IsReadAs (EventStands bank.new) (event_at bank.new) (refusal_after (events_at bank.old history.now) (Ok (outline_at outline.now))) (event_after (events_at bank.old history.now) (Ok (outline_at outline.now)))) }
    ensures refused { IfErr result (IsToldOf (refusal_after (events_at bank.old history.now) (Ok (outline_at outline.now)))) }
    ensures grows { Grows bank.old bank.new }
{
    match outline {
        Outline::BootStrap => Ok(Event::BootStrap),
        Outline::AddShell(shell) => Ok(shell_event(bank, shell)?),
        Outline::Dcl(name, formals) => Ok(declared_event(bank, name, formals)?),
        Outline::Defn(name, formals, body, measures) => {
            defined_event(bank, history, name, formals, body, measures)
        }
        Outline::AddAxiom(name, types, term) => axiom_event(bank, history, name, types, term),
        Outline::ProveLemma(name, types, term, hints) => {
            lemma_event(bank, history, name, types, term, hints)
        }
        Outline::Toggle(name, old, disabled) => Ok(toggle_event(bank, name, old, *disabled)?),
        Outline::Switch(old, disabled) => Ok(switch_event(bank, history, old, *disabled)?),
        Outline::Undo(name) => Ok(undo_event(bank, name)?),
        Outline::Skipped => Ok(Event::Skipped),
    }
}

/// What an event form asks for, its names and terms in the bank; or the first refusal of the form: 20, 12, 21, 10 to 15,
/// 22. After an error the bank may have grown.
pub fn parse_event<'a>(
    bank: &mut Bank,
    history: &History,
    form: &Sexp<'a>,
) -> Result<Event, EventFault>
    requires { HistoryStands bank.old history.now }
    ensures event { IfOk result (IsEventOf bank.new (reading (events_at bank.old history.now) (tree form.now))) }
    ensures refused { IfErr result (IsFaultOf (reading (events_at bank.old history.now) (tree form.now))) }
    ensures grows { Grows bank.old bank.new }
{
    match outline_of(form) {
        Ok(outline) => event_by(bank, history, &outline),
        Err(refusal) => Err(refused(bank.alloc(), refusal)),
    }
}
