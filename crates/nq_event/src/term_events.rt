//! The events with terms: definitions, axioms and lemmas.
ghost use Rattle.std.specs.Prelude.{◌≡◌, IfErr, IfOk, Ok, Some, codes};
ghost use Rattle.nq_bank.specs.Content.{Grows};
ghost use Rattle.nq_history.specs.Events.{events_at, HistoryStands};
ghost use Rattle.nq_sexp.specs.Tree.{tree};
ghost use Rattle.nq_events.specs.Refusals.{out_of_scope};
ghost use Rattle.nq_events.specs.Outlines as outlines;
ghost use Rattle.nq_events.specs.Reading.{event_after, refusal_after};
ghost use Rattle.nq_event.specs.EventsAt.{event_at, EventStands};
ghost use Rattle.nq_event.specs.Hints.{hints_at};
ghost use Rattle.nq_event.specs.Readings.{IsReadAs, IsToldOf};
ghost use Rattle.nq_event.specs.Shapes.{measures_at, names_at, types_at};

use crate::arities::{Functions, NewFunction};
use crate::classes::{classes_of, have_meta};
use crate::event::Event;
use crate::fault::{EventFault, refused};
use crate::measures::measures_by;
use crate::names::names_of;
use crate::read_hints::hints_in;
use crate::refusal::Refusal;
use crate::terms::{term_by, term_in};
use nq_bank::Bank;
use nq_history::History;
use nq_sexp::Sexp;

/// The event of DEFN. In its terms the function has the arity of its formals.
pub fn defined_event(
    bank: &mut Bank,
    history: &History,
    name: &[u8],
    formals: &[Sexp<'_>],
    body: &Sexp<'_>,
    measures: &[Sexp<'_>],
) -> Result<Event, EventFault>
    requires { HistoryStands bank.old history.now }
    ensures read { IfOk result (IsReadAs (EventStands bank.new) (event_at bank.new) (refusal_after (events_at bank.old history.now) (Ok (outlines.Defn name.now (names_at formals.now) (tree body.now) (measures_at measures.now)))) (event_after (events_at bank.old history.now) (Ok (outlines.Defn name.now (names_at formals.now) (tree body.now) (measures_at measures.now))))) }
    ensures refused { IfErr result (IsToldOf (refusal_after (events_at bank.old history.now) (Ok (outlines.Defn name.now (names_at formals.now) (tree body.now) (measures_at measures.now))))) }
    ensures grows { Grows bank.old bank.new }
{
    let name = bank.name(name)?;
    let formals = names_of(bank, formals)?;
    let functions = Functions {
        history,
        defined: Some(NewFunction {
            name,
            arity: formals.len() as u64,
        }),
    };
    let body = term_by(bank, &functions, body)?;
    let measures = measures_by(bank, &functions, measures)?;
    Ok(Event::Defn(name, formals, body, measures))
}

/// The event of ADD-AXIOM.
pub fn axiom_event(
    bank: &mut Bank,
    history: &History,
    name: &[u8],
    types: &[Sexp<'_>],
    term: &Sexp<'_>,
) -> Result<Event, EventFault>
    requires { HistoryStands bank.old history.now }
    ensures read { IfOk result (IsReadAs (EventStands bank.new) (event_at bank.new) (refusal_after (events_at bank.old history.now) (Ok (outlines.AddAxiom name.now (types_at types.now) (tree term.now)))) (event_after (events_at bank.old history.now) (Ok (outlines.AddAxiom name.now (types_at types.now) (tree term.now))))) }
    ensures refused { IfErr result (IsToldOf (refusal_after (events_at bank.old history.now) (Ok (outlines.AddAxiom name.now (types_at types.now) (tree term.now))))) }
    ensures grows { Grows bank.old bank.new }
{
    if have_meta(types) {
        return Err(refused(bank.alloc(), Refusal::OutOfScope(b"META")));
    }
    let classes = classes_of(bank.alloc(), types)?;
    let term = term_in(bank, history, term)?;
    let name = bank.name(name)?;
    Ok(Event::AddAxiom(name, classes, term))
}

/// The event of PROVE-LEMMA.
pub fn lemma_event(
    bank: &mut Bank,
    history: &History,
    name: &[u8],
    types: &[Sexp<'_>],
    term: &Sexp<'_>,
    hints: &[Sexp<'_>],
) -> Result<Event, EventFault>
    requires { HistoryStands bank.old history.now }
    ensures read { IfOk result (IsReadAs (EventStands bank.new) (event_at bank.new) (refusal_after (events_at bank.old history.now) (Ok (outlines.ProveLemma name.now (types_at types.now) (tree term.now) (hints_at hints.now)))) (event_after (events_at bank.old history.now) (Ok (outlines.ProveLemma name.now (types_at types.now) (tree term.now) (hints_at hints.now))))) }
    ensures refused { IfErr result (IsToldOf (refusal_after (events_at bank.old history.now) (Ok (outlines.ProveLemma name.now (types_at types.now) (tree term.now) (hints_at hints.now))))) }
    ensures grows { Grows bank.old bank.new }
{
    if have_meta(types) {
        return Err(refused(bank.alloc(), Refusal::OutOfScope(b"META")));
    }
    let classes = classes_of(bank.alloc(), types)?;
    let term = term_in(bank, history, term)?;
    let hints = hints_in(bank, history, hints)?;
    let name = bank.name(name)?;
    Ok(Event::ProveLemma(name, classes, term, hints))
}
