//! The events of names alone.
ghost use Rattle.std.specs.Prelude.{◌≡◌, IfOk};
ghost use Rattle.nq_bank.specs.Content.{Grows};
ghost use Rattle.nq_history.specs.Events.{events_at, HistoryStands};
ghost use Rattle.nq_events.specs.Events as asked;
ghost use Rattle.nq_events.specs.MadeNames.{made_name};
ghost use Rattle.nq_event.specs.EventsAt.{event_at, EventStands};
ghost use Rattle.nq_event.specs.Shapes.{names_at, shell_at};

use crate::event::Event;
use crate::made_name::made_name;
use crate::names::names_of;
use crate::shell_names::shell_with;
use crate::shells::ShellOutline;
use nq_bank::Bank;
use nq_history::History;
use nq_sexp::Sexp;
use std::alloc::AllocError;

/// The event of ADD-SHELL.
pub fn shell_event(bank: &mut Bank, outline: &ShellOutline<'_>) -> Result<Event, AllocError>
    ensures stands { IfOk result (EventStands bank.new) }
    ensures is { IfOk result (λ event. event_at bank.new event ≡ asked.AddShell (shell_at outline.now)) }
    ensures grows { Grows bank.old bank.new }
{
    let shell = shell_with(bank, outline)?;
    Ok(Event::AddShell(shell))
}

/// The event of DCL.
pub fn declared_event(
    bank: &mut Bank,
    name: &[u8],
    formals: &[Sexp<'_>],
) -> Result<Event, AllocError>
    ensures stands { IfOk result (EventStands bank.new) }
    ensures is { IfOk result (λ event. event_at bank.new event ≡ asked.Dcl name.now (names_at formals.now)) }
    ensures grows { Grows bank.old bank.new }
{
    let name = bank.name(name)?;
    let formals = names_of(bank, formals)?;
    Ok(Event::Dcl(name, formals))
}

/// The event of TOGGLE.
pub fn toggle_event(
    bank: &mut Bank,
    name: &[u8],
    old: &[u8],
    disabled: bool,
) -> Result<Event, AllocError>
    ensures stands { IfOk result (EventStands bank.new) }
    ensures is { IfOk result (λ event. event_at bank.new event ≡ asked.Toggle name.now old.now disabled) }
    ensures grows { Grows bank.old bank.new }
{
    let name = bank.name(name)?;
    let old = bank.name(old)?;
    Ok(Event::Toggle(name, old, disabled))
}

/// The event of DISABLE or ENABLE, under a name that is made up.
pub fn switch_event(
    bank: &mut Bank,
    history: &History,
    old: &[u8],
    disabled: bool,
) -> Result<Event, AllocError>
    requires { HistoryStands bank.old history.now }
    ensures stands { IfOk result (EventStands bank.new) }
    ensures is { IfOk result (λ event. event_at bank.new event ≡ asked.Toggle (made_name (events_at bank.old history.now) disabled old.now) old.now disabled) }
    ensures grows { Grows bank.old bank.new }
{
    let name = made_name(bank, history, disabled, old)?;
    let old = bank.name(old)?;
    Ok(Event::Toggle(name, old, disabled))
}

/// The event of UNDO-BACK-THROUGH.
pub fn undo_event(bank: &mut Bank, name: &[u8]) -> Result<Event, AllocError>
    ensures stands { IfOk result (EventStands bank.new) }
    ensures is { IfOk result (λ event. event_at bank.new event ≡ asked.Undo name.now) }
    ensures grows { Grows bank.old bank.new }
{
    let name = bank.name(name)?;
    Ok(Event::Undo(name))
}
