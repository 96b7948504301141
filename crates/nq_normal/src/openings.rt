//! Calls that simplification opens.
ghost use Rattle.std.specs.Prelude.{◌≡◌, ◌&&◌, ◌||◌, not, bytes_eq, codes, Some, All, is_some, Bool};
ghost use Rattle.nq_logic.specs.Names.{has_name};
ghost use Rattle.nq_bank.specs.Content.{IsNamed, text_at};
ghost use Rattle.nq_bank.specs.Shells.{texts_at};
ghost use Rattle.nq_history.specs.Events.{events_at, HistoryStands};
ghost use Rattle.nq_history.specs.Hints.{HintsStand};
ghost use Rattle.nq_events.specs.Inductions.{definition_if};
ghost use Rattle.nq_goals.specs.Hints.{is_enabled_for};
ghost use Rattle.nq_goals.specs.Functions.{is_plain_opening};
ghost use Rattle.nq_normal.specs.Definitions.{hints_at};

use crate::definitions::definition_of;
use nq_bank::{Bank, Sym, ground, is_same_name};
use nq_history::{Hints, History};

/// Is the name one of these?
fn is_among(bank: &Bank, name: Sym, names: &[Sym]) -> bool
    requires name { IsNamed bank.now name }
    requires names { All (IsNamed bank.now) names.now }
    ensures { result ≡ has_name (text_at bank.now name) (texts_at bank.now names.now) }
{
    match names {
        [] => false,
        [first, rest @ ..] => {
            if is_same_name(bank, name, *first) {
                true
            } else {
                is_among(bank, name, rest)
            }
        }
    }
}

/// Is a name enabled for an event with these hints? It takes no memory.
pub fn is_enabled_for(bank: &Bank, history: &History, hints: &Hints, name: Sym) -> bool
    requires history { HistoryStands bank.now history.now }
    requires hints { HintsStand bank.now hints.now }
    requires name { IsNamed bank.now name }
    ensures { result ≡ is_enabled_for (events_at bank.now history.now) (hints_at bank.now hints.now) (text_at bank.now name) }
{
    bank.is_sound();
    let disabled = is_among(bank, name, hints.disable.as_slice());
    let enabled = is_among(bank, name, hints.enable.as_slice());
    let before = history.enabled(name);
    !disabled && (enabled || before)
}

/// Is a function, recursive or not, opened under these hints where it is defined?
fn is_plain(bank: &Bank, history: &History, hints: &Hints, recursive: bool, f: Sym) -> bool
    requires history { HistoryStands bank.now history.now }
    requires hints { HintsStand bank.now hints.now }
    requires name { IsNamed bank.now f }
    ensures { result ≡ (not recursive && not (bytes_eq (text_at bank.now f) (codes "NOT")) && is_enabled_for (events_at bank.now history.now) (hints_at bank.now hints.now) (text_at bank.now f) && not (has_name (text_at bank.now f) (texts_at bank.now hints.now.hands_off.items))) }
{
    let denial = bank.is_ground(f, ground::NOT);
    let enabled = is_enabled_for(bank, history, hints, f);
    let left_alone = is_among(bank, f, hints.hands_off.as_slice());
    !recursive && !denial && enabled && !left_alone
}

/// Is a call of this function opened under these hints?
pub fn is_opened(bank: &Bank, history: &History, hints: &Hints, f: Sym) -> bool
    requires history { HistoryStands bank.now history.now }
    requires hints { HintsStand bank.now hints.now }
    requires name { IsNamed bank.now f }
    ensures { result ≡ is_plain_opening (events_at bank.now history.now) (hints_at bank.now hints.now) (definition_if (events_at bank.now history.now) (Some (text_at bank.now f))) }
{
    match definition_of(bank, history, f) {
        Some(d) => is_plain(bank, history, hints, d.measure.is_some(), d.name),
        None => false,
    }
}
