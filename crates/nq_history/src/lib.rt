//! The events of a run, in order, each with the shell, definition, term or toggle that it brought.
//!
//! A history begins with the ground history: TRUE, FALSE, EQUAL, IF and COUNT, four shells and twenty-nine definitions. A
//! contract sees it as the list of its entries, over the ids of a bank. Over a bank, `all_events_at` gives all its events,
//! and `events_at` those past the ground history, which is what the logic calls a history; `HistoryStands` says that its
//! ids stand in the bank and that it begins with the ground history. `History::ground` gives exactly that.
#![tactic(auto)]

// what an event brings
mod entry;

// the ground history, as a table, and as entries
mod ground_entries;
mod ground_table;

// what the hints of a lemma say
mod hints;

// names that are always in use, and names that are enabled
mod lookup;
mod reserved;

// what stands beside the entries: names by their first places, functions, and shells
mod functions;
mod index;
mod names;
mod shell_list;

// the events
mod history;

pub use entry::{Class, Entry, EntryKind};
pub use hints::{Hints, Instance};
pub use history::{EVENT_LIMIT, GROUND_LENGTH, History, PushFault, UndoFault};
pub use reserved::is_reserved;
