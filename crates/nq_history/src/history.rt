//! The history: its entries in order, and what is asked of it.
ghost use Rattle.std.specs.Prelude.{◌≡◌, ◌<◌, ◌≤◌, [], ◌∷◌, ◌++◌, drop, length, take, true, slice_index_or, IfOk, OnErr, OnOk, IfSome, All, None};
ghost use Rattle.std.specs.Option.{option_copied, option_map};
ghost use Rattle.nq_logic.specs.Names.{before_event, is_enabled, is_in_use, looked_up, symbol_names};
ghost use Rattle.nq_bank.specs.Soundness.{IsSound};
ghost use Rattle.nq_bank.specs.Marks.{CanRelease, released};
ghost use Rattle.nq_history.specs.declared.entry.Entry.{Entry};
ghost use Rattle.nq_bank.specs.Content.{Content, Grows, Stands, IsNamed, text_at, term_at};
ghost use Rattle.nq_proof.specs.Rules.{event_term};
ghost use Rattle.nq_history.specs.Events.{all_events_at, event_at, events_at, ground_length, past_ground, EntryStands, HistoryStands, kind_term};
ghost use Rattle.nq_history.specs.Marking.{given_back, AreMarked, IsMarked};
ghost use Rattle.nq_history.specs.Lookups.{enabled_in, entries_before, entry_named, push_fault, undo_answer, undo_fault, IsAnswer, IsUndo};
ghost use Rattle.nq_logic.specs.Ground.{ground_history, symbols_of};
ghost use Rattle.nq_language.specs.Arities.{arity_in};
ghost use Rattle.nq_history.specs.Functions.{arity_among, functions_of};
ghost use Rattle.nq_bank.specs.Shells.{shells_at, texts_at, ShellStands};
ghost use Rattle.nq_logic.specs.Histories.{events_shells};
ghost use Rattle.nq_logic.specs.ShellPrinciple.{shells_of};

use crate::entry::{Entry, EntryKind};
use crate::ground_entries::ground_entries;
use crate::index::{Index, index_of};
use crate::lookup::is_enabled_among;
use crate::reserved::is_reserved;
use nq_bank::{Bank, Shell, Sym, TermId, is_same_name};
use std::alloc::{AllocError, Global};
use std::marker::Model;
use thiserror::Error;

/// How many events the ground history has.
pub const GROUND_LENGTH: usize = 38;

/// The most events past the ground history.
pub const EVENT_LIMIT: usize = 10_000;

/// Why an event was not added.
#[derive(Clone, Copy, Debug, PartialEq, Eq, Error)]
pub enum PushFault {
    /// Its name is in use.
    #[error("the name is in use")]
    NameInUse,
    /// `EVENT_LIMIT` events stand past the ground history.
    #[error("too many events")]
    TooManyEvents,
    /// Memory is wanting.
    #[error("out of memory")]
    Memory,
}

/// Why an event was not undone.
#[derive(Clone, Copy, Debug, PartialEq, Eq, Error)]
pub enum UndoFault {
    /// No event has the name.
    #[error("no event has this name")]
    NoSuchEvent,
    /// It is an event of the ground history.
    #[error("an event of the ground history")]
    GroundEvent,
}

/// All events of a run, oldest first. Those of the ground history stand first.
#[derive(Drop)]
pub struct History {
    entries: Vec<Entry>,
    index: Index,
}

impl Model for History {
    ghost use Rattle.std.specs.Prelude.{List, length, ◌≤◌};
    ghost use Rattle.nq_history.specs.Events.{ground_length};
    ghost use Rattle.nq_history.specs.declared.entry.Entry.{Entry};
    ghost use Rattle.nq_history.specs.Functions.{IsIndexOf};

    ghost Value = { List Entry };

    ghost view = { λ h. h.entries.items };

    ghost invariant = { λ h. (ground_length ≤ length h.entries.items) × IsIndexOf h.entries.items h.index };
}

impl History {
    /// The ground history, with the terms of its definitions in the bank. It fails only for want of memory, and the bank may
    /// have grown then.
    pub fn ground(bank: &mut Bank) -> Result<History, AllocError>
        ensures stands { IfOk result (λ history. HistoryStands bank.new history) }
        ensures whole { IfOk result (λ history. all_events_at bank.new history ≡ ground_history) }
        ensures past { IfOk result (λ history. events_at bank.new history ≡ []) }
        ensures marked { IfOk result (λ history. AreMarked bank.new history) }
        ensures grows { Grows bank.old bank.new }
    {
        let entries = ground_entries(bank)?;
        let index = index_of(bank.alloc(), entries.as_slice())?;
        Ok(History { entries, index })
    }

    /// All entries, oldest first; those of the ground history stand first.
    pub fn entries(&self) -> &[Entry]
        ensures { result.now ≡ self.now }
    {
        self.entries.as_slice()
    }

    /// The entries past the ground history, oldest first.
    pub fn past_ground(&self) -> &[Entry]
        ensures { result.now ≡ past_ground self.now }
    {
        &self.entries[GROUND_LENGTH..]
    }

    /// The term of the axiom or lemma of this name.
    pub fn term_of(&self, bank: &Bank, name: Sym) -> Option<TermId>
        requires entries { All (EntryStands bank.now) self.now }
        requires name { IsNamed bank.now name }
        ensures term { option_map (term_at bank.now) result ≡ event_term (text_at bank.now name) (events_at bank.now self.now) }
        ensures stands { IfSome result (λ t. Stands bank.now t) }
    {
        term_among(bank, self.past_ground(), name)
    }

    /// How many entries there are, those of the ground history too.
    pub fn len(&self) -> u64
        ensures { result ≡ length self.now }
    {
        self.entries.len() as u64
    }

    /// The entry at a place, counted from 0, the oldest first.
    pub fn entry(&self, place: u64) -> &Entry
        requires { place < length self.now }
        ensures { result.now ≡ slice_index_or self.now place result.now }
    {
        &self.entries[place as usize]
    }

    /// The first entry of this name. It takes no memory.
    pub fn lookup(&self, name: Sym) -> Option<&Entry>
        ensures entry { option_copied result ≡ entry_named name self.now }

        // Over each bank it is the event that the logic looks up under the name's text.
        ensures event { (bank : Content) → IsSound bank → HistoryStands bank self.now → IsNamed bank name → option_map (event_at bank) (option_copied result) ≡ looked_up (text_at bank name) (events_at bank self.now) }
    {
        match self.index.events.place(name) {
            Some(place) => Some(&self.entries[place]),
            None => None,
        }
    }

    /// Has the history an event or a function of this name, or is the name always in use? It takes no memory.
    pub fn in_use(&self, bank: &Bank, name: Sym) -> bool
        requires history { HistoryStands bank.now self.now }
        requires name { IsNamed bank.now name }
        ensures { result ≡ is_in_use (text_at bank.now name) (events_at bank.now self.now) }
    {
        bank.is_sound();
        is_reserved(bank.text(name)) || self.index.has(name)
    }

    /// How many arguments the history's function of this name has; none where it has no such function. It takes no memory.
    pub fn arity(&self, name: Sym) -> Option<u64>
        ensures value { result ≡ arity_among name (functions_of self.now) }

        // Over each bank it is as the logic says of the name's text.
        ensures events { (bank : Content) → IsSound bank → HistoryStands bank self.now → IsNamed bank name → result ≡ arity_in (symbols_of (events_at bank self.now)) (text_at bank name) }
    {
        self.index.arity(name)
    }

    /// The functions of the history, those of the ground history first.
    pub fn symbols(&self) -> &[Sym]
        // Over each bank their texts are the names of the logic's functions.
        ensures texts { (bank : Content) → HistoryStands bank self.now → texts_at bank result.now ≡ symbol_names (symbols_of (events_at bank self.now)) }
        ensures stand { (bank : Content) → HistoryStands bank self.now → All (IsNamed bank) result.now }
    {
        self.index.functions.as_slice()
    }

    /// The shells of the history, those of the ground history first. It takes no memory.
    pub fn shells(&self) -> &[Shell]
        // Over each bank they are the shells that its events add.
        ensures shells { (bank : Content) → shells_at bank result.now ≡ events_shells (all_events_at bank self.now) }
        ensures logic { (bank : Content) → HistoryStands bank self.now → shells_at bank result.now ≡ shells_of (events_at bank self.now) }
        ensures stand { (bank : Content) → HistoryStands bank self.now → All (ShellStands bank) result.now }
    {
        self.index.shells.as_slice()
    }

    /// Is this name enabled: was the last event that disables or enables it, if there is one, no disabling? It takes no memory.
    pub fn enabled(&self, name: Sym) -> bool
        ensures value { result ≡ enabled_in name true self.now }

        // Over each bank it is as the logic says of the name's text.
        ensures events { (bank : Content) → IsSound bank → HistoryStands bank self.now → IsNamed bank name → result ≡ is_enabled (text_at bank name) (events_at bank self.now) }
    {
        is_enabled_among(self.entries.as_slice(), name)
    }

    /// Why an event of this name is not added, memory aside.
    fn fault_of(&self, bank: &Bank, name: Sym) -> Option<PushFault>
        requires history { HistoryStands bank.now self.now }
        requires name { IsNamed bank.now name }
        ensures { result ≡ push_fault (is_in_use (text_at bank.now name) (events_at bank.now self.now)) (length (past_ground self.now)) }
    {
        if self.in_use(bank, name) {
            return Some(PushFault::NameInUse);
        }
        if self.past_ground().len() >= EVENT_LIMIT {
            return Some(PushFault::TooManyEvents);
        }
        None
    }

    /// Adds an entry at the end.
    fn add(&mut self, alloc: Global, entry: Entry) -> Result<(), PushFault>
        ensures ok { OnOk result (self.new ≡ self.old ++ entry ∷ []) }
        ensures fault { IsAnswer None result }
        ensures err { OnErr result (self.new ≡ self.old) }
    {
        match self.index.add(alloc, &entry) {
            Ok(()) => {}
            Err(_) => return Err(PushFault::Memory),
        }
        match self.entries.push(entry) {
            Ok(()) => Ok(()),
            Err(_) => {
                self.index.keep(self.entries.as_slice());
                Err(PushFault::Memory)
            }
        }
    }

    /// Adds an event at the end. It is `NameInUse` exactly where the entry's name is in use, and else `TooManyEvents` exactly
    /// where `EVENT_LIMIT` events stand past the ground history, and else fails only for want of memory. After a fault the
    /// history is as it was.
    pub fn push(&mut self, bank: &Bank, entry: Entry) -> Result<(), PushFault>
        requires history { HistoryStands bank.now self.old }
        requires entry { EntryStands bank.now entry }

        // The faults, in their order.
        ensures answer { IsAnswer (push_fault (is_in_use (text_at bank.now entry.name) (events_at bank.now self.old)) (length (past_ground self.old))) result }
        ensures err { OnErr result (self.new ≡ self.old) }

        // The entry stands last, and so does its event.
        ensures ok { OnOk result (self.new ≡ self.old ++ entry ∷ []) }
        ensures stands { OnOk result (HistoryStands bank.now self.new) }
        ensures event { OnOk result (events_at bank.now self.new ≡ events_at bank.now self.old ++ event_at bank.now entry ∷ []) }

        // An entry that keeps the mark from before its event can be undone.
        ensures marked { AreMarked bank.now self.old → IsMarked bank.now self.old entry → OnOk result (AreMarked bank.now self.new) }
    {
        if let Some(fault) = self.fault_of(bank, entry.name) {
            return Err(fault);
        }
        self.add(bank.alloc(), entry)
    }

    /// How many entries stand before the first one of this name, or all where none has it.
    fn count_before(&self, name: Sym) -> usize
        ensures { result ≡ length (entries_before name self.now) }
    {
        match self.index.events.place(name) {
            Some(place) => place,
            None => self.entries.len(),
        }
    }

    /// How many events an undo of this name would take away, or why it would be refused. It takes no memory.
    pub fn undo_count(&self, name: Sym) -> Result<u64, UndoFault>
        ensures answer { result ≡ undo_answer (length (entries_before name self.now)) (length self.now) }

        // Over each bank it is as the logic says of the name's text.
        ensures events { (bank : Content) → IsSound bank → HistoryStands bank self.now → IsNamed bank name → IsUndo (text_at bank name) (events_at bank self.now) result }
    {
        let kept = self.count_before(name);
        match undo_fault(kept, self.entries.len()) {
            Some(fault) => Err(fault),
            None => Ok((self.entries.len() - kept) as u64),
        }
    }

    /// Undoes the first event of this name and all later ones, and answers how many these are. It is `NoSuchEvent` exactly
    /// where no event has the name, and `GroundEvent` exactly where the event is one of the ground history. It takes no
    /// memory. After a fault history and bank are as they were.
    pub fn undo_back_through(&mut self, bank: &mut Bank, name: Sym) -> Result<u64, UndoFault>
        requires marks { All (λ e. CanRelease bank.old e.mark) self.old }
        ensures answer { result ≡ undo_answer (length (entries_before name self.old)) (length self.old) }

        // The entries before the named one are left, and what the bank held below its mark.
        ensures history { OnOk result (self.new ≡ entries_before name self.old) }
        ensures bank { OnOk result (IfSome (entry_named name self.old) (λ e. bank.new ≡ released bank.old e.mark)) }

        // The logic's history is the one before the event of the name's text.
        ensures events { IsSound bank.old → HistoryStands bank.old self.old → IsNamed bank.old name → OnOk result (events_at bank.old self.new ≡ before_event (text_at bank.old name) (events_at bank.old self.old)) }

        // Where each entry keeps the mark from before its event, the entries left stand in the bank that is left.
        ensures marked { AreMarked bank.old self.old → OnOk result (AreMarked bank.new self.new) }
        ensures stands { AreMarked bank.old self.old → HistoryStands bank.old self.old → OnOk result (HistoryStands bank.new self.new) }

        // After a fault nothing has changed.
        ensures err { OnErr result (self.new ≡ self.old) }
        ensures err_bank { OnErr result (bank.new ≡ bank.old) }
    {
        let kept = self.count_before(name);
        match undo_fault(kept, self.entries.len()) {
            Some(fault) => Err(fault),
            None => {
                let undone = self.entries.len() - kept;
                self.undo_to(bank, kept);
                Ok(undone as u64)
            }
        }
    }

    /// Undoes all events past the ground history. It takes no memory.
    pub fn back_to_ground(&mut self, bank: &mut Bank)
        requires marked { AreMarked bank.old self.old }
        requires stands { HistoryStands bank.old self.old }
        ensures history { self.new ≡ take ground_length self.old }

        // What the bank held below the mark of the first of them is left.
        ensures bank { bank.new ≡ given_back bank.old (drop ground_length self.old) }
        ensures none { events_at bank.new self.new ≡ [] }

        // The entries left stand in the bank that is left.
        ensures stands_after { HistoryStands bank.new self.new }
        ensures marked_after { AreMarked bank.new self.new }
    {
        if self.entries.len() > GROUND_LENGTH {
            self.undo_to(bank, GROUND_LENGTH);
        }
    }

    /// Undoes the event at this place and all later ones.
    fn undo_to(&mut self, bank: &mut Bank, kept: usize)
        requires marks { All (λ e. CanRelease bank.old e.mark) self.old }
        requires past { ground_length ≤ kept }
        requires kept { kept < length self.old }
        ensures history { self.new ≡ take kept self.old }
        ensures bank { (e : Entry) → e ≡ slice_index_or self.old kept e → bank.new ≡ released bank.old e.mark }
    {
        let mark = self.entries[kept].mark;
        bank.release(mark);
        self.entries.truncate(kept);
        self.index.keep(self.entries.as_slice());
    }
}

/// Why an event at this place is not undone, of so many events.
fn undo_fault(kept: usize, count: usize) -> Option<UndoFault>
    ensures { result ≡ undo_fault kept count }
{
    if kept == count {
        return Some(UndoFault::NoSuchEvent);
    }
    if kept < GROUND_LENGTH {
        return Some(UndoFault::GroundEvent);
    }
    None
}

/// The term of an axiom or lemma.
fn term_of_kind(kind: &EntryKind) -> Option<TermId>
    ensures { result ≡ kind_term kind.now }
{
    match kind {
        EntryKind::Axiom(_, t) => Some(*t),
        EntryKind::Lemma(_, t) => Some(*t),
        EntryKind::Shell(_) => None,
        EntryKind::Dcl(_) => None,
        EntryKind::Defn(_, _, _) => None,
        EntryKind::Toggle(_, _) => None,
    }
}

/// The term of the first of these entries that is an axiom or lemma of this name.
fn term_among(bank: &Bank, entries: &[Entry], name: Sym) -> Option<TermId>
    requires entries { All (EntryStands bank.now) entries.now }
    requires name { IsNamed bank.now name }
    ensures term { option_map (term_at bank.now) result ≡ event_term (text_at bank.now name) (all_events_at bank.now entries.now) }
    ensures stands { IfSome result (λ t. Stands bank.now t) }
{
    for e in entries {
        if is_same_name(bank, name, e.name) {
            if let Some(t) = term_of_kind(&e.kind) {
                return Some(t);
            }
        }
    }
    None
}
