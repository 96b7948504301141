//! The table of rules: which rules there are about a function, learnt entry by entry.
ghost use Rattle.std.specs.Prelude.{◌≡◌, ◌<◌, ◌++◌, IfOk, OnErr, OnOk, List, length, take, slice_get, slice_index_or, true};
ghost use Rattle.std.specs.List.{filter};
ghost use Rattle.nq_logic.specs.Names as names;
ghost use Rattle.nq_bank.specs.declared.node.Sym.{Sym};
ghost use Rattle.nq_bank.specs.Content.{Content, IsNamed, text_at};
ghost use Rattle.nq_bank.specs.Shells.{texts_at};
ghost use Rattle.nq_bank.specs.Soundness.{IsSound};
ghost use Rattle.nq_history.specs.declared.entry.Entry.{Entry};
ghost use Rattle.nq_history.specs.Events.{events_at, ground_length, EntryStands, HistoryStands};
ghost use Rattle.nq_history.specs.Hints.{HintsStand};
ghost use Rattle.nq_history.specs.Lookups.{enabled_in};
ghost use Rattle.nq_rule_table.specs.Rules.{entry_rules, entry_toggles};
ghost use Rattle.nq_rule_table.specs.Tables.{all_but_last, entries_of, is_early, is_early_toggle, list_at, rewrites_of, rules_about, HasLearnt, IsTableOf, Learnt, WasTaught, read_over};
ghost use Rattle.nq_rule_table.specs.Enabled.{if_enabled, is_enabled_after};

use crate::enabling::{is_among, is_enabled_by};
use crate::lists::keep_each;
use crate::putting::put_rules;
use crate::rule::{RuleRef, Toggled};
use nq_bank::{Bank, Sym};
use nq_history::{Entry, EntryKind, Hints, History};
use std::alloc::{AllocError, Global};

/// The rules of class REWRITE of the entries that were learnt, by the functions of their left sides, and which names are
/// enabled after these entries.
#[derive(Drop)]
pub struct Rules {
    /// For each function, by the number of its name, the rules about it.
    lists: Vec<Vec<RuleRef>>,
    /// The names that were disabled or enabled.
    toggles: Vec<Toggled>,
}

/// Puts the rules of an entry, or the name that it disables or enables. The rules of earlier entries stay, and so do
/// the names that they disabled or enabled.
fn put_entry(
    bank: &Bank,
    lists: &mut Vec<Vec<RuleRef>>,
    toggles: &mut Vec<Toggled>,
    place: u64,
    e: &Entry,
) -> Result<(), AllocError>
    requires { EntryStands bank.now e.now }
    ensures rules { OnOk result ((f : Sym) → list_at lists.new.items f ≡ list_at lists.old.items f ++ entry_rules bank.now f place e.now) }
    ensures toggles { OnOk result (toggles.new.items ≡ toggles.old.items ++ entry_toggles place e.now) }
    ensures early { (f : Sym) → filter (is_early place) (list_at lists.new.items f) ≡ filter (is_early place) (list_at lists.old.items f) }
    ensures early_toggles { filter (is_early_toggle place) toggles.new.items ≡ filter (is_early_toggle place) toggles.old.items }
{
    match &e.kind {
        EntryKind::Shell(_) => Ok(()),
        EntryKind::Dcl(_) => Ok(()),
        EntryKind::Defn(_, _, _) => Ok(()),
        EntryKind::Axiom(classes, t) => put_rules(
            bank,
            lists,
            e.name,
            place,
            classes.as_slice(),
            *t,
        ),
        EntryKind::Lemma(classes, t) => put_rules(
            bank,
            lists,
            e.name,
            place,
            classes.as_slice(),
            *t,
        ),
        EntryKind::Toggle(old, disabled) => {
            toggles.push(Toggled {
                place,
                name: *old,
                disabled: *disabled,
            })?;
            Ok(())
        }
    }
}

/// Keeps the names that the first entries, so many of them, disabled or enabled.
fn keep_toggles(toggles: &mut Vec<Toggled>, kept: u64)
    ensures { toggles.new.items ≡ filter (is_early_toggle kept) toggles.old.items }
{
    toggles.retain(|t| t.place < kept);
}

impl Rules {
    /// The table that has learnt the entries of the ground history. None of them has a rule.
    pub fn new(alloc: Global) -> Rules
        ensures over { (bank : Content) (entries : List Entry) → HistoryStands bank entries → HasLearnt bank result (take ground_length entries) }
        ensures taught { (bank : Content) (entries : List Entry) → HistoryStands bank entries → WasTaught result (take ground_length entries) }
    {
        Rules {
            lists: Vec::new(alloc),
            toggles: Vec::new(alloc),
        }
    }

    /// The table that has learnt just the entries of a history.
    pub fn of(bank: &Bank, history: &History) -> Result<Rules, AllocError>
        requires { HistoryStands bank.now history.now }
        ensures { IfOk result (λ table. HasLearnt bank.now table history.now) }
    {
        let mut lists = Vec::new(bank.alloc());
        let mut toggles = Vec::new(bank.alloc());
        for place in 0..history.len() {
            put_entry(bank, &mut lists, &mut toggles, place, history.entry(place))?;
        }
        Ok(Rules { lists, toggles })
    }

    /// The rules about a function: those of the oldest entry first, and of an entry the last part first. So a rule stands after
    /// all those that it is tried before. It takes no memory.
    pub fn rewrites(&self, f: Sym) -> &[RuleRef]
        ensures value { result.now ≡ rewrites_of self.now f }
        ensures learnt { (bank : Content) (entries : List Entry) → HasLearnt bank self.now entries → result.now ≡ rules_about f 0 (read_over bank entries) }
    {
        match self.lists.get(f.0 as usize) {
            Some(list) => list.as_slice(),
            None => &[],
        }
    }

    /// Is a name enabled after the entries that were learnt? It takes no memory.
    pub fn is_enabled(&self, name: Sym) -> bool
        ensures { (entries : List Entry) → WasTaught self.now entries → result ≡ enabled_in name true entries }
    {
        is_enabled_by(self.toggles.as_slice(), name)
    }

    /// Is a name enabled for an event with these hints, after the entries that were learnt? It takes no memory.
    pub fn is_enabled_for(&self, hints: &Hints, name: Sym) -> bool
        ensures value { (entries : List Entry) → WasTaught self.now entries → result ≡ is_enabled_after hints.now name entries }

        // Over each bank it is as the logic says of the name's text.
        ensures events { (bank : Content) (entries : List Entry) → WasTaught self.now entries → IsSound bank → HistoryStands bank entries → HintsStand bank hints.now → IsNamed bank name → result ≡ names.is_enabled_for (texts_at bank hints.now.enable.items) (texts_at bank hints.now.disable.items) (text_at bank name) (events_at bank entries) }
    {
        let disabled = is_among(name, hints.disable.as_slice());
        let enabled = is_among(name, hints.enable.as_slice());
        let before = self.is_enabled(name);
        !disabled && (enabled || before)
    }

    /// The rule at an index of those about a function, if its event is enabled for these hints. It takes no memory.
    pub fn enabled(&self, hints: &Hints, f: Sym, at: usize) -> Option<RuleRef>
        ensures { (entries : List Entry) → WasTaught self.now entries → result ≡ if_enabled hints.now entries (slice_get (rewrites_of self.now f) at) }
    {
        match self.rewrites(f).get(at) {
            Some(rule) => if self.is_enabled_for(hints, rule.event) {
                Some(*rule)
            } else {
                None
            },
            None => None,
        }
    }

    /// Learns the last entry of a history, whose other entries it has learnt. After an error it has learnt what it had before.
    pub fn learn(&mut self, bank: &Bank, history: &History) -> Result<(), AllocError>
        requires stands { HistoryStands bank.now history.now }
        requires learnt { WasTaught self.old (all_but_last history.now) }

        // What was learnt over this bank is known over it with the last entry.
        ensures ok { HasLearnt bank.now self.old (all_but_last history.now) → OnOk result (HasLearnt bank.now self.new history.now) }
        ensures taught { OnOk result (WasTaught self.new history.now) }
        ensures err { OnErr result ((learnt : List Learnt) → IsTableOf self.old learnt → IsTableOf self.new learnt) }
        ensures err_taught { OnErr result ((entries : List Entry) → WasTaught self.old entries → WasTaught self.new entries) }
    {
        let place = history.len() - 1;
        let e = history.entry(place);
        match put_entry(bank, &mut self.lists, &mut self.toggles, place, e) {
            Ok(()) => Ok(()),
            Err(fault) => {
                keep_each(&mut self.lists, place);
                keep_toggles(&mut self.toggles, place);
                Err(fault)
            }
        }
    }

    /// Forgets all but the first entries, so many of them, of those that it has learnt. It takes no memory.
    pub fn forget(&mut self, kept: u64)
        ensures over { (bank : Content) (entries : List Entry) → HasLearnt bank self.old entries → HasLearnt bank self.new (take kept entries) }
        ensures taught { (entries : List Entry) → WasTaught self.old entries → WasTaught self.new (take kept entries) }
    {
        keep_each(&mut self.lists, kept);
        keep_toggles(&mut self.toggles, kept);
    }
}
