//! What stands beside the entries: names and functions are found in it without a walk, and the shells are a list of their own.
ghost use Rattle.std.specs.Prelude.{◌≡◌, ◌≤◌, ◌||◌, is_some, List, [], ◌∷◌, ◌++◌, length, map, take, IfOk, OnErr, OnOk};
ghost use Rattle.nq_history.specs.declared.entry.Entry.{Entry};
ghost use Rattle.nq_history.specs.Functions.{arity_among, functions_of, IsIndexOf, BeginsWith, HasAdded};
ghost use Rattle.nq_history.specs.Places.{place_in};

use crate::entry::Entry;
use crate::functions::{count_of_entry, functions_of_entry};
use crate::names::Names;
use crate::shell_list::{count_shells, put_shell};
use nq_bank::{Shell, Sym};
use std::alloc::{AllocError, Global};

/// The names of the events, the functions with their numbers of arguments, and the shells, each in the order of the entries.
#[derive(Drop)]
pub struct Index {
    /// The name of each event.
    pub events: Names,
    /// The functions that the events brought.
    pub functions: Names,
    /// The number of arguments of each function.
    pub arities: Vec<u64>,
    /// A copy of each shell that the events brought.
    pub shells: Vec<Shell>,
}

/// Puts functions, and their numbers of arguments, at the end. After an error some may have been put.
fn put_functions(
    functions: &mut Names,
    arities: &mut Vec<u64>,
    more: &[(Sym, u64)],
) -> Result<(), AllocError>
    ensures functions { OnOk result (functions.new ≡ functions.old ++ map (λ f. f.0) more.now) }
    ensures arities { OnOk result (arities.new.items ≡ arities.old.items ++ map (λ f. f.1) more.now) }
    ensures err_functions { OnErr result (take (length functions.old) functions.new ≡ functions.old) }
    ensures err_arities { OnErr result (take (length arities.old.items) arities.new.items ≡ arities.old.items) }
{
    for (name, arity) in more {
        functions.push(*name)?;
        arities.push(*arity)?;
    }
    Ok(())
}

/// How many functions these entries bring, where they are at most so many.
fn count_functions(entries: &[Entry], most: usize) -> usize
    requires { length (functions_of entries.now) ≤ most }
    ensures { result ≡ length (functions_of entries.now) }
{
    let mut count = 0;
    for e in entries {
        count += count_of_entry(e, most);
    }
    count
}

impl Index {
    /// The index of no entries.
    pub fn new(alloc: Global) -> Index
        ensures { IsIndexOf [] result }
    {
        Index {
            events: Names::new(alloc),
            functions: Names::new(alloc),
            arities: Vec::new(alloc),
            shells: Vec::new(alloc),
        }
    }

    /// Has an event or a function this name?
    pub fn has(&self, name: Sym) -> bool
        ensures { result ≡ (is_some (place_in name self.now.events) || is_some (place_in name self.now.functions)) }
    {
        self.events.place(name).is_some() || self.functions.place(name).is_some()
    }

    /// The number of arguments of the first function of this name.
    pub fn arity(&self, name: Sym) -> Option<u64>
        ensures { (entries : List Entry) → IsIndexOf entries self.now → result ≡ arity_among name (functions_of entries) }
    {
        match self.functions.place(name) {
            Some(i) => self.arities.get(i).copied(),
            None => None,
        }
    }

    /// Puts what an entry brings. After an error a part of it may have been put.
    fn put(&mut self, alloc: Global, e: &Entry) -> Result<(), AllocError>
        ensures ok { OnOk result (HasAdded e.now self.old self.new) }
        ensures err { OnErr result (BeginsWith self.old self.new) }
    {
        let functions = functions_of_entry(alloc, e)?;
        put_functions(&mut self.functions, &mut self.arities, functions.as_slice())?;
        put_shell(alloc, &mut self.shells, e)?;
        self.events.push(e.name)
    }

    /// Keeps the first events, functions and shells.
    fn truncate(&mut self, events: usize, functions: usize, shells: usize)
        ensures events { self.new.events ≡ take events self.old.events }
        ensures functions { self.new.functions ≡ take functions self.old.functions }
        ensures arities { self.new.arities.items ≡ take functions self.old.arities.items }
        ensures shells { self.new.shells.items ≡ take shells self.old.shells.items }
    {
        self.events.truncate(events);
        self.functions.truncate(functions);
        self.arities.truncate(functions);
        self.shells.truncate(shells);
    }

    /// Adds what an entry brings. After an error nothing was added.
    pub fn add(&mut self, alloc: Global, e: &Entry) -> Result<(), AllocError>
        ensures ok { (entries : List Entry) → IsIndexOf entries self.old → OnOk result (IsIndexOf (entries ++ e.now ∷ []) self.new) }
        ensures err { (entries : List Entry) → IsIndexOf entries self.old → OnErr result (IsIndexOf entries self.new) }
    {
        let events = self.events.len();
        let functions = self.functions.len();
        let shells = self.shells.len();
        match self.put(alloc, e) {
            Ok(()) => Ok(()),
            Err(fault) => {
                self.truncate(events, functions, shells);
                Err(fault)
            }
        }
    }

    /// Keeps what these entries brought, which are the first of all. It takes no memory.
    pub fn keep(&mut self, kept: &[Entry])
        requires { length (functions_of kept.now) ≤ length self.old.functions }
        ensures { (entries : List Entry) → IsIndexOf entries self.old → kept.now ≡ take (length kept.now) entries → IsIndexOf kept.now self.new }
    {
        let most = self.functions.len();
        let functions = count_functions(kept, most);
        let shells = count_shells(kept);
        let events = kept.len();
        self.truncate(events, functions, shells);
    }
}

/// The index of these entries.
pub fn index_of(alloc: Global, entries: &[Entry]) -> Result<Index, AllocError>
    ensures { IfOk result (IsIndexOf entries.now) }
{
    let mut index = Index::new(alloc);
    for e in entries {
        index.add(alloc, e)?;
    }
    Ok(index)
}
