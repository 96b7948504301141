//! Entries of a history.

use nq_bank::{Mark, Shell, Sym, TermId};

/// How an axiom or a lemma is used as a rule.
#[derive(Clone, Copy, Debug, PartialEq, Eq)]
pub enum Class {
    Rewrite,
    Elim,
    Generalize,
}

/// What an event brings.
#[derive(Debug, Drop)]
pub enum EntryKind {
    /// A shell. Its entry has the constructor's name.
    Shell(Shell),
    /// A function without axioms of its own, with its number of arguments.
    Dcl(u32),
    /// A defined function: its formals, its body, and its measure where it is recursive.
    Defn(Vec<Sym>, TermId, Option<TermId>),
    /// An axiom, with its classes.
    Axiom(Vec<Class>, TermId),
    /// A lemma, with its classes.
    Lemma(Vec<Class>, TermId),
    /// The event of this name is disabled from here on, or enabled.
    Toggle(Sym, bool),
}

/// An event of a history, under its name, with where the bank ended before it.
#[derive(Debug, Drop)]
pub struct Entry {
    /// The name of the event; that of a shell is its constructor.
    pub name: Sym,
    /// What the event brings.
    pub kind: EntryKind,
    /// Where the bank ended before the event: an undo releases it to here.
    pub mark: Mark,
}
