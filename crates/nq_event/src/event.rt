//! What a form asks for.

use nq_bank::{Shell, Sym, TermId};
use nq_history::{Class, Hints};

/// A measure that a definition suggests, and the relation by which it is to fall.
#[derive(Clone, Copy, Debug)]
pub struct Measure {
    /// The name of the relation.
    pub relation: Sym,
    /// The measure, a term over the formals.
    pub term: TermId,
}

/// What a form asks for, over the ids of a bank.
#[derive(Debug, Drop)]
pub enum Event {
    /// The history becomes the ground history.
    BootStrap,
    AddShell(Shell),
    /// A function without axioms: its name and its formals.
    Dcl(Sym, Vec<Sym>),
    /// A definition: its name, its formals, its body, and the measures that it suggests.
    Defn(Sym, Vec<Sym>, TermId, Vec<Measure>),
    /// An axiom: its name, its classes and its term.
    AddAxiom(Sym, Vec<Class>, TermId),
    /// A lemma: its name, its classes, its term and its hints.
    ProveLemma(Sym, Vec<Class>, TermId, Hints),
    /// A new name, and the old name that is disabled or enabled from here on.
    Toggle(Sym, Sym, bool),
    /// The named event and all later ones go.
    Undo(Sym),
    Skipped,
}
