//! Closing lines.

use nq_bank::{Shell, Sym, TermId};

/// The measure of a recursive definition, with the lines that show it one.
#[derive(Drop)]
pub struct Measured {
    /// The measure.
    pub measure: TermId,
    /// The line that has only its `(ORDINALP m)`.
    pub ordinal: u64,
    /// For each call of the function in the body, in the order of their opening parentheses, the line that shows that
    /// the measure falls there.
    pub falls: Vec<u64>,
}

/// The line that ends a block, and what the block claims by it.
#[derive(Drop)]
pub enum Closing {
    /// `BOOT-STRAP`: the ground history.
    BootStrap,
    /// `LEMMA`: the term, under this name, which the line of this number shows.
    Lemma(Sym, TermId, u64),
    /// `AXIOMATIZE`: the term, under this name, is an axiom from here on.
    Axiomatize(Sym, TermId),
    /// `DCL`: a function of so many arguments, without axioms.
    Dcl(Sym, u32),
    /// `DEFN`: the definition of a function that does not call itself, by its formals and its body.
    Defn(Sym, Vec<Sym>, TermId),
    /// `DEFN`: the definition of a function that calls itself, by its formals and its body, with a `MEASURE` line before it.
    /// The first line of its block is the `F` line of the function.
    Recursion(Sym, Vec<Sym>, TermId, Measured),
    /// `SHELL`: the shell, with a `PART` line for each of its parts.
    Shell(Shell),
    /// `TOGGLE`: an event under the first name disables the second name's event, or enables it.
    Toggle(Sym, Sym, bool),
    /// `UNDO`: the event of this name, and all later ones, are gone.
    Undo(Sym),
}
