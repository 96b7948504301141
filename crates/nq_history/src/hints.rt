//! The hints of an event.
use nq_bank::{Sym, TermId};
use nq_clause::Pair;

/// An instance of an axiom, a lemma or a definition.
#[derive(Debug, Drop)]
pub struct Instance {
    /// The name of the event.
    pub name: Sym,
    /// The terms in place of its variables.
    pub pairs: Vec<Pair>,
}

/// What the hints of a lemma say. A hint of TIME says nothing.
#[derive(Debug, Drop)]
pub struct Hints {
    /// USE: the instances that stand, negated, before the lemma.
    pub instances: Vec<Instance>,
    /// ENABLE: the names that are enabled for the lemma.
    pub enable: Vec<Sym>,
    /// DISABLE: the names that are disabled for the lemma.
    pub disable: Vec<Sym>,
    /// EXPAND: the calls that are opened where they occur.
    pub expand: Vec<TermId>,
    /// INDUCT: the call that suggests the first induction.
    pub induct: Option<TermId>,
    /// HANDS-OFF: the functions that are not opened.
    pub hands_off: Vec<Sym>,
    /// DO-NOT-INDUCT.
    pub no_induct: bool,
    /// DO-NOT-GENERALIZE.
    pub no_generalize: bool,
    /// NO-BUILT-IN-ARITH.
    pub no_arith: bool,
}
