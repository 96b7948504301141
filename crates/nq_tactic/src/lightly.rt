//! Hints under which a goal is only taken apart: no rule is used, and no recursive function is opened. They decide only what is tried.
ghost use Rattle.std.specs.Prelude.{◌≡◌, Err};

use nq_bank::Sym;
use nq_history::{Entry, EntryKind, Hints, History};
use nq_kernel::{Stop, Work};
use std::alloc::AllocError;

/// Is an entry the definition of a recursive function?
fn is_recursion(e: &Entry) -> bool {
    match &e.kind {
        EntryKind::Defn(_, _, measure) => measure.is_some(),
        EntryKind::Axiom(_, _) => false,
        EntryKind::Lemma(_, _) => false,
        EntryKind::Shell(_) => false,
        EntryKind::Dcl(_) => false,
        EntryKind::Toggle(_, _) => false,
    }
}

/// Is an entry an axiom or a lemma?
fn is_claim(e: &Entry) -> bool {
    match &e.kind {
        EntryKind::Axiom(_, _) => true,
        EntryKind::Lemma(_, _) => true,
        EntryKind::Defn(_, _, _) => false,
        EntryKind::Shell(_) => false,
        EntryKind::Dcl(_) => false,
        EntryKind::Toggle(_, _) => false,
    }
}

/// Adds the names of the recursive functions.
fn add_recursions(history: &History, names: &mut Vec<Sym>) -> Result<(), AllocError> {
    for e in history.entries() {
        if is_recursion(e) {
            names.push(e.name)?;
        }
    }
    Ok(())
}

/// Adds the names of the axioms and lemmas.
fn add_claims(history: &History, names: &mut Vec<Sym>) -> Result<(), AllocError> {
    for e in history.entries() {
        if is_claim(e) {
            names.push(e.name)?;
        }
    }
    Ok(())
}

/// Hints as these, under which no rule is used and no recursive function is opened, where only memory can be wanting.
fn make_light(work: &Work, history: &History, hints: &Hints) -> Result<Hints, AllocError> {
    let alloc = work.bank.alloc();
    let mut disable = Vec::from_slice(alloc, hints.disable.as_slice())?;
    add_claims(history, &mut disable)?;
    let mut hands_off = Vec::from_slice(alloc, hints.hands_off.as_slice())?;
    add_recursions(history, &mut hands_off)?;
    Ok(Hints {
        instances: Vec::new(alloc),
        enable: Vec::new(alloc),
        disable,
        expand: Vec::new(alloc),
        induct: None,
        hands_off,
        no_induct: true,
        no_generalize: true,
        no_arith: true,
    })
}

/// Hints as these, under which no rule is used and no recursive function is opened.
pub fn light_hints(work: &Work, history: &History, hints: &Hints) -> Result<Hints, Stop>
    ensures { result ≡ Err Stop.OutOfSteps → ⊥ }
{
    match make_light(work, history, hints) {
        Ok(light) => Ok(light),
        Err(_) => Err(Stop::Memory),
    }
}
