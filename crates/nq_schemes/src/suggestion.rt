//! Calls that suggest an induction: of recursive functions, with distinct variables in the places that the measure speaks of.
ghost use Rattle.nq_bank.specs.Content.{Stands};

use crate::terms::{has_id, has_variable, is_call_of, is_variable, is_walked};
use nq_bank::{Bank, Node, Sym, TermId, ground};
use nq_history::{EntryKind, History};
use std::alloc::AllocError;

/// How many terms of a goal are looked at.
const SEEN_LIMIT: usize = 2000;

/// A recursive function.
#[derive(Drop)]
pub struct Recursion {
    /// Its name.
    pub function: Sym,
    /// Its body.
    pub body: TermId,
    /// Its formals.
    pub formals: Vec<Sym>,
    /// Its measure.
    pub measure: TermId,
    /// The places of the formals that its measure speaks of.
    pub measured: Vec<usize>,
    /// Whether the measure is the size of a formal.
    pub is_sized: bool,
}

/// The places of the formals that stand in a measure.
fn measured_places(
    bank: &Bank,
    formals: &[Sym],
    measure: TermId,
) -> Result<Vec<usize>, AllocError> {
    let mut places = Vec::new(bank.alloc());
    for i in 0..formals.len() {
        if measure.0 < bank.len() {
            if is_walked(bank, measure) && has_variable(bank, formals[i], measure) {
                places.push(i)?;
            }
        }
    }
    Ok(places)
}

/// The argument of a call of FIX, or another term itself.
fn without_fix(bank: &Bank, t: TermId) -> TermId {
    if t.0 < bank.len() {
        if is_call_of(bank, ground::FIX, t) {
            return bank.args(t).first().copied().unwrap_or(t);
        }
    }
    t
}

/// Is a measure the size of a variable, or the FIX of that?
fn is_size(bank: &Bank, whole: TermId) -> bool {
    let measure = without_fix(bank, whole);
    if measure.0 < bank.len() {
        if is_call_of(bank, ground::COUNT, measure) {
            for a in bank.args(measure) {
                if !is_variable(bank, *a) {
                    return false;
                }
            }
            return true;
        }
    }
    false
}

/// The recursive function of this name.
pub fn recursion_of(
    bank: &Bank,
    history: &History,
    f: Sym,
) -> Result<Option<Recursion>, AllocError> {
    let Some(entry) = history.lookup(f) else {
        return Ok(None);
    };
    match &entry.kind {
        EntryKind::Defn(formals, body, Some(measure)) => {
            let measured = measured_places(bank, formals.as_slice(), *measure)?;
            let formals = Vec::from_slice(bank.alloc(), formals.as_slice())?;
            Ok(Some(Recursion {
                function: f,
                body: *body,
                formals,
                measure: *measure,
                measured,
                is_sized: is_size(bank, *measure),
            }))
        }
        EntryKind::Defn(_, _, None) => Ok(None),
        EntryKind::Axiom(_, _) => Ok(None),
        EntryKind::Lemma(_, _) => Ok(None),
        EntryKind::Shell(_) => Ok(None),
        EntryKind::Dcl(_) => Ok(None),
        EntryKind::Toggle(_, _) => Ok(None),
    }
}

/// The arguments of a call at these places.
pub fn arguments_at(bank: &Bank, places: &[usize], t: TermId) -> Result<Vec<TermId>, AllocError>
    requires { Stands bank.now t }
{
    let arguments = bank.args(t);
    let mut found = Vec::new(bank.alloc());
    for i in places {
        if *i < arguments.len() {
            found.push(arguments[*i])?;
        }
    }
    Ok(found)
}

/// Are these terms distinct variables, at least one?
fn are_variables(bank: &Bank, terms: &[TermId]) -> bool {
    for i in 0..terms.len() {
        let t = terms[i];
        if t.0 < bank.len() {
            if !is_variable(bank, t) || has_id(&terms[i + 1..], t) {
                return false;
            }
        }
    }
    terms.len() > 0
}

/// Does a call of the function suggest an induction?
fn is_suggestion_of(bank: &Bank, recursion: &Recursion, t: TermId) -> Result<bool, AllocError>
    requires { Stands bank.now t }
{
    let measured = arguments_at(bank, recursion.measured.as_slice(), t)?;
    Ok(are_variables(bank, measured.as_slice()))
}

/// The recursive function of a call that suggests an induction.
pub fn suggestion_of(
    bank: &Bank,
    history: &History,
    t: TermId,
) -> Result<Option<Recursion>, AllocError>
    requires { Stands bank.now t }
{
    let Node::App(f, _) = bank.node(t) else {
        return Ok(None);
    };
    match recursion_of(bank, history, f)? {
        Some(recursion) => {
            if is_suggestion_of(bank, &recursion, t)? {
                Ok(Some(recursion))
            } else {
                Ok(None)
            }
        }
        None => Ok(None),
    }
}

/// Adds the calls in a term that suggest an induction, the inner ones first. Each shared term is looked at once.
fn add_suggestions(
    bank: &Bank,
    history: &History,
    seen: &mut Vec<TermId>,
    found: &mut Vec<TermId>,
    t: TermId,
) -> Result<(), AllocError>
    requires { Stands bank.now t }
{
    if seen.len() < SEEN_LIMIT {
        if has_id(seen.as_slice(), t) {
            return Ok(());
        }
        seen.push(t)?;
        for a in bank.args(t) {
            add_suggestions(bank, history, seen, found, *a)?;
        }
        if suggestion_of(bank, history, t)?.is_some() {
            found.push(t)?;
        }
    }
    Ok(())
}

/// The calls of a goal that suggest an induction.
pub fn suggestions(
    bank: &Bank,
    history: &History,
    goal: &[TermId],
) -> Result<Vec<TermId>, AllocError> {
    let mut seen = Vec::new(bank.alloc());
    let mut found = Vec::new(bank.alloc());
    for t in goal {
        if t.0 < bank.len() {
            add_suggestions(bank, history, &mut seen, &mut found, *t)?;
        }
    }
    Ok(found)
}
