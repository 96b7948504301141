//! The atoms of inequalities, and their factors.
ghost use Rattle.std.specs.Prelude.{◌≤◌, length};

use crate::rows::Row;
use nq_bank::{Bank, TermId};
use nq_linear_rule::{LinearForm, Multiple};
use std::alloc::AllocError;

/// The factor of an atom, or 0.
pub fn factor_of(atom: TermId, form: &LinearForm) -> i128 {
    for i in 0..form.atoms.len() {
        if form.atoms[i].atom.0 == atom.0 {
            return form.atoms[i].factor;
        }
    }
    0
}

/// Is a form negative, whatever its atoms' numbers are?
pub fn is_negative(a: &LinearForm) -> bool {
    a.constant < 0 && has_no_positive(a.atoms.as_slice())
}

/// Has no atom a positive factor?
fn has_no_positive(atoms: &[Multiple]) -> bool {
    for i in 0..atoms.len() {
        if atoms[i].factor > 0 {
            return false;
        }
    }
    true
}

/// The first place among atoms in the order of falling ids at which an atom may stand.
fn place_among(atoms: &[TermId], atom: TermId) -> usize
    ensures { result ≤ length atoms.now }
{
    for i in 0..atoms.len() {
        if atoms[i].0 <= atom.0 {
            return i;
        }
    }
    atoms.len()
}

/// Adds an atom, if it is not there.
fn add_atom(atoms: &mut Vec<TermId>, atom: TermId) -> Result<(), AllocError> {
    let place = place_among(atoms.as_slice(), atom);
    if place < atoms.len() && atoms[place].0 == atom.0 {
        return Ok(());
    }
    atoms.insert(place, atom)?;
    Ok(())
}

/// Adds the atoms that are not there.
fn add_atoms(atoms: &mut Vec<TermId>, form: &LinearForm) -> Result<(), AllocError> {
    for i in 0..form.atoms.len() {
        add_atom(atoms, form.atoms[i].atom)?;
    }
    Ok(())
}

/// The atoms of the rows, each once, in the order of falling ids: a term has a greater id than its parts.
pub fn atoms_of(bank: &Bank, rows: &[Row]) -> Result<Vec<TermId>, AllocError> {
    let mut atoms = Vec::new(bank.alloc());
    for r in rows {
        add_atoms(&mut atoms, &r.form)?;
    }
    Ok(atoms)
}
