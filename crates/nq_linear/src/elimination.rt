//! Elimination of atoms, one after the other, a term before its parts.
//!
//! A round adds the sums of two inequalities in which its atom cancels, and leaves out those in which the atom has a positive
//! factor. Those in which it has a negative one stay, as an atom's number is not below 0. A sum is left out where others imply
//! it: after k rounds the sums of at most k + 1 parts are enough, the parts being the literals that a sum is made of, and the
//! atoms of these rounds with negative factors. From X - Y and 2 - X, say, the round of X makes 2 - Y, of two parts. It keeps
//! 2 - X, whose parts are its literal and X, and leaves out X - Y.
//!
//! What comes of it is only a guess: that it is a refutation is tested at the end. So nothing is proved of the numbers on the
//! way, and only that each summand's literal is one of those that were given.
ghost use Rattle.std.specs.Prelude.{◌≡◌, ◌<◌, ◌≤◌, IfOk, IfSome, OnOk, All, length, true};
ghost use Rattle.nq_bank.specs.Content.{Stands};
ghost use Rattle.nq_proof.specs.Rules.{is_refuted};
ghost use Rattle.nq_linear_rule.specs.Forms.{FormStands, AtomsStand};
ghost use Rattle.nq_linear_rule.specs.Sums.{summands_at};
ghost use Rattle.nq_linear.specs.Rows.{AreRows};
ghost use Rattle.nq_linear.specs.Inequalities.{Draws, AllDraw, IsInequality, AreInequalities};

use crate::atoms::{atoms_of, factor_of, is_negative};
use crate::inequality::{Inequality, combined};
use crate::ratio::cancelling;
use crate::rounds::{Round, is_needed, needed, summand_count};
use crate::rows::Row;
use nq_bank::{Bank, TermId};
use nq_linear_rule::{Summand, is_refuted, scaled};
use std::alloc::AllocError;

/// The most inequalities that are made.
const LIMIT: usize = 2000;

/// The inequality of a row.
fn of_row(bank: &Bank, literals: &[TermId], r: &Row) -> Result<Option<Inequality>, AllocError>
    requires draws { Draws bank.now literals.now r.now.summand }
    requires atoms { FormStands bank.now r.now.form }
    ensures { IfOk result (λ o. IfSome o (IsInequality bank.now literals.now)) }
{
    let _ = literals.len();
    let summands = Vec::from_slice(bank.alloc(), &[r.summand])?;
    match scaled(bank, 1, &r.form)? {
        Some(form) => Ok(Some(Inequality { form, summands })),
        None => Ok(None),
    }
}

/// The inequalities of the rows.
fn of_rows(bank: &Bank, literals: &[TermId], rows: &[Row]) -> Result<Vec<Inequality>, AllocError>
    requires rows { AreRows bank.now rows.now }
    requires draws { All (λ r. Draws bank.now literals.now r.summand) rows.now }
    ensures { IfOk result (λ v. AreInequalities bank.now literals.now v.items) }
{
    let mut made = Vec::new(bank.alloc());
    for r in rows {
        let one = of_row(bank, literals, r)?;
        add_if(bank, literals, &mut made, one)?;
    }
    Ok(made)
}

/// The sum of two inequalities in which the round's atom, with a positive factor in the first and a negative one in the second,
/// cancels; none where it hasn't such factors, where the sum isn't needed, or where a number grows too great.
fn cancelled(
    bank: &Bank,
    literals: &[TermId],
    round: Round,
    a: &Inequality,
    b: &Inequality,
) -> Result<Option<Inequality>, AllocError>
    requires first { IsInequality bank.now literals.now a.now }
    requires second { IsInequality bank.now literals.now b.now }
    ensures { IfOk result (λ o. IfSome o (IsInequality bank.now literals.now)) }
{
    let positive = factor_of(round.atom, &a.form);
    let negative = factor_of(round.atom, &b.form);
    if positive <= 0 || negative >= 0 || summand_count(a, b) > round.parts {
        return Ok(None);
    }
    match cancelling(positive, negative) {
        Some(by) => {
            let sum = combined(bank, literals, by.first, a, by.second, b)?;
            Ok(needed(bank, literals, round, sum))
        }
        None => Ok(None),
    }
}

/// One more inequality, if there is one.
fn add_if(
    bank: &Bank,
    literals: &[TermId],
    made: &mut Vec<Inequality>,
    one: Option<Inequality>,
) -> Result<(), AllocError>
    requires made { AreInequalities bank.now literals.now made.old.items }
    requires one { IfSome one (IsInequality bank.now literals.now) }
    ensures made { OnOk result (AreInequalities bank.now literals.now made.new.items) }
    ensures longer { OnOk result (length made.old.items ≤ length made.new.items) }
{
    let _ = bank.len();
    let _ = literals.len();
    match one {
        Some(q) => {
            made.push(q)?;
            Ok(())
        }
        None => Ok(()),
    }
}

/// The inequality at a place.
fn at<'a>(bank: &Bank, literals: &[TermId], made: &'a [Inequality], i: usize) -> &'a Inequality
    requires made { AreInequalities bank.now literals.now made.now }
    requires place { i < length made.now }
    ensures { IsInequality bank.now literals.now result.now }
{
    let _ = bank.len();
    let _ = literals.len();
    &made[i]
}

/// Adds the sum of two inequalities, at these places, in which the round's atom cancels, if there is room.
fn add_cancelled(
    bank: &Bank,
    literals: &[TermId],
    made: &mut Vec<Inequality>,
    round: Round,
    i: usize,
    j: usize,
) -> Result<(), AllocError>
    requires made { AreInequalities bank.now literals.now made.old.items }
    requires first { i < length made.old.items }
    requires second { j < length made.old.items }
    ensures made { OnOk result (AreInequalities bank.now literals.now made.new.items) }
    ensures longer { OnOk result (length made.old.items ≤ length made.new.items) }
{
    if made.len() >= LIMIT {
        return Ok(());
    }
    let a = at(bank, literals, made.as_slice(), i);
    let b = at(bank, literals, made.as_slice(), j);
    let one = cancelled(bank, literals, round, a, b)?;
    add_if(bank, literals, made, one)
}

/// Adds the sums of an inequality with those at these places, in which the round's atom cancels, as long as there is room.
fn add_all_cancelled(
    bank: &Bank,
    literals: &[TermId],
    made: &mut Vec<Inequality>,
    round: Round,
    i: usize,
    alive: &[usize],
) -> Result<(), AllocError>
    requires made { AreInequalities bank.now literals.now made.old.items }
    requires first { i < length made.old.items }
    requires alive { All (λ j. j < length made.old.items) alive.now }
    ensures made { OnOk result (AreInequalities bank.now literals.now made.new.items) }
    ensures longer { OnOk result (length made.old.items ≤ length made.new.items) }
{
    if factor_of(round.atom, &at(bank, literals, made.as_slice(), i).form) <= 0 {
        return Ok(());
    }
    for k in 0..alive.len() {
        add_cancelled(bank, literals, made, round, i, alive[k])?;
    }
    Ok(())
}

/// Adds the sums of each of the first with each of the second, at these places, in which the round's atom cancels, as long as
/// there is room.
fn add_all(
    bank: &Bank,
    literals: &[TermId],
    made: &mut Vec<Inequality>,
    round: Round,
    alive: &[usize],
    negative: &[usize],
) -> Result<(), AllocError>
    requires made { AreInequalities bank.now literals.now made.old.items }
    requires alive { All (λ j. j < length made.old.items) alive.now }
    requires negative { All (λ j. j < length made.old.items) negative.now }
    ensures made { OnOk result (AreInequalities bank.now literals.now made.new.items) }
    ensures longer { OnOk result (length made.old.items ≤ length made.new.items) }
{
    for k in 0..alive.len() {
        add_all_cancelled(bank, literals, made, round, alive[k], negative)?;
    }
    Ok(())
}

/// The places of those in which an atom has a negative factor.
fn negative_places(
    bank: &Bank,
    made: &[Inequality],
    atom: TermId,
    alive: &[usize],
) -> Result<Vec<usize>, AllocError>
    requires alive { All (λ j. j < length made.now) alive.now }
    ensures { IfOk result (λ v. All (λ j. j < length made.now) v.items) }
{
    let mut places = Vec::new(bank.alloc());
    for k in 0..alive.len() {
        let j = alive[k];
        if factor_of(atom, &made[j].form) < 0 {
            places.push(j)?;
        }
    }
    Ok(places)
}

/// The places of those that stay: those that are needed still and in which the atom has no positive factor, and those from a
/// place on.
fn staying(
    bank: &Bank,
    made: &[Inequality],
    round: Round,
    alive: &[usize],
    first: usize,
) -> Result<Vec<usize>, AllocError>
    requires alive { All (λ j. j < length made.now) alive.now }
    ensures { IfOk result (λ v. All (λ j. j < length made.now) v.items) }
{
    let mut places = Vec::new(bank.alloc());
    for k in 0..alive.len() {
        let j = alive[k];
        if factor_of(round.atom, &made[j].form) <= 0 && is_needed(round, &made[j]) {
            places.push(j)?;
        }
    }
    for j in first..made.len() {
        places.push(j)?;
    }
    Ok(places)
}

/// The places of all.
fn places_of(bank: &Bank, made: &[Inequality]) -> Result<Vec<usize>, AllocError>
    ensures { IfOk result (λ v. All (λ j. j < length made.now) v.items) }
{
    let mut places = Vec::new(bank.alloc());
    for j in 0..made.len() {
        places.push(j)?;
    }
    Ok(places)
}

/// One round: the places of the inequalities in which its atom has no positive factor, with the new ones.
fn eliminated(
    bank: &Bank,
    literals: &[TermId],
    made: &mut Vec<Inequality>,
    round: Round,
    alive: &[usize],
) -> Result<Vec<usize>, AllocError>
    requires made { AreInequalities bank.now literals.now made.old.items }
    requires alive { All (λ j. j < length made.old.items) alive.now }
    ensures made { OnOk result (AreInequalities bank.now literals.now made.new.items) }
    ensures places { IfOk result (λ v. All (λ j. j < length made.new.items) v.items) }
{
    let first = made.len();
    let negative = negative_places(bank, made.as_slice(), round.atom, alive)?;
    add_all(bank, literals, made, round, alive, negative.as_slice())?;
    staying(bank, made.as_slice(), round, alive, first)
}

/// Is one of the inequalities from a place on negative, whatever its atoms' numbers are?
fn has_negative_from(made: &[Inequality], first: usize) -> bool {
    for j in first..made.len() {
        if is_negative(&made[j].form) {
            return true;
        }
    }
    false
}

/// All inequalities that are made when the atoms are eliminated in their order, until one is negative.
fn all_made(
    bank: &Bank,
    literals: &[TermId],
    rows: &[Row],
    atoms: &[TermId],
) -> Result<Vec<Inequality>, AllocError>
    requires rows { AreRows bank.now rows.now }
    requires draws { All (λ r. Draws bank.now literals.now r.summand) rows.now }
    ensures { IfOk result (λ v. AreInequalities bank.now literals.now v.items) }
{
    let mut made = of_rows(bank, literals, rows)?;
    let mut alive = places_of(bank, made.as_slice())?;
    for k in 0..atoms.len() {
        let round = Round {
            atom: atoms[k],
            parts: k + 2,
        };
        let first = made.len();
        alive = eliminated(bank, literals, &mut made, round, alive.as_slice())?;
        if made.len() >= LIMIT || has_negative_from(made.as_slice(), first) {
            return Ok(made);
        }
    }
    Ok(made)
}

/// The summands, where they are refuted.
fn tested(
    bank: &Bank,
    literals: &[TermId],
    summands: &[Summand],
) -> Result<Option<Vec<Summand>>, AllocError>
    requires { AllDraw bank.now literals.now summands.now }
    ensures refuted { IfOk result (λ o. IfSome o (λ v. is_refuted (summands_at bank.now v.items) ≡ true)) }
    ensures draws { IfOk result (λ o. IfSome o (λ v. AllDraw bank.now literals.now v.items)) }
{
    let _ = literals.len();
    let list = Vec::from_slice(bank.alloc(), summands)?;
    if is_refuted(bank, summands)? {
        Ok(Some(list))
    } else {
        Ok(None)
    }
}

/// The summands of the first inequality that is negative whatever its atoms' numbers are, where they are refuted.
fn refutation_among(
    bank: &Bank,
    literals: &[TermId],
    made: &[Inequality],
) -> Result<Option<Vec<Summand>>, AllocError>
    requires { AreInequalities bank.now literals.now made.now }
    ensures refuted { IfOk result (λ o. IfSome o (λ v. is_refuted (summands_at bank.now v.items) ≡ true)) }
    ensures draws { IfOk result (λ o. IfSome o (λ v. AllDraw bank.now literals.now v.items)) }
{
    for k in 0..made.len() {
        let q = at(bank, literals, made, k);
        if is_negative(&q.form) {
            return tested(bank, literals, q.summands.as_slice());
        }
    }
    Ok(None)
}

/// The summands of a refutation that elimination finds, where it makes no more inequalities than the limit.
pub fn elimination(
    bank: &Bank,
    literals: &[TermId],
    rows: &[Row],
) -> Result<Option<Vec<Summand>>, AllocError>
    requires rows { AreRows bank.now rows.now }
    requires draws { All (λ r. Draws bank.now literals.now r.summand) rows.now }
    ensures refuted { IfOk result (λ o. IfSome o (λ v. is_refuted (summands_at bank.now v.items) ≡ true)) }
    ensures draws { IfOk result (λ o. IfSome o (λ v. AllDraw bank.now literals.now v.items)) }
{
    let atoms = atoms_of(bank, rows)?;
    let made = all_made(bank, literals, rows, atoms.as_slice())?;
    refutation_among(bank, literals, made.as_slice())
}
