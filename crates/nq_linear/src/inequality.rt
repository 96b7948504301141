//! Sums of literals' expressions, each so many times, with the summands that they are made of.
ghost use Rattle.std.specs.Prelude.{◌≡◌, ◌++◌, ◌∷◌, [], IfOk, IfSome, OnOk, All};
ghost use Rattle.nq_bank.specs.Content.{Stands};
ghost use Rattle.nq_linear_rule.specs.Forms.{AtomsStand, FormStands};
ghost use Rattle.nq_linear.specs.Inequalities.{Draws, AllDraw, IsInequality};

use nq_bank::{Bank, TermId};
use nq_linear_rule::{LinearForm, Multiple, Summand, added, is_factor, scaled};
use std::alloc::AllocError;

/// A sum of expressions, with what it is made of.
#[derive(Drop)]
pub struct Inequality {
    /// The sum.
    pub form: LinearForm,
    /// The literals with their factors.
    pub summands: Vec<Summand>,
}

/// A summand so many times as often, where the factor stays below 2^63.
fn raised(one: Summand, factor: u64) -> Option<Summand>
    ensures { IfSome result (λ s. s.literal ≡ one.literal) }
{
    match one.factor.checked_mul(factor) {
        Some(m) => {
            if is_factor(m) {
                Some(Summand {
                    factor: m,
                    literal: one.literal,
                    forwards: one.forwards,
                })
            } else {
                None
            }
        }
        None => None,
    }
}

/// Two summands of one literal as one, where the factor stays below 2^63.
fn joined(stood: Summand, one: Summand) -> Option<Summand>
    ensures { IfSome result (λ s. s.literal ≡ stood.literal) }
{
    match stood.factor.checked_add(one.factor) {
        Some(m) => {
            if is_factor(m) {
                Some(Summand {
                    factor: m,
                    literal: stood.literal,
                    forwards: stood.forwards,
                })
            } else {
                None
            }
        }
        None => None,
    }
}

/// The place of a summand of the same literal, read in the same order, or the count of all.
pub fn place_of(summands: &[Summand], one: Summand) -> usize {
    for i in 0..summands.len() {
        if summands[i].literal.0 == one.literal.0 && summands[i].forwards == one.forwards {
            return i;
        }
    }
    summands.len()
}

/// Adds a summand; tells whether its factor stays below 2^63.
fn add_summand(
    bank: &Bank,
    literals: &[TermId],
    summands: &mut Vec<Summand>,
    one: Summand,
) -> Result<bool, AllocError>
    requires summands { AllDraw bank.now literals.now summands.old.items }
    requires one { Draws bank.now literals.now one }
    ensures { OnOk result (AllDraw bank.now literals.now summands.new.items) }
{
    let _ = bank.len();
    let place = place_of(summands.as_slice(), one);
    if place < summands.len() {
        match joined(summands[place], one) {
            Some(s) => {
                summands[place] = s;
                Ok(true)
            }
            None => Ok(false),
        }
    } else {
        summands.push(one)?;
        Ok(true)
    }
}

/// Adds summands, each so many times; tells whether each factor stays below 2^63.
fn add_summands(
    bank: &Bank,
    literals: &[TermId],
    summands: &mut Vec<Summand>,
    factor: u64,
    more: &[Summand],
) -> Result<bool, AllocError>
    requires summands { AllDraw bank.now literals.now summands.old.items }
    requires more { AllDraw bank.now literals.now more.now }
    ensures { OnOk result (AllDraw bank.now literals.now summands.new.items) }
{
    for i in 0..more.len() {
        match raised(more[i], factor) {
            Some(one) => {
                if !add_summand(bank, literals, summands, one)? {
                    return Ok(false);
                }
            }
            None => return Ok(false),
        }
    }
    Ok(true)
}

/// The atoms whose factor is not 0.
fn without_zeros(bank: &Bank, atoms: &[Multiple]) -> Result<Vec<Multiple>, AllocError>
    requires { AtomsStand bank.now atoms.now }
    ensures { IfOk result (λ v. AtomsStand bank.now v.items) }
{
    let mut kept = Vec::new(bank.alloc());
    for i in 0..atoms.len() {
        if atoms[i].factor != 0 {
            kept.push(atoms[i])?;
        }
    }
    Ok(kept)
}

/// The sum of two forms, each so many times, without atoms of factor 0; none where a number leaves the bounds.
fn sum_of_forms(
    bank: &Bank,
    p: u64,
    a: &LinearForm,
    q: u64,
    b: &LinearForm,
) -> Result<Option<LinearForm>, AllocError>
    requires first { FormStands bank.now a.now }
    requires second { FormStands bank.now b.now }
    ensures { IfOk result (λ o. IfSome o (FormStands bank.now)) }
{
    match scaled(bank, i128::from(p), a)? {
        Some(x) => match scaled(bank, i128::from(q), b)? {
            Some(y) => match added(bank, &x, &y)? {
                Some(z) => {
                    let atoms = without_zeros(bank, z.atoms.as_slice())?;
                    Ok(Some(LinearForm {
                        constant: z.constant,
                        atoms,
                    }))
                }
                None => Ok(None),
            },
            None => Ok(None),
        },
        None => Ok(None),
    }
}

/// The summands of two sums, each so many times; none where a factor passes 2^63 - 1.
fn summands_of_both(
    bank: &Bank,
    literals: &[TermId],
    p: u64,
    a: &[Summand],
    q: u64,
    b: &[Summand],
) -> Result<Option<Vec<Summand>>, AllocError>
    requires first { AllDraw bank.now literals.now a.now }
    requires second { AllDraw bank.now literals.now b.now }
    ensures { IfOk result (λ o. IfSome o (λ v. AllDraw bank.now literals.now v.items)) }
{
    let mut summands = Vec::new(bank.alloc());
    if !add_summands(bank, literals, &mut summands, p, a)? {
        return Ok(None);
    }
    if !add_summands(bank, literals, &mut summands, q, b)? {
        return Ok(None);
    }
    Ok(Some(summands))
}

/// The sum of two inequalities, each so many times; none where a number leaves the bounds or a factor passes 2^63 - 1.
pub fn combined(
    bank: &Bank,
    literals: &[TermId],
    p: u64,
    a: &Inequality,
    q: u64,
    b: &Inequality,
) -> Result<Option<Inequality>, AllocError>
    requires first { IsInequality bank.now literals.now a.now }
    requires second { IsInequality bank.now literals.now b.now }
    ensures { IfOk result (λ o. IfSome o (IsInequality bank.now literals.now)) }
{
    match sum_of_forms(bank, p, &a.form, q, &b.form)? {
        Some(form) => match summands_of_both(
            bank,
            literals,
            p,
            a.summands.as_slice(),
            q,
            b.summands.as_slice(),
        )? {
            Some(summands) => Ok(Some(Inequality { form, summands })),
            None => Ok(None),
        },
        None => Ok(None),
    }
}
