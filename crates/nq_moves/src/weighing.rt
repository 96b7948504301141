//! FERT: which equation of a goal is used, and where its one side takes the other's place.
//!
//! An equation serves whose one side is a call that stands in another literal. Best is one of which a side stands in an equation of
//! the goal, and best of these is one whose sides stand on different sides of it: with `(EQUAL (APP X NIL) X)` as a hypothesis, in
//! the conclusion `(EQUAL (REV (APP X NIL)) (REV X))`. There the one side takes the other's place on one side of the conclusion
//! alone, since that is what an induction needs.
ghost use Rattle.std.specs.Prelude.{◌≡◌, ◌<◌, ◌∷◌, ◌++◌, [], true, false, All, IfOk, Err, List, Some, length};
ghost use Rattle.nq_logic.specs.RuleShapes.{is_call};
ghost use Rattle.nq_logic.specs.Values.{is_value};
ghost use Rattle.nq_bank.specs.Content.{Content, Stands, term_at, terms_at};
ghost use Rattle.nq_proof.specs.Clauses.{without};
ghost use Rattle.nq_goals.specs.Equations.{both_orders, readings};
ghost use Rattle.nq_goals.specs.Fertilizing.{Fertilizing, from_readings, from_literals, fertilizings_of};
ghost use Rattle.nq_goals.specs.Replacing.{stands_in_one};
ghost use Rattle.nq_moves.specs.Fertilized.{ChoosesOne, ReadingStands, equation_read};
ghost use Rattle.nq_moves.specs.Found.{SidesStand, sides_at};

use crate::clauses::clause_without;
use crate::equations::{Sides, sides_of, sides_under};
use crate::readings::Reading;
use crate::standing::stands_in_these;
use nq_bank::{Bank, Node, TermId};
use nq_kernel::Stop;

/// An equation of a goal, and where its one side takes the other's place.
#[derive(Clone, Copy, Debug, PartialEq, Eq)]
pub struct Choice {
    /// The equation, in the order in which it is read.
    pub reading: Reading,
    /// Where its side stands in equations.
    pub standing: Standing,
    /// How good it is.
    pub weight: u64,
}

/// In how many equations of a goal a term stands, and on which side of one of them another term stands alone.
#[derive(Clone, Copy, Debug, PartialEq, Eq)]
pub struct Standing {
    /// The number of the equations.
    pub count: u64,
    /// The place of the last of them in the goal.
    pub place: usize,
    /// The side of it on which the one term stands and not the other, from 1; 0 where there is none.
    pub side: u64,
}

/// Does a term stand in one of these? It is no value.
pub fn stands_in_one_of(bank: &Bank, a: TermId, these: &[TermId]) -> Result<bool, Stop>
    requires first { Stands bank.now a }
    requires these { All (Stands bank.now) these.now }
    requires other { is_value (term_at bank.now a) ≡ false }
    ensures answer { IfOk result (λ answer. answer ≡ stands_in_one (term_at bank.now a) (terms_at bank.now these.now)) }
    ensures memory { result ≡ Err Stop.OutOfSteps → ⊥ }
{
    match stands_in_these(bank, a, these) {
        Ok(found) => Ok(found),
        Err(_) => Err(Stop::Memory),
    }
}

/// On which side of an equation the one term stands while the other stands on the other side; 0 where there is none.
fn crossed_side(bank: &Bank, from: TermId, into: TermId, sides: Sides) -> Result<u64, Stop>
    requires from { Stands bank.now from }
    requires into { Stands bank.now into }
    requires left { Stands bank.now sides.left }
    requires right { Stands bank.now sides.right }
    requires first { is_value (term_at bank.now from) ≡ false }
    ensures memory { result ≡ Err Stop.OutOfSteps → ⊥ }
{
    if bank.is_value(into) {
        return Ok(0);
    }
    let on_left = stands_in_one_of(bank, from, &[sides.left])?;
    let on_right = stands_in_one_of(bank, from, &[sides.right])?;
    if on_left && on_right {
        return Ok(0);
    }
    if on_left && stands_in_one_of(bank, into, &[sides.right])? {
        return Ok(1);
    }
    if on_right && stands_in_one_of(bank, into, &[sides.left])? {
        return Ok(2);
    }
    Ok(0)
}

/// What is known of where a term stands, with one more literal.
fn standing_with(
    bank: &Bank,
    goal: &[TermId],
    place: usize,
    from: TermId,
    into: TermId,
    before: Standing,
) -> Result<Standing, Stop>
    requires goal { All (Stands bank.now) goal.now }
    requires place { place < length goal.now }
    requires from { Stands bank.now from }
    requires into { Stands bank.now into }
    requires first { is_value (term_at bank.now from) ≡ false }
    ensures memory { result ≡ Err Stop.OutOfSteps → ⊥ }
{
    let t = goal[place];
    match sides_of(bank, t) {
        Some(sides) => {
            if stands_in_one_of(bank, from, &[t])? {
                let side = crossed_side(bank, from, into, sides)?;
                let count = before.count.saturating_add(1);
                Ok(Standing { count, place, side })
            } else {
                Ok(before)
            }
        }
        None => Ok(before),
    }
}

/// In which equations of a goal a term stands.
fn standing_in(bank: &Bank, goal: &[TermId], from: TermId, into: TermId) -> Result<Standing, Stop>
    requires goal { All (Stands bank.now) goal.now }
    requires from { Stands bank.now from }
    requires into { Stands bank.now into }
    requires first { is_value (term_at bank.now from) ≡ false }
    ensures memory { result ≡ Err Stop.OutOfSteps → ⊥ }
{
    let mut so_far = Standing {
        count: 0,
        place: 0,
        side: 0,
    };
    for place in 0..goal.len() {
        so_far = standing_with(bank, goal, place, from, into, so_far)?;
    }
    Ok(so_far)
}

/// How good an equation is: which of its sides is larger counts least.
fn weight_of(bank: &Bank, from: TermId, into: TermId, standing: Standing) -> u64
    requires from { Stands bank.now from }
    requires into { Stands bank.now into }
{
    let mut weight = 0;
    if standing.count > 0 {
        weight += 4;
    }
    if standing.count == 1 && standing.side > 0 {
        weight += 2;
    }
    if bank.size(from) > bank.size(into) {
        weight += 1;
    }
    weight
}

/// Is a term a call?
fn is_call(bank: &Bank, t: TermId) -> bool
    requires { Stands bank.now t }
    ensures { result ≡ is_call (term_at bank.now t) }
{
    match bank.node(t) {
        Node::App(_, _) => true,
        Node::Num(_) => true,
        Node::Var(_) => false,
    }
}

/// An equation with its weight.
fn weighed(bank: &Bank, goal: &[TermId], r: Reading) -> Result<Choice, Stop>
    requires goal { All (Stands bank.now) goal.now }
    requires stands { ReadingStands bank.now r }
    requires first { is_value (term_at bank.now r.from) ≡ false }
    ensures reading { IfOk result (λ choice. choice.reading ≡ r) }
    ensures memory { result ≡ Err Stop.OutOfSteps → ⊥ }
{
    let standing = standing_in(bank, goal, r.from, r.into)?;
    let weight = weight_of(bank, r.from, r.into, standing);
    Ok(Choice {
        reading: r,
        standing,
        weight,
    })
}

/// The choice of an equation that serves.
fn chosen(bank: &Bank, goal: &[TermId], r: Reading) -> Result<Option<Choice>, Stop>
    requires goal { All (Stands bank.now) goal.now }
    requires stands { ReadingStands bank.now r }
    requires called { is_call (term_at bank.now r.from) ≡ true }
    requires no_value { is_value (term_at bank.now r.from) ≡ false }
    requires inside { stands_in_one (term_at bank.now r.from) (without (term_at bank.now r.literal) (terms_at bank.now goal.now)) ≡ true }
    ensures choice { IfOk result (ChoosesOne bank.now (from_readings (terms_at bank.now goal.now) (term_at bank.now r.literal) (equation_read bank.now r ∷ []))) }
    ensures memory { result ≡ Err Stop.OutOfSteps → ⊥ }
{
    let choice = weighed(bank, goal, r)?;
    Ok(Some(choice))
}

/// The choice of a literal's equation read in one order, of which the one side is a call and no value, if it serves.
fn choice_of_call(bank: &Bank, goal: &[TermId], r: Reading) -> Result<Option<Choice>, Stop>
    requires goal { All (Stands bank.now) goal.now }
    requires stands { ReadingStands bank.now r }
    requires called { is_call (term_at bank.now r.from) ≡ true }
    requires no_value { is_value (term_at bank.now r.from) ≡ false }
    ensures choice { IfOk result (ChoosesOne bank.now (from_readings (terms_at bank.now goal.now) (term_at bank.now r.literal) (equation_read bank.now r ∷ []))) }
    ensures memory { result ≡ Err Stop.OutOfSteps → ⊥ }
{
    let others = clause_without(bank, r.literal, goal)?;
    let inside = stands_in_one_of(bank, r.from, others.as_slice())?;
    if inside {
        chosen(bank, goal, r)
    } else {
        Ok(None)
    }
}

/// The choice of a literal's equation read in one order, if it serves.
fn choice_of(bank: &Bank, goal: &[TermId], r: Reading) -> Result<Option<Choice>, Stop>
    requires goal { All (Stands bank.now) goal.now }
    requires stands { ReadingStands bank.now r }
    ensures choice { IfOk result (ChoosesOne bank.now (from_readings (terms_at bank.now goal.now) (term_at bank.now r.literal) (equation_read bank.now r ∷ []))) }
    ensures memory { result ≡ Err Stop.OutOfSteps → ⊥ }
{
    let called = is_call(bank, r.from);
    let value = bank.is_value(r.from);
    if called {
        if value {
            Ok(None)
        } else {
            choice_of_call(bank, goal, r)
        }
    } else {
        Ok(None)
    }
}

/// The one of more weight; of two of one weight, the second.
fn heavier(first: Option<Choice>, second: Option<Choice>) -> Option<Choice>
    ensures { (bank : Content) (xs ys : List Fertilizing) → ChoosesOne bank xs first → ChoosesOne bank ys second → ChoosesOne bank (xs ++ ys) result }
{
    match first {
        None => second,
        Some(a) => match second {
            None => first,
            Some(b) => { if a.weight > b.weight { first } else { second } }
        },
    }
}

/// The better choice of a literal's equation.
fn choice_of_sides(
    bank: &Bank,
    goal: &[TermId],
    literal: TermId,
    sides: Sides,
) -> Result<Option<Choice>, Stop>
    requires goal { All (Stands bank.now) goal.now }
    requires literal { Stands bank.now literal }
    requires sides { SidesStand bank.now sides }
    ensures choice { IfOk result (ChoosesOne bank.now (from_readings (terms_at bank.now goal.now) (term_at bank.now literal) (both_orders (Some (sides_at bank.now sides))))) }
    ensures memory { result ≡ Err Stop.OutOfSteps → ⊥ }
{
    let forwards = Reading {
        literal,
        from: sides.left,
        into: sides.right,
    };
    let backwards = Reading {
        literal,
        from: sides.right,
        into: sides.left,
    };
    let first = choice_of(bank, goal, forwards)?;
    let second = choice_of(bank, goal, backwards)?;
    Ok(heavier(first, second))
}

/// The better choice of a literal, if one serves.
fn choice_of_literal(bank: &Bank, goal: &[TermId], literal: TermId) -> Result<Option<Choice>, Stop>
    requires goal { All (Stands bank.now) goal.now }
    requires literal { Stands bank.now literal }
    ensures choice { IfOk result (ChoosesOne bank.now (from_readings (terms_at bank.now goal.now) (term_at bank.now literal) (readings (term_at bank.now literal)))) }
    ensures memory { result ≡ Err Stop.OutOfSteps → ⊥ }
{
    match sides_under(bank, literal) {
        Some(sides) => choice_of_sides(bank, goal, literal, sides),
        None => Ok(None),
    }
}

/// The best choice of some literals of a goal, if one serves.
fn choice_among(bank: &Bank, goal: &[TermId], literals: &[TermId]) -> Result<Option<Choice>, Stop>
    requires goal { All (Stands bank.now) goal.now }
    requires literals { All (Stands bank.now) literals.now }
    ensures choice { IfOk result (ChoosesOne bank.now (from_literals (terms_at bank.now goal.now) (terms_at bank.now literals.now))) }
    ensures memory { result ≡ Err Stop.OutOfSteps → ⊥ }
{
    match literals {
        [] => Ok(None),
        [first, rest @ ..] => {
            let here = choice_of_literal(bank, goal, *first)?;
            let later = choice_among(bank, goal, rest)?;
            Ok(heavier(here, later))
        }
    }
}

/// The best choice of a goal; none exactly where no equation serves.
pub fn choose_equation(bank: &Bank, goal: &[TermId]) -> Result<Option<Choice>, Stop>
    requires { All (Stands bank.now) goal.now }
    ensures choice { IfOk result (ChoosesOne bank.now (fertilizings_of (terms_at bank.now goal.now))) }
    ensures memory { result ≡ Err Stop.OutOfSteps → ⊥ }
{
    choice_among(bank, goal, goal)
}
