//! Literals that are carried back to those in which one term took another's place.
ghost use Rattle.std.specs.Prelude.{◌≡◌, ◌<◌, ◌⊎◌, ◌∷◌, ◌++◌, [], ℕ, All, map, IfOk, OnOk, Err};
ghost use Rattle.nq_logic.specs.Terms.{Term, IsAmong};
ghost use Rattle.nq_logic.specs.Numerals.{numeral_limit};
ghost use Rattle.nq_logic.specs.Words.{equal_term, not_term, numeral};
ghost use Rattle.nq_bank.specs.Content.{Stands, IsIdOf, term_at, terms_at};
ghost use Rattle.nq_proof.specs.Clauses.{without};
ghost use Rattle.nq_kernel.specs.Growing.{WorkStands, WorkGrows, LineStands};
ghost use Rattle.nq_lines.specs.Lines.{IsTermIn, LineHasOnly};
ghost use Rattle.nq_goals.specs.Replacing.{exchanged};
ghost use Rattle.nq_moves.specs.Found.{SidesStand};
ghost use Rattle.nq_moves.specs.Equal.{SwapStands, HasEquals};
ghost use Rattle.nq_moves.specs.Back.{Denies, AreSides, BackTo, IsBack, AreBack};

use crate::clauses::{clause_without, is_same};
use crate::equal::{Swap, equal_within};
use crate::equations::{Sides, sides_under};
use nq_bank::{Bank, TermId};
use nq_history::History;
use nq_kernel::{Stop, Work};
use nq_lines::{Equated, deny, equate, opposites, rewrite_literal, symmetric};
use nq_rule::Side;
use std::collections::HashMap;

/// Adds a line with l for the literal that l equals.
pub fn back_to(
    work: &mut Work,
    history: &History,
    l: TermId,
    e: Equated,
    line: u64,
) -> Result<u64, Stop>
    requires stands { WorkStands history.now work.old }
    requires literal { IsTermIn history.now work.old l }
    requires term { IsTermIn history.now work.old e.term }
    requires line { LineStands work.old line }
    requires equation { LineStands work.old e.line }
    ensures line { IfOk result (λ n. BackTo work.old work.new l e line n) }
    ensures stands { IfOk result (λ n. LineStands work.new n) }
    ensures grows { WorkGrows history.now work.old work.new }
    ensures out { result ≡ Err Stop.OutOfSteps → work.new.counter.used ≡ work.new.counter.limit }
{
    if is_same(&work.bank, l, e.term) {
        Ok(line)
    } else {
        rewrite_literal(work, history, Side::Backwards, e.term, l, line, e.line)
    }
}

/// Adds a line with l for l in which one term took the other's place.
fn rewrite_one(
    work: &mut Work,
    history: &History,
    known: &mut HashMap<u64, Equated>,
    swap: Swap,
    l: TermId,
    line: u64,
) -> Result<u64, Stop>
    requires stands { WorkStands history.now work.old }
    requires swap { SwapStands history.now work.old swap }
    requires literal { IsTermIn history.now work.old l }
    requires line { LineStands work.old line }
    requires known { HasEquals history.now work.old swap known.old }
    ensures line { IfOk result (λ n. IsBack work.old work.new swap l line n) }
    ensures stands { IfOk result (λ n. LineStands work.new n) }
    ensures known { OnOk result (HasEquals history.now work.new swap known.new) }
    ensures grows { WorkGrows history.now work.old work.new }
    ensures out { result ≡ Err Stop.OutOfSteps → work.new.counter.used ≡ work.new.counter.limit }
{
    let e = equal_within(work, history, known, swap, l)?;
    back_to(work, history, l, e, line)
}

/// Adds a line with literals for those in which one term took the other's place.
pub fn rewrite_back(
    work: &mut Work,
    history: &History,
    swap: Swap,
    literals: &[TermId],
    line: u64,
) -> Result<u64, Stop>
    requires stands { WorkStands history.now work.old }
    requires swap { SwapStands history.now work.old swap }
    requires literals { All (IsTermIn history.now work.old) literals.now }
    requires line { LineStands work.old line }
    ensures line { IfOk result (λ n. AreBack work.old work.new swap literals.now line n) }
    ensures grows { WorkGrows history.now work.old work.new }
    ensures out { result ≡ Err Stop.OutOfSteps → work.new.counter.used ≡ work.new.counter.limit }
{
    let alloc = work.bank.alloc();
    let mut known = HashMap::new(alloc);
    let mut last = line;
    for l in literals {
        last = rewrite_one(work, history, &mut known, swap, *l, last)?;
    }
    Ok(last)
}

/// Adds the line of `(EQUAL a b)` and the NOT of `(EQUAL b a)`.
fn turned_line(work: &mut Work, history: &History, a: TermId, b: TermId) -> Result<u64, Stop>
    requires stands { WorkStands history.now work.old }
    requires left { IsTermIn history.now work.old a }
    requires right { IsTermIn history.now work.old b }
    ensures line { IfOk result (λ n. LineHasOnly work.new n (equal_term (term_at work.old.bank a) (term_at work.old.bank b) ∷ not_term (equal_term (term_at work.old.bank b) (term_at work.old.bank a)) ∷ [])) }
    ensures grows { WorkGrows history.now work.old work.new }
    ensures out { result ≡ Err Stop.OutOfSteps → work.new.counter.used ≡ work.new.counter.limit }
{
    let other = equate(work, history, b, a)?;
    let line = opposites(work, history, other)?;
    symmetric(work, history, b, a, line)
}

/// Adds the line of `(EQUAL a b)` and the literal that denies it, in either order.
fn equation_line(
    work: &mut Work,
    history: &History,
    literal: TermId,
    a: TermId,
    b: TermId,
) -> Result<u64, Stop>
    requires stands { WorkStands history.now work.old }
    requires literal { Stands work.old.bank literal }
    requires left { IsTermIn history.now work.old a }
    requires right { IsTermIn history.now work.old b }
    requires denies { Denies (term_at work.old.bank literal) (term_at work.old.bank a) (term_at work.old.bank b) }
    ensures line { IfOk result (λ n. LineHasOnly work.new n (equal_term (term_at work.old.bank a) (term_at work.old.bank b) ∷ term_at work.old.bank literal ∷ [])) }
    ensures grows { WorkGrows history.now work.old work.new }
    ensures out { result ≡ Err Stop.OutOfSteps → work.new.counter.used ≡ work.new.counter.limit }
{
    let equation = equate(work, history, a, b)?;
    let denied = deny(work, history, equation)?;
    if is_same(&work.bank, denied, literal) {
        opposites(work, history, equation)
    } else {
        turned_line(work, history, a, b)
    }
}

/// What the equation allows that a literal denies: one side in place of the other.
pub fn swap_by(
    work: &mut Work,
    history: &History,
    literal: TermId,
    from: TermId,
    into: TermId,
) -> Result<Swap, Stop>
    requires stands { WorkStands history.now work.old }
    requires literal { Stands work.old.bank literal }
    requires left { IsTermIn history.now work.old from }
    requires right { IsTermIn history.now work.old into }
    requires denies { Denies (term_at work.old.bank literal) (term_at work.old.bank from) (term_at work.old.bank into) }
    requires numerals { (n : ℕ) → n < numeral_limit → exchanged ((term_at work.old.bank from, term_at work.old.bank into) ∷ []) (numeral n) ≡ numeral n }
    ensures swap { IfOk result (λ w. SwapStands history.now work.new w) }
    ensures from { IfOk result (λ w. w.from ≡ from) }
    ensures into { IfOk result (λ w. w.into ≡ into) }
    ensures hypothesis { IfOk result (λ w. w.hypothesis ≡ literal) }
    ensures grows { WorkGrows history.now work.old work.new }
    ensures out { result ≡ Err Stop.OutOfSteps → work.new.counter.used ≡ work.new.counter.limit }
{
    let line = equation_line(work, history, literal, from, into)?;
    Ok(Swap {
        from,
        into,
        hypothesis: literal,
        line,
    })
}

/// The side of an equation that is not the one.
fn side_other_than(bank: &Bank, sides: Sides, one: TermId) -> TermId
    requires sides { SidesStand bank.now sides }
    requires one { Stands bank.now one }
    ensures { (other : Term) → AreSides (term_at bank.now sides.left) (term_at bank.now sides.right) other (term_at bank.now one) → IsIdOf bank.now result other }
{
    if is_same(bank, sides.right, one) {
        sides.left
    } else {
        sides.right
    }
}

/// What a literal says that the one does not equal.
pub fn other_side(bank: &Bank, literal: TermId, one: TermId) -> TermId
    requires literal { Stands bank.now literal }
    requires one { Stands bank.now one }
    ensures { (other : Term) → Denies (term_at bank.now literal) other (term_at bank.now one) → IsIdOf bank.now result other }
{
    match sides_under(bank, literal) {
        Some(sides) => side_other_than(bank, sides, one),
        None => literal,
    }
}

/// Adds the line of a goal, from that of the goal without a literal that denies an equation, and with one side of it in place
/// of the other.
pub fn close_exchanged(
    work: &mut Work,
    history: &History,
    goal: &[TermId],
    literal: TermId,
    from: TermId,
    into: TermId,
    line: u64,
) -> Result<u64, Stop>
    requires stands { WorkStands history.now work.old }
    requires goal { All (IsTermIn history.now work.old) goal.now }
    requires literal { Stands work.old.bank literal }
    requires among { IsAmong (term_at work.old.bank literal) (terms_at work.old.bank goal.now) }
    requires left { IsTermIn history.now work.old from }
    requires right { IsTermIn history.now work.old into }
    requires denies { Denies (term_at work.old.bank literal) (term_at work.old.bank from) (term_at work.old.bank into) }
    requires numerals { (n : ℕ) → n < numeral_limit → exchanged ((term_at work.old.bank from, term_at work.old.bank into) ∷ []) (numeral n) ≡ numeral n }
    requires line { LineHasOnly work.old line (map (exchanged ((term_at work.old.bank from, term_at work.old.bank into) ∷ [])) (without (term_at work.old.bank literal) (terms_at work.old.bank goal.now)) ++ terms_at work.old.bank goal.now) }
    ensures line { IfOk result (λ n. LineHasOnly work.new n (terms_at work.old.bank goal.now)) }
    ensures grows { WorkGrows history.now work.old work.new }
    ensures out { result ≡ Err Stop.OutOfSteps → work.new.counter.used ≡ work.new.counter.limit }
{
    let rest = clause_without(&work.bank, literal, goal)?;
    let swap = swap_by(work, history, literal, from, into)?;
    rewrite_back(work, history, swap, rest.as_slice(), line)
}
