//! A summand is less than one more than the sum.
ghost use Rattle.std.specs.Prelude.{◌<◌, ◌≤◌, ◌-◌, ◌∷◌, [], IfOk};
ghost use Rattle.nq_logic.specs.Words.{add1_term, call2, not_term};
ghost use Rattle.nq_logic.specs.Sizes.{depth_of};
ghost use Rattle.nq_bank.specs.Content.{term_at};
ghost use Rattle.nq_kernel.specs.Growing.{WorkStands};
ghost use Rattle.nq_lines.specs.Lines.{IsTermIn, LineHasOnly};
ghost use Rattle.nq_replay.specs.Uncounted.{GrowsUncounted};
ghost use Rattle.nq_part_lines.specs.LawLines.{term_room};
ghost use Rattle.nq_part_lines.specs.Small.{IsSmallIn};
ghost use Rattle.nq_shell_parts.specs.Summands.{IsSum, right_of, summand_clause};

use crate::lines::{at_three, cut};
use crate::reading::{small_argument, summand_at};
use crate::terms::less_than_more;
use nq_bank::TermId;
use nq_history::History;
use nq_kernel::Work;
use nq_replay::less_than_one_more;
use nq_shell_parts::{less_than_longer_sum, less_than_sum};
use std::alloc::AllocError;

/// Adds the line that a term is less than one more than itself.
fn only_line(work: &mut Work, history: &History, t: TermId) -> Result<u64, AllocError>
    requires stands { WorkStands history.now work.old }
    requires term { IsTermIn history.now work.old t }
    requires room { depth_of (term_at work.old.bank t) ≤ term_room }
    ensures line { IfOk result (λ n. LineHasOnly work.new n (call2 "LESSP" (term_at work.old.bank t) (add1_term (term_at work.old.bank t)) ∷ [])) }
    ensures grows { GrowsUncounted history.now work.old work.new }
{
    let law = less_than_one_more(work, history)?;
    at_three(work, history, law, t, t, t)
}

/// Adds the line that a term is less than one more than its sum with another.
fn first_line(
    work: &mut Work,
    history: &History,
    t: TermId,
    rest: TermId,
) -> Result<u64, AllocError>
    requires stands { WorkStands history.now work.old }
    requires first { IsTermIn history.now work.old t }
    requires second { IsTermIn history.now work.old rest }
    requires first_room { depth_of (term_at work.old.bank t) ≤ term_room }
    requires second_room { depth_of (term_at work.old.bank rest) ≤ term_room }
    ensures line { IfOk result (λ n. LineHasOnly work.new n (call2 "LESSP" (term_at work.old.bank t) (add1_term (call2 "PLUS" (term_at work.old.bank t) (term_at work.old.bank rest))) ∷ [])) }
    ensures grows { GrowsUncounted history.now work.old work.new }
{
    let law = less_than_sum(work, history)?;
    at_three(work, history, law, t, rest, rest)
}

/// Adds the law of longer sums at three terms.
fn longer_at(
    work: &mut Work,
    history: &History,
    t: TermId,
    first: TermId,
    rest: TermId,
) -> Result<u64, AllocError>
    requires stands { WorkStands history.now work.old }
    requires term { IsTermIn history.now work.old t }
    requires first { IsTermIn history.now work.old first }
    requires rest { IsTermIn history.now work.old rest }
    requires room { depth_of (term_at work.old.bank t) ≤ term_room }
    requires first_room { depth_of (term_at work.old.bank first) ≤ term_room }
    requires rest_room { depth_of (term_at work.old.bank rest) ≤ term_room }
    ensures line { IfOk result (λ n. LineHasOnly work.new n (call2 "LESSP" (term_at work.old.bank t) (add1_term (call2 "PLUS" (term_at work.old.bank first) (term_at work.old.bank rest))) ∷ not_term (call2 "LESSP" (term_at work.old.bank t) (add1_term (term_at work.old.bank rest))) ∷ [])) }
    ensures grows { GrowsUncounted history.now work.old work.new }
{
    let law = less_than_longer_sum(work, history)?;
    at_three(work, history, law, t, first, rest)
}

/// Adds the line that a term is less than one more than a sum, from a line that it is less than one more than the second summand.
fn longer_line(
    work: &mut Work,
    history: &History,
    t: TermId,
    first: TermId,
    rest: TermId,
    inner: u64,
) -> Result<u64, AllocError>
    requires stands { WorkStands history.now work.old }
    requires term { IsTermIn history.now work.old t }
    requires first { IsTermIn history.now work.old first }
    requires rest { IsTermIn history.now work.old rest }
    requires room { depth_of (term_at work.old.bank t) ≤ term_room }
    requires first_room { depth_of (term_at work.old.bank first) ≤ term_room }
    requires rest_room { depth_of (term_at work.old.bank rest) ≤ term_room }
    requires inner { LineHasOnly work.old inner (call2 "LESSP" (term_at work.old.bank t) (add1_term (term_at work.old.bank rest)) ∷ []) }
    ensures line { IfOk result (λ n. LineHasOnly work.new n (call2 "LESSP" (term_at work.old.bank t) (add1_term (call2 "PLUS" (term_at work.old.bank first) (term_at work.old.bank rest))) ∷ [])) }
    ensures grows { GrowsUncounted history.now work.old work.new }
{
    let here = longer_at(work, history, t, first, rest)?;
    let less = less_than_more(work, history, t, rest)?;
    cut(work, history, inner, here, less)
}

/// Adds the line that a summand is less than one more than the sum, where it stands behind others, from the same of the sum without
/// its first summand.
fn later_line(
    work: &mut Work,
    history: &History,
    sum: TermId,
    place: usize,
    more: usize,
    inner: u64,
) -> Result<u64, AllocError>
    requires stands { WorkStands history.now work.old }
    requires term { IsSmallIn history.now work.old sum }
    requires later { 0 < place }
    requires sum { IsSum place more (term_at work.old.bank sum) }
    requires inner { LineHasOnly work.old inner (summand_clause (place - 1) more (right_of (term_at work.old.bank sum))) }
    ensures line { IfOk result (λ n. LineHasOnly work.new n (summand_clause place more (term_at work.old.bank sum))) }
    ensures grows { GrowsUncounted history.now work.old work.new }
{
    let t = summand_at(work, history, sum, place, more);
    let first = small_argument(work, history, sum, 1);
    let rest = small_argument(work, history, sum, 2);
    longer_line(work, history, t, first, rest, inner)
}

/// Adds the line that a summand is less than one more than the sum. So many stand before it, and so many behind it.
pub fn summand_line(
    work: &mut Work,
    history: &History,
    sum: TermId,
    place: usize,
    more: usize,
) -> Result<u64, AllocError>
    requires stands { WorkStands history.now work.old }
    requires term { IsSmallIn history.now work.old sum }
    requires sum { IsSum place more (term_at work.old.bank sum) }
    ensures line { IfOk result (λ n. LineHasOnly work.new n (summand_clause place more (term_at work.old.bank sum))) }
    ensures grows { GrowsUncounted history.now work.old work.new }
{
    if place > 0 {
        let rest = small_argument(work, history, sum, 2);
        let inner = summand_line(work, history, rest, place - 1, more)?;
        return later_line(work, history, sum, place, more, inner);
    }
    if more > 0 {
        let first = small_argument(work, history, sum, 1);
        let rest = small_argument(work, history, sum, 2);
        first_line(work, history, first, rest)
    } else {
        only_line(work, history, sum)
    }
}
