//! How the line of a goal follows from that of a goal in which one side of an equation took the other's place.
ghost use Rattle.std.specs.Prelude.{◌≡◌, All, IfOk, IsSome, Err, Some};
ghost use Rattle.nq_bank.specs.Content.{term_at, terms_at};
ghost use Rattle.nq_bank.specs.Parts.{parts_of};
ghost use Rattle.nq_proof.specs.Clauses.{literal_at};
ghost use Rattle.nq_kernel.specs.Growing.{WorkStands, WorkGrows, LineStands};
ghost use Rattle.nq_lines.specs.Lines.{IsTermIn, LineHasOnly};
ghost use Rattle.nq_moves.specs.Dropped.{HoldChildren};
ghost use Rattle.nq_moves.specs.Equal.{SwapStands};
ghost use Rattle.nq_moves.specs.Found.{goals_at};
ghost use Rattle.nq_moves.specs.Swapped.{CrossesBack, HasSwapped, IsSwapped};

use crate::back::{back_to, close_exchanged, swap_by};
use crate::equal::{Swap, equal_within};
use crate::moved::{Crossing, Moved};
use crate::readings::Reading;
use nq_bank::TermId;
use nq_history::History;
use nq_kernel::{Stop, Work};
use nq_lines::{argument_at, congruent};
use std::collections::HashMap;

/// Adds a line with a call for the call with one term in the other's place in one argument.
fn cross_back(
    work: &mut Work,
    history: &History,
    swap: Swap,
    x: Crossing,
    line: u64,
) -> Result<u64, Stop>
    requires stands { WorkStands history.now work.old }
    requires swap { SwapStands history.now work.old swap }
    requires whole { IsTermIn history.now work.old x.whole }
    requires place { IsSome (literal_at x.place (parts_of (term_at work.old.bank x.whole))) }
    requires line { LineStands work.old line }
    ensures line { IfOk result (λ n. CrossesBack work.old work.new swap x.place x.whole line n) }
    ensures grows { WorkGrows history.now work.old work.new }
    ensures out { result ≡ Err Stop.OutOfSteps → work.new.counter.used ≡ work.new.counter.limit }
{
    let mut known = HashMap::new(work.bank.alloc());
    let part = argument_at(&work.bank, x.whole, x.place);
    let e = equal_within(work, history, &mut known, swap, part)?;
    let call = congruent(work, history, x.whole, x.place, e.term, e.line)?;
    back_to(work, history, x.whole, call, line)
}

/// Adds the line of a goal, from that of a child that has a crossing.
fn close_crossed(
    work: &mut Work,
    history: &History,
    goal: &[TermId],
    r: Reading,
    x: Crossing,
    line: u64,
) -> Result<u64, Stop>
    requires stands { WorkStands history.now work.old }
    requires goal { All (IsTermIn history.now work.old) goal.now }
    requires swapped { HasSwapped history.now work.old goal.now r (Some x) line }
    ensures line { IfOk result (λ n. LineHasOnly work.new n (terms_at work.old.bank goal.now)) }
    ensures grows { WorkGrows history.now work.old work.new }
    ensures out { result ≡ Err Stop.OutOfSteps → work.new.counter.used ≡ work.new.counter.limit }
{
    let swap = swap_by(work, history, r.literal, r.from, r.into)?;
    let next = cross_back(work, history, swap, x, line)?;
    close_exchanged(work, history, goal, r.literal, r.from, r.into, next)
}

/// Adds the line of a goal, from that of its child.
fn close_reading(
    work: &mut Work,
    history: &History,
    goal: &[TermId],
    r: Reading,
    crossing: Option<Crossing>,
    line: u64,
) -> Result<u64, Stop>
    requires stands { WorkStands history.now work.old }
    requires goal { All (IsTermIn history.now work.old) goal.now }
    requires swapped { HasSwapped history.now work.old goal.now r crossing line }
    ensures line { IfOk result (λ n. LineHasOnly work.new n (terms_at work.old.bank goal.now)) }
    ensures grows { WorkGrows history.now work.old work.new }
    ensures out { result ≡ Err Stop.OutOfSteps → work.new.counter.used ≡ work.new.counter.limit }
{
    match crossing {
        None => close_exchanged(work, history, goal, r.literal, r.from, r.into, line),
        Some(x) => close_crossed(work, history, goal, r, x, line),
    }
}

/// Adds the line of a goal, from that of the one child of FERT.
pub fn close_swapped(
    work: &mut Work,
    history: &History,
    goal: &[TermId],
    moved: &Moved,
    lines: &[u64],
) -> Result<u64, Stop>
    requires stands { WorkStands history.now work.old }
    requires goal { All (IsTermIn history.now work.old) goal.now }
    requires moved { IsSwapped history.now work.old goal.now moved.now }
    requires lines { HoldChildren work.old (goals_at work.old.bank moved.now.children.items) lines.now }
    ensures line { IfOk result (λ n. LineHasOnly work.new n (terms_at work.old.bank goal.now)) }
    ensures grows { WorkGrows history.now work.old work.new }
    ensures out { result ≡ Err Stop.OutOfSteps → work.new.counter.used ≡ work.new.counter.limit }
{
    let literal = moved.why.literals[0];
    let from = moved.why.literals[1];
    let into = moved.why.literals[2];
    let r = Reading {
        literal,
        from,
        into,
    };
    close_reading(work, history, goal, r, moved.why.crossing, lines[0])
}
