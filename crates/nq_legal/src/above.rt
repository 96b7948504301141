//! The goals above a goal: how many inductions the way down holds, and whether a goal to which induction was applied subsumes another.
ghost use Rattle.std.specs.Prelude.{◌≡◌, ◌≤◌, ◌↔◌, [], All, IfOk, IsTrue, length};
ghost use Rattle.std.specs.Vec.{vec_capacity};
ghost use Rattle.nq_bank.specs.Content.{Content, Stands, terms_at};
ghost use Rattle.nq_goals.specs.Moves.{IsSubsumed};
ghost use Rattle.nq_goals.specs.Paths.{inductions, is_induction};
ghost use Rattle.nq_waterfall.specs.Kinds.{goal_kind};
ghost use Rattle.nq_waterfall.specs.Trails.{above_at, AncestorStands};
ghost use Rattle.nq_legal.specs.Above.{SubsumesBy};

use nq_bank::{Bank, TermId};
use nq_clause::{Binding, subsumes};
use nq_kernel::MoveKind;
use nq_waterfall::Ancestor;
use std::alloc::AllocError;

/// Is it an induction?
fn is_induction(kind: MoveKind) -> bool
    ensures { result ≡ is_induction (goal_kind kind) }
{
    match kind {
        MoveKind::Ind => true,
        MoveKind::Simp => false,
        MoveKind::Subst => false,
        MoveKind::Elim => false,
        MoveKind::Fert => false,
        MoveKind::Gen => false,
        MoveKind::Irr => false,
    }
}

/// How many inductions the way down holds.
pub fn inductions(path: &[Ancestor]) -> usize
    ensures count { (bank : Content) → result ≡ inductions (above_at bank path.now) }
    ensures few { result ≤ length path.now }
{
    match path {
        [] => 0,
        [first, rest @ ..] => {
            let below = inductions(rest);
            if is_induction(first.kind) {
                below + 1
            } else {
                below
            }
        }
    }
}

/// Was induction applied to a goal that subsumes another?
fn subsumes_by(bank: &Bank, above: &Ancestor, goal: &[TermId], buf: &mut Vec<Binding>) -> bool
    requires above { AncestorStands bank.now above.now }
    requires goal { All (Stands bank.now) goal.now }
    requires empty { buf.old.items ≡ [] }
    requires room { length bank.now.names ≤ vec_capacity buf.old }
    ensures is { IsTrue result ↔ SubsumesBy bank.now above.now goal.now }
    ensures empty { buf.new.items ≡ [] }
    ensures room { vec_capacity buf.new ≡ vec_capacity buf.old }
{
    bank.is_sound();
    if is_induction(above.kind) {
        subsumes(bank, above.goal.as_slice(), goal, buf)
    } else {
        false
    }
}

/// The same of one of the goals above.
fn is_subsumed_within(
    bank: &Bank,
    path: &[Ancestor],
    goal: &[TermId],
    buf: &mut Vec<Binding>,
) -> bool
    requires path { All (AncestorStands bank.now) path.now }
    requires goal { All (Stands bank.now) goal.now }
    requires empty { buf.old.items ≡ [] }
    requires room { length bank.now.names ≤ vec_capacity buf.old }
    ensures { IsTrue result ↔ IsSubsumed (above_at bank.now path.now) (terms_at bank.now goal.now) }
{
    match path {
        [] => false,
        [first, rest @ ..] => {
            if subsumes_by(bank, first, goal, buf) {
                true
            } else {
                is_subsumed_within(bank, rest, goal, buf)
            }
        }
    }
}

/// Does a goal above, to which induction was applied, subsume the goal?
pub fn is_subsumed(bank: &Bank, path: &[Ancestor], goal: &[TermId]) -> Result<bool, AllocError>
    requires path { All (AncestorStands bank.now) path.now }
    requires goal { All (Stands bank.now) goal.now }
    ensures { IfOk result (λ b. IsTrue b ↔ IsSubsumed (above_at bank.now path.now) (terms_at bank.now goal.now)) }
{
    let count = bank.mark().names as usize;
    let mut buf = Vec::with_capacity(bank.alloc(), count)?;
    Ok(is_subsumed_within(bank, path, goal, &mut buf))
}
