//! The legal mover.
ghost use Rattle.std.specs.Prelude.{◌≡◌, All, IfOk, Err};
ghost use Rattle.nq_kernel.specs.Growing.{WorkGrows};
ghost use Rattle.nq_waterfall.specs.Ready.{CanMove, IsGoalIn, IsPathIn};
ghost use Rattle.nq_waterfall.specs.Trails.{AncestorStands};
ghost use Rattle.nq_waterfall.specs.Turns.{IsTurn};
ghost use Rattle.nq_legal.specs.Forms.{IsForm};
ghost use Rattle.nq_legal.specs.Leaving.{IsStuck};
ghost use Rattle.nq_legal.specs.Legal.{IsWay};
ghost use Rattle.nq_legal.specs.Turning.{turn_of};
ghost use Rattle.nq_legal.specs.declared.form.Form.TheVariants.{Normal};

use crate::closer::Closer;
use crate::closing::close_way;
use crate::form::{Form, form_of};
use crate::inducting::{Inductor, induct_hinted, induct_on};
use crate::leaving::{Left, left_over};
use crate::moving::move_on;
use crate::simplifying::{simplify, simplify_below};
use crate::way::Way;
use nq_bank::TermId;
use nq_history::{Hints, History};
use nq_kernel::{Cause, Stop, Work};
use nq_simplify::Rewriter;
use nq_waterfall::laws::holding;
use nq_waterfall::{Ancestor, Lead, Mover, Turn};

/// Moves goals by legal moves alone.
#[derive(Drop)]
pub struct Legal<C, R, I> {
    /// What closes goals that a move led to proved ones, where no way back is kept of the move.
    pub closer: C,
    /// What rewrites the literals of goals.
    pub rewriter: R,
    /// What finds inductions.
    pub inductor: I,
}

/// The goal is led on, where a lead is found.
fn turn_of(found: Option<Lead<Way>>) -> Turn<Way>
    ensures { result ≡ turn_of found }
{
    match found {
        Some(lead) => Turn::Led(lead),
        None => Turn::Unknown,
    }
}

/// Leads a goal on by an induction, or leaves it over, in which no move has a candidate.
fn lead_stuck<I: Inductor>(
    work: &mut Work,
    inductor: &mut I,
    history: &History,
    hints: &Hints,
    path: &[Ancestor],
    goal: &[TermId],
) -> Result<Turn<Way>, Stop>
    requires ready { CanMove history.now hints.now work.old }
    requires path { All (AncestorStands work.old.bank) path.now }
    requires goal { IsGoalIn history.now work.old goal.now }
    requires stuck { IsStuck work.old.bank history.now hints.now goal.now }
    ensures turn { IfOk result (IsTurn IsWay history.now hints.now work.new path.now goal.now) }
    ensures grows { WorkGrows history.now work.old work.new }
    ensures out { result ≡ Err Stop.OutOfSteps → work.new.counter.used ≡ work.new.counter.limit }
{
    match left_over(&work.bank, history, hints, path, goal) {
        Ok(Left::Over(cause)) => Ok(Turn::Spent(cause)),
        Ok(Left::ToInduction) => {
            let found = induct_on(work, inductor, history, hints, path, goal)?;
            Ok(turn_of(found))
        }
        Ok(Left::ToHint(call)) => {
            let found = induct_hinted(work, inductor, history, hints, path, goal, call)?;
            Ok(turn_of(found))
        }
        Ok(Left::Untold) => Ok(Turn::Unknown),
        Err(_) => Err(Stop::Memory),
    }
}

/// Leads a goal on that is in normal form and not false, by another move than SIMP.
fn lead_moved<I: Inductor>(
    work: &mut Work,
    inductor: &mut I,
    history: &History,
    hints: &Hints,
    path: &[Ancestor],
    goal: &[TermId],
) -> Result<Turn<Way>, Stop>
    requires ready { CanMove history.now hints.now work.old }
    requires path { All (AncestorStands work.old.bank) path.now }
    requires path_in { IsPathIn history.now work.old path.now }
    requires goal { IsGoalIn history.now work.old goal.now }
    requires form { IsForm work.old.bank history.now hints.now path.now goal.now Normal }
    ensures turn { IfOk result (IsTurn IsWay history.now hints.now work.new path.now goal.now) }
    ensures grows { WorkGrows history.now work.old work.new }
    ensures out { result ≡ Err Stop.OutOfSteps → work.new.counter.used ≡ work.new.counter.limit }
{
    holding();
    match move_on(work, history, hints, path, goal)? {
        Some(lead) => Ok(Turn::Led(lead)),
        None => lead_stuck(work, inductor, history, hints, path, goal),
    }
}

/// Leads a goal on that is in normal form and not false. One to which ELIM led is simplified first, where that changes it: else it
/// might be led to itself by ELIM again.
fn lead_normal<R: Rewriter, I: Inductor>(
    work: &mut Work,
    rewriter: &mut R,
    inductor: &mut I,
    history: &History,
    hints: &Hints,
    path: &[Ancestor],
    goal: &[TermId],
) -> Result<Turn<Way>, Stop>
    requires ready { CanMove history.now hints.now work.old }
    requires path { All (AncestorStands work.old.bank) path.now }
    requires path_in { IsPathIn history.now work.old path.now }
    requires goal { IsGoalIn history.now work.old goal.now }
    requires form { IsForm work.old.bank history.now hints.now path.now goal.now Normal }
    ensures turn { IfOk result (IsTurn IsWay history.now hints.now work.new path.now goal.now) }
    ensures grows { WorkGrows history.now work.old work.new }
    ensures out { result ≡ Err Stop.OutOfSteps → work.new.counter.used ≡ work.new.counter.limit }
{
    holding();
    match simplify_below(work, history, hints, rewriter, path, goal)? {
        Some(lead) => Ok(Turn::Led(lead)),
        None => lead_moved(work, inductor, history, hints, path, goal),
    }
}

/// Leads a goal on that is not in normal form.
fn lead_other<R: Rewriter>(
    work: &mut Work,
    rewriter: &mut R,
    history: &History,
    hints: &Hints,
    path: &[Ancestor],
    goal: &[TermId],
) -> Result<Turn<Way>, Stop>
    requires ready { CanMove history.now hints.now work.old }
    requires goal { IsGoalIn history.now work.old goal.now }
    ensures turn { IfOk result (IsTurn IsWay history.now hints.now work.new path.now goal.now) }
    ensures grows { WorkGrows history.now work.old work.new }
    ensures out { result ≡ Err Stop.OutOfSteps → work.new.counter.used ≡ work.new.counter.limit }
{
    let _ = path.len();
    let found = simplify(work, history, hints, rewriter, goal)?;
    Ok(turn_of(found))
}

impl<C: Closer, R: Rewriter, I: Inductor> Legal<C, R, I> {
    /// Leads a goal of this form on, or leaves it over.
    fn lead_by_form(
        &mut self,
        work: &mut Work,
        history: &History,
        hints: &Hints,
        path: &[Ancestor],
        goal: &[TermId],
        form: Form,
    ) -> Result<Turn<Way>, Stop>
        requires ready { CanMove history.now hints.now work.old }
        requires path { All (AncestorStands work.old.bank) path.now }
        requires path_in { IsPathIn history.now work.old path.now }
        requires goal { IsGoalIn history.now work.old goal.now }
        requires form { IsForm work.old.bank history.now hints.now path.now goal.now form }
        ensures turn { IfOk result (IsTurn IsWay history.now hints.now work.new path.now goal.now) }
        ensures grows { WorkGrows history.now work.old work.new }
        ensures out { result ≡ Err Stop.OutOfSteps → work.new.counter.used ≡ work.new.counter.limit }
    {
        match form {
            Form::Falsity => Ok(Turn::Spent(Cause::False)),
            Form::Normal => lead_normal(
                work,
                &mut self.rewriter,
                &mut self.inductor,
                history,
                hints,
                path,
                goal,
            ),
            Form::Other => lead_other(work, &mut self.rewriter, history, hints, path, goal),
        }
    }
}

impl<C: Closer, R: Rewriter, I: Inductor> Mover for Legal<C, R, I> {
    type Way = Way;

    ghost is_way = { IsWay };

    fn lead(
        &mut self,
        work: &mut Work,
        history: &History,
        hints: &Hints,
        path: &[Ancestor],
        goal: &[TermId],
    ) -> Result<Turn<Way>, Stop> {
        holding();
        match form_of(work, history, hints, path, goal) {
            Ok(form) => self.lead_by_form(work, history, hints, path, goal, form),
            Err(_) => Err(Stop::Memory),
        }
    }

    fn close(
        &mut self,
        work: &mut Work,
        history: &History,
        hints: &Hints,
        goal: &[TermId],
        lead: &Lead<Way>,
        lines: &[u64],
    ) -> Result<Option<u64>, Stop> {
        holding();
        match close_way(work, history, goal, lead.nexts.as_slice(), &lead.way, lines)? {
            Some(line) => Ok(Some(line)),
            None => self.closer.close(work, history, hints, goal),
        }
    }
}
