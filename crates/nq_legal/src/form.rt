//! Of what form a goal is: false, in normal form, or neither.
ghost use Rattle.std.specs.Prelude.{◌≡◌, [], All, IfOk, true};
ghost use Rattle.nq_kernel.specs.Growing.{WorkGrows};
ghost use Rattle.nq_waterfall.specs.Ready.{CanMove, IsGoalIn};
ghost use Rattle.nq_waterfall.specs.Trails.{AncestorStands};
ghost use Rattle.nq_legal.specs.Forms.{IsForm, told_form};

use nq_bank::TermId;
use nq_ground_goals::is_false;
use nq_history::{Hints, History};
use nq_kernel::Work;
use nq_normal::is_normal;
use nq_waterfall::Ancestor;
use std::alloc::AllocError;

/// Of what form a goal is.
#[derive(Clone, Copy, Debug, PartialEq, Eq)]
pub enum Form {
    /// It has no literal or is ground with the value F, and may be left over for that.
    Falsity,
    /// It is in normal form, and not false.
    Normal,
    /// It is not in normal form.
    Other,
}

/// The form of a goal, by whether it is false, in normal form, and a first one.
fn told_form(falsity: bool, normal: bool, first: bool) -> Form
    ensures { result ≡ told_form falsity normal first }
{
    match (falsity, normal, first) {
        (true, true, _) => Form::Falsity,
        (true, false, true) => Form::Falsity,
        (true, false, false) => Form::Other,
        (false, true, _) => Form::Normal,
        (false, false, _) => Form::Other,
    }
}

/// Is no goal above?
fn is_first(path: &[Ancestor]) -> bool
    ensures { result ≡ true → path.now ≡ [] }
{
    match path {
        [] => true,
        [_, ..] => false,
    }
}

/// Of what form a goal is. No step is counted.
pub fn form_of(
    work: &mut Work,
    history: &History,
    hints: &Hints,
    path: &[Ancestor],
    goal: &[TermId],
) -> Result<Form, AllocError>
    requires ready { CanMove history.now hints.now work.old }
    requires path { All (AncestorStands work.old.bank) path.now }
    requires goal { IsGoalIn history.now work.old goal.now }
    ensures form { IfOk result (IsForm work.new.bank history.now hints.now path.now goal.now) }
    ensures grows { WorkGrows history.now work.old work.new }
{
    let falsity = is_false(work, history, goal)?;
    let normal = is_normal(&work.bank, history, hints, goal)?;
    Ok(told_form(falsity, normal, is_first(path)))
}
