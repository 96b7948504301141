//! A mover that is asked for the trace of a proof: only so long, and of no goal of which a few trials find a counterexample, since no
//! proof uses one.
ghost use Rattle.std.specs.Prelude.{◌≡◌, Err};

use nq_bank::{Bank, TermId};
use nq_counterexamples::is_one_refuted_soon;
use nq_history::{Hints, History};
use nq_kernel::{MoveKind, Stop, Work};
use nq_waterfall::{Ancestor, Lead, Mover, Turn};

/// Does a turn lead to a goal of which a few trials find a counterexample?
fn leads_astray<W>(bank: &Bank, history: &History, turn: &Turn<W>) -> Result<bool, Stop>
    ensures { result ≡ Err Stop.OutOfSteps → ⊥ }
{
    match turn {
        Turn::Led(lead) => match is_one_refuted_soon(bank, history, lead.nexts.as_slice()) {
            Ok(refuted) => Ok(refuted),
            Err(_) => Err(Stop::Memory),
        },
        Turn::Closed(_) => Ok(false),
        Turn::Spent(_) => Ok(false),
        Turn::Unknown => Ok(false),
    }
}

/// Does an induction stand in a path?
fn has_induction(path: &[Ancestor]) -> bool {
    for above in path {
        if let MoveKind::Ind = above.kind {
            return true;
        }
    }
    false
}

/// Moves goals until so many steps are used, fewer of goals to which an induction led, and tells nothing of goals after that, nor
/// where a move leads to a goal of which a few trials find a counterexample.
#[derive(Drop)]
pub struct Bounded<M> {
    /// What moves goals.
    pub mover: M,
    /// The count of steps from which on nothing is told.
    pub until: u64,
    /// The same, of the goals to which an induction led.
    pub inducted_until: u64,
}

impl<M> Bounded<M> {
    /// The count of steps from which on nothing is told of the goals below a path.
    fn bound_below(&self, path: &[Ancestor]) -> u64 {
        if has_induction(path) {
            self.inducted_until
        } else {
            self.until
        }
    }
}

impl<M: Mover> Mover for Bounded<M> {
    type Way = M::Way;

    ghost is_way = { M.is_way };

    fn lead(
        &mut self,
        work: &mut Work,
        history: &History,
        hints: &Hints,
        path: &[Ancestor],
        goal: &[TermId],
    ) -> Result<Turn<M::Way>, Stop> {
        if work.counter.used() >= self.bound_below(path) {
            return Ok(Turn::Unknown);
        }
        let turn = self.mover.lead(work, history, hints, path, goal)?;
        if leads_astray(&work.bank, history, &turn)? {
            Ok(Turn::Unknown)
        } else {
            Ok(turn)
        }
    }

    fn close(
        &mut self,
        work: &mut Work,
        history: &History,
        hints: &Hints,
        goal: &[TermId],
        lead: &Lead<M::Way>,
        lines: &[u64],
    ) -> Result<Option<u64>, Stop> {
        self.mover.close(work, history, hints, goal, lead, lines)
    }
}
