//! The sides of a call of two arguments.
ghost use Rattle.std.specs.Prelude.{◌<◌, IfSome};
ghost use Rattle.nq_bank.specs.GroundNames.{ground_count};
ghost use Rattle.nq_bank.specs.Soundness.{ground_text};
ghost use Rattle.nq_kernel.specs.Growing.{WorkStands};
ghost use Rattle.nq_lines.specs.Lines.{IsTermIn};
ghost use Rattle.nq_instances.specs.Parts.{AreSides};

use nq_bank::{Sym, TermId};
use nq_history::History;
use nq_kernel::Work;
use nq_lines::Sides;
use nq_rules::two_of;

/// The two arguments of a term that is a call of this ground function.
pub fn two_in(work: &Work, history: &History, known: Sym, t: TermId) -> Option<Sides>
    requires stands { WorkStands history.now work.now }
    requires known { known.0 < ground_count }
    requires term { IsTermIn history.now work.now t }
    ensures { IfSome result (AreSides history.now work.now (ground_text known) t) }
{
    match two_of(&work.bank, known, t) {
        Some((left, right)) => Some(Sides { left, right }),
        None => None,
    }
}
