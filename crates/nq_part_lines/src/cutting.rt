//! Cuts by the call of a ground function of two terms.
ghost use Rattle.std.specs.Prelude.{◌<◌, ◌∷◌, [], IfOk};
ghost use Rattle.nq_logic.specs.Terms.{IsAmong, call};
ghost use Rattle.nq_logic.specs.Ground.{symbols_of};
ghost use Rattle.nq_bank.specs.Content.{term_at};
ghost use Rattle.nq_bank.specs.GroundNames.{ground_count};
ghost use Rattle.nq_bank.specs.Soundness.{ground_text};
ghost use Rattle.nq_history.specs.Events.{events_at};
ghost use Rattle.nq_kernel.specs.Growing.{WorkStands, LineStands};
ghost use Rattle.nq_lines.specs.Lines.{CutsTo};
ghost use Rattle.nq_replay.specs.Uncounted.{GrowsUncounted};
ghost use Rattle.nq_part_lines.specs.Small.{IsSmallIn};

use crate::lines::cut;
use crate::terms::ground_call;
use nq_bank::{Sym, TermId};
use nq_history::History;
use nq_kernel::Work;
use std::alloc::AllocError;

/// Adds the line that is cut from two by the call of a ground function of two terms: the first without the call, and the second
/// without its NOT.
pub fn cut_by(
    work: &mut Work,
    history: &History,
    a: u64,
    b: u64,
    f: Sym,
    t: TermId,
    u: TermId,
) -> Result<u64, AllocError>
    requires stands { WorkStands history.now work.old }
    requires first { LineStands work.old a }
    requires second { LineStands work.old b }
    requires ground { f.0 < ground_count }
    requires symbol { IsAmong (ground_text f, 2) (symbols_of (events_at work.old.bank history.now)) }
    requires left { IsSmallIn history.now work.old t }
    requires right { IsSmallIn history.now work.old u }
    ensures line { IfOk result (λ n. CutsTo work.old work.new (call (ground_text f) (term_at work.old.bank t ∷ term_at work.old.bank u ∷ [])) a b n) }
    ensures stands { IfOk result (λ n. LineStands work.new n) }
    ensures grows { GrowsUncounted history.now work.old work.new }
{
    let literal = ground_call(work, history, f, &[t, u])?;
    cut(work, history, a, b, literal)
}
