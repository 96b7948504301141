//! Replacements in the first literal of a line.
ghost use Rattle.std.specs.Prelude.{◌∷◌, [], IfOk};
ghost use Rattle.nq_logic.specs.Words.{not_term};
ghost use Rattle.nq_bank.specs.Content.{term_at};
ghost use Rattle.nq_kernel.specs.Growing.{WorkStands};
ghost use Rattle.nq_lines.specs.Lines.{CanReplace, IsTermIn, LineLeads, ReplacesTo};
ghost use Rattle.nq_replay.specs.Uncounted.{GrowsUncounted};
ghost use Rattle.nq_rule.specs.Sides.{side_of};
ghost use Rattle.nq_part_lines.specs.Replacing.{IsLowChange};
ghost use Rattle.nq_part_lines.specs.Small.{IsSmallIn};

use crate::terms::ground_call;
use nq_bank::{TermId, ground};
use nq_history::History;
use nq_kernel::{Rule, Work};
use nq_replay::add_line;
use nq_rule::Side;
use std::alloc::AllocError;

/// Adds a line with u at a path of its first literal, and with the equation of what stood there and u as a hypothesis, where neither is
/// too deep.
pub fn replace(
    work: &mut Work,
    history: &History,
    line: u64,
    path: &[u64],
    u: TermId,
    side: Side,
) -> Result<u64, AllocError>
    requires stands { WorkStands history.now work.old }
    requires term { IsTermIn history.now work.old u }
    requires can { CanReplace work.old line path.now (term_at work.old.bank u) }
    requires low { IsLowChange work.old line path.now (term_at work.old.bank u) }
    ensures line { IfOk result (λ n. ReplacesTo work.old work.new line path.now (term_at work.old.bank u) (side_of side) n) }
    ensures grows { GrowsUncounted history.now work.old work.new }
{
    work.bank.is_sound();
    let places = Vec::from_slice(work.bank.alloc(), path)?;
    add_line(work, history, Rule::Replace(line, 1, places, u, side))
}

/// Adds the line of t and its NOT, t first.
pub fn opposites(work: &mut Work, history: &History, t: TermId) -> Result<u64, AllocError>
    requires stands { WorkStands history.now work.old }
    requires term { IsSmallIn history.now work.old t }
    ensures line { IfOk result (λ n. LineLeads work.new n (term_at work.old.bank t) (not_term (term_at work.old.bank t) ∷ [])) }
    ensures grows { GrowsUncounted history.now work.old work.new }
{
    let denied = ground_call(work, history, ground::NOT, &[t])?;
    let terms = vec![in work.bank.alloc(); t, denied]?;
    add_line(work, history, Rule::Taut(terms))
}
