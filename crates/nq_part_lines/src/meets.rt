//! That T, or F, meets the restriction of a part of which it is the default.
ghost use Rattle.std.specs.Prelude.{◌≡◌, ◌≤◌, ◌∷◌, [], IfOk, false, length};
ghost use Rattle.nq_logic.specs.ShellPrinciple.{listed};
ghost use Rattle.nq_logic.specs.Shells.{restricted};
ghost use Rattle.nq_logic.specs.Sizes.{depth_of};
ghost use Rattle.nq_logic.specs.Words.{not_term};
ghost use Rattle.nq_bank.specs.Content.{IsIdOf, term_at};
ghost use Rattle.nq_bank.specs.Shells.{PartStands, part_at};
ghost use Rattle.nq_history.specs.Events.{events_at};
ghost use Rattle.nq_kernel.specs.Growing.{WorkStands};
ghost use Rattle.nq_kernel.specs.Ready.{recognizer_limit};
ghost use Rattle.nq_lines.specs.Lines.{LineHasOnly};
ghost use Rattle.nq_replay.specs.Uncounted.{GrowsUncounted};
ghost use Rattle.nq_part_lines.specs.Defaults.{HasTruthDefault, is_free, truth_term};
ghost use Rattle.nq_part_lines.specs.Known.{HasKnownRows};
ghost use Rattle.nq_part_lines.specs.LawLines.{term_room};
ghost use Rattle.nq_part_lines.specs.Small.{IsSmallIn};

use crate::choices::one_of_kinds;
use crate::terms::ground_call;
use nq_bank::{Part, TermId, ground};
use nq_history::History;
use nq_kernel::Work;
use std::alloc::AllocError;

/// That a default meets a restriction, with the line of that.
#[derive(Clone, Copy, Debug, PartialEq, Eq)]
pub struct Met {
    /// That it meets it.
    pub term: TermId,
    /// The line.
    pub line: u64,
}

/// Makes the NOT of a term.
fn denied(work: &mut Work, history: &History, t: TermId) -> Result<TermId, AllocError>
    requires stands { WorkStands history.now work.old }
    requires term { IsSmallIn history.now work.old t }
    requires room { depth_of (not_term (term_at work.old.bank t)) ≤ term_room }
    ensures term { IfOk result (λ u. IsIdOf work.new.bank u (not_term (term_at work.old.bank t))) }
    ensures small { IfOk result (λ u. IsSmallIn history.now work.new u) }
    ensures grows { GrowsUncounted history.now work.old work.new }
{
    ground_call(work, history, ground::NOT, &[t])
}

/// Adds the line that the default of a part, which is T or F, meets the restriction of the part.
pub fn default_meets(
    work: &mut Work,
    history: &History,
    part: &Part,
    yes: bool,
) -> Result<Met, AllocError>
    requires stands { WorkStands history.now work.old }
    requires rows { HasKnownRows (events_at work.old.bank history.now) }
    requires part { PartStands work.old.bank part.now }
    requires restricted { is_free (part_at work.old.bank part.now).restriction ≡ false }
    requires default { HasTruthDefault (events_at work.old.bank history.now) (part_at work.old.bank part.now) yes }
    requires few { length (listed (part_at work.old.bank part.now).restriction) ≤ recognizer_limit }
    ensures term { IfOk result (λ m. IsIdOf work.new.bank m.term (restricted (part_at work.old.bank part.now).restriction (truth_term yes))) }
    ensures small { IfOk result (λ m. IsSmallIn history.now work.new m.term) }
    ensures line { IfOk result (λ m. LineHasOnly work.new m.line (restricted (part_at work.old.bank part.now).restriction (truth_term yes) ∷ [])) }
    ensures grows { GrowsUncounted history.now work.old work.new }
{
    let kinds = one_of_kinds(work, history, &part.recognizers, yes)?;
    let line = kinds.line;
    if part.one_of {
        let term = kinds.term;
        Ok(Met { term, line })
    } else {
        let term = denied(work, history, kinds.term)?;
        Ok(Met { term, line })
    }
}
