//! The line that a part of a term is smaller than the term.
ghost use Rattle.std.specs.Prelude.{◌≡◌, ◌≤◌, ◌∷◌, IfOk, map};
ghost use Rattle.nq_logic.specs.Words.{not_term};
ghost use Rattle.nq_logic.specs.Sizes.{depth_of};
ghost use Rattle.nq_bank.specs.Content.{term_at};
ghost use Rattle.nq_arith.specs.Nests.{accessor_of, is_smaller};
ghost use Rattle.nq_kernel.specs.Growing.{WorkStands, LineHolds};
ghost use Rattle.nq_lines.specs.Lines.{IsTermIn, LineHasOnly};
ghost use Rattle.nq_replay.specs.Uncounted.{GrowsUncounted};
ghost use Rattle.nq_replay.specs.LawClauses.{one_less_is_smaller_clause};
ghost use Rattle.nq_part_lines.specs.LawLines.{term_room};
ghost use Rattle.nq_decrease.specs.Levels.{clause_of, part_of, tests_of};

use crate::level::Level;
use nq_bank::TermId;
use nq_history::History;
use nq_kernel::Work;
use nq_part_lines::at_term;
use nq_replay::{
    atom_part_is_smaller, first_by_no_atom, first_is_smaller, less_than_one_more,
    negative_part_is_smaller, one_less_by_no_zero, one_less_is_smaller, one_less_of_number,
    one_less_of_number_turned, rest_by_no_atom, rest_is_smaller,
};
use std::alloc::AllocError;

/// Adds the line of a law of numbers.
fn number_law(work: &mut Work, history: &History) -> Result<u64, AllocError>
    requires stands { WorkStands history.now work.old }
    ensures line { IfOk result (λ n. LineHolds work.new n one_less_is_smaller_clause) }
    ensures grows { GrowsUncounted history.now work.old work.new }
{
    let base = less_than_one_more(work, history)?;
    one_less_is_smaller(work, history, base)
}

/// Adds the line of the law of a level.
fn law_of(work: &mut Work, history: &History, level: Level) -> Result<u64, AllocError>
    requires stands { WorkStands history.now work.old }
    ensures line { IfOk result (λ n. LineHolds work.new n (clause_of level)) }
    ensures grows { GrowsUncounted history.now work.old work.new }
{
    match level {
        Level::First => first_is_smaller(work, history),
        Level::FirstByNoAtom => {
            let line = first_is_smaller(work, history)?;
            first_by_no_atom(work, history, line)
        }
        Level::Rest => rest_is_smaller(work, history),
        Level::RestByNoAtom => {
            let line = rest_is_smaller(work, history)?;
            rest_by_no_atom(work, history, line)
        }
        Level::AtomPart => {
            let line = less_than_one_more(work, history)?;
            atom_part_is_smaller(work, history, line)
        }
        Level::NegativePart => {
            let line = less_than_one_more(work, history)?;
            negative_part_is_smaller(work, history, line)
        }
        Level::OneLessByNoZero => {
            let line = number_law(work, history)?;
            one_less_by_no_zero(work, history, line)
        }
        Level::OneLessOfNumber => {
            let line = number_law(work, history)?;
            one_less_of_number(work, history, line)
        }
        Level::OneLessOfNumberTurned => {
            let line = number_law(work, history)?;
            one_less_of_number_turned(work, history, line)
        }
    }
}

/// Adds the line that a part of a term is smaller than the term, with the NOTs of the tests that say so.
pub fn level_line(
    work: &mut Work,
    history: &History,
    level: Level,
    y: TermId,
) -> Result<u64, AllocError>
    requires stands { WorkStands history.now work.old }
    requires term { IsTermIn history.now work.old y }
    requires room { depth_of (term_at work.old.bank y) ≤ term_room }
    ensures line { IfOk result (λ n. LineHasOnly work.new n (is_smaller (accessor_of (part_of level) (term_at work.old.bank y)) (term_at work.old.bank y) ∷ map not_term (tests_of level (term_at work.old.bank y)))) }
    ensures grows { GrowsUncounted history.now work.old work.new }
{
    let law = law_of(work, history, level)?;
    at_term(work, history, law, y)
}
