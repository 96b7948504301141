//! A term is smaller than another where the two are equal to terms of which the one is smaller than the other.
ghost use Rattle.std.specs.Prelude.{◌∷◌, [], IfOk};
ghost use Rattle.nq_logic.specs.Words.{equal_term};
ghost use Rattle.nq_arith.specs.Nests.{is_smaller};
ghost use Rattle.nq_bank.specs.Content.{term_at};
ghost use Rattle.nq_kernel.specs.Growing.{WorkStands};
ghost use Rattle.nq_lines.specs.Lines.{LineHasOnly};
ghost use Rattle.nq_replay.specs.Uncounted.{GrowsUncounted};
ghost use Rattle.nq_part_lines.specs.Defaulted.{others_literals};
ghost use Rattle.nq_part_lines.specs.Five.{AreSmall};

use crate::cutting::cut_by;
use crate::five::{Five, at_five};
use crate::lines::cut;
use crate::terms::smaller_term;
use nq_bank::ground;
use nq_history::History;
use nq_kernel::Work;
use nq_shell_parts::smaller_as_others_are;
use std::alloc::AllocError;

/// Adds the law that a term is smaller than another where they are equal to two of which the one is smaller, at terms; what is in the
/// place of Z does not matter.
fn others_law(work: &mut Work, history: &History, terms: Five) -> Result<u64, AllocError>
    requires stands { WorkStands history.now work.old }
    requires terms { AreSmall history.now work.old terms }
    ensures line { IfOk result (λ n. LineHasOnly work.new n (others_literals (term_at work.old.bank terms.a) (term_at work.old.bank terms.b) (term_at work.old.bank terms.x) (term_at work.old.bank terms.y))) }
    ensures grows { GrowsUncounted history.now work.old work.new }
{
    let law = smaller_as_others_are(work, history)?;
    at_five(work, history, law, terms)
}

/// Cuts that law: X is smaller than Y, and B is Y and A is X, unless Z.
fn others_cuts(
    work: &mut Work,
    history: &History,
    terms: Five,
    law: u64,
    small: u64,
    same: u64,
    wrong: u64,
) -> Result<u64, AllocError>
    requires stands { WorkStands history.now work.old }
    requires terms { AreSmall history.now work.old terms }
    requires law { LineHasOnly work.old law (others_literals (term_at work.old.bank terms.a) (term_at work.old.bank terms.b) (term_at work.old.bank terms.x) (term_at work.old.bank terms.y)) }
    requires small { LineHasOnly work.old small (is_smaller (term_at work.old.bank terms.x) (term_at work.old.bank terms.y) ∷ []) }
    requires same { LineHasOnly work.old same (term_at work.old.bank terms.z ∷ equal_term (term_at work.old.bank terms.b) (term_at work.old.bank terms.y) ∷ []) }
    requires wrong { LineHasOnly work.old wrong (term_at work.old.bank terms.z ∷ equal_term (term_at work.old.bank terms.a) (term_at work.old.bank terms.x) ∷ []) }
    ensures line { IfOk result (λ n. LineHasOnly work.new n (term_at work.old.bank terms.z ∷ is_smaller (term_at work.old.bank terms.a) (term_at work.old.bank terms.b) ∷ [])) }
    ensures grows { GrowsUncounted history.now work.old work.new }
{
    let smaller = smaller_term(work, history, terms.x, terms.y)?;
    let first = cut(work, history, small, law, smaller)?;
    let second = cut_by(work, history, same, first, ground::EQUAL, terms.b, terms.y)?;
    cut_by(
        work,
        history,
        wrong,
        second,
        ground::EQUAL,
        terms.a,
        terms.x,
    )
}

/// Adds the line that A is smaller than B, or Z holds: X is smaller than Y, and B is Y and A is X, unless Z.
pub fn others_line(
    work: &mut Work,
    history: &History,
    terms: Five,
    small: u64,
    same: u64,
    wrong: u64,
) -> Result<u64, AllocError>
    requires stands { WorkStands history.now work.old }
    requires terms { AreSmall history.now work.old terms }
    requires small { LineHasOnly work.old small (is_smaller (term_at work.old.bank terms.x) (term_at work.old.bank terms.y) ∷ []) }
    requires same { LineHasOnly work.old same (term_at work.old.bank terms.z ∷ equal_term (term_at work.old.bank terms.b) (term_at work.old.bank terms.y) ∷ []) }
    requires wrong { LineHasOnly work.old wrong (term_at work.old.bank terms.z ∷ equal_term (term_at work.old.bank terms.a) (term_at work.old.bank terms.x) ∷ []) }
    ensures line { IfOk result (λ n. LineHasOnly work.new n (term_at work.old.bank terms.z ∷ is_smaller (term_at work.old.bank terms.a) (term_at work.old.bank terms.b) ∷ [])) }
    ensures grows { GrowsUncounted history.now work.old work.new }
{
    let law = others_law(work, history, terms)?;
    others_cuts(work, history, terms, law, small, same, wrong)
}
