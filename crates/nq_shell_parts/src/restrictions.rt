//! The lines of laws: choices, T and F, and terms in the place of equal ones. They are printed.
ghost use Rattle.std.specs.Prelude.{◌≡◌, [], IfOk, Some};
ghost use Rattle.nq_kernel.specs.Growing.{WorkStands, LineHolds};
ghost use Rattle.nq_replay.specs.Uncounted.{GrowsUncounted};
ghost use Rattle.nq_replay.specs.Replaying.{law_clause};
ghost use Rattle.nq_shell_parts.specs.LawClauses.{first_of_choice_clause, second_of_choice_clause, neither_of_choice_clause, truth_is_truth_clause, falsity_is_falsity_clause, falsity_is_no_truth_clause, truth_is_no_falsity_clause, same_is_equal_clause, smaller_as_others_are_clause};

use crate::tables::falsity_is_falsity::FALSITY_IS_FALSITY;
use crate::tables::falsity_is_no_truth::FALSITY_IS_NO_TRUTH;
use crate::tables::first_of_choice::FIRST_OF_CHOICE;
use crate::tables::neither_of_choice::NEITHER_OF_CHOICE;
use crate::tables::same_is_equal::SAME_IS_EQUAL;
use crate::tables::second_of_choice::SECOND_OF_CHOICE;
use crate::tables::smaller_as_others_are::SMALLER_AS_OTHERS_ARE;
use crate::tables::truth_is_no_falsity::TRUTH_IS_NO_FALSITY;
use crate::tables::truth_is_truth::TRUTH_IS_TRUTH;
use nq_history::History;
use nq_kernel::Work;
use nq_replay::{Law, replay};
use std::alloc::AllocError;

/// The table of `(NOT X)`, `(OR X Y)`.
fn first_of_choice_law() -> Law
    ensures { law_clause result [] ≡ Some first_of_choice_clause }
{
    FIRST_OF_CHOICE
}

/// Adds the line of `(NOT X)`, `(OR X Y)`.
pub fn first_of_choice(work: &mut Work, history: &History) -> Result<u64, AllocError>
    requires stands { WorkStands history.now work.old }
    ensures line { IfOk result (λ n. LineHolds work.new n first_of_choice_clause) }
    ensures grows { GrowsUncounted history.now work.old work.new }
{
    let law = first_of_choice_law();
    replay(work, history, law, &[])
}

/// The table of `(NOT Y)`, `(OR X Y)`.
fn second_of_choice_law() -> Law
    ensures { law_clause result [] ≡ Some second_of_choice_clause }
{
    SECOND_OF_CHOICE
}

/// Adds the line of `(NOT Y)`, `(OR X Y)`.
pub fn second_of_choice(work: &mut Work, history: &History) -> Result<u64, AllocError>
    requires stands { WorkStands history.now work.old }
    ensures line { IfOk result (λ n. LineHolds work.new n second_of_choice_clause) }
    ensures grows { GrowsUncounted history.now work.old work.new }
{
    let law = second_of_choice_law();
    replay(work, history, law, &[])
}

/// The table of `Y`, `X`, `(NOT (OR X Y))`.
fn neither_of_choice_law() -> Law
    ensures { law_clause result [] ≡ Some neither_of_choice_clause }
{
    NEITHER_OF_CHOICE
}

/// Adds the line of `Y`, `X`, `(NOT (OR X Y))`.
pub fn neither_of_choice(work: &mut Work, history: &History) -> Result<u64, AllocError>
    requires stands { WorkStands history.now work.old }
    ensures line { IfOk result (λ n. LineHolds work.new n neither_of_choice_clause) }
    ensures grows { GrowsUncounted history.now work.old work.new }
{
    let law = neither_of_choice_law();
    replay(work, history, law, &[])
}

/// The table of `(TRUEP T)`.
fn truth_is_truth_law() -> Law
    ensures { law_clause result [] ≡ Some truth_is_truth_clause }
{
    TRUTH_IS_TRUTH
}

/// Adds the line of `(TRUEP T)`.
pub fn truth_is_truth(work: &mut Work, history: &History) -> Result<u64, AllocError>
    requires stands { WorkStands history.now work.old }
    ensures line { IfOk result (λ n. LineHolds work.new n truth_is_truth_clause) }
    ensures grows { GrowsUncounted history.now work.old work.new }
{
    let law = truth_is_truth_law();
    replay(work, history, law, &[])
}

/// The table of `(FALSEP F)`.
fn falsity_is_falsity_law() -> Law
    ensures { law_clause result [] ≡ Some falsity_is_falsity_clause }
{
    FALSITY_IS_FALSITY
}

/// Adds the line of `(FALSEP F)`.
pub fn falsity_is_falsity(work: &mut Work, history: &History) -> Result<u64, AllocError>
    requires stands { WorkStands history.now work.old }
    ensures line { IfOk result (λ n. LineHolds work.new n falsity_is_falsity_clause) }
    ensures grows { GrowsUncounted history.now work.old work.new }
{
    let law = falsity_is_falsity_law();
    replay(work, history, law, &[])
}

/// The table of `(NOT (TRUEP F))`.
fn falsity_is_no_truth_law() -> Law
    ensures { law_clause result [] ≡ Some falsity_is_no_truth_clause }
{
    FALSITY_IS_NO_TRUTH
}

/// Adds the line of `(NOT (TRUEP F))`.
pub fn falsity_is_no_truth(work: &mut Work, history: &History) -> Result<u64, AllocError>
    requires stands { WorkStands history.now work.old }
    ensures line { IfOk result (λ n. LineHolds work.new n falsity_is_no_truth_clause) }
    ensures grows { GrowsUncounted history.now work.old work.new }
{
    let law = falsity_is_no_truth_law();
    replay(work, history, law, &[])
}

/// The table of `(NOT (FALSEP T))`.
fn truth_is_no_falsity_law() -> Law
    ensures { law_clause result [] ≡ Some truth_is_no_falsity_clause }
{
    TRUTH_IS_NO_FALSITY
}

/// Adds the line of `(NOT (FALSEP T))`.
pub fn truth_is_no_falsity(work: &mut Work, history: &History) -> Result<u64, AllocError>
    requires stands { WorkStands history.now work.old }
    ensures line { IfOk result (λ n. LineHolds work.new n truth_is_no_falsity_clause) }
    ensures grows { GrowsUncounted history.now work.old work.new }
{
    let law = truth_is_no_falsity_law();
    replay(work, history, law, &[])
}

/// The table of `(EQUAL X X)`.
fn same_is_equal_law() -> Law
    ensures { law_clause result [] ≡ Some same_is_equal_clause }
{
    SAME_IS_EQUAL
}

/// Adds the line of `(EQUAL X X)`.
pub fn same_is_equal(work: &mut Work, history: &History) -> Result<u64, AllocError>
    requires stands { WorkStands history.now work.old }
    ensures line { IfOk result (λ n. LineHolds work.new n same_is_equal_clause) }
    ensures grows { GrowsUncounted history.now work.old work.new }
{
    let law = same_is_equal_law();
    replay(work, history, law, &[])
}

/// The table of `(LESSP (COUNT A) (COUNT B))`, `(NOT (LESSP (COUNT X) (COUNT Y)))`, `(NOT (EQUAL B Y))`, `(NOT (EQUAL A X))`.
fn smaller_as_others_are_law() -> Law
    ensures { law_clause result [] ≡ Some smaller_as_others_are_clause }
{
    SMALLER_AS_OTHERS_ARE
}

/// Adds the line of `(LESSP (COUNT A) (COUNT B))`, `(NOT (LESSP (COUNT X) (COUNT Y)))`, `(NOT (EQUAL B Y))`, `(NOT (EQUAL A X))`.
pub fn smaller_as_others_are(work: &mut Work, history: &History) -> Result<u64, AllocError>
    requires stands { WorkStands history.now work.old }
    ensures line { IfOk result (λ n. LineHolds work.new n smaller_as_others_are_clause) }
    ensures grows { GrowsUncounted history.now work.old work.new }
{
    let law = smaller_as_others_are_law();
    replay(work, history, law, &[])
}
