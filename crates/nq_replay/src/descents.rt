//! The lines of single laws: parts that are smaller than the whole, under each test that says so, and chains of sizes. They are printed.
ghost use Rattle.std.specs.Prelude.{◌≡◌, ◌∷◌, [], IfOk, Some};
ghost use Rattle.nq_kernel.specs.Growing.{WorkStands, LineHolds};
ghost use Rattle.nq_replay.specs.Uncounted.{GrowsUncounted};
ghost use Rattle.nq_replay.specs.Replaying.{law_clause};
ghost use Rattle.nq_replay.specs.LawClauses.{size_falls_clause, less_is_transitive_clause, sizes_descend_clause, first_is_smaller_clause, first_by_no_atom_clause, rest_is_smaller_clause, rest_by_no_atom_clause, less_than_one_more_clause, atom_part_is_smaller_clause, negative_part_is_smaller_clause, one_less_is_smaller_clause, one_less_by_no_zero_clause, one_less_of_number_clause, one_less_of_number_turned_clause};

use crate::replaying::replay;
use crate::table::Law;
use crate::tables::atom_part_is_smaller::ATOM_PART_IS_SMALLER;
use crate::tables::first_by_no_atom::FIRST_BY_NO_ATOM;
use crate::tables::first_is_smaller::FIRST_IS_SMALLER;
use crate::tables::less_is_transitive::LESS_IS_TRANSITIVE;
use crate::tables::less_than_one_more::LESS_THAN_ONE_MORE;
use crate::tables::negative_part_is_smaller::NEGATIVE_PART_IS_SMALLER;
use crate::tables::one_less_by_no_zero::ONE_LESS_BY_NO_ZERO;
use crate::tables::one_less_is_smaller::ONE_LESS_IS_SMALLER;
use crate::tables::one_less_of_number::ONE_LESS_OF_NUMBER;
use crate::tables::one_less_of_number_turned::ONE_LESS_OF_NUMBER_TURNED;
use crate::tables::rest_by_no_atom::REST_BY_NO_ATOM;
use crate::tables::rest_is_smaller::REST_IS_SMALLER;
use crate::tables::size_falls::SIZE_FALLS;
use crate::tables::sizes_descend::SIZES_DESCEND;
use nq_history::History;
use nq_kernel::Work;
use std::alloc::AllocError;

/// The table of `(NOT (NOT (ZEROP X)))`, `(ORD-LESSP (COUNT (SUB1 X)) (COUNT X))`.
fn size_falls_law() -> Law
    ensures { law_clause result [] ≡ Some size_falls_clause }
{
    SIZE_FALLS
}

/// Adds the line of `(NOT (NOT (ZEROP X)))`, `(ORD-LESSP (COUNT (SUB1 X)) (COUNT X))`.
pub fn size_falls(work: &mut Work, history: &History) -> Result<u64, AllocError>
    requires stands { WorkStands history.now work.old }
    ensures line { IfOk result (λ n. LineHolds work.new n size_falls_clause) }
    ensures grows { GrowsUncounted history.now work.old work.new }
{
    let law = size_falls_law();
    replay(work, history, law, &[])
}

/// The table of `(NOT (LESSP Y Z))`, `(NOT (LESSP X Y))`, `(LESSP X Z)`, after the line of `(NOT (NOT (ZEROP X)))`, `(ORD-LESSP (COUNT (SUB1 X)) (COUNT X))`.
fn less_is_transitive_law() -> Law
    ensures { law_clause result (size_falls_clause ∷ []) ≡ Some less_is_transitive_clause }
{
    LESS_IS_TRANSITIVE
}

/// Adds the line of `(NOT (LESSP Y Z))`, `(NOT (LESSP X Y))`, `(LESSP X Z)`, after the line of `(NOT (NOT (ZEROP X)))`, `(ORD-LESSP (COUNT (SUB1 X)) (COUNT X))`.
pub fn less_is_transitive(work: &mut Work, history: &History, line: u64) -> Result<u64, AllocError>
    requires stands { WorkStands history.now work.old }
    requires line { LineHolds work.old line size_falls_clause }
    ensures line { IfOk result (λ n. LineHolds work.new n less_is_transitive_clause) }
    ensures grows { GrowsUncounted history.now work.old work.new }
{
    let law = less_is_transitive_law();
    replay(work, history, law, &[line])
}

/// The table of `(NOT (LESSP (COUNT Y) (COUNT Z)))`, `(NOT (LESSP (COUNT X) (COUNT Y)))`, `(LESSP (COUNT X) (COUNT Z))`, after the line of `(NOT (LESSP Y Z))`, `(NOT (LESSP X Y))`, `(LESSP X Z)`.
fn sizes_descend_law() -> Law
    ensures { law_clause result (less_is_transitive_clause ∷ []) ≡ Some sizes_descend_clause }
{
    SIZES_DESCEND
}

/// Adds the line of `(NOT (LESSP (COUNT Y) (COUNT Z)))`, `(NOT (LESSP (COUNT X) (COUNT Y)))`, `(LESSP (COUNT X) (COUNT Z))`, after the line of `(NOT (LESSP Y Z))`, `(NOT (LESSP X Y))`, `(LESSP X Z)`.
pub fn sizes_descend(work: &mut Work, history: &History, line: u64) -> Result<u64, AllocError>
    requires stands { WorkStands history.now work.old }
    requires line { LineHolds work.old line less_is_transitive_clause }
    ensures line { IfOk result (λ n. LineHolds work.new n sizes_descend_clause) }
    ensures grows { GrowsUncounted history.now work.old work.new }
{
    let law = sizes_descend_law();
    replay(work, history, law, &[line])
}

/// The table of `(NOT (LISTP X))`, `(LESSP (COUNT (CAR X)) (COUNT X))`.
fn first_is_smaller_law() -> Law
    ensures { law_clause result [] ≡ Some first_is_smaller_clause }
{
    FIRST_IS_SMALLER
}

/// Adds the line of `(NOT (LISTP X))`, `(LESSP (COUNT (CAR X)) (COUNT X))`.
pub fn first_is_smaller(work: &mut Work, history: &History) -> Result<u64, AllocError>
    requires stands { WorkStands history.now work.old }
    ensures line { IfOk result (λ n. LineHolds work.new n first_is_smaller_clause) }
    ensures grows { GrowsUncounted history.now work.old work.new }
{
    let law = first_is_smaller_law();
    replay(work, history, law, &[])
}

/// The table of `(LESSP (COUNT (CAR X)) (COUNT X))`, `(NOT (NOT (NLISTP X)))`, after the line of `(NOT (LISTP X))`, `(LESSP (COUNT (CAR X)) (COUNT X))`.
fn first_by_no_atom_law() -> Law
    ensures { law_clause result (first_is_smaller_clause ∷ []) ≡ Some first_by_no_atom_clause }
{
    FIRST_BY_NO_ATOM
}

/// Adds the line of `(LESSP (COUNT (CAR X)) (COUNT X))`, `(NOT (NOT (NLISTP X)))`, after the line of `(NOT (LISTP X))`, `(LESSP (COUNT (CAR X)) (COUNT X))`.
pub fn first_by_no_atom(work: &mut Work, history: &History, line: u64) -> Result<u64, AllocError>
    requires stands { WorkStands history.now work.old }
    requires line { LineHolds work.old line first_is_smaller_clause }
    ensures line { IfOk result (λ n. LineHolds work.new n first_by_no_atom_clause) }
    ensures grows { GrowsUncounted history.now work.old work.new }
{
    let law = first_by_no_atom_law();
    replay(work, history, law, &[line])
}

/// The table of `(NOT (LISTP X))`, `(LESSP (COUNT (CDR X)) (COUNT X))`.
fn rest_is_smaller_law() -> Law
    ensures { law_clause result [] ≡ Some rest_is_smaller_clause }
{
    REST_IS_SMALLER
}

/// Adds the line of `(NOT (LISTP X))`, `(LESSP (COUNT (CDR X)) (COUNT X))`.
pub fn rest_is_smaller(work: &mut Work, history: &History) -> Result<u64, AllocError>
    requires stands { WorkStands history.now work.old }
    ensures line { IfOk result (λ n. LineHolds work.new n rest_is_smaller_clause) }
    ensures grows { GrowsUncounted history.now work.old work.new }
{
    let law = rest_is_smaller_law();
    replay(work, history, law, &[])
}

/// The table of `(LESSP (COUNT (CDR X)) (COUNT X))`, `(NOT (NOT (NLISTP X)))`, after the line of `(NOT (LISTP X))`, `(LESSP (COUNT (CDR X)) (COUNT X))`.
fn rest_by_no_atom_law() -> Law
    ensures { law_clause result (rest_is_smaller_clause ∷ []) ≡ Some rest_by_no_atom_clause }
{
    REST_BY_NO_ATOM
}

/// Adds the line of `(LESSP (COUNT (CDR X)) (COUNT X))`, `(NOT (NOT (NLISTP X)))`, after the line of `(NOT (LISTP X))`, `(LESSP (COUNT (CDR X)) (COUNT X))`.
pub fn rest_by_no_atom(work: &mut Work, history: &History, line: u64) -> Result<u64, AllocError>
    requires stands { WorkStands history.now work.old }
    requires line { LineHolds work.old line rest_is_smaller_clause }
    ensures line { IfOk result (λ n. LineHolds work.new n rest_by_no_atom_clause) }
    ensures grows { GrowsUncounted history.now work.old work.new }
{
    let law = rest_by_no_atom_law();
    replay(work, history, law, &[line])
}

/// The table of `(LESSP X (ADD1 X))`.
fn less_than_one_more_law() -> Law
    ensures { law_clause result [] ≡ Some less_than_one_more_clause }
{
    LESS_THAN_ONE_MORE
}

/// Adds the line of `(LESSP X (ADD1 X))`.
pub fn less_than_one_more(work: &mut Work, history: &History) -> Result<u64, AllocError>
    requires stands { WorkStands history.now work.old }
    ensures line { IfOk result (λ n. LineHolds work.new n less_than_one_more_clause) }
    ensures grows { GrowsUncounted history.now work.old work.new }
{
    let law = less_than_one_more_law();
    replay(work, history, law, &[])
}

/// The table of `(NOT (LITATOM X))`, `(LESSP (COUNT (UNPACK X)) (COUNT X))`, after the line of `(LESSP X (ADD1 X))`.
fn atom_part_is_smaller_law() -> Law
    ensures { law_clause result (less_than_one_more_clause ∷ []) ≡ Some atom_part_is_smaller_clause }
{
    ATOM_PART_IS_SMALLER
}

/// Adds the line of `(NOT (LITATOM X))`, `(LESSP (COUNT (UNPACK X)) (COUNT X))`, after the line of `(LESSP X (ADD1 X))`.
pub fn atom_part_is_smaller(
    work: &mut Work,
    history: &History,
    line: u64,
) -> Result<u64, AllocError>
    requires stands { WorkStands history.now work.old }
    requires line { LineHolds work.old line less_than_one_more_clause }
    ensures line { IfOk result (λ n. LineHolds work.new n atom_part_is_smaller_clause) }
    ensures grows { GrowsUncounted history.now work.old work.new }
{
    let law = atom_part_is_smaller_law();
    replay(work, history, law, &[line])
}

/// The table of `(NOT (NEGATIVEP X))`, `(LESSP (COUNT (NEGATIVE-GUTS X)) (COUNT X))`, after the line of `(LESSP X (ADD1 X))`.
fn negative_part_is_smaller_law() -> Law
    ensures { law_clause result (less_than_one_more_clause ∷ []) ≡ Some negative_part_is_smaller_clause }
{
    NEGATIVE_PART_IS_SMALLER
}

/// Adds the line of `(NOT (NEGATIVEP X))`, `(LESSP (COUNT (NEGATIVE-GUTS X)) (COUNT X))`, after the line of `(LESSP X (ADD1 X))`.
pub fn negative_part_is_smaller(
    work: &mut Work,
    history: &History,
    line: u64,
) -> Result<u64, AllocError>
    requires stands { WorkStands history.now work.old }
    requires line { LineHolds work.old line less_than_one_more_clause }
    ensures line { IfOk result (λ n. LineHolds work.new n negative_part_is_smaller_clause) }
    ensures grows { GrowsUncounted history.now work.old work.new }
{
    let law = negative_part_is_smaller_law();
    replay(work, history, law, &[line])
}

/// The table of `(ZEROP X)`, `(LESSP (COUNT (SUB1 X)) (COUNT X))`, after the line of `(LESSP X (ADD1 X))`.
fn one_less_is_smaller_law() -> Law
    ensures { law_clause result (less_than_one_more_clause ∷ []) ≡ Some one_less_is_smaller_clause }
{
    ONE_LESS_IS_SMALLER
}

/// Adds the line of `(ZEROP X)`, `(LESSP (COUNT (SUB1 X)) (COUNT X))`, after the line of `(LESSP X (ADD1 X))`.
pub fn one_less_is_smaller(work: &mut Work, history: &History, line: u64) -> Result<u64, AllocError>
    requires stands { WorkStands history.now work.old }
    requires line { LineHolds work.old line less_than_one_more_clause }
    ensures line { IfOk result (λ n. LineHolds work.new n one_less_is_smaller_clause) }
    ensures grows { GrowsUncounted history.now work.old work.new }
{
    let law = one_less_is_smaller_law();
    replay(work, history, law, &[line])
}

/// The table of `(LESSP (COUNT (SUB1 X)) (COUNT X))`, `(NOT (NOT (ZEROP X)))`, after the line of `(ZEROP X)`, `(LESSP (COUNT (SUB1 X)) (COUNT X))`.
fn one_less_by_no_zero_law() -> Law
    ensures { law_clause result (one_less_is_smaller_clause ∷ []) ≡ Some one_less_by_no_zero_clause }
{
    ONE_LESS_BY_NO_ZERO
}

/// Adds the line of `(LESSP (COUNT (SUB1 X)) (COUNT X))`, `(NOT (NOT (ZEROP X)))`, after the line of `(ZEROP X)`, `(LESSP (COUNT (SUB1 X)) (COUNT X))`.
pub fn one_less_by_no_zero(work: &mut Work, history: &History, line: u64) -> Result<u64, AllocError>
    requires stands { WorkStands history.now work.old }
    requires line { LineHolds work.old line one_less_is_smaller_clause }
    ensures line { IfOk result (λ n. LineHolds work.new n one_less_by_no_zero_clause) }
    ensures grows { GrowsUncounted history.now work.old work.new }
{
    let law = one_less_by_no_zero_law();
    replay(work, history, law, &[line])
}

/// The table of `(LESSP (COUNT (SUB1 X)) (COUNT X))`, `(NOT (NUMBERP X))`, `(NOT (NOT (EQUAL X 0)))`, after the line of `(ZEROP X)`, `(LESSP (COUNT (SUB1 X)) (COUNT X))`.
fn one_less_of_number_law() -> Law
    ensures { law_clause result (one_less_is_smaller_clause ∷ []) ≡ Some one_less_of_number_clause }
{
    ONE_LESS_OF_NUMBER
}

/// Adds the line of `(LESSP (COUNT (SUB1 X)) (COUNT X))`, `(NOT (NUMBERP X))`, `(NOT (NOT (EQUAL X 0)))`, after the line of `(ZEROP X)`, `(LESSP (COUNT (SUB1 X)) (COUNT X))`.
pub fn one_less_of_number(work: &mut Work, history: &History, line: u64) -> Result<u64, AllocError>
    requires stands { WorkStands history.now work.old }
    requires line { LineHolds work.old line one_less_is_smaller_clause }
    ensures line { IfOk result (λ n. LineHolds work.new n one_less_of_number_clause) }
    ensures grows { GrowsUncounted history.now work.old work.new }
{
    let law = one_less_of_number_law();
    replay(work, history, law, &[line])
}

/// The table of `(LESSP (COUNT (SUB1 X)) (COUNT X))`, `(NOT (NUMBERP X))`, `(NOT (NOT (EQUAL 0 X)))`, after the line of `(ZEROP X)`, `(LESSP (COUNT (SUB1 X)) (COUNT X))`.
fn one_less_of_number_turned_law() -> Law
    ensures { law_clause result (one_less_is_smaller_clause ∷ []) ≡ Some one_less_of_number_turned_clause }
{
    ONE_LESS_OF_NUMBER_TURNED
}

/// Adds the line of `(LESSP (COUNT (SUB1 X)) (COUNT X))`, `(NOT (NUMBERP X))`, `(NOT (NOT (EQUAL 0 X)))`, after the line of `(ZEROP X)`, `(LESSP (COUNT (SUB1 X)) (COUNT X))`.
pub fn one_less_of_number_turned(
    work: &mut Work,
    history: &History,
    line: u64,
) -> Result<u64, AllocError>
    requires stands { WorkStands history.now work.old }
    requires line { LineHolds work.old line one_less_is_smaller_clause }
    ensures line { IfOk result (λ n. LineHolds work.new n one_less_of_number_turned_clause) }
    ensures grows { GrowsUncounted history.now work.old work.new }
{
    let law = one_less_of_number_turned_law();
    replay(work, history, law, &[line])
}
