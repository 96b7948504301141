//! Lines that say that one term is smaller than another, joined.
ghost use Rattle.std.specs.Prelude.{◌≡◌, ◌≤◌, ◌∷◌, [], IfOk};
ghost use Rattle.nq_logic.specs.Words.{call1, not_term};
ghost use Rattle.nq_logic.specs.Sizes.{depth_of};
ghost use Rattle.nq_bank.specs.Content.{term_at};
ghost use Rattle.nq_arith.specs.Nests.{accessor_of, is_smaller, is_below};
ghost use Rattle.nq_kernel.specs.Growing.{WorkStands, LineStands, LineHolds, held};
ghost use Rattle.nq_lines.specs.Lines.{IsTermIn, LineHasOnly, CutsTo};
ghost use Rattle.nq_lines.specs.Instances.{InstancesTo};
ghost use Rattle.nq_replay.specs.Uncounted.{GrowsUncounted};
ghost use Rattle.nq_replay.specs.LawClauses.{sizes_descend_clause};
ghost use Rattle.nq_part_lines.specs.LawLines.{IsLaw, term_room};
ghost use Rattle.nq_decrease.specs.Levels.{part_of};
ghost use Rattle.nq_decrease.specs.Nests.{JoinsSizes, AddsLevel, Lowers};
ghost use Rattle.nq_part_lines.specs.Pairs.{three_pairs};

use crate::level::Level;
use crate::levels::level_line;
use nq_bank::TermId;
use nq_history::History;
use nq_kernel::Work;
use nq_part_lines::{at_three, cut, smaller_term};
use nq_replay::{less_is_transitive, size_falls, sizes_descend, smaller_is_below};
use std::alloc::AllocError;

/// Adds the law that joins descents.
fn descent_law(work: &mut Work, history: &History) -> Result<u64, AllocError>
    requires stands { WorkStands history.now work.old }
    ensures line { IfOk result (λ n. LineHolds work.new n sizes_descend_clause) }
    ensures grows { GrowsUncounted history.now work.old work.new }
{
    let falls = size_falls(work, history)?;
    let transitive = less_is_transitive(work, history, falls)?;
    sizes_descend(work, history, transitive)
}

/// Adds the law that joins descents at three terms.
fn descent_at(
    work: &mut Work,
    history: &History,
    t: TermId,
    y: TermId,
    z: TermId,
) -> Result<u64, AllocError>
    requires stands { WorkStands history.now work.old }
    requires first { IsTermIn history.now work.old t }
    requires second { IsTermIn history.now work.old y }
    requires third { IsTermIn history.now work.old z }
    requires first_room { depth_of (term_at work.old.bank t) ≤ term_room }
    requires second_room { depth_of (term_at work.old.bank y) ≤ term_room }
    requires third_room { depth_of (term_at work.old.bank z) ≤ term_room }
    ensures line { IfOk result (λ n. LineHasOnly work.new n (not_term (is_smaller (term_at work.old.bank y) (term_at work.old.bank z)) ∷ not_term (is_smaller (term_at work.old.bank t) (term_at work.old.bank y)) ∷ is_smaller (term_at work.old.bank t) (term_at work.old.bank z) ∷ [])) }
    ensures grows { GrowsUncounted history.now work.old work.new }
{
    let law = descent_law(work, history)?;
    at_three(work, history, law, t, y, z)
}

/// Adds the law that what is smaller is below, at two terms.
fn below_at(work: &mut Work, history: &History, t: TermId, z: TermId) -> Result<u64, AllocError>
    requires stands { WorkStands history.now work.old }
    requires first { IsTermIn history.now work.old t }
    requires second { IsTermIn history.now work.old z }
    requires first_room { depth_of (term_at work.old.bank t) ≤ term_room }
    requires second_room { depth_of (term_at work.old.bank z) ≤ term_room }
    ensures line { IfOk result (λ n. LineHasOnly work.new n (not_term (is_smaller (term_at work.old.bank t) (term_at work.old.bank z)) ∷ is_below (term_at work.old.bank t) (term_at work.old.bank z) ∷ [])) }
    ensures grows { GrowsUncounted history.now work.old work.new }
{
    let law = smaller_is_below(work, history)?;
    at_three(work, history, law, t, z, z)
}

/// Adds the line that is cut from two by the test that one term is smaller than another.
fn cut_smaller(
    work: &mut Work,
    history: &History,
    a: u64,
    b: u64,
    t: TermId,
    u: TermId,
) -> Result<u64, AllocError>
    requires stands { WorkStands history.now work.old }
    requires first { LineStands work.old a }
    requires second { LineStands work.old b }
    requires left { IsTermIn history.now work.old t }
    requires right { IsTermIn history.now work.old u }
    requires left_room { depth_of (term_at work.old.bank t) ≤ term_room }
    requires right_room { depth_of (term_at work.old.bank u) ≤ term_room }
    ensures line { IfOk result (λ n. CutsTo work.old work.new (is_smaller (term_at work.old.bank t) (term_at work.old.bank u)) a b n) }
    ensures stands { IfOk result (λ n. LineStands work.new n) }
    ensures grows { GrowsUncounted history.now work.old work.new }
{
    let smaller = smaller_term(work, history, t, u)?;
    cut(work, history, a, b, smaller)
}

/// Adds the line that t is smaller than z, from lines for t and y, and for y and z.
pub fn joined_sizes(
    work: &mut Work,
    history: &History,
    t: TermId,
    y: TermId,
    z: TermId,
    first: u64,
    second: u64,
) -> Result<u64, AllocError>
    requires stands { WorkStands history.now work.old }
    requires first_term { IsTermIn history.now work.old t }
    requires second_term { IsTermIn history.now work.old y }
    requires third_term { IsTermIn history.now work.old z }
    requires first_room { depth_of (term_at work.old.bank t) ≤ term_room }
    requires second_room { depth_of (term_at work.old.bank y) ≤ term_room }
    requires third_room { depth_of (term_at work.old.bank z) ≤ term_room }
    requires first { LineStands work.old first }
    requires second { LineStands work.old second }
    ensures line { IfOk result (λ n. JoinsSizes work.old work.new (term_at work.old.bank t) (term_at work.old.bank y) (term_at work.old.bank z) first second n) }
    ensures grows { GrowsUncounted history.now work.old work.new }
{
    let law = descent_at(work, history, t, y, z)?;
    let rest = cut_smaller(work, history, first, law, t, y)?;
    cut_smaller(work, history, second, rest, y, z)
}

/// Adds the line that a part of y is smaller than z, from a line that y is.
pub fn outer_line(
    work: &mut Work,
    history: &History,
    level: Level,
    t: TermId,
    y: TermId,
    z: TermId,
    inner: u64,
) -> Result<u64, AllocError>
    requires stands { WorkStands history.now work.old }
    requires first_term { IsTermIn history.now work.old t }
    requires second_term { IsTermIn history.now work.old y }
    requires third_term { IsTermIn history.now work.old z }
    requires first_room { depth_of (term_at work.old.bank t) ≤ term_room }
    requires second_room { depth_of (term_at work.old.bank y) ≤ term_room }
    requires third_room { depth_of (term_at work.old.bank z) ≤ term_room }
    requires part { term_at work.old.bank t ≡ accessor_of (part_of level) (term_at work.old.bank y) }
    requires inner { LineStands work.old inner }
    ensures line { IfOk result (λ n. AddsLevel work.old work.new level (term_at work.old.bank y) (term_at work.old.bank z) inner n) }
    ensures grows { GrowsUncounted history.now work.old work.new }
{
    let first = level_line(work, history, level, y)?;
    joined_sizes(work, history, t, y, z, first, inner)
}

/// Adds the line that t is below z, from a line that it is smaller.
pub fn below_line(
    work: &mut Work,
    history: &History,
    t: TermId,
    z: TermId,
    line: u64,
) -> Result<u64, AllocError>
    requires stands { WorkStands history.now work.old }
    requires first { IsTermIn history.now work.old t }
    requires second { IsTermIn history.now work.old z }
    requires first_room { depth_of (term_at work.old.bank t) ≤ term_room }
    requires second_room { depth_of (term_at work.old.bank z) ≤ term_room }
    requires line { LineStands work.old line }
    ensures line { IfOk result (λ n. Lowers work.old work.new (term_at work.old.bank t) (term_at work.old.bank z) line n) }
    ensures grows { GrowsUncounted history.now work.old work.new }
{
    let law = below_at(work, history, t, z)?;
    cut_smaller(work, history, line, law, t, z)
}
