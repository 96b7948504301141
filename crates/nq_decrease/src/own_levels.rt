//! Parts of users' shells' values, and the lines that say that they are smaller.
ghost use Rattle.std.specs.Prelude.{◌≤◌, ◌<◌, ◌∷◌, [], All, IfOk, MatchOption, drop, length};
ghost use Rattle.nq_logic.specs.Terms.{Function, IsAmong};
ghost use Rattle.nq_logic.specs.Words.{equal_term, not_term};
ghost use Rattle.nq_logic.specs.Ground.{symbols_of};
ghost use Rattle.nq_logic.specs.Sizes.{depth_of};
ghost use Rattle.nq_bank.specs.Content.{IsNamed, Stands, term_at, terms_at, text_at};
ghost use Rattle.nq_bank.specs.Shells.{PartStands, ShellStands, parts_at, shell_at};
ghost use Rattle.nq_history.specs.Events.{events_at};
ghost use Rattle.nq_kernel.specs.Growing.{WorkStands, LineHolds, LineStands};
ghost use Rattle.nq_lines.specs.Lines.{IsTermIn, LineHasOnly};
ghost use Rattle.nq_replay.specs.Uncounted.{GrowsUncounted};
ghost use Rattle.nq_part_lines.specs.Known.{HasKnownRows, IsKnownShell};
ghost use Rattle.nq_part_lines.specs.LawLines.{term_room};
ghost use Rattle.nq_part_lines.specs.Small.{IsSmallIn};
ghost use Rattle.nq_decrease.specs.OwnGuards.{IsUserShell};
ghost use Rattle.nq_decrease.specs.OwnLevels.{DeniesEquation, HasAccessor, HasNoOwnLevel, IsNoAccessor, IsOwnLevelOf, OwnLevelLine, PartOrBaseLine, denial_clause, unequal_test};

use crate::own_guards::own_guard;
use crate::own_level::OwnLevel;
use crate::own_tests::OwnGuard;
use nq_bank::{Bank, Part, Shell, Sym, TermId, ground, is_same_name};
use nq_history::History;
use nq_kernel::Work;
use nq_part_lines::{at_own, at_three, base_term, cut_by, part_line};
use nq_shell_parts::{equation_by_itself, equation_by_turned};
use std::alloc::AllocError;

/// The place of the part with this accessor, from a place on.
pub fn place_of(bank: &Bank, parts: &[Part], f: Sym, from: usize) -> Option<usize>
    requires parts { All (PartStands bank.now) parts.now }
    requires name { IsNamed bank.now f }
    ensures { MatchOption result (IsNoAccessor (drop from (parts_at bank.now parts.now)) (text_at bank.now f)) (HasAccessor (parts_at bank.now parts.now) (text_at bank.now f)) }
{
    if from >= parts.len() {
        return None;
    }
    if is_same_name(bank, f, parts[from].accessor) {
        return Some(from);
    }
    place_of(bank, parts, f, from + 1)
}

/// The part of which f is the accessor, and how the tests say that the constructor made y, if they do.
pub fn own_level_of(
    bank: &Bank,
    shell: &Shell,
    f: Sym,
    y: TermId,
    tests: &[TermId],
) -> Option<OwnLevel>
    requires stands { ShellStands bank.now shell.now }
    requires user { IsUserShell (shell_at bank.now shell.now) }
    requires function { IsNamed bank.now f }
    requires y { Stands bank.now y }
    requires tests { All (Stands bank.now) tests.now }
    ensures { MatchOption result (HasNoOwnLevel (shell_at bank.now shell.now) (text_at bank.now f) (term_at bank.now y) (terms_at bank.now tests.now)) (IsOwnLevelOf (shell_at bank.now shell.now) (text_at bank.now f) (term_at bank.now y) (terms_at bank.now tests.now)) }
{
    match place_of(bank, shell.parts.as_slice(), f, 0) {
        None => None,
        Some(place) => match own_guard(bank, shell, y, tests) {
            None => None,
            Some(guard) => Some(OwnLevel { place, guard }),
        },
    }
}

/// Adds the law that a test denies an equation.
fn denial_law(work: &mut Work, history: &History, guard: OwnGuard) -> Result<u64, AllocError>
    requires stands { WorkStands history.now work.old }
    ensures line { IfOk result (λ n. LineHolds work.new n (denial_clause guard)) }
    ensures grows { GrowsUncounted history.now work.old work.new }
{
    match guard {
        OwnGuard::Recognized => equation_by_itself(work, history),
        OwnGuard::Unequal => equation_by_itself(work, history),
        OwnGuard::UnequalTurned => equation_by_turned(work, history),
    }
}

/// Adds the line that a test denies the equation of two terms.
fn denial_line(
    work: &mut Work,
    history: &History,
    guard: OwnGuard,
    y: TermId,
    base: TermId,
) -> Result<u64, AllocError>
    requires stands { WorkStands history.now work.old }
    requires term { IsSmallIn history.now work.old y }
    requires base { IsSmallIn history.now work.old base }
    ensures line { IfOk result (λ n. LineHasOnly work.new n (not_term (equal_term (term_at work.old.bank y) (term_at work.old.bank base)) ∷ not_term (unequal_test guard (term_at work.old.bank y) (term_at work.old.bank base)) ∷ [])) }
    ensures grows { GrowsUncounted history.now work.old work.new }
{
    let law = denial_law(work, history, guard)?;
    at_three(work, history, law, y, base, base)
}

/// Adds a line with the NOT of a test that a term is not a constant, for the equation of the two.
fn without_base(
    work: &mut Work,
    history: &History,
    guard: OwnGuard,
    y: TermId,
    b: Sym,
    line: u64,
) -> Result<u64, AllocError>
    requires stands { WorkStands history.now work.old }
    requires named { IsNamed work.old.bank b }
    requires symbol { IsAmong (text_at work.old.bank b, 0) (symbols_of (events_at work.old.bank history.now)) }
    requires term { IsSmallIn history.now work.old y }
    requires line { LineStands work.old line }
    ensures line { IfOk result (λ n. DeniesEquation work.old work.new guard (term_at work.old.bank y) (Function (text_at work.old.bank b)) line n) }
    ensures grows { GrowsUncounted history.now work.old work.new }
{
    let base = base_term(work, history, b)?;
    let denied = denial_line(work, history, guard, y, base)?;
    cut_by(work, history, line, denied, ground::EQUAL, y, base)
}

/// Adds the line that a part of a term is smaller than the term, or the term is not of the shell's kind, or it is the base.
fn part_at_term(
    work: &mut Work,
    history: &History,
    shell: &Shell,
    place: usize,
    y: TermId,
) -> Result<u64, AllocError>
    requires stands { WorkStands history.now work.old }
    requires shell { ShellStands work.old.bank shell.now }
    requires known { IsKnownShell (events_at work.old.bank history.now) (shell_at work.old.bank shell.now) }
    requires rows { HasKnownRows (events_at work.old.bank history.now) }
    requires place { place < length shell.now.parts.items }
    requires term { IsSmallIn history.now work.old y }
    ensures line { IfOk result (λ n. PartOrBaseLine work.new (shell_at work.old.bank shell.now) place (term_at work.old.bank y) n) }
    ensures grows { GrowsUncounted history.now work.old work.new }
{
    let line = part_line(work, history, shell, place)?;
    at_own(work, history, line, y)
}

/// Adds the line that a part of a term is smaller than the term, with the NOTs of the tests that say so.
pub fn own_level_line(
    work: &mut Work,
    history: &History,
    shell: &Shell,
    level: OwnLevel,
    y: TermId,
) -> Result<u64, AllocError>
    requires stands { WorkStands history.now work.old }
    requires shell { ShellStands work.old.bank shell.now }
    requires known { IsKnownShell (events_at work.old.bank history.now) (shell_at work.old.bank shell.now) }
    requires rows { HasKnownRows (events_at work.old.bank history.now) }
    requires place { level.place < length shell.now.parts.items }
    requires term { IsTermIn history.now work.old y }
    requires room { depth_of (term_at work.old.bank y) ≤ term_room }
    ensures line { IfOk result (λ n. OwnLevelLine work.new (shell_at work.old.bank shell.now) level (term_at work.old.bank y) n) }
    ensures grows { GrowsUncounted history.now work.old work.new }
{
    let line = part_at_term(work, history, shell, level.place, y)?;
    match shell.base {
        None => Ok(line),
        Some(b) => without_base(work, history, level.guard, y, b, line),
    }
}
