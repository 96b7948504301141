//! Nests of a user's shell's accessors around a term, and the lines that say that they are smaller.
ghost use Rattle.std.specs.Prelude.{◌≤◌, ◌<◌, All, IfOk, MatchOption, length};
ghost use Rattle.nq_logic.specs.Histories.{events_shells};
ghost use Rattle.nq_logic.specs.Terms.{Each, IsAmong};
ghost use Rattle.nq_logic.specs.Sizes.{depth_of};
ghost use Rattle.nq_bank.specs.Content.{Stands, term_at, terms_at};
ghost use Rattle.nq_bank.specs.Shells.{ShellStands, shell_at, shells_at};
ghost use Rattle.nq_history.specs.Events.{events_at};
ghost use Rattle.nq_kernel.specs.Growing.{WorkStands, LineStands};
ghost use Rattle.nq_kernel.specs.Ready.{IsReady};
ghost use Rattle.nq_lines.specs.Lines.{IsTermIn};
ghost use Rattle.nq_replay.specs.Uncounted.{GrowsUncounted};
ghost use Rattle.nq_part_lines.specs.Known.{HasKnownRows, IsKnownShell};
ghost use Rattle.nq_part_lines.specs.LawLines.{term_room};
ghost use Rattle.nq_decrease.specs.Nests.{IsNestLine, IsNestOf, IsShellNestLine};
ghost use Rattle.nq_decrease.specs.OwnGuards.{IsUserShell};
ghost use Rattle.nq_decrease.specs.OwnLevels.{AddsOwnLevel, IsPartAt};

use crate::calls::{call_of_one, is_same};
use crate::joining::joined_sizes;
use crate::own_level::OwnLevel;
use crate::own_levels::{own_level_line, own_level_of};
use nq_bank::{Shell, TermId};
use nq_history::History;
use nq_kernel::Work;
use nq_part_lines::known_shells;
use nq_ready::own_terms;
use std::alloc::AllocError;

/// Adds the line that a part of y is smaller than z, from a line that y is.
fn own_outer_line(
    work: &mut Work,
    history: &History,
    shell: &Shell,
    level: OwnLevel,
    t: TermId,
    y: TermId,
    z: TermId,
    inner: u64,
) -> Result<u64, AllocError>
    requires stands { WorkStands history.now work.old }
    requires shell { ShellStands work.old.bank shell.now }
    requires known { IsKnownShell (events_at work.old.bank history.now) (shell_at work.old.bank shell.now) }
    requires rows { HasKnownRows (events_at work.old.bank history.now) }
    requires place { level.place < length shell.now.parts.items }
    requires first_term { IsTermIn history.now work.old t }
    requires second_term { IsTermIn history.now work.old y }
    requires third_term { IsTermIn history.now work.old z }
    requires first_room { depth_of (term_at work.old.bank t) ≤ term_room }
    requires second_room { depth_of (term_at work.old.bank y) ≤ term_room }
    requires third_room { depth_of (term_at work.old.bank z) ≤ term_room }
    requires part { IsPartAt (shell_at work.old.bank shell.now) level.place (term_at work.old.bank y) (term_at work.old.bank t) }
    requires inner { LineStands work.old inner }
    ensures line { IfOk result (λ n. AddsOwnLevel work.old work.new (shell_at work.old.bank shell.now) level (term_at work.old.bank y) (term_at work.old.bank z) inner n) }
    ensures grows { GrowsUncounted history.now work.old work.new }
{
    let first = own_level_line(work, history, shell, level, y)?;
    joined_sizes(work, history, t, y, z, first, inner)
}

/// The line that a nest of a user's shell's accessors around a term is smaller than the term.
fn own_descend(
    work: &mut Work,
    history: &History,
    shell: &Shell,
    whole: TermId,
    t: TermId,
    tests: &[TermId],
) -> Result<Option<u64>, AllocError>
    requires stands { WorkStands history.now work.old }
    requires shell { ShellStands work.old.bank shell.now }
    requires known { IsKnownShell (events_at work.old.bank history.now) (shell_at work.old.bank shell.now) }
    requires rows { HasKnownRows (events_at work.old.bank history.now) }
    requires user { IsUserShell (shell_at work.old.bank shell.now) }
    requires whole { IsTermIn history.now work.old whole }
    requires term { Stands work.old.bank t }
    requires tests { All (Stands work.old.bank) tests.now }
    requires room { depth_of (term_at work.old.bank whole) ≤ term_room }
    requires shallow { depth_of (term_at work.old.bank t) ≤ term_room }
    ensures answer { IfOk result (λ found. MatchOption found (IsNestOf (shell_at work.old.bank shell.now) (terms_at work.old.bank tests.now) (term_at work.old.bank whole) (term_at work.old.bank t) → ⊥) (IsNestLine work.new (shell_at work.old.bank shell.now) (terms_at work.old.bank tests.now) (term_at work.old.bank whole) (term_at work.old.bank t))) }
    ensures grows { GrowsUncounted history.now work.old work.new }
{
    match call_of_one(&work.bank, t) {
        None => Ok(None),
        Some(c) => match own_level_of(&work.bank, shell, c.function, c.argument, tests) {
            None => Ok(None),
            Some(level) => {
                let y = c.argument;
                if is_same(&work.bank, y, whole) {
                    let line = own_level_line(work, history, shell, level, y)?;
                    return Ok(Some(line));
                }
                match own_descend(work, history, shell, whole, y, tests)? {
                    None => Ok(None),
                    Some(inner) => {
                        let line = own_outer_line(work, history, shell, level, t, y, whole, inner)?;
                        Ok(Some(line))
                    }
                }
            }
        },
    }
}

/// The same of a user's shell of a ready history.
fn nest_of_one(
    work: &mut Work,
    history: &History,
    shell: &Shell,
    whole: TermId,
    t: TermId,
    tests: &[TermId],
) -> Result<Option<u64>, AllocError>
    requires stands { WorkStands history.now work.old }
    requires ready { IsReady (events_at work.old.bank history.now) }
    requires shell { ShellStands work.old.bank shell.now }
    requires own { IsAmong (shell_at work.old.bank shell.now) (events_shells (events_at work.old.bank history.now)) }
    requires whole { IsTermIn history.now work.old whole }
    requires term { Stands work.old.bank t }
    requires tests { All (Stands work.old.bank) tests.now }
    requires room { depth_of (term_at work.old.bank whole) ≤ term_room }
    requires shallow { depth_of (term_at work.old.bank t) ≤ term_room }
    ensures answer { IfOk result (λ found. MatchOption found
        (IsNestOf (shell_at work.old.bank shell.now) (terms_at work.old.bank tests.now) (term_at work.old.bank whole) (term_at work.old.bank t) → ⊥)
        (IsShellNestLine (events_at work.old.bank history.now) work.new (terms_at work.old.bank tests.now) (term_at work.old.bank whole) (term_at work.old.bank t))) }
    ensures grows { GrowsUncounted history.now work.old work.new }
{
    own_terms();
    known_shells();
    own_descend(work, history, shell, whole, t, tests)
}

/// The same of the first of these users' shells that has such a line.
pub fn nest_of_own(
    work: &mut Work,
    history: &History,
    shells: &[Shell],
    whole: TermId,
    t: TermId,
    tests: &[TermId],
) -> Result<Option<u64>, AllocError>
    requires stands { WorkStands history.now work.old }
    requires ready { IsReady (events_at work.old.bank history.now) }
    requires shells { All (ShellStands work.old.bank) shells.now }
    requires own { Each (λ s. IsAmong s (events_shells (events_at work.old.bank history.now))) (shells_at work.old.bank shells.now) }
    requires whole { IsTermIn history.now work.old whole }
    requires term { Stands work.old.bank t }
    requires tests { All (Stands work.old.bank) tests.now }
    requires room { depth_of (term_at work.old.bank whole) ≤ term_room }
    requires shallow { depth_of (term_at work.old.bank t) ≤ term_room }
    ensures answer { IfOk result (λ found. MatchOption found
        (Each (λ s. IsNestOf s (terms_at work.old.bank tests.now) (term_at work.old.bank whole) (term_at work.old.bank t) → ⊥) (shells_at work.old.bank shells.now))
        (IsShellNestLine (events_at work.old.bank history.now) work.new (terms_at work.old.bank tests.now) (term_at work.old.bank whole) (term_at work.old.bank t))) }
    ensures grows { GrowsUncounted history.now work.old work.new }
{
    match shells {
        [] => Ok(None),
        [first, rest @ ..] => match nest_of_one(work, history, first, whole, t, tests)? {
            None => nest_of_own(work, history, rest, whole, t, tests),
            Some(line) => Ok(Some(line)),
        },
    }
}
