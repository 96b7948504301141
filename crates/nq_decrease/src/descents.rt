//! Nests of one shell's accessors around a term, and the lines that say that they are smaller.
ghost use Rattle.std.specs.Prelude.{◌≡◌, ◌≤◌, ◌∷◌, [], All, IfOk, MatchOption};
ghost use Rattle.nq_logic.specs.Terms.{Variable};
ghost use Rattle.nq_logic.specs.Words.{call1};
ghost use Rattle.nq_logic.specs.Sizes.{depth_of};
ghost use Rattle.nq_logic.specs.Histories.{events_shells};
ghost use Rattle.nq_bank.specs.Content.{Stands, IsNamed, text_at, term_at, terms_at};
ghost use Rattle.nq_bank.specs.Shells.{ShellStands, shells_at};
ghost use Rattle.nq_arith.specs.Structural.{IsStructuralNest};
ghost use Rattle.nq_kernel.specs.Growing.{WorkStands};
ghost use Rattle.nq_history.specs.Events.{HistoryStands, events_at};
ghost use Rattle.nq_kernel.specs.Over.{IsVariable};
ghost use Rattle.nq_kernel.specs.Ready.{IsReady};
ghost use Rattle.nq_lines.specs.Lines.{IsTermIn, LineHasOnly};
ghost use Rattle.nq_replay.specs.Uncounted.{GrowsUncounted};
ghost use Rattle.nq_part_lines.specs.LawLines.{term_room};
ghost use Rattle.nq_decrease.specs.Levels.{shell_of};
ghost use Rattle.nq_decrease.specs.Nests.{IsNestOf, IsNestLine, IsDecreaseLine, IsOfShell, IsOfNoShell, IsShellNestLine};

use crate::calls::{call_of_one, is_same};
use crate::choosing::{kind_of, level_of};
use crate::joining::{below_line, outer_line};
use crate::kind::Kind;
use crate::levels::level_line;
use crate::own_nests::nest_of_own;
use nq_bank::{Bank, Shell, Sym, TermId};
use nq_history::History;
use nq_kernel::Work;
use nq_part_lines::{at_term, variable};
use nq_replay::size_is_ordinal as size_law;
use std::alloc::AllocError;

/// How many shells the ground history has.
const GROUND_SHELLS: usize = 4;

/// The line that a nest of the shell's accessors around a term is smaller than the term.
fn descend(
    work: &mut Work,
    history: &History,
    kind: Kind,
    whole: TermId,
    t: TermId,
    tests: &[TermId],
) -> Result<Option<u64>, AllocError>
    requires stands { WorkStands history.now work.old }
    requires whole { IsTermIn history.now work.old whole }
    requires term { Stands work.old.bank t }
    requires tests { All (Stands work.old.bank) tests.now }
    requires room { depth_of (term_at work.old.bank whole) ≤ term_room }
    requires shallow { depth_of (term_at work.old.bank t) ≤ term_room }
    ensures answer { IfOk result (λ found. MatchOption found (IsNestOf (shell_of kind) (terms_at work.old.bank tests.now) (term_at work.old.bank whole) (term_at work.old.bank t) → ⊥) (IsNestLine work.new (shell_of kind) (terms_at work.old.bank tests.now) (term_at work.old.bank whole) (term_at work.old.bank t))) }
    ensures grows { GrowsUncounted history.now work.old work.new }
{
    match call_of_one(&work.bank, t) {
        None => Ok(None),
        Some(c) => match level_of(&work.bank, kind, c.function, c.argument, tests) {
            None => Ok(None),
            Some(level) => {
                let y = c.argument;
                if is_same(&work.bank, y, whole) {
                    let line = level_line(work, history, level, y)?;
                    return Ok(Some(line));
                }
                match descend(work, history, kind, whole, y, tests)? {
                    None => Ok(None),
                    Some(inner) => {
                        let line = outer_line(work, history, level, t, y, whole, inner)?;
                        Ok(Some(line))
                    }
                }
            }
        },
    }
}

/// The shell whose accessor is outermost in a term.
fn outermost(bank: &Bank, t: TermId) -> Option<Kind>
    requires { Stands bank.now t }
    ensures { MatchOption result (IsOfNoShell (term_at bank.now t)) (IsOfShell (term_at bank.now t)) }
{
    match call_of_one(bank, t) {
        None => None,
        Some(c) => kind_of(bank, c.function),
    }
}

/// The line that a nest of a ground shell's accessors around a term is smaller than the term.
fn ground_nest(
    work: &mut Work,
    history: &History,
    whole: TermId,
    nest: TermId,
    tests: &[TermId],
) -> Result<Option<u64>, AllocError>
    requires stands { WorkStands history.now work.old }
    requires whole { IsTermIn history.now work.old whole }
    requires nest { Stands work.old.bank nest }
    requires tests { All (Stands work.old.bank) tests.now }
    requires room { depth_of (term_at work.old.bank whole) ≤ term_room }
    requires shallow { depth_of (term_at work.old.bank nest) ≤ term_room }
    ensures answer { IfOk result (λ found. MatchOption found (IsStructuralNest [] (term_at work.old.bank whole) (terms_at work.old.bank tests.now) (term_at work.old.bank nest) → ⊥) (IsShellNestLine (events_at work.old.bank history.now) work.new (terms_at work.old.bank tests.now) (term_at work.old.bank whole) (term_at work.old.bank nest))) }
    ensures grows { GrowsUncounted history.now work.old work.new }
{
    match outermost(&work.bank, nest) {
        None => Ok(None),
        Some(kind) => descend(work, history, kind, whole, nest, tests),
    }
}

/// The users' shells of the history.
fn users_shells<'a>(bank: &Bank, history: &'a History) -> &'a [Shell]
    requires { HistoryStands bank.now history.now }
    ensures shells { shells_at bank.now result.now ≡ events_shells (events_at bank.now history.now) }
    ensures stand { All (ShellStands bank.now) result.now }
{
    let shells = history.shells();
    &shells[GROUND_SHELLS..]
}

/// The line that a nest of the accessors of a shell of the history around a term is smaller than the term.
fn nest_line(
    work: &mut Work,
    history: &History,
    whole: TermId,
    nest: TermId,
    tests: &[TermId],
) -> Result<Option<u64>, AllocError>
    requires stands { WorkStands history.now work.old }
    requires ready { IsReady (events_at work.old.bank history.now) }
    requires whole { IsTermIn history.now work.old whole }
    requires nest { Stands work.old.bank nest }
    requires tests { All (Stands work.old.bank) tests.now }
    requires room { depth_of (term_at work.old.bank whole) ≤ term_room }
    requires shallow { depth_of (term_at work.old.bank nest) ≤ term_room }
    ensures answer { IfOk result (λ found. MatchOption found (IsStructuralNest (events_at work.old.bank history.now) (term_at work.old.bank whole) (terms_at work.old.bank tests.now) (term_at work.old.bank nest) → ⊥) (IsShellNestLine (events_at work.old.bank history.now) work.new (terms_at work.old.bank tests.now) (term_at work.old.bank whole) (term_at work.old.bank nest))) }
    ensures grows { GrowsUncounted history.now work.old work.new }
{
    match ground_nest(work, history, whole, nest, tests)? {
        None => {
            let own = users_shells(&work.bank, history);
            nest_of_own(work, history, own, whole, nest, tests)
        }
        Some(line) => Ok(Some(line)),
    }
}

/// The line that such a nest is below the term.
fn decrease_of(
    work: &mut Work,
    history: &History,
    whole: TermId,
    nest: TermId,
    tests: &[TermId],
) -> Result<Option<u64>, AllocError>
    requires stands { WorkStands history.now work.old }
    requires ready { IsReady (events_at work.old.bank history.now) }
    requires whole { IsTermIn history.now work.old whole }
    requires nest { Stands work.old.bank nest }
    requires tests { All (Stands work.old.bank) tests.now }
    requires room { depth_of (term_at work.old.bank whole) ≤ term_room }
    requires shallow { depth_of (term_at work.old.bank nest) ≤ term_room }
    ensures answer { IfOk result (λ found. MatchOption found (IsStructuralNest (events_at work.old.bank history.now) (term_at work.old.bank whole) (terms_at work.old.bank tests.now) (term_at work.old.bank nest) → ⊥) (IsDecreaseLine (events_at work.old.bank history.now) work.new (terms_at work.old.bank tests.now) (term_at work.old.bank whole) (term_at work.old.bank nest))) }
    ensures grows { GrowsUncounted history.now work.old work.new }
{
    match nest_line(work, history, whole, nest, tests)? {
        None => Ok(None),
        Some(line) => {
            let below = below_line(work, history, nest, whole, line)?;
            Ok(Some(below))
        }
    }
}

/// The line that a nest of a shell's accessors around a variable is below the variable, where the nest is structural under the
/// tests. No step is counted.
pub fn decrease(
    work: &mut Work,
    history: &History,
    x: Sym,
    nest: TermId,
    tests: &[TermId],
) -> Result<Option<u64>, AllocError>
    requires stands { WorkStands history.now work.old }
    requires ready { IsReady (events_at work.old.bank history.now) }
    requires named { IsNamed work.old.bank x }
    requires variable { IsVariable (text_at work.old.bank x) }
    requires nest { Stands work.old.bank nest }
    requires tests { All (Stands work.old.bank) tests.now }
    requires shallow { depth_of (term_at work.old.bank nest) ≤ term_room }
    ensures answer { IfOk result (λ found. MatchOption found (IsStructuralNest (events_at work.old.bank history.now) (Variable (text_at work.old.bank x)) (terms_at work.old.bank tests.now) (term_at work.old.bank nest) → ⊥) (IsDecreaseLine (events_at work.old.bank history.now) work.new (terms_at work.old.bank tests.now) (Variable (text_at work.old.bank x)) (term_at work.old.bank nest))) }
    ensures grows { GrowsUncounted history.now work.old work.new }
{
    let whole = variable(work, history, x)?;
    decrease_of(work, history, whole, nest, tests)
}

/// The line that the size of a term is an ordinal. No step is counted.
pub fn size_is_ordinal(work: &mut Work, history: &History, t: TermId) -> Result<u64, AllocError>
    requires stands { WorkStands history.now work.old }
    requires term { IsTermIn history.now work.old t }
    requires shallow { depth_of (term_at work.old.bank t) ≤ term_room }
    ensures line { IfOk result (λ n. LineHasOnly work.new n (call1 "ORDINALP" (call1 "COUNT" (term_at work.old.bank t)) ∷ [])) }
    ensures grows { GrowsUncounted history.now work.old work.new }
{
    let law = size_law(work, history)?;
    at_term(work, history, law, t)
}
