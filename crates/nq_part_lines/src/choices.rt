//! Whether T, or F, is of one of several kinds, with the line of that.
ghost use Rattle.std.specs.Prelude.{◌≤◌, ◌<◌, ◌||◌, ◌∷◌, [], All, IfOk, List, length, not};
ghost use Rattle.nq_logic.specs.Terms.{Each, Term};
ghost use Rattle.nq_logic.specs.Names.{has_name};
ghost use Rattle.nq_logic.specs.Shells.{either_of, recognized};
ghost use Rattle.nq_logic.specs.Sizes.{depth_of};
ghost use Rattle.nq_logic.specs.Words.{or_term};
ghost use Rattle.nq_bank.specs.Content.{IsNamed, term_at};
ghost use Rattle.nq_bank.specs.Shells.{texts_at};
ghost use Rattle.nq_history.specs.Events.{events_at};
ghost use Rattle.nq_kernel.specs.Growing.{WorkStands, LineHolds, LineStands};
ghost use Rattle.nq_kernel.specs.Ready.{recognizer_limit};
ghost use Rattle.nq_lines.specs.Lines.{LineHasOnly};
ghost use Rattle.nq_replay.specs.Uncounted.{GrowsUncounted};
ghost use Rattle.nq_part_lines.specs.Decisions.{IsDecided, choice_clause, choice_literals, told};
ghost use Rattle.nq_part_lines.specs.Defaults.{IsKind, truth_kind, truth_term};
ghost use Rattle.nq_part_lines.specs.Known.{HasKnownRows};
ghost use Rattle.nq_part_lines.specs.LawLines.{term_room};
ghost use Rattle.nq_part_lines.specs.Small.{IsSmallIn};

use crate::kinds::{Decided, kind};
use crate::lines::{at_three, cut};
use crate::terms::ground_call;
use nq_bank::{Sym, TermId, ground};
use nq_history::History;
use nq_kernel::Work;
use nq_shell_parts::{first_of_choice, neither_of_choice, second_of_choice};
use std::alloc::AllocError;

/// Adds the law of a choice of which the first holds, or the second, or neither.
fn choice_law(
    work: &mut Work,
    history: &History,
    first: bool,
    second: bool,
) -> Result<u64, AllocError>
    requires stands { WorkStands history.now work.old }
    ensures line { IfOk result (λ n. LineHolds work.new n (choice_clause first second)) }
    ensures grows { GrowsUncounted history.now work.old work.new }
{
    if first {
        first_of_choice(work, history)
    } else if second {
        second_of_choice(work, history)
    } else {
        neither_of_choice(work, history)
    }
}

/// Adds the law of a choice, at two terms.
fn choice_at(
    work: &mut Work,
    history: &History,
    first: Decided,
    second: Decided,
) -> Result<u64, AllocError>
    requires stands { WorkStands history.now work.old }
    requires first { IsSmallIn history.now work.old first.term }
    requires second { IsSmallIn history.now work.old second.term }
    ensures line { IfOk result (λ n. LineHasOnly work.new n (choice_literals first.holds second.holds (term_at work.old.bank first.term) (term_at work.old.bank second.term))) }
    ensures grows { GrowsUncounted history.now work.old work.new }
{
    let law = choice_law(work, history, first.holds, second.holds)?;
    at_three(work, history, law, first.term, second.term, second.term)
}

/// Takes what is decided out of a line that tells the opposite of it.
fn cut_decided(
    work: &mut Work,
    history: &History,
    known: Decided,
    line: u64,
) -> Result<u64, AllocError>
    requires stands { WorkStands history.now work.old }
    requires known { IsDecided history.now work.old (term_at work.old.bank known.term) known.holds known }
    requires line { LineStands work.old line }
    ensures line { IfOk result (λ n. (these : List Term) → LineHasOnly work.old line (told (not known.holds) (term_at work.old.bank known.term) ∷ these) → LineHasOnly work.new n these) }
    ensures stands { IfOk result (λ n. LineStands work.new n) }
    ensures grows { GrowsUncounted history.now work.old work.new }
{
    if known.holds {
        cut(work, history, known.line, line, known.term)
    } else {
        cut(work, history, line, known.line, known.term)
    }
}

/// Adds the line that one of two decided terms holds, or that neither does.
fn either_line(
    work: &mut Work,
    history: &History,
    first: Decided,
    second: Decided,
) -> Result<u64, AllocError>
    requires stands { WorkStands history.now work.old }
    requires first { IsDecided history.now work.old (term_at work.old.bank first.term) first.holds first }
    requires second { IsDecided history.now work.old (term_at work.old.bank second.term) second.holds second }
    ensures line { IfOk result (λ n. LineHasOnly work.new n (told (first.holds || second.holds) (or_term (term_at work.old.bank first.term) (term_at work.old.bank second.term)) ∷ [])) }
    ensures grows { GrowsUncounted history.now work.old work.new }
{
    let law = choice_at(work, history, first, second)?;
    if first.holds {
        return cut_decided(work, history, first, law);
    }
    let rest = cut_decided(work, history, second, law)?;
    if second.holds {
        Ok(rest)
    } else {
        cut_decided(work, history, first, rest)
    }
}

/// Decides whether one of two decided terms holds.
fn either(
    work: &mut Work,
    history: &History,
    first: Decided,
    second: Decided,
) -> Result<Decided, AllocError>
    requires stands { WorkStands history.now work.old }
    requires first { IsDecided history.now work.old (term_at work.old.bank first.term) first.holds first }
    requires second { IsDecided history.now work.old (term_at work.old.bank second.term) second.holds second }
    requires room { depth_of (or_term (term_at work.old.bank first.term) (term_at work.old.bank second.term)) ≤ term_room }
    ensures decided { IfOk result (IsDecided history.now work.new (or_term (term_at work.old.bank first.term) (term_at work.old.bank second.term)) (first.holds || second.holds)) }
    ensures grows { GrowsUncounted history.now work.old work.new }
{
    let term = ground_call(work, history, ground::OR, &[first.term, second.term])?;
    let line = either_line(work, history, first, second)?;
    Ok(Decided {
        term,
        holds: first.holds || second.holds,
        line,
    })
}

/// Decides whether T, or F, is of one of several kinds.
pub fn one_of_kinds(
    work: &mut Work,
    history: &History,
    names: &[Sym],
    value: bool,
) -> Result<Decided, AllocError>
    requires stands { WorkStands history.now work.old }
    requires rows { HasKnownRows (events_at work.old.bank history.now) }
    requires some { 0 < length names.now }
    requires named { All (IsNamed work.old.bank) names.now }
    requires kinds { Each (IsKind (events_at work.old.bank history.now)) (texts_at work.old.bank names.now) }
    requires few { length names.now ≤ recognizer_limit }
    ensures decided { IfOk result (IsDecided history.now work.new (either_of (recognized (texts_at work.old.bank names.now) (truth_term value))) (has_name (truth_kind value) (texts_at work.old.bank names.now))) }
    ensures grows { GrowsUncounted history.now work.old work.new }
{
    match names {
        [] => unreachable!(),
        [name, rest @ ..] => {
            let first = kind(work, history, *name, value)?;
            if rest.is_empty() {
                return Ok(first);
            }
            let second = one_of_kinds(work, history, rest, value)?;
            either(work, history, first, second)
        }
    }
}
