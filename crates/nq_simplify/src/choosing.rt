//! IFs in literals.
ghost use Rattle.std.specs.Prelude.{◌≡◌, IfOk, OnOk, MatchOption, Err};
ghost use Rattle.nq_bank.specs.Content.{term_at};
ghost use Rattle.nq_cases.specs.Paths.{IsIfFree};
ghost use Rattle.nq_cases.specs.Counts.{HasCounts};
ghost use Rattle.nq_kernel.specs.Growing.{WorkStands, WorkGrows};
ghost use Rattle.nq_lines.specs.Lines.{IsTermIn};
ghost use Rattle.nq_simplify.specs.Splitting.{IsChoiceIn};

use nq_bank::{BankFault, TermId};
use nq_cases::{Choice, choose};
use nq_history::History;
use nq_kernel::{Stop, Work};
use std::collections::HashMap;

/// The cap of the counts of paths: whether a term has an IF shows at two.
const CAP: u128 = 2;

/// An IF of a literal that stands in no branch of another one, and the literals with its branches in its place; none where
/// the literal has no IF. The lines that a split adds are counted, and not the terms that are made here.
pub fn choose_in(
    work: &mut Work,
    history: &History,
    known: &mut HashMap<u64, u128>,
    t: TermId,
) -> Result<Option<Choice>, Stop>
    requires stands { WorkStands history.now work.old }
    requires counts { HasCounts work.old.bank 2 known.old }
    requires term { IsTermIn history.now work.old t }
    ensures choice { IfOk result (λ o. MatchOption o (IsIfFree (term_at work.old.bank t)) (λ c. IsChoiceIn history.now work.new t c)) }
    ensures counts { OnOk result (HasCounts work.new.bank 2 known.new) }
    ensures grows { WorkGrows history.now work.old work.new }
    ensures out { result ≡ Err Stop.OutOfSteps → ⊥ }
{
    match choose(&mut work.bank, known, t, CAP) {
        Ok(choice) => Ok(choice),
        Err(_) => Err(Stop::Memory),
    }
}
