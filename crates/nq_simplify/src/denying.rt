//! Lines of literals that are denied twice: by them a literal that is false is dropped.
ghost use Rattle.std.specs.Prelude.{◌≡◌, ◌∷◌, [], IfOk, Err};
ghost use Rattle.nq_logic.specs.Words.{not_term, equal_term};
ghost use Rattle.nq_bank.specs.Content.{term_at};
ghost use Rattle.nq_kernel.specs.Growing.{WorkStands, WorkGrows, LineStands};
ghost use Rattle.nq_lines.specs.Lines.{IsTermIn, LineHasOnly, MakesOf};

use nq_bank::TermId;
use nq_history::History;
use nq_kernel::{Stop, Work};
use nq_lines::{cut, deny, equate, opposites, reflexive};

/// Adds a line of `(NOT (NOT p))`, from one of p. So where p is a value other than F, or `(EQUAL t t)`, the literal `(NOT p)`
/// is dropped.
pub fn deny_twice(work: &mut Work, history: &History, p: TermId, line: u64) -> Result<u64, Stop>
    requires stands { WorkStands history.now work.old }
    requires term { IsTermIn history.now work.old p }
    requires line { LineStands work.old line }
    ensures line { IfOk result (λ n. MakesOf work.old work.new (term_at work.old.bank p) (not_term (not_term (term_at work.old.bank p))) line n) }
    ensures grows { WorkGrows history.now work.old work.new }
    ensures out { result ≡ Err Stop.OutOfSteps → work.new.counter.used ≡ work.new.counter.limit }
{
    let denial = deny(work, history, p)?;
    let law = opposites(work, history, denial)?;
    cut(work, history, line, law, p)
}

/// Adds the line of `(NOT (NOT (EQUAL t t)))`.
pub fn same_denied_twice(work: &mut Work, history: &History, t: TermId) -> Result<u64, Stop>
    requires stands { WorkStands history.now work.old }
    requires term { IsTermIn history.now work.old t }
    ensures line { IfOk result (λ n. LineHasOnly work.new n (not_term (not_term (equal_term (term_at work.old.bank t) (term_at work.old.bank t))) ∷ [])) }
    ensures grows { WorkGrows history.now work.old work.new }
    ensures out { result ≡ Err Stop.OutOfSteps → work.new.counter.used ≡ work.new.counter.limit }
{
    let line = reflexive(work, history, t)?;
    let equation = equate(work, history, t, t)?;
    deny_twice(work, history, equation, line)
}
