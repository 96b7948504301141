//! Which part of an IF it is, by what its test is equal to, and an IF of two equal parts.
ghost use Rattle.std.specs.Prelude.{◌≡◌, ◌∷◌, [], IfOk, Err};
ghost use Rattle.nq_logic.specs.Words.{equal_term, if_term, true_term, false_term};
ghost use Rattle.nq_bank.specs.Content.{term_at};
ghost use Rattle.nq_kernel.specs.Growing.{WorkStands, WorkGrows, LineStands};
ghost use Rattle.nq_lines.specs.Lines.{IsTermIn, LineHasOnly, MakesOf};

use crate::conditions::{
    first_chosen, from_equal_false, from_equal_true, if_false, if_true, second_chosen,
};
use crate::rules::cut;
use nq_bank::TermId;
use nq_history::History;
use nq_kernel::{Stop, Work};

/// Adds a line that an IF is its first branch, from one that its test equals T.
pub fn if_equal_true(
    work: &mut Work,
    history: &History,
    p: TermId,
    x: TermId,
    y: TermId,
    line: u64,
) -> Result<u64, Stop>
    requires stands { WorkStands history.now work.old }
    requires test { IsTermIn history.now work.old p }
    requires first { IsTermIn history.now work.old x }
    requires second { IsTermIn history.now work.old y }
    requires line { LineStands work.old line }
    ensures line { IfOk result (λ n. MakesOf work.old work.new (equal_term (term_at work.old.bank p) true_term) (equal_term (if_term (term_at work.old.bank p) (term_at work.old.bank x) (term_at work.old.bank y)) (term_at work.old.bank x)) line n) }
    ensures stands { IfOk result (λ n. LineStands work.new n) }
    ensures grows { WorkGrows history.now work.old work.new }
    ensures out { result ≡ Err Stop.OutOfSteps → work.new.counter.used ≡ work.new.counter.limit }
{
    let shown = from_equal_true(work, history, p, line)?;
    if_true(work, history, p, x, y, shown)
}

/// Adds a line that an IF is its second branch, from one that its test equals F.
pub fn if_equal_false(
    work: &mut Work,
    history: &History,
    p: TermId,
    x: TermId,
    y: TermId,
    line: u64,
) -> Result<u64, Stop>
    requires stands { WorkStands history.now work.old }
    requires test { IsTermIn history.now work.old p }
    requires first { IsTermIn history.now work.old x }
    requires second { IsTermIn history.now work.old y }
    requires line { LineStands work.old line }
    ensures line { IfOk result (λ n. MakesOf work.old work.new (equal_term (term_at work.old.bank p) false_term) (equal_term (if_term (term_at work.old.bank p) (term_at work.old.bank x) (term_at work.old.bank y)) (term_at work.old.bank y)) line n) }
    ensures stands { IfOk result (λ n. LineStands work.new n) }
    ensures grows { WorkGrows history.now work.old work.new }
    ensures out { result ≡ Err Stop.OutOfSteps → work.new.counter.used ≡ work.new.counter.limit }
{
    let shown = from_equal_false(work, history, p, line)?;
    if_false(work, history, p, x, y, shown)
}

/// Adds the line that an IF of two equal parts is that part.
pub fn if_same(work: &mut Work, history: &History, p: TermId, x: TermId) -> Result<u64, Stop>
    requires stands { WorkStands history.now work.old }
    requires test { IsTermIn history.now work.old p }
    requires part { IsTermIn history.now work.old x }
    ensures line { IfOk result (λ n. LineHasOnly work.new n (equal_term (if_term (term_at work.old.bank p) (term_at work.old.bank x) (term_at work.old.bank x)) (term_at work.old.bank x) ∷ [])) }
    ensures grows { WorkGrows history.now work.old work.new }
    ensures out { result ≡ Err Stop.OutOfSteps → work.new.counter.used ≡ work.new.counter.limit }
{
    let first = first_chosen(work, history, p, x, x)?;
    let second = second_chosen(work, history, p, x, x)?;
    cut(work, history, second, first, p)
}
