//! Refutations of literals, with a line of the log.
ghost use Rattle.std.specs.Prelude.{◌≡◌, All, IfOk, Err, true};
ghost use Rattle.nq_bank.specs.Content.{Stands, terms_at};
ghost use Rattle.nq_proof.specs.Rules.{has_only};
ghost use Rattle.nq_kernel.specs.Growing.{WorkGrows, WorkStands};
ghost use Rattle.nq_kernel.specs.Meaning.{clause_at};
ghost use Rattle.nq_kernel.specs.Over.{TermIsIn};
ghost use Rattle.nq_linear.specs.Answers.{FindsRightly, IsRefutation, MissesNoLine};
ghost use Rattle.nq_linear.specs.Refuting.{AnswersRightly, TriesSmallSums};

use crate::answer::{Found, find};
use nq_bank::TermId;
use nq_history::History;
use nq_kernel::{Rule, Stop, Work};
use nq_linear_rule::Summand;

/// What linear arithmetic answers of literals.
#[derive(Clone, Copy, Debug, PartialEq, Eq)]
pub enum LinearAnswer {
    /// This line has only some of the literals.
    Refuted(u64),
    /// No refutation was found.
    Nothing,
    /// None was found, and in making the literals' expressions these two numbers are met, whose sum or product leaves the
    /// bounds.
    Passes(i128, i128),
    /// None was found, and the literals hold this numeral, which leaves the bounds.
    Wide(u128),
    /// None was found, and of so many literals only sums of one and of two were tried.
    TooMany,
}

/// Adds the line of summands that are refuted.
fn add_refutation(
    work: &mut Work,
    history: &History,
    literals: &[TermId],
    summands: Vec<Summand>,
) -> Result<u64, Stop>
    requires stands { WorkStands history.now work.old }
    requires literals { All (Stands work.old.bank) literals.now }
    requires over { All (TermIsIn work.old.bank history.now) literals.now }
    requires refuted { IsRefutation work.old.bank literals.now summands.items }
    ensures line { IfOk result (λ n. has_only (clause_at work.new.bank work.new.log n) (terms_at work.new.bank literals.now) ≡ true) }
    ensures grows { WorkGrows history.now work.old work.new }
    ensures out { result ≡ Err Stop.OutOfSteps → work.new.counter.used ≡ work.new.counter.limit }
{
    let _ = literals.len();
    work.add(history, Rule::Linear(summands))
}

/// Answers what was found, with the line where that is a refutation.
fn answered(
    work: &mut Work,
    history: &History,
    literals: &[TermId],
    found: Found,
) -> Result<LinearAnswer, Stop>
    requires stands { WorkStands history.now work.old }
    requires literals { All (Stands work.old.bank) literals.now }
    requires over { All (TermIsIn work.old.bank history.now) literals.now }
    requires right { FindsRightly work.old.bank literals.now found }
    requires complete { MissesNoLine work.old.bank literals.now found }
    ensures right { IfOk result (AnswersRightly work.new literals.now) }
    ensures tries { IfOk result (TriesSmallSums work.new literals.now) }
    ensures grows { WorkGrows history.now work.old work.new }
    ensures out { result ≡ Err Stop.OutOfSteps → work.new.counter.used ≡ work.new.counter.limit }
{
    match found {
        Found::Refuted(summands) => {
            let line = add_refutation(work, history, literals, summands)?;
            Ok(LinearAnswer::Refuted(line))
        }
        Found::Nothing => Ok(LinearAnswer::Nothing),
        Found::Passes(x, y) => Ok(LinearAnswer::Passes(x, y)),
        Found::Wide(n) => Ok(LinearAnswer::Wide(n)),
        Found::TooMany => Ok(LinearAnswer::TooMany),
    }
}

/// Refutes literals by linear arithmetic: where the sum of the expressions of some of them, each so many times, is negative,
/// there is a line that has only literals of these.
///
/// Sums of one and of two of the literals, each taken once, are all tried before it gives up. Elimination comes next, unless
/// 2,000 of the literals or more are of the kinds that have expressions.
pub fn refute(work: &mut Work, history: &History, literals: &[TermId]) -> Result<LinearAnswer, Stop>
    requires stands { WorkStands history.now work.old }
    requires literals { All (Stands work.old.bank) literals.now }
    requires over { All (TermIsIn work.old.bank history.now) literals.now }
    ensures right { IfOk result (AnswersRightly work.new literals.now) }
    ensures tries { IfOk result (TriesSmallSums work.new literals.now) }
    ensures grows { WorkGrows history.now work.old work.new }
    ensures out { result ≡ Err Stop.OutOfSteps → work.new.counter.used ≡ work.new.counter.limit }
{
    match find(&work.bank, literals) {
        Ok(found) => answered(work, history, literals, found),
        Err(_) => Err(Stop::Memory),
    }
}
