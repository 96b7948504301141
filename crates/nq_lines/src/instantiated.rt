//! Instances of lines.
ghost use Rattle.std.specs.Prelude.{◌≡◌, IfOk, IfSome, Err};
ghost use Rattle.nq_kernel.specs.Growing.{WorkGrows, WorkStands};
ghost use Rattle.nq_lines.specs.Instances.{ArePairsIn};
ghost use Rattle.nq_lines.specs.Lines.{IsTermIn};
ghost use Rattle.nq_lines.specs.Facts.{IsFact};

use crate::facts::{Fact, literal_of};
use crate::matched::match_pairs;
use nq_bank::TermId;
use nq_clause::Pair;
use nq_history::History;
use nq_kernel::{Stop, Work};

/// Adds an instance of a line that has one literal.
pub fn instance_fact(
    work: &mut Work,
    history: &History,
    fact: Fact,
    pairs: Vec<Pair>,
) -> Result<Option<Fact>, Stop>
    requires stands { WorkStands history.now work.old }
    requires fact { IsFact history.now work.old fact }
    requires pairs { ArePairsIn history.now work.old pairs.items }
    ensures fact { IfOk result (λ found. IfSome found (IsFact history.now work.new)) }
    ensures grows { WorkGrows history.now work.old work.new }
    ensures out { result ≡ Err Stop.OutOfSteps → work.new.counter.used ≡ work.new.counter.limit }
{
    let line = work.find_instance(history, fact.line, pairs)?;
    match literal_of(work, history, line) {
        Some(t) => Ok(Some(Fact { term: t, line })),
        None => Ok(None),
    }
}

/// Adds the instance of a line that takes a pattern to a term, if there is one.
pub fn matched_fact(
    work: &mut Work,
    history: &History,
    fact: Fact,
    pattern: TermId,
    t: TermId,
) -> Result<Option<Fact>, Stop>
    requires stands { WorkStands history.now work.old }
    requires fact { IsFact history.now work.old fact }
    requires pattern { IsTermIn history.now work.old pattern }
    requires term { IsTermIn history.now work.old t }
    ensures fact { IfOk result (λ found. IfSome found (IsFact history.now work.new)) }
    ensures grows { WorkGrows history.now work.old work.new }
    ensures out { result ≡ Err Stop.OutOfSteps → work.new.counter.used ≡ work.new.counter.limit }
{
    match match_pairs(work, history, pattern, t)? {
        Some(pairs) => instance_fact(work, history, fact, pairs),
        None => Ok(None),
    }
}
