//! What facts rest on, and their lines.
ghost use Rattle.std.specs.Prelude.{◌≡◌, All, IfOk, Err};
ghost use Rattle.nq_kernel.specs.Growing.{LineStands, WorkGrows, WorkStands};
ghost use Rattle.nq_lines.specs.Lines.{IsTermIn};
ghost use Rattle.nq_arithmetic.specs.Claims.{IsSourceIn};

use crate::assumptions::Source;
use crate::guards::{are_met, fact_line};
use crate::hypotheses::{instance_line, is_instance_met};
use nq_bank::TermId;
use nq_history::History;
use nq_kernel::{Stop, Work};

/// Is all met on which a fact rests? No line is added.
pub fn is_source_met(
    work: &mut Work,
    history: &History,
    literals: &[TermId],
    source: Source,
) -> Result<bool, Stop>
    requires stands { WorkStands history.now work.old }
    requires literals { All (IsTermIn history.now work.old) literals.now }
    requires source { IsSourceIn history.now work.old source }
    ensures grows { WorkGrows history.now work.old work.new }
    ensures out { result ≡ Err Stop.OutOfSteps → work.new.counter.used ≡ work.new.counter.limit }
{
    match source {
        Source::Law(template, at) => are_met(work, history, literals, template.guards, at),
        Source::Lemma(fact) => is_instance_met(work, history, literals, fact),
    }
}

/// Adds the line of a fact, with what of that on which it rests is among these literals.
pub fn source_line(
    work: &mut Work,
    history: &History,
    literals: &[TermId],
    source: Source,
) -> Result<u64, Stop>
    requires stands { WorkStands history.now work.old }
    requires literals { All (IsTermIn history.now work.old) literals.now }
    requires source { IsSourceIn history.now work.old source }
    ensures line { IfOk result (λ n. LineStands work.new n) }
    ensures grows { WorkGrows history.now work.old work.new }
    ensures out { result ≡ Err Stop.OutOfSteps → work.new.counter.used ≡ work.new.counter.limit }
{
    match source {
        Source::Law(template, at) => fact_line(work, history, literals, template, at),
        Source::Lemma(fact) => instance_line(work, history, literals, fact),
    }
}
