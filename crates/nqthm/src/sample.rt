//! The command `sample`: the event file that a seed and a size give is written, and run in memory.
ghost use Rattle.std.specs.Prelude.{◌≡◌, ◌⊎◌, Some, None, Ok, IfOk, IsErrOf, OnOk, string_bytes};
ghost use Rattle.std.specs.Io.KnownBytes.{Appends};
ghost use Rattle.nq_io.specs.Faults.{Rose};
ghost use Rattle.nq_comment.specs.ReportViews.{ending_of};
ghost use Rattle.nq_comment.specs.Text.{closing_lines};
ghost use Rattle.nq_comment.specs.Totals.{totals_in};
ghost use Rattle.nq_sample.specs.Sample.{sample_of};
ghost use Rattle.nqthm.specs.Samples.{IsSampled, RanInMemory};

use crate::{FAILED_WRITE, NO_MEMORY, WRONG_SPELLING};
use nq_comment::{SyntaxFault, render_closing};
use nq_io::{Sink, SinkFault, SureSink, SureSource};
use nq_run::{Ended, run_events};
use nq_sample::sample_text;
use nq_tactic::Searcher;
use std::alloc::Global;

/// The steps that each event may take.
const STEPS: u64 = 2_000_000;

/// Writes the event file of a seed and a size to `out`, runs it, and writes the summary line of the run to `side`. Gives the
/// status.
pub fn sample_status<O: Sink, E: Sink>(
    alloc: Global,
    seed: u64,
    size: u64,
    out: &mut O,
    side: &mut E,
) -> u8
    ensures sampled { result ≡ 0 → IsSampled seed size (O.written out.old) (O.written out.new) (E.written side.old) (E.written side.new) }
    ensures sink { result ≡ 5 → Rose (O.faults out.old) (O.faults out.new) ⊎ Rose (E.faults side.old) (E.faults side.new) }
    ensures status { (result ≡ 0) ⊎ ((result ≡ 3) ⊎ ((result ≡ 5) ⊎ (result ≡ 6))) }
{
    match write_sample(alloc, seed, size, out, side) {
        Ok(None) => 0,
        Ok(Some(_)) => WRONG_SPELLING,
        Err(SinkFault::Failed) => FAILED_WRITE,
        Err(SinkFault::Memory) => NO_MEMORY,
    }
}

/// Writes a sample and what came of its run, and tells what is wrong with its spelling.
fn write_sample<O: Sink, E: Sink>(
    alloc: Global,
    seed: u64,
    size: u64,
    out: &mut O,
    side: &mut E,
) -> Result<Option<SyntaxFault>, SinkFault>
    ensures sampled { result ≡ Ok None → IsSampled seed size (O.written out.old) (O.written out.new) (E.written side.old) (E.written side.new) }
    ensures sink { IsErrOf result SinkFault.Failed → Rose (O.faults out.old) (O.faults out.new) ⊎ Rose (E.faults side.old) (E.faults side.new) }
{
    let text = text_of(alloc, seed, size)?;
    out.write_all(text.as_slice())?;
    let ended = run_text(alloc, text)?;
    write_summary(alloc, ended, side)?;
    Ok(ended.fault)
}

/// The bytes of a sample.
fn text_of(alloc: Global, seed: u64, size: u64) -> Result<Vec<u8>, SinkFault>
    ensures text { IfOk result (λ text. text.items ≡ sample_of seed size) }
    ensures only { IsErrOf result SinkFault.Failed → ⊥ }
{
    match sample_text(alloc, seed, size) {
        Ok(text) => Ok(text.into_bytes()),
        Err(_) => Err(SinkFault::Memory),
    }
}

/// Runs an event file that stands in memory: only want of memory stops the run.
fn run_text(alloc: Global, text: Vec<u8>) -> Result<Ended, SinkFault>
    ensures ran { IfOk result (RanInMemory text.items) }
    ensures only { IsErrOf result SinkFault.Failed → ⊥ }
{
    let mut src = SureSource::new(text);
    let mut comment = SureSink::new(alloc);
    let mut log = SureSink::new(alloc);
    let mut prover = Searcher::new(alloc);
    match run_events(
        alloc,
        &mut src,
        &mut comment,
        &mut log,
        false,
        &mut prover,
        STEPS,
    ) {
        Ok(ended) => Ok(ended),
        Err(_) => Err(SinkFault::Memory),
    }
}

/// Writes the summary line of a run, behind a line on what is wrong with the spelling, where something is.
fn write_summary<E: Sink>(alloc: Global, ended: Ended, side: &mut E) -> Result<(), SinkFault>
    ensures written { OnOk result (Appends (E.written side.old) (E.written side.new) (closing_lines (ending_of ended.fault) (totals_in ended.counts))) }
    ensures sink { IsErrOf result SinkFault.Failed → Rose (E.faults side.old) (E.faults side.new) }
{
    match render_closing(alloc, ended.fault, ended.counts) {
        Ok(text) => side.write_all(text.as_slice()),
        Err(_) => Err(SinkFault::Memory),
    }
}
