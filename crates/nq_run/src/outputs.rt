// What a run writes to its two sinks.
ghost use Rattle.std.specs.Prelude.{◌≡◌, ◌+◌, ◌≤◌, ◌<◌, ◌^◌, ◌↔◌, ◌⊎◌, length, true, false, Err, IfOk, IsTrue, OnOk, OnErr};
ghost use Rattle.std.specs.Io.KnownBytes.{Appends, Keeps};
ghost use Rattle.nq_io.specs.Faults.{Rose};
ghost use Rattle.nq_run.specs.Outcome.{GrowsWithin, WriteFails, Logs, LogsWithin, held_in};

use crate::runs::RunFault;
use nq_io::{Sink, SinkFault};

/// A log has fewer bytes than this.
const LOG_LIMIT: u64 = 1 << 62;

/// A block of a log has at most this many bytes.
const BLOCK_LIMIT: u64 = 1 << 40;

/// Has the block more bytes than a block may have?
pub(crate) fn is_block_too_long(block: &[u8]) -> bool
    ensures { IsTrue result ↔ (2 ^ 40 < length block.now) }
{
    BLOCK_LIMIT < block.len() as u64
}

/// Writes a text by one write.
#[tactic(auto, using(crate::proofs::RunLemmas::within_part))]
pub(crate) fn write_text<O: Sink>(sink: &mut O, text: &[u8]) -> Result<(), RunFault>
    ensures ok { OnOk result (Appends (O.written sink.old) (O.written sink.new) text.now) }
    ensures err { OnErr result (GrowsWithin (O.written sink.old) (O.written sink.new) text.now) }
    ensures write { result ≡ Err RunFault.Write → Rose (O.faults sink.old) (O.faults sink.new) }
    ensures later { O.faults sink.old ≤ O.faults sink.new }
    ensures no_read { result ≡ Err RunFault.Read → ⊥ }
    ensures no_length { result ≡ Err RunFault.TooLong → ⊥ }
{
    match sink.write_all(text) {
        Ok(()) => Ok(()),
        Err(SinkFault::Failed) => Err(RunFault::Write),
        Err(SinkFault::Memory) => Err(RunFault::Memory),
    }
}

/// The log so far: whether one is written, and how many bytes of it this run has written.
#[derive(Clone, Copy)]
pub(crate) struct LogSoFar {
    pub(crate) logging: bool,
    pub(crate) count: u64,
}

impl LogSoFar {
    /// Would these bytes bring the log to its limit?
    pub(crate) fn is_full_with(self, text: &[u8]) -> bool
        requires { self.count < 2 ^ 62 }
        ensures { IsTrue result ↔ ((self.logging ≡ true) × (2 ^ 62 ≤ self.count + length text.now)) }
    {
        self.logging && LOG_LIMIT - self.count <= text.len() as u64
    }

    /// Writes the text to the log, where one is written. The text leaves the log below its limit.
    pub(crate) fn append<L: Sink>(self, log: &mut L, text: &[u8]) -> Result<LogSoFar, RunFault>
        requires within { self.count < 2 ^ 62 }
        requires room { self.logging ≡ true → self.count + length text.now < 2 ^ 62 }
        ensures ok { OnOk result (Logs self.logging (L.written log.old) (L.written log.new) text.now) }
        ensures same { IfOk result (λ later. later.logging ≡ self.logging) }
        ensures count { IfOk result (λ later. self.logging ≡ true → later.count ≡ self.count + length text.now) }
        ensures bound { IfOk result (λ later. later.count < 2 ^ 62) }
        ensures err { OnErr result (LogsWithin self.logging (L.written log.old) (L.written log.new) text.now) }
        ensures write { result ≡ Err RunFault.Write → Rose (L.faults log.old) (L.faults log.new) }
        ensures later { L.faults log.old ≤ L.faults log.new }
        ensures no_read { result ≡ Err RunFault.Read → ⊥ }
        ensures no_length { result ≡ Err RunFault.TooLong → ⊥ }
        ensures alone { self.logging ≡ false → log.new ≡ log.old }
    {
        if !self.logging {
            return Ok(self);
        }
        match write_text(log, text) {
            Ok(()) => Ok(self.with(text)),
            Err(fault) => Err(fault),
        }
    }

    fn with(self, text: &[u8]) -> LogSoFar
        requires { self.count + length text.now < 2 ^ 62 }
        ensures same { result.logging ≡ self.logging }
        ensures count { result.count ≡ self.count + length text.now }
    {
        LogSoFar {
            logging: self.logging,
            count: self.count + text.len() as u64,
        }
    }
}

/// Writes the closing lines, and behind them the last line of the log, where one is written.
#[tactic(auto, using(crate::proofs::RunLemmas::log_fails))]
pub(crate) fn write_last<O: Sink, L: Sink>(
    comment: &mut O,
    closing: &[u8],
    log: &mut L,
    so_far: LogSoFar,
    last: &[u8],
) -> Result<LogSoFar, RunFault>
    requires within { so_far.count < 2 ^ 62 }
    requires room { so_far.logging ≡ true → so_far.count + length last.now < 2 ^ 62 }
    ensures ok { OnOk result (Appends (O.written comment.old) (O.written comment.new) closing.now) }
    ensures log_ok { OnOk result (Logs so_far.logging (L.written log.old) (L.written log.new) last.now) }
    ensures fails { OnErr result (WriteFails so_far.logging closing.now last.now
        (held_in (O.written comment.old) (L.written log.old)) (held_in (O.written comment.new) (L.written log.new))) }
    ensures write { result ≡ Err RunFault.Write → Rose (O.faults comment.old) (O.faults comment.new) ⊎ Rose (L.faults log.old) (L.faults log.new) }
    ensures no_read { result ≡ Err RunFault.Read → ⊥ }
    ensures no_length { result ≡ Err RunFault.TooLong → ⊥ }
    ensures alone { so_far.logging ≡ false → log.new ≡ log.old }
{
    match write_text(comment, closing) {
        Ok(()) => so_far.append(log, last),
        Err(fault) => Err(fault),
    }
}
