//! A log that is read from a source, and the verdict on it.
ghost use Rattle.std.specs.Prelude.{◌≡◌, ◌+◌, ◌<◌, ◌≤◌, ◌^◌, IfOk, OnErr, Err, length, take};
ghost use Rattle.std.specs.Io.KnownBytes.{Appends, Consumes, IsAtEnd, Keeps};
ghost use Rattle.nq_io.specs.Faults.{HasCause, Rose};
ghost use Rattle.nq_log.specs.Streams.{AtStart};
ghost use Rattle.nq_log.specs.Logs.{step};
ghost use Rattle.nq_io.specs.Told.{AppendsPart};
ghost use Rattle.nq_check.specs.Outcomes.{answer_text, Checks};
ghost use Rattle.nq_check.specs.Passing.{place_of, IsReady};
ghost use Rattle.nq_check.specs.Checking.{EndsSo, Judges};

use crate::checker::{Checker, Spot};
use crate::pieces::write_text;
use crate::verdict::{CheckFault, Checked, Refusal, verdict_line};
use nq_io::{Failed, Sink, Source};
use nq_log::right_claims;
use std::alloc::Global;

/// How many bytes of a log are read.
const LIMIT: u64 = 1 << 62;

/// How many bytes are asked for at once.
const ROOM: usize = 4096;

/// How many bytes are asked for once so many were taken: a whole buffer, or those up to the limit, or one past it.
fn room_at(taken: u64) -> usize
    requires { taken ≤ 2 ^ 62 }
    ensures some { 0 < result }
    ensures fits { result ≤ 4096 }
    ensures within { taken < 2 ^ 62 → taken + result ≤ 2 ^ 62 }
{
    if taken + 4096 <= LIMIT {
        ROOM
    } else if taken < LIMIT {
        (LIMIT - taken) as usize
    } else {
        1
    }
}

/// The next bytes of the source, at most so many, in the front of the buffer.
fn read_bytes<S: Source>(src: &mut S, buffer: &mut [u8], room: usize) -> Result<usize, Failed>
    requires some { 0 < room }
    requires fits { room ≤ length buffer.old }
    ensures taken { IfOk result (λ n. Consumes (S.left src.old) (S.left src.new) (take n buffer.new)) }
    ensures count { IfOk result (λ n. length (take n buffer.new) ≡ n) }
    ensures most { IfOk result (λ n. n ≤ room) }
    ensures end { IfOk result (λ n. n ≡ 0 → IsAtEnd (S.left src.new)) }
    ensures kept { OnErr result (Keeps (S.left src.old) (S.left src.new)) }
    ensures cause { HasCause (S.faults src.old) (S.faults src.new) result }
{
    src.read(&mut buffer[..room])
}

impl Checker {
    /// The answer where the text ends here.
    fn answer_at_end(&self) -> Checked
        requires { IsReady self.now }
        ensures { EndsSo self.now result }
    {
        match self.spot {
            Spot::Start => Checked::Refused(self.line, Refusal::UnexpectedEnd),
            Spot::Between => Checked::Refused(self.line, Refusal::UnexpectedEnd),
            Spot::End => Checked::Accepted(self.claims),
        }
    }
}

/// Reads a text to its end or its first wrong line, and writes the lines of its claims.
fn judge_text<S: Source, O: Sink>(
    alloc: Global,
    src: &mut S,
    out: &mut O,
    checker: &mut Checker,
) -> Result<Checked, CheckFault>
    requires ready { IsReady checker.old }
    requires start { place_of checker.old ≡ AtStart }
    requires none { checker.old.claims ≡ 0 }
    ensures judges { Judges (S.left src.old) (O.written out.old) (O.written out.new) result }
    ensures read { result ≡ Err CheckFault.Read → Rose (S.faults src.old) (S.faults src.new) }
    ensures write { result ≡ Err CheckFault.Write → Rose (O.faults out.old) (O.faults out.new) }
    ensures later { O.faults out.old ≤ O.faults out.new }
{
    right_claims();
    let mut unfinished = Vec::new(alloc);
    let mut buffer = [0; ROOM];
    let mut taken: u64 = 0;
    'pieces: loop {
        let room = room_at(taken);
        let count = match read_bytes(src, &mut buffer, room) {
            Ok(count) => count,
            Err(_) => return Err(CheckFault::Read),
        };
        if count == 0 {
            return Ok(checker.answer_at_end());
        }
        if taken == LIMIT {
            return Err(CheckFault::TooLong);
        }
        taken += count as u64;
        match checker.take_piece(out, &mut unfinished, &buffer[..count]) {
            Ok(None) => {}
            Ok(Some(why)) => return Ok(Checked::Refused(checker.line, why)),
            Err(fault) => return Err(fault),
        }
    }
}

/// Checks a log: reads it line by line from the source, writes a line for each claim as it is established, each by one
/// write, and then the verdict. The source is asked for more only where no whole line is in hand. The history starts as the
/// ground history, and at most 2^62 bytes are read.
///
/// `Read` comes only where the source's count of faults rose, `Write` only where the sink's did, `TooLong` where the text
/// is longer than the limit and none of its lines within it is wrong.
pub fn check<S: Source, O: Sink>(
    alloc: Global,
    src: &mut S,
    out: &mut O,
) -> Result<Checked, CheckFault>
    // The answer, what was written, and that each claim that was written holds in the history of the claims before it.
    ensures checks { Checks step (S.left src.old) (O.written out.old) (O.written out.new) result }

    // A fault of a stream has its cause.
    ensures read { result ≡ Err CheckFault.Read → Rose (S.faults src.old) (S.faults src.new) }
    ensures write { result ≡ Err CheckFault.Write → Rose (O.faults out.old) (O.faults out.new) }
{
    right_claims();
    let mut checker = match Checker::new(alloc) {
        Ok(checker) => checker,
        Err(_) => return Err(CheckFault::Memory),
    };
    match judge_text(alloc, src, out, &mut checker) {
        Ok(answer) => write_verdict(alloc, out, answer),
        Err(fault) => Err(fault),
    }
}

/// Writes the verdict.
fn write_verdict<O: Sink>(
    alloc: Global,
    out: &mut O,
    answer: Checked,
) -> Result<Checked, CheckFault>
    ensures ok { IfOk result (λ given. (given ≡ answer) × Appends (O.written out.old) (O.written out.new) (answer_text answer)) }
    ensures err { OnErr result (AppendsPart (O.written out.old) (O.written out.new) (answer_text answer)) }
    ensures write { result ≡ Err CheckFault.Write → Rose (O.faults out.old) (O.faults out.new) }
    ensures later { O.faults out.old ≤ O.faults out.new }
    ensures no_read { result ≡ Err CheckFault.Read → ⊥ }
    ensures no_length { result ≡ Err CheckFault.TooLong → ⊥ }
{
    let line = match verdict_line(alloc, answer) {
        Ok(line) => line,
        Err(_) => return Err(CheckFault::Memory),
    };
    match write_text(out, line.as_slice()) {
        Ok(()) => Ok(answer),
        Err(fault) => Err(fault),
    }
}
