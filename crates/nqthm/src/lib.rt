//! The top call: from the words and the bytes to the commentary and a status.
//!
//! What the program is trusted for is the contract of `nqthm`: what it prints is a run over the
//! forms of the file, each lemma printed as proved is derivable in the history at that moment, and
//! each status has its cause.
#![tactic(auto)]

ghost use Rattle.std.specs.Prelude.{◌≡◌, ◌≤◌, ◌⊎◌, ℕ, Some, None, false, true, map, string_bytes};
ghost use Rattle.std.specs.Io.KnownBytes.{Appends};
ghost use Rattle.nq_io.specs.Faults.{Rose};
ghost use Rattle.nq_run.specs.Outcome.{GrowsWithin, held_in};
ghost use Rattle.nqthm.specs.Commands.{HasChecked, HasRun, check_status};
ghost use Rattle.nqthm.specs.Accepted.{WrittenLogs};
ghost use Rattle.nqthm.specs.Samples.{IsSampled};
ghost use Rattle.nqthm.specs.Words.{command_of};

// the command `sample`
mod sample;

// the words
mod words;

use crate::sample::sample_status;
use nq_check::{CheckFault, Checked, check};
use nq_io::{Sink, SinkFault, Source};
use nq_run::run_events;
use nq_tactic::Searcher;
use std::alloc::Global;
pub use words::{Command, WordsFault, read_command};

/// The line that tells which words there are.
const USAGE: &[u8] = b"usage: nqthm run [--steps N] | log [--steps N] | check | sample SEED SIZE\n";

/// The status where the words are not those of a command.
const REFUSED_WORDS: u8 = 2;

/// The status where the spelling of the file is wrong.
const WRONG_SPELLING: u8 = 3;

/// The status where a sink could not be written.
const FAILED_WRITE: u8 = 5;

/// The status where memory is wanting.
const NO_MEMORY: u8 = 6;

/// The whole program: reads the words, of which the first is the program's name, runs the command, and gives the status to
/// end with. `run` reads an event file from `src` and writes its commentary to `out`; `log` does the same, writes the log of
/// its proofs to `out` and the commentary to `side`; `check` reads a log from `src`, and writes its claims and the verdict to
/// `out`; `sample` writes the event file of a seed and a size to `out`, runs it, and writes the summary line of the run to
/// `side`.
///
/// - 0: the file was read to its end, and no form was refused or failed; the input is a right log; the sample was run.
/// - 1: the file was read to its end, and some form was refused or failed; the input is no right log.
/// - 2: the words are not those of a command.
/// - 3: the spelling of the file is wrong.
/// - 4: `src` could not be read.
/// - 5: `out` or `side` could not be written.
/// - 6: memory is wanting, or a block of a log would have more than 2^40 bytes.
/// - 7: the file has more than 2^25 bytes; a log would reach 2^62 bytes, or has more.
///
/// In each outcome of `run` and `log` a lemma reported as proved is derivable in the history before it, and the log that was
/// written to its end is right, so that `check` accepts it ([`written_logs`]); in each of its blocks a line that the closing
/// line does not cite is dropped directly after its last use. In each outcome of `check` a claim that was written holds in
/// the history of the claims before it.
#[tactic(auto, using(crate::proofs::Endings::untouched_checked))]
pub fn nqthm<S: Source, O: Sink, E: Sink>(
    alloc: Global,
    words: Vec<String>,
    src: &mut S,
    out: &mut O,
    side: &mut E,
) -> u8
    // Where the words are not those of a command, nothing is read and nothing is written to `out`,
    // and the whole usage line is written to `side`, or a front part of it where that fails.
    ensures refused_words { result ≡ 2 → command_of (map string_bytes words.items) ≡ None }
    ensures words { command_of (map string_bytes words.items) ≡ None → (result ≡ 2)
        ⊎ ((result ≡ 5) × Rose (E.faults side.old) (E.faults side.new)) ⊎ (result ≡ 6) }
    ensures untouched { command_of (map string_bytes words.items) ≡ None
        → (src.new ≡ src.old) × (out.new ≡ out.old) }
    ensures usage { result ≡ 2 → Appends (E.written side.old) (E.written side.new) USAGE.now }
    ensures front { command_of (map string_bytes words.items) ≡ None
        → GrowsWithin (E.written side.old) (E.written side.new) USAGE.now }

    // What each command leaves behind. Want of memory may end it before it begins.
    ensures run { (steps : ℕ) → command_of (map string_bytes words.items) ≡ Some (Command.Run steps)
        → HasRun steps false (S.left src.old) (S.left src.new) (held_in (O.written out.old) (E.written side.old)) (held_in (O.written out.new) (E.written side.new)) result }
    ensures log { (steps : ℕ) → command_of (map string_bytes words.items) ≡ Some (Command.Log steps)
        → HasRun steps true (S.left src.old) (S.left src.new) (held_in (E.written side.old) (O.written out.old)) (held_in (E.written side.new) (O.written out.new)) result }
    ensures check { command_of (map string_bytes words.items) ≡ Some Command.Check
        → HasChecked (S.left src.old) (O.written out.old) (O.written out.new) result }
    ensures sample { (seed size : ℕ) → command_of (map string_bytes words.items) ≡ Some (Command.Sample seed size) → result ≡ 0
        → IsSampled seed size (O.written out.old) (O.written out.new) (E.written side.old) (E.written side.new) }
    ensures sample_status { (seed size : ℕ) → command_of (map string_bytes words.items) ≡ Some (Command.Sample seed size)
        → (result ≡ 0) ⊎ ((result ≡ 3) ⊎ ((result ≡ 5) ⊎ (result ≡ 6))) }
    ensures unread { (seed size : ℕ) → command_of (map string_bytes words.items) ≡ Some (Command.Sample seed size) → src.new ≡ src.old }
    ensures quiet { (steps : ℕ) → command_of (map string_bytes words.items) ≡ Some (Command.Run steps) → side.new ≡ side.old }
    ensures quiet_check { command_of (map string_bytes words.items) ≡ Some Command.Check → side.new ≡ side.old }

    // A status of a failure has its cause.
    ensures source { result ≡ 4 → Rose (S.faults src.old) (S.faults src.new) }
    ensures sink { result ≡ 5 → Rose (O.faults out.old) (O.faults out.new)
        ⊎ Rose (E.faults side.old) (E.faults side.new) }
    ensures range { result ≤ 7 }
{
    match read_command(alloc, words.as_slice()) {
        Ok(Command::Run(steps)) => run_status(alloc, src, out, side, false, steps),
        Ok(Command::Log(steps)) => run_status(alloc, src, side, out, true, steps),
        Ok(Command::Check) => checked_status(alloc, src, out),
        Ok(Command::Sample(seed, size)) => sample_status(alloc, seed, size, out, side),
        Err(WordsFault::Refused) => refuse_words(side),
        Err(WordsFault::Memory) => NO_MEMORY,
    }
}

/// What `log` has written at status 0 or 1, `check` accepts: it ends with status 0 there, or with one that says nothing of
/// the text, as where a stream failed.
pub fn written_logs()
    ensures { WrittenLogs }
{}

/// Runs an event file, and gives the status.
fn run_status<S: Source, O: Sink, L: Sink>(
    alloc: Global,
    src: &mut S,
    comment: &mut O,
    log: &mut L,
    logging: bool,
    steps: u64,
) -> u8
    ensures run { HasRun steps logging (S.left src.old) (S.left src.new) (held_in (O.written comment.old) (L.written log.old)) (held_in (O.written comment.new) (L.written log.new)) result }
    ensures alone { logging ≡ false → log.new ≡ log.old }
    ensures source { result ≡ 4 → Rose (S.faults src.old) (S.faults src.new) }
    ensures sink { result ≡ 5 → Rose (O.faults comment.old) (O.faults comment.new) ⊎ Rose (L.faults log.old) (L.faults log.new) }
    ensures range { result ≤ 7 }
    ensures not_words { result ≡ 2 → ⊥ }
{
    let mut prover = Searcher::new(alloc);
    match run_events(alloc, src, comment, log, logging, &mut prover, steps) {
        Ok(ended) => ended.status(),
        Err(fault) => fault.status(),
    }
}

/// Checks a log, and gives the status.
#[tactic(auto, using(crate::proofs::Endings::has_checked))]
fn checked_status<S: Source, O: Sink>(alloc: Global, src: &mut S, out: &mut O) -> u8
    ensures checked { HasChecked (S.left src.old) (O.written out.old) (O.written out.new) result }
    ensures source { result ≡ 4 → Rose (S.faults src.old) (S.faults src.new) }
    ensures sink { result ≡ 5 → Rose (O.faults out.old) (O.faults out.new) }
    ensures range { result ≤ 7 }
    ensures not_words { result ≡ 2 → ⊥ }
{
    match check(alloc, src, out) {
        Ok(Checked::Accepted(_)) => 0,
        Ok(Checked::Refused(_, _)) => 1,
        Err(CheckFault::Read) => 4,
        Err(CheckFault::Write) => FAILED_WRITE,
        Err(CheckFault::Memory) => NO_MEMORY,
        Err(CheckFault::TooLong) => 7,
    }
}

// Writes the usage line, and gives the status.
#[tactic(auto, using(crate::proofs::Endings::within_whole, nq_run::proofs::RunLemmas::within_part))]
fn refuse_words<E: Sink>(side: &mut E) -> u8
    ensures front { GrowsWithin (E.written side.old) (E.written side.new) USAGE.now }
    ensures usage { result ≡ 2 → Appends (E.written side.old) (E.written side.new) USAGE.now }
    ensures status { (result ≡ 2)
        ⊎ ((result ≡ 5) × Rose (E.faults side.old) (E.faults side.new)) ⊎ (result ≡ 6) }
{
    match side.write_all(USAGE) {
        Ok(()) => REFUSED_WORDS,
        Err(SinkFault::Failed) => FAILED_WRITE,
        Err(SinkFault::Memory) => NO_MEMORY,
    }
}
