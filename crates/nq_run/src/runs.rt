// The run of an event file: each form is run as it is read.
ghost use Rattle.std.specs.Prelude.{◌≡◌, ◌≤◌, ◌<◌, ◌+◌, ◌^◌, ◌⊎◌, ◌++◌, ℕ, List, Option, Some, None, Ok, Err, IfOk, IfSome, OnOk, OnErr, [], true, false, length, take};
ghost use Rattle.std.specs.Io.KnownBytes.{Appends, Keeps};
ghost use Rattle.nq_io.specs.Faults.{Rose};
ghost use Rattle.nq_form.specs.Form.{Forms};
ghost use Rattle.nq_form.specs.Grammar.{Reads};
ghost use Rattle.nq_form.specs.Widths.{IsNarrow};
ghost use Rattle.nq_sexp.specs.Tree.{tree};
ghost use Rattle.nq_comment.specs.ReportViews.{ending_of};
ghost use Rattle.nq_comment.specs.Reports.{Report};
ghost use Rattle.nq_comment.specs.Text.{closing_lines};
ghost use Rattle.nq_comment.specs.Totals.{totals_in, totals_of};
ghost use Rattle.nq_block.specs.OpenLogs.{header_text};
ghost use Rattle.nq_history.specs.Events.{ground_length};
ghost use Rattle.nq_kernel.specs.Proving.{HasGround};
ghost use Rattle.nq_run.specs.HistoryView.{history_of, SessionStands};
ghost use Rattle.nq_run.specs.Outcome.{Begun, FilledLog, Finished, Full, Halted, Interrupted, IsStop, WriteFails, Logs, LogsWithin, Stopped, Turned, TurnStopped, WasRun, held_in, last_text, status_of};
ghost use Rattle.nq_run.specs.RunFaults.{fault_status};
ghost use Rattle.nq_run.specs.Sessions.{Takes};
ghost use Rattle.nq_spelling.specs.Spelled.{IsSpelled};

use crate::header::{name_of, word_of};
use crate::outputs::{LogSoFar, is_block_too_long, write_last, write_text};
use crate::session::{Session, Taken};
use bumpalo::Bump;
use nq_comment::{Counts, FormReport, SyntaxFault, render_closing, render_report};
use nq_io::{Sink, Source};
use nq_kernel::Prover;
use nq_sexp::{ReadFault, Reader, Sexp};
use std::alloc::Global;

/// The first line of a log.
const LOG_HEADER: &[u8] = b"NQTHM-LOG 1\n";

/// The last line of a log.
const LOG_END: &[u8] = b"END\n";

/// Why a run stopped before the end of its file.
#[derive(Clone, Copy, Debug, PartialEq, Eq)]
pub enum RunFault {
    /// The source could not be read.
    Read,
    /// A sink could not be written.
    Write,
    /// The file has more than 2^25 bytes, or the log would reach 2^62.
    TooLong,
    /// Memory is wanting, or a block of the log would have more than 2^40 bytes.
    Memory,
}

impl RunFault {
    /// The status that the program ends with: 4 to 7.
    pub fn status(self) -> u8
        ensures { result ≡ fault_status self }
    {
        match self {
            RunFault::Read => 4,
            RunFault::Write => 5,
            RunFault::Memory => 6,
            RunFault::TooLong => 7,
        }
    }
}

/// A run that came to the end of its file, or to a fault of its spelling.
#[derive(Clone, Copy)]
pub struct Ended {
    /// The numbers of the summary line.
    pub counts: Counts,
    /// What is wrong with the spelling, where the run stopped for it.
    pub fault: Option<SyntaxFault>,
}

impl Ended {
    /// The status that the program ends with: 0 where no form was refused or failed, 1 where one
    /// was, and 3 where the spelling is wrong.
    pub fn status(self) -> u8
        ensures { result ≡ status_of self.fault (totals_in self.counts) }
    {
        match self.fault {
            Some(_) => 3,
            None if self.counts.unsuccessful() == 0 => 0,
            None => 1,
        }
    }
}

/// What was counted so far: the forms by their answers, and the bytes of the log.
#[derive(Clone, Copy)]
struct Progress {
    counts: Counts,
    log: LogSoFar,
}

/// Where the reading of forms stopped, and what was counted before.
#[derive(Clone, Copy)]
struct Walked {
    progress: Progress,
    stop: Option<ReadFault>,
}

/// Runs the forms of the source from the ground history, each as it is read, and writes the commentary: each report by one
/// write, and then the closing lines by one. With `logging` it writes the log too: its first line, the block of each event
/// that was accepted, proved or undone, and behind the closing lines its last line, where the whole file was run; else `log` is left alone. The prover has
/// learnt just the ground history. Each event may take so many steps.
pub fn run_events<S: Source, O: Sink, L: Sink, P: Prover>(
    alloc: Global,
    src: &mut S,
    comment: &mut O,
    log: &mut L,
    logging: bool,
    prover: &mut P,
    limit: u64,
) -> Result<Ended, RunFault>
    requires learnt { HasGround (P.has_learnt prover.old) }

    // The whole commentary was written, and the whole log.
    ensures finished { IfOk result (λ ended. (reports : List Report)
        × Finished limit logging (S.left src.old) (ending_of ended.fault) reports (held_in (O.written comment.old) (L.written log.old)) (held_in (O.written comment.new) (L.written log.new))
        × (totals_in ended.counts ≡ totals_of reports)) }

    // The lines of all forms that stand whole in the bytes taken were written.
    ensures read { result ≡ Err RunFault.Read
        → Halted limit logging (S.left src.old) (S.left src.new) ReadFault.Read (held_in (O.written comment.old) (L.written log.old)) (held_in (O.written comment.new) (L.written log.new)) }
    ensures too_long { result ≡ Err RunFault.TooLong
        → Halted limit logging (S.left src.old) (S.left src.new) ReadFault.FileTooLong (held_in (O.written comment.old) (L.written log.old)) (held_in (O.written comment.new) (L.written log.new))
        ⊎ ((logging ≡ true) × Full limit (S.left src.old) (held_in (O.written comment.old) (L.written log.old)) (held_in (O.written comment.new) (L.written log.new))) }

    // After any fault the lines of some forms were written and a front part of their log, or a front part of the lines and the
    // log of all those forms but the last; or the whole commentary and the log with a front part of its last line, or a front
    // part of the commentary and the log without that line.
    ensures stopped { OnErr result (Stopped limit logging (S.left src.old) (held_in (O.written comment.old) (L.written log.old)) (held_in (O.written comment.new) (L.written log.new))) }

    // A fault of a stream has its cause.
    ensures source { result ≡ Err RunFault.Read → Rose (S.faults src.old) (S.faults src.new) }
    ensures sink { result ≡ Err RunFault.Write → Rose (O.faults comment.old) (O.faults comment.new) ⊎ Rose (L.faults log.old) (L.faults log.new) }

    // Where no log is written, its sink is left alone.
    ensures alone { logging ≡ false → log.new ≡ log.old }
{
    let walked = run_forms(alloc, src, comment, log, logging, prover, limit)?;
    match fault_of(walked.stop) {
        Ok(fault) => finish(alloc, fault, walked.progress, comment, log),
        Err(fault) => Err(fault),
    }
}

/// What is wrong with the spelling of a text, where reading stopped for no other reason.
fn fault_of(stop: Option<ReadFault>) -> Result<Option<SyntaxFault>, RunFault>
    ensures reads { IfOk result (λ fault. (text : List ℕ) (forms : Forms) (left : Option (List ℕ)) → IsStop text forms left stop
        → Reads 500 (2 ^ 25) text forms (ending_of fault)) }
    ensures read { result ≡ Err RunFault.Read → stop ≡ Some ReadFault.Read }
    ensures too_long { result ≡ Err RunFault.TooLong → stop ≡ Some ReadFault.FileTooLong }
    ensures no_write { result ≡ Err RunFault.Write → ⊥ }
{
    match stop {
        None => Ok(None),
        Some(ReadFault::Unbalanced(offset)) => Ok(Some(SyntaxFault { code: 1, offset })),
        Some(ReadFault::BadToken(offset)) => Ok(Some(SyntaxFault { code: 2, offset })),
        Some(ReadFault::NumeralTooWide(offset)) => Ok(Some(SyntaxFault { code: 3, offset })),
        Some(ReadFault::TooDeep(offset)) => Ok(Some(SyntaxFault { code: 4, offset })),
        Some(ReadFault::FileTooLong) => Err(RunFault::TooLong),
        Some(ReadFault::Read) => Err(RunFault::Read),
        Some(ReadFault::Memory) => Err(RunFault::Memory),
    }
}

/// Writes the first line of the log.
fn begin<L: Sink>(log: &mut L, logging: bool) -> Result<LogSoFar, RunFault>
    ensures ok { OnOk result (Logs logging (L.written log.old) (L.written log.new) header_text) }
    ensures same { IfOk result (λ begun. begun.logging ≡ logging) }
    ensures count { IfOk result (λ begun. logging ≡ true → begun.count ≡ length header_text) }
    ensures bound { IfOk result (λ begun. begun.count < 2 ^ 62) }
    ensures err { OnErr result (LogsWithin logging (L.written log.old) (L.written log.new) header_text) }
    ensures write { result ≡ Err RunFault.Write → Rose (L.faults log.old) (L.faults log.new) }
    ensures later { L.faults log.old ≤ L.faults log.new }
    ensures no_read { result ≡ Err RunFault.Read → ⊥ }
    ensures no_length { result ≡ Err RunFault.TooLong → ⊥ }
    ensures alone { logging ≡ false → log.new ≡ log.old }
{
    let nothing = LogSoFar { logging, count: 0 };
    nothing.append(log, LOG_HEADER)
}

/// Runs the forms as they are read, and writes a report for each, and a block for what it claims.
fn run_forms<S: Source, O: Sink, L: Sink, P: Prover>(
    alloc: Global,
    src: &mut S,
    comment: &mut O,
    log: &mut L,
    logging: bool,
    prover: &mut P,
    limit: u64,
) -> Result<Walked, RunFault>
    requires learnt { HasGround (P.has_learnt prover.old) }
    ensures walked { IfOk result (λ walked. (forms : Forms)
        × WasRun limit logging forms (totals_in walked.progress.counts) walked.progress.log.count (held_in (O.written comment.old) (L.written log.old)) (held_in (O.written comment.new) (L.written log.new))
        × IfSome (S.left src.old) (λ text. Begun text forms)
        × IfSome (S.left src.old) (λ text. IsStop text forms (S.left src.new) walked.stop)) }
    ensures logging { IfOk result (λ walked. walked.progress.log.logging ≡ logging) }
    ensures bound { IfOk result (λ walked. walked.progress.log.count < 2 ^ 62) }
    ensures read { IfOk result (λ walked. walked.stop ≡ Some ReadFault.Read
        → Rose (S.faults src.old) (S.faults src.new)) }
    ensures full { result ≡ Err RunFault.TooLong → (logging ≡ true) × Full limit (S.left src.old) (held_in (O.written comment.old) (L.written log.old)) (held_in (O.written comment.new) (L.written log.new)) }
    ensures stopped { OnErr result (Interrupted limit logging (S.left src.old) (held_in (O.written comment.old) (L.written log.old)) (held_in (O.written comment.new) (L.written log.new))) }
    ensures write { result ≡ Err RunFault.Write → Rose (O.faults comment.old) (O.faults comment.new) ⊎ Rose (L.faults log.old) (L.faults log.new) }
    ensures later_comment { O.faults comment.old ≤ O.faults comment.new }
    ensures later_log { L.faults log.old ≤ L.faults log.new }
    ensures no_read { result ≡ Err RunFault.Read → ⊥ }
    ensures alone { logging ≡ false → log.new ≡ log.old }
{
    let mut arena = Bump::new(alloc);
    let mut reader = Reader::new(alloc);
    let mut session = ground_session(alloc)?;
    let mut progress = Progress {
        counts: Counts::zero(),
        log: begin(log, logging)?,
    };
    loop {
        match reader.next(&arena, src) {
            Ok(Some(form)) => {
                let turn = turn(alloc, session, progress, &form, comment, log, prover, limit)?;
                session = turn.session;
                progress = turn.progress;
            }
            Ok(None) => return Ok(Walked {
                progress,
                stop: None,
            }),
            Err(fault) => {
                return Ok(Walked {
                    progress,
                    stop: Some(fault),
                });
            }
        }
        arena = cleared(alloc, arena);
    }
}

/// A run's history before the first form.
fn ground_session(alloc: Global) -> Result<Session, RunFault>
    ensures none { IfOk result (λ s. history_of s ≡ []) }
    ensures stands { IfOk result SessionStands }
    ensures whole { IfOk result (λ s. take ground_length s.history ≡ s.history) }
    ensures only { OnErr result (result ≡ Err RunFault.Memory) }
{
    match Session::ground(alloc) {
        Ok(session) => Ok(session),
        Err(_) => Err(RunFault::Memory),
    }
}

/// The arena without its forms; a new one takes its place where it can't be reset.
fn cleared(alloc: Global, mut arena: Bump) -> Bump {
    match arena.reset() {
        Ok(()) => arena,
        Err(_) => Bump::new(alloc),
    }
}

/// The history and what was counted after one form more.
#[derive(Drop)]
struct Advanced {
    session: Session,
    progress: Progress,
}

/// Runs one form, writes its report by one write, and behind it its block to the log.
fn turn<O: Sink, L: Sink, P: Prover>(
    alloc: Global,
    session: Session,
    progress: Progress,
    form: &Sexp<'_>,
    comment: &mut O,
    log: &mut L,
    prover: &mut P,
    limit: u64,
) -> Result<Advanced, RunFault>
    requires stands { SessionStands session }
    requires learnt { P.has_learnt prover.old session.history }
    requires spelled { IsSpelled (tree form.now) }
    requires narrow { IsNarrow (2 ^ 25) (tree form.now) }
    requires number { progress.counts.forms + 1 < 2 ^ 64 }
    requires within { progress.log.count < 2 ^ 62 }
    ensures turned { IfOk result (λ turn. Turned limit progress.log.logging (tree form.now) session
        turn.session (totals_in progress.counts) (totals_in turn.progress.counts) progress.log.count turn.progress.log.count
        (held_in (O.written comment.old) (L.written log.old)) (held_in (O.written comment.new) (L.written log.new))) }
    ensures stands { IfOk result (λ turn. SessionStands turn.session) }
    ensures learnt { IfOk result (λ turn. P.has_learnt prover.new turn.session.history) }
    ensures same { IfOk result (λ turn. turn.progress.log.logging ≡ progress.log.logging) }
    ensures bound { IfOk result (λ turn. turn.progress.log.count < 2 ^ 62) }
    ensures full { result ≡ Err RunFault.TooLong → (progress.log.logging ≡ true) × FilledLog limit progress.log.count (progress.counts.forms + 1) (tree form.now) (history_of session)
        (held_in (O.written comment.old) (L.written log.old)) (held_in (O.written comment.new) (L.written log.new)) }
    ensures stopped { OnErr result (TurnStopped limit progress.log.logging (progress.counts.forms + 1) (tree form.now)
        (history_of session) (held_in (O.written comment.old) (L.written log.old)) (held_in (O.written comment.new) (L.written log.new))) }
    ensures write { result ≡ Err RunFault.Write → Rose (O.faults comment.old) (O.faults comment.new) ⊎ Rose (L.faults log.old) (L.faults log.new) }
    ensures later_comment { O.faults comment.old ≤ O.faults comment.new }
    ensures later_log { L.faults log.old ≤ L.faults log.new }
    ensures no_read { result ≡ Err RunFault.Read → ⊥ }
    ensures alone { progress.log.logging ≡ false → log.new ≡ log.old }
{
    let taken = take_form(alloc, session, prover, form, progress.log.logging, limit)?;
    let kind = taken.answer.kind();
    let report = FormReport {
        word: word_of(form),
        name: name_of(form),
        answer: taken.answer,
    };
    let text = match render_report(alloc, progress.counts.forms + 1, &report) {
        Ok(text) => text,
        Err(_) => return Err(RunFault::Memory),
    };
    write_text(comment, text.as_slice())?;
    if progress.log.is_full_with(taken.block.as_slice()) {
        return Err(RunFault::TooLong);
    }
    let log = progress.log.append(log, taken.block.as_slice())?;
    Ok(Advanced {
        session: taken.session,
        progress: Progress {
            counts: progress.counts.with(kind),
            log,
        },
    })
}

/// Answers a form. A block that is too long is as one for which memory is wanting.
fn take_form<P: Prover>(
    alloc: Global,
    session: Session,
    prover: &mut P,
    form: &Sexp<'_>,
    logging: bool,
    limit: u64,
) -> Result<Taken, RunFault>
    requires stands { SessionStands session }
    requires learnt { P.has_learnt prover.old session.history }
    requires spelled { IsSpelled (tree form.now) }
    requires narrow { IsNarrow (2 ^ 25) (tree form.now) }
    ensures takes { IfOk result (Takes limit session (tree form.now) logging) }
    ensures learnt { IfOk result (λ r. P.has_learnt prover.new r.session.history) }
    ensures small { IfOk result (λ r. length r.block ≤ 2 ^ 40) }
    ensures only { OnErr result (result ≡ Err RunFault.Memory) }
{
    match session.take(alloc, prover, form, logging, limit) {
        Ok(taken) => {
            if is_block_too_long(taken.block.as_slice()) {
                return Err(RunFault::Memory);
            }
            Ok(taken)
        }
        Err(_) => Err(RunFault::Memory),
    }
}

/// The last line of the log, where the whole file was run.
fn last_line(fault: Option<SyntaxFault>) -> &'static [u8]
    ensures { result.now ≡ last_text (ending_of fault) }
{
    match fault {
        None => LOG_END,
        Some(_) => b"".as_slice(),
    }
}

/// Writes the closing lines, and the last line of the log where the whole file was run.
fn finish<O: Sink, L: Sink>(
    alloc: Global,
    fault: Option<SyntaxFault>,
    progress: Progress,
    comment: &mut O,
    log: &mut L,
) -> Result<Ended, RunFault>
    requires within { progress.log.count < 2 ^ 62 }
    ensures ended { IfOk result (λ ended. (ended.counts ≡ progress.counts) × (ended.fault ≡ fault)) }
    ensures ok { OnOk result (Appends (O.written comment.old) (O.written comment.new)
        (closing_lines (ending_of fault) (totals_in progress.counts))) }
    ensures log_ok { OnOk result (Logs progress.log.logging (L.written log.old) (L.written log.new) (last_text (ending_of fault))) }
    ensures fails { OnErr result (WriteFails progress.log.logging (closing_lines (ending_of fault) (totals_in progress.counts)) (last_text (ending_of fault))
        (held_in (O.written comment.old) (L.written log.old)) (held_in (O.written comment.new) (L.written log.new))) }
    ensures small { OnOk result (progress.log.logging ≡ true → progress.log.count + length (last_text (ending_of fault)) < 2 ^ 62) }
    ensures full { result ≡ Err RunFault.TooLong → (progress.log.logging ≡ true) × (2 ^ 62 ≤ progress.log.count + length (last_text (ending_of fault)))
        × Keeps (O.written comment.old) (O.written comment.new) × (L.written log.new ≡ L.written log.old) }
    ensures write { result ≡ Err RunFault.Write → Rose (O.faults comment.old) (O.faults comment.new) ⊎ Rose (L.faults log.old) (L.faults log.new) }
    ensures no_read { result ≡ Err RunFault.Read → ⊥ }
    ensures alone { progress.log.logging ≡ false → log.new ≡ log.old }
{
    let last = last_line(fault);
    if progress.log.is_full_with(last) {
        return Err(RunFault::TooLong);
    }
    let text = match render_closing(alloc, fault, progress.counts) {
        Ok(text) => text,
        Err(_) => return Err(RunFault::Memory),
    };
    write_last(comment, text.as_slice(), log, progress.log, last)?;
    Ok(Ended {
        counts: progress.counts,
        fault,
    })
}
