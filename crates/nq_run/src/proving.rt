// The try of a lemma, and the block of what an event claims.
ghost use Rattle.std.specs.Prelude.{◌≡◌, IfOk, [], true, Some};
ghost use Rattle.nq_bank.specs.Content.{IsNamed, Stands, term_at, text_at};
ghost use Rattle.nq_bank.specs.Marks.{CanRelease, released};
ghost use Rattle.nq_history.specs.Events.{events_at, HistoryStands};
ghost use Rattle.nq_history.specs.Hints.{HintsStand};
ghost use Rattle.nq_kernel.specs.Growing.{LogGrows, WorkStands};
ghost use Rattle.nq_kernel.specs.Hints.{HintsAreIn};
ghost use Rattle.nq_kernel.specs.Over.{IsVariable, RulesAreOver};
ghost use Rattle.nq_kernel.specs.Ready.{IsReady, WorkHolds};
ghost use Rattle.nq_block.specs.Blocks.{IsBlock};
ghost use Rattle.nq_logic.specs.Histories as logic;
ghost use Rattle.nq_log.specs.States.{Adds};
ghost use Rattle.nq_block.specs.declared.closing.Closing.TheVariants as closing;
ghost use Rattle.nq_block.specs.Closings.{CanClose, ClosingStands, IsFree, claim_at};
ghost use Rattle.nq_block.specs.Names.{HasSymbols};
ghost use Rattle.nq_run.specs.Outcome.{AreBlocks};
ghost use Rattle.nq_run.specs.Sessions.{IsFoundBy, IsShownBy, StandsFor, Tries, found_claims, found_of, line_in, way_in, with_line};
ghost use Rattle.nq_spelling.specs.SpelledEvents.{IsSpelledFormula};

use nq_bank::{Bank, Mark, Sym, TermId};
use nq_block::{Closing, write_block};
use nq_history::{Hints, History};
use nq_kernel::{Log, Proof, Prover, Quick, Verdict, Work, held_work};
use nq_logtext::Text;
use nq_needed::with_needed_lines;
use std::alloc::{AllocError, Global};

/// A lemma that is to be tried: its name, its term, and its hints.
#[derive(Clone, Copy)]
pub(crate) struct Conjecture<'a> {
    pub(crate) name: Sym,
    pub(crate) goal: TermId,
    pub(crate) hints: &'a Hints,
}

/// What a prover found of a lemma.
#[derive(Clone, Copy)]
pub(crate) enum Found {
    /// The line of this number shows it, by this fragment.
    Fragment(u64, Quick),
    /// The line of this number shows it, by moves.
    Moves(u64),
    /// The step limit was reached.
    OutOfSteps,
    /// Nothing that is told yet.
    Unknown,
}

/// Work, and what it shows of a lemma.
#[derive(Drop)]
pub(crate) struct Shown {
    pub(crate) work: Work,
    pub(crate) found: Found,
}

/// The try of a lemma: the bank as it was before, what was found of the lemma, and the block of what it claims.
#[derive(Drop)]
pub(crate) struct Tried {
    pub(crate) bank: Bank,
    pub(crate) found: Found,
    pub(crate) block: Text,
}

/// What a verdict says of a lemma.
fn found_by(verdict: &Verdict) -> Found
    ensures { result ≡ found_of verdict.now }
{
    match verdict {
        Verdict::Proved(line, Proof::First(way)) => Found::Fragment(*line, *way),
        Verdict::Proved(line, Proof::Waterfall(_)) => Found::Moves(*line),
        Verdict::Failed(_, _) => Found::Unknown,
        Verdict::OutOfSteps => Found::OutOfSteps,
        Verdict::NotYet(_) => Found::Unknown,
    }
}

/// The fragment that proved a lemma.
pub(crate) fn way_in(found: Found) -> Option<Quick>
    ensures { result ≡ way_in found }
{
    match found {
        Found::Fragment(_, way) => Some(way),
        Found::Moves(_) => None,
        Found::OutOfSteps => None,
        Found::Unknown => None,
    }
}

/// Did moves prove a lemma?
pub(crate) fn is_proved(found: Found) -> bool {
    match found {
        Found::Fragment(_, _) => false,
        Found::Moves(_) => true,
        Found::OutOfSteps => false,
        Found::Unknown => false,
    }
}

/// The line that shows a lemma.
fn line_in(found: Found) -> Option<u64>
    ensures { result ≡ line_in found }
{
    match found {
        Found::Fragment(line, _) => Some(line),
        Found::Moves(line) => Some(line),
        Found::OutOfSteps => None,
        Found::Unknown => None,
    }
}

/// What was found of a lemma, where the line that shows it has this number.
fn with_line(found: Found, line: u64) -> Found
    ensures { result ≡ with_line found line }
{
    match found {
        Found::Fragment(_, way) => Found::Fragment(line, way),
        Found::Moves(_) => Found::Moves(line),
        Found::OutOfSteps => Found::OutOfSteps,
        Found::Unknown => Found::Unknown,
    }
}

/// Tries to prove a lemma, which so many steps may take, and gives back what its proof made in the bank.
pub(crate) fn try_lemma<P: Prover>(
    alloc: Global,
    prover: &mut P,
    bank: Bank,
    history: &History,
    lemma: Conjecture<'_>,
    logging: bool,
    steps: u64,
) -> Result<Tried, AllocError>
    requires history { HistoryStands bank history.now }
    requires symbols { HasSymbols (events_at bank history.now) }
    requires learnt { P.has_learnt prover.old history.now }
    requires name { IsNamed bank lemma.name }
    requires goal { Stands bank lemma.goal }
    requires hints { HintsStand bank lemma.hints.now }
    requires ready { IsReady (events_at bank history.now) }
    requires hint_terms { HintsAreIn bank history.now lemma.hints.now }
    requires spelled { IsSpelledFormula (events_at bank history.now) (text_at bank lemma.name) (term_at bank lemma.goal) }
    requires free { IsFree (events_at bank history.now) (text_at bank lemma.name) }
    ensures tried { IfOk result (Tries steps bank history.now lemma.entry.name lemma.entry.goal logging) }
    ensures learnt { IfOk result (λ tried. P.has_learnt prover.new history.now) }
{
    let mark = bank.mark();
    let mut work = Work::new(bank, Log::new(alloc), steps);
    let verdict = prover.prove(&mut work, history, lemma.goal, lemma.hints)?;
    held_work();
    let shown = shown_by(work, history, found_by(&verdict), logging)?;
    let tried = tried_by(alloc, shown.work, history, lemma, shown.found, logging)?;
    Ok(given_back(tried, mark))
}

/// The work that shows what was found of a lemma. Where a log is written it has only the lines on which the line rests that
/// shows the lemma, where each of them passes its test.
fn shown_by(work: Work, history: &History, found: Found, logging: bool) -> Result<Shown, AllocError>
    requires stands { WorkStands history.now work }
    requires legal { LogGrows work.bank history.now [] work.log }
    requires over { RulesAreOver IsVariable work.bank history.now 0 work.log }
    ensures { IfOk result (StandsFor history.now work found) }
{
    if !logging {
        return Ok(Shown { work, found });
    }
    match line_in(found) {
        Some(line) => in_fewer_lines(work, history, found, line),
        None => Ok(Shown { work, found }),
    }
}

/// The work with only the lines on which the line rests that shows the lemma, where each of them passes its test.
fn in_fewer_lines(
    work: Work,
    history: &History,
    found: Found,
    line: u64,
) -> Result<Shown, AllocError>
    requires stands { WorkStands history.now work }
    requires legal { LogGrows work.bank history.now [] work.log }
    requires over { RulesAreOver IsVariable work.bank history.now 0 work.log }
    requires line { line_in found ≡ Some line }
    ensures { IfOk result (StandsFor history.now work found) }
{
    let left = with_needed_lines(work, history, line)?;
    let found = with_line(found, left.line);
    Ok(Shown {
        work: left.work,
        found,
    })
}

/// The try that made this work: the block of the lemma, where a line shows it.
fn tried_by(
    alloc: Global,
    work: Work,
    history: &History,
    lemma: Conjecture<'_>,
    found: Found,
    logging: bool,
) -> Result<Tried, AllocError>
    requires legal { LogGrows work.bank history.now [] work.log }
    requires over { RulesAreOver IsVariable work.bank history.now 0 work.log }
    requires symbols { HasSymbols (events_at work.bank history.now) }
    requires name { IsNamed work.bank lemma.name }
    requires goal { Stands work.bank lemma.goal }
    requires spelled { IsSpelledFormula (events_at work.bank history.now) (text_at work.bank lemma.name) (term_at work.bank lemma.goal) }
    requires free { IsFree (events_at work.bank history.now) (text_at work.bank lemma.name) }
    requires holds { WorkHolds history.now work }
    requires shown { IsShownBy work (events_at work.bank history.now) (term_at work.bank lemma.goal) found }
    ensures bank { IfOk result (λ tried. tried.bank ≡ work.bank) }
    ensures found { IfOk result (λ tried. IsFoundBy work.counter.limit (events_at work.bank history.now) (term_at work.bank lemma.entry.goal) tried.found) }
    ensures written { IfOk result (λ tried. logging ≡ true → AreBlocks (events_at work.bank history.now)
        (found_claims (text_at work.bank lemma.entry.name) (term_at work.bank lemma.entry.goal) tried.found) tried.block) }
{
    let block = block_found(alloc, &work, history, lemma, found, logging)?;
    Ok(Tried {
        bank: work.bank,
        found,
        block,
    })
}

/// The block of the lemma, where a line shows it.
fn block_found(
    alloc: Global,
    work: &Work,
    history: &History,
    lemma: Conjecture<'_>,
    found: Found,
    logging: bool,
) -> Result<Text, AllocError>
    requires legal { LogGrows work.now.bank history.now [] work.now.log }
    requires over { RulesAreOver IsVariable work.now.bank history.now 0 work.now.log }
    requires symbols { HasSymbols (events_at work.now.bank history.now) }
    requires name { IsNamed work.now.bank lemma.name }
    requires goal { Stands work.now.bank lemma.goal }
    requires spelled { IsSpelledFormula (events_at work.now.bank history.now) (text_at work.now.bank lemma.name) (term_at work.now.bank lemma.goal) }
    requires free { IsFree (events_at work.now.bank history.now) (text_at work.now.bank lemma.name) }
    requires shown { IsShownBy work.now (events_at work.now.bank history.now) (term_at work.now.bank lemma.goal) found }
    ensures { IfOk result (λ block. logging ≡ true → AreBlocks (events_at work.now.bank history.now)
        (found_claims (text_at work.now.bank lemma.entry.name) (term_at work.now.bank lemma.entry.goal) found) block) }
{
    match line_in(found) {
        Some(line) => lemma_block(alloc, work, history, lemma, line, logging),
        None => Ok(Text::new(alloc)),
    }
}

/// The block of a lemma that this line shows.
fn lemma_block(
    alloc: Global,
    work: &Work,
    history: &History,
    lemma: Conjecture<'_>,
    line: u64,
    logging: bool,
) -> Result<Text, AllocError>
    requires legal { LogGrows work.now.bank history.now [] work.now.log }
    requires over { RulesAreOver IsVariable work.now.bank history.now 0 work.now.log }
    requires symbols { HasSymbols (events_at work.now.bank history.now) }
    requires name { IsNamed work.now.bank lemma.name }
    requires goal { Stands work.now.bank lemma.goal }
    requires closes { CanClose work.now.bank history.now work.now.log (closing.Lemma lemma.name lemma.goal line) }
    ensures { IfOk result (λ block. logging ≡ true → IsBlock (events_at work.now.bank history.now)
        (Adds (logic.Lemma (text_at work.now.bank lemma.entry.name) [] (term_at work.now.bank lemma.entry.goal))) block) }
{
    let closing = Closing::Lemma(lemma.name, lemma.goal, line);
    block_of(alloc, logging, &work.bank, history, &work.log, &closing)
}

/// The try, without what the proof made in the bank past the mark.
fn given_back(tried: Tried, mark: Mark) -> Tried
    requires { CanRelease tried.bank mark }
    ensures bank { result.bank ≡ released tried.bank mark }
    ensures found { result.found ≡ tried.found }
    ensures block { result.block ≡ tried.block }
{
    let Tried {
        mut bank,
        found,
        block,
    } = tried;
    bank.release(mark);
    Tried { bank, found, block }
}

/// The block of what an event claims; no text where no log is written.
pub(crate) fn block_of(
    alloc: Global,
    logging: bool,
    bank: &Bank,
    history: &History,
    log: &Log,
    closing: &Closing,
) -> Result<Text, AllocError>
    requires legal { LogGrows bank.now history.now [] log.now }
    requires over { RulesAreOver IsVariable bank.now history.now 0 log.now }
    requires names { HasSymbols (events_at bank.now history.now) }
    requires stands { ClosingStands bank.now closing.now }
    requires closing { CanClose bank.now history.now log.now closing.now }
    ensures { IfOk result (λ text. logging ≡ true → IsBlock (events_at bank.now history.now) (claim_at bank.now closing.now) text) }
{
    let mut text = Text::new(alloc);
    if logging {
        write_block(bank, history, log, closing, &mut text)?;
    }
    Ok(text)
}
