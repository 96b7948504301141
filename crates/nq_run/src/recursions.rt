// The try of a recursive definition.
ghost use Rattle.std.specs.Prelude.{◌≡◌, ◌++◌, All, IfNone, IfOk, IfSome, [], true};
ghost use Rattle.std.specs.Option.{option_map};
ghost use Rattle.nq_bank.specs.Content.{term_at, text_at};
ghost use Rattle.nq_bank.specs.Marks.{CanRelease, released};
ghost use Rattle.nq_bank.specs.Shells.{texts_at};
ghost use Rattle.nq_history.specs.Events.{events_at, HistoryStands};
ghost use Rattle.nq_kernel.specs.Growing.{LogGrows};
ghost use Rattle.nq_kernel.specs.Meaning.{clause_at};
ghost use Rattle.nq_kernel.specs.Over.{IsVariable, RulesAreOver};
ghost use Rattle.nq_kernel.specs.Ready.{IsReady};
ghost use Rattle.nq_block.specs.Closings.{CanRecur, FunctionNames};
ghost use Rattle.nq_block.specs.Names.{HasSymbols};
ghost use Rattle.nq_bank.specs.Content.{Stands};
ghost use Rattle.nq_comment.specs.ReportViews.{trial_of, trials_of};
ghost use Rattle.nq_run.specs.Outcome.{AreBlocks};
ghost use Rattle.nq_run.specs.Recursions.{IsSought, IsTriable, LeftStands, kept_claims, kept_of, trial_at, trials_at};

use crate::proving::block_of;
use nq_bank::{Bank, Mark, Sym, TermId};
use nq_block::{Closing, Measured};
use nq_comment::Trial;
use nq_first_goal::goal_text;
use nq_history::History;
use nq_kernel::{Log, Prover, Work, held_work};
use nq_logtext::Text;
use nq_measures::{Admitting, Left, Sought, admitting_is_measure, find_measure};
use nq_print::print_term;
use std::alloc::{AllocError, Global};

/// A recursive definition whose measure is sought.
#[derive(Clone, Copy)]
pub(crate) struct Recursion<'a> {
    pub(crate) name: Sym,
    pub(crate) formals: &'a [Sym],
    pub(crate) body: TermId,
}

/// The measure that admits a definition, and its place among those that were tried.
#[derive(Clone, Copy)]
pub(crate) struct Kept {
    pub(crate) place: u64,
    pub(crate) measure: TermId,
}

/// The try of a recursive definition: the bank as it was before, the measure that admits the definition, what is told of those
/// that were tried where none does, and the block of what it claims.
#[derive(Drop)]
pub(crate) struct TriedRecursion {
    pub(crate) bank: Bank,
    pub(crate) kept: Option<Kept>,
    pub(crate) trials: Vec<Trial>,
    pub(crate) block: Text,
}

/// Seeks a measure of a recursive definition among these, which so many steps may take, and gives back what its proof made in
/// the bank.
pub(crate) fn try_recursion<P: Prover>(
    alloc: Global,
    prover: &mut P,
    bank: Bank,
    history: &History,
    recursion: Recursion<'_>,
    tried: &[TermId],
    logging: bool,
    steps: u64,
) -> Result<TriedRecursion, AllocError>
    requires history { HistoryStands bank history.now }
    requires symbols { HasSymbols (events_at bank history.now) }
    requires learnt { P.has_learnt prover.old history.now }
    requires ready { IsReady (events_at bank history.now) }
    requires triable { IsTriable bank history.now recursion.name recursion.formals.now recursion.body tried.now }
    ensures sought { IfOk result (IsSought bank history.now recursion.entry.name recursion.entry.formals.now recursion.entry.body tried.now logging) }
    ensures learnt { IfOk result (λ r. P.has_learnt prover.new history.now) }
{
    held_work();
    admitting_is_measure();
    let mark = bank.mark();
    let mut work = Work::new(bank, Log::new(alloc), steps);
    let measured = find_measure(
        prover,
        &mut work,
        history,
        recursion.name,
        recursion.formals,
        recursion.body,
        tried,
    )?;
    let sought = recursion_by(alloc, work, history, recursion, measured, logging)?;
    Ok(returned(sought, mark))
}

/// What is told of a measure that is not proved.
fn told_trial(alloc: Global, bank: &Bank, left: &Left) -> Result<Trial, AllocError>
    requires { LeftStands bank.now left.now }
    ensures { IfOk result (λ t. trial_of t ≡ trial_at bank.now left.now) }
{
    let mut measure = Vec::new(alloc);
    print_term(bank, left.measure, &mut measure)?;
    let goal = goal_text(bank, left.literals.as_slice())?;
    Ok(Trial {
        measure,
        goal,
        out_of_steps: left.out_of_steps,
    })
}

/// What is told of measures of which none is proved.
fn told_trials(alloc: Global, bank: &Bank, left: &[Left]) -> Result<Vec<Trial>, AllocError>
    requires left { All (LeftStands bank.now) left.now }
    ensures { IfOk result (λ v. trials_of v.items ≡ trials_at bank.now left.now) }
{
    let mut trials = Vec::new(alloc);
    for one in left {
        let trial = told_trial(alloc, bank, one)?;
        trials.push(trial)?;
    }
    Ok(trials)
}

/// The try that made this work: the block of the definition, where a measure was found, or else what is told of those that were
/// tried.
fn recursion_by(
    alloc: Global,
    work: Work,
    history: &History,
    recursion: Recursion<'_>,
    measured: Sought,
    logging: bool,
) -> Result<TriedRecursion, AllocError>
    requires legal { LogGrows work.bank history.now [] work.log }
    requires over { RulesAreOver IsVariable work.bank history.now 0 work.log }
    requires symbols { HasSymbols (events_at work.bank history.now) }
    requires names { FunctionNames work.bank recursion.name recursion.formals.now recursion.body }
    requires measure { IfSome measured.found (λ a. Stands work.bank a.measure) }
    requires left { IfNone measured.found (All (LeftStands work.bank) measured.left.items) }
    requires closes { IfSome measured.found (λ a. CanRecur (events_at work.bank history.now) (clause_at work.bank work.log) (text_at work.bank recursion.name) (texts_at work.bank recursion.formals.now)
        (term_at work.bank recursion.body) (term_at work.bank a.measure) a.ordinal a.falls.items) }
    ensures bank { IfOk result (λ r. r.bank ≡ work.bank) }
    ensures kept { IfOk result (λ r. r.kept ≡ option_map kept_of measured.found) }
    ensures trials { IfOk result (λ r. IfNone measured.found (trials_of r.trials.items ≡ trials_at work.bank measured.left.items)) }
    ensures written { IfOk result (λ r. logging ≡ true → AreBlocks (events_at work.bank history.now)
        (kept_claims work.bank recursion.entry.name recursion.entry.formals.now recursion.entry.body (option_map kept_of measured.found)) r.block) }
{
    let Sought { found, left } = measured;
    match found {
        None => {
            let trials = told_trials(alloc, &work.bank, left.as_slice())?;
            Ok(TriedRecursion {
                bank: work.bank,
                kept: None,
                trials,
                block: Text::new(alloc),
            })
        }
        Some(admitting) => {
            let Admitting {
                place,
                measure,
                ordinal,
                falls,
            } = admitting;
            let formals = Vec::from_slice(alloc, recursion.formals)?;
            let measured = Measured {
                measure,
                ordinal,
                falls,
            };
            let closing = Closing::Recursion(recursion.name, formals, recursion.body, measured);
            let block = block_of(alloc, logging, &work.bank, history, &work.log, &closing)?;
            Ok(TriedRecursion {
                bank: work.bank,
                kept: Some(Kept { place, measure }),
                trials: Vec::new(alloc),
                block,
            })
        }
    }
}

/// The try, without what the proof made in the bank past the mark.
fn returned(sought: TriedRecursion, mark: Mark) -> TriedRecursion
    requires { CanRelease sought.bank mark }
    ensures bank { result.bank ≡ released sought.bank mark }
    ensures kept { result.kept ≡ sought.kept }
    ensures trials { result.trials ≡ sought.trials }
    ensures block { result.block ≡ sought.block }
{
    let TriedRecursion {
        mut bank,
        kept,
        trials,
        block,
    } = sought;
    bank.release(mark);
    TriedRecursion {
        bank,
        kept,
        trials,
        block,
    }
}
