// The texts of reports and of the closing lines.
ghost use Rattle.std.specs.Prelude.{◌≡◌, IfOk, Some};
ghost use Rattle.nq_comment.specs.Reports as model;
ghost use Rattle.nq_comment.specs.ReportViews.{answer_of, ending_of, quick_of, report_of, text_of, words_of};
ghost use Rattle.nq_comment.specs.Text.{answer_lines, closing_lines, fault_line, fault_words, lines_of_report, measured_line, quick_word, shown_name, shown_word, spaced, summary, summary_by};
ghost use Rattle.nq_comment.specs.Totals.{totals_in};

use crate::goal_lines::{failed_lines, proved_lines};
use crate::text::joined;
use crate::trial_lines::unmeasured_lines;
use crate::{Counts, FormAnswer, Quick, Refusal};
use std::alloc::{AllocError, Global};

/// One form's report: the word and the name of its header, and the answer.
#[derive(Drop)]
pub struct FormReport<'a> {
    /// The symbol that the form begins with. None where it is no list that begins with one.
    pub word: Option<&'a [u8]>,
    /// The symbol behind the word, of an event that has a name.
    pub name: Option<&'a [u8]>,
    /// What the form was answered.
    pub answer: FormAnswer,
}

/// What is wrong with the spelling of a text, by the code of the fault, from 1 to 4, and at which byte,
/// counted from 0.
#[derive(Clone, Copy, Debug, PartialEq, Eq)]
pub struct SyntaxFault {
    /// The code, from 1 to 4.
    pub code: u64,
    /// The byte, counted from 0.
    pub offset: u64,
}

/// The lines of the report of the form of this number, counted from 1: its header, and its answer's
/// lines after three spaces.
pub fn render_report(
    alloc: Global,
    number: u64,
    report: &FormReport<'_>,
) -> Result<Vec<u8>, AllocError>
    ensures { IfOk result (λ text. text.items ≡ lines_of_report number (report_of report.now)) }
{
    let word = shown_word(report.word);
    let name = shown_name(alloc, report.name)?;
    let answer = answer_lines(alloc, &report.answer)?;
    let digits = number.to_string(alloc)?;
    let pieces = [
        digits.as_bytes(),
        b". ".as_slice(),
        word,
        name.as_slice(),
        b"\n".as_slice(),
        answer.as_slice(),
    ];
    joined(alloc, pieces.as_slice())
}

/// The word as a header shows it, and refusals that name it: `?` where there is none.
pub fn shown_word(word: Option<&[u8]>) -> &[u8]
    ensures { result.now ≡ shown_word (text_of word.entry) }
{
    match word {
        Some(word) => word,
        None => b"?".as_slice(),
    }
}

fn shown_name(alloc: Global, name: Option<&[u8]>) -> Result<Vec<u8>, AllocError>
    ensures { IfOk result (λ text. text.items ≡ shown_name (text_of name.entry)) }
{
    match name {
        Some(name) => joined(alloc, [b" ".as_slice(), name].as_slice()),
        None => Ok(Vec::new(alloc)),
    }
}

fn answer_lines(alloc: Global, answer: &FormAnswer) -> Result<Vec<u8>, AllocError>
    ensures { IfOk result (λ text. text.items ≡ answer_lines (answer_of answer.now)) }
{
    match answer {
        FormAnswer::Accepted => b"   Accepted.\n".as_slice().to_vec(alloc),
        FormAnswer::AcceptedBy(_, measure) => measured_line(alloc, measure.as_slice()),
        FormAnswer::Unmeasured(trials) => unmeasured_lines(alloc, trials.as_slice()),
        FormAnswer::Undone(count) => undone_line(alloc, *count),
        FormAnswer::Skipped => b"   Skipped.\n".as_slice().to_vec(alloc),
        FormAnswer::Proved(quick) => quick_lines(alloc, *quick),
        FormAnswer::ProvedFrom(goal, steps) => {
            proved_lines(alloc, goal.as_slice(), steps.as_slice())
        }
        FormAnswer::Failed(goal, steps, cause) => {
            failed_lines(alloc, goal.as_slice(), steps.as_slice(), *cause)
        }
        FormAnswer::OutOfSteps => b"   Out of steps.\n".as_slice().to_vec(alloc),
        FormAnswer::Refused(refusal) => refused_line(alloc, refusal),
    }
}

fn measured_line(alloc: Global, measure: &[u8]) -> Result<Vec<u8>, AllocError>
    ensures { IfOk result (λ text. text.items ≡ measured_line measure.now) }
{
    let pieces = [b"   Accepted by ".as_slice(), measure, b".\n".as_slice()];
    joined(alloc, pieces.as_slice())
}

fn undone_line(alloc: Global, count: u64) -> Result<Vec<u8>, AllocError>
    ensures { IfOk result (λ text. text.items ≡ answer_lines (model.Undone count)) }
{
    let digits = count.to_string(alloc)?;
    let pieces = [
        b"   Undone ".as_slice(),
        digits.as_bytes(),
        b".\n".as_slice(),
    ];
    joined(alloc, pieces.as_slice())
}

fn quick_word(quick: Quick) -> &'static [u8]
    ensures { result.now ≡ quick_word (quick_of quick) }
{
    match quick {
        Quick::Taut => b"TAUT".as_slice(),
        Quick::Eval => b"EVAL".as_slice(),
        Quick::Inst => b"INST".as_slice(),
    }
}

fn quick_lines(alloc: Global, quick: Quick) -> Result<Vec<u8>, AllocError>
    ensures { IfOk result (λ text. text.items ≡ answer_lines (model.Proved (quick_of quick))) }
{
    let pieces = [
        b"   By ".as_slice(),
        quick_word(quick),
        b".\n   Proved.\n".as_slice(),
    ];
    joined(alloc, pieces.as_slice())
}

// Each word after one space.
fn spaced(alloc: Global, words: &[Vec<u8>]) -> Result<Vec<u8>, AllocError>
    ensures { IfOk result (λ text. text.items ≡ spaced (words_of words.now)) }
{
    let mut text = Vec::new(alloc);
    for word in words {
        text.extend_from_slice(b" ")?;
        text.extend_from_slice(word.as_slice())?;
    }
    Ok(text)
}

fn refused_line(alloc: Global, refusal: &Refusal) -> Result<Vec<u8>, AllocError>
    ensures { IfOk result (λ text. text.items
        ≡ answer_lines (model.Refused refusal.now.code (words_of refusal.now.words.items))) }
{
    let code = refusal.code.to_string(alloc)?;
    let words = spaced(alloc, refusal.words.as_slice())?;
    let pieces = [
        b"   Refused ".as_slice(),
        code.as_bytes(),
        words.as_slice(),
        b".\n".as_slice(),
    ];
    joined(alloc, pieces.as_slice())
}

/// The closing lines: what is wrong with the spelling, where something is, and the summary.
pub fn render_closing(
    alloc: Global,
    fault: Option<SyntaxFault>,
    counts: Counts,
) -> Result<Vec<u8>, AllocError>
    ensures { IfOk result (λ text. text.items ≡ closing_lines (ending_of fault) (totals_in counts)) }
{
    let mut text = match fault {
        Some(fault) => fault_line(alloc, fault)?,
        None => Vec::new(alloc),
    };
    let last = summary(alloc, counts)?;
    text.extend_from_slice(last.as_slice())?;
    Ok(text)
}

fn fault_line(alloc: Global, fault: SyntaxFault) -> Result<Vec<u8>, AllocError>
    ensures { IfOk result (λ text. text.items ≡ fault_line (ending_of (Some fault))) }
{
    let code = fault.code.to_string(alloc)?;
    let offset = fault.offset.to_string(alloc)?;
    let pieces = [
        b"Syntax fault ".as_slice(),
        code.as_bytes(),
        b" at byte ".as_slice(),
        offset.as_bytes(),
        b": ".as_slice(),
        fault_words(fault.code),
        b".\n".as_slice(),
    ];
    joined(alloc, pieces.as_slice())
}

fn fault_words(code: u64) -> &'static [u8]
    ensures { result.now ≡ fault_words code }
{
    match code {
        1 => b"unbalanced".as_slice(),
        2 => b"bad token".as_slice(),
        3 => b"numeral too wide".as_slice(),
        4 => b"too deep".as_slice(),
        _ => b"".as_slice(),
    }
}

fn summary(alloc: Global, counts: Counts) -> Result<Vec<u8>, AllocError>
    ensures { IfOk result (λ text. text.items ≡ summary (totals_in counts)) }
{
    let forms = counts.forms.to_string(alloc)?;
    let accepted = counts.accepted.to_string(alloc)?;
    let refused = counts.refused.to_string(alloc)?;
    let failed = counts.failed.to_string(alloc)?;
    let skipped = counts.skipped.to_string(alloc)?;
    summary_of(
        alloc,
        forms.as_bytes(),
        accepted.as_bytes(),
        refused.as_bytes(),
        failed.as_bytes(),
        skipped.as_bytes(),
    )
}

fn summary_of(
    alloc: Global,
    forms: &[u8],
    accepted: &[u8],
    refused: &[u8],
    failed: &[u8],
    skipped: &[u8],
) -> Result<Vec<u8>, AllocError>
    ensures { IfOk result (λ text. text.items
        ≡ summary_by forms.now accepted.now refused.now failed.now skipped.now) }
{
    let pieces = [
        b"Forms ".as_slice(),
        forms,
        b", accepted ".as_slice(),
        accepted,
        b", refused ".as_slice(),
        refused,
        b", failed ".as_slice(),
        failed,
        b", skipped ".as_slice(),
        skipped,
        b".\n".as_slice(),
    ];
    joined(alloc, pieces.as_slice())
}
