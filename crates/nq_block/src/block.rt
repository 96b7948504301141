//! The block of one event, and the first and the last line of a log.
ghost use Rattle.std.specs.Prelude.{◌≡◌, ◌++◌, ◌≤◌, [], length, Option, OnOk, OnErr};
ghost use Rattle.nq_logic.specs.Terms.{Symbol};
ghost use Rattle.nq_bank.specs.Soundness.{IsSound};
ghost use Rattle.nq_history.specs.Events.{events_at};
ghost use Rattle.nq_kernel.specs.Growing.{LogGrows};
ghost use Rattle.nq_kernel.specs.Meaning.{rule_at, RuleStands};
ghost use Rattle.nq_kernel.specs.Over.{RulesAreOver, IsVariable};
ghost use Rattle.nq_block.specs.Names.{HasSymbols};
ghost use Rattle.nq_block.specs.Blocks.{AddsBlock};
ghost use Rattle.nq_block.specs.Closings.{claim_at, ClosingStands, CanClose};
ghost use Rattle.nq_block.specs.OpenLogs.{header_text, end_text};
ghost use Rattle.nq_logtext.specs.Views.{view};
ghost use Rattle.nq_block.specs.Writing.{IsCounted, IsWriting, WritesRule, frame_after, line_text};

use crate::closing::Closing;
use crate::writer::Writer;
use nq_bank::Bank;
use nq_drops::write_dropped;
use nq_history::History;
use nq_kernel::{Log, Rule};
use nq_logtext::{LogLine, Text, Version, write_line};
use std::alloc::AllocError;

impl Writer {
    /// Writes the line of a rule, and before it the lines of terms that it names.
    pub fn rule(&mut self, bank: &Bank, rule: &Rule) -> Result<(), AllocError>
        requires counted { IsCounted self.old }
        requires stands { RuleStands bank.now rule.now }
        ensures counted { OnOk result (IsCounted self.new) }
        ensures rule { WritesRule bank.now self.old result self.new (rule_at bank.now rule.now) }
    {
        match rule {
            Rule::Taut(terms) => self.tautology(bank, terms.as_slice()),
            Rule::AxiomRow(name, row, part) => self.axiom(bank, *name, *row, *part),
            Rule::EventTerm(name) => self.event(bank, *name),
            Rule::Weaken(line, terms) => self.weakened(bank, *line, terms.as_slice()),
            Rule::Cut(first, second, t) => self.cut(bank, *first, *second, *t),
            Rule::Instance(line, pairs) => self.instance(bank, *line, pairs.as_slice()),
            Rule::Reflexive(t) => self.reflexive(bank, *t),
            Rule::Replace(line, literal, path, t, side) => {
                self.replaced(bank, *line, *literal, path.as_slice(), *t, *side)
            }
            Rule::Join(first, second, parts) => self.joined(bank, *first, *second, *parts),
            Rule::SplitFirst(line, literal) => self.first_split(*line, *literal),
            Rule::SplitSecond(line, literal) => self.second_split(*line, *literal),
            Rule::NotNot(line, literal) => self.without_nots(*line, *literal),
            Rule::Value(t) => self.valued(bank, *t),
            Rule::Linear(summands) => self.summed(bank, summands.as_slice()),
            Rule::Induct(claim, measure, ordinal, base, cases) => {
                self.induction(bank, *claim, *measure, *ordinal, *base, cases.as_slice())
            }
        }
    }

    /// Writes the lines of a log, in a block that introduces a function or none.
    pub fn rules(&mut self, bank: &Bank, history: &History, log: &Log) -> Result<(), AllocError>
        requires counted { IsCounted self.old }
        requires legal { LogGrows bank.now history.now [] log.now }
        requires over { RulesAreOver IsVariable bank.now history.now 0 log.now }
        ensures counted { OnOk result (IsCounted self.new) }
        ensures writing { (introduced : Option Symbol) → IsWriting bank.now (frame_after bank.now history.now introduced log.now 0) self.old → OnOk result (IsWriting bank.now (frame_after bank.now history.now introduced log.now (length log.now)) self.new) }
    {
        for k in 0..log.len() {
            let line = log.rule(k + 1);
            self.rule(bank, line)?;
        }
        Ok(())
    }
}

/// Writes the block of an event: the lines of a log that was begun for it, with the terms that they use, and the closing line.
///
/// Each term is written once, its parts before it, just before the first line that uses it; the lines keep their numbers. The
/// line of a function that calls itself stands before them all. Each line that the closing line does not cite is dropped,
/// directly after the last line that cites it. It fails only for want of memory, and then nothing was written.
pub fn write_block(
    bank: &Bank,
    history: &History,
    log: &Log,
    closing: &Closing,
    out: &mut Text,
) -> Result<(), AllocError>
    requires legal { LogGrows bank.now history.now [] log.now }
    requires over { RulesAreOver IsVariable bank.now history.now 0 log.now }
    requires names { HasSymbols (events_at bank.now history.now) }
    requires stands { ClosingStands bank.now closing.now }
    requires closing { CanClose bank.now history.now log.now closing.now }
    ensures ok { OnOk result (AddsBlock (events_at bank.now history.now) (claim_at bank.now closing.now) out.old out.new) }
    ensures err { OnErr result (out.new ≡ out.old) }
{
    bank.is_sound();
    let mut writer = Writer::new(bank.alloc());
    writer.begin(bank, closing)?;
    writer.rules(bank, history, log)?;
    writer.close(bank, closing)?;
    write_dropped(bank.alloc(), writer.text.as_slice(), out)
}

/// Adds a line.
fn put_line(line: &LogLine, out: &mut Text) -> Result<(), AllocError>
    ensures { OnOk result (out.new ≡ out.old ++ line_text (view line.now)) }
{
    write_line(line, out)?;
    out.extend_from_slice(b"\n")
}

/// Writes the first line of a log. It fails only for want of memory.
pub fn write_header(out: &mut Text) -> Result<(), AllocError>
    ensures { OnOk result (out.new ≡ out.old ++ header_text) }
{
    put_line(
        &LogLine::Header {
            version: Version::First,
        },
        out,
    )
}

/// Writes the last line of a log. It fails only for want of memory.
pub fn write_end(out: &mut Text) -> Result<(), AllocError>
    ensures { OnOk result (out.new ≡ out.old ++ end_text) }
{
    put_line(&LogLine::End, out)
}
