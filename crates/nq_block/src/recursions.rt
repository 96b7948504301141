//! The lines of a recursive definition.
ghost use Rattle.std.specs.Prelude.{◌≡◌, ◌<◌, ◌^◌, OnOk, length};
ghost use Rattle.nq_logic.specs.Histories.{History};
ghost use Rattle.nq_bank.specs.Content.{IsNamed, text_at};
ghost use Rattle.nq_bank.specs.Soundness.{IsSound};
ghost use Rattle.nq_block.specs.Names.{HasSymbols};
ghost use Rattle.nq_block.specs.Closings.{ClosingStands, RecursionNames, introduced_by};
ghost use Rattle.nq_block.specs.Writing.{AddsLine, IsCounted, IsFresh, IsNew, IsWriting, WritesRecursion, frame_at_start, function_line, measure_line};

use crate::closing::{Closing, Measured};
use crate::rules::copied;
use crate::writer::Writer;
use nq_bank::{Bank, Sym, TermId};
use nq_logtext::{LogLine, Text};
use std::alloc::AllocError;

impl Writer {
    /// Begins a block: F, where its closing line defines a function that calls itself.
    pub fn begin(&mut self, bank: &Bank, closing: &Closing) -> Result<(), AllocError>
        requires counted { IsCounted self.old }
        requires stands { ClosingStands bank.now closing.now }
        ensures counted { OnOk result (IsCounted self.new) }
        ensures writing { (h : History) → IsSound bank.now → HasSymbols h → IsFresh self.old → IsNew h (introduced_by bank.now closing.now) → OnOk result (IsWriting bank.now (frame_at_start h (introduced_by bank.now closing.now)) self.new) }
    {
        match closing {
            Closing::Recursion(name, formals, _, _) => {
                self.function(bank, *name, formals.as_slice())
            }
            Closing::BootStrap => Ok(()),
            Closing::Lemma(_, _, _) => Ok(()),
            Closing::Axiomatize(_, _) => Ok(()),
            Closing::Dcl(_, _) => Ok(()),
            Closing::Defn(_, _, _) => Ok(()),
            Closing::Shell(_) => Ok(()),
            Closing::Toggle(_, _, _) => Ok(()),
            Closing::Undo(_) => Ok(()),
        }
    }

    /// F: the function that the block's closing line defines, with its arity.
    fn function(&mut self, bank: &Bank, name: Sym, formals: &[Sym]) -> Result<(), AllocError>
        requires counted { IsCounted self.old }
        requires named { IsNamed bank.now name }
        ensures counted { OnOk result (IsCounted self.new) }
        ensures line { OnOk result (AddsLine (function_line (text_at bank.now name) (length formals.now)) self.old self.new) }
    {
        let function = Text::of(bank.alloc(), bank.text(name))?;
        self.put(LogLine::Function {
            function,
            arity: formals.len() as u64,
        })
    }

    /// MEASURE: the number of the measure, that of the line of its `(ORDINALP m)`, and those of the lines of the calls.
    fn measure(&mut self, measure: u64, ordinal: u64, lines: Vec<u64>) -> Result<(), AllocError>
        ensures line { OnOk result (AddsLine (measure_line measure ordinal lines.items) self.old self.new) }
        ensures fits { ordinal < 2 ^ 64 }
    {
        self.put(LogLine::Measure {
            measure,
            ordinal,
            lines,
        })
    }

    /// MEASURE, and then DEFN: the measure with its lines, and the body and the formals.
    pub fn recursion(
        &mut self,
        bank: &Bank,
        name: Sym,
        formals: &[Sym],
        body: TermId,
        measured: &Measured,
    ) -> Result<(), AllocError>
        requires counted { IsCounted self.old }
        requires stand { RecursionNames bank.now name formals.now body measured.now }
        ensures { WritesRecursion bank.now self.old result self.new name formals.now body measured.now }
    {
        self.term(bank, body)?;
        self.term(bank, measured.measure)?;
        let formals = self.variables_of(bank, formals)?;
        let function = Text::of(bank.alloc(), bank.text(name))?;
        let lines = copied(bank.alloc(), measured.falls.as_slice())?;
        let measure = self.number(measured.measure);
        self.measure(measure, measured.ordinal, lines)?;
        let body = self.number(body);
        self.put(LogLine::Defn {
            function,
            body,
            formals,
        })
    }
}
