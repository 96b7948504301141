//! The closing lines.
ghost use Rattle.std.specs.Prelude.{◌≡◌, OnOk, if◌then◌else◌};
ghost use Rattle.nq_bank.specs.Content.{Content, Stands, IsNamed};
ghost use Rattle.std.specs.Prelude.{All};
ghost use Rattle.nq_block.specs.Closings.{ClosingStands};
ghost use Rattle.nq_block.specs.Writing.{IsCounted, WritesClosing, WritesDefinition};

use crate::closing::Closing;
use crate::writer::Writer;
use nq_bank::{Bank, Sym, TermId};
use nq_logtext::{LogLine, Text};
use std::alloc::AllocError;

impl Writer {
    /// Adds the closing line, and before it the lines of terms that it names.
    pub fn close(&mut self, bank: &Bank, closing: &Closing) -> Result<(), AllocError>
        requires counted { IsCounted self.old }
        requires stands { ClosingStands bank.now closing.now }
        ensures { WritesClosing bank.now self.old result self.new closing.now }
    {
        match closing {
            Closing::BootStrap => self.bootstrap(),
            Closing::Lemma(name, t, line) => self.lemma(bank, *name, *t, *line),
            Closing::Axiomatize(name, t) => self.axiomatize(bank, *name, *t),
            Closing::Dcl(name, arity) => self.declaration(bank, *name, *arity),
            Closing::Defn(name, formals, body) => {
                self.definition(bank, *name, formals.as_slice(), *body)
            }
            Closing::Recursion(name, formals, body, measured) => {
                self.recursion(bank, *name, formals.as_slice(), *body, measured)
            }
            Closing::Shell(shell) => self.shell(bank, shell),
            Closing::Toggle(name, old, disabled) => self.toggle(bank, *name, *old, *disabled),
            Closing::Undo(name) => self.undo(bank, *name),
        }
    }

    fn bootstrap(&mut self) -> Result<(), AllocError>
        ensures { (bank : Content) → WritesClosing bank self.old result self.new Closing.BootStrap }
    {
        self.put(LogLine::BootStrap)
    }

    fn lemma(&mut self, bank: &Bank, name: Sym, t: TermId, line: u64) -> Result<(), AllocError>
        requires counted { IsCounted self.old }
        requires named { IsNamed bank.now name }
        requires stands { Stands bank.now t }
        ensures { WritesClosing bank.now self.old result self.new (Closing.Lemma name t line) }
    {
        self.term(bank, t)?;
        let name = Text::of(bank.alloc(), bank.text(name))?;
        let term = self.number(t);
        self.put(LogLine::Lemma { name, term, line })
    }

    fn axiomatize(&mut self, bank: &Bank, name: Sym, t: TermId) -> Result<(), AllocError>
        requires counted { IsCounted self.old }
        requires named { IsNamed bank.now name }
        requires stands { Stands bank.now t }
        ensures { WritesClosing bank.now self.old result self.new (Closing.Axiomatize name t) }
    {
        self.term(bank, t)?;
        let name = Text::of(bank.alloc(), bank.text(name))?;
        let term = self.number(t);
        self.put(LogLine::Axiomatize { name, term })
    }

    fn declaration(&mut self, bank: &Bank, name: Sym, arity: u32) -> Result<(), AllocError>
        requires { IsNamed bank.now name }
        ensures { WritesClosing bank.now self.old result self.new (Closing.Dcl name arity) }
    {
        let function = Text::of(bank.alloc(), bank.text(name))?;
        self.put(LogLine::Dcl {
            function,
            arity: u64::from(arity),
        })
    }

    fn definition(
        &mut self,
        bank: &Bank,
        name: Sym,
        formals: &[Sym],
        t: TermId,
    ) -> Result<(), AllocError>
        requires counted { IsCounted self.old }
        requires named { IsNamed bank.now name }
        requires formals { All (IsNamed bank.now) formals.now }
        requires stands { Stands bank.now t }
        ensures { WritesDefinition bank.now self.old result self.new name formals.now t }
    {
        self.term(bank, t)?;
        let formals = self.variables_of(bank, formals)?;
        let function = Text::of(bank.alloc(), bank.text(name))?;
        let body = self.number(t);
        self.put(LogLine::Defn {
            function,
            body,
            formals,
        })
    }

    fn toggle(&mut self, bank: &Bank, name: Sym, old: Sym, disabled: bool) -> Result<(), AllocError>
        requires name { IsNamed bank.now name }
        requires old { IsNamed bank.now old }
        ensures { WritesClosing bank.now self.old result self.new (Closing.Toggle name old disabled) }
    {
        let name = Text::of(bank.alloc(), bank.text(name))?;
        let old = Text::of(bank.alloc(), bank.text(old))?;
        self.put(LogLine::Toggle {
            name,
            old,
            disables: digit_of(disabled),
        })
    }

    fn undo(&mut self, bank: &Bank, name: Sym) -> Result<(), AllocError>
        requires { IsNamed bank.now name }
        ensures { WritesClosing bank.now self.old result self.new (Closing.Undo name) }
    {
        let name = Text::of(bank.alloc(), bank.text(name))?;
        self.put(LogLine::Undo { name })
    }
}

/// The digit of a TOGGLE line: 1 for disabled.
fn digit_of(disabled: bool) -> u64
    ensures { result ≡ (if disabled then 1 else 0) }
{
    if disabled { 1 } else { 0 }
}
