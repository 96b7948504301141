//! The lines of terms: each term once, its parts before it.
ghost use Rattle.std.specs.Prelude.{◌≡◌, OnOk, IfOk, All, map, length};
ghost use Rattle.nq_logic.specs.Terms.{Each, Variable, call};
ghost use Rattle.nq_logic.specs.Ground.{symbols_of};
ghost use Rattle.nq_bank.specs.Content.{Stands, IsNamed, text_at, term_at, terms_at};
ghost use Rattle.nq_bank.specs.Shells.{texts_at};
ghost use Rattle.nq_kernel.specs.Over.{IsTermOf, IsVariable};
ghost use Rattle.nq_block.specs.Writing.{Frame, frame_symbols, IsWriting, IsCounted, IsWritten, IsVariableWritten, Keeps, number_in};

use crate::writer::Writer;
use nq_bank::{Bank, Node, Sym, TermId};
use nq_logtext::{LogLine, Text};
use std::alloc::AllocError;

impl Writer {
    /// Writes the line of a variable that has none yet.
    pub fn variable(&mut self, bank: &Bank, s: Sym) -> Result<(), AllocError>
        requires counted { IsCounted self.old }
        requires named { IsNamed bank.now s }
        ensures counted { OnOk result (IsCounted self.new) }
        ensures writing { (frame : Frame) → IsWriting bank.now frame self.old → IsVariable (text_at bank.now s) → OnOk result (IsWriting bank.now frame self.new) }
        ensures written { OnOk result (IsVariableWritten self.new s) }
        ensures keeps { OnOk result (Keeps self.old self.new) }
    {
        if self.variables.contains_key(&s.0) {
            return Ok(());
        }
        let name = Text::of(bank.alloc(), bank.text(s))?;
        self.put_variable(s, LogLine::Variable { name })
    }

    /// Writes the lines of a term and of its parts that have none yet.
    pub fn term(&mut self, bank: &Bank, t: TermId) -> Result<(), AllocError>
        requires counted { IsCounted self.old }
        requires stands { Stands bank.now t }
        ensures counted { OnOk result (IsCounted self.new) }
        // with the function that the block introduces, and without it
        ensures within { (frame : Frame) → IsWriting bank.now frame self.old → IsTermOf IsVariable (frame_symbols frame) (term_at bank.now t) → OnOk result (IsWriting bank.now frame self.new) }
        ensures writing { (frame : Frame) → IsWriting bank.now frame self.old → IsTermOf IsVariable (symbols_of frame.history) (term_at bank.now t) → OnOk result (IsWriting bank.now frame self.new) }
        ensures written { OnOk result (IsWritten self.new t) }
        ensures keeps { OnOk result (Keeps self.old self.new) }
    {
        if self.terms.contains_key(&t.0) {
            return Ok(());
        }
        match bank.node(t) {
            Node::Var(s) => self.variable_term(bank, t, s),
            Node::Num(value) => self.put_term(t, LogLine::Numeral { value }),
            Node::App(function, _) => {
                let arguments = bank.args(t);
                for a in arguments {
                    self.term(bank, *a)?;
                }
                self.call(bank, t, function, arguments)
            }
        }
    }

    /// Writes the line of a term that is a variable, unless the variable has one.
    fn variable_term(&mut self, bank: &Bank, t: TermId, s: Sym) -> Result<(), AllocError>
        requires counted { IsCounted self.old }
        requires named { IsNamed bank.now s }
        requires variable { term_at bank.now t ≡ Variable (text_at bank.now s) }
        ensures counted { OnOk result (IsCounted self.new) }
        ensures writing { (frame : Frame) → IsWriting bank.now frame self.old → IsVariable (text_at bank.now s) → OnOk result (IsWriting bank.now frame self.new) }
        ensures written { OnOk result (IsWritten self.new t) }
        ensures keeps { OnOk result (Keeps self.old self.new) }
    {
        self.variable(bank, s)?;
        self.share(t, s)
    }

    /// Writes the line of a call whose arguments have their lines.
    fn call(
        &mut self,
        bank: &Bank,
        t: TermId,
        function: Sym,
        arguments: &[TermId],
    ) -> Result<(), AllocError>
        requires counted { IsCounted self.old }
        requires stands { Stands bank.now t }
        requires named { IsNamed bank.now function }
        requires call { term_at bank.now t ≡ call (text_at bank.now function) (terms_at bank.now arguments.now) }
        requires written { All (IsWritten self.old) arguments.now }
        ensures counted { OnOk result (IsCounted self.new) }
        ensures writing { (frame : Frame) → IsWriting bank.now frame self.old → IsTermOf IsVariable (frame_symbols frame) (term_at bank.now t) → OnOk result (IsWriting bank.now frame self.new) }
        ensures written { OnOk result (IsWritten self.new t) }
        ensures keeps { OnOk result (Keeps self.old self.new) }
    {
        let arguments = self.numbers(bank.alloc(), arguments)?;
        let function = Text::of(bank.alloc(), bank.text(function))?;
        let line = LogLine::Call {
            function,
            arguments,
        };
        self.put_term(t, line)
    }

    /// The numbers of terms. Those that have no lines yet are written.
    pub fn numbers_of(&mut self, bank: &Bank, terms: &[TermId]) -> Result<Vec<u64>, AllocError>
        requires counted { IsCounted self.old }
        requires stand { All (Stands bank.now) terms.now }
        ensures counted { OnOk result (IsCounted self.new) }
        ensures writing { (frame : Frame) → IsWriting bank.now frame self.old → Each (IsTermOf IsVariable (symbols_of frame.history)) (terms_at bank.now terms.now) → OnOk result (IsWriting bank.now frame self.new) }
        ensures written { OnOk result (All (IsWritten self.new) terms.now) }
        ensures numbers { IfOk result (λ ns. ns.items ≡ map (λ t. number_in self.new.terms t.0) terms.now) }
        ensures keeps { OnOk result (Keeps self.old self.new) }
    {
        for t in terms {
            self.term(bank, *t)?;
        }
        self.numbers(bank.alloc(), terms)
    }

    /// The numbers of variables. Those that have no lines yet are written.
    pub fn variables_of(&mut self, bank: &Bank, names: &[Sym]) -> Result<Vec<u64>, AllocError>
        requires counted { IsCounted self.old }
        requires named { All (IsNamed bank.now) names.now }
        ensures counted { OnOk result (IsCounted self.new) }
        ensures writing { (frame : Frame) → IsWriting bank.now frame self.old → Each IsVariable (texts_at bank.now names.now) → OnOk result (IsWriting bank.now frame self.new) }
        ensures written { OnOk result (All (IsVariableWritten self.new) names.now) }
        ensures numbers { IfOk result (λ ns. ns.items ≡ map (λ s. number_in self.new.variables s.0) names.now) }
        ensures keeps { OnOk result (Keeps self.old self.new) }
    {
        for s in names {
            self.variable(bank, *s)?;
        }
        self.variable_numbers(bank.alloc(), names)
    }
}
