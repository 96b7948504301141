//! The lines of rules.
ghost use Rattle.std.specs.Prelude.{◌≡◌, ◌<◌, ◌^◌, OnOk, IfOk, All, map};
ghost use Rattle.nq_bank.specs.Content.{Content, Stands, IsNamed, text_at, term_at, terms_at};
ghost use Rattle.nq_clause.specs.Substitution.{substitution_at, PairStands};
ghost use Rattle.nq_proof.specs.Rules as tree;
ghost use Rattle.nq_rule.specs.Branches.{BranchesStand};
ghost use Rattle.nq_rule.specs.Sides.{side_of};
ghost use Rattle.nq_log.specs.RuleLines.{side_of as read_side};
ghost use Rattle.nq_block.specs.Writing.{IsCounted, WritesRule};

use crate::writer::Writer;
use nq_bank::{Bank, Sym, TermId};
use nq_clause::Pair;
use nq_logtext::{LogLine, Sign, Text};
use nq_rule::{Branches, Side};
use std::alloc::{AllocError, Global};

impl Writer {
    /// TAUT: the terms.
    pub fn tautology(&mut self, bank: &Bank, terms: &[TermId]) -> Result<(), AllocError>
        requires counted { IsCounted self.old }
        requires stand { All (Stands bank.now) terms.now }
        ensures counted { OnOk result (IsCounted self.new) }
        ensures rule { WritesRule bank.now self.old result self.new (tree.Taut (terms_at bank.now terms.now)) }
    {
        let terms = self.numbers_of(bank, terms)?;
        self.put(LogLine::Taut { terms })
    }

    /// AXIOM: a row under a name.
    pub fn axiom(&mut self, bank: &Bank, name: Sym, row: u64, part: u64) -> Result<(), AllocError>
        requires counted { IsCounted self.old }
        requires named { IsNamed bank.now name }
        ensures counted { OnOk result (IsCounted self.new) }
        ensures rule { WritesRule bank.now self.old result self.new (tree.AxiomRow (text_at bank.now name) row part) }
    {
        let name = Text::of(bank.alloc(), bank.text(name))?;
        self.put(LogLine::Axiom { name, row, part })
    }

    /// EVENT: the name of an axiom or lemma.
    pub fn event(&mut self, bank: &Bank, name: Sym) -> Result<(), AllocError>
        requires counted { IsCounted self.old }
        requires named { IsNamed bank.now name }
        ensures counted { OnOk result (IsCounted self.new) }
        ensures rule { WritesRule bank.now self.old result self.new (tree.EventTerm (text_at bank.now name)) }
    {
        let name = Text::of(bank.alloc(), bank.text(name))?;
        self.put(LogLine::Event { name })
    }

    /// WEAKEN: a line and terms.
    pub fn weakened(&mut self, bank: &Bank, line: u64, terms: &[TermId]) -> Result<(), AllocError>
        requires counted { IsCounted self.old }
        requires stand { All (Stands bank.now) terms.now }
        ensures counted { OnOk result (IsCounted self.new) }
        ensures rule { WritesRule bank.now self.old result self.new (tree.Weaken line (terms_at bank.now terms.now)) }
    {
        let terms = self.numbers_of(bank, terms)?;
        self.put(LogLine::Weaken { line, terms })
    }

    /// CUT: two lines and a term.
    pub fn cut(&mut self, bank: &Bank, first: u64, second: u64, t: TermId) -> Result<(), AllocError>
        requires counted { IsCounted self.old }
        requires stands { Stands bank.now t }
        ensures counted { OnOk result (IsCounted self.new) }
        ensures rule { WritesRule bank.now self.old result self.new (tree.Cut first second (term_at bank.now t)) }
    {
        self.term(bank, t)?;
        let term = self.number(t);
        self.put(LogLine::Cut {
            first,
            second,
            term,
        })
    }

    /// INST: a line, and variables with their terms.
    pub fn instance(&mut self, bank: &Bank, line: u64, pairs: &[Pair]) -> Result<(), AllocError>
        requires counted { IsCounted self.old }
        requires stand { All (PairStands bank.now) pairs.now }
        ensures counted { OnOk result (IsCounted self.new) }
        ensures rule { WritesRule bank.now self.old result self.new (tree.Instance line (substitution_at bank.now pairs.now)) }
    {
        let bindings = self.bindings(bank, pairs)?;
        self.put(LogLine::Inst { line, bindings })
    }

    /// REFL: a term.
    pub fn reflexive(&mut self, bank: &Bank, t: TermId) -> Result<(), AllocError>
        requires counted { IsCounted self.old }
        requires stands { Stands bank.now t }
        ensures counted { OnOk result (IsCounted self.new) }
        ensures rule { WritesRule bank.now self.old result self.new (tree.Reflexive (term_at bank.now t)) }
    {
        self.term(bank, t)?;
        let term = self.number(t);
        self.put(LogLine::Refl { term })
    }

    /// REPLACE: a line, a literal of it, a path, a term, and the order of the equation.
    pub fn replaced(
        &mut self,
        bank: &Bank,
        line: u64,
        literal: u64,
        path: &[u64],
        t: TermId,
        side: Side,
    ) -> Result<(), AllocError>
        requires counted { IsCounted self.old }
        requires stands { Stands bank.now t }
        ensures counted { OnOk result (IsCounted self.new) }
        ensures rule { WritesRule bank.now self.old result self.new (tree.Replace line literal path.now (term_at bank.now t) (side_of side)) }
    {
        self.term(bank, t)?;
        let term = self.number(t);
        let path = copied(bank.alloc(), path)?;
        self.put(LogLine::Replace {
            line,
            literal,
            path,
            term,
            sign: sign_of(side),
        })
    }

    /// JOIN: two lines, and the parts of an IF.
    pub fn joined(
        &mut self,
        bank: &Bank,
        first: u64,
        second: u64,
        parts: Branches,
    ) -> Result<(), AllocError>
        requires counted { IsCounted self.old }
        requires stand { BranchesStand bank.now parts }
        ensures counted { OnOk result (IsCounted self.new) }
        ensures rule { WritesRule bank.now self.old result self.new (tree.Join first second (term_at bank.now parts.test) (term_at bank.now parts.first) (term_at bank.now parts.second)) }
    {
        self.term(bank, parts.test)?;
        self.term(bank, parts.first)?;
        self.term(bank, parts.second)?;
        self.put(LogLine::Join {
            first,
            second,
            test: self.number(parts.test),
            left: self.number(parts.first),
            right: self.number(parts.second),
        })
    }

    /// SPLIT: a line, a literal of it, and 1 for the first side.
    pub fn first_split(&mut self, line: u64, literal: u64) -> Result<(), AllocError>
        requires counted { IsCounted self.old }
        ensures counted { OnOk result (IsCounted self.new) }
        ensures rule { (bank : Content) → WritesRule bank self.old result self.new (tree.SplitFirst line literal) }
    {
        self.put(LogLine::Split {
            line,
            literal,
            side: 1,
        })
    }

    /// SPLIT: a line, a literal of it, and 2 for the second side.
    pub fn second_split(&mut self, line: u64, literal: u64) -> Result<(), AllocError>
        requires counted { IsCounted self.old }
        ensures counted { OnOk result (IsCounted self.new) }
        ensures rule { (bank : Content) → WritesRule bank self.old result self.new (tree.SplitSecond line literal) }
    {
        self.put(LogLine::Split {
            line,
            literal,
            side: 2,
        })
    }

    /// NOTNOT: a line and a literal of it.
    pub fn without_nots(&mut self, line: u64, literal: u64) -> Result<(), AllocError>
        requires counted { IsCounted self.old }
        ensures counted { OnOk result (IsCounted self.new) }
        ensures rule { (bank : Content) → WritesRule bank self.old result self.new (tree.NotNot line literal) }
    {
        self.put(LogLine::NotNot { line, literal })
    }

    /// VALUE: a term.
    pub fn valued(&mut self, bank: &Bank, t: TermId) -> Result<(), AllocError>
        requires counted { IsCounted self.old }
        requires stands { Stands bank.now t }
        ensures counted { OnOk result (IsCounted self.new) }
        ensures rule { WritesRule bank.now self.old result self.new (tree.Value (term_at bank.now t)) }
    {
        self.term(bank, t)?;
        let term = self.number(t);
        self.put(LogLine::Value { term })
    }
}

/// The sign of an order of an equation.
fn sign_of(side: Side) -> Sign
    ensures { read_side result ≡ side_of side }
{
    match side {
        Side::Forwards => Sign::Plus,
        Side::Backwards => Sign::Minus,
    }
}

/// A copy of numbers.
pub(crate) fn copied(alloc: Global, path: &[u64]) -> Result<Vec<u64>, AllocError>
    ensures items { IfOk result (λ places. places.items ≡ path.now) }
    ensures fit { OnOk result (All (λ place. place < 2 ^ 64) path.now) }
{
    let mut places = Vec::new(alloc);
    for place in path {
        places.push(*place)?;
    }
    Ok(places)
}
