//! The lines of an induction.
ghost use Rattle.std.specs.Prelude.{◌≡◌, [], true, OnOk, All};
ghost use Rattle.nq_logic.specs.Terms.{Each};
ghost use Rattle.nq_logic.specs.Ground.{symbols_of};
ghost use Rattle.nq_bank.specs.Content.{Stands, term_at};
ghost use Rattle.nq_clause.specs.Substitution.{substitution_at, PairStands};
ghost use Rattle.nq_proof.specs.Rules as tree;
ghost use Rattle.nq_rule.specs.Inductions.{case_at, cases_at, hypotheses_at, CaseStands, HypothesisStands};
ghost use Rattle.nq_proof.specs.Rules.{CaseLines};
ghost use Rattle.nq_kernel.specs.Over.{IsTermOf, IsVariable};
ghost use Rattle.nq_block.specs.Writing.{Frame, has_clause, with_hypotheses, CanDistinguish, CanSuppose, IsCounted, IsWriting, WritesRule, with_case, with_hypothesis, supposed};

use crate::writer::Writer;
use nq_bank::{Bank, TermId};
use nq_clause::Pair;
use nq_logtext::LogLine;
use nq_rule::{CaseOfInduction, InductionStep};
use std::alloc::AllocError;

impl Writer {
    /// INDUCT: the claim, the measure, the lines of the ordinal and of the base case. The lines of its cases stand before it.
    pub fn induction(
        &mut self,
        bank: &Bank,
        claim: TermId,
        measure: TermId,
        ordinal: u64,
        base: u64,
        cases: &[CaseOfInduction],
    ) -> Result<(), AllocError>
        requires counted { IsCounted self.old }
        requires claim { Stands bank.now claim }
        requires measure { Stands bank.now measure }
        requires cases { All (CaseStands bank.now) cases.now }
        ensures counted { OnOk result (IsCounted self.new) }
        ensures rule { WritesRule bank.now self.old result self.new (tree.Induct (term_at bank.now claim) (term_at bank.now measure) ordinal base (cases_at bank.now cases.now)) }
    {
        for case in cases {
            self.case(bank, case)?;
        }
        self.term(bank, claim)?;
        self.term(bank, measure)?;
        self.put(LogLine::Induct {
            goal: self.number(claim),
            measure: self.number(measure),
            ordinal,
            base,
        })
    }

    /// A case, and then its hypotheses.
    fn case(&mut self, bank: &Bank, case: &CaseOfInduction) -> Result<(), AllocError>
        requires counted { IsCounted self.old }
        requires stands { CaseStands bank.now case.now }
        ensures counted { OnOk result (IsCounted self.new) }
        ensures writing { (frame : Frame) → IsWriting bank.now frame self.old → CanDistinguish frame.history frame.clauses (case_at bank.now case.now) → OnOk result (IsWriting bank.now (with_case frame (case_at bank.now case.now)) self.new) }
    {
        self.begin_case(bank, case.test, case.line)?;
        self.hypotheses(bank, case.steps.as_slice())
    }

    /// The hypotheses of a case.
    fn hypotheses(&mut self, bank: &Bank, steps: &[InductionStep]) -> Result<(), AllocError>
        requires counted { IsCounted self.old }
        requires stand { All (HypothesisStands bank.now) steps.now }
        ensures counted { OnOk result (IsCounted self.new) }
        ensures writing { (frame : Frame) (c : CaseLines) → IsWriting bank.now (with_case frame c) self.old → Each (CanSuppose frame.history frame.clauses) (hypotheses_at bank.now steps.now) → OnOk result (IsWriting bank.now (with_case frame (with_hypotheses c (hypotheses_at bank.now steps.now))) self.new) }
    {
        for step in steps {
            self.hypothesis(bank, step.line, step.pairs.as_slice())?;
        }
        Ok(())
    }

    /// CASE: the test and the line of a case.
    fn begin_case(&mut self, bank: &Bank, test: TermId, line: u64) -> Result<(), AllocError>
        requires counted { IsCounted self.old }
        requires stands { Stands bank.now test }
        ensures counted { OnOk result (IsCounted self.new) }
        ensures writing { (frame : Frame) → IsWriting bank.now frame self.old → has_clause frame.clauses line ≡ true → IsTermOf IsVariable (symbols_of frame.history) (term_at bank.now test) → OnOk result (IsWriting bank.now (with_case frame (record { test = term_at bank.now test; step = line; hypotheses = [] })) self.new) }
    {
        self.term(bank, test)?;
        let test = self.number(test);
        self.put(LogLine::Case { test, line })
    }

    /// HYP: an instance, and the line that shows that the measure falls there.
    fn hypothesis(&mut self, bank: &Bank, line: u64, pairs: &[Pair]) -> Result<(), AllocError>
        requires counted { IsCounted self.old }
        requires stand { All (PairStands bank.now) pairs.now }
        ensures counted { OnOk result (IsCounted self.new) }
        ensures writing { (frame : Frame) (c : CaseLines) → IsWriting bank.now (with_case frame c) self.old → CanSuppose frame.history frame.clauses (supposed line (substitution_at bank.now pairs.now)) → OnOk result (IsWriting bank.now (with_case frame (with_hypothesis c (supposed line (substitution_at bank.now pairs.now)))) self.new) }
    {
        let bindings = self.bindings(bank, pairs)?;
        self.put(LogLine::Hyp { line, bindings })
    }
}
