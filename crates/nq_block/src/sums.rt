//! The line of a linear sum.
ghost use Rattle.std.specs.Prelude.{◌≡◌, ◌<◌, ◌^◌, OnOk, IfOk, All, map};
ghost use Rattle.nq_logic.specs.Terms.{Each};
ghost use Rattle.nq_logic.specs.Ground.{symbols_of};
ghost use Rattle.nq_proof.specs.Rules as tree;
ghost use Rattle.nq_linear_rule.specs.Sums.{summands_at, LiteralsStand};
ghost use Rattle.nq_kernel.specs.Over.{IsTermOf, IsVariable};
ghost use Rattle.nq_block.specs.Writing.{Frame, IsCounted, IsSummandWritten, IsWriting, Keeps, WritesRule, multiple_in, sign_if};

use crate::writer::Writer;
use nq_bank::Bank;
use nq_linear_rule::Summand;
use nq_logtext::{LogLine, Multiple, Sign};
use std::alloc::{AllocError, Global};

/// The sign of an order.
fn sign_if(forwards: bool) -> Sign
    ensures { result ≡ sign_if forwards }
{
    if forwards { Sign::Plus } else { Sign::Minus }
}

impl Writer {
    /// LINEAR: literals, each with its factor and the order in which it is read.
    pub fn summed(&mut self, bank: &Bank, summands: &[Summand]) -> Result<(), AllocError>
        requires counted { IsCounted self.old }
        requires stand { LiteralsStand bank.now summands.now }
        ensures counted { OnOk result (IsCounted self.new) }
        ensures rule { WritesRule bank.now self.old result self.new (tree.Linear (summands_at bank.now summands.now)) }
    {
        let multiples = self.multiples(bank, summands)?;
        self.put(LogLine::Linear { multiples })
    }

    /// The number of a literal with its factor and sign.
    fn multiple(&self, one: Summand) -> Multiple
        ensures multiple { result ≡ multiple_in self.now one }
        ensures fits { one.factor < 2 ^ 64 }
    {
        Multiple {
            factor: one.factor,
            term: self.number(one.literal),
            sign: sign_if(one.forwards),
        }
    }

    /// The numbers of literals with their factors and signs.
    fn numbered_summands(
        &self,
        alloc: Global,
        summands: &[Summand],
    ) -> Result<Vec<Multiple>, AllocError>
        ensures numbers { IfOk result (λ ms. ms.items ≡ map (multiple_in self.now) summands.now) }
        ensures fit { OnOk result (All (λ s. s.factor < 2 ^ 64) summands.now) }
    {
        let mut multiples = Vec::new(alloc);
        for one in summands {
            multiples.push(self.multiple(*one))?;
        }
        Ok(multiples)
    }

    /// The numbers of literals with their factors and signs. Those that have no lines yet are written.
    fn multiples(&mut self, bank: &Bank, summands: &[Summand]) -> Result<Vec<Multiple>, AllocError>
        requires counted { IsCounted self.old }
        requires stand { LiteralsStand bank.now summands.now }
        ensures counted { OnOk result (IsCounted self.new) }
        ensures writing { (frame : Frame) → IsWriting bank.now frame self.old → Each (IsTermOf IsVariable (symbols_of frame.history)) (map (λ s. s.literal) (summands_at bank.now summands.now)) → OnOk result (IsWriting bank.now frame self.new) }
        ensures written { OnOk result (All (IsSummandWritten self.new) summands.now) }
        ensures numbers { IfOk result (λ ms. ms.items ≡ map (multiple_in self.new) summands.now) }
        ensures fit { OnOk result (All (λ s. s.factor < 2 ^ 64) summands.now) }
        ensures keeps { OnOk result (Keeps self.old self.new) }
    {
        for one in summands {
            self.term(bank, one.literal)?;
        }
        self.numbered_summands(bank.alloc(), summands)
    }
}
