//! Variables with the terms that stand in their places.
ghost use Rattle.std.specs.Prelude.{◌≡◌, OnOk, IfOk, All, map};
ghost use Rattle.nq_logic.specs.Terms.{Each};
ghost use Rattle.nq_logic.specs.Ground.{symbols_of};
ghost use Rattle.nq_bank.specs.Content.{text_at, term_at};
ghost use Rattle.nq_proof.specs.Rules.{pair_terms};
ghost use Rattle.nq_clause.specs.Substitution.{substitution_at, PairStands};
ghost use Rattle.nq_kernel.specs.Over.{IsTermOf, pair_names, IsVariable};
ghost use Rattle.nq_block.specs.Writing.{Frame, IsWriting, IsCounted, IsPairWritten, Keeps, binding_in};

use crate::writer::Writer;
use nq_bank::Bank;
use nq_clause::Pair;
use nq_logtext::Binding;
use std::alloc::{AllocError, Global};

impl Writer {
    /// Writes the lines of a variable and of its term that have none yet.
    fn pair(&mut self, bank: &Bank, pair: Pair) -> Result<(), AllocError>
        requires counted { IsCounted self.old }
        requires stands { PairStands bank.now pair }
        ensures counted { OnOk result (IsCounted self.new) }
        ensures writing { (frame : Frame) → IsWriting bank.now frame self.old → IsVariable (text_at bank.now pair.variable) → IsTermOf IsVariable (symbols_of frame.history) (term_at bank.now pair.term) → OnOk result (IsWriting bank.now frame self.new) }
        ensures written { OnOk result (IsPairWritten self.new pair) }
        ensures keeps { OnOk result (Keeps self.old self.new) }
    {
        self.variable(bank, pair.variable)?;
        self.term(bank, pair.term)
    }

    /// The numbers of a variable and of its term.
    fn binding(&self, pair: Pair) -> Binding
        ensures { result ≡ binding_in self.now pair }
    {
        Binding {
            variable: self.variable_number(pair.variable),
            term: self.number(pair.term),
        }
    }

    /// The numbers of pairs.
    fn numbered_pairs(&self, alloc: Global, pairs: &[Pair]) -> Result<Vec<Binding>, AllocError>
        ensures { IfOk result (λ bs. bs.items ≡ map (binding_in self.now) pairs.now) }
    {
        let mut bindings = Vec::new(alloc);
        for pair in pairs {
            bindings.push(self.binding(*pair))?;
        }
        Ok(bindings)
    }

    /// The numbers of variables and of their terms. Those that have no lines yet are written.
    pub fn bindings(&mut self, bank: &Bank, pairs: &[Pair]) -> Result<Vec<Binding>, AllocError>
        requires counted { IsCounted self.old }
        requires stand { All (PairStands bank.now) pairs.now }
        ensures counted { OnOk result (IsCounted self.new) }
        ensures writing { (frame : Frame) → IsWriting bank.now frame self.old → Each IsVariable (pair_names (substitution_at bank.now pairs.now)) → Each (IsTermOf IsVariable (symbols_of frame.history)) (pair_terms (substitution_at bank.now pairs.now)) → OnOk result (IsWriting bank.now frame self.new) }
        ensures written { OnOk result (All (IsPairWritten self.new) pairs.now) }
        ensures numbers { IfOk result (λ bs. bs.items ≡ map (binding_in self.new) pairs.now) }
        ensures keeps { OnOk result (Keeps self.old self.new) }
    {
        for pair in pairs {
            self.pair(bank, *pair)?;
        }
        self.numbered_pairs(bank.alloc(), pairs)
    }
}
