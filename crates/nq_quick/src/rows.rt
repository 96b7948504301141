//! Lines of axioms: that T is true, that F is false, and the openings of the connectives.
ghost use Rattle.std.specs.Prelude.{◌≡◌, ◌<◌, ◌∷◌, [], IfOk};
ghost use Rattle.nq_logic.specs.Words.{true_term, false_term, not_term};
ghost use Rattle.nq_bank.specs.GroundNames.{ground_count};
ghost use Rattle.nq_bank.specs.Soundness.{ground_text};
ghost use Rattle.nq_proof.specs.Rows.{opening};
ghost use Rattle.nq_kernel.specs.Growing.{WorkStands, LineHolds};
ghost use Rattle.nq_quick.specs.Lines.{GrowsUncounted, definition_of};

use crate::lines::add_line;
use nq_bank::{Sym, ground, ground_name};
use nq_fragments::Connective;
use nq_history::History;
use nq_kernel::{Rule, Work};
use std::alloc::AllocError;

/// Adds the line of T.
pub fn add_truth(work: &mut Work, history: &History) -> Result<u64, AllocError>
    requires { WorkStands history.now work.old }
    ensures line { IfOk result (λ n. LineHolds work.new n (true_term ∷ [])) }
    ensures grows { GrowsUncounted history.now work.old work.new }
{
    let name = ground_name(&work.bank, ground::TRUE);
    add_line(work, history, Rule::AxiomRow(name, 1, 0))
}

/// Adds the line of the NOT of F.
pub fn add_falsity(work: &mut Work, history: &History) -> Result<u64, AllocError>
    requires { WorkStands history.now work.old }
    ensures line { IfOk result (λ n. LineHolds work.new n (not_term false_term ∷ [])) }
    ensures grows { GrowsUncounted history.now work.old work.new }
{
    let name = ground_name(&work.bank, ground::FALSE);
    add_line(work, history, Rule::AxiomRow(name, 1, 0))
}

/// The name of a connective.
pub fn name_of(connective: Connective) -> Sym
    ensures ground { result.0 < ground_count }
    ensures name { ground_text result ≡ (definition_of connective).function }
{
    match connective {
        Connective::And => ground::AND,
        Connective::Or => ground::OR,
        Connective::Implies => ground::IMPLIES,
        Connective::Iff => ground::IFF,
    }
}

/// Adds the line of a connective's opening: the equation of its call and its body.
pub fn add_opening(
    work: &mut Work,
    history: &History,
    connective: Connective,
) -> Result<u64, AllocError>
    requires { WorkStands history.now work.old }
    ensures line { IfOk result (λ n. LineHolds work.new n (opening (definition_of connective))) }
    ensures grows { GrowsUncounted history.now work.old work.new }
{
    let name = ground_name(&work.bank, name_of(connective));
    add_line(work, history, Rule::AxiomRow(name, 1, 0))
}
