//! Lines of axioms: rows of their tables, with terms in place of the variables.
ghost use Rattle.std.specs.Prelude.{◌≡◌, ◌∷◌, [], IfOk, IsTrue};
ghost use Rattle.nq_logic.specs.Words.{false_term, not_term};
ghost use Rattle.nq_logtext.specs.Symbols.{is_symbol};
ghost use Rattle.nq_bank.specs.Content.{IsNamed, IsIdOf, NamesText};
ghost use Rattle.nq_clause.specs.Substitution.{substitution_at};
ghost use Rattle.nq_kernel.specs.Meaning.{clause_at};
ghost use Rattle.nq_kernel.specs.Growing.{WorkStands, LineHolds};
ghost use Rattle.nq_eval.specs.Lines.{GrowsUncounted};
ghost use Rattle.nq_eval.specs.Rows.{row_at, row_instance, HasRow, ArePairsIn};

use crate::lines::add_line;
use nq_bank::{BankFault, Sym, TermId, ground, ground_name};
use nq_clause::Pair;
use nq_history::History;
use nq_kernel::{Rule, Work};
use std::alloc::AllocError;

/// The symbol of a text in upper case.
pub fn symbol(work: &mut Work, history: &History, text: &[u8]) -> Result<Sym, AllocError>
    requires stands { WorkStands history.now work.old }
    requires symbol { IsTrue (is_symbol text.now) }
    ensures name { IfOk result (λ s. NamesText work.new.bank s text.now) }
    ensures grows { GrowsUncounted history.now work.old work.new }
{
    work.bank.name(text)
}

/// Adds the line of a row of the tables of axioms.
fn add_row(
    work: &mut Work,
    history: &History,
    name: Sym,
    row: u64,
    pairs: &[Pair],
) -> Result<u64, AllocError>
    requires stands { WorkStands history.now work.old }
    requires name { IsNamed work.old.bank name }
    requires row { HasRow work.old.bank history.now name row (substitution_at work.old.bank pairs.now) }
    ensures line { IfOk result (λ n. clause_at work.new.bank work.new.log n ≡ row_at work.old.bank history.now name row) }
    ensures grows { GrowsUncounted history.now work.old work.new }
{
    add_line(work, history, Rule::AxiomRow(name, row, 0))
}

/// Adds the line of a row of the tables of axioms, with terms in place of its variables.
pub fn add_row_instance(
    work: &mut Work,
    history: &History,
    name: Sym,
    row: u64,
    pairs: Vec<Pair>,
) -> Result<u64, AllocError>
    requires stands { WorkStands history.now work.old }
    requires name { IsNamed work.old.bank name }
    requires row { HasRow work.old.bank history.now name row (substitution_at work.old.bank pairs.items) }
    requires pairs { ArePairsIn work.old.bank history.now pairs.items }
    ensures line { IfOk result (λ n. clause_at work.new.bank work.new.log n ≡ row_instance work.old.bank history.now name row (substitution_at work.old.bank pairs.items)) }
    ensures grows { GrowsUncounted history.now work.old work.new }
{
    let line = add_row(work, history, name, row, pairs.as_slice())?;
    add_line(work, history, Rule::Instance(line, pairs))
}

/// Adds the line of the NOT of F.
pub fn add_falsity(work: &mut Work, history: &History) -> Result<u64, AllocError>
    requires { WorkStands history.now work.old }
    ensures line { IfOk result (λ n. LineHolds work.new n (not_term false_term ∷ [])) }
    ensures grows { GrowsUncounted history.now work.old work.new }
{
    let name = ground_name(&work.bank, ground::FALSE);
    add_line(work, history, Rule::AxiomRow(name, 1, 0))
}

/// The term F.
pub fn falsity(work: &mut Work, history: &History) -> Result<TermId, AllocError>
    requires { WorkStands history.now work.old }
    ensures term { IfOk result (λ t. IsIdOf work.new.bank t false_term) }
    ensures grows { GrowsUncounted history.now work.old work.new }
{
    let name = ground_name(&work.bank, ground::FALSE);
    match work.bank.app(name, &[]) {
        Ok(t) => Ok(t),
        Err(BankFault::Memory) => Err(AllocError),
        Err(BankFault::Deep) => unreachable!(),
    }
}
