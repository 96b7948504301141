//! What a law's table names, in a bank: the symbols of its variables, and the ids of its terms.
ghost use Rattle.std.specs.Prelude.{◌≡◌, map, reverse, All, IfOk, IsTrue};
ghost use Rattle.std.specs.List.{list_all};
ghost use Rattle.nq_logtext.specs.Symbols.{is_symbol};
ghost use Rattle.nq_bank.specs.Content.{Stands, IsNamed, NamesText, terms_at};
ghost use Rattle.nq_steps.specs.Steps.{stack_of};
ghost use Rattle.nq_axiom.specs.Steps.{ground_content};
ghost use Rattle.nq_bank.specs.Shells.{texts_at};
ghost use Rattle.nq_kernel.specs.Growing.{WorkStands};
ghost use Rattle.nq_replay.specs.Uncounted.{GrowsUncounted};
ghost use Rattle.nq_replay.specs.Replaying.{law_names, law_terms, is_step, are_low, is_table};
ghost use Rattle.nq_replay.specs.Parts.{ArePartsOf};

use crate::table::Law;
use nq_bank::{BankFault, Sym, TermId};
use nq_history::History;
use nq_kernel::Work;
use nq_steps::{Step, take_steps};
use std::alloc::AllocError;

/// The symbols of a law's variables, and the ids of its terms.
#[derive(Drop)]
pub struct Parts {
    /// The symbols.
    pub names: Vec<Sym>,
    /// The ids.
    pub terms: Vec<TermId>,
}

/// The symbol of a text in upper case.
fn symbol(work: &mut Work, history: &History, text: &[u8]) -> Result<Sym, AllocError>
    requires stands { WorkStands history.now work.old }
    requires symbol { IsTrue (is_symbol text.now) }
    ensures name { IfOk result (λ s. NamesText work.new.bank s text.now) }
    ensures grows { GrowsUncounted history.now work.old work.new }
{
    work.bank.name(text)
}

/// The symbols of texts in upper case.
fn names_of(work: &mut Work, history: &History, texts: &[&[u8]]) -> Result<Vec<Sym>, AllocError>
    requires stands { WorkStands history.now work.old }
    requires symbols { IsTrue (list_all is_symbol (map (λ text. text.now) texts.now)) }
    ensures named { IfOk result (λ names. All (IsNamed work.new.bank) names.items) }
    ensures names { IfOk result (λ names. texts_at work.new.bank names.items ≡ map (λ text. text.now) texts.now) }
    ensures grows { GrowsUncounted history.now work.old work.new }
{
    let mut names = Vec::new(work.bank.alloc());
    for text in texts {
        let s = symbol(work, history, text)?;
        names.push(s)?;
    }
    Ok(names)
}

/// The ids of the terms that steps make of ground functions.
fn terms_of(work: &mut Work, history: &History, steps: &[Step]) -> Result<Vec<TermId>, AllocError>
    requires stands { WorkStands history.now work.old }
    requires steps { IsTrue (list_all is_step steps.now) }
    requires low { IsTrue (are_low (stack_of ground_content steps.now)) }
    ensures stand { IfOk result (λ ids. All (Stands work.new.bank) ids.items) }
    ensures terms { IfOk result (λ ids. terms_at work.new.bank ids.items ≡ reverse (stack_of ground_content steps.now)) }
    ensures grows { GrowsUncounted history.now work.old work.new }
{
    work.bank.is_sound();
    match take_steps(&mut work.bank, steps) {
        Ok(ids) => Ok(ids),
        Err(BankFault::Memory) => Err(AllocError),
        Err(BankFault::Deep) => unreachable!(),
    }
}

/// The parts of a law.
pub fn parts_of(work: &mut Work, history: &History, law: Law) -> Result<Parts, AllocError>
    requires stands { WorkStands history.now work.old }
    requires table { IsTrue (is_table law) }
    ensures parts { IfOk result (λ parts. ArePartsOf work.new.bank (law_names law) (law_terms law) parts) }
    ensures grows { GrowsUncounted history.now work.old work.new }
{
    let names = names_of(work, history, law.names)?;
    let terms = terms_of(work, history, law.terms)?;
    Ok(Parts { names, terms })
}
