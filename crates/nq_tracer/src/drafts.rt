//! The case that a recursive call gives.
ghost use Rattle.std.specs.Prelude.{◌≡◌, ◌≤◌, ◌⊎◌, All, IfOk};
ghost use Rattle.nq_logic.specs.Admissible.{matched};
ghost use Rattle.nq_bank.specs.Content.{Grows, IsNamed, Stands, term_at, terms_at};
ghost use Rattle.nq_bank.specs.Shells.{texts_at};
ghost use Rattle.nq_clause.specs.Substitution.{PairStands, substitution_at};
ghost use Rattle.nq_calls.specs.Calls.{SiteStands, guards_at, site_at};
ghost use Rattle.nq_tracer.specs.Cases.{case_by, case_there};
ghost use Rattle.nq_tracer.specs.Leads.{DraftStands, draft_at};

use crate::changes::changes_at;
use crate::tests::all_tests;
use nq_bank::{Bank, BankFault, Sym, TermId};
use nq_calls::Site;
use nq_clause::Pair;
use std::alloc::AllocError;

/// A case of an induction by one substitution.
#[derive(Drop)]
pub struct Draft {
    /// Its test.
    pub test: TermId,
    /// What the variables become.
    pub pairs: Vec<Pair>,
}

/// The shorter of two lengths.
fn shorter(a: usize, b: usize) -> usize
    ensures first { result ≤ a }
    ensures second { result ≤ b }
    ensures either { (result ≡ a) ⊎ (result ≡ b) }
{
    if a < b { a } else { b }
}

/// Each formal with its argument.
pub fn pairs_of(bank: &Bank, formals: &[Sym], arguments: &[TermId]) -> Result<Vec<Pair>, AllocError>
    requires formals { All (IsNamed bank.now) formals.now }
    requires arguments { All (Stands bank.now) arguments.now }
    ensures pairs { IfOk result (λ v. substitution_at bank.now v.items ≡ matched (texts_at bank.now formals.now) (terms_at bank.now arguments.now)) }
    ensures stand { IfOk result (λ v. All (PairStands bank.now) v.items) }
{
    let mut pairs = Vec::new(bank.alloc());
    let count = shorter(formals.len(), arguments.len());
    for place in 0..count {
        pairs.push(Pair {
            variable: formals[place],
            term: arguments[place],
        })?;
    }
    Ok(pairs)
}

/// The case, where each formal has its argument at the recursive call.
fn draft_there(
    bank: &mut Bank,
    measure: TermId,
    here: &[Pair],
    there: &[Pair],
    site: &Site,
) -> Result<Draft, BankFault>
    requires measure { Stands bank.old measure }
    requires here { All (PairStands bank.old) here.now }
    requires there { All (PairStands bank.old) there.now }
    requires site { SiteStands bank.old site.now }
    ensures is { IfOk result (λ r. draft_at bank.new r ≡ case_there (term_at bank.old measure) (substitution_at bank.old here.now) (substitution_at bank.old there.now) (guards_at bank.old site.now.guards.items)) }
    ensures stands { IfOk result (DraftStands bank.new) }
    ensures grows { Grows bank.old bank.new }
{
    let test = all_tests(bank, here, site.guards.as_slice())?;
    let pairs = changes_at(bank, measure, here, there, here)?;
    Ok(Draft { test, pairs })
}

/// The case that a recursive call gives.
pub fn draft_of(
    bank: &mut Bank,
    formals: &[Sym],
    measure: TermId,
    here: &[Pair],
    site: &Site,
) -> Result<Draft, BankFault>
    requires formals { All (IsNamed bank.old) formals.now }
    requires measure { Stands bank.old measure }
    requires here { All (PairStands bank.old) here.now }
    requires site { SiteStands bank.old site.now }
    ensures is { IfOk result (λ r. draft_at bank.new r ≡ case_by (texts_at bank.old formals.now) (term_at bank.old measure) (substitution_at bank.old here.now) (site_at bank.old site.now)) }
    ensures stands { IfOk result (DraftStands bank.new) }
    ensures grows { Grows bank.old bank.new }
{
    let Ok(there) = pairs_of(bank, formals, site.arguments.as_slice()) else {
        return Err(BankFault::Memory);
    };
    draft_there(bank, measure, here, there.as_slice(), site)
}
