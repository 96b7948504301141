//! Lines that show that a measure falls at the calls of a function.
ghost use Rattle.std.specs.Prelude.{◌≡◌, false, All, IfErr, IfOk};
ghost use Rattle.nq_logic.specs.Admissible.{mentions};
ghost use Rattle.nq_bank.specs.Content.{Grows, IsNamed, Stands, text_at, term_at};
ghost use Rattle.nq_bank.specs.Shells.{texts_at};
ghost use Rattle.nq_kernel.specs.Growing.{WorkStands, WorkGrows, LineHolds};
ghost use Rattle.nq_replay.specs.LawClauses.{choice_opens_clause};
ghost use Rattle.nq_replay.specs.Uncounted.{GrowsUncounted};
ghost use Rattle.nq_calls.specs.Calls.{SiteStands, site_at, sites_at};
ghost use Rattle.nq_calls.specs.Falls.{obligation_at};
ghost use Rattle.nq_measures.specs.Trials.{AreFallLines, IsFallLeft, IsFallLine, IsLeft, IsOwed, IsSearching, IsSiteOf, IsTrial};

use crate::judging::judge_fall;
use crate::left::{Left, told};
use nq_bank::{Bank, BankFault, Sym, TermId};
use nq_calls::{Site, fall_literals, measure_at};
use nq_history::History;
use nq_kernel::{Prover, Work, held_work};
use std::alloc::AllocError;

/// What a call owes to a measure: the measure at its arguments, and the literals of its obligation.
#[derive(Drop)]
pub struct Owed {
    /// The measure at the call's arguments.
    pub smaller: TermId,
    /// The literals of the obligation.
    pub literals: Vec<TermId>,
}

/// Makes what a call owes to a measure.
fn make_owed(
    bank: &mut Bank,
    formals: &[Sym],
    measure: TermId,
    site: &Site,
) -> Result<Owed, BankFault>
    requires formals { All (IsNamed bank.old) formals.now }
    requires measure { Stands bank.old measure }
    requires site { SiteStands bank.old site.now }
    ensures owed { IfOk result (IsOwed bank.new formals.now measure site.now) }
    ensures grows { Grows bank.old bank.new }
    ensures names { bank.new.names ≡ bank.old.names }
{
    let smaller = measure_at(bank, formals, measure, site)?;
    let literals = fall_literals(bank, smaller, measure, site.guards.as_slice())?;
    Ok(Owed { smaller, literals })
}

/// Makes what a call owes to a measure. A measure and an argument of a body have room for each other, so no term of it is too deep.
fn owed_at(
    work: &mut Work,
    history: &History,
    formals: &[Sym],
    measure: TermId,
    site: &Site,
) -> Result<Owed, AllocError>
    requires stands { WorkStands history.now work.old }
    requires formals { All (IsNamed work.old.bank) formals.now }
    requires measure { Stands work.old.bank measure }
    requires site { SiteStands work.old.bank site.now }
    ensures owed { IfOk result (IsOwed work.new.bank formals.now measure site.now) }
    ensures grows { GrowsUncounted history.now work.old work.new }
{
    match make_owed(&mut work.bank, formals, measure, site) {
        Ok(owed) => Ok(owed),
        Err(_) => Err(AllocError),
    }
}

/// Seeks the line that shows that the measure falls at a call, or tells what is left.
fn find_fall<P: Prover>(
    prover: &mut P,
    work: &mut Work,
    history: &History,
    law: u64,
    f: Sym,
    formals: &[Sym],
    measure: TermId,
    site: &Site,
) -> Result<Result<u64, Left>, AllocError>
    requires searching { IsSearching (P.has_learnt prover.old) history.now work.old }
    requires law { LineHolds work.old law choice_opens_clause }
    requires trial { IsTrial history.now work.old.bank f formals.now measure }
    requires older { mentions (text_at work.old.bank f) (term_at work.old.bank measure) ≡ false }
    requires site { IsSiteOf history.now work.old.bank f formals.now site.now }
    ensures found { IfOk result (λ r. IfOk r (IsFallLine work.new f formals.now measure site.now)) }
    ensures left { IfOk result (λ r. IfErr r (IsLeft work.new (term_at work.old.bank measure) (obligation_at (texts_at work.old.bank formals.now) (term_at work.old.bank measure) (site_at work.old.bank site.now)))) }
    ensures grows { WorkGrows history.now work.old work.new }
    ensures searching { IsSearching (P.has_learnt prover.new) history.now work.new }
{
    held_work();
    let owed = owed_at(work, history, formals, measure, site)?;
    let literals = owed.literals.as_slice();
    let judged = judge_fall(prover, work, history, law, f, owed.smaller, literals)?;
    Ok(told(judged, measure, owed.literals))
}

/// Seeks the lines that show that the measure falls at each call, or tells the first that is left.
pub(crate) fn find_falls<P: Prover>(
    prover: &mut P,
    work: &mut Work,
    history: &History,
    law: u64,
    f: Sym,
    formals: &[Sym],
    measure: TermId,
    sites: &[Site],
) -> Result<Result<Vec<u64>, Left>, AllocError>
    requires searching { IsSearching (P.has_learnt prover.old) history.now work.old }
    requires law { LineHolds work.old law choice_opens_clause }
    requires trial { IsTrial history.now work.old.bank f formals.now measure }
    requires older { mentions (text_at work.old.bank f) (term_at work.old.bank measure) ≡ false }
    requires sites { All (IsSiteOf history.now work.old.bank f formals.now) sites.now }
    ensures found { IfOk result (λ r. IfOk r (λ falls. AreFallLines work.new f formals.now measure sites.now falls.items)) }
    ensures left { IfOk result (λ r. IfErr r (IsFallLeft work.new (text_at work.old.bank f) (texts_at work.old.bank formals.now) (term_at work.old.bank measure) (sites_at work.old.bank sites.now))) }
    ensures grows { WorkGrows history.now work.old work.new }
    ensures searching { IsSearching (P.has_learnt prover.new) history.now work.new }
{
    held_work();
    let mut falls = Vec::new(work.bank.alloc());
    for site in sites {
        match find_fall(prover, work, history, law, f, formals, measure, site)? {
            Err(left) => return Ok(Err(left)),
            Ok(line) => falls.push(line)?,
        }
    }
    Ok(Ok(falls))
}
