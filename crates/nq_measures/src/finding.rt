//! The first of some measures that admits a definition.
ghost use Rattle.std.specs.Prelude.{◌≡◌, ◌≤◌, ◌<◌, ◌∷◌, [], false, All, IfErr, IfNone, IfOk, MatchOption, length};
ghost use Rattle.nq_logic.specs.Terms.{Each};
ghost use Rattle.nq_logic.specs.Sizes.{depth_of};
ghost use Rattle.nq_logic.specs.Ground.{symbols_of};
ghost use Rattle.nq_logic.specs.Names.{is_in_use};
ghost use Rattle.nq_logic.specs.Admissible.{mentions};
ghost use Rattle.nq_bank.specs.Content.{IsIdOf, IsNamed, Stands, text_at, term_at, terms_at};
ghost use Rattle.nq_bank.specs.Shells.{texts_at};
ghost use Rattle.nq_history.specs.Events.{events_at};
ghost use Rattle.nq_kernel.specs.Growing.{WorkStands, WorkGrows, LineHolds};
ghost use Rattle.nq_kernel.specs.Over.{IsVariable, IsTermOf, TermIsIn};
ghost use Rattle.nq_kernel.specs.Ready.{IsReady, WorkHolds};
ghost use Rattle.nq_lines.specs.Lines.{LineHasOnly};
ghost use Rattle.nq_replay.specs.LawClauses.{choice_opens_clause};
ghost use Rattle.nq_replay.specs.Uncounted.{GrowsUncounted};
ghost use Rattle.nq_calls.specs.Calls.{counted_calls};
ghost use Rattle.nq_measures.specs.Measures.{ordinal_clause};
ghost use Rattle.nq_measures.specs.Trials.{AreLeft, AreLeftAt, IsEvidence, IsLeft, IsLeftAt, IsNotStructural, IsSearching, IsSiteOf, IsTrial};
ghost use Rattle.nq_measures.specs.Admitting.{IsAdmitting, IsFoundAmong, IsNewFunction, NoneIsStructural};

use crate::descents::find_by_size;
use crate::evidence::Evidence;
use crate::falls::find_falls;
use crate::judging::judge;
use crate::left::{Left, told};
use nq_bank::{Sym, TermId, ground, ground_name};
use nq_calls::{Site, apart_if_unused, calls_within, mentions_at};
use nq_history::History;
use nq_kernel::{Prover, Work, held_work};
use nq_replay::choice_opens;
use std::alloc::AllocError;

/// A measure under which a definition is admitted: its place among those that were tried, the line that shows that it is an
/// ordinal, and those that show that it falls, one for each call.
#[derive(Drop)]
pub struct Admitting {
    /// The place among those that were tried, counted from 0.
    pub place: u64,
    /// The measure.
    pub measure: TermId,
    /// The line that shows that it is an ordinal.
    pub ordinal: u64,
    /// The lines that show that it falls.
    pub falls: Vec<u64>,
}

/// What was found of the measures that are tried: the first that admits the definition, and what is left of each one before it.
#[derive(Drop)]
pub struct Sought {
    /// The measure that admits the definition.
    pub found: Option<Admitting>,
    /// What is left of each measure before it, or of each one where none does.
    pub left: Vec<Left>,
}

/// Makes that a measure is an ordinal. A measure has room under one call more, so the term is not too deep.
fn ordinal_literal(
    work: &mut Work,
    history: &History,
    measure: TermId,
) -> Result<TermId, AllocError>
    requires stands { WorkStands history.now work.old }
    requires measure { Stands work.old.bank measure }
    ensures literal { IfOk result (λ t. terms_at work.new.bank (t ∷ []) ≡ ordinal_clause (term_at work.old.bank measure)) }
    ensures stands { IfOk result (Stands work.new.bank) }
    ensures grows { GrowsUncounted history.now work.old work.new }
{
    let name = ground_name(&work.bank, ground::ORDINALP);
    match work.bank.app(name, &[measure]) {
        Ok(t) => Ok(t),
        Err(_) => Err(AllocError),
    }
}

/// Makes the literals of the obligation that a measure is an ordinal.
fn ordinal_literals(
    work: &mut Work,
    history: &History,
    measure: TermId,
) -> Result<Vec<TermId>, AllocError>
    requires stands { WorkStands history.now work.old }
    requires measure { Stands work.old.bank measure }
    ensures literals { IfOk result (λ v. terms_at work.new.bank v.items ≡ ordinal_clause (term_at work.old.bank measure)) }
    ensures some { IfOk result (λ v. 0 < length v.items) }
    ensures stand { IfOk result (λ v. All (Stands work.new.bank) v.items) }
    ensures grows { GrowsUncounted history.now work.old work.new }
{
    let mut literals = Vec::new(work.bank.alloc());
    let literal = ordinal_literal(work, history, measure)?;
    literals.push(literal)?;
    Ok(literals)
}

/// What is left of a measure that mentions the function: that it is an ordinal, which no prover is asked.
fn leave_ordinal(work: &mut Work, history: &History, measure: TermId) -> Result<Left, AllocError>
    requires stands { WorkStands history.now work.old }
    requires measure { Stands work.old.bank measure }
    ensures left { IfOk result (IsLeft work.new (term_at work.old.bank measure) (ordinal_clause (term_at work.old.bank measure))) }
    ensures grows { GrowsUncounted history.now work.old work.new }
{
    let literals = ordinal_literals(work, history, measure)?;
    Ok(Left {
        measure,
        literals,
        out_of_steps: false,
    })
}

/// Seeks the line that shows that a measure is an ordinal, or tells that this is left.
fn find_ordinal<P: Prover>(
    prover: &mut P,
    work: &mut Work,
    history: &History,
    law: u64,
    measure: TermId,
) -> Result<Result<u64, Left>, AllocError>
    requires searching { IsSearching (P.has_learnt prover.old) history.now work.old }
    requires law { LineHolds work.old law choice_opens_clause }
    requires measure { Stands work.old.bank measure }
    requires over { TermIsIn work.old.bank history.now measure }
    ensures found { IfOk result (λ r. IfOk r (λ n. LineHasOnly work.new n (ordinal_clause (term_at work.old.bank measure)))) }
    ensures left { IfOk result (λ r. IfErr r (IsLeft work.new (term_at work.old.bank measure) (ordinal_clause (term_at work.old.bank measure)))) }
    ensures grows { WorkGrows history.now work.old work.new }
    ensures searching { IsSearching (P.has_learnt prover.new) history.now work.new }
{
    held_work();
    let literals = ordinal_literals(work, history, measure)?;
    let judged = judge(prover, work, history, law, literals.as_slice())?;
    Ok(told(judged, measure, literals))
}

/// Seeks the lines by which a measure that does not mention the function admits the definition, by the prover, or tells what is left.
fn prove_measure<P: Prover>(
    prover: &mut P,
    work: &mut Work,
    history: &History,
    law: u64,
    f: Sym,
    formals: &[Sym],
    measure: TermId,
    sites: &[Site],
) -> Result<Result<Evidence, Left>, AllocError>
    requires searching { IsSearching (P.has_learnt prover.old) history.now work.old }
    requires law { LineHolds work.old law choice_opens_clause }
    requires trial { IsTrial history.now work.old.bank f formals.now measure }
    requires older { mentions (text_at work.old.bank f) (term_at work.old.bank measure) ≡ false }
    requires sites { All (IsSiteOf history.now work.old.bank f formals.now) sites.now }
    ensures found { IfOk result (λ r. IfOk r (IsEvidence work.new f formals.now measure sites.now)) }
    ensures left { IfOk result (λ r. IfErr r (IsLeftAt work.old.bank work.new f formals.now measure sites.now)) }
    ensures grows { WorkGrows history.now work.old work.new }
    ensures searching { IsSearching (P.has_learnt prover.new) history.now work.new }
{
    match find_ordinal(prover, work, history, law, measure)? {
        Err(left) => Ok(Err(left)),
        Ok(ordinal) => {
            match find_falls(prover, work, history, law, f, formals, measure, sites)? {
                Err(left) => Ok(Err(left)),
                Ok(falls) => Ok(Ok(Evidence { ordinal, falls })),
            }
        }
    }
}

/// Seeks the lines by which a measure admits the definition, or tells what is left.
fn try_measure<P: Prover>(
    prover: &mut P,
    work: &mut Work,
    history: &History,
    law: u64,
    f: Sym,
    formals: &[Sym],
    measure: TermId,
    sites: &[Site],
) -> Result<Result<Evidence, Left>, AllocError>
    requires searching { IsSearching (P.has_learnt prover.old) history.now work.old }
    requires law { LineHolds work.old law choice_opens_clause }
    requires trial { IsTrial history.now work.old.bank f formals.now measure }
    requires sites { All (IsSiteOf history.now work.old.bank f formals.now) sites.now }
    ensures found { IfOk result (λ r. IfOk r (IsEvidence work.new f formals.now measure sites.now)) }
    ensures plain { IfOk result (λ r. IfErr r (λ _. IsNotStructural history.now work.old.bank formals.now measure sites.now)) }
    ensures left { IfOk result (λ r. IfErr r (IsLeftAt work.old.bank work.new f formals.now measure sites.now)) }
    ensures grows { WorkGrows history.now work.old work.new }
    ensures searching { IsSearching (P.has_learnt prover.new) history.now work.new }
{
    held_work();
    if let Some(evidence) = find_by_size(work, history, f, formals, measure, sites)? {
        return Ok(Ok(evidence));
    }
    if mentions_at(&work.bank, f, measure)? {
        let left = leave_ordinal(work, history, measure)?;
        return Ok(Err(left));
    }
    prove_measure(prover, work, history, law, f, formals, measure, sites)
}

/// Seeks the first of the measures that are tried by which the lines admit the definition, where the calls are known.
fn find_among<P: Prover>(
    prover: &mut P,
    work: &mut Work,
    history: &History,
    law: u64,
    f: Sym,
    formals: &[Sym],
    tried: &[TermId],
    sites: &[Site],
) -> Result<Sought, AllocError>
    requires searching { IsSearching (P.has_learnt prover.old) history.now work.old }
    requires law { LineHolds work.old law choice_opens_clause }
    requires trials { All (IsTrial history.now work.old.bank f formals.now) tried.now }
    requires sites { All (IsSiteOf history.now work.old.bank f formals.now) sites.now }
    ensures found { IfOk result (λ s. MatchOption s.found (All (λ m. IsNotStructural history.now work.old.bank formals.now m sites.now) tried.now) (IsFoundAmong work.new f formals.now sites.now tried.now)) }
    ensures left { IfOk result (λ s. IfNone s.found (AreLeftAt work.old.bank work.new f formals.now sites.now tried.now s.left.items)) }
    ensures grows { WorkGrows history.now work.old work.new }
    ensures searching { IsSearching (P.has_learnt prover.new) history.now work.new }
{
    held_work();
    let mut left = Vec::new(work.bank.alloc());
    for place in 0..tried.len() {
        let measure = tried[place];
        match try_measure(prover, work, history, law, f, formals, measure, sites)? {
            Ok(evidence) => {
                let Evidence { ordinal, falls } = evidence;
                let found = Some(Admitting {
                    place: place as u64,
                    measure,
                    ordinal,
                    falls,
                });
                return Ok(Sought { found, left });
            }
            Err(first) => left.push(first)?,
        }
    }
    Ok(Sought { found: None, left })
}

/// Seeks the first of the measures that are tried that admits a definition which calls its own function: it is an ordinal, and
/// falls at each call. Where a formal is structural its size does so without a step, whatever the prover says.
/// Where none admits it, the first obligation of each that is not proved is told, in their order.
pub fn find_measure<P: Prover>(
    prover: &mut P,
    work: &mut Work,
    history: &History,
    f: Sym,
    formals: &[Sym],
    body: TermId,
    tried: &[TermId],
) -> Result<Sought, AllocError>
    requires stands { WorkStands history.now work.old }
    requires learnt { P.has_learnt prover.old history.now }
    requires ready { IsReady (events_at work.old.bank history.now) }
    requires holds { WorkHolds history.now work.old }
    requires function { IsNewFunction history.now work.old.bank f formals.now body }
    requires trials { All (IsTrial history.now work.old.bank f formals.now) tried.now }
    ensures found { IfOk result (λ s. MatchOption s.found (NoneIsStructural history.now work.old.bank f formals.now body tried.now) (IsAdmitting history.now work.old.bank work.new f formals.now body tried.now)) }
    ensures left { IfOk result (λ s. IfNone s.found (AreLeft work.new (text_at work.old.bank f) (texts_at work.old.bank formals.now) (counted_calls (text_at work.old.bank f) (term_at work.old.bank body)) (terms_at work.old.bank tried.now) s.left.items)) }
    ensures grows { WorkGrows history.now work.old work.new }
    ensures learnt { P.has_learnt prover.new history.now }
    ensures holds { WorkHolds history.now work.new }
{
    apart_if_unused();
    held_work();
    let law = choice_opens(work, history)?;
    let sites = calls_within(&work.bank, f, body)?;
    find_among(
        prover,
        work,
        history,
        law,
        f,
        formals,
        tried,
        sites.as_slice(),
    )
}
