//! What calls on values open to.
ghost use Rattle.std.specs.Prelude.{◌≡◌, ◌<◌, ◌-◌, ◌∷◌, [], List, None, All, IfOk, MatchOption, length};
ghost use Rattle.nq_logic.specs.Terms.{Term};
ghost use Rattle.nq_logic.specs.Names.{looked_up};
ghost use Rattle.nq_logic.specs.Admissible.{matched};
ghost use Rattle.nq_bank.specs.Content.{Stands, IsNamed, text_at, term_at, terms_at};
ghost use Rattle.nq_bank.specs.Shells.{texts_at};
ghost use Rattle.nq_clause.specs.Substitution.{substitution_at, PairStands};
ghost use Rattle.nq_history.specs.Events.{events_at, HistoryStands};
ghost use Rattle.nq_kernel.specs.Growing.{WorkStands, LineHolds};
ghost use Rattle.nq_eval.specs.Lines.{GrowsUncounted, IsUsable};
ghost use Rattle.nq_eval.specs.Known.{IsFoundFor, IsFoundOn, left_on};
ghost use Rattle.nq_kernel.specs.Ready.{HasUsableDefinitions};
ghost use Rattle.nq_eval.specs.Gathered.{IsValuesCall};
ghost use Rattle.nq_eval.specs.Opened.{Opens, IsDefinedBy, IsOpening, IsOpeningLine, IsOtherName, IsUnopened, IsOpenedTo};
ghost use Rattle.nq_logic.specs.Words.{equal_term};
ghost use Rattle.nq_kernel.specs.Meaning.{IsOver};
ghost use Rattle.nq_fragments.specs.Openings.{event_opening, opening_of};

use crate::equalities::chain;
use crate::found::{Found, Known};
use crate::gathered::ValuesCall;
use crate::rows::add_row_instance;
use crate::sizes::size_opening;
use nq_bank::{Bank, Sym, TermId, ground};
use nq_clause::Pair;
use nq_history::{Entry, EntryKind, History};
use nq_kernel::Work;
use std::alloc::AllocError;

/// An axiom that opens a call on values.
#[derive(Drop)]
pub struct Opening {
    /// Its name in the tables of axioms.
    pub name: Sym,
    /// Its row there.
    pub row: u64,
    /// The arguments in place of its variables.
    pub pairs: Vec<Pair>,
}

/// A call that was opened.
#[derive(Clone, Copy)]
pub struct Opened {
    /// What it opens to.
    pub body: TermId,
    /// The line of their equation.
    pub line: u64,
}

/// What is found for a call on values, from what is found for what it opens to.
pub fn close_opening(
    work: &mut Work,
    history: &History,
    u: TermId,
    opened: Opened,
    found: Found,
    nesting: u32,
    calls: u32,
) -> Result<Found, AllocError>
    requires stands { WorkStands history.now work.old }
    requires term { IsUsable work.old.bank history.now u }
    requires opened { IsOpenedTo history.now work.old u opened }
    requires some_nesting { 0 < nesting }
    requires some_calls { 0 < calls }
    requires found { IsFoundFor history.now work.old opened.body (nesting - 1) (calls - 1) found }
    ensures found { IfOk result (λ found. IsFoundOn history.now work.new u nesting calls found) }
    ensures left { IfOk result (λ closed. left_on calls closed ≡ left_on (calls - 1) found) }
    ensures grows { GrowsUncounted history.now work.old work.new }
{
    match found {
        Found::Value(known) => {
            let line = chain(
                work,
                history,
                u,
                opened.body,
                known.value,
                opened.line,
                known.line,
            )?;
            Ok(Found::Value(Known {
                value: known.value,
                calls: known.calls + 1,
                nesting: known.nesting + 1,
                line,
            }))
        }
        Found::Blocked(w) => Ok(Found::Blocked(w)),
        Found::Fuel => Ok(Found::Fuel),
    }
}

/// The formals of the definition of a function; none where the history doesn't define it.
fn formals_of<'a>(bank: &Bank, history: &'a History, f: Sym) -> Option<&'a [Sym]>
    requires history { HistoryStands bank.now history.now }
    requires name { IsNamed bank.now f }
    ensures { MatchOption result ((vs : List Term) → event_opening vs (looked_up (text_at bank.now f) (events_at bank.now history.now)) ≡ None) (λ formals. IsDefinedBy bank.now (events_at bank.now history.now) f formals.now) }
{
    bank.is_sound();
    let e = history.lookup(f)?;
    match &e.kind {
        EntryKind::Defn(formals, _, _) => Some(formals.as_slice()),
        EntryKind::Shell(_) => None,
        EntryKind::Dcl(_) => None,
        EntryKind::Axiom(_, _) => None,
        EntryKind::Lemma(_, _) => None,
        EntryKind::Toggle(_, _) => None,
    }
}

/// Values in place of formals.
fn pairs_for(bank: &Bank, formals: &[Sym], values: &[TermId]) -> Result<Vec<Pair>, AllocError>
    requires formals { All (IsNamed bank.now) formals.now }
    requires values { All (Stands bank.now) values.now }
    requires same { length formals.now ≡ length values.now }
    ensures pairs { IfOk result (λ pairs. substitution_at bank.now pairs.items ≡ matched (texts_at bank.now formals.now) (terms_at bank.now values.now)) }
    ensures stand { IfOk result (λ pairs. All (PairStands bank.now) pairs.items) }
{
    let mut pairs = Vec::new(bank.alloc());
    for place in 0..formals.len() {
        pairs.push(Pair {
            variable: formals[place],
            term: values[place],
        })?;
    }
    Ok(pairs)
}

/// The definition that opens a call on values; none where nothing opens it.
fn definition_opening(
    work: &Work,
    history: &History,
    f: Sym,
    call: &ValuesCall,
) -> Result<Option<Opening>, AllocError>
    requires stands { WorkStands history.now work.now }
    requires definitions { HasUsableDefinitions (events_at work.now.bank history.now) }
    requires call { IsValuesCall history.now work.now f call.now }
    requires other { IsOtherName work.now.bank f }
    ensures { IfOk result (λ found. MatchOption found (opening_of (events_at work.now.bank history.now) (term_at work.now.bank call.now.term) ≡ None) (IsOpening work.now.bank history.now call.now.term)) }
{
    let Some(formals) = formals_of(&work.bank, history, f) else {
        return Ok(None);
    };
    if formals.len() != call.values.len() {
        return Ok(None);
    }
    let pairs = pairs_for(&work.bank, formals, call.values.as_slice())?;
    Ok(Some(Opening {
        name: f,
        row: 1,
        pairs,
    }))
}

/// The axiom that opens a call on values; none where nothing opens it.
fn opening_for(
    work: &mut Work,
    history: &History,
    f: Sym,
    call: &ValuesCall,
) -> Result<Option<Opening>, AllocError>
    requires stands { WorkStands history.now work.old }
    requires definitions { HasUsableDefinitions (events_at work.old.bank history.now) }
    requires call { IsValuesCall history.now work.old f call.now }
    requires opens { Opens work.old.bank history.now call.now.term }
    ensures opening { IfOk result (λ found. MatchOption found (opening_of (events_at work.new.bank history.now) (term_at work.new.bank call.now.term) ≡ None) (IsOpening work.new.bank history.now call.now.term)) }
    ensures grows { GrowsUncounted history.now work.old work.new }
{
    if work.bank.is_ground(f, ground::COUNT) {
        size_opening(work, history, call.term, call.values.as_slice())
    } else {
        definition_opening(work, history, f, call)
    }
}

/// The body of a call in the line of its opening.
fn body_in(work: &Work, u: TermId, line: u64) -> TermId
    requires log { IsOver work.now.bank work.now.log }
    requires line { IsOpeningLine work.now line u }
    ensures stands { Stands work.now.bank result }
    ensures equation { LineHolds work.now line (equal_term (term_at work.now.bank u) (term_at work.now.bank result) ∷ []) }
{
    let equation = work.log.clause_over(&work.bank, line)[0];
    work.bank.args(equation)[1]
}

/// Opens a call on values: adds the line of the axiom and its instance.
fn add_opening(
    work: &mut Work,
    history: &History,
    u: TermId,
    opening: Opening,
) -> Result<Opened, AllocError>
    requires stands { WorkStands history.now work.old }
    requires term { IsUsable work.old.bank history.now u }
    requires opens { Opens work.old.bank history.now u }
    requires opening { IsOpening work.old.bank history.now u opening }
    ensures opened { IfOk result (λ opened. IsOpenedTo history.now work.new u opened) }
    ensures grows { GrowsUncounted history.now work.old work.new }
{
    let line = add_row_instance(work, history, opening.name, opening.row, opening.pairs)?;
    let body = body_in(work, u, line);
    Ok(Opened { body, line })
}

/// Opens a call on values that has no row, is no value, and doesn't pass; none where nothing opens it.
pub fn open_call(
    work: &mut Work,
    history: &History,
    f: Sym,
    call: &ValuesCall,
) -> Result<Option<Opened>, AllocError>
    requires stands { WorkStands history.now work.old }
    requires definitions { HasUsableDefinitions (events_at work.old.bank history.now) }
    requires call { IsValuesCall history.now work.old f call.now }
    requires opens { Opens work.old.bank history.now call.now.term }
    ensures opened { IfOk result (λ found. MatchOption found (IsUnopened history.now work.new call.now.term) (IsOpenedTo history.now work.new call.now.term)) }
    ensures grows { GrowsUncounted history.now work.old work.new }
{
    match opening_for(work, history, f, call)? {
        Some(opening) => Ok(Some(add_opening(work, history, call.term, opening)?)),
        None => Ok(None),
    }
}
