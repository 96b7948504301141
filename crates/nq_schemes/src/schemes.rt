//! The scheme of a draft, and the schemes that a goal suggests.
ghost use Rattle.std.specs.Prelude.{◌≡◌, ◌<◌, ◌∷◌, [], false, All, Err, IfOk, IfSome, None, OnOk, length};
ghost use Rattle.nq_history.specs.Events.{events_at};
ghost use Rattle.nq_kernel.specs.Growing.{WorkStands, WorkGrows};
ghost use Rattle.nq_kernel.specs.Ready.{IsReady};
ghost use Rattle.nq_lines.specs.Lines.{IsTermIn};
ghost use Rattle.nq_induct.specs.Schemes.{IsCaseIn, IsSchemeIn};
ghost use Rattle.nq_schemes.specs.Known.{IsOpenedIn, with_some};
ghost use Rattle.nq_schemes.specs.Single.{HasCases};
ghost use Rattle.nq_schemes.specs.Steps.{IsBasisIn};
ghost use Rattle.nq_schemes.specs.Suggesting.{NoneSuggests, NoneSuggestsIn};

use crate::bases::basis_of;
use crate::basis::Basis;
use crate::certain::found_or_plain;
use crate::choosing::choose;
use crate::draft::{Draft, DraftCase};
use crate::drafting::drafts_of;
use crate::falling::{Falling, falling_of};
use crate::gathering::case_of;
use crate::opened::Opened;
use crate::openings::all_opened;
use crate::suggestion::suggestions;
use nq_bank::TermId;
use nq_history::History;
use nq_induct::{Case, Scheme};
use nq_kernel::{Stop, Work};
use nq_normal::suggests_induction;

/// One case more, if there is one.
fn add_case(cases: &mut Vec<Case>, found: Option<Case>) -> Result<(), Stop>
    ensures more { OnOk result (cases.new.items ≡ with_some cases.old.items found) }
    ensures memory { result ≡ Err Stop.OutOfSteps → ⊥ }
{
    match found {
        Some(case) => match cases.push(case) {
            Ok(()) => Ok(()),
            Err(_) => Err(Stop::Memory),
        },
        None => Ok(()),
    }
}

/// The cases of a draft with their lines.
fn cases_of(
    work: &mut Work,
    history: &History,
    basis: &Basis,
    cases: &[DraftCase],
) -> Result<Vec<Case>, Stop>
    requires stands { WorkStands history.now work.old }
    requires basis { IsBasisIn history.now work.old basis.now }
    ensures cases { IfOk result (λ v. All (IsCaseIn history.now work.new basis.now.measure) v.items) }
    ensures grows { WorkGrows history.now work.old work.new }
    ensures out { result ≡ Err Stop.OutOfSteps → work.new.counter.used ≡ work.new.counter.limit }
{
    let mut made = Vec::new(work.bank.alloc());
    for case in cases {
        let found = case_of(work, history, basis, case)?;
        add_case(&mut made, found)?;
    }
    Ok(made)
}

/// The scheme of a draft with its lines, where it has cases.
fn scheme_by(
    work: &mut Work,
    history: &History,
    basis: &Basis,
    draft: &Draft,
) -> Result<Option<Scheme>, Stop>
    requires stands { WorkStands history.now work.old }
    requires basis { IsBasisIn history.now work.old basis.now }
    ensures scheme { IfOk result (λ found. IfSome found (IsSchemeIn history.now work.new)) }
    ensures cases { IfOk result (λ found. IfSome found HasCases) }
    ensures grows { WorkGrows history.now work.old work.new }
    ensures out { result ≡ Err Stop.OutOfSteps → work.new.counter.used ≡ work.new.counter.limit }
{
    let cases = cases_of(work, history, basis, draft.cases.as_slice())?;
    if cases.is_empty() {
        return Ok(None);
    }
    Ok(Some(Scheme {
        measure: basis.measure,
        ordinal: basis.ordinal,
        cases,
    }))
}

/// What falls in a draft.
pub fn falling_in(work: &Work, history: &History, draft: &Draft) -> Result<Option<Falling>, Stop>
    ensures memory { result ≡ Err Stop.OutOfSteps → ⊥ }
{
    match falling_of(&work.bank, history, draft.calls.as_slice()) {
        Ok(found) => Ok(found),
        Err(_) => Err(Stop::Memory),
    }
}

/// The scheme of a draft in which this falls.
fn scheme_falling(
    work: &mut Work,
    history: &History,
    opened: Vec<Opened>,
    draft: &Draft,
    falling: &Falling,
    arithmetic: bool,
) -> Result<Option<Scheme>, Stop>
    requires stands { WorkStands history.now work.old }
    requires ready { IsReady (events_at work.old.bank history.now) }
    requires opened { All (IsOpenedIn history.now work.old) opened.items }
    ensures scheme { IfOk result (λ found. IfSome found (IsSchemeIn history.now work.new)) }
    ensures cases { IfOk result (λ found. IfSome found HasCases) }
    ensures grows { WorkGrows history.now work.old work.new }
    ensures out { result ≡ Err Stop.OutOfSteps → work.new.counter.used ≡ work.new.counter.limit }
{
    match basis_of(work, history, opened, falling, arithmetic)? {
        Some(basis) => scheme_by(work, history, &basis, draft),
        None => Ok(None),
    }
}

/// The scheme of a draft.
fn scheme_at(
    work: &mut Work,
    history: &History,
    opened: Vec<Opened>,
    draft: &Draft,
    arithmetic: bool,
) -> Result<Option<Scheme>, Stop>
    requires stands { WorkStands history.now work.old }
    requires ready { IsReady (events_at work.old.bank history.now) }
    requires opened { All (IsOpenedIn history.now work.old) opened.items }
    ensures scheme { IfOk result (λ found. IfSome found (IsSchemeIn history.now work.new)) }
    ensures cases { IfOk result (λ found. IfSome found HasCases) }
    ensures grows { WorkGrows history.now work.old work.new }
    ensures out { result ≡ Err Stop.OutOfSteps → work.new.counter.used ≡ work.new.counter.limit }
{
    let found = falling_in(work, history, draft)?;
    match found {
        Some(falling) => scheme_falling(work, history, opened, draft, &falling, arithmetic),
        None => Ok(None),
    }
}

/// The drafts of calls at hand.
pub fn drafts_at(work: &Work, history: &History, opened: &[Opened]) -> Result<Vec<Draft>, Stop>
    ensures memory { result ≡ Err Stop.OutOfSteps → ⊥ }
{
    match drafts_of(&work.bank, history, opened) {
        Ok(drafts) => Ok(drafts),
        Err(_) => Err(Stop::Memory),
    }
}

/// The place of the draft of this number, after those were added that were merged.
fn chosen(
    work: &Work,
    goal: &[TermId],
    drafts: &mut Vec<Draft>,
    apart: Vec<Draft>,
    turn: u32,
) -> Result<Option<usize>, Stop>
    ensures memory { result ≡ Err Stop.OutOfSteps → ⊥ }
{
    match choose(&work.bank, goal, drafts, apart, turn) {
        Ok(place) => Ok(place),
        Err(_) => Err(Stop::Memory),
    }
}

/// The draft at a place, if there is one.
fn draft_at(drafts: &[Draft], place: Option<usize>) -> Option<&Draft> {
    match place {
        Some(i) => drafts.get(i),
        None => None,
    }
}

/// The scheme of the draft at a place.
fn scheme_of_place(
    work: &mut Work,
    history: &History,
    opened: Vec<Opened>,
    drafts: &[Draft],
    place: Option<usize>,
    arithmetic: bool,
) -> Result<Option<Scheme>, Stop>
    requires stands { WorkStands history.now work.old }
    requires ready { IsReady (events_at work.old.bank history.now) }
    requires opened { All (IsOpenedIn history.now work.old) opened.items }
    ensures scheme { IfOk result (λ found. IfSome found (IsSchemeIn history.now work.new)) }
    ensures cases { IfOk result (λ found. IfSome found HasCases) }
    ensures grows { WorkGrows history.now work.old work.new }
    ensures out { result ≡ Err Stop.OutOfSteps → work.new.counter.used ≡ work.new.counter.limit }
{
    match draft_at(drafts, place) {
        Some(draft) => scheme_at(work, history, opened, draft, arithmetic),
        None => Ok(None),
    }
}

/// The scheme of this number among those that calls suggest.
fn scheme_of_calls(
    work: &mut Work,
    history: &History,
    goal: &[TermId],
    calls: &[TermId],
    turn: u32,
    arithmetic: bool,
) -> Result<Option<Scheme>, Stop>
    requires stands { WorkStands history.now work.old }
    requires ready { IsReady (events_at work.old.bank history.now) }
    requires goal { All (IsTermIn history.now work.old) goal.now }
    ensures scheme { IfOk result (λ found. IfSome found (IsSchemeIn history.now work.new)) }
    ensures cases { IfOk result (λ found. IfSome found HasCases) }
    ensures grows { WorkGrows history.now work.old work.new }
    ensures out { result ≡ Err Stop.OutOfSteps → work.new.counter.used ≡ work.new.counter.limit }
{
    let opened = all_opened(work, history, goal, calls)?;
    let mut drafts = drafts_at(work, history, opened.as_slice())?;
    let apart = drafts_at(work, history, opened.as_slice())?;
    let place = chosen(work, goal, &mut drafts, apart, turn)?;
    scheme_of_place(work, history, opened, drafts.as_slice(), place, arithmetic)
}

/// The scheme of this number among those that calls suggest; at the first turn there is one.
fn scheme_suggested(
    work: &mut Work,
    history: &History,
    goal: &[TermId],
    calls: &[TermId],
    turn: u32,
    arithmetic: bool,
) -> Result<Option<Scheme>, Stop>
    requires stands { WorkStands history.now work.old }
    requires ready { IsReady (events_at work.old.bank history.now) }
    requires goal { All (IsTermIn history.now work.old) goal.now }
    requires some { 0 < length goal.now }
    ensures scheme { IfOk result (λ found. IfSome found (IsSchemeIn history.now work.new)) }
    ensures cases { IfOk result (λ found. IfSome found HasCases) }
    ensures told { turn ≡ 0 → IfOk result (λ found. found ≡ None → ⊥) }
    ensures grows { WorkGrows history.now work.old work.new }
    ensures out { result ≡ Err Stop.OutOfSteps → work.new.counter.used ≡ work.new.counter.limit }
{
    let found = scheme_of_calls(work, history, goal, calls, turn, arithmetic)?;
    found_or_plain(work, history, goal, found, turn, arithmetic)
}

/// The calls of a goal that suggest a scheme.
fn calls_of(work: &Work, history: &History, goal: &[TermId]) -> Result<Vec<TermId>, Stop>
    ensures memory { result ≡ Err Stop.OutOfSteps → ⊥ }
{
    match suggestions(&work.bank, history, goal) {
        Ok(calls) => Ok(calls),
        Err(_) => Err(Stop::Memory),
    }
}

/// Does some call in the goal suggest an induction?
fn is_suggested(work: &Work, history: &History, goal: &[TermId]) -> Result<bool, Stop>
    requires stands { WorkStands history.now work.now }
    requires goal { All (IsTermIn history.now work.now) goal.now }
    ensures none { IfOk result (λ b. NoneSuggestsIn history.now work.now.bank goal.now → b ≡ false) }
    ensures some { IfOk result (λ b. b ≡ false → NoneSuggestsIn history.now work.now.bank goal.now) }
    ensures memory { result ≡ Err Stop.OutOfSteps → ⊥ }
{
    match suggests_induction(&work.bank, history, goal) {
        Ok(answer) => Ok(answer),
        Err(_) => Err(Stop::Memory),
    }
}

/// The scheme of this number among those that the term of a hint suggests.
fn scheme_of_hint(
    work: &mut Work,
    history: &History,
    t: TermId,
    turn: u32,
    arithmetic: bool,
) -> Result<Option<Scheme>, Stop>
    requires stands { WorkStands history.now work.old }
    requires ready { IsReady (events_at work.old.bank history.now) }
    requires hint { IsTermIn history.now work.old t }
    ensures scheme { IfOk result (λ found. IfSome found (IsSchemeIn history.now work.new)) }
    ensures cases { IfOk result (λ found. IfSome found HasCases) }
    ensures none { NoneSuggestsIn history.now work.old.bank (t ∷ []) → IfOk result (λ found. found ≡ None) }
    ensures told { turn ≡ 0 → IfOk result (λ found. found ≡ None → NoneSuggestsIn history.now work.old.bank (t ∷ [])) }
    ensures steps { NoneSuggestsIn history.now work.old.bank (t ∷ []) → result ≡ Err Stop.OutOfSteps → ⊥ }
    ensures same { NoneSuggestsIn history.now work.old.bank (t ∷ []) → work.new ≡ work.old }
    ensures grows { WorkGrows history.now work.old work.new }
    ensures out { result ≡ Err Stop.OutOfSteps → work.new.counter.used ≡ work.new.counter.limit }
{
    let calls = [t];
    if !is_suggested(work, history, &calls)? {
        return Ok(None);
    }
    scheme_suggested(work, history, &calls, &calls, turn, arithmetic)
}

/// The scheme of this number among those that calls of the goal suggest.
fn scheme_of_goal(
    work: &mut Work,
    history: &History,
    goal: &[TermId],
    turn: u32,
    arithmetic: bool,
) -> Result<Option<Scheme>, Stop>
    requires stands { WorkStands history.now work.old }
    requires ready { IsReady (events_at work.old.bank history.now) }
    requires goal { All (IsTermIn history.now work.old) goal.now }
    ensures scheme { IfOk result (λ found. IfSome found (IsSchemeIn history.now work.new)) }
    ensures cases { IfOk result (λ found. IfSome found HasCases) }
    ensures none { NoneSuggestsIn history.now work.old.bank goal.now → IfOk result (λ found. found ≡ None) }
    ensures told { turn ≡ 0 → IfOk result (λ found. found ≡ None → NoneSuggestsIn history.now work.old.bank goal.now) }
    ensures steps { NoneSuggestsIn history.now work.old.bank goal.now → result ≡ Err Stop.OutOfSteps → ⊥ }
    ensures same { NoneSuggestsIn history.now work.old.bank goal.now → work.new ≡ work.old }
    ensures grows { WorkGrows history.now work.old work.new }
    ensures out { result ≡ Err Stop.OutOfSteps → work.new.counter.used ≡ work.new.counter.limit }
{
    if goal.is_empty() {
        return Ok(None);
    }
    if !is_suggested(work, history, goal)? {
        return Ok(None);
    }
    let calls = calls_of(work, history, goal)?;
    scheme_suggested(work, history, goal, calls.as_slice(), turn, arithmetic)
}

/// The scheme of this number, the best being that of number 0, among those that calls of the goal suggest, or that the term of a hint
/// suggests. There is none where there are no more. Of number 0 there is none exactly where no call suggests one. Then no step is counted,
/// and the work is left as it was. That the measure falls may be shown by linear arithmetic, where that is wanted.
pub fn scheme_of(
    work: &mut Work,
    history: &History,
    goal: &[TermId],
    hint: Option<TermId>,
    turn: u32,
    arithmetic: bool,
) -> Result<Option<Scheme>, Stop>
    requires stands { WorkStands history.now work.old }
    requires ready { IsReady (events_at work.old.bank history.now) }
    requires goal { All (IsTermIn history.now work.old) goal.now }
    requires hint { IfSome hint (IsTermIn history.now work.old) }
    ensures scheme { IfOk result (λ found. IfSome found (IsSchemeIn history.now work.new)) }
    ensures cases { IfOk result (λ found. IfSome found HasCases) }
    ensures none { NoneSuggests history.now work.old.bank goal.now hint → IfOk result (λ found. found ≡ None) }
    ensures told { turn ≡ 0 → IfOk result (λ found. found ≡ None → NoneSuggests history.now work.old.bank goal.now hint) }
    ensures steps { NoneSuggests history.now work.old.bank goal.now hint → result ≡ Err Stop.OutOfSteps → ⊥ }
    ensures same { NoneSuggests history.now work.old.bank goal.now hint → work.new ≡ work.old }
    ensures grows { WorkGrows history.now work.old work.new }
    ensures out { result ≡ Err Stop.OutOfSteps → work.new.counter.used ≡ work.new.counter.limit }
{
    match hint {
        Some(t) => scheme_of_hint(work, history, t, turn, arithmetic),
        None => scheme_of_goal(work, history, goal, turn, arithmetic),
    }
}
