//! What is owed of the induction that a call suggests: that its measure falls, as goals.
ghost use Rattle.std.specs.Prelude.{◌≡◌, All, IfOk, IfSome, OnOk, Err};
ghost use Rattle.nq_history.specs.Events.{events_at};
ghost use Rattle.nq_kernel.specs.Growing.{WorkStands, WorkGrows, LineStands};
ghost use Rattle.nq_kernel.specs.Ready.{IsReady};
ghost use Rattle.nq_lines.specs.Lines.{IsTermIn};
ghost use Rattle.nq_lines.specs.Instances.{ArePairsIn};
ghost use Rattle.nq_lines.specs.OwnTerms.{HasOwnTerms};
ghost use Rattle.nq_schemes.specs.Known.{IsOpenedIn, with_some};
ghost use Rattle.nq_schemes.specs.Owed.{AreGoalsIn};
ghost use Rattle.nq_schemes.specs.Steps.{IsBasisIn};

use crate::bases::basis_of;
use crate::basis::Basis;
use crate::draft::{Change, Draft, DraftCase, Step};
use crate::falling::Falling;
use crate::gathering::{denials, governing_all};
use crate::known::pairs_of;
use crate::learnt::known_fall;
use crate::opened::Opened;
use crate::openings::all_opened;
use crate::schemes::{drafts_at, falling_in};
use crate::showing::shown_line;
use crate::starting::{falls_at, nest_line, with_literal};
use nq_bank::TermId;
use nq_clause::Pair;
use nq_history::History;
use nq_kernel::{Stop, Work};

/// The line that one of some literals holds, by the axioms of shells, by linear arithmetic, or by what is known.
pub fn line_at_hand(
    work: &mut Work,
    history: &History,
    arithmetic: bool,
    goal: &[TermId],
    falls: TermId,
) -> Result<Option<u64>, Stop>
    requires stands { WorkStands history.now work.old }
    requires own { HasOwnTerms (events_at work.old.bank history.now) }
    requires goal { All (IsTermIn history.now work.old) goal.now }
    requires falls { IsTermIn history.now work.old falls }
    ensures line { IfOk result (λ found. IfSome found (LineStands work.new)) }
    ensures grows { WorkGrows history.now work.old work.new }
    ensures out { result ≡ Err Stop.OutOfSteps → work.new.counter.used ≡ work.new.counter.limit }
{
    match known_fall(work, history, goal, falls)? {
        Some(line) => Ok(Some(line)),
        None => shown_line(work, history, arithmetic, goal),
    }
}

/// A goal, if no line of it is at hand.
fn owed_goal(
    work: &mut Work,
    history: &History,
    arithmetic: bool,
    goal: Vec<TermId>,
    falls: TermId,
) -> Result<Option<Vec<TermId>>, Stop>
    requires stands { WorkStands history.now work.old }
    requires own { HasOwnTerms (events_at work.old.bank history.now) }
    requires goal { All (IsTermIn history.now work.old) goal.items }
    requires falls { IsTermIn history.now work.old falls }
    ensures goal { IfOk result (λ found. IfSome found (λ g. All (IsTermIn history.now work.new) g.items)) }
    ensures grows { WorkGrows history.now work.old work.new }
    ensures out { result ≡ Err Stop.OutOfSteps → work.new.counter.used ≡ work.new.counter.limit }
{
    match line_at_hand(work, history, arithmetic, goal.as_slice(), falls)? {
        Some(_) => Ok(None),
        None => Ok(Some(goal)),
    }
}

/// The goal that the measure falls where the pairs take it, if no line of it is at hand.
fn owed_fall(
    work: &mut Work,
    history: &History,
    basis: &Basis,
    literals: &[TermId],
    pairs: &[Pair],
) -> Result<Option<Vec<TermId>>, Stop>
    requires stands { WorkStands history.now work.old }
    requires basis { IsBasisIn history.now work.old basis.now }
    requires literals { All (IsTermIn history.now work.old) literals.now }
    requires pairs { ArePairsIn history.now work.old pairs.now }
    ensures goal { IfOk result (λ found. IfSome found (λ g. All (IsTermIn history.now work.new) g.items)) }
    ensures grows { WorkGrows history.now work.old work.new }
    ensures out { result ≡ Err Stop.OutOfSteps → work.new.counter.used ≡ work.new.counter.limit }
{
    let falls = falls_at(work, history, basis, pairs)?;
    let goal = with_literal(work.bank.alloc(), literals, falls)?;
    owed_goal(work, history, basis.arithmetic, goal, falls)
}

/// The same, where the part that a variable becomes is not known to be smaller.
fn owed_with(
    work: &mut Work,
    history: &History,
    basis: &Basis,
    tests: &[TermId],
    literals: &[TermId],
    changes: &[Change],
    pairs: &[Pair],
) -> Result<Option<Vec<TermId>>, Stop>
    requires stands { WorkStands history.now work.old }
    requires basis { IsBasisIn history.now work.old basis.now }
    requires tests { All (IsTermIn history.now work.old) tests.now }
    requires literals { All (IsTermIn history.now work.old) literals.now }
    requires pairs { ArePairsIn history.now work.old pairs.now }
    ensures goal { IfOk result (λ found. IfSome found (λ g. All (IsTermIn history.now work.new) g.items)) }
    ensures grows { WorkGrows history.now work.old work.new }
    ensures out { result ≡ Err Stop.OutOfSteps → work.new.counter.used ≡ work.new.counter.limit }
{
    match nest_line(work, history, basis, tests, changes)? {
        Some(_) => Ok(None),
        None => owed_fall(work, history, basis, literals, pairs),
    }
}

/// What is owed of a step.
fn owed_at(
    work: &mut Work,
    history: &History,
    basis: &Basis,
    tests: &[TermId],
    literals: &[TermId],
    step: &Step,
) -> Result<Option<Vec<TermId>>, Stop>
    requires stands { WorkStands history.now work.old }
    requires basis { IsBasisIn history.now work.old basis.now }
    requires tests { All (IsTermIn history.now work.old) tests.now }
    requires literals { All (IsTermIn history.now work.old) literals.now }
    ensures goal { IfOk result (λ found. IfSome found (λ g. All (IsTermIn history.now work.new) g.items)) }
    ensures grows { WorkGrows history.now work.old work.new }
    ensures out { result ≡ Err Stop.OutOfSteps → work.new.counter.used ≡ work.new.counter.limit }
{
    let changes = step.changes.as_slice();
    let found = pairs_of(work, history, basis.opened.as_slice(), changes)?;
    match found {
        Some(pairs) => owed_with(
            work,
            history,
            basis,
            tests,
            literals,
            changes,
            pairs.as_slice(),
        ),
        None => Ok(None),
    }
}

/// One goal more, if there is one.
fn add_goal(goals: &mut Vec<Vec<TermId>>, found: Option<Vec<TermId>>) -> Result<(), Stop>
    ensures more { OnOk result (goals.new.items ≡ with_some goals.old.items found) }
    ensures memory { result ≡ Err Stop.OutOfSteps → ⊥ }
{
    match found {
        Some(goal) => match goals.push(goal) {
            Ok(()) => Ok(()),
            Err(_) => Err(Stop::Memory),
        },
        None => Ok(()),
    }
}

/// Adds what is owed of steps.
fn add_steps(
    work: &mut Work,
    history: &History,
    basis: &Basis,
    tests: &[TermId],
    literals: &[TermId],
    steps: &[Step],
    goals: &mut Vec<Vec<TermId>>,
) -> Result<(), Stop>
    requires stands { WorkStands history.now work.old }
    requires basis { IsBasisIn history.now work.old basis.now }
    requires tests { All (IsTermIn history.now work.old) tests.now }
    requires literals { All (IsTermIn history.now work.old) literals.now }
    requires goals { AreGoalsIn history.now work.old goals.old.items }
    ensures goals { OnOk result (AreGoalsIn history.now work.new goals.new.items) }
    ensures grows { WorkGrows history.now work.old work.new }
    ensures out { result ≡ Err Stop.OutOfSteps → work.new.counter.used ≡ work.new.counter.limit }
{
    for step in steps {
        let found = owed_at(work, history, basis, tests, literals, step)?;
        add_goal(goals, found)?;
    }
    Ok(())
}

/// Adds what is owed of a case.
fn add_case(
    work: &mut Work,
    history: &History,
    basis: &Basis,
    case: &DraftCase,
    goals: &mut Vec<Vec<TermId>>,
) -> Result<(), Stop>
    requires stands { WorkStands history.now work.old }
    requires basis { IsBasisIn history.now work.old basis.now }
    requires goals { AreGoalsIn history.now work.old goals.old.items }
    ensures goals { OnOk result (AreGoalsIn history.now work.new goals.new.items) }
    ensures grows { WorkGrows history.now work.old work.new }
    ensures out { result ≡ Err Stop.OutOfSteps → work.new.counter.used ≡ work.new.counter.limit }
{
    let tests = governing_all(work, history, basis, case.tests.as_slice())?;
    let literals = denials(work, history, tests.as_slice())?;
    add_steps(
        work,
        history,
        basis,
        tests.as_slice(),
        literals.as_slice(),
        case.steps.as_slice(),
        goals,
    )
}

/// What is owed of cases.
fn owed_by(
    work: &mut Work,
    history: &History,
    basis: &Basis,
    cases: &[DraftCase],
) -> Result<Vec<Vec<TermId>>, Stop>
    requires stands { WorkStands history.now work.old }
    requires basis { IsBasisIn history.now work.old basis.now }
    ensures goals { IfOk result (λ v. AreGoalsIn history.now work.new v.items) }
    ensures grows { WorkGrows history.now work.old work.new }
    ensures out { result ≡ Err Stop.OutOfSteps → work.new.counter.used ≡ work.new.counter.limit }
{
    let mut goals = Vec::new(work.bank.alloc());
    for case in cases {
        add_case(work, history, basis, case, &mut goals)?;
    }
    Ok(goals)
}

/// That nothing is owed.
fn nothing_owed(work: &Work, history: &History) -> Vec<Vec<TermId>>
    ensures { AreGoalsIn history.now work.now result.items }
{
    let _ = history.len();
    Vec::new(work.bank.alloc())
}

/// What is owed of a draft in which this falls.
fn owed_falling(
    work: &mut Work,
    history: &History,
    opened: Vec<Opened>,
    draft: &Draft,
    falling: &Falling,
    arithmetic: bool,
) -> Result<Vec<Vec<TermId>>, Stop>
    requires stands { WorkStands history.now work.old }
    requires ready { IsReady (events_at work.old.bank history.now) }
    requires opened { All (IsOpenedIn history.now work.old) opened.items }
    ensures goals { IfOk result (λ v. AreGoalsIn history.now work.new v.items) }
    ensures grows { WorkGrows history.now work.old work.new }
    ensures out { result ≡ Err Stop.OutOfSteps → work.new.counter.used ≡ work.new.counter.limit }
{
    match basis_of(work, history, opened, falling, arithmetic)? {
        Some(basis) => owed_by(work, history, &basis, draft.cases.as_slice()),
        None => Ok(nothing_owed(work, history)),
    }
}

/// What is owed of a draft.
fn owed_of(
    work: &mut Work,
    history: &History,
    opened: Vec<Opened>,
    draft: &Draft,
    arithmetic: bool,
) -> Result<Vec<Vec<TermId>>, Stop>
    requires stands { WorkStands history.now work.old }
    requires ready { IsReady (events_at work.old.bank history.now) }
    requires opened { All (IsOpenedIn history.now work.old) opened.items }
    ensures goals { IfOk result (λ v. AreGoalsIn history.now work.new v.items) }
    ensures grows { WorkGrows history.now work.old work.new }
    ensures out { result ≡ Err Stop.OutOfSteps → work.new.counter.used ≡ work.new.counter.limit }
{
    let found = falling_in(work, history, draft)?;
    match found {
        Some(falling) => owed_falling(work, history, opened, draft, &falling, arithmetic),
        None => Ok(nothing_owed(work, history)),
    }
}

/// The goals that the measure falls at the recursive calls of the induction that a call suggests, those of which no line is at hand.
pub fn owed_falls(
    work: &mut Work,
    history: &History,
    call: TermId,
    arithmetic: bool,
) -> Result<Vec<Vec<TermId>>, Stop>
    requires stands { WorkStands history.now work.old }
    requires ready { IsReady (events_at work.old.bank history.now) }
    requires call { IsTermIn history.now work.old call }
    ensures goals { IfOk result (λ v. AreGoalsIn history.now work.new v.items) }
    ensures grows { WorkGrows history.now work.old work.new }
    ensures out { result ≡ Err Stop.OutOfSteps → work.new.counter.used ≡ work.new.counter.limit }
{
    let calls = [call];
    let opened = all_opened(work, history, &calls, &calls)?;
    let drafts = drafts_at(work, history, opened.as_slice())?;
    match drafts.first() {
        Some(draft) => owed_of(work, history, opened, draft, arithmetic),
        None => Ok(nothing_owed(work, history)),
    }
}
