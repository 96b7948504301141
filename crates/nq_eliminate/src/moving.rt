//! ELIM, the move.
ghost use Rattle.std.specs.Prelude.{◌≡◌, All, IfOk, IfSome, MatchOption, Err, None, Ok};
ghost use Rattle.nq_bank.specs.Content.{Stands, terms_at};
ghost use Rattle.nq_event.specs.EventsAt.{hints_at};
ghost use Rattle.nq_history.specs.Events.{HistoryStands, events_at};
ghost use Rattle.nq_history.specs.Hints.{HintsStand};
ghost use Rattle.nq_kernel.specs.Growing.{WorkStands, WorkGrows};
ghost use Rattle.nq_kernel.specs.Ready.{IsReady};
ghost use Rattle.nq_lines.specs.Lines.{IsTermIn};
ghost use Rattle.nq_moves.specs.Ways.{IsMove};
ghost use Rattle.nq_eliminate.specs.Finding.{HasNoElimination, HasNoneOfEvents, IsCandidate};
ghost use Rattle.nq_eliminate.specs.Instances.{Eliminates};
ghost use Rattle.nq_eliminate.specs.Shells.{HasNoneOfShells, IsShellCandidate};

use crate::accesses::{Access, find_access};
use crate::finding::{Candidate, find_candidate};
use crate::making::eliminate_instance;
use crate::rule_instances::rule_instance;
use crate::shells::shell_instance;
use nq_bank::{Bank, TermId};
use nq_history::{Hints, History};
use nq_kernel::{Stop, Work};
use nq_moves::Moved;
use nq_ready::own_terms;

/// ELIM of a variable by the rule of a shell.
fn eliminate_access(
    work: &mut Work,
    history: &History,
    hints: &Hints,
    path: &[Vec<TermId>],
    goal: &[TermId],
    access: Access,
) -> Result<Moved, Stop>
    requires stands { WorkStands history.now work.old }
    requires ready { IsReady (events_at work.old.bank history.now) }
    requires path { All (λ earlier. All (IsTermIn history.now work.old) earlier.items) path.now }
    requires goal { All (IsTermIn history.now work.old) goal.now }
    requires candidate { IsShellCandidate work.old.bank (events_at work.old.bank history.now) (terms_at work.old.bank goal.now) access }
    ensures moved { IfOk result (IsMove history.now work.new goal.now) }
    ensures legal { IfOk result (Eliminates (events_at work.old.bank history.now) (hints_at work.old.bank hints.now) work.old.bank work.new.bank path.now goal.now) }
    ensures grows { WorkGrows history.now work.old work.new }
    ensures out { result ≡ Err Stop.OutOfSteps → work.new.counter.used ≡ work.new.counter.limit }
{
    let _ = hints.no_induct;
    let r = shell_instance(work, history, access.shell, access.variable)?;
    eliminate_instance(work, history, path, goal, r)
}

/// ELIM by the rule of a shell: destructor calls of a variable, as `(CAR X)` and `(CDR X)`, are replaced by new variables, which stand
/// in no goal of the path, and the variable by what they make, as `(CONS V1 V2)`. A goal more is made for each hypothesis of the rule.
/// It is none exactly where no rule of a shell has a candidate, and then uses no steps. The path has the earlier goals, the nearest
/// first.
pub fn eliminate_by_shell(
    work: &mut Work,
    history: &History,
    hints: &Hints,
    path: &[Vec<TermId>],
    goal: &[TermId],
) -> Result<Option<Moved>, Stop>
    requires stands { WorkStands history.now work.old }
    requires ready { IsReady (events_at work.old.bank history.now) }
    requires path { All (λ earlier. All (IsTermIn history.now work.old) earlier.items) path.now }
    requires goal { All (IsTermIn history.now work.old) goal.now }
    ensures moved { IfOk result (λ found. IfSome found (IsMove history.now work.new goal.now)) }
    ensures legal { IfOk result (λ found. MatchOption found (HasNoneOfShells (events_at work.old.bank history.now) (terms_at work.old.bank goal.now)) (Eliminates (events_at work.old.bank history.now) (hints_at work.old.bank hints.now) work.old.bank work.new.bank path.now goal.now)) }
    ensures none { result ≡ Ok None → work.new ≡ work.old }
    ensures candidate { result ≡ Err Stop.OutOfSteps → HasNoneOfShells (events_at work.old.bank history.now) (terms_at work.old.bank goal.now) → ⊥ }
    ensures grows { WorkGrows history.now work.old work.new }
    ensures out { result ≡ Err Stop.OutOfSteps → work.new.counter.used ≡ work.new.counter.limit }
{
    match find_access(&work.bank, history, goal)? {
        Some(access) => {
            let moved = eliminate_access(work, history, hints, path, goal, access)?;
            Ok(Some(moved))
        }
        None => Ok(None),
    }
}

/// ELIM by the rule of an axiom or a lemma.
fn eliminate_candidate(
    work: &mut Work,
    history: &History,
    hints: &Hints,
    path: &[Vec<TermId>],
    goal: &[TermId],
    c: Candidate,
) -> Result<Moved, Stop>
    requires stands { WorkStands history.now work.old }
    requires ready { IsReady (events_at work.old.bank history.now) }
    requires path { All (λ earlier. All (IsTermIn history.now work.old) earlier.items) path.now }
    requires goal { All (IsTermIn history.now work.old) goal.now }
    requires candidate { IsCandidate work.old.bank (events_at work.old.bank history.now) (hints_at work.old.bank hints.now) (terms_at work.old.bank goal.now) (events_at work.old.bank history.now) c }
    ensures moved { IfOk result (IsMove history.now work.new goal.now) }
    ensures legal { IfOk result (Eliminates (events_at work.old.bank history.now) (hints_at work.old.bank hints.now) work.old.bank work.new.bank path.now goal.now) }
    ensures grows { WorkGrows history.now work.old work.new }
    ensures out { result ≡ Err Stop.OutOfSteps → work.new.counter.used ≡ work.new.counter.limit }
{
    let _ = hints.no_induct;
    own_terms();
    let r = rule_instance(work, history, goal, c)?;
    eliminate_instance(work, history, path, goal, r)
}

/// An enabled axiom or lemma whose rule has a candidate in the goal.
fn find_rule(
    bank: &Bank,
    history: &History,
    hints: &Hints,
    goal: &[TermId],
) -> Result<Option<Candidate>, Stop>
    requires history { HistoryStands bank.now history.now }
    requires hints { HintsStand bank.now hints.now }
    requires goal { All (Stands bank.now) goal.now }
    ensures found { IfOk result (λ found. MatchOption found (HasNoneOfEvents (events_at bank.now history.now) (hints_at bank.now hints.now) (terms_at bank.now goal.now)) (IsCandidate bank.now (events_at bank.now history.now) (hints_at bank.now hints.now) (terms_at bank.now goal.now) (events_at bank.now history.now))) }
    ensures memory { result ≡ Err Stop.OutOfSteps → ⊥ }
{
    match find_candidate(bank, history, hints, goal) {
        Ok(found) => Ok(found),
        Err(_) => Err(Stop::Memory),
    }
}

/// ELIM by the rule of an axiom or a lemma that is enabled for the hints. It is none exactly where no such rule has a candidate, and then
/// uses no steps. The path has the earlier goals, the nearest first.
pub fn eliminate_by_rule(
    work: &mut Work,
    history: &History,
    hints: &Hints,
    path: &[Vec<TermId>],
    goal: &[TermId],
) -> Result<Option<Moved>, Stop>
    requires stands { WorkStands history.now work.old }
    requires ready { IsReady (events_at work.old.bank history.now) }
    requires hints { HintsStand work.old.bank hints.now }
    requires path { All (λ earlier. All (IsTermIn history.now work.old) earlier.items) path.now }
    requires goal { All (IsTermIn history.now work.old) goal.now }
    ensures moved { IfOk result (λ found. IfSome found (IsMove history.now work.new goal.now)) }
    ensures legal { IfOk result (λ found. MatchOption found (HasNoneOfEvents (events_at work.old.bank history.now) (hints_at work.old.bank hints.now) (terms_at work.old.bank goal.now)) (Eliminates (events_at work.old.bank history.now) (hints_at work.old.bank hints.now) work.old.bank work.new.bank path.now goal.now)) }
    ensures none { result ≡ Ok None → work.new ≡ work.old }
    ensures candidate { result ≡ Err Stop.OutOfSteps → HasNoneOfEvents (events_at work.old.bank history.now) (hints_at work.old.bank hints.now) (terms_at work.old.bank goal.now) → ⊥ }
    ensures grows { WorkGrows history.now work.old work.new }
    ensures out { result ≡ Err Stop.OutOfSteps → work.new.counter.used ≡ work.new.counter.limit }
{
    own_terms();
    match find_rule(&work.bank, history, hints, goal)? {
        Some(c) => {
            let moved = eliminate_candidate(work, history, hints, path, goal, c)?;
            Ok(Some(moved))
        }
        None => Ok(None),
    }
}

/// ELIM by a rule of a shell, of an axiom or of a lemma. It is none exactly where no enabled rule has a candidate in the goal, and then uses no
/// steps. The path has the earlier goals, the nearest first.
pub fn eliminate_move(
    work: &mut Work,
    history: &History,
    hints: &Hints,
    path: &[Vec<TermId>],
    goal: &[TermId],
) -> Result<Option<Moved>, Stop>
    requires stands { WorkStands history.now work.old }
    requires ready { IsReady (events_at work.old.bank history.now) }
    requires hints { HintsStand work.old.bank hints.now }
    requires path { All (λ earlier. All (IsTermIn history.now work.old) earlier.items) path.now }
    requires goal { All (IsTermIn history.now work.old) goal.now }
    ensures moved { IfOk result (λ found. IfSome found (IsMove history.now work.new goal.now)) }
    ensures legal { IfOk result (λ found. MatchOption found (HasNoElimination (events_at work.old.bank history.now) (hints_at work.old.bank hints.now) (terms_at work.old.bank goal.now)) (Eliminates (events_at work.old.bank history.now) (hints_at work.old.bank hints.now) work.old.bank work.new.bank path.now goal.now)) }
    ensures none { result ≡ Ok None → work.new ≡ work.old }
    ensures candidate { result ≡ Err Stop.OutOfSteps → HasNoElimination (events_at work.old.bank history.now) (hints_at work.old.bank hints.now) (terms_at work.old.bank goal.now) → ⊥ }
    ensures grows { WorkGrows history.now work.old work.new }
    ensures out { result ≡ Err Stop.OutOfSteps → work.new.counter.used ≡ work.new.counter.limit }
{
    match eliminate_by_shell(work, history, hints, path, goal) {
        Ok(found) => match found {
            Some(moved) => Ok(Some(moved)),
            None => eliminate_by_rule(work, history, hints, path, goal),
        },
        Err(stop) => Err(stop),
    }
}
