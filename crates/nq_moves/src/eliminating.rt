//! ELIM: a variable gives way to what a rule says that it is made of.
ghost use Rattle.std.specs.Prelude.{◌≡◌, ◌++◌, ◌∷◌, [], map, All, IfOk, OnOk, Err, Some};
ghost use Rattle.nq_bank.specs.Content.{term_at, terms_at};
ghost use Rattle.nq_kernel.specs.declared.verdict.MoveKind.TheVariants as kind;
ghost use Rattle.nq_kernel.specs.Growing.{WorkStands, WorkGrows};
ghost use Rattle.nq_lines.specs.Lines.{IsTermIn, LineHasOnly};
ghost use Rattle.nq_goals.specs.Eliminating.{hypothesis_goal};
ghost use Rattle.nq_moves.specs.Dropped.{HoldChildren};
ghost use Rattle.nq_moves.specs.Eliminated.{IsElimination, IsEliminated, eliminated_goals, made_goal};
ghost use Rattle.nq_moves.specs.Found.{goals_at};
ghost use Rattle.nq_moves.specs.Ways.{IsMove};

use crate::clauses::distinct_clause;
use crate::counted::substitute_all;
use crate::known::{copied, push_id};
use crate::moved::{Eliminated, Moved, Why};
use crate::uncovering::{hypotheses_back, stated_back};
use nq_bank::TermId;
use nq_clause::Pair;
use nq_history::History;
use nq_kernel::{MoveKind, Stop, Work};
use std::alloc::Global;

/// The goal with the new variables, and with what the variable is made of in its place.
fn child_of(
    work: &mut Work,
    history: &History,
    goal: &[TermId],
    e: &Eliminated,
) -> Result<Vec<TermId>, Stop>
    requires stands { WorkStands history.now work.old }
    requires serves { IsElimination history.now work.old goal.now e.now }
    ensures child { IfOk result (λ v. terms_at work.new.bank v.items ≡ made_goal work.old.bank e.now) }
    ensures over { IfOk result (λ v. All (IsTermIn history.now work.new) v.items) }
    ensures grows { WorkGrows history.now work.old work.new }
    ensures out { result ≡ Err Stop.OutOfSteps → work.new.counter.used ≡ work.new.counter.limit }
{
    let _ = goal.len();
    let pair = Pair {
        variable: e.name,
        term: e.made_of,
    };
    let terms = substitute_all(work, history, e.renamed.as_slice(), &[pair])?;
    distinct_clause(&work.bank, terms.as_slice())
}

/// Some ids, and then another.
fn with_last(alloc: Global, ids: &[TermId], last: TermId) -> Result<Vec<TermId>, Stop>
    ensures ok { IfOk result (λ v. v.items ≡ ids.now ++ last ∷ []) }
    ensures memory { result ≡ Err Stop.OutOfSteps → ⊥ }
{
    let mut more = copied(alloc, ids)?;
    push_id(&mut more, last)?;
    Ok(more)
}

/// One more goal.
fn push_goal(goals: &mut Vec<Vec<TermId>>, goal: Vec<TermId>) -> Result<(), Stop>
    ensures ok { OnOk result (goals.new.items ≡ goals.old.items ++ goal ∷ []) }
    ensures memory { result ≡ Err Stop.OutOfSteps → ⊥ }
{
    match goals.push(goal) {
        Ok(()) => Ok(()),
        Err(_) => Err(Stop::Memory),
    }
}

/// The goal with one further literal.
fn hypothesis_child(
    work: &Work,
    history: &History,
    goal: &[TermId],
    hypothesis: TermId,
) -> Result<Vec<TermId>, Stop>
    requires goal { All (IsTermIn history.now work.now) goal.now }
    requires hypothesis { IsTermIn history.now work.now hypothesis }
    ensures child { IfOk result (λ v. terms_at work.now.bank v.items ≡ hypothesis_goal (terms_at work.now.bank goal.now) (term_at work.now.bank hypothesis)) }
    ensures over { IfOk result (λ v. All (IsTermIn history.now work.now) v.items) }
    ensures memory { result ≡ Err Stop.OutOfSteps → ⊥ }
{
    let _ = history.len();
    let literals = with_last(work.bank.alloc(), goal, hypothesis)?;
    distinct_clause(&work.bank, literals.as_slice())
}

/// The goals of some hypotheses.
fn hypothesis_children(
    work: &Work,
    history: &History,
    goal: &[TermId],
    hypotheses: &[TermId],
) -> Result<Vec<Vec<TermId>>, Stop>
    requires goal { All (IsTermIn history.now work.now) goal.now }
    requires hypotheses { All (IsTermIn history.now work.now) hypotheses.now }
    ensures children { IfOk result (λ v. goals_at work.now.bank v.items ≡ map (hypothesis_goal (terms_at work.now.bank goal.now)) (terms_at work.now.bank hypotheses.now)) }
    ensures over { IfOk result (λ v. All (λ child. All (IsTermIn history.now work.now) child.items) v.items) }
    ensures memory { result ≡ Err Stop.OutOfSteps → ⊥ }
{
    let mut children = Vec::new(work.bank.alloc());
    for hypothesis in hypotheses {
        let child = hypothesis_child(work, history, goal, *hypothesis)?;
        push_goal(&mut children, child)?;
    }
    Ok(children)
}

/// What ELIM leads to.
fn moved_by(alloc: Global, e: Eliminated, children: Vec<Vec<TermId>>) -> Moved
    ensures kind { result.why.kind ≡ kind.Elim }
    ensures children { result.children ≡ children }
    ensures kept { result.why.eliminated ≡ Some e }
{
    let why = Why {
        kind: MoveKind::Elim,
        lines: Vec::new(alloc),
        pairs: Vec::new(alloc),
        literals: Vec::new(alloc),
        crossing: None,
        eliminated: Some(e),
    };
    Moved { children, why }
}

/// The goals to which an elimination leads.
fn children_of(
    work: &mut Work,
    history: &History,
    goal: &[TermId],
    e: &Eliminated,
) -> Result<Vec<Vec<TermId>>, Stop>
    requires stands { WorkStands history.now work.old }
    requires goal { All (IsTermIn history.now work.old) goal.now }
    requires serves { IsElimination history.now work.old goal.now e.now }
    ensures children { IfOk result (λ v. goals_at work.new.bank v.items ≡ eliminated_goals work.old.bank goal.now e.now) }
    ensures over { IfOk result (λ v. All (λ child. All (IsTermIn history.now work.new) child.items) v.items) }
    ensures grows { WorkGrows history.now work.old work.new }
    ensures out { result ≡ Err Stop.OutOfSteps → work.new.counter.used ≡ work.new.counter.limit }
{
    let last = child_of(work, history, goal, e)?;
    let mut children = hypothesis_children(work, history, goal, e.hypotheses.as_slice())?;
    push_goal(&mut children, last)?;
    Ok(children)
}

/// ELIM by a rule: to a goal for each of its hypotheses, and to one where they hold.
pub fn eliminate_by(
    work: &mut Work,
    history: &History,
    goal: &[TermId],
    e: Eliminated,
) -> Result<Moved, Stop>
    requires stands { WorkStands history.now work.old }
    requires goal { All (IsTermIn history.now work.old) goal.now }
    requires serves { IsElimination history.now work.old goal.now e }
    ensures moved { IfOk result (IsMove history.now work.new goal.now) }
    ensures leads { IfOk result (λ moved. goals_at work.new.bank moved.children.items ≡ eliminated_goals work.old.bank goal.now e) }
    ensures grows { WorkGrows history.now work.old work.new }
    ensures out { result ≡ Err Stop.OutOfSteps → work.new.counter.used ≡ work.new.counter.limit }
{
    let children = children_of(work, history, goal, &e)?;
    Ok(moved_by(work.bank.alloc(), e, children))
}

/// Adds the line of a goal, from those of the goals to which its elimination leads.
fn close_elimination(
    work: &mut Work,
    history: &History,
    goal: &[TermId],
    e: &Eliminated,
    lines: &[u64],
) -> Result<u64, Stop>
    requires stands { WorkStands history.now work.old }
    requires goal { All (IsTermIn history.now work.old) goal.now }
    requires serves { IsElimination history.now work.old goal.now e.now }
    requires lines { HoldChildren work.old (eliminated_goals work.old.bank goal.now e.now) lines.now }
    ensures line { IfOk result (λ n. LineHasOnly work.new n (terms_at work.old.bank goal.now)) }
    ensures grows { WorkGrows history.now work.old work.new }
    ensures out { result ≡ Err Stop.OutOfSteps → work.new.counter.used ≡ work.new.counter.limit }
{
    let last = lines[e.hypotheses.len()];
    let stated = stated_back(work, history, goal, e, last)?;
    hypotheses_back(work, history, goal, e.hypotheses.as_slice(), lines, stated)
}

/// Adds the line of a goal, from those of the goals to which a move of ELIM led.
pub fn close_eliminated(
    work: &mut Work,
    history: &History,
    goal: &[TermId],
    moved: &Moved,
    lines: &[u64],
) -> Result<u64, Stop>
    requires stands { WorkStands history.now work.old }
    requires goal { All (IsTermIn history.now work.old) goal.now }
    requires moved { IsEliminated history.now work.old goal.now moved.now }
    requires lines { HoldChildren work.old (goals_at work.old.bank moved.now.children.items) lines.now }
    ensures line { IfOk result (λ n. LineHasOnly work.new n (terms_at work.old.bank goal.now)) }
    ensures grows { WorkGrows history.now work.old work.new }
    ensures out { result ≡ Err Stop.OutOfSteps → work.new.counter.used ≡ work.new.counter.limit }
{
    match &moved.why.eliminated {
        Some(e) => close_elimination(work, history, goal, e, lines),
        None => unreachable!(),
    }
}
