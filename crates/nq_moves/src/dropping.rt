//! IRR: which group of literals is dropped.
ghost use Rattle.std.specs.Prelude.{◌≡◌, ◌∷◌, ◌&&◌, ◌||◌, [], All, IfOk, None, Ok, Err, Some, MatchOption, not, true, false};
ghost use Rattle.nq_logic.specs.RuleShapes.{has_distinct_variables};
ghost use Rattle.nq_bank.specs.Content.{Content, Stands, term_at, terms_at};
ghost use Rattle.nq_history.specs.Events.{HistoryStands, events_at};
ghost use Rattle.nq_kernel.specs.declared.verdict.MoveKind.TheVariants as kind;
ghost use Rattle.nq_kernel.specs.Growing.{WorkStands, WorkGrows};
ghost use Rattle.nq_goals.specs.Recursion.{is_recursive_call, holds_recursive};
ghost use Rattle.nq_goals.specs.Occurrences.{atom_of};
ghost use Rattle.nq_goals.specs.Dropping.{one_holds_recursive, is_lone_call, is_irrelevant, can_drop, droppings_of, group_of, others, is_empty};
ghost use Rattle.nq_moves.specs.Dropped.{IsDropped, IsLeft, DropsOne, IsDroppedGroup, HoldChildren};
ghost use Rattle.nq_moves.specs.Found.{goals_at};
ghost use Rattle.nq_lines.specs.Lines.{LineHasOnly};

use crate::calls::is_recursive_call;
use crate::equations::under_one_not;
use crate::groups::{group_of, others_than};
use crate::known::is_either;
use crate::moved::{Moved, Why};
use crate::recursion::holds_recursive;
use nq_bank::{Bank, TermId};
use nq_history::History;
use nq_kernel::{MoveKind, Stop, Work};
use std::alloc::{AllocError, Global};

/// A literal without an outer NOT.
fn atom_of(bank: &Bank, literal: TermId) -> TermId
    requires { Stands bank.now literal }
    ensures term { term_at bank.now result ≡ atom_of (term_at bank.now literal) }
    ensures stands { Stands bank.now result }
{
    match under_one_not(bank, literal) {
        Some(t) => t,
        None => literal,
    }
}

/// Does the literal, without its outer NOT, hold a recursive function?
fn literal_holds(bank: &Bank, history: &History, literal: TermId) -> Result<bool, Stop>
    requires history { HistoryStands bank.now history.now }
    requires literal { Stands bank.now literal }
    ensures answer { IfOk result (λ b. b ≡ holds_recursive (events_at bank.now history.now) (atom_of (term_at bank.now literal))) }
    ensures memory { result ≡ Err Stop.OutOfSteps → ⊥ }
{
    match holds_recursive(bank, history, atom_of(bank, literal)) {
        Ok(b) => Ok(b),
        Err(_) => Err(Stop::Memory),
    }
}

/// Does one of the literals hold a recursive function?
fn one_holds(bank: &Bank, history: &History, group: &[TermId]) -> Result<bool, Stop>
    requires history { HistoryStands bank.now history.now }
    requires group { All (Stands bank.now) group.now }
    ensures answer { IfOk result (λ b. b ≡ one_holds_recursive (events_at bank.now history.now) (terms_at bank.now group.now)) }
    ensures memory { result ≡ Err Stop.OutOfSteps → ⊥ }
{
    let mut found = false;
    for t in group {
        let here = literal_holds(bank, history, *t)?;
        found = is_either(found, here);
    }
    Ok(found)
}

/// Is the group one call of a recursive function on distinct variables?
fn is_lone_call(bank: &Bank, history: &History, group: &[TermId]) -> bool
    requires history { HistoryStands bank.now history.now }
    requires group { All (Stands bank.now) group.now }
    ensures { result ≡ is_lone_call (events_at bank.now history.now) (terms_at bank.now group.now) }
{
    match group {
        [t] => is_recursive_call(bank, history, atom_of(bank, *t)),
        _ => false,
    }
}

/// Does the group say nothing of interest?
fn is_irrelevant(bank: &Bank, history: &History, group: &[TermId]) -> Result<bool, Stop>
    requires history { HistoryStands bank.now history.now }
    requires group { All (Stands bank.now) group.now }
    ensures answer { IfOk result (λ b. b ≡ is_irrelevant (events_at bank.now history.now) (terms_at bank.now group.now)) }
    ensures memory { result ≡ Err Stop.OutOfSteps → ⊥ }
{
    let holds = one_holds(bank, history, group)?;
    Ok(!holds || is_lone_call(bank, history, group))
}

/// A group that can be dropped, and the literals that are left.
#[derive(Drop)]
pub struct Dropped {
    /// The group.
    pub group: Vec<TermId>,
    /// The others.
    pub rest: Vec<TermId>,
}

/// Are there no ids?
fn is_none(ids: &[TermId]) -> bool
    ensures { (bank : Content) → result ≡ is_empty (terms_at bank ids.now) }
{
    match ids {
        [] => true,
        _ => false,
    }
}

/// The group, where it can be dropped.
fn drop_group(
    bank: &Bank,
    history: &History,
    goal: &[TermId],
    group: Vec<TermId>,
) -> Result<Option<Dropped>, Stop>
    requires history { HistoryStands bank.now history.now }
    requires goal { All (Stands bank.now) goal.now }
    requires group { All (Stands bank.now) group.items }
    ensures dropped { IfOk result (λ found. MatchOption found (can_drop (events_at bank.now history.now) (terms_at bank.now goal.now) (terms_at bank.now group.items) ≡ false) (λ d. (can_drop (events_at bank.now history.now) (terms_at bank.now goal.now) (terms_at bank.now group.items) ≡ true) × IsDroppedGroup bank.now (terms_at bank.now goal.now) (terms_at bank.now group.items) d)) }
    ensures memory { result ≡ Err Stop.OutOfSteps → ⊥ }
{
    let irrelevant = is_irrelevant(bank, history, group.as_slice())?;
    let rest = others_than(bank, group.as_slice(), goal)?;
    if irrelevant && !is_none(rest.as_slice()) {
        Ok(Some(Dropped { group, rest }))
    } else {
        Ok(None)
    }
}

/// The group of a literal, where it can be dropped.
fn drop_group_of(
    bank: &Bank,
    history: &History,
    goal: &[TermId],
    t: TermId,
) -> Result<Option<Dropped>, Stop>
    requires history { HistoryStands bank.now history.now }
    requires goal { All (Stands bank.now) goal.now }
    requires literal { Stands bank.now t }
    ensures dropped { IfOk result (λ found. MatchOption found (can_drop (events_at bank.now history.now) (terms_at bank.now goal.now) (group_of (terms_at bank.now goal.now) (term_at bank.now t)) ≡ false) (λ d. (can_drop (events_at bank.now history.now) (terms_at bank.now goal.now) (group_of (terms_at bank.now goal.now) (term_at bank.now t)) ≡ true) × IsDroppedGroup bank.now (terms_at bank.now goal.now) (group_of (terms_at bank.now goal.now) (term_at bank.now t)) d)) }
    ensures memory { result ≡ Err Stop.OutOfSteps → ⊥ }
{
    let group = group_of(bank, goal, t)?;
    drop_group(bank, history, goal, group)
}

/// The first group that can be dropped; none exactly where there is no candidate.
fn find_group(bank: &Bank, history: &History, goal: &[TermId]) -> Result<Option<Dropped>, Stop>
    requires history { HistoryStands bank.now history.now }
    requires goal { All (Stands bank.now) goal.now }
    ensures found { IfOk result (DropsOne bank.now (events_at bank.now history.now) goal.now) }
    ensures memory { result ≡ Err Stop.OutOfSteps → ⊥ }
{
    for t in goal {
        if let Some(found) = drop_group_of(bank, history, goal, *t)? {
            return Ok(Some(found));
        }
    }
    Ok(None)
}

/// What IRR leads to.
fn try_dropped(alloc: Global, dropped: Dropped) -> Result<Moved, AllocError>
    ensures kind { IfOk result (λ moved. moved.why.kind ≡ kind.Irr) }
    ensures children { IfOk result (λ moved. moved.children.items ≡ dropped.rest ∷ []) }
    ensures literals { IfOk result (λ moved. moved.why.literals ≡ dropped.group) }
{
    let Dropped { group, rest } = dropped;
    let mut children = Vec::new(alloc);
    children.push(rest)?;
    let why = Why {
        kind: MoveKind::Irr,
        lines: Vec::new(alloc),
        pairs: Vec::new(alloc),
        literals: group,
        crossing: None,
        eliminated: None,
    };
    Ok(Moved { children, why })
}

fn moved_by_dropping(alloc: Global, dropped: Dropped) -> Result<Moved, Stop>
    ensures kind { IfOk result (λ moved. moved.why.kind ≡ kind.Irr) }
    ensures children { IfOk result (λ moved. moved.children.items ≡ dropped.rest ∷ []) }
    ensures literals { IfOk result (λ moved. moved.why.literals ≡ dropped.group) }
    ensures memory { result ≡ Err Stop.OutOfSteps → ⊥ }
{
    match try_dropped(alloc, dropped) {
        Ok(moved) => Ok(moved),
        Err(_) => Err(Stop::Memory),
    }
}

/// IRR of the first candidate. It is none exactly where there is no candidate. It uses no steps.
pub fn drop_first(
    work: &mut Work,
    history: &History,
    goal: &[TermId],
) -> Result<Option<Moved>, Stop>
    requires stands { WorkStands history.now work.old }
    requires goal { All (Stands work.old.bank) goal.now }
    ensures moved { IfOk result (λ moved. MatchOption moved (droppings_of (events_at work.old.bank history.now) (terms_at work.old.bank goal.now) ≡ []) (IsDropped work.old.bank (events_at work.old.bank history.now) goal.now)) }
    ensures same { work.new ≡ work.old }
    ensures steps { result ≡ Err Stop.OutOfSteps → ⊥ }
{
    match find_group(&work.bank, history, goal)? {
        Some(found) => {
            let moved = moved_by_dropping(work.bank.alloc(), found)?;
            Ok(Some(moved))
        }
        None => Ok(None),
    }
}

/// The line of the goal, which is that of the one child.
pub fn close_left(
    work: &mut Work,
    history: &History,
    goal: &[TermId],
    moved: &Moved,
    lines: &[u64],
) -> Result<u64, Stop>
    requires stands { WorkStands history.now work.old }
    requires moved { IsLeft work.old.bank goal.now moved.now }
    requires lines { HoldChildren work.old (goals_at work.old.bank moved.now.children.items) lines.now }
    ensures line { IfOk result (λ n. LineHasOnly work.new n (terms_at work.old.bank goal.now)) }
    ensures same { work.new ≡ work.old }
    ensures steps { result ≡ Err Stop.OutOfSteps → ⊥ }
{
    Ok(lines[0])
}
