//! Goals in which one side of an equation took the other's place.
ghost use Rattle.std.specs.Prelude.{◌≡◌, ◌∷◌, [], false, map, All, IfOk, IfSome, IsSome, IsTrue, Err, None, Some};
ghost use Rattle.nq_logic.specs.Values.{is_value};
ghost use Rattle.nq_bank.specs.Content.{Stands, IsIdOf, term_at, terms_at};
ghost use Rattle.nq_bank.specs.Parts.{parts_of};
ghost use Rattle.nq_proof.specs.Clauses.{literal_at};
ghost use Rattle.nq_kernel.specs.declared.verdict.MoveKind.TheVariants as kind;
ghost use Rattle.nq_kernel.specs.Growing.{WorkStands, WorkGrows};
ghost use Rattle.nq_lines.specs.Lines.{IsTermIn};
ghost use Rattle.nq_goals.specs.Replacing.{exchanged};
ghost use Rattle.nq_moves.specs.Found.{goals_at};
ghost use Rattle.nq_moves.specs.Swapped.{IsReading, reading_at, crossed, CrossingStands, swapped_literal, swapped_goal};
ghost use Rattle.nq_moves.specs.Ways.{IsMove};

use crate::clauses::{clause_without, distinct_clause, is_same};
use crate::exchanging::{Exchanging, exchange_all, exchange_within};
use crate::known::push_id;
use crate::moved::{Crossing, Moved, Why};
use crate::readings::Reading;
use nq_bank::{Bank, TermId};
use nq_history::History;
use nq_kernel::{MoveKind, Stop, Work};
use nq_lines::{argument_at, changed_call};
use std::alloc::{AllocError, Global};
use std::collections::HashMap;

/// Has a term an argument at a place, counted from 1?
pub fn has_place(bank: &Bank, t: TermId, place: u64) -> bool
    requires { Stands bank.now t }
    ensures { IsTrue result → IsSome (literal_at place (parts_of (term_at bank.now t))) }
{
    place >= 1 && place <= bank.args(t).len() as u64
}

/// The term with the one side in the other's place.
fn swap_in_term(work: &mut Work, history: &History, t: TermId, r: Reading) -> Result<TermId, Stop>
    requires stands { WorkStands history.now work.old }
    requires term { IsTermIn history.now work.old t }
    requires from { IsTermIn history.now work.old r.from }
    requires into { IsTermIn history.now work.old r.into }
    requires no_value { is_value (term_at work.old.bank r.from) ≡ false }
    ensures term { IfOk result (λ u. IsIdOf work.new.bank u (exchanged (reading_at work.old.bank r) (term_at work.old.bank t))) }
    ensures over { IfOk result (λ u. IsTermIn history.now work.new u) }
    ensures grows { WorkGrows history.now work.old work.new }
    ensures out { result ≡ Err Stop.OutOfSteps → work.new.counter.used ≡ work.new.counter.limit }
{
    let mut known = HashMap::new(work.bank.alloc());
    let exchange = Exchanging {
        from: r.from,
        into: r.into,
    };
    exchange_within(work, history, &mut known, t, &[exchange])
}

/// The terms with the one side in the other's place.
fn swap_in_terms(
    work: &mut Work,
    history: &History,
    terms: &[TermId],
    r: Reading,
) -> Result<Vec<TermId>, Stop>
    requires stands { WorkStands history.now work.old }
    requires terms { All (IsTermIn history.now work.old) terms.now }
    requires from { IsTermIn history.now work.old r.from }
    requires into { IsTermIn history.now work.old r.into }
    requires no_value { is_value (term_at work.old.bank r.from) ≡ false }
    ensures terms { IfOk result (λ v. terms_at work.new.bank v.items ≡ map (exchanged (reading_at work.old.bank r)) (terms_at work.old.bank terms.now)) }
    ensures over { IfOk result (λ v. All (IsTermIn history.now work.new) v.items) }
    ensures grows { WorkGrows history.now work.old work.new }
    ensures out { result ≡ Err Stop.OutOfSteps → work.new.counter.used ≡ work.new.counter.limit }
{
    let exchange = Exchanging {
        from: r.from,
        into: r.into,
    };
    exchange_all(work, history, terms, &[exchange])
}

/// The call with the one side in the other's place in one argument.
fn cross(work: &mut Work, history: &History, r: Reading, x: Crossing) -> Result<TermId, Stop>
    requires stands { WorkStands history.now work.old }
    requires from { IsTermIn history.now work.old r.from }
    requires into { IsTermIn history.now work.old r.into }
    requires no_value { is_value (term_at work.old.bank r.from) ≡ false }
    requires whole { IsTermIn history.now work.old x.whole }
    requires place { IsSome (literal_at x.place (parts_of (term_at work.old.bank x.whole))) }
    ensures term { IfOk result (λ u. IsIdOf work.new.bank u (crossed (reading_at work.old.bank r) x.place (term_at work.old.bank x.whole))) }
    ensures over { IfOk result (λ u. IsTermIn history.now work.new u) }
    ensures grows { WorkGrows history.now work.old work.new }
    ensures out { result ≡ Err Stop.OutOfSteps → work.new.counter.used ≡ work.new.counter.limit }
{
    let part = argument_at(&work.bank, x.whole, x.place);
    let made = swap_in_term(work, history, part, r)?;
    changed_call(work, history, x.whole, x.place, made)
}

/// A literal with the one side in the other's place. Of the crossed literal the id is known.
fn swap_but_one(
    work: &mut Work,
    history: &History,
    t: TermId,
    r: Reading,
    x: Crossing,
    one: TermId,
) -> Result<TermId, Stop>
    requires stands { WorkStands history.now work.old }
    requires term { IsTermIn history.now work.old t }
    requires from { IsTermIn history.now work.old r.from }
    requires into { IsTermIn history.now work.old r.into }
    requires no_value { is_value (term_at work.old.bank r.from) ≡ false }
    requires whole { Stands work.old.bank x.whole }
    requires one { IsTermIn history.now work.old one }
    requires crossed { term_at work.old.bank one ≡ crossed (reading_at work.old.bank r) x.place (term_at work.old.bank x.whole) }
    ensures term { IfOk result (λ u. IsIdOf work.new.bank u (swapped_literal work.old.bank (reading_at work.old.bank r) (Some x) (term_at work.old.bank t))) }
    ensures over { IfOk result (λ u. IsTermIn history.now work.new u) }
    ensures grows { WorkGrows history.now work.old work.new }
    ensures out { result ≡ Err Stop.OutOfSteps → work.new.counter.used ≡ work.new.counter.limit }
{
    if is_same(&work.bank, x.whole, t) {
        Ok(one)
    } else {
        swap_in_term(work, history, t, r)
    }
}

/// The literals with the one side in the other's place, the crossed one in one argument alone.
fn swap_but_ones(
    work: &mut Work,
    history: &History,
    terms: &[TermId],
    r: Reading,
    x: Crossing,
    one: TermId,
) -> Result<Vec<TermId>, Stop>
    requires stands { WorkStands history.now work.old }
    requires terms { All (IsTermIn history.now work.old) terms.now }
    requires from { IsTermIn history.now work.old r.from }
    requires into { IsTermIn history.now work.old r.into }
    requires no_value { is_value (term_at work.old.bank r.from) ≡ false }
    requires whole { IsTermIn history.now work.old x.whole }
    requires one { IsTermIn history.now work.old one }
    requires crossed { term_at work.old.bank one ≡ crossed (reading_at work.old.bank r) x.place (term_at work.old.bank x.whole) }
    ensures terms { IfOk result (λ v. terms_at work.new.bank v.items ≡ map (swapped_literal work.old.bank (reading_at work.old.bank r) (Some x)) (terms_at work.old.bank terms.now)) }
    ensures over { IfOk result (λ v. All (IsTermIn history.now work.new) v.items) }
    ensures grows { WorkGrows history.now work.old work.new }
    ensures out { result ≡ Err Stop.OutOfSteps → work.new.counter.used ≡ work.new.counter.limit }
{
    let mut made = Vec::new(work.bank.alloc());
    for t in terms {
        let u = swap_but_one(work, history, *t, r, x, one)?;
        push_id(&mut made, u)?;
    }
    Ok(made)
}

/// The literals with the one side in the other's place, where in one literal it takes it in one argument alone.
fn swap_across(
    work: &mut Work,
    history: &History,
    terms: &[TermId],
    r: Reading,
    x: Crossing,
) -> Result<Vec<TermId>, Stop>
    requires stands { WorkStands history.now work.old }
    requires terms { All (IsTermIn history.now work.old) terms.now }
    requires from { IsTermIn history.now work.old r.from }
    requires into { IsTermIn history.now work.old r.into }
    requires no_value { is_value (term_at work.old.bank r.from) ≡ false }
    requires whole { IsTermIn history.now work.old x.whole }
    requires place { IsSome (literal_at x.place (parts_of (term_at work.old.bank x.whole))) }
    ensures terms { IfOk result (λ v. terms_at work.new.bank v.items ≡ map (swapped_literal work.old.bank (reading_at work.old.bank r) (Some x)) (terms_at work.old.bank terms.now)) }
    ensures over { IfOk result (λ v. All (IsTermIn history.now work.new) v.items) }
    ensures grows { WorkGrows history.now work.old work.new }
    ensures out { result ≡ Err Stop.OutOfSteps → work.new.counter.used ≡ work.new.counter.limit }
{
    let one = cross(work, history, r, x)?;
    swap_but_ones(work, history, terms, r, x, one)
}

/// The literals with the one side in the other's place.
fn swap_literals(
    work: &mut Work,
    history: &History,
    terms: &[TermId],
    r: Reading,
    crossing: Option<Crossing>,
) -> Result<Vec<TermId>, Stop>
    requires stands { WorkStands history.now work.old }
    requires terms { All (IsTermIn history.now work.old) terms.now }
    requires from { IsTermIn history.now work.old r.from }
    requires into { IsTermIn history.now work.old r.into }
    requires no_value { is_value (term_at work.old.bank r.from) ≡ false }
    requires whole { IfSome crossing (λ x. IsTermIn history.now work.old x.whole) }
    requires place { IfSome crossing (λ x. IsSome (literal_at x.place (parts_of (term_at work.old.bank x.whole)))) }
    ensures terms { IfOk result (λ v. terms_at work.new.bank v.items ≡ map (swapped_literal work.old.bank (reading_at work.old.bank r) crossing) (terms_at work.old.bank terms.now)) }
    ensures over { IfOk result (λ v. All (IsTermIn history.now work.new) v.items) }
    ensures grows { WorkGrows history.now work.old work.new }
    ensures out { result ≡ Err Stop.OutOfSteps → work.new.counter.used ≡ work.new.counter.limit }
{
    match crossing {
        None => swap_in_terms(work, history, terms, r),
        Some(x) => swap_across(work, history, terms, r, x),
    }
}

/// The goal without the equation, with the one side in the other's place.
fn swap_in_goal(
    work: &mut Work,
    history: &History,
    goal: &[TermId],
    r: Reading,
    crossing: Option<Crossing>,
) -> Result<Vec<TermId>, Stop>
    requires stands { WorkStands history.now work.old }
    requires goal { All (IsTermIn history.now work.old) goal.now }
    requires reading { IsReading history.now work.old goal.now r }
    requires no_value { is_value (term_at work.old.bank r.from) ≡ false }
    requires crossing { IfSome crossing (CrossingStands history.now work.old goal.now) }
    ensures child { IfOk result (λ c. terms_at work.new.bank c.items ≡ swapped_goal work.old.bank r crossing goal.now) }
    ensures over { IfOk result (λ c. All (IsTermIn history.now work.new) c.items) }
    ensures grows { WorkGrows history.now work.old work.new }
    ensures out { result ≡ Err Stop.OutOfSteps → work.new.counter.used ≡ work.new.counter.limit }
{
    let rest = clause_without(&work.bank, r.literal, goal)?;
    let made = swap_literals(work, history, rest.as_slice(), r, crossing)?;
    distinct_clause(&work.bank, made.as_slice())
}

fn try_moved(
    alloc: Global,
    r: Reading,
    crossing: Option<Crossing>,
    child: Vec<TermId>,
) -> Result<Moved, AllocError>
    ensures kind { IfOk result (λ moved. moved.why.kind ≡ kind.Fert) }
    ensures children { IfOk result (λ moved. moved.children.items ≡ child ∷ []) }
    ensures literals { IfOk result (λ moved. moved.why.literals.items ≡ r.literal ∷ r.from ∷ r.into ∷ []) }
    ensures crossing { IfOk result (λ moved. moved.why.crossing ≡ crossing) }
{
    let literals = vec![in alloc; r.literal, r.from, r.into]?;
    let mut children = Vec::new(alloc);
    children.push(child)?;
    let why = Why {
        kind: MoveKind::Fert,
        lines: Vec::new(alloc),
        pairs: Vec::new(alloc),
        literals,
        crossing,
        eliminated: None,
    };
    Ok(Moved { children, why })
}

/// What FERT leads to.
fn moved_by_swapping(
    alloc: Global,
    r: Reading,
    crossing: Option<Crossing>,
    child: Vec<TermId>,
) -> Result<Moved, Stop>
    ensures kind { IfOk result (λ moved. moved.why.kind ≡ kind.Fert) }
    ensures children { IfOk result (λ moved. moved.children.items ≡ child ∷ []) }
    ensures literals { IfOk result (λ moved. moved.why.literals.items ≡ r.literal ∷ r.from ∷ r.into ∷ []) }
    ensures crossing { IfOk result (λ moved. moved.why.crossing ≡ crossing) }
    ensures memory { result ≡ Err Stop.OutOfSteps → ⊥ }
{
    match try_moved(alloc, r, crossing, child) {
        Ok(moved) => Ok(moved),
        Err(_) => Err(Stop::Memory),
    }
}

/// FERT by an equation of the goal: its one side takes the other's place, in one argument of a literal alone where there is a
/// crossing.
pub fn swap_sides(
    work: &mut Work,
    history: &History,
    goal: &[TermId],
    r: Reading,
    crossing: Option<Crossing>,
) -> Result<Moved, Stop>
    requires stands { WorkStands history.now work.old }
    requires goal { All (IsTermIn history.now work.old) goal.now }
    requires reading { IsReading history.now work.old goal.now r }
    requires no_value { is_value (term_at work.old.bank r.from) ≡ false }
    requires crossing { IfSome crossing (CrossingStands history.now work.old goal.now) }
    ensures moved { IfOk result (IsMove history.now work.new goal.now) }
    ensures leads { IfOk result (λ moved. goals_at work.new.bank moved.children.items ≡ swapped_goal work.old.bank r crossing goal.now ∷ []) }
    ensures grows { WorkGrows history.now work.old work.new }
    ensures out { result ≡ Err Stop.OutOfSteps → work.new.counter.used ≡ work.new.counter.limit }
{
    let child = swap_in_goal(work, history, goal, r, crossing)?;
    moved_by_swapping(work.bank.alloc(), r, crossing, child)
}
