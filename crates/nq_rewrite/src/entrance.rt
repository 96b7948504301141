//! The rewriter.
ghost use Rattle.std.specs.Prelude.{◌≡◌, IfOk, Err};
ghost use Rattle.nq_bank.specs.Content.{term_at, terms_at};
ghost use Rattle.nq_kernel.specs.Growing.{WorkGrows, WorkStands};
ghost use Rattle.nq_lines.specs.Lines.{IsTermIn};
ghost use Rattle.nq_reduce.specs.Rewriting.{CanRewrite, IsRewritten, ShowsEqual};

use crate::learnt::Learnt;
use crate::rewriting::rewrite_term;
use crate::rules::{Head, nested_heads};
use crate::search::Search;
use crate::terms::add_terms;
use crate::way::Way;
use nq_bank::TermId;
use nq_history::{Hints, History};
use nq_kernel::{Stop, Work};
use nq_lines::reflexive;
use nq_reduce::Rewritten;
use nq_rule_table::Rules;
use std::alloc::AllocError;
use std::mem;

/// The terms that stand in a term and in what is assumed, where only memory can be wanting.
fn terms_in(
    work: &Work,
    history: &History,
    assumed: &[TermId],
    t: TermId,
) -> Result<Vec<TermId>, AllocError>
    requires { CanRewrite history.now work.now assumed.now t }
{
    let mut goal = Vec::new(work.bank.alloc());
    add_terms(&work.bank, &mut goal, t)?;
    for a in assumed {
        add_terms(&work.bank, &mut goal, *a)?;
    }
    Ok(goal)
}

/// The terms that stand in a term and in what is assumed.
fn goal_of(
    work: &Work,
    history: &History,
    assumed: &[TermId],
    t: TermId,
) -> Result<Vec<TermId>, Stop>
    requires can { CanRewrite history.now work.now assumed.now t }
    ensures out { result ≡ Err Stop.OutOfSteps → ⊥ }
{
    match terms_in(work, history, assumed, t) {
        Ok(goal) => Ok(goal),
        Err(_) => Err(Stop::Memory),
    }
}

/// The left sides under implications within the conclusions of the rules that are enabled for these hints.
fn nested_of(
    work: &Work,
    history: &History,
    hints: &Hints,
    rules: &Rules,
) -> Result<Vec<Head>, Stop>
    requires stands { WorkStands history.now work.now }
    ensures out { result ≡ Err Stop.OutOfSteps → ⊥ }
{
    match nested_heads(&work.bank, history, hints, rules) {
        Ok(nested) => Ok(nested),
        Err(_) => Err(Stop::Memory),
    }
}

/// Rewrites a term by these rules, where these are assumed, with what was learnt in the same proof. Where nothing changes there is no
/// line.
fn rewrite_by(
    work: &mut Work,
    history: &History,
    hints: &Hints,
    rules: &Rules,
    nested: &[Head],
    learnt: &mut Learnt,
    assumed: &[TermId],
    t: TermId,
) -> Result<Rewritten, Stop>
    requires can { CanRewrite history.now work.old assumed.now t }
    ensures ok { IfOk result (λ r. IsRewritten history.now work.new (terms_at work.old.bank assumed.now) (term_at work.old.bank t) r) }
    ensures grows { WorkGrows history.now work.old work.new }
    ensures out { result ≡ Err Stop.OutOfSteps → work.new.counter.used ≡ work.new.counter.limit }
{
    let alloc = work.bank.alloc();
    let goal = goal_of(work, history, assumed, t)?;
    let mut search = Search::new(alloc);
    mem::swap(learnt, &mut search.learnt);
    let way = Way {
        hints,
        rules,
        nested,
        goal: goal.as_slice(),
        relieved: Vec::new(alloc),
        opening: Vec::new(alloc),
        guard: None,
        asked: false,
        mark: 0,
    };
    let new = rewrite_term(work, history, &way, &mut search, assumed, 0, t)?;
    mem::swap(learnt, &mut search.learnt);
    Ok(new)
}

/// Rewrites a term where these are assumed, by the rules of a history, with what was learnt in the same proof. Where nothing changes
/// there is no line.
pub fn rewritten(
    work: &mut Work,
    history: &History,
    hints: &Hints,
    rules: &Rules,
    learnt: &mut Learnt,
    assumed: &[TermId],
    t: TermId,
) -> Result<Rewritten, Stop>
    requires can { CanRewrite history.now work.old assumed.now t }
    ensures ok { IfOk result (λ r. IsRewritten history.now work.new (terms_at work.old.bank assumed.now) (term_at work.old.bank t) r) }
    ensures grows { WorkGrows history.now work.old work.new }
    ensures out { result ≡ Err Stop.OutOfSteps → work.new.counter.used ≡ work.new.counter.limit }
{
    let nested = nested_of(work, history, hints, rules)?;
    rewrite_by(
        work,
        history,
        hints,
        rules,
        nested.as_slice(),
        learnt,
        assumed,
        t,
    )
}

/// Rewrites a term where these are assumed, by the rules of a history. The line has only the equation of the term and the new one, and
/// the NOTs of what is assumed.
pub fn rewrite(
    work: &mut Work,
    history: &History,
    hints: &Hints,
    rules: &Rules,
    assumed: &[TermId],
    t: TermId,
) -> Result<(TermId, u64), Stop>
    requires can { CanRewrite history.now work.old assumed.now t }
    ensures term { IfOk result (λ r. IsTermIn history.now work.new r.0) }
    ensures line { IfOk result (λ r. ShowsEqual work.new r.1 (terms_at work.old.bank assumed.now) (term_at work.old.bank t) (term_at work.new.bank r.0)) }
    ensures grows { WorkGrows history.now work.old work.new }
    ensures out { result ≡ Err Stop.OutOfSteps → work.new.counter.used ≡ work.new.counter.limit }
{
    let mut learnt = Learnt::new(work.bank.alloc());
    let new = rewritten(work, history, hints, rules, &mut learnt, assumed, t)?;
    let line = line_of(work, history, assumed, t, new)?;
    Ok((new.term, line))
}

/// The line of a rewriting.
fn line_of(
    work: &mut Work,
    history: &History,
    assumed: &[TermId],
    t: TermId,
    new: Rewritten,
) -> Result<u64, Stop>
    requires can { CanRewrite history.now work.old assumed.now t }
    requires new { IsRewritten history.now work.old (terms_at work.old.bank assumed.now) (term_at work.old.bank t) new }
    ensures line { IfOk result (λ n. ShowsEqual work.new n (terms_at work.old.bank assumed.now) (term_at work.old.bank t) (term_at work.old.bank new.term)) }
    ensures grows { WorkGrows history.now work.old work.new }
    ensures out { result ≡ Err Stop.OutOfSteps → work.new.counter.used ≡ work.new.counter.limit }
{
    match new.line {
        Some(n) => Ok(n),
        None => reflexive(work, history, t),
    }
}
