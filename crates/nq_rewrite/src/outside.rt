//! Rewriting a call whose arguments were rewritten: IFs are taken out of it; then by what is assumed, and by rules.
ghost use Rattle.std.specs.Prelude.{◌≡◌, ◌≤◌, IfOk, Err};
ghost use Rattle.nq_logic.specs.Sizes.{depth_limit};
ghost use Rattle.nq_bank.specs.Content.{term_at, terms_at};
ghost use Rattle.nq_kernel.specs.Growing.{WorkGrows};
ghost use Rattle.nq_reduce.specs.Held.{IsHeld};
ghost use Rattle.nq_reduce.specs.Rewriting.{CanRewrite, IsRewritten};

use crate::differences::reduce_numbered;
use crate::opening::rewrite_by_opening;
use crate::reducing::try_rules;
use crate::remaking::rewrite_remade;
use crate::rewriting::rewrite_term;
use crate::search::Search;
use crate::steps::lifted_test;
use crate::testing::rewrite_divided;
use crate::way::{Way, is_bad};
use nq_bank::TermId;
use nq_history::History;
use nq_kernel::{Stop, Work};
use nq_lines::Fact;
use nq_reduce::{Rewritten, follow, rewritten_by, unchanged};

/// Rewrites a term whose arguments were rewritten, and then what comes of it.
#[cycle(rewriting)]
pub fn rewrite_outside(
    work: &mut Work,
    history: &History,
    way: &Way<'_>,
    search: &mut Search,
    assumed: &[TermId],
    depth: u32,
    t: TermId,
) -> Result<Rewritten, Stop>
    requires depth { depth ≤ depth_limit }
    requires can { CanRewrite history.now work.old assumed.now t }
    ensures ok { IfOk result (λ r. IsRewritten history.now work.new (terms_at work.old.bank assumed.now) (term_at work.old.bank t) r) }
    ensures grows { WorkGrows history.now work.old work.new }
    ensures out { result ≡ Err Stop.OutOfSteps → work.new.counter.used ≡ work.new.counter.limit }
{
    match lifted_test(work, history, assumed, t) {
        Some(p) => rewrite_divided(work, history, way, search, assumed, depth, t, p),
        None => rewrite_call(work, history, way, search, assumed, depth, t),
    }
}

/// Rewrites a term by a single step, and then what comes of it; where there is none, by a rule or an opening.
#[cycle(rewriting)]
fn rewrite_call(
    work: &mut Work,
    history: &History,
    way: &Way<'_>,
    search: &mut Search,
    assumed: &[TermId],
    depth: u32,
    t: TermId,
) -> Result<Rewritten, Stop>
    requires depth { depth ≤ depth_limit }
    requires can { CanRewrite history.now work.old assumed.now t }
    ensures ok { IfOk result (λ r. IsRewritten history.now work.new (terms_at work.old.bank assumed.now) (term_at work.old.bank t) r) }
    ensures grows { WorkGrows history.now work.old work.new }
    ensures out { result ≡ Err Stop.OutOfSteps → work.new.counter.used ≡ work.new.counter.limit }
{
    let step = reduce_numbered(work, history, way.hints, assumed, t)?;
    match step.line {
        Some(_) => rewrite_on(work, history, way, search, assumed, depth, t, step),
        None => rewrite_remade(work, history, way, search, assumed, depth, t),
    }
}

/// Rewrites what a term was rewritten to.
#[cycle(rewriting)]
pub fn rewrite_on(
    work: &mut Work,
    history: &History,
    way: &Way<'_>,
    search: &mut Search,
    assumed: &[TermId],
    depth: u32,
    t: TermId,
    step: Rewritten,
) -> Result<Rewritten, Stop>
    requires depth { depth ≤ depth_limit }
    requires can { CanRewrite history.now work.old assumed.now t }
    requires step { IsRewritten history.now work.old (terms_at work.old.bank assumed.now) (term_at work.old.bank t) step }
    ensures ok { IfOk result (λ r. IsRewritten history.now work.new (terms_at work.old.bank assumed.now) (term_at work.old.bank t) r) }
    ensures grows { WorkGrows history.now work.old work.new }
    ensures out { result ≡ Err Stop.OutOfSteps → work.new.counter.used ≡ work.new.counter.limit }
{
    let rest = rewrite_term(work, history, way, search, assumed, depth + 1, step.term)?;
    follow(work, history, assumed, t, step, rest)
}

/// Rewrites a term by a rule or an opening. A call that makes an opening not worth it gives that up.
#[cycle(rewriting)]
pub fn rewrite_further(
    work: &mut Work,
    history: &History,
    way: &Way<'_>,
    search: &mut Search,
    assumed: &[TermId],
    depth: u32,
    t: TermId,
) -> Result<Rewritten, Stop>
    requires depth { depth ≤ depth_limit }
    requires can { CanRewrite history.now work.old assumed.now t }
    ensures ok { IfOk result (λ r. IsRewritten history.now work.new (terms_at work.old.bank assumed.now) (term_at work.old.bank t) r) }
    ensures grows { WorkGrows history.now work.old work.new }
    ensures out { result ≡ Err Stop.OutOfSteps → work.new.counter.used ≡ work.new.counter.limit }
{
    if is_bad(&work.bank, history, way, t) {
        search.give_up();
        return Ok(unchanged(t));
    }
    match try_rules(work, history, way, search, assumed, depth, t, false)? {
        Some(fact) => rewrite_by_fact(work, history, way, search, assumed, depth, t, fact),
        None => rewrite_by_opening(work, history, way, search, assumed, depth, t),
    }
}

/// Rewrites a term by a shown one, and then what comes of it; where that says nothing of it, by an opening.
#[cycle(rewriting)]
fn rewrite_by_fact(
    work: &mut Work,
    history: &History,
    way: &Way<'_>,
    search: &mut Search,
    assumed: &[TermId],
    depth: u32,
    t: TermId,
    fact: Fact,
) -> Result<Rewritten, Stop>
    requires depth { depth ≤ depth_limit }
    requires can { CanRewrite history.now work.old assumed.now t }
    requires fact { IsHeld history.now work.old (terms_at work.old.bank assumed.now) fact }
    ensures ok { IfOk result (λ r. IsRewritten history.now work.new (terms_at work.old.bank assumed.now) (term_at work.old.bank t) r) }
    ensures grows { WorkGrows history.now work.old work.new }
    ensures out { result ≡ Err Stop.OutOfSteps → work.new.counter.used ≡ work.new.counter.limit }
{
    let step = rewritten_by(work, history, assumed, fact, t)?;
    match step.line {
        Some(_) => rewrite_on(work, history, way, search, assumed, depth, t, step),
        None => rewrite_by_opening(work, history, way, search, assumed, depth, t),
    }
}
