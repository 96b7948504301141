//! Rewriting a call by the opening of its function. An opening that is not worth it is dropped.
ghost use Rattle.std.specs.Prelude.{◌≡◌, ◌≤◌, IfOk, Err};
ghost use Rattle.nq_logic.specs.Sizes.{depth_limit};
ghost use Rattle.nq_bank.specs.Content.{term_at, terms_at};
ghost use Rattle.nq_kernel.specs.Growing.{WorkGrows};
ghost use Rattle.nq_reduce.specs.Rewriting.{CanRewrite, IsRewritten};

use crate::outside::rewrite_on;
use crate::rewriting::rewrite_term;
use crate::search::Search;
use crate::selecting::rewrite_selection;
use crate::way::{Way, is_opened, keeps, opening_more, recursive_function};
use nq_bank::{Sym, TermId};
use nq_history::History;
use nq_kernel::{Stop, Work};
use nq_reduce::{Rewritten, follow, opening_of, unchanged};

/// Rewrites a term by its opening, if it is opened.
#[cycle(rewriting)]
pub fn rewrite_by_opening(
    work: &mut Work,
    history: &History,
    way: &Way<'_>,
    search: &mut Search,
    assumed: &[TermId],
    depth: u32,
    t: TermId,
) -> Result<Rewritten, Stop>
    requires depth { depth ≤ depth_limit }
    requires can { CanRewrite history.now work.old assumed.now t }
    ensures ok { IfOk result (λ r. IsRewritten history.now work.new (terms_at work.old.bank assumed.now) (term_at work.old.bank t) r) }
    ensures grows { WorkGrows history.now work.old work.new }
    ensures out { result ≡ Err Stop.OutOfSteps → work.new.counter.used ≡ work.new.counter.limit }
{
    if is_opened(&work.bank, history, way, search, assumed, t) {
        rewrite_opening(work, history, way, search, assumed, depth, t)
    } else {
        rewrite_selection(work, history, way, search, assumed, depth, t)
    }
}

/// Rewrites a term by its opening.
#[cycle(rewriting)]
pub fn rewrite_opening(
    work: &mut Work,
    history: &History,
    way: &Way<'_>,
    search: &mut Search,
    assumed: &[TermId],
    depth: u32,
    t: TermId,
) -> Result<Rewritten, Stop>
    requires depth { depth ≤ depth_limit }
    requires can { CanRewrite history.now work.old assumed.now t }
    ensures ok { IfOk result (λ r. IsRewritten history.now work.new (terms_at work.old.bank assumed.now) (term_at work.old.bank t) r) }
    ensures grows { WorkGrows history.now work.old work.new }
    ensures out { result ≡ Err Stop.OutOfSteps → work.new.counter.used ≡ work.new.counter.limit }
{
    let step = opening_of(work, history, assumed, t)?;
    match recursive_function(&work.bank, history, t) {
        Some(f) => rewrite_body(work, history, way, search, assumed, depth, t, step, f),
        None => rewrite_on(work, history, way, search, assumed, depth, t, step),
    }
}

/// Rewrites the body of a recursive function.
#[cycle(rewriting)]
fn rewrite_body(
    work: &mut Work,
    history: &History,
    way: &Way<'_>,
    search: &mut Search,
    assumed: &[TermId],
    depth: u32,
    t: TermId,
    step: Rewritten,
    f: Sym,
) -> Result<Rewritten, Stop>
    requires depth { depth ≤ depth_limit }
    requires can { CanRewrite history.now work.old assumed.now t }
    requires step { IsRewritten history.now work.old (terms_at work.old.bank assumed.now) (term_at work.old.bank t) step }
    ensures ok { IfOk result (λ r. IsRewritten history.now work.new (terms_at work.old.bank assumed.now) (term_at work.old.bank t) r) }
    ensures grows { WorkGrows history.now work.old work.new }
    ensures out { result ≡ Err Stop.OutOfSteps → work.new.counter.used ≡ work.new.counter.limit }
{
    let within = opening_more(way, &work.bank, f, t, false)?;
    let body = rewrite_term(
        work,
        history,
        &within,
        search,
        assumed,
        depth + 1,
        step.term,
    )?;
    rewrite_opened(work, history, way, search, assumed, depth, t, step, f, body)
}

/// Rewrites what came of the body of a recursive function, and drops the opening where it is not worth it.
#[cycle(rewriting)]
fn rewrite_opened(
    work: &mut Work,
    history: &History,
    way: &Way<'_>,
    search: &mut Search,
    assumed: &[TermId],
    depth: u32,
    t: TermId,
    step: Rewritten,
    f: Sym,
    body: Rewritten,
) -> Result<Rewritten, Stop>
    requires depth { depth ≤ depth_limit }
    requires can { CanRewrite history.now work.old assumed.now t }
    requires step { IsRewritten history.now work.old (terms_at work.old.bank assumed.now) (term_at work.old.bank t) step }
    requires body { IsRewritten history.now work.old (terms_at work.old.bank assumed.now) (term_at work.old.bank step.term) body }
    ensures ok { IfOk result (λ r. IsRewritten history.now work.new (terms_at work.old.bank assumed.now) (term_at work.old.bank t) r) }
    ensures grows { WorkGrows history.now work.old work.new }
    ensures out { result ≡ Err Stop.OutOfSteps → work.new.counter.used ≡ work.new.counter.limit }
{
    let kept = keeps(&work.bank, history, way, search, assumed, f, t, body.term)?;
    if !kept {
        return Ok(unchanged(t));
    }
    let whole = follow(work, history, assumed, t, step, body)?;
    rewrite_on(work, history, way, search, assumed, depth, t, whole)
}
