//! The recursion of the rewriter: the arguments first, then the call. It goes on in `testing`, `outside` and `opening`.
ghost use Rattle.std.specs.Prelude.{◌≡◌, ◌≤◌, IfOk, Err};
ghost use Rattle.nq_logic.specs.Sizes.{depth_limit};
ghost use Rattle.nq_bank.specs.Content.{term_at, terms_at};
ghost use Rattle.nq_kernel.specs.Growing.{WorkGrows};
ghost use Rattle.nq_reduce.specs.Rewriting.{CanRewrite, IsRewritten};

use crate::opening::rewrite_opening;
use crate::outside::rewrite_outside;
use crate::search::Search;
use crate::selecting::rewrite_asked;
use crate::testing::rewrite_if;
use crate::way::{Way, is_settled, opens_first, settle};
use nq_bank::TermId;
use nq_history::History;
use nq_instances::if_parts_of;
use nq_kernel::{Stop, Work};
use nq_reduce::{Rewritten, argument_count, argument_of, congruent, follow, unchanged};

/// Rewrites a term that is nested in so many others.
#[cycle(rewriting)]
pub fn rewrite_term(
    work: &mut Work,
    history: &History,
    way: &Way<'_>,
    search: &mut Search,
    assumed: &[TermId],
    depth: u32,
    t: TermId,
) -> Result<Rewritten, Stop>
    requires can { CanRewrite history.now work.old assumed.now t }
    ensures ok { IfOk result (λ r. IsRewritten history.now work.new (terms_at work.old.bank assumed.now) (term_at work.old.bank t) r) }
    ensures grows { WorkGrows history.now work.old work.new }
    ensures out { result ≡ Err Stop.OutOfSteps → work.new.counter.used ≡ work.new.counter.limit }
{
    if is_settled(&work.bank, way, search, assumed, depth, t) {
        return Ok(unchanged(t));
    }
    let _ = work.counter.used();
    work.enter(depth)?;
    rewrite_entered(work, history, way, search, assumed, depth, t)
}

/// Rewrites a term after the entry was counted.
#[cycle(rewriting)]
fn rewrite_entered(
    work: &mut Work,
    history: &History,
    way: &Way<'_>,
    search: &mut Search,
    assumed: &[TermId],
    depth: u32,
    t: TermId,
) -> Result<Rewritten, Stop>
    requires depth { depth ≤ depth_limit }
    requires can { CanRewrite history.now work.old assumed.now t }
    ensures ok { IfOk result (λ r. IsRewritten history.now work.new (terms_at work.old.bank assumed.now) (term_at work.old.bank t) r) }
    ensures grows { WorkGrows history.now work.old work.new }
    ensures out { result ≡ Err Stop.OutOfSteps → work.new.counter.used ≡ work.new.counter.limit }
{
    let outer = search.enter();
    let inside = rewrite_inside(work, history, way, search, assumed, depth, t)?;
    let outside = rewrite_outside(work, history, way, search, assumed, depth, inside.term)?;
    let new = follow(work, history, assumed, t, inside, outside)?;
    settle(&work.bank, way, search, assumed, new.term)?;
    search.leave(outer);
    Ok(new)
}

/// Rewrites what stands within a term. A connective is opened first, so that each of its parts is rewritten where those before it
/// are assumed.
#[cycle(rewriting)]
fn rewrite_inside(
    work: &mut Work,
    history: &History,
    way: &Way<'_>,
    search: &mut Search,
    assumed: &[TermId],
    depth: u32,
    t: TermId,
) -> Result<Rewritten, Stop>
    requires depth { depth ≤ depth_limit }
    requires can { CanRewrite history.now work.old assumed.now t }
    ensures ok { IfOk result (λ r. IsRewritten history.now work.new (terms_at work.old.bank assumed.now) (term_at work.old.bank t) r) }
    ensures grows { WorkGrows history.now work.old work.new }
    ensures out { result ≡ Err Stop.OutOfSteps → work.new.counter.used ≡ work.new.counter.limit }
{
    match if_parts_of(work, history, t) {
        Some(parts) => rewrite_if(work, history, way, search, assumed, depth, t, parts),
        None => rewrite_asked(work, history, way, search, assumed, depth, t),
    }
}

/// Rewrites the arguments of a call, or what comes of it where it is a connective.
#[cycle(rewriting)]
pub fn rewrite_parts(
    work: &mut Work,
    history: &History,
    way: &Way<'_>,
    search: &mut Search,
    assumed: &[TermId],
    depth: u32,
    t: TermId,
) -> Result<Rewritten, Stop>
    requires depth { depth ≤ depth_limit }
    requires can { CanRewrite history.now work.old assumed.now t }
    ensures ok { IfOk result (λ r. IsRewritten history.now work.new (terms_at work.old.bank assumed.now) (term_at work.old.bank t) r) }
    ensures grows { WorkGrows history.now work.old work.new }
    ensures out { result ≡ Err Stop.OutOfSteps → work.new.counter.used ≡ work.new.counter.limit }
{
    if opens_first(&work.bank, way, t) {
        rewrite_opening(work, history, way, search, assumed, depth, t)
    } else {
        rewrite_arguments(work, history, way, search, assumed, depth, t)
    }
}

/// Rewrites the arguments of a call, from the first on.
#[cycle(rewriting)]
fn rewrite_arguments(
    work: &mut Work,
    history: &History,
    way: &Way<'_>,
    search: &mut Search,
    assumed: &[TermId],
    depth: u32,
    t: TermId,
) -> Result<Rewritten, Stop>
    requires depth { depth ≤ depth_limit }
    requires can { CanRewrite history.now work.old assumed.now t }
    ensures ok { IfOk result (λ r. IsRewritten history.now work.new (terms_at work.old.bank assumed.now) (term_at work.old.bank t) r) }
    ensures grows { WorkGrows history.now work.old work.new }
    ensures out { result ≡ Err Stop.OutOfSteps → work.new.counter.used ≡ work.new.counter.limit }
{
    let count = argument_count(&work.bank, t);
    let mut so_far = unchanged(t);
    for place in 0..count {
        let more = rewrite_argument(
            work,
            history,
            way,
            search,
            assumed,
            depth,
            so_far.term,
            place + 1,
        )?;
        so_far = follow(work, history, assumed, t, so_far, more)?;
    }
    Ok(so_far)
}

/// Rewrites one argument of a call, if it has one at this place.
#[cycle(rewriting)]
fn rewrite_argument(
    work: &mut Work,
    history: &History,
    way: &Way<'_>,
    search: &mut Search,
    assumed: &[TermId],
    depth: u32,
    t: TermId,
    place: usize,
) -> Result<Rewritten, Stop>
    requires depth { depth ≤ depth_limit }
    requires can { CanRewrite history.now work.old assumed.now t }
    ensures ok { IfOk result (λ r. IsRewritten history.now work.new (terms_at work.old.bank assumed.now) (term_at work.old.bank t) r) }
    ensures grows { WorkGrows history.now work.old work.new }
    ensures out { result ≡ Err Stop.OutOfSteps → work.new.counter.used ≡ work.new.counter.limit }
{
    match argument_of(work, history, t, place) {
        Some(a) => {
            let new = rewrite_term(work, history, way, search, assumed, depth + 1, a)?;
            congruent(work, history, assumed, t, place, a, new)
        }
        None => Ok(unchanged(t)),
    }
}
