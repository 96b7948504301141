//! Rewriting `(ADD1 (SUB1 N))` to N, where N is known to be a number and rules show that it is not 0.
ghost use Rattle.std.specs.Prelude.{◌≡◌, ◌≤◌, IfOk, Err};
ghost use Rattle.nq_logic.specs.Sizes.{depth_limit};
ghost use Rattle.nq_bank.specs.Content.{term_at, terms_at};
ghost use Rattle.nq_kernel.specs.Growing.{WorkGrows};
ghost use Rattle.nq_lines.specs.Lines.{IsTermIn};
ghost use Rattle.nq_reduce.specs.Held.{IsHeld};
ghost use Rattle.nq_reduce.specs.Rewriting.{CanRewrite, IsRewritten};

use crate::kinded::reduce_under;
use crate::outside::{rewrite_further, rewrite_on};
use crate::reducing::relieve;
use crate::remade::{above_zero, remade_number};
use crate::search::Search;
use crate::way::Way;
use nq_bank::TermId;
use nq_history::History;
use nq_kernel::{Stop, Work};
use nq_lines::Fact;
use nq_reduce::Rewritten;

/// Rewrites a term of which there is no single step: a number that is made of its own part, or else by a rule or an opening.
#[cycle(rewriting)]
pub fn rewrite_remade(
    work: &mut Work,
    history: &History,
    way: &Way<'_>,
    search: &mut Search,
    assumed: &[TermId],
    depth: u32,
    t: TermId,
) -> Result<Rewritten, Stop>
    requires depth { depth ≤ depth_limit }
    requires can { CanRewrite history.now work.old assumed.now t }
    ensures ok { IfOk result (λ r. IsRewritten history.now work.new (terms_at work.old.bank assumed.now) (term_at work.old.bank t) r) }
    ensures grows { WorkGrows history.now work.old work.new }
    ensures out { result ≡ Err Stop.OutOfSteps → work.new.counter.used ≡ work.new.counter.limit }
{
    match remade_number(work, history, t) {
        Some(n) => rewrite_remade_number(work, history, way, search, assumed, depth, t, n),
        None => rewrite_further(work, history, way, search, assumed, depth, t),
    }
}

/// The same, of a number that is made of the part of this one.
#[cycle(rewriting)]
fn rewrite_remade_number(
    work: &mut Work,
    history: &History,
    way: &Way<'_>,
    search: &mut Search,
    assumed: &[TermId],
    depth: u32,
    t: TermId,
    n: TermId,
) -> Result<Rewritten, Stop>
    requires depth { depth ≤ depth_limit }
    requires can { CanRewrite history.now work.old assumed.now t }
    requires number { IsTermIn history.now work.old n }
    ensures ok { IfOk result (λ r. IsRewritten history.now work.new (terms_at work.old.bank assumed.now) (term_at work.old.bank t) r) }
    ensures grows { WorkGrows history.now work.old work.new }
    ensures out { result ≡ Err Stop.OutOfSteps → work.new.counter.used ≡ work.new.counter.limit }
{
    let test = above_zero(work, history, n)?;
    rewrite_where(work, history, way, search, assumed, depth, t, test)
}

/// The same, where it is that number if this test holds.
#[cycle(rewriting)]
fn rewrite_where(
    work: &mut Work,
    history: &History,
    way: &Way<'_>,
    search: &mut Search,
    assumed: &[TermId],
    depth: u32,
    t: TermId,
    test: TermId,
) -> Result<Rewritten, Stop>
    requires depth { depth ≤ depth_limit }
    requires can { CanRewrite history.now work.old assumed.now t }
    requires test { IsTermIn history.now work.old test }
    ensures ok { IfOk result (λ r. IsRewritten history.now work.new (terms_at work.old.bank assumed.now) (term_at work.old.bank t) r) }
    ensures grows { WorkGrows history.now work.old work.new }
    ensures out { result ≡ Err Stop.OutOfSteps → work.new.counter.used ≡ work.new.counter.limit }
{
    match relieve(work, history, way, search, assumed, depth, test)? {
        Some(shown) => rewrite_shown(work, history, way, search, assumed, depth, t, shown),
        None => rewrite_further(work, history, way, search, assumed, depth, t),
    }
}

/// The same, where a line shows the test.
#[cycle(rewriting)]
fn rewrite_shown(
    work: &mut Work,
    history: &History,
    way: &Way<'_>,
    search: &mut Search,
    assumed: &[TermId],
    depth: u32,
    t: TermId,
    shown: Fact,
) -> Result<Rewritten, Stop>
    requires depth { depth ≤ depth_limit }
    requires can { CanRewrite history.now work.old assumed.now t }
    requires shown { IsHeld history.now work.old (terms_at work.old.bank assumed.now) shown }
    ensures ok { IfOk result (λ r. IsRewritten history.now work.new (terms_at work.old.bank assumed.now) (term_at work.old.bank t) r) }
    ensures grows { WorkGrows history.now work.old work.new }
    ensures out { result ≡ Err Stop.OutOfSteps → work.new.counter.used ≡ work.new.counter.limit }
{
    let step = reduce_under(work, history, assumed, t, 0, shown)?;
    match step.line {
        Some(_) => rewrite_on(work, history, way, search, assumed, depth, t, step),
        None => rewrite_further(work, history, way, search, assumed, depth, t),
    }
}
