//! Rewriting an IF: its test, then the branch that is taken, or both, each under the test or its NOT. An IF whose test is an IF is
//! divided by the test of that one.
ghost use Rattle.std.specs.Prelude.{◌≡◌, ◌≤◌, ◌∷◌, IfOk, IfSome, Err};
ghost use Rattle.nq_logic.specs.Sizes.{depth_limit};
ghost use Rattle.nq_bank.specs.Content.{term_at, terms_at};
ghost use Rattle.nq_kernel.specs.Growing.{WorkGrows};
ghost use Rattle.nq_instances.specs.Parts.{IsIfOf};
ghost use Rattle.nq_lines.specs.Lines.{IsTermIn};
ghost use Rattle.nq_reduce.specs.Rewriting.{CanRewrite, IsKnown, IsRewritten};

use crate::arithmetic::known_by_arithmetic;
use crate::conditions::{TestLaw, by_test_law};
use crate::outside::rewrite_on;
use crate::reducing::try_rules;
use crate::rewriting::rewrite_term;
use crate::search::Search;
use crate::steps::{doubled, known_by_fact, test_of, undoubled, with_test};
use crate::terms::is_call_of;
use crate::way::{Way, is_idle};
use nq_bank::{TermId, ground};
use nq_history::History;
use nq_instances::if_parts_of;
use nq_kernel::{Stop, Work};
use nq_lines::deny;
use nq_reduce::{Known, Rewritten, choose, follow, join, settled, unchanged, with_more};
use nq_rule::Branches;

/// Rewrites the test of an IF, and then its branches.
#[cycle(rewriting)]
pub fn rewrite_if(
    work: &mut Work,
    history: &History,
    way: &Way<'_>,
    search: &mut Search,
    assumed: &[TermId],
    depth: u32,
    t: TermId,
    parts: Branches,
) -> Result<Rewritten, Stop>
    requires depth { depth ≤ depth_limit }
    requires can { CanRewrite history.now work.old assumed.now t }
    requires parts { IsIfOf history.now work.old t parts }
    ensures ok { IfOk result (λ r. IsRewritten history.now work.new (terms_at work.old.bank assumed.now) (term_at work.old.bank t) r) }
    ensures grows { WorkGrows history.now work.old work.new }
    ensures out { result ≡ Err Stop.OutOfSteps → work.new.counter.used ≡ work.new.counter.limit }
{
    if is_call_of(&work.bank, ground::NOT, parts.test) {
        return rewrite_turned(work, history, way, search, assumed, depth, t);
    }
    let test = rewrite_term(work, history, way, search, assumed, depth + 1, parts.test)?;
    rewrite_tested(work, history, way, search, assumed, depth, t, parts, test)
}

/// Rewrites an IF whose test is a NOT by the IF of what that denies.
#[cycle(rewriting)]
fn rewrite_turned(
    work: &mut Work,
    history: &History,
    way: &Way<'_>,
    search: &mut Search,
    assumed: &[TermId],
    depth: u32,
    t: TermId,
) -> Result<Rewritten, Stop>
    requires depth { depth ≤ depth_limit }
    requires can { CanRewrite history.now work.old assumed.now t }
    ensures ok { IfOk result (λ r. IsRewritten history.now work.new (terms_at work.old.bank assumed.now) (term_at work.old.bank t) r) }
    ensures grows { WorkGrows history.now work.old work.new }
    ensures out { result ≡ Err Stop.OutOfSteps → work.new.counter.used ≡ work.new.counter.limit }
{
    let step = by_test_law(work, history, search, assumed, TestLaw::Turned, t)?;
    match step.line {
        Some(_) => rewrite_on(work, history, way, search, assumed, depth, t, step),
        None => Ok(step),
    }
}

/// Rewrites the branches of an IF whose test was rewritten: the one that is taken, or both.
#[cycle(rewriting)]
fn rewrite_tested(
    work: &mut Work,
    history: &History,
    way: &Way<'_>,
    search: &mut Search,
    assumed: &[TermId],
    depth: u32,
    t: TermId,
    parts: Branches,
    test: Rewritten,
) -> Result<Rewritten, Stop>
    requires depth { depth ≤ depth_limit }
    requires can { CanRewrite history.now work.old assumed.now t }
    requires parts { IsIfOf history.now work.old t parts }
    requires test { IsRewritten history.now work.old (terms_at work.old.bank assumed.now) (term_at work.old.bank parts.test) test }
    ensures ok { IfOk result (λ r. IsRewritten history.now work.new (terms_at work.old.bank assumed.now) (term_at work.old.bank t) r) }
    ensures grows { WorkGrows history.now work.old work.new }
    ensures out { result ≡ Err Stop.OutOfSteps → work.new.counter.used ≡ work.new.counter.limit }
{
    match known_test(work, history, way, search, assumed, depth, test.term)? {
        Some(known) => rewrite_chosen(
            work, history, way, search, assumed, depth, t, parts, test, known,
        ),
        None => rewrite_unknown(work, history, way, search, assumed, depth, t, parts, test),
    }
}

/// What is known of a test, also by rules that say that it is true, and by linear arithmetic.
#[cycle(rewriting)]
pub fn known_test(
    work: &mut Work,
    history: &History,
    way: &Way<'_>,
    search: &mut Search,
    assumed: &[TermId],
    depth: u32,
    t: TermId,
) -> Result<Option<Known>, Stop>
    requires depth { depth ≤ depth_limit }
    requires can { CanRewrite history.now work.old assumed.now t }
    ensures known { IfOk result (λ found. IfSome found (λ k. IsKnown work.new (terms_at work.old.bank assumed.now) (term_at work.old.bank t) k)) }
    ensures grows { WorkGrows history.now work.old work.new }
    ensures out { result ≡ Err Stop.OutOfSteps → work.new.counter.used ≡ work.new.counter.limit }
{
    match settled(work, history, assumed, t)? {
        Some(known) => Ok(Some(known)),
        None => known_by_rules(work, history, way, search, assumed, depth, t),
    }
}

/// What is known of a test by rules that say that it is true, or by linear arithmetic.
#[cycle(rewriting)]
fn known_by_rules(
    work: &mut Work,
    history: &History,
    way: &Way<'_>,
    search: &mut Search,
    assumed: &[TermId],
    depth: u32,
    t: TermId,
) -> Result<Option<Known>, Stop>
    requires depth { depth ≤ depth_limit }
    requires can { CanRewrite history.now work.old assumed.now t }
    ensures known { IfOk result (λ found. IfSome found (λ k. IsKnown work.new (terms_at work.old.bank assumed.now) (term_at work.old.bank t) k)) }
    ensures grows { WorkGrows history.now work.old work.new }
    ensures out { result ≡ Err Stop.OutOfSteps → work.new.counter.used ≡ work.new.counter.limit }
{
    match try_rules(work, history, way, search, assumed, depth, t, true)? {
        Some(fact) => Ok(known_by_fact(work, history, assumed, fact, t)),
        None => known_by_arithmetic(work, history, way, search, assumed, t),
    }
}

/// Rewrites the branch of an IF that its test takes.
#[cycle(rewriting)]
fn rewrite_chosen(
    work: &mut Work,
    history: &History,
    way: &Way<'_>,
    search: &mut Search,
    assumed: &[TermId],
    depth: u32,
    t: TermId,
    parts: Branches,
    test: Rewritten,
    known: Known,
) -> Result<Rewritten, Stop>
    requires depth { depth ≤ depth_limit }
    requires can { CanRewrite history.now work.old assumed.now t }
    requires parts { IsIfOf history.now work.old t parts }
    requires test { IsRewritten history.now work.old (terms_at work.old.bank assumed.now) (term_at work.old.bank parts.test) test }
    requires known { IsKnown work.old (terms_at work.old.bank assumed.now) (term_at work.old.bank test.term) known }
    ensures ok { IfOk result (λ r. IsRewritten history.now work.new (terms_at work.old.bank assumed.now) (term_at work.old.bank t) r) }
    ensures grows { WorkGrows history.now work.old work.new }
    ensures out { result ≡ Err Stop.OutOfSteps → work.new.counter.used ≡ work.new.counter.limit }
{
    let branch = choose(work, history, assumed, t, parts, test, known)?;
    let rest = rewrite_term(work, history, way, search, assumed, depth + 1, branch.term)?;
    follow(work, history, assumed, t, branch, rest)
}

/// Rewrites an IF whose test is not known, where its branches are worth it.
#[cycle(rewriting)]
fn rewrite_unknown(
    work: &mut Work,
    history: &History,
    way: &Way<'_>,
    search: &mut Search,
    assumed: &[TermId],
    depth: u32,
    t: TermId,
    parts: Branches,
    test: Rewritten,
) -> Result<Rewritten, Stop>
    requires depth { depth ≤ depth_limit }
    requires can { CanRewrite history.now work.old assumed.now t }
    requires parts { IsIfOf history.now work.old t parts }
    requires test { IsRewritten history.now work.old (terms_at work.old.bank assumed.now) (term_at work.old.bank parts.test) test }
    ensures ok { IfOk result (λ r. IsRewritten history.now work.new (terms_at work.old.bank assumed.now) (term_at work.old.bank t) r) }
    ensures grows { WorkGrows history.now work.old work.new }
    ensures out { result ≡ Err Stop.OutOfSteps → work.new.counter.used ≡ work.new.counter.limit }
{
    if is_idle(&work.bank, way, search, parts) {
        return Ok(unchanged(t));
    }
    match test_of(work, history, assumed, test.term) {
        Some(p) => rewrite_nested(
            work, history, way, search, assumed, depth, t, parts, test, p,
        ),
        None => rewrite_joined(work, history, way, search, assumed, depth, t, parts, test),
    }
}

/// Rewrites an IF whose test is an IF, by the test of that one.
#[cycle(rewriting)]
fn rewrite_nested(
    work: &mut Work,
    history: &History,
    way: &Way<'_>,
    search: &mut Search,
    assumed: &[TermId],
    depth: u32,
    t: TermId,
    parts: Branches,
    test: Rewritten,
    p: TermId,
) -> Result<Rewritten, Stop>
    requires depth { depth ≤ depth_limit }
    requires can { CanRewrite history.now work.old assumed.now t }
    requires parts { IsIfOf history.now work.old t parts }
    requires test { IsRewritten history.now work.old (terms_at work.old.bank assumed.now) (term_at work.old.bank parts.test) test }
    requires by { IsTermIn history.now work.old p }
    ensures ok { IfOk result (λ r. IsRewritten history.now work.new (terms_at work.old.bank assumed.now) (term_at work.old.bank t) r) }
    ensures grows { WorkGrows history.now work.old work.new }
    ensures out { result ≡ Err Stop.OutOfSteps → work.new.counter.used ≡ work.new.counter.limit }
{
    let whole = with_test(work, history, assumed, t, parts, test)?;
    let rest = rewrite_spread(work, history, way, search, assumed, depth, whole.term, p)?;
    follow(work, history, assumed, t, whole, rest)
}

/// Rewrites an IF whose test is an IF by the law of such IFs, or else divided by the test of that one.
#[cycle(rewriting)]
fn rewrite_spread(
    work: &mut Work,
    history: &History,
    way: &Way<'_>,
    search: &mut Search,
    assumed: &[TermId],
    depth: u32,
    t: TermId,
    p: TermId,
) -> Result<Rewritten, Stop>
    requires depth { depth ≤ depth_limit }
    requires can { CanRewrite history.now work.old assumed.now t }
    requires by { IsTermIn history.now work.old p }
    ensures ok { IfOk result (λ r. IsRewritten history.now work.new (terms_at work.old.bank assumed.now) (term_at work.old.bank t) r) }
    ensures grows { WorkGrows history.now work.old work.new }
    ensures out { result ≡ Err Stop.OutOfSteps → work.new.counter.used ≡ work.new.counter.limit }
{
    let step = by_test_law(work, history, search, assumed, TestLaw::Nested, t)?;
    match step.line {
        Some(_) => rewrite_on(work, history, way, search, assumed, depth, t, step),
        None => rewrite_divided(work, history, way, search, assumed, depth, t, p),
    }
}

/// Rewrites a term where a test is true and where it is false, and joins the two.
#[cycle(rewriting)]
pub fn rewrite_divided(
    work: &mut Work,
    history: &History,
    way: &Way<'_>,
    search: &mut Search,
    assumed: &[TermId],
    depth: u32,
    t: TermId,
    p: TermId,
) -> Result<Rewritten, Stop>
    requires depth { depth ≤ depth_limit }
    requires can { CanRewrite history.now work.old assumed.now t }
    requires by { IsTermIn history.now work.old p }
    ensures ok { IfOk result (λ r. IsRewritten history.now work.new (terms_at work.old.bank assumed.now) (term_at work.old.bank t) r) }
    ensures grows { WorkGrows history.now work.old work.new }
    ensures out { result ≡ Err Stop.OutOfSteps → work.new.counter.used ≡ work.new.counter.limit }
{
    let whole = doubled(work, history, assumed, t, p)?;
    match if_parts_of(work, history, whole.term) {
        Some(parts) => rewrite_doubled(work, history, way, search, assumed, depth, t, whole, parts),
        None => Ok(unchanged(t)),
    }
}

/// Rewrites a term that was written as an IF of two equal branches.
#[cycle(rewriting)]
fn rewrite_doubled(
    work: &mut Work,
    history: &History,
    way: &Way<'_>,
    search: &mut Search,
    assumed: &[TermId],
    depth: u32,
    t: TermId,
    step: Rewritten,
    parts: Branches,
) -> Result<Rewritten, Stop>
    requires depth { depth ≤ depth_limit }
    requires can { CanRewrite history.now work.old assumed.now t }
    requires step { IsRewritten history.now work.old (terms_at work.old.bank assumed.now) (term_at work.old.bank t) step }
    requires parts { IsIfOf history.now work.old step.term parts }
    ensures ok { IfOk result (λ r. IsRewritten history.now work.new (terms_at work.old.bank assumed.now) (term_at work.old.bank t) r) }
    ensures grows { WorkGrows history.now work.old work.new }
    ensures out { result ≡ Err Stop.OutOfSteps → work.new.counter.used ≡ work.new.counter.limit }
{
    let rest = rewrite_joined(
        work,
        history,
        way,
        search,
        assumed,
        depth,
        step.term,
        parts,
        unchanged(parts.test),
    )?;
    match rest.line {
        Some(_) => follow(work, history, assumed, t, step, rest),
        None => Ok(unchanged(t)),
    }
}

/// Rewrites both branches of an IF, and takes one where they are the same.
#[cycle(rewriting)]
fn rewrite_joined(
    work: &mut Work,
    history: &History,
    way: &Way<'_>,
    search: &mut Search,
    assumed: &[TermId],
    depth: u32,
    t: TermId,
    parts: Branches,
    test: Rewritten,
) -> Result<Rewritten, Stop>
    requires depth { depth ≤ depth_limit }
    requires can { CanRewrite history.now work.old assumed.now t }
    requires parts { IsIfOf history.now work.old t parts }
    requires test { IsRewritten history.now work.old (terms_at work.old.bank assumed.now) (term_at work.old.bank parts.test) test }
    ensures ok { IfOk result (λ r. IsRewritten history.now work.new (terms_at work.old.bank assumed.now) (term_at work.old.bank t) r) }
    ensures grows { WorkGrows history.now work.old work.new }
    ensures out { result ≡ Err Stop.OutOfSteps → work.new.counter.used ≡ work.new.counter.limit }
{
    let whole = rewrite_branches(work, history, way, search, assumed, depth, t, parts, test)?;
    let rest = undoubled(work, history, assumed, whole.term)?;
    follow(work, history, assumed, t, whole, rest)
}

/// Rewrites both branches of an IF, one under its test and the other under the NOT of it.
#[cycle(rewriting)]
fn rewrite_branches(
    work: &mut Work,
    history: &History,
    way: &Way<'_>,
    search: &mut Search,
    assumed: &[TermId],
    depth: u32,
    t: TermId,
    parts: Branches,
    test: Rewritten,
) -> Result<Rewritten, Stop>
    requires depth { depth ≤ depth_limit }
    requires can { CanRewrite history.now work.old assumed.now t }
    requires parts { IsIfOf history.now work.old t parts }
    requires test { IsRewritten history.now work.old (terms_at work.old.bank assumed.now) (term_at work.old.bank parts.test) test }
    ensures ok { IfOk result (λ r. IsRewritten history.now work.new (terms_at work.old.bank assumed.now) (term_at work.old.bank t) r) }
    ensures grows { WorkGrows history.now work.old work.new }
    ensures out { result ≡ Err Stop.OutOfSteps → work.new.counter.used ≡ work.new.counter.limit }
{
    let denied = deny(work, history, test.term)?;
    let first = rewrite_under(
        work,
        history,
        way,
        search,
        assumed,
        depth,
        parts.first,
        test.term,
    )?;
    let second = rewrite_under(
        work,
        history,
        way,
        search,
        assumed,
        depth,
        parts.second,
        denied,
    )?;
    if search.given_up {
        return Ok(unchanged(t));
    }
    join(
        work, history, assumed, t, parts, test, first, denied, second,
    )
}

/// Rewrites a term where one more term is assumed.
#[cycle(rewriting)]
fn rewrite_under(
    work: &mut Work,
    history: &History,
    way: &Way<'_>,
    search: &mut Search,
    assumed: &[TermId],
    depth: u32,
    t: TermId,
    more: TermId,
) -> Result<Rewritten, Stop>
    requires depth { depth ≤ depth_limit }
    requires can { CanRewrite history.now work.old assumed.now t }
    requires more { IsTermIn history.now work.old more }
    ensures ok { IfOk result (λ r. IsRewritten history.now work.new (term_at work.old.bank more ∷ terms_at work.old.bank assumed.now) (term_at work.old.bank t) r) }
    ensures grows { WorkGrows history.now work.old work.new }
    ensures out { result ≡ Err Stop.OutOfSteps → work.new.counter.used ≡ work.new.counter.limit }
{
    let all = with_more(work, more, assumed)?;
    rewrite_term(work, history, way, search, all.as_slice(), depth + 1, t)
}
