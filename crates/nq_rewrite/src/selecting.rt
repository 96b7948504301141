//! Rewriting what is asked of a call of a recursive function: the call is opened for it where the answer doesn't call the function.
//! `(LISTP (MERGE X Y))` is T where X and Y are lists. In the body it is asked of the branches of an IF before these are rewritten, so that
//! of each only what is asked for is, and answered of an object just made before its parts are rewritten.
ghost use Rattle.std.specs.Prelude.{◌≡◌, ◌≤◌, IfOk, Err};
ghost use Rattle.nq_logic.specs.Sizes.{depth_limit};
ghost use Rattle.nq_bank.specs.Content.{term_at, terms_at};
ghost use Rattle.nq_kernel.specs.Growing.{WorkGrows};
ghost use Rattle.nq_instances.specs.Parts.{IsIfOf};
ghost use Rattle.nq_lines.specs.Lines.{IsTermIn};
ghost use Rattle.nq_reduce.specs.Rewriting.{CanRewrite, IsArgument, IsKnown, IsRewritten};

use crate::asking::{
    asked_of, asked_of_branch, asked_of_opened, asked_of_tested, asks_made, dividing_test,
};
use crate::differences::reduce_numbered;
use crate::outside::rewrite_on;
use crate::questions::{drops_call, function_opened, leave_question};
use crate::rewriting::{rewrite_parts, rewrite_term};
use crate::search::Search;
use crate::telling::tells;
use crate::testing::{known_test, rewrite_divided};
use crate::way::{Way, opening_more};
use nq_bank::{Sym, TermId};
use nq_history::History;
use nq_instances::if_parts_of;
use nq_kernel::{Stop, Work};
use nq_reduce::{Known, Rewritten, follow, unchanged};
use nq_rule::Branches;

/// Rewrites the arguments of a call, unless something is asked of what stands around it, and it asks for something itself.
#[cycle(rewriting)]
pub fn rewrite_asked(
    work: &mut Work,
    history: &History,
    way: &Way<'_>,
    search: &mut Search,
    assumed: &[TermId],
    depth: u32,
    t: TermId,
) -> Result<Rewritten, Stop>
    requires depth { depth ≤ depth_limit }
    requires can { CanRewrite history.now work.old assumed.now t }
    ensures ok { IfOk result (λ r. IsRewritten history.now work.new (terms_at work.old.bank assumed.now) (term_at work.old.bank t) r) }
    ensures grows { WorkGrows history.now work.old work.new }
    ensures out { result ≡ Err Stop.OutOfSteps → work.new.counter.used ≡ work.new.counter.limit }
{
    if !way.asked {
        return rewrite_parts(work, history, way, search, assumed, depth, t);
    }
    match asked_of(work, history, t) {
        Some(a) => rewrite_asked_of(work, history, way, search, assumed, depth, t, a),
        None => rewrite_parts(work, history, way, search, assumed, depth, t),
    }
}

/// The same, where something is asked of this.
#[cycle(rewriting)]
fn rewrite_asked_of(
    work: &mut Work,
    history: &History,
    way: &Way<'_>,
    search: &mut Search,
    assumed: &[TermId],
    depth: u32,
    t: TermId,
    a: TermId,
) -> Result<Rewritten, Stop>
    requires depth { depth ≤ depth_limit }
    requires can { CanRewrite history.now work.old assumed.now t }
    requires argument { IsArgument history.now work.old t 1 a }
    ensures ok { IfOk result (λ r. IsRewritten history.now work.new (terms_at work.old.bank assumed.now) (term_at work.old.bank t) r) }
    ensures grows { WorkGrows history.now work.old work.new }
    ensures out { result ≡ Err Stop.OutOfSteps → work.new.counter.used ≡ work.new.counter.limit }
{
    match if_parts_of(work, history, a) {
        Some(parts) => rewrite_asked_if(work, history, way, search, assumed, depth, t, a, parts),
        None => rewrite_made(work, history, way, search, assumed, depth, t),
    }
}

/// The same, where it is an object just made, if it is one.
#[cycle(rewriting)]
fn rewrite_made(
    work: &mut Work,
    history: &History,
    way: &Way<'_>,
    search: &mut Search,
    assumed: &[TermId],
    depth: u32,
    t: TermId,
) -> Result<Rewritten, Stop>
    requires depth { depth ≤ depth_limit }
    requires can { CanRewrite history.now work.old assumed.now t }
    ensures ok { IfOk result (λ r. IsRewritten history.now work.new (terms_at work.old.bank assumed.now) (term_at work.old.bank t) r) }
    ensures grows { WorkGrows history.now work.old work.new }
    ensures out { result ≡ Err Stop.OutOfSteps → work.new.counter.used ≡ work.new.counter.limit }
{
    if asks_made(work, history, t) {
        rewrite_answered(work, history, way, search, assumed, depth, t)
    } else {
        rewrite_parts(work, history, way, search, assumed, depth, t)
    }
}

/// Rewrites what is asked of an object just made by a single step, and then what comes of it; or else its arguments.
#[cycle(rewriting)]
fn rewrite_answered(
    work: &mut Work,
    history: &History,
    way: &Way<'_>,
    search: &mut Search,
    assumed: &[TermId],
    depth: u32,
    t: TermId,
) -> Result<Rewritten, Stop>
    requires depth { depth ≤ depth_limit }
    requires can { CanRewrite history.now work.old assumed.now t }
    ensures ok { IfOk result (λ r. IsRewritten history.now work.new (terms_at work.old.bank assumed.now) (term_at work.old.bank t) r) }
    ensures grows { WorkGrows history.now work.old work.new }
    ensures out { result ≡ Err Stop.OutOfSteps → work.new.counter.used ≡ work.new.counter.limit }
{
    let step = reduce_numbered(work, history, way.hints, assumed, t)?;
    match step.line {
        Some(_) => rewrite_on(work, history, way, search, assumed, depth, t, step),
        None => rewrite_parts(work, history, way, search, assumed, depth, t),
    }
}

/// Rewrites what is asked of an IF: first its test.
#[cycle(rewriting)]
fn rewrite_asked_if(
    work: &mut Work,
    history: &History,
    way: &Way<'_>,
    search: &mut Search,
    assumed: &[TermId],
    depth: u32,
    t: TermId,
    a: TermId,
    parts: Branches,
) -> Result<Rewritten, Stop>
    requires depth { depth ≤ depth_limit }
    requires can { CanRewrite history.now work.old assumed.now t }
    requires argument { IsArgument history.now work.old t 1 a }
    requires parts { IsIfOf history.now work.old a parts }
    ensures ok { IfOk result (λ r. IsRewritten history.now work.new (terms_at work.old.bank assumed.now) (term_at work.old.bank t) r) }
    ensures grows { WorkGrows history.now work.old work.new }
    ensures out { result ≡ Err Stop.OutOfSteps → work.new.counter.used ≡ work.new.counter.limit }
{
    let test = rewrite_term(work, history, way, search, assumed, depth + 1, parts.test)?;
    rewrite_asked_by(
        work, history, way, search, assumed, depth, t, a, parts, test,
    )
}

/// Rewrites what is asked of an IF whose test was rewritten: of the branch that is taken, or of both.
#[cycle(rewriting)]
fn rewrite_asked_by(
    work: &mut Work,
    history: &History,
    way: &Way<'_>,
    search: &mut Search,
    assumed: &[TermId],
    depth: u32,
    t: TermId,
    a: TermId,
    parts: Branches,
    test: Rewritten,
) -> Result<Rewritten, Stop>
    requires depth { depth ≤ depth_limit }
    requires can { CanRewrite history.now work.old assumed.now t }
    requires argument { IsArgument history.now work.old t 1 a }
    requires parts { IsIfOf history.now work.old a parts }
    requires test { IsRewritten history.now work.old (terms_at work.old.bank assumed.now) (term_at work.old.bank parts.test) test }
    ensures ok { IfOk result (λ r. IsRewritten history.now work.new (terms_at work.old.bank assumed.now) (term_at work.old.bank t) r) }
    ensures grows { WorkGrows history.now work.old work.new }
    ensures out { result ≡ Err Stop.OutOfSteps → work.new.counter.used ≡ work.new.counter.limit }
{
    match known_test(work, history, way, search, assumed, depth, test.term)? {
        Some(known) => rewrite_asked_chosen(
            work, history, way, search, assumed, depth, t, a, parts, test, known,
        ),
        None => rewrite_asked_both(
            work, history, way, search, assumed, depth, t, a, parts, test,
        ),
    }
}

/// Rewrites what is asked of the branch of an IF that its test takes.
#[cycle(rewriting)]
fn rewrite_asked_chosen(
    work: &mut Work,
    history: &History,
    way: &Way<'_>,
    search: &mut Search,
    assumed: &[TermId],
    depth: u32,
    t: TermId,
    a: TermId,
    parts: Branches,
    test: Rewritten,
    known: Known,
) -> Result<Rewritten, Stop>
    requires depth { depth ≤ depth_limit }
    requires can { CanRewrite history.now work.old assumed.now t }
    requires argument { IsArgument history.now work.old t 1 a }
    requires parts { IsIfOf history.now work.old a parts }
    requires test { IsRewritten history.now work.old (terms_at work.old.bank assumed.now) (term_at work.old.bank parts.test) test }
    requires known { IsKnown work.old (terms_at work.old.bank assumed.now) (term_at work.old.bank test.term) known }
    ensures ok { IfOk result (λ r. IsRewritten history.now work.new (terms_at work.old.bank assumed.now) (term_at work.old.bank t) r) }
    ensures grows { WorkGrows history.now work.old work.new }
    ensures out { result ≡ Err Stop.OutOfSteps → work.new.counter.used ≡ work.new.counter.limit }
{
    let step = asked_of_branch(work, history, assumed, t, a, parts, test, known)?;
    rewrite_on(work, history, way, search, assumed, depth, t, step)
}

/// Rewrites what is asked of both branches of an IF, each under its test or the NOT of it.
#[cycle(rewriting)]
fn rewrite_asked_both(
    work: &mut Work,
    history: &History,
    way: &Way<'_>,
    search: &mut Search,
    assumed: &[TermId],
    depth: u32,
    t: TermId,
    a: TermId,
    parts: Branches,
    test: Rewritten,
) -> Result<Rewritten, Stop>
    requires depth { depth ≤ depth_limit }
    requires can { CanRewrite history.now work.old assumed.now t }
    requires argument { IsArgument history.now work.old t 1 a }
    requires parts { IsIfOf history.now work.old a parts }
    requires test { IsRewritten history.now work.old (terms_at work.old.bank assumed.now) (term_at work.old.bank parts.test) test }
    ensures ok { IfOk result (λ r. IsRewritten history.now work.new (terms_at work.old.bank assumed.now) (term_at work.old.bank t) r) }
    ensures grows { WorkGrows history.now work.old work.new }
    ensures out { result ≡ Err Stop.OutOfSteps → work.new.counter.used ≡ work.new.counter.limit }
{
    let p = dividing_test(work, history, assumed, test.term);
    let whole = asked_of_tested(work, history, assumed, t, a, parts, test)?;
    let rest = rewrite_divided(work, history, way, search, assumed, depth, whole.term, p)?;
    follow(work, history, assumed, t, whole, rest)
}

/// Rewrites what is asked of a call of a recursive function, if the call is opened for it.
#[cycle(rewriting)]
pub fn rewrite_selection(
    work: &mut Work,
    history: &History,
    way: &Way<'_>,
    search: &mut Search,
    assumed: &[TermId],
    depth: u32,
    t: TermId,
) -> Result<Rewritten, Stop>
    requires depth { depth ≤ depth_limit }
    requires can { CanRewrite history.now work.old assumed.now t }
    ensures ok { IfOk result (λ r. IsRewritten history.now work.new (terms_at work.old.bank assumed.now) (term_at work.old.bank t) r) }
    ensures grows { WorkGrows history.now work.old work.new }
    ensures out { result ≡ Err Stop.OutOfSteps → work.new.counter.used ≡ work.new.counter.limit }
{
    match asked_of(work, history, t) {
        Some(a) => rewrite_asked_call(work, history, way, search, assumed, depth, t, a),
        None => Ok(unchanged(t)),
    }
}

/// The same, where something is asked of this.
#[cycle(rewriting)]
fn rewrite_asked_call(
    work: &mut Work,
    history: &History,
    way: &Way<'_>,
    search: &mut Search,
    assumed: &[TermId],
    depth: u32,
    t: TermId,
    a: TermId,
) -> Result<Rewritten, Stop>
    requires depth { depth ≤ depth_limit }
    requires can { CanRewrite history.now work.old assumed.now t }
    requires argument { IsArgument history.now work.old t 1 a }
    ensures ok { IfOk result (λ r. IsRewritten history.now work.new (terms_at work.old.bank assumed.now) (term_at work.old.bank t) r) }
    ensures grows { WorkGrows history.now work.old work.new }
    ensures out { result ≡ Err Stop.OutOfSteps → work.new.counter.used ≡ work.new.counter.limit }
{
    match function_opened(&work.bank, history, way, search, assumed, t, a) {
        Some(f) => rewrite_opened_call(work, history, way, search, assumed, depth, t, a, f),
        None => Ok(unchanged(t)),
    }
}

/// Rewrites what is asked of a call of a recursive function by the opening of that call.
#[cycle(rewriting)]
fn rewrite_opened_call(
    work: &mut Work,
    history: &History,
    way: &Way<'_>,
    search: &mut Search,
    assumed: &[TermId],
    depth: u32,
    t: TermId,
    a: TermId,
    f: Sym,
) -> Result<Rewritten, Stop>
    requires depth { depth ≤ depth_limit }
    requires can { CanRewrite history.now work.old assumed.now t }
    requires argument { IsArgument history.now work.old t 1 a }
    ensures ok { IfOk result (λ r. IsRewritten history.now work.new (terms_at work.old.bank assumed.now) (term_at work.old.bank t) r) }
    ensures grows { WorkGrows history.now work.old work.new }
    ensures out { result ≡ Err Stop.OutOfSteps → work.new.counter.used ≡ work.new.counter.limit }
{
    let step = asked_of_opened(work, history, assumed, t, a)?;
    rewrite_asked_body(work, history, way, search, assumed, depth, t, step, f, a)
}

/// Rewrites what is asked of the body of a recursive function.
#[cycle(rewriting)]
fn rewrite_asked_body(
    work: &mut Work,
    history: &History,
    way: &Way<'_>,
    search: &mut Search,
    assumed: &[TermId],
    depth: u32,
    t: TermId,
    step: Rewritten,
    f: Sym,
    a: TermId,
) -> Result<Rewritten, Stop>
    requires depth { depth ≤ depth_limit }
    requires can { CanRewrite history.now work.old assumed.now t }
    requires step { IsRewritten history.now work.old (terms_at work.old.bank assumed.now) (term_at work.old.bank t) step }
    ensures ok { IfOk result (λ r. IsRewritten history.now work.new (terms_at work.old.bank assumed.now) (term_at work.old.bank t) r) }
    ensures grows { WorkGrows history.now work.old work.new }
    ensures out { result ≡ Err Stop.OutOfSteps → work.new.counter.used ≡ work.new.counter.limit }
{
    if !tells(&work.bank, history, f, step.term) {
        leave_question(&work.bank, search, f, t)?;
        return Ok(unchanged(t));
    }
    let within = opening_more(way, &work.bank, f, a, true)?;
    let body = rewrite_term(
        work,
        history,
        &within,
        search,
        assumed,
        depth + 1,
        step.term,
    )?;
    rewrite_asked_opened(work, history, way, search, assumed, depth, t, step, f, body)
}

/// Rewrites what came of the body of a recursive function, and drops the opening where the function is still called.
#[cycle(rewriting)]
fn rewrite_asked_opened(
    work: &mut Work,
    history: &History,
    way: &Way<'_>,
    search: &mut Search,
    assumed: &[TermId],
    depth: u32,
    t: TermId,
    step: Rewritten,
    f: Sym,
    body: Rewritten,
) -> Result<Rewritten, Stop>
    requires depth { depth ≤ depth_limit }
    requires can { CanRewrite history.now work.old assumed.now t }
    requires step { IsRewritten history.now work.old (terms_at work.old.bank assumed.now) (term_at work.old.bank t) step }
    requires body { IsRewritten history.now work.old (terms_at work.old.bank assumed.now) (term_at work.old.bank step.term) body }
    ensures ok { IfOk result (λ r. IsRewritten history.now work.new (terms_at work.old.bank assumed.now) (term_at work.old.bank t) r) }
    ensures grows { WorkGrows history.now work.old work.new }
    ensures out { result ≡ Err Stop.OutOfSteps → work.new.counter.used ≡ work.new.counter.limit }
{
    let kept = drops_call(&work.bank, way, search, assumed, f, t, body.term)?;
    if !kept {
        return Ok(unchanged(t));
    }
    let whole = follow(work, history, assumed, t, step, body)?;
    rewrite_on(work, history, way, search, assumed, depth, t, whole)
}
