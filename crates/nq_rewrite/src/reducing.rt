//! Rules whose hypotheses are relieved.
ghost use Rattle.std.specs.Prelude.{◌≡◌, ◌≤◌, ◌<◌, IfOk, IfSome, Err, length};
ghost use Rattle.nq_logic.specs.Sizes.{depth_limit};
ghost use Rattle.nq_bank.specs.Content.{IsNamed, term_at, terms_at};
ghost use Rattle.nq_kernel.specs.Growing.{WorkGrows};
ghost use Rattle.nq_lines.specs.Lines.{IsTermIn};
ghost use Rattle.nq_reduce.specs.Held.{IsHeld};
ghost use Rattle.nq_reduce.specs.Rewriting.{CanRewrite};

use crate::binding::rule_at_hand;
use crate::parts::part_for;
use crate::rewriting::rewrite_term;
use crate::rules::{Head, is_allowed};
use crate::search::Search;
use crate::steps::relieved_by;
use crate::testing::known_test;
use crate::way::{Way, count_about, fits, may_relieve, relieving};
use nq_bank::{Sym, TermId, ground};
use nq_history::History;
use nq_instances::two_in;
use nq_kernel::{Stop, Work};
use nq_lines::Fact;
use nq_reduce::conclusion_for;

/// Tries the rules on a term, the newest first: those that say that a term is true, or those that say what it equals.
#[cycle(rewriting)]
pub fn try_rules(
    work: &mut Work,
    history: &History,
    way: &Way<'_>,
    search: &mut Search,
    assumed: &[TermId],
    depth: u32,
    t: TermId,
    truth: bool,
) -> Result<Option<Fact>, Stop>
    requires depth { depth ≤ depth_limit }
    requires can { CanRewrite history.now work.old assumed.now t }
    ensures held { IfOk result (λ found. IfSome found (IsHeld history.now work.new (terms_at work.old.bank assumed.now))) }
    ensures grows { WorkGrows history.now work.old work.new }
    ensures out { result ≡ Err Stop.OutOfSteps → work.new.counter.used ≡ work.new.counter.limit }
{
    let count = count_about(&work.bank, way, t);
    for place in 0..count {
        let found = try_place(work, history, way, search, assumed, depth, t, place, truth)?;
        if found.is_some() {
            return Ok(found);
        }
    }
    Ok(None)
}

/// Tries the rule at a place, if it can be one of the term.
#[cycle(rewriting)]
fn try_place(
    work: &mut Work,
    history: &History,
    way: &Way<'_>,
    search: &mut Search,
    assumed: &[TermId],
    depth: u32,
    t: TermId,
    place: usize,
    truth: bool,
) -> Result<Option<Fact>, Stop>
    requires depth { depth ≤ depth_limit }
    requires can { CanRewrite history.now work.old assumed.now t }
    ensures held { IfOk result (λ found. IfSome found (IsHeld history.now work.new (terms_at work.old.bank assumed.now))) }
    ensures grows { WorkGrows history.now work.old work.new }
    ensures out { result ≡ Err Stop.OutOfSteps → work.new.counter.used ≡ work.new.counter.limit }
{
    match fits(&work.bank, way, place, t, truth) {
        Some(head) => try_head(work, history, way, search, assumed, depth, t, head),
        None => Ok(None),
    }
}

/// Tries the rule of a left side on a term.
#[cycle(rewriting)]
fn try_head(
    work: &mut Work,
    history: &History,
    way: &Way<'_>,
    search: &mut Search,
    assumed: &[TermId],
    depth: u32,
    t: TermId,
    head: Head,
) -> Result<Option<Fact>, Stop>
    requires depth { depth ≤ depth_limit }
    requires can { CanRewrite history.now work.old assumed.now t }
    ensures held { IfOk result (λ found. IfSome found (IsHeld history.now work.new (terms_at work.old.bank assumed.now))) }
    ensures grows { WorkGrows history.now work.old work.new }
    ensures out { result ≡ Err Stop.OutOfSteps → work.new.counter.used ≡ work.new.counter.limit }
{
    if head.place < history.len() {
        try_rule(
            work,
            history,
            way,
            search,
            assumed,
            depth,
            t,
            head,
            history.entry(head.place).name,
        )
    } else {
        Ok(None)
    }
}

/// Tries the rule of a name on a term.
#[cycle(rewriting)]
fn try_rule(
    work: &mut Work,
    history: &History,
    way: &Way<'_>,
    search: &mut Search,
    assumed: &[TermId],
    depth: u32,
    t: TermId,
    head: Head,
    name: Sym,
) -> Result<Option<Fact>, Stop>
    requires depth { depth ≤ depth_limit }
    requires can { CanRewrite history.now work.old assumed.now t }
    requires name { IsNamed work.old.bank name }
    ensures held { IfOk result (λ found. IfSome found (IsHeld history.now work.new (terms_at work.old.bank assumed.now))) }
    ensures grows { WorkGrows history.now work.old work.new }
    ensures out { result ≡ Err Stop.OutOfSteps → work.new.counter.used ≡ work.new.counter.limit }
{
    match rule_at_hand(work, history, assumed, name, t)? {
        Some(fact) => try_instance(work, history, way, search, assumed, depth, t, head, fact),
        None => Ok(None),
    }
}

/// Tries an instance of a rule on a term, where the order of terms allows it.
#[cycle(rewriting)]
fn try_instance(
    work: &mut Work,
    history: &History,
    way: &Way<'_>,
    search: &mut Search,
    assumed: &[TermId],
    depth: u32,
    t: TermId,
    head: Head,
    fact: Fact,
) -> Result<Option<Fact>, Stop>
    requires depth { depth ≤ depth_limit }
    requires can { CanRewrite history.now work.old assumed.now t }
    requires fact { IsHeld history.now work.old (terms_at work.old.bank assumed.now) fact }
    ensures held { IfOk result (λ found. IfSome found (IsHeld history.now work.new (terms_at work.old.bank assumed.now))) }
    ensures grows { WorkGrows history.now work.old work.new }
    ensures out { result ≡ Err Stop.OutOfSteps → work.new.counter.used ≡ work.new.counter.limit }
{
    if is_allowed(&work.bank, head, t, fact.term) {
        reduce(
            work,
            history,
            way,
            search,
            assumed,
            depth + 1,
            t,
            head.truth,
            fact,
        )
    } else {
        Ok(None)
    }
}

/// What an instance of a rule says of a term, after its hypotheses were relieved.
#[cycle(rewriting)]
fn reduce(
    work: &mut Work,
    history: &History,
    way: &Way<'_>,
    search: &mut Search,
    assumed: &[TermId],
    depth: u32,
    t: TermId,
    truth: bool,
    fact: Fact,
) -> Result<Option<Fact>, Stop>
    requires can { CanRewrite history.now work.old assumed.now t }
    requires fact { IsHeld history.now work.old (terms_at work.old.bank assumed.now) fact }
    ensures held { IfOk result (λ found. IfSome found (IsHeld history.now work.new (terms_at work.old.bank assumed.now))) }
    ensures grows { WorkGrows history.now work.old work.new }
    ensures out { result ≡ Err Stop.OutOfSteps → work.new.counter.used ≡ work.new.counter.limit }
{
    let _ = work.counter.used();
    work.enter(depth)?;
    reduce_entered(work, history, way, search, assumed, depth, t, truth, fact)
}

/// The same, after the entry was counted.
#[cycle(rewriting)]
fn reduce_entered(
    work: &mut Work,
    history: &History,
    way: &Way<'_>,
    search: &mut Search,
    assumed: &[TermId],
    depth: u32,
    t: TermId,
    truth: bool,
    fact: Fact,
) -> Result<Option<Fact>, Stop>
    requires depth { depth ≤ depth_limit }
    requires can { CanRewrite history.now work.old assumed.now t }
    requires fact { IsHeld history.now work.old (terms_at work.old.bank assumed.now) fact }
    ensures held { IfOk result (λ found. IfSome found (IsHeld history.now work.new (terms_at work.old.bank assumed.now))) }
    ensures grows { WorkGrows history.now work.old work.new }
    ensures out { result ≡ Err Stop.OutOfSteps → work.new.counter.used ≡ work.new.counter.limit }
{
    match two_in(work, history, ground::IMPLIES, fact.term) {
        Some(sides) => reduce_implication(
            work, history, way, search, assumed, depth, t, truth, fact, sides.left,
        ),
        None => reduce_conclusion(work, history, way, search, assumed, depth, t, truth, fact),
    }
}

/// The same, where the rule has a hypothesis.
#[cycle(rewriting)]
fn reduce_implication(
    work: &mut Work,
    history: &History,
    way: &Way<'_>,
    search: &mut Search,
    assumed: &[TermId],
    depth: u32,
    t: TermId,
    truth: bool,
    fact: Fact,
    condition: TermId,
) -> Result<Option<Fact>, Stop>
    requires depth { depth ≤ depth_limit }
    requires can { CanRewrite history.now work.old assumed.now t }
    requires fact { IsHeld history.now work.old (terms_at work.old.bank assumed.now) fact }
    requires condition { IsTermIn history.now work.old condition }
    ensures held { IfOk result (λ found. IfSome found (IsHeld history.now work.new (terms_at work.old.bank assumed.now))) }
    ensures grows { WorkGrows history.now work.old work.new }
    ensures out { result ≡ Err Stop.OutOfSteps → work.new.counter.used ≡ work.new.counter.limit }
{
    match relieve(work, history, way, search, assumed, depth, condition)? {
        Some(shown) => reduce_relieved(
            work, history, way, search, assumed, depth, t, truth, fact, shown,
        ),
        None => Ok(None),
    }
}

/// The same, where a line shows the hypothesis.
#[cycle(rewriting)]
fn reduce_relieved(
    work: &mut Work,
    history: &History,
    way: &Way<'_>,
    search: &mut Search,
    assumed: &[TermId],
    depth: u32,
    t: TermId,
    truth: bool,
    fact: Fact,
    shown: Fact,
) -> Result<Option<Fact>, Stop>
    requires depth { depth ≤ depth_limit }
    requires can { CanRewrite history.now work.old assumed.now t }
    requires fact { IsHeld history.now work.old (terms_at work.old.bank assumed.now) fact }
    requires shown { IsHeld history.now work.old (terms_at work.old.bank assumed.now) shown }
    ensures held { IfOk result (λ found. IfSome found (IsHeld history.now work.new (terms_at work.old.bank assumed.now))) }
    ensures grows { WorkGrows history.now work.old work.new }
    ensures out { result ≡ Err Stop.OutOfSteps → work.new.counter.used ≡ work.new.counter.limit }
{
    match conclusion_for(work, history, assumed, fact, shown, t)? {
        Some(next) => reduce(
            work,
            history,
            way,
            search,
            assumed,
            depth + 1,
            t,
            truth,
            next,
        ),
        None => Ok(None),
    }
}

/// The same, where the rule has no further hypothesis.
#[cycle(rewriting)]
fn reduce_conclusion(
    work: &mut Work,
    history: &History,
    way: &Way<'_>,
    search: &mut Search,
    assumed: &[TermId],
    depth: u32,
    t: TermId,
    truth: bool,
    fact: Fact,
) -> Result<Option<Fact>, Stop>
    requires depth { depth ≤ depth_limit }
    requires can { CanRewrite history.now work.old assumed.now t }
    requires fact { IsHeld history.now work.old (terms_at work.old.bank assumed.now) fact }
    ensures held { IfOk result (λ found. IfSome found (IsHeld history.now work.new (terms_at work.old.bank assumed.now))) }
    ensures grows { WorkGrows history.now work.old work.new }
    ensures out { result ≡ Err Stop.OutOfSteps → work.new.counter.used ≡ work.new.counter.limit }
{
    match part_for(work, history, assumed, truth, fact, t)? {
        Some(next) => reduce(
            work,
            history,
            way,
            search,
            assumed,
            depth + 1,
            t,
            truth,
            next,
        ),
        None => Ok(Some(fact)),
    }
}

/// Rewrites a hypothesis, which is relieved where what comes of it is known to be true.
#[cycle(rewriting)]
pub fn relieve(
    work: &mut Work,
    history: &History,
    way: &Way<'_>,
    search: &mut Search,
    assumed: &[TermId],
    depth: u32,
    t: TermId,
) -> Result<Option<Fact>, Stop>
    requires depth { depth ≤ depth_limit }
    requires can { CanRewrite history.now work.old assumed.now t }
    ensures held { IfOk result (λ found. IfSome found (IsHeld history.now work.new (terms_at work.old.bank assumed.now))) }
    ensures grows { WorkGrows history.now work.old work.new }
    ensures out { result ≡ Err Stop.OutOfSteps → work.new.counter.used ≡ work.new.counter.limit }
{
    if may_relieve(&work.bank, way, search, t) {
        relieve_within(work, history, way, search, assumed, depth, t)
    } else {
        Ok(None)
    }
}

/// The same, where one more hypothesis may be relieved.
#[cycle(rewriting)]
fn relieve_within(
    work: &mut Work,
    history: &History,
    way: &Way<'_>,
    search: &mut Search,
    assumed: &[TermId],
    depth: u32,
    t: TermId,
) -> Result<Option<Fact>, Stop>
    requires depth { depth ≤ depth_limit }
    requires can { CanRewrite history.now work.old assumed.now t }
    ensures held { IfOk result (λ found. IfSome found (IsHeld history.now work.new (terms_at work.old.bank assumed.now))) }
    ensures grows { WorkGrows history.now work.old work.new }
    ensures out { result ≡ Err Stop.OutOfSteps → work.new.counter.used ≡ work.new.counter.limit }
{
    let within = relieving(way, &work.bank, t)?;
    let new = rewrite_term(work, history, &within, search, assumed, depth + 1, t)?;
    match known_test(work, history, &within, search, assumed, depth, new.term)? {
        Some(known) => relieved_by(work, history, assumed, t, new, known),
        None => Ok(None),
    }
}
