//! Terms of a goal that are like those that a lemma looks for, and the instances of the lemma that they give.
ghost use Rattle.std.specs.Prelude.{◌≡◌, ◌∷◌, ◌++◌, [], All, IfOk, OnOk, Err};
ghost use Rattle.nq_bank.specs.Content.{IsNamed, Stands};
ghost use Rattle.nq_history.specs.Events.{events_at};
ghost use Rattle.nq_kernel.specs.Growing.{WorkGrows, WorkStands};
ghost use Rattle.nq_lines.specs.Instances.{ArePairsIn};
ghost use Rattle.nq_lines.specs.Facts.{IsFact};
ghost use Rattle.nq_lines.specs.Lines.{IsTermIn};
ghost use Rattle.nq_lines.specs.OwnTerms.{HasOwnTerms};
ghost use Rattle.nq_instances.specs.Parts.{IsLine};
ghost use Rattle.nq_arithmetic.specs.Claims.{AreOperandsIn};

use crate::functions::{Two, name_of_two};
use crate::making::{call_two, push_term};
use crate::reading::{Operands, copied, operands_of};
use crate::triggers::Trigger;
use nq_bank::{Bank, Node, Sym, TermId};
use nq_clause::Pair;
use nq_history::History;
use nq_kernel::{Stop, Work};
use nq_lines::{Fact, event_fact, instance_fact, match_pairs};

/// From so many pairs of terms on no further first term is tried for a lemma.
const PAIR_LIMIT: usize = 60;

/// Are two terms calls of one function?
fn are_alike(bank: &Bank, t: TermId, u: TermId) -> bool
    requires first { Stands bank.now t }
    requires second { Stands bank.now u }
{
    match (bank.node(t), bank.node(u)) {
        (Node::App(f, _), Node::App(g, _)) => f.0 == g.0,
        _ => false,
    }
}

/// Is a term like the first that is sought, where so many pairs leave room?
fn is_first(bank: &Bank, count: usize, first: TermId, t: TermId) -> bool
    requires first { Stands bank.now first }
    requires term { Stands bank.now t }
{
    count < PAIR_LIMIT && are_alike(bank, first, t)
}

/// Adds the CONS of two terms, where the second is like another.
fn add_pair(
    work: &mut Work,
    history: &History,
    pairs: &mut Vec<TermId>,
    second: TermId,
    t: TermId,
    u: TermId,
) -> Result<(), Stop>
    requires stands { WorkStands history.now work.old }
    requires pairs { All (IsTermIn history.now work.old) pairs.old.items }
    requires like { IsTermIn history.now work.old second }
    requires first { IsTermIn history.now work.old t }
    requires second { IsTermIn history.now work.old u }
    ensures pairs { OnOk result (All (IsTermIn history.now work.new) pairs.new.items) }
    ensures grows { WorkGrows history.now work.old work.new }
    ensures out { result ≡ Err Stop.OutOfSteps → work.new.counter.used ≡ work.new.counter.limit }
{
    if !are_alike(&work.bank, second, u) {
        return Ok(());
    }
    let pair = call_two(work, history, name_of_two(Two::Cons), t, u)?;
    push_term(pairs, pair)?;
    Ok(())
}

/// Adds the CONS of a term with each that is like another, where it is like the first itself.
fn add_pairs(
    work: &mut Work,
    history: &History,
    pairs: &mut Vec<TermId>,
    sought: Operands,
    t: TermId,
    terms: &[TermId],
) -> Result<(), Stop>
    requires stands { WorkStands history.now work.old }
    requires pairs { All (IsTermIn history.now work.old) pairs.old.items }
    requires sought { AreOperandsIn history.now work.old sought }
    requires term { IsTermIn history.now work.old t }
    requires terms { All (IsTermIn history.now work.old) terms.now }
    ensures pairs { OnOk result (All (IsTermIn history.now work.new) pairs.new.items) }
    ensures grows { WorkGrows history.now work.old work.new }
    ensures out { result ≡ Err Stop.OutOfSteps → work.new.counter.used ≡ work.new.counter.limit }
{
    if !is_first(&work.bank, pairs.len(), sought.first, t) {
        return Ok(());
    }
    for u in terms {
        add_pair(work, history, pairs, sought.second, t, *u)?;
    }
    Ok(())
}

/// The CONSes of two of these terms that are like the two that are sought.
fn pairs_like(
    work: &mut Work,
    history: &History,
    sought: Operands,
    terms: &[TermId],
) -> Result<Vec<TermId>, Stop>
    requires stands { WorkStands history.now work.old }
    requires sought { AreOperandsIn history.now work.old sought }
    requires terms { All (IsTermIn history.now work.old) terms.now }
    ensures pairs { IfOk result (λ ts. All (IsTermIn history.now work.new) ts.items) }
    ensures grows { WorkGrows history.now work.old work.new }
    ensures out { result ≡ Err Stop.OutOfSteps → work.new.counter.used ≡ work.new.counter.limit }
{
    let mut pairs = Vec::new(work.bank.alloc());
    for t in terms {
        add_pairs(work, history, &mut pairs, sought, *t, terms)?;
    }
    Ok(pairs)
}

/// The terms that are tried for what a lemma looks for: these terms, or the CONSes of two of them.
fn targets_of(
    work: &mut Work,
    history: &History,
    trigger: Trigger,
    terms: &[TermId],
) -> Result<Vec<TermId>, Stop>
    requires stands { WorkStands history.now work.old }
    requires trigger { IsTermIn history.now work.old trigger.pattern }
    requires terms { All (IsTermIn history.now work.old) terms.now }
    ensures targets { IfOk result (λ ts. All (IsTermIn history.now work.new) ts.items) }
    ensures grows { WorkGrows history.now work.old work.new }
    ensures out { result ≡ Err Stop.OutOfSteps → work.new.counter.used ≡ work.new.counter.limit }
{
    if !trigger.is_pair {
        return copied(work, history, terms);
    }
    match operands_of(work, history, trigger.pattern) {
        Some(sought) => pairs_like(work, history, sought, terms),
        None => copied(work, history, terms),
    }
}

/// One more instance.
fn push(found: &mut Vec<Fact>, fact: Fact) -> Result<(), Stop>
    ensures ok { OnOk result (found.new.items ≡ found.old.items ++ fact ∷ []) }
    ensures memory { result ≡ Err Stop.OutOfSteps → ⊥ }
{
    match found.push(fact) {
        Ok(()) => Ok(()),
        Err(_) => Err(Stop::Memory),
    }
}

/// Adds the instance of a fact by these pairs.
fn add_by_pairs(
    work: &mut Work,
    history: &History,
    found: &mut Vec<Fact>,
    fact: Fact,
    pairs: Vec<Pair>,
) -> Result<(), Stop>
    requires stands { WorkStands history.now work.old }
    requires found { All (IsLine history.now work.old) found.old.items }
    requires fact { IsFact history.now work.old fact }
    requires pairs { ArePairsIn history.now work.old pairs.items }
    ensures found { OnOk result (All (IsLine history.now work.new) found.new.items) }
    ensures grows { WorkGrows history.now work.old work.new }
    ensures out { result ≡ Err Stop.OutOfSteps → work.new.counter.used ≡ work.new.counter.limit }
{
    match instance_fact(work, history, fact, pairs)? {
        Some(instance) => {
            push(found, instance)?;
            Ok(())
        }
        None => Ok(()),
    }
}

/// Adds the instance of a lemma by these pairs.
fn add_named(
    work: &mut Work,
    history: &History,
    found: &mut Vec<Fact>,
    name: Sym,
    pairs: Vec<Pair>,
) -> Result<(), Stop>
    requires stands { WorkStands history.now work.old }
    requires ready { HasOwnTerms (events_at work.old.bank history.now) }
    requires name { IsNamed work.old.bank name }
    requires found { All (IsLine history.now work.old) found.old.items }
    requires pairs { ArePairsIn history.now work.old pairs.items }
    ensures found { OnOk result (All (IsLine history.now work.new) found.new.items) }
    ensures grows { WorkGrows history.now work.old work.new }
    ensures out { result ≡ Err Stop.OutOfSteps → work.new.counter.used ≡ work.new.counter.limit }
{
    match event_fact(work, history, name)? {
        Some(fact) => add_by_pairs(work, history, found, fact, pairs),
        None => Ok(()),
    }
}

/// Adds the instance of a lemma that takes a pattern to a term, if there is one.
fn add_match(
    work: &mut Work,
    history: &History,
    found: &mut Vec<Fact>,
    name: Sym,
    pattern: TermId,
    t: TermId,
) -> Result<(), Stop>
    requires stands { WorkStands history.now work.old }
    requires ready { HasOwnTerms (events_at work.old.bank history.now) }
    requires name { IsNamed work.old.bank name }
    requires found { All (IsLine history.now work.old) found.old.items }
    requires pattern { IsTermIn history.now work.old pattern }
    requires term { IsTermIn history.now work.old t }
    ensures found { OnOk result (All (IsLine history.now work.new) found.new.items) }
    ensures grows { WorkGrows history.now work.old work.new }
    ensures out { result ≡ Err Stop.OutOfSteps → work.new.counter.used ≡ work.new.counter.limit }
{
    if !are_alike(&work.bank, pattern, t) {
        return Ok(());
    }
    match match_pairs(work, history, pattern, t)? {
        Some(pairs) => add_named(work, history, found, name, pairs),
        None => Ok(()),
    }
}

/// Adds the instances of a lemma that take what it looks for to these targets.
fn add_targets(
    work: &mut Work,
    history: &History,
    found: &mut Vec<Fact>,
    name: Sym,
    pattern: TermId,
    targets: &[TermId],
) -> Result<(), Stop>
    requires stands { WorkStands history.now work.old }
    requires ready { HasOwnTerms (events_at work.old.bank history.now) }
    requires name { IsNamed work.old.bank name }
    requires found { All (IsLine history.now work.old) found.old.items }
    requires pattern { IsTermIn history.now work.old pattern }
    requires targets { All (IsTermIn history.now work.old) targets.now }
    ensures found { OnOk result (All (IsLine history.now work.new) found.new.items) }
    ensures grows { WorkGrows history.now work.old work.new }
    ensures out { result ≡ Err Stop.OutOfSteps → work.new.counter.used ≡ work.new.counter.limit }
{
    for t in targets {
        add_match(work, history, found, name, pattern, *t)?;
    }
    Ok(())
}

/// Adds the instances of a lemma for what it looks for among these terms.
pub fn add_matches(
    work: &mut Work,
    history: &History,
    found: &mut Vec<Fact>,
    name: Sym,
    trigger: Trigger,
    terms: &[TermId],
) -> Result<(), Stop>
    requires stands { WorkStands history.now work.old }
    requires ready { HasOwnTerms (events_at work.old.bank history.now) }
    requires name { IsNamed work.old.bank name }
    requires found { All (IsLine history.now work.old) found.old.items }
    requires trigger { IsTermIn history.now work.old trigger.pattern }
    requires terms { All (IsTermIn history.now work.old) terms.now }
    ensures found { OnOk result (All (IsLine history.now work.new) found.new.items) }
    ensures grows { WorkGrows history.now work.old work.new }
    ensures out { result ≡ Err Stop.OutOfSteps → work.new.counter.used ≡ work.new.counter.limit }
{
    let targets = targets_of(work, history, trigger, terms)?;
    add_targets(
        work,
        history,
        found,
        name,
        trigger.pattern,
        targets.as_slice(),
    )
}
