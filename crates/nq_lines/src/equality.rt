//! Equations that are turned, joined, and carried into calls.
ghost use Rattle.std.specs.Prelude.{◌≡◌, ◌∷◌, [], List, IfOk, Err};
ghost use Rattle.nq_logic.specs.Terms.{Term};
ghost use Rattle.nq_logic.specs.Words.{not_term, equal_term};
ghost use Rattle.nq_bank.specs.Content.{term_at};
ghost use Rattle.nq_kernel.specs.Growing.{WorkStands, WorkGrows, LineStands};
ghost use Rattle.nq_lines.specs.Lines.{IsTermIn, LineHasOnly, LineLeads, TurnsTo, JoinsTo, MeetsIn};

use crate::placed::replace_right;
use crate::rewriting::discharge;
use crate::rules::{equate, opposites, reflexive, replace_first};
use nq_bank::TermId;
use nq_history::History;
use nq_kernel::{Stop, Work};
use nq_rule::Side;
use std::alloc::Global;

/// A path of one place.
pub fn one_place(alloc: Global, place: u64) -> Result<Vec<u64>, Stop>
    ensures path { IfOk result (λ p. p.items ≡ place ∷ []) }
    ensures memory { result ≡ Err Stop.OutOfSteps → ⊥ }
{
    match vec![in alloc; place] {
        Ok(path) => Ok(path),
        Err(_) => Err(Stop::Memory),
    }
}

/// A path of two places.
pub fn two_places(alloc: Global, first: u64, second: u64) -> Result<Vec<u64>, Stop>
    ensures path { IfOk result (λ p. p.items ≡ first ∷ second ∷ []) }
    ensures memory { result ≡ Err Stop.OutOfSteps → ⊥ }
{
    match vec![in alloc; first, second] {
        Ok(path) => Ok(path),
        Err(_) => Err(Stop::Memory),
    }
}

/// Adds the line of `(EQUAL u t)` by the equation of t and u.
pub fn turning(work: &mut Work, history: &History, t: TermId, u: TermId) -> Result<u64, Stop>
    requires stands { WorkStands history.now work.old }
    requires left { IsTermIn history.now work.old t }
    requires right { IsTermIn history.now work.old u }
    ensures line { IfOk result (λ n. LineLeads work.new n (equal_term (term_at work.old.bank u) (term_at work.old.bank t)) (not_term (equal_term (term_at work.old.bank t) (term_at work.old.bank u)) ∷ [])) }
    ensures grows { WorkGrows history.now work.old work.new }
    ensures out { result ≡ Err Stop.OutOfSteps → work.new.counter.used ≡ work.new.counter.limit }
{
    let path = one_place(work.bank.alloc(), 1)?;
    let line = reflexive(work, history, t)?;
    replace_first(work, history, line, path, u, Side::Forwards)
}

/// Adds a line with `(EQUAL u t)` for the literal `(EQUAL t u)`.
pub fn symmetric(
    work: &mut Work,
    history: &History,
    t: TermId,
    u: TermId,
    line: u64,
) -> Result<u64, Stop>
    requires stands { WorkStands history.now work.old }
    requires left { IsTermIn history.now work.old t }
    requires right { IsTermIn history.now work.old u }
    requires line { LineStands work.old line }
    ensures line { IfOk result (λ n. TurnsTo work.old work.new (term_at work.old.bank t) (term_at work.old.bank u) line n) }
    ensures stands { IfOk result (λ n. LineStands work.new n) }
    ensures grows { WorkGrows history.now work.old work.new }
    ensures out { result ≡ Err Stop.OutOfSteps → work.new.counter.used ≡ work.new.counter.limit }
{
    let law = turning(work, history, t, u)?;
    discharge(work, history, Side::Forwards, t, u, law, line)
}

/// Adds the line of `(EQUAL t v)` by the equations of t and u and of u and v.
pub fn joining(
    work: &mut Work,
    history: &History,
    t: TermId,
    u: TermId,
    v: TermId,
) -> Result<u64, Stop>
    requires stands { WorkStands history.now work.old }
    requires left { IsTermIn history.now work.old t }
    requires middle { IsTermIn history.now work.old u }
    requires right { IsTermIn history.now work.old v }
    ensures line { IfOk result (λ n. LineHasOnly work.new n (equal_term (term_at work.old.bank t) (term_at work.old.bank v) ∷ not_term (equal_term (term_at work.old.bank u) (term_at work.old.bank v)) ∷ not_term (equal_term (term_at work.old.bank t) (term_at work.old.bank u)) ∷ [])) }
    ensures grows { WorkGrows history.now work.old work.new }
    ensures out { result ≡ Err Stop.OutOfSteps → work.new.counter.used ≡ work.new.counter.limit }
{
    let path = one_place(work.bank.alloc(), 2)?;
    let e = equate(work, history, t, u)?;
    let line = opposites(work, history, e)?;
    replace_first(work, history, line, path, v, Side::Forwards)
}

/// The same as `transitive`, by the line of `joining`.
fn joined_by_law(
    work: &mut Work,
    history: &History,
    t: TermId,
    u: TermId,
    v: TermId,
    first: u64,
    second: u64,
) -> Result<u64, Stop>
    requires stands { WorkStands history.now work.old }
    requires left { IsTermIn history.now work.old t }
    requires middle { IsTermIn history.now work.old u }
    requires right { IsTermIn history.now work.old v }
    requires first { LineStands work.old first }
    requires second { LineStands work.old second }
    ensures line { IfOk result (λ n. JoinsTo work.old work.new (term_at work.old.bank t) (term_at work.old.bank u) (term_at work.old.bank v) first second n) }
    ensures stands { IfOk result (λ n. LineStands work.new n) }
    ensures grows { WorkGrows history.now work.old work.new }
    ensures out { result ≡ Err Stop.OutOfSteps → work.new.counter.used ≡ work.new.counter.limit }
{
    let law = joining(work, history, t, u, v)?;
    let rest = discharge(work, history, Side::Forwards, t, u, law, first)?;
    discharge(work, history, Side::Forwards, u, v, rest, second)
}

/// Adds a line with `(EQUAL t v)` from one with `(EQUAL t u)` and one with `(EQUAL u v)`.
pub fn transitive(
    work: &mut Work,
    history: &History,
    t: TermId,
    u: TermId,
    v: TermId,
    first: u64,
    second: u64,
) -> Result<u64, Stop>
    requires stands { WorkStands history.now work.old }
    requires left { IsTermIn history.now work.old t }
    requires middle { IsTermIn history.now work.old u }
    requires right { IsTermIn history.now work.old v }
    requires first { LineStands work.old first }
    requires second { LineStands work.old second }
    ensures line { IfOk result (λ n. JoinsTo work.old work.new (term_at work.old.bank t) (term_at work.old.bank u) (term_at work.old.bank v) first second n) }
    ensures stands { IfOk result (λ n. LineStands work.new n) }
    ensures grows { WorkGrows history.now work.old work.new }
    ensures out { result ≡ Err Stop.OutOfSteps → work.new.counter.used ≡ work.new.counter.limit }
{
    match replace_right(work, history, t, u, v, first)? {
        Some(replaced) => discharge(work, history, Side::Forwards, u, v, replaced, second),
        None => joined_by_law(work, history, t, u, v, first, second),
    }
}

/// Adds a line with `(EQUAL t v)` from one with `(EQUAL t u)` and one with `(EQUAL v u)`.
pub fn meet(
    work: &mut Work,
    history: &History,
    t: TermId,
    u: TermId,
    v: TermId,
    first: u64,
    second: u64,
) -> Result<u64, Stop>
    requires stands { WorkStands history.now work.old }
    requires left { IsTermIn history.now work.old t }
    requires middle { IsTermIn history.now work.old u }
    requires right { IsTermIn history.now work.old v }
    requires first { LineStands work.old first }
    requires second { LineStands work.old second }
    ensures line { IfOk result (λ n. MeetsIn work.old work.new (term_at work.old.bank t) (term_at work.old.bank u) (term_at work.old.bank v) first second n) }
    ensures stands { IfOk result (λ n. LineStands work.new n) }
    ensures grows { WorkGrows history.now work.old work.new }
    ensures out { result ≡ Err Stop.OutOfSteps → work.new.counter.used ≡ work.new.counter.limit }
{
    let turned = symmetric(work, history, v, u, second)?;
    transitive(work, history, t, u, v, first, turned)
}
