//! The line of a rule: the conclusion of the term of an axiom or a lemma, under the NOTs of its hypotheses.
ghost use Rattle.std.specs.Prelude.{◌≡◌, ◌∷◌, [], ◌++◌, All, IfOk, OnOk, Err, Some, map};
ghost use Rattle.nq_logic.specs.RuleShapes.{and_parts, rule_parts};
ghost use Rattle.nq_logic.specs.Words.{and_term, implies_term, not_term};
ghost use Rattle.nq_bank.specs.Content.{IsNamed, Stands, term_at, terms_at, text_at};
ghost use Rattle.nq_history.specs.Events.{events_at};
ghost use Rattle.nq_kernel.specs.Growing.{LineHolds, LineStands, WorkGrows, WorkStands};
ghost use Rattle.nq_lines.specs.Lines.{IsTermIn, LineHasOnly};
ghost use Rattle.nq_proof.specs.Rules.{event_term};
ghost use Rattle.nq_replay.specs.LawClauses.{implication_opens_clause, pair_holds_clause};
ghost use Rattle.nq_eliminate.specs.Supposing.{OpensTo, PairsTo, SupposesTo, TakesTo};

use crate::literals::push_id;
use nq_bank::{Bank, Sym, TermId, ground};
use nq_clause::Pair;
use nq_history::History;
use nq_kernel::{Stop, Work};
use nq_lines::{cut, event_line, instance, opposites, symbol};
use nq_replay::{implication_opens, pair_holds};
use nq_rules::two_of;
use std::alloc::Global;

/// Two pairs.
fn two_pairs(alloc: Global, first: Pair, second: Pair) -> Result<Vec<Pair>, Stop>
    ensures ok { IfOk result (λ v. v.items ≡ first ∷ second ∷ []) }
    ensures memory { result ≡ Err Stop.OutOfSteps → ⊥ }
{
    match Vec::from_slice(alloc, &[first, second]) {
        Ok(v) => Ok(v),
        Err(_) => Err(Stop::Memory),
    }
}

/// Adds the line of a law, with two terms in the places of X and Y.
fn law_at(work: &mut Work, history: &History, law: u64, t: TermId, u: TermId) -> Result<u64, Stop>
    requires stands { WorkStands history.now work.old }
    requires law { LineStands work.old law }
    requires left { IsTermIn history.now work.old t }
    requires right { IsTermIn history.now work.old u }
    ensures line { IfOk result (λ n. TakesTo work.old work.new (term_at work.old.bank t) (term_at work.old.bank u) law n) }
    ensures grows { WorkGrows history.now work.old work.new }
    ensures out { result ≡ Err Stop.OutOfSteps → work.new.counter.used ≡ work.new.counter.limit }
{
    let x = symbol(work, history, b"X")?;
    let y = symbol(work, history, b"Y")?;
    let first = Pair {
        variable: x,
        term: t,
    };
    let second = Pair {
        variable: y,
        term: u,
    };
    let pairs = two_pairs(work.bank.alloc(), first, second)?;
    instance(work, history, law, pairs)
}

/// The law that opens an implication.
fn implication_law(work: &mut Work, history: &History) -> Result<u64, Stop>
    requires { WorkStands history.now work.old }
    ensures line { IfOk result (λ n. LineHolds work.new n implication_opens_clause) }
    ensures grows { WorkGrows history.now work.old work.new }
    ensures memory { result ≡ Err Stop.OutOfSteps → ⊥ }
{
    match implication_opens(work, history) {
        Ok(line) => Ok(line),
        Err(_) => Err(Stop::Memory),
    }
}

/// The law that puts two terms together.
fn pair_law(work: &mut Work, history: &History) -> Result<u64, Stop>
    requires { WorkStands history.now work.old }
    ensures line { IfOk result (λ n. LineHolds work.new n pair_holds_clause) }
    ensures grows { WorkGrows history.now work.old work.new }
    ensures memory { result ≡ Err Stop.OutOfSteps → ⊥ }
{
    match pair_holds(work, history) {
        Ok(line) => Ok(line),
        Err(_) => Err(Stop::Memory),
    }
}

/// Adds a line with what an implication leads to, under its hypothesis.
fn opened(
    work: &mut Work,
    history: &History,
    whole: TermId,
    p: TermId,
    q: TermId,
    line: u64,
) -> Result<u64, Stop>
    requires stands { WorkStands history.now work.old }
    requires whole { IsTermIn history.now work.old whole }
    requires whole_is { term_at work.old.bank whole ≡ implies_term (term_at work.old.bank p) (term_at work.old.bank q) }
    requires left { IsTermIn history.now work.old p }
    requires right { IsTermIn history.now work.old q }
    requires line { LineStands work.old line }
    ensures line { IfOk result (λ n. OpensTo work.old work.new (term_at work.old.bank p) (term_at work.old.bank q) line n) }
    ensures stands { IfOk result (λ n. LineStands work.new n) }
    ensures grows { WorkGrows history.now work.old work.new }
    ensures out { result ≡ Err Stop.OutOfSteps → work.new.counter.used ≡ work.new.counter.limit }
{
    let law = implication_law(work, history)?;
    let here = law_at(work, history, law, p, q)?;
    cut(work, history, line, here, whole)
}

/// Adds a line with the AND of two terms, from a line with each.
fn joined(
    work: &mut Work,
    history: &History,
    p: TermId,
    q: TermId,
    first: u64,
    second: u64,
) -> Result<u64, Stop>
    requires stands { WorkStands history.now work.old }
    requires left { IsTermIn history.now work.old p }
    requires right { IsTermIn history.now work.old q }
    requires first { LineStands work.old first }
    requires second { LineStands work.old second }
    ensures line { IfOk result (λ n. PairsTo work.old work.new (term_at work.old.bank p) (term_at work.old.bank q) first second n) }
    ensures grows { WorkGrows history.now work.old work.new }
    ensures out { result ≡ Err Stop.OutOfSteps → work.new.counter.used ≡ work.new.counter.limit }
{
    let law = pair_law(work, history)?;
    let here = law_at(work, history, law, p, q)?;
    let rest = cut(work, history, first, here, p)?;
    cut(work, history, second, rest, q)
}

/// Adds the line of a term under the NOTs of its AND parts.
fn holds(work: &mut Work, history: &History, p: TermId) -> Result<u64, Stop>
    requires stands { WorkStands history.now work.old }
    requires term { IsTermIn history.now work.old p }
    ensures line { IfOk result (λ n. LineHasOnly work.new n (term_at work.old.bank p ∷ map not_term (and_parts (term_at work.old.bank p)))) }
    ensures grows { WorkGrows history.now work.old work.new }
    ensures out { result ≡ Err Stop.OutOfSteps → work.new.counter.used ≡ work.new.counter.limit }
{
    match two_of(&work.bank, ground::AND, p) {
        Some((a, b)) => {
            let first = holds(work, history, a)?;
            let second = holds(work, history, b)?;
            joined(work, history, a, b, first, second)
        }
        None => opposites(work, history, p),
    }
}

/// Adds the line of the conclusion of a term under its hypotheses, from a line with the term.
fn supposed(work: &mut Work, history: &History, t: TermId, line: u64) -> Result<u64, Stop>
    requires stands { WorkStands history.now work.old }
    requires term { IsTermIn history.now work.old t }
    requires line { LineStands work.old line }
    ensures line { IfOk result (λ n. SupposesTo work.old work.new (term_at work.old.bank t) line n) }
    ensures grows { WorkGrows history.now work.old work.new }
    ensures out { result ≡ Err Stop.OutOfSteps → work.new.counter.used ≡ work.new.counter.limit }
{
    match two_of(&work.bank, ground::IMPLIES, t) {
        Some((p, q)) => {
            let shown = holds(work, history, p)?;
            let under = opened(work, history, t, p, q, line)?;
            let rest = cut(work, history, shown, under, p)?;
            supposed(work, history, q, rest)
        }
        None => Ok(line),
    }
}

/// Adds the line of the conclusion of an axiom or a lemma, under its hypotheses.
pub fn rule_line(work: &mut Work, history: &History, name: Sym, t: TermId) -> Result<u64, Stop>
    requires stands { WorkStands history.now work.old }
    requires name { IsNamed work.old.bank name }
    requires event { event_term (text_at work.old.bank name) (events_at work.old.bank history.now) ≡ Some (term_at work.old.bank t) }
    requires term { IsTermIn history.now work.old t }
    ensures line { IfOk result (λ n. LineHasOnly work.new n ((rule_parts (term_at work.old.bank t)).conclusion ∷ map not_term (rule_parts (term_at work.old.bank t)).hypotheses)) }
    ensures grows { WorkGrows history.now work.old work.new }
    ensures out { result ≡ Err Stop.OutOfSteps → work.new.counter.used ≡ work.new.counter.limit }
{
    let line = event_line(work, history, name)?;
    supposed(work, history, t, line)
}

/// Puts the AND parts of a term at the end.
fn put_parts(bank: &Bank, t: TermId, found: &mut Vec<TermId>) -> Result<(), Stop>
    requires term { Stands bank.now t }
    requires found { All (Stands bank.now) found.old.items }
    ensures more { OnOk result (terms_at bank.now found.new.items ≡ terms_at bank.now found.old.items ++ and_parts (term_at bank.now t)) }
    ensures stand { OnOk result (All (Stands bank.now) found.new.items) }
    ensures memory { result ≡ Err Stop.OutOfSteps → ⊥ }
{
    match two_of(bank, ground::AND, t) {
        Some((p, q)) => {
            put_parts(bank, p, found)?;
            put_parts(bank, q, found)?;
            Ok(())
        }
        None => {
            push_id(found, t)?;
            Ok(())
        }
    }
}

/// Puts the hypotheses of a term at the end.
fn put_hypotheses(bank: &Bank, t: TermId, found: &mut Vec<TermId>) -> Result<(), Stop>
    requires term { Stands bank.now t }
    requires found { All (Stands bank.now) found.old.items }
    ensures more { OnOk result (terms_at bank.now found.new.items ≡ terms_at bank.now found.old.items ++ (rule_parts (term_at bank.now t)).hypotheses) }
    ensures stand { OnOk result (All (Stands bank.now) found.new.items) }
    ensures memory { result ≡ Err Stop.OutOfSteps → ⊥ }
{
    match two_of(bank, ground::IMPLIES, t) {
        Some((p, q)) => {
            put_parts(bank, p, found)?;
            put_hypotheses(bank, q, found)?;
            Ok(())
        }
        None => Ok(()),
    }
}

/// The hypotheses of a term.
pub fn hypotheses_in(bank: &Bank, t: TermId) -> Result<Vec<TermId>, Stop>
    requires { Stands bank.now t }
    ensures are { IfOk result (λ v. terms_at bank.now v.items ≡ (rule_parts (term_at bank.now t)).hypotheses) }
    ensures stand { IfOk result (λ v. All (Stands bank.now) v.items) }
    ensures memory { result ≡ Err Stop.OutOfSteps → ⊥ }
{
    let mut found = Vec::new(bank.alloc());
    put_hypotheses(bank, t, &mut found)?;
    Ok(found)
}
