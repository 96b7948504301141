//! Literals of a line that are dropped, since they are known to be false where others are assumed.
ghost use Rattle.std.specs.Prelude.{◌≡◌, ◌≤◌, ◌∷◌, ◌++◌, All, drop, length, IfOk, IfSome, Err, codes};
ghost use Rattle.nq_logic.specs.Words.{equal_term, false_term, not_term};
ghost use Rattle.nq_bank.specs.Content.{term_at, terms_at};
ghost use Rattle.nq_kernel.specs.Growing.{LineStands, WorkGrows};
ghost use Rattle.nq_instances.specs.Parts.{AreSides};
ghost use Rattle.nq_lines.specs.Lines.{IsTermIn, LineHasOnly};
ghost use Rattle.nq_reduce.specs.Clauses.{AreLiterals, DropsTo};
ghost use Rattle.nq_reduce.specs.Rewriting.{CanRewrite, IsKnown, denials};

use crate::clauses::literals_of;
use crate::knowledge::{Known, known_false};
use crate::settling::settled;
use crate::values::is_falsity;
use nq_bank::{TermId, ground};
use nq_history::History;
use nq_instances::two_in;
use nq_kernel::{Stop, Work};
use nq_lines::{Sides, cut, from_equal_false, is_same};
use nq_rules::one_of;

/// Adds a line without a literal that is known to be false.
fn without(
    work: &mut Work,
    history: &History,
    assumed: &[TermId],
    t: TermId,
    line: u64,
) -> Result<Option<u64>, Stop>
    requires can { CanRewrite history.now work.old assumed.now t }
    requires line { LineStands work.old line }
    ensures line { IfOk result (λ found. IfSome found (λ n. DropsTo work.old work.new (denials (terms_at work.old.bank assumed.now)) (term_at work.old.bank t) line n)) }
    ensures stands { IfOk result (λ found. IfSome found (λ n. LineStands work.new n)) }
    ensures grows { WorkGrows history.now work.old work.new }
    ensures out { result ≡ Err Stop.OutOfSteps → work.new.counter.used ≡ work.new.counter.limit }
{
    match one_of(&work.bank, ground::NOT, t) {
        Some(p) => without_denial(work, history, assumed, t, p, line),
        None => without_other(work, history, assumed, t, line),
    }
}

/// The same, of a literal that is no NOT.
fn without_other(
    work: &mut Work,
    history: &History,
    assumed: &[TermId],
    t: TermId,
    line: u64,
) -> Result<Option<u64>, Stop>
    requires can { CanRewrite history.now work.old assumed.now t }
    requires line { LineStands work.old line }
    ensures line { IfOk result (λ found. IfSome found (λ n. DropsTo work.old work.new (denials (terms_at work.old.bank assumed.now)) (term_at work.old.bank t) line n)) }
    ensures stands { IfOk result (λ found. IfSome found (λ n. LineStands work.new n)) }
    ensures grows { WorkGrows history.now work.old work.new }
    ensures out { result ≡ Err Stop.OutOfSteps → work.new.counter.used ≡ work.new.counter.limit }
{
    match two_in(work, history, ground::EQUAL, t) {
        Some(sides) => without_equation(work, history, assumed, t, sides, line),
        None => without_term(work, history, assumed, t, line),
    }
}

/// The same, of an equation.
fn without_equation(
    work: &mut Work,
    history: &History,
    assumed: &[TermId],
    t: TermId,
    sides: Sides,
    line: u64,
) -> Result<Option<u64>, Stop>
    requires can { CanRewrite history.now work.old assumed.now t }
    requires sides { AreSides history.now work.old (codes "EQUAL") t sides }
    requires line { LineStands work.old line }
    ensures line { IfOk result (λ found. IfSome found (λ n. DropsTo work.old work.new (denials (terms_at work.old.bank assumed.now)) (term_at work.old.bank t) line n)) }
    ensures stands { IfOk result (λ found. IfSome found (λ n. LineStands work.new n)) }
    ensures grows { WorkGrows history.now work.old work.new }
    ensures out { result ≡ Err Stop.OutOfSteps → work.new.counter.used ≡ work.new.counter.limit }
{
    if is_falsity(&work.bank, sides.right) {
        without_false(work, history, assumed, t, sides.left, line)
    } else {
        without_term(work, history, assumed, t, line)
    }
}

/// The same, of the equation of a term and F.
fn without_false(
    work: &mut Work,
    history: &History,
    assumed: &[TermId],
    t: TermId,
    p: TermId,
    line: u64,
) -> Result<Option<u64>, Stop>
    requires can { CanRewrite history.now work.old assumed.now t }
    requires says { term_at work.old.bank t ≡ equal_term (term_at work.old.bank p) false_term }
    requires part { IsTermIn history.now work.old p }
    requires line { LineStands work.old line }
    ensures line { IfOk result (λ found. IfSome found (λ n. DropsTo work.old work.new (denials (terms_at work.old.bank assumed.now)) (term_at work.old.bank t) line n)) }
    ensures stands { IfOk result (λ found. IfSome found (λ n. LineStands work.new n)) }
    ensures grows { WorkGrows history.now work.old work.new }
    ensures out { result ≡ Err Stop.OutOfSteps → work.new.counter.used ≡ work.new.counter.limit }
{
    match settled(work, history, assumed, p)? {
        Some(known) => without_false_of(work, history, assumed, t, p, line, known),
        None => Ok(None),
    }
}

/// The same, by what is known of the term.
fn without_false_of(
    work: &mut Work,
    history: &History,
    assumed: &[TermId],
    t: TermId,
    p: TermId,
    line: u64,
    known: Known,
) -> Result<Option<u64>, Stop>
    requires can { CanRewrite history.now work.old assumed.now t }
    requires says { term_at work.old.bank t ≡ equal_term (term_at work.old.bank p) false_term }
    requires part { IsTermIn history.now work.old p }
    requires line { LineStands work.old line }
    requires known { IsKnown work.old (terms_at work.old.bank assumed.now) (term_at work.old.bank p) known }
    ensures line { IfOk result (λ found. IfSome found (λ n. DropsTo work.old work.new (denials (terms_at work.old.bank assumed.now)) (term_at work.old.bank t) line n)) }
    ensures stands { IfOk result (λ found. IfSome found (λ n. LineStands work.new n)) }
    ensures grows { WorkGrows history.now work.old work.new }
    ensures out { result ≡ Err Stop.OutOfSteps → work.new.counter.used ≡ work.new.counter.limit }
{
    if known.value {
        let denied = from_equal_false(work, history, p, line)?;
        let n = cut(work, history, known.line, denied, p)?;
        Ok(Some(n))
    } else {
        Ok(None)
    }
}

/// The same, of any term.
fn without_term(
    work: &mut Work,
    history: &History,
    assumed: &[TermId],
    t: TermId,
    line: u64,
) -> Result<Option<u64>, Stop>
    requires can { CanRewrite history.now work.old assumed.now t }
    requires line { LineStands work.old line }
    ensures line { IfOk result (λ found. IfSome found (λ n. DropsTo work.old work.new (denials (terms_at work.old.bank assumed.now)) (term_at work.old.bank t) line n)) }
    ensures stands { IfOk result (λ found. IfSome found (λ n. LineStands work.new n)) }
    ensures grows { WorkGrows history.now work.old work.new }
    ensures out { result ≡ Err Stop.OutOfSteps → work.new.counter.used ≡ work.new.counter.limit }
{
    match denied_or_settled(work, history, assumed, t)? {
        Some(known) => without_known(work, history, assumed, t, line, known),
        None => Ok(None),
    }
}

/// That a term is false, where its NOT is assumed, though it may be assumed too; or else what is known of it at once.
fn denied_or_settled(
    work: &mut Work,
    history: &History,
    assumed: &[TermId],
    t: TermId,
) -> Result<Option<Known>, Stop>
    requires can { CanRewrite history.now work.old assumed.now t }
    ensures known { IfOk result (λ found. IfSome found (λ known. IsKnown work.new (terms_at work.old.bank assumed.now) (term_at work.old.bank t) known)) }
    ensures grows { WorkGrows history.now work.old work.new }
    ensures out { result ≡ Err Stop.OutOfSteps → work.new.counter.used ≡ work.new.counter.limit }
{
    match known_false(work, history, assumed, t)? {
        Some(known) => Ok(Some(known)),
        None => settled(work, history, assumed, t),
    }
}

/// The same, by what is known of the literal.
fn without_known(
    work: &mut Work,
    history: &History,
    assumed: &[TermId],
    t: TermId,
    line: u64,
    known: Known,
) -> Result<Option<u64>, Stop>
    requires can { CanRewrite history.now work.old assumed.now t }
    requires line { LineStands work.old line }
    requires known { IsKnown work.old (terms_at work.old.bank assumed.now) (term_at work.old.bank t) known }
    ensures line { IfOk result (λ found. IfSome found (λ n. DropsTo work.old work.new (denials (terms_at work.old.bank assumed.now)) (term_at work.old.bank t) line n)) }
    ensures stands { IfOk result (λ found. IfSome found (λ n. LineStands work.new n)) }
    ensures grows { WorkGrows history.now work.old work.new }
    ensures out { result ≡ Err Stop.OutOfSteps → work.new.counter.used ≡ work.new.counter.limit }
{
    if known.value {
        Ok(None)
    } else {
        let n = cut(work, history, line, known.line, t)?;
        Ok(Some(n))
    }
}

/// The same, of the NOT of a term.
fn without_denial(
    work: &mut Work,
    history: &History,
    assumed: &[TermId],
    t: TermId,
    p: TermId,
    line: u64,
) -> Result<Option<u64>, Stop>
    requires can { CanRewrite history.now work.old assumed.now t }
    requires denies { term_at work.old.bank t ≡ not_term (term_at work.old.bank p) }
    requires denied { IsTermIn history.now work.old p }
    requires line { LineStands work.old line }
    ensures line { IfOk result (λ found. IfSome found (λ n. DropsTo work.old work.new (denials (terms_at work.old.bank assumed.now)) (term_at work.old.bank t) line n)) }
    ensures stands { IfOk result (λ found. IfSome found (λ n. LineStands work.new n)) }
    ensures grows { WorkGrows history.now work.old work.new }
    ensures out { result ≡ Err Stop.OutOfSteps → work.new.counter.used ≡ work.new.counter.limit }
{
    match settled(work, history, assumed, p)? {
        Some(known) => without_denial_of(work, history, assumed, t, p, line, known),
        None => Ok(None),
    }
}

/// The same, by what is known of the term.
fn without_denial_of(
    work: &mut Work,
    history: &History,
    assumed: &[TermId],
    t: TermId,
    p: TermId,
    line: u64,
    known: Known,
) -> Result<Option<u64>, Stop>
    requires can { CanRewrite history.now work.old assumed.now t }
    requires denies { term_at work.old.bank t ≡ not_term (term_at work.old.bank p) }
    requires denied { IsTermIn history.now work.old p }
    requires line { LineStands work.old line }
    requires known { IsKnown work.old (terms_at work.old.bank assumed.now) (term_at work.old.bank p) known }
    ensures line { IfOk result (λ found. IfSome found (λ n. DropsTo work.old work.new (denials (terms_at work.old.bank assumed.now)) (term_at work.old.bank t) line n)) }
    ensures stands { IfOk result (λ found. IfSome found (λ n. LineStands work.new n)) }
    ensures grows { WorkGrows history.now work.old work.new }
    ensures out { result ≡ Err Stop.OutOfSteps → work.new.counter.used ≡ work.new.counter.limit }
{
    if known.value {
        let n = cut(work, history, known.line, line, p)?;
        Ok(Some(n))
    } else {
        Ok(None)
    }
}

/// Adds a line without a literal that is known to be false, unless it is the one that is kept.
fn kept_or_without(
    work: &mut Work,
    history: &History,
    assumed: &[TermId],
    kept: TermId,
    t: TermId,
    line: u64,
) -> Result<Option<u64>, Stop>
    requires can { CanRewrite history.now work.old assumed.now t }
    requires kept { IsTermIn history.now work.old kept }
    requires line { LineStands work.old line }
    ensures line { IfOk result (λ found. IfSome found (λ n. DropsTo work.old work.new (term_at work.old.bank kept ∷ denials (terms_at work.old.bank assumed.now)) (term_at work.old.bank t) line n)) }
    ensures stands { IfOk result (λ found. IfSome found (λ n. LineStands work.new n)) }
    ensures grows { WorkGrows history.now work.old work.new }
    ensures out { result ≡ Err Stop.OutOfSteps → work.new.counter.used ≡ work.new.counter.limit }
{
    if is_same(t, kept) {
        Ok(Some(line))
    } else {
        without(work, history, assumed, t, line)
    }
}

/// Adds a line that has only one of these literals, from a line of them, where each other one is known to be false.
pub fn kept_among(
    work: &mut Work,
    history: &History,
    assumed: &[TermId],
    kept: TermId,
    goal: &[TermId],
    line: u64,
) -> Result<Option<u64>, Stop>
    requires can { CanRewrite history.now work.old assumed.now kept }
    requires goal { All (IsTermIn history.now work.old) goal.now }
    requires line { LineHasOnly work.old line (terms_at work.old.bank goal.now) }
    ensures line { IfOk result (λ found. IfSome found (λ n. LineHasOnly work.new n (term_at work.old.bank kept ∷ denials (terms_at work.old.bank assumed.now)))) }
    ensures grows { WorkGrows history.now work.old work.new }
    ensures out { result ≡ Err Stop.OutOfSteps → work.new.counter.used ≡ work.new.counter.limit }
{
    let literals = literals_of(work, history, line)?;
    kept_alone(work, history, assumed, kept, literals.as_slice(), line)
}

/// Adds a line that has only one of the literals of another, where each other one is known to be false.
pub fn kept_alone(
    work: &mut Work,
    history: &History,
    assumed: &[TermId],
    kept: TermId,
    literals: &[TermId],
    line: u64,
) -> Result<Option<u64>, Stop>
    requires can { CanRewrite history.now work.old assumed.now kept }
    requires literals { AreLiterals history.now work.old line literals.now }
    ensures line { IfOk result (λ found. IfSome found (λ n. LineHasOnly work.new n (term_at work.old.bank kept ∷ denials (terms_at work.old.bank assumed.now)))) }
    ensures grows { WorkGrows history.now work.old work.new }
    ensures out { result ≡ Err Stop.OutOfSteps → work.new.counter.used ≡ work.new.counter.limit }
{
    kept_rest(work, history, assumed, kept, literals, 0, line)
}

/// The same, where the literals from a place on are left.
fn kept_rest(
    work: &mut Work,
    history: &History,
    assumed: &[TermId],
    kept: TermId,
    literals: &[TermId],
    place: usize,
    line: u64,
) -> Result<Option<u64>, Stop>
    requires can { CanRewrite history.now work.old assumed.now kept }
    requires literals { All (IsTermIn history.now work.old) literals.now }
    requires place { place ≤ length literals.now }
    requires line { LineHasOnly work.old line (terms_at work.old.bank (drop place literals.now) ++ (term_at work.old.bank kept ∷ denials (terms_at work.old.bank assumed.now))) }
    ensures line { IfOk result (λ found. IfSome found (λ n. LineHasOnly work.new n (term_at work.old.bank kept ∷ denials (terms_at work.old.bank assumed.now)))) }
    ensures grows { WorkGrows history.now work.old work.new }
    ensures out { result ≡ Err Stop.OutOfSteps → work.new.counter.used ≡ work.new.counter.limit }
{
    if place == literals.len() {
        return Ok(Some(line));
    }
    match kept_or_without(work, history, assumed, kept, literals[place], line)? {
        Some(n) => kept_rest(work, history, assumed, kept, literals, place + 1, n),
        None => Ok(None),
    }
}
