//! Parts that two rows tell: the IF of both.
//!
//! A part of an object just made is what it was made of, where that may be its part, and else the default. A part of an object of
//! another kind is the default too: the IF is left in the place of the part only until its test, which is F, is rewritten.
ghost use Rattle.std.specs.Prelude.{◌≡◌, ◌∷◌, All, IfOk, IfSome, Err};
ghost use Rattle.nq_logic.specs.Words.{not_term};
ghost use Rattle.nq_bank.specs.Content.{IsIdOf, IsNamed, Stands, term_at, terms_at};
ghost use Rattle.nq_instances.specs.Parts.{IsIfOf};
ghost use Rattle.nq_kernel.specs.Growing.{WorkGrows, WorkStands};
ghost use Rattle.nq_lines.specs.Lines.{IsTermIn};
ghost use Rattle.nq_reduce.specs.Clauses.{LineIsIn};
ghost use Rattle.nq_reduce.specs.Rewriting.{CanRewrite, IsRewritten};
ghost use Rattle.nq_rule.specs.declared.branching.Branches.{Branches};

use crate::branches::with_more;
use crate::clauses::{first_of, literals_of};
use crate::following::follow;
use crate::kinds::{constructor_at, head_of, is_made_at, is_truth_value, one_argument, taken_part};
use crate::recognizing::other_kind;
use crate::results::{Rewritten, unchanged};
use crate::rows::{Chosen, row_instance};
use crate::trials::{PART_OF_MADE, PART_OF_OTHER, Trial, WRONG_PART_OF_MADE, by_trial};
use crate::whole::join;
use nq_bank::{Bank, Sym, TermId};
use nq_history::History;
use nq_kernel::{Stop, Work};
use nq_lines::{condition, deny, if_same, symmetric};
use nq_rule::Branches;

/// A part of an object, and the rows that tell it where a test holds and where it does not.
#[derive(Clone, Copy, Debug, PartialEq, Eq)]
struct Halves {
    /// The place of the shell.
    place: usize,
    /// The number of the part.
    part: u64,
    /// The row where the test holds.
    first: u64,
    /// The row where it does not: its first literal is the test.
    second: u64,
}

/// Is a term known to be of another kind than that of the shell at a place?
fn is_strange(bank: &Bank, history: &History, assumed: &[TermId], place: usize, a: TermId) -> bool
    requires assumed { All (Stands bank.now) assumed.now }
    requires argument { Stands bank.now a }
{
    is_truth_value(head_of(bank, a)) || other_kind(bank, history, assumed, place, a).is_some()
}

/// Is a term made by the constructor of the shell at a place?
fn is_made(bank: &Bank, history: &History, place: usize, a: TermId) -> bool
    requires { Stands bank.now a }
{
    match head_of(bank, a) {
        Some(f) => is_made_at(history, place, f),
        None => false,
    }
}

/// The rows that tell a part that a term takes of an object just made, or of one of another kind.
fn halves_of(bank: &Bank, history: &History, assumed: &[TermId], t: TermId) -> Option<Halves>
    requires assumed { All (Stands bank.now) assumed.now }
    requires term { Stands bank.now t }
{
    let (f, a) = one_argument(bank, t)?;
    let (place, part) = taken_part(history, f)?;
    if is_made(bank, history, place, a) {
        Some(Halves {
            place,
            part,
            first: PART_OF_MADE,
            second: WRONG_PART_OF_MADE,
        })
    } else if is_strange(bank, history, assumed, place, a) {
        Some(Halves {
            place,
            part,
            first: PART_OF_OTHER,
            second: PART_OF_OTHER,
        })
    } else {
        None
    }
}

/// The trial of the row of a part.
fn half_trial(halves: Halves, row: u64) -> Trial {
    Trial {
        place: halves.place,
        row,
        part: halves.part,
        chosen: Chosen::Last,
    }
}

/// Is there nothing gained by the two cases?
fn is_idle(halves: Halves, first: Rewritten, second: Rewritten) -> bool {
    second.line.is_none() || (first.line.is_none() && halves.first != halves.second)
}

/// A part is what two rows tell, in the cases of a test.
pub fn by_divided_part(
    work: &mut Work,
    history: &History,
    assumed: &[TermId],
    t: TermId,
) -> Result<Rewritten, Stop>
    requires can { CanRewrite history.now work.old assumed.now t }
    ensures ok { IfOk result (λ r. IsRewritten history.now work.new (terms_at work.old.bank assumed.now) (term_at work.old.bank t) r) }
    ensures grows { WorkGrows history.now work.old work.new }
    ensures out { result ≡ Err Stop.OutOfSteps → work.new.counter.used ≡ work.new.counter.limit }
{
    match halves_of(&work.bank, history, assumed, t) {
        Some(halves) => by_halves(work, history, assumed, halves, t),
        None => Ok(unchanged(t)),
    }
}

/// The same, by these rows.
fn by_halves(
    work: &mut Work,
    history: &History,
    assumed: &[TermId],
    halves: Halves,
    t: TermId,
) -> Result<Rewritten, Stop>
    requires can { CanRewrite history.now work.old assumed.now t }
    ensures ok { IfOk result (λ r. IsRewritten history.now work.new (terms_at work.old.bank assumed.now) (term_at work.old.bank t) r) }
    ensures grows { WorkGrows history.now work.old work.new }
    ensures out { result ≡ Err Stop.OutOfSteps → work.new.counter.used ≡ work.new.counter.limit }
{
    match part_test(work, history, assumed, halves, t)? {
        Some(p) => by_part_test(work, history, assumed, halves, t, p),
        None => Ok(unchanged(t)),
    }
}

/// The test that tells the rows apart.
fn part_test(
    work: &mut Work,
    history: &History,
    assumed: &[TermId],
    halves: Halves,
    t: TermId,
) -> Result<Option<TermId>, Stop>
    requires can { CanRewrite history.now work.old assumed.now t }
    ensures test { IfOk result (λ found. IfSome found (IsTermIn history.now work.new)) }
    ensures grows { WorkGrows history.now work.old work.new }
    ensures out { result ≡ Err Stop.OutOfSteps → work.new.counter.used ≡ work.new.counter.limit }
{
    match constructor_at(work, history, halves.place) {
        Some(name) => part_test_of(work, history, assumed, name, halves, t),
        None => Ok(None),
    }
}

/// The same, by the constructor.
fn part_test_of(
    work: &mut Work,
    history: &History,
    assumed: &[TermId],
    name: Sym,
    halves: Halves,
    t: TermId,
) -> Result<Option<TermId>, Stop>
    requires can { CanRewrite history.now work.old assumed.now t }
    requires name { IsNamed work.old.bank name }
    ensures test { IfOk result (λ found. IfSome found (IsTermIn history.now work.new)) }
    ensures grows { WorkGrows history.now work.old work.new }
    ensures out { result ≡ Err Stop.OutOfSteps → work.new.counter.used ≡ work.new.counter.limit }
{
    match row_instance(
        work,
        history,
        name,
        halves.second,
        halves.part,
        Chosen::Last,
        t,
    )? {
        Some(line) => first_literal(work, history, line),
        None => Ok(None),
    }
}

/// The first literal of a line.
fn first_literal(work: &Work, history: &History, line: u64) -> Result<Option<TermId>, Stop>
    requires stands { WorkStands history.now work.now }
    requires line { LineIsIn history.now work.now line }
    ensures test { IfOk result (λ found. IfSome found (IsTermIn history.now work.now)) }
    ensures memory { result ≡ Err Stop.OutOfSteps → ⊥ }
{
    let literals = literals_of(work, history, line)?;
    Ok(first_of(work, history, literals.as_slice()))
}

/// The same, by what tells it.
fn by_part_test(
    work: &mut Work,
    history: &History,
    assumed: &[TermId],
    halves: Halves,
    t: TermId,
    p: TermId,
) -> Result<Rewritten, Stop>
    requires can { CanRewrite history.now work.old assumed.now t }
    requires test { IsTermIn history.now work.old p }
    ensures ok { IfOk result (λ r. IsRewritten history.now work.new (terms_at work.old.bank assumed.now) (term_at work.old.bank t) r) }
    ensures grows { WorkGrows history.now work.old work.new }
    ensures out { result ≡ Err Stop.OutOfSteps → work.new.counter.used ≡ work.new.counter.limit }
{
    let denied = deny(work, history, p)?;
    by_part_cases(work, history, assumed, halves, t, p, denied)
}

/// The same, by both cases.
fn by_part_cases(
    work: &mut Work,
    history: &History,
    assumed: &[TermId],
    halves: Halves,
    t: TermId,
    p: TermId,
    denied: TermId,
) -> Result<Rewritten, Stop>
    requires can { CanRewrite history.now work.old assumed.now t }
    requires test { IsTermIn history.now work.old p }
    requires denied { IsIdOf work.old.bank denied (not_term (term_at work.old.bank p)) }
    requires over { IsTermIn history.now work.old denied }
    ensures ok { IfOk result (λ r. IsRewritten history.now work.new (terms_at work.old.bank assumed.now) (term_at work.old.bank t) r) }
    ensures grows { WorkGrows history.now work.old work.new }
    ensures out { result ≡ Err Stop.OutOfSteps → work.new.counter.used ≡ work.new.counter.limit }
{
    let first = by_trial_with(
        work,
        history,
        assumed,
        p,
        half_trial(halves, halves.first),
        t,
    )?;
    by_second_case(work, history, assumed, halves, t, p, denied, first)
}

/// The same, where the first case is known.
fn by_second_case(
    work: &mut Work,
    history: &History,
    assumed: &[TermId],
    halves: Halves,
    t: TermId,
    p: TermId,
    denied: TermId,
    first: Rewritten,
) -> Result<Rewritten, Stop>
    requires can { CanRewrite history.now work.old assumed.now t }
    requires test { IsTermIn history.now work.old p }
    requires denied { IsIdOf work.old.bank denied (not_term (term_at work.old.bank p)) }
    requires over { IsTermIn history.now work.old denied }
    requires first { IsRewritten history.now work.old (term_at work.old.bank p ∷ terms_at work.old.bank assumed.now) (term_at work.old.bank t) first }
    ensures ok { IfOk result (λ r. IsRewritten history.now work.new (terms_at work.old.bank assumed.now) (term_at work.old.bank t) r) }
    ensures grows { WorkGrows history.now work.old work.new }
    ensures out { result ≡ Err Stop.OutOfSteps → work.new.counter.used ≡ work.new.counter.limit }
{
    let second = by_trial_with(
        work,
        history,
        assumed,
        denied,
        half_trial(halves, halves.second),
        t,
    )?;
    if is_idle(halves, first, second) {
        Ok(unchanged(t))
    } else {
        divided(work, history, assumed, t, p, denied, first, second)
    }
}

/// What the row of a shell makes of a term where one more is assumed.
fn by_trial_with(
    work: &mut Work,
    history: &History,
    assumed: &[TermId],
    more: TermId,
    trial: Trial,
    t: TermId,
) -> Result<Rewritten, Stop>
    requires can { CanRewrite history.now work.old assumed.now t }
    requires more { IsTermIn history.now work.old more }
    ensures ok { IfOk result (λ r. IsRewritten history.now work.new (term_at work.old.bank more ∷ terms_at work.old.bank assumed.now) (term_at work.old.bank t) r) }
    ensures grows { WorkGrows history.now work.old work.new }
    ensures out { result ≡ Err Stop.OutOfSteps → work.new.counter.used ≡ work.new.counter.limit }
{
    let all = with_more(work, more, assumed)?;
    by_trial(work, history, all.as_slice(), trial, t)
}

/// A term is the IF of what it comes to where a test holds, and of what it comes to where it does not.
pub fn divided(
    work: &mut Work,
    history: &History,
    assumed: &[TermId],
    t: TermId,
    p: TermId,
    denied: TermId,
    first: Rewritten,
    second: Rewritten,
) -> Result<Rewritten, Stop>
    requires can { CanRewrite history.now work.old assumed.now t }
    requires test { IsTermIn history.now work.old p }
    requires denied { IsIdOf work.old.bank denied (not_term (term_at work.old.bank p)) }
    requires over { IsTermIn history.now work.old denied }
    requires first { IsRewritten history.now work.old (term_at work.old.bank p ∷ terms_at work.old.bank assumed.now) (term_at work.old.bank t) first }
    requires second { IsRewritten history.now work.old (term_at work.old.bank denied ∷ terms_at work.old.bank assumed.now) (term_at work.old.bank t) second }
    ensures ok { IfOk result (λ r. IsRewritten history.now work.new (terms_at work.old.bank assumed.now) (term_at work.old.bank t) r) }
    ensures grows { WorkGrows history.now work.old work.new }
    ensures out { result ≡ Err Stop.OutOfSteps → work.new.counter.used ≡ work.new.counter.limit }
{
    let whole = doubled(work, history, assumed, t, p)?;
    divided_by(work, history, assumed, t, whole, p, denied, first, second)
}

/// A term as the IF of a test with the term as both branches.
fn doubled(
    work: &mut Work,
    history: &History,
    assumed: &[TermId],
    t: TermId,
    p: TermId,
) -> Result<Rewritten, Stop>
    requires can { CanRewrite history.now work.old assumed.now t }
    requires test { IsTermIn history.now work.old p }
    ensures ok { IfOk result (λ r. IsRewritten history.now work.new (terms_at work.old.bank assumed.now) (term_at work.old.bank t) r) }
    ensures parts { IfOk result (λ r. IsIfOf history.now work.new r.term (record { test = p; first = t; second = t })) }
    ensures grows { WorkGrows history.now work.old work.new }
    ensures out { result ≡ Err Stop.OutOfSteps → work.new.counter.used ≡ work.new.counter.limit }
{
    let parts = Branches {
        test: p,
        first: t,
        second: t,
    };
    let whole = condition(work, history, parts)?;
    let same = if_same(work, history, p, t)?;
    let line = symmetric(work, history, whole, t, same)?;
    Ok(Rewritten {
        term: whole,
        line: Some(line),
    })
}

/// The same, by the IF that has the term as both branches.
fn divided_by(
    work: &mut Work,
    history: &History,
    assumed: &[TermId],
    t: TermId,
    whole: Rewritten,
    p: TermId,
    denied: TermId,
    first: Rewritten,
    second: Rewritten,
) -> Result<Rewritten, Stop>
    requires can { CanRewrite history.now work.old assumed.now t }
    requires whole { IsRewritten history.now work.old (terms_at work.old.bank assumed.now) (term_at work.old.bank t) whole }
    requires parts { IsIfOf history.now work.old whole.term (record { test = p; first = t; second = t }) }
    requires test { IsTermIn history.now work.old p }
    requires denied { IsIdOf work.old.bank denied (not_term (term_at work.old.bank p)) }
    requires over { IsTermIn history.now work.old denied }
    requires first { IsRewritten history.now work.old (term_at work.old.bank p ∷ terms_at work.old.bank assumed.now) (term_at work.old.bank t) first }
    requires second { IsRewritten history.now work.old (term_at work.old.bank denied ∷ terms_at work.old.bank assumed.now) (term_at work.old.bank t) second }
    ensures ok { IfOk result (λ r. IsRewritten history.now work.new (terms_at work.old.bank assumed.now) (term_at work.old.bank t) r) }
    ensures grows { WorkGrows history.now work.old work.new }
    ensures out { result ≡ Err Stop.OutOfSteps → work.new.counter.used ≡ work.new.counter.limit }
{
    let parts = Branches {
        test: p,
        first: t,
        second: t,
    };
    let joined = join(
        work,
        history,
        assumed,
        whole.term,
        parts,
        Rewritten {
            term: p,
            line: None,
        },
        first,
        denied,
        second,
    )?;
    follow(work, history, assumed, t, whole, joined)
}
