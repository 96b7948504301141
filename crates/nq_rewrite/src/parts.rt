//! Which part of a rule's conclusion rewrites a term.
ghost use Rattle.std.specs.Prelude.{◌≡◌, IfOk, IfSome, Err};
ghost use Rattle.nq_bank.specs.Content.{Stands, terms_at};
ghost use Rattle.nq_kernel.specs.Growing.{WorkGrows};
ghost use Rattle.nq_lines.specs.Lines.{IsTermIn};
ghost use Rattle.nq_reduce.specs.Held.{IsHeld};
ghost use Rattle.nq_reduce.specs.Rewriting.{CanRewrite};

use nq_bank::{Bank, TermId, ground};
use nq_history::History;
use nq_instances::{first_part, second_part, two_in};
use nq_kernel::{Stop, Work};
use nq_lines::Fact;
use nq_rules::{left_side, two_of};

/// Does a term have a part with t as its left side, one that says that t is true, or one that says what it equals? A part that is an
/// implication has a conclusion of its own.
fn leads_to(bank: &Bank, u: TermId, t: TermId, truth: bool) -> bool
    requires { Stands bank.now u }
{
    match two_of(bank, ground::IMPLIES, u) {
        Some((_, c)) => leads_to(bank, c, t, truth),
        None => match two_of(bank, ground::AND, u) {
            Some((p, q)) => leads_to(bank, p, t, truth) || leads_to(bank, q, t, truth),
            None => left_side(bank, u).0 == t.0 && (u.0 == t.0) == truth,
        },
    }
}

/// The part of a conjunction that says of t that it is true, or what it equals.
pub fn part_for(
    work: &mut Work,
    history: &History,
    assumed: &[TermId],
    truth: bool,
    fact: Fact,
    t: TermId,
) -> Result<Option<Fact>, Stop>
    requires can { CanRewrite history.now work.old assumed.now t }
    requires fact { IsHeld history.now work.old (terms_at work.old.bank assumed.now) fact }
    ensures held { IfOk result (λ found. IfSome found (IsHeld history.now work.new (terms_at work.old.bank assumed.now))) }
    ensures grows { WorkGrows history.now work.old work.new }
    ensures out { result ≡ Err Stop.OutOfSteps → work.new.counter.used ≡ work.new.counter.limit }
{
    match two_in(work, history, ground::AND, fact.term) {
        Some(sides) => part_of(work, history, assumed, truth, fact, sides.left, t),
        None => Ok(None),
    }
}

/// The same, where the first part is known.
fn part_of(
    work: &mut Work,
    history: &History,
    assumed: &[TermId],
    truth: bool,
    fact: Fact,
    left: TermId,
    t: TermId,
) -> Result<Option<Fact>, Stop>
    requires can { CanRewrite history.now work.old assumed.now t }
    requires fact { IsHeld history.now work.old (terms_at work.old.bank assumed.now) fact }
    requires left { IsTermIn history.now work.old left }
    ensures held { IfOk result (λ found. IfSome found (IsHeld history.now work.new (terms_at work.old.bank assumed.now))) }
    ensures grows { WorkGrows history.now work.old work.new }
    ensures out { result ≡ Err Stop.OutOfSteps → work.new.counter.used ≡ work.new.counter.limit }
{
    if leads_to(&work.bank, left, t, truth) {
        first_part(work, history, fact)
    } else {
        second_part(work, history, fact)
    }
}
