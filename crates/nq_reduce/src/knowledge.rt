//! What is known of a test.
ghost use Rattle.std.specs.Prelude.{◌≡◌, ◌∷◌, [], IfOk, IfSome, IsTrue, Err};
ghost use Rattle.nq_logic.specs.Terms.{IsAmong};
ghost use Rattle.nq_logic.specs.Words.{not_term, true_term, false_term};
ghost use Rattle.nq_bank.specs.Content.{Stands, term_at, terms_at};
ghost use Rattle.nq_kernel.specs.Growing.{WorkGrows};
ghost use Rattle.nq_reduce.specs.Rewriting.{CanRewrite, IsAssumedFalse, IsKnown};

use nq_bank::{Bank, Node, TermId, ground, ground_name};
use nq_history::History;
use nq_kernel::{Stop, Work};
use nq_lines::{falsity, is_same, opposites, row_line, truth};

/// That a term is true or false, and the number of the line that shows it.
#[derive(Clone, Copy, Debug, PartialEq, Eq)]
pub struct Known {
    /// Whether it is true.
    pub value: bool,
    /// The line of the term or its NOT.
    pub line: u64,
}

/// Is a term assumed?
fn is_assumed(bank: &Bank, assumed: &[TermId], t: TermId) -> bool
    ensures { IsTrue result → IsAmong (term_at bank.now t) (terms_at bank.now assumed.now) }
{
    for a in assumed {
        if a.0 == t.0 {
            return true;
        }
    }
    false
}

/// Is a the NOT of t?
fn is_denial(bank: &Bank, a: TermId, t: TermId) -> bool
    requires { Stands bank.now a }
    ensures { IsTrue result → term_at bank.now a ≡ not_term (term_at bank.now t) }
{
    match bank.node(a) {
        Node::App(f, _) => {
            let arguments = bank.args(a);
            match arguments {
                [p] => is_same(*p, t) && bank.is_ground(f, ground::NOT),
                [] => false,
                _ => false,
            }
        }
        Node::Num(_) => false,
        Node::Var(_) => false,
    }
}

/// The NOT of a term, where it is assumed.
fn assumed_denial(work: &Work, history: &History, assumed: &[TermId], t: TermId) -> Option<TermId>
    requires can { CanRewrite history.now work.now assumed.now t }
    ensures { IfSome result (IsAssumedFalse history.now work.now assumed.now t) }
{
    for a in assumed {
        if is_denial(&work.bank, *a, t) {
            return Some(*a);
        }
    }
    None
}

/// What is known of a term where these are assumed: it is one of them, or its NOT is.
fn known_by_assumption(
    work: &mut Work,
    history: &History,
    assumed: &[TermId],
    t: TermId,
) -> Result<Option<Known>, Stop>
    requires can { CanRewrite history.now work.old assumed.now t }
    ensures known { IfOk result (λ found. IfSome found (λ known. IsKnown work.new (terms_at work.old.bank assumed.now) (term_at work.old.bank t) known)) }
    ensures grows { WorkGrows history.now work.old work.new }
    ensures out { result ≡ Err Stop.OutOfSteps → work.new.counter.used ≡ work.new.counter.limit }
{
    if is_assumed(&work.bank, assumed, t) {
        let line = opposites(work, history, t)?;
        return Ok(Some(Known { value: true, line }));
    }
    known_false(work, history, assumed, t)
}

/// That a term is false, where its NOT is assumed.
pub fn known_false(
    work: &mut Work,
    history: &History,
    assumed: &[TermId],
    t: TermId,
) -> Result<Option<Known>, Stop>
    requires can { CanRewrite history.now work.old assumed.now t }
    ensures known { IfOk result (λ found. IfSome found (λ known. IsKnown work.new (terms_at work.old.bank assumed.now) (term_at work.old.bank t) known)) }
    ensures grows { WorkGrows history.now work.old work.new }
    ensures out { result ≡ Err Stop.OutOfSteps → work.new.counter.used ≡ work.new.counter.limit }
{
    match assumed_denial(work, history, assumed, t) {
        Some(a) => {
            let line = opposites(work, history, a)?;
            Ok(Some(Known { value: false, line }))
        }
        None => Ok(None),
    }
}

/// What is known of a term where these are assumed: it is T or F, or one of them, or its NOT is.
pub fn known_truth(
    work: &mut Work,
    history: &History,
    assumed: &[TermId],
    t: TermId,
) -> Result<Option<Known>, Stop>
    requires can { CanRewrite history.now work.old assumed.now t }
    ensures known { IfOk result (λ found. IfSome found (λ known. IsKnown work.new (terms_at work.old.bank assumed.now) (term_at work.old.bank t) known)) }
    ensures grows { WorkGrows history.now work.old work.new }
    ensures out { result ≡ Err Stop.OutOfSteps → work.new.counter.used ≡ work.new.counter.limit }
{
    match known_truth_value(work, history, assumed, t)? {
        Some(known) => Ok(Some(known)),
        None => known_by_assumption(work, history, assumed, t),
    }
}

/// That T is true.
fn known_truth_value(
    work: &mut Work,
    history: &History,
    assumed: &[TermId],
    t: TermId,
) -> Result<Option<Known>, Stop>
    requires can { CanRewrite history.now work.old assumed.now t }
    ensures known { IfOk result (λ found. IfSome found (λ known. IsKnown work.new (terms_at work.old.bank assumed.now) (term_at work.old.bank t) known)) }
    ensures grows { WorkGrows history.now work.old work.new }
    ensures out { result ≡ Err Stop.OutOfSteps → work.new.counter.used ≡ work.new.counter.limit }
{
    let yes = truth(work, history)?;
    if is_same(t, yes) {
        known_true_value(work, history, assumed, t)
    } else {
        known_false_value(work, history, assumed, t)
    }
}

/// That T is true, where the term is T.
fn known_true_value(
    work: &mut Work,
    history: &History,
    assumed: &[TermId],
    t: TermId,
) -> Result<Option<Known>, Stop>
    requires can { CanRewrite history.now work.old assumed.now t }
    requires is { term_at work.old.bank t ≡ true_term }
    ensures known { IfOk result (λ found. IfSome found (λ known. IsKnown work.new (terms_at work.old.bank assumed.now) (term_at work.old.bank t) known)) }
    ensures grows { WorkGrows history.now work.old work.new }
    ensures out { result ≡ Err Stop.OutOfSteps → work.new.counter.used ≡ work.new.counter.limit }
{
    let name = ground_name(&work.bank, ground::TRUE);
    let line = row_line(work, history, name, 1, 0)?;
    Ok(Some(Known { value: true, line }))
}

/// That F is false.
fn known_false_value(
    work: &mut Work,
    history: &History,
    assumed: &[TermId],
    t: TermId,
) -> Result<Option<Known>, Stop>
    requires can { CanRewrite history.now work.old assumed.now t }
    ensures known { IfOk result (λ found. IfSome found (λ known. IsKnown work.new (terms_at work.old.bank assumed.now) (term_at work.old.bank t) known)) }
    ensures grows { WorkGrows history.now work.old work.new }
    ensures out { result ≡ Err Stop.OutOfSteps → work.new.counter.used ≡ work.new.counter.limit }
{
    let no = falsity(work, history)?;
    if is_same(t, no) {
        known_is_false(work, history, assumed, t)
    } else {
        Ok(None)
    }
}

/// That F is false, where the term is F.
fn known_is_false(
    work: &mut Work,
    history: &History,
    assumed: &[TermId],
    t: TermId,
) -> Result<Option<Known>, Stop>
    requires can { CanRewrite history.now work.old assumed.now t }
    requires is { term_at work.old.bank t ≡ false_term }
    ensures known { IfOk result (λ found. IfSome found (λ known. IsKnown work.new (terms_at work.old.bank assumed.now) (term_at work.old.bank t) known)) }
    ensures grows { WorkGrows history.now work.old work.new }
    ensures out { result ≡ Err Stop.OutOfSteps → work.new.counter.used ≡ work.new.counter.limit }
{
    let name = ground_name(&work.bank, ground::FALSE);
    let line = row_line(work, history, name, 1, 0)?;
    Ok(Some(Known { value: false, line }))
}
