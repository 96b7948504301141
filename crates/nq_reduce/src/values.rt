//! Calls on values that have a value by the table of values.
ghost use Rattle.std.specs.Prelude.{◌≡◌, IfOk, IfSome, IsTrue, Err};
ghost use Rattle.nq_logic.specs.Words.{false_term};
ghost use Rattle.nq_bank.specs.Content.{Stands, term_at, terms_at};
ghost use Rattle.nq_kernel.specs.Growing.{WorkGrows, WorkStands};
ghost use Rattle.nq_lines.specs.Lines.{IsTermIn};
ghost use Rattle.nq_reduce.specs.Rewriting.{CanRewrite, IsRewritten};
ghost use Rattle.nq_reduce.specs.Values.{IsValueOf};

use crate::results::{Rewritten, unchanged};
use nq_bank::{Bank, Node, TermId, ground};
use nq_history::History;
use nq_kernel::{Rule, Stop, Work};
use nq_value::{has_value, value_of};

/// Is a term F?
pub fn is_falsity(bank: &Bank, t: TermId) -> bool
    requires { Stands bank.now t }
    ensures { IsTrue result → term_at bank.now t ≡ false_term }
{
    match bank.node(t) {
        Node::App(f, _) => {
            let arguments = bank.args(t);
            match arguments {
                [] => bank.is_ground(f, ground::FALSE),
                _ => false,
            }
        }
        Node::Num(_) => false,
        Node::Var(_) => false,
    }
}

/// A call on values is its value.
pub fn by_value(
    work: &mut Work,
    history: &History,
    assumed: &[TermId],
    t: TermId,
) -> Result<Rewritten, Stop>
    requires can { CanRewrite history.now work.old assumed.now t }
    ensures ok { IfOk result (λ r. IsRewritten history.now work.new (terms_at work.old.bank assumed.now) (term_at work.old.bank t) r) }
    ensures grows { WorkGrows history.now work.old work.new }
    ensures out { result ≡ Err Stop.OutOfSteps → work.new.counter.used ≡ work.new.counter.limit }
{
    if has_value(&work.bank, t) {
        valued(work, history, assumed, t)
    } else {
        Ok(unchanged(t))
    }
}

/// The same, where there is a value.
fn valued(
    work: &mut Work,
    history: &History,
    assumed: &[TermId],
    t: TermId,
) -> Result<Rewritten, Stop>
    requires can { CanRewrite history.now work.old assumed.now t }
    ensures ok { IfOk result (λ r. IsRewritten history.now work.new (terms_at work.old.bank assumed.now) (term_at work.old.bank t) r) }
    ensures grows { WorkGrows history.now work.old work.new }
    ensures out { result ≡ Err Stop.OutOfSteps → work.new.counter.used ≡ work.new.counter.limit }
{
    match value_in(work, history, t)? {
        Some(v) => value_shown(work, history, assumed, t, v),
        None => Ok(unchanged(t)),
    }
}

/// The value of a call on values.
fn value_in(work: &mut Work, history: &History, t: TermId) -> Result<Option<TermId>, Stop>
    requires stands { WorkStands history.now work.old }
    requires term { IsTermIn history.now work.old t }
    ensures value { IfOk result (λ found. IfSome found (IsValueOf history.now work.new (term_at work.old.bank t))) }
    ensures grows { WorkGrows history.now work.old work.new }
    ensures out { result ≡ Err Stop.OutOfSteps → work.new.counter.used ≡ work.new.counter.limit }
{
    match value_of(&mut work.bank, t) {
        Ok(found) => Ok(found),
        Err(_) => Err(Stop::Memory),
    }
}

/// Adds the line of a call and its value.
fn value_shown(
    work: &mut Work,
    history: &History,
    assumed: &[TermId],
    t: TermId,
    v: TermId,
) -> Result<Rewritten, Stop>
    requires can { CanRewrite history.now work.old assumed.now t }
    requires value { IsValueOf history.now work.old (term_at work.old.bank t) v }
    ensures ok { IfOk result (λ r. IsRewritten history.now work.new (terms_at work.old.bank assumed.now) (term_at work.old.bank t) r) }
    ensures grows { WorkGrows history.now work.old work.new }
    ensures out { result ≡ Err Stop.OutOfSteps → work.new.counter.used ≡ work.new.counter.limit }
{
    let line = work.find_or_add(history, Rule::Value(t))?;
    Ok(Rewritten {
        term: v,
        line: Some(line),
    })
}
