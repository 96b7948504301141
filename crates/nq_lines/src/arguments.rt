//! Calls of which several arguments are replaced by equals.
ghost use Rattle.std.specs.Prelude.{◌≡◌, ◌+◌, ◌^◌, ◌<◌, All, IfOk, Err, IsSome, length};
ghost use Rattle.nq_bank.specs.Content.{IsIdOf, term_at};
ghost use Rattle.nq_bank.specs.Parts.{parts_of};
ghost use Rattle.nq_proof.specs.Clauses.{literal_at};
ghost use Rattle.nq_rule.specs.Results.{with_argument};
ghost use Rattle.nq_kernel.specs.Growing.{WorkStands, WorkGrows, LineStands};
ghost use Rattle.nq_lines.specs.Lines.{IsTermIn};
ghost use Rattle.nq_lines.specs.Arguments.{ChangeStands, CarriesAll, IsChangedCall, HasEquation, ReplacesArgument, IsCallAt, CarriesOn, MakesOn};

use crate::calls::{Equated, argument_at, changed_call};
use crate::equality::two_places;
use crate::rewriting::discharge;
use crate::rules::{reflexive, replace_first};
use nq_bank::{Node, TermId};
use nq_history::History;
use nq_kernel::{Stop, Work};
use nq_rule::Side;

/// The call with other arguments, and the line that the call equals it: one line, and two for each change. There is a change
/// for each argument; `None` where it stays, and else the term in its place with the line that shows that they are equal.
pub fn congruent_all(
    work: &mut Work,
    history: &History,
    t: TermId,
    changes: &[Option<Equated>],
) -> Result<Equated, Stop>
    requires stands { WorkStands history.now work.old }
    requires call { IsTermIn history.now work.old t }
    requires count { length (parts_of (term_at work.old.bank t)) ≡ length changes.now }
    requires changes { All (ChangeStands history.now work.old) changes.now }
    ensures call { IfOk result (IsChangedCall work.old work.new (term_at work.old.bank t) changes.now) }
    ensures over { IfOk result (λ r. IsTermIn history.now work.new r.term) }
    ensures line { IfOk result (CarriesAll work.old work.new (term_at work.old.bank t) changes.now) }
    ensures stands { IfOk result (λ r. LineStands work.new r.line) }
    ensures grows { WorkGrows history.now work.old work.new }
    ensures out { result ≡ Err Stop.OutOfSteps → work.new.counter.used ≡ work.new.counter.limit }
{
    let line = reflexive(work, history, t)?;
    match work.bank.node(t) {
        Node::App(_, _) => changed_from(work, history, t, 1, line, changes),
        Node::Num(_) => Ok(Equated { term: t, line }),
        Node::Var(_) => Ok(Equated { term: t, line }),
    }
}

/// The call with the changes of its arguments from a place on, and the line of its equation, from a line that begins with an
/// equation whose second side is the call so far.
fn changed_from(
    work: &mut Work,
    history: &History,
    t: TermId,
    place: u64,
    line: u64,
    changes: &[Option<Equated>],
) -> Result<Equated, Stop>
    requires stands { WorkStands history.now work.old }
    requires call { IsTermIn history.now work.old t }
    requires place { IsCallAt place changes.now (term_at work.old.bank t) }
    requires line { HasEquation work.old line (term_at work.old.bank t) }
    requires changes { All (ChangeStands history.now work.old) changes.now }
    requires room { place + length changes.now < 2 ^ 64 }
    ensures call { IfOk result (MakesOn work.old work.new place changes.now (term_at work.old.bank t)) }
    ensures over { IfOk result (λ r. IsTermIn history.now work.new r.term) }
    ensures line { IfOk result (CarriesOn work.old work.new place changes.now (term_at work.old.bank t) line) }
    ensures stands { IfOk result (λ r. LineStands work.new r.line) }
    ensures grows { WorkGrows history.now work.old work.new }
    ensures out { result ≡ Err Stop.OutOfSteps → work.new.counter.used ≡ work.new.counter.limit }
{
    match changes {
        [] => Ok(Equated { term: t, line }),
        [change, others @ ..] => match *change {
            None => changed_from(work, history, t, place + 1, line, others),
            Some(e) => {
                let a = argument_at(&work.bank, t, place);
                let next = replace_argument(work, history, t, place, e.term, line)?;
                let made = changed_from(work, history, next.term, place + 1, next.line, others)?;
                let shown = discharge(work, history, Side::Forwards, a, e.term, made.line, e.line)?;
                Ok(Equated {
                    term: made.term,
                    line: shown,
                })
            }
        },
    }
}

/// The call with another argument at a place, and the line of its equation, with the equation of the argument as a hypothesis.
fn replace_argument(
    work: &mut Work,
    history: &History,
    t: TermId,
    place: u64,
    u: TermId,
    line: u64,
) -> Result<Equated, Stop>
    requires stands { WorkStands history.now work.old }
    requires call { IsTermIn history.now work.old t }
    requires argument { IsTermIn history.now work.old u }
    requires place { IsSome (literal_at place (parts_of (term_at work.old.bank t))) }
    requires line { HasEquation work.old line (term_at work.old.bank t) }
    ensures call { IfOk result (λ r. IsIdOf work.new.bank r.term (with_argument place (term_at work.old.bank u) (term_at work.old.bank t))) }
    ensures over { IfOk result (λ r. IsTermIn history.now work.new r.term) }
    ensures line { IfOk result (λ r. ReplacesArgument work.old work.new line place (term_at work.old.bank t) (term_at work.old.bank u) r.line) }
    ensures grows { WorkGrows history.now work.old work.new }
    ensures out { result ≡ Err Stop.OutOfSteps → work.new.counter.used ≡ work.new.counter.limit }
{
    let path = two_places(work.bank.alloc(), 2, place)?;
    let term = changed_call(work, history, t, place, u)?;
    let law = replace_first(work, history, line, path, u, Side::Forwards)?;
    Ok(Equated { term, line: law })
}
