//! An IF that is joined from its rewritten branches.
//!
//! Under the new test the IF is its first branch, and so is the new IF; under the NOT of the test both are the second branch.
//! So they are one in either case, and the line is cut from the two.
ghost use Rattle.std.specs.Prelude.{◌≡◌, IfOk, Err};
ghost use Rattle.nq_bank.specs.Content.{term_at, terms_at};
ghost use Rattle.nq_kernel.specs.Growing.{WorkGrows};
ghost use Rattle.nq_lines.specs.Lines.{IsTermIn};
ghost use Rattle.nq_reduce.specs.Rewriting.{CanRewrite, IsCase, IsRewritten};

use crate::branches::choose;
use crate::following::follow;
use crate::knowledge::Known;
use crate::results::{Rewritten, unchanged};
use nq_bank::TermId;
use nq_history::History;
use nq_kernel::{Stop, Work};
use nq_lines::symmetric;
use nq_rule::Branches;

/// A term that another was rewritten to, as a rewriting back to that one.
fn back(
    work: &mut Work,
    history: &History,
    assumed: &[TermId],
    t: TermId,
    new: Rewritten,
) -> Result<Rewritten, Stop>
    requires can { CanRewrite history.now work.old assumed.now t }
    requires new { IsRewritten history.now work.old (terms_at work.old.bank assumed.now) (term_at work.old.bank t) new }
    ensures ok { IfOk result (λ r. IsRewritten history.now work.new (terms_at work.old.bank assumed.now) (term_at work.old.bank new.term) r) }
    ensures same { IfOk result (λ r. r.term ≡ t) }
    ensures grows { WorkGrows history.now work.old work.new }
    ensures out { result ≡ Err Stop.OutOfSteps → work.new.counter.used ≡ work.new.counter.limit }
{
    match new.line {
        None => Ok(Rewritten {
            term: t,
            line: None,
        }),
        Some(n) => {
            let line = symmetric(work, history, t, new.term, n)?;
            Ok(Rewritten {
                term: t,
                line: Some(line),
            })
        }
    }
}

/// Two terms that were rewritten to one term, as a rewriting of the first to the second.
fn meet(
    work: &mut Work,
    history: &History,
    assumed: &[TermId],
    t: TermId,
    left: Rewritten,
    u: TermId,
    right: Rewritten,
) -> Result<Rewritten, Stop>
    requires can { CanRewrite history.now work.old assumed.now t }
    requires other { IsTermIn history.now work.old u }
    requires left { IsRewritten history.now work.old (terms_at work.old.bank assumed.now) (term_at work.old.bank t) left }
    requires right { IsRewritten history.now work.old (terms_at work.old.bank assumed.now) (term_at work.old.bank u) right }
    requires meets { right.term ≡ left.term }
    ensures ok { IfOk result (λ r. IsRewritten history.now work.new (terms_at work.old.bank assumed.now) (term_at work.old.bank t) r) }
    ensures same { IfOk result (λ r. r.term ≡ u) }
    ensures grows { WorkGrows history.now work.old work.new }
    ensures out { result ≡ Err Stop.OutOfSteps → work.new.counter.used ≡ work.new.counter.limit }
{
    let rest = back(work, history, assumed, u, right)?;
    follow(work, history, assumed, t, left, rest)
}

/// What an IF comes to in a case.
fn reached(
    work: &mut Work,
    history: &History,
    assumed: &[TermId],
    t: TermId,
    parts: Branches,
    test: Rewritten,
    known: Known,
    branch: Rewritten,
    other: TermId,
    news: Branches,
) -> Result<Rewritten, Stop>
    requires { IsCase history.now work.old assumed.now t parts test known branch other news }
    ensures ok { IfOk result (λ r. IsRewritten history.now work.new (terms_at work.old.bank assumed.now) (term_at work.old.bank t) r) }
    ensures last { IfOk result (λ r. r.term ≡ branch.term) }
    ensures grows { WorkGrows history.now work.old work.new }
    ensures out { result ≡ Err Stop.OutOfSteps → work.new.counter.used ≡ work.new.counter.limit }
{
    let taken = choose(work, history, assumed, t, parts, test, known)?;
    follow(work, history, assumed, t, taken, branch)
}

/// In a case an IF is the other one.
pub fn joined(
    work: &mut Work,
    history: &History,
    assumed: &[TermId],
    t: TermId,
    parts: Branches,
    test: Rewritten,
    known: Known,
    branch: Rewritten,
    other: TermId,
    news: Branches,
) -> Result<Rewritten, Stop>
    requires { IsCase history.now work.old assumed.now t parts test known branch other news }
    ensures ok { IfOk result (λ r. IsRewritten history.now work.new (terms_at work.old.bank assumed.now) (term_at work.old.bank t) r) }
    ensures same { IfOk result (λ r. r.term ≡ other) }
    ensures grows { WorkGrows history.now work.old work.new }
    ensures out { result ≡ Err Stop.OutOfSteps → work.new.counter.used ≡ work.new.counter.limit }
{
    let left = reached(
        work, history, assumed, t, parts, test, known, branch, other, news,
    )?;
    let right = choose(
        work,
        history,
        assumed,
        other,
        news,
        unchanged(news.test),
        known,
    )?;
    meet(work, history, assumed, t, left, other, right)
}
