//! Literals that a line shows, and that another rests on.
ghost use Rattle.std.specs.Prelude.{◌≡◌, IfOk, Err};
ghost use Rattle.nq_kernel.specs.Growing.{LineStands, WorkGrows, WorkStands};
ghost use Rattle.nq_lines.specs.Lines.{IsTermIn};
ghost use Rattle.nq_arithmetic.specs.Claims.{AreOperandsIn, IsClaimIn};

use crate::making::make_term;
use crate::reading::{Operands, is_call_of, operands_of};
use crate::template::Pattern;
use nq_bank::{TermId, ground};
use nq_history::History;
use nq_kernel::{Stop, Work};
use nq_lines::{cut, deny};

/// A literal: a term or its NOT.
#[derive(Clone, Copy, Debug, PartialEq, Eq)]
pub struct Claim {
    /// The term.
    pub test: TermId,
    /// Its NOT.
    pub denial: TermId,
    /// The literal is the NOT.
    pub denied: bool,
}

/// The literal.
pub fn literal_of(work: &Work, history: &History, claim: Claim) -> TermId
    requires { IsClaimIn history.now work.now claim }
    ensures { IsTermIn history.now work.now result }
{
    let _ = work.bank.alloc();
    if claim.denied {
        claim.denial
    } else {
        claim.test
    }
}

/// The literal that is false where the claim is true: the term under the NOT, or the NOT.
pub fn opposite_of(work: &Work, history: &History, claim: Claim) -> TermId
    requires { IsClaimIn history.now work.now claim }
    ensures { IsTermIn history.now work.now result }
{
    let _ = work.bank.alloc();
    if claim.denied {
        claim.test
    } else {
        claim.denial
    }
}

/// Makes the literal of a pattern.
pub fn claim_at(
    work: &mut Work,
    history: &History,
    pattern: Pattern,
    at: Operands,
) -> Result<Claim, Stop>
    requires stands { WorkStands history.now work.old }
    requires at { AreOperandsIn history.now work.old at }
    ensures claim { IfOk result (λ c. IsClaimIn history.now work.new c) }
    ensures grows { WorkGrows history.now work.old work.new }
    ensures out { result ≡ Err Stop.OutOfSteps → work.new.counter.used ≡ work.new.counter.limit }
{
    let test = make_term(work, history, pattern.makes, at.first, at.second)?;
    let denial = deny(work, history, test)?;
    Ok(Claim {
        test,
        denial,
        denied: pattern.denied,
    })
}

/// The claim of a term and its NOT.
fn claim_with_denial(work: &mut Work, history: &History, t: TermId) -> Result<Claim, Stop>
    requires stands { WorkStands history.now work.old }
    requires term { IsTermIn history.now work.old t }
    ensures claim { IfOk result (λ c. IsClaimIn history.now work.new c) }
    ensures grows { WorkGrows history.now work.old work.new }
    ensures out { result ≡ Err Stop.OutOfSteps → work.new.counter.used ≡ work.new.counter.limit }
{
    let denial = deny(work, history, t)?;
    Ok(Claim {
        test: t,
        denial,
        denied: false,
    })
}

/// The claim of a literal that is known, as a term or as the NOT of one.
pub fn claim_of(work: &mut Work, history: &History, t: TermId) -> Result<Claim, Stop>
    requires stands { WorkStands history.now work.old }
    requires term { IsTermIn history.now work.old t }
    ensures claim { IfOk result (λ c. IsClaimIn history.now work.new c) }
    ensures grows { WorkGrows history.now work.old work.new }
    ensures out { result ≡ Err Stop.OutOfSteps → work.new.counter.used ≡ work.new.counter.limit }
{
    if !is_call_of(&work.bank, t, ground::NOT) {
        return claim_with_denial(work, history, t);
    }
    match operands_of(work, history, t) {
        Some(at) => Ok(Claim {
            test: at.first,
            denial: t,
            denied: true,
        }),
        None => claim_with_denial(work, history, t),
    }
}

/// The claim of the opposite literal.
pub fn turned(work: &Work, history: &History, claim: Claim) -> Claim
    requires { IsClaimIn history.now work.now claim }
    ensures { IsClaimIn history.now work.now result }
{
    let _ = (work.bank.alloc(), history.len());
    Claim {
        test: claim.test,
        denial: claim.denial,
        denied: !claim.denied,
    }
}

/// Joins a line that shows a claim with one that rests on it, which has the opposite literal.
pub fn join(
    work: &mut Work,
    history: &History,
    claim: Claim,
    shown: u64,
    line: u64,
) -> Result<u64, Stop>
    requires stands { WorkStands history.now work.old }
    requires claim { IsClaimIn history.now work.old claim }
    requires shown { LineStands work.old shown }
    requires line { LineStands work.old line }
    ensures line { IfOk result (λ n. LineStands work.new n) }
    ensures grows { WorkGrows history.now work.old work.new }
    ensures out { result ≡ Err Stop.OutOfSteps → work.new.counter.used ≡ work.new.counter.limit }
{
    if claim.denied {
        cut(work, history, line, shown, claim.test)
    } else {
        cut(work, history, shown, line, claim.test)
    }
}
