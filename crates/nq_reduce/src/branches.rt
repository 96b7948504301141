//! The branches of an IF.
ghost use Rattle.std.specs.Prelude.{◌≡◌, ◌∷◌, IfOk, IfSome, Err};
ghost use Rattle.nq_logic.specs.Words.{not_term};
ghost use Rattle.nq_bank.specs.Content.{IsIdOf, term_at, terms_at};
ghost use Rattle.nq_kernel.specs.Growing.{WorkGrows, WorkStands};
ghost use Rattle.nq_reduce.specs.Rewriting.{branch_of, CanRewrite, IsKnown, IsRewritten, ShowsEqual};
ghost use Rattle.nq_lines.specs.Lines.{IsTermIn};
ghost use Rattle.nq_instances.specs.Parts.{IsIfOf};

use crate::knowledge::Known;
use crate::results::Rewritten;
use nq_bank::TermId;
use nq_history::History;
use nq_kernel::{Stop, Work};
use nq_lines::{if_false, if_true, rewrite_denial, rewrite_literal};
use nq_rule::{Branches, Side};
use std::alloc::AllocError;

/// These terms and one more, which stands first.
pub fn with_more(work: &Work, more: TermId, assumed: &[TermId]) -> Result<Vec<TermId>, Stop>
    ensures ok { IfOk result (λ all. all.items ≡ more ∷ assumed.now) }
    ensures out { result ≡ Err Stop.OutOfSteps → ⊥ }
{
    match with_first(work, more, assumed) {
        Ok(all) => Ok(all),
        Err(_) => Err(Stop::Memory),
    }
}

fn with_first(work: &Work, more: TermId, assumed: &[TermId]) -> Result<Vec<TermId>, AllocError>
    ensures ok { IfOk result (λ all. all.items ≡ more ∷ assumed.now) }
{
    let mut all = vec![in work.bank.alloc(); more]?;
    all.extend_from_slice(assumed)?;
    Ok(all)
}

/// An IF whose test is known is the branch that it takes.
pub fn choose(
    work: &mut Work,
    history: &History,
    assumed: &[TermId],
    t: TermId,
    parts: Branches,
    test: Rewritten,
    known: Known,
) -> Result<Rewritten, Stop>
    requires can { CanRewrite history.now work.old assumed.now t }
    requires parts { IsIfOf history.now work.old t parts }
    requires test { IsRewritten history.now work.old (terms_at work.old.bank assumed.now) (term_at work.old.bank parts.test) test }
    requires known { IsKnown work.old (terms_at work.old.bank assumed.now) (term_at work.old.bank test.term) known }
    ensures ok { IfOk result (λ r. IsRewritten history.now work.new (terms_at work.old.bank assumed.now) (term_at work.old.bank t) r) }
    ensures term { IfOk result (λ r. r.term ≡ branch_of parts known.value) }
    ensures grows { WorkGrows history.now work.old work.new }
    ensures out { result ≡ Err Stop.OutOfSteps → work.new.counter.used ≡ work.new.counter.limit }
{
    let before = known_before(work, history, assumed, parts.test, test, known)?;
    chosen(work, history, assumed, t, parts, before)
}

/// What is known of a term that was rewritten, from what is known of the new one.
pub fn known_before(
    work: &mut Work,
    history: &History,
    assumed: &[TermId],
    t: TermId,
    new: Rewritten,
    known: Known,
) -> Result<Known, Stop>
    requires can { CanRewrite history.now work.old assumed.now t }
    requires new { IsRewritten history.now work.old (terms_at work.old.bank assumed.now) (term_at work.old.bank t) new }
    requires known { IsKnown work.old (terms_at work.old.bank assumed.now) (term_at work.old.bank new.term) known }
    ensures value { IfOk result (λ k. k.value ≡ known.value) }
    ensures known { IfOk result (λ k. IsKnown work.new (terms_at work.old.bank assumed.now) (term_at work.old.bank t) k) }
    ensures grows { WorkGrows history.now work.old work.new }
    ensures out { result ≡ Err Stop.OutOfSteps → work.new.counter.used ≡ work.new.counter.limit }
{
    match new.line {
        None => Ok(known),
        Some(n) => known_by(work, history, assumed, t, new.term, n, known),
    }
}

/// The same, by the line of the rewriting.
fn known_by(
    work: &mut Work,
    history: &History,
    assumed: &[TermId],
    t: TermId,
    u: TermId,
    n: u64,
    known: Known,
) -> Result<Known, Stop>
    requires can { CanRewrite history.now work.old assumed.now t }
    requires new { IsTermIn history.now work.old u }
    requires shown { ShowsEqual work.old n (terms_at work.old.bank assumed.now) (term_at work.old.bank t) (term_at work.old.bank u) }
    requires known { IsKnown work.old (terms_at work.old.bank assumed.now) (term_at work.old.bank u) known }
    ensures value { IfOk result (λ k. k.value ≡ known.value) }
    ensures known { IfOk result (λ k. IsKnown work.new (terms_at work.old.bank assumed.now) (term_at work.old.bank t) k) }
    ensures grows { WorkGrows history.now work.old work.new }
    ensures out { result ≡ Err Stop.OutOfSteps → work.new.counter.used ≡ work.new.counter.limit }
{
    if known.value {
        let line = rewrite_literal(work, history, Side::Backwards, u, t, known.line, n)?;
        Ok(Known { value: true, line })
    } else {
        let line = rewrite_denial(work, history, Side::Backwards, u, t, known.line, n)?;
        Ok(Known { value: false, line })
    }
}

/// An IF whose own test is known is the branch that it takes.
fn chosen(
    work: &mut Work,
    history: &History,
    assumed: &[TermId],
    t: TermId,
    parts: Branches,
    known: Known,
) -> Result<Rewritten, Stop>
    requires can { CanRewrite history.now work.old assumed.now t }
    requires parts { IsIfOf history.now work.old t parts }
    requires known { IsKnown work.old (terms_at work.old.bank assumed.now) (term_at work.old.bank parts.test) known }
    ensures ok { IfOk result (λ r. IsRewritten history.now work.new (terms_at work.old.bank assumed.now) (term_at work.old.bank t) r) }
    ensures term { IfOk result (λ r. r.term ≡ branch_of parts known.value) }
    ensures grows { WorkGrows history.now work.old work.new }
    ensures out { result ≡ Err Stop.OutOfSteps → work.new.counter.used ≡ work.new.counter.limit }
{
    if known.value {
        let line = if_true(
            work,
            history,
            parts.test,
            parts.first,
            parts.second,
            known.line,
        )?;
        Ok(Rewritten {
            term: parts.first,
            line: Some(line),
        })
    } else {
        let line = if_false(
            work,
            history,
            parts.test,
            parts.first,
            parts.second,
            known.line,
        )?;
        Ok(Rewritten {
            term: parts.second,
            line: Some(line),
        })
    }
}
