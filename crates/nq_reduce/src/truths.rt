//! Terms that are known to be true or false: they are T or F.
ghost use Rattle.std.specs.Prelude.{◌≡◌, ◌∷◌, IfOk, IfSome, Err, Some};
ghost use Rattle.nq_bank.specs.Content.{IsNamed, term_at, terms_at};
ghost use Rattle.nq_kernel.specs.Growing.{WorkGrows};
ghost use Rattle.nq_lines.specs.Lines.{LineHasOnly};
ghost use Rattle.nq_reduce.specs.Rewriting.{CanRewrite, IsKnown, IsRewritten, denials};

use crate::assumptions::false_by_line;
use crate::branches::with_more;
use crate::kinds::{constructor_at, head_of, recognized_kind};
use crate::knowledge::Known;
use crate::restricted::told_by_part;
use crate::results::{Rewritten, unchanged};
use crate::rows::{Chosen, by_row};
use crate::settling::settled;
use nq_bank::{Sym, TermId, ground, ground_name};
use nq_history::History;
use nq_kernel::{Stop, Work};
use nq_lines::cut;

/// A term that is known to be false is F, and one that is known to be true is T where a row says that it is T or F.
pub fn by_truth(
    work: &mut Work,
    history: &History,
    assumed: &[TermId],
    t: TermId,
) -> Result<Rewritten, Stop>
    requires can { CanRewrite history.now work.old assumed.now t }
    ensures ok { IfOk result (λ r. IsRewritten history.now work.new (terms_at work.old.bank assumed.now) (term_at work.old.bank t) r) }
    ensures grows { WorkGrows history.now work.old work.new }
    ensures out { result ≡ Err Stop.OutOfSteps → work.new.counter.used ≡ work.new.counter.limit }
{
    match settled(work, history, assumed, t)? {
        Some(known) => truth_told(work, history, assumed, t, known),
        None => by_restriction(work, history, assumed, t),
    }
}

/// The recognizer of a part that must be of that kind is T.
fn by_restriction(
    work: &mut Work,
    history: &History,
    assumed: &[TermId],
    t: TermId,
) -> Result<Rewritten, Stop>
    requires can { CanRewrite history.now work.old assumed.now t }
    ensures ok { IfOk result (λ r. IsRewritten history.now work.new (terms_at work.old.bank assumed.now) (term_at work.old.bank t) r) }
    ensures grows { WorkGrows history.now work.old work.new }
    ensures out { result ≡ Err Stop.OutOfSteps → work.new.counter.used ≡ work.new.counter.limit }
{
    match told_by_part(work, history, assumed, t)? {
        Some(known) => true_by_line(work, history, assumed, t, known),
        None => Ok(unchanged(t)),
    }
}

/// A term that a line shows to be true is T, as it is where it is assumed.
fn true_by_line(
    work: &mut Work,
    history: &History,
    assumed: &[TermId],
    t: TermId,
    known: Known,
) -> Result<Rewritten, Stop>
    requires can { CanRewrite history.now work.old assumed.now t }
    requires known { IsKnown work.old (terms_at work.old.bank assumed.now) (term_at work.old.bank t) known }
    ensures ok { IfOk result (λ r. IsRewritten history.now work.new (terms_at work.old.bank assumed.now) (term_at work.old.bank t) r) }
    ensures grows { WorkGrows history.now work.old work.new }
    ensures out { result ≡ Err Stop.OutOfSteps → work.new.counter.used ≡ work.new.counter.limit }
{
    let new = true_under(work, history, assumed, t)?;
    if known.value {
        true_discharged(work, history, assumed, t, known.line, new)
    } else {
        Ok(unchanged(t))
    }
}

/// A term that is assumed is T.
fn true_under(
    work: &mut Work,
    history: &History,
    assumed: &[TermId],
    t: TermId,
) -> Result<Rewritten, Stop>
    requires can { CanRewrite history.now work.old assumed.now t }
    ensures ok { IfOk result (λ r. IsRewritten history.now work.new (term_at work.old.bank t ∷ terms_at work.old.bank assumed.now) (term_at work.old.bank t) r) }
    ensures grows { WorkGrows history.now work.old work.new }
    ensures out { result ≡ Err Stop.OutOfSteps → work.new.counter.used ≡ work.new.counter.limit }
{
    let all = with_more(work, t, assumed)?;
    true_by_row(work, history, all.as_slice(), t)
}

/// What a term comes to where it is assumed, by the line that shows it.
fn true_discharged(
    work: &mut Work,
    history: &History,
    assumed: &[TermId],
    t: TermId,
    line: u64,
    new: Rewritten,
) -> Result<Rewritten, Stop>
    requires can { CanRewrite history.now work.old assumed.now t }
    requires line { LineHasOnly work.old line (term_at work.old.bank t ∷ denials (terms_at work.old.bank assumed.now)) }
    requires new { IsRewritten history.now work.old (term_at work.old.bank t ∷ terms_at work.old.bank assumed.now) (term_at work.old.bank t) new }
    ensures ok { IfOk result (λ r. IsRewritten history.now work.new (terms_at work.old.bank assumed.now) (term_at work.old.bank t) r) }
    ensures grows { WorkGrows history.now work.old work.new }
    ensures out { result ≡ Err Stop.OutOfSteps → work.new.counter.used ≡ work.new.counter.limit }
{
    match new.line {
        Some(n) => true_without(work, history, assumed, t, line, new, n),
        None => Ok(unchanged(t)),
    }
}

/// The same, by the line of what it comes to.
fn true_without(
    work: &mut Work,
    history: &History,
    assumed: &[TermId],
    t: TermId,
    line: u64,
    new: Rewritten,
    n: u64,
) -> Result<Rewritten, Stop>
    requires can { CanRewrite history.now work.old assumed.now t }
    requires line { LineHasOnly work.old line (term_at work.old.bank t ∷ denials (terms_at work.old.bank assumed.now)) }
    requires new { IsRewritten history.now work.old (term_at work.old.bank t ∷ terms_at work.old.bank assumed.now) (term_at work.old.bank t) new }
    requires shown { new.line ≡ Some n }
    ensures ok { IfOk result (λ r. IsRewritten history.now work.new (terms_at work.old.bank assumed.now) (term_at work.old.bank t) r) }
    ensures grows { WorkGrows history.now work.old work.new }
    ensures out { result ≡ Err Stop.OutOfSteps → work.new.counter.used ≡ work.new.counter.limit }
{
    let shown = cut(work, history, line, n, t)?;
    Ok(Rewritten {
        term: new.term,
        line: Some(shown),
    })
}

/// The same, by what is known of the term.
fn truth_told(
    work: &mut Work,
    history: &History,
    assumed: &[TermId],
    t: TermId,
    known: Known,
) -> Result<Rewritten, Stop>
    requires can { CanRewrite history.now work.old assumed.now t }
    requires known { IsKnown work.old (terms_at work.old.bank assumed.now) (term_at work.old.bank t) known }
    ensures ok { IfOk result (λ r. IsRewritten history.now work.new (terms_at work.old.bank assumed.now) (term_at work.old.bank t) r) }
    ensures grows { WorkGrows history.now work.old work.new }
    ensures out { result ≡ Err Stop.OutOfSteps → work.new.counter.used ≡ work.new.counter.limit }
{
    if known.value {
        true_by_row(work, history, assumed, t)
    } else {
        false_by_line(work, history, assumed, t, known.line)
    }
}

/// A term that is known to be true is T, by the row that says that it is T or F.
fn true_by_row(
    work: &mut Work,
    history: &History,
    assumed: &[TermId],
    t: TermId,
) -> Result<Rewritten, Stop>
    requires can { CanRewrite history.now work.old assumed.now t }
    ensures ok { IfOk result (λ r. IsRewritten history.now work.new (terms_at work.old.bank assumed.now) (term_at work.old.bank t) r) }
    ensures grows { WorkGrows history.now work.old work.new }
    ensures out { result ≡ Err Stop.OutOfSteps → work.new.counter.used ≡ work.new.counter.limit }
{
    match truth_row(work, history, assumed, t) {
        Some(name) => by_row(work, history, assumed, name, 1, 0, Chosen::First, t),
        None => Ok(unchanged(t)),
    }
}

/// The name whose row 1 says that a call is T or F.
fn truth_row(work: &Work, history: &History, assumed: &[TermId], t: TermId) -> Option<Sym>
    requires can { CanRewrite history.now work.now assumed.now t }
    ensures { IfSome result (IsNamed work.now.bank) }
{
    match head_of(&work.bank, t) {
        Some(f) => truth_row_of(work, history, assumed, t, f),
        None => None,
    }
}

/// The same, of the function of the call.
fn truth_row_of(
    work: &Work,
    history: &History,
    assumed: &[TermId],
    t: TermId,
    f: Sym,
) -> Option<Sym>
    requires can { CanRewrite history.now work.now assumed.now t }
    ensures { IfSome result (IsNamed work.now.bank) }
{
    if f.0 == ground::EQUAL.0 {
        return Some(ground_name(&work.bank, ground::EQUAL));
    }
    match recognized_kind(history, f) {
        Some(place) => constructor_at(work, history, place),
        None => None,
    }
}
