//! Calls that are true are T, where that is known of their functions: `(MEMBER X Y)` is T where it is assumed.
ghost use Rattle.std.specs.Prelude.{◌≡◌, ◌∷◌, IfOk, IfSome, Err};
ghost use Rattle.nq_bank.specs.Content.{IsNamed, term_at, terms_at};
ghost use Rattle.nq_history.specs.Events.{events_at};
ghost use Rattle.nq_kernel.specs.Growing.{LineStands, WorkGrows, WorkStands};
ghost use Rattle.nq_lines.specs.Facts.{IsFact};
ghost use Rattle.nq_lines.specs.Instances.{ArePairsIn};
ghost use Rattle.nq_lines.specs.Lines.{IsTermIn};
ghost use Rattle.nq_lines.specs.OwnTerms.{HasOwnTerms};
ghost use Rattle.nq_reduce.specs.Rewriting.{CanRewrite, IsKnown, IsRewritten};

use crate::kinded::without_kind;
use crate::kinds::{kind_line, known_recognizer, named_function};
use crate::terms::has_id;
use nq_bank::{Sym, TermId};
use nq_clause::Pair;
use nq_history::History;
use nq_kernel::{Stop, Work};
use nq_lines::{Fact, deny, equate, has_only, match_pairs, row_fact, sides_of, truth};
use nq_reduce::{Known, Rewritten, known_truth, unchanged};

/// Adds an instance of a line.
fn add_instance(
    work: &mut Work,
    history: &History,
    line: u64,
    pairs: Vec<Pair>,
) -> Result<u64, Stop>
    requires stands { WorkStands history.now work.old }
    requires line { LineStands work.old line }
    requires pairs { ArePairsIn history.now work.old pairs.items }
    ensures line { IfOk result (LineStands work.new) }
    ensures grows { WorkGrows history.now work.old work.new }
    ensures out { result ≡ Err Stop.OutOfSteps → work.new.counter.used ≡ work.new.counter.limit }
{
    work.find_instance(history, line, pairs)
}

/// The instance of a line that takes a pattern to a call, if there is one.
fn instance_at(
    work: &mut Work,
    history: &History,
    line: u64,
    pattern: TermId,
    t: TermId,
) -> Result<Option<u64>, Stop>
    requires stands { WorkStands history.now work.old }
    requires line { LineStands work.old line }
    requires pattern { IsTermIn history.now work.old pattern }
    requires term { IsTermIn history.now work.old t }
    ensures line { IfOk result (λ found. IfSome found (LineStands work.new)) }
    ensures grows { WorkGrows history.now work.old work.new }
    ensures out { result ≡ Err Stop.OutOfSteps → work.new.counter.used ≡ work.new.counter.limit }
{
    match match_pairs(work, history, pattern, t)? {
        Some(pairs) => {
            let made = add_instance(work, history, line, pairs)?;
            Ok(Some(made))
        }
        None => Ok(None),
    }
}

/// The same, by the definition of the function.
fn instance_by_definition(
    work: &mut Work,
    history: &History,
    line: u64,
    definition: Fact,
    t: TermId,
) -> Result<Option<u64>, Stop>
    requires stands { WorkStands history.now work.old }
    requires line { LineStands work.old line }
    requires definition { IsFact history.now work.old definition }
    requires term { IsTermIn history.now work.old t }
    ensures line { IfOk result (λ found. IfSome found (LineStands work.new)) }
    ensures grows { WorkGrows history.now work.old work.new }
    ensures out { result ≡ Err Stop.OutOfSteps → work.new.counter.used ≡ work.new.counter.limit }
{
    match sides_of(work, history, definition.term) {
        Some(sides) => instance_at(work, history, line, sides.left, t),
        None => Ok(None),
    }
}

/// The same, by the line that is known of the function.
fn instance_by_known(
    work: &mut Work,
    history: &History,
    f: Sym,
    line: u64,
    t: TermId,
) -> Result<Option<u64>, Stop>
    requires stands { WorkStands history.now work.old }
    requires ready { HasOwnTerms (events_at work.old.bank history.now) }
    requires function { IsNamed work.old.bank f }
    requires line { LineStands work.old line }
    requires term { IsTermIn history.now work.old t }
    ensures line { IfOk result (λ found. IfSome found (LineStands work.new)) }
    ensures grows { WorkGrows history.now work.old work.new }
    ensures out { result ≡ Err Stop.OutOfSteps → work.new.counter.used ≡ work.new.counter.limit }
{
    match row_fact(work, history, f)? {
        Some(definition) => instance_by_definition(work, history, line, definition, t),
        None => Ok(None),
    }
}

/// The same, by the function of the call.
fn instance_by_function(
    work: &mut Work,
    history: &History,
    f: Sym,
    t: TermId,
) -> Result<Option<u64>, Stop>
    requires stands { WorkStands history.now work.old }
    requires ready { HasOwnTerms (events_at work.old.bank history.now) }
    requires function { IsNamed work.old.bank f }
    requires term { IsTermIn history.now work.old t }
    ensures line { IfOk result (λ found. IfSome found (LineStands work.new)) }
    ensures grows { WorkGrows history.now work.old work.new }
    ensures out { result ≡ Err Stop.OutOfSteps → work.new.counter.used ≡ work.new.counter.limit }
{
    match kind_line(work, history, f) {
        Some(line) => instance_by_known(work, history, f, line, t),
        None => Ok(None),
    }
}

/// The line that is known of the function of a call, at this call.
pub fn known_at(work: &mut Work, history: &History, t: TermId) -> Result<Option<u64>, Stop>
    requires stands { WorkStands history.now work.old }
    requires ready { HasOwnTerms (events_at work.old.bank history.now) }
    requires term { IsTermIn history.now work.old t }
    ensures line { IfOk result (λ found. IfSome found (LineStands work.new)) }
    ensures grows { WorkGrows history.now work.old work.new }
    ensures out { result ≡ Err Stop.OutOfSteps → work.new.counter.used ≡ work.new.counter.limit }
{
    match named_function(&work.bank, t) {
        Some(f) => instance_by_function(work, history, f, t),
        None => Ok(None),
    }
}

/// Is it known of a function that its calls are T where they are true?
pub fn is_known_truth(work: &Work, history: &History, f: Sym) -> bool
    requires { WorkStands history.now work.now }
{
    kind_line(work, history, f).is_some() && known_recognizer(work, history, f).is_none()
}

/// Is a term assumed that is a call of such a function?
fn is_true_call(work: &Work, history: &History, assumed: &[TermId], t: TermId) -> bool
    requires { CanRewrite history.now work.now assumed.now t }
{
    match named_function(&work.bank, t) {
        Some(f) => has_id(assumed, t) && is_known_truth(work, history, f),
        None => false,
    }
}

/// A call that is assumed is T, where that is known of its function.
pub fn reduce_true(
    work: &mut Work,
    history: &History,
    assumed: &[TermId],
    t: TermId,
) -> Result<Rewritten, Stop>
    requires can { CanRewrite history.now work.old assumed.now t }
    ensures ok { IfOk result (λ r. IsRewritten history.now work.new (terms_at work.old.bank assumed.now) (term_at work.old.bank t) r) }
    ensures grows { WorkGrows history.now work.old work.new }
    ensures out { result ≡ Err Stop.OutOfSteps → work.new.counter.used ≡ work.new.counter.limit }
{
    if is_true_call(work, history, assumed, t) {
        reduce_true_call(work, history, assumed, t)
    } else {
        Ok(unchanged(t))
    }
}

/// The same, of a call of such a function.
fn reduce_true_call(
    work: &mut Work,
    history: &History,
    assumed: &[TermId],
    t: TermId,
) -> Result<Rewritten, Stop>
    requires can { CanRewrite history.now work.old assumed.now t }
    ensures ok { IfOk result (λ r. IsRewritten history.now work.new (terms_at work.old.bank assumed.now) (term_at work.old.bank t) r) }
    ensures grows { WorkGrows history.now work.old work.new }
    ensures out { result ≡ Err Stop.OutOfSteps → work.new.counter.used ≡ work.new.counter.limit }
{
    match known_truth(work, history, assumed, t)? {
        Some(known) => reduce_by_truth(work, history, assumed, t, known),
        None => Ok(unchanged(t)),
    }
}

/// The same, by what is known of the call.
fn reduce_by_truth(
    work: &mut Work,
    history: &History,
    assumed: &[TermId],
    t: TermId,
    known: Known,
) -> Result<Rewritten, Stop>
    requires can { CanRewrite history.now work.old assumed.now t }
    requires known { IsKnown work.old (terms_at work.old.bank assumed.now) (term_at work.old.bank t) known }
    ensures ok { IfOk result (λ r. IsRewritten history.now work.new (terms_at work.old.bank assumed.now) (term_at work.old.bank t) r) }
    ensures grows { WorkGrows history.now work.old work.new }
    ensures out { result ≡ Err Stop.OutOfSteps → work.new.counter.used ≡ work.new.counter.limit }
{
    let new = truth_under(work, history, assumed, t)?;
    if known.value {
        let fact = Fact {
            term: t,
            line: known.line,
        };
        without_kind(work, history, assumed, t, fact, new)
    } else {
        Ok(unchanged(t))
    }
}

/// A call is T where it is assumed, by the line that is known of its function.
fn truth_under(
    work: &mut Work,
    history: &History,
    assumed: &[TermId],
    t: TermId,
) -> Result<Rewritten, Stop>
    requires can { CanRewrite history.now work.old assumed.now t }
    ensures ok { IfOk result (λ r. IsRewritten history.now work.new (term_at work.old.bank t ∷ terms_at work.old.bank assumed.now) (term_at work.old.bank t) r) }
    ensures grows { WorkGrows history.now work.old work.new }
    ensures out { result ≡ Err Stop.OutOfSteps → work.new.counter.used ≡ work.new.counter.limit }
{
    match known_at(work, history, t)? {
        Some(line) => truth_by_line(work, history, assumed, t, line),
        None => Ok(unchanged(t)),
    }
}

/// The same, where the line has only that it is T and its NOT.
fn truth_by_line(
    work: &mut Work,
    history: &History,
    assumed: &[TermId],
    t: TermId,
    line: u64,
) -> Result<Rewritten, Stop>
    requires can { CanRewrite history.now work.old assumed.now t }
    ensures ok { IfOk result (λ r. IsRewritten history.now work.new (term_at work.old.bank t ∷ terms_at work.old.bank assumed.now) (term_at work.old.bank t) r) }
    ensures grows { WorkGrows history.now work.old work.new }
    ensures out { result ≡ Err Stop.OutOfSteps → work.new.counter.used ≡ work.new.counter.limit }
{
    let yes = truth(work, history)?;
    let equation = equate(work, history, t, yes)?;
    let denied = deny(work, history, t)?;
    if has_only(work, history, line, &[equation, denied]) {
        Ok(Rewritten {
            term: yes,
            line: Some(line),
        })
    } else {
        Ok(unchanged(t))
    }
}
