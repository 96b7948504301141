//! A summand that is taken from a sum of three: `(DIFFERENCE (PLUS X (PLUS Y Z)) Y)` is `(PLUS X Z)`, as linear arithmetic shows.
ghost use Rattle.std.specs.Prelude.{◌≡◌, IfOk, IfSome, Err};
ghost use Rattle.nq_bank.specs.Content.{term_at, terms_at};
ghost use Rattle.nq_kernel.specs.Growing.{WorkGrows, WorkStands};
ghost use Rattle.nq_lines.specs.Lines.{IsTermIn};
ghost use Rattle.nq_reduce.specs.Rewriting.{CanRewrite, IsRewritten};

use crate::differences::equal_to;
use nq_arithmetic::{Two, call_two, name_of_two};
use nq_bank::{TermId, ground};
use nq_history::{Hints, History};
use nq_instances::two_in;
use nq_kernel::{Stop, Work};
use nq_lines::Sides;
use nq_reduce::{Rewritten, unchanged};

/// The first summand, and the other one of two where one of them is this term.
fn besides(work: &Work, history: &History, first: TermId, two: Sides, one: TermId) -> Option<Sides>
    requires first { IsTermIn history.now work.now first }
    requires left { IsTermIn history.now work.now two.left }
    requires right { IsTermIn history.now work.now two.right }
    ensures left { IfSome result (λ s. IsTermIn history.now work.now s.left) }
    ensures right { IfSome result (λ s. IsTermIn history.now work.now s.right) }
{
    let _ = work.bank.len();
    let _ = history.len();
    if two.left.0 == one.0 {
        Some(Sides {
            left: first,
            right: two.right,
        })
    } else if two.right.0 == one.0 {
        Some(Sides {
            left: first,
            right: two.left,
        })
    } else {
        None
    }
}

/// The other summands of a sum of three, where its second or its third is this term.
fn others(work: &Work, history: &History, sum: TermId, one: TermId) -> Option<Sides>
    requires stands { WorkStands history.now work.now }
    requires sum { IsTermIn history.now work.now sum }
    ensures left { IfSome result (λ s. IsTermIn history.now work.now s.left) }
    ensures right { IfSome result (λ s. IsTermIn history.now work.now s.right) }
{
    let outer = two_in(work, history, ground::PLUS, sum)?;
    let inner = two_in(work, history, ground::PLUS, outer.right)?;
    besides(work, history, outer.left, inner, one)
}

/// The other summands of the sum of three from which a difference takes one.
fn left_over(work: &Work, history: &History, t: TermId) -> Option<Sides>
    requires stands { WorkStands history.now work.now }
    requires term { IsTermIn history.now work.now t }
    ensures left { IfSome result (λ s. IsTermIn history.now work.now s.left) }
    ensures right { IfSome result (λ s. IsTermIn history.now work.now s.right) }
{
    let sides = two_in(work, history, ground::DIFFERENCE, t)?;
    others(work, history, sides.left, sides.right)
}

/// A difference that takes a summand from a sum of three is the sum of the others.
pub fn reduce_cancelled(
    work: &mut Work,
    history: &History,
    hints: &Hints,
    assumed: &[TermId],
    t: TermId,
) -> Result<Rewritten, Stop>
    requires can { CanRewrite history.now work.old assumed.now t }
    ensures ok { IfOk result (λ r. IsRewritten history.now work.new (terms_at work.old.bank assumed.now) (term_at work.old.bank t) r) }
    ensures grows { WorkGrows history.now work.old work.new }
    ensures out { result ≡ Err Stop.OutOfSteps → work.new.counter.used ≡ work.new.counter.limit }
{
    match left_over(work, history, t) {
        Some(rest) => equal_to_sum(work, history, hints, assumed, t, rest),
        None => Ok(unchanged(t)),
    }
}

/// A term is the sum of two others, where linear arithmetic shows it.
fn equal_to_sum(
    work: &mut Work,
    history: &History,
    hints: &Hints,
    assumed: &[TermId],
    t: TermId,
    rest: Sides,
) -> Result<Rewritten, Stop>
    requires can { CanRewrite history.now work.old assumed.now t }
    requires left { IsTermIn history.now work.old rest.left }
    requires right { IsTermIn history.now work.old rest.right }
    ensures ok { IfOk result (λ r. IsRewritten history.now work.new (terms_at work.old.bank assumed.now) (term_at work.old.bank t) r) }
    ensures grows { WorkGrows history.now work.old work.new }
    ensures out { result ≡ Err Stop.OutOfSteps → work.new.counter.used ≡ work.new.counter.limit }
{
    let sum = call_two(work, history, name_of_two(Two::Plus), rest.left, rest.right)?;
    equal_to(work, history, hints, assumed, t, sum)
}
