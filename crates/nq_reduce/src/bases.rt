//! Equations of an object just made and the base of its shell: they are F.
ghost use Rattle.std.specs.Prelude.{◌≡◌, IfOk, Err, codes};
ghost use Rattle.nq_bank.specs.Content.{Stands, term_at, terms_at};
ghost use Rattle.nq_kernel.specs.Growing.{WorkGrows};
ghost use Rattle.nq_instances.specs.Parts.{AreSides};
ghost use Rattle.nq_reduce.specs.Equations.{IsTurned};
ghost use Rattle.nq_reduce.specs.Rewriting.{CanRewrite, IsKnown, IsRewritten};

use crate::assumptions::false_where_known;
use crate::kinds::{head_of, is_base_at, is_made_at, made_kind};
use crate::knowledge::Known;
use crate::results::{Rewritten, unchanged};
use crate::rows::Chosen;
use crate::settling::{known_by_value, turned_back};
use crate::trials::{BASE_IS_NOT_MADE, Trial, by_trial};
use nq_bank::{Bank, TermId, ground};
use nq_history::History;
use nq_instances::two_in;
use nq_kernel::{Stop, Work};
use nq_lines::{Sides, equate};

/// The place of the shell whose constructor makes the first term, and whose base is the second.
fn made_beside_base(bank: &Bank, history: &History, made: TermId, base: TermId) -> Option<usize>
    requires first { Stands bank.now made }
    requires second { Stands bank.now base }
{
    let f = head_of(bank, made)?;
    let place = made_kind(history, f)?;
    let g = head_of(bank, base)?;
    if is_made_at(history, place, f) && is_base_at(history, place, g) {
        Some(place)
    } else {
        None
    }
}

/// The row of the shell at a place that says that what its constructor makes is no base.
fn base_trial(place: usize) -> Trial {
    Trial {
        place,
        row: BASE_IS_NOT_MADE,
        part: 0,
        chosen: Chosen::Last,
    }
}

/// The equation of an object just made and the base of its shell is F.
pub fn by_base(
    work: &mut Work,
    history: &History,
    assumed: &[TermId],
    t: TermId,
) -> Result<Rewritten, Stop>
    requires can { CanRewrite history.now work.old assumed.now t }
    ensures ok { IfOk result (λ r. IsRewritten history.now work.new (terms_at work.old.bank assumed.now) (term_at work.old.bank t) r) }
    ensures grows { WorkGrows history.now work.old work.new }
    ensures out { result ≡ Err Stop.OutOfSteps → work.new.counter.used ≡ work.new.counter.limit }
{
    match two_in(work, history, ground::EQUAL, t) {
        Some(sides) => by_base_sides(work, history, assumed, t, sides),
        None => Ok(unchanged(t)),
    }
}

/// The same, by its sides, in either order.
fn by_base_sides(
    work: &mut Work,
    history: &History,
    assumed: &[TermId],
    t: TermId,
    sides: Sides,
) -> Result<Rewritten, Stop>
    requires can { CanRewrite history.now work.old assumed.now t }
    requires sides { AreSides history.now work.old (codes "EQUAL") t sides }
    ensures ok { IfOk result (λ r. IsRewritten history.now work.new (terms_at work.old.bank assumed.now) (term_at work.old.bank t) r) }
    ensures grows { WorkGrows history.now work.old work.new }
    ensures out { result ≡ Err Stop.OutOfSteps → work.new.counter.used ≡ work.new.counter.limit }
{
    if let Some(place) = made_beside_base(&work.bank, history, sides.left, sides.right) {
        return by_trial(work, history, assumed, base_trial(place), t);
    }
    match made_beside_base(&work.bank, history, sides.right, sides.left) {
        Some(place) => by_turned_base(work, history, assumed, t, sides, place),
        None => Ok(unchanged(t)),
    }
}

/// The same, where the base stands on the left side.
fn by_turned_base(
    work: &mut Work,
    history: &History,
    assumed: &[TermId],
    t: TermId,
    sides: Sides,
    place: usize,
) -> Result<Rewritten, Stop>
    requires can { CanRewrite history.now work.old assumed.now t }
    requires sides { AreSides history.now work.old (codes "EQUAL") t sides }
    ensures ok { IfOk result (λ r. IsRewritten history.now work.new (terms_at work.old.bank assumed.now) (term_at work.old.bank t) r) }
    ensures grows { WorkGrows history.now work.old work.new }
    ensures out { result ≡ Err Stop.OutOfSteps → work.new.counter.used ≡ work.new.counter.limit }
{
    let turned = equate(work, history, sides.right, sides.left)?;
    by_turned_trial(work, history, assumed, t, sides, turned, place)
}

/// The same, where the turned equation is made.
fn by_turned_trial(
    work: &mut Work,
    history: &History,
    assumed: &[TermId],
    t: TermId,
    sides: Sides,
    turned: TermId,
    place: usize,
) -> Result<Rewritten, Stop>
    requires can { CanRewrite history.now work.old assumed.now t }
    requires sides { AreSides history.now work.old (codes "EQUAL") t sides }
    requires turned { IsTurned history.now work.old sides turned }
    ensures ok { IfOk result (λ r. IsRewritten history.now work.new (terms_at work.old.bank assumed.now) (term_at work.old.bank t) r) }
    ensures grows { WorkGrows history.now work.old work.new }
    ensures out { result ≡ Err Stop.OutOfSteps → work.new.counter.used ≡ work.new.counter.limit }
{
    let step = by_trial(work, history, assumed, base_trial(place), turned)?;
    by_turned_step(work, history, assumed, t, sides, turned, step)
}

/// The same, by what the turned equation comes to.
fn by_turned_step(
    work: &mut Work,
    history: &History,
    assumed: &[TermId],
    t: TermId,
    sides: Sides,
    turned: TermId,
    step: Rewritten,
) -> Result<Rewritten, Stop>
    requires can { CanRewrite history.now work.old assumed.now t }
    requires sides { AreSides history.now work.old (codes "EQUAL") t sides }
    requires turned { IsTurned history.now work.old sides turned }
    requires step { IsRewritten history.now work.old (terms_at work.old.bank assumed.now) (term_at work.old.bank turned) step }
    ensures ok { IfOk result (λ r. IsRewritten history.now work.new (terms_at work.old.bank assumed.now) (term_at work.old.bank t) r) }
    ensures grows { WorkGrows history.now work.old work.new }
    ensures out { result ≡ Err Stop.OutOfSteps → work.new.counter.used ≡ work.new.counter.limit }
{
    match known_by_value(work, history, assumed, turned, step)? {
        Some(known) => by_turned_known(work, history, assumed, t, sides, turned, known),
        None => Ok(unchanged(t)),
    }
}

/// The same, by what is known of the turned equation.
fn by_turned_known(
    work: &mut Work,
    history: &History,
    assumed: &[TermId],
    t: TermId,
    sides: Sides,
    turned: TermId,
    known: Known,
) -> Result<Rewritten, Stop>
    requires can { CanRewrite history.now work.old assumed.now t }
    requires sides { AreSides history.now work.old (codes "EQUAL") t sides }
    requires turned { IsTurned history.now work.old sides turned }
    requires known { IsKnown work.old (terms_at work.old.bank assumed.now) (term_at work.old.bank turned) known }
    ensures ok { IfOk result (λ r. IsRewritten history.now work.new (terms_at work.old.bank assumed.now) (term_at work.old.bank t) r) }
    ensures grows { WorkGrows history.now work.old work.new }
    ensures out { result ≡ Err Stop.OutOfSteps → work.new.counter.used ≡ work.new.counter.limit }
{
    match turned_back(work, history, assumed, t, sides, turned, known)? {
        Some(told) => false_where_known(work, history, assumed, t, told),
        None => Ok(unchanged(t)),
    }
}
