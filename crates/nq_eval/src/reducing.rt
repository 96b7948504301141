//! Calls of which some arguments have been replaced by their values.
ghost use Rattle.std.specs.Prelude.{◌≡◌, ◌<◌, ◌++◌, false, All, None, IfOk, OnOk, length, get_or, slice_set};
ghost use Rattle.nq_logic.specs.Terms.{call};
ghost use Rattle.nq_logic.specs.Numerals.{number_of};
ghost use Rattle.nq_bank.specs.Content.{text_at, term_at, terms_at};
ghost use Rattle.nq_kernel.specs.Growing.{WorkStands};
ghost use Rattle.nq_eval.specs.Lines.{GrowsUncounted, IsUsable};
ghost use Rattle.nq_bank.specs.Parts.{parts_of};
ghost use Rattle.nq_fragments.specs.Outcomes.{is_small};
ghost use Rattle.nq_eval.specs.Heads.{IsOtherCall};
ghost use Rattle.nq_eval.specs.Gathered.{HasRoom, AreReached, IsValuesCall, IsReduced};
ghost use Rattle.nq_eval.specs.Known.{IsKnown};
ghost use Rattle.nq_eval.specs.Reducing.{MayCall, IsReducing};

use crate::equalities::put_argument;
use crate::found::Known;
use crate::gathered::{Values, ValuesCall};
use crate::lines::Change;
use nq_bank::{BankFault, Sym, TermId};
use nq_history::History;
use nq_kernel::Work;
use std::alloc::AllocError;

/// A call of which some arguments have been replaced.
#[derive(Clone, Copy)]
pub struct Reduced {
    /// The call.
    pub term: TermId,
    /// The line of its equation with the first one, where it isn't the same.
    pub line: u64,
}

/// Makes the call of a function that may be called so.
pub fn call_of(
    work: &mut Work,
    history: &History,
    f: Sym,
    arguments: &[TermId],
) -> Result<TermId, AllocError>
    requires stands { WorkStands history.now work.old }
    requires may { MayCall work.old.bank history.now f arguments.now }
    ensures term { IfOk result (λ t. IsUsable work.new.bank history.now t) }
    ensures is { IfOk result (λ t. term_at work.new.bank t ≡ call (text_at work.new.bank f) (terms_at work.new.bank arguments.now)) }
    ensures grows { GrowsUncounted history.now work.old work.new }
{
    match work.bank.app(f, arguments) {
        Ok(t) => Ok(t),
        Err(BankFault::Memory) => Err(AllocError),
        Err(BankFault::Deep) => unreachable!(),
    }
}

/// Puts the value of an argument in its place.
pub fn put_value(
    work: &mut Work,
    history: &History,
    t: TermId,
    f: Sym,
    mixed: &mut Vec<TermId>,
    place: usize,
    a: TermId,
    known: Known,
    reduced: Reduced,
) -> Result<Reduced, AllocError>
    requires stands { WorkStands history.now work.old }
    requires reducing { IsReducing history.now work.old t f mixed.old.items reduced }
    requires below { place < length mixed.old.items }
    requires at { get_or mixed.old.items place a ≡ a }
    requires plain { number_of (call (text_at work.old.bank f) (terms_at work.old.bank mixed.old.items)) ≡ None }
    requires known { IsKnown history.now work.old a known }
    ensures items { OnOk result (mixed.new.items ≡ slice_set mixed.old.items place known.value) }
    ensures reducing { IfOk result (λ r. IsReducing history.now work.new t f mixed.new.items r) }
    ensures grows { GrowsUncounted history.now work.old work.new }
{
    if a.0 == known.value.0 {
        return Ok(reduced);
    }
    mixed[place] = known.value;
    put_changed(
        work,
        history,
        t,
        f,
        mixed.as_slice(),
        place,
        a,
        known,
        reduced,
    )
}

/// The same where the value is put already, and differs from the argument.
fn put_changed(
    work: &mut Work,
    history: &History,
    t: TermId,
    f: Sym,
    mixed: &[TermId],
    place: usize,
    a: TermId,
    known: Known,
    reduced: Reduced,
) -> Result<Reduced, AllocError>
    requires stands { WorkStands history.now work.old }
    requires reducing { IsReducing history.now work.old t f (slice_set mixed.now place a) reduced }
    requires below { place < length mixed.now }
    requires at { get_or mixed.now place known.value ≡ known.value }
    requires plain { number_of (call (text_at work.old.bank f) (terms_at work.old.bank (slice_set mixed.now place a))) ≡ None }
    requires known { IsKnown history.now work.old a known }
    requires differs { a.0 ≡ known.value.0 → ⊥ }
    ensures reducing { IfOk result (λ r. IsReducing history.now work.new t f mixed.now r) }
    ensures grows { GrowsUncounted history.now work.old work.new }
{
    let next = call_of(work, history, f, mixed)?;
    let change = Change {
        left: t,
        before: reduced.term,
        after: next,
        part: a,
        other: known.value,
    };
    let line = put_argument(
        work,
        history,
        reduced.line,
        place as u64 + 1,
        change,
        known.line,
    )?;
    Ok(Reduced { term: next, line })
}

/// The call of the values of arguments, with the line of its equation.
pub fn call_of_values(
    work: &mut Work,
    history: &History,
    t: TermId,
    f: Sym,
    arguments: &[TermId],
    values: &Values,
    nesting: u32,
    calls: u32,
) -> Result<ValuesCall, AllocError>
    requires stands { WorkStands history.now work.old }
    requires term { IsUsable work.old.bank history.now t }
    requires large { is_small (term_at work.old.bank t) ≡ false }
    requires head { IsOtherCall work.old.bank t f }
    requires arguments { terms_at work.old.bank arguments.now ≡ parts_of (term_at work.old.bank t) }
    requires room { All (HasRoom work.old.bank history.now) arguments.now }
    requires values { AreReached history.now work.old arguments.now nesting calls values.now }
    ensures call { IfOk result (λ c. IsValuesCall history.now work.new f c) }
    ensures reduced { IfOk result (λ c. IsReduced history.now work.new t nesting calls values.now.calls values.now.nesting c) }
    ensures grows { GrowsUncounted history.now work.old work.new }
{
    let mut mixed = Vec::from_slice(work.bank.alloc(), arguments)?;
    let mut reduced = Reduced { term: t, line: 0 };
    for place in 0..arguments.len() {
        let a = mixed[place];
        let known = values.known[place];
        reduced = put_value(work, history, t, f, &mut mixed, place, a, known, reduced)?;
    }
    Ok(ValuesCall {
        term: reduced.term,
        values: mixed,
        line: reduced.line,
    })
}
