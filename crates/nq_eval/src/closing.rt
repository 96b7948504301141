//! What is found for a term, from what is found for its parts.
ghost use Rattle.std.specs.Prelude.{◌≡◌, ◌≤◌, ◌<◌, ◌+◌, ◌-◌, ℕ, length, true, false, None, Some, All, IfOk};
ghost use Rattle.nq_logic.specs.Sizes.{depth_of};
ghost use Rattle.nq_logic.specs.Terms.{call};
ghost use Rattle.nq_logic.specs.Words.{false_term};
ghost use Rattle.nq_logic.specs.Values.{is_value};
ghost use Rattle.nq_proof.specs.Clauses.{same_term};
ghost use Rattle.nq_bank.specs.Content.{Stands, IsNamed, text_at, term_at, terms_at};
ghost use Rattle.nq_bank.specs.Parts.{parts_of};
ghost use Rattle.nq_proof.specs.Values.{value_of};
ghost use Rattle.nq_value.specs.Passing.{passes};
ghost use Rattle.nq_value.specs.Objects.{DenotesValue};
ghost use Rattle.nq_value.specs.Answers.{IsAnswer};
ghost use Rattle.nq_kernel.specs.Growing.{WorkStands};
ghost use Rattle.nq_fragments.specs.Outcomes.{is_small};
ghost use Rattle.nq_eval.specs.Lines.{GrowsUncounted, IsUsable, Equates};
ghost use Rattle.nq_eval.specs.Heads.{IsChoice, IsOtherCall};
ghost use Rattle.nq_eval.specs.Known.{IsKnown, IsReached, IsFoundFor, IsFoundOn, left_on};
ghost use Rattle.nq_eval.specs.Gathered.{HasRoom, AreReached, IsValuesCall, IsReduced};
ghost use Rattle.nq_eval.specs.Sides.{side_at};

use crate::choices::choice_line;
use crate::equalities::chain;
use crate::found::{Found, Known, VALUE_DEPTH, is_small_value};
use crate::gathered::{Values, ValuesCall};
use crate::heads::is_falsity;
use crate::lines::add_value;
use nq_bank::{Bank, Sym, TermId};
use nq_history::History;
use nq_kernel::Work;
use nq_rule::Branches;
use nq_value::{ValueAnswer, apply};
use std::alloc::AllocError;

/// A copy of the arguments of a call.
pub fn arguments_of(
    work: &Work,
    history: &History,
    t: TermId,
    f: Sym,
) -> Result<Vec<TermId>, AllocError>
    requires term { IsUsable work.now.bank history.now t }
    requires large { is_small (term_at work.now.bank t) ≡ false }
    requires head { IsOtherCall work.now.bank t f }
    ensures arguments { IfOk result (λ v. terms_at work.now.bank v.items ≡ parts_of (term_at work.now.bank t)) }
    ensures room { IfOk result (λ v. All (HasRoom work.now.bank history.now) v.items) }
    ensures within { IfOk result (λ v. All (λ a. depth_of (term_at work.now.bank a) < depth_of (term_at work.now.bank t)) v.items) }
{
    Vec::from_slice(work.bank.alloc(), work.bank.args(t))
}

/// The side that a test chooses.
pub fn side_of(bank: &Bank, parts: Branches, value: TermId) -> TermId
    requires { Stands bank.now value }
    ensures { result ≡ side_at bank.now parts value }
{
    if is_falsity(bank, value) {
        parts.second
    } else {
        parts.first
    }
}

/// The value of an IF, from those of its test and of the side that it chooses.
pub fn close_choice(
    work: &mut Work,
    history: &History,
    t: TermId,
    parts: Branches,
    side: TermId,
    test: Known,
    known: Known,
    nesting: u32,
    calls: u32,
) -> Result<Known, AllocError>
    requires stands { WorkStands history.now work.old }
    requires term { IsUsable work.old.bank history.now t }
    requires large { is_small (term_at work.old.bank t) ≡ false }
    requires head { IsChoice work.old.bank t parts }
    requires side { side ≡ side_at work.old.bank parts test.value }
    requires usable { IsUsable work.old.bank history.now side }
    requires test { IsReached history.now work.old parts.test nesting calls test }
    requires known { IsReached history.now work.old side nesting (calls - test.calls) known }
    ensures known { IfOk result (λ known. IsReached history.now work.new t nesting calls known) }
    ensures calls { IfOk result (λ closed. closed.calls ≡ test.calls + known.calls) }
    ensures grows { GrowsUncounted history.now work.old work.new }
{
    let line = choice_line(work, history, t, parts, side, test)?;
    let line = chain(work, history, t, side, known.value, line, known.line)?;
    Ok(Known {
        value: known.value,
        calls: test.calls + known.calls,
        nesting: test.nesting.max(known.nesting),
        line,
    })
}

/// What the table gives for a call on values.
pub fn row_of(
    work: &mut Work,
    history: &History,
    f: Sym,
    call: &ValuesCall,
) -> Result<ValueAnswer, AllocError>
    requires stands { WorkStands history.now work.old }
    requires call { IsValuesCall history.now work.old f call.now }
    ensures answer { IfOk result (λ answer. IsAnswer work.new.bank answer (term_at work.old.bank call.now.term)) }
    ensures grows { GrowsUncounted history.now work.old work.new }
{
    apply(&mut work.bank, f, call.values.as_slice())
}

/// The value of a call on values by its row.
pub fn row_value(
    work: &mut Work,
    history: &History,
    u: TermId,
    v: TermId,
) -> Result<Found, AllocError>
    requires stands { WorkStands history.now work.old }
    requires term { IsUsable work.old.bank history.now u }
    requires known { DenotesValue work.old.bank v }
    requires value { value_of (term_at work.old.bank u) ≡ Some (term_at work.old.bank v) }
    ensures found { IfOk result (λ found. (n left : ℕ) → IsFoundOn history.now work.new u n left found) }
    ensures grows { GrowsUncounted history.now work.old work.new }
{
    if work.bank.depth(v) > VALUE_DEPTH {
        return Ok(Found::Blocked(u));
    }
    small_row_value(work, history, u, v)
}

/// The same where the value is not too deep.
fn small_row_value(
    work: &mut Work,
    history: &History,
    u: TermId,
    v: TermId,
) -> Result<Found, AllocError>
    requires stands { WorkStands history.now work.old }
    requires term { IsUsable work.old.bank history.now u }
    requires known { Stands work.old.bank v }
    requires small { is_small (term_at work.old.bank v) ≡ true }
    requires value { value_of (term_at work.old.bank u) ≡ Some (term_at work.old.bank v) }
    ensures found { IfOk result (λ found. (n left : ℕ) → IsFoundOn history.now work.new u n left found) }
    ensures grows { GrowsUncounted history.now work.old work.new }
{
    let line = add_value(work, history, u, v)?;
    Ok(Found::Value(Known {
        value: v,
        calls: 0,
        nesting: 0,
        line,
    }))
}

/// What is found for a call on values that has no row and isn't opened: it is a value, or its number passes.
pub fn value_without_opening(work: &Work, history: &History, u: TermId) -> Found
    requires term { IsUsable work.now.bank history.now u }
    requires row { value_of (term_at work.now.bank u) ≡ None }
    requires passes { is_value (term_at work.now.bank u) ≡ false → passes (term_at work.now.bank u) ≡ true }
    ensures { (n left : ℕ) → IsFoundOn history.now work.now u n left result }
{
    if is_small_value(&work.bank, u) {
        Found::Value(Known {
            value: u,
            calls: 0,
            nesting: 0,
            line: 0,
        })
    } else {
        Found::Blocked(u)
    }
}

/// What is found for a call, from what is found for the call of its arguments' values.
pub fn close_call(
    work: &mut Work,
    history: &History,
    t: TermId,
    call: &ValuesCall,
    used: u32,
    deepest: u32,
    found: Found,
    nesting: u32,
    calls: u32,
) -> Result<Found, AllocError>
    requires stands { WorkStands history.now work.old }
    requires reduced { IsReduced history.now work.old t nesting calls used deepest call.now }
    requires found { IsFoundOn history.now work.old call.now.term nesting (calls - used) found }
    ensures found { IfOk result (λ found. IsFoundFor history.now work.new t nesting calls found) }
    ensures left { IfOk result (λ closed. left_on calls closed ≡ left_on (calls - used) found) }
    ensures grows { GrowsUncounted history.now work.old work.new }
{
    match found {
        Found::Value(known) => {
            let line = chain(
                work,
                history,
                t,
                call.term,
                known.value,
                call.line,
                known.line,
            )?;
            Ok(Found::Value(Known {
                value: known.value,
                calls: used + known.calls,
                nesting: deepest.max(known.nesting),
                line,
            }))
        }
        Found::Blocked(w) => Ok(Found::Blocked(w)),
        Found::Fuel => Ok(Found::Fuel),
    }
}
