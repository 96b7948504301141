//! Numbers that are made of the parts of one, as `(ADD1 (SUB1 N))`: where N is known to be a number, and not 0, that is N.
ghost use Rattle.std.specs.Prelude.{◌≡◌, IfOk, IfSome, Err};
ghost use Rattle.nq_kernel.specs.Growing.{WorkGrows, WorkStands};
ghost use Rattle.nq_lines.specs.Lines.{IsTermIn};

use crate::terms::is_call_of;
use nq_arithmetic::zero;
use nq_bank::{Sym, TermId, ground};
use nq_history::History;
use nq_kernel::{Stop, Work};
use nq_lines::{deny, equate};
use nq_reduce::argument_of;

/// The argument of a call of this function.
fn within(work: &Work, history: &History, f: Sym, t: TermId) -> Option<TermId>
    requires stands { WorkStands history.now work.now }
    requires term { IsTermIn history.now work.now t }
    ensures { IfSome result (IsTermIn history.now work.now) }
{
    if is_call_of(&work.bank, f, t) {
        argument_of(work, history, t, 1)
    } else {
        None
    }
}

/// N, of `(ADD1 (SUB1 N))`.
pub fn remade_number(work: &Work, history: &History, t: TermId) -> Option<TermId>
    requires stands { WorkStands history.now work.now }
    requires term { IsTermIn history.now work.now t }
    ensures { IfSome result (IsTermIn history.now work.now) }
{
    match within(work, history, ground::ADD1, t) {
        Some(a) => within(work, history, ground::SUB1, a),
        None => None,
    }
}

/// Makes the term that says of a number that it is not 0.
pub fn above_zero(work: &mut Work, history: &History, n: TermId) -> Result<TermId, Stop>
    requires stands { WorkStands history.now work.old }
    requires term { IsTermIn history.now work.old n }
    ensures test { IfOk result (IsTermIn history.now work.new) }
    ensures grows { WorkGrows history.now work.old work.new }
    ensures out { result ≡ Err Stop.OutOfSteps → work.new.counter.used ≡ work.new.counter.limit }
{
    let nothing = zero(work, history)?;
    let equation = equate(work, history, n, nothing)?;
    deny(work, history, equation)
}
