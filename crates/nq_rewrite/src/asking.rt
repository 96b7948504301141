//! What is asked of an object: what a part of it is, or of which kind it is, as in `(CAR (MERGE X Y))` and `(LISTP (MERGE X Y))`. Here
//! are the single steps on what it is asked of.
ghost use Rattle.std.specs.Prelude.{◌≡◌, IfOk, IfSome, Err};
ghost use Rattle.nq_bank.specs.Content.{Stands, term_at, terms_at};
ghost use Rattle.nq_kernel.specs.Growing.{WorkGrows, WorkStands};
ghost use Rattle.nq_instances.specs.Parts.{IsIfOf};
ghost use Rattle.nq_lines.specs.Lines.{IsTermIn};
ghost use Rattle.nq_reduce.specs.Rewriting.{CanRewrite, IsArgument, IsKnown, IsRewritten};

use crate::steps::{test_of, with_test};
use crate::telling::is_constructor;
use crate::terms::function_of;
use nq_bank::{Bank, Sym, TermId};
use nq_history::History;
use nq_kernel::{Stop, Work};
use nq_reduce::{Known, Rewritten, argument_of, choose, congruent, opening_of};
use nq_rule::Branches;

/// Is a function the accessor of a part, or the recognizer of a kind?
fn is_asking(history: &History, f: Sym) -> bool {
    for shell in history.shells() {
        if shell.recognizer.0 == f.0 {
            return true;
        }
        for part in shell.parts.as_slice() {
            if part.accessor.0 == f.0 {
                return true;
            }
        }
    }
    false
}

/// Does a term ask for a part or the kind of something?
fn asks(bank: &Bank, history: &History, t: TermId) -> bool
    requires { Stands bank.now t }
{
    match function_of(bank, t) {
        Some(f) => is_asking(history, f),
        None => false,
    }
}

/// What a term asks for a part or the kind of.
pub fn asked_of(work: &Work, history: &History, t: TermId) -> Option<TermId>
    requires stands { WorkStands history.now work.now }
    requires term { IsTermIn history.now work.now t }
    ensures { IfSome result (IsArgument history.now work.now t 1) }
{
    if asks(&work.bank, history, t) {
        argument_of(work, history, t, 1)
    } else {
        None
    }
}

/// Is it an object just made?
fn is_made(bank: &Bank, history: &History, a: TermId) -> bool
    requires { Stands bank.now a }
{
    match function_of(bank, a) {
        Some(f) => is_constructor(history, f),
        None => false,
    }
}

/// Does a term ask for a part or the kind of an object just made?
pub fn asks_made(work: &Work, history: &History, t: TermId) -> bool
    requires stands { WorkStands history.now work.now }
    requires term { IsTermIn history.now work.now t }
{
    match asked_of(work, history, t) {
        Some(a) => is_made(&work.bank, history, a),
        None => false,
    }
}

/// The test by which an IF with this test is divided: the innermost one at its left.
pub fn dividing_test(work: &Work, history: &History, assumed: &[TermId], test: TermId) -> TermId
    requires stands { WorkStands history.now work.now }
    requires test { IsTermIn history.now work.now test }
    ensures { IsTermIn history.now work.now result }
{
    match test_of(work, history, assumed, test) {
        Some(p) => p,
        None => test,
    }
}

/// What is asked of an IF is asked of the branch that its known test takes.
pub fn asked_of_branch(
    work: &mut Work,
    history: &History,
    assumed: &[TermId],
    t: TermId,
    a: TermId,
    parts: Branches,
    test: Rewritten,
    known: Known,
) -> Result<Rewritten, Stop>
    requires can { CanRewrite history.now work.old assumed.now t }
    requires argument { IsArgument history.now work.old t 1 a }
    requires parts { IsIfOf history.now work.old a parts }
    requires test { IsRewritten history.now work.old (terms_at work.old.bank assumed.now) (term_at work.old.bank parts.test) test }
    requires known { IsKnown work.old (terms_at work.old.bank assumed.now) (term_at work.old.bank test.term) known }
    ensures ok { IfOk result (λ r. IsRewritten history.now work.new (terms_at work.old.bank assumed.now) (term_at work.old.bank t) r) }
    ensures grows { WorkGrows history.now work.old work.new }
    ensures out { result ≡ Err Stop.OutOfSteps → work.new.counter.used ≡ work.new.counter.limit }
{
    let branch = choose(work, history, assumed, a, parts, test, known)?;
    congruent(work, history, assumed, t, 1, a, branch)
}

/// What is asked of an IF is asked of the IF with its test rewritten.
pub fn asked_of_tested(
    work: &mut Work,
    history: &History,
    assumed: &[TermId],
    t: TermId,
    a: TermId,
    parts: Branches,
    test: Rewritten,
) -> Result<Rewritten, Stop>
    requires can { CanRewrite history.now work.old assumed.now t }
    requires argument { IsArgument history.now work.old t 1 a }
    requires parts { IsIfOf history.now work.old a parts }
    requires test { IsRewritten history.now work.old (terms_at work.old.bank assumed.now) (term_at work.old.bank parts.test) test }
    ensures ok { IfOk result (λ r. IsRewritten history.now work.new (terms_at work.old.bank assumed.now) (term_at work.old.bank t) r) }
    ensures grows { WorkGrows history.now work.old work.new }
    ensures out { result ≡ Err Stop.OutOfSteps → work.new.counter.used ≡ work.new.counter.limit }
{
    let whole = with_test(work, history, assumed, a, parts, test)?;
    congruent(work, history, assumed, t, 1, a, whole)
}

/// What is asked of a call is asked of its opening.
pub fn asked_of_opened(
    work: &mut Work,
    history: &History,
    assumed: &[TermId],
    t: TermId,
    a: TermId,
) -> Result<Rewritten, Stop>
    requires can { CanRewrite history.now work.old assumed.now t }
    requires argument { IsArgument history.now work.old t 1 a }
    ensures ok { IfOk result (λ r. IsRewritten history.now work.new (terms_at work.old.bank assumed.now) (term_at work.old.bank t) r) }
    ensures grows { WorkGrows history.now work.old work.new }
    ensures out { result ≡ Err Stop.OutOfSteps → work.new.counter.used ≡ work.new.counter.limit }
{
    let opened = opening_of(work, history, assumed, a)?;
    congruent(work, history, assumed, t, 1, a, opened)
}
