//! Terms that are made without counting steps.
ghost use Rattle.std.specs.Prelude.{◌<◌, ◌≡◌, All, true};
ghost use Rattle.nq_bank.specs.Content.{IsNamed, Stands};
ghost use Rattle.nq_bank.specs.GroundNames.{ground_count};
ghost use Rattle.nq_kernel.specs.Growing.{WorkStands};
ghost use Rattle.nq_replay.specs.Uncounted.{GrowsUncounted};

use crate::halt::Halt;
use crate::reading::stands;
use nq_bank::{Bank, BankFault, Node, Sym, TermId, ground, ground_name};
use nq_history::History;
use nq_kernel::Work;

/// Do all terms stand?
fn all_stand(bank: &Bank, ids: &[TermId]) -> bool
    ensures { result ≡ true → All (Stands bank.now) ids.now }
{
    let count = bank.len();
    ids.iter().all(|t| t.0 < count)
}

/// Makes the call of a function, with one argument.
fn call_of_one(work: &mut Work, history: &History, f: Sym, argument: TermId) -> Result<TermId, Halt>
    requires stands { WorkStands history.now work.old }
    requires function { IsNamed work.old.bank f }
    requires argument { Stands work.old.bank argument }
    ensures { GrowsUncounted history.now work.old work.new }
{
    match work.bank.app(f, &[argument]) {
        Ok(t) => Ok(t),
        Err(BankFault::Memory) => Err(Halt::Memory),
        Err(BankFault::Deep) => Err(Halt::Stuck),
    }
}

/// Makes the call of the function of another call, with one argument.
pub fn call_at(
    work: &mut Work,
    history: &History,
    like: TermId,
    argument: TermId,
) -> Result<TermId, Halt>
    requires { WorkStands history.now work.old }
    ensures { GrowsUncounted history.now work.old work.new }
{
    if !stands(&work.bank, like) {
        return Err(Halt::Stuck);
    }
    if !stands(&work.bank, argument) {
        return Err(Halt::Stuck);
    }
    match work.bank.node(like) {
        Node::App(f, _) => call_of_one(work, history, f, argument),
        Node::Num(_) => Err(Halt::Stuck),
        Node::Var(_) => Err(Halt::Stuck),
    }
}

/// Makes the call of a ground function.
pub fn call(work: &mut Work, history: &History, known: Sym, ids: &[TermId]) -> Result<TermId, Halt>
    requires stands { WorkStands history.now work.old }
    requires known { known.0 < ground_count }
    ensures { GrowsUncounted history.now work.old work.new }
{
    if !all_stand(&work.bank, ids) {
        return Err(Halt::Stuck);
    }
    let name = ground_name(&work.bank, known);
    match work.bank.app(name, ids) {
        Ok(t) => Ok(t),
        Err(BankFault::Memory) => Err(Halt::Memory),
        Err(BankFault::Deep) => Err(Halt::Stuck),
    }
}

/// Makes the NOT of a term.
pub fn deny(work: &mut Work, history: &History, t: TermId) -> Result<TermId, Halt>
    requires { WorkStands history.now work.old }
    ensures { GrowsUncounted history.now work.old work.new }
{
    call(work, history, ground::NOT, &[t])
}

/// Makes the NOT of the NOT of a term.
pub fn deny_twice(work: &mut Work, history: &History, t: TermId) -> Result<TermId, Halt>
    requires { WorkStands history.now work.old }
    ensures { GrowsUncounted history.now work.old work.new }
{
    let denied = deny(work, history, t)?;
    deny(work, history, denied)
}

/// Makes the EQUAL of two terms.
pub fn equate(work: &mut Work, history: &History, t: TermId, u: TermId) -> Result<TermId, Halt>
    requires { WorkStands history.now work.old }
    ensures { GrowsUncounted history.now work.old work.new }
{
    call(work, history, ground::EQUAL, &[t, u])
}
