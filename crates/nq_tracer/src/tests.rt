//! The test of a case: the tests that govern a recursive call, at the arguments of the call at hand.
ghost use Rattle.std.specs.Prelude.{◌∷◌, All, IfOk, map};
ghost use Rattle.nq_logic.specs.Terms.{substituted};
ghost use Rattle.nq_bank.specs.Content.{Grows, IsIdOf, term_at};
ghost use Rattle.nq_clause.specs.Substitution.{PairStands, substitution_at};
ghost use Rattle.nq_calls.specs.Calls.{GuardStands, guard_at, guards_at};
ghost use Rattle.nq_goals.specs.Inducting.{all_of};

use crate::terms::{both, deny, truth};
use nq_bank::{Bank, BankFault, TermId};
use nq_calls::Guard;
use nq_clause::{Pair, substitute};

/// Makes a test as it governs.
fn test_at(bank: &mut Bank, here: &[Pair], guard: Guard) -> Result<TermId, BankFault>
    requires pairs { All (PairStands bank.old) here.now }
    requires guard { GuardStands bank.old guard }
    ensures ok { IfOk result (λ t. IsIdOf bank.new t (substituted (substitution_at bank.old here.now) (guard_at bank.old guard))) }
    ensures grows { Grows bank.old bank.new }
{
    let test = substitute(bank, guard.test, here)?;
    if guard.holds {
        return Ok(test);
    }
    deny(bank, test)
}

/// Makes the AND of two tests, of which there are more behind the first.
fn tests_with(
    bank: &mut Bank,
    here: &[Pair],
    first: Guard,
    rest: &[Guard],
) -> Result<TermId, BankFault>
    requires pairs { All (PairStands bank.old) here.now }
    requires first { GuardStands bank.old first }
    requires rest { All (GuardStands bank.old) rest.now }
    ensures ok { IfOk result (λ t. IsIdOf bank.new t (all_of (map (substituted (substitution_at bank.old here.now)) (guard_at bank.old first ∷ guards_at bank.old rest.now)))) }
    ensures grows { Grows bank.old bank.new }
{
    match rest {
        [] => test_at(bank, here, first),
        [second, more @ ..] => {
            let later = tests_with(bank, here, *second, more)?;
            let test = test_at(bank, here, first)?;
            both(bank, test, later)
        }
    }
}

/// Makes the AND of all tests.
pub fn all_tests(bank: &mut Bank, here: &[Pair], guards: &[Guard]) -> Result<TermId, BankFault>
    requires pairs { All (PairStands bank.old) here.now }
    requires guards { All (GuardStands bank.old) guards.now }
    ensures ok { IfOk result (λ t. IsIdOf bank.new t (all_of (map (substituted (substitution_at bank.old here.now)) (guards_at bank.old guards.now)))) }
    ensures grows { Grows bank.old bank.new }
{
    match guards {
        [] => truth(bank),
        [first, rest @ ..] => tests_with(bank, here, *first, rest),
    }
}
