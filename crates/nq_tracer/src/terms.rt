//! Terms of propositions.
ghost use Rattle.std.specs.Prelude.{IfOk};
ghost use Rattle.nq_logic.specs.Words.{and_term, implies_term, not_term, true_term};
ghost use Rattle.nq_bank.specs.Content.{Grows, IsIdOf, Stands, term_at};

use nq_bank::{Bank, BankFault, TermId, ground, ground_name};

/// Makes the NOT of a term.
pub fn deny(bank: &mut Bank, t: TermId) -> Result<TermId, BankFault>
    requires { Stands bank.old t }
    ensures ok { IfOk result (λ d. IsIdOf bank.new d (not_term (term_at bank.old t))) }
    ensures grows { Grows bank.old bank.new }
{
    let name = ground_name(bank, ground::NOT);
    bank.app(name, &[t])
}

/// Makes the AND of two terms.
pub fn both(bank: &mut Bank, t: TermId, u: TermId) -> Result<TermId, BankFault>
    requires first { Stands bank.old t }
    requires second { Stands bank.old u }
    ensures ok { IfOk result (λ d. IsIdOf bank.new d (and_term (term_at bank.old t) (term_at bank.old u))) }
    ensures grows { Grows bank.old bank.new }
{
    let name = ground_name(bank, ground::AND);
    bank.app(name, &[t, u])
}

/// Makes that one term implies another.
pub fn implies(bank: &mut Bank, t: TermId, u: TermId) -> Result<TermId, BankFault>
    requires first { Stands bank.old t }
    requires second { Stands bank.old u }
    ensures ok { IfOk result (λ d. IsIdOf bank.new d (implies_term (term_at bank.old t) (term_at bank.old u))) }
    ensures grows { Grows bank.old bank.new }
{
    let name = ground_name(bank, ground::IMPLIES);
    bank.app(name, &[t, u])
}

/// Makes T.
pub fn truth(bank: &mut Bank) -> Result<TermId, BankFault>
    ensures ok { IfOk result (λ t. IsIdOf bank.new t true_term) }
    ensures grows { Grows bank.old bank.new }
{
    let name = ground_name(bank, ground::TRUE);
    bank.app(name, &[])
}
