//! The rule VALUE of the log over the terms of a bank: when it is allowed, and the clause that it gives.
//!
//! It is allowed exactly where `has_value` of nq_value tells that the term has a value by the table.
#![tactic(auto)]

ghost use Rattle.std.specs.Prelude.{◌≡◌, ◌<◌, ◌∷◌, [], IfOk, IsSome, Err, Some};
ghost use Rattle.nq_logic.specs.Words.{equal_term};
ghost use Rattle.nq_logic.specs.Sizes.{depth_of, depth_limit};
ghost use Rattle.nq_bank.specs.Content.{Stands, IsIdOf, Grows, term_at};
ghost use Rattle.nq_proof.specs.Values.{value_of};
ghost use Rattle.nq_rule.specs.Conclusions.{Concludes, IsDeep};
ghost use Rattle.nq_value_rule.specs.Equations.{value_equation};

use nq_bank::{Bank, BankFault, TermId, ground, ground_name};
use nq_rule::clause_of_one;
use nq_value::value_of;

/// The value of a term that has one by the table.
fn its_value(bank: &mut Bank, t: TermId) -> Result<TermId, BankFault>
    requires stands { Stands bank.old t }
    requires value { IsSome (value_of (term_at bank.old t)) }
    ensures ok { IfOk result (λ v. value_of (term_at bank.old t) ≡ Some (term_at bank.new v)) }
    ensures stands { IfOk result (λ v. Stands bank.new v) }
    ensures grows { Grows bank.old bank.new }
    ensures names { bank.new.names ≡ bank.old.names }
    ensures not_deep { result ≡ Err BankFault.Deep → ⊥ }
{
    match value_of(bank, t) {
        Ok(Some(v)) => Ok(v),
        Ok(None) => unreachable!(),
        Err(_) => Err(BankFault::Memory),
    }
}

/// The equation of two terms.
fn equation(bank: &mut Bank, left: TermId, right: TermId) -> Result<TermId, BankFault>
    requires left { Stands bank.old left }
    requires right { Stands bank.old right }
    ensures ok { IfOk result (λ t. IsIdOf bank.new t (equal_term (term_at bank.old left) (term_at bank.old right))) }
    ensures grows { Grows bank.old bank.new }
    ensures names { bank.new.names ≡ bank.old.names }
    ensures deep { result ≡ Err BankFault.Deep → depth_limit < depth_of (equal_term (term_at bank.old left) (term_at bank.old right)) }
{
    let f = ground_name(bank, ground::EQUAL);
    bank.app(f, &[left, right])
}

/// The clause `(EQUAL t v)`, where v is the value of t by the table.
pub fn value_clause(bank: &mut Bank, t: TermId) -> Result<Vec<TermId>, BankFault>
    requires stands { Stands bank.old t }
    requires value { IsSome (value_of (term_at bank.old t)) }
    ensures ok { IfOk result (λ c. Concludes bank.new c.items (value_equation (term_at bank.old t))) }
    ensures grows { Grows bank.old bank.new }
    ensures names { bank.new.names ≡ bank.old.names }
    ensures deep { result ≡ Err BankFault.Deep → IsDeep (value_equation (term_at bank.old t)) }
{
    let value = its_value(bank, t)?;
    let literal = equation(bank, t, value)?;
    clause_of_one(bank, literal)
}
