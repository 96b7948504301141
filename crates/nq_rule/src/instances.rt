//! The rule INST: terms in place of the variables of a clause.
ghost use Rattle.std.specs.Prelude.{◌≡◌, ◌&&◌, ◌||◌, not, map, All, IfOk, Err, Some};
ghost use Rattle.nq_logic.specs.Terms.{substituted};
ghost use Rattle.nq_bank.specs.Content.{Stands, IsNamed, Grows, text_at, terms_at};
ghost use Rattle.nq_clause.specs.Substitution.{substitution_at, PairStands};
ghost use Rattle.nq_logic.specs.Names.{has_name};
ghost use Rattle.nq_proof.specs.Rules.{is_substitution};
ghost use Rattle.nq_rule.specs.Conclusions.{HasDeep, IsDeep, Concludes};
ghost use Rattle.nq_rule.specs.Results.{instance_of};

use crate::clauses::distinct_clause;
use crate::literals::is_either;
use crate::memory::{or_memory, push_literal};
use nq_bank::{Bank, BankFault, Sym, TermId, is_same_name};
use nq_clause::{Pair, substitute};

/// Is a name that of a variable among these?
fn has_variable(bank: &Bank, variable: Sym, pairs: &[Pair]) -> bool
    requires variable { IsNamed bank.now variable }
    requires pairs { All (PairStands bank.now) pairs.now }
    ensures { result ≡ has_name (text_at bank.now variable) (map (λ p. text_at bank.now p.variable) pairs.now) }
{
    let mut found = false;
    for p in pairs {
        let same = is_same_name(bank, variable, p.variable);
        found = is_either(found, same);
    }
    found
}

/// Are the variables of the pairs distinct?
pub fn are_distinct_variables(bank: &Bank, pairs: &[Pair]) -> bool
    requires { All (PairStands bank.now) pairs.now }
    ensures { result ≡ is_substitution (substitution_at bank.now pairs.now) }
{
    for (i, p) in pairs.iter().enumerate() {
        if has_variable(bank, p.variable, &pairs[i + 1..]) {
            return false;
        }
    }
    true
}

/// The terms, each with the terms of the pairs in place of their variables.
fn instances(bank: &mut Bank, terms: &[TermId], pairs: &[Pair]) -> Result<Vec<TermId>, BankFault>
    requires terms { All (Stands bank.old) terms.now }
    requires pairs { All (PairStands bank.old) pairs.now }
    ensures clause { IfOk result (λ c. terms_at bank.new c.items ≡ map (substituted (substitution_at bank.old pairs.now)) (terms_at bank.old terms.now)) }
    ensures stand { IfOk result (λ c. All (Stands bank.new) c.items) }
    ensures grows { Grows bank.old bank.new }
    ensures names { bank.new.names ≡ bank.old.names }
    ensures deep { result ≡ Err BankFault.Deep → HasDeep (map (substituted (substitution_at bank.old pairs.now)) (terms_at bank.old terms.now)) }
{
    let mut literals = Vec::new(bank.alloc());
    for t in terms {
        let literal = substitute(bank, *t, pairs)?;
        push_literal(&mut literals, literal)?;
    }
    Ok(literals)
}

/// The clause of the terms, each with the terms of the pairs in place of their variables.
pub fn instance_clause(
    bank: &mut Bank,
    terms: &[TermId],
    pairs: &[Pair],
) -> Result<Vec<TermId>, BankFault>
    requires terms { All (Stands bank.old) terms.now }
    requires pairs { All (PairStands bank.old) pairs.now }
    ensures ok { IfOk result (λ c. Concludes bank.new c.items (Some (instance_of (substitution_at bank.old pairs.now) (terms_at bank.old terms.now)))) }
    ensures grows { Grows bank.old bank.new }
    ensures names { bank.new.names ≡ bank.old.names }
    ensures deep { result ≡ Err BankFault.Deep → IsDeep (Some (instance_of (substitution_at bank.old pairs.now) (terms_at bank.old terms.now))) }
{
    let literals = instances(bank, terms, pairs)?;
    or_memory(distinct_clause(bank, literals.as_slice()))
}
