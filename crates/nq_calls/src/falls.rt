//! The measure at a call of the function, and the clause by which it falls there.
ghost use Rattle.std.specs.Prelude.{◌≡◌, ◌≤◌, ◌⊎◌, ◌++◌, ◌∷◌, [], All, IfOk, map};
ghost use Rattle.nq_logic.specs.Terms.{substituted};
ghost use Rattle.nq_logic.specs.Words.{call2, not_term};
ghost use Rattle.nq_logic.specs.Admissible.{matched};
ghost use Rattle.nq_bank.specs.Content.{Content, Grows, IsIdOf, IsNamed, Stands, term_at, terms_at};
ghost use Rattle.nq_bank.specs.Shells.{texts_at};
ghost use Rattle.nq_clause.specs.Substitution.{substitution_at, PairStands};
ghost use Rattle.nq_calls.specs.Calls.{GuardStands, SiteStands, guard_at, guards_at, site_at};
ghost use Rattle.nq_calls.specs.Falls.{fall_clause, smaller_at};

use crate::calls::{Guard, Site};
use nq_bank::{Bank, BankFault, Sym, TermId, ground, ground_name};
use nq_clause::{Pair, substitute};
use std::alloc::AllocError;

/// Makes the NOT of a term.
fn deny(bank: &mut Bank, t: TermId) -> Result<TermId, BankFault>
    requires { Stands bank.old t }
    ensures ok { IfOk result (λ d. IsIdOf bank.new d (not_term (term_at bank.old t))) }
    ensures grows { Grows bank.old bank.new }
    ensures names { bank.new.names ≡ bank.old.names }
{
    let name = ground_name(bank, ground::NOT);
    bank.app(name, &[t])
}

/// Makes the NOT of a test as it governs.
fn deny_guard(bank: &mut Bank, guard: Guard) -> Result<TermId, BankFault>
    requires { GuardStands bank.old guard }
    ensures ok { IfOk result (λ d. IsIdOf bank.new d (not_term (guard_at bank.old guard))) }
    ensures grows { Grows bank.old bank.new }
    ensures names { bank.new.names ≡ bank.old.names }
{
    let inner = deny(bank, guard.test)?;
    if guard.holds {
        return Ok(inner);
    }
    deny(bank, inner)
}

/// One more id.
fn add_id(ids: &mut Vec<TermId>, id: TermId) -> Result<(), BankFault>
    ensures { IfOk result (λ _. ids.new.items ≡ ids.old.items ++ id ∷ []) }
{
    match ids.push(id) {
        Ok(()) => Ok(()),
        Err(_) => Err(BankFault::Memory),
    }
}

/// Makes the NOT of each test.
fn deny_guards(bank: &mut Bank, guards: &[Guard]) -> Result<Vec<TermId>, BankFault>
    requires { All (GuardStands bank.old) guards.now }
    ensures ok { IfOk result (λ v. terms_at bank.new v.items ≡ map not_term (guards_at bank.old guards.now)) }
    ensures stand { IfOk result (λ v. All (Stands bank.new) v.items) }
    ensures grows { Grows bank.old bank.new }
    ensures names { bank.new.names ≡ bank.old.names }
{
    let mut literals = Vec::new(bank.alloc());
    for guard in guards {
        let literal = deny_guard(bank, *guard)?;
        add_id(&mut literals, literal)?;
    }
    Ok(literals)
}

/// Each formal with its argument.
pub fn pairs_of(bank: &Bank, formals: &[Sym], arguments: &[TermId]) -> Result<Vec<Pair>, AllocError>
    requires formals { All (IsNamed bank.now) formals.now }
    requires arguments { All (Stands bank.now) arguments.now }
    ensures pairs { IfOk result (λ v. substitution_at bank.now v.items ≡ matched (texts_at bank.now formals.now) (terms_at bank.now arguments.now)) }
    ensures stand { IfOk result (λ v. All (PairStands bank.now) v.items) }
{
    let mut pairs = Vec::new(bank.alloc());
    let count = shorter(formals.len(), arguments.len());
    for place in 0..count {
        pairs.push(Pair {
            variable: formals[place],
            term: arguments[place],
        })?;
    }
    Ok(pairs)
}

/// The shorter of two lengths.
pub fn shorter(a: usize, b: usize) -> usize
    ensures first { result ≤ a }
    ensures second { result ≤ b }
    ensures either { (result ≡ a) ⊎ (result ≡ b) }
{
    if a < b { a } else { b }
}

/// The measure at the arguments of a call.
pub fn measure_at(
    bank: &mut Bank,
    formals: &[Sym],
    measure: TermId,
    site: &Site,
) -> Result<TermId, BankFault>
    requires formals { All (IsNamed bank.old) formals.now }
    requires measure { Stands bank.old measure }
    requires site { SiteStands bank.old site.now }
    ensures ok { IfOk result (λ t. IsIdOf bank.new t (smaller_at (texts_at bank.old formals.now) (term_at bank.old measure) (site_at bank.old site.now))) }
    ensures grows { Grows bank.old bank.new }
    ensures names { bank.new.names ≡ bank.old.names }
{
    match pairs_of(bank, formals, site.arguments.as_slice()) {
        Ok(pairs) => substitute(bank, measure, pairs.as_slice()),
        Err(_) => Err(BankFault::Memory),
    }
}

/// Makes that one term is below another in the order of the ordinals.
fn below(bank: &mut Bank, smaller: TermId, measure: TermId) -> Result<TermId, BankFault>
    requires smaller { Stands bank.old smaller }
    requires measure { Stands bank.old measure }
    ensures ok { IfOk result (λ t. IsIdOf bank.new t (call2 "ORD-LESSP" (term_at bank.old smaller) (term_at bank.old measure))) }
    ensures grows { Grows bank.old bank.new }
    ensures names { bank.new.names ≡ bank.old.names }
{
    let name = ground_name(bank, ground::ORD_LESSP);
    bank.app(name, &[smaller, measure])
}

/// Makes the literals of a call's obligation, where the measure at its arguments is known.
pub fn fall_literals(
    bank: &mut Bank,
    smaller: TermId,
    measure: TermId,
    guards: &[Guard],
) -> Result<Vec<TermId>, BankFault>
    requires smaller { Stands bank.old smaller }
    requires measure { Stands bank.old measure }
    requires guards { All (GuardStands bank.old) guards.now }
    ensures ok { IfOk result (λ v. terms_at bank.new v.items ≡ fall_clause (term_at bank.old smaller) (term_at bank.old measure) (guards_at bank.old guards.now)) }
    ensures stand { IfOk result (λ v. All (Stands bank.new) v.items) }
    ensures grows { Grows bank.old bank.new }
    ensures names { bank.new.names ≡ bank.old.names }
{
    let mut literals = deny_guards(bank, guards)?;
    let last = below(bank, smaller, measure)?;
    add_id(&mut literals, last)?;
    Ok(literals)
}
