//! The cases of a term: clauses without IF that together are equivalent to it.
ghost use Rattle.std.specs.Prelude.{◌≡◌, ◌≤◌, ◌<◌, ◌++◌, ◌∷◌, [], All, IfOk, OnOk, MatchOption, Err, Ok, min};
ghost use Rattle.nq_bank.specs.Content.{Stands, Grows, IsIdOf, term_at, terms_at};
ghost use Rattle.nq_logic.specs.Words.{not_term};
ghost use Rattle.nq_logic.specs.Sizes.{depth_of, depth_limit};
ghost use Rattle.nq_cases.specs.Paths.{paths_of, IsIfFree};
ghost use Rattle.nq_cases.specs.Counts.{HasCounts};
ghost use Rattle.nq_cases.specs.Cases.{AreFree, AddsCases, ClausesStand, clauses_at, IsCases};

use crate::choosing::choose;
use crate::paths::count_paths;
use nq_bank::{Bank, BankFault, TermId, ground, ground_name};
use std::alloc::{AllocError, Global};
use std::collections::HashMap;

/// The number of paths of a term, or the cap where they are more.
fn counted(
    bank: &Bank,
    known: &mut HashMap<u64, u128>,
    t: TermId,
    cap: u128,
) -> Result<u128, BankFault>
    requires stands { Stands bank.now t }
    requires cap { 1 ≤ cap }
    requires counts { HasCounts bank.now cap known.old }
    ensures ok { IfOk result (λ n. n ≡ min (paths_of (term_at bank.now t)) cap) }
    ensures counts { OnOk result (HasCounts bank.now cap known.new) }
    ensures not_deep { result ≡ Err BankFault.Deep → ⊥ }
{
    match count_paths(bank, known, t, cap) {
        Ok(count) => Ok(count),
        Err(_) => Err(BankFault::Memory),
    }
}

/// The NOT of a term.
fn denied(bank: &mut Bank, t: TermId) -> Result<TermId, BankFault>
    requires stands { Stands bank.old t }
    requires shallow { depth_of (term_at bank.old t) < depth_limit }
    ensures ok { IfOk result (λ n. IsIdOf bank.new n (not_term (term_at bank.old t))) }
    ensures grows { Grows bank.old bank.new }
    ensures names { bank.new.names ≡ bank.old.names }
    ensures not_deep { result ≡ Err BankFault.Deep → ⊥ }
{
    let name = ground_name(bank, ground::NOT);
    bank.app(name, &[t])
}

/// The literals, and then a term.
fn followed(alloc: Global, literals: &[TermId], t: TermId) -> Result<Vec<TermId>, AllocError>
    ensures { IfOk result (λ c. c.items ≡ literals.now ++ t ∷ []) }
{
    let mut clause = Vec::from_slice(alloc, literals)?;
    clause.push(t)?;
    Ok(clause)
}

/// The same, where the only fault is want of memory.
fn followed_by(alloc: Global, literals: &[TermId], t: TermId) -> Result<Vec<TermId>, BankFault>
    ensures clause { IfOk result (λ c. c.items ≡ literals.now ++ t ∷ []) }
    ensures not_deep { result ≡ Err BankFault.Deep → ⊥ }
{
    match followed(alloc, literals, t) {
        Ok(clause) => Ok(clause),
        Err(_) => Err(BankFault::Memory),
    }
}

/// Puts a clause after others.
fn put(clauses: &mut Vec<Vec<TermId>>, clause: Vec<TermId>) -> Result<(), BankFault>
    ensures ok { OnOk result (clauses.new.items ≡ clauses.old.items ++ clause ∷ []) }
    ensures not_deep { result ≡ Err BankFault.Deep → ⊥ }
{
    match clauses.push(clause) {
        Ok(()) => Ok(()),
        Err(_) => Err(BankFault::Memory),
    }
}

/// Adds the cases of the clause of some tests and a term, where the tests have no IF.
fn add_cases(
    bank: &mut Bank,
    known: &mut HashMap<u64, u128>,
    cap: u128,
    tests: &[TermId],
    t: TermId,
    cases: &mut Vec<Vec<TermId>>,
) -> Result<(), BankFault>
    requires stands { Stands bank.old t }
    requires tests { All (Stands bank.old) tests.now }
    requires free { AreFree bank.old tests.now }
    requires cap { 2 ≤ cap }
    requires counts { HasCounts bank.old cap known.old }
    requires cases { ClausesStand bank.old cases.old.items }
    ensures ok { OnOk result (AddsCases bank.new (terms_at bank.old tests.now ++ term_at bank.old t ∷ []) (clauses_at bank.old cases.old.items) cases.new.items) }
    ensures counts { OnOk result (HasCounts bank.new cap known.new) }
    ensures grows { Grows bank.old bank.new }
    ensures names { bank.new.names ≡ bank.old.names }
    ensures not_deep { result ≡ Err BankFault.Deep → ⊥ }
{
    match choose(bank, known, t, cap)? {
        None => {
            let clause = followed_by(bank.alloc(), tests, t)?;
            put(cases, clause)
        }
        Some(choice) => {
            let denial = denied(bank, choice.test)?;
            let first = followed_by(bank.alloc(), tests, denial)?;
            add_cases(bank, known, cap, first.as_slice(), choice.first, cases)?;
            let second = followed_by(bank.alloc(), tests, choice.test)?;
            add_cases(bank, known, cap, second.as_slice(), choice.second, cases)
        }
    }
}

/// The cases of a term: clauses without IF, at most one for each IF path of the term, that together are equivalent to it.
/// None exactly where the term has more paths than `most`. No literal is deeper than the term, so Deep never comes.
pub fn if_cases(
    bank: &mut Bank,
    t: TermId,
    most: u64,
) -> Result<Option<Vec<Vec<TermId>>>, BankFault>
    requires stands { Stands bank.old t }
    ensures ok { IfOk result (λ o. MatchOption o (most < paths_of (term_at bank.old t)) (λ cases. (paths_of (term_at bank.old t) ≤ most) × IsCases bank.new (term_at bank.old t) cases.items)) }
    ensures grows { Grows bank.old bank.new }
    ensures names { bank.new.names ≡ bank.old.names }
    ensures not_deep { result ≡ Err BankFault.Deep → ⊥ }
{
    let mut known = HashMap::new(bank.alloc());
    let cap = u128::from(most) + 2;
    let count = counted(bank, &mut known, t, cap)?;
    if count > u128::from(most) {
        return Ok(None);
    }
    let mut cases = Vec::new(bank.alloc());
    add_cases(bank, &mut known, cap, &[], t, &mut cases)?;
    Ok(Some(cases))
}
