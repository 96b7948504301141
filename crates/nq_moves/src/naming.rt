//! New variables in the places of terms.
ghost use Rattle.std.specs.Prelude.{◌≡◌, ◌++◌, ◌∷◌, [], false, All, IfOk, IfSome, OnOk, IsTrue, Err, length};
ghost use Rattle.nq_logic.specs.Values.{is_value};
ghost use Rattle.nq_logic.specs.Terms.{Name, Variable};
ghost use Rattle.nq_bank.specs.Content.{IsNamed, IsIdOf, text_at, term_at, terms_at};
ghost use Rattle.nq_clause.specs.Substitution.{PairStands, substitution_at};
ghost use Rattle.nq_proof.specs.Rules.{is_substitution, pair_terms};
ghost use Rattle.nq_kernel.specs.Growing.{WorkStands, WorkGrows};
ghost use Rattle.nq_kernel.specs.Over.{pair_names};
ghost use Rattle.nq_lines.specs.Lines.{IsTermIn};
ghost use Rattle.nq_goals.specs.NewVariables.{clause_variables, new_variables};
ghost use Rattle.nq_moves.specs.Exchanging.{exchange_at, ExchangeStands};
ghost use Rattle.nq_moves.specs.Naming.{IsNaming, exchange_by, IsRenaming, occurs_in_one};

use crate::exchanging::{Exchanging, exchange_all};
use crate::numbering::next_name;
use crate::used_names::names_in;
use nq_bank::{Bank, Sym, TermId};
use nq_clause::Pair;
use nq_history::History;
use nq_kernel::{Stop, Work};
use nq_rule::are_distinct_variables;

/// One more pair.
fn push_pair(pairs: &mut Vec<Pair>, pair: Pair) -> Result<(), Stop>
    ensures kept { OnOk result (pairs.new.items ≡ pairs.old.items ++ pair ∷ []) }
    ensures memory { result ≡ Err Stop.OutOfSteps → ⊥ }
{
    match pairs.push(pair) {
        Ok(()) => Ok(()),
        Err(_) => Err(Stop::Memory),
    }
}

/// New variables for the terms, in turn: those of the least numbers that stand in none of the literals. The variables of these are looked
/// for once, before all numbers.
fn name_terms(
    work: &mut Work,
    history: &History,
    literals: &[TermId],
    terms: &[TermId],
) -> Result<Vec<Pair>, Stop>
    requires stands { WorkStands history.now work.old }
    requires literals { All (IsTermIn history.now work.old) literals.now }
    requires terms { All (IsTermIn history.now work.old) terms.now }
    ensures pairs { IfOk result (λ pairs. All (IsNaming history.now work.new literals.now) pairs.items) }
    ensures names { IfOk result (λ pairs. pair_names (substitution_at work.new.bank pairs.items) ≡ new_variables (clause_variables (terms_at work.old.bank literals.now)) (length terms.now)) }
    ensures terms { IfOk result (λ pairs. pair_terms (substitution_at work.new.bank pairs.items) ≡ terms_at work.old.bank terms.now) }
    ensures grows { WorkGrows history.now work.old work.new }
    ensures memory { result ≡ Err Stop.OutOfSteps → ⊥ }
{
    let names = names_in(&work.bank, literals)?;
    let mut pairs = Vec::new(work.bank.alloc());
    let mut number = 1;
    for t in terms {
        let next = next_name(work, history, literals, &names, number)?;
        number = next.number + 1;
        let pair = Pair {
            variable: next.name,
            term: *t,
        };
        push_pair(&mut pairs, pair)?;
    }
    Ok(pairs)
}

/// The id of a variable.
pub fn variable_id(work: &mut Work, history: &History, name: Sym) -> Result<TermId, Stop>
    requires stands { WorkStands history.now work.old }
    requires name { IsNamed work.old.bank name }
    ensures term { IfOk result (λ t. IsIdOf work.new.bank t (Variable (text_at work.old.bank name))) }
    ensures grows { WorkGrows history.now work.old work.new }
    ensures memory { result ≡ Err Stop.OutOfSteps → ⊥ }
{
    match work.bank.var(name) {
        Ok(t) => Ok(t),
        Err(_) => Err(Stop::Memory),
    }
}

/// One more term, and what takes its place.
fn push_exchanging(exchange: &mut Vec<Exchanging>, e: Exchanging) -> Result<(), Stop>
    ensures kept { OnOk result (exchange.new.items ≡ exchange.old.items ++ e ∷ []) }
    ensures memory { result ≡ Err Stop.OutOfSteps → ⊥ }
{
    match exchange.push(e) {
        Ok(()) => Ok(()),
        Err(_) => Err(Stop::Memory),
    }
}

/// The variables of the pairs in the places of their terms.
fn exchange_of_pairs(
    work: &mut Work,
    history: &History,
    pairs: &[Pair],
) -> Result<Vec<Exchanging>, Stop>
    requires stands { WorkStands history.now work.old }
    requires pairs { All (PairStands work.old.bank) pairs.now }
    ensures exchange { IfOk result (λ v. exchange_at work.new.bank v.items ≡ exchange_by (substitution_at work.old.bank pairs.now)) }
    ensures stand { IfOk result (λ v. All (ExchangeStands work.new.bank) v.items) }
    ensures grows { WorkGrows history.now work.old work.new }
    ensures memory { result ≡ Err Stop.OutOfSteps → ⊥ }
{
    let mut exchange = Vec::new(work.bank.alloc());
    for p in pairs {
        let into = variable_id(work, history, p.variable)?;
        let e = Exchanging { from: p.term, into };
        push_exchanging(&mut exchange, e)?;
    }
    Ok(exchange)
}

/// Is no term of the pairs a value?
fn no_values(bank: &Bank, pairs: &[Pair]) -> bool
    requires { All (PairStands bank.now) pairs.now }
    ensures { IsTrue result → All (λ p. is_value (term_at bank.now p.term) ≡ false) pairs.now }
{
    for p in pairs {
        if bank.is_value(p.term) {
            return false;
        }
    }
    true
}

/// Literals with new variables in the places of terms, and which terms these are.
#[derive(Drop)]
pub struct Renaming {
    /// The new variables, each with the term for which it stands.
    pub pairs: Vec<Pair>,
    /// The literals.
    pub literals: Vec<TermId>,
}

/// Are the variables of the pairs distinct, and is no term a value?
fn are_usable(bank: &Bank, pairs: &[Pair]) -> bool
    requires { All (PairStands bank.now) pairs.now }
    ensures distinct { IsTrue result → IsTrue (is_substitution (substitution_at bank.now pairs.now)) }
    ensures values { IsTrue result → All (λ p. is_value (term_at bank.now p.term) ≡ false) pairs.now }
{
    if are_distinct_variables(bank, pairs) {
        no_values(bank, pairs)
    } else {
        false
    }
}

/// The literals with the variables of the pairs in the places of their terms.
fn rename_with(
    work: &mut Work,
    history: &History,
    literals: &[TermId],
    pairs: Vec<Pair>,
) -> Result<Renaming, Stop>
    requires stands { WorkStands history.now work.old }
    requires literals { All (IsTermIn history.now work.old) literals.now }
    requires pairs { All (IsNaming history.now work.old literals.now) pairs.items }
    requires distinct { IsTrue (is_substitution (substitution_at work.old.bank pairs.items)) }
    requires values { All (λ p. is_value (term_at work.old.bank p.term) ≡ false) pairs.items }
    ensures renaming { IfOk result (IsRenaming history.now work.new literals.now) }
    ensures pairs { IfOk result (λ r. r.pairs ≡ pairs) }
    ensures grows { WorkGrows history.now work.old work.new }
    ensures out { result ≡ Err Stop.OutOfSteps → work.new.counter.used ≡ work.new.counter.limit }
{
    let exchange = exchange_of_pairs(work, history, pairs.as_slice())?;
    let renamed = exchange_all(work, history, literals, exchange.as_slice())?;
    Ok(Renaming {
        pairs,
        literals: renamed,
    })
}

/// The same, where the pairs can be used.
fn rename_by(
    work: &mut Work,
    history: &History,
    literals: &[TermId],
    pairs: Vec<Pair>,
) -> Result<Option<Renaming>, Stop>
    requires stands { WorkStands history.now work.old }
    requires literals { All (IsTermIn history.now work.old) literals.now }
    requires pairs { All (IsNaming history.now work.old literals.now) pairs.items }
    ensures renaming { IfOk result (λ found. IfSome found (IsRenaming history.now work.new literals.now)) }
    ensures grows { WorkGrows history.now work.old work.new }
    ensures out { result ≡ Err Stop.OutOfSteps → work.new.counter.used ≡ work.new.counter.limit }
{
    if are_usable(&work.bank, pairs.as_slice()) {
        let renaming = rename_with(work, history, literals, pairs)?;
        Ok(Some(renaming))
    } else {
        Ok(None)
    }
}

/// The literals with new variables in the places of terms. It is none where one of these is a value.
pub fn rename(
    work: &mut Work,
    history: &History,
    literals: &[TermId],
    terms: &[TermId],
) -> Result<Option<Renaming>, Stop>
    requires stands { WorkStands history.now work.old }
    requires literals { All (IsTermIn history.now work.old) literals.now }
    requires terms { All (IsTermIn history.now work.old) terms.now }
    ensures renaming { IfOk result (λ found. IfSome found (IsRenaming history.now work.new literals.now)) }
    ensures grows { WorkGrows history.now work.old work.new }
    ensures out { result ≡ Err Stop.OutOfSteps → work.new.counter.used ≡ work.new.counter.limit }
{
    let pairs = name_terms(work, history, literals, terms)?;
    rename_by(work, history, literals, pairs)
}

/// The literals with new variables in the places of terms that are no values. The variables are those of the least numbers that stand
/// in none of the known terms, which have the variables of the literals.
pub fn rename_new(
    work: &mut Work,
    history: &History,
    known: &[TermId],
    literals: &[TermId],
    terms: &[TermId],
) -> Result<Renaming, Stop>
    requires stands { WorkStands history.now work.old }
    requires known { All (IsTermIn history.now work.old) known.now }
    requires literals { All (IsTermIn history.now work.old) literals.now }
    requires within { (x : Name) → occurs_in_one x (terms_at work.old.bank known.now) ≡ false → occurs_in_one x (terms_at work.old.bank literals.now) ≡ false }
    requires terms { All (IsTermIn history.now work.old) terms.now }
    requires values { All (λ t. is_value (term_at work.old.bank t) ≡ false) terms.now }
    ensures renaming { IfOk result (IsRenaming history.now work.new literals.now) }
    ensures names { IfOk result (λ r. pair_names (substitution_at work.new.bank r.pairs.items) ≡ new_variables (clause_variables (terms_at work.old.bank known.now)) (length terms.now)) }
    ensures terms { IfOk result (λ r. pair_terms (substitution_at work.new.bank r.pairs.items) ≡ terms_at work.old.bank terms.now) }
    ensures grows { WorkGrows history.now work.old work.new }
    ensures out { result ≡ Err Stop.OutOfSteps → work.new.counter.used ≡ work.new.counter.limit }
{
    let pairs = name_terms(work, history, known, terms)?;
    rename_with(work, history, literals, pairs)
}
