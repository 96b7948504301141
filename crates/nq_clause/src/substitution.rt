//! Terms in place of variables.
ghost use Rattle.std.specs.Prelude.{◌≡◌, ◌<◌, ◌≤◌, ◌++◌, ◌∷◌, [], All, IfOk, IfSome, OnOk, Err, Some, nat_eq};
ghost use Rattle.std.specs.HashMap.{get};
ghost use Rattle.nq_logic.specs.Terms.{Substitution, Variable, value_at, substituted};
ghost use Rattle.nq_logic.specs.Sizes.{depth_of, depth_limit};
ghost use Rattle.nq_bank.specs.Content.{Stands, IsNamed, IsIdOf, Grows, text_at, term_at};
ghost use Rattle.nq_clause.specs.Substitution.{substitution_at, PairStands, HasIds};

use crate::memo::{keep_id, known_id};
use nq_bank::{Bank, BankFault, Node, Sym, TermId, is_same_name};
use std::alloc::Global;
use std::collections::HashMap;

/// A variable and the term that stands in its place.
#[derive(Clone, Copy, Debug, PartialEq, Eq)]
pub struct Pair {
    /// The name of the variable.
    pub variable: Sym,
    /// The term that stands in its place.
    pub term: TermId,
}

/// Terms of at most so many levels are small: to replace one anew wherever it stands costs less than to remember it.
const SMALL_DEPTH: u32 = 4;

/// The id of the term in which the variables of the pairs are all replaced at once, by the first pair of each. Each shared
/// node that is not small is replaced once. It is `Deep` exactly where the term would be deeper than the depth limit, unless memory is wanting
/// first; an error may leave more terms in the bank.
pub fn substitute(bank: &mut Bank, t: TermId, pairs: &[Pair]) -> Result<TermId, BankFault>
    requires stands { Stands bank.old t }
    requires pairs { All (PairStands bank.old) pairs.now }
    ensures ok { IfOk result (λ r. IsIdOf bank.new r (substituted (substitution_at bank.old pairs.now) (term_at bank.old t))) }
    ensures grows { Grows bank.old bank.new }
    ensures names { bank.new.names ≡ bank.old.names }

    // A term that is too deep is refused as such, unless memory is wanting first; no other is.
    ensures deep { result ≡ Err BankFault.Deep → depth_limit < depth_of (substituted (substitution_at bank.old pairs.now) (term_at bank.old t)) }
    ensures shallow { OnOk result (depth_of (substituted (substitution_at bank.old pairs.now) (term_at bank.old t)) ≤ depth_limit) }
{
    let mut known = HashMap::new(bank.alloc());
    match substitute_within(bank, &mut known, t, pairs) {
        Ok(r) => {
            bank.is_sound();
            Ok(r)
        }
        Err(fault) => Err(fault),
    }
}

/// The same, where the ids of some replaced terms are known.
fn substitute_within(
    bank: &mut Bank,
    known: &mut HashMap<u64, TermId>,
    t: TermId,
    pairs: &[Pair],
) -> Result<TermId, BankFault>
    requires stands { Stands bank.old t }
    requires pairs { All (PairStands bank.old) pairs.now }
    requires ids { HasIds bank.old (substitution_at bank.old pairs.now) known.old }
    ensures ok { IfOk result (λ r. IsIdOf bank.new r (substituted (substitution_at bank.old pairs.now) (term_at bank.old t))) }
    ensures ids { OnOk result (HasIds bank.new (substitution_at bank.old pairs.now) known.new) }
    ensures grows { Grows bank.old bank.new }
    ensures names { bank.new.names ≡ bank.old.names }
    ensures deep { result ≡ Err BankFault.Deep → depth_limit < depth_of (substituted (substitution_at bank.old pairs.now) (term_at bank.old t)) }
{
    match bank.node(t) {
        Node::Var(s) => Ok(replacement(bank, t, s, pairs)),
        Node::Num(_) => Ok(t),
        Node::App(f, _) => match known_replaced(bank, known, t) {
            Some(r) => Ok(r),
            None => {
                let alloc = bank.alloc();
                let arguments = copied(alloc, bank.args(t))?;
                let mut parts = Vec::new(alloc);
                for a in &arguments {
                    let part = substitute_within(bank, known, *a, pairs)?;
                    add_part(&mut parts, part)?;
                }
                let r = bank.app(f, parts.as_slice())?;
                keep_replaced(bank, known, t, r)?;
                Ok(r)
            }
        },
    }
}

/// Is a term so small that its id is not kept?
fn is_small(bank: &Bank, t: TermId) -> bool
    requires { Stands bank.now t }
{
    bank.depth(t) <= SMALL_DEPTH
}

/// The id that is known for a replaced term.
fn known_replaced(bank: &Bank, known: &HashMap<u64, TermId>, t: TermId) -> Option<TermId>
    requires { Stands bank.now t }
    ensures { IfSome result (λ r. get nat_eq known.now t.0 ≡ Some r) }
{
    if is_small(bank, t) {
        return None;
    }
    known_id(known, t)
}

/// Keeps the id of a replaced term, unless it is small.
fn keep_replaced(
    bank: &Bank,
    known: &mut HashMap<u64, TermId>,
    t: TermId,
    r: TermId,
) -> Result<(), BankFault>
    requires { Stands bank.now t }
    ensures ids { OnOk result ((s : Substitution) → HasIds bank.now s known.old → IsIdOf bank.now r (substituted s (term_at bank.now t)) → HasIds bank.now s known.new) }
    ensures not_deep { result ≡ Err BankFault.Deep → ⊥ }
{
    if is_small(bank, t) {
        return Ok(());
    }
    keep_id(known, t, r)
}

/// The id of the term that stands in the place of a variable, or else the variable's own.
pub fn replacement(bank: &Bank, t: TermId, variable: Sym, pairs: &[Pair]) -> TermId
    requires named { IsNamed bank.now variable }
    requires variable { IsIdOf bank.now t (Variable (text_at bank.now variable)) }
    requires pairs { All (PairStands bank.now) pairs.now }
    ensures { IsIdOf bank.now result (value_at (substitution_at bank.now pairs.now) (text_at bank.now variable)) }
{
    for p in pairs {
        if is_same_name(bank, variable, p.variable) {
            return p.term;
        }
    }
    t
}

/// A copy of ids.
fn copied(alloc: Global, ids: &[TermId]) -> Result<Vec<TermId>, BankFault>
    ensures ok { IfOk result (λ v. v.items ≡ ids.now) }
    ensures not_deep { result ≡ Err BankFault.Deep → ⊥ }
{
    match Vec::from_slice(alloc, ids) {
        Ok(v) => Ok(v),
        Err(_) => Err(BankFault::Memory),
    }
}

/// One more id.
fn add_part(parts: &mut Vec<TermId>, part: TermId) -> Result<(), BankFault>
    ensures ok { OnOk result (parts.new.items ≡ parts.old.items ++ part ∷ []) }
    ensures not_deep { result ≡ Err BankFault.Deep → ⊥ }
{
    match parts.push(part) {
        Ok(()) => Ok(()),
        Err(_) => Err(BankFault::Memory),
    }
}
