//! Whether a term is another one with terms in place of its variables.
ghost use Rattle.std.specs.Prelude.{◌≡◌, ◌↔◌, ◌<◌, ◌&&◌, length, nat_eq, bytes_eq, All, IsTrue, IfOk, OnOk, Some};
ghost use Rattle.std.specs.HashMap.{Updates};
ghost use Rattle.nq_logic.specs.Terms.{Variable, substituted};
ghost use Rattle.nq_logic.specs.Words.{numeral};
ghost use Rattle.nq_bank.specs.Content.{Stands, IsNamed, IsIdOf, text_at, term_at};
ghost use Rattle.nq_clause.specs.Substitution.{substitution_at, PairStands, HasIds};

use crate::memo::known_id;
use crate::substitution::{Pair, replacement};
use nq_bank::{Bank, Node, Sym, TermId, ground, is_same_name};
use std::alloc::AllocError;
use std::collections::HashMap;

/// Is t the pattern with the terms of the pairs in place of their variables?
pub fn is_instance(
    bank: &Bank,
    pattern: TermId,
    pairs: &[Pair],
    t: TermId,
) -> Result<bool, AllocError>
    requires pattern { Stands bank.now pattern }
    requires pairs { All (PairStands bank.now) pairs.now }
    requires term { Stands bank.now t }
    ensures { IfOk result (λ b. IsTrue b ↔ (substituted (substitution_at bank.now pairs.now) (term_at bank.now pattern) ≡ term_at bank.now t)) }
{
    let mut known = HashMap::new(bank.alloc());
    is_instance_within(bank, &mut known, pattern, pairs, t)
}

fn is_instance_within(
    bank: &Bank,
    known: &mut HashMap<u64, TermId>,
    pattern: TermId,
    pairs: &[Pair],
    t: TermId,
) -> Result<bool, AllocError>
    requires pattern { Stands bank.now pattern }
    requires pairs { All (PairStands bank.now) pairs.now }
    requires term { Stands bank.now t }
    requires ids { HasIds bank.now (substitution_at bank.now pairs.now) known.old }
    ensures ok { IfOk result (λ b. IsTrue b ↔ (substituted (substitution_at bank.now pairs.now) (term_at bank.now pattern) ≡ term_at bank.now t)) }
    ensures ids { OnOk result (HasIds bank.now (substitution_at bank.now pairs.now) known.new) }
{
    match bank.node(pattern) {
        Node::Var(s) => Ok(is_one(bank, replacement(bank, pattern, s, pairs), t)),
        Node::Num(_) => Ok(is_one(bank, pattern, t)),
        Node::App(f, _) => match known_id(known, pattern) {
            Some(r) => Ok(is_one(bank, r, t)),
            None => match bank.node(t) {
                Node::App(g, _) => {
                    let arguments = bank.args(pattern);
                    let others = bank.args(t);
                    if !are_alike(bank, f, arguments, g, others) {
                        return Ok(false);
                    }
                    for i in 0..arguments.len() {
                        if !is_instance_within(bank, known, arguments[i], pairs, others[i])? {
                            return Ok(false);
                        }
                    }
                    remember(known, pattern, t)?;
                    Ok(true)
                }
                Node::Num(n) => Ok(is_number(bank, pattern, pairs, n)),
                Node::Var(_) => Ok(false),
            },
        },
    }
}

/// Have two calls one function, and as many arguments?
fn are_alike(bank: &Bank, f: Sym, arguments: &[TermId], g: Sym, others: &[TermId]) -> bool
    requires first { IsNamed bank.now f }
    requires second { IsNamed bank.now g }
    ensures { IsTrue result ↔ ((text_at bank.now f ≡ text_at bank.now g) × (length arguments.now ≡ length others.now)) }
{
    is_same_name(bank, f, g) && arguments.len() == others.len()
}

/// Are two terms one?
fn is_one(bank: &Bank, left: TermId, right: TermId) -> bool
    requires left { Stands bank.now left }
    requires right { Stands bank.now right }
    ensures { IsTrue result ↔ (term_at bank.now left ≡ term_at bank.now right) }
{
    bank.is_sound();
    left.0 == right.0
}

/// Keeps the id for a term.
fn remember(known: &mut HashMap<u64, TermId>, t: TermId, id: TermId) -> Result<(), AllocError>
    ensures { OnOk result (Updates nat_eq known.old known.new t.0 (Some id)) }
{
    known.insert(t.0, id)?;
    Ok(())
}

/// Is a term the numeral of n?
fn is_numeral_of(bank: &Bank, t: TermId, n: u128) -> bool
    requires { Stands bank.now t }
    ensures { IsTrue result ↔ (term_at bank.now t ≡ numeral n) }
{
    match bank.node(t) {
        Node::Num(m) => m == n,
        Node::App(_, _) => false,
        Node::Var(_) => false,
    }
}

/// Is the pattern, with the terms of the pairs in place of their variables, the numeral of n? The numerals between need
/// not stand in the bank.
fn is_number(bank: &Bank, pattern: TermId, pairs: &[Pair], n: u128) -> bool
    requires pattern { Stands bank.now pattern }
    requires pairs { All (PairStands bank.now) pairs.now }
    ensures { IsTrue result ↔ (substituted (substitution_at bank.now pairs.now) (term_at bank.now pattern) ≡ numeral n) }
{
    match bank.node(pattern) {
        Node::Var(s) => is_numeral_of(bank, replacement(bank, pattern, s, pairs), n),
        Node::Num(_) => is_numeral_of(bank, pattern, n),
        Node::App(f, _) => {
            let arguments = bank.args(pattern);
            if n == 0 || arguments.len() != 1 || !bank.is_ground(f, ground::ADD1) {
                return false;
            }
            is_number(bank, arguments[0], pairs, n - 1)
        }
    }
}
