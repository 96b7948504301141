//! Walks over terms, and one order of terms. They decide only what is tried.
ghost use Rattle.nq_bank.specs.Content.{Stands};

use nq_bank::{Bank, Node, Sym, TermId};
use std::alloc::AllocError;

/// The size from which on terms are not walked.
const WALK_LIMIT: u64 = 20000;

/// The size from which on the variables of terms are not looked for.
pub const MARK_LIMIT: u64 = 500;

/// The most terms of a goal that are kept.
const KEPT_LIMIT: usize = 500;

/// Is a name among these?
pub fn has_name(names: &[Sym], name: Sym) -> bool {
    for s in names {
        if s.0 == name.0 {
            return true;
        }
    }
    false
}

/// Is a term among these?
pub fn has_id(ids: &[TermId], t: TermId) -> bool {
    for u in ids {
        if u.0 == t.0 {
            return true;
        }
    }
    false
}

/// The function of a call.
pub fn function_of(bank: &Bank, t: TermId) -> Option<Sym>
    requires { Stands bank.now t }
{
    match bank.node(t) {
        Node::App(f, _) => Some(f),
        Node::Num(_) => None,
        Node::Var(_) => None,
    }
}

/// Is a term a call of this function?
pub fn is_call_of(bank: &Bank, f: Sym, t: TermId) -> bool
    requires { Stands bank.now t }
{
    match bank.node(t) {
        Node::App(g, _) => g.0 == f.0,
        Node::Num(_) => false,
        Node::Var(_) => false,
    }
}

/// Is a term small enough to be walked as a tree?
pub fn is_walked(bank: &Bank, t: TermId) -> bool
    requires { Stands bank.now t }
{
    bank.size(t) < WALK_LIMIT
}

/// Does a variable stand in a term?
pub fn has_variable(bank: &Bank, x: Sym, t: TermId) -> bool
    requires { Stands bank.now t }
{
    match bank.node(t) {
        Node::Var(y) => y.0 == x.0,
        Node::Num(_) => false,
        Node::App(_, _) => {
            for a in bank.args(t) {
                if has_variable(bank, x, *a) {
                    return true;
                }
            }
            false
        }
    }
}

/// The variables of a term, each as one of 64 bits, and all bits where the term is not walked.
pub fn variables_of(bank: &Bank, t: TermId) -> u64
    requires { Stands bank.now t }
{
    if bank.size(t) < MARK_LIMIT {
        variable_bits(bank, t)
    } else {
        u64::MAX
    }
}

/// The variables of a term, each as one of 64 bits.
fn variable_bits(bank: &Bank, t: TermId) -> u64
    requires { Stands bank.now t }
{
    match bank.node(t) {
        Node::Var(x) => 1u64.wrapping_shl((x.0 % 64) as u32),
        Node::Num(_) => 0,
        Node::App(_, _) => {
            let mut bits: u64 = 0;
            for a in bank.args(t) {
                bits |= variable_bits(bank, *a);
            }
            bits
        }
    }
}

/// Has a term one of these variables? One that is not walked has any.
pub fn shares_variable(bank: &Bank, variables: u64, t: TermId) -> bool {
    if t.0 < bank.len() {
        variables_of(bank, t) & variables != 0
    } else {
        false
    }
}

/// How many variables stand in a term, each as often as it stands there.
fn variables_in(bank: &Bank, t: TermId) -> u64
    requires { Stands bank.now t }
{
    match bank.node(t) {
        Node::Var(_) => 1,
        Node::Num(_) => 0,
        Node::App(_, _) => {
            let mut count: u64 = 0;
            for a in bank.args(t) {
                count = count.saturating_add(variables_in(bank, *a));
            }
            count
        }
    }
}

/// Adds a term and all within it, those that are not kept yet, as long as there is room.
pub fn add_terms(bank: &Bank, kept: &mut Vec<TermId>, t: TermId) -> Result<(), AllocError>
    requires { Stands bank.now t }
{
    if kept.len() < KEPT_LIMIT {
        if has_id(kept.as_slice(), t) {
            return Ok(());
        }
        kept.push(t)?;
        for a in bank.args(t) {
            add_terms(bank, kept, *a)?;
        }
    }
    Ok(())
}

/// Is a term before another: it has fewer variables, or as many and fewer nodes, or as many and a lesser head, or then the lesser
/// arguments from the left, by this same order?
pub fn is_before(bank: &Bank, t: TermId, u: TermId) -> bool
    requires left { Stands bank.now t }
    requires right { Stands bank.now u }
{
    match by_order(bank, t, u) {
        Some(less) => less,
        None => false,
    }
}

/// Is a number less than another; none where they are one.
fn less_of(m: u128, n: u128) -> Option<bool> {
    if m == n { None } else { Some(m < n) }
}

/// Is the head of a term less than that of another; none where they are the same.
fn by_heads(bank: &Bank, t: TermId, u: TermId) -> Option<bool>
    requires left { Stands bank.now t }
    requires right { Stands bank.now u }
{
    match bank.node(t) {
        Node::Var(x) => match bank.node(u) {
            Node::Var(y) => less_of(x.0 as u128, y.0 as u128),
            Node::Num(_) => Some(true),
            Node::App(_, _) => Some(true),
        },
        Node::Num(m) => match bank.node(u) {
            Node::Var(_) => Some(false),
            Node::Num(n) => less_of(m, n),
            Node::App(_, _) => Some(true),
        },
        Node::App(f, _) => match bank.node(u) {
            Node::Var(_) => Some(false),
            Node::Num(_) => Some(false),
            Node::App(g, _) => less_of(f.0 as u128, g.0 as u128),
        },
    }
}

/// Has a term fewer variables than another, or as many and fewer nodes; none where both are as many.
fn by_extent(bank: &Bank, t: TermId, u: TermId) -> Option<bool>
    requires left { Stands bank.now t }
    requires right { Stands bank.now u }
{
    let less = less_of(variables_in(bank, t) as u128, variables_in(bank, u) as u128);
    if less.is_some() {
        return less;
    }
    less_of(bank.size(t) as u128, bank.size(u) as u128)
}

/// Is a term less than another by its extent, or then by its head; none where both are the same.
fn by_outside(bank: &Bank, t: TermId, u: TermId) -> Option<bool>
    requires left { Stands bank.now t }
    requires right { Stands bank.now u }
{
    let less = by_extent(bank, t, u);
    if less.is_some() {
        return less;
    }
    by_heads(bank, t, u)
}

/// Is a term before another; none where they are one.
fn by_order(bank: &Bank, t: TermId, u: TermId) -> Option<bool>
    requires left { Stands bank.now t }
    requires right { Stands bank.now u }
{
    if t.0 == u.0 {
        return None;
    }
    let less = by_outside(bank, t, u);
    if less.is_some() {
        return less;
    }
    let left = bank.args(t);
    let right = bank.args(u);
    for i in 0..left.len() {
        if i < right.len() {
            let less = by_order(bank, left[i], right[i]);
            if less.is_some() {
                return less;
            }
        }
    }
    None
}
