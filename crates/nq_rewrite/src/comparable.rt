//! Tests of which linear arithmetic may tell: comparisons of numbers of which one stands in the other, or which assumptions compare.
//! Of a hypothesis that is to be relieved it is asked more freely. It decides only what is tried.
ghost use Rattle.nq_bank.specs.Content.{Stands};
ghost use Rattle.nq_kernel.specs.Growing.{WorkStands};
ghost use Rattle.nq_lines.specs.Lines.{IsTermIn};
ghost use Rattle.nq_reduce.specs.Rewriting.{CanRewrite};

use crate::arithmetic::{NODE_LIMIT, plain_of};
use crate::terms::function_of;
use nq_bank::{Bank, Sym, TermId, ground};
use nq_history::History;
use nq_kernel::Work;
use nq_rules::two_of;

/// Is a function one of sums, differences, products and sizes?
fn makes_sums(f: Sym) -> bool {
    f.0 == ground::PLUS.0
        || f.0 == ground::DIFFERENCE.0
        || f.0 == ground::ADD1.0
        || f.0 == ground::SUB1.0
        || f.0 == ground::TIMES.0
        || f.0 == ground::COUNT.0
}

/// Is a term a call of such a function?
fn is_sum(bank: &Bank, t: TermId) -> bool
    requires { Stands bank.now t }
{
    match function_of(bank, t) {
        Some(f) => makes_sums(f),
        None => false,
    }
}

/// Is a number another, or does it stand in it as a summand or a factor?
fn is_summand(bank: &Bank, a: TermId, t: TermId) -> bool
    requires { Stands bank.now t }
{
    if a.0 == t.0 {
        return true;
    }
    if !is_sum(bank, t) {
        return false;
    }
    for b in bank.args(t) {
        if is_summand(bank, a, *b) {
            return true;
        }
    }
    false
}

/// Does one of two numbers stand in the other?
fn are_nested(bank: &Bank, a: TermId, b: TermId) -> bool
    requires first { Stands bank.now a }
    requires second { Stands bank.now b }
{
    is_summand(bank, a, b) || is_summand(bank, b, a)
}

/// Does an assumption that arithmetic is told compare two numbers of which one stands in this one, or this one in it?
fn tells_of(work: &Work, history: &History, assumption: TermId, a: TermId) -> bool
    requires stands { WorkStands history.now work.now }
    requires assumption { IsTermIn history.now work.now assumption }
    requires number { Stands work.now.bank a }
{
    let bank = &work.bank;
    if bank.size(assumption) > NODE_LIMIT {
        return false;
    }
    match two_of(bank, ground::LESSP, plain_of(work, history, assumption)) {
        Some((left, right)) => are_nested(bank, left, a) || are_nested(bank, right, a),
        None => false,
    }
}

/// Does one of the assumptions?
fn is_compared(work: &Work, history: &History, assumed: &[TermId], t: TermId, a: TermId) -> bool
    requires can { CanRewrite history.now work.now assumed.now t }
    requires number { Stands work.now.bank a }
{
    for assumption in assumed {
        if tells_of(work, history, *assumption, a) {
            return true;
        }
    }
    false
}

/// May arithmetic tell of an equation of these?
fn is_comparable_equation(
    work: &Work,
    history: &History,
    assumed: &[TermId],
    t: TermId,
    a: TermId,
    b: TermId,
) -> bool
    requires can { CanRewrite history.now work.now assumed.now t }
    requires first { Stands work.now.bank a }
    requires second { Stands work.now.bank b }
{
    let bank = &work.bank;
    if a.0 == b.0 {
        return false;
    }
    are_nested(bank, a, b)
        || (bank.is_value(b) && is_sum(bank, a))
        || (bank.is_value(a) && is_sum(bank, b))
        || (is_compared(work, history, assumed, t, a) && is_compared(work, history, assumed, t, b))
}

/// Is one of the two sides of a comparison a side of an assumption?
fn shares_side(work: &Work, history: &History, assumption: TermId, a: TermId, b: TermId) -> bool
    requires stands { WorkStands history.now work.now }
    requires assumption { IsTermIn history.now work.now assumption }
{
    match two_of(
        &work.bank,
        ground::LESSP,
        plain_of(work, history, assumption),
    ) {
        Some((m, n)) => a.0 == m.0 || a.0 == n.0 || b.0 == m.0 || b.0 == n.0,
        None => false,
    }
}

/// Is there an assumption that compares a side of a comparison?
fn has_side(
    work: &Work,
    history: &History,
    assumed: &[TermId],
    t: TermId,
    a: TermId,
    b: TermId,
) -> bool
    requires can { CanRewrite history.now work.now assumed.now t }
{
    for assumption in assumed {
        if shares_side(work, history, *assumption, a, b) {
            return true;
        }
    }
    false
}

/// May linear arithmetic tell of a test?
pub fn is_comparable(work: &Work, history: &History, assumed: &[TermId], t: TermId) -> bool
    requires can { CanRewrite history.now work.now assumed.now t }
{
    match two_of(&work.bank, ground::LESSP, t) {
        Some((a, b)) => {
            are_nested(&work.bank, a, b) || has_side(work, history, assumed, t, a, b)
        }
        None => false,
    }
}

/// May linear arithmetic tell of a hypothesis that is to be relieved?
pub fn is_relievable(work: &Work, history: &History, assumed: &[TermId], t: TermId) -> bool
    requires can { CanRewrite history.now work.now assumed.now t }
{
    let bank = &work.bank;
    if let Some((a, b)) = two_of(bank, ground::LESSP, t) {
        return are_nested(bank, a, b)
            || is_compared(work, history, assumed, t, a)
            || is_compared(work, history, assumed, t, b);
    }
    match two_of(bank, ground::EQUAL, t) {
        Some((a, b)) => is_comparable_equation(work, history, assumed, t, a, b),
        None => false,
    }
}
