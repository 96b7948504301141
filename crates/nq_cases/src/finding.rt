//! Where a term has an IF that stands in no branch of another one, and whose test has none.
ghost use Rattle.std.specs.Prelude.{◌≡◌, ◌≤◌, ◌<◌, false, length, IfOk, OnOk, MatchOption};
ghost use Rattle.nq_bank.specs.Content.{Stands, term_at};
ghost use Rattle.nq_bank.specs.Parts.{parts_of};
ghost use Rattle.nq_cases.specs.Counts.{HasCounts};
ghost use Rattle.nq_cases.specs.Choices.{any_if, IsInside, IsNextOfIf, IsNextOfCall, IsNext};

use crate::paths::has_if;
use nq_bank::{Bank, Node, TermId, ground};
use nq_rule::Branches;
use std::alloc::AllocError;
use std::collections::HashMap;

/// An argument of a call.
#[derive(Clone, Copy)]
pub struct Inside {
    /// Its place, counted from 1.
    pub place: u64,
    /// The argument.
    pub argument: TermId,
}

/// Where to look for an IF in a term.
#[derive(Clone, Copy)]
pub enum Next {
    /// The term has none.
    Free,
    /// The term is one, and its test has none.
    Here(Branches),
    /// An argument has one.
    Within(Inside),
}

/// The first argument with an IF.
fn first_with_if(
    bank: &Bank,
    known: &mut HashMap<u64, u128>,
    t: TermId,
    cap: u128,
) -> Result<Option<Inside>, AllocError>
    requires stands { Stands bank.now t }
    requires cap { 2 ≤ cap }
    requires counts { HasCounts bank.now cap known.old }
    ensures ok { IfOk result (λ o. MatchOption o (any_if (parts_of (term_at bank.now t)) ≡ false) (λ next. IsInside bank.now t next)) }
    ensures counts { OnOk result (HasCounts bank.now cap known.new) }
{
    let mut place = 0;
    for argument in bank.args(t) {
        place += 1;
        if has_if(bank, known, *argument, cap)? {
            return Ok(Some(Inside {
                place,
                argument: *argument,
            }));
        }
    }
    Ok(None)
}

/// Where to look in an IF: in its test, if that has one.
fn next_of_if(
    bank: &Bank,
    known: &mut HashMap<u64, u128>,
    t: TermId,
    cap: u128,
) -> Result<Next, AllocError>
    requires stands { Stands bank.now t }
    requires three { length (parts_of (term_at bank.now t)) ≡ 3 }
    requires cap { 2 ≤ cap }
    requires counts { HasCounts bank.now cap known.old }
    ensures ok { IfOk result (λ next. IsNextOfIf bank.now t next) }
    ensures counts { OnOk result (HasCounts bank.now cap known.new) }
{
    let arguments = bank.args(t);
    let branches = Branches {
        test: arguments[0],
        first: arguments[1],
        second: arguments[2],
    };
    if has_if(bank, known, branches.test, cap)? {
        Ok(Next::Within(Inside {
            place: 1,
            argument: branches.test,
        }))
    } else {
        Ok(Next::Here(branches))
    }
}

/// Where to look in another call: in its first argument with an IF.
fn next_of_call(
    bank: &Bank,
    known: &mut HashMap<u64, u128>,
    t: TermId,
    cap: u128,
) -> Result<Next, AllocError>
    requires stands { Stands bank.now t }
    requires cap { 2 ≤ cap }
    requires counts { HasCounts bank.now cap known.old }
    ensures ok { IfOk result (λ next. IsNextOfCall bank.now t next) }
    ensures counts { OnOk result (HasCounts bank.now cap known.new) }
{
    match first_with_if(bank, known, t, cap)? {
        Some(inside) => Ok(Next::Within(inside)),
        None => Ok(Next::Free),
    }
}

/// Where to look for an IF in a term that stands in no branch of another one, and whose test has none.
pub fn look(
    bank: &Bank,
    known: &mut HashMap<u64, u128>,
    t: TermId,
    cap: u128,
) -> Result<Next, AllocError>
    requires stands { Stands bank.now t }
    requires cap { 2 ≤ cap }
    requires counts { HasCounts bank.now cap known.old }
    ensures ok { IfOk result (λ next. IsNext bank.now t next) }
    ensures counts { OnOk result (HasCounts bank.now cap known.new) }
{
    match bank.node(t) {
        Node::Var(_) => Ok(Next::Free),
        Node::Num(_) => Ok(Next::Free),
        Node::App(f, _) => {
            if bank.is_ground(f, ground::IF) && bank.args(t).len() == 3 {
                next_of_if(bank, known, t, cap)
            } else {
                next_of_call(bank, known, t, cap)
            }
        }
    }
}
