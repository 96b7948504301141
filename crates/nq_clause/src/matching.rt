//! Terms in place of the variables of a pattern, so that it is another term.
ghost use Rattle.std.specs.Prelude.{◌≡◌, ◌≢◌, ◌↔◌, ◌<◌, true, IsTrue, length, take, slice_index_or, All, MatchBool, IfOk, Ok};
ghost use Rattle.std.specs.Bool.{OnTrue};
ghost use Rattle.nq_logic.specs.Terms.{Variable};
ghost use Rattle.nq_logic.specs.Words.{numeral};
ghost use Rattle.nq_bank.specs.Content.{Stands, IsNamed, text_at, term_at};
ghost use Rattle.nq_clause.specs.Binding.{bound_at, BoundStands, bindings_at, BindingStands, BindsOnce, TellsMatch};
ghost use Rattle.nq_clause.specs.Matching.{arguments_of, IsCallOf, HasMatches};

use crate::binding::{Binding, Bound, bound_of, bound_to, is_one_term};
use crate::memo::{keep_bound, known_bound};
use nq_bank::{Bank, Node, Sym, TermId, ground, is_same_name};
use std::alloc::AllocError;
use std::collections::HashMap;

/// Binds variables of the pattern so that it is the target. What is bound already stays. It is false exactly where no
/// substitution that extends the bindings takes the pattern to the target. A numeral above 0 is matched as the ADD1 call
/// that it is, whether or not the bank has the numeral below it. Each shared node of the pattern is matched once. It fails
/// only for want of memory. Where it is false or fails, the bindings are as they were.
pub fn match_term(
    bank: &Bank,
    pattern: TermId,
    target: TermId,
    into: &mut Vec<Binding>,
) -> Result<bool, AllocError>
    requires pattern { Stands bank.now pattern }
    requires target { Stands bank.now target }
    requires stand { All (BindingStands bank.now) into.old.items }
    requires once { BindsOnce (bindings_at bank.now into.old.items) }
    ensures ok { IfOk result (λ answer. TellsMatch answer bank.now (term_at bank.now pattern) (term_at bank.now target) into.old.items into.new.items) }
    ensures kept { result ≢ Ok true → into.new.items ≡ into.old.items }
{
    let mut known = HashMap::new(bank.alloc());
    let count = into.len();
    match match_within(bank, &mut known, pattern, bound_of(bank, target), into) {
        Ok(found) => {
            if !found {
                into.truncate(count);
            }
            Ok(found)
        }
        Err(fault) => {
            into.truncate(count);
            Err(fault)
        }
    }
}

/// The same, where some terms of the pattern are known to be matched. Where it is false or fails, there may be more bindings.
fn match_within(
    bank: &Bank,
    known: &mut HashMap<u64, Bound>,
    pattern: TermId,
    target: Bound,
    bindings: &mut Vec<Binding>,
) -> Result<bool, AllocError>
    requires pattern { Stands bank.now pattern }
    requires target { BoundStands bank.now target }
    requires stand { All (BindingStands bank.now) bindings.old.items }
    requires once { BindsOnce (bindings_at bank.now bindings.old.items) }
    requires known { HasMatches bank.now (bindings_at bank.now bindings.old.items) known.old }
    ensures ok { IfOk result (λ answer. TellsMatch answer bank.now (term_at bank.now pattern) (bound_at bank.now target) bindings.old.items bindings.new.items) }
    ensures known { IfOk result (λ b. OnTrue b (HasMatches bank.now (bindings_at bank.now bindings.new.items) known.new)) }
    ensures kept { take (length bindings.old.items) bindings.new.items ≡ bindings.old.items }
{
    match bank.node(pattern) {
        Node::Var(s) => bind(bank, bindings, s, target),
        Node::Num(_) => Ok(is_one_term(bank, bound_of(bank, pattern), target)),
        Node::App(f, _) => match known_bound(known, pattern) {
            Some(b) => Ok(is_one_term(bank, b, target)),
            None => {
                let arguments = bank.args(pattern);
                if !is_call_of(bank, target, f, arguments.len()) {
                    return Ok(false);
                }
                for i in 0..arguments.len() {
                    let part = argument_of(bank, target, i);
                    if !match_within(bank, known, arguments[i], part, bindings)? {
                        return Ok(false);
                    }
                }
                keep_bound(known, pattern, target)?;
                Ok(true)
            }
        },
    }
}

/// Binds a variable, or compares what it is bound to.
fn bind(
    bank: &Bank,
    bindings: &mut Vec<Binding>,
    variable: Sym,
    target: Bound,
) -> Result<bool, AllocError>
    requires named { IsNamed bank.now variable }
    requires target { BoundStands bank.now target }
    requires stand { All (BindingStands bank.now) bindings.old.items }
    requires once { BindsOnce (bindings_at bank.now bindings.old.items) }
    ensures ok { IfOk result (λ answer. TellsMatch answer bank.now (Variable (text_at bank.now variable)) (bound_at bank.now target) bindings.old.items bindings.new.items) }
    ensures kept { take (length bindings.old.items) bindings.new.items ≡ bindings.old.items }
{
    match bound_to(bank, bindings.as_slice(), variable) {
        Some(was) => Ok(is_one_term(bank, was, target)),
        None => {
            bindings.push(Binding {
                variable,
                bound: target,
            })?;
            Ok(true)
        }
    }
}

/// Is a term a call of f with so many arguments? A numeral above 0 is a call of ADD1.
pub fn is_call_of(bank: &Bank, t: Bound, f: Sym, count: usize) -> bool
    requires term { BoundStands bank.now t }
    requires function { IsNamed bank.now f }
    ensures { IsTrue result ↔ IsCallOf (text_at bank.now f) count (bound_at bank.now t) }
{
    match t {
        Bound::Num(n) => is_numeral_call(bank, n, f, count),
        Bound::Term(t) => match bank.node(t) {
            Node::App(g, _) => bank.args(t).len() == count && is_same_name(bank, f, g),
            Node::Num(_) => false,
            Node::Var(_) => false,
        },
    }
}

/// Is a numeral a call of f with so many arguments?
fn is_numeral_call(bank: &Bank, n: u128, f: Sym, count: usize) -> bool
    requires { IsNamed bank.now f }
    ensures { IsTrue result ↔ IsCallOf (text_at bank.now f) count (numeral n) }
{
    if n == 0 {
        return count == 0 && bank.is_ground(f, ground::ZERO);
    }
    count == 1 && bank.is_ground(f, ground::ADD1)
}

/// An argument of a call.
pub fn argument_of(bank: &Bank, t: Bound, i: usize) -> Bound
    requires term { BoundStands bank.now t }
    requires argument { i < length (arguments_of (bound_at bank.now t)) }
    ensures stands { BoundStands bank.now result }
    ensures is { bound_at bank.now result ≡ slice_index_or (arguments_of (bound_at bank.now t)) i (bound_at bank.now result) }
{
    match t {
        Bound::Num(n) => Bound::Num(n - 1),
        Bound::Term(t) => bound_of(bank, bank.args(t)[i]),
    }
}
