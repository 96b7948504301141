//! Matching that takes no memory: the bindings have room for the variables of the pattern, and no table is kept, so a node
//! that is shared is matched again at each place.
ghost use Rattle.std.specs.Prelude.{◌≡◌, [], ◌∷◌, length, take, All, MatchBool};
ghost use Rattle.std.specs.Vec.{vec_capacity};
ghost use Rattle.nq_logic.specs.Terms.{Variable};
ghost use Rattle.nq_bank.specs.Content.{Stands, IsNamed, text_at, term_at};
ghost use Rattle.nq_clause.specs.Binding.{bound_at, BoundStands, bindings_at, BindingStands, BindsOnce, TellsMatch};
ghost use Rattle.nq_clause.specs.Subsumption.{HasRoomWith};

use crate::binding::{Binding, Bound, bound_of, bound_to, is_one_term};
use crate::matching::{argument_of, is_call_of};
use nq_bank::{Bank, Node, Sym, TermId};

/// Binds variables of the pattern so that it is the target. Where it is false, the bindings are as they were.
pub fn match_or_restore(
    bank: &Bank,
    pattern: TermId,
    target: TermId,
    bindings: &mut Vec<Binding>,
) -> bool
    requires pattern { Stands bank.now pattern }
    requires target { Stands bank.now target }
    requires stand { All (BindingStands bank.now) bindings.old.items }
    requires once { BindsOnce (bindings_at bank.now bindings.old.items) }
    requires room { HasRoomWith (vec_capacity bindings.old) (bindings_at bank.now bindings.old.items) (term_at bank.now pattern ∷ []) }
    ensures ok { TellsMatch result bank.now (term_at bank.now pattern) (term_at bank.now target) bindings.old.items bindings.new.items }
    ensures kept { MatchBool result (Unit {0}) (bindings.new.items ≡ bindings.old.items) }
    ensures room { vec_capacity bindings.new ≡ vec_capacity bindings.old }
{
    let count = bindings.len();
    let found = match_in_room(bank, pattern, bound_of(bank, target), bindings);
    if !found {
        bindings.truncate(count);
    }
    found
}

/// The same, but where it is false, there may be more bindings.
fn match_in_room(bank: &Bank, pattern: TermId, target: Bound, bindings: &mut Vec<Binding>) -> bool
    requires pattern { Stands bank.now pattern }
    requires target { BoundStands bank.now target }
    requires stand { All (BindingStands bank.now) bindings.old.items }
    requires once { BindsOnce (bindings_at bank.now bindings.old.items) }
    requires room { HasRoomWith (vec_capacity bindings.old) (bindings_at bank.now bindings.old.items) (term_at bank.now pattern ∷ []) }
    ensures ok { TellsMatch result bank.now (term_at bank.now pattern) (bound_at bank.now target) bindings.old.items bindings.new.items }
    ensures kept { take (length bindings.old.items) bindings.new.items ≡ bindings.old.items }
    ensures room { vec_capacity bindings.new ≡ vec_capacity bindings.old }
{
    match bank.node(pattern) {
        Node::Var(s) => bind_in_room(bank, bindings, s, target),
        Node::Num(_) => is_one_term(bank, bound_of(bank, pattern), target),
        Node::App(f, _) => {
            let arguments = bank.args(pattern);
            if !is_call_of(bank, target, f, arguments.len()) {
                return false;
            }
            for i in 0..arguments.len() {
                let part = argument_of(bank, target, i);
                if !match_in_room(bank, arguments[i], part, bindings) {
                    return false;
                }
            }
            true
        }
    }
}

/// Binds a variable, or compares what it is bound to.
fn bind_in_room(bank: &Bank, bindings: &mut Vec<Binding>, variable: Sym, target: Bound) -> bool
    requires named { IsNamed bank.now variable }
    requires target { BoundStands bank.now target }
    requires stand { All (BindingStands bank.now) bindings.old.items }
    requires once { BindsOnce (bindings_at bank.now bindings.old.items) }
    requires room { HasRoomWith (vec_capacity bindings.old) (bindings_at bank.now bindings.old.items) (Variable (text_at bank.now variable) ∷ []) }
    ensures ok { TellsMatch result bank.now (Variable (text_at bank.now variable)) (bound_at bank.now target) bindings.old.items bindings.new.items }
    ensures kept { take (length bindings.old.items) bindings.new.items ≡ bindings.old.items }
    ensures room { vec_capacity bindings.new ≡ vec_capacity bindings.old }
{
    match bound_to(bank, bindings.as_slice(), variable) {
        Some(b) => is_one_term(bank, b, target),
        None => {
            bindings.push_reserved(Binding {
                variable,
                bound: target,
            });
            true
        }
    }
}
