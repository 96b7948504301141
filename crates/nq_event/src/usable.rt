//! Instances that a hint can use.
ghost use Rattle.std.specs.Prelude.{◌≡◌};
ghost use Rattle.std.specs.List.{list_all, list_any};
ghost use Rattle.nq_logic.specs.Names.{are_distinct, constant_names, has_name};
ghost use Rattle.nq_history.specs.Events.{events_at, HistoryStands};
ghost use Rattle.nq_events.specs.HintRefusals.{are_replaceable, is_usable};
ghost use Rattle.nq_event.specs.Hints.{instance_at, instances_at, variables_at};

use crate::instances::{InstanceOutline, instance_or_none, variable_of};
use crate::named::has_term;
use nq_bank::Bank;
use nq_history::History;
use nq_sexp::Sexp;

/// Is a symbol T, F or NIL?
fn is_constant(name: &[u8]) -> bool
    ensures { result ≡ has_name name.now constant_names }
{
    name == b"T".as_slice() || name == b"F".as_slice() || name == b"NIL".as_slice()
}

/// Does one of the pairs replace a constant?
fn have_constant(pairs: &[Sexp<'_>]) -> bool
    ensures { result ≡ list_any (λ x. has_name x constant_names) (variables_at pairs.now) }
{
    for pair in pairs.iter() {
        if is_constant(variable_of(pair)) {
            return true;
        }
    }
    false
}

/// Does one of the pairs replace this variable?
fn have_variable(pairs: &[Sexp<'_>], name: &[u8]) -> bool
    ensures { result ≡ has_name name.now (variables_at pairs.now) }
{
    for pair in pairs.iter() {
        if name == variable_of(pair) {
            return true;
        }
    }
    false
}

/// Do the pairs replace different symbols?
fn are_distinct(pairs: &[Sexp<'_>]) -> bool
    ensures { result ≡ are_distinct (variables_at pairs.now) }
{
    let mut rest = pairs;
    while let [first, more @ ..] = rest {
        if have_variable(more, variable_of(first)) {
            return false;
        }
        rest = more;
    }
    true
}

/// Are the replaced symbols variables, none of which stands twice?
fn are_replaceable(pairs: &[Sexp<'_>]) -> bool
    ensures { result ≡ are_replaceable (variables_at pairs.now) }
{
    !have_constant(pairs) && are_distinct(pairs)
}

/// Is an instance one of an axiom, a lemma or a definition, and does it replace variables, none of them twice?
fn is_usable(bank: &Bank, history: &History, instance: &InstanceOutline<'_>) -> bool
    requires { HistoryStands bank.now history.now }
    ensures { result ≡ is_usable (events_at bank.now history.now) (instance_at instance.now) }
{
    has_term(bank, history, instance.name) && are_replaceable(instance.pairs)
}

/// Can each of these instances be used?
pub fn are_usable(bank: &Bank, history: &History, instances: &[Sexp<'_>]) -> bool
    requires { HistoryStands bank.now history.now }
    ensures { result ≡ list_all (is_usable (events_at bank.now history.now)) (instances_at instances.now) }
{
    for form in instances.iter() {
        let instance = instance_or_none(form);
        if !is_usable(bank, history, &instance) {
            return false;
        }
    }
    true
}
