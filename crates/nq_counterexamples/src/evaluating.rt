//! Values of terms, where their variables have values.
use crate::basic::basic_call;
use crate::stuck::Stuck;
use crate::trial::{Trial, Value};
use nq_bank::{Bank, Node, Sym, TermId, ground};
use nq_history::{EntryKind, History};
use std::alloc::Global;

/// How deep calls may nest.
const DEPTH: u32 = 300;

/// A variable, with the place of its value.
#[derive(Clone, Copy, Debug)]
pub struct Binding {
    /// The variable.
    pub name: Sym,
    /// The place of its value.
    pub value: usize,
}

/// The place of the value of a variable.
fn bound(bindings: &[Binding], name: Sym) -> Result<usize, Stuck> {
    for binding in bindings {
        if binding.name.0 == name.0 {
            return Ok(binding.value);
        }
    }
    Err(Stuck::Over)
}

/// The formals of a function, bound to the values of its arguments.
fn bound_formals(
    alloc: Global,
    formals: &[Sym],
    arguments: &[usize],
) -> Result<Vec<Binding>, Stuck> {
    let mut bindings = Vec::new(alloc);
    for i in 0..formals.len() {
        if i < arguments.len() {
            let binding = Binding {
                name: formals[i],
                value: arguments[i],
            };
            if bindings.push(binding).is_err() {
                return Err(Stuck::Memory);
            }
        }
    }
    Ok(bindings)
}

/// The value of a term.
pub fn value_of(
    bank: &Bank,
    history: &History,
    trial: &mut Trial,
    bindings: &[Binding],
    t: TermId,
) -> Result<Value, Stuck> {
    let place = evaluate(bank, history, trial, bindings, t, DEPTH)?;
    Ok(trial.value(place))
}

/// The place of the value of a term.
#[cycle(evaluating)]
fn evaluate(
    bank: &Bank,
    history: &History,
    trial: &mut Trial,
    bindings: &[Binding],
    t: TermId,
    depth: u32,
) -> Result<usize, Stuck> {
    if depth == 0 || t.0 >= bank.len() {
        return Err(Stuck::Over);
    }
    trial.step()?;
    match bank.node(t) {
        Node::Num(n) => if n < 1_000_000 {
            trial.add(Value::Number(n as u64))
        } else {
            Err(Stuck::Over)
        },
        Node::Var(name) => bound(bindings, name),
        Node::App(f, _) => {
            evaluate_call(bank, history, trial, bindings, f, bank.args(t), depth - 1)
        }
    }
}

/// The place of the value of a call, where its arguments are terms.
#[cycle(evaluating)]
fn evaluate_call(
    bank: &Bank,
    history: &History,
    trial: &mut Trial,
    bindings: &[Binding],
    f: Sym,
    arguments: &[TermId],
    depth: u32,
) -> Result<usize, Stuck> {
    if f.0 == ground::IF.0 {
        return evaluate_choice(bank, history, trial, bindings, arguments, depth);
    }
    let mut values = Vec::new(bank.alloc());
    for a in arguments {
        let value = evaluate(bank, history, trial, bindings, *a, depth)?;
        if values.push(value).is_err() {
            return Err(Stuck::Memory);
        }
    }
    match basic_call(history, trial, f, values.as_slice())? {
        Some(place) => Ok(place),
        None => evaluate_defined(bank, history, trial, f, values.as_slice(), depth),
    }
}

/// The place of the value of an IF.
#[cycle(evaluating)]
fn evaluate_choice(
    bank: &Bank,
    history: &History,
    trial: &mut Trial,
    bindings: &[Binding],
    arguments: &[TermId],
    depth: u32,
) -> Result<usize, Stuck> {
    if arguments.len() != 3 {
        return Err(Stuck::Over);
    }
    let test = evaluate(bank, history, trial, bindings, arguments[0], depth)?;
    let chosen = if trial.value(test) == Value::False {
        arguments[2]
    } else {
        arguments[1]
    };
    evaluate(bank, history, trial, bindings, chosen, depth)
}

/// The place of the value of a call of a defined function.
#[cycle(evaluating)]
fn evaluate_defined(
    bank: &Bank,
    history: &History,
    trial: &mut Trial,
    f: Sym,
    arguments: &[usize],
    depth: u32,
) -> Result<usize, Stuck> {
    let Some(entry) = history.lookup(f) else {
        return Err(Stuck::Over);
    };
    match &entry.kind {
        EntryKind::Defn(formals, body, _) => {
            let bindings = bound_formals(bank.alloc(), formals.as_slice(), arguments)?;
            evaluate(bank, history, trial, bindings.as_slice(), *body, depth)
        }
        EntryKind::Axiom(_, _) => Err(Stuck::Over),
        EntryKind::Lemma(_, _) => Err(Stuck::Over),
        EntryKind::Shell(_) => Err(Stuck::Over),
        EntryKind::Dcl(_) => Err(Stuck::Over),
        EntryKind::Toggle(_, _) => Err(Stuck::Over),
    }
}
