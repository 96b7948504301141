//! Which questions the body of a function answers without a call of the function. It decides only what is tried.
ghost use Rattle.nq_bank.specs.Content.{Stands};

use crate::terms::is_walked;
use nq_bank::{Bank, Node, Part, Sym, TermId, ground};
use nq_history::History;

/// Is a function called in a term?
pub fn is_called(bank: &Bank, f: Sym, t: TermId) -> bool
    requires { Stands bank.now t }
{
    match bank.node(t) {
        Node::App(g, _) => {
            if g.0 == f.0 {
                return true;
            }
            for a in bank.args(t) {
                if is_called(bank, f, *a) {
                    return true;
                }
            }
            false
        }
        Node::Num(_) => false,
        Node::Var(_) => false,
    }
}

/// Is a function the constructor of a shell?
pub fn is_constructor(history: &History, f: Sym) -> bool {
    for shell in history.shells() {
        if shell.constructor.0 == f.0 {
            return true;
        }
    }
    false
}

/// The place, from 0, of the part that a function is the accessor of, among these.
fn place_among(parts: &[Part], asking: Sym) -> Option<usize> {
    for place in 0..parts.len() {
        if parts[place].accessor.0 == asking.0 {
            return Some(place);
        }
    }
    None
}

/// The place, from 0, of the part that a function is the accessor of; none for a recognizer.
fn part_of(history: &History, asking: Sym) -> Option<usize> {
    for shell in history.shells() {
        if let Some(place) = place_among(shell.parts.as_slice(), asking) {
            return Some(place);
        }
    }
    None
}

/// Is a question about an object with these parts answered without a call of a function?
fn parts_tell(bank: &Bank, history: &History, asking: Sym, f: Sym, t: TermId) -> bool
    requires { Stands bank.now t }
{
    match part_of(history, asking) {
        Some(number) => {
            let parts = bank.args(t);
            number >= parts.len() || !is_called(bank, f, parts[number])
        }
        None => true,
    }
}

/// Is a question about a leaf of a body answered without a call of a function?
fn leaf_tells(bank: &Bank, history: &History, asking: Sym, f: Sym, t: TermId, g: Sym) -> bool
    requires { Stands bank.now t }
{
    if is_constructor(history, g) {
        parts_tell(bank, history, asking, f, t)
    } else {
        !is_called(bank, f, t)
    }
}

/// Is a question about each leaf of a body answered without a call of a function?
fn leaves_tell(bank: &Bank, history: &History, asking: Sym, f: Sym, t: TermId) -> bool
    requires { Stands bank.now t }
{
    match bank.node(t) {
        Node::App(g, _) => {
            if g.0 != ground::IF.0 {
                return leaf_tells(bank, history, asking, f, t, g);
            }
            match bank.args(t) {
                [_, first, second] => {
                    leaves_tell(bank, history, asking, f, *first)
                        && leaves_tell(bank, history, asking, f, *second)
                }
                _ => true,
            }
        }
        Node::Num(_) => true,
        Node::Var(_) => true,
    }
}

/// Is the question that a term asks of a body answered without a call of a function?
pub fn tells(bank: &Bank, history: &History, f: Sym, t: TermId) -> bool
    requires { Stands bank.now t }
{
    match bank.node(t) {
        Node::App(asking, _) => match bank.args(t) {
            [body] => is_walked(bank, *body) && leaves_tell(bank, history, asking, f, *body),
            _ => false,
        },
        Node::Num(_) => false,
        Node::Var(_) => false,
    }
}
