//! Functions whose values may be T or F, as the leaves of their bodies tell. It decides only what is tried.
ghost use Rattle.nq_bank.specs.Content.{Stands};
ghost use Rattle.nq_kernel.specs.Growing.{WorkStands};

use crate::guessing::{BODY_LIMIT, add_name, body_of, has_name, recognized_place};
use nq_bank::{Bank, Node, Sym, TermId, ground};
use nq_history::History;
use nq_kernel::Work;
use nq_rewrite::is_known_truth;
use std::alloc::AllocError;

/// The functions of the ground history whose values are T or F.
const TRUTH_FUNCTIONS: [Sym; 14] = [
    ground::TRUE,
    ground::FALSE,
    ground::EQUAL,
    ground::NOT,
    ground::AND,
    ground::OR,
    ground::IMPLIES,
    ground::IFF,
    ground::LESSP,
    ground::GREATERP,
    ground::LEQ,
    ground::GEQ,
    ground::ZEROP,
    ground::NLISTP,
];

/// The functions that only ask of their arguments whether they are F, and IF, which gives its branches back.
const CONNECTIVES: [Sym; 6] = [
    ground::IF,
    ground::NOT,
    ground::AND,
    ground::OR,
    ground::IMPLIES,
    ground::IFF,
];

/// Is each value of a function T or F by what it is?
fn is_truth_function(history: &History, f: Sym) -> bool {
    has_name(&TRUTH_FUNCTIONS, f) || recognized_place(history, f).is_some()
}

/// May the leaves of a term within the body of a function be T or F?
fn are_truths(work: &Work, history: &History, f: Sym, t: TermId) -> bool
    requires stands { WorkStands history.now work.now }
    requires term { Stands work.now.bank t }
{
    match work.bank.node(t) {
        Node::App(g, _) => {
            let arguments = work.bank.args(t);
            if g.0 == ground::IF.0 && arguments.len() == 3 {
                are_truths(work, history, f, arguments[1])
                    && are_truths(work, history, f, arguments[2])
            } else {
                g.0 == f.0 || is_truth_function(history, g) || is_known_truth(work, history, g)
            }
        }
        Node::Num(_) => false,
        Node::Var(_) => false,
    }
}

/// May the values of a function be T or F?
pub fn may_be_truth(work: &Work, history: &History, f: Sym) -> bool
    requires { WorkStands history.now work.now }
{
    match body_of(&work.bank, history, f) {
        Some(body) => are_truths(work, history, f, body),
        None => false,
    }
}

/// Adds the function of a call.
fn add_function(bank: &Bank, names: &mut Vec<Sym>, t: TermId) -> Result<(), AllocError>
    requires { Stands bank.now t }
{
    match bank.node(t) {
        Node::App(f, _) => add_name(names, f),
        Node::Num(_) => Ok(()),
        Node::Var(_) => Ok(()),
    }
}

/// Is this function a connective, or IF?
fn is_connective(f: Sym) -> bool {
    has_name(&CONNECTIVES, f)
}

/// Adds the functions of the arguments of a call, if it is of no connective.
fn add_arguments(bank: &Bank, names: &mut Vec<Sym>, t: TermId) -> Result<(), AllocError>
    requires { Stands bank.now t }
{
    if let Node::App(f, _) = bank.node(t) {
        if !is_connective(f) {
            for a in bank.args(t) {
                add_function(bank, names, *a)?;
            }
        }
    }
    Ok(())
}

/// Adds the functions of the arguments of the calls in a term that ask for more of them than whether they are F.
fn add_asked(bank: &Bank, names: &mut Vec<Sym>, t: TermId) -> Result<(), AllocError>
    requires { Stands bank.now t }
{
    add_arguments(bank, names, t)?;
    for a in bank.args(t) {
        add_asked(bank, names, *a)?;
    }
    Ok(())
}

/// Adds the functions of the leaves of a term within a body.
fn add_leaves(bank: &Bank, names: &mut Vec<Sym>, t: TermId) -> Result<(), AllocError>
    requires { Stands bank.now t }
{
    match bank.node(t) {
        Node::App(g, _) => {
            let arguments = bank.args(t);
            if g.0 == ground::IF.0 && arguments.len() == 3 {
                add_leaves(bank, names, arguments[1])?;
                add_leaves(bank, names, arguments[2])
            } else {
                add_name(names, g)
            }
        }
        Node::Num(_) => Ok(()),
        Node::Var(_) => Ok(()),
    }
}

/// Adds the functions of the leaves of the body of the function at a place.
fn add_opened(
    bank: &Bank,
    history: &History,
    names: &mut Vec<Sym>,
    place: usize,
) -> Result<(), AllocError> {
    if place < names.len() {
        if let Some(body) = body_of(bank, history, names[place]) {
            add_leaves(bank, names, body)?;
        }
    }
    Ok(())
}

/// How many functions are opened in search of others.
const OPENED_LIMIT: usize = 20;

/// The functions of the arguments of the calls in a goal that ask for more of them than whether they are F, and of the leaves of the
/// bodies of such.
pub fn asked_in(bank: &Bank, history: &History, goal: &[TermId]) -> Result<Vec<Sym>, AllocError> {
    let mut names = Vec::new(bank.alloc());
    for t in goal {
        if t.0 < bank.len() {
            if bank.size(*t) < BODY_LIMIT {
                add_asked(bank, &mut names, *t)?;
            }
        }
    }
    for place in 0..OPENED_LIMIT {
        add_opened(bank, history, &mut names, place)?;
    }
    Ok(names)
}
