//! What assumptions say that a term is not: of a kind whose recognizer is denied, T or F where its equation with that is denied, and F
//! where it is assumed itself.
ghost use Rattle.std.specs.Prelude.{◌≡◌, ◌≤◌, All, IfSome, length};
ghost use Rattle.nq_logic.specs.ShellPrinciple.{shells_of};
ghost use Rattle.nq_history.specs.Events.{events_at};
ghost use Rattle.nq_kernel.specs.Growing.{WorkStands};
ghost use Rattle.nq_lines.specs.Lines.{IsTermIn};

use crate::judging::{recognizer_place, recognizes};
use crate::kinds::{Kind, kind_of};
use crate::rows::argument;
use nq_bank::{Node, TermId, ground};
use nq_history::History;
use nq_kernel::Work;
use nq_lines::{is_same, sides_of};

/// How an assumption says that a term is not of a kind.
#[derive(Clone, Copy, Debug, PartialEq, Eq)]
pub enum Manner {
    /// It is the term, which is not F.
    Holds,
    /// It is the NOT of a recognizer of the term.
    Unrecognized,
    /// It is the NOT of an equation of the term and T, or F; with the term on the right, the equation is turned.
    Unequal { truth: bool, turned: bool },
}

/// A kind of object that a term is said not to be.
#[derive(Clone, Copy, Debug, PartialEq, Eq)]
pub struct Denied {
    /// How it is said.
    pub manner: Manner,
    /// The term itself, the call of the recognizer, or T or F.
    pub term: TermId,
}

/// The term whose NOT a term is.
pub fn denied_term(work: &Work, history: &History, a: TermId) -> Option<TermId>
    requires stands { WorkStands history.now work.now }
    requires assumption { IsTermIn history.now work.now a }
    ensures { IfSome result (IsTermIn history.now work.now) }
{
    match work.bank.node(a) {
        Node::App(f, _) => {
            if work.bank.is_ground(f, ground::NOT) {
                argument(work, history, a, 0)
            } else {
                None
            }
        }
        Node::Num(_) => None,
        Node::Var(_) => None,
    }
}

/// What it says that a term is not this one, where that is T or F.
fn denied_constant(work: &Work, history: &History, c: TermId, turned: bool) -> Option<Denied>
    requires stands { WorkStands history.now work.now }
    requires constant { IsTermIn history.now work.now c }
    ensures { IfSome result (λ d. IsTermIn history.now work.now d.term) }
{
    let truth = match kind_of(&work.bank, history, c) {
        Kind::Truth => true,
        Kind::Falsity => false,
        Kind::Base(_) => return None,
        Kind::Made(_) => return None,
        Kind::Other => return None,
    };
    Some(Denied {
        manner: Manner::Unequal { truth, turned },
        term: c,
    })
}

/// What it says of a term that this equation is denied.
fn denied_equation(work: &Work, history: &History, q: TermId, t: TermId) -> Option<Denied>
    requires stands { WorkStands history.now work.now }
    requires equation { IsTermIn history.now work.now q }
    ensures { IfSome result (λ d. IsTermIn history.now work.now d.term) }
{
    let sides = sides_of(work, history, q)?;
    if is_same(sides.left, t) {
        denied_constant(work, history, sides.right, false)
    } else if is_same(sides.right, t) {
        denied_constant(work, history, sides.left, true)
    } else {
        None
    }
}

/// What the NOT of a term says that another is not.
fn denied_with(work: &Work, history: &History, q: TermId, t: TermId) -> Option<Denied>
    requires stands { WorkStands history.now work.now }
    requires room { length (shells_of (events_at work.now.bank history.now)) ≤ 61 }
    requires denied { IsTermIn history.now work.now q }
    ensures { IfSome result (λ d. IsTermIn history.now work.now d.term) }
{
    if recognizes(&work.bank, history, q, t) {
        Some(Denied {
            manner: Manner::Unrecognized,
            term: q,
        })
    } else {
        denied_equation(work, history, q, t)
    }
}

/// What an assumption says that a term is not.
pub fn denied_by(work: &Work, history: &History, a: TermId, t: TermId) -> Option<Denied>
    requires stands { WorkStands history.now work.now }
    requires room { length (shells_of (events_at work.now.bank history.now)) ≤ 61 }
    requires assumption { IsTermIn history.now work.now a }
    ensures { IfSome result (λ d. IsTermIn history.now work.now d.term) }
{
    if is_same(a, t) {
        return Some(Denied {
            manner: Manner::Holds,
            term: a,
        });
    }
    let q = denied_term(work, history, a)?;
    denied_with(work, history, q, t)
}

/// The bit of the kind that a term is said not to be.
fn denied_place(work: &Work, history: &History, denied: Denied) -> Option<usize>
    requires stands { WorkStands history.now work.now }
    requires room { length (shells_of (events_at work.now.bank history.now)) ≤ 61 }
    requires denied { IsTermIn history.now work.now denied.term }
{
    match denied.manner {
        Manner::Holds => Some(1),
        Manner::Unrecognized => match work.bank.node(denied.term) {
            Node::App(f, _) => recognizer_place(&work.bank, history, f),
            Node::Num(_) => None,
            Node::Var(_) => None,
        },
        Manner::Unequal { truth, .. } => Some(if truth { 0 } else { 1 }),
    }
}

/// Does an assumption say that a term is not of the kind at a bit?
fn denies_at(work: &Work, history: &History, a: TermId, t: TermId, place: usize) -> bool
    requires stands { WorkStands history.now work.now }
    requires room { length (shells_of (events_at work.now.bank history.now)) ≤ 61 }
    requires assumption { IsTermIn history.now work.now a }
{
    match denied_by(work, history, a, t) {
        Some(denied) => denied_place(work, history, denied) == Some(place),
        None => false,
    }
}

/// The first assumption that says that a term is not of the kind at a bit.
pub fn denying(
    work: &Work,
    history: &History,
    assumed: &[TermId],
    t: TermId,
    place: usize,
) -> Option<TermId>
    requires stands { WorkStands history.now work.now }
    requires room { length (shells_of (events_at work.now.bank history.now)) ≤ 61 }
    requires assumed { All (IsTermIn history.now work.now) assumed.now }
    ensures { IfSome result (IsTermIn history.now work.now) }
{
    for a in assumed {
        if denies_at(work, history, *a, t, place) {
            return Some(*a);
        }
    }
    None
}
