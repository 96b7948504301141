//! Of what kind the values of a function may be, as the leaves of its body tell. It decides only what is tried.
ghost use Rattle.std.specs.Prelude.{IfSome};
ghost use Rattle.nq_bank.specs.Content.{IsNamed, Stands};
ghost use Rattle.nq_kernel.specs.Growing.{WorkStands};

use nq_bank::{Bank, Node, Sym, TermId, ground};
use nq_history::{EntryKind, Hints, History};
use nq_kernel::Work;
use nq_rewrite::known_recognizer;
use std::alloc::AllocError;

/// The most nodes of a body that is walked.
pub const BODY_LIMIT: u64 = 3000;

/// What leaves of a body tell.
#[derive(Clone, Copy, Debug)]
enum Leaves {
    /// They are calls of the function itself.
    Own,
    /// This recognizer holds of them.
    Of(Sym),
    /// They are of several kinds, or of none that is known.
    Mixed,
}

/// What two parts of a body tell.
fn both(one: Leaves, two: Leaves) -> Leaves {
    match one {
        Leaves::Own => two,
        Leaves::Mixed => Leaves::Mixed,
        Leaves::Of(r) => match two {
            Leaves::Own => one,
            Leaves::Mixed => Leaves::Mixed,
            Leaves::Of(s) => if r.0 == s.0 { one } else { Leaves::Mixed },
        },
    }
}

/// The recognizer of the shell whose objects a function makes.
fn made_recognizer(history: &History, f: Sym) -> Option<Sym> {
    for shell in history.shells() {
        if shell.constructor.0 == f.0 {
            return Some(shell.recognizer);
        }
        if let Some(base) = shell.base {
            if base.0 == f.0 {
                return Some(shell.recognizer);
            }
        }
    }
    None
}

/// What a call of another function than the one of the body tells.
fn leaf_of(work: &Work, history: &History, g: Sym) -> Leaves
    requires { WorkStands history.now work.now }
{
    if let Some(r) = made_recognizer(history, g) {
        return Leaves::Of(r);
    }
    match known_recognizer(work, history, g) {
        Some(r) => Leaves::Of(r),
        None => {
            if g.0 == ground::SUB1.0 || g.0 == ground::COUNT.0 {
                Leaves::Of(ground::NUMBERP)
            } else {
                Leaves::Mixed
            }
        }
    }
}

/// The recognizer of the kind that a test tells a variable to be of, or not to be of.
fn test_kind(history: &History, f: Sym) -> Option<Sym> {
    if f.0 == ground::ZEROP.0 {
        return Some(ground::NUMBERP);
    }
    match recognized_place(history, f) {
        Some(_) => Some(f),
        None => None,
    }
}

/// The recognizer of the kind of which a test within a term tells whether a variable is of it.
fn tested_kind(bank: &Bank, history: &History, t: TermId, v: TermId) -> Option<Sym>
    requires { Stands bank.now t }
{
    if let Node::App(g, _) = bank.node(t) {
        let arguments = bank.args(t);
        if arguments.len() == 1 && arguments[0].0 == v.0 {
            let kind = test_kind(history, g);
            if kind.is_some() {
                return kind;
            }
        }
        for a in arguments {
            let kind = tested_kind(bank, history, *a, v);
            if kind.is_some() {
                return kind;
            }
        }
    }
    None
}

/// What a variable tells that is a leaf of a body.
fn variable_leaf(bank: &Bank, history: &History, body: TermId, v: TermId) -> Leaves
    requires { Stands bank.now body }
{
    match tested_kind(bank, history, body, v) {
        Some(r) => Leaves::Of(r),
        None => Leaves::Mixed,
    }
}

/// What the leaves of a term within a body tell.
fn leaves_of(work: &Work, history: &History, f: Sym, body: TermId, t: TermId) -> Leaves
    requires stands { WorkStands history.now work.now }
    requires body { Stands work.now.bank body }
    requires term { Stands work.now.bank t }
{
    match work.bank.node(t) {
        Node::Num(_) => Leaves::Of(ground::NUMBERP),
        Node::Var(_) => variable_leaf(&work.bank, history, body, t),
        Node::App(g, _) => {
            let arguments = work.bank.args(t);
            if g.0 == f.0 {
                Leaves::Own
            } else if g.0 == ground::IF.0 && arguments.len() == 3 {
                let first = leaves_of(work, history, f, body, arguments[1]);
                let second = leaves_of(work, history, f, body, arguments[2]);
                both(first, second)
            } else {
                leaf_of(work, history, g)
            }
        }
    }
}

/// The body of a function, if it is defined, and small enough to be walked.
pub fn body_of(bank: &Bank, history: &History, f: Sym) -> Option<TermId>
    ensures { IfSome result (Stands bank.now) }
{
    let body = defined_body(history, f)?;
    if body.0 < bank.len() {
        if bank.size(body) < BODY_LIMIT {
            return Some(body);
        }
    }
    None
}

/// The body of a function, if it is defined.
fn defined_body(history: &History, f: Sym) -> Option<TermId> {
    let e = history.lookup(f)?;
    match &e.kind {
        EntryKind::Defn(_, body, _) => Some(*body),
        EntryKind::Axiom(_, _) => None,
        EntryKind::Lemma(_, _) => None,
        EntryKind::Shell(_) => None,
        EntryKind::Dcl(_) => None,
        EntryKind::Toggle(_, _) => None,
    }
}

/// Is a function declared, and so not defined?
pub fn is_declared(history: &History, f: Sym) -> bool {
    match history.lookup(f) {
        Some(e) => match &e.kind {
            EntryKind::Dcl(_) => true,
            EntryKind::Defn(_, _, _) => false,
            EntryKind::Axiom(_, _) => false,
            EntryKind::Lemma(_, _) => false,
            EntryKind::Shell(_) => false,
            EntryKind::Toggle(_, _) => false,
        },
        None => false,
    }
}

/// The recognizer that may hold of all values of a function.
fn guessed_kind(work: &Work, history: &History, f: Sym) -> Option<Sym>
    requires { WorkStands history.now work.now }
{
    if f.0 == ground::FIX.0 {
        return Some(ground::NUMBERP);
    }
    let body = body_of(&work.bank, history, f)?;
    match leaves_of(work, history, f, body, body) {
        Leaves::Own => None,
        Leaves::Of(r) => Some(r),
        Leaves::Mixed => None,
    }
}

/// The place of the shell that a function recognizes.
pub fn recognized_place(history: &History, r: Sym) -> Option<usize> {
    let shells = history.shells();
    for place in 0..shells.len() {
        if shells[place].recognizer.0 == r.0 {
            return Some(place);
        }
    }
    None
}

/// The place of the shell of whose kind all values of a function may be.
pub fn guessed_place(work: &Work, history: &History, f: Sym) -> Option<usize>
    requires { WorkStands history.now work.now }
{
    match guessed_kind(work, history, f) {
        Some(r) => recognized_place(history, r),
        None => None,
    }
}

/// The recognizer of the shell at a place.
pub fn recognizer_at(work: &Work, history: &History, place: usize) -> Option<Sym>
    requires { WorkStands history.now work.now }
    ensures { IfSome result (IsNamed work.now.bank) }
{
    let shells = history.shells();
    let _ = work.bank.alloc();
    if place < shells.len() {
        Some(shells[place].recognizer)
    } else {
        None
    }
}

/// Is a name among these?
pub fn has_name(names: &[Sym], f: Sym) -> bool {
    for g in names {
        if g.0 == f.0 {
            return true;
        }
    }
    false
}

/// Adds the functions of a term.
fn add_functions(bank: &Bank, names: &mut Vec<Sym>, t: TermId) -> Result<(), AllocError>
    requires { Stands bank.now t }
{
    if let Node::App(f, _) = bank.node(t) {
        add_name(names, f)?;
        for a in bank.args(t) {
            add_functions(bank, names, *a)?;
        }
    }
    Ok(())
}

/// Adds the functions of a term, if it stands and is small enough to be walked.
fn add_small(bank: &Bank, names: &mut Vec<Sym>, t: TermId) -> Result<(), AllocError> {
    if t.0 < bank.len() {
        if bank.size(t) < BODY_LIMIT {
            add_functions(bank, names, t)?;
        }
    }
    Ok(())
}

/// The measure of a function, if it is defined by recursion.
fn measure_of(history: &History, f: Sym) -> Option<TermId> {
    let e = history.lookup(f)?;
    match &e.kind {
        EntryKind::Defn(_, _, measure) => *measure,
        EntryKind::Axiom(_, _) => None,
        EntryKind::Lemma(_, _) => None,
        EntryKind::Shell(_) => None,
        EntryKind::Dcl(_) => None,
        EntryKind::Toggle(_, _) => None,
    }
}

/// Adds a function, if it is not among these.
pub fn add_name(names: &mut Vec<Sym>, f: Sym) -> Result<(), AllocError> {
    if !has_name(names.as_slice(), f) {
        names.push(f)?;
    }
    Ok(())
}

/// Adds the functions of the body and of the measure of the function at a place; where it is COUNT, PLUS, of which sizes are made.
fn add_opened(
    bank: &Bank,
    history: &History,
    names: &mut Vec<Sym>,
    place: usize,
) -> Result<(), AllocError> {
    if place < names.len() {
        if let Some(body) = body_of(bank, history, names[place]) {
            add_functions(bank, names, body)?;
        }
    }
    if place < names.len() && names[place].0 == ground::COUNT.0 {
        add_name(names, ground::PLUS)?;
    }
    if place < names.len() {
        if let Some(measure) = measure_of(history, names[place]) {
            add_small(bank, names, measure)?;
        }
    }
    Ok(())
}

/// How many functions are opened in search of others.
const OPENED_LIMIT: usize = 100;

/// The functions of a goal, and those of the bodies of such.
pub fn functions_of(
    bank: &Bank,
    history: &History,
    goal: &[TermId],
) -> Result<Vec<Sym>, AllocError> {
    let mut names = Vec::new(bank.alloc());
    for t in goal {
        add_small(bank, &mut names, *t)?;
    }
    for place in 0..OPENED_LIMIT {
        add_opened(bank, history, &mut names, place)?;
    }
    Ok(names)
}

/// The functions that a goal and the term of an INDUCT hint call.
pub fn called_in(bank: &Bank, goal: &[TermId], hints: &Hints) -> Result<Vec<Sym>, AllocError> {
    let mut names = Vec::new(bank.alloc());
    for t in goal {
        add_small(bank, &mut names, *t)?;
    }
    if let Some(t) = hints.induct {
        add_small(bank, &mut names, t)?;
    }
    Ok(names)
}
