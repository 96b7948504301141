//! What single assumptions tell of a term: as a recognizer of it, as its NOT, or as its equation with a term whose kind stands in it.
ghost use Rattle.std.specs.Prelude.{◌≡◌, ◌≤◌, IfOk, IfSome, All, Err, length};
ghost use Rattle.nq_logic.specs.ShellPrinciple.{shells_of};
ghost use Rattle.nq_history.specs.Events.{events_at};
ghost use Rattle.nq_kernel.specs.Growing.{LineStands, WorkGrows, WorkStands};
ghost use Rattle.nq_kernel.specs.Ready.{IsReady};
ghost use Rattle.nq_lines.specs.Lines.{IsTermIn};
ghost use Rattle.nq_types.specs.Guessing.{IsEqualIn};

use crate::exact::exact_line;
use crate::judging::{is_one_among, recognizes};
use crate::kinds::{Kind, kind_of};
use crate::replacing::carried;
use crate::truths::true_or_recognized;
use nq_bank::{Node, TermId, ground};
use nq_history::History;
use nq_kernel::{Stop, Work};
use nq_lines::{Sides, cut, is_same, opposites, sides_of, symmetric};

/// Is an assumption the NOT of a term?
fn denies(work: &Work, history: &History, a: TermId, t: TermId) -> bool
    requires stands { WorkStands history.now work.now }
    requires assumption { IsTermIn history.now work.now a }
{
    let _ = history.len();
    match work.bank.node(a) {
        Node::App(f, _) => {
            is_one_among(work.bank.args(a), &[t]) && work.bank.is_ground(f, ground::NOT)
        }
        Node::Num(_) => false,
        Node::Var(_) => false,
    }
}

/// Does the kind of a term stand in it?
fn has_kind(work: &Work, history: &History, t: TermId) -> bool
    requires stands { WorkStands history.now work.now }
    requires term { IsTermIn history.now work.now t }
{
    kind_of(&work.bank, history, t) != Kind::Other
}

/// Is an assumption an equation of a term and one whose kind stands in it?
fn equates(work: &Work, history: &History, a: TermId, t: TermId) -> bool
    requires stands { WorkStands history.now work.now }
    requires assumption { IsTermIn history.now work.now a }
{
    match sides_of(work, history, a) {
        Some(sides) => {
            is_same(sides.left, t) && has_kind(work, history, sides.right)
                || is_same(sides.right, t) && has_kind(work, history, sides.left)
        }
        None => false,
    }
}

/// Does an assumption tell what a term is?
fn tells(work: &Work, history: &History, a: TermId, t: TermId) -> bool
    requires stands { WorkStands history.now work.now }
    requires assumption { IsTermIn history.now work.now a }
    requires room { length (shells_of (events_at work.now.bank history.now)) ≤ 61 }
{
    recognizes(&work.bank, history, a, t)
        || denies(work, history, a, t)
        || equates(work, history, a, t)
}

/// The first assumption that tells what a term is.
pub fn telling(work: &Work, history: &History, assumed: &[TermId], t: TermId) -> Option<TermId>
    requires stands { WorkStands history.now work.now }
    requires assumed { All (IsTermIn history.now work.now) assumed.now }
    requires room { length (shells_of (events_at work.now.bank history.now)) ≤ 61 }
    ensures { IfSome result (IsTermIn history.now work.now) }
{
    for a in assumed {
        if tells(work, history, *a, t) {
            return Some(*a);
        }
    }
    None
}

/// Adds the line of an assumption and its denial.
fn assumed_line(work: &mut Work, history: &History, a: TermId) -> Result<Option<u64>, Stop>
    requires stands { WorkStands history.now work.old }
    requires assumption { IsTermIn history.now work.old a }
    ensures line { IfOk result (λ found. IfSome found (LineStands work.new)) }
    ensures grows { WorkGrows history.now work.old work.new }
    ensures out { result ≡ Err Stop.OutOfSteps → work.new.counter.used ≡ work.new.counter.limit }
{
    let line = opposites(work, history, a)?;
    Ok(Some(line))
}

/// Adds the line that a term is F, where its NOT is assumed.
fn told_false(work: &mut Work, history: &History, a: TermId, t: TermId) -> Result<Option<u64>, Stop>
    requires stands { WorkStands history.now work.old }
    requires assumption { IsTermIn history.now work.old a }
    requires term { IsTermIn history.now work.old t }
    ensures line { IfOk result (λ found. IfSome found (LineStands work.new)) }
    ensures grows { WorkGrows history.now work.old work.new }
    ensures out { result ≡ Err Stop.OutOfSteps → work.new.counter.used ≡ work.new.counter.limit }
{
    let first = true_or_recognized(work, history, t)?;
    let second = opposites(work, history, a)?;
    let line = cut(work, history, first, second, t)?;
    Ok(Some(line))
}

/// Adds the line of an assumption that v equals t and its denial, turned: it says that t equals v.
fn turned_assumption(
    work: &mut Work,
    history: &History,
    a: TermId,
    t: TermId,
    v: TermId,
) -> Result<u64, Stop>
    requires stands { WorkStands history.now work.old }
    requires assumption { IsTermIn history.now work.old a }
    requires left { IsTermIn history.now work.old t }
    requires right { IsTermIn history.now work.old v }
    ensures line { IfOk result (LineStands work.new) }
    ensures grows { WorkGrows history.now work.old work.new }
    ensures out { result ≡ Err Stop.OutOfSteps → work.new.counter.used ≡ work.new.counter.limit }
{
    let line = opposites(work, history, a)?;
    symmetric(work, history, v, t, line)
}

/// Adds the line of an assumption and its denial.
fn plain_assumption(work: &mut Work, history: &History, a: TermId) -> Result<u64, Stop>
    requires stands { WorkStands history.now work.old }
    requires assumption { IsTermIn history.now work.old a }
    ensures line { IfOk result (LineStands work.new) }
    ensures grows { WorkGrows history.now work.old work.new }
    ensures out { result ≡ Err Stop.OutOfSteps → work.new.counter.used ≡ work.new.counter.limit }
{
    let line = opposites(work, history, a)?;
    Ok(line)
}

/// Adds the line of an assumption and its denial, turned if need be: it says that t equals v.
fn equation_assumed(
    work: &mut Work,
    history: &History,
    a: TermId,
    turned: bool,
    t: TermId,
    v: TermId,
) -> Result<u64, Stop>
    requires stands { WorkStands history.now work.old }
    requires assumption { IsTermIn history.now work.old a }
    requires left { IsTermIn history.now work.old t }
    requires right { IsTermIn history.now work.old v }
    ensures line { IfOk result (LineStands work.new) }
    ensures grows { WorkGrows history.now work.old work.new }
    ensures out { result ≡ Err Stop.OutOfSteps → work.new.counter.used ≡ work.new.counter.limit }
{
    if turned {
        turned_assumption(work, history, a, t, v)
    } else {
        plain_assumption(work, history, a)
    }
}

/// Adds a line of what t is, where it is assumed that it equals v, from one of what v is.
pub fn told_by_line(
    work: &mut Work,
    history: &History,
    a: TermId,
    turned: bool,
    t: TermId,
    v: TermId,
    line: u64,
) -> Result<Option<u64>, Stop>
    requires stands { WorkStands history.now work.old }
    requires room { length (shells_of (events_at work.old.bank history.now)) ≤ 61 }
    requires assumption { IsTermIn history.now work.old a }
    requires left { IsTermIn history.now work.old t }
    requires right { IsTermIn history.now work.old v }
    requires line { LineStands work.old line }
    ensures line { IfOk result (λ found. IfSome found (LineStands work.new)) }
    ensures grows { WorkGrows history.now work.old work.new }
    ensures out { result ≡ Err Stop.OutOfSteps → work.new.counter.used ≡ work.new.counter.limit }
{
    let equation = equation_assumed(work, history, a, turned, t, v)?;
    let told = carried(work, history, t, v, equation, line)?;
    Ok(Some(told))
}

/// Adds a line of what t is, where it is assumed that it equals v.
fn told_by_equal(
    work: &mut Work,
    history: &History,
    a: TermId,
    turned: bool,
    t: TermId,
    v: TermId,
) -> Result<Option<u64>, Stop>
    requires stands { WorkStands history.now work.old }
    requires ready { IsReady (events_at work.old.bank history.now) }
    requires room { length (shells_of (events_at work.old.bank history.now)) ≤ 61 }
    requires assumption { IsTermIn history.now work.old a }
    requires left { IsTermIn history.now work.old t }
    requires right { IsTermIn history.now work.old v }
    ensures line { IfOk result (λ found. IfSome found (LineStands work.new)) }
    ensures grows { WorkGrows history.now work.old work.new }
    ensures out { result ≡ Err Stop.OutOfSteps → work.new.counter.used ≡ work.new.counter.limit }
{
    match exact_line(work, history, v)? {
        Some(line) => told_by_line(work, history, a, turned, t, v, line),
        None => Ok(None),
    }
}

/// Adds a line of what a term is, where an assumption is the equation of these sides.
fn told_by_equation(
    work: &mut Work,
    history: &History,
    a: TermId,
    sides: Sides,
    t: TermId,
) -> Result<Option<u64>, Stop>
    requires stands { WorkStands history.now work.old }
    requires ready { IsReady (events_at work.old.bank history.now) }
    requires room { length (shells_of (events_at work.old.bank history.now)) ≤ 61 }
    requires assumption { IsTermIn history.now work.old a }
    requires left { IsTermIn history.now work.old sides.left }
    requires right { IsTermIn history.now work.old sides.right }
    requires term { IsTermIn history.now work.old t }
    ensures line { IfOk result (λ found. IfSome found (LineStands work.new)) }
    ensures grows { WorkGrows history.now work.old work.new }
    ensures out { result ≡ Err Stop.OutOfSteps → work.new.counter.used ≡ work.new.counter.limit }
{
    if is_same(sides.left, t) {
        told_by_equal(work, history, a, false, t, sides.right)
    } else {
        told_by_equal(work, history, a, true, t, sides.left)
    }
}

/// Adds a line of what an assumption tells of a term.
pub fn told_by(
    work: &mut Work,
    history: &History,
    a: TermId,
    t: TermId,
) -> Result<Option<u64>, Stop>
    requires stands { WorkStands history.now work.old }
    requires ready { IsReady (events_at work.old.bank history.now) }
    requires room { length (shells_of (events_at work.old.bank history.now)) ≤ 61 }
    requires assumption { IsTermIn history.now work.old a }
    requires term { IsTermIn history.now work.old t }
    ensures line { IfOk result (λ found. IfSome found (LineStands work.new)) }
    ensures grows { WorkGrows history.now work.old work.new }
    ensures out { result ≡ Err Stop.OutOfSteps → work.new.counter.used ≡ work.new.counter.limit }
{
    if denies(work, history, a, t) {
        return told_false(work, history, a, t);
    }
    match sides_of(work, history, a) {
        Some(sides) => told_by_equation(work, history, a, sides, t),
        None => assumed_line(work, history, a),
    }
}

/// A term that another is assumed to equal.
#[derive(Clone, Copy, Debug, PartialEq, Eq)]
pub struct Equal {
    /// The equation that is assumed.
    pub assumption: TermId,
    /// Whether the other term stands on the left.
    pub turned: bool,
    /// The other term.
    pub other: TermId,
}

/// The other side of an assumption that is an equation of a term.
fn other_side(work: &Work, history: &History, a: TermId, t: TermId) -> Option<Equal>
    requires stands { WorkStands history.now work.now }
    requires assumption { IsTermIn history.now work.now a }
    ensures { IfSome result (IsEqualIn history.now work.now) }
{
    let sides = sides_of(work, history, a)?;
    if is_same(sides.left, t) {
        Some(Equal {
            assumption: a,
            turned: false,
            other: sides.right,
        })
    } else if is_same(sides.right, t) {
        Some(Equal {
            assumption: a,
            turned: true,
            other: sides.left,
        })
    } else {
        None
    }
}

/// The first term that another is assumed to equal.
pub fn equal_to(work: &Work, history: &History, assumed: &[TermId], t: TermId) -> Option<Equal>
    requires stands { WorkStands history.now work.now }
    requires assumed { All (IsTermIn history.now work.now) assumed.now }
    ensures { IfSome result (IsEqualIn history.now work.now) }
{
    for a in assumed {
        let equal = other_side(work, history, *a, t);
        if equal.is_some() {
            return equal;
        }
    }
    None
}
