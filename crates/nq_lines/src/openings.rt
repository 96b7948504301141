//! Openings of calls.
ghost use Rattle.std.specs.Prelude.{◌≡◌, IfOk, IfSome, Err};
ghost use Rattle.nq_bank.specs.Content.{IsNamed, term_at};
ghost use Rattle.nq_history.specs.Events.{events_at};
ghost use Rattle.nq_kernel.specs.Growing.{WorkGrows, WorkStands};
ghost use Rattle.nq_lines.specs.Lines.{IsTermIn};
ghost use Rattle.nq_lines.specs.Facts.{IsFact, IsOpening};
ghost use Rattle.nq_lines.specs.OwnTerms.{HasOwnTerms};

use crate::facts::{Fact, is_same, sides_of};
use crate::given::row_fact;
use crate::instantiated::matched_fact;
use nq_bank::{Node, Sym, TermId};
use nq_history::History;
use nq_kernel::{Stop, Work};

/// The body of the function of a call, with the arguments in place of the formals, and the line that the call equals it. There
/// is none where the call is of no defined function.
pub fn opening(work: &mut Work, history: &History, t: TermId) -> Result<Option<Fact>, Stop>
    requires stands { WorkStands history.now work.old }
    requires ready { HasOwnTerms (events_at work.old.bank history.now) }
    requires term { IsTermIn history.now work.old t }
    ensures opening { IfOk result (λ found. IfSome found (IsOpening history.now work.new (term_at work.old.bank t))) }
    ensures grows { WorkGrows history.now work.old work.new }
    ensures out { result ≡ Err Stop.OutOfSteps → work.new.counter.used ≡ work.new.counter.limit }
{
    match work.bank.node(t) {
        Node::App(f, _) => opening_by(work, history, f, t),
        Node::Num(_) => Ok(None),
        Node::Var(_) => Ok(None),
    }
}

/// The same, by the row of the function.
fn opening_by(work: &mut Work, history: &History, f: Sym, t: TermId) -> Result<Option<Fact>, Stop>
    requires stands { WorkStands history.now work.old }
    requires ready { HasOwnTerms (events_at work.old.bank history.now) }
    requires function { IsNamed work.old.bank f }
    requires term { IsTermIn history.now work.old t }
    ensures opening { IfOk result (λ found. IfSome found (IsOpening history.now work.new (term_at work.old.bank t))) }
    ensures grows { WorkGrows history.now work.old work.new }
    ensures out { result ≡ Err Stop.OutOfSteps → work.new.counter.used ≡ work.new.counter.limit }
{
    match row_fact(work, history, f)? {
        Some(row) => opening_of_row(work, history, row, t),
        None => Ok(None),
    }
}

/// The same, by the line of the row.
fn opening_of_row(
    work: &mut Work,
    history: &History,
    row: Fact,
    t: TermId,
) -> Result<Option<Fact>, Stop>
    requires stands { WorkStands history.now work.old }
    requires row { IsFact history.now work.old row }
    requires term { IsTermIn history.now work.old t }
    ensures opening { IfOk result (λ found. IfSome found (IsOpening history.now work.new (term_at work.old.bank t))) }
    ensures grows { WorkGrows history.now work.old work.new }
    ensures out { result ≡ Err Stop.OutOfSteps → work.new.counter.used ≡ work.new.counter.limit }
{
    match sides_of(work, history, row.term) {
        Some(sides) => opening_of_sides(work, history, row, sides.left, t),
        None => Ok(None),
    }
}

/// The same, where the left side of the row is known.
fn opening_of_sides(
    work: &mut Work,
    history: &History,
    row: Fact,
    left: TermId,
    t: TermId,
) -> Result<Option<Fact>, Stop>
    requires stands { WorkStands history.now work.old }
    requires row { IsFact history.now work.old row }
    requires left { IsTermIn history.now work.old left }
    requires term { IsTermIn history.now work.old t }
    ensures opening { IfOk result (λ found. IfSome found (IsOpening history.now work.new (term_at work.old.bank t))) }
    ensures grows { WorkGrows history.now work.old work.new }
    ensures out { result ≡ Err Stop.OutOfSteps → work.new.counter.used ≡ work.new.counter.limit }
{
    match matched_fact(work, history, row, left, t)? {
        Some(fact) => Ok(right_side(work, history, fact, t)),
        None => Ok(None),
    }
}

/// The right side of an equation whose left side is this term.
fn right_side(work: &Work, history: &History, fact: Fact, t: TermId) -> Option<Fact>
    requires stands { WorkStands history.now work.now }
    requires fact { IsFact history.now work.now fact }
    ensures { IfSome result (IsOpening history.now work.now (term_at work.now.bank t)) }
{
    let sides = sides_of(work, history, fact.term)?;
    if !is_same(sides.left, t) {
        return None;
    }
    Some(Fact {
        term: sides.right,
        line: fact.line,
    })
}
