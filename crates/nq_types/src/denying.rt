//! Lines without what assumptions say that a term is not.
ghost use Rattle.std.specs.Prelude.{◌≡◌, ◌≤◌, All, IfOk, Err, length};
ghost use Rattle.nq_logic.specs.ShellPrinciple.{shells_of};
ghost use Rattle.nq_history.specs.Events.{events_at};
ghost use Rattle.nq_kernel.specs.Growing.{LineStands, WorkGrows, WorkStands};
ghost use Rattle.nq_lines.specs.Lines.{IsTermIn};
ghost use Rattle.nq_types.specs.Guessing.{IsGuessed};

use crate::constants::{recognized, recognizer_opens};
use crate::denied::{Denied, Manner, denied_by};
use crate::judging::has_id;
use nq_bank::TermId;
use nq_history::History;
use nq_kernel::{Stop, Work};
use nq_lines::{
    Fact, cut, deny, deny_twice, equate, falsity, from_equal_false, opposites, rewrite_literal,
    symmetric,
};
use nq_rule::Side;

/// Makes the literal that a term is what it is said not to be.
fn denied_literal(
    work: &mut Work,
    history: &History,
    denied: Denied,
    t: TermId,
) -> Result<TermId, Stop>
    requires stands { WorkStands history.now work.old }
    requires denied { IsTermIn history.now work.old denied.term }
    requires term { IsTermIn history.now work.old t }
    ensures over { IfOk result (λ u. IsTermIn history.now work.new u) }
    ensures grows { WorkGrows history.now work.old work.new }
    ensures out { result ≡ Err Stop.OutOfSteps → work.new.counter.used ≡ work.new.counter.limit }
{
    match denied.manner {
        Manner::Holds => recognized(work, history, false, t),
        Manner::Unrecognized => Ok(denied.term),
        Manner::Unequal { truth, .. } => recognized(work, history, truth, t),
    }
}

/// Adds a line with the equation of a term and T or F, from one with the recognizer of that.
fn equated(
    work: &mut Work,
    history: &History,
    truth: bool,
    t: TermId,
    c: TermId,
    literal: TermId,
    line: u64,
) -> Result<u64, Stop>
    requires stands { WorkStands history.now work.old }
    requires term { IsTermIn history.now work.old t }
    requires constant { IsTermIn history.now work.old c }
    requires literal { IsTermIn history.now work.old literal }
    requires line { LineStands work.old line }
    ensures line { IfOk result (LineStands work.new) }
    ensures grows { WorkGrows history.now work.old work.new }
    ensures out { result ≡ Err Stop.OutOfSteps → work.new.counter.used ≡ work.new.counter.limit }
{
    let e = equate(work, history, t, c)?;
    let law = recognizer_opens(work, history, truth, t)?;
    rewrite_literal(work, history, Side::Forwards, literal, e, line, law)
}

/// Adds a line with the denial of a term that is assumed, from one with the literal that it is F.
fn without_falsity(
    work: &mut Work,
    history: &History,
    t: TermId,
    literal: TermId,
    line: u64,
) -> Result<u64, Stop>
    requires stands { WorkStands history.now work.old }
    requires term { IsTermIn history.now work.old t }
    requires literal { IsTermIn history.now work.old literal }
    requires line { LineStands work.old line }
    ensures line { IfOk result (LineStands work.new) }
    ensures grows { WorkGrows history.now work.old work.new }
    ensures out { result ≡ Err Stop.OutOfSteps → work.new.counter.used ≡ work.new.counter.limit }
{
    let c = falsity(work, history)?;
    let told = equated(work, history, false, t, c, literal, line)?;
    from_equal_false(work, history, t, told)
}

/// Adds a line without a recognizer whose NOT is assumed, from one that may have it.
fn without_recognizer(
    work: &mut Work,
    history: &History,
    a: TermId,
    q: TermId,
    line: u64,
) -> Result<u64, Stop>
    requires stands { WorkStands history.now work.old }
    requires assumption { IsTermIn history.now work.old a }
    requires term { IsTermIn history.now work.old q }
    requires line { LineStands work.old line }
    ensures line { IfOk result (LineStands work.new) }
    ensures grows { WorkGrows history.now work.old work.new }
    ensures out { result ≡ Err Stop.OutOfSteps → work.new.counter.used ≡ work.new.counter.limit }
{
    let law = opposites(work, history, a)?;
    cut(work, history, line, law, q)
}

/// Adds a line with the denial of the NOT of an equation, from one with the equation of t and c.
fn without_equation(
    work: &mut Work,
    history: &History,
    t: TermId,
    c: TermId,
    turned: bool,
    line: u64,
) -> Result<u64, Stop>
    requires stands { WorkStands history.now work.old }
    requires term { IsTermIn history.now work.old t }
    requires constant { IsTermIn history.now work.old c }
    requires line { LineStands work.old line }
    ensures line { IfOk result (LineStands work.new) }
    ensures grows { WorkGrows history.now work.old work.new }
    ensures out { result ≡ Err Stop.OutOfSteps → work.new.counter.used ≡ work.new.counter.limit }
{
    if turned {
        let told = symmetric(work, history, t, c, line)?;
        let q = equate(work, history, c, t)?;
        deny_twice(work, history, q, told)
    } else {
        let q = equate(work, history, t, c)?;
        deny_twice(work, history, q, line)
    }
}

/// Adds a line without T or F, from one that may have it, where the NOT of the equation with that is assumed.
fn without_constant(
    work: &mut Work,
    history: &History,
    truth: bool,
    t: TermId,
    c: TermId,
    turned: bool,
    literal: TermId,
    line: u64,
) -> Result<u64, Stop>
    requires stands { WorkStands history.now work.old }
    requires term { IsTermIn history.now work.old t }
    requires constant { IsTermIn history.now work.old c }
    requires literal { IsTermIn history.now work.old literal }
    requires line { LineStands work.old line }
    ensures line { IfOk result (LineStands work.new) }
    ensures grows { WorkGrows history.now work.old work.new }
    ensures out { result ≡ Err Stop.OutOfSteps → work.new.counter.used ≡ work.new.counter.limit }
{
    let told = equated(work, history, truth, t, c, literal, line)?;
    without_equation(work, history, t, c, turned, told)
}

/// Adds a line without a literal that a term is what it is said not to be, from one that may have it.
fn without_literal(
    work: &mut Work,
    history: &History,
    a: TermId,
    denied: Denied,
    t: TermId,
    literal: TermId,
    line: u64,
) -> Result<u64, Stop>
    requires stands { WorkStands history.now work.old }
    requires assumption { IsTermIn history.now work.old a }
    requires denied { IsTermIn history.now work.old denied.term }
    requires term { IsTermIn history.now work.old t }
    requires literal { IsTermIn history.now work.old literal }
    requires line { LineStands work.old line }
    ensures line { IfOk result (LineStands work.new) }
    ensures grows { WorkGrows history.now work.old work.new }
    ensures out { result ≡ Err Stop.OutOfSteps → work.new.counter.used ≡ work.new.counter.limit }
{
    match denied.manner {
        Manner::Holds => without_falsity(work, history, t, literal, line),
        Manner::Unrecognized => without_recognizer(work, history, a, literal, line),
        Manner::Unequal { truth, turned } => without_constant(
            work,
            history,
            truth,
            t,
            denied.term,
            turned,
            literal,
            line,
        ),
    }
}

/// Is a term a literal of a line?
fn has_literal(work: &Work, history: &History, line: u64, literal: TermId) -> bool
    requires stands { WorkStands history.now work.now }
    requires line { LineStands work.now line }
{
    let _ = history.len();
    has_id(work.log.clause_over(&work.bank, line), literal)
}

/// Adds a line without what an assumption says that a term is not, where the other has this literal; the other line else.
fn without_denied(
    work: &mut Work,
    history: &History,
    a: TermId,
    denied: Denied,
    t: TermId,
    line: u64,
) -> Result<u64, Stop>
    requires stands { WorkStands history.now work.old }
    requires assumption { IsTermIn history.now work.old a }
    requires denied { IsTermIn history.now work.old denied.term }
    requires term { IsTermIn history.now work.old t }
    requires line { LineStands work.old line }
    ensures line { IfOk result (LineStands work.new) }
    ensures grows { WorkGrows history.now work.old work.new }
    ensures out { result ≡ Err Stop.OutOfSteps → work.new.counter.used ≡ work.new.counter.limit }
{
    let literal = denied_literal(work, history, denied, t)?;
    if has_literal(work, history, line, literal) {
        without_literal(work, history, a, denied, t, literal, line)
    } else {
        Ok(line)
    }
}

/// Adds a line without what one assumption says that a term is not.
fn without_one(
    work: &mut Work,
    history: &History,
    a: TermId,
    t: TermId,
    line: u64,
) -> Result<u64, Stop>
    requires stands { WorkStands history.now work.old }
    requires room { length (shells_of (events_at work.old.bank history.now)) ≤ 61 }
    requires assumption { IsTermIn history.now work.old a }
    requires term { IsTermIn history.now work.old t }
    requires line { LineStands work.old line }
    ensures line { IfOk result (LineStands work.new) }
    ensures grows { WorkGrows history.now work.old work.new }
    ensures out { result ≡ Err Stop.OutOfSteps → work.new.counter.used ≡ work.new.counter.limit }
{
    match denied_by(work, history, a, t) {
        Some(denied) => without_denied(work, history, a, denied, t, line),
        None => Ok(line),
    }
}

/// Adds a line without all that the assumptions say that a term is not.
pub fn without_all(
    work: &mut Work,
    history: &History,
    assumed: &[TermId],
    t: TermId,
    line: u64,
) -> Result<u64, Stop>
    requires stands { WorkStands history.now work.old }
    requires room { length (shells_of (events_at work.old.bank history.now)) ≤ 61 }
    requires assumed { All (IsTermIn history.now work.old) assumed.now }
    requires term { IsTermIn history.now work.old t }
    requires line { LineStands work.old line }
    ensures line { IfOk result (LineStands work.new) }
    ensures grows { WorkGrows history.now work.old work.new }
    ensures out { result ≡ Err Stop.OutOfSteps → work.new.counter.used ≡ work.new.counter.limit }
{
    let mut told = line;
    for a in assumed {
        told = without_one(work, history, *a, t, told)?;
    }
    Ok(told)
}

/// Makes the literal that a term is not what it is said not to be, and adds its line.
pub fn denied_fact(
    work: &mut Work,
    history: &History,
    a: TermId,
    denied: Denied,
    t: TermId,
) -> Result<Fact, Stop>
    requires stands { WorkStands history.now work.old }
    requires assumption { IsTermIn history.now work.old a }
    requires denied { IsTermIn history.now work.old denied.term }
    requires term { IsTermIn history.now work.old t }
    ensures fact { IfOk result (IsGuessed history.now work.new) }
    ensures grows { WorkGrows history.now work.old work.new }
    ensures out { result ≡ Err Stop.OutOfSteps → work.new.counter.used ≡ work.new.counter.limit }
{
    let literal = denied_literal(work, history, denied, t)?;
    let law = opposites(work, history, literal)?;
    let line = without_literal(work, history, a, denied, t, literal, law)?;
    let term = deny(work, history, literal)?;
    Ok(Fact { term, line })
}
