//! Functions of the table of values whose values are numbers, and the laws that say so; and LESSP, whose value is T or F.
ghost use Rattle.std.specs.Prelude.{◌≡◌, IfOk, IfSome, Err};
ghost use Rattle.nq_bank.specs.Content.{IsNamed};
ghost use Rattle.nq_kernel.specs.Growing.{LineStands, WorkGrows, WorkStands};
ghost use Rattle.nq_lines.specs.Instances.{ArePairsIn};
ghost use Rattle.nq_lines.specs.Lines.{IsTermIn};
ghost use Rattle.nq_replay.specs.Uncounted.{GrowsUncounted};

use crate::laws::{KindLaw, kind_table};
use crate::rows::{argument, pairs_of_three};
use crate::truths::truth_value;
use nq_bank::{Bank, Sym, TermId, ground};
use nq_clause::Pair;
use nq_division_laws::{DivisionLaw, division_line};
use nq_history::History;
use nq_kernel::{Stop, Work};
use nq_lines::{cut, true_or_false};
use nq_number_laws::{InductiveLaw, PlainLaw, inductive_line, plain_line};
use nq_replay::replay;
use std::alloc::AllocError;

/// A law of what the values of a function are.
#[derive(Clone, Copy, Debug, PartialEq, Eq)]
enum Law {
    /// From axioms alone.
    Plain(PlainLaw),
    /// By induction.
    Inductive(InductiveLaw),
    /// Of remainders.
    Division(DivisionLaw),
    /// Of MAX and NEGATIVE-GUTS.
    Kind(KindLaw),
}

/// The law that the values of a function are numbers, which stands in no other crate.
fn kind_law(bank: &Bank, f: Sym) -> Option<Law>
    requires { IsNamed bank.now f }
{
    if bank.is_ground(f, ground::MAX) {
        Some(Law::Kind(KindLaw::LargerIsNumber))
    } else if bank.is_ground(f, ground::NEGATIVE_GUTS) {
        Some(Law::Kind(KindLaw::GutsAreNumber))
    } else {
        None
    }
}

/// The law that the values of a function are numbers, from axioms alone.
fn plain_law(bank: &Bank, f: Sym) -> Option<Law>
    requires { IsNamed bank.now f }
{
    if bank.is_ground(f, ground::COUNT) {
        Some(Law::Plain(PlainLaw::SizeIsNumber))
    } else if bank.is_ground(f, ground::PLUS) {
        Some(Law::Plain(PlainLaw::SumIsNumber))
    } else if bank.is_ground(f, ground::QUOTIENT) {
        Some(Law::Plain(PlainLaw::QuotientIsNumber))
    } else if bank.is_ground(f, ground::SUB1) {
        Some(Law::Plain(PlainLaw::OneLessIsNumber))
    } else if bank.is_ground(f, ground::FIX) {
        Some(Law::Plain(PlainLaw::FixIsNumber))
    } else {
        kind_law(bank, f)
    }
}

/// The law that the values of a function are numbers.
fn number_law(bank: &Bank, f: Sym) -> Option<Law>
    requires { IsNamed bank.now f }
{
    if bank.is_ground(f, ground::TIMES) {
        Some(Law::Inductive(InductiveLaw::ProductIsNumber))
    } else if bank.is_ground(f, ground::DIFFERENCE) {
        Some(Law::Inductive(InductiveLaw::DifferenceIsNumber))
    } else if bank.is_ground(f, ground::REMAINDER) {
        Some(Law::Division(DivisionLaw::RemainderIsNumber))
    } else {
        plain_law(bank, f)
    }
}

/// Adds the line of a law of MAX or NEGATIVE-GUTS, uncounted.
fn kind_line(work: &mut Work, history: &History, law: KindLaw) -> Result<u64, AllocError>
    requires stands { WorkStands history.now work.old }
    ensures line { IfOk result (LineStands work.new) }
    ensures grows { GrowsUncounted history.now work.old work.new }
{
    let table = kind_table(law);
    replay(work, history, table, &[])
}

/// Adds the line of a law, uncounted.
fn uncounted_line(work: &mut Work, history: &History, law: Law) -> Result<u64, AllocError>
    requires stands { WorkStands history.now work.old }
    ensures line { IfOk result (LineStands work.new) }
    ensures grows { GrowsUncounted history.now work.old work.new }
{
    match law {
        Law::Plain(plain) => plain_line(work, history, plain),
        Law::Inductive(inductive) => inductive_line(work, history, inductive),
        Law::Division(division) => division_line(work, history, division),
        Law::Kind(kind) => kind_line(work, history, kind),
    }
}

/// Adds the line of a law.
fn law_line(work: &mut Work, history: &History, law: Law) -> Result<u64, Stop>
    requires stands { WorkStands history.now work.old }
    ensures line { IfOk result (LineStands work.new) }
    ensures grows { WorkGrows history.now work.old work.new }
    ensures memory { result ≡ Err Stop.OutOfSteps → ⊥ }
{
    match uncounted_line(work, history, law) {
        Ok(line) => Ok(line),
        Err(_) => Err(Stop::Memory),
    }
}

/// Adds the line of a law, with two terms for X and Y.
fn law_at(
    work: &mut Work,
    history: &History,
    law: Law,
    a: TermId,
    b: TermId,
) -> Result<Option<u64>, Stop>
    requires stands { WorkStands history.now work.old }
    requires left { IsTermIn history.now work.old a }
    requires right { IsTermIn history.now work.old b }
    ensures line { IfOk result (λ found. IfSome found (LineStands work.new)) }
    ensures grows { WorkGrows history.now work.old work.new }
    ensures out { result ≡ Err Stop.OutOfSteps → work.new.counter.used ≡ work.new.counter.limit }
{
    let pairs = pairs_of_three(work, history, a, b, b)?;
    let line = law_line(work, history, law)?;
    instance_of(work, history, line, pairs)
}

/// Adds an instance of a line.
pub fn instance_of(
    work: &mut Work,
    history: &History,
    line: u64,
    pairs: Vec<Pair>,
) -> Result<Option<u64>, Stop>
    requires stands { WorkStands history.now work.old }
    requires line { LineStands work.old line }
    requires pairs { ArePairsIn history.now work.old pairs.items }
    ensures line { IfOk result (λ found. IfSome found (LineStands work.new)) }
    ensures grows { WorkGrows history.now work.old work.new }
    ensures out { result ≡ Err Stop.OutOfSteps → work.new.counter.used ≡ work.new.counter.limit }
{
    let found = work.instance(history, line, pairs)?;
    Ok(Some(found))
}

/// Adds the line of a law at the first argument of a call, and at the second or again at the first.
fn law_of_first(
    work: &mut Work,
    history: &History,
    law: Law,
    a: TermId,
    t: TermId,
) -> Result<Option<u64>, Stop>
    requires stands { WorkStands history.now work.old }
    requires first { IsTermIn history.now work.old a }
    requires term { IsTermIn history.now work.old t }
    ensures line { IfOk result (λ found. IfSome found (LineStands work.new)) }
    ensures grows { WorkGrows history.now work.old work.new }
    ensures out { result ≡ Err Stop.OutOfSteps → work.new.counter.used ≡ work.new.counter.limit }
{
    match argument(work, history, t, 1) {
        Some(b) => law_at(work, history, law, a, b),
        None => law_at(work, history, law, a, a),
    }
}

/// Adds the line of a law of a function of one or two arguments, at those of a call.
fn law_of_call(work: &mut Work, history: &History, law: Law, t: TermId) -> Result<Option<u64>, Stop>
    requires stands { WorkStands history.now work.old }
    requires term { IsTermIn history.now work.old t }
    ensures line { IfOk result (λ found. IfSome found (LineStands work.new)) }
    ensures grows { WorkGrows history.now work.old work.new }
    ensures out { result ≡ Err Stop.OutOfSteps → work.new.counter.used ≡ work.new.counter.limit }
{
    match argument(work, history, t, 0) {
        Some(a) => law_of_first(work, history, law, a, t),
        None => Ok(None),
    }
}

/// Adds the line that a call of LESSP is T or F.
fn less_line(work: &mut Work, history: &History, t: TermId) -> Result<Option<u64>, Stop>
    requires stands { WorkStands history.now work.old }
    requires term { IsTermIn history.now work.old t }
    ensures line { IfOk result (λ found. IfSome found (LineStands work.new)) }
    ensures grows { WorkGrows history.now work.old work.new }
    ensures out { result ≡ Err Stop.OutOfSteps → work.new.counter.used ≡ work.new.counter.limit }
{
    match law_of_call(work, history, Law::Inductive(InductiveLaw::LessIsTruth), t)? {
        Some(law) => less_value(work, history, t, law),
        None => Ok(None),
    }
}

/// Adds the line that a term is T or F, from one that it is T where it holds.
fn less_value(work: &mut Work, history: &History, t: TermId, law: u64) -> Result<Option<u64>, Stop>
    requires stands { WorkStands history.now work.old }
    requires term { IsTermIn history.now work.old t }
    requires law { LineStands work.old law }
    ensures line { IfOk result (λ found. IfSome found (LineStands work.new)) }
    ensures grows { WorkGrows history.now work.old work.new }
    ensures out { result ≡ Err Stop.OutOfSteps → work.new.counter.used ≡ work.new.counter.limit }
{
    let either = true_or_false(work, history, t)?;
    let line = cut(work, history, either, law, t)?;
    let told = truth_value(work, history, t, line)?;
    Ok(Some(told))
}

/// Adds the line that a call is a number, or T or F for one of LESSP, if its function is known to give these alone.
pub fn number_line(
    work: &mut Work,
    history: &History,
    f: Sym,
    t: TermId,
) -> Result<Option<u64>, Stop>
    requires stands { WorkStands history.now work.old }
    requires function { IsNamed work.old.bank f }
    requires term { IsTermIn history.now work.old t }
    ensures line { IfOk result (λ found. IfSome found (LineStands work.new)) }
    ensures grows { WorkGrows history.now work.old work.new }
    ensures out { result ≡ Err Stop.OutOfSteps → work.new.counter.used ≡ work.new.counter.limit }
{
    if work.bank.is_ground(f, ground::LESSP) {
        return less_line(work, history, t);
    }
    match number_law(&work.bank, f) {
        Some(law) => law_of_call(work, history, law, t),
        None => Ok(None),
    }
}
