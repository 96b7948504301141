//! What a line says of a term, said of one that equals it: this stands in the place of the other in its recognizers.
ghost use Rattle.std.specs.Prelude.{◌≡◌, ◌≤◌, IfOk, IfSome, IsSome, IsTrue, Err, length};
ghost use Rattle.nq_logic.specs.ShellPrinciple.{shells_of};
ghost use Rattle.nq_history.specs.Events.{events_at};
ghost use Rattle.nq_kernel.specs.Growing.{LineStands, WorkGrows, WorkStands};
ghost use Rattle.nq_kernel.specs.Meaning.{RuleStands, conclusion_at};
ghost use Rattle.nq_kernel.specs.Over.{RuleIsIn};
ghost use Rattle.nq_lines.specs.Lines.{IsTermIn};

use crate::judging::recognizes;
use nq_bank::TermId;
use nq_history::History;
use nq_kernel::{Rule, Stop, Work};
use nq_lines::{cut, equate, one_place};
use nq_rule::Side;

/// Is a rule allowed?
fn is_allowed(work: &Work, history: &History, rule: &Rule) -> Result<bool, Stop>
    requires stands { WorkStands history.now work.now }
    requires rule { RuleStands work.now.bank rule.now }
    ensures allowed { IfOk result (λ b. IsTrue b → IsSome (conclusion_at work.now.bank history.now work.now.log rule.now)) }
    ensures memory { result ≡ Err Stop.OutOfSteps → ⊥ }
{
    match work.log.allowed(&work.bank, history, rule) {
        Ok(found) => Ok(found),
        Err(_) => Err(Stop::Memory),
    }
}

/// Adds the line of a rule that is allowed.
fn added(work: &mut Work, history: &History, rule: Rule) -> Result<Option<u64>, Stop>
    requires stands { WorkStands history.now work.old }
    requires rule { RuleStands work.old.bank rule }
    requires over { RuleIsIn work.old.bank history.now rule }
    requires allowed { IsSome (conclusion_at work.old.bank history.now work.old.log rule) }
    ensures line { IfOk result (λ found. IfSome found (LineStands work.new)) }
    ensures grows { WorkGrows history.now work.old work.new }
    ensures out { result ≡ Err Stop.OutOfSteps → work.new.counter.used ≡ work.new.counter.limit }
{
    let n = work.add(history, rule)?;
    Ok(Some(n))
}

/// Adds a line with a term in the place at a path of a literal of another, if it has such a place, under the equation of this term
/// and what stood there.
fn replaced(
    work: &mut Work,
    history: &History,
    line: u64,
    literal: u64,
    path: Vec<u64>,
    t: TermId,
) -> Result<Option<u64>, Stop>
    requires stands { WorkStands history.now work.old }
    requires term { IsTermIn history.now work.old t }
    ensures line { IfOk result (λ found. IfSome found (LineStands work.new)) }
    ensures grows { WorkGrows history.now work.old work.new }
    ensures out { result ≡ Err Stop.OutOfSteps → work.new.counter.used ≡ work.new.counter.limit }
{
    let rule = Rule::Replace(line, literal, path, t, Side::Backwards);
    if is_allowed(work, history, &rule)? {
        added(work, history, rule)
    } else {
        Ok(None)
    }
}

/// Does a literal of a line, counted from 1, recognize a term?
fn recognizes_there(work: &Work, history: &History, line: u64, literal: usize, v: TermId) -> bool
    requires stands { WorkStands history.now work.now }
    requires line { LineStands work.now line }
    requires room { length (shells_of (events_at work.now.bank history.now)) ≤ 61 }
    requires literal { 1 ≤ literal }
{
    let literals = work.log.clause_over(&work.bank, line);
    let place = literal - 1;
    if place < literals.len() {
        recognizes(&work.bank, history, literals[place], v)
    } else {
        false
    }
}

/// Adds a line with t in the place of v in a literal of another, counted from 1, where that recognizes v; the other line else.
fn said_there(
    work: &mut Work,
    history: &History,
    t: TermId,
    v: TermId,
    literal: usize,
    line: u64,
) -> Result<u64, Stop>
    requires stands { WorkStands history.now work.old }
    requires room { length (shells_of (events_at work.old.bank history.now)) ≤ 61 }
    requires term { IsTermIn history.now work.old t }
    requires line { LineStands work.old line }
    requires literal { 1 ≤ literal }
    ensures line { IfOk result (LineStands work.new) }
    ensures grows { WorkGrows history.now work.old work.new }
    ensures out { result ≡ Err Stop.OutOfSteps → work.new.counter.used ≡ work.new.counter.limit }
{
    if !recognizes_there(work, history, line, literal, v) {
        return Ok(line);
    }
    let path = one_place(work.bank.alloc(), 1)?;
    match replaced(work, history, line, literal as u64, path, t)? {
        Some(found) => Ok(found),
        None => Ok(line),
    }
}

/// Adds a line with t in the place of v in each literal of another that recognizes v, from the last to the first, under the equation
/// of the two.
fn said_everywhere(
    work: &mut Work,
    history: &History,
    t: TermId,
    v: TermId,
    line: u64,
) -> Result<u64, Stop>
    requires stands { WorkStands history.now work.old }
    requires room { length (shells_of (events_at work.old.bank history.now)) ≤ 61 }
    requires term { IsTermIn history.now work.old t }
    requires line { LineStands work.old line }
    ensures line { IfOk result (LineStands work.new) }
    ensures grows { WorkGrows history.now work.old work.new }
    ensures out { result ≡ Err Stop.OutOfSteps → work.new.counter.used ≡ work.new.counter.limit }
{
    let count = work.log.clause_over(&work.bank, line).len();
    let mut said = line;
    for done in 0..count {
        said = said_there(work, history, t, v, count - done, said)?;
    }
    Ok(said)
}

/// Adds a line that says of t what another says of v, by a line that t equals v.
pub fn carried(
    work: &mut Work,
    history: &History,
    t: TermId,
    v: TermId,
    equation: u64,
    line: u64,
) -> Result<u64, Stop>
    requires stands { WorkStands history.now work.old }
    requires room { length (shells_of (events_at work.old.bank history.now)) ≤ 61 }
    requires left { IsTermIn history.now work.old t }
    requires right { IsTermIn history.now work.old v }
    requires equation { LineStands work.old equation }
    requires line { LineStands work.old line }
    ensures line { IfOk result (LineStands work.new) }
    ensures grows { WorkGrows history.now work.old work.new }
    ensures out { result ≡ Err Stop.OutOfSteps → work.new.counter.used ≡ work.new.counter.limit }
{
    let said = said_everywhere(work, history, t, v, line)?;
    let e = equate(work, history, t, v)?;
    cut(work, history, equation, said, e)
}
