//! The row of a shell that says that an object is made of its parts, about a variable, as a line.
ghost use Rattle.std.specs.Prelude.{◌≡◌, All, IfOk, IfSome, IsSome, IsTrue, Err};
ghost use Rattle.nq_bank.specs.Content.{IsNamed, text_at};
ghost use Rattle.nq_history.specs.Events.{events_at};
ghost use Rattle.nq_proof.specs.Rows.{axiom_clause};
ghost use Rattle.nq_kernel.specs.Growing.{WorkGrows, WorkStands};
ghost use Rattle.nq_lines.specs.Instances.{ArePairsIn};
ghost use Rattle.nq_lines.specs.Lines.{IsTermIn};
ghost use Rattle.nq_lines.specs.OwnTerms.{HasOwnTerms};
ghost use Rattle.nq_reduce.specs.Clauses.{AreLiterals, LineIsIn};

use nq_bank::{Sym, TermId};
use nq_clause::Pair;
use nq_history::History;
use nq_kernel::{Rule, Stop, Work};
use nq_lines::{match_pairs, row_line, sides_of};

/// The row that says that an object is made of its parts.
const MADE_OF_PARTS: u64 = 5;

/// The constructor of the shell at a place.
fn constructor_at(work: &Work, history: &History, place: usize) -> Option<Sym>
    requires { WorkStands history.now work.now }
    ensures { IfSome result (IsNamed work.now.bank) }
{
    let shells = history.shells();
    let _ = work.bank.alloc();
    if place < shells.len() {
        Some(shells[place].constructor)
    } else {
        None
    }
}

/// Is there such a row of a name?
fn has_row(work: &Work, history: &History, name: Sym) -> Result<bool, Stop>
    requires stands { WorkStands history.now work.now }
    requires name { IsNamed work.now.bank name }
    ensures row { IfOk result (λ b. IsTrue b → IsSome (axiom_clause (events_at work.now.bank history.now) (text_at work.now.bank name) MADE_OF_PARTS 0)) }
    ensures memory { result ≡ Err Stop.OutOfSteps → ⊥ }
{
    let rule = Rule::AxiomRow(name, MADE_OF_PARTS, 0);
    match work.log.allowed(&work.bank, history, &rule) {
        Ok(found) => Ok(found),
        Err(_) => Err(Stop::Memory),
    }
}

/// Adds the line of the row of a name, which is there.
fn found_row(work: &mut Work, history: &History, name: Sym) -> Result<u64, Stop>
    requires stands { WorkStands history.now work.old }
    requires ready { HasOwnTerms (events_at work.old.bank history.now) }
    requires name { IsNamed work.old.bank name }
    requires axiom { IsSome (axiom_clause (events_at work.old.bank history.now) (text_at work.old.bank name) MADE_OF_PARTS 0) }
    ensures line { IfOk result (LineIsIn history.now work.new) }
    ensures grows { WorkGrows history.now work.old work.new }
    ensures out { result ≡ Err Stop.OutOfSteps → work.new.counter.used ≡ work.new.counter.limit }
{
    row_line(work, history, name, MADE_OF_PARTS, 0)
}

/// The literals of a line.
pub fn literals_of(work: &Work, history: &History, line: u64) -> Result<Vec<TermId>, Stop>
    requires stands { WorkStands history.now work.now }
    requires line { LineIsIn history.now work.now line }
    ensures literals { IfOk result (λ ids. AreLiterals history.now work.now line ids.items) }
    ensures memory { result ≡ Err Stop.OutOfSteps → ⊥ }
{
    let literals = work.log.clause_over(&work.bank, line);
    match Vec::from_slice(work.bank.alloc(), literals) {
        Ok(ids) => Ok(ids),
        Err(_) => Err(Stop::Memory),
    }
}

/// The last of some literals.
fn last_of(work: &Work, history: &History, literals: &[TermId]) -> Option<TermId>
    requires { All (IsTermIn history.now work.now) literals.now }
    ensures { IfSome result (IsTermIn history.now work.now) }
{
    let _ = (history.len(), work.bank.alloc());
    let count = literals.len();
    if count == 0 {
        return None;
    }
    Some(literals[count - 1])
}

/// The right side of the last literal of a line.
fn last_side(work: &Work, history: &History, line: u64) -> Result<Option<TermId>, Stop>
    requires stands { WorkStands history.now work.now }
    requires line { LineIsIn history.now work.now line }
    ensures side { IfOk result (λ found. IfSome found (IsTermIn history.now work.now)) }
    ensures memory { result ≡ Err Stop.OutOfSteps → ⊥ }
{
    let literals = literals_of(work, history, line)?;
    Ok(last_right(work, history, literals.as_slice()))
}

/// The same, of these literals.
fn last_right(work: &Work, history: &History, literals: &[TermId]) -> Option<TermId>
    requires stands { WorkStands history.now work.now }
    requires literals { All (IsTermIn history.now work.now) literals.now }
    ensures { IfSome result (IsTermIn history.now work.now) }
{
    let last = last_of(work, history, literals)?;
    let sides = sides_of(work, history, last)?;
    Some(sides.right)
}

/// Adds an instance of a line.
fn instance_line(
    work: &mut Work,
    history: &History,
    line: u64,
    pairs: Vec<Pair>,
) -> Result<u64, Stop>
    requires stands { WorkStands history.now work.old }
    requires line { LineIsIn history.now work.old line }
    requires pairs { ArePairsIn history.now work.old pairs.items }
    ensures line { IfOk result (LineIsIn history.now work.new) }
    ensures grows { WorkGrows history.now work.old work.new }
    ensures out { result ≡ Err Stop.OutOfSteps → work.new.counter.used ≡ work.new.counter.limit }
{
    work.find_instance(history, line, pairs)
}

/// Adds the instance of a line that has a term in the place of a variable.
fn line_with(
    work: &mut Work,
    history: &History,
    line: u64,
    variable: TermId,
    t: TermId,
) -> Result<Option<u64>, Stop>
    requires stands { WorkStands history.now work.old }
    requires line { LineIsIn history.now work.old line }
    requires variable { IsTermIn history.now work.old variable }
    requires term { IsTermIn history.now work.old t }
    ensures line { IfOk result (λ found. IfSome found (LineIsIn history.now work.new)) }
    ensures grows { WorkGrows history.now work.old work.new }
    ensures out { result ≡ Err Stop.OutOfSteps → work.new.counter.used ≡ work.new.counter.limit }
{
    match match_pairs(work, history, variable, t)? {
        Some(pairs) => {
            let made = instance_line(work, history, line, pairs)?;
            Ok(Some(made))
        }
        None => Ok(None),
    }
}

/// Adds the instance of a line about a term, in the place of the right side of its last literal.
fn line_about(work: &mut Work, history: &History, line: u64, t: TermId) -> Result<Option<u64>, Stop>
    requires stands { WorkStands history.now work.old }
    requires line { LineIsIn history.now work.old line }
    requires term { IsTermIn history.now work.old t }
    ensures line { IfOk result (λ found. IfSome found (LineIsIn history.now work.new)) }
    ensures grows { WorkGrows history.now work.old work.new }
    ensures out { result ≡ Err Stop.OutOfSteps → work.new.counter.used ≡ work.new.counter.limit }
{
    match last_side(work, history, line)? {
        Some(variable) => line_with(work, history, line, variable, t),
        None => Ok(None),
    }
}

/// Adds the row of a constructor about a term.
fn row_about(work: &mut Work, history: &History, name: Sym, t: TermId) -> Result<Option<u64>, Stop>
    requires stands { WorkStands history.now work.old }
    requires ready { HasOwnTerms (events_at work.old.bank history.now) }
    requires name { IsNamed work.old.bank name }
    requires term { IsTermIn history.now work.old t }
    ensures line { IfOk result (λ found. IfSome found (LineIsIn history.now work.new)) }
    ensures grows { WorkGrows history.now work.old work.new }
    ensures out { result ≡ Err Stop.OutOfSteps → work.new.counter.used ≡ work.new.counter.limit }
{
    if has_row(work, history, name)? {
        let line = found_row(work, history, name)?;
        line_about(work, history, line, t)
    } else {
        Ok(None)
    }
}

/// Adds the line that says that a term is made of its parts, if it is an object of the shell at a place.
pub fn shell_line(
    work: &mut Work,
    history: &History,
    place: usize,
    t: TermId,
) -> Result<Option<u64>, Stop>
    requires stands { WorkStands history.now work.old }
    requires ready { HasOwnTerms (events_at work.old.bank history.now) }
    requires term { IsTermIn history.now work.old t }
    ensures line { IfOk result (λ found. IfSome found (LineIsIn history.now work.new)) }
    ensures grows { WorkGrows history.now work.old work.new }
    ensures out { result ≡ Err Stop.OutOfSteps → work.new.counter.used ≡ work.new.counter.limit }
{
    match constructor_at(work, history, place) {
        Some(name) => row_about(work, history, name, t),
        None => Ok(None),
    }
}
