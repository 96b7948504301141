//! Rows of the tables of axioms, and their instances about a term at hand, as lines of several literals.
ghost use Rattle.std.specs.Prelude.{◌≡◌, All, IfOk, IfSome, IsSome, IsTrue, Err};
ghost use Rattle.nq_bank.specs.Content.{IsNamed, text_at};
ghost use Rattle.nq_history.specs.Events.{events_at};
ghost use Rattle.nq_proof.specs.Rows.{axiom_clause};
ghost use Rattle.nq_kernel.specs.Growing.{WorkGrows, WorkStands};
ghost use Rattle.nq_lines.specs.Instances.{ArePairsIn};
ghost use Rattle.nq_lines.specs.Lines.{IsTermIn};
ghost use Rattle.nq_lines.specs.OwnTerms.{HasOwnTerms};
ghost use Rattle.nq_reduce.specs.Clauses.{AreLiterals, LineIsIn};

use nq_bank::{Sym, TermId};
use nq_clause::Pair;
use nq_history::History;
use nq_kernel::{Rule, Stop, Work};
use nq_lines::{match_pairs, row_line};
use nq_rules::left_side;

/// Is there such a row of a name in the tables of axioms?
fn has_row(work: &Work, history: &History, name: Sym, row: u64, part: u64) -> Result<bool, Stop>
    requires stands { WorkStands history.now work.now }
    requires name { IsNamed work.now.bank name }
    ensures row { IfOk result (λ b. IsTrue b → IsSome (axiom_clause (events_at work.now.bank history.now) (text_at work.now.bank name) row part)) }
    ensures memory { result ≡ Err Stop.OutOfSteps → ⊥ }
{
    let rule = Rule::AxiomRow(name, row, part);
    match work.log.allowed(&work.bank, history, &rule) {
        Ok(found) => Ok(found),
        Err(_) => Err(Stop::Memory),
    }
}

/// Adds the line of a row of the tables of axioms, if there is such a row.
pub fn row_of(
    work: &mut Work,
    history: &History,
    name: Sym,
    row: u64,
    part: u64,
) -> Result<Option<u64>, Stop>
    requires stands { WorkStands history.now work.old }
    requires ready { HasOwnTerms (events_at work.old.bank history.now) }
    requires name { IsNamed work.old.bank name }
    ensures line { IfOk result (λ found. IfSome found (LineIsIn history.now work.new)) }
    ensures grows { WorkGrows history.now work.old work.new }
    ensures out { result ≡ Err Stop.OutOfSteps → work.new.counter.used ≡ work.new.counter.limit }
{
    if has_row(work, history, name, row, part)? {
        found_row(work, history, name, row, part)
    } else {
        Ok(None)
    }
}

/// The same, where there is such a row.
fn found_row(
    work: &mut Work,
    history: &History,
    name: Sym,
    row: u64,
    part: u64,
) -> Result<Option<u64>, Stop>
    requires stands { WorkStands history.now work.old }
    requires ready { HasOwnTerms (events_at work.old.bank history.now) }
    requires name { IsNamed work.old.bank name }
    requires axiom { IsSome (axiom_clause (events_at work.old.bank history.now) (text_at work.old.bank name) row part) }
    ensures line { IfOk result (λ found. IfSome found (LineIsIn history.now work.new)) }
    ensures grows { WorkGrows history.now work.old work.new }
    ensures out { result ≡ Err Stop.OutOfSteps → work.new.counter.used ≡ work.new.counter.limit }
{
    let line = row_line(work, history, name, row, part)?;
    Ok(Some(line))
}

/// The literals of a line.
pub fn literals_of(work: &Work, history: &History, line: u64) -> Result<Vec<TermId>, Stop>
    requires stands { WorkStands history.now work.now }
    requires line { LineIsIn history.now work.now line }
    ensures literals { IfOk result (λ ids. AreLiterals history.now work.now line ids.items) }
    ensures memory { result ≡ Err Stop.OutOfSteps → ⊥ }
{
    let literals = work.log.clause_over(&work.bank, line);
    match Vec::from_slice(work.bank.alloc(), literals) {
        Ok(ids) => Ok(ids),
        Err(_) => Err(Stop::Memory),
    }
}

/// The first of some literals.
pub fn first_of(work: &Work, history: &History, literals: &[TermId]) -> Option<TermId>
    requires { All (IsTermIn history.now work.now) literals.now }
    ensures { IfSome result (IsTermIn history.now work.now) }
{
    let _ = (history.len(), work.bank.alloc());
    if literals.is_empty() {
        return None;
    }
    Some(literals[0])
}

/// The last of some literals.
pub fn last_of(work: &Work, history: &History, literals: &[TermId]) -> Option<TermId>
    requires { All (IsTermIn history.now work.now) literals.now }
    ensures { IfSome result (IsTermIn history.now work.now) }
{
    let _ = (history.len(), work.bank.alloc());
    let count = literals.len();
    if count == 0 {
        return None;
    }
    Some(literals[count - 1])
}

/// The last literal of a line.
pub fn last_literal(work: &Work, history: &History, line: u64) -> Result<Option<TermId>, Stop>
    requires stands { WorkStands history.now work.now }
    requires line { LineIsIn history.now work.now line }
    ensures literal { IfOk result (λ found. IfSome found (IsTermIn history.now work.now)) }
    ensures memory { result ≡ Err Stop.OutOfSteps → ⊥ }
{
    let literals = literals_of(work, history, line)?;
    Ok(last_of(work, history, literals.as_slice()))
}

/// Adds the instance of a line that takes the left side of a literal to a term, if there is one.
pub fn matched_line(
    work: &mut Work,
    history: &History,
    line: u64,
    literal: TermId,
    t: TermId,
) -> Result<Option<u64>, Stop>
    requires stands { WorkStands history.now work.old }
    requires line { LineIsIn history.now work.old line }
    requires literal { IsTermIn history.now work.old literal }
    requires term { IsTermIn history.now work.old t }
    ensures line { IfOk result (λ found. IfSome found (LineIsIn history.now work.new)) }
    ensures grows { WorkGrows history.now work.old work.new }
    ensures out { result ≡ Err Stop.OutOfSteps → work.new.counter.used ≡ work.new.counter.limit }
{
    let pattern = left_side(&work.bank, literal);
    match match_pairs(work, history, pattern, t)? {
        Some(pairs) => instance_line(work, history, line, pairs),
        None => Ok(None),
    }
}

/// Adds the instance of a line.
pub fn instance_line(
    work: &mut Work,
    history: &History,
    line: u64,
    pairs: Vec<Pair>,
) -> Result<Option<u64>, Stop>
    requires stands { WorkStands history.now work.old }
    requires line { LineIsIn history.now work.old line }
    requires pairs { ArePairsIn history.now work.old pairs.items }
    ensures line { IfOk result (λ found. IfSome found (LineIsIn history.now work.new)) }
    ensures grows { WorkGrows history.now work.old work.new }
    ensures out { result ≡ Err Stop.OutOfSteps → work.new.counter.used ≡ work.new.counter.limit }
{
    let made = work.find_instance(history, line, pairs)?;
    Ok(Some(made))
}
