//! Lines that say which branch an IF is equal to.
ghost use Rattle.std.specs.Prelude.{◌≡◌, ◌∷◌, [], IfOk, Err, codes};
ghost use Rattle.nq_bank.specs.Content.{NamesText, term_at};
ghost use Rattle.nq_kernel.specs.Growing.{WorkStands, WorkGrows, LineHolds, LineStands};
ghost use Rattle.nq_lines.specs.Lines.{IsTermIn, LineHasOnly};
ghost use Rattle.nq_simplify.specs.BranchRows.{row_number, if_row, row_at, RowsStand};

use nq_bank::{Sym, TermId, ground, ground_name};
use nq_clause::Pair;
use nq_history::History;
use nq_kernel::{Rule, Stop, Work};
use nq_lines::symbol;

/// The number of the row for an IF whose test is true or false.
fn row_number(truth: bool) -> u64
    ensures { result ≡ row_number truth }
{
    if truth { 2 } else { 1 }
}

/// Adds the line of the axiom for an IF whose test is true or false.
pub fn add_if_row(work: &mut Work, history: &History, truth: bool) -> Result<u64, Stop>
    requires stands { WorkStands history.now work.old }
    ensures line { IfOk result (λ n. LineHolds work.new n (if_row truth)) }
    ensures grows { WorkGrows history.now work.old work.new }
    ensures out { result ≡ Err Stop.OutOfSteps → work.new.counter.used ≡ work.new.counter.limit }
{
    let name = ground_name(&work.bank, ground::IF);
    work.find_or_add(history, Rule::AxiomRow(name, row_number(truth), 0))
}

/// The variables of the axioms for IF.
#[derive(Clone, Copy)]
pub struct RowNames {
    /// X, which stands for the test.
    pub x: Sym,
    /// Y, which stands for the first branch.
    pub y: Sym,
    /// Z, which stands for the second branch.
    pub z: Sym,
}

/// Adds the line of the axiom for the IF of three terms.
pub fn add_row_at(
    work: &mut Work,
    history: &History,
    line: u64,
    names: RowNames,
    truth: bool,
    test: TermId,
    first: TermId,
    second: TermId,
) -> Result<u64, Stop>
    requires stands { WorkStands history.now work.old }
    requires line { LineHolds work.old line (if_row truth) }
    requires x { NamesText work.old.bank names.x (codes "X") }
    requires y { NamesText work.old.bank names.y (codes "Y") }
    requires z { NamesText work.old.bank names.z (codes "Z") }
    requires test { IsTermIn history.now work.old test }
    requires first { IsTermIn history.now work.old first }
    requires second { IsTermIn history.now work.old second }
    ensures line { IfOk result (λ n. LineHasOnly work.new n (row_at truth (term_at work.old.bank test) (term_at work.old.bank first) (term_at work.old.bank second))) }
    ensures grows { WorkGrows history.now work.old work.new }
    ensures out { result ≡ Err Stop.OutOfSteps → work.new.counter.used ≡ work.new.counter.limit }
{
    let x = Pair {
        variable: names.x,
        term: test,
    };
    let y = Pair {
        variable: names.y,
        term: first,
    };
    let z = Pair {
        variable: names.z,
        term: second,
    };
    match vec![in work.bank.alloc(); x, y, z] {
        Ok(pairs) => work.find_instance(history, line, pairs),
        Err(_) => Err(Stop::Memory),
    }
}

/// The lines of the two axioms for IF, and the variables of these.
#[derive(Clone, Copy)]
pub struct IfRows {
    /// The variables.
    pub names: RowNames,
    /// The line for a test that is true.
    pub first: u64,
    /// The line for a test that is false.
    pub second: u64,
}

/// Adds the lines of the two axioms for IF. They are made once, for all splits of an event.
pub fn add_if_rows(work: &mut Work, history: &History) -> Result<IfRows, Stop>
    requires stands { WorkStands history.now work.old }
    ensures rows { IfOk result (λ r. RowsStand work.new r) }
    ensures grows { WorkGrows history.now work.old work.new }
    ensures out { result ≡ Err Stop.OutOfSteps → work.new.counter.used ≡ work.new.counter.limit }
{
    let x = symbol(work, history, b"X")?;
    let y = symbol(work, history, b"Y")?;
    let z = symbol(work, history, b"Z")?;
    let first = add_if_row(work, history, true)?;
    let second = add_if_row(work, history, false)?;
    Ok(IfRows {
        names: RowNames { x, y, z },
        first,
        second,
    })
}
