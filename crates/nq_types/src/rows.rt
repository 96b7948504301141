//! Rows of the tables of axioms at terms.
ghost use Rattle.std.specs.Prelude.{◌≡◌, ◌∷◌, [], IfOk, IfSome, IsSome, IsTrue, Err, codes};
ghost use Rattle.nq_bank.specs.Content.{IsNamed, term_at, text_at};
ghost use Rattle.nq_clause.specs.Substitution.{substitution_at};
ghost use Rattle.nq_history.specs.Events.{events_at};
ghost use Rattle.nq_proof.specs.Rows.{axiom_clause};
ghost use Rattle.nq_kernel.specs.Growing.{LineStands, WorkGrows, WorkStands};
ghost use Rattle.nq_lines.specs.Instances.{ArePairsIn};
ghost use Rattle.nq_lines.specs.Lines.{IsTermIn};

use crate::constants::pair_of_x;
use nq_bank::{Sym, TermId, ground, ground_name};
use nq_clause::Pair;
use nq_history::History;
use nq_kernel::{Rule, Stop, Work};
use nq_lines::{axiom_row, symbol};

/// The argument of a call at a place, counted from 0.
pub fn argument(work: &Work, history: &History, t: TermId, place: usize) -> Option<TermId>
    requires stands { WorkStands history.now work.now }
    requires term { IsTermIn history.now work.now t }
    ensures { IfSome result (IsTermIn history.now work.now) }
{
    let arguments = work.bank.args(t);
    if place < arguments.len() {
        Some(arguments[place])
    } else {
        None
    }
}

/// Is there this row of a name in the tables of axioms?
fn has_row(work: &Work, history: &History, name: Sym, row: u64, part: u64) -> Result<bool, Stop>
    requires stands { WorkStands history.now work.now }
    requires name { IsNamed work.now.bank name }
    ensures row { IfOk result (λ b. IsTrue b → IsSome (axiom_clause (events_at work.now.bank history.now) (text_at work.now.bank name) row part)) }
    ensures memory { result ≡ Err Stop.OutOfSteps → ⊥ }
{
    let rule = Rule::AxiomRow(name, row, part);
    match work.log.allowed(&work.bank, history, &rule) {
        Ok(found) => Ok(found),
        Err(_) => Err(Stop::Memory),
    }
}

/// Adds an instance of a row, with these pairs, if there is one.
pub fn instance_of_row(
    work: &mut Work,
    history: &History,
    name: Sym,
    row: u64,
    part: u64,
    pairs: Vec<Pair>,
) -> Result<Option<u64>, Stop>
    requires stands { WorkStands history.now work.old }
    requires name { IsNamed work.old.bank name }
    requires pairs { ArePairsIn history.now work.old pairs.items }
    ensures line { IfOk result (λ found. IfSome found (LineStands work.new)) }
    ensures grows { WorkGrows history.now work.old work.new }
    ensures out { result ≡ Err Stop.OutOfSteps → work.new.counter.used ≡ work.new.counter.limit }
{
    if has_row(work, history, name, row, part)? {
        let line = axiom_row(work, history, name, row, part, pairs)?;
        Ok(Some(line))
    } else {
        Ok(None)
    }
}

/// The pairs of X, Y and Z and three terms.
pub fn pairs_of_three(
    work: &mut Work,
    history: &History,
    x: TermId,
    y: TermId,
    z: TermId,
) -> Result<Vec<Pair>, Stop>
    requires stands { WorkStands history.now work.old }
    requires first { IsTermIn history.now work.old x }
    requires second { IsTermIn history.now work.old y }
    requires third { IsTermIn history.now work.old z }
    ensures pairs { IfOk result (λ ps. substitution_at work.new.bank ps.items ≡ (codes "X", term_at work.old.bank x) ∷ (codes "Y", term_at work.old.bank y) ∷ (codes "Z", term_at work.old.bank z) ∷ []) }
    ensures over { IfOk result (λ ps. ArePairsIn history.now work.new ps.items) }
    ensures grows { WorkGrows history.now work.old work.new }
    ensures memory { result ≡ Err Stop.OutOfSteps → ⊥ }
{
    let a = symbol(work, history, b"X")?;
    let b = symbol(work, history, b"Y")?;
    let c = symbol(work, history, b"Z")?;
    let first = Pair {
        variable: a,
        term: x,
    };
    let second = Pair {
        variable: b,
        term: y,
    };
    let third = Pair {
        variable: c,
        term: z,
    };
    match vec![in work.bank.alloc(); first, second, third] {
        Ok(pairs) => Ok(pairs),
        Err(_) => Err(Stop::Memory),
    }
}

/// Adds a row of a name at this term, if there is one.
pub fn row_at(
    work: &mut Work,
    history: &History,
    name: Sym,
    row: u64,
    part: u64,
    a: TermId,
) -> Result<Option<u64>, Stop>
    requires stands { WorkStands history.now work.old }
    requires name { IsNamed work.old.bank name }
    requires argument { IsTermIn history.now work.old a }
    ensures line { IfOk result (λ found. IfSome found (LineStands work.new)) }
    ensures grows { WorkGrows history.now work.old work.new }
    ensures out { result ≡ Err Stop.OutOfSteps → work.new.counter.used ≡ work.new.counter.limit }
{
    let pairs = pair_of_x(work, history, a)?;
    instance_of_row(work, history, name, row, part, pairs)
}

/// Adds row 1 of a name at the argument of a call, if there is one.
pub fn row_at_argument(
    work: &mut Work,
    history: &History,
    name: Sym,
    t: TermId,
) -> Result<Option<u64>, Stop>
    requires stands { WorkStands history.now work.old }
    requires name { IsNamed work.old.bank name }
    requires term { IsTermIn history.now work.old t }
    ensures line { IfOk result (λ found. IfSome found (LineStands work.new)) }
    ensures grows { WorkGrows history.now work.old work.new }
    ensures out { result ≡ Err Stop.OutOfSteps → work.new.counter.used ≡ work.new.counter.limit }
{
    match argument(work, history, t, 0) {
        Some(a) => row_at(work, history, name, 1, 0, a),
        None => Ok(None),
    }
}

/// Adds the line that an equation of these terms equals T or F.
pub fn equation_row(
    work: &mut Work,
    history: &History,
    a: TermId,
    b: TermId,
) -> Result<Option<u64>, Stop>
    requires stands { WorkStands history.now work.old }
    requires left { IsTermIn history.now work.old a }
    requires right { IsTermIn history.now work.old b }
    ensures line { IfOk result (λ found. IfSome found (LineStands work.new)) }
    ensures grows { WorkGrows history.now work.old work.new }
    ensures out { result ≡ Err Stop.OutOfSteps → work.new.counter.used ≡ work.new.counter.limit }
{
    let pairs = pairs_of_three(work, history, a, b, b)?;
    let name = ground_name(&work.bank, ground::EQUAL);
    instance_of_row(work, history, name, 1, 0, pairs)
}
