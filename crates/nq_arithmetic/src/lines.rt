//! The lines of laws.
ghost use Rattle.std.specs.Prelude.{◌≡◌, IfOk, Err};
ghost use Rattle.nq_kernel.specs.Growing.{LineStands, WorkGrows, WorkStands};
ghost use Rattle.nq_lines.specs.Instances.{ArePairsIn};
ghost use Rattle.nq_replay.specs.Uncounted.{GrowsUncounted};
ghost use Rattle.nq_arithmetic.specs.Claims.{AreOperandsIn};

use crate::reading::Operands;
use crate::template::ArithmeticLaw;
use nq_clause::Pair;
use nq_division_laws::division_line;
use nq_history::History;
use nq_kernel::{Stop, Work};
use nq_lines::symbol;
use nq_number_laws::{inductive_line, plain_line};
use nq_replay::{first_is_smaller, implication_opens, pair_holds, rest_is_smaller};
use std::alloc::AllocError;

/// Adds the line of a law, uncounted.
fn uncounted_line(work: &mut Work, history: &History, law: ArithmeticLaw) -> Result<u64, AllocError>
    requires stands { WorkStands history.now work.old }
    ensures line { IfOk result (λ n. LineStands work.new n) }
    ensures grows { GrowsUncounted history.now work.old work.new }
{
    match law {
        ArithmeticLaw::Plain(plain) => plain_line(work, history, plain),
        ArithmeticLaw::Inductive(inductive) => inductive_line(work, history, inductive),
        ArithmeticLaw::Division(division) => division_line(work, history, division),
        ArithmeticLaw::FirstIsSmaller => first_is_smaller(work, history),
        ArithmeticLaw::RestIsSmaller => rest_is_smaller(work, history),
        ArithmeticLaw::ImplicationOpens => implication_opens(work, history),
        ArithmeticLaw::PairHolds => pair_holds(work, history),
    }
}

/// The key under which the line of a law is kept.
fn key_of(law: ArithmeticLaw) -> u64 {
    match law {
        ArithmeticLaw::Plain(plain) => (plain as u64).wrapping_add(0x100),
        ArithmeticLaw::Inductive(inductive) => (inductive as u64).wrapping_add(0x200),
        ArithmeticLaw::Division(division) => (division as u64).wrapping_add(0x300),
        ArithmeticLaw::FirstIsSmaller => 0x400,
        ArithmeticLaw::RestIsSmaller => 0x401,
        ArithmeticLaw::ImplicationOpens => 0x402,
        ArithmeticLaw::PairHolds => 0x403,
    }
}

/// Adds the line of a law, and keeps it.
fn kept_line(work: &mut Work, history: &History, law: ArithmeticLaw) -> Result<u64, Stop>
    requires stands { WorkStands history.now work.old }
    ensures line { IfOk result (λ n. LineStands work.new n) }
    ensures grows { WorkGrows history.now work.old work.new }
    ensures memory { result ≡ Err Stop.OutOfSteps → ⊥ }
{
    match uncounted_line(work, history, law) {
        Ok(line) => {
            work.keep(key_of(law), line);
            Ok(line)
        }
        Err(_) => Err(Stop::Memory),
    }
}

/// The line of a law: the one that is kept, or else a new one.
fn law_line(work: &mut Work, history: &History, law: ArithmeticLaw) -> Result<u64, Stop>
    requires stands { WorkStands history.now work.old }
    ensures line { IfOk result (λ n. LineStands work.new n) }
    ensures grows { WorkGrows history.now work.old work.new }
    ensures memory { result ≡ Err Stop.OutOfSteps → ⊥ }
{
    match work.kept(key_of(law)) {
        Some(line) => Ok(line),
        None => kept_line(work, history, law),
    }
}

/// The pairs of X and Y and two terms.
fn pairs_of(work: &mut Work, history: &History, at: Operands) -> Result<Vec<Pair>, Stop>
    requires stands { WorkStands history.now work.old }
    requires at { AreOperandsIn history.now work.old at }
    ensures pairs { IfOk result (λ ps. ArePairsIn history.now work.new ps.items) }
    ensures grows { WorkGrows history.now work.old work.new }
    ensures memory { result ≡ Err Stop.OutOfSteps → ⊥ }
{
    let x = symbol(work, history, b"X")?;
    let y = symbol(work, history, b"Y")?;
    let z = symbol(work, history, b"Z")?;
    let first = Pair {
        variable: x,
        term: at.first,
    };
    let second = Pair {
        variable: y,
        term: at.second,
    };
    let third = Pair {
        variable: z,
        term: at.second,
    };
    match vec![in work.bank.alloc(); first, second, third] {
        Ok(pairs) => Ok(pairs),
        Err(_) => Err(Stop::Memory),
    }
}

/// Adds an instance of a line.
fn instance_of(work: &mut Work, history: &History, line: u64, pairs: Vec<Pair>) -> Result<u64, Stop>
    requires stands { WorkStands history.now work.old }
    requires line { LineStands work.old line }
    requires pairs { ArePairsIn history.now work.old pairs.items }
    ensures line { IfOk result (λ n. LineStands work.new n) }
    ensures grows { WorkGrows history.now work.old work.new }
    ensures out { result ≡ Err Stop.OutOfSteps → work.new.counter.used ≡ work.new.counter.limit }
{
    work.find_instance(history, line, pairs)
}

/// Adds the line of a law, with two terms for X and Y.
pub fn law_at(
    work: &mut Work,
    history: &History,
    law: ArithmeticLaw,
    at: Operands,
) -> Result<u64, Stop>
    requires stands { WorkStands history.now work.old }
    requires at { AreOperandsIn history.now work.old at }
    ensures line { IfOk result (λ n. LineStands work.new n) }
    ensures grows { WorkGrows history.now work.old work.new }
    ensures out { result ≡ Err Stop.OutOfSteps → work.new.counter.used ≡ work.new.counter.limit }
{
    let pairs = pairs_of(work, history, at)?;
    law_with(work, history, law, pairs)
}

/// Adds the line of a law, with these terms for its variables.
pub fn law_with(
    work: &mut Work,
    history: &History,
    law: ArithmeticLaw,
    pairs: Vec<Pair>,
) -> Result<u64, Stop>
    requires stands { WorkStands history.now work.old }
    requires pairs { ArePairsIn history.now work.old pairs.items }
    ensures line { IfOk result (λ n. LineStands work.new n) }
    ensures grows { WorkGrows history.now work.old work.new }
    ensures out { result ≡ Err Stop.OutOfSteps → work.new.counter.used ≡ work.new.counter.limit }
{
    let line = law_line(work, history, law)?;
    instance_of(work, history, line, pairs)
}
