//! Single rules, each tried.
ghost use Rattle.std.specs.Prelude.{◌<◌};
ghost use Rattle.nq_bank.specs.Content.{IsNamed};
ghost use Rattle.nq_bank.specs.GroundNames.{ground_count};
ghost use Rattle.nq_kernel.specs.Growing.{WorkStands};
ghost use Rattle.nq_kernel.specs.Meaning.{RuleStands};
ghost use Rattle.nq_kernel.specs.Over.{RuleIsIn};
ghost use Rattle.nq_replay.specs.Uncounted.{GrowsUncounted};

use crate::halt::Halt;
use crate::making::deny;
use crate::own::own;
use crate::shells::constructor_at;
use nq_bank::{BankFault, Sym, TermId, ground_name};
use nq_history::History;
use nq_kernel::{Rule, Work};
use nq_linear_rule::Summand;
use nq_rule::Side;

/// Adds the line of a rule, where it is allowed.
pub fn add(work: &mut Work, history: &History, rule: Rule) -> Result<u64, Halt>
    requires stands { WorkStands history.now work.old }
    requires rule { RuleStands work.old.bank rule }
    requires over { RuleIsIn work.old.bank history.now rule }
    ensures { GrowsUncounted history.now work.old work.new }
{
    let allowed = work.log.allowed(&work.bank, history, &rule)?;
    if !allowed {
        return Err(Halt::Stuck);
    }
    match work.log.add(&mut work.bank, history, rule) {
        Ok(n) => Ok(n),
        Err(BankFault::Memory) => Err(Halt::Memory),
        Err(BankFault::Deep) => Err(Halt::Stuck),
    }
}

/// Adds the line of a row under a name.
fn row(work: &mut Work, history: &History, name: Sym, row: u64, part: u64) -> Result<u64, Halt>
    requires stands { WorkStands history.now work.old }
    requires name { IsNamed work.old.bank name }
    ensures { GrowsUncounted history.now work.old work.new }
{
    add(work, history, Rule::AxiomRow(name, row, part))
}

/// Adds the line of a row of a ground function.
pub fn ground_row(work: &mut Work, history: &History, known: Sym, number: u64) -> Result<u64, Halt>
    requires stands { WorkStands history.now work.old }
    requires known { known.0 < ground_count }
    ensures { GrowsUncounted history.now work.old work.new }
{
    let name = ground_name(&work.bank, known);
    row(work, history, name, number, 0)
}

/// Adds the line of a row of the shell at a place.
pub fn shell_row(
    work: &mut Work,
    history: &History,
    shell: usize,
    number: u64,
    part: u64,
) -> Result<u64, Halt>
    requires { WorkStands history.now work.old }
    ensures { GrowsUncounted history.now work.old work.new }
{
    match constructor_at(work, history, shell) {
        Some(name) => row(work, history, name, number, part),
        None => Err(Halt::Stuck),
    }
}

/// Adds the line that is cut from two by t.
pub fn cut(
    work: &mut Work,
    history: &History,
    first: u64,
    second: u64,
    t: TermId,
) -> Result<u64, Halt>
    requires { WorkStands history.now work.old }
    ensures { GrowsUncounted history.now work.old work.new }
{
    let t = own(work, history, t)?;
    add(work, history, Rule::Cut(first, second, t))
}

/// Adds a line with t at a path of a literal, counted from 1, and then the equation of what stood there and t.
pub fn replace(
    work: &mut Work,
    history: &History,
    line: u64,
    literal: u64,
    path: &[u64],
    t: TermId,
    side: Side,
) -> Result<u64, Halt>
    requires { WorkStands history.now work.old }
    ensures { GrowsUncounted history.now work.old work.new }
{
    let t = own(work, history, t)?;
    let path = Vec::from_slice(work.bank.alloc(), path)?;
    add(work, history, Rule::Replace(line, literal, path, t, side))
}

/// Adds the line of `(EQUAL t t)`.
pub fn reflexive(work: &mut Work, history: &History, t: TermId) -> Result<u64, Halt>
    requires { WorkStands history.now work.old }
    ensures { GrowsUncounted history.now work.old work.new }
{
    let t = own(work, history, t)?;
    add(work, history, Rule::Reflexive(t))
}

/// Adds the line of the equation of a call on values and its value.
pub fn value(work: &mut Work, history: &History, t: TermId) -> Result<u64, Halt>
    requires { WorkStands history.now work.old }
    ensures { GrowsUncounted history.now work.old work.new }
{
    let t = own(work, history, t)?;
    add(work, history, Rule::Value(t))
}

/// Adds the line of two terms, the second of which is the NOT of the first.
fn opposites_of(work: &mut Work, history: &History, t: TermId, denied: TermId) -> Result<u64, Halt>
    requires { WorkStands history.now work.old }
    ensures { GrowsUncounted history.now work.old work.new }
{
    let t = own(work, history, t)?;
    let denied = own(work, history, denied)?;
    match vec![in work.bank.alloc(); t, denied] {
        Ok(terms) => add(work, history, Rule::Taut(terms)),
        Err(_) => Err(Halt::Memory),
    }
}

/// Adds the line of t and its NOT.
pub fn opposites(work: &mut Work, history: &History, t: TermId) -> Result<u64, Halt>
    requires { WorkStands history.now work.old }
    ensures { GrowsUncounted history.now work.old work.new }
{
    let denied = deny(work, history, t)?;
    opposites_of(work, history, t, denied)
}

/// Adds the line of three literals that cannot all be false, since the sum of their expressions is negative. The third is an
/// equation that is read in this order.
pub fn sum(
    work: &mut Work,
    history: &History,
    first: TermId,
    second: TermId,
    third: TermId,
    forwards: bool,
) -> Result<u64, Halt>
    requires { WorkStands history.now work.old }
    ensures { GrowsUncounted history.now work.old work.new }
{
    let first = own(work, history, first)?;
    let second = own(work, history, second)?;
    let third = own(work, history, third)?;
    let one = Summand {
        factor: 1,
        literal: first,
        forwards: true,
    };
    let two = Summand {
        factor: 1,
        literal: second,
        forwards: true,
    };
    let three = Summand {
        factor: 1,
        literal: third,
        forwards,
    };
    match vec![in work.bank.alloc(); one, two, three] {
        Ok(summands) => add(work, history, Rule::Linear(summands)),
        Err(_) => Err(Halt::Memory),
    }
}
