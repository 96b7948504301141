//! IFs that are joined from their branches.
ghost use Rattle.std.specs.Prelude.{◌≡◌, ◌∷◌, ◌++◌, [], All, IfOk, Err, IsTrue, codes};
ghost use Rattle.nq_logtext.specs.Symbols.{is_symbol};
ghost use Rattle.nq_logic.specs.Words.{not_term, equal_term};
ghost use Rattle.nq_bank.specs.Content.{IsIdOf, term_at};
ghost use Rattle.nq_clause.specs.Substitution.{substitution_at, PairStands};
ghost use Rattle.nq_kernel.specs.Growing.{WorkStands, WorkGrows, LineStands};
ghost use Rattle.nq_lines.specs.Lines.{IsTermIn};
ghost use Rattle.nq_lines.specs.Instances.{ArePairsIn};
ghost use Rattle.nq_lines.specs.Branches.{AreBranchesIn, AreEquations, BranchLinesStand, HasJoined, IsIfLaw, JoinsIf, JoinsBranches, if_at, law_pairs_at};

use crate::calls::Equated;
use crate::instances::{instance, symbol};
use crate::rewriting::discharge;
use crate::rules::{cut, deny, equate};
use nq_bank::{TermId, ground, ground_name};
use nq_clause::Pair;
use nq_history::History;
use nq_kernel::{Rule, Stop, Work};
use nq_rule::{Branches, Side};

/// The lines of an IF's test and of its branches.
#[derive(Clone, Copy, Debug, PartialEq, Eq)]
pub struct BranchLines {
    /// The line of the test.
    pub test: u64,
    /// The line of the first branch, under the test.
    pub first: u64,
    /// The line of the second branch, under the NOT of the test.
    pub second: u64,
}

/// Adds the line of an IF, from a line of its first branch or the NOT of its test, and one of its second branch or its test.
pub fn join(
    work: &mut Work,
    history: &History,
    first: u64,
    second: u64,
    parts: Branches,
) -> Result<u64, Stop>
    requires stands { WorkStands history.now work.old }
    requires first { LineStands work.old first }
    requires second { LineStands work.old second }
    requires parts { AreBranchesIn history.now work.old parts }
    ensures line { IfOk result (λ n. JoinsIf work.old work.new (term_at work.old.bank parts.test) (term_at work.old.bank parts.first) (term_at work.old.bank parts.second) first second n) }
    ensures stands { IfOk result (λ n. LineStands work.new n) }
    ensures grows { WorkGrows history.now work.old work.new }
    ensures out { result ≡ Err Stop.OutOfSteps → work.new.counter.used ≡ work.new.counter.limit }
{
    work.add(history, Rule::Join(first, second, parts))
}

/// Makes an IF of its parts.
pub fn condition(work: &mut Work, history: &History, parts: Branches) -> Result<TermId, Stop>
    requires stands { WorkStands history.now work.old }
    requires parts { AreBranchesIn history.now work.old parts }
    ensures condition { IfOk result (λ t. IsIdOf work.new.bank t (if_at work.old.bank parts)) }
    ensures over { IfOk result (λ t. IsTermIn history.now work.new t) }
    ensures grows { WorkGrows history.now work.old work.new }
    ensures out { result ≡ Err Stop.OutOfSteps → work.new.counter.used ≡ work.new.counter.limit }
{
    let name = ground_name(&work.bank, ground::IF);
    work.app(history, name, &[parts.test, parts.first, parts.second])
}

/// One more pair, of the variable of a name and a term.
fn with_pair(
    work: &mut Work,
    history: &History,
    pairs: Vec<Pair>,
    name: &[u8],
    t: TermId,
) -> Result<Vec<Pair>, Stop>
    requires stands { WorkStands history.now work.old }
    requires pairs { All (PairStands work.old.bank) pairs.items }
    requires symbol { IsTrue (is_symbol name.now) }
    requires term { IsTermIn history.now work.old t }
    ensures pairs { IfOk result (λ ps. substitution_at work.new.bank ps.items ≡ substitution_at work.old.bank pairs.items ++ (name.now, term_at work.old.bank t) ∷ []) }
    ensures stand { IfOk result (λ ps. All (PairStands work.new.bank) ps.items) }
    ensures grows { WorkGrows history.now work.old work.new }
    ensures memory { result ≡ Err Stop.OutOfSteps → ⊥ }
{
    let mut more = pairs;
    let variable = symbol(work, history, name)?;
    match more.push(Pair { variable, term: t }) {
        Ok(()) => Ok(more),
        Err(_) => Err(Stop::Memory),
    }
}

/// The parts of two IFs in the place of the variables of their law.
fn law_pairs(
    work: &mut Work,
    history: &History,
    before: Branches,
    after: Branches,
) -> Result<Vec<Pair>, Stop>
    requires stands { WorkStands history.now work.old }
    requires before { AreBranchesIn history.now work.old before }
    requires after { AreBranchesIn history.now work.old after }
    ensures pairs { IfOk result (λ ps. substitution_at work.new.bank ps.items ≡ law_pairs_at work.old.bank before after) }
    ensures over { IfOk result (λ ps. ArePairsIn history.now work.new ps.items) }
    ensures grows { WorkGrows history.now work.old work.new }
    ensures memory { result ≡ Err Stop.OutOfSteps → ⊥ }
{
    let none = Vec::new(work.bank.alloc());
    let one = with_pair(work, history, none, b"P", before.test)?;
    let two = with_pair(work, history, one, b"X", before.first)?;
    let three = with_pair(work, history, two, b"Y", before.second)?;
    let four = with_pair(work, history, three, b"Q", after.test)?;
    let five = with_pair(work, history, four, b"U", after.first)?;
    with_pair(work, history, five, b"V", after.second)
}

/// The NOT of the second IF's test, and the equations of the branches, the second first.
pub fn equations(
    work: &mut Work,
    history: &History,
    before: Branches,
    after: Branches,
) -> Result<Branches, Stop>
    requires stands { WorkStands history.now work.old }
    requires before { AreBranchesIn history.now work.old before }
    requires after { AreBranchesIn history.now work.old after }
    ensures parts { IfOk result (AreEquations work.old work.new before after) }
    ensures over { IfOk result (AreBranchesIn history.now work.new) }
    ensures grows { WorkGrows history.now work.old work.new }
    ensures out { result ≡ Err Stop.OutOfSteps → work.new.counter.used ≡ work.new.counter.limit }
{
    let test = deny(work, history, after.test)?;
    let first = equate(work, history, before.second, after.second)?;
    let second = equate(work, history, before.first, after.first)?;
    Ok(Branches {
        test,
        first,
        second,
    })
}

/// The second of two IFs, and the line that the first equals it: four lines. The lines show that their tests are equal, that
/// their first branches are where the second test is assumed, and that their second branches are where its NOT is.
pub fn if_joined(
    work: &mut Work,
    history: &History,
    law: u64,
    before: Branches,
    after: Branches,
    lines: BranchLines,
) -> Result<Equated, Stop>
    requires stands { WorkStands history.now work.old }
    requires law { IsIfLaw work.old law }
    requires before { AreBranchesIn history.now work.old before }
    requires after { AreBranchesIn history.now work.old after }
    requires lines { BranchLinesStand work.old lines }
    ensures condition { IfOk result (λ r. IsIdOf work.new.bank r.term (if_at work.old.bank after)) }
    ensures over { IfOk result (λ r. IsTermIn history.now work.new r.term) }
    ensures line { IfOk result (λ r. JoinsBranches work.old work.new before after lines r.line) }
    ensures stands { IfOk result (λ r. LineStands work.new r.line) }
    ensures grows { WorkGrows history.now work.old work.new }
    ensures out { result ≡ Err Stop.OutOfSteps → work.new.counter.used ≡ work.new.counter.limit }
{
    let line = joined_line(work, history, law, before, after, lines)?;
    let term = condition(work, history, after)?;
    Ok(Equated { term, line })
}

/// The line of `if_joined`.
fn joined_line(
    work: &mut Work,
    history: &History,
    law: u64,
    before: Branches,
    after: Branches,
    lines: BranchLines,
) -> Result<u64, Stop>
    requires stands { WorkStands history.now work.old }
    requires law { IsIfLaw work.old law }
    requires before { AreBranchesIn history.now work.old before }
    requires after { AreBranchesIn history.now work.old after }
    requires lines { BranchLinesStand work.old lines }
    ensures line { IfOk result (λ n. JoinsBranches work.old work.new before after lines n) }
    ensures stands { IfOk result (λ n. LineStands work.new n) }
    ensures grows { WorkGrows history.now work.old work.new }
    ensures out { result ≡ Err Stop.OutOfSteps → work.new.counter.used ≡ work.new.counter.limit }
{
    let parts = equations(work, history, before, after)?;
    let chosen = join(work, history, lines.second, lines.first, parts)?;
    let choice = condition(work, history, parts)?;
    let known = law_instance(work, history, law, before, after)?;
    let rest = cut(work, history, chosen, known, choice)?;
    discharge(
        work,
        history,
        Side::Forwards,
        before.test,
        after.test,
        rest,
        lines.test,
    )
}

/// Adds the instance of the law of joined IFs at the parts of two.
fn law_instance(
    work: &mut Work,
    history: &History,
    law: u64,
    before: Branches,
    after: Branches,
) -> Result<u64, Stop>
    requires stands { WorkStands history.now work.old }
    requires law { IsIfLaw work.old law }
    requires before { AreBranchesIn history.now work.old before }
    requires after { AreBranchesIn history.now work.old after }
    ensures line { IfOk result (λ n. HasJoined work.old work.new before after n) }
    ensures grows { WorkGrows history.now work.old work.new }
    ensures out { result ≡ Err Stop.OutOfSteps → work.new.counter.used ≡ work.new.counter.limit }
{
    let pairs = law_pairs(work, history, before, after)?;
    instance(work, history, law, pairs)
}
