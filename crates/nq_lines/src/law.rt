//! The law of joined IFs, made once: what `if_joined` takes an instance of.
ghost use Rattle.std.specs.Prelude.{◌≡◌, ◌∷◌, [], IfOk, Err};
ghost use Rattle.nq_logic.specs.Terms.{Variable};
ghost use Rattle.nq_logic.specs.Words.{not_term};
ghost use Rattle.nq_bank.specs.Content.{IsIdOf, term_at};
ghost use Rattle.nq_kernel.specs.Over.{IsVariable};
ghost use Rattle.nq_kernel.specs.Growing.{WorkStands, WorkGrows, LineStands};
ghost use Rattle.nq_lines.specs.Lines.{IsTermIn, LineHasOnly};
ghost use Rattle.nq_lines.specs.Branches.{AreBranchesIn, HasJoined, IsIfLaw, if_at};
ghost use Rattle.nq_lines.specs.Law.{IsFirstCase, IsSecondCase, AreEqualBranches, IsJoined, AreVariables};

use crate::calls::congruent_line;
use crate::conditions::{first_chosen, second_chosen};
use crate::denials::undeny;
use crate::equality::{meet, transitive};
use crate::instances::symbol;
use crate::joining::{condition, equations};
use crate::rewriting::rewrite_literal;
use crate::rules::{cut, equate, opposites};
use nq_bank::TermId;
use nq_history::History;
use nq_kernel::{Stop, Work};
use nq_rule::{Branches, Side};

/// The equation of two IFs of one test, where it is assumed, from the equation of their first branches.
fn first_case(
    work: &mut Work,
    history: &History,
    before: Branches,
    after: Branches,
    shown: u64,
) -> Result<u64, Stop>
    requires stands { WorkStands history.now work.old }
    requires before { AreBranchesIn history.now work.old before }
    requires after { AreBranchesIn history.now work.old after }
    requires shown { LineStands work.old shown }
    ensures line { IfOk result (λ n. IsFirstCase work.old work.new before after shown n) }
    ensures stands { IfOk result (λ n. LineStands work.new n) }
    ensures grows { WorkGrows history.now work.old work.new }
    ensures out { result ≡ Err Stop.OutOfSteps → work.new.counter.used ≡ work.new.counter.limit }
{
    let moved = Branches {
        test: after.test,
        first: before.first,
        second: before.second,
    };
    let one = condition(work, history, moved)?;
    let two = condition(work, history, after)?;
    let left = first_chosen(work, history, after.test, before.first, before.second)?;
    let same = transitive(work, history, one, before.first, after.first, left, shown)?;
    let right = first_chosen(work, history, after.test, after.first, after.second)?;
    meet(work, history, one, after.first, two, same, right)
}

/// The equation of two IFs of one test, or the test, from the equation of their second branches.
fn second_case(
    work: &mut Work,
    history: &History,
    before: Branches,
    after: Branches,
    shown: u64,
) -> Result<u64, Stop>
    requires stands { WorkStands history.now work.old }
    requires before { AreBranchesIn history.now work.old before }
    requires after { AreBranchesIn history.now work.old after }
    requires shown { LineStands work.old shown }
    ensures line { IfOk result (λ n. IsSecondCase work.old work.new before after shown n) }
    ensures stands { IfOk result (λ n. LineStands work.new n) }
    ensures grows { WorkGrows history.now work.old work.new }
    ensures out { result ≡ Err Stop.OutOfSteps → work.new.counter.used ≡ work.new.counter.limit }
{
    let moved = Branches {
        test: after.test,
        first: before.first,
        second: before.second,
    };
    let one = condition(work, history, moved)?;
    let two = condition(work, history, after)?;
    let left = second_chosen(work, history, after.test, before.first, before.second)?;
    let same = transitive(work, history, one, before.second, after.second, left, shown)?;
    let right = second_chosen(work, history, after.test, after.first, after.second)?;
    meet(work, history, one, after.second, two, same, right)
}

/// Adds a line of the equation of two IFs of one test, from lines of the equations of their branches, the first under the test,
/// the second with it.
fn equal_branches(
    work: &mut Work,
    history: &History,
    before: Branches,
    after: Branches,
    first: u64,
    second: u64,
) -> Result<u64, Stop>
    requires stands { WorkStands history.now work.old }
    requires before { AreBranchesIn history.now work.old before }
    requires after { AreBranchesIn history.now work.old after }
    requires first { LineStands work.old first }
    requires second { LineStands work.old second }
    ensures line { IfOk result (λ n. AreEqualBranches work.old work.new before after first second n) }
    ensures stands { IfOk result (λ n. LineStands work.new n) }
    ensures grows { WorkGrows history.now work.old work.new }
    ensures out { result ≡ Err Stop.OutOfSteps → work.new.counter.used ≡ work.new.counter.limit }
{
    let one = first_case(work, history, before, after, first)?;
    let two = second_case(work, history, before, after, second)?;
    cut(work, history, two, one, after.test)
}

/// Adds the line of the first branch of an IF, the NOT of its test, and the NOT of the IF.
fn first_part(work: &mut Work, history: &History, parts: Branches) -> Result<u64, Stop>
    requires stands { WorkStands history.now work.old }
    requires parts { AreBranchesIn history.now work.old parts }
    ensures line { IfOk result (λ n. LineHasOnly work.new n (term_at work.old.bank parts.first ∷ not_term (term_at work.old.bank parts.test) ∷ not_term (if_at work.old.bank parts) ∷ [])) }
    ensures grows { WorkGrows history.now work.old work.new }
    ensures out { result ≡ Err Stop.OutOfSteps → work.new.counter.used ≡ work.new.counter.limit }
{
    let whole = condition(work, history, parts)?;
    let either = opposites(work, history, whole)?;
    let law = first_chosen(work, history, parts.test, parts.first, parts.second)?;
    rewrite_literal(
        work,
        history,
        Side::Forwards,
        whole,
        parts.first,
        either,
        law,
    )
}

/// Adds the line of the second branch of an IF, its test, and the NOT of the IF.
fn second_part(work: &mut Work, history: &History, parts: Branches) -> Result<u64, Stop>
    requires stands { WorkStands history.now work.old }
    requires parts { AreBranchesIn history.now work.old parts }
    ensures line { IfOk result (λ n. LineHasOnly work.new n (term_at work.old.bank parts.second ∷ term_at work.old.bank parts.test ∷ not_term (if_at work.old.bank parts) ∷ [])) }
    ensures grows { WorkGrows history.now work.old work.new }
    ensures out { result ≡ Err Stop.OutOfSteps → work.new.counter.used ≡ work.new.counter.limit }
{
    let whole = condition(work, history, parts)?;
    let either = opposites(work, history, whole)?;
    let law = second_chosen(work, history, parts.test, parts.first, parts.second)?;
    rewrite_literal(
        work,
        history,
        Side::Forwards,
        whole,
        parts.second,
        either,
        law,
    )
}

/// The line that two IFs of one test are equal, or the IF of the equations of their branches is false.
fn equal_or_not(
    work: &mut Work,
    history: &History,
    before: Branches,
    after: Branches,
) -> Result<u64, Stop>
    requires stands { WorkStands history.now work.old }
    requires before { AreBranchesIn history.now work.old before }
    requires after { AreBranchesIn history.now work.old after }
    ensures line { IfOk result (λ n. IsJoined work.old work.new before after n) }
    ensures stands { IfOk result (λ n. LineStands work.new n) }
    ensures grows { WorkGrows history.now work.old work.new }
    ensures out { result ≡ Err Stop.OutOfSteps → work.new.counter.used ≡ work.new.counter.limit }
{
    let parts = equations(work, history, before, after)?;
    let denied = first_part(work, history, parts)?;
    let second = undeny(work, history, after.test, denied)?;
    let first = second_part(work, history, parts)?;
    equal_branches(work, history, before, after, first, second)
}

/// The line of the law of joined IFs at these parts.
fn law_of(
    work: &mut Work,
    history: &History,
    before: Branches,
    after: Branches,
) -> Result<u64, Stop>
    requires stands { WorkStands history.now work.old }
    requires before { AreBranchesIn history.now work.old before }
    requires after { AreBranchesIn history.now work.old after }
    ensures line { IfOk result (λ n. HasJoined work.old work.new before after n) }
    ensures grows { WorkGrows history.now work.old work.new }
    ensures out { result ≡ Err Stop.OutOfSteps → work.new.counter.used ≡ work.new.counter.limit }
{
    let moved = Branches {
        test: after.test,
        first: before.first,
        second: before.second,
    };
    let line = equal_or_not(work, history, before, after)?;
    let tests = equate(work, history, before.test, after.test)?;
    let either = opposites(work, history, tests)?;
    let left = condition(work, history, before)?;
    let between = condition(work, history, moved)?;
    let right = condition(work, history, after)?;
    let carried = congruent_line(work, history, left, 1, after.test, either)?;
    transitive(work, history, left, between, right, carried, line)
}

/// The id of a variable.
pub fn variable(work: &mut Work, history: &History, name: &[u8]) -> Result<TermId, Stop>
    requires stands { WorkStands history.now work.old }
    requires name { IsVariable name.now }
    ensures variable { IfOk result (λ t. IsIdOf work.new.bank t (Variable name.now)) }
    ensures over { IfOk result (λ t. IsTermIn history.now work.new t) }
    ensures grows { WorkGrows history.now work.old work.new }
    ensures memory { result ≡ Err Stop.OutOfSteps → ⊥ }
{
    let s = symbol(work, history, name)?;
    match work.bank.var(s) {
        Ok(t) => Ok(t),
        Err(_) => Err(Stop::Memory),
    }
}

/// Three variables as the parts of an IF.
fn variable_parts(
    work: &mut Work,
    history: &History,
    test: &[u8],
    first: &[u8],
    second: &[u8],
) -> Result<Branches, Stop>
    requires stands { WorkStands history.now work.old }
    requires test { IsVariable test.now }
    requires first { IsVariable first.now }
    requires second { IsVariable second.now }
    ensures parts { IfOk result (λ p. AreVariables work.new test.now first.now second.now p) }
    ensures over { IfOk result (AreBranchesIn history.now work.new) }
    ensures grows { WorkGrows history.now work.old work.new }
    ensures memory { result ≡ Err Stop.OutOfSteps → ⊥ }
{
    let p = variable(work, history, test)?;
    let x = variable(work, history, first)?;
    let y = variable(work, history, second)?;
    Ok(Branches {
        test: p,
        first: x,
        second: y,
    })
}

/// Adds the line of the law of joined IFs. One serves for as many IFs as are joined.
pub fn if_law(work: &mut Work, history: &History) -> Result<u64, Stop>
    requires stands { WorkStands history.now work.old }
    ensures line { IfOk result (IsIfLaw work.new) }
    ensures grows { WorkGrows history.now work.old work.new }
    ensures out { result ≡ Err Stop.OutOfSteps → work.new.counter.used ≡ work.new.counter.limit }
{
    let before = variable_parts(work, history, b"P", b"X", b"Y")?;
    let after = variable_parts(work, history, b"Q", b"U", b"V")?;
    law_of(work, history, before, after)
}
