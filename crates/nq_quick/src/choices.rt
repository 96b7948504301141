//! Lines of an IF, from the line of its test and that of the branch that the test chooses.
ghost use Rattle.std.specs.Prelude.{◌≡◌, ◌<◌, ◌∷◌, [], List, IfOk, false};
ghost use Rattle.nq_logic.specs.Terms.{Term};
ghost use Rattle.nq_logic.specs.Shapes.{chosen};
ghost use Rattle.nq_logic.specs.Sizes.{depth_of, depth_limit};
ghost use Rattle.nq_logic.specs.Words.{not_term};
ghost use Rattle.nq_bank.specs.Content.{IsIdOf, Stands, term_at};
ghost use Rattle.nq_proof.specs.Clauses.{distinct};
ghost use Rattle.nq_rule.specs.Branches.{BranchesStand};
ghost use Rattle.nq_kernel.specs.Over.{TermIsIn};
ghost use Rattle.nq_kernel.specs.Growing.{WorkStands, LineStands, LineHolds};
ghost use Rattle.nq_quick.specs.Choices.{branch_of};
ghost use Rattle.nq_quick.specs.Lines.{LineHasOnly, GrowsUncounted, signed, denial, if_at};

use crate::lines::{add_either, add_join, add_line, add_resolved};
use nq_bank::TermId;
use nq_history::History;
use nq_kernel::{Rule, Work};
use nq_rule::Branches;
use std::alloc::AllocError;

/// The branch that a test chooses.
pub fn branch_of(parts: Branches, test: bool) -> TermId
    ensures { result ≡ branch_of parts test }
{
    if test { parts.first } else { parts.second }
}

/// Adds the line of an IF or its NOT, as its chosen branch is true or false.
pub fn add_choice(
    work: &mut Work,
    history: &History,
    t: TermId,
    parts: Branches,
    test: bool,
    value: bool,
    test_line: u64,
    branch_line: u64,
) -> Result<u64, AllocError>
    requires stands { WorkStands history.now work.old }
    requires whole { IsIdOf work.old.bank t (if_at work.old.bank parts) }
    requires parts { BranchesStand work.old.bank parts }
    requires over { TermIsIn work.old.bank history.now t }
    requires room { value ≡ false → depth_of (term_at work.old.bank t) < depth_limit }
    requires test { LineStands work.old test_line }
    requires branch { LineStands work.old branch_line }
    ensures line { IfOk result (λ n. (these : List Term) → LineHasOnly work.old test_line (signed test (term_at work.old.bank parts.test) ∷ these) → LineHasOnly work.old branch_line (signed value (term_at work.old.bank (branch_of parts test)) ∷ these) → LineHasOnly work.new n (signed value (if_at work.old.bank parts) ∷ these)) }
    ensures grows { GrowsUncounted history.now work.old work.new }
{
    if value {
        add_true_choice(work, history, t, parts, test, test_line, branch_line)
    } else {
        add_false_choice(work, history, t, parts, test, test_line, branch_line)
    }
}

/// Adds the line of an IF whose chosen branch is true.
fn add_true_choice(
    work: &mut Work,
    history: &History,
    t: TermId,
    parts: Branches,
    test: bool,
    test_line: u64,
    branch_line: u64,
) -> Result<u64, AllocError>
    requires stands { WorkStands history.now work.old }
    requires whole { IsIdOf work.old.bank t (if_at work.old.bank parts) }
    requires parts { BranchesStand work.old.bank parts }
    requires over { TermIsIn work.old.bank history.now t }
    requires test { LineStands work.old test_line }
    requires branch { LineStands work.old branch_line }
    ensures line { IfOk result (λ n. (these : List Term) → LineHasOnly work.old test_line (signed test (term_at work.old.bank parts.test) ∷ these) → LineHasOnly work.old branch_line (term_at work.old.bank (branch_of parts test) ∷ these) → LineHasOnly work.new n (if_at work.old.bank parts ∷ these)) }
    ensures grows { GrowsUncounted history.now work.old work.new }
{
    if test {
        add_join(work, history, branch_line, test_line, parts, t)
    } else {
        add_join(work, history, test_line, branch_line, parts, t)
    }
}

/// Adds the line of the NOT of an IF whose chosen branch is false.
fn add_false_choice(
    work: &mut Work,
    history: &History,
    t: TermId,
    parts: Branches,
    test: bool,
    test_line: u64,
    branch_line: u64,
) -> Result<u64, AllocError>
    requires stands { WorkStands history.now work.old }
    requires whole { IsIdOf work.old.bank t (if_at work.old.bank parts) }
    requires parts { BranchesStand work.old.bank parts }
    requires over { TermIsIn work.old.bank history.now t }
    requires room { depth_of (term_at work.old.bank t) < depth_limit }
    requires test { LineStands work.old test_line }
    requires branch { LineStands work.old branch_line }
    ensures line { IfOk result (λ n. (these : List Term) → LineHasOnly work.old test_line (signed test (term_at work.old.bank parts.test) ∷ these) → LineHasOnly work.old branch_line (not_term (term_at work.old.bank (branch_of parts test)) ∷ these) → LineHasOnly work.new n (not_term (if_at work.old.bank parts) ∷ these)) }
    ensures grows { GrowsUncounted history.now work.old work.new }
{
    let split = add_split(work, history, t, parts, test)?;
    let rest = add_resolved(work, history, test, parts.test, test_line, split)?;
    let branch = branch_of(parts, test);
    add_resolved(work, history, false, branch, branch_line, rest)
}

/// Adds the line that an IF is false where its test is true or false and the chosen branch is false.
fn add_split(
    work: &mut Work,
    history: &History,
    t: TermId,
    parts: Branches,
    test: bool,
) -> Result<u64, AllocError>
    requires stands { WorkStands history.now work.old }
    requires whole { IsIdOf work.old.bank t (if_at work.old.bank parts) }
    requires parts { BranchesStand work.old.bank parts }
    requires over { TermIsIn work.old.bank history.now t }
    requires room { depth_of (term_at work.old.bank t) < depth_limit }
    ensures line { IfOk result (λ n. LineHasOnly work.new n (denial test (term_at work.old.bank parts.test) ∷ term_at work.old.bank (branch_of parts test) ∷ not_term (if_at work.old.bank parts) ∷ [])) }
    ensures grows { GrowsUncounted history.now work.old work.new }
{
    let either = add_either(work, history, t)?;
    split_either(work, history, parts, test, either)
}

/// Splits the line of an IF and its NOT.
fn split_either(
    work: &mut Work,
    history: &History,
    parts: Branches,
    test: bool,
    either: u64,
) -> Result<u64, AllocError>
    requires stands { WorkStands history.now work.old }
    requires parts { BranchesStand work.old.bank parts }
    requires either { LineHolds work.old either (distinct (if_at work.old.bank parts ∷ not_term (if_at work.old.bank parts) ∷ [])) }
    ensures line { IfOk result (λ n. LineHasOnly work.new n (denial test (term_at work.old.bank parts.test) ∷ term_at work.old.bank (branch_of parts test) ∷ not_term (if_at work.old.bank parts) ∷ [])) }
    ensures grows { GrowsUncounted history.now work.old work.new }
{
    work.bank.is_sound();
    if test {
        add_line(work, history, Rule::SplitFirst(either, 1))
    } else {
        add_line(work, history, Rule::SplitSecond(either, 1))
    }
}
