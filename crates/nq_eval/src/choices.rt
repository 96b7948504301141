//! Lines of IF: an IF equals the side that the value of its test chooses.
ghost use Rattle.std.specs.Prelude.{◌≡◌, ◌∷◌, [], IfOk, true, false};
ghost use Rattle.nq_logic.specs.Words.{not_term, equal_term, if_term};
ghost use Rattle.nq_bank.specs.Content.{IsNamed, term_at};
ghost use Rattle.nq_clause.specs.Substitution.{substitution_at};
ghost use Rattle.nq_kernel.specs.Growing.{WorkStands, LineHolds};
ghost use Rattle.nq_eval.specs.Lines.{GrowsUncounted, IsUsable, Equates};
ghost use Rattle.nq_eval.specs.Rows.{ArePairsIn};
ghost use Rattle.nq_eval.specs.Truths.{IsTruth, IsFalsity};
ghost use Rattle.nq_eval.specs.Heads.{IsChoice};
ghost use Rattle.nq_eval.specs.Known.{AreEqual, IsKnown};
ghost use Rattle.nq_eval.specs.Sides.{side_at};
ghost use Rattle.nq_eval.specs.Choices.{for_choice, IsUsableChoice};
ghost use Rattle.nq_fragments.specs.Outcomes.{is_small};

use crate::equalities::chain;
use crate::found::Known;
use crate::heads::is_falsity;
use crate::lines::add_line;
use crate::reducing::{Reduced, put_value};
use crate::rows::{add_falsity, add_row_instance, symbol};
use crate::truths::add_truth;
use nq_bank::{TermId, ground, ground_name};
use nq_clause::Pair;
use nq_history::History;
use nq_kernel::{Rule, Work};
use nq_rule::Branches;
use std::alloc::AllocError;

/// The terms of an IF in place of X, Y and Z.
fn pairs_of(work: &mut Work, history: &History, parts: Branches) -> Result<Vec<Pair>, AllocError>
    requires stands { WorkStands history.now work.old }
    requires test { IsUsable work.old.bank history.now parts.test }
    requires first { IsUsable work.old.bank history.now parts.first }
    requires second { IsUsable work.old.bank history.now parts.second }
    ensures pairs { IfOk result (λ pairs. ArePairsIn work.new.bank history.now pairs.items) }
    ensures reads { IfOk result (λ pairs. substitution_at work.new.bank pairs.items ≡ for_choice (term_at work.new.bank parts.test) (term_at work.new.bank parts.first) (term_at work.new.bank parts.second)) }
    ensures grows { GrowsUncounted history.now work.old work.new }
{
    let x = symbol(work, history, b"X")?;
    let y = symbol(work, history, b"Y")?;
    let z = symbol(work, history, b"Z")?;
    let test = Pair {
        variable: x,
        term: parts.test,
    };
    let first = Pair {
        variable: y,
        term: parts.first,
    };
    let second = Pair {
        variable: z,
        term: parts.second,
    };
    let pairs = vec![in work.bank.alloc(); test, first, second]?;
    Ok(pairs)
}

/// Adds the line that an IF equals its first side where its test is true.
fn add_first_row(
    work: &mut Work,
    history: &History,
    u: TermId,
    parts: Branches,
) -> Result<u64, AllocError>
    requires stands { WorkStands history.now work.old }
    requires choice { IsUsableChoice work.old.bank history.now u parts.test parts.first parts.second }
    requires small { is_small (term_at work.old.bank parts.test) ≡ true }
    ensures line { IfOk result (λ n. LineHolds work.new n (not_term (term_at work.new.bank parts.test) ∷ equal_term (term_at work.new.bank u) (term_at work.new.bank parts.first) ∷ [])) }
    ensures grows { GrowsUncounted history.now work.old work.new }
{
    let pairs = pairs_of(work, history, parts)?;
    let name = ground_name(&work.bank, ground::IF);
    add_row_instance(work, history, name, 2, pairs)
}

/// Adds the line that an IF equals its second side where its test, which is F, is false.
fn add_second_row(
    work: &mut Work,
    history: &History,
    u: TermId,
    parts: Branches,
) -> Result<u64, AllocError>
    requires stands { WorkStands history.now work.old }
    requires choice { IsUsableChoice work.old.bank history.now u parts.test parts.first parts.second }
    requires falsity { IsFalsity work.old.bank history.now parts.test }
    ensures line { IfOk result (λ n. LineHolds work.new n (term_at work.new.bank parts.test ∷ equal_term (term_at work.new.bank u) (term_at work.new.bank parts.second) ∷ [])) }
    ensures grows { GrowsUncounted history.now work.old work.new }
{
    let pairs = pairs_of(work, history, parts)?;
    let name = ground_name(&work.bank, ground::IF);
    add_row_instance(work, history, name, 1, pairs)
}

/// Cuts the test from the line that it is true, and the line of an equation where it is.
fn cut_truth(
    work: &mut Work,
    history: &History,
    v: TermId,
    u: TermId,
    x: TermId,
    first: u64,
    second: u64,
) -> Result<u64, AllocError>
    requires stands { WorkStands history.now work.old }
    requires test { IsUsable work.old.bank history.now v }
    requires left { IsUsable work.old.bank history.now u }
    requires right { IsUsable work.old.bank history.now x }
    requires first { LineHolds work.old first (term_at work.old.bank v ∷ []) }
    requires second { LineHolds work.old second (not_term (term_at work.old.bank v) ∷ equal_term (term_at work.old.bank u) (term_at work.old.bank x) ∷ []) }
    ensures line { IfOk result (λ n. Equates work.new n u x) }
    ensures grows { GrowsUncounted history.now work.old work.new }
{
    add_line(work, history, Rule::Cut(first, second, v))
}

/// Cuts F from the line of an equation or F.
fn cut_false_test(
    work: &mut Work,
    history: &History,
    v: TermId,
    u: TermId,
    y: TermId,
    first: u64,
    second: u64,
) -> Result<u64, AllocError>
    requires stands { WorkStands history.now work.old }
    requires test { IsFalsity work.old.bank history.now v }
    requires left { IsUsable work.old.bank history.now u }
    requires right { IsUsable work.old.bank history.now y }
    requires first { LineHolds work.old first (term_at work.old.bank v ∷ equal_term (term_at work.old.bank u) (term_at work.old.bank y) ∷ []) }
    requires second { LineHolds work.old second (not_term (term_at work.old.bank v) ∷ []) }
    ensures line { IfOk result (λ n. Equates work.new n u y) }
    ensures grows { GrowsUncounted history.now work.old work.new }
{
    add_line(work, history, Rule::Cut(first, second, v))
}

/// Adds the line that an IF whose test is a true value equals its first side.
fn add_first_side(
    work: &mut Work,
    history: &History,
    u: TermId,
    parts: Branches,
) -> Result<u64, AllocError>
    requires stands { WorkStands history.now work.old }
    requires choice { IsUsableChoice work.old.bank history.now u parts.test parts.first parts.second }
    requires truth { IsTruth work.old.bank history.now parts.test }
    ensures line { IfOk result (λ n. Equates work.new n u parts.first) }
    ensures grows { GrowsUncounted history.now work.old work.new }
{
    let first = add_truth(work, history, parts.test)?;
    let second = add_first_row(work, history, u, parts)?;
    cut_truth(work, history, parts.test, u, parts.first, first, second)
}

/// Adds the line that an IF whose test is F equals its second side.
fn add_second_side(
    work: &mut Work,
    history: &History,
    u: TermId,
    parts: Branches,
) -> Result<u64, AllocError>
    requires stands { WorkStands history.now work.old }
    requires choice { IsUsableChoice work.old.bank history.now u parts.test parts.first parts.second }
    requires falsity { IsFalsity work.old.bank history.now parts.test }
    ensures line { IfOk result (λ n. Equates work.new n u parts.second) }
    ensures grows { GrowsUncounted history.now work.old work.new }
{
    let first = add_second_row(work, history, u, parts)?;
    let second = add_falsity(work, history)?;
    cut_false_test(work, history, parts.test, u, parts.second, first, second)
}

/// Adds the line that an IF whose test is a value equals the side that it chooses.
fn add_side(
    work: &mut Work,
    history: &History,
    u: TermId,
    parts: Branches,
) -> Result<u64, AllocError>
    requires stands { WorkStands history.now work.old }
    requires choice { IsUsableChoice work.old.bank history.now u parts.test parts.first parts.second }
    requires small { is_small (term_at work.old.bank parts.test) ≡ true }
    ensures line { IfOk result (λ n. Equates work.new n u (side_at work.old.bank parts parts.test)) }
    ensures grows { GrowsUncounted history.now work.old work.new }
{
    if is_falsity(&work.bank, parts.test) {
        add_second_side(work, history, u, parts)
    } else {
        add_first_side(work, history, u, parts)
    }
}

/// The IF with the value of its test in the test's place.
fn put_test(
    work: &mut Work,
    history: &History,
    t: TermId,
    parts: Branches,
    test: Known,
) -> Result<Reduced, AllocError>
    requires stands { WorkStands history.now work.old }
    requires term { IsUsable work.old.bank history.now t }
    requires large { is_small (term_at work.old.bank t) ≡ false }
    requires head { IsChoice work.old.bank t parts }
    requires test { IsKnown history.now work.old parts.test test }
    ensures choice { IfOk result (λ r. IsUsableChoice work.new.bank history.now r.term test.value parts.first parts.second) }
    ensures line { IfOk result (λ r. AreEqual work.new r.line t r.term) }
    ensures grows { GrowsUncounted history.now work.old work.new }
{
    let f = ground_name(&work.bank, ground::IF);
    let mut mixed = vec![in work.bank.alloc(); parts.test, parts.first, parts.second]?;
    let reduced = Reduced { term: t, line: 0 };
    put_value(
        work, history, t, f, &mut mixed, 0, parts.test, test, reduced,
    )
}

/// The line of the equation of an IF and the side that its test chooses.
pub fn choice_line(
    work: &mut Work,
    history: &History,
    t: TermId,
    parts: Branches,
    side: TermId,
    test: Known,
) -> Result<u64, AllocError>
    requires stands { WorkStands history.now work.old }
    requires term { IsUsable work.old.bank history.now t }
    requires large { is_small (term_at work.old.bank t) ≡ false }
    requires head { IsChoice work.old.bank t parts }
    requires test { IsKnown history.now work.old parts.test test }
    requires side { side ≡ side_at work.old.bank parts test.value }
    ensures line { IfOk result (λ n. AreEqual work.new n t side) }
    ensures grows { GrowsUncounted history.now work.old work.new }
{
    let reduced = put_test(work, history, t, parts, test)?;
    let valued = Branches {
        test: test.value,
        first: parts.first,
        second: parts.second,
    };
    let line = add_side(work, history, reduced.term, valued)?;
    chain(work, history, t, reduced.term, side, reduced.line, line)
}
