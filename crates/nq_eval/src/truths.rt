//! The line of a value that is true.
ghost use Rattle.std.specs.Prelude.{◌≡◌, ◌∷◌, [], IfOk, codes, true};
ghost use Rattle.nq_logic.specs.Words.{false_term, not_term, equal_term};
ghost use Rattle.nq_logic.specs.Values.{is_value};
ghost use Rattle.nq_bank.specs.Content.{IsIdOf, term_at};
ghost use Rattle.nq_clause.specs.Substitution.{substitution_at};
ghost use Rattle.nq_proof.specs.Values.{is_true};
ghost use Rattle.nq_kernel.specs.Growing.{WorkStands, LineHolds};
ghost use Rattle.nq_eval.specs.Lines.{GrowsUncounted, IsUsable, Equates};
ghost use Rattle.nq_eval.specs.Rows.{ArePairsIn};
ghost use Rattle.nq_eval.specs.Truths.{IsTruth, IsFalsity, IsDenied};

use crate::lines::{add_line, add_value, equation};
use crate::rows::{add_falsity, add_row_instance, falsity, symbol};
use nq_bank::{TermId, ground, ground_name};
use nq_clause::Pair;
use nq_history::History;
use nq_kernel::{Rule, Work};
use nq_rule::Side;
use std::alloc::AllocError;

/// A value in place of X.
fn pair_of(work: &mut Work, history: &History, v: TermId) -> Result<Vec<Pair>, AllocError>
    requires stands { WorkStands history.now work.old }
    requires term { IsUsable work.old.bank history.now v }
    ensures pairs { IfOk result (λ pairs. ArePairsIn work.new.bank history.now pairs.items) }
    ensures reads { IfOk result (λ pairs. substitution_at work.new.bank pairs.items ≡ (codes "X", term_at work.new.bank v) ∷ []) }
    ensures grows { GrowsUncounted history.now work.old work.new }
{
    let variable = symbol(work, history, b"X")?;
    let pairs = vec![in work.bank.alloc(); Pair { variable, term: v }]?;
    Ok(pairs)
}

/// Adds the line that a value is true or F.
fn add_either(work: &mut Work, history: &History, v: TermId) -> Result<u64, AllocError>
    requires stands { WorkStands history.now work.old }
    requires truth { IsTruth work.old.bank history.now v }
    ensures line { IfOk result (λ n. LineHolds work.new n (term_at work.new.bank v ∷ equal_term (term_at work.new.bank v) false_term ∷ [])) }
    ensures grows { GrowsUncounted history.now work.old work.new }
{
    let pairs = pair_of(work, history, v)?;
    let name = ground_name(&work.bank, ground::FALSE);
    add_row_instance(work, history, name, 2, pairs)
}

/// Adds the line that a value or F is true, unless the equation of the value and F differs from F.
fn add_replaced(
    work: &mut Work,
    history: &History,
    v: TermId,
    f: TermId,
    line: u64,
) -> Result<u64, AllocError>
    requires stands { WorkStands history.now work.old }
    requires truth { IsTruth work.old.bank history.now v }
    requires falsity { IsFalsity work.old.bank history.now f }
    requires line { LineHolds work.old line (term_at work.old.bank v ∷ equal_term (term_at work.old.bank v) false_term ∷ []) }
    ensures line { IfOk result (λ n. LineHolds work.new n (term_at work.new.bank v ∷ false_term ∷ not_term (equal_term (equal_term (term_at work.new.bank v) false_term) false_term) ∷ [])) }
    ensures grows { GrowsUncounted history.now work.old work.new }
{
    let path = Vec::new(work.bank.alloc());
    add_line(
        work,
        history,
        Rule::Replace(line, 2, path, f, Side::Forwards),
    )
}

/// Adds the line of a value or F, from the line that the equation of both is F.
fn add_value_or_falsity(
    work: &mut Work,
    history: &History,
    v: TermId,
    w: TermId,
    first: u64,
    second: u64,
) -> Result<u64, AllocError>
    requires stands { WorkStands history.now work.old }
    requires truth { IsTruth work.old.bank history.now v }
    requires term { IsUsable work.old.bank history.now w }
    requires is { term_at work.old.bank w ≡ equal_term (equal_term (term_at work.old.bank v) false_term) false_term }
    requires first { LineHolds work.old first (term_at work.old.bank w ∷ []) }
    requires second { LineHolds work.old second (term_at work.old.bank v ∷ false_term ∷ not_term (term_at work.old.bank w) ∷ []) }
    ensures line { IfOk result (λ n. LineHolds work.new n (term_at work.new.bank v ∷ false_term ∷ [])) }
    ensures grows { GrowsUncounted history.now work.old work.new }
{
    add_line(work, history, Rule::Cut(first, second, w))
}

/// Takes F off the line of a value or F.
fn add_without_falsity(
    work: &mut Work,
    history: &History,
    v: TermId,
    f: TermId,
    line: u64,
) -> Result<u64, AllocError>
    requires stands { WorkStands history.now work.old }
    requires truth { IsTruth work.old.bank history.now v }
    requires falsity { IsFalsity work.old.bank history.now f }
    requires line { LineHolds work.old line (term_at work.old.bank v ∷ false_term ∷ []) }
    ensures line { IfOk result (λ n. LineHolds work.new n (term_at work.new.bank v ∷ [])) }
    ensures grows { GrowsUncounted history.now work.old work.new }
{
    let other = add_falsity(work, history)?;
    cut_falsity(work, history, v, f, line, other)
}

/// Cuts F from the line of a value or F.
fn cut_falsity(
    work: &mut Work,
    history: &History,
    v: TermId,
    f: TermId,
    first: u64,
    second: u64,
) -> Result<u64, AllocError>
    requires stands { WorkStands history.now work.old }
    requires truth { IsTruth work.old.bank history.now v }
    requires falsity { IsFalsity work.old.bank history.now f }
    requires first { LineHolds work.old first (term_at work.old.bank v ∷ false_term ∷ []) }
    requires second { LineHolds work.old second (not_term false_term ∷ []) }
    ensures line { IfOk result (λ n. LineHolds work.new n (term_at work.new.bank v ∷ [])) }
    ensures grows { GrowsUncounted history.now work.old work.new }
{
    add_line(work, history, Rule::Cut(first, second, f))
}

/// F, the equation of a value and F, and the equation of that one and F.
#[derive(Clone, Copy)]
pub struct Denied {
    /// F.
    pub falsity: TermId,
    /// The equation of the value and F.
    pub equation: TermId,
    /// The equation of the equation and F.
    pub whole: TermId,
}

/// Makes the equation of a value and F, and that of the equation and F.
fn with_falsity(work: &mut Work, history: &History, v: TermId) -> Result<Denied, AllocError>
    requires stands { WorkStands history.now work.old }
    requires truth { IsTruth work.old.bank history.now v }
    ensures denied { IfOk result (λ d. IsDenied work.new.bank history.now v d) }
    ensures grows { GrowsUncounted history.now work.old work.new }
{
    let f = falsity(work, history)?;
    let e = equation(work, history, v, f)?;
    let w = equation(work, history, e, f)?;
    Ok(Denied {
        falsity: f,
        equation: e,
        whole: w,
    })
}

/// Adds the line of a value that isn't F.
pub fn add_truth(work: &mut Work, history: &History, v: TermId) -> Result<u64, AllocError>
    requires stands { WorkStands history.now work.old }
    requires truth { IsTruth work.old.bank history.now v }
    ensures line { IfOk result (λ n. LineHolds work.new n (term_at work.new.bank v ∷ [])) }
    ensures grows { GrowsUncounted history.now work.old work.new }
{
    let d = with_falsity(work, history, v)?;
    let first = add_value(work, history, d.equation, d.falsity)?;
    let either = add_either(work, history, v)?;
    let second = add_replaced(work, history, v, d.falsity, either)?;
    let line = add_value_or_falsity(work, history, v, d.whole, first, second)?;
    add_without_falsity(work, history, v, d.falsity, line)
}
