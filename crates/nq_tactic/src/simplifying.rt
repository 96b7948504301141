//! Goals that are simplified.
ghost use Rattle.std.specs.Prelude.{◌≡◌, IfOk, Err};
ghost use Rattle.nq_bank.specs.Content.{terms_at};
ghost use Rattle.nq_kernel.specs.Growing.{WorkGrows};
ghost use Rattle.nq_search.specs.Goals.{CanSearch, IsGoalIn};
ghost use Rattle.nq_simplify.specs.Simplified.{IsSimplified};

use crate::lightly::light_hints;
use nq_bank::TermId;
use nq_history::{Hints, History};
use nq_kernel::{Stop, Work};
use nq_literal::LiteralRewriter;
use nq_ready::own_terms;
use nq_rewrite::Learnt;
use nq_rule_table::Rules;
use nq_simplify::{Simplified, make_basis, simplify_goal};
use std::mem;

/// How many literals may be rewritten in a row.
const ROUNDS: u64 = 120;

/// Into how many parts the steps are divided of which a simplification gets one at least.
const LEAST_PART: u64 = 25;

/// Into how many parts the steps are divided of which a simplification gets no more than one.
const MOST_PART: u64 = 3;

/// The count of used steps at which a simplification ends that begins now, in a plan that ends at another: it gets what is left to the
/// plan, within its bounds.
fn until_of(work: &Work, end: u64) -> u64 {
    let used = work.counter.used();
    let limit = work.counter.limit();
    let left = end.saturating_sub(used);
    used.saturating_add(left.max(limit / LEAST_PART).min(limit / MOST_PART))
}

/// Simplifies a goal, with what was learnt in the same proof, in a plan that ends at a count of used steps.
pub fn simplified<'a>(
    work: &mut Work,
    history: &History,
    hints: &'a Hints,
    rules: &'a Rules,
    learnt: &mut Learnt,
    end: u64,
    goal: &[TermId],
) -> Result<Simplified, Stop>
    requires can { CanSearch history.now hints.now work.old }
    requires goal { IsGoalIn history.now work.old goal.now }
    ensures simplified { IfOk result (IsSimplified history.now work.new (terms_at work.old.bank goal.now)) }
    ensures grows { WorkGrows history.now work.old work.new }
    ensures out { result ≡ Err Stop.OutOfSteps → work.new.counter.used ≡ work.new.counter.limit }
{
    own_terms();
    let basis = make_basis(work, history)?;
    let until = until_of(work, end);
    let mut rewriter = LiteralRewriter::new(work.bank.alloc(), hints, rules, until);
    mem::swap(learnt, &mut rewriter.learnt);
    let simplified = simplify_goal(work, history, &basis, &mut rewriter, goal, ROUNDS);
    mem::swap(learnt, &mut rewriter.learnt);
    simplified
}

/// Takes a goal apart, in such a plan: it is simplified without rules, and no recursive function is opened.
pub fn parted(
    work: &mut Work,
    history: &History,
    hints: &Hints,
    rules: &Rules,
    end: u64,
    goal: &[TermId],
) -> Result<Simplified, Stop>
    requires can { CanSearch history.now hints.now work.old }
    requires goal { IsGoalIn history.now work.old goal.now }
    ensures simplified { IfOk result (IsSimplified history.now work.new (terms_at work.old.bank goal.now)) }
    ensures grows { WorkGrows history.now work.old work.new }
    ensures out { result ≡ Err Stop.OutOfSteps → work.new.counter.used ≡ work.new.counter.limit }
{
    own_terms();
    let light = light_hints(work, history, hints)?;
    let basis = make_basis(work, history)?;
    let until = until_of(work, end);
    let mut rewriter = LiteralRewriter::new(work.bank.alloc(), &light, rules, until);
    simplify_goal(work, history, &basis, &mut rewriter, goal, ROUNDS)
}
