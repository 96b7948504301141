//! Goals of which a literal is shown to be true: by rules that say so, where the denials of the others are assumed, or by what it is.
ghost use Rattle.std.specs.Prelude.{◌≡◌, ◌<◌, IfOk, IfSome, Err, length};
ghost use Rattle.nq_bank.specs.Content.{Stands, terms_at};
ghost use Rattle.nq_history.specs.Events.{events_at};
ghost use Rattle.nq_kernel.specs.Growing.{WorkStands, WorkGrows};
ghost use Rattle.nq_lines.specs.Lines.{LineHasOnly};
ghost use Rattle.nq_lines.specs.OwnTerms.{HasOwnTerms};
ghost use Rattle.nq_search.specs.Goals.{IsGoalIn};

use crate::objects::object_line;
use nq_bank::{Bank, Node, Sym, TermId, ground};
use nq_history::{Hints, History};
use nq_kernel::{Stop, Work};
use nq_literal::LiteralRewriter;
use nq_rewrite::{Head, nested_heads};
use nq_rule_table::Rules;
use nq_simplify::line_of_literal;

/// Is there a rule about a function that says of its calls that they are true?
fn is_rule_told(hints: &Hints, rules: &Rules, f: Sym) -> bool {
    // such a part about IMPLIES is an implication, whose conclusion is told
    if f.0 == ground::IMPLIES.0 {
        return false;
    }
    for rule in rules.rewrites(f) {
        if rule.truth && rules.is_enabled_for(hints, rule.event) {
            return true;
        }
    }
    false
}

/// Is there a left side of a function that stands under an implication and is said to be true?
fn is_nested_told(nested: &[Head], f: Sym) -> bool {
    for head in nested {
        if head.truth && head.function.0 == f.0 {
            return true;
        }
    }
    false
}

/// Is there a rule that says of calls like this one that they are true?
fn is_told(bank: &Bank, hints: &Hints, rules: &Rules, nested: &[Head], t: TermId) -> bool
    requires { Stands bank.now t }
{
    match bank.node(t) {
        Node::App(f, _) => is_rule_told(hints, rules, f) || is_nested_told(nested, f),
        Node::Num(_) => false,
        Node::Var(_) => false,
    }
}

/// The line of a goal by the literal at an index, where there are rules of calls like it and the rewriter shows that it is true, or
/// where it is another object than F.
fn line_at(
    work: &mut Work,
    history: &History,
    hints: &Hints,
    rules: &Rules,
    nested: &[Head],
    goal: &[TermId],
    at: usize,
) -> Result<Option<u64>, Stop>
    requires stands { WorkStands history.now work.old }
    requires ready { HasOwnTerms (events_at work.old.bank history.now) }
    requires goal { IsGoalIn history.now work.old goal.now }
    requires at { at < length goal.now }
    ensures line { IfOk result (λ found. IfSome found (λ n. LineHasOnly work.new n (terms_at work.new.bank goal.now))) }
    ensures grows { WorkGrows history.now work.old work.new }
    ensures out { result ≡ Err Stop.OutOfSteps → work.new.counter.used ≡ work.new.counter.limit }
{
    if is_told(&work.bank, hints, rules, nested, goal[at]) {
        let mut rewriter = LiteralRewriter::new(work.bank.alloc(), hints, rules, u64::MAX);
        line_of_literal(work, history, &mut rewriter, goal, at)
    } else {
        object_line(work, history, hints, rules, goal, at)
    }
}

/// The line of a goal of which a literal is true by what it is, or by rules.
pub fn tested_line(
    work: &mut Work,
    history: &History,
    hints: &Hints,
    rules: &Rules,
    goal: &[TermId],
) -> Result<Option<u64>, Stop>
    requires stands { WorkStands history.now work.old }
    requires ready { HasOwnTerms (events_at work.old.bank history.now) }
    requires goal { IsGoalIn history.now work.old goal.now }
    ensures line { IfOk result (λ found. IfSome found (λ n. LineHasOnly work.new n (terms_at work.new.bank goal.now))) }
    ensures grows { WorkGrows history.now work.old work.new }
    ensures out { result ≡ Err Stop.OutOfSteps → work.new.counter.used ≡ work.new.counter.limit }
{
    let Ok(nested) = nested_heads(&work.bank, history, hints, rules) else {
        return Err(Stop::Memory);
    };
    for at in 0..goal.len() {
        let found = line_at(work, history, hints, rules, nested.as_slice(), goal, at)?;
        if found.is_some() {
            return Ok(found);
        }
    }
    Ok(None)
}
