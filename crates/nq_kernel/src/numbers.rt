//! The steps of a line of the log: one for the line, and one for each number in it.
ghost use Rattle.std.specs.Prelude.{◌≡◌, ◌+◌, ◌-◌, ◌*◌, ◌^◌, ◌<◌, min, length};
ghost use Rattle.nq_kernel.specs.Steps.{path_numbers, steps_of, steps_of_hypotheses, steps_of_cases};

use crate::rule::Rule;
use nq_clause::Pair;
use nq_linear_rule::Summand;
use nq_rule::{CaseOfInduction, InductionStep};

/// Two steps, and two for each pair.
fn steps_of_pairs(pairs: &[Pair]) -> u128
    ensures { result ≡ min (2 + 2 * length pairs.now) (2 ^ 128 - 1) }
{
    (pairs.len() as u128).saturating_mul(2).saturating_add(2)
}

fn steps_of_hypothesis_lines(steps: &[InductionStep]) -> u128
    ensures { result ≡ min (steps_of_hypotheses steps.now) (2 ^ 128 - 1) }
{
    let mut sum: u128 = 0;
    for s in steps {
        sum = sum.saturating_add(steps_of_pairs(s.pairs.as_slice()));
    }
    sum
}

fn steps_of_case_lines(cases: &[CaseOfInduction]) -> u128
    ensures { result ≡ min (steps_of_cases cases.now) (2 ^ 128 - 1) }
{
    let mut sum: u128 = 0;
    for c in cases {
        sum = sum
            .saturating_add(steps_of_hypothesis_lines(c.steps.as_slice()))
            .saturating_add(3);
    }
    sum
}

/// Two steps for each literal of a sum, and one.
fn steps_of_sum(summands: &[Summand]) -> u128
    ensures { result ≡ min (1 + 2 * length summands.now) (2 ^ 128 - 1) }
{
    (summands.len() as u128).saturating_mul(2).saturating_add(1)
}

/// How many numbers spell a path.
fn numbers_of_path(path: &[u64]) -> u128
    ensures numbers { result ≡ path_numbers path.now }
    ensures fits { result < 2 ^ 64 }
{
    (path.len() as u128).max(1)
}

/// The steps of the lines of a rule, or the greatest number where they are more.
pub fn steps_of_line(rule: &Rule) -> u128
    ensures { result ≡ min (steps_of rule.now) (2 ^ 128 - 1) }
{
    match rule {
        Rule::Taut(terms) => terms.len() as u128 + 1,
        Rule::AxiomRow(_, _, _) => 3,
        Rule::EventTerm(_) => 1,
        Rule::Weaken(_, terms) => terms.len() as u128 + 2,
        Rule::Cut(_, _, _) => 4,
        Rule::Instance(_, pairs) => steps_of_pairs(pairs.as_slice()),
        Rule::Reflexive(_) => 2,
        Rule::Replace(_, _, path, _, _) => numbers_of_path(path.as_slice()) + 4,
        Rule::Join(_, _, _) => 6,
        Rule::SplitFirst(_, _) => 4,
        Rule::SplitSecond(_, _) => 4,
        Rule::NotNot(_, _) => 3,
        Rule::Value(_) => 2,
        Rule::Linear(summands) => steps_of_sum(summands.as_slice()),
        Rule::Induct(_, _, _, _, cases) => steps_of_case_lines(cases.as_slice()).saturating_add(5),
    }
}
