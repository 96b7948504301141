//! Rules with other numbers for the lines that they cite.
ghost use Rattle.std.specs.Prelude.{◌≡◌, IfOk};
ghost use Rattle.nq_needed.specs.Renumbering.{number_in, IsRenumbered, IsRenumberedStep, AreRenumberedSteps, IsRenumberedCase, AreRenumberedCases};

use crate::numbers::number_at;
use nq_kernel::Rule;
use nq_rule::{CaseOfInduction, InductionStep};
use std::alloc::{AllocError, Global};

/// An instance at which a case of an induction uses its claim, with the new number of its line.
fn renumbered_step(
    alloc: Global,
    numbers: &[u64],
    step: &InductionStep,
) -> Result<InductionStep, AllocError>
    ensures { IfOk result (λ made. IsRenumberedStep (number_in numbers.now) step.now made) }
{
    let pairs = Vec::from_slice(alloc, step.pairs.as_slice())?;
    Ok(InductionStep {
        line: number_at(numbers, step.line),
        pairs,
    })
}

/// The same of several.
fn renumbered_steps(
    alloc: Global,
    numbers: &[u64],
    steps: &[InductionStep],
) -> Result<Vec<InductionStep>, AllocError>
    ensures { IfOk result (λ made. AreRenumberedSteps (number_in numbers.now) steps.now made.items) }
{
    let mut made = Vec::new(alloc);
    for step in steps {
        let one = renumbered_step(alloc, numbers, step)?;
        made.push(one)?;
    }
    Ok(made)
}

/// A case of an induction, with the new numbers of the lines that it cites.
fn renumbered_case(
    alloc: Global,
    numbers: &[u64],
    case: &CaseOfInduction,
) -> Result<CaseOfInduction, AllocError>
    ensures { IfOk result (λ made. IsRenumberedCase (number_in numbers.now) case.now made) }
{
    let steps = renumbered_steps(alloc, numbers, case.steps.as_slice())?;
    Ok(CaseOfInduction {
        test: case.test,
        line: number_at(numbers, case.line),
        steps,
    })
}

/// The same of several.
fn renumbered_cases(
    alloc: Global,
    numbers: &[u64],
    cases: &[CaseOfInduction],
) -> Result<Vec<CaseOfInduction>, AllocError>
    ensures { IfOk result (λ made. AreRenumberedCases (number_in numbers.now) cases.now made.items) }
{
    let mut made = Vec::new(alloc);
    for case in cases {
        let one = renumbered_case(alloc, numbers, case)?;
        made.push(one)?;
    }
    Ok(made)
}

/// The rule with the new numbers of the lines that it cites.
pub fn renumbered(alloc: Global, numbers: &[u64], rule: &Rule) -> Result<Rule, AllocError>
    ensures { IfOk result (λ made. IsRenumbered (number_in numbers.now) rule.now made) }
{
    match rule {
        Rule::Taut(terms) => Ok(Rule::Taut(Vec::from_slice(alloc, terms.as_slice())?)),
        Rule::AxiomRow(name, row, part) => Ok(Rule::AxiomRow(*name, *row, *part)),
        Rule::EventTerm(name) => Ok(Rule::EventTerm(*name)),
        Rule::Weaken(line, terms) => {
            let copied = Vec::from_slice(alloc, terms.as_slice())?;
            Ok(Rule::Weaken(number_at(numbers, *line), copied))
        }
        Rule::Cut(first, second, t) => {
            let left = number_at(numbers, *first);
            Ok(Rule::Cut(left, number_at(numbers, *second), *t))
        }
        Rule::Instance(line, pairs) => {
            let copied = Vec::from_slice(alloc, pairs.as_slice())?;
            Ok(Rule::Instance(number_at(numbers, *line), copied))
        }
        Rule::Reflexive(t) => Ok(Rule::Reflexive(*t)),
        Rule::Replace(line, place, path, t, side) => {
            let copied = Vec::from_slice(alloc, path.as_slice())?;
            Ok(Rule::Replace(number_at(numbers, *line), *place, copied, *t, *side))
        }
        Rule::Join(first, second, parts) => {
            let left = number_at(numbers, *first);
            Ok(Rule::Join(left, number_at(numbers, *second), *parts))
        }
        Rule::SplitFirst(line, place) => Ok(Rule::SplitFirst(number_at(numbers, *line), *place)),
        Rule::SplitSecond(line, place) => Ok(Rule::SplitSecond(number_at(numbers, *line), *place)),
        Rule::NotNot(line, place) => Ok(Rule::NotNot(number_at(numbers, *line), *place)),
        Rule::Value(t) => Ok(Rule::Value(*t)),
        Rule::Linear(sum) => Ok(Rule::Linear(Vec::from_slice(alloc, sum.as_slice())?)),
        Rule::Induct(claim, measure, ordinal, base, cases) => {
            let made = renumbered_cases(alloc, numbers, cases.as_slice())?;
            let first = number_at(numbers, *ordinal);
            Ok(Rule::Induct(*claim, *measure, first, number_at(numbers, *base), made))
        }
    }
}
