//! Which lines of a log a line rests on.
ghost use Rattle.std.specs.Prelude.{◌≡◌, length, IfOk};

use nq_kernel::{Log, Rule};
use nq_rule::{CaseOfInduction, InductionStep};
use std::alloc::{AllocError, Global};

/// As many marks as a log has lines, none of them set.
fn unmarked(alloc: Global, lines: u64) -> Result<Vec<bool>, AllocError>
    ensures { IfOk result (λ marks. length marks.items ≡ lines) }
{
    let mut marks = Vec::new(alloc);
    for _ in 0..lines {
        marks.push(false)?;
    }
    Ok(marks)
}

/// Is a line marked?
fn is_marked(marks: &[bool], line: u64) -> bool {
    if line == 0 {
        return false;
    }
    match marks.get((line - 1) as usize) {
        Some(marked) => *marked,
        None => false,
    }
}

/// Marks a line, if there is one of this number.
fn mark(marks: &mut [bool], line: u64) {
    if 0 < line && line <= marks.len() as u64 {
        marks[(line - 1) as usize] = true;
    }
}

/// Marks the lines that show that a measure falls.
fn mark_steps(marks: &mut [bool], steps: &[InductionStep]) {
    for step in steps {
        mark(marks, step.line);
    }
}

/// Marks the lines of the cases of an induction.
fn mark_cases(marks: &mut [bool], cases: &[CaseOfInduction]) {
    for case in cases {
        mark(marks, case.line);
        mark_steps(marks, case.steps.as_slice());
    }
}

/// Marks two lines.
fn mark_both(marks: &mut [bool], first: u64, second: u64) {
    mark(marks, first);
    mark(marks, second);
}

/// Marks the lines that a rule cites.
fn mark_cited(marks: &mut [bool], rule: &Rule) {
    match rule {
        Rule::Taut(_) => {}
        Rule::AxiomRow(_, _, _) => {}
        Rule::EventTerm(_) => {}
        Rule::Weaken(line, _) => mark(marks, *line),
        Rule::Cut(first, second, _) => mark_both(marks, *first, *second),
        Rule::Instance(line, _) => mark(marks, *line),
        Rule::Reflexive(_) => {}
        Rule::Replace(line, _, _, _, _) => mark(marks, *line),
        Rule::Join(first, second, _) => mark_both(marks, *first, *second),
        Rule::SplitFirst(line, _) => mark(marks, *line),
        Rule::SplitSecond(line, _) => mark(marks, *line),
        Rule::NotNot(line, _) => mark(marks, *line),
        Rule::Value(_) => {}
        Rule::Linear(_) => {}
        Rule::Induct(_, _, ordinal, base, cases) => {
            mark_both(marks, *ordinal, *base);
            mark_cases(marks, cases.as_slice());
        }
    }
}

/// Marks the lines that marked lines rest on.
fn mark_needed(marks: &mut [bool], log: &Log) {
    let count = marks.len() as u64;
    for later in 0..count {
        let line = count - later;
        if is_marked(marks, line) && log.stands(line) {
            mark_cited(marks, log.rule(line));
        }
    }
}

/// A mark for each line of a log: those are set of this line and of the lines that it rests on.
pub fn marks_of(alloc: Global, log: &Log, line: u64) -> Result<Vec<bool>, AllocError>
    ensures { IfOk result (λ marks. length marks.items ≡ length log.now) }
{
    let mut marks = unmarked(alloc, log.len())?;
    mark(marks.as_mut_slice(), line);
    mark_needed(marks.as_mut_slice(), log);
    Ok(marks)
}
