//! The lines that each line of a block cites, and where each line is used last.
ghost use Rattle.std.specs.Prelude.{◌≡◌, ◌<◌, ◌∷◌, ℕ, suc, nat_eq, [], IfOk, length, map, get_or, if◌then◌else◌};
ghost use Rattle.nq_logtext.specs.Views.{view};
ghost use Rattle.nq_drops.specs.Uses.{cited, uses, is_rule, is_induction, is_listed, last_use};

use nq_logtext::{LogLine, Word};
use std::alloc::{AllocError, Global};

/// Is a line with this first word a rule line, which has a number?
pub fn is_rule(word: Word) -> bool
    ensures { result ≡ is_rule word }
{
    match word {
        Word::Taut => true,
        Word::Axiom => true,
        Word::Event => true,
        Word::Weaken => true,
        Word::Cut => true,
        Word::Inst => true,
        Word::Refl => true,
        Word::Replace => true,
        Word::Join => true,
        Word::Split => true,
        Word::NotNot => true,
        Word::Value => true,
        Word::Linear => true,
        Word::Induct => true,
        _ => false,
    }
}

fn is_induction(word: Word) -> bool
    ensures { result ≡ is_induction word }
{
    match word {
        Word::Induct => true,
        _ => false,
    }
}

/// The lines that a line cites.
fn cited(alloc: Global, line: &LogLine) -> Result<Vec<u64>, AllocError>
    ensures { IfOk result (λ ls. ls.items ≡ cited (view line.now)) }
{
    match line {
        LogLine::Weaken { line, .. } => Vec::from_slice(alloc, &[*line]),
        LogLine::Cut { first, second, .. } => Vec::from_slice(alloc, &[*first, *second]),
        LogLine::Inst { line, .. } => Vec::from_slice(alloc, &[*line]),
        LogLine::Replace { line, .. } => Vec::from_slice(alloc, &[*line]),
        LogLine::Join { first, second, .. } => Vec::from_slice(alloc, &[*first, *second]),
        LogLine::Split { line, .. } => Vec::from_slice(alloc, &[*line]),
        LogLine::NotNot { line, .. } => Vec::from_slice(alloc, &[*line]),
        LogLine::Induct { ordinal, base, .. } => Vec::from_slice(alloc, &[*ordinal, *base]),
        LogLine::Case { line, .. } => Vec::from_slice(alloc, &[*line]),
        LogLine::Hyp { line, .. } => Vec::from_slice(alloc, &[*line]),
        LogLine::Lemma { line, .. } => Vec::from_slice(alloc, &[*line]),
        LogLine::Measure { ordinal, lines, .. } => shown(alloc, *ordinal, lines.as_slice()),
        _ => Ok(Vec::new(alloc)),
    }
}

/// The lines that show a measure.
fn shown(alloc: Global, ordinal: u64, lines: &[u64]) -> Result<Vec<u64>, AllocError>
    ensures { IfOk result (λ ls. ls.items ≡ ordinal ∷ lines.now) }
{
    let mut all = Vec::from_slice(alloc, &[ordinal])?;
    all.extend_from_slice(lines)?;
    Ok(all)
}

/// What each rule line cites, in their order, and last what the closing line cites.
pub fn uses_of(alloc: Global, lines: &[LogLine]) -> Result<Vec<Vec<u64>>, AllocError>
    ensures { IfOk result (λ all. map (λ ls. ls.items) all.items ≡ uses [] (map view lines.now)) }
{
    let mut all = Vec::new(alloc);
    let mut waiting = Vec::new(alloc);
    for line in lines {
        let here = cited(alloc, line)?;
        if is_induction(line.word()) {
            waiting.extend_from_slice(here.as_slice())?;
            all.push(waiting)?;
            waiting = Vec::new(alloc);
        } else if is_rule(line.word()) {
            all.push(here)?;
        } else {
            waiting.extend_from_slice(here.as_slice())?;
        }
    }
    all.push(waiting)?;
    Ok(all)
}

/// Notes that a line is used by line n.
fn mark(last: &mut [u64], line: u64, n: u64)
    ensures count { length last.new ≡ length last.old }
    ensures marked { (k : ℕ) → k < length last.old → get_or last.new k 0 ≡ (if nat_eq line (suc k) then n else get_or last.old k 0) }
{
    if 0 < line && line <= last.len() as u64 {
        last[(line - 1) as usize] = n;
    }
}

/// Notes that these lines are used by line n.
fn note(last: &mut [u64], here: &[u64], n: u64)
    ensures count { length last.new ≡ length last.old }
    ensures noted { (k : ℕ) → k < length last.old → get_or last.new k 0 ≡ (if is_listed (suc k) here.now then n else get_or last.old k 0) }
{
    for l in here {
        mark(last, *l, n);
    }
}

/// The numbers from 1 on, so many.
fn numbers(alloc: Global, count: usize) -> Result<Vec<u64>, AllocError>
    ensures count { IfOk result (λ ns. length ns.items ≡ count) }
    ensures numbers { IfOk result (λ ns. (k : ℕ) → k < count → get_or ns.items k 0 ≡ suc k) }
{
    let mut all = Vec::new(alloc);
    for k in 0..count {
        all.push(k as u64 + 1)?;
    }
    Ok(all)
}

/// For each line, counted from 1, where it is used last.
pub fn last_uses(alloc: Global, all: &[Vec<u64>]) -> Result<Vec<u64>, AllocError>
    ensures count { IfOk result (λ last. length last.items ≡ length all.now) }
    ensures last { IfOk result (λ last. (k : ℕ) → k < length all.now → get_or last.items k 0 ≡ last_use (map (λ ls. ls.items) all.now) (suc k)) }
{
    let mut last = numbers(alloc, all.len())?;
    for (k, here) in all.iter().enumerate() {
        note(last.as_mut_slice(), here.as_slice(), k as u64 + 1);
    }
    Ok(last)
}
