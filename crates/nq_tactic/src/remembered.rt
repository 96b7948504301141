//! Which lines were found of goals. It decides only what is tried: whether such a line serves is tested where it is asked for.

use nq_bank::TermId;
use std::alloc::Global;
use std::collections::HashMap;

/// The factor that mixes the bits of a mark.
const FACTOR: u64 = 0x9E37_79B9_7F4A_7C15;

/// The mark of a goal, in whatever order its literals stand.
fn mark_of(goal: &[TermId]) -> u64 {
    let mut sum: u64 = 0;
    for literal in goal {
        let product = (literal.0 ^ FACTOR).wrapping_mul(FACTOR);
        sum = sum.wrapping_add(product ^ (product >> 29));
    }
    sum
}

/// The lines that were found of goals, by the marks of these.
#[derive(Drop)]
pub struct Remembered {
    lines: HashMap<u64, u64>,
}

impl Remembered {
    /// None was found yet.
    pub fn new(alloc: Global) -> Remembered {
        Remembered {
            lines: HashMap::new(alloc),
        }
    }

    /// The line that was found of a goal with the mark of this one.
    pub fn line_of(&self, goal: &[TermId]) -> Option<u64> {
        self.lines.get(&mark_of(goal)).copied()
    }

    /// Keeps the line that was found of a goal. Where memory is wanting it is not kept.
    pub fn keep(&mut self, goal: &[TermId], line: u64) {
        let _ = self.lines.insert(mark_of(goal), line);
    }
}
