//! Lines that were made for terms, to be used again.
//!
//! A kept line is used again where its clause fits: its literals are looked at then, so nothing has to be known of the list.
ghost use Rattle.std.specs.Prelude.{◌≡◌, All, IfSome, IsTrue};
ghost use Rattle.nq_bank.specs.Content.{Stands};
ghost use Rattle.nq_kernel.specs.Meaning.{IsOver};
ghost use Rattle.nq_quick.specs.Lines.{Says};

use crate::literals::are_literals;
use nq_bank::TermId;
use nq_kernel::Work;

/// A line that was made for a term.
#[derive(Clone, Copy)]
pub struct Kept {
    /// The term.
    pub term: TermId,
    /// The line.
    pub line: u64,
}

/// Does a line stand, with no literal but a term or its NOT, as the term is true or false, and these?
pub fn says(work: &Work, line: u64, value: bool, t: TermId, others: &[TermId]) -> bool
    requires log { IsOver work.now.bank work.now.log }
    requires term { Stands work.now.bank t }
    requires others { All (Stands work.now.bank) others.now }
    ensures { IsTrue result → Says work.now line value t others.now }
{
    if !work.log.stands(line) {
        return false;
    }
    let literals = work.log.clause_over(&work.bank, line);
    are_literals(&work.bank, literals, value, t, others)
}

/// A kept line of a term whose clause fits.
pub fn find_line(
    work: &Work,
    kept: &[Kept],
    value: bool,
    t: TermId,
    others: &[TermId],
) -> Option<u64>
    requires log { IsOver work.now.bank work.now.log }
    requires term { Stands work.now.bank t }
    requires others { All (Stands work.now.bank) others.now }
    ensures { IfSome result (λ n. Says work.now n value t others.now) }
{
    for k in kept {
        if k.term.0 == t.0 && says(work, k.line, value, t, others) {
            return Some(k.line);
        }
    }
    None
}
