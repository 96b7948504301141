//! The size of a value that is made of its parts.
ghost use Rattle.nq_kernel.specs.Growing.{WorkStands};
ghost use Rattle.nq_replay.specs.Uncounted.{GrowsUncounted};

use crate::apart::{Apart, about_whole, row_at_parts};
use crate::halt::Halt;
use crate::making::{call, deny};
use crate::reading::last_literal;
use nq_bank::{TermId, ground};
use nq_history::History;
use nq_kernel::Work;

/// The row that tells the size of an object just made.
const SIZE_OF_MADE: u64 = 14;

/// The size of a value.
#[derive(Clone, Copy)]
pub struct Size {
    /// That it is one more than the sum of the sizes of the parts.
    pub equation: TermId,
    /// The NOT of that.
    pub denied: TermId,
    /// The line that it is so, with the denials of tests.
    pub line: u64,
}

/// Tells the size of a value.
pub fn size_of(work: &mut Work, history: &History, apart: Apart) -> Result<Size, Halt>
    requires { WorkStands history.now work.old }
    ensures { GrowsUncounted history.now work.old work.new }
{
    let row = row_at_parts(work, history, apart, SIZE_OF_MADE, 0)?;
    let line = about_whole(work, history, apart, row)?;
    let equation = last_literal(work, line)?;
    let denied = deny(work, history, equation)?;
    Ok(Size {
        equation,
        denied,
        line,
    })
}

/// That the size of one term is below that of another.
#[derive(Clone, Copy)]
pub struct Descent {
    /// The size of the first.
    pub small: TermId,
    /// That of the second.
    pub large: TermId,
    /// That it is below.
    pub smaller: TermId,
}

/// Makes that the size of one term is below that of another.
pub fn descent_of(work: &mut Work, history: &History, t: TermId, u: TermId) -> Result<Descent, Halt>
    requires { WorkStands history.now work.old }
    ensures { GrowsUncounted history.now work.old work.new }
{
    let small = call(work, history, ground::COUNT, &[t])?;
    let large = call(work, history, ground::COUNT, &[u])?;
    let smaller = call(work, history, ground::LESSP, &[small, large])?;
    Ok(Descent {
        small,
        large,
        smaller,
    })
}
