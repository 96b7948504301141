//! Laws over five variables, with terms in their places.
ghost use Rattle.std.specs.Prelude.{◌≡◌, IfOk, Some};
ghost use Rattle.nq_bank.specs.Content.{term_at};
ghost use Rattle.nq_clause.specs.Substitution.{substitution_at};
ghost use Rattle.nq_kernel.specs.Growing.{WorkStands, LineStands, held};
ghost use Rattle.nq_lines.specs.Instances.{ArePairsIn, InstancesTo};
ghost use Rattle.nq_replay.specs.Uncounted.{GrowsUncounted};
ghost use Rattle.nq_part_lines.specs.Five.{AreSmall, five_at};
ghost use Rattle.nq_part_lines.specs.LawLines.{IsLaw};

use crate::lines::{instance, symbol};
use nq_bank::TermId;
use nq_clause::Pair;
use nq_history::History;
use nq_kernel::Work;
use std::alloc::AllocError;

/// Terms in the places of the variables A, B, X, Y and Z.
#[derive(Clone, Copy, Debug, PartialEq, Eq)]
pub struct Five {
    /// In the place of A.
    pub a: TermId,
    /// In the place of B.
    pub b: TermId,
    /// In the place of X.
    pub x: TermId,
    /// In the place of Y.
    pub y: TermId,
    /// In the place of Z.
    pub z: TermId,
}

/// The pairs of A, B, X, Y and Z and five terms.
fn pairs_of_five(work: &mut Work, history: &History, terms: Five) -> Result<Vec<Pair>, AllocError>
    requires stands { WorkStands history.now work.old }
    requires terms { AreSmall history.now work.old terms }
    ensures pairs { IfOk result (λ ps. substitution_at work.new.bank ps.items ≡ five_at work.old.bank terms) }
    ensures over { IfOk result (λ ps. ArePairsIn history.now work.new ps.items) }
    ensures grows { GrowsUncounted history.now work.old work.new }
{
    let a = symbol(work, history, b"A")?;
    let b = symbol(work, history, b"B")?;
    let x = symbol(work, history, b"X")?;
    let y = symbol(work, history, b"Y")?;
    let z = symbol(work, history, b"Z")?;
    let in_a = Pair {
        variable: a,
        term: terms.a,
    };
    let in_b = Pair {
        variable: b,
        term: terms.b,
    };
    let in_x = Pair {
        variable: x,
        term: terms.x,
    };
    let in_y = Pair {
        variable: y,
        term: terms.y,
    };
    let in_z = Pair {
        variable: z,
        term: terms.z,
    };
    let pairs = vec![in work.bank.alloc(); in_a, in_b, in_x, in_y, in_z]?;
    Ok(pairs)
}

/// Adds a law over the variables A, B, X, Y and Z, with terms in their places.
pub fn at_five(
    work: &mut Work,
    history: &History,
    line: u64,
    terms: Five,
) -> Result<u64, AllocError>
    requires stands { WorkStands history.now work.old }
    requires line { LineStands work.old line }
    requires law { IsLaw (held work.old line) }
    requires terms { AreSmall history.now work.old terms }
    ensures line { IfOk result (λ n. InstancesTo work.old work.new (five_at work.old.bank terms) line n) }
    ensures grows { GrowsUncounted history.now work.old work.new }
{
    let pairs = pairs_of_five(work, history, terms)?;
    instance(work, history, line, pairs)
}
