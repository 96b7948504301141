//! What the lines that provers add speak of.
#![tactic(auto)]

ghost use Rattle.nq_own_lines.specs.OwnLines.{LinesStayOwn, NoLineIsForeign};

use nq_kernel::{held_work, ready_histories};
use nq_ready::own_terms;

/// The clauses of the lines of work over a ready history are over its own functions, with variables that a log can spell: of
/// work without lines, and of work that grows from such.
pub fn own_lines()
    ensures none { NoLineIsForeign }
    ensures grown { LinesStayOwn }
{
    ready_histories();
    held_work();
    own_terms();
}
