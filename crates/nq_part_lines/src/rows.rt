//! Rows of the tables of axioms.
ghost use Rattle.std.specs.Prelude.{◌≡◌, IfOk, Some};
ghost use Rattle.nq_bank.specs.Content.{IsNamed, text_at};
ghost use Rattle.nq_proof.specs.Clauses.{Clause, distinct};
ghost use Rattle.nq_proof.specs.Rows.{axiom_clause};
ghost use Rattle.nq_history.specs.Events.{events_at};
ghost use Rattle.nq_kernel.specs.Growing.{WorkStands, LineHolds};
ghost use Rattle.nq_replay.specs.Uncounted.{GrowsUncounted};
ghost use Rattle.nq_part_lines.specs.Known.{HasRow};

use nq_bank::Sym;
use nq_history::History;
use nq_kernel::{Rule, Work};
use nq_replay::add_line;
use std::alloc::AllocError;

/// Adds a row of a name that has no deep literal.
pub fn row_line(
    work: &mut Work,
    history: &History,
    name: Sym,
    row: u64,
    part: u64,
) -> Result<u64, AllocError>
    requires stands { WorkStands history.now work.old }
    requires named { IsNamed work.old.bank name }
    requires row { HasRow (events_at work.old.bank history.now) (text_at work.old.bank name) row part }
    ensures line { IfOk result (λ n. (c : Clause) → axiom_clause (events_at work.old.bank history.now) (text_at work.old.bank name) row part ≡ Some c → LineHolds work.new n (distinct c)) }
    ensures grows { GrowsUncounted history.now work.old work.new }
{
    add_line(work, history, Rule::AxiomRow(name, row, part))
}
