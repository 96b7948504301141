//! Terms that are read from lines.
ghost use Rattle.std.specs.Prelude.{◌≡◌, ◌∷◌, [], IsSome, Some};
ghost use Rattle.nq_logic.specs.Terms.{Term};
ghost use Rattle.nq_bank.specs.Content.{Stands, term_at};
ghost use Rattle.nq_bank.specs.Parts.{parts_of};
ghost use Rattle.nq_proof.specs.Clauses.{literal_at};
ghost use Rattle.nq_kernel.specs.Growing.{WorkStands, LineHolds};
ghost use Rattle.nq_shell_parts.specs.Summands.{IsSum, summand};
ghost use Rattle.nq_part_lines.specs.Pieces.{IsPiece, IsSizeEquation};
ghost use Rattle.nq_part_lines.specs.Single.{HasOne};
ghost use Rattle.nq_part_lines.specs.Small.{IsSmallIn};

use crate::piece::Piece;
use nq_bank::TermId;
use nq_history::History;
use nq_kernel::Work;
use nq_lines::argument_at;

/// The one literal of a line.
pub fn only_literal(work: &Work, history: &History, line: u64) -> TermId
    requires stands { WorkStands history.now work.now }
    requires line { HasOne work.now line }
    ensures literal { (t : Term) → LineHolds work.now line (t ∷ []) → term_at work.now.bank result ≡ t }
    ensures stands { Stands work.now.bank result }
{
    let literals = work.log.clause_over(&work.bank, line);
    literals[0]
}

/// The argument of a call at a place, counted from 1.
pub fn small_argument(work: &Work, history: &History, t: TermId, place: u64) -> TermId
    requires term { IsSmallIn history.now work.now t }
    requires place { IsSome (literal_at place (parts_of (term_at work.now.bank t))) }
    ensures argument { literal_at place (parts_of (term_at work.now.bank t)) ≡ Some (term_at work.now.bank result) }
    ensures small { IsSmallIn history.now work.now result }
{
    argument_at(&work.bank, t, place)
}

/// The summand before which so many stand, and behind which so many.
pub fn summand_at(work: &Work, history: &History, sum: TermId, place: usize, more: usize) -> TermId
    requires term { IsSmallIn history.now work.now sum }
    requires sum { IsSum place more (term_at work.now.bank sum) }
    ensures summand { term_at work.now.bank result ≡ summand place more (term_at work.now.bank sum) }
    ensures small { IsSmallIn history.now work.now result }
{
    if place > 0 {
        let rest = small_argument(work, history, sum, 2);
        return summand_at(work, history, rest, place - 1, more);
    }
    if more > 0 {
        small_argument(work, history, sum, 1)
    } else {
        sum
    }
}

/// The terms of an equation of the size of an object that speak of one part: before it so many stand, and behind it so many.
pub fn read_piece(
    work: &Work,
    history: &History,
    equation: TermId,
    place: usize,
    more: usize,
) -> Piece
    requires equation { IsSmallIn history.now work.now equation }
    requires size { IsSizeEquation place more (term_at work.now.bank equation) }
    ensures piece { IsPiece history.now work.now place more result }
    ensures equation { result.equation ≡ equation }
{
    let count = small_argument(work, history, equation, 1);
    let successor = small_argument(work, history, equation, 2);
    let object = small_argument(work, history, count, 1);
    let sum = small_argument(work, history, successor, 1);
    let size = summand_at(work, history, sum, place, more);
    let allowed = small_argument(work, history, size, 1);
    let sized = small_argument(work, history, size, 2);
    let variable = small_argument(work, history, sized, 1);
    Piece {
        equation,
        object,
        successor,
        sum,
        size,
        allowed,
        variable,
    }
}
