//! What the accessor takes from an object just made is smaller than the object: where the part meets its restriction, and where it
//! does not, since then it is a base, whose size is 0.
ghost use Rattle.std.specs.Prelude.{◌≡◌, ◌∷◌, [], IfOk};
ghost use Rattle.nq_logic.specs.Words.{add1_term, call1, call2, equal_term, not_term, zero_term};
ghost use Rattle.nq_arith.specs.Nests.{is_smaller};
ghost use Rattle.nq_bank.specs.Content.{term_at};
ghost use Rattle.nq_kernel.specs.Growing.{WorkStands};
ghost use Rattle.nq_lines.specs.Lines.{LineHasOnly};
ghost use Rattle.nq_replay.specs.Uncounted.{GrowsUncounted};
ghost use Rattle.nq_part_lines.specs.Five.{AreSmall};
ghost use Rattle.nq_part_lines.specs.Pieces.{IsPiece};
ghost use Rattle.nq_part_lines.specs.Small.{IsSmallIn};
ghost use Rattle.nq_part_lines.specs.Taken.{allowed_literals, base_literals};

use crate::cutting::cut_by;
use crate::five::{Five, at_five};
use crate::lines::cut;
use crate::piece::Piece;
use crate::sums::summand_line;
use nq_bank::{TermId, ground};
use nq_history::History;
use nq_kernel::Work;
use nq_shell_parts::{allowed_is_smaller, base_is_smaller};
use std::alloc::AllocError;

/// Adds the law of a part that is allowed, at terms.
fn allowed_law(work: &mut Work, history: &History, terms: Five) -> Result<u64, AllocError>
    requires stands { WorkStands history.now work.old }
    requires terms { AreSmall history.now work.old terms }
    ensures line { IfOk result (λ n. LineHasOnly work.new n (allowed_literals (term_at work.old.bank terms.a) (term_at work.old.bank terms.b) (term_at work.old.bank terms.x) (term_at work.old.bank terms.y) (term_at work.old.bank terms.z))) }
    ensures grows { GrowsUncounted history.now work.old work.new }
{
    let law = allowed_is_smaller(work, history)?;
    at_five(work, history, law, terms)
}

/// Adds the law of a part that is a base, at terms; what is in the place of Y does not matter.
fn base_law(work: &mut Work, history: &History, terms: Five) -> Result<u64, AllocError>
    requires stands { WorkStands history.now work.old }
    requires terms { AreSmall history.now work.old terms }
    ensures line { IfOk result (λ n. LineHasOnly work.new n (base_literals (term_at work.old.bank terms.a) (term_at work.old.bank terms.b) (term_at work.old.bank terms.x) (term_at work.old.bank terms.z))) }
    ensures grows { GrowsUncounted history.now work.old work.new }
{
    let law = base_is_smaller(work, history)?;
    at_five(work, history, law, terms)
}

/// Cuts the law of a part that is allowed: the part is a summand, the size of the object is one more than the sum, and an allowed
/// part is what the accessor takes.
fn allowed_cuts(
    work: &mut Work,
    history: &History,
    piece: Piece,
    taken: TermId,
    place: usize,
    more: usize,
    law: u64,
    summand: u64,
    size: u64,
    part: u64,
) -> Result<u64, AllocError>
    requires stands { WorkStands history.now work.old }
    requires piece { IsPiece history.now work.old place more piece }
    requires taken { IsSmallIn history.now work.old taken }
    requires law { LineHasOnly work.old law (allowed_literals (term_at work.old.bank taken) (term_at work.old.bank piece.object) (term_at work.old.bank piece.variable) (term_at work.old.bank piece.allowed) (term_at work.old.bank piece.sum)) }
    requires summand { LineHasOnly work.old summand (call2 "LESSP" (term_at work.old.bank piece.size) (add1_term (term_at work.old.bank piece.sum)) ∷ []) }
    requires size { LineHasOnly work.old size (term_at work.old.bank piece.equation ∷ []) }
    requires part { LineHasOnly work.old part (not_term (term_at work.old.bank piece.allowed) ∷ equal_term (term_at work.old.bank taken) (term_at work.old.bank piece.variable) ∷ []) }
    ensures line { IfOk result (λ n. LineHasOnly work.new n (not_term (term_at work.old.bank piece.allowed) ∷ is_smaller (term_at work.old.bank taken) (term_at work.old.bank piece.object) ∷ [])) }
    ensures grows { GrowsUncounted history.now work.old work.new }
{
    let first = cut_by(
        work,
        history,
        summand,
        law,
        ground::LESSP,
        piece.size,
        piece.successor,
    )?;
    let second = cut(work, history, size, first, piece.equation)?;
    cut_by(
        work,
        history,
        part,
        second,
        ground::EQUAL,
        taken,
        piece.variable,
    )
}

/// Adds the line that a part that is allowed is smaller, with the NOT of that it is.
pub fn allowed_line(
    work: &mut Work,
    history: &History,
    piece: Piece,
    taken: TermId,
    place: usize,
    more: usize,
    size: u64,
    part: u64,
) -> Result<u64, AllocError>
    requires stands { WorkStands history.now work.old }
    requires piece { IsPiece history.now work.old place more piece }
    requires taken { IsSmallIn history.now work.old taken }
    requires size { LineHasOnly work.old size (term_at work.old.bank piece.equation ∷ []) }
    requires part { LineHasOnly work.old part (not_term (term_at work.old.bank piece.allowed) ∷ equal_term (term_at work.old.bank taken) (term_at work.old.bank piece.variable) ∷ []) }
    ensures line { IfOk result (λ n. LineHasOnly work.new n (not_term (term_at work.old.bank piece.allowed) ∷ is_smaller (term_at work.old.bank taken) (term_at work.old.bank piece.object) ∷ [])) }
    ensures grows { GrowsUncounted history.now work.old work.new }
{
    let terms = Five {
        a: taken,
        b: piece.object,
        x: piece.variable,
        y: piece.allowed,
        z: piece.sum,
    };
    let law = allowed_law(work, history, terms)?;
    let summand = summand_line(work, history, piece.sum, place, more)?;
    allowed_cuts(
        work, history, piece, taken, place, more, law, summand, size, part,
    )
}

/// Cuts the law of a part that is a base: the size of the base is 0, the size of the object is one more than the sum, and the base is
/// what the accessor takes where the part is not allowed.
fn base_cuts(
    work: &mut Work,
    history: &History,
    piece: Piece,
    taken: TermId,
    base: TermId,
    none: TermId,
    place: usize,
    more: usize,
    law: u64,
    zero: u64,
    size: u64,
    wrong: u64,
) -> Result<u64, AllocError>
    requires stands { WorkStands history.now work.old }
    requires piece { IsPiece history.now work.old place more piece }
    requires taken { IsSmallIn history.now work.old taken }
    requires base { IsSmallIn history.now work.old base }
    requires none { IsSmallIn history.now work.old none }
    requires none_is { term_at work.old.bank none ≡ equal_term (call1 "COUNT" (term_at work.old.bank base)) zero_term }
    requires law { LineHasOnly work.old law (base_literals (term_at work.old.bank taken) (term_at work.old.bank piece.object) (term_at work.old.bank base) (term_at work.old.bank piece.sum)) }
    requires zero { LineHasOnly work.old zero (term_at work.old.bank none ∷ []) }
    requires size { LineHasOnly work.old size (term_at work.old.bank piece.equation ∷ []) }
    requires wrong { LineHasOnly work.old wrong (term_at work.old.bank piece.allowed ∷ equal_term (term_at work.old.bank taken) (term_at work.old.bank base) ∷ []) }
    ensures line { IfOk result (λ n. LineHasOnly work.new n (term_at work.old.bank piece.allowed ∷ is_smaller (term_at work.old.bank taken) (term_at work.old.bank piece.object) ∷ [])) }
    ensures grows { GrowsUncounted history.now work.old work.new }
{
    let first = cut(work, history, zero, law, none)?;
    let second = cut(work, history, size, first, piece.equation)?;
    cut_by(work, history, wrong, second, ground::EQUAL, taken, base)
}

/// Adds the line that a part is allowed, or smaller: where it is not allowed it is a base.
pub fn base_line(
    work: &mut Work,
    history: &History,
    piece: Piece,
    taken: TermId,
    base: TermId,
    none: TermId,
    place: usize,
    more: usize,
    zero: u64,
    size: u64,
    wrong: u64,
) -> Result<u64, AllocError>
    requires stands { WorkStands history.now work.old }
    requires piece { IsPiece history.now work.old place more piece }
    requires taken { IsSmallIn history.now work.old taken }
    requires base { IsSmallIn history.now work.old base }
    requires none { IsSmallIn history.now work.old none }
    requires none_is { term_at work.old.bank none ≡ equal_term (call1 "COUNT" (term_at work.old.bank base)) zero_term }
    requires zero { LineHasOnly work.old zero (term_at work.old.bank none ∷ []) }
    requires size { LineHasOnly work.old size (term_at work.old.bank piece.equation ∷ []) }
    requires wrong { LineHasOnly work.old wrong (term_at work.old.bank piece.allowed ∷ equal_term (term_at work.old.bank taken) (term_at work.old.bank base) ∷ []) }
    ensures line { IfOk result (λ n. LineHasOnly work.new n (term_at work.old.bank piece.allowed ∷ is_smaller (term_at work.old.bank taken) (term_at work.old.bank piece.object) ∷ [])) }
    ensures grows { GrowsUncounted history.now work.old work.new }
{
    let terms = Five {
        a: taken,
        b: piece.object,
        x: base,
        y: piece.allowed,
        z: piece.sum,
    };
    let law = base_law(work, history, terms)?;
    base_cuts(
        work, history, piece, taken, base, none, place, more, law, zero, size, wrong,
    )
}
