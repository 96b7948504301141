//! What COUNT of a value opens to: the axiom on the size of its shell's objects.
ghost use Rattle.std.specs.Prelude.{◌≡◌, IfOk, MatchOption, None, codes};
ghost use Rattle.nq_bank.specs.Content.{term_at};
ghost use Rattle.nq_clause.specs.Substitution.{substitution_at};
ghost use Rattle.nq_history.specs.Events.{events_at};
ghost use Rattle.nq_kernel.specs.Growing.{WorkStands};
ghost use Rattle.nq_eval.specs.Lines.{GrowsUncounted, IsUsable};
ghost use Rattle.nq_eval.specs.Rows.{ArePairsIn};
ghost use Rattle.nq_eval.specs.Opened.{IsOpening};
ghost use Rattle.nq_eval.specs.Measured.{IsCount, IsCountCall, IsMadeOf, IsMadeOfTwo, for_part, for_parts};
ghost use Rattle.nq_fragments.specs.Openings.{opening_of};

use crate::object::{Object, object_of};
use crate::openings::Opening;
use crate::rows::symbol;
use nq_bank::{TermId, ground, ground_name};
use nq_clause::Pair;
use nq_history::History;
use nq_kernel::Work;
use std::alloc::AllocError;

/// The row of a shell's table that tells the size of what its constructor makes.
const SIZE_ROW: u64 = 14;

/// A term in place of X1.
fn pair_for(work: &mut Work, history: &History, a: TermId) -> Result<Vec<Pair>, AllocError>
    requires stands { WorkStands history.now work.old }
    requires part { IsUsable work.old.bank history.now a }
    ensures pairs { IfOk result (λ pairs. ArePairsIn work.new.bank history.now pairs.items) }
    ensures reads { IfOk result (λ pairs. substitution_at work.new.bank pairs.items ≡ for_part (term_at work.new.bank a)) }
    ensures grows { GrowsUncounted history.now work.old work.new }
{
    let x = symbol(work, history, b"X1")?;
    let pairs = vec![in work.bank.alloc();
        Pair {
            variable: x,
            term: a
        },
    ]?;
    Ok(pairs)
}

/// Two terms in place of X1 and X2.
fn pairs_for(
    work: &mut Work,
    history: &History,
    a: TermId,
    b: TermId,
) -> Result<Vec<Pair>, AllocError>
    requires stands { WorkStands history.now work.old }
    requires first { IsUsable work.old.bank history.now a }
    requires second { IsUsable work.old.bank history.now b }
    ensures pairs { IfOk result (λ pairs. ArePairsIn work.new.bank history.now pairs.items) }
    ensures reads { IfOk result (λ pairs. substitution_at work.new.bank pairs.items ≡ for_parts (term_at work.new.bank a) (term_at work.new.bank b)) }
    ensures grows { GrowsUncounted history.now work.old work.new }
{
    let x = symbol(work, history, b"X1")?;
    let y = symbol(work, history, b"X2")?;
    let first = Pair {
        variable: x,
        term: a,
    };
    let second = Pair {
        variable: y,
        term: b,
    };
    let pairs = vec![in work.bank.alloc(); first, second]?;
    Ok(pairs)
}

/// The opening of COUNT of a pair.
fn pair_opening(
    work: &mut Work,
    history: &History,
    u: TermId,
    a: TermId,
    b: TermId,
) -> Result<Opening, AllocError>
    requires stands { WorkStands history.now work.old }
    requires call { IsMadeOfTwo work.old.bank history.now u a b }
    ensures opening { IfOk result (λ o. IsOpening work.new.bank history.now u o) }
    ensures grows { GrowsUncounted history.now work.old work.new }
{
    let pairs = pairs_for(work, history, a, b)?;
    let name = ground_name(&work.bank, ground::CONS);
    Ok(Opening {
        name,
        row: SIZE_ROW,
        pairs,
    })
}

/// The opening of COUNT of an atom.
fn atom_opening(
    work: &mut Work,
    history: &History,
    u: TermId,
    a: TermId,
) -> Result<Opening, AllocError>
    requires stands { WorkStands history.now work.old }
    requires call { IsMadeOf work.old.bank history.now (codes "PACK") u a }
    ensures opening { IfOk result (λ o. IsOpening work.new.bank history.now u o) }
    ensures grows { GrowsUncounted history.now work.old work.new }
{
    let pairs = pair_for(work, history, a)?;
    let name = ground_name(&work.bank, ground::PACK);
    Ok(Opening {
        name,
        row: SIZE_ROW,
        pairs,
    })
}

/// The opening of COUNT of a negative number.
fn negative_opening(
    work: &mut Work,
    history: &History,
    u: TermId,
    a: TermId,
) -> Result<Opening, AllocError>
    requires stands { WorkStands history.now work.old }
    requires call { IsMadeOf work.old.bank history.now (codes "MINUS") u a }
    ensures opening { IfOk result (λ o. IsOpening work.new.bank history.now u o) }
    ensures grows { GrowsUncounted history.now work.old work.new }
{
    let pairs = pair_for(work, history, a)?;
    let name = ground_name(&work.bank, ground::MINUS);
    Ok(Opening {
        name,
        row: SIZE_ROW,
        pairs,
    })
}

/// The axiom that opens COUNT of a value; none where the value is T or F.
fn opening_of_one(
    work: &mut Work,
    history: &History,
    u: TermId,
    v: TermId,
) -> Result<Option<Opening>, AllocError>
    requires stands { WorkStands history.now work.old }
    requires count { IsCount work.old.bank history.now u v }
    ensures opening { IfOk result (λ found. MatchOption found (opening_of (events_at work.new.bank history.now) (term_at work.new.bank u) ≡ None) (IsOpening work.new.bank history.now u)) }
    ensures grows { GrowsUncounted history.now work.old work.new }
{
    match object_of(&work.bank, v) {
        Object::True => Ok(None),
        Object::False => Ok(None),
        Object::Number(_) => unreachable!(),
        Object::Pair(a, b) => Ok(Some(pair_opening(work, history, u, a, b)?)),
        Object::Atom(a) => Ok(Some(atom_opening(work, history, u, a)?)),
        Object::Negative(a) => Ok(Some(negative_opening(work, history, u, a)?)),
    }
}

/// The axiom that opens a call of COUNT on values; none where nothing opens it.
pub fn size_opening(
    work: &mut Work,
    history: &History,
    u: TermId,
    values: &[TermId],
) -> Result<Option<Opening>, AllocError>
    requires stands { WorkStands history.now work.old }
    requires call { IsCountCall work.old.bank history.now u values.now }
    ensures opening { IfOk result (λ found. MatchOption found (opening_of (events_at work.new.bank history.now) (term_at work.new.bank u) ≡ None) (IsOpening work.new.bank history.now u)) }
    ensures grows { GrowsUncounted history.now work.old work.new }
{
    match values {
        [v] => opening_of_one(work, history, u, *v),
        [] => Ok(None),
        _ => Ok(None),
    }
}
