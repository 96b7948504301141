//! GEN: terms of a goal are replaced by new variables.
ghost use Rattle.std.specs.Prelude.{◌≡◌, ◌∷◌, [], IfOk, Err, map};
ghost use Rattle.nq_bank.specs.Content.{terms_at};
ghost use Rattle.nq_clause.specs.Substitution.{substitution_at};
ghost use Rattle.nq_proof.specs.Clauses.{distinct};
ghost use Rattle.nq_kernel.specs.declared.verdict.MoveKind.TheVariants as kind;
ghost use Rattle.nq_goals.specs.Replacing.{exchanged};
ghost use Rattle.nq_moves.specs.Found.{goals_at};
ghost use Rattle.nq_moves.specs.Naming.{exchange_by, IsRenaming};
ghost use Rattle.nq_moves.specs.Ways.{IsMove};

use crate::clauses::distinct_clause;
use crate::moved::{Moved, Why};
use crate::naming::Renaming;
use nq_bank::TermId;
use nq_clause::Pair;
use nq_history::History;
use nq_kernel::{MoveKind, Stop, Work};
use std::alloc::{AllocError, Global};

fn try_generalized(alloc: Global, pairs: Vec<Pair>, child: Vec<TermId>) -> Result<Moved, AllocError>
    ensures kind { IfOk result (λ moved. moved.why.kind ≡ kind.Gen) }
    ensures children { IfOk result (λ moved. moved.children.items ≡ child ∷ []) }
    ensures pairs { IfOk result (λ moved. moved.why.pairs ≡ pairs) }
{
    let mut children = Vec::new(alloc);
    children.push(child)?;
    let why = Why {
        kind: MoveKind::Gen,
        lines: Vec::new(alloc),
        pairs,
        literals: Vec::new(alloc),
        crossing: None,
        eliminated: None,
    };
    Ok(Moved { children, why })
}

/// What GEN leads to.
fn moved_by_renaming(alloc: Global, pairs: Vec<Pair>, child: Vec<TermId>) -> Result<Moved, Stop>
    ensures kind { IfOk result (λ moved. moved.why.kind ≡ kind.Gen) }
    ensures children { IfOk result (λ moved. moved.children.items ≡ child ∷ []) }
    ensures pairs { IfOk result (λ moved. moved.why.pairs ≡ pairs) }
    ensures memory { result ≡ Err Stop.OutOfSteps → ⊥ }
{
    match try_generalized(alloc, pairs, child) {
        Ok(moved) => Ok(moved),
        Err(_) => Err(Stop::Memory),
    }
}

/// GEN by new variables in the places of terms.
pub fn generalize_by(
    work: &Work,
    history: &History,
    goal: &[TermId],
    renaming: Renaming,
) -> Result<Moved, Stop>
    requires renaming { IsRenaming history.now work.now goal.now renaming }
    ensures moved { IfOk result (IsMove history.now work.now goal.now) }
    ensures leads { IfOk result (λ moved. goals_at work.now.bank moved.children.items ≡ distinct (map (exchanged (exchange_by (substitution_at work.now.bank renaming.pairs.items))) (terms_at work.now.bank goal.now)) ∷ []) }
    ensures memory { result ≡ Err Stop.OutOfSteps → ⊥ }
{
    let Renaming { pairs, literals } = renaming;
    let child = distinct_clause(&work.bank, literals.as_slice())?;
    moved_by_renaming(work.bank.alloc(), pairs, child)
}
