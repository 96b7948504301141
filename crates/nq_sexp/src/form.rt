// Forms that are made of others, in an arena.
ghost use Rattle.std.specs.Prelude.{◌≡◌, IfOk};
ghost use Rattle.nq_form.specs.Form.{quoted, listed, end, dotted};
ghost use Rattle.nq_sexp.specs.Tree.{tree, trees};

use crate::Sexp;
use bumpalo::Bump;
use std::alloc::AllocError;

#[tactic(auto, using(crate::proofs::Trees::tree_rules))]
pub(crate) fn quote<'a>(arena: &'a Bump, form: Sexp<'a>) -> Result<Sexp<'a>, AllocError>
    ensures { IfOk result (λ r. tree r ≡ quoted (tree form.entry)) }
{
    let inner = arena.try_alloc(form)?;
    Ok(Sexp::Quote(inner))
}

#[tactic(auto, using(crate::proofs::Trees::tree_rules))]
pub(crate) fn list<'a>(arena: &'a Bump, forms: &[Sexp<'a>]) -> Result<Sexp<'a>, AllocError>
    ensures { IfOk result (λ r. tree r ≡ listed (trees forms.now end)) }
{
    let items = arena.try_alloc_slice_copy(forms)?;
    Ok(Sexp::List(items, None))
}

#[tactic(auto, using(crate::proofs::Trees::tree_rules))]
pub(crate) fn dotted_list<'a>(
    arena: &'a Bump,
    forms: &[Sexp<'a>],
    tail: Sexp<'a>,
) -> Result<Sexp<'a>, AllocError>
    ensures { IfOk result (λ r. tree r ≡ listed (trees forms.now (dotted (tree tail.entry)))) }
{
    let items = arena.try_alloc_slice_copy(forms)?;
    let tail = arena.try_alloc(tail)?;
    Ok(Sexp::List(items, Some(tail)))
}
