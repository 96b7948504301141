//! The rule classes of types.
ghost use Rattle.std.specs.Prelude.{◌≡◌, ◌∷◌, ◌++◌, [], IfOk, OnOk, None, Some, codes, if◌then◌else◌, map, option_to_list};
ghost use Rattle.nq_history.specs.Events.{class_of};
ghost use Rattle.nq_events.specs.Refusals.{out_of_scope};
ghost use Rattle.nq_events.specs.TermRefusals.{types_refusal};
ghost use Rattle.nq_events.specs.Reading.{classes_of};
ghost use Rattle.nq_events.specs.Parts.{Meta, type_in};
ghost use Rattle.nq_sexp.specs.Tree.{tree};
ghost use Rattle.nq_event.specs.Reads.{value_or};
ghost use Rattle.nq_event.specs.Shapes.{type_at, types_at};

use crate::parts::{TypeOutline, type_of};
use nq_history::Class;
use nq_sexp::Sexp;
use std::alloc::{AllocError, Global};

/// The type of a form. Any other form counts as one of META.
fn type_or_meta(form: &Sexp<'_>) -> TypeOutline
    ensures { type_at result ≡ value_or Meta (type_in (tree form.now)) }
{
    match type_of(form) {
        Some(of_type) => of_type,
        None => TypeOutline::Meta,
    }
}

/// Is a type one of META?
fn is_meta(of_type: TypeOutline) -> bool
    ensures { types_refusal (type_at of_type ∷ []) ≡ (if result then Some (out_of_scope (codes "META")) else None) }
{
    match of_type {
        TypeOutline::Meta => true,
        TypeOutline::Rewrite => false,
        TypeOutline::Elim => false,
        TypeOutline::Generalize => false,
    }
}

/// Is one of the types one of META, which the language leaves out?
pub fn have_meta(types: &[Sexp<'_>]) -> bool
    ensures { types_refusal (types_at types.now) ≡ (if result then Some (out_of_scope (codes "META")) else None) }
{
    for form in types.iter() {
        if is_meta(type_or_meta(form)) {
            return true;
        }
    }
    false
}

/// The class of a type.
fn class_of(of_type: TypeOutline) -> Option<Class>
    ensures { map class_of (option_to_list result) ≡ classes_of (type_at of_type ∷ []) }
{
    match of_type {
        TypeOutline::Rewrite => Some(Class::Rewrite),
        TypeOutline::Elim => Some(Class::Elim),
        TypeOutline::Generalize => Some(Class::Generalize),
        TypeOutline::Meta => None,
    }
}

/// One class more, if there is one.
fn add_class(classes: &mut Vec<Class>, class: Option<Class>) -> Result<(), AllocError>
    ensures { OnOk result (classes.new.items ≡ classes.old.items ++ option_to_list class) }
{
    match class {
        Some(class) => Ok(classes.push(class)?),
        None => Ok(()),
    }
}

/// The rule classes of types, in their order.
pub fn classes_of(alloc: Global, types: &[Sexp<'_>]) -> Result<Vec<Class>, AllocError>
    ensures { IfOk result (λ classes. map class_of classes.items ≡ classes_of (types_at types.now)) }
{
    let mut classes = Vec::new(alloc);
    for form in types.iter() {
        add_class(&mut classes, class_of(type_or_meta(form)))?;
    }
    Ok(classes)
}
