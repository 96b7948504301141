// What stands in a form.
ghost use Rattle.std.specs.Prelude.{◌≡◌, List, Option, map};
ghost use Rattle.std.specs.Option.{option_map};
ghost use Rattle.nq_sexp.specs.Tree.{tree};
ghost use Rattle.nq_comment.specs.ReportViews.{text_of};
ghost use Rattle.nq_events.specs.Parts.{symbol_in};
ghost use Rattle.nq_answers.specs.Headers.{front_elements};

use nq_sexp::Sexp;

/// The name of a symbol.
#[tactic(auto, using(nq_sexp::proofs::Trees::tree_rules))]
pub(crate) fn symbol_in<'a>(form: &Sexp<'a>) -> Option<&'a [u8]>
    ensures { text_of result ≡ symbol_in (tree form.now) }
{
    match form {
        Sexp::Symbol(name) => Some(name),
        Sexp::Numeral(_, _) => None,
        Sexp::Str(_) => None,
        Sexp::Quote(_) => None,
        Sexp::List(_, _) => None,
    }
}

/// The elements of a list, but for one behind a dot.
#[tactic(auto, using(nq_sexp::proofs::Trees::tree_rules, crate::proofs::Elements::front_rules))]
pub(crate) fn front_elements<'a>(form: &Sexp<'a>) -> Option<&'a [Sexp<'a>]>
    ensures { option_map (λ items. map tree items.now) result ≡ front_elements (tree form.now) }
{
    match form {
        Sexp::Symbol(_) => None,
        Sexp::Numeral(_, _) => None,
        Sexp::Str(_) => None,
        Sexp::Quote(_) => None,
        Sexp::List(items, _) => Some(items),
    }
}
