//! The first refusal that is met in a form, from left to right, a form before its parts.
ghost use Rattle.std.specs.Prelude.{◌≡◌, drop};
ghost use Rattle.nq_form.specs.Form.{listed, end};
ghost use Rattle.nq_language.specs.Refusals.{met, all_met, clauses_met, keyed_met, bound_met, choice_met, binding_met, parts_met};
ghost use Rattle.nq_sexp.specs.Tree.{tree, trees};
ghost use Rattle.nq_abbrev.specs.Known.{arity_over};
ghost use Rattle.nq_abbrev.specs.Met.{met_of};
ghost use Rattle.nq_abbrev.specs.Parts.{test_met, value_met};
ghost use Rattle.nq_abbrev.specs.Words.{word_at};

use crate::arities::{Arities, arity_of};
use crate::calls::own_refusal;
use crate::objects::{arguments_refusal, key_refusal, object_refusal};
use crate::refusal::Refusal;
use crate::shapes::{is_pair, symbol_of};
use crate::word::{Word, word_in};
use nq_bank::Bank;
use nq_sexp::Sexp;

/// The first refusal in a form. It takes no memory.
#[cycle(forms)]
#[tactic(auto, using(nq_sexp::proofs::Trees::tree_rules), unfolding(nq_language::specs::Refusals::met, nq_language::specs::Refusals::parts_met))]
pub fn first_refusal<'a, A: Arities>(
    bank: &Bank,
    arities: &A,
    form: &Sexp<'a>,
) -> Option<Refusal<'a>>
    ensures { met_of result ≡ met (arity_over bank.now.names (A.at arities.now)) (tree form.now) }
{
    match form {
        Sexp::Symbol(_) => None,
        Sexp::Numeral(_, _) => None,
        Sexp::Str(_) => Some(Refusal::OutOfScope(b"STRING")),
        Sexp::Quote(inner) => object_refusal(inner),
        Sexp::List(items, tail) => match tail {
            Some(_) => Some(Refusal::BadAbbreviation(b"FORM")),
            None => list_refusal(bank, arities, items),
        },
    }
}

/// The first refusal in a list without a dot.
#[cycle(forms)]
#[tactic(auto, using(nq_sexp::proofs::Trees::tree_rules), unfolding(nq_language::specs::Refusals::met, nq_language::specs::Refusals::parts_met))]
fn list_refusal<'a, A: Arities>(
    bank: &Bank,
    arities: &A,
    items: &'a [Sexp<'a>],
) -> Option<Refusal<'a>>
    ensures { met_of result ≡ met (arity_over bank.now.names (A.at arities.now)) (listed (trees items.now end)) }
{
    match items {
        [] => None,
        [first, arguments @ ..] => match symbol_of(first) {
            None => Some(Refusal::BadAbbreviation(b"FORM")),
            Some(f) => {
                let arity = arity_of(bank, arities, f);
                let word = word_in(f, arity);
                match own_refusal(word, arity, f, arguments) {
                    Some(refusal) => Some(refusal),
                    None => parts_refusal(bank, arities, word, items),
                }
            }
        },
    }
}

/// The first refusal in the arguments of a call, by its meaning.
#[cycle(forms)]
#[tactic(auto, using(nq_sexp::proofs::Trees::tree_rules), unfolding(nq_language::specs::Refusals::met, nq_language::specs::Refusals::parts_met))]
fn parts_refusal<'a, A: Arities>(
    bank: &Bank,
    arities: &A,
    word: Word<'a>,
    items: &'a [Sexp<'a>],
) -> Option<Refusal<'a>>
    ensures { met_of result ≡ parts_met (arity_over bank.now.names (A.at arities.now)) (word_at word.entry) (trees (drop 1 items.now) end) }
{
    match word {
        Word::Conditional => clauses_refusal(bank, arities, items, 1),
        Word::Choice => choice_refusal(bank, arities, items),
        Word::Binding => binding_refusal(bank, arities, items),
        Word::Quotation => arguments_refusal(items),
        Word::Listing => all_refusal(bank, arities, items, 1),
        Word::Nesting => all_refusal(bank, arities, items, 1),
        Word::Path(_) => all_refusal(bank, arities, items, 1),
        Word::Outside => all_refusal(bank, arities, items, 1),
        Word::Plain => all_refusal(bank, arities, items, 1),
    }
}

/// The first refusal in the forms from a place on.
#[cycle(forms)]
#[tactic(auto, using(nq_sexp::proofs::Trees::tree_rules), unfolding(nq_language::specs::Refusals::met))]
fn all_refusal<'a, A: Arities>(
    bank: &Bank,
    arities: &A,
    items: &'a [Sexp<'a>],
    from: usize,
) -> Option<Refusal<'a>>
    ensures { met_of result ≡ all_met (arity_over bank.now.names (A.at arities.now)) (trees (drop from items.now) end) }
{
    for place in from..items.len() {
        if let Some(refusal) = first_refusal(bank, arities, &items[place]) {
            return Some(refusal);
        }
    }
    None
}

/// The first refusal in CASE, behind its name.
#[cycle(forms)]
#[tactic(auto, using(nq_sexp::proofs::Trees::tree_rules), unfolding(nq_language::specs::Refusals::met))]
fn choice_refusal<'a, A: Arities>(
    bank: &Bank,
    arities: &A,
    items: &'a [Sexp<'a>],
) -> Option<Refusal<'a>>
    ensures { met_of result ≡ choice_met (arity_over bank.now.names (A.at arities.now)) (trees (drop 1 items.now) end) }
{
    match items {
        [] | [_] => None,
        [_, selector, ..] => match first_refusal(bank, arities, selector) {
            Some(refusal) => Some(refusal),
            None => keyed_refusal(bank, arities, items, 2),
        },
    }
}

/// The first refusal in LET, behind its name.
#[cycle(forms)]
#[tactic(auto, using(nq_sexp::proofs::Trees::tree_rules), unfolding(nq_language::specs::Refusals::met))]
fn binding_refusal<'a, A: Arities>(
    bank: &Bank,
    arities: &A,
    items: &'a [Sexp<'a>],
) -> Option<Refusal<'a>>
    ensures { met_of result ≡ binding_met (arity_over bank.now.names (A.at arities.now)) (trees (drop 1 items.now) end) }
{
    match items {
        [_, bindings, body] => match bindings {
            Sexp::List(bindings, _) => match bound_refusal(bank, arities, bindings) {
                Some(refusal) => Some(refusal),
                None => first_refusal(bank, arities, body),
            },
            Sexp::Symbol(_) => None,
            Sexp::Numeral(_, _) => None,
            Sexp::Str(_) => None,
            Sexp::Quote(_) => None,
        },
        [] | [_] => None,
        [_, _] => None,
        [_, _, _, _, ..] => None,
    }
}

/// The first refusal in the clauses of COND from a place on, of which the last has no test.
#[cycle(forms)]
#[tactic(auto, using(nq_sexp::proofs::Trees::tree_rules), unfolding(nq_language::specs::Refusals::met))]
fn clauses_refusal<'a, A: Arities>(
    bank: &Bank,
    arities: &A,
    items: &'a [Sexp<'a>],
    from: usize,
) -> Option<Refusal<'a>>
    ensures { met_of result ≡ clauses_met (arity_over bank.now.names (A.at arities.now)) (trees (drop from items.now) end) }
{
    for place in from..items.len() {
        let clause = &items[place];
        if !is_pair(clause) {
            return None;
        }
        if place + 1 < items.len() {
            if let Some(refusal) = test_refusal(bank, arities, clause) {
                return Some(refusal);
            }
        }
        if let Some(refusal) = value_refusal(bank, arities, clause) {
            return Some(refusal);
        }
    }
    None
}

/// The first refusal in the clauses of CASE from a place on, of which the last has no key.
#[cycle(forms)]
#[tactic(auto, using(nq_sexp::proofs::Trees::tree_rules), unfolding(nq_language::specs::Refusals::met))]
fn keyed_refusal<'a, A: Arities>(
    bank: &Bank,
    arities: &A,
    items: &'a [Sexp<'a>],
    from: usize,
) -> Option<Refusal<'a>>
    ensures { met_of result ≡ keyed_met (arity_over bank.now.names (A.at arities.now)) (trees (drop from items.now) end) }
{
    for place in from..items.len() {
        let clause = &items[place];
        if !is_pair(clause) {
            return None;
        }
        if place + 1 < items.len() {
            if let Some(refusal) = key_refusal(clause) {
                return Some(refusal);
            }
        }
        if let Some(refusal) = value_refusal(bank, arities, clause) {
            return Some(refusal);
        }
    }
    None
}

/// The first refusal in the forms to which LET binds.
#[cycle(forms)]
#[tactic(auto, using(nq_sexp::proofs::Trees::tree_rules), unfolding(nq_language::specs::Refusals::met))]
fn bound_refusal<'a, A: Arities>(
    bank: &Bank,
    arities: &A,
    bindings: &'a [Sexp<'a>],
) -> Option<Refusal<'a>>
    ensures { met_of result ≡ bound_met (arity_over bank.now.names (A.at arities.now)) (trees bindings.now end) }
{
    for binding in bindings.iter() {
        if !is_pair(binding) {
            return None;
        }
        if let Some(refusal) = value_refusal(bank, arities, binding) {
            return Some(refusal);
        }
    }
    None
}

/// The first refusal in the first form of a list of two.
#[cycle(forms)]
#[tactic(auto, using(nq_sexp::proofs::Trees::tree_rules), unfolding(nq_language::specs::Refusals::met))]
fn test_refusal<'a, A: Arities>(bank: &Bank, arities: &A, clause: &Sexp<'a>) -> Option<Refusal<'a>>
    ensures { met_of result ≡ test_met (arity_over bank.now.names (A.at arities.now)) (tree clause.now) }
{
    match clause {
        Sexp::List(items, tail) => match tail {
            None => match items {
                [test, _] => first_refusal(bank, arities, test),
                [] | [_] => None,
                [_, _, _, ..] => None,
            },
            Some(_) => None,
        },
        Sexp::Symbol(_) => None,
        Sexp::Numeral(_, _) => None,
        Sexp::Str(_) => None,
        Sexp::Quote(_) => None,
    }
}

/// The first refusal in the second form of a list of two.
#[cycle(forms)]
#[tactic(auto, using(nq_sexp::proofs::Trees::tree_rules), unfolding(nq_language::specs::Refusals::met))]
fn value_refusal<'a, A: Arities>(bank: &Bank, arities: &A, clause: &Sexp<'a>) -> Option<Refusal<'a>>
    ensures { met_of result ≡ value_met (arity_over bank.now.names (A.at arities.now)) (tree clause.now) }
{
    match clause {
        Sexp::List(items, tail) => match tail {
            None => match items {
                [_, value] => first_refusal(bank, arities, value),
                [] | [_] => None,
                [_, _, _, ..] => None,
            },
            Some(_) => None,
        },
        Sexp::Symbol(_) => None,
        Sexp::Numeral(_, _) => None,
        Sexp::Str(_) => None,
        Sexp::Quote(_) => None,
    }
}
