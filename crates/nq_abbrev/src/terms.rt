//! The term of a form that isn't refused, with the terms of bound variables in hand.
//!
//! Each form is gone through once: what LET binds is made once, however often it is used. A term that is too deep for a bank
//! is no fault where it isn't used, so a binding keeps that it is.
ghost use Rattle.std.specs.Prelude.{◌≡◌, ◌<◌, ◌≤◌, ◌++◌, ◌∷◌, [], ℕ, Option, None, true, All, IfOk, OnOk, IfSome, Err, drop, length};
ghost use Rattle.nq_logic.specs.Terms.{Name};
ghost use Rattle.nq_bank.specs.Content.{Grows, Stands};
ghost use Rattle.nq_form.specs.Form.{listed, end};
ghost use Rattle.nq_language.specs.Refusals.{are_bindings, is_pair, first, own_met, met, all_met, bound_met};
ghost use Rattle.nq_language.specs.Scopes.{translated_in, all_translated_in, conditional_term_in, choice_term_in, keyed_term_in, binding_term_in, bound_in};
ghost use Rattle.nq_sexp.specs.Tree.{tree, trees};
ghost use Rattle.nq_abbrev.specs.Nests.{Agrees, applied_term, takes_terms};
ghost use Rattle.nq_abbrev.specs.Words.{word_at};
ghost use Rattle.nq_abbrev.specs.Parts.{test_met, value_met};
ghost use Rattle.nq_abbrev.specs.InScope.{parts_refused, called_term_in, conditional_met, chosen_met, keyed_refused, let_met, test_term_in, value_term_in, key_term, IsLike};
ghost use Rattle.nq_abbrev.specs.Scope.{scope_at, bound_term, binding_of, kept_of, BindingStands, Makes};

use crate::arities::Nests;
use crate::making::{call_three, call_two, nil, number};
use crate::nests::applied_of;
use crate::scope::{Binding, symbol_in};
use crate::shapes::{bound_name, pair_of, symbol_of};
use crate::values::value_of;
use crate::word::{Word, word_in};
use nq_bank::{Bank, BankFault, TermId, ground};
use nq_sexp::Sexp;

/// The term of a form. Where the form is refused it is some term.
#[cycle(terms)]
#[tactic(auto, using(nq_sexp::proofs::Trees::tree_rules), unfolding(nq_language::specs::Refusals::met, nq_language::specs::Scopes::translated_in))]
pub fn term_in<'a>(
    bank: &mut Bank,
    nests: &Nests,
    form: &Sexp<'a>,
    scope: &[Binding<'a>],
) -> Result<TermId, BankFault>
    requires { All (BindingStands bank.old) scope.now }
    ensures right { (arity : Name → Option ℕ) → Agrees nests.now arity → met arity (tree form.now) ≡ None → Makes bank.new result (translated_in arity (scope_at bank.old scope.now) (tree form.now)) }
    ensures stands { IfOk result (λ r. Stands bank.new r) }
    ensures grows { Grows bank.old bank.new }
{
    match form {
        Sexp::Symbol(name) => symbol_in(bank, name, scope),
        Sexp::Numeral(negative, n) => number(bank, *negative, *n),
        Sexp::Str(_) => nil(bank),
        Sexp::Quote(inner) => value_of(bank, inner),
        Sexp::List(items, tail) => match tail {
            Some(_) => nil(bank),
            None => list_in(bank, nests, items, scope),
        },
    }
}

/// The term of a list without a dot.
#[cycle(terms)]
#[tactic(auto, using(nq_sexp::proofs::Trees::tree_rules), unfolding(nq_language::specs::Refusals::met, nq_language::specs::Scopes::translated_in))]
fn list_in<'a>(
    bank: &mut Bank,
    nests: &Nests,
    items: &'a [Sexp<'a>],
    scope: &[Binding<'a>],
) -> Result<TermId, BankFault>
    requires { All (BindingStands bank.old) scope.now }
    ensures right { (arity : Name → Option ℕ) → Agrees nests.now arity → met arity (listed (trees items.now end)) ≡ None → Makes bank.new result (translated_in arity (scope_at bank.old scope.now) (listed (trees items.now end))) }
    ensures stands { IfOk result (λ r. Stands bank.new r) }
    ensures grows { Grows bank.old bank.new }
{
    match items {
        [] => nil(bank),
        [first, ..] => match symbol_of(first) {
            None => nil(bank),
            Some(f) => {
                let word = word_in(f, nests.arity(f));
                call_in(bank, nests, word, f, items, scope)
            }
        },
    }
}

/// The term of a call, by the meaning of its name.
#[cycle(terms)]
#[tactic(auto, using(nq_sexp::proofs::Trees::tree_rules), unfolding(nq_language::specs::Refusals::met, nq_language::specs::Scopes::translated_in))]
fn call_in<'a>(
    bank: &mut Bank,
    nests: &Nests,
    word: Word<'a>,
    f: &'a [u8],
    items: &'a [Sexp<'a>],
    scope: &[Binding<'a>],
) -> Result<TermId, BankFault>
    requires { All (BindingStands bank.old) scope.now }
    ensures right { (arity : Name → Option ℕ) → Agrees nests.now arity → parts_refused arity (word_at word.entry) f.now (trees (drop 1 items.now) end) ≡ None → Makes bank.new result (called_term_in arity (scope_at bank.old scope.now) (word_at word.entry) f.now (trees (drop 1 items.now) end)) }
    ensures stands { IfOk result (λ r. Stands bank.new r) }
    ensures grows { Grows bank.old bank.new }
{
    match word {
        Word::Conditional => conditional_in(bank, nests, items, scope),
        Word::Choice => choice_in(bank, nests, items, scope),
        Word::Binding => binding_in(bank, nests, items, scope),
        Word::Quotation => match items {
            [_, object, ..] => value_of(bank, object),
            [] => nil(bank),
            [_] => nil(bank),
        },
        Word::Outside => nil(bank),
        Word::Listing => arguments_in(bank, nests, word, f, items, scope),
        Word::Nesting => arguments_in(bank, nests, word, f, items, scope),
        Word::Path(_) => arguments_in(bank, nests, word, f, items, scope),
        Word::Plain => arguments_in(bank, nests, word, f, items, scope),
    }
}

/// The term of a call whose arguments are terms.
#[cycle(terms)]
#[tactic(auto, using(nq_sexp::proofs::Trees::tree_rules), unfolding(nq_language::specs::Refusals::met, nq_language::specs::Scopes::translated_in))]
fn arguments_in<'a>(
    bank: &mut Bank,
    nests: &Nests,
    word: Word<'a>,
    f: &'a [u8],
    items: &'a [Sexp<'a>],
    scope: &[Binding<'a>],
) -> Result<TermId, BankFault>
    requires scope { All (BindingStands bank.old) scope.now }
    requires word { takes_terms (word_at word) ≡ true }
    ensures right { (arity : Name → Option ℕ) → Agrees nests.now arity → first (own_met (word_at word.entry) (arity f.now) f.now (trees (drop 1 items.now) end)) (all_met arity (trees (drop 1 items.now) end)) ≡ None → Makes bank.new result (applied_term (word_at word.entry) f.now (all_translated_in arity (scope_at bank.old scope.now) (trees (drop 1 items.now) end))) }
    ensures stands { IfOk result (λ r. Stands bank.new r) }
    ensures grows { Grows bank.old bank.new }
{
    let mut terms = Vec::new(bank.alloc());
    for place in 1..items.len() {
        let term = term_in(bank, nests, &items[place], scope)?;
        add_term(&mut terms, term)?;
    }
    applied_of(bank, word, f, terms.as_slice())
}

/// The term of COND: nested IFs, made from the last clause back.
#[cycle(terms)]
#[tactic(auto, using(nq_sexp::proofs::Trees::tree_rules), unfolding(nq_language::specs::Refusals::met, nq_language::specs::Scopes::translated_in))]
fn conditional_in<'a>(
    bank: &mut Bank,
    nests: &Nests,
    items: &'a [Sexp<'a>],
    scope: &[Binding<'a>],
) -> Result<TermId, BankFault>
    requires { All (BindingStands bank.old) scope.now }
    ensures right { (arity : Name → Option ℕ) → Agrees nests.now arity → conditional_met arity (trees (drop 1 items.now) end) ≡ None → Makes bank.new result (conditional_term_in arity (scope_at bank.old scope.now) (trees (drop 1 items.now) end)) }
    ensures stands { IfOk result (λ r. Stands bank.new r) }
    ensures grows { Grows bank.old bank.new }
{
    let mut place = items.len();
    if place < 2 {
        return nil(bank);
    }
    place -= 1;
    let mut rest = value_in(bank, nests, &items[place], scope)?;
    while place > 1 {
        place -= 1;
        let clause = &items[place];
        let value = value_in(bank, nests, clause, scope)?;
        let test = test_in(bank, nests, clause, scope)?;
        rest = call_three(bank, ground::IF, test, value, rest)?;
    }
    Ok(rest)
}

/// The term of CASE. The selector is made once; where it is too deep, that is no fault unless a clause has a key.
#[cycle(terms)]
#[tactic(auto, using(nq_sexp::proofs::Trees::tree_rules), unfolding(nq_language::specs::Refusals::met, nq_language::specs::Scopes::translated_in))]
fn choice_in<'a>(
    bank: &mut Bank,
    nests: &Nests,
    items: &'a [Sexp<'a>],
    scope: &[Binding<'a>],
) -> Result<TermId, BankFault>
    requires { All (BindingStands bank.old) scope.now }
    ensures right { (arity : Name → Option ℕ) → Agrees nests.now arity → chosen_met arity (trees (drop 1 items.now) end) ≡ None → Makes bank.new result (choice_term_in arity (scope_at bank.old scope.now) (trees (drop 1 items.now) end)) }
    ensures stands { IfOk result (λ r. Stands bank.new r) }
    ensures grows { Grows bank.old bank.new }
{
    match items {
        [] => nil(bank),
        [_] => nil(bank),
        [_, selector, ..] => {
            let made = term_in(bank, nests, selector, scope);
            let selector = kept(bank, made)?;
            let term = keyed_in(bank, nests, items, selector, scope);
            bank.is_sound();
            term
        }
    }
}

/// Nested IFs on the keys, made from the last clause back.
#[cycle(terms)]
#[tactic(auto, using(nq_sexp::proofs::Trees::tree_rules), unfolding(nq_language::specs::Refusals::met, nq_language::specs::Scopes::translated_in))]
fn keyed_in<'a>(
    bank: &mut Bank,
    nests: &Nests,
    items: &'a [Sexp<'a>],
    selector: Option<TermId>,
    scope: &[Binding<'a>],
) -> Result<TermId, BankFault>
    requires scope { All (BindingStands bank.old) scope.now }
    requires selector { IfSome selector (Stands bank.old) }
    ensures right { (arity : Name → Option ℕ) → Agrees nests.now arity → keyed_refused arity (trees (drop 2 items.now) end) ≡ None → Makes bank.new result (keyed_term_in arity (scope_at bank.old scope.now) (bound_term bank.old selector) (trees (drop 2 items.now) end)) }
    ensures stands { IfOk result (λ r. Stands bank.new r) }
    ensures grows { Grows bank.old bank.new }
{
    let mut place = items.len();
    if place < 3 {
        return nil(bank);
    }
    place -= 1;
    let mut rest = value_in(bank, nests, &items[place], scope)?;
    while place > 2 {
        place -= 1;
        let clause = &items[place];
        let value = value_in(bank, nests, clause, scope)?;
        let test = key_test(bank, selector, clause)?;
        rest = call_three(bank, ground::IF, test, value, rest)?;
    }
    Ok(rest)
}

/// The term of LET: its body, with the terms of its variables in hand.
#[cycle(terms)]
#[tactic(auto, using(nq_sexp::proofs::Trees::tree_rules), unfolding(nq_language::specs::Refusals::met, nq_language::specs::Scopes::translated_in))]
fn binding_in<'a>(
    bank: &mut Bank,
    nests: &Nests,
    items: &'a [Sexp<'a>],
    scope: &[Binding<'a>],
) -> Result<TermId, BankFault>
    requires { All (BindingStands bank.old) scope.now }
    ensures right { (arity : Name → Option ℕ) → Agrees nests.now arity → let_met arity (trees (drop 1 items.now) end) ≡ None → Makes bank.new result (binding_term_in arity (scope_at bank.old scope.now) (trees (drop 1 items.now) end)) }
    ensures stands { IfOk result (λ r. Stands bank.new r) }
    ensures grows { Grows bank.old bank.new }
{
    match items {
        [_, bindings, body] => match bindings {
            Sexp::List(bindings, _) => {
                let inner = bound_in(bank, nests, bindings, scope)?;
                let term = term_in(bank, nests, body, inner.as_slice());
                bank.is_sound();
                term
            }
            Sexp::Symbol(_) => nil(bank),
            Sexp::Numeral(_, _) => nil(bank),
            Sexp::Str(_) => nil(bank),
            Sexp::Quote(_) => nil(bank),
        },
        [] | [_] => nil(bank),
        [_, _] => nil(bank),
        [_, _, _, _, ..] => nil(bank),
    }
}

/// The variables of LET with their terms, and behind them those of the scope.
#[cycle(terms)]
#[tactic(auto, using(nq_sexp::proofs::Trees::tree_rules), unfolding(nq_language::specs::Refusals::met, nq_language::specs::Scopes::translated_in))]
fn bound_in<'a>(
    bank: &mut Bank,
    nests: &Nests,
    bindings: &'a [Sexp<'a>],
    scope: &[Binding<'a>],
) -> Result<Vec<Binding<'a>>, BankFault>
    requires { All (BindingStands bank.old) scope.now }
    ensures right { (arity : Name → Option ℕ) → Agrees nests.now arity → are_bindings (trees bindings.now end) ≡ true → bound_met arity (trees bindings.now end) ≡ None → IfOk result (λ inner. IsLike (scope_at bank.new inner.items) (bound_in arity (scope_at bank.old scope.now) (trees bindings.now end) ++ scope_at bank.old scope.now)) }
    ensures stands { IfOk result (λ inner. All (BindingStands bank.new) inner.items) }
    ensures not_deep { result ≡ Err BankFault.Deep → ⊥ }
    ensures grows { Grows bank.old bank.new }
{
    let mut inner = Vec::new(bank.alloc());
    for binding in bindings.iter() {
        let made = value_in(bank, nests, binding, scope);
        let term = kept(bank, made)?;
        add_binding(&mut inner, bound_name(binding), term)?;
    }
    add_outer(&mut inner, scope)?;
    Ok(inner)
}

/// The term of the first form of a list of two.
#[cycle(terms)]
#[tactic(auto, using(nq_sexp::proofs::Trees::tree_rules), unfolding(nq_language::specs::Refusals::met, nq_language::specs::Scopes::translated_in))]
fn test_in<'a>(
    bank: &mut Bank,
    nests: &Nests,
    clause: &Sexp<'a>,
    scope: &[Binding<'a>],
) -> Result<TermId, BankFault>
    requires { All (BindingStands bank.old) scope.now }
    ensures right { (arity : Name → Option ℕ) → Agrees nests.now arity → test_met arity (tree clause.now) ≡ None → Makes bank.new result (test_term_in arity (scope_at bank.old scope.now) (tree clause.now)) }
    ensures stands { IfOk result (λ r. Stands bank.new r) }
    ensures grows { Grows bank.old bank.new }
{
    match clause {
        Sexp::List(items, tail) => match tail {
            None => match items {
                [test, _] => term_in(bank, nests, test, scope),
                [] | [_] => nil(bank),
                [_, _, _, ..] => nil(bank),
            },
            Some(_) => nil(bank),
        },
        Sexp::Symbol(_) => nil(bank),
        Sexp::Numeral(_, _) => nil(bank),
        Sexp::Str(_) => nil(bank),
        Sexp::Quote(_) => nil(bank),
    }
}

/// The term of the second form of a list of two.
#[cycle(terms)]
#[tactic(auto, using(nq_sexp::proofs::Trees::tree_rules), unfolding(nq_language::specs::Refusals::met, nq_language::specs::Scopes::translated_in))]
fn value_in<'a>(
    bank: &mut Bank,
    nests: &Nests,
    clause: &Sexp<'a>,
    scope: &[Binding<'a>],
) -> Result<TermId, BankFault>
    requires { All (BindingStands bank.old) scope.now }
    ensures right { (arity : Name → Option ℕ) → Agrees nests.now arity → value_met arity (tree clause.now) ≡ None → Makes bank.new result (value_term_in arity (scope_at bank.old scope.now) (tree clause.now)) }
    ensures stands { IfOk result (λ r. Stands bank.new r) }
    ensures grows { Grows bank.old bank.new }
{
    match clause {
        Sexp::List(items, tail) => match tail {
            None => match items {
                [_, value] => term_in(bank, nests, value, scope),
                [] | [_] => nil(bank),
                [_, _, _, ..] => nil(bank),
            },
            Some(_) => nil(bank),
        },
        Sexp::Symbol(_) => nil(bank),
        Sexp::Numeral(_, _) => nil(bank),
        Sexp::Str(_) => nil(bank),
        Sexp::Quote(_) => nil(bank),
    }
}

/// A term, or that it is too deep, which is no fault yet.
fn kept(bank: &Bank, made: Result<TermId, BankFault>) -> Result<Option<TermId>, BankFault>
    requires { IfOk made (Stands bank.now) }
    ensures is { result ≡ kept_of made }
    ensures stands { IfOk result (λ o. IfSome o (Stands bank.now)) }
    ensures not_deep { result ≡ Err BankFault.Deep → ⊥ }
{
    match made {
        Ok(t) => Ok(Some(t)),
        Err(BankFault::Deep) => Ok(None),
        Err(BankFault::Memory) => Err(BankFault::Memory),
    }
}

/// One more term.
fn add_term(terms: &mut Vec<TermId>, term: TermId) -> Result<(), BankFault>
    ensures ok { OnOk result (terms.new.items ≡ terms.old.items ++ term ∷ []) }
    ensures not_deep { result ≡ Err BankFault.Deep → ⊥ }
{
    match terms.push(term) {
        Ok(()) => Ok(()),
        Err(_) => Err(BankFault::Memory),
    }
}

/// One more binding, where it has a name.
fn add_binding<'a>(
    bindings: &mut Vec<Binding<'a>>,
    name: Option<&'a [u8]>,
    term: Option<TermId>,
) -> Result<(), BankFault>
    ensures ok { OnOk result (bindings.new.items ≡ bindings.old.items ++ binding_of name.entry term) }
    ensures not_deep { result ≡ Err BankFault.Deep → ⊥ }
{
    let Some(name) = name else {
        return Ok(());
    };
    match bindings.push(Binding { name, term }) {
        Ok(()) => Ok(()),
        Err(_) => Err(BankFault::Memory),
    }
}

/// The bindings of the outer scope, behind the new ones.
fn add_outer<'a>(bindings: &mut Vec<Binding<'a>>, scope: &[Binding<'a>]) -> Result<(), BankFault>
    ensures ok { OnOk result (bindings.new.items ≡ bindings.old.items ++ scope.now) }
    ensures not_deep { result ≡ Err BankFault.Deep → ⊥ }
{
    match bindings.extend_from_slice(scope) {
        Ok(()) => Ok(()),
        Err(_) => Err(BankFault::Memory),
    }
}

/// The test of a clause of CASE: that the selector is the key.
fn key_test(
    bank: &mut Bank,
    selector: Option<TermId>,
    clause: &Sexp<'_>,
) -> Result<TermId, BankFault>
    requires { IfSome selector (Stands bank.old) }
    ensures right { is_pair (tree clause.now) ≡ true → Makes bank.new result (key_term (bound_term bank.old selector) (tree clause.now)) }
    ensures stands { IfOk result (λ r. Stands bank.new r) }
    ensures grows { Grows bank.old bank.new }
{
    match pair_of(clause) {
        None => nil(bank),
        Some(pair) => match selector {
            None => Err(BankFault::Deep),
            Some(t) => {
                let key = value_of(bank, pair.first)?;
                call_two(bank, ground::EQUAL, t, key)
            }
        },
    }
}
