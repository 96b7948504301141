//! The values of quoted objects.
ghost use Rattle.std.specs.Prelude.{◌≡◌, ◌<◌, IfOk, Err};
ghost use Rattle.nq_logic.specs.Sizes.{depth_of, depth_limit};
ghost use Rattle.nq_bank.specs.Content.{Grows, IsIdOf, Stands, term_at};
ghost use Rattle.nq_language.specs.Objects.{value};
ghost use Rattle.nq_sexp.specs.Tree.{tree};
ghost use Rattle.nq_abbrev.specs.Values.{values_before, quotation_term};

use crate::making::{atom, call_two, nil, number};
use nq_bank::{Bank, BankFault, TermId, ground};
use nq_sexp::Sexp;

/// The value of a quoted object. It is `Deep` only where the value is too deep for a bank.
#[cycle(values)]
#[tactic(auto, using(nq_sexp::proofs::Trees::tree_rules), unfolding(nq_language::specs::Objects::value))]
pub fn value_of(bank: &mut Bank, form: &Sexp<'_>) -> Result<TermId, BankFault>
    ensures ok { IfOk result (λ r. IsIdOf bank.new r (value (tree form.now))) }
    ensures deep { result ≡ Err BankFault.Deep → depth_limit < depth_of (value (tree form.now)) }
    ensures grows { Grows bank.old bank.new }
{
    match form {
        Sexp::Symbol(name) => atom(bank, name),
        Sexp::Numeral(negative, n) => number(bank, *negative, *n),
        Sexp::Str(_) => nil(bank),
        Sexp::Quote(inner) => {
            let object = value_of(bank, inner)?;
            quotation(bank, object)
        }
        Sexp::List(items, tail) => match tail {
            None => {
                let last = nil(bank)?;
                values_before(bank, items, last)
            }
            Some(tail) => {
                let last = value_of(bank, tail)?;
                values_before(bank, items, last)
            }
        },
    }
}

/// The values of these forms, in a CONS nest that ends in a value.
#[cycle(values)]
fn values_before(bank: &mut Bank, items: &[Sexp<'_>], last: TermId) -> Result<TermId, BankFault>
    requires { Stands bank.old last }
    ensures ok { IfOk result (λ r. IsIdOf bank.new r (values_before items.now (term_at bank.old last))) }
    ensures deep { result ≡ Err BankFault.Deep → depth_limit < depth_of (values_before items.now (term_at bank.old last)) }
    ensures grows { Grows bank.old bank.new }
{
    let mut list = last;
    let mut place = items.len();
    while place > 0 {
        place -= 1;
        let first = value_of(bank, &items[place])?;
        list = call_two(bank, ground::CONS, first, list)?;
    }
    Ok(list)
}

/// The value of a quote inside a quoted object.
fn quotation(bank: &mut Bank, object: TermId) -> Result<TermId, BankFault>
    requires { Stands bank.old object }
    ensures ok { IfOk result (λ r. IsIdOf bank.new r (quotation_term (term_at bank.old object))) }
    ensures deep { result ≡ Err BankFault.Deep → depth_limit < depth_of (quotation_term (term_at bank.old object)) }
    ensures grows { Grows bank.old bank.new }
{
    let empty = nil(bank)?;
    let list = call_two(bank, ground::CONS, object, empty)?;
    let word = atom(bank, b"QUOTE")?;
    call_two(bank, ground::CONS, word, list)
}
