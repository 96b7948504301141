//! Terms of which abbreviations are made.
//!
//! Each answers with the id of a term, or that the term is too deep for a bank, unless memory is wanting first.
ghost use Rattle.std.specs.Prelude.{◌≡◌, ◌<◌, ◌∷◌, [], IfOk, Err};
ghost use Rattle.nq_logic.specs.Terms.{call};
ghost use Rattle.nq_logic.specs.Words.{numeral, numerals};
ghost use Rattle.nq_logic.specs.Sizes.{depth_of, depth_limit};
ghost use Rattle.nq_bank.specs.Content.{Grows, IsIdOf, Stands, term_at};
ghost use Rattle.nq_bank.specs.GroundNames.{ground_count};
ghost use Rattle.nq_bank.specs.Soundness.{ground_text};
ghost use Rattle.nq_language.specs.Objects.{atom_term, nil_term, number_term};

use nq_bank::{Bank, BankFault, Sym, TermId, ground, ground_name};

/// A constant.
pub fn constant(bank: &mut Bank, known: Sym) -> Result<TermId, BankFault>
    requires { known.0 < ground_count }
    ensures ok { IfOk result (λ r. IsIdOf bank.new r (call (ground_text known) [])) }
    ensures deep { result ≡ Err BankFault.Deep → depth_limit < depth_of (call (ground_text known) []) }
    ensures grows { Grows bank.old bank.new }
{
    let f = ground_name(bank, known);
    bank.app(f, &[])
}

/// A call of a ground function of one argument.
pub fn call_one(bank: &mut Bank, known: Sym, a: TermId) -> Result<TermId, BankFault>
    requires known { known.0 < ground_count }
    requires argument { Stands bank.old a }
    ensures ok { IfOk result (λ r. IsIdOf bank.new r (call (ground_text known) (term_at bank.old a ∷ []))) }
    ensures deep { result ≡ Err BankFault.Deep → depth_limit < depth_of (call (ground_text known) (term_at bank.old a ∷ [])) }
    ensures grows { Grows bank.old bank.new }
{
    let f = ground_name(bank, known);
    let arguments = [a];
    bank.app(f, &arguments)
}

/// A call of a ground function of two arguments.
pub fn call_two(bank: &mut Bank, known: Sym, a: TermId, b: TermId) -> Result<TermId, BankFault>
    requires known { known.0 < ground_count }
    requires first { Stands bank.old a }
    requires second { Stands bank.old b }
    ensures ok { IfOk result (λ r. IsIdOf bank.new r (call (ground_text known) (term_at bank.old a ∷ term_at bank.old b ∷ []))) }
    ensures deep { result ≡ Err BankFault.Deep → depth_limit < depth_of (call (ground_text known) (term_at bank.old a ∷ term_at bank.old b ∷ [])) }
    ensures grows { Grows bank.old bank.new }
{
    let f = ground_name(bank, known);
    let arguments = [a, b];
    bank.app(f, &arguments)
}

/// A call of a ground function of three arguments.
pub fn call_three(
    bank: &mut Bank,
    known: Sym,
    a: TermId,
    b: TermId,
    c: TermId,
) -> Result<TermId, BankFault>
    requires known { known.0 < ground_count }
    requires first { Stands bank.old a }
    requires second { Stands bank.old b }
    requires third { Stands bank.old c }
    ensures ok { IfOk result (λ r. IsIdOf bank.new r (call (ground_text known) (term_at bank.old a ∷ term_at bank.old b ∷ term_at bank.old c ∷ []))) }
    ensures deep { result ≡ Err BankFault.Deep → depth_limit < depth_of (call (ground_text known) (term_at bank.old a ∷ term_at bank.old b ∷ term_at bank.old c ∷ [])) }
    ensures grows { Grows bank.old bank.new }
{
    let f = ground_name(bank, known);
    let arguments = [a, b, c];
    bank.app(f, &arguments)
}

/// The numeral of a number.
fn unsigned(bank: &mut Bank, n: u128) -> Result<TermId, BankFault>
    ensures ok { IfOk result (λ r. IsIdOf bank.new r (numeral n)) }
    ensures not_deep { result ≡ Err BankFault.Deep → ⊥ }
    ensures grows { Grows bank.old bank.new }
{
    match bank.num(n) {
        Ok(t) => Ok(t),
        Err(_) => Err(BankFault::Memory),
    }
}

/// The numeral of a number with its sign.
#[tactic(auto, using(crate::proofs::MakingLemmas::number_rules))]
pub fn number(bank: &mut Bank, negative: bool, n: u128) -> Result<TermId, BankFault>
    ensures ok { IfOk result (λ r. IsIdOf bank.new r (number_term negative n)) }
    ensures deep { result ≡ Err BankFault.Deep → depth_limit < depth_of (number_term negative n) }
    ensures grows { Grows bank.old bank.new }
{
    if negative && n > 0 {
        let t = unsigned(bank, n)?;
        call_one(bank, ground::MINUS, t)
    } else {
        unsigned(bank, n)
    }
}

/// The list of the codes of a name, with 0 behind them.
fn codes_of(bank: &mut Bank, name: &[u8]) -> Result<TermId, BankFault>
    ensures ok { IfOk result (λ r. IsIdOf bank.new r (numerals name.now)) }
    ensures deep { result ≡ Err BankFault.Deep → depth_limit < depth_of (numerals name.now) }
    ensures grows { Grows bank.old bank.new }
{
    let mut list = unsigned(bank, 0)?;
    let mut place = name.len();
    while place > 0 {
        place -= 1;
        let code = unsigned(bank, u128::from(name[place]))?;
        list = call_two(bank, ground::CONS, code, list)?;
    }
    Ok(list)
}

/// The literal atom of a name.
pub fn atom(bank: &mut Bank, name: &[u8]) -> Result<TermId, BankFault>
    ensures ok { IfOk result (λ r. IsIdOf bank.new r (atom_term name.now)) }
    ensures deep { result ≡ Err BankFault.Deep → depth_limit < depth_of (atom_term name.now) }
    ensures grows { Grows bank.old bank.new }
{
    let list = codes_of(bank, name)?;
    call_one(bank, ground::PACK, list)
}

/// The literal atom NIL.
pub fn nil(bank: &mut Bank) -> Result<TermId, BankFault>
    ensures ok { IfOk result (λ r. IsIdOf bank.new r nil_term) }
    ensures not_deep { result ≡ Err BankFault.Deep → ⊥ }
    ensures grows { Grows bank.old bank.new }
{
    atom(bank, b"NIL")
}
