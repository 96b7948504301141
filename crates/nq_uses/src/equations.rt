//! The defining equation of a definition.
ghost use Rattle.std.specs.Prelude.{◌≡◌, All, IfOk, map};
ghost use Rattle.nq_logic.specs.Terms.{Variable, call};
ghost use Rattle.nq_logic.specs.Words.{equal_term};
ghost use Rattle.nq_bank.specs.Content.{Grows, IsIdOf, IsNamed, Stands, term_at, terms_at, text_at};
ghost use Rattle.nq_bank.specs.Shells.{texts_at};

use nq_bank::{Bank, BankFault, Sym, TermId, ground, ground_name};
use std::alloc::AllocError;

/// The variables of these names.
fn variables(bank: &mut Bank, names: &[Sym]) -> Result<Vec<TermId>, AllocError>
    requires { All (IsNamed bank.old) names.now }
    ensures stand { IfOk result (λ ids. All (Stands bank.new) ids.items) }
    ensures are { IfOk result (λ ids. terms_at bank.new ids.items ≡ map Variable (texts_at bank.old names.now)) }
    ensures grows { Grows bank.old bank.new }
    ensures names { bank.new.names ≡ bank.old.names }
{
    let mut ids = Vec::new(bank.alloc());
    for name in names {
        let id = bank.var(*name)?;
        ids.push(id)?;
    }
    Ok(ids)
}

/// The equation of the call of a function and a body.
pub(crate) fn equation(
    bank: &mut Bank,
    name: Sym,
    formals: &[Sym],
    body: TermId,
) -> Result<TermId, BankFault>
    requires name { IsNamed bank.old name }
    requires formals { All (IsNamed bank.old) formals.now }
    requires body { Stands bank.old body }
    ensures ok { IfOk result (λ t. IsIdOf bank.new t (equal_term (call (text_at bank.old name) (map Variable (texts_at bank.old formals.now))) (term_at bank.old body))) }
    ensures grows { Grows bank.old bank.new }
    ensures names { bank.new.names ≡ bank.old.names }
{
    let Ok(arguments) = variables(bank, formals) else {
        return Err(BankFault::Memory);
    };
    let called = bank.app(name, arguments.as_slice())?;
    let equal = ground_name(bank, ground::EQUAL);
    bank.app(equal, &[called, body])
}
