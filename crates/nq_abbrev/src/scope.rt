//! The terms of bound variables.
ghost use Rattle.std.specs.Prelude.{◌≡◌, ◌<◌, All, IfOk, Err};
ghost use Rattle.nq_logic.specs.Terms.{Variable, value_at};
ghost use Rattle.nq_logic.specs.Sizes.{depth_of, depth_limit};
ghost use Rattle.nq_bank.specs.Content.{Grows, IsIdOf};
ghost use Rattle.nq_language.specs.Scopes.{symbol_term_in};
ghost use Rattle.nq_abbrev.specs.Scope.{scope_at, BindingStands};

use crate::making::{constant, nil};
use nq_bank::{Bank, BankFault, TermId, ground};

/// A variable that LET binds, and its term.
#[derive(Clone, Copy)]
pub struct Binding<'a> {
    pub name: &'a [u8],
    /// None where the term is too deep for a bank. That is no fault as long as it isn't used.
    pub term: Option<TermId>,
}

/// A variable that isn't bound.
fn free(bank: &mut Bank, name: &[u8]) -> Result<TermId, BankFault>
    ensures ok { IfOk result (λ r. IsIdOf bank.new r (Variable name.now)) }
    ensures not_deep { result ≡ Err BankFault.Deep → ⊥ }
    ensures grows { Grows bank.old bank.new }
{
    let Ok(s) = bank.name(name) else {
        return Err(BankFault::Memory);
    };
    match bank.var(s) {
        Ok(t) => Ok(t),
        Err(_) => Err(BankFault::Memory),
    }
}

/// What stands for a variable.
fn variable(bank: &mut Bank, name: &[u8], scope: &[Binding<'_>]) -> Result<TermId, BankFault>
    requires { All (BindingStands bank.old) scope.now }
    ensures ok { IfOk result (λ r. IsIdOf bank.new r (value_at (scope_at bank.old scope.now) name.now)) }
    ensures deep { result ≡ Err BankFault.Deep → depth_limit < depth_of (value_at (scope_at bank.old scope.now) name.now) }
    ensures grows { Grows bank.old bank.new }
{
    for binding in scope {
        if name == binding.name {
            return match binding.term {
                Some(t) => Ok(t),
                None => Err(BankFault::Deep),
            };
        }
    }
    free(bank, name)
}

/// T, F, NIL, or what stands for a variable.
pub fn symbol_in(bank: &mut Bank, name: &[u8], scope: &[Binding<'_>]) -> Result<TermId, BankFault>
    requires { All (BindingStands bank.old) scope.now }
    ensures ok { IfOk result (λ r. IsIdOf bank.new r (symbol_term_in (scope_at bank.old scope.now) name.now)) }
    ensures deep { result ≡ Err BankFault.Deep → depth_limit < depth_of (symbol_term_in (scope_at bank.old scope.now) name.now) }
    ensures grows { Grows bank.old bank.new }
{
    if name == b"T".as_slice() {
        constant(bank, ground::TRUE)
    } else if name == b"F".as_slice() {
        constant(bank, ground::FALSE)
    } else if name == b"NIL".as_slice() {
        nil(bank)
    } else {
        variable(bank, name, scope)
    }
}
