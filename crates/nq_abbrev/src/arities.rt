//! The arities of functions.
ghost use Rattle.std.specs.Prelude.{◌≡◌, ℕ, Option};
ghost use Rattle.nq_abbrev.specs.Known.{arity_over};
ghost use Rattle.nq_abbrev.specs.Nests.{nest_arity, two_if, is_two, Agrees};

use nq_bank::{Bank, Sym};

/// The functions that a form may call.
pub trait Arities {
    /// The arity of each function, by the place of its name.
    ghost at: { Self → ℕ → Option ℕ };

    /// How many arguments a function takes; None where there is no such function.
    fn arity(&self, f: Sym) -> Option<u64>
        ensures { result ≡ at self.now f.0 };
}

/// How many arguments the function of this name takes.
pub fn arity_of<A: Arities>(bank: &Bank, arities: &A, name: &[u8]) -> Option<u64>
    ensures { result ≡ arity_over bank.now.names (A.at arities.now) name.now }
{
    bank.is_sound();
    match bank.find(name) {
        Some(f) => arities.arity(f),
        None => None,
    }
}

/// Which of AND, OR, PLUS and TIMES take two arguments, so that they are nested for more.
#[derive(Clone, Copy)]
pub struct Nests {
    pub and: bool,
    pub or: bool,
    pub plus: bool,
    pub times: bool,
}

fn two_if(is_nested: bool) -> Option<u64>
    ensures { result ≡ two_if is_nested }
{
    if is_nested { Some(2) } else { None }
}

impl Nests {
    /// The arity of a name that is nested.
    pub fn arity(&self, name: &[u8]) -> Option<u64>
        ensures { result ≡ nest_arity self.now name.now }
    {
        if name == b"AND".as_slice() {
            two_if(self.and)
        } else if name == b"OR".as_slice() {
            two_if(self.or)
        } else if name == b"PLUS".as_slice() {
            two_if(self.plus)
        } else if name == b"TIMES".as_slice() {
            two_if(self.times)
        } else {
            None
        }
    }
}

/// Does the function of this name take two arguments?
fn takes_two<A: Arities>(bank: &Bank, arities: &A, name: &[u8]) -> bool
    ensures { result ≡ is_two (arity_over bank.now.names (A.at arities.now) name.now) }
{
    arity_of(bank, arities, name) == Some(2)
}

/// Which of AND, OR, PLUS and TIMES are nested.
pub fn nests_of<A: Arities>(bank: &Bank, arities: &A) -> Nests
    ensures { Agrees result (arity_over bank.now.names (A.at arities.now)) }
{
    Nests {
        and: takes_two(bank, arities, b"AND"),
        or: takes_two(bank, arities, b"OR"),
        plus: takes_two(bank, arities, b"PLUS"),
        times: takes_two(bank, arities, b"TIMES"),
    }
}
