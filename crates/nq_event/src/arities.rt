//! The functions that the terms of an event may call.
ghost use Rattle.std.specs.Prelude.{◌≡◌};
ghost use Rattle.nq_event.specs.Arities.{arity_at};

use nq_abbrev::Arities;
use nq_bank::Sym;
use nq_history::History;

/// A function that is being defined.
#[derive(Clone, Copy)]
pub struct NewFunction {
    pub name: Sym,
    /// How many formals it has.
    pub arity: u64,
}

/// The functions of a history. One that is being defined goes before them.
#[derive(Clone, Copy)]
pub struct Functions<'a> {
    pub history: &'a History,
    pub defined: Option<NewFunction>,
}

impl<'a> Arities for Functions<'a> {
    ghost at = { λ functions i. arity_at functions.defined functions.history.now i };

    fn arity(&self, f: Sym) -> Option<u64> {
        match self.defined {
            Some(new) => {
                if f.0 == new.name.0 {
                    Some(new.arity)
                } else {
                    self.history.arity(f)
                }
            }
            None => self.history.arity(f),
        }
    }
}
