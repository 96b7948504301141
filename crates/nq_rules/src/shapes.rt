//! The shapes of rules.
ghost use Rattle.std.specs.Prelude.{◌≡◌};
ghost use Rattle.nq_logic.specs.Histories.{Rewrite, Elim, Generalize};
ghost use Rattle.nq_logic.specs.RuleShapes.{is_of_shape};
ghost use Rattle.nq_bank.specs.Content.{Stands, term_at};
ghost use Rattle.nq_history.specs.Events.{class_of};

use crate::eliminating::is_elim_conclusion;
use crate::generalizing::calls_another;
use crate::parts::{are_rewritable, conclusion_of};
use nq_bank::{Bank, TermId};
use nq_history::Class;

/// Can a term serve as a rewrite rule? It takes no memory, and walks the term as a tree.
pub fn fits_rewrite(bank: &Bank, t: TermId) -> bool
    requires { Stands bank.now t }
    ensures { result ≡ is_of_shape Rewrite (term_at bank.now t) }
{
    are_rewritable(bank, conclusion_of(bank, t))
}

/// Can a term serve as a rule of generalization?
pub fn fits_generalize(bank: &Bank, t: TermId) -> bool
    requires { Stands bank.now t }
    ensures { result ≡ is_of_shape Generalize (term_at bank.now t) }
{
    calls_another(bank, t)
}

/// Can a term serve as a rule of elimination?
pub fn fits_elim(bank: &Bank, t: TermId) -> bool
    requires { Stands bank.now t }
    ensures { result ≡ is_of_shape Elim (term_at bank.now t) }
{
    is_elim_conclusion(bank, conclusion_of(bank, t))
}

/// Can a term serve as a rule of a class?
pub fn fits(bank: &Bank, class: Class, t: TermId) -> bool
    requires { Stands bank.now t }
    ensures { result ≡ is_of_shape (class_of class) (term_at bank.now t) }
{
    match class {
        Class::Rewrite => fits_rewrite(bank, t),
        Class::Elim => fits_elim(bank, t),
        Class::Generalize => fits_generalize(bank, t),
    }
}
