//! The text of a goal.
ghost use Rattle.std.specs.Prelude.{◌≡◌, ◌++◌, All, IfOk, OnOk};
ghost use Rattle.nq_bank.specs.Content.{Stands, terms_at};
ghost use Rattle.nq_answers.specs.Goals.{goal_text, more_literals};

use nq_bank::{Bank, TermId};
use nq_print::print_term;
use std::alloc::AllocError;

/// Appends more literals, each behind an OR.
fn more_literals(bank: &Bank, literals: &[TermId], text: &mut Vec<u8>) -> Result<(), AllocError>
    requires { All (Stands bank.now) literals.now }
    ensures { OnOk result (text.new.items ≡ text.old.items ++ more_literals (terms_at bank.now literals.now)) }
{
    for literal in literals {
        text.extend_from_slice(b" OR ")?;
        print_term(bank, *literal, text)?;
    }
    Ok(())
}

/// The text of a goal: its literals, joined by OR.
pub fn goal_text(bank: &Bank, goal: &[TermId]) -> Result<Vec<u8>, AllocError>
    requires { All (Stands bank.now) goal.now }
    ensures { IfOk result (λ text. text.items ≡ goal_text (terms_at bank.now goal.now)) }
{
    match goal {
        [] => b"no literal".as_slice().to_vec(bank.alloc()),
        [first, rest @ ..] => {
            let mut text = Vec::new(bank.alloc());
            print_term(bank, *first, &mut text)?;
            more_literals(bank, rest, &mut text)?;
            Ok(text)
        }
    }
}
