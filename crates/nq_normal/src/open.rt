//! Walks over the open occurrences of a term.
ghost use Rattle.std.specs.Prelude.{◌≡◌, false, All, IfOk, OnOk};
ghost use Rattle.std.specs.List.{list_any};
ghost use Rattle.nq_logic.specs.Values.{is_value};
ghost use Rattle.nq_bank.specs.Content.{Stands, term_at, terms_at};
ghost use Rattle.nq_goals.specs.Occurrences.{open_in};
ghost use Rattle.nq_normal.specs.Sought.{has_open, seeks, HasAnswers, SoughtStands};

use crate::atoms::atom_of;
use crate::barred::{is_barred, is_either};
use crate::known::{keep_answer, known_answer};
use crate::matching::is_instance;
use crate::sought::Sought;
use nq_bank::{Bank, Node, TermId};
use std::alloc::AllocError;
use std::collections::HashMap;

/// Is a term that is no value what is looked for?
fn is_sought(bank: &Bank, sought: &Sought, t: TermId) -> Result<bool, AllocError>
    requires sought { SoughtStands bank.now sought.now }
    requires stands { Stands bank.now t }
    requires value { is_value (term_at bank.now t) ≡ false }
    ensures { IfOk result (λ answer. answer ≡ seeks bank.now sought.now (term_at bank.now t)) }
{
    match sought {
        Sought::Barred(history, hints) => Ok(is_barred(bank, history, hints, t)),
        Sought::Instance(left) => is_instance(bank, *left, t),
    }
}

/// Is some open occurrence of a term what is looked for? Each shared node is looked at once.
pub fn has_open(
    bank: &Bank,
    sought: &Sought,
    known: &mut HashMap<u64, bool>,
    t: TermId,
) -> Result<bool, AllocError>
    requires sought { SoughtStands bank.now sought.now }
    requires stands { Stands bank.now t }
    requires answers { HasAnswers bank.now (seeks bank.now sought.now) known.old }
    ensures ok { IfOk result (λ answer. answer ≡ has_open (seeks bank.now sought.now) (term_at bank.now t)) }
    ensures answers { OnOk result (HasAnswers bank.now (seeks bank.now sought.now) known.new) }
{
    if bank.is_value(t) {
        return Ok(false);
    }
    match bank.node(t) {
        Node::Var(_) => is_sought(bank, sought, t),
        Node::Num(_) => Ok(false),
        Node::App(_, _) => match known_answer(known, t) {
            Some(answer) => Ok(answer),
            None => {
                let mut answer = is_sought(bank, sought, t)?;
                for a in bank.args(t) {
                    let here = has_open(bank, sought, known, *a)?;
                    answer = is_either(answer, here);
                }
                keep_answer(known, t, answer)?;
                Ok(answer)
            }
        },
    }
}

/// Is some open occurrence of the literals, their outer NOTs aside, what is looked for? The table holds what is known so far.
fn has_open_among(
    bank: &Bank,
    sought: &Sought,
    known: &mut HashMap<u64, bool>,
    goal: &[TermId],
) -> Result<bool, AllocError>
    requires sought { SoughtStands bank.now sought.now }
    requires goal { All (Stands bank.now) goal.now }
    requires answers { HasAnswers bank.now (seeks bank.now sought.now) known.old }
    ensures { IfOk result (λ answer. answer ≡ list_any (seeks bank.now sought.now) (open_in (terms_at bank.now goal.now))) }
{
    match goal {
        [] => Ok(false),
        [first, rest @ ..] => {
            if has_open(bank, sought, known, atom_of(bank, *first))? {
                Ok(true)
            } else {
                has_open_among(bank, sought, known, rest)
            }
        }
    }
}

/// Is some open occurrence in the goal what is looked for? Each shared node is looked at once.
pub fn has_open_in(bank: &Bank, sought: &Sought, goal: &[TermId]) -> Result<bool, AllocError>
    requires sought { SoughtStands bank.now sought.now }
    requires goal { All (Stands bank.now) goal.now }
    ensures { IfOk result (λ answer. answer ≡ list_any (seeks bank.now sought.now) (open_in (terms_at bank.now goal.now))) }
{
    let mut known = HashMap::new(bank.alloc());
    has_open_among(bank, sought, &mut known, goal)
}
