//! Calls in a goal that suggest an induction.
ghost use Rattle.std.specs.Prelude.{◌≡◌, ◌↔◌, [], All, IfOk, IsTrue, OnOk, Some};
ghost use Rattle.std.specs.List.{list_any};
ghost use Rattle.nq_bank.specs.Content.{IsNamed, Stands, term_at, terms_at, text_at};
ghost use Rattle.nq_history.specs.Events.{events_at, HistoryStands};
ghost use Rattle.nq_events.specs.Inductions.{definition_if, suggests_by, suggests_induction, suggests_of};
ghost use Rattle.nq_normal.specs.Definitions.{definition_at, DefinitionStands};
ghost use Rattle.nq_goals.specs.Inducting.{suggesting_in};
ghost use Rattle.nq_goals.specs.Replacing.{parts_in_all};
ghost use Rattle.nq_normal.specs.Suggesting.{has_suggesting, HasSuggestions, NumeralsSuggest};

use crate::barred::is_either;
use crate::definitions::{Definition, definition_of};
use crate::known::{keep_answer, known_answer};
use crate::numerals::{Numerals, suggesting_numerals};
use nq_bank::{Bank, Node, Sym, TermId};
use nq_event::{are_distinct_variables, measured};
use nq_history::History;
use std::alloc::AllocError;
use std::collections::HashMap;

/// Does a call suggest an induction by the measure of its function?
fn suggests_by(
    bank: &Bank,
    definition: Definition,
    measure: TermId,
    arguments: &[TermId],
) -> Result<bool, AllocError>
    requires definition { DefinitionStands bank.now definition }
    requires measure { Stands bank.now measure }
    requires arguments { All (Stands bank.now) arguments.now }
    ensures { IfOk result (λ answer. answer ≡ suggests_by (definition_at bank.now definition.entry) (Some (term_at bank.now measure)) (terms_at bank.now arguments.now)) }
{
    let variables = measured(bank, definition.formals, arguments, measure)?;
    Ok(are_distinct_variables(bank, variables.as_slice()))
}

/// Does a call of this function suggest an induction?
fn suggests_with(
    bank: &Bank,
    definition: Definition,
    arguments: &[TermId],
) -> Result<bool, AllocError>
    requires definition { DefinitionStands bank.now definition }
    requires arguments { All (Stands bank.now) arguments.now }
    ensures { IfOk result (λ answer. answer ≡ suggests_of (Some (definition_at bank.now definition.entry)) (terms_at bank.now arguments.now)) }
{
    match definition.measure {
        Some(measure) => {
            let answer = suggests_by(bank, definition, measure, arguments)?;
            Ok(answer)
        }
        None => Ok(false),
    }
}

/// Does a call suggest an induction?
fn suggests(
    bank: &Bank,
    history: &History,
    f: Sym,
    arguments: &[TermId],
) -> Result<bool, AllocError>
    requires history { HistoryStands bank.now history.now }
    requires name { IsNamed bank.now f }
    requires arguments { All (Stands bank.now) arguments.now }
    ensures { IfOk result (λ answer. answer ≡ suggests_of (definition_if (events_at bank.now history.now) (Some (text_at bank.now f))) (terms_at bank.now arguments.now)) }
{
    match definition_of(bank, history, f) {
        Some(definition) => {
            let answer = suggests_with(bank, definition, arguments)?;
            Ok(answer)
        }
        None => Ok(false),
    }
}

/// Does some term that stands in a term, perhaps itself, suggest an induction? Each shared node is looked at once.
fn has_suggesting(
    bank: &Bank,
    history: &History,
    numerals: Numerals,
    known: &mut HashMap<u64, bool>,
    t: TermId,
) -> Result<bool, AllocError>
    requires history { HistoryStands bank.now history.now }
    requires numerals { NumeralsSuggest (events_at bank.now history.now) numerals }
    requires stands { Stands bank.now t }
    requires answers { HasSuggestions bank.now (events_at bank.now history.now) known.old }
    ensures ok { IfOk result (λ answer. answer ≡ has_suggesting (events_at bank.now history.now) (term_at bank.now t)) }
    ensures answers { OnOk result (HasSuggestions bank.now (events_at bank.now history.now) known.new) }
{
    match bank.node(t) {
        Node::Var(_) => Ok(false),
        Node::Num(n) => {
            if n == 0 {
                Ok(numerals.zero)
            } else {
                Ok(numerals.others)
            }
        }
        Node::App(f, _) => match known_answer(known, t) {
            Some(answer) => Ok(answer),
            None => {
                let mut answer = suggests(bank, history, f, bank.args(t))?;
                for a in bank.args(t) {
                    let here = has_suggesting(bank, history, numerals, known, *a)?;
                    answer = is_either(answer, here);
                }
                keep_answer(known, t, answer)?;
                Ok(answer)
            }
        },
    }
}

/// Does some term in one of the literals suggest an induction? The table holds what is known so far.
fn have_suggesting(
    bank: &Bank,
    history: &History,
    numerals: Numerals,
    known: &mut HashMap<u64, bool>,
    goal: &[TermId],
) -> Result<bool, AllocError>
    requires history { HistoryStands bank.now history.now }
    requires numerals { NumeralsSuggest (events_at bank.now history.now) numerals }
    requires goal { All (Stands bank.now) goal.now }
    requires answers { HasSuggestions bank.now (events_at bank.now history.now) known.old }
    ensures { IfOk result (λ answer. answer ≡ list_any (suggests_induction (events_at bank.now history.now)) (parts_in_all (terms_at bank.now goal.now))) }
{
    match goal {
        [] => Ok(false),
        [first, rest @ ..] => {
            if has_suggesting(bank, history, numerals, known, *first)? {
                Ok(true)
            } else {
                have_suggesting(bank, history, numerals, known, rest)
            }
        }
    }
}

/// Does some call in the goal suggest an induction? Each shared node is looked at once.
pub fn suggests_induction(
    bank: &Bank,
    history: &History,
    goal: &[TermId],
) -> Result<bool, AllocError>
    requires history { HistoryStands bank.now history.now }
    requires goal { All (Stands bank.now) goal.now }
    ensures { IfOk result (λ answer. IsTrue answer ↔ (suggesting_in (events_at bank.now history.now) (terms_at bank.now goal.now) ≡ [] → ⊥)) }
{
    let numerals = suggesting_numerals(bank, history)?;
    let mut known = HashMap::new(bank.alloc());
    let answer = have_suggesting(bank, history, numerals, &mut known, goal)?;
    Ok(answer)
}
