//! Calls that suggest an induction.
ghost use Rattle.std.specs.Prelude.{◌≡◌, ◌∷◌, ◌++◌, ◌&&◌, [], All, IfOk, OnOk, if◌then◌else◌, is_some};
ghost use Rattle.std.specs.List.{list_all};
ghost use Rattle.nq_logic.specs.Admissible.{matched};
ghost use Rattle.nq_logic.specs.RuleShapes.{variables_of};
ghost use Rattle.nq_logic.specs.Words.{numeral};
ghost use Rattle.nq_bank.specs.Content.{Grows, IsNamed, Stands, term_at, terms_at, text_at};
ghost use Rattle.nq_bank.specs.Parts.{occurs};
ghost use Rattle.nq_bank.specs.Shells.{texts_at};
ghost use Rattle.nq_history.specs.Events.{events_at, HistoryStands};
ghost use Rattle.nq_events.specs.Inductions.{are_distinct_names, arguments_of, measured, names_of, opened_by, suggests_induction};
ghost use Rattle.nq_event.specs.Definitions.{has_variable, is_variable};

use crate::definitions::definition_called;
use nq_bank::{Bank, Node, Sym, TermId, is_same_name};
use nq_clause::occurs_in;
use nq_history::History;
use std::alloc::AllocError;

/// Does each of these terms call a defined function?
pub fn are_opened(bank: &Bank, history: &History, terms: &[TermId]) -> bool
    requires history { HistoryStands bank.now history.now }
    requires terms { All (Stands bank.now) terms.now }
    ensures { result ≡ list_all (λ t. is_some (opened_by (events_at bank.now history.now) t)) (terms_at bank.now terms.now) }
{
    for t in terms {
        if definition_called(bank, history, *t).is_none() {
            return false;
        }
    }
    true
}

/// The argument of a numeral: 0 has none, and another is ADD1 of the one before.
fn arguments_of_numeral(bank: &mut Bank, n: u128) -> Result<Vec<TermId>, AllocError>
    ensures stand { IfOk result (λ arguments. All (Stands bank.new) arguments.items) }
    ensures are { IfOk result (λ arguments. terms_at bank.new arguments.items ≡ arguments_of (numeral n)) }
    ensures grows { Grows bank.old bank.new }
{
    if n == 0 {
        return Ok(Vec::new(bank.alloc()));
    }
    let less = bank.num(n - 1)?;
    let mut arguments = Vec::new(bank.alloc());
    arguments.push(less)?;
    Ok(arguments)
}

/// The arguments of a call. A variable has none.
fn arguments_of(bank: &mut Bank, t: TermId) -> Result<Vec<TermId>, AllocError>
    requires { Stands bank.old t }
    ensures stand { IfOk result (λ arguments. All (Stands bank.new) arguments.items) }
    ensures are { IfOk result (λ arguments. terms_at bank.new arguments.items ≡ arguments_of (term_at bank.old t)) }
    ensures grows { Grows bank.old bank.new }
{
    match bank.node(t) {
        Node::Var(_) => Ok(Vec::new(bank.alloc())),
        Node::Num(n) => arguments_of_numeral(bank, n),
        Node::App(_, _) => Vec::from_slice(bank.alloc(), bank.args(t)),
    }
}

/// Adds the argument in the place of a formal, if the formal stands in the measure.
fn add_measured(
    bank: &Bank,
    ids: &mut Vec<TermId>,
    formal: Sym,
    argument: TermId,
    measure: TermId,
) -> Result<(), AllocError>
    requires formal { IsNamed bank.now formal }
    requires measure { Stands bank.now measure }
    ensures { OnOk result (ids.new.items ≡ ids.old.items ++ (if occurs (text_at bank.now formal) (term_at bank.now measure) then argument ∷ [] else [])) }
{
    if occurs_in(bank, formal, measure)? {
        ids.push(argument)?;
        Ok(())
    } else {
        Ok(())
    }
}

/// The arguments in the places of the formals that stand in a measure.
pub fn measured(
    bank: &Bank,
    formals: &[Sym],
    arguments: &[TermId],
    measure: TermId,
) -> Result<Vec<TermId>, AllocError>
    requires formals { All (IsNamed bank.now) formals.now }
    requires arguments { All (Stands bank.now) arguments.now }
    requires measure { Stands bank.now measure }
    ensures stand { IfOk result (λ ids. All (Stands bank.now) ids.items) }
    ensures are { IfOk result (λ ids. terms_at bank.now ids.items ≡ measured (variables_of (term_at bank.now measure)) (matched (texts_at bank.now formals.now) (terms_at bank.now arguments.now))) }
{
    let mut ids = Vec::new(bank.alloc());
    let count = formals.len().min(arguments.len());
    for i in 0..count {
        add_measured(bank, &mut ids, formals[i], arguments[i], measure)?;
    }
    Ok(ids)
}

/// Is a term the variable of this name?
fn is_variable(bank: &Bank, variable: Sym, t: TermId) -> bool
    requires variable { IsNamed bank.now variable }
    requires term { Stands bank.now t }
    ensures { result ≡ is_variable (text_at bank.now variable) (term_at bank.now t) }
{
    match bank.node(t) {
        Node::Var(s) => is_same_name(bank, variable, s),
        Node::Num(_) => false,
        Node::App(_, _) => false,
    }
}

/// Is one of the terms the variable of this name?
fn have_variable(bank: &Bank, terms: &[TermId], variable: Sym) -> bool
    requires terms { All (Stands bank.now) terms.now }
    requires variable { IsNamed bank.now variable }
    ensures { result ≡ has_variable (text_at bank.now variable) (terms_at bank.now terms.now) }
{
    for t in terms {
        if is_variable(bank, variable, *t) {
            return true;
        }
    }
    false
}

/// Is a term a variable that isn't one of the others?
fn is_apart(bank: &Bank, t: TermId, others: &[TermId]) -> bool
    requires term { Stands bank.now t }
    requires others { All (Stands bank.now) others.now }
    ensures { are_distinct_names (names_of (term_at bank.now t ∷ terms_at bank.now others.now)) ≡ (result && are_distinct_names (names_of (terms_at bank.now others.now))) }
{
    match bank.node(t) {
        Node::Var(s) => !have_variable(bank, others, s),
        Node::Num(_) => false,
        Node::App(_, _) => false,
    }
}

/// Are the terms variables, none of which stands twice?
pub fn are_distinct_variables(bank: &Bank, terms: &[TermId]) -> bool
    requires { All (Stands bank.now) terms.now }
    ensures { result ≡ are_distinct_names (names_of (terms_at bank.now terms.now)) }
{
    let mut rest = terms;
    while let [first, more @ ..] = rest {
        if !is_apart(bank, *first, more) {
            return false;
        }
        rest = more;
    }
    true
}

/// Does a call with this measure of its function suggest an induction?
fn suggests_by(
    bank: &mut Bank,
    formals: &[Sym],
    measure: TermId,
    t: TermId,
) -> Result<bool, AllocError>
    requires formals { All (IsNamed bank.old) formals.now }
    requires measure { Stands bank.old measure }
    requires term { Stands bank.old t }
    ensures is { IfOk result (λ answer. answer ≡ are_distinct_names (names_of (measured (variables_of (term_at bank.old measure)) (matched (texts_at bank.old formals.now) (arguments_of (term_at bank.old t)))))) }
    ensures grows { Grows bank.old bank.new }
{
    let arguments = arguments_of(bank, t)?;
    let variables = measured(bank, formals, arguments.as_slice(), measure)?;
    Ok(are_distinct_variables(bank, variables.as_slice()))
}

/// Does a term suggest an induction?
pub fn suggests_induction(bank: &mut Bank, history: &History, t: TermId) -> Result<bool, AllocError>
    requires history { HistoryStands bank.old history.now }
    requires term { Stands bank.old t }
    ensures is { IfOk result (λ answer. answer ≡ suggests_induction (events_at bank.old history.now) (term_at bank.old t)) }
    ensures grows { Grows bank.old bank.new }
{
    match definition_called(bank, history, t) {
        Some(definition) => match definition.measure {
            Some(measure) => suggests_by(bank, definition.formals, measure, t),
            None => Ok(false),
        },
        None => Ok(false),
    }
}
