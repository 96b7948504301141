//! GEN: whether a goal has a candidate.
ghost use Rattle.std.specs.Prelude.{◌≡◌, ◌∷◌, [], All, IfOk, false, true, codes};
ghost use Rattle.nq_logic.specs.Names.{has_name};
ghost use Rattle.nq_bank.specs.Content.{Stands, IsNamed, term_at, terms_at, text_at};
ghost use Rattle.nq_bank.specs.Shells.{shells_at, ShellStands};
ghost use Rattle.nq_history.specs.Events.{events_at, HistoryStands};
ghost use Rattle.nq_event.specs.EventsAt.{hints_at};
ghost use Rattle.nq_goals.specs.Functions.{propositional};
ghost use Rattle.nq_goals.specs.Generalizing.{generalizings_of, kept_functions};
ghost use Rattle.nq_stuck.specs.Common.{is_general, is_of_shell, has_common, HasNoneBalanced, HasNoneRepeated, IsUnbalanced, SharesNone};

use crate::calls::{CALL_LIMIT, calls_in};
use crate::equations::compared;
use crate::fault::Fault;
use crate::lists::{contains, is_both, is_either};
use crate::shells::{is_accessor, is_constructor, is_recognizer};
use nq_bank::{Bank, Node, Shell, Sym, TermId, ground};
use nq_history::{Hints, History};

/// Is this EQUAL, LESSP or one of the functions of propositions?
fn is_predicate(bank: &Bank, f: Sym) -> bool
    requires { IsNamed bank.now f }
    ensures { result ≡ has_name (text_at bank.now f) (codes "EQUAL" ∷ codes "LESSP" ∷ propositional) }
{
    bank.is_ground(f, ground::EQUAL)
        || bank.is_ground(f, ground::LESSP)
        || bank.is_ground(f, ground::IF)
        || bank.is_ground(f, ground::NOT)
        || bank.is_ground(f, ground::AND)
        || bank.is_ground(f, ground::OR)
        || bank.is_ground(f, ground::IMPLIES)
        || bank.is_ground(f, ground::IFF)
}

/// Is this an accessor, a constructor or a recognizer of one of these shells?
fn is_of_shell(bank: &Bank, shells: &[Shell], f: Sym) -> bool
    requires shells { All (ShellStands bank.now) shells.now }
    requires name { IsNamed bank.now f }
    ensures { result ≡ is_of_shell (text_at bank.now f) (shells_at bank.now shells.now) }
{
    let accessor = is_accessor(bank, shells, f);
    let constructor = is_constructor(bank, shells, f);
    let recognizer = is_recognizer(bank, shells, f);
    accessor || constructor || recognizer
}

/// Are calls of the function left as they are?
pub fn is_kept(bank: &Bank, history: &History, f: Sym) -> bool
    requires history { HistoryStands bank.now history.now }
    requires name { IsNamed bank.now f }
    ensures { result ≡ has_name (text_at bank.now f) (kept_functions (events_at bank.now history.now)) }
{
    let of_shell = is_of_shell(bank, history.shells(), f);
    let predicate = is_predicate(bank, f);
    is_either(of_shell, predicate)
}

/// Is the term a call and no value, of a function whose calls are generalized?
fn is_general(bank: &Bank, history: &History, t: TermId) -> bool
    requires history { HistoryStands bank.now history.now }
    requires term { Stands bank.now t }
    ensures { is_general (events_at bank.now history.now) (term_at bank.now t) ≡ true → result ≡ true }
{
    match bank.node(t) {
        Node::Var(_) => false,
        Node::Num(_) => false,
        Node::App(f, _) => {
            let value = bank.is_value(t);
            let kept = is_kept(bank, history, f);
            !value && !kept
        }
    }
}

/// Is one of these calls to be generalized, and among the others?
fn has_common(bank: &Bank, history: &History, these: &[TermId], others: &[TermId]) -> bool
    requires history { HistoryStands bank.now history.now }
    requires these { All (Stands bank.now) these.now }
    requires others { All (Stands bank.now) others.now }
    ensures { has_common (events_at bank.now history.now) (terms_at bank.now these.now) (terms_at bank.now others.now) ≡ true → result ≡ true }
{
    match these {
        [] => false,
        [first, rest @ ..] => {
            let general = is_general(bank, history, *first);
            let common = contains(bank, *first, others);
            let here = is_both(general, common);
            let later = has_common(bank, history, rest, others);
            is_either(here, later)
        }
    }
}

/// Does a call that is to be generalized stand in one of these terms and in one of the others?
fn shares_call(
    bank: &Bank,
    history: &History,
    these: &[TermId],
    others: &[TermId],
) -> Result<bool, Fault>
    requires history { HistoryStands bank.now history.now }
    requires these { All (Stands bank.now) these.now }
    requires others { All (Stands bank.now) others.now }
    ensures { IfOk result (λ b. b ≡ false → SharesNone (events_at bank.now history.now) (terms_at bank.now these.now) (terms_at bank.now others.now)) }
{
    let left = calls_in(bank, these, CALL_LIMIT)?;
    let right = calls_in(bank, others, CALL_LIMIT)?;
    Ok(has_common(bank, history, left.as_slice(), right.as_slice()))
}

/// Does a call that is to be generalized stand in two of these literals?
fn has_repeated(bank: &Bank, history: &History, goal: &[TermId]) -> Result<bool, Fault>
    requires history { HistoryStands bank.now history.now }
    requires goal { All (Stands bank.now) goal.now }
    ensures { IfOk result (λ b. b ≡ false → HasNoneRepeated (events_at bank.now history.now) (terms_at bank.now goal.now)) }
{
    match goal {
        [] => Ok(false),
        [first, rest @ ..] => {
            if shares_call(bank, history, &[*first], rest)? {
                Ok(true)
            } else {
                let later = has_repeated(bank, history, rest)?;
                Ok(later)
            }
        }
    }
}

/// Does a call that is to be generalized stand on both sides of the literal?
fn is_balanced(bank: &Bank, history: &History, literal: TermId) -> Result<bool, Fault>
    requires history { HistoryStands bank.now history.now }
    requires literal { Stands bank.now literal }
    ensures { IfOk result (λ b. b ≡ false → IsUnbalanced (events_at bank.now history.now) (term_at bank.now literal)) }
{
    match compared(bank, literal) {
        Some(sides) => {
            let shared = shares_call(bank, history, &[sides.left], &[sides.right])?;
            Ok(shared)
        }
        None => Ok(false),
    }
}

/// Does a call that is to be generalized stand on both sides of one of these literals?
fn has_balanced(bank: &Bank, history: &History, goal: &[TermId]) -> Result<bool, Fault>
    requires history { HistoryStands bank.now history.now }
    requires goal { All (Stands bank.now) goal.now }
    ensures { IfOk result (λ b. b ≡ false → HasNoneBalanced (events_at bank.now history.now) (terms_at bank.now goal.now)) }
{
    match goal {
        [] => Ok(false),
        [first, rest @ ..] => {
            if is_balanced(bank, history, *first)? {
                Ok(true)
            } else {
                let later = has_balanced(bank, history, rest)?;
                Ok(later)
            }
        }
    }
}

/// May the goal have a candidate of GEN?
pub fn has_generalization(
    bank: &Bank,
    history: &History,
    hints: &Hints,
    goal: &[TermId],
) -> Result<bool, Fault>
    requires history { HistoryStands bank.now history.now }
    requires goal { All (Stands bank.now) goal.now }
    ensures { IfOk result (λ b. b ≡ false → generalizings_of (events_at bank.now history.now) (hints_at bank.now hints.now) (terms_at bank.now goal.now) ≡ []) }
{
    if hints.no_generalize {
        return Ok(false);
    }
    if has_repeated(bank, history, goal)? {
        return Ok(true);
    }
    let balanced = has_balanced(bank, history, goal)?;
    Ok(balanced)
}
