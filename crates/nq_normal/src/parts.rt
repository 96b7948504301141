//! The parts of rules, and how each rewrites.
ghost use Rattle.std.specs.Prelude.{◌≡◌, ◌||◌, All, IfOk};
ghost use Rattle.std.specs.List.{list_any};
ghost use Rattle.nq_logic.specs.Terms.{call};
ghost use Rattle.nq_bank.specs.Content.{Stands, IsNamed, text_at, term_at, terms_at};
ghost use Rattle.nq_goals.specs.Occurrences.{atoms_of};
ghost use Rattle.nq_goals.specs.Matching.{is_instance};
ghost use Rattle.nq_goals.specs.Normal.{kind_of_equation, kind_of_part, rewrites, rewrites_by};
ghost use Rattle.nq_normal.specs.Parts.{kind_at, KindStands};

use crate::atoms::atom_of;
use crate::barred::is_either;
use crate::matching::{is_instance, is_permutative};
use crate::open::has_open_in;
use crate::sought::Sought;
use nq_bank::{Bank, Node, Sym, TermId, ground};
use std::alloc::AllocError;

/// How a part of a rule rewrites.
#[derive(Clone, Copy)]
pub enum PartKind {
    /// The left side, wherever it stands open: of (EQUAL left right) and of (NOT left).
    Everywhere(TermId),
    /// (EQUAL left right), where the right side is the left one with its variables exchanged.
    Permutes,
    /// Any other part, as a whole literal.
    Literally,
}

/// How an equation rewrites.
fn kind_of_equation(bank: &Bank, left: TermId, right: TermId) -> Result<PartKind, AllocError>
    requires left { Stands bank.now left }
    requires right { Stands bank.now right }
    ensures is { IfOk result (λ kind. kind_at bank.now kind ≡ kind_of_equation (term_at bank.now left) (term_at bank.now right)) }
    ensures stands { IfOk result (λ kind. KindStands bank.now kind) }
{
    if is_permutative(bank, left, right)? {
        Ok(PartKind::Permutes)
    } else {
        Ok(PartKind::Everywhere(left))
    }
}

/// How a part that is a call rewrites.
fn kind_of_call(bank: &Bank, f: Sym, arguments: &[TermId]) -> Result<PartKind, AllocError>
    requires name { IsNamed bank.now f }
    requires arguments { All (Stands bank.now) arguments.now }
    ensures is { IfOk result (λ kind. kind_at bank.now kind ≡ kind_of_part (call (text_at bank.now f) (terms_at bank.now arguments.now))) }
    ensures stands { IfOk result (λ kind. KindStands bank.now kind) }
{
    match arguments {
        [] => Ok(PartKind::Literally),
        [left] => {
            if bank.is_ground(f, ground::NOT) {
                Ok(PartKind::Everywhere(*left))
            } else {
                Ok(PartKind::Literally)
            }
        }
        [left, right] => {
            if bank.is_ground(f, ground::EQUAL) {
                kind_of_equation(bank, *left, *right)
            } else {
                Ok(PartKind::Literally)
            }
        }
        [_, _, _, ..] => Ok(PartKind::Literally),
    }
}

/// How a part of a rule rewrites.
fn kind_of_part(bank: &Bank, part: TermId) -> Result<PartKind, AllocError>
    requires { Stands bank.now part }
    ensures is { IfOk result (λ kind. kind_at bank.now kind ≡ kind_of_part (term_at bank.now part)) }
    ensures stands { IfOk result (λ kind. KindStands bank.now kind) }
{
    match bank.node(part) {
        Node::Var(_) => Ok(PartKind::Literally),
        Node::Num(_) => Ok(PartKind::Literally),
        Node::App(f, _) => kind_of_call(bank, f, bank.args(part)),
    }
}

/// Is some literal an instance of a part?
fn has_instance(bank: &Bank, part: TermId, goal: &[TermId]) -> Result<bool, AllocError>
    requires part { Stands bank.now part }
    requires goal { All (Stands bank.now) goal.now }
    ensures { IfOk result (λ answer. answer ≡ list_any (is_instance (term_at bank.now part)) (terms_at bank.now goal.now)) }
{
    match goal {
        [] => Ok(false),
        [first, rest @ ..] => {
            if is_instance(bank, part, *first)? {
                Ok(true)
            } else {
                has_instance(bank, part, rest)
            }
        }
    }
}

/// Is some literal, its outer NOT aside, an instance of a part?
fn has_atom(bank: &Bank, part: TermId, goal: &[TermId]) -> Result<bool, AllocError>
    requires part { Stands bank.now part }
    requires goal { All (Stands bank.now) goal.now }
    ensures { IfOk result (λ answer. answer ≡ list_any (is_instance (term_at bank.now part)) (atoms_of (terms_at bank.now goal.now))) }
{
    match goal {
        [] => Ok(false),
        [first, rest @ ..] => {
            if is_instance(bank, part, atom_of(bank, *first))? {
                Ok(true)
            } else {
                has_atom(bank, part, rest)
            }
        }
    }
}

/// Is some literal an instance of a part, or one without its outer NOT?
fn has_literal(bank: &Bank, part: TermId, goal: &[TermId]) -> Result<bool, AllocError>
    requires part { Stands bank.now part }
    requires goal { All (Stands bank.now) goal.now }
    ensures { IfOk result (λ answer. answer ≡ (list_any (is_instance (term_at bank.now part)) (terms_at bank.now goal.now) || list_any (is_instance (term_at bank.now part)) (atoms_of (terms_at bank.now goal.now)))) }
{
    let whole = has_instance(bank, part, goal)?;
    let denied = has_atom(bank, part, goal)?;
    Ok(is_either(whole, denied))
}

/// Does a part of this kind rewrite the goal?
fn rewrites_by(
    bank: &Bank,
    kind: PartKind,
    part: TermId,
    goal: &[TermId],
) -> Result<bool, AllocError>
    requires kind { KindStands bank.now kind }
    requires part { Stands bank.now part }
    requires goal { All (Stands bank.now) goal.now }
    ensures { IfOk result (λ answer. answer ≡ rewrites_by (kind_at bank.now kind) (term_at bank.now part) (terms_at bank.now goal.now)) }
{
    match kind {
        PartKind::Everywhere(left) => has_open_in(bank, &Sought::Instance(left), goal),
        PartKind::Permutes => Ok(false),
        PartKind::Literally => has_literal(bank, part, goal),
    }
}

/// Does a part rewrite the goal?
pub fn rewrites(bank: &Bank, part: TermId, goal: &[TermId]) -> Result<bool, AllocError>
    requires part { Stands bank.now part }
    requires goal { All (Stands bank.now) goal.now }
    ensures { IfOk result (λ answer. answer ≡ rewrites (terms_at bank.now goal.now) (term_at bank.now part)) }
{
    let kind = kind_of_part(bank, part)?;
    rewrites_by(bank, kind, part, goal)
}
