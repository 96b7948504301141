//! Calls of a goal that a rule's destructor calls become with other variables.
ghost use Rattle.std.specs.Prelude.{◌≡◌, ◌&&◌, All, IfOk, List, MatchOption, false, length, true};
ghost use Rattle.nq_logic.specs.Terms.{Each, Name, Term, call};
ghost use Rattle.nq_logic.specs.Values.{is_value};
ghost use Rattle.nq_bank.specs.Content.{IsNamed, Stands, term_at, terms_at, text_at};
ghost use Rattle.nq_goals.specs.Replacing.{stands_in_one};
ghost use Rattle.nq_stuck.specs.Destructors.{is_variable};
ghost use Rattle.nq_eliminate.specs.Serving as spec;
ghost use Rattle.nq_eliminate.specs.Serving.{Becomes, CallServes, IsRuleIn, IsServed, IsServedBy, MayServe, NoneServe, ServesAt, ServesNone, ServesNoneOf, are_variables};

use crate::destructors::destructors_in;
use crate::images::{has_copies, has_other, image};
use crate::rules::Rule;
use nq_bank::{Bank, Node, Sym, TermId, is_same_name};
use nq_moves::stands_in_these;
use nq_stuck::Fault;

/// A rule, one of its destructor calls, and the call of a goal that it becomes.
#[derive(Clone, Copy)]
pub struct Served {
    /// The rule.
    pub rule: Rule,
    /// The destructor call.
    pub destructor: TermId,
    /// The call of the goal.
    pub call: TermId,
}

/// Are both true? It is a function of its own so that its contract says so.
pub fn is_both(left: bool, right: bool) -> bool
    ensures { result ≡ (left && right) }
{
    left && right
}

/// Is the term a variable?
fn is_variable(bank: &Bank, t: TermId) -> bool
    requires { Stands bank.now t }
    ensures { result ≡ is_variable (term_at bank.now t) }
{
    match bank.node(t) {
        Node::Var(_) => true,
        Node::Num(_) => false,
        Node::App(_, _) => false,
    }
}

/// Are the terms variables?
fn are_variables(bank: &Bank, terms: &[TermId]) -> bool
    requires { All (Stands bank.now) terms.now }
    ensures { result ≡ are_variables (terms_at bank.now terms.now) }
{
    match terms {
        [] => true,
        [first, rest @ ..] => {
            let here = is_variable(bank, *first);
            let later = are_variables(bank, rest);
            is_both(here, later)
        }
    }
}

/// Are there as many of these as of those?
fn are_as_many(these: &[TermId], those: &[TermId]) -> bool
    ensures yes { result ≡ true → length these.now ≡ length those.now }
    ensures no { result ≡ false → length these.now ≡ length those.now → ⊥ }
{
    these.len() == those.len()
}

/// Can the arguments of a destructor call of a rule become these variables, which are as many?
fn can_become_variables(
    bank: &Bank,
    rule: Rule,
    destructors: &[TermId],
    from: &[TermId],
    to: &[TermId],
) -> bool
    requires rule { IsRuleIn bank.now rule }
    requires destructors { All (Stands bank.now) destructors.now }
    requires from { All (Stands bank.now) from.now }
    requires to { All (Stands bank.now) to.now }
    requires variables { are_variables (terms_at bank.now to.now) ≡ true }
    requires many { length from.now ≡ length to.now }
    ensures yes { result ≡ true → Becomes (text_at bank.now rule.name) (terms_at bank.now destructors.now) (terms_at bank.now from.now) (terms_at bank.now to.now) }
    ensures no { result ≡ false → (goal : List Term) (f : Name) → ServesNone (text_at bank.now rule.name) goal (terms_at bank.now destructors.now) (call f (terms_at bank.now from.now)) (call f (terms_at bank.now to.now)) }
{
    if has_copies(bank, from, to, destructors) {
        return false;
    }
    match image(bank, from, to, rule.variable) {
        Some(known) => !has_other(bank, from, to, rule.variable, known),
        None => false,
    }
}

/// Can the arguments of a destructor call of a rule become these? They are as many variables, what the eliminated one becomes no other
/// does, and no two of the destructor calls become one.
fn can_become(
    bank: &Bank,
    rule: Rule,
    destructors: &[TermId],
    from: &[TermId],
    to: &[TermId],
) -> bool
    requires rule { IsRuleIn bank.now rule }
    requires destructors { All (Stands bank.now) destructors.now }
    requires from { All (Stands bank.now) from.now }
    requires to { All (Stands bank.now) to.now }
    ensures yes { result ≡ true → Becomes (text_at bank.now rule.name) (terms_at bank.now destructors.now) (terms_at bank.now from.now) (terms_at bank.now to.now) }
    ensures no { result ≡ false → (goal : List Term) (f : Name) → ServesNone (text_at bank.now rule.name) goal (terms_at bank.now destructors.now) (call f (terms_at bank.now from.now)) (call f (terms_at bank.now to.now)) }
{
    if are_variables(bank, to) {
        if are_as_many(from, to) {
            can_become_variables(bank, rule, destructors, from, to)
        } else {
            false
        }
    } else {
        false
    }
}

/// Can the call of a function on these terms become a call?
fn can_become_call(
    bank: &Bank,
    rule: Rule,
    destructors: &[TermId],
    f: Sym,
    from: &[TermId],
    u: TermId,
) -> bool
    requires rule { IsRuleIn bank.now rule }
    requires destructors { All (Stands bank.now) destructors.now }
    requires name { IsNamed bank.now f }
    requires from { All (Stands bank.now) from.now }
    requires call { Stands bank.now u }
    ensures yes { result ≡ true → CallServes (text_at bank.now rule.name) (terms_at bank.now destructors.now) (text_at bank.now f) (terms_at bank.now from.now) (term_at bank.now u) }
    ensures no { result ≡ false → (goal : List Term) → ServesNone (text_at bank.now rule.name) goal (terms_at bank.now destructors.now) (call (text_at bank.now f) (terms_at bank.now from.now)) (term_at bank.now u) }
{
    match bank.node(u) {
        Node::App(g, _) => {
            let arguments = bank.args(u);
            if is_same_name(bank, f, g) {
                can_become(bank, rule, destructors, from, arguments)
            } else {
                false
            }
        }
        Node::Num(_) => false,
        Node::Var(_) => false,
    }
}

/// Can a destructor call of a rule become a call?
fn may_serve(bank: &Bank, rule: Rule, destructors: &[TermId], d: TermId, u: TermId) -> bool
    requires rule { IsRuleIn bank.now rule }
    requires destructors { All (Stands bank.now) destructors.now }
    requires destructor { Stands bank.now d }
    requires call { Stands bank.now u }
    ensures yes { result ≡ true → MayServe (text_at bank.now rule.name) (terms_at bank.now destructors.now) (term_at bank.now d) (term_at bank.now u) }
    ensures no { result ≡ false → (goal : List Term) → ServesNone (text_at bank.now rule.name) goal (terms_at bank.now destructors.now) (term_at bank.now d) (term_at bank.now u) }
{
    match bank.node(d) {
        Node::App(f, _) => {
            let arguments = bank.args(d);
            can_become_call(bank, rule, destructors, f, arguments, u)
        }
        Node::Num(_) => false,
        Node::Var(_) => false,
    }
}

/// Does a term that is no value stand in the goal?
fn stands_in_goal(bank: &Bank, u: TermId, goal: &[TermId]) -> Result<bool, Fault>
    requires call { Stands bank.now u }
    requires goal { All (Stands bank.now) goal.now }
    ensures yes { IfOk result (λ b. b ≡ true → stands_in_one (term_at bank.now u) (terms_at bank.now goal.now) ≡ true) }
    ensures no { IfOk result (λ b. b ≡ false → is_value (term_at bank.now u) ≡ false → stands_in_one (term_at bank.now u) (terms_at bank.now goal.now) ≡ false) }
{
    if bank.is_value(u) {
        return Ok(false);
    }
    match stands_in_these(bank, u, goal) {
        Ok(answer) => Ok(answer),
        Err(_) => Err(Fault::Memory),
    }
}

/// Does a destructor call of a rule become a call of the goal?
fn serves(
    bank: &Bank,
    rule: Rule,
    goal: &[TermId],
    destructors: &[TermId],
    d: TermId,
    u: TermId,
) -> Result<bool, Fault>
    requires rule { IsRuleIn bank.now rule }
    requires goal { All (Stands bank.now) goal.now }
    requires destructors { All (Stands bank.now) destructors.now }
    requires destructor { Stands bank.now d }
    requires call { Stands bank.now u }
    ensures yes { IfOk result (λ b. b ≡ true → IsServed (text_at bank.now rule.name) (terms_at bank.now goal.now) (terms_at bank.now destructors.now) (term_at bank.now d) (term_at bank.now u)) }
    ensures no { IfOk result (λ b. b ≡ false → ServesNone (text_at bank.now rule.name) (terms_at bank.now goal.now) (terms_at bank.now destructors.now) (term_at bank.now d) (term_at bank.now u)) }
{
    if may_serve(bank, rule, destructors, d, u) {
        stands_in_goal(bank, u, goal)
    } else {
        Ok(false)
    }
}

/// The first of these calls that a destructor call of a rule becomes.
fn find_call(
    bank: &Bank,
    rule: Rule,
    goal: &[TermId],
    destructors: &[TermId],
    d: TermId,
    calls: &[TermId],
) -> Result<Option<TermId>, Fault>
    requires rule { IsRuleIn bank.now rule }
    requires goal { All (Stands bank.now) goal.now }
    requires destructors { All (Stands bank.now) destructors.now }
    requires destructor { Stands bank.now d }
    requires calls { All (Stands bank.now) calls.now }
    ensures { IfOk result (λ found. MatchOption found (ServesNoneOf (text_at bank.now rule.name) (terms_at bank.now goal.now) (terms_at bank.now destructors.now) (terms_at bank.now calls.now) (term_at bank.now d)) (ServesAt bank.now (text_at bank.now rule.name) (terms_at bank.now goal.now) (terms_at bank.now destructors.now) (term_at bank.now d))) }
{
    for u in calls {
        let here = serves(bank, rule, goal, destructors, d, *u)?;
        if here {
            return Ok(Some(*u));
        }
    }
    Ok(None)
}

/// The first of these destructor calls of a rule that becomes one of these calls.
fn find_destructor(
    bank: &Bank,
    rule: Rule,
    goal: &[TermId],
    destructors: &[TermId],
    these: &[TermId],
    calls: &[TermId],
) -> Result<Option<Served>, Fault>
    requires rule { IsRuleIn bank.now rule }
    requires goal { All (Stands bank.now) goal.now }
    requires destructors { All (Stands bank.now) destructors.now }
    requires these { All (Stands bank.now) these.now }
    requires calls { All (Stands bank.now) calls.now }
    ensures { IfOk result (λ found. MatchOption found (Each (ServesNoneOf (text_at bank.now rule.name) (terms_at bank.now goal.now) (terms_at bank.now destructors.now) (terms_at bank.now calls.now)) (terms_at bank.now these.now)) (IsServedBy bank.now (terms_at bank.now goal.now) (terms_at bank.now destructors.now) (terms_at bank.now these.now) rule)) }
{
    for d in these {
        if let Some(call) = find_call(bank, rule, goal, destructors, *d, calls)? {
            return Ok(Some(Served {
                rule,
                destructor: *d,
                call,
            }));
        }
    }
    Ok(None)
}

/// The first destructor call of a rule that becomes one of these calls of a goal.
pub fn find_served(
    bank: &Bank,
    rule: Rule,
    goal: &[TermId],
    calls: &[TermId],
) -> Result<Option<Served>, Fault>
    requires rule { IsRuleIn bank.now rule }
    requires goal { All (Stands bank.now) goal.now }
    requires calls { All (Stands bank.now) calls.now }
    ensures { IfOk result (λ found. MatchOption found (NoneServe (text_at bank.now rule.name) (terms_at bank.now goal.now) (term_at bank.now rule.made_of) (terms_at bank.now calls.now)) (IsServedBy bank.now (terms_at bank.now goal.now) (spec.destructors_in (text_at bank.now rule.name) (term_at bank.now rule.made_of)) (spec.destructors_in (text_at bank.now rule.name) (term_at bank.now rule.made_of)) rule)) }
{
    let destructors = destructors_in(bank, rule.name, rule.made_of)?;
    let these = destructors.as_slice();
    find_destructor(bank, rule, goal, these, these, calls)
}
