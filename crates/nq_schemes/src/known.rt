//! Terms that stand in calls at hand and in their bodies, and so are over the history.
ghost use Rattle.std.specs.Prelude.{◌≡◌, All, IfOk, IfSome, OnOk, IsTrue, Err};
ghost use Rattle.nq_logic.specs.Terms.{Variable};
ghost use Rattle.nq_bank.specs.Content.{IsNamed, Stands, text_at, term_at};
ghost use Rattle.nq_lines.specs.Lines.{IsTermIn};
ghost use Rattle.nq_lines.specs.Instances.{ArePairsIn};
ghost use Rattle.nq_schemes.specs.Known.{IsNameOf, IsOpenedIn, IsPairIn, with_some};

use crate::draft::Change;
use crate::opened::Opened;
use nq_bank::{Bank, Node, Sym, TermId};
use nq_clause::Pair;
use nq_history::History;
use nq_kernel::{Stop, Work};
use nq_lines::is_same;
use nq_rule::are_distinct_variables;

/// Does a term stand in another, which is over the history? The parts of a term stand before it in the bank.
pub fn is_within(work: &Work, history: &History, whole: TermId, t: TermId) -> bool
    requires { IsTermIn history.now work.now whole }
    ensures { IsTrue result → IsTermIn history.now work.now t }
{
    if t.0 >= whole.0 {
        return is_same(whole, t);
    }
    let arguments = work.bank.args(whole);
    for i in 0..arguments.len() {
        let a = arguments[i];
        if is_within(work, history, a, t) {
            return true;
        }
    }
    false
}

/// Does a term stand in a call, or in its body?
fn is_in_one(work: &Work, history: &History, opened: Opened, t: TermId) -> bool
    requires { IsOpenedIn history.now work.now opened }
    ensures { IsTrue result → IsTermIn history.now work.now t }
{
    if is_within(work, history, opened.call, t) {
        return true;
    }
    is_within(work, history, opened.body, t)
}

/// Does a term stand in one of these calls, or in its body?
pub fn is_known(work: &Work, history: &History, opened: &[Opened], t: TermId) -> bool
    requires { All (IsOpenedIn history.now work.now) opened.now }
    ensures { IsTrue result → IsTermIn history.now work.now t }
{
    for o in opened {
        if is_in_one(work, history, *o, t) {
            return true;
        }
    }
    false
}

/// The name of a variable.
fn name_of(bank: &Bank, t: TermId) -> Option<Sym>
    requires { Stands bank.now t }
    ensures some { IfSome result (λ x. IsNamed bank.now x) }
    ensures same { IfSome result (λ x. term_at bank.now t ≡ Variable (text_at bank.now x)) }
{
    match bank.node(t) {
        Node::Var(x) => Some(x),
        Node::Num(_) => None,
        Node::App(_, _) => None,
    }
}

/// The name of a variable that is known.
pub fn known_name(work: &Work, history: &History, opened: &[Opened], t: TermId) -> Option<Sym>
    requires { All (IsOpenedIn history.now work.now) opened.now }
    ensures { IfSome result (IsNameOf history.now work.now t) }
{
    if !is_known(work, history, opened, t) {
        return None;
    }
    name_of(&work.bank, t)
}

/// A variable, and what it becomes.
fn pair_of(work: &Work, history: &History, opened: &[Opened], c: Change) -> Option<Pair>
    requires { All (IsOpenedIn history.now work.now) opened.now }
    ensures { IfSome result (IsPairIn history.now work.now) }
{
    if !is_known(work, history, opened, c.term) {
        return None;
    }
    match known_name(work, history, opened, c.variable) {
        Some(variable) => Some(Pair {
            variable,
            term: c.term,
        }),
        None => None,
    }
}

/// The same, where the variable does not stay.
fn changed_pair(work: &Work, history: &History, opened: &[Opened], c: Change) -> Option<Pair>
    requires { All (IsOpenedIn history.now work.now) opened.now }
    ensures { IfSome result (IsPairIn history.now work.now) }
{
    if c.term.0 == c.variable.0 {
        return None;
    }
    pair_of(work, history, opened, c)
}

/// One pair more, if there is one.
fn add_pair(pairs: &mut Vec<Pair>, found: Option<Pair>) -> Result<(), Stop>
    ensures more { OnOk result (pairs.new.items ≡ with_some pairs.old.items found) }
    ensures memory { result ≡ Err Stop.OutOfSteps → ⊥ }
{
    match found {
        Some(pair) => match pairs.push(pair) {
            Ok(()) => Ok(()),
            Err(_) => Err(Stop::Memory),
        },
        None => Ok(()),
    }
}

/// The variables of a step that do not stay, and what they become, one after the other.
fn pairs_in(
    work: &Work,
    history: &History,
    opened: &[Opened],
    changes: &[Change],
) -> Result<Vec<Pair>, Stop>
    requires { All (IsOpenedIn history.now work.now) opened.now }
    ensures pairs { IfOk result (λ v. All (IsPairIn history.now work.now) v.items) }
    ensures memory { result ≡ Err Stop.OutOfSteps → ⊥ }
{
    let mut pairs = Vec::new(work.bank.alloc());
    for c in changes {
        let found = changed_pair(work, history, opened, *c);
        add_pair(&mut pairs, found)?;
    }
    Ok(pairs)
}

/// The variables of a step that do not stay, and what they become, where these are distinct.
pub fn pairs_of(
    work: &Work,
    history: &History,
    opened: &[Opened],
    changes: &[Change],
) -> Result<Option<Vec<Pair>>, Stop>
    requires { All (IsOpenedIn history.now work.now) opened.now }
    ensures pairs { IfOk result (λ found. IfSome found (λ v. ArePairsIn history.now work.now v.items)) }
    ensures memory { result ≡ Err Stop.OutOfSteps → ⊥ }
{
    let pairs = pairs_in(work, history, opened, changes)?;
    if are_distinct_variables(&work.bank, pairs.as_slice()) {
        Ok(Some(pairs))
    } else {
        Ok(None)
    }
}
