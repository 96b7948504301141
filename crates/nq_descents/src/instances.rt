//! Instances of lines.
ghost use Rattle.std.specs.Prelude.{◌≡◌, ◌++◌, ◌∷◌, [], All, IfOk, OnOk};
ghost use Rattle.nq_kernel.specs.Growing.{WorkStands};
ghost use Rattle.nq_replay.specs.Uncounted.{GrowsUncounted};
ghost use Rattle.nq_descents.specs.Pairs.{IsPairOver};

use crate::halt::Halt;
use crate::own::own;
use crate::reading::{arguments, stands};
use crate::rules::add;
use crate::spelling::is_variable;
use nq_bank::{Node, TermId};
use nq_clause::Pair;
use nq_history::History;
use nq_kernel::{Rule, Work};

/// The pair of a term that is a variable, and a term.
fn pair_of(work: &Work, history: &History, variable: TermId, term: TermId) -> Result<Pair, Halt>
    requires { WorkStands history.now work.now }
    ensures { IfOk result (IsPairOver history.now work.now) }
{
    if !stands(&work.bank, variable) {
        return Err(Halt::Stuck);
    }
    let term = own(work, history, term)?;
    match work.bank.node(variable) {
        Node::Var(x) => {
            if is_variable(work.bank.text(x)) {
                Ok(Pair { variable: x, term })
            } else {
                Err(Halt::Stuck)
            }
        }
        Node::Num(_) => Err(Halt::Stuck),
        Node::App(_, _) => Err(Halt::Stuck),
    }
}

/// Adds a pair to others.
fn add_pair(pairs: &mut Vec<Pair>, pair: Pair) -> Result<(), Halt>
    ensures { OnOk result (pairs.new.items ≡ pairs.old.items ++ (pair ∷ [])) }
{
    match pairs.push(pair) {
        Ok(()) => Ok(()),
        Err(_) => Err(Halt::Memory),
    }
}

/// The pairs of terms that are variables, and as many terms.
fn pairs_of(
    work: &Work,
    history: &History,
    variables: &[TermId],
    terms: &[TermId],
) -> Result<Vec<Pair>, Halt>
    requires { WorkStands history.now work.now }
    ensures { IfOk result (λ ps. All (IsPairOver history.now work.now) ps.items) }
{
    if variables.len() != terms.len() {
        return Err(Halt::Stuck);
    }
    let mut pairs = Vec::new(work.bank.alloc());
    for place in 0..variables.len() {
        let pair = pair_of(work, history, variables[place], terms[place])?;
        add_pair(&mut pairs, pair)?;
    }
    Ok(pairs)
}

/// Adds the instance of a line with terms in the place of variables.
pub fn instance(
    work: &mut Work,
    history: &History,
    line: u64,
    variables: &[TermId],
    terms: &[TermId],
) -> Result<u64, Halt>
    requires { WorkStands history.now work.old }
    ensures { GrowsUncounted history.now work.old work.new }
{
    let pairs = pairs_of(work, history, variables, terms)?;
    add(work, history, Rule::Instance(line, pairs))
}

/// Adds the instance of a line with the arguments of a call in the place of the variables of another.
pub fn instance_at(
    work: &mut Work,
    history: &History,
    line: u64,
    pattern: TermId,
    t: TermId,
) -> Result<u64, Halt>
    requires { WorkStands history.now work.old }
    ensures { GrowsUncounted history.now work.old work.new }
{
    let variables = arguments(&work.bank, pattern)?;
    let terms = arguments(&work.bank, t)?;
    instance(work, history, line, variables.as_slice(), terms.as_slice())
}
