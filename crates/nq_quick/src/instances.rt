//! Instances of the lines of connectives over P and Q.
ghost use Rattle.std.specs.Prelude.{◌≡◌, ◌<◌, ◌∷◌, [], IfOk, codes, false};
ghost use Rattle.nq_logic.specs.Sizes.{depth_of, depth_limit};
ghost use Rattle.nq_bank.specs.Content.{IsIdOf, NamesText, Stands, term_at};
ghost use Rattle.nq_kernel.specs.Over.{TermIsIn};
ghost use Rattle.nq_kernel.specs.Growing.{WorkStands};
ghost use Rattle.nq_quick.specs.Heads.{joined_term};
ghost use Rattle.nq_quick.specs.Lines.{LineHasOnly, GrowsUncounted};
ghost use Rattle.nq_quick.specs.Patterns.{case_literals, case_truth, instance_literals, IsPair};

use crate::lines::add_line;
use crate::patterns::{Case, symbol};
use nq_bank::{Sym, TermId};
use nq_clause::Pair;
use nq_history::History;
use nq_kernel::{Rule, Work};
use std::alloc::AllocError;

/// Adds the line of a case for other terms than P and Q.
pub fn add_instance(
    work: &mut Work,
    history: &History,
    case: Case,
    line: u64,
    t: TermId,
    p: TermId,
    q: TermId,
) -> Result<u64, AllocError>
    requires stands { WorkStands history.now work.old }
    requires line { LineHasOnly work.old line (case_literals case) }
    requires whole { IsIdOf work.old.bank t (joined_term case.connective (term_at work.old.bank p) (term_at work.old.bank q)) }
    requires left { Stands work.old.bank p }
    requires right { Stands work.old.bank q }
    requires over { TermIsIn work.old.bank history.now t }
    requires room { case_truth case ≡ false → depth_of (term_at work.old.bank t) < depth_limit }
    ensures line { IfOk result (λ n. LineHasOnly work.new n (instance_literals case (term_at work.old.bank p) (term_at work.old.bank q))) }
    ensures grows { GrowsUncounted history.now work.old work.new }
{
    let names = names_of_sides(work, history)?;
    let first = Pair {
        variable: names.0,
        term: p,
    };
    let second = Pair {
        variable: names.1,
        term: q,
    };
    instantiate(work, history, case, line, t, first, second)
}

/// The symbols of P and Q.
fn names_of_sides(work: &mut Work, history: &History) -> Result<(Sym, Sym), AllocError>
    requires { WorkStands history.now work.old }
    ensures names { IfOk result (λ names. (NamesText work.new.bank names.0 (codes "P")) × (NamesText work.new.bank names.1 (codes "Q"))) }
    ensures grows { GrowsUncounted history.now work.old work.new }
{
    let left = symbol(work, history, b"P")?;
    let right = symbol(work, history, b"Q")?;
    Ok((left, right))
}

/// Adds the line of a case with terms in place of P and Q.
fn instantiate(
    work: &mut Work,
    history: &History,
    case: Case,
    line: u64,
    t: TermId,
    first: Pair,
    second: Pair,
) -> Result<u64, AllocError>
    requires stands { WorkStands history.now work.old }
    requires line { LineHasOnly work.old line (case_literals case) }
    requires whole { IsIdOf work.old.bank t (joined_term case.connective (term_at work.old.bank first.term) (term_at work.old.bank second.term)) }
    requires first { IsPair work.old.bank first (codes "P") }
    requires second { IsPair work.old.bank second (codes "Q") }
    requires over { TermIsIn work.old.bank history.now t }
    requires room { case_truth case ≡ false → depth_of (term_at work.old.bank t) < depth_limit }
    ensures line { IfOk result (λ n. LineHasOnly work.new n (instance_literals case (term_at work.old.bank first.term) (term_at work.old.bank second.term))) }
    ensures grows { GrowsUncounted history.now work.old work.new }
{
    work.bank.is_sound();
    let pairs = vec![in work.bank.alloc(); first, second]?;
    add_line(work, history, Rule::Instance(line, pairs))
}
