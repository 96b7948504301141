//! Nests of OR: the term by which a prover is asked for a clause, and the line of the clause, once the term is proved.
ghost use Rattle.std.specs.Prelude.{◌≡◌, ◌<◌, ◌++◌, ◌∷◌, [], All, List, IfOk, Err, codes, length};
ghost use Rattle.nq_logic.specs.Terms.{Term};
ghost use Rattle.nq_logic.specs.Sizes.{depth_of, depth_limit};
ghost use Rattle.nq_logic.specs.Words.{not_term, or_term};
ghost use Rattle.nq_logic.specs.Shells.{either_of};
ghost use Rattle.nq_bank.specs.Content.{Grows, Stands, IsIdOf, term_at, terms_at};
ghost use Rattle.nq_kernel.specs.Over.{TermIsIn};
ghost use Rattle.nq_kernel.specs.Growing.{WorkStands, LineHolds, LineStands};
ghost use Rattle.nq_lines.specs.Lines.{LineHasOnly};
ghost use Rattle.nq_replay.specs.Uncounted.{GrowsUncounted};
ghost use Rattle.nq_measures.specs.Pairs.{IsPair};
ghost use Rattle.nq_replay.specs.LawClauses.{choice_opens_clause};

use crate::lines::{add_cut, deny, symbol};
use nq_bank::{Bank, BankFault, TermId, ground, ground_name};
use nq_clause::Pair;
use nq_history::History;
use nq_kernel::{Rule, Work};
use nq_lines::argument_at;
use nq_replay::add_line;
use std::alloc::AllocError;

/// Makes the right nest of OR of some literals.
pub fn nest_of(bank: &mut Bank, literals: &[TermId]) -> Result<TermId, BankFault>
    requires some { 0 < length literals.now }
    requires stand { All (Stands bank.old) literals.now }
    ensures ok { IfOk result (λ t. IsIdOf bank.new t (either_of (terms_at bank.old literals.now))) }
    ensures deep { result ≡ Err BankFault.Deep → depth_limit < depth_of (either_of (terms_at bank.old literals.now)) }
    ensures grows { Grows bank.old bank.new }
    ensures names { bank.new.names ≡ bank.old.names }
{
    if literals.len() == 1 {
        return Ok(literals[0]);
    }
    let rest = nest_of(bank, &literals[1..])?;
    let name = ground_name(bank, ground::OR);
    bank.app(name, &[literals[0], rest])
}

/// Adds the line of the law that opens an OR, with terms in place of X and Y.
fn law_with(
    work: &mut Work,
    history: &History,
    law: u64,
    first: Pair,
    second: Pair,
    denied: TermId,
) -> Result<u64, AllocError>
    requires stands { WorkStands history.now work.old }
    requires law { LineHolds work.old law choice_opens_clause }
    requires first { IsPair work.old.bank first (codes "X") }
    requires second { IsPair work.old.bank second (codes "Y") }
    requires first_over { TermIsIn work.old.bank history.now first.term }
    requires second_over { TermIsIn work.old.bank history.now second.term }
    requires denied { IsIdOf work.old.bank denied (not_term (or_term (term_at work.old.bank first.term) (term_at work.old.bank second.term))) }
    ensures line { IfOk result (λ n. LineHasOnly work.new n (not_term (or_term (term_at work.old.bank first.term) (term_at work.old.bank second.term)) ∷ term_at work.old.bank first.term ∷ term_at work.old.bank second.term ∷ [])) }
    ensures grows { GrowsUncounted history.now work.old work.new }
{
    work.bank.is_sound();
    let pairs = vec![in work.bank.alloc(); first, second]?;
    add_line(work, history, Rule::Instance(law, pairs))
}

/// Adds the line of the law that opens an OR, at two terms.
fn law_at(
    work: &mut Work,
    history: &History,
    law: u64,
    t: TermId,
    u: TermId,
    denied: TermId,
) -> Result<u64, AllocError>
    requires stands { WorkStands history.now work.old }
    requires law { LineHolds work.old law choice_opens_clause }
    requires left { Stands work.old.bank t }
    requires right { Stands work.old.bank u }
    requires left_over { TermIsIn work.old.bank history.now t }
    requires right_over { TermIsIn work.old.bank history.now u }
    requires denied { IsIdOf work.old.bank denied (not_term (or_term (term_at work.old.bank t) (term_at work.old.bank u))) }
    ensures line { IfOk result (λ n. LineHasOnly work.new n (not_term (or_term (term_at work.old.bank t) (term_at work.old.bank u)) ∷ term_at work.old.bank t ∷ term_at work.old.bank u ∷ [])) }
    ensures grows { GrowsUncounted history.now work.old work.new }
{
    let x = symbol(work, history, b"X")?;
    let y = symbol(work, history, b"Y")?;
    let first = Pair {
        variable: x,
        term: t,
    };
    let second = Pair {
        variable: y,
        term: u,
    };
    law_with(work, history, law, first, second, denied)
}

/// Takes an OR apart: its line becomes that of its two sides.
fn open_choice(
    work: &mut Work,
    history: &History,
    law: u64,
    t: TermId,
    u: TermId,
    whole: TermId,
    line: u64,
) -> Result<u64, AllocError>
    requires stands { WorkStands history.now work.old }
    requires law { LineHolds work.old law choice_opens_clause }
    requires line { LineStands work.old line }
    requires left { Stands work.old.bank t }
    requires right { Stands work.old.bank u }
    requires left_over { TermIsIn work.old.bank history.now t }
    requires right_over { TermIsIn work.old.bank history.now u }
    requires whole { IsIdOf work.old.bank whole (or_term (term_at work.old.bank t) (term_at work.old.bank u)) }
    requires over { TermIsIn work.old.bank history.now whole }
    requires room { depth_of (term_at work.old.bank whole) < depth_limit }
    ensures line { IfOk result (λ n. (these : List Term) → LineHasOnly work.old line (or_term (term_at work.old.bank t) (term_at work.old.bank u) ∷ these) → LineHasOnly work.new n (term_at work.old.bank t ∷ term_at work.old.bank u ∷ these)) }
    ensures stands { IfOk result (λ n. LineStands work.new n) }
    ensures grows { GrowsUncounted history.now work.old work.new }
{
    let denied = deny(work, history, whole)?;
    let here = law_at(work, history, law, t, u, denied)?;
    add_cut(work, history, line, here, whole)
}

/// Takes the nest of some literals apart: its line becomes that of the literals.
pub fn open_nest(
    work: &mut Work,
    history: &History,
    law: u64,
    literals: &[TermId],
    whole: TermId,
    line: u64,
) -> Result<u64, AllocError>
    requires stands { WorkStands history.now work.old }
    requires law { LineHolds work.old law choice_opens_clause }
    requires line { LineStands work.old line }
    requires some { 0 < length literals.now }
    requires stand { All (Stands work.old.bank) literals.now }
    requires whole { IsIdOf work.old.bank whole (either_of (terms_at work.old.bank literals.now)) }
    requires over { TermIsIn work.old.bank history.now whole }
    requires room { depth_of (term_at work.old.bank whole) < depth_limit }
    ensures line { IfOk result (λ n. (these : List Term) → LineHasOnly work.old line (either_of (terms_at work.old.bank literals.now) ∷ these) → LineHasOnly work.new n (terms_at work.old.bank literals.now ++ these)) }
    ensures stands { IfOk result (λ n. LineStands work.new n) }
    ensures grows { GrowsUncounted history.now work.old work.new }
{
    let mut whole = whole;
    let mut line = line;
    for place in 0..literals.len() - 1 {
        let inner = argument_at(&work.bank, whole, 2);
        line = open_choice(work, history, law, literals[place], inner, whole, line)?;
        whole = inner;
    }
    Ok(line)
}
