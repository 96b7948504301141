//! The literals that follow from tests: those of a pair from the denial of the pair, those of a choice from the choice, and what
//! is denied twice from the denial.
ghost use Rattle.nq_kernel.specs.Growing.{WorkStands};
ghost use Rattle.nq_replay.specs.Uncounted.{GrowsUncounted};

use crate::bases::denied_twice;
use crate::choices::{by_first, by_first_of_pair, by_second, by_second_of_pair};
use crate::halt::Halt;
use crate::making::deny;
use crate::reading::{argument, is_call};
use nq_bank::{Bank, TermId, ground};
use nq_history::History;
use nq_kernel::Work;

/// The most literals that are looked at.
const MOST_FACTS: usize = 1000;

/// How a line with a literal becomes one with the literal from which it follows.
#[derive(Clone, Copy)]
enum Way {
    /// It is that.
    Given,
    /// The NOT of the first part of a pair, and the NOT of the pair.
    FirstOfPair(TermId),
    /// The NOT of the second part of a pair, and the NOT of the pair.
    SecondOfPair(TermId),
    /// A term, and the NOT of its NOT.
    Doubled,
    /// The first part of a choice, and the choice.
    FirstOfChoice(TermId),
    /// The second part of a choice, and the choice.
    SecondOfChoice(TermId),
}

/// A literal that a line may hold.
#[derive(Clone, Copy)]
pub struct Fact {
    /// The literal.
    literal: TermId,
    /// How it becomes another.
    way: Way,
}

/// Adds a literal to others.
fn add_fact(facts: &mut Vec<Fact>, literal: TermId, way: Way) -> Result<(), Halt> {
    match facts.push(Fact { literal, way }) {
        Ok(()) => Ok(()),
        Err(_) => Err(Halt::Memory),
    }
}

/// Adds the parts of a choice.
fn add_choice(bank: &Bank, facts: &mut Vec<Fact>, choice: TermId) -> Result<(), Halt> {
    let first = argument(bank, choice, 0)?;
    let second = argument(bank, choice, 1)?;
    add_fact(facts, first, Way::FirstOfChoice(choice))?;
    add_fact(facts, second, Way::SecondOfChoice(choice))
}

/// Adds the NOTs of the parts of a pair.
fn add_pair(
    work: &mut Work,
    history: &History,
    facts: &mut Vec<Fact>,
    pair: TermId,
) -> Result<(), Halt>
    requires { WorkStands history.now work.old }
    ensures { GrowsUncounted history.now work.old work.new }
{
    let first = argument(&work.bank, pair, 0)?;
    let second = argument(&work.bank, pair, 1)?;
    let one = deny(work, history, first)?;
    let other = deny(work, history, second)?;
    add_fact(facts, one, Way::FirstOfPair(pair))?;
    add_fact(facts, other, Way::SecondOfPair(pair))
}

/// Adds what follows from the NOT of a term.
fn add_denied(
    work: &mut Work,
    history: &History,
    facts: &mut Vec<Fact>,
    t: TermId,
) -> Result<(), Halt>
    requires { WorkStands history.now work.old }
    ensures { GrowsUncounted history.now work.old work.new }
{
    if is_call(&work.bank, ground::AND, t) {
        return add_pair(work, history, facts, t);
    }
    if is_call(&work.bank, ground::NOT, t) {
        let inner = argument(&work.bank, t, 0)?;
        return add_fact(facts, inner, Way::Doubled);
    }
    Ok(())
}

/// Adds what follows from a literal.
fn add_parts(
    work: &mut Work,
    history: &History,
    facts: &mut Vec<Fact>,
    literal: TermId,
) -> Result<(), Halt>
    requires { WorkStands history.now work.old }
    ensures { GrowsUncounted history.now work.old work.new }
{
    if is_call(&work.bank, ground::OR, literal) {
        return add_choice(&work.bank, facts, literal);
    }
    if is_call(&work.bank, ground::NOT, literal) {
        let t = argument(&work.bank, literal, 0)?;
        return add_denied(work, history, facts, t);
    }
    Ok(())
}

/// The literals that are given.
fn given(bank: &Bank, literals: &[TermId]) -> Result<Vec<Fact>, Halt> {
    let mut facts = Vec::new(bank.alloc());
    for literal in literals {
        add_fact(&mut facts, *literal, Way::Given)?;
    }
    Ok(facts)
}

/// The literals that are given, and those that follow.
pub fn facts_of(work: &mut Work, history: &History, literals: &[TermId]) -> Result<Vec<Fact>, Halt>
    requires { WorkStands history.now work.old }
    ensures { GrowsUncounted history.now work.old work.new }
{
    let mut facts = given(&work.bank, literals)?;
    for k in 0..MOST_FACTS {
        if k >= facts.len() {
            return Ok(facts);
        }
        let literal = facts[k].literal;
        add_parts(work, history, &mut facts, literal)?;
    }
    Ok(facts)
}

/// The literals that a line may hold.
pub fn wanted_of(bank: &Bank, facts: &[Fact]) -> Result<Vec<TermId>, Halt> {
    let mut wanted = Vec::new(bank.alloc());
    for fact in facts {
        match wanted.push(fact.literal) {
            Ok(()) => {}
            Err(_) => return Err(Halt::Memory),
        }
    }
    Ok(wanted)
}

/// Adds a line with the literal from which another follows, for that.
fn restored_one(work: &mut Work, history: &History, line: u64, fact: Fact) -> Result<u64, Halt>
    requires { WorkStands history.now work.old }
    ensures { GrowsUncounted history.now work.old work.new }
{
    match fact.way {
        Way::Given => Ok(line),
        Way::FirstOfPair(pair) => by_first_of_pair(work, history, pair, line),
        Way::SecondOfPair(pair) => by_second_of_pair(work, history, pair, line),
        Way::Doubled => denied_twice(work, history, line, fact.literal),
        Way::FirstOfChoice(choice) => by_first(work, history, choice, line),
        Way::SecondOfChoice(choice) => by_second(work, history, choice, line),
    }
}

/// Adds a line with the literals that were given, for those that follow.
pub fn restored(work: &mut Work, history: &History, line: u64, facts: &[Fact]) -> Result<u64, Halt>
    requires { WorkStands history.now work.old }
    ensures { GrowsUncounted history.now work.old work.new }
{
    let mut reached = line;
    for k in 0..facts.len() {
        let fact = facts[facts.len() - 1 - k];
        reached = restored_one(work, history, reached, fact)?;
    }
    Ok(reached)
}
