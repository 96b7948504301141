//! The first pass.
ghost use Rattle.nq_history.specs.Events.{events_at, HistoryStands};
ghost use Rattle.nq_kernel.specs.Ready.{IsReady};

use crate::axioms::history_with;
use crate::goals::{is_in, made_of, stands, term};
use nq_bank::{Bank, TermId};
use nq_history::History;
use nq_kernel::{Log, Quick, Work};
use nq_quick::{is_small_tautology, quick};
use std::alloc::{AllocError, Global};
use std::process::Abort;
use std::test::Fail;

/// Is the term of a text a small tautology?
fn is_tautology(rt: &impl Abort, alloc: Global, text: &[u8]) -> Result<bool, Fail> {
    let mut bank = Bank::new(alloc)?;
    let goal = term(rt, &mut bank, text)?;
    assert!(rt; stands(&bank, goal));
    Ok(is_small_tautology(&bank, goal)?)
}

#[test]
fn small_tautologies_are_told(rt: HostRuntime) -> Result<(), Fail> {
    for (text, expected) in [
        ("1", true),
        ("!0", true),
        ("|P!P", true),
        ("=!!PP", true),
        ("=>PQ|!PQ", true),
        ("=&PQ&QP", true),
        ("=?PQR&>PQ>!PR", true),
        (">$P$P", true),
        // eight other terms
        ("|1&A&B&C&D&E&G&HP", true),
        ("P", false),
        ("0", false),
        ("$P", false),
        (">PQ", false),
        ("&P!P", false),
        ("?PQ1", false),
        (">$P$Q", false),
        // a ninth other term
        ("|1&A&B&C&D&E&G&H&PQ", false),
    ] {
        let told = is_tautology(&rt, rt.alloc(), text.as_bytes())?;
        assert!(rt; told == expected, "{text}");
    }
    Ok(())
}

/// A byte so many times, and then the text.
fn repeated(alloc: Global, byte: u8, times: u64, text: &[u8]) -> Result<Vec<u8>, AllocError> {
    let mut bytes = Vec::new(alloc);
    for _ in 0..times {
        bytes.push(byte)?;
    }
    bytes.extend_from_slice(text)?;
    Ok(bytes)
}

// 200 nodes of IF, NOT, AND, OR, IMPLIES, IFF, T and F are few enough, and 201 are not.
#[test]
fn tautologies_have_at_most_two_hundred_nodes(rt: HostRuntime) -> Result<(), Fail> {
    for (times, expected) in [(198, true), (199, false)] {
        // so many times NOT of a variable, or T
        let nots = repeated(rt.alloc(), b'!', times, b"P1")?;
        let mut text = b"|".to_vec(rt.alloc())?;
        text.extend_from_slice(nots.as_slice())?;
        let told = is_tautology(&rt, rt.alloc(), text.as_slice())?;
        assert!(rt; told == expected, "{times}");
    }
    Ok(())
}

/// The way in which the first pass proves a goal that is one of the first terms of the bank, and how many lines it adds; none
/// where it doesn't prove it.
fn proof_in(
    rt: &impl Abort,
    bank: Bank,
    history: &History,
    made: u64,
    goal: TermId,
) -> Result<Option<(Quick, u64)>, Fail>
    requires stands { HistoryStands bank history.now }
    requires ready { IsReady (events_at bank history.now) }
{
    let log = Log::new(bank.alloc());
    let mut work = Work::new(bank, log, 1);
    assert!(rt; stands(&work.bank, goal));
    assert!(rt; is_in(&work.bank, history, made, goal));
    let answer = quick(&mut work, history, goal)?;
    assert!(rt; work.counter.used() == 0);
    match answer {
        None => Ok(None),
        Some((way, line)) => {
            assert!(rt; work.log.cited(line) == Some(&[goal][..]));
            Ok(Some((way, work.log.len())))
        }
    }
}

/// The way in which the first pass proves a goal in the ground history with an axiom, and how many lines it adds; none where
/// it doesn't prove it.
fn proof_of(
    rt: &impl Abort,
    alloc: Global,
    axiom: &str,
    goal: &str,
) -> Result<Option<(Quick, u64)>, Fail> {
    let mut bank = Bank::new(alloc)?;
    let name = bank.name(b"FIRST")?;
    let pattern = term(rt, &mut bank, axiom.as_bytes())?;
    let goal = term(rt, &mut bank, goal.as_bytes())?;
    let made = bank.len();
    let history = history_with(rt, &mut bank, name, pattern)?;
    proof_in(rt, bank, &history, made, goal)
}

// Each row is an axiom, a goal, and the way in which the goal is proved.
#[test]
fn the_first_of_the_ways_is_taken(rt: HostRuntime) -> Result<(), Fail> {
    for (axiom, goal, way) in [
        ("$X", "$$!P", Some(Quick::Inst)),
        ("X", "$P", Some(Quick::Inst)),
        // a variable stands for one term
        ("~XX", "~$P$P", Some(Quick::Inst)),
        ("~XX", "~P$P", None),
        // all variables are replaced at once
        ("~$X$Q", "~$$Q$X", Some(Quick::Inst)),
        // a numeral above 0 is a call of ADD1
        ("~+XX", "~43", Some(Quick::Inst)),
        ("~+XX", "~42", None),
        ("~P++X", "~Q2", Some(Quick::Inst)),
        ("~P+++X", "~Q2", None),
        ("~P2", "~Q2", Some(Quick::Inst)),
        ("~P2", "~Q3", None),
        (">XQ", ">PQ", Some(Quick::Inst)),
        ("$X", "!P", None),
        ("$$X", "$P", None),
        // instances that are tautologies, or have values
        (">XQ", ">$P$P", Some(Quick::Taut)),
        (">XQ", ">11", Some(Quick::Taut)),
        ("~XP", "~+23", Some(Quick::Eval)),
        ("$X", "$2", Some(Quick::Eval)),
        // the value is F
        ("~XP", "~+22", Some(Quick::Inst)),
    ] {
        let found = proof_of(&rt, rt.alloc(), axiom, goal)?;
        assert!(rt; found.map(|f| f.0) == way, "{axiom} {goal}");
    }
    Ok(())
}

// The parity of eight terms, in two orders, needs each way to make them true or false. A call of k of the terms takes two
// lines for each of their 2^k ways, and lines of two ways are cut to one: 2 * (2 * 508 + 256) + 255 lines. The rest are
// lines of the terms, of the cases of IFF, and instances of these.
#[test]
fn parity_takes_few_lines(rt: HostRuntime) -> Result<(), Fail> {
    let goal = "==A=B=C=D=E=G=HI=I=H=G=E=D=C=BA";
    let found = proof_of(&rt, rt.alloc(), "P", goal)?;
    assert!(rt; found.is_some_and(|f| f.0 == Quick::Taut && f.1 <= 3000));
    Ok(())
}

// A goal that is as deep as a term may be is proved, though the NOT of it would be too deep.
#[test]
fn the_deepest_goals_are_proved(rt: HostRuntime) -> Result<(), Fail> {
    let mut bank = Bank::new(rt.alloc())?;
    let name = bank.name(b"FIRST")?;
    let text = repeated(rt.alloc(), b'$', 3998, b"P")?;
    let axiom = term(&rt, &mut bank, b"P")?;
    let t = term(&rt, &mut bank, text.as_slice())?;
    let goal = made_of(&rt, &mut bank, b'>', &[t, t])?;
    let made = bank.len();
    let history = history_with(&rt, &mut bank, name, axiom)?;
    let found = proof_in(&rt, bank, &history, made, goal)?;
    assert!(rt; found.is_some());
    Ok(())
}

/// The way in which the first pass proves the goal of a text, in the ground history with an axiom about CAR; none where it doesn't
/// prove it.
fn way_of(rt: &impl Abort, alloc: Global, text: &[u8]) -> Result<Option<Quick>, Fail> {
    let mut bank = Bank::new(alloc)?;
    let name = bank.name(b"FIRST")?;
    let axiom = term(rt, &mut bank, b"$X")?;
    let goal = term(rt, &mut bank, text)?;
    let made = bank.len();
    let history = history_with(rt, &mut bank, name, axiom)?;
    let found = proof_in(rt, bank, &history, made, goal)?;
    Ok(found.map(|f| f.0))
}

// Each level adds the one below to itself, and stands once in the bank: 60 levels over 1 have the value 2^60. With 128 levels
// the last sum would reach 2^128, and there is no value.
#[test]
fn a_shared_tower_is_evaluated(rt: HostRuntime) -> Result<(), Fail> {
    for (levels, value, way) in [
        (60, 1 << 60, Some(Quick::Eval)),
        (60, 1 << 59, None),
        (127, 1 << 127, Some(Quick::Eval)),
        (128, 0, None),
    ] {
        let mut bank = Bank::new(rt.alloc())?;
        let name = bank.name(b"FIRST")?;
        let axiom = term(&rt, &mut bank, b"$X")?;
        let mut tower = bank.num(1)?;
        for _ in 0..levels {
            tower = made_of(&rt, &mut bank, b'*', &[tower, tower])?;
        }
        let number = bank.num(value)?;
        let goal = made_of(&rt, &mut bank, b'~', &[tower, number])?;
        let made = bank.len();
        let history = history_with(&rt, &mut bank, name, axiom)?;
        let found = proof_in(&rt, bank, &history, made, goal)?;
        assert!(rt; found.map(|f| f.0) == way, "{levels}");
    }
    Ok(())
}

// ASSOC is opened once for each pair of a list, and once at its end: 399 pairs take 400 openings, one within another, and 400
// pairs one too many.
#[test]
fn openings_nest_to_four_hundred(rt: HostRuntime) -> Result<(), Fail> {
    for (pairs, way) in [(399, Some(Quick::Eval)), (400, None)] {
        let mut text = b"!S2".to_vec(rt.alloc())?;
        for _ in 0..pairs {
            text.extend_from_slice(b".3")?;
        }
        text.push(b'5')?;
        let found = way_of(&rt, rt.alloc(), text.as_slice())?;
        assert!(rt; found == way, "{pairs}");
    }
    Ok(())
}

// 2,000 levels of SUB1 over a numeral.
#[test]
fn deep_terms_are_evaluated(rt: HostRuntime) -> Result<(), Fail> {
    let mut text = b"~".to_vec(rt.alloc())?;
    let deep = repeated(rt.alloc(), b'-', 2000, b"5-1")?;
    text.extend_from_slice(deep.as_slice())?;
    let found = way_of(&rt, rt.alloc(), text.as_slice())?;
    assert!(rt; found == Some(Quick::Eval));
    Ok(())
}
