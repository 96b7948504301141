//! Terms of a bank: what is kept with them, what is found again, and what is given back.
ghost use Rattle.std.specs.Prelude.{◌≡◌, nat_lt, length, true};
ghost use Rattle.nq_bank.specs.Content.{Grows};

use nq_bank::{Bank, BankFault, Node, Sym, TermId, ground};
use std::process::Abort;
use std::test::Fail;

fn has_name(bank: &Bank, s: Sym) -> bool
    ensures { result ≡ nat_lt s.0 (length bank.now.names) }
{
    s.0 < bank.mark().names
}

fn has_term(bank: &Bank, t: TermId) -> bool
    ensures { result ≡ nat_lt t.0 (length bank.now.terms) }
{
    t.0 < bank.len()
}

fn constant(rt: &impl Abort, bank: &mut Bank, f: Sym) -> Result<TermId, BankFault> {
    assert!(rt; has_name(bank, f));
    bank.app(f, &[])
}

fn call_of_one(rt: &impl Abort, bank: &mut Bank, f: Sym, a: TermId) -> Result<TermId, BankFault> {
    assert!(rt; has_name(bank, f) && has_term(bank, a));
    bank.app(f, &[a])
}

fn pair_of(rt: &impl Abort, bank: &mut Bank, a: TermId, d: TermId) -> Result<TermId, BankFault> {
    assert!(rt; has_name(bank, ground::CONS) && has_term(bank, a) && has_term(bank, d));
    bank.app(ground::CONS, &[a, d])
}

fn variable(rt: &impl Abort, bank: &mut Bank, text: &[u8]) -> Result<TermId, Fail> {
    let s = bank.name(text)?;
    assert!(rt; has_name(bank, s));
    Ok(bank.var(s)?)
}

#[test]
fn add1_of_a_numeral_is_the_next_numeral(rt: HostRuntime) -> Result<(), Fail> {
    let mut bank = Bank::new(rt.alloc())?;
    let zero = constant(&rt, &mut bank, ground::ZERO)?;
    assert_eq!(rt; zero, bank.num(0)?);
    for (n, next) in [
        (0, Node::Num(1)),
        (41, Node::Num(42)),
        (u128::MAX - 1, Node::Num(u128::MAX)),
        (u128::MAX, Node::App(ground::ADD1, 1)),
    ] {
        let t = bank.num(n)?;
        let more = call_of_one(&rt, &mut bank, ground::ADD1, t)?;
        assert!(rt; has_term(&bank, more));
        assert_eq!(rt; bank.node(more), next, "after {n}");
    }
    Ok(())
}

/// Are these a term's depth and its size, and is it a value?
fn is_known(bank: &Bank, t: TermId, depth: u32, size: u64, value: bool) -> bool {
    if has_term(bank, t) {
        bank.depth(t) == depth && bank.size(t) == size && bank.is_value(t) == value
    } else {
        false
    }
}

#[test]
fn pairs_know_their_depth_size_and_value(rt: HostRuntime) -> Result<(), Fail> {
    let mut bank = Bank::new(rt.alloc())?;
    let x = variable(&rt, &mut bank, b"X")?;
    let three = bank.num(3)?;
    let pair = pair_of(&rt, &mut bank, three, three)?;
    assert!(rt; is_known(&bank, x, 1, 1, false));
    assert!(rt; is_known(&bank, three, 1, 1, true));
    for (first, second, depth, size, value) in [
        (three, three, 2, 3, true),
        (x, three, 2, 3, false),
        (pair, pair, 3, 7, true),
    ] {
        let t = pair_of(&rt, &mut bank, first, second)?;
        assert!(rt; is_known(&bank, t, depth, size, value));
    }
    Ok(())
}

// Each row is a function of one argument, which is T or 3, and whether the call is a value.
#[test]
fn values_are_packs_and_negated_numerals(rt: HostRuntime) -> Result<(), Fail> {
    let mut bank = Bank::new(rt.alloc())?;
    let truth = constant(&rt, &mut bank, ground::TRUE)?;
    let three = bank.num(3)?;
    assert!(rt; is_known(&bank, truth, 1, 1, true));
    for (f, a, value) in [
        (ground::PACK, truth, true),
        (ground::MINUS, three, true),
        (ground::MINUS, truth, false),
        (ground::NUMBERP, three, false),
    ] {
        let t = call_of_one(&rt, &mut bank, f, a)?;
        assert!(rt; is_known(&bank, t, 2, 2, value));
    }
    Ok(())
}

#[test]
fn a_mark_counts_names_and_terms(rt: HostRuntime) -> Result<(), Fail> {
    let mut bank = Bank::new(rt.alloc())?;
    let x = variable(&rt, &mut bank, b"X")?;
    let mark = bank.mark();
    let y = variable(&rt, &mut bank, b"Y")?;
    let pair = pair_of(&rt, &mut bank, x, y)?;
    assert!(rt; has_term(&bank, pair));
    assert_eq!(rt; bank.args(pair), [x, y].as_slice());
    assert!(rt; mark.names == 49 && mark.nodes == 1 && bank.len() == 3);
    Ok(())
}

#[test]
fn a_name_that_is_given_back_is_given_out_again(rt: HostRuntime) -> Result<(), Fail> {
    let mut bank = Bank::new(rt.alloc())?;
    assert!(rt; has_name(&bank, ground::IF));
    assert_eq!(rt; bank.text(ground::IF), b"IF".as_slice());
    let mark = bank.mark();
    let first = bank.name(b"FIRST")?;
    assert_eq!(rt; bank.name(b"FIRST")?, first);
    bank.release(mark);
    let second = bank.name(b"SECOND")?;
    assert_eq!(rt; second, first);
    assert!(rt; has_name(&bank, second));
    assert_eq!(rt; bank.text(second), b"SECOND".as_slice());
    Ok(())
}

/// The id of a pair of numerals below 200, by its number: different numbers have different parts. It is 0 where there is none.
fn pair_number(bank: &mut Bank, number: u64) -> u64
    ensures { Grows bank.old bank.new }
{
    let (first, second) = (TermId(number % 200), TermId(number / 200));
    if has_name(bank, ground::CONS) && has_term(bank, first) && has_term(bank, second) {
        match bank.app(ground::CONS, &[first, second]) {
            Ok(t) => t.0,
            Err(_) => 0,
        }
    } else {
        0
    }
}

/// The sum of the ids of so many pairs.
fn pairs(bank: &mut Bank, count: u64) -> u64
    ensures { Grows bank.old bank.new }
{
    let mut sum: u64 = 0;
    for i in 0..count {
        sum = sum.wrapping_add(pair_number(bank, i));
    }
    sum
}

/// The sum of the numbers from 200 to 9199: that many terms stand in more than two pages.
const ALL_IDS: u64 = (200 + 9199) * 4500;

#[test]
fn what_stands_in_many_pages_is_found_and_given_back(rt: HostRuntime) -> Result<(), Fail> {
    let mut bank = Bank::new(rt.alloc())?;
    for n in 0..200u64 {
        bank.num(u128::from(n))?;
    }
    let mark = bank.mark();
    assert!(rt; pairs(&mut bank, 9000) == ALL_IDS && bank.len() == 9200);
    assert!(rt; pairs(&mut bank, 9000) == ALL_IDS && bank.len() == 9200);
    let last = TermId(9199);
    assert!(rt; has_term(&bank, last));
    assert_eq!(rt; bank.args(last), [TermId(199), TermId(44)].as_slice());
    assert_eq!(rt; bank.node(last), Node::App(ground::CONS, 2));
    bank.release(mark);
    assert!(rt; bank.len() == 200);
    // another pair stands first now, and none is found where it stood before
    let other = pair_of(&rt, &mut bank, TermId(199), TermId(44))?;
    assert_eq!(rt; other, TermId(200));
    assert!(rt; pairs(&mut bank, 9000) == ALL_IDS && bank.len() == 9200);
    Ok(())
}

/// A term within so many calls of one argument.
fn nest(rt: &impl Abort, bank: &mut Bank, t: TermId, count: u64) -> Result<TermId, BankFault> {
    let mut nest = t;
    for _ in 0..count {
        nest = call_of_one(rt, bank, ground::CAR, nest)?;
    }
    Ok(nest)
}

#[test]
fn a_term_is_at_most_4000_deep(rt: HostRuntime) -> Result<(), Fail> {
    let mut bank = Bank::new(rt.alloc())?;
    let x = variable(&rt, &mut bank, b"X")?;
    let deepest = nest(&rt, &mut bank, x, 3999)?;
    assert!(rt; has_term(&bank, deepest));
    assert_eq!(rt; bank.depth(deepest), 4000);
    match call_of_one(&rt, &mut bank, ground::CDR, deepest) {
        Ok(_) => return Err("it is 4001 deep".into()),
        Err(fault) => assert_eq!(rt; fault, BankFault::Deep),
    }
    assert!(rt; bank.len() == 4000);
    Ok(())
}

#[test]
fn a_size_is_told_up_to_2_to_the_63(rt: HostRuntime) -> Result<(), Fail> {
    let mut bank = Bank::new(rt.alloc())?;
    let mut t = variable(&rt, &mut bank, b"X")?;
    // the tree of so many pairs, each of one term twice, has 2^(n + 1) - 1 nodes
    for n in 0..65u32 {
        assert!(rt; has_term(&bank, t));
        assert_eq!(rt;
            bank.size(t),
            if n < 63 {
                (2u64 << n).saturating_sub(1)
            } else {
                1u64 << 63
            },
            "{n}"
        );
        t = pair_of(&rt, &mut bank, t, t)?;
    }
    Ok(())
}
