//! Makes calls of two arguments in a bank, each once, finds them again in the same order and in another, and gives them back.
//! It tells on standard error how many milliseconds of the processor each took. Its word is the number of calls, a million
//! where there is none.
#![tactic(auto)]

ghost use Rattle.std.specs.Prelude.{◌≡◌, ◌<◌, nat_lt, length};
ghost use Rattle.nq_bank.specs.Content.{Grows};

use nq_bank::{Bank, Sym, TermId, ground};
use std::time::{CpuClock, Duration};
use std::{env, io};

/// How many numerals the calls have as arguments.
const NUMERALS: u64 = 2000;

/// The step from a call to the next in the other order.
const STEP: u64 = 765_433;

fn has_name(bank: &Bank, s: Sym) -> bool
    ensures { result ≡ nat_lt s.0 (length bank.now.names) }
{
    s.0 < bank.mark().names
}

fn has_term(bank: &Bank, t: TermId) -> bool
    ensures { result ≡ nat_lt t.0 (length bank.now.terms) }
{
    t.0 < bank.len()
}

/// The id of a call, by its number: two numbers have other arguments. It is 0 where there is none.
fn call(bank: &mut Bank, number: u64) -> u64
    ensures { Grows bank.old bank.new }
{
    let first = TermId(number % NUMERALS);
    let second = TermId(number / NUMERALS);
    if has_name(bank, ground::CONS) && has_term(bank, first) && has_term(bank, second) {
        match bank.app(ground::CONS, &[first, second]) {
            Ok(t) => t.0,
            Err(_) => 0,
        }
    } else {
        0
    }
}

/// The sum of the ids of so many calls, from number to number by a step, round the end.
fn calls(bank: &mut Bank, count: u64, step: u64) -> u64
    ensures { Grows bank.old bank.new }
{
    let mut sum: u64 = 0;
    let mut number: u64 = 0;
    for i in 0..count {
        sum = sum.wrapping_add(call(bank, number));
        number = number.wrapping_add(step) % count;
    }
    sum
}

/// Makes the numerals.
fn numerals(bank: &mut Bank) -> bool {
    (0..NUMERALS).all(|n| bank.num(u128::from(n)).is_ok())
}

fn milliseconds(from: Duration, to: Duration) -> u128 {
    to.saturating_sub(from).as_millis()
}

fn run(rt: &HostRuntime, bank: &mut Bank, count: u64) -> io::Result<()> {
    let mark = bank.mark();
    let begun = rt.thread_cpu_time()?;
    let made = calls(bank, count, 1);
    let after_made = rt.thread_cpu_time()?;
    let found = calls(bank, count, 1);
    let after_found = rt.thread_cpu_time()?;
    let other = calls(bank, count, STEP);
    let after_other = rt.thread_cpu_time()?;
    let terms = bank.len();
    bank.release(mark);
    let after_release = rt.thread_cpu_time()?;
    println!(rt; "Calls: {count}, terms: {terms}, left: {}.", bank.len())?;
    println!(rt;
        "The same were found: {}, {}.",
        made == found,
        made == other
    )?;
    eprintln!(rt;
        "made {} ms, found {} ms, found in another order {} ms, given back {} ms",
        milliseconds(begun, after_made),
        milliseconds(after_made, after_found),
        milliseconds(after_found, after_other),
        milliseconds(after_other, after_release)
    )
}

/// The last word that is a number.
fn count_of(rt: &HostRuntime) -> io::Result<u64> {
    let mut count = 1_000_000;
    for word in env::args(rt)? {
        if let Ok(number) = word.parse::<u64>() {
            count = number;
        }
    }
    Ok(count)
}

fn main(rt: HostRuntime) -> io::Result<()> {
    let count = count_of(&rt)?;
    match Bank::new(rt.alloc()) {
        Err(_) => println!(rt; "Out of memory."),
        Ok(mut bank) => {
            println!(rt; "The numerals stand: {}.", numerals(&mut bank))?;
            run(&rt, &mut bank, count)
        }
    }
}
