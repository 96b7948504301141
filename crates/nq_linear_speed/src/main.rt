//! Refutes systems of inequalities by linear arithmetic, and tells on standard error how long it took: a hundred systems of
//! ten inequalities over five atoms, and the chain X1 < X2 < .. < X200 < X1.
#![tactic(auto)]

ghost use Rattle.std.specs.Prelude.{◌≡◌, ◌<◌, nat_lt, length, true, All};
ghost use Rattle.nq_bank.specs.Content.{Stands};

use nq_bank::{Bank, Sym, TermId, ground};
use nq_linear::{Found, find};
use std::alloc::Global;
use std::io;
use std::time::Instant;

/// How many atoms a system has.
const ATOMS: usize = 5;

/// Numbers that look like chance, each made of the one before.
#[derive(Drop)]
struct Chance {
    state: u64,
}

impl Chance {
    /// The next number, below a bound.
    fn below(&mut self, bound: u64) -> u64
        requires { 0 < bound }
        ensures { result < bound }
    {
        self.state = self
            .state
            .wrapping_mul(6364136223846793005)
            .wrapping_add(1442695040888963407);
        (self.state >> 33) % bound
    }

    /// The next factor, from -5 to 5.
    fn factor(&mut self) -> i64 {
        match i64::try_from(self.below(11)) {
            Ok(n) => n.wrapping_sub(5),
            Err(_) => 0,
        }
    }
}

fn has_name(bank: &Bank, s: Sym) -> bool
    ensures { result ≡ nat_lt s.0 (length bank.now.names) }
{
    s.0 < bank.mark().names
}

fn has_term(bank: &Bank, t: TermId) -> bool
    ensures { result ≡ nat_lt t.0 (length bank.now.terms) }
{
    t.0 < bank.len()
}

fn have_terms(bank: &Bank, terms: &[TermId]) -> bool
    ensures { result ≡ true → All (Stands bank.now) terms.now }
{
    terms.iter().all(|t| has_term(bank, *t))
}

fn call(bank: &mut Bank, f: Sym, arguments: &[TermId]) -> Option<TermId> {
    if !has_name(bank, f) || !have_terms(bank, arguments) {
        return None;
    }
    bank.app(f, arguments).ok()
}

fn variable(bank: &mut Bank, name: &[u8]) -> Option<TermId> {
    let s = bank.name(name).ok()?;
    if !has_name(bank, s) {
        return None;
    }
    bank.var(s).ok()
}

/// `(NOT (LESSP a b))`, whose negation says that a is less than b.
fn less(bank: &mut Bank, a: TermId, b: TermId) -> Option<TermId> {
    let t = call(bank, ground::LESSP, &[a, b])?;
    call(bank, ground::NOT, &[t])
}

/// `(PLUS t (TIMES n x))`
fn plus_times(bank: &mut Bank, t: TermId, n: u64, x: TermId) -> Option<TermId> {
    let n = bank.num(u128::from(n)).ok()?;
    let product = call(bank, ground::TIMES, &[n, x])?;
    call(bank, ground::PLUS, &[t, product])
}

/// `(LESSP a b)`, where a less b has these factors at the atoms, and then this number.
fn literal_of(bank: &mut Bank, atoms: &[TermId], factors: &[i64], number: i64) -> Option<TermId> {
    let mut a = bank.num(u128::from(number.max(0).unsigned_abs())).ok()?;
    let mut b = bank.num(u128::from(number.min(0).unsigned_abs())).ok()?;
    for (x, factor) in atoms.iter().zip(factors.iter()) {
        a = plus_times(bank, a, (*factor).max(0).unsigned_abs(), *x)?;
        b = plus_times(bank, b, (*factor).min(0).unsigned_abs(), *x)?;
    }
    call(bank, ground::LESSP, &[a, b])
}

/// The atoms of a system.
fn atoms_of(bank: &mut Bank) -> Option<Vec<TermId>> {
    let mut atoms = Vec::new(bank.alloc());
    for name in [b"A", b"B", b"C", b"D", b"E"] {
        let x = variable(bank, name)?;
        atoms.push(x).ok()?;
    }
    Some(atoms)
}

/// Ten inequalities over the atoms: nine by chance, and one that they exclude together.
fn random_system(bank: &mut Bank, chance: &mut Chance) -> Option<Vec<TermId>> {
    let atoms = atoms_of(bank)?;
    let mut last: [i64; ATOMS] = [0; ATOMS];
    let mut last_number: i64 = -1;
    let mut literals = Vec::new(bank.alloc());
    for _ in 0..9 {
        let mut factors: [i64; ATOMS] = [0; ATOMS];
        let times = chance.factor().max(0);
        for k in 0..ATOMS {
            factors[k] = chance.factor();
            last[k] = last[k].wrapping_sub(times.wrapping_mul(factors[k]));
        }
        let number = chance.factor();
        last_number = last_number.wrapping_sub(times.wrapping_mul(number));
        let literal = literal_of(bank, atoms.as_slice(), &factors, number)?;
        literals.push(literal).ok()?;
    }
    let literal = literal_of(bank, atoms.as_slice(), &last, last_number)?;
    literals.push(literal).ok()?;
    Some(literals)
}

/// How many summands a refutation of the literals has; 0 where none is found.
fn summand_count(bank: &Bank, literals: &[TermId]) -> Option<usize> {
    if !have_terms(bank, literals) {
        return None;
    }
    match find(bank, literals).ok()? {
        Found::Refuted(summands) => Some(summands.len()),
        Found::Nothing => Some(0),
        Found::Passes(_, _) => Some(0),
        Found::Wide(_) => Some(0),
        Found::TooMany => Some(0),
    }
}

/// How many of a hundred systems are refuted.
fn systems_refuted(alloc: Global) -> Option<u64> {
    let mut chance = Chance { state: 1 };
    let mut refuted: u64 = 0;
    for _ in 0..100 {
        let mut bank = Bank::new(alloc).ok()?;
        let literals = random_system(&mut bank, &mut chance)?;
        if summand_count(&bank, literals.as_slice())? > 0 {
            refuted = refuted.saturating_add(1);
        }
    }
    Some(refuted)
}

/// X1 < X2 < .. < X200 < X1, where each but X1 is CDR of the one before.
fn chain(bank: &mut Bank) -> Option<Vec<TermId>> {
    let first = variable(bank, b"X")?;
    let mut x = first;
    let mut literals = Vec::new(bank.alloc());
    for _ in 1..200 {
        let next = call(bank, ground::CDR, &[x])?;
        let literal = less(bank, x, next)?;
        literals.push(literal).ok()?;
        x = next;
    }
    let literal = less(bank, x, first)?;
    literals.push(literal).ok()?;
    Some(literals)
}

/// How many inequalities the chain has, and how many summands its refutation.
fn chain_counts(alloc: Global) -> Option<(usize, usize)> {
    let mut bank = Bank::new(alloc).ok()?;
    let literals = chain(&mut bank)?;
    let count = summand_count(&bank, literals.as_slice())?;
    Some((literals.len(), count))
}

fn main(rt: HostRuntime) -> io::Result<()> {
    let start = Instant::now(&rt)?;
    match systems_refuted(rt.alloc()) {
        None => println!(rt; "Out of memory.")?,
        Some(refuted) => println!(rt; "Systems refuted: {refuted} of 100.")?,
    }
    let systems = start.elapsed(&rt)?;
    let start = Instant::now(&rt)?;
    match chain_counts(rt.alloc()) {
        None => println!(rt; "Out of memory.")?,
        Some((count, summands)) => {
            println!(rt;
                "Inequalities in the chain: {count}, summands of its refutation: {summands}."
            )?
        }
    }
    let chain = start.elapsed(&rt)?;
    eprintln!(rt;
        "systems: {} ms, chain: {} ms",
        systems.as_millis(),
        chain.as_millis()
    )
}
