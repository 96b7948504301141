//! Walks a term that is shared as much as a term can be: CONS of a term and the same term, level upon level, up to the depth
//! limit. Its tree has more nodes than can be counted, so it shows that each shared term is walked once, and that the
//! recursion fits the stack of a process.
#![tactic(auto)]

ghost use Rattle.std.specs.Prelude.{◌≡◌, nat_lt, length, IfOk};
ghost use Rattle.nq_logic.specs.Words.{call2};
ghost use Rattle.nq_bank.specs.Content.{Stands, IsIdOf, Grows, term_at};

use nq_bank::{Bank, BankFault, DEPTH_LIMIT, Sym, TermId, ground};
use nq_clause::{Pair, occurs_in, substitute};
use std::alloc::Global;
use std::io;

/// What was found of the deepest term, and of it with Y in the place of X.
#[derive(Clone, Copy)]
struct Found {
    depth: u32,
    size: u64,
    deeper: bool,
    before: bool,
    after: bool,
    replaced_depth: u32,
}

fn has_name(bank: &Bank, s: Sym) -> bool
    ensures { result ≡ nat_lt s.0 (length bank.now.names) }
{
    s.0 < bank.mark().names
}

fn has_term(bank: &Bank, t: TermId) -> bool
    ensures { result ≡ nat_lt t.0 (length bank.now.terms) }
{
    t.0 < bank.len()
}

/// The id of CONS of a term and the same term.
fn pair_of(bank: &mut Bank, t: TermId) -> Result<TermId, BankFault>
    requires { Stands bank.old t }
    ensures pair { IfOk result (λ r. IsIdOf bank.new r (call2 "CONS" (term_at bank.old t) (term_at bank.old t))) }
    ensures grows { Grows bank.old bank.new }
{
    bank.is_sound();
    bank.app(ground::CONS, &[t, t])
}

/// Can one level more be made? The bank is as before.
fn has_room_above(bank: &mut Bank, t: TermId) -> bool
    requires { Stands bank.old t }
    ensures { bank.new ≡ bank.old }
{
    let mark = bank.mark();
    let made = pair_of(bank, t).is_ok();
    bank.release(mark);
    made
}

/// As many levels above a leaf as there is room for.
fn deepest(bank: &mut Bank, leaf: TermId) -> TermId {
    let mut t = leaf;
    for _ in 0..DEPTH_LIMIT + 1 {
        if !has_term(bank, t) {
            return t;
        }
        match pair_of(bank, t) {
            Ok(more) => t = more,
            Err(_) => return t,
        }
    }
    t
}

fn variable(bank: &mut Bank, s: Sym) -> Option<TermId> {
    if !has_name(bank, s) {
        return None;
    }
    bank.var(s).ok()
}

fn finds(bank: &Bank, s: Sym, t: TermId) -> Option<bool> {
    if !has_name(bank, s) || !has_term(bank, t) {
        return None;
    }
    occurs_in(bank, s, t).ok()
}

fn replaced(bank: &mut Bank, t: TermId, variable: Sym, term: TermId) -> Option<TermId> {
    if !has_name(bank, variable) || !has_term(bank, t) || !has_term(bank, term) {
        return None;
    }
    substitute(bank, t, &[Pair { variable, term }]).ok()
}

fn depth_at(bank: &Bank, t: TermId) -> Option<u32> {
    if has_term(bank, t) {
        Some(bank.depth(t))
    } else {
        None
    }
}

fn size_at(bank: &Bank, t: TermId) -> Option<u64> {
    if has_term(bank, t) {
        Some(bank.size(t))
    } else {
        None
    }
}

fn is_deeper_made(bank: &mut Bank, t: TermId) -> Option<bool> {
    if !has_term(bank, t) {
        return None;
    }
    Some(has_room_above(bank, t))
}

fn find_out(alloc: Global) -> Option<Found> {
    let mut bank = Bank::new(alloc).ok()?;
    let x = bank.name(b"X").ok()?;
    let y = bank.name(b"Y").ok()?;
    let leaf = variable(&mut bank, x)?;
    let other = variable(&mut bank, y)?;
    let t = deepest(&mut bank, leaf);
    let deeper = is_deeper_made(&mut bank, t)?;
    let r = replaced(&mut bank, t, x, other)?;
    Some(Found {
        depth: depth_at(&bank, t)?,
        size: size_at(&bank, t)?,
        deeper,
        before: finds(&bank, x, t)?,
        after: finds(&bank, x, r)?,
        replaced_depth: depth_at(&bank, r)?,
    })
}

fn main(rt: HostRuntime) -> io::Result<()> {
    match find_out(rt.alloc()) {
        None => println!(rt; "Out of memory."),
        Some(f) => {
            println!(rt; "Depth {}, size {}.", f.depth, f.size)?;
            println!(rt; "One level more is made: {}.", f.deeper)?;
            println!(rt; "X occurs: {}.", f.before)?;
            println!(rt;
                "With Y in its place: depth {}, X occurs: {}.",
                f.replaced_depth, f.after
            )
        }
    }
}
