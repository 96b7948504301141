//! The record of a node: a few words, and what lies with it elsewhere.
ghost use Rattle.std.specs.Prelude.{◌≡◌, ◌+◌, ◌*◌, ◌^◌, IfOk};
ghost use Rattle.nq_bank.specs.Entries.{record_of, node_of, arguments_of, number_in, halves};

use crate::node::{Kept, Node, Sym, TermId};
use std::alloc::AllocError;

/// The greatest number of 32 bits.
const MOST: u64 = 0xFFFF_FFFF;

/// The greatest depth that a record holds.
const MOST_DEPTH: u32 = 0xFFFF;

/// What stands at the head of a node.
#[repr(u8)]
#[derive(Clone, Copy)]
pub enum Kind {
    /// A variable.
    Variable,
    /// A numeral.
    Numeral,
    /// A call.
    Call,
}

/// A node where it lies: its name, where the words that lie with it end, the halves of its size, its depth, and whether it
/// is a value. Its words begin where those of the node before end: they are its arguments, or the two halves of a numeral.
#[derive(Clone, Copy)]
pub struct Record {
    pub name: u32,
    pub end: u32,
    pub low: u32,
    pub high: u32,
    pub depth: u16,
    pub kind: Kind,
    pub value: bool,
}

const _: () = prove!(size_of::<Record>() == 20);

/// The record of a node whose words end at a place, or none where a name or a place has more than 32 bits.
pub fn record_of(kind: Kind, name: u64, end: usize, kept: Kept) -> Result<Record, AllocError>
    ensures { IfOk result (λ r. r ≡ record_of kind name end kept) }
{
    if name > MOST || end as u64 > MOST || kept.depth > MOST_DEPTH {
        return Err(AllocError);
    }
    Ok(Record {
        name: name as u32,
        end: end as u32,
        low: (kept.size % (1 << 32)) as u32,
        high: (kept.size >> 32) as u32,
        depth: kept.depth as u16,
        kind,
        value: kept.value,
    })
}

/// The size that a record keeps.
pub fn size_of_record(laid: Record) -> u64
    ensures { result ≡ laid.low + laid.high * 2 ^ 32 }
{
    u64::from(laid.low) + u64::from(laid.high) * (1 << 32)
}

/// The two halves of a numeral, the low one first.
pub fn halves(n: u128) -> [TermId; 2]
    ensures { result ≡ halves n }
{
    [TermId((n % (1 << 64)) as u64), TermId((n >> 64) as u64)]
}

/// The number whose halves these words are.
fn number_in(words: &[TermId]) -> u128
    ensures { result ≡ number_in words.now }
{
    match words {
        [low, high] => u128::from(low.0) + u128::from(high.0) * (1 << 64),
        _ => 0,
    }
}

/// The head of a node, by the words that lie with it.
pub fn node_of(laid: Record, words: &[TermId]) -> Node
    ensures { result ≡ node_of laid.kind laid.name words.now }
{
    match laid.kind {
        Kind::Variable => Node::Var(Sym(u64::from(laid.name))),
        Kind::Numeral => Node::Num(number_in(words)),
        Kind::Call => Node::App(Sym(u64::from(laid.name)), words.len() as u64),
    }
}

/// The arguments of a node, by the words that lie with it.
pub fn arguments_of(kind: Kind, words: &[TermId]) -> &[TermId]
    ensures { result.now ≡ arguments_of kind words.now }
{
    match kind {
        Kind::Variable => words,
        Kind::Numeral => &words[..0],
        Kind::Call => words,
    }
}
