//! What is found for a term, and what is kept of it.
ghost use Rattle.std.specs.Prelude.{◌≡◌, ◌≤◌, nat_eq, true, Some, OnOk};
ghost use Rattle.std.specs.HashMap.{get, Updates};
ghost use Rattle.nq_bank.specs.Content.{Stands, term_at};
ghost use Rattle.nq_kernel.specs.Growing.{WorkStands};
ghost use Rattle.nq_fragments.specs.Outcomes.{is_small};
ghost use Rattle.nq_eval.specs.Lines.{IsUsable};
ghost use Rattle.nq_eval.specs.Known.{IsKnown, IsFoundFor};

use nq_bank::{Bank, TermId};
use nq_history::History;
use nq_kernel::Work;
use std::alloc::AllocError;
use std::collections::HashMap;

/// The greatest depth of a value.
pub const VALUE_DEPTH: u32 = 1900;

/// The value of a term.
#[derive(Clone, Copy)]
pub struct Known {
    /// The value.
    pub value: TermId,
    /// How many calls it takes.
    pub calls: u32,
    /// How far their openings nest.
    pub nesting: u32,
    /// The line of the equation of the term and its value, where the term isn't its own value.
    pub line: u64,
}

/// What evaluation finds.
#[derive(Clone, Copy)]
pub enum Found {
    /// The value.
    Value(Known),
    /// The call that has no value.
    Blocked(TermId),
    /// Calls or nesting ran out.
    Fuel,
}

/// Is a term a value that is not too deep?
pub fn is_small_value(bank: &Bank, t: TermId) -> bool
    requires { Stands bank.now t }
    ensures { result ≡ is_small (term_at bank.now t) }
{
    bank.is_value(t) && bank.depth(t) <= VALUE_DEPTH
}

/// A value that is not too deep, as its own value.
pub fn own_value(work: &Work, history: &History, t: TermId, nesting: u32, calls: u32) -> Found
    requires term { IsUsable work.now.bank history.now t }
    requires small { is_small (term_at work.now.bank t) ≡ true }
    ensures { IsFoundFor history.now work.now t nesting calls result }
{
    Found::Value(Known {
        value: t,
        calls: 0,
        nesting: 0,
        line: 0,
    })
}

/// What is found for a term of which the value is known, where openings may nest so far and so many calls are left.
pub fn found_known(
    work: &Work,
    history: &History,
    t: TermId,
    known: Known,
    nesting: u32,
    calls: u32,
) -> Found
    requires { IsKnown history.now work.now t known }
    ensures { IsFoundFor history.now work.now t nesting calls result }
{
    if known.calls <= calls && known.nesting <= nesting {
        Found::Value(known)
    } else {
        Found::Fuel
    }
}

/// What is kept for a term.
pub fn known_for(memo: &HashMap<u64, Known>, t: TermId) -> Option<Known>
    ensures { result ≡ get nat_eq memo.now t.0 }
{
    memo.get(&t.0).copied()
}

/// Keeps what is known of a term.
pub fn keep(memo: &mut HashMap<u64, Known>, t: TermId, known: Known) -> Result<(), AllocError>
    ensures { OnOk result (Updates nat_eq memo.old memo.new t.0 (Some known)) }
{
    memo.insert(t.0, known)?;
    Ok(())
}
