//! What stands between two lines of a log, over shared terms.
ghost use Rattle.std.specs.Prelude.{◌≡◌, [], IfOk, IfSome};
ghost use Rattle.std.specs.Option.{option_map};
ghost use Rattle.nq_bank.specs.Content.{Stands, term_at};
ghost use Rattle.nq_history.specs.Events.{events_at};
ghost use Rattle.nq_log.specs.States.{numbered, start_of, term_at as term_of_block};
ghost use Rattle.nq_log.specs.ClosingLines.{is_plain};
ghost use Rattle.nq_check.specs.Contexts.{state_of, IsKept, IsWhole};

use crate::waiting::{CaseLine, Introduced, MeasureLine};
use nq_bank::{Bank, Part, TermId};
use nq_history::History;
use nq_kernel::Log;
use std::alloc::{AllocError, Global};

/// The events so far, and the block so far: the function that it introduces, its terms and its lines, which are named by their
/// numbers from 1, and the lines that wait for a shell, an induction or a definition.
#[derive(Drop)]
pub struct Context {
    pub bank: Bank,
    pub history: History,
    pub introduced: Option<Introduced>,
    pub terms: Vec<TermId>,
    pub log: Log,
    pub parts: Vec<Part>,
    pub cases: Vec<CaseLine>,
    pub measure: Option<MeasureLine>,
}

impl Context {
    /// The ground history, and a block without lines.
    pub fn new(alloc: Global) -> Result<Context, AllocError>
        ensures whole { IfOk result (λ c. IsWhole c) }
        ensures state { IfOk result (λ c. state_of c ≡ start_of []) }
    {
        let mut bank = Bank::new(alloc)?;
        let history = History::ground(&mut bank)?;
        Ok(Context {
            bank,
            history,
            introduced: None,
            terms: Vec::new(alloc),
            log: Log::new(alloc),
            parts: Vec::new(alloc),
            cases: Vec::new(alloc),
            measure: None,
        })
    }

    /// The term of a number.
    pub fn term(&self, number: u64) -> Option<TermId>
        requires { IsWhole self.now }
        ensures term { option_map (term_at self.now.bank) result ≡ term_of_block (state_of self.now).block number }
        ensures stands { IfSome result (λ t. Stands self.now.bank t) }
    {
        term_numbered(self.terms.as_slice(), number)
    }

    /// Does the block introduce no function, and does no line of it wait for a shell or an induction?
    pub fn is_plain(&self) -> bool
        ensures { result ≡ is_plain (state_of self.now).block }
    {
        self.introduced.is_none() && self.parts.is_empty() && self.cases.is_empty()
    }

    /// Begins a block.
    pub fn begin_block(&mut self)
        ensures whole { IsKept self.old.bank self.old.history → IsWhole self.new }
        ensures state { state_of self.new ≡ start_of (events_at self.old.bank self.old.history) }
    {
        self.introduced = None;
        self.terms.clear();
        self.log = Log::new(self.bank.alloc());
        self.parts.clear();
        self.cases.clear();
        self.measure = None;
    }
}

/// The term of a number, counted from 1.
fn term_numbered(terms: &[TermId], number: u64) -> Option<TermId>
    ensures { result ≡ numbered terms.now number }
{
    if number == 0 {
        return None;
    }
    terms.get((number - 1) as usize).copied()
}
