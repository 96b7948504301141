//! What a rewriting learns as it goes on. It decides only what is tried.
ghost use Rattle.std.specs.Prelude.{◌≡◌, Err};
ghost use Rattle.nq_bank.specs.Content.{Stands};

use crate::learnt::Learnt;
use nq_bank::{Bank, TermId};
use nq_kernel::Stop;
use std::alloc::Global;
use std::collections::HashMap;

/// The factor that mixes the bits of a mark.
const FACTOR: u64 = 0x9E37_79B9_7F4A_7C15;

/// A number for each kind of mark. They lie far apart, so that marks of two kinds are not one, whatever small numbers stand in them.
const TERM: u64 = 0x6A09_E667_F3BC_C908;

/// The number of the marks of what is assumed.
pub const ASSUMED: u64 = 0x3C6E_F372_FE94_F82B;

/// The number of the marks of what is within a hypothesis that is being relieved.
pub const RELIEVED: u64 = 0xA54F_F53A_5F1D_36F1;
/// The number of the marks of what is within the body of a function.
pub const BODY: u64 = 0x510E_527F_ADE6_82D1;

/// The number of the marks of what is asked of calls.
pub const QUESTION: u64 = 0x9B05_688C_2B3E_6C1F;

/// The number of the marks of what arithmetic was asked about.
pub const NUMBERS: u64 = 0x1F83_D9AB_FB41_BD6B;

/// A mark with one more number in it.
pub fn mixed(mark: u64, more: u64) -> u64 {
    let product = (mark ^ more).wrapping_mul(FACTOR);
    product ^ (product >> 29)
}

/// What a rewriting has learnt.
#[derive(Drop)]
pub struct Search {
    /// Whether the innermost opening is given up.
    pub given_up: bool,
    /// How often arithmetic was asked about a test.
    pub asked: u32,
    /// Whether something was not tried for what it stands within, since the term at hand was entered.
    bound: bool,
    /// The marks of terms that nothing rewrites, with what is assumed and with what they stand within.
    settled: HashMap<u64, bool>,
    /// What serves later rewritings too.
    pub learnt: Learnt,
}

impl Search {
    /// Nothing is learnt yet.
    pub fn new(alloc: Global) -> Search {
        Search {
            given_up: false,
            asked: 0,
            bound: false,
            settled: HashMap::new(alloc),
            learnt: Learnt::new(alloc),
        }
    }

    /// The mark of a term where these are assumed. Only the assumptions count that share a variable with it: the others have no part
    /// in its rewriting, and in which order they stand has none either.
    pub fn mark_of(&mut self, bank: &Bank, assumed: &[TermId], t: TermId) -> u64
        requires { Stands bank.now t }
    {
        let variables = self.learnt.variables_of(bank, t);
        let mut sum: u64 = 0;
        for a in assumed {
            if a.0 < bank.len() && self.learnt.variables_of(bank, *a) & variables != 0 {
                sum = sum.wrapping_add(mixed(ASSUMED, a.0));
            }
        }
        mixed(mixed(TERM, t.0), sum)
    }

    /// Is what has this mark settled?
    pub fn is_settled(&self, mark: u64) -> bool {
        self.settled.get(&mark).is_some()
    }

    /// What has this mark is settled.
    pub fn settle(&mut self, mark: u64) -> Result<(), Stop>
        ensures out { result ≡ Err Stop.OutOfSteps → ⊥ }
    {
        match self.settled.insert(mark, true) {
            Ok(_) => Ok(()),
            Err(_) => Err(Stop::Memory),
        }
    }

    /// Enters a term. What comes back is for `leave`.
    pub fn enter(&mut self) -> bool {
        let outer = self.bound;
        self.bound = false;
        outer
    }

    /// Leaves a term that was entered.
    pub fn leave(&mut self, outer: bool) {
        self.bound = self.bound || outer;
    }

    /// Something was not tried for what the term at hand stands within.
    pub fn bind(&mut self) {
        self.bound = true;
    }

    /// May what is learnt of the term at hand be used wherever it stands?
    pub fn is_free(&self) -> bool {
        !self.bound
    }

    /// Arithmetic is asked once more.
    pub fn ask(&mut self) {
        self.asked = self.asked.saturating_add(1);
    }

    /// Gives the innermost opening up.
    pub fn give_up(&mut self) {
        self.given_up = true;
    }

    /// Goes on after an opening.
    pub fn go_on(&mut self) {
        self.given_up = false;
    }
}
