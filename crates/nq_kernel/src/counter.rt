//! The steps of an event, counted against its limit.
ghost use Rattle.std.specs.Prelude.{◌≡◌, ◌+◌, ◌≤◌, ◌<◌, ◌^◌, ◌↔◌, min, IsTrue};

use std::marker::Model;

/// Steps that are used, of those that may be.
#[derive(Debug, Drop)]
pub struct Counter {
    used: u64,
    limit: u64,
}

impl Model for Counter {
    ghost use Rattle.nq_kernel.specs.Counting.{Counting, counting_code};
    ghost use Rattle.std.specs.Prelude.{◌≤◌};

    ghost Value = { Counting };

    ghost coded = { counting_code };

    ghost view = { λ c. record { used = c.used; limit = c.limit } };

    ghost invariant = { λ c. c.used ≤ c.limit };
}

impl Counter {
    /// Nothing is used of so many steps.
    pub(crate) fn new(limit: u64) -> Counter
        ensures used { result.used ≡ 0 }
        ensures limit { result.limit ≡ limit }
    {
        Counter { used: 0, limit }
    }

    /// The steps that are used.
    pub fn used(&self) -> u64
        ensures value { result ≡ self.now.used }
        ensures within { result ≤ self.now.limit }
    {
        self.used
    }

    /// The steps that may be used.
    pub fn limit(&self) -> u64
        ensures { result ≡ self.now.limit }
    {
        self.limit
    }

    /// Counts so many steps; where they would pass the limit, the counter is at its limit and the answer is no.
    pub(crate) fn count(&mut self, steps: u128) -> bool
        ensures fits { IsTrue result ↔ (self.old.used + steps ≤ self.old.limit) }
        ensures used { self.new.used ≡ min (self.old.used + steps) self.old.limit }
        ensures rises { self.old.used ≤ self.new.used }
        ensures limit { self.new.limit ≡ self.old.limit }
        ensures bounded { self.new.limit < 2 ^ 64 }
    {
        let left = self.limit - self.used;
        if steps > u128::from(left) {
            self.used = self.limit;
            return false;
        }
        self.used += steps as u64;
        true
    }

    /// Uses the counter up.
    pub(crate) fn use_up(&mut self)
        ensures used { self.new.used ≡ self.old.limit }
        ensures rises { self.old.used ≤ self.new.used }
        ensures limit { self.new.limit ≡ self.old.limit }
    {
        self.used = self.limit;
    }
}
