ghost use Rattle.std.specs.Prelude.{◌≡◌, ◌<◌, ◌%◌, ℕ};
ghost use Rattle.nq_sample.specs.Sample.{draw, kind_from, start};

use crate::event::EventKind;
use std::marker::Model;

// What is drawn is below this.
const MODULUS: u64 = 65537;

/// The generator of a sample's numbers. Each draw follows from the one before it.
#[derive(Drop)]
pub(crate) struct Draws {
    x: u64,
}

impl Model for Draws {
    ghost Value = { ℕ };

    ghost view = { λ draws. draws.x };

    ghost invariant = { λ draws. draws.x < 65537 };
}

impl Draws {
    pub(crate) fn new(seed: u64) -> Self
        ensures { result ≡ start seed }
    {
        Draws { x: seed % MODULUS }
    }

    fn draw(&mut self) -> u64
        ensures given { result ≡ draw self.old }
        ensures kept { self.new ≡ draw self.old }
    {
        self.x = (75 * self.x + 74) % MODULUS;
        self.x
    }

    fn draw_below_hundred(&mut self) -> u8
        ensures given { result ≡ draw self.old % 100 }
        ensures kept { self.new ≡ draw self.old }
    {
        (self.draw() % 100) as u8
    }

    /// What the next event says, by three draws: of its kind and of two numbers.
    pub(crate) fn draw_kind(&mut self) -> EventKind
        ensures given { result ≡ kind_from self.old }
        ensures kept { self.new ≡ draw (draw (draw self.old)) }
    {
        let kind = self.draw() % 4;
        let first = self.draw_below_hundred();
        let second = self.draw_below_hundred();
        match kind {
            0 => EventKind::Plain { factor: first },
            1 => EventKind::Tautology,
            2 => EventKind::Sum {
                left: first,
                right: second,
            },
            _ => EventKind::Recursive { base: first },
        }
    }
}
