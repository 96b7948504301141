ghost use Rattle.std.specs.Prelude.{Some};
ghost use Rattle.nq_sample.specs.Sample.{event_line};

use std::fmt;

/// What an event of a sample says. Its numbers are below 100.
#[derive(Clone, Copy, Debug, PartialEq, Eq)]
pub enum EventKind {
    /// Defines a function without recursion, that adds to `X` a multiple of `Y`.
    Plain {
        /// By what `Y` is multiplied.
        factor: u8,
    },
    /// A lemma that is a tautology.
    Tautology,
    /// A lemma that says what two numbers add up to.
    Sum {
        /// The first number.
        left: u8,
        /// The second number.
        right: u8,
    },
    /// Defines a function by recursion on a list, that counts on from a number.
    Recursive {
        /// The function's value where the list ends.
        base: u8,
    },
}

/// One event of a sample. Its name is `S` and its number, and its text is its line.
#[derive(Clone, Copy)]
pub(crate) struct Event {
    /// The place of the event in the sample, from 1.
    pub(crate) number: u64,
    /// What it says.
    pub(crate) kind: EventKind,
}

impl fmt::Display for Event {
    ghost output = { λ e. Some (event_line e.number e.kind) };

    fn fmt<W: fmt::Write>(&self, f: &mut fmt::Formatter<W>) -> fmt::Result {
        let number = self.number;
        match self.kind {
            EventKind::Plain { factor } => {
                write!(f, "(DEFN S{number} (X Y) (PLUS X (TIMES {factor} Y)))")
            }
            EventKind::Tautology => {
                write!(
                    f,
                    "(PROVE-LEMMA S{number} NIL (IMPLIES (AND P Q) (OR Q R)))"
                )
            }
            EventKind::Sum { left, right } => {
                let sum = u16::from(left) + u16::from(right);
                write!(
                    f,
                    "(PROVE-LEMMA S{number} NIL (EQUAL (PLUS {left} {right}) {sum}))"
                )
            }
            EventKind::Recursive { base } => {
                write!(
                    f,
                    "(DEFN S{number} (X) (IF (LISTP X) (ADD1 (S{number} (CDR X))) {base}))"
                )
            }
        }
    }
}
