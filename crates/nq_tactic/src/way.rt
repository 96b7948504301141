//! The ways that lead a goal on.
ghost use Rattle.std.specs.Prelude.{◌≡◌};
ghost use Rattle.nq_tactic.specs.Ways.{nexts_of};

use nq_bank::TermId;
use nq_elim::Elimination;
use nq_induct::Scheme;
use nq_moves::Moved;
use nq_simplify::Simplified;

/// An induction on a goal.
#[derive(Drop)]
pub struct Induction {
    /// The scheme.
    pub scheme: Scheme,
    /// The goals: the base case, and then each case of the scheme.
    pub nexts: Vec<Vec<TermId>>,
}

/// A way that leads a goal on, with what serves to go back.
#[derive(Drop)]
pub enum Way {
    /// The goal is simplified.
    Simplified(Simplified),
    /// A move leads on.
    Moved(Moved),
    /// Destructors are replaced by new variables.
    Eliminated(Elimination),
    /// An induction leads on.
    Inducted(Induction),
    /// A line has only the goal's literals: no goal is left.
    Refuted(u64),
}

/// The goals to which a way leads.
pub fn nexts_of(way: &Way) -> &[Vec<TermId>]
    ensures { result.now ≡ nexts_of way.now }
{
    match way {
        Way::Simplified(simplified) => simplified.nexts.as_slice(),
        Way::Moved(moved) => moved.children.as_slice(),
        Way::Eliminated(elimination) => elimination.nexts.as_slice(),
        Way::Inducted(induction) => induction.nexts.as_slice(),
        Way::Refuted(_) => &[],
    }
}
