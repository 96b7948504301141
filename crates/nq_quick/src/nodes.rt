//! How many nodes of a proposition are IF, NOT, AND, OR, IMPLIES, IFF, T or F.
ghost use Rattle.std.specs.Prelude.{◌≡◌, ◌+◌, ◌<◌, MatchOption};
ghost use Rattle.nq_bank.specs.Content.{Stands, term_at};
ghost use Rattle.nq_fragments.specs.Propositions.{proposition_of, nodes_in};

use crate::heads::{Head, head_of};
use nq_bank::{Bank, TermId};

/// How many nodes are left of so many, once those of a term are taken; None where they are too few.
pub fn nodes_left(bank: &Bank, t: TermId, left: u64) -> Option<u64>
    requires { Stands bank.now t }
    ensures { MatchOption result (left < nodes_in (proposition_of (term_at bank.now t))) (λ rest. rest + nodes_in (proposition_of (term_at bank.now t)) ≡ left) }
{
    match head_of(bank, t) {
        Head::Other => Some(left),
        Head::Truth => left.checked_sub(1),
        Head::Falsity => left.checked_sub(1),
        Head::Choice(parts) => {
            let rest = left.checked_sub(1)?;
            let rest = nodes_left(bank, parts.test, rest)?;
            let rest = nodes_left(bank, parts.first, rest)?;
            nodes_left(bank, parts.second, rest)
        }
        Head::Denial(p) => {
            let rest = left.checked_sub(1)?;
            nodes_left(bank, p, rest)
        }
        Head::Joined(_, p, q) => {
            let rest = left.checked_sub(1)?;
            let rest = nodes_left(bank, p, rest)?;
            nodes_left(bank, q, rest)
        }
    }
}
