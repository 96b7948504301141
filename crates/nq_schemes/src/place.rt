//! A body, and an instance of it, walked side by side.
ghost use Rattle.std.specs.Prelude.{IfSome};
ghost use Rattle.nq_schemes.specs.Places.{PlaceStands, IsPartOf};

use crate::parted::Place;
use nq_bank::{Bank, Node, TermId, ground};

/// The part at a place of the arguments, counted from 0.
pub fn part_at(bank: &Bank, place: Place, i: usize) -> Option<Place>
    requires { PlaceStands bank.now place }
    ensures { IfSome result (IsPartOf bank.now place) }
{
    let bodies = bank.args(place.body);
    let heres = bank.args(place.here);
    if i < bodies.len() && i < heres.len() {
        Some(Place {
            body: bodies[i],
            here: heres[i],
        })
    } else {
        None
    }
}

/// Is the body an IF here?
pub fn is_condition(bank: &Bank, place: Place) -> bool
    requires { PlaceStands bank.now place }
{
    match bank.node(place.body) {
        Node::App(f, _) => f.0 == ground::IF.0,
        Node::Num(_) => false,
        Node::Var(_) => false,
    }
}
