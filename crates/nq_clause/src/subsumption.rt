//! Whether one substitution takes each of some terms to one of others.
ghost use Rattle.std.specs.Prelude.{◌≡◌, ◌↔◌, IsTrue, [], length, All, MatchBool};
ghost use Rattle.std.specs.Vec.{vec_capacity};
ghost use Rattle.nq_bank.specs.Content.{Stands, terms_at};
ghost use Rattle.nq_clause.specs.Binding.{bindings_at, BindingStands, BindsOnce};
ghost use Rattle.nq_clause.specs.Subsumption.{Subsumes, SubsumesFrom, HasRoom, HasRoomWith};

use crate::binding::Binding;
use crate::room::match_or_restore;
use nq_bank::{Bank, TermId};

/// Does one substitution take each literal of c to a literal of d? It takes no memory: `buf` is empty, and has room for as
/// many bindings as c has variables. It is empty again afterwards, and has the room that it had. The literals are tried in
/// order, each with each literal of d.
pub fn subsumes(bank: &Bank, c: &[TermId], d: &[TermId], buf: &mut Vec<Binding>) -> bool
    requires from { All (Stands bank.now) c.now }
    requires onto { All (Stands bank.now) d.now }
    requires empty { buf.old.items ≡ [] }
    requires room { HasRoom (vec_capacity buf.old) (terms_at bank.now c.now) }
    ensures ok { IsTrue result ↔ Subsumes (terms_at bank.now c.now) (terms_at bank.now d.now) }
    ensures empty { buf.new.items ≡ [] }
    ensures room { vec_capacity buf.new ≡ vec_capacity buf.old }
{
    let found = subsumes_within(bank, c, d, buf);
    buf.clear();
    found
}

/// The same, where some variables are bound. Where it is false, the bindings are as they were.
fn subsumes_within(bank: &Bank, c: &[TermId], d: &[TermId], bindings: &mut Vec<Binding>) -> bool
    requires from { All (Stands bank.now) c.now }
    requires onto { All (Stands bank.now) d.now }
    requires stand { All (BindingStands bank.now) bindings.old.items }
    requires once { BindsOnce (bindings_at bank.now bindings.old.items) }
    requires room { HasRoomWith (vec_capacity bindings.old) (bindings_at bank.now bindings.old.items) (terms_at bank.now c.now) }
    ensures ok { IsTrue result ↔ SubsumesFrom (bindings_at bank.now bindings.old.items) (terms_at bank.now c.now) (terms_at bank.now d.now) }
    ensures kept { MatchBool result (Unit {0}) (bindings.new.items ≡ bindings.old.items) }
    ensures room { vec_capacity bindings.new ≡ vec_capacity bindings.old }
{
    match c {
        [] => true,
        [first, rest @ ..] => {
            let count = bindings.len();
            for t in d {
                if !match_or_restore(bank, *first, *t, bindings) {
                    continue;
                }
                if subsumes_within(bank, rest, d, bindings) {
                    return true;
                }
                bindings.truncate(count);
            }
            false
        }
    }
}
