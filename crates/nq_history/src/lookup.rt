//! Whether a name is enabled after entries.
ghost use Rattle.std.specs.Prelude.{◌≡◌, true};
ghost use Rattle.nq_history.specs.Lookups.{enabled_in, kind_enabled};

use crate::entry::{Entry, EntryKind};
use nq_bank::Sym;

/// Is the name enabled after an event, where it was so before it or not?
fn is_enabled_after(kind: &EntryKind, name: Sym, before: bool) -> bool
    ensures { result ≡ kind_enabled name before kind.now }
{
    match kind {
        EntryKind::Shell(_) => before,
        EntryKind::Dcl(_) => before,
        EntryKind::Defn(_, _, _) => before,
        EntryKind::Axiom(_, _) => before,
        EntryKind::Lemma(_, _) => before,
        EntryKind::Toggle(old, disabled) => { if name.0 == old.0 { !*disabled } else { before } }
    }
}

/// Is the name enabled after these entries?
pub fn is_enabled_among(entries: &[Entry], name: Sym) -> bool
    ensures { result ≡ enabled_in name true entries.now }
{
    let mut enabled = true;
    for e in entries {
        enabled = is_enabled_after(&e.kind, name, enabled);
    }
    enabled
}
