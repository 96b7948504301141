//! Which names are enabled.
ghost use Rattle.std.specs.Prelude.{◌≡◌, true};
ghost use Rattle.nq_rule_table.specs.Enabled as enabled;
ghost use Rattle.nq_rule_table.specs.Enabled.{enabled_by, enabled_past};

use crate::rule::Toggled;
use nq_bank::Sym;

/// Is the name one of these?
pub fn is_among(name: Sym, names: &[Sym]) -> bool
    ensures { result ≡ enabled.is_among name names.now }
{
    match names {
        [] => false,
        [first, rest @ ..] => {
            if name.0 == first.0 {
                true
            } else {
                is_among(name, rest)
            }
        }
    }
}

/// Is a name enabled after an event that disabled or enabled one, where it was so before it or not?
fn is_enabled_past(t: Toggled, name: Sym, before: bool) -> bool
    ensures { result ≡ enabled_past name before t }
{
    if name.0 == t.name.0 {
        !t.disabled
    } else {
        before
    }
}

/// Is a name enabled after these events, each of which disabled or enabled one?
pub fn is_enabled_by(toggles: &[Toggled], name: Sym) -> bool
    ensures { result ≡ enabled_by name true toggles.now }
{
    let mut enabled = true;
    for t in toggles {
        enabled = is_enabled_past(*t, name, enabled);
    }
    enabled
}
