//! Whether a name is among others.
ghost use Rattle.std.specs.Prelude.{◌≡◌, ◌<◌, bytes_eq, All};
ghost use Rattle.nq_bank.specs.GroundNames.{ground_count};
ghost use Rattle.nq_bank.specs.Soundness.{ground_text};
ghost use Rattle.nq_bank.specs.Content.{IsNamed, text_at};
ghost use Rattle.nq_bank.specs.Shells.{texts_at, text_if, parts_at, shells_at, BaseStands, PartStands, ShellStands};
ghost use Rattle.nq_logic.specs.ShellPrinciple.{is_base, recognizers};
ghost use Rattle.nq_logic.specs.Names.{has_name};
ghost use Rattle.nq_shell.specs.Admission.{accessors};

use nq_bank::{Bank, Part, Shell, Sym, is_same_name};

/// Is a name among others?
pub fn is_listed(bank: &Bank, name: Sym, names: &[Sym]) -> bool
    requires name { IsNamed bank.now name }
    requires names { All (IsNamed bank.now) names.now }
    ensures { result ≡ has_name (text_at bank.now name) (texts_at bank.now names.now) }
{
    for other in names {
        if is_same_name(bank, name, *other) {
            return true;
        }
    }
    false
}

/// Is a name an accessor of one of the parts?
pub fn is_accessor(bank: &Bank, name: Sym, parts: &[Part]) -> bool
    requires name { IsNamed bank.now name }
    requires parts { All (PartStands bank.now) parts.now }
    ensures { result ≡ has_name (text_at bank.now name) (accessors (parts_at bank.now parts.now)) }
{
    for part in parts {
        if is_same_name(bank, name, part.accessor) {
            return true;
        }
    }
    false
}

/// Is a name the recognizer of one of the shells?
pub fn is_recognizer(bank: &Bank, name: Sym, shells: &[Shell]) -> bool
    requires name { IsNamed bank.now name }
    requires shells { All (ShellStands bank.now) shells.now }
    ensures { result ≡ has_name (text_at bank.now name) (recognizers (shells_at bank.now shells.now)) }
{
    for shell in shells {
        if is_same_name(bank, name, shell.recognizer) {
            return true;
        }
    }
    false
}

/// Is a name the base, where there is one?
pub fn is_base_name(bank: &Bank, name: Sym, base: Option<Sym>) -> bool
    requires name { IsNamed bank.now name }
    requires base { BaseStands bank.now base }
    ensures { result ≡ is_base (text_at bank.now name) (text_if bank.now base) }
{
    match base {
        None => false,
        Some(b) => is_same_name(bank, name, b),
    }
}
