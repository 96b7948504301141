//! Which names are constructors, recognizers and accessors.
ghost use Rattle.std.specs.Prelude.{◌≡◌, map, All};
ghost use Rattle.nq_logic.specs.Names.{has_name};
ghost use Rattle.nq_logic.specs.ShellPrinciple.{recognizers};
ghost use Rattle.nq_bank.specs.Content.{IsNamed, text_at};
ghost use Rattle.nq_bank.specs.Shells.{parts_at, shells_at, PartStands, ShellStands};
ghost use Rattle.nq_goals.specs.Functions.{accessors, constructors};

use nq_bank::{Bank, Part, Shell, Sym, is_same_name};

/// Is it the accessor of one of these parts?
pub fn is_part(bank: &Bank, parts: &[Part], f: Sym) -> bool
    requires parts { All (PartStands bank.now) parts.now }
    requires name { IsNamed bank.now f }
    ensures { result ≡ has_name (text_at bank.now f) (map (λ part. part.accessor) (parts_at bank.now parts.now)) }
{
    match parts {
        [] => false,
        [first, rest @ ..] => {
            if is_same_name(bank, f, first.accessor) {
                true
            } else {
                is_part(bank, rest, f)
            }
        }
    }
}

/// Is it an accessor of one of these shells?
pub fn is_accessor(bank: &Bank, shells: &[Shell], f: Sym) -> bool
    requires shells { All (ShellStands bank.now) shells.now }
    requires name { IsNamed bank.now f }
    ensures { result ≡ has_name (text_at bank.now f) (accessors (shells_at bank.now shells.now)) }
{
    match shells {
        [] => false,
        [first, rest @ ..] => {
            if is_part(bank, first.parts.as_slice(), f) {
                true
            } else {
                is_accessor(bank, rest, f)
            }
        }
    }
}

/// Is it the recognizer of one of these shells?
pub fn is_recognizer(bank: &Bank, shells: &[Shell], f: Sym) -> bool
    requires shells { All (ShellStands bank.now) shells.now }
    requires name { IsNamed bank.now f }
    ensures { result ≡ has_name (text_at bank.now f) (recognizers (shells_at bank.now shells.now)) }
{
    match shells {
        [] => false,
        [first, rest @ ..] => {
            if is_same_name(bank, f, first.recognizer) {
                true
            } else {
                is_recognizer(bank, rest, f)
            }
        }
    }
}

/// Is it the constructor of one of these shells?
pub fn is_constructor(bank: &Bank, shells: &[Shell], f: Sym) -> bool
    requires shells { All (ShellStands bank.now) shells.now }
    requires name { IsNamed bank.now f }
    ensures { result ≡ has_name (text_at bank.now f) (constructors (shells_at bank.now shells.now)) }
{
    match shells {
        [] => false,
        [first, rest @ ..] => {
            if is_same_name(bank, f, first.constructor) {
                true
            } else {
                is_constructor(bank, rest, f)
            }
        }
    }
}
