//! Which shells are accepted.
ghost use Rattle.std.specs.Prelude.{◌≡◌, ◌↔◌, ◌||◌, ◌<◌, ℕ, Bool, List, bytes_eq, length, All, Ok};
ghost use Rattle.nq_bank.specs.Content.{IsNamed, text_at};
ghost use Rattle.nq_logic.specs.Histories.{OneOf};
ghost use Rattle.nq_bank.specs.Shells.{texts_at, text_if, restriction_of, part_at, parts_at, shell_at, shells_at, BaseStands, PartStands, ShellStands};
ghost use Rattle.nq_logic.specs.ShellPrinciple.{shell_names, kind_of_base, kind_of_default, known_recognizers, meets, kind_meets, is_default, first_used, first_repeated, first_outside, first_unknown, first_bad_default, IsShellAccepted, shell_limit, shell_refusal};
ghost use Rattle.nq_logic.specs.Names.{has_name};
ghost use Rattle.nq_shell.specs.Admission.{AreUsed, is_used, accessors, base_names, last_names, answer_at};

use crate::listed::{is_accessor, is_base_name, is_listed, is_recognizer};
use nq_bank::{Bank, Part, Shell, Sym, ground, ground_name, is_same_name};

/// How many shells there may be: the ground shells and 26 more.
const SHELL_LIMIT: usize = 30;

/// Why a shell is refused, with the name that the refusal tells.
#[derive(Clone, Copy, Debug, PartialEq, Eq)]
pub enum ShellFault {
    /// The first name of the shell that is in use.
    NameInUse(Sym),
    /// The first name of the shell that stands twice in it.
    RepeatedName(Sym),
    /// The first recognizer of a restriction that is unknown.
    UnknownRecognizer(Sym),
    /// The first default that is none, or does not meet its restriction.
    BadDefault(Sym),
    /// There is no room for one more: 26 shells stand besides the ground shells.
    TooManyShells,
}

/// The first accessor that is in use.
fn used_accessor(bank: &Bank, used: &[Sym], parts: &[Part]) -> Option<Sym>
    requires used { All (IsNamed bank.now) used.now }
    requires parts { All (PartStands bank.now) parts.now }
    ensures { text_if bank.now result ≡ first_used (is_used bank.now used.now) (accessors (parts_at bank.now parts.now)) }
{
    for part in parts {
        if is_listed(bank, part.accessor, used) {
            return Some(part.accessor);
        }
    }
    None
}

/// The base, where it is in use.
fn used_base(bank: &Bank, used: &[Sym], base: Option<Sym>) -> Option<Sym>
    requires used { All (IsNamed bank.now) used.now }
    requires base { BaseStands bank.now base }
    ensures { text_if bank.now result ≡ first_used (is_used bank.now used.now) (base_names (text_if bank.now base)) }
{
    match base {
        Some(b) => {
            if is_listed(bank, b, used) {
                Some(b)
            } else {
                None
            }
        }
        None => None,
    }
}

/// The first name of a shell that is in use.
fn used_name(bank: &Bank, used: &[Sym], shell: &Shell) -> Option<Sym>
    requires used { All (IsNamed bank.now) used.now }
    requires shell { ShellStands bank.now shell.now }
    ensures { text_if bank.now result ≡ first_used (is_used bank.now used.now) (shell_names (shell_at bank.now shell.now)) }
{
    if is_listed(bank, shell.constructor, used) {
        return Some(shell.constructor);
    }
    if let Some(b) = used_base(bank, used, shell.base) {
        return Some(b);
    }
    if is_listed(bank, shell.recognizer, used) {
        return Some(shell.recognizer);
    }
    used_accessor(bank, used, shell.parts.as_slice())
}

/// The first accessor that stands twice.
fn repeated_accessor(bank: &Bank, parts: &[Part]) -> Option<Sym>
    requires { All (PartStands bank.now) parts.now }
    ensures { text_if bank.now result ≡ first_repeated (accessors (parts_at bank.now parts.now)) }
{
    for (i, part) in parts.iter().enumerate() {
        if is_accessor(bank, part.accessor, &parts[i + 1..]) {
            return Some(part.accessor);
        }
    }
    None
}

/// Is a name the recognizer or an accessor of a shell?
fn is_last_name(bank: &Bank, name: Sym, shell: &Shell) -> bool
    requires name { IsNamed bank.now name }
    requires shell { ShellStands bank.now shell.now }
    ensures { result ≡ has_name (text_at bank.now name) (last_names (shell_at bank.now shell.now)) }
{
    is_same_name(bank, name, shell.recognizer) || is_accessor(bank, name, shell.parts.as_slice())
}

/// The first name of a shell that stands twice in it.
fn repeated_name(bank: &Bank, shell: &Shell) -> Option<Sym>
    requires { ShellStands bank.now shell.now }
    ensures { text_if bank.now result ≡ first_repeated (shell_names (shell_at bank.now shell.now)) }
{
    if is_base_name(bank, shell.constructor, shell.base)
        || is_last_name(bank, shell.constructor, shell)
    {
        return Some(shell.constructor);
    }
    if let Some(b) = shell.base {
        if is_last_name(bank, b, shell) {
            return Some(b);
        }
    }
    if is_accessor(bank, shell.recognizer, shell.parts.as_slice()) {
        return Some(shell.recognizer);
    }
    repeated_accessor(bank, shell.parts.as_slice())
}

/// May a restriction of the shell name this recognizer?
fn is_known(bank: &Bank, history: &[Shell], shell: &Shell, name: Sym) -> bool
    requires history { All (ShellStands bank.now) history.now }
    requires shell { ShellStands bank.now shell.now }
    requires name { IsNamed bank.now name }
    ensures { result ≡ has_name (text_at bank.now name) (known_recognizers (shells_at bank.now history.now) (shell_at bank.now shell.now)) }
{
    bank.is_ground(name, ground::TRUEP)
        || bank.is_ground(name, ground::FALSEP)
        || is_same_name(bank, name, shell.recognizer)
        || is_recognizer(bank, name, history)
}

/// The first of these recognizers that is unknown.
fn unknown_among(bank: &Bank, history: &[Shell], shell: &Shell, names: &[Sym]) -> Option<Sym>
    requires history { All (ShellStands bank.now) history.now }
    requires shell { ShellStands bank.now shell.now }
    requires names { All (IsNamed bank.now) names.now }
    ensures { text_if bank.now result ≡ first_outside (known_recognizers (shells_at bank.now history.now) (shell_at bank.now shell.now)) (texts_at bank.now names.now) }
{
    for name in names {
        if !is_known(bank, history, shell, *name) {
            return Some(*name);
        }
    }
    None
}

/// The first recognizer of the parts' restrictions that is unknown.
fn unknown_recognizer(bank: &Bank, history: &[Shell], shell: &Shell) -> Option<Sym>
    requires history { All (ShellStands bank.now) history.now }
    requires shell { ShellStands bank.now shell.now }
    ensures { text_if bank.now result ≡ first_unknown (known_recognizers (shells_at bank.now history.now) (shell_at bank.now shell.now)) (parts_at bank.now shell.now.parts.items) }
{
    for part in &shell.parts {
        if let Some(name) = unknown_among(bank, history, shell, part.recognizers.as_slice()) {
            return Some(name);
        }
    }
    None
}

/// The recognizer of the shell that has this base, if there is one.
fn kind_of_earlier_base(bank: &Bank, history: &[Shell], name: Sym) -> Option<Sym>
    requires history { All (ShellStands bank.now) history.now }
    requires name { IsNamed bank.now name }
    ensures kind { text_if bank.now result ≡ kind_of_base (text_at bank.now name) (shells_at bank.now history.now) }
    ensures stands { BaseStands bank.now result }
{
    for shell in history {
        if is_base_name(bank, name, shell.base) {
            return Some(shell.recognizer);
        }
    }
    None
}

/// The recognizer that holds of a default, if it is one.
fn kind_of(bank: &Bank, history: &[Shell], shell: &Shell, name: Sym) -> Option<Sym>
    requires history { All (ShellStands bank.now) history.now }
    requires shell { ShellStands bank.now shell.now }
    requires name { IsNamed bank.now name }
    ensures kind { text_if bank.now result ≡ kind_of_default (shells_at bank.now history.now) (shell_at bank.now shell.now) (text_at bank.now name) }
    ensures stands { BaseStands bank.now result }
{
    if bank.is_ground(name, ground::TRUE) {
        return Some(ground_name(bank, ground::TRUEP));
    }
    if bank.is_ground(name, ground::FALSE) {
        return Some(ground_name(bank, ground::FALSEP));
    }
    if is_base_name(bank, name, shell.base) {
        return Some(shell.recognizer);
    }
    kind_of_earlier_base(bank, history, name)
}

/// Does an object of which just this recognizer holds meet the restriction of a part?
fn does_meet(bank: &Bank, part: &Part, kind: Sym) -> bool
    requires part { PartStands bank.now part.now }
    requires kind { IsNamed bank.now kind }
    ensures { result ≡ meets (part_at bank.now part.now).restriction (text_at bank.now kind) }
{
    let is_one = is_listed(bank, kind, part.recognizers.as_slice());
    if part.one_of { is_one } else { !is_one }
}

/// Is the default of a part one, and does it meet the restriction of the part?
fn has_default(bank: &Bank, history: &[Shell], shell: &Shell, part: &Part) -> bool
    requires history { All (ShellStands bank.now) history.now }
    requires shell { ShellStands bank.now shell.now }
    requires part { PartStands bank.now part.now }
    ensures { result ≡ is_default (shells_at bank.now history.now) (shell_at bank.now shell.now) (part_at bank.now part.now) }
{
    match kind_of(bank, history, shell, part.default) {
        None => false,
        Some(kind) => does_meet(bank, part, kind),
    }
}

/// The first default that is none, or does not meet its restriction.
fn bad_default(bank: &Bank, history: &[Shell], shell: &Shell) -> Option<Sym>
    requires history { All (ShellStands bank.now) history.now }
    requires shell { ShellStands bank.now shell.now }
    ensures { text_if bank.now result ≡ first_bad_default (shells_at bank.now history.now) (shell_at bank.now shell.now) (parts_at bank.now shell.now.parts.items) }
{
    for part in &shell.parts {
        if !has_default(bank, history, shell, part) {
            return Some(part.default);
        }
    }
    None
}

/// The first fault of a shell, in the order of their kinds.
fn first_fault(
    bank: &Bank,
    history: &[Shell],
    used: &[Sym],
    shell: &Shell,
) -> Result<(), ShellFault>
    requires history { All (ShellStands bank.now) history.now }
    requires used { All (IsNamed bank.now) used.now }
    requires shell { ShellStands bank.now shell.now }
    ensures { answer_at bank.now result ≡ shell_refusal (is_used bank.now used.now) (shells_at bank.now history.now) (shell_at bank.now shell.now) }
{
    if let Some(name) = used_name(bank, used, shell) {
        return Err(ShellFault::NameInUse(name));
    }
    if let Some(name) = repeated_name(bank, shell) {
        return Err(ShellFault::RepeatedName(name));
    }
    if let Some(name) = unknown_recognizer(bank, history, shell) {
        return Err(ShellFault::UnknownRecognizer(name));
    }
    if let Some(name) = bad_default(bank, history, shell) {
        return Err(ShellFault::BadDefault(name));
    }
    if history.len() < SHELL_LIMIT {
        Ok(())
    } else {
        Err(ShellFault::TooManyShells)
    }
}

/// Tests whether the Shell Principle allows a shell after those of the history, which begins with the four ground shells,
/// and whether there is room for one more. `used` are those of the shell's names that are in use. It takes no memory.
///
/// The first fault is told: by kind in the order of `ShellFault`, and within a kind the first name, where the names of a
/// shell come in the order constructor, base, recognizer, accessors.
pub fn admit_shell(
    bank: &Bank,
    history: &[Shell],
    used: &[Sym],
    shell: &Shell,
) -> Result<(), ShellFault>
    requires history { All (ShellStands bank.now) history.now }
    requires used { All (IsNamed bank.now) used.now }
    requires shell { ShellStands bank.now shell.now }
    ensures ok { (in_use : List ℕ → Bool) → AreUsed bank.now used.now in_use (shell_at bank.now shell.now) → (result ≡ Ok tt) ↔ (IsShellAccepted in_use (shells_at bank.now history.now) (shell_at bank.now shell.now) × (length history.now < shell_limit)) }
    ensures refusal { (in_use : List ℕ → Bool) → AreUsed bank.now used.now in_use (shell_at bank.now shell.now) → answer_at bank.now result ≡ shell_refusal in_use (shells_at bank.now history.now) (shell_at bank.now shell.now) }
{
    first_fault(bank, history, used, shell)
}
