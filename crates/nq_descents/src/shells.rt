//! The shells of a history, and which part of their objects a function takes. It decides only which rows are tried.
ghost use Rattle.std.specs.Prelude.{IfSome};
ghost use Rattle.nq_bank.specs.Content.{IsNamed};
ghost use Rattle.nq_kernel.specs.Growing.{WorkStands};

use nq_bank::{Part, Sym};
use nq_history::History;
use nq_kernel::Work;

/// A part of a shell's objects.
#[derive(Clone, Copy)]
pub struct PartPlace {
    /// The place of the shell.
    pub shell: usize,
    /// The number of the part, counted from 1.
    pub part: u64,
    /// The place of the shell whose base stands for a part that may not be there, if the part is restricted and there is one.
    pub default: Option<usize>,
}

/// The constructor of the shell at a place.
pub fn constructor_at(work: &Work, history: &History, place: usize) -> Option<Sym>
    requires { WorkStands history.now work.now }
    ensures { IfSome result (IsNamed work.now.bank) }
{
    let shells = history.shells();
    let _ = work.bank.alloc();
    if place < shells.len() {
        Some(shells[place].constructor)
    } else {
        None
    }
}

/// Is a name this one?
fn is_base(base: Option<Sym>, f: Sym) -> bool {
    match base {
        Some(b) => b.0 == f.0,
        None => false,
    }
}

/// The place of the shell that has this base.
fn shell_of_base(history: &History, f: Sym) -> Option<usize> {
    let shells = history.shells();
    for place in 0..shells.len() {
        if is_base(shells[place].base, f) {
            return Some(place);
        }
    }
    None
}

/// The place of the shell that has this recognizer.
pub fn shell_of_recognizer(history: &History, f: Sym) -> Option<usize> {
    let shells = history.shells();
    for place in 0..shells.len() {
        if shells[place].recognizer.0 == f.0 {
            return Some(place);
        }
    }
    None
}

/// The place of the shell whose base stands for a part, where the part is restricted.
fn default_of(history: &History, part: &Part) -> Option<usize> {
    if !part.one_of && part.recognizers.is_empty() {
        return None;
    }
    shell_of_base(history, part.default)
}

/// The part of the shell at a place that a function takes.
fn part_of(history: &History, shell: usize, parts: &[Part], f: Sym) -> Option<PartPlace> {
    let mut number = 1u64;
    for part in parts {
        if part.accessor.0 == f.0 {
            return Some(PartPlace {
                shell,
                part: number,
                default: default_of(history, part),
            });
        }
        number = number.saturating_add(1);
    }
    None
}

/// The part that a function takes.
pub fn part_place(history: &History, f: Sym) -> Option<PartPlace> {
    let shells = history.shells();
    for place in 0..shells.len() {
        let found = part_of(history, place, shells[place].parts.as_slice(), f);
        if found.is_some() {
            return found;
        }
    }
    None
}
