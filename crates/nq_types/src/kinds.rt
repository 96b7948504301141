//! Terms whose kind stands in them.
ghost use Rattle.std.specs.Prelude.{◌≡◌, All};
ghost use Rattle.nq_logic.specs.Histories.{History as Events};
ghost use Rattle.nq_logic.specs.Words.{numeral};
ghost use Rattle.nq_logic.specs.ShellPrinciple.{is_base as is_base_of, shells_of};
ghost use Rattle.nq_bank.specs.Content.{IsNamed, Stands, text_at, term_at};
ghost use Rattle.nq_bank.specs.Shells.{BaseStands, ShellStands, shells_at, text_if, shell_at};
ghost use Rattle.nq_history.specs.Events.{HistoryStands, events_at};
ghost use Rattle.nq_types.specs.Kinds.{HasKind, ValuesHaveKinds};
ghost use Rattle.nq_types.specs.Finding.{first_from, has_base, kind_made, kind_of_call, kind_of_none, makes};

use nq_bank::{Bank, Node, Shell, Sym, TermId, ground, is_same_name};
use nq_history::History;

/// What a term shows of its kind: T, F, the base of the shell at a place, a call of its constructor, or another term.
#[derive(Clone, Copy, Debug, PartialEq, Eq)]
pub enum Kind {
    /// T.
    Truth,
    /// F.
    Falsity,
    /// The base of the shell at this place.
    Base(usize),
    /// A call of the constructor of the shell at this place.
    Made(usize),
    /// Another term.
    Other,
}

/// Is a name the base, where there is one?
fn is_base(bank: &Bank, f: Sym, base: Option<Sym>) -> bool
    requires name { IsNamed bank.now f }
    requires base { BaseStands bank.now base }
    ensures { result ≡ is_base_of (text_at bank.now f) (text_if bank.now base) }
{
    match base {
        Some(b) => is_same_name(bank, f, b),
        None => false,
    }
}

/// Is a name the constructor of a shell, with so many parts?
fn is_maker(bank: &Bank, f: Sym, count: u64, shell: &Shell) -> bool
    requires name { IsNamed bank.now f }
    requires shell { ShellStands bank.now shell.now }
    ensures { result ≡ makes (text_at bank.now f) count (shell_at bank.now shell.now) }
{
    is_same_name(bank, f, shell.constructor) && shell.parts.len() as u64 == count
}

/// The place of the first shell with this constructor, with so many parts.
fn made_place(bank: &Bank, shells: &[Shell], f: Sym, count: u64) -> Option<usize>
    requires name { IsNamed bank.now f }
    requires shells { All (ShellStands bank.now) shells.now }
    ensures { result ≡ first_from (makes (text_at bank.now f) count) 0 (shells_at bank.now shells.now) }
{
    let mut place = 0;
    for shell in shells {
        if is_maker(bank, f, count, shell) {
            return Some(place);
        }
        place += 1;
    }
    None
}

/// The place of the first shell with this base.
fn base_place(bank: &Bank, shells: &[Shell], f: Sym) -> Option<usize>
    requires name { IsNamed bank.now f }
    requires shells { All (ShellStands bank.now) shells.now }
    ensures { result ≡ first_from (has_base (text_at bank.now f)) 0 (shells_at bank.now shells.now) }
{
    let mut place = 0;
    for shell in shells {
        if is_base(bank, f, shell.base) {
            return Some(place);
        }
        place += 1;
    }
    None
}

/// The kind of a call of a constructor on so many arguments.
fn made_kind(bank: &Bank, history: &History, f: Sym, count: u64) -> Kind
    requires history { HistoryStands bank.now history.now }
    requires name { IsNamed bank.now f }
    ensures { result ≡ kind_made (first_from (makes (text_at bank.now f) count) 0 (shells_of (events_at bank.now history.now))) }
{
    let _ = bank.alloc();
    match made_place(bank, history.shells(), f, count) {
        Some(place) => Kind::Made(place),
        None => Kind::Other,
    }
}

/// The kind of a constant.
fn constant_kind(bank: &Bank, history: &History, f: Sym) -> Kind
    requires history { HistoryStands bank.now history.now }
    requires name { IsNamed bank.now f }
    ensures { result ≡ kind_of_none (text_at bank.now f) (shells_of (events_at bank.now history.now)) }
{
    if bank.is_ground(f, ground::TRUE) {
        return Kind::Truth;
    }
    if bank.is_ground(f, ground::FALSE) {
        return Kind::Falsity;
    }
    match base_place(bank, history.shells(), f) {
        Some(place) => Kind::Base(place),
        None => made_kind(bank, history, f, 0),
    }
}

/// The kind of a call.
fn call_kind(bank: &Bank, history: &History, f: Sym, count: u64) -> Kind
    requires history { HistoryStands bank.now history.now }
    requires name { IsNamed bank.now f }
    ensures { result ≡ kind_of_call (text_at bank.now f) count (shells_of (events_at bank.now history.now)) }
{
    if count == 0 {
        constant_kind(bank, history, f)
    } else {
        made_kind(bank, history, f, count)
    }
}

/// The kind of a number: zero is the base of the first shell, and its constructor makes the others.
fn number_kind(n: u128) -> Kind
    ensures { (h : Events) → HasKind h (numeral n) result }
{
    if n == 0 { Kind::Base(0) } else { Kind::Made(0) }
}

/// What a term shows of its kind.
pub fn kind_of(bank: &Bank, history: &History, t: TermId) -> Kind
    requires history { HistoryStands bank.now history.now }
    requires term { Stands bank.now t }
    ensures { HasKind (events_at bank.now history.now) (term_at bank.now t) result }
{
    match bank.node(t) {
        Node::App(f, count) => call_kind(bank, history, f, count),
        Node::Num(n) => number_kind(n),
        Node::Var(_) => Kind::Other,
    }
}

/// Each value is T, F, a base or a call of a constructor.
pub fn values_have_kinds()
    ensures { ValuesHaveKinds }
{}
