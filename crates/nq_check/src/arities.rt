//! How many arguments functions take.
ghost use Rattle.std.specs.Prelude.{◌≡◌, ◌∷◌, [], All, true};
ghost use Rattle.nq_logic.specs.Ground.{ground_symbols, symbols_of};
ghost use Rattle.nq_logic.specs.Histories.{accessor_symbols, base_symbols, event_symbols, events_symbols, shell_symbols};
ghost use Rattle.nq_proof.specs.Logs.{has_symbol};
ghost use Rattle.nq_bank.specs.Content.{IsNamed, text_at};
ghost use Rattle.nq_bank.specs.Shells.{parts_at, shell_at, text_if, BaseStands, PartStands, ShellStands};
ghost use Rattle.nq_check.specs.Functions.{are_ground, symbols_in};
ghost use Rattle.nq_history.specs.Events.{all_events_at, event_at, events_at, EntryStands, HistoryStands};

use nq_bank::{Bank, Part, Shell, Sym, ground, is_same_name};
use nq_history::{Entry, EntryKind, History};

/// A function with the number of its arguments.
#[derive(Clone, Copy)]
struct Function(Sym, u64);

/// The functions of the ground history, in the order of its events.
const GROUND_FUNCTIONS: [Function; 48] = [
    Function(ground::TRUE, 0),
    Function(ground::FALSE, 0),
    Function(ground::EQUAL, 2),
    Function(ground::IF, 3),
    Function(ground::COUNT, 1),
    Function(ground::ADD1, 1),
    Function(ground::ZERO, 0),
    Function(ground::NUMBERP, 1),
    Function(ground::SUB1, 1),
    Function(ground::CONS, 2),
    Function(ground::LISTP, 1),
    Function(ground::CAR, 1),
    Function(ground::CDR, 1),
    Function(ground::PACK, 1),
    Function(ground::LITATOM, 1),
    Function(ground::UNPACK, 1),
    Function(ground::MINUS, 1),
    Function(ground::NEGATIVEP, 1),
    Function(ground::NEGATIVE_GUTS, 1),
    Function(ground::TRUEP, 1),
    Function(ground::FALSEP, 1),
    Function(ground::NOT, 1),
    Function(ground::AND, 2),
    Function(ground::OR, 2),
    Function(ground::IMPLIES, 2),
    Function(ground::IFF, 2),
    Function(ground::ZEROP, 1),
    Function(ground::FIX, 1),
    Function(ground::PLUS, 2),
    Function(ground::LESSP, 2),
    Function(ground::DIFFERENCE, 2),
    Function(ground::TIMES, 2),
    Function(ground::QUOTIENT, 2),
    Function(ground::REMAINDER, 2),
    Function(ground::GREATERP, 2),
    Function(ground::LEQ, 2),
    Function(ground::GEQ, 2),
    Function(ground::NLISTP, 1),
    Function(ground::APPEND, 2),
    Function(ground::MEMBER, 2),
    Function(ground::ORD_LESSP, 2),
    Function(ground::ORDINALP, 1),
    Function(ground::IDENTITY, 1),
    Function(ground::MAX, 2),
    Function(ground::UNION, 2),
    Function(ground::ADD_TO_SET, 2),
    Function(ground::ASSOC, 2),
    Function(ground::PAIRLIST, 2),
];

/// Does this function take so many arguments, after these events?
#[tactic(auto, using(crate::proofs::ArityLemmas::known_symbol))]
pub fn takes_arguments(bank: &Bank, history: &History, f: Sym, count: u64) -> bool
    requires history { HistoryStands bank.now history.now }
    requires function { IsNamed bank.now f }
    ensures { result ≡ has_symbol (text_at bank.now f) count (symbols_of (events_at bank.now history.now)) }
{
    is_ground_function(bank, f, count) || is_among(bank, history.past_ground(), f, count)
}

/// Is this a function of the ground history, with so many arguments?
fn is_ground_function(bank: &Bank, f: Sym, count: u64) -> bool
    requires { IsNamed bank.now f }
    ensures { result ≡ has_symbol (text_at bank.now f) count ground_symbols }
{
    is_one_of(bank, &GROUND_FUNCTIONS, f, count)
}

/// Is it one of these functions, with so many arguments?
fn is_one_of(bank: &Bank, functions: &[Function], f: Sym, count: u64) -> bool
    requires functions { are_ground functions.now ≡ true }
    requires function { IsNamed bank.now f }
    ensures { result ≡ has_symbol (text_at bank.now f) count (symbols_in functions.now) }
{
    for known in functions {
        if bank.is_ground(f, known.0) && count == known.1 {
            return true;
        }
    }
    false
}

/// Is it a function that one of these entries brings, with so many arguments?
fn is_among(bank: &Bank, entries: &[Entry], f: Sym, count: u64) -> bool
    requires entries { All (EntryStands bank.now) entries.now }
    requires function { IsNamed bank.now f }
    ensures { result ≡ has_symbol (text_at bank.now f) count (events_symbols (all_events_at bank.now entries.now)) }
{
    for e in entries {
        if brings(bank, e, f, count) {
            return true;
        }
    }
    false
}

/// Does an entry bring this function, with so many arguments?
fn brings(bank: &Bank, e: &Entry, f: Sym, count: u64) -> bool
    requires entry { EntryStands bank.now e.now }
    requires function { IsNamed bank.now f }
    ensures { result ≡ has_symbol (text_at bank.now f) count (event_symbols (event_at bank.now e.now)) }
{
    match &e.kind {
        EntryKind::Shell(shell) => is_of_shell(bank, shell, f, count),
        EntryKind::Dcl(arity) => is_symbol(bank, f, count, e.name, *arity as u64),
        EntryKind::Defn(formals, _, _) => is_symbol(bank, f, count, e.name, formals.len() as u64),
        EntryKind::Axiom(_, _) => false,
        EntryKind::Lemma(_, _) => false,
        EntryKind::Toggle(_, _) => false,
    }
}

/// Is it a function of the shell, with so many arguments?
fn is_of_shell(bank: &Bank, shell: &Shell, f: Sym, count: u64) -> bool
    requires shell { ShellStands bank.now shell.now }
    requires function { IsNamed bank.now f }
    ensures { result ≡ has_symbol (text_at bank.now f) count (shell_symbols (shell_at bank.now shell.now)) }
{
    is_symbol(bank, f, count, shell.constructor, shell.parts.len() as u64)
        || is_base(bank, shell.base, f, count)
        || is_symbol(bank, f, count, shell.recognizer, 1)
        || is_accessor(bank, shell.parts.as_slice(), f, count)
}

/// Is it the base of a shell, and takes no argument?
fn is_base(bank: &Bank, base: Option<Sym>, f: Sym, count: u64) -> bool
    requires base { BaseStands bank.now base }
    requires function { IsNamed bank.now f }
    ensures { result ≡ has_symbol (text_at bank.now f) count (base_symbols (text_if bank.now base)) }
{
    match base {
        Some(b) => is_symbol(bank, f, count, b, 0),
        None => false,
    }
}

/// Is it an accessor of one of these parts, and takes one argument?
fn is_accessor(bank: &Bank, parts: &[Part], f: Sym, count: u64) -> bool
    requires parts { All (PartStands bank.now) parts.now }
    requires function { IsNamed bank.now f }
    ensures { result ≡ has_symbol (text_at bank.now f) count (accessor_symbols (parts_at bank.now parts.now)) }
{
    for part in parts {
        if is_symbol(bank, f, count, part.accessor, 1) {
            return true;
        }
    }
    false
}

/// Are both the names and the counts the same?
#[tactic(auto, using(crate::proofs::ArityLemmas::one_symbol))]
pub fn is_symbol(bank: &Bank, f: Sym, count: u64, known: Sym, arity: u64) -> bool
    requires function { IsNamed bank.now f }
    requires known { IsNamed bank.now known }
    ensures { result ≡ has_symbol (text_at bank.now f) count ((text_at bank.now known, arity) ∷ []) }
{
    is_same_name(bank, f, known) && count == arity
}
