//! The shells of a history, and what their functions make, take apart and recognize. It decides only which rows are tried.
ghost use Rattle.std.specs.Prelude.{IfSome};
ghost use Rattle.nq_bank.specs.Content.{IsNamed, Stands};
ghost use Rattle.nq_kernel.specs.Growing.{WorkStands};

use nq_bank::{Bank, Node, Part, Shell, Sym, TermId, ground};
use nq_history::History;
use nq_kernel::Work;

/// The constructor of the shell at a place.
pub fn constructor_at(work: &Work, history: &History, place: usize) -> Option<Sym>
    requires { WorkStands history.now work.now }
    ensures { IfSome result (IsNamed work.now.bank) }
{
    let shells = history.shells();
    let _ = work.bank.alloc();
    if place < shells.len() {
        Some(shells[place].constructor)
    } else {
        None
    }
}

/// Is a name this one?
fn is_base(base: Option<Sym>, f: Sym) -> bool {
    match base {
        Some(b) => b.0 == f.0,
        None => false,
    }
}

/// The place of the shell that a function recognizes.
pub fn recognized_kind(history: &History, f: Sym) -> Option<usize> {
    let shells = history.shells();
    for place in 0..shells.len() {
        if shells[place].recognizer.0 == f.0 {
            return Some(place);
        }
    }
    None
}

/// The place of the shell whose objects a function makes.
pub fn made_kind(history: &History, f: Sym) -> Option<usize> {
    let shells = history.shells();
    for place in 0..shells.len() {
        if shells[place].constructor.0 == f.0 || is_base(shells[place].base, f) {
            return Some(place);
        }
    }
    None
}

/// Is a function the base of the shell at a place?
pub fn is_base_at(history: &History, place: usize, f: Sym) -> bool {
    let shells = history.shells();
    place < shells.len() && is_base(shells[place].base, f)
}

/// Does a function make the objects of the shell at a place?
pub fn is_made_at(history: &History, place: usize, f: Sym) -> bool {
    let shells = history.shells();
    place < shells.len() && shells[place].constructor.0 == f.0
}

/// The number of the part that a function takes, counted from 1.
fn part_number(parts: &[Part], f: Sym) -> Option<u64> {
    let mut number = 1u64;
    for part in parts {
        if part.accessor.0 == f.0 {
            return Some(number);
        }
        number = number.saturating_add(1);
    }
    None
}

/// The place of the shell whose part a function takes, and the number of the part.
pub fn taken_part(history: &History, f: Sym) -> Option<(usize, u64)> {
    let shells = history.shells();
    for place in 0..shells.len() {
        if let Some(number) = part_number(shells[place].parts.as_slice(), f) {
            return Some((place, number));
        }
    }
    None
}

/// The function that makes a numeral.
fn numeral_head(n: u128) -> Sym {
    if n == 0 { ground::ZERO } else { ground::ADD1 }
}

/// The function of a call. Of a numeral above 0 it is ADD1, of 0 it is ZERO.
pub fn head_of(bank: &Bank, t: TermId) -> Option<Sym>
    requires { Stands bank.now t }
{
    match bank.node(t) {
        Node::App(f, _) => Some(f),
        Node::Num(n) => Some(numeral_head(n)),
        Node::Var(_) => None,
    }
}

/// The function and the argument of a call of one argument.
pub fn one_argument(bank: &Bank, t: TermId) -> Option<(Sym, TermId)>
    requires { Stands bank.now t }
    ensures { IfSome result (λ call. Stands bank.now call.1) }
{
    match bank.node(t) {
        Node::App(f, _) => match bank.args(t) {
            [a] => Some((f, *a)),
            [] => None,
            _ => None,
        },
        Node::Num(_) => None,
        Node::Var(_) => None,
    }
}

/// The shell and the row that say that a recognizer holds of an object that was just made.
pub fn kind_row(bank: &Bank, history: &History, t: TermId) -> Option<(usize, u64)>
    requires { Stands bank.now t }
{
    match one_argument(bank, t) {
        Some((r, a)) => kind_row_of(bank, history, r, a),
        None => None,
    }
}

/// The same, of a recognizer and an object.
fn kind_row_of(bank: &Bank, history: &History, r: Sym, a: TermId) -> Option<(usize, u64)>
    requires { Stands bank.now a }
{
    let place = recognized_kind(history, r)?;
    let f = head_of(bank, a)?;
    if is_base_at(history, place, f) {
        return Some((place, 3));
    }
    if made_kind(history, f)? == place {
        Some((place, 2))
    } else {
        None
    }
}

/// The shell and the row that tell of what kind an object just made is.
pub fn made_row(bank: &Bank, history: &History, t: TermId) -> Option<(usize, u64)>
    requires { Stands bank.now t }
{
    let f = head_of(bank, t)?;
    let place = made_kind(history, f)?;
    if is_base_at(history, place, f) {
        Some((place, 3))
    } else {
        Some((place, 2))
    }
}

/// Is a function TRUE or FALSE?
pub fn is_truth_value(head: Option<Sym>) -> bool {
    match head {
        Some(f) => f.0 == ground::TRUE.0 || f.0 == ground::FALSE.0,
        None => false,
    }
}

/// Must a part be of the kind of this recognizer, and of no other?
fn is_restricted(part: &Part, r: Sym) -> bool {
    match part.recognizers.as_slice() {
        [only] => part.one_of && only.0 == r.0,
        [] => false,
        _ => false,
    }
}

/// Must the part of this number of the shell at a place be of the kind of this recognizer?
fn is_restricted_at(history: &History, place: usize, number: u64, r: Sym) -> bool {
    let shells = history.shells();
    if place >= shells.len() {
        return false;
    }
    let mut count = 1u64;
    for part in shells[place].parts.as_slice() {
        if count == number {
            return is_restricted(part, r);
        }
        count = count.saturating_add(1);
    }
    false
}

/// The shell and the number of the part of which a term says that it is of the kind that it must be of.
pub fn restricted_part(bank: &Bank, history: &History, t: TermId) -> Option<(usize, u64)>
    requires { Stands bank.now t }
{
    let (r, a) = one_argument(bank, t)?;
    let (f, _) = one_argument(bank, a)?;
    let (place, number) = taken_part(history, f)?;
    if is_restricted_at(history, place, number, r) {
        Some((place, number))
    } else {
        None
    }
}
