//! The names that DISABLE and ENABLE make up.
ghost use Rattle.std.specs.Prelude.{◌≡◌, ◌++◌, ◌∷◌, ◌+◌, ◌-◌, ◌<◌, ◌^◌, [], bytes_eq, IfOk};
ghost use Rattle.std.specs.Fmt.{decimal};
ghost use Rattle.nq_bank.specs.Content.{Content, Grows, NamesText};
ghost use Rattle.nq_history.specs.Events.{events_at, HistoryStands};
ghost use Rattle.nq_events.specs.MadeNames.{made_name, numbered_from, switched_name, unused_from};
ghost use Rattle.nq_event.specs.NameCounts.{name_count};
ghost use Rattle.nq_event.specs.Untried.{front_of, IsUntried};

use itoa::Buffer;
use nq_bank::{Bank, Sym};
use nq_history::History;
use std::alloc::{AllocError, Global};

/// The old name with -OFF or -ON behind it.
fn switched_name(alloc: Global, disabled: bool, old: &[u8]) -> Result<Vec<u8>, AllocError>
    ensures { IfOk result (λ name. name.items ≡ switched_name disabled old.now) }
{
    let mut name = Vec::from_slice(alloc, old)?;
    if disabled {
        name.extend_from_slice(b"-OFF")?;
    } else {
        name.extend_from_slice(b"-ON")?;
    }
    Ok(name)
}

/// The name with a numeral behind it.
fn numbered_name(bank: &mut Bank, name: &[u8], number: u64) -> Result<Sym, AllocError>
    ensures named { IfOk result (λ s. NamesText bank.new s (name.now ++ decimal number)) }
    ensures grows { Grows bank.old bank.new }
{
    let mut digits = Buffer::new();
    let mut text = Vec::from_slice(bank.alloc(), name)?;
    text.extend_from_slice(digits.format(number).as_bytes())?;
    bank.name(text.as_slice())
}

/// How many names the events of the history bring into use, each name as often as it is brought.
fn count_names(history: &History) -> u64
    ensures count { (bank : Content) → HistoryStands bank history.now → result ≡ name_count (events_at bank history.now) }
    ensures below { result < 2 ^ 64 - 1 }
{
    history.entries().len() as u64 + history.symbols().len() as u64
}

/// The name, and behind it the numeral of the tens where there are any: the numerals of ten numbers differ in what follows.
fn front_of(alloc: Global, name: &[u8], tens: u64) -> Result<Vec<u8>, AllocError>
    ensures { IfOk result (λ front. front.items ≡ front_of name.now tens) }
{
    let mut front = Vec::from_slice(alloc, name)?;
    if tens > 0 {
        let mut digits = Buffer::new();
        front.extend_from_slice(digits.format(tens).as_bytes())?;
    }
    Ok(front)
}

/// Is a text a front and a digit?
fn is_front_with(text: &[u8], front: &[u8], digit: u64) -> bool
    requires { digit < 10 }
    ensures { result ≡ bytes_eq text.now (front.now ++ (48 + digit) ∷ []) }
{
    match text {
        [before @ .., last] => *last as u64 == 48 + digit && before == front,
        [] => false,
    }
}

/// A number from 1 on below which each numeral behind the name makes the name of an event, at most one more than the count.
/// The numerals are looked for in one walk, each in a later event than the one before it; so it is where all of the names
/// were made up, and a text is compared for each event, where to try a name would take a look at all tables.
fn first_untried(bank: &Bank, history: &History, name: &[u8], count: u64) -> Result<u64, AllocError>
    requires history { HistoryStands bank.now history.now }
    requires count { count < 2 ^ 64 - 1 }
    ensures { IfOk result (IsUntried (events_at bank.now history.now) name.now count) }
{
    let mut front = Vec::from_slice(bank.alloc(), name)?;
    let mut number = 1;
    for e in history.past_ground() {
        if number <= count && is_front_with(bank.text(e.name), front.as_slice(), number % 10) {
            number += 1;
            if number % 10 == 0 {
                front = front_of(bank.alloc(), name, number / 10)?;
            }
        }
    }
    Ok(number)
}

/// The name with the first numeral from 1 that makes a name not in use. So many numerals are tried, and then the next one
/// is taken.
fn numbered(bank: &mut Bank, history: &History, name: &[u8], count: u64) -> Result<Sym, AllocError>
    requires history { HistoryStands bank.old history.now }
    requires count { count < 2 ^ 64 - 1 }
    ensures named { IfOk result (λ s. NamesText bank.new s (numbered_from (events_at bank.old history.now) name.now 1 count)) }
    ensures grows { Grows bank.old bank.new }
{
    let mut number = first_untried(bank, history, name, count)?;
    let mut more = count + 1 - number;
    while more > 0 {
        let s = numbered_name(bank, name, number)?;
        if history.in_use(bank, s) {
            number += 1;
            more -= 1;
        } else {
            return Ok(s);
        }
    }
    numbered_name(bank, name, number)
}

/// The name alone, or with the first numeral from 1 that makes a name not in use.
fn unused(bank: &mut Bank, history: &History, name: &[u8]) -> Result<Sym, AllocError>
    requires { HistoryStands bank.old history.now }
    ensures named { IfOk result (λ s. NamesText bank.new s (unused_from (events_at bank.old history.now) name.now)) }
    ensures grows { Grows bank.old bank.new }
{
    let s = bank.name(name)?;
    if history.in_use(bank, s) {
        numbered(bank, history, name, count_names(history))
    } else {
        Ok(s)
    }
}

/// The name of the toggle that disables or enables the old name.
pub fn made_name(
    bank: &mut Bank,
    history: &History,
    disabled: bool,
    old: &[u8],
) -> Result<Sym, AllocError>
    requires { HistoryStands bank.old history.now }
    ensures named { IfOk result (λ s. NamesText bank.new s (made_name (events_at bank.old history.now) disabled old.now)) }
    ensures grows { Grows bank.old bank.new }
{
    let name = switched_name(bank.alloc(), disabled, old)?;
    unused(bank, history, name.as_slice())
}
