//! Literal atoms, by the codes of their names.
ghost use Rattle.std.specs.Prelude.{◌≡◌, ◌&&◌, length, nat_le, not, IfOk, ◌≤◌};
ghost use Rattle.std.specs.List.{list_all};
ghost use Rattle.nq_form.specs.Bytes.{is_constituent, is_digit, is_sign};
ghost use Rattle.nq_form.specs.Token.{begins_symbol, bars_front};
ghost use Rattle.nq_form.specs.Spelling.{is_capital};
ghost use Rattle.nq_language.specs.Refusals.{is_escape};
ghost use Rattle.nq_language.specs.Quotations.{is_atom_name, atom_object, codes_of};
ghost use Rattle.nq_logic.specs.Numerals.{number_of};
ghost use Rattle.nq_bank.specs.Content.{Stands, term_at};
ghost use Rattle.nq_print.specs.Atoms.{IsCode, name_form};

use crate::shape::{Shape, shape_of};
use nq_bank::{Bank, TermId, ground};
use std::alloc::AllocError;

/// The greatest length of a symbol.
const LONGEST: usize = 256;

/// Is it a letter in upper case, a digit, or a sign of which symbols are made?
pub fn is_capital(byte: u8) -> bool
    ensures { result ≡ is_capital byte }
{
    match byte {
        b'A'..=b'Z' | b'0'..=b'9' => true,
        b'!' | b'$' | b'%' | b'&' | b'*' | b'+' | b'-' | b'.' | b'/' | b':' | b'<' | b'=' => true,
        b'>' | b'?' | b'@' | b'[' | b']' | b'^' | b'_' | b'{' | b'}' | b'~' => true,
        _ => false,
    }
}

/// Does a text begin as a symbol does?
fn begins_symbol(name: &[u8]) -> bool
    ensures { result ≡ begins_symbol name.now }
{
    match name {
        [] => false,
        [only] => !bars_front(*only),
        [first, second, ..] => !bars_front(*first) && !(is_sign(*first) && second.is_ascii_digit()),
    }
}

fn bars_front(byte: u8) -> bool
    ensures { result ≡ bars_front byte }
{
    matches!(byte, b'0'..=b'9' | b'.' | b':')
}

fn is_sign(byte: u8) -> bool
    ensures { result ≡ is_sign byte }
{
    byte == b'+' || byte == b'-'
}

fn begins_escape(name: &[u8]) -> bool
    ensures { result ≡ is_escape name.now }
{
    match name {
        [first, second, third, ..] => *first == b'*' && *second == b'1' && *third == b'*',
        _ => false,
    }
}

fn are_capitals(name: &[u8]) -> bool
    ensures { result ≡ list_all is_capital name.now }
{
    name.iter().all(|byte| is_capital(*byte))
}

/// Is it the name of a literal atom that is quoted?
fn is_atom_name(name: &[u8]) -> bool
    ensures { result ≡ is_atom_name name.now }
{
    are_capitals(name) && begins_symbol(name) && name.len() <= LONGEST && !begins_escape(name)
}

/// What stands first in a list of codes that ends in 0.
#[derive(Clone, Copy)]
pub enum Code {
    End,
    Next(u8, TermId),
    /// No code of a name, or no such list.
    Other,
}

/// The number of a numeral.
pub fn number_at(bank: &Bank, t: TermId) -> Option<u128>
    requires { Stands bank.now t }
    ensures { result ≡ number_of (term_at bank.now t) }
{
    match shape_of(bank, t) {
        Shape::Number(n) => Some(n),
        Shape::Variable(_) => None,
        Shape::Constant(_) => None,
        Shape::Single(_, _) => None,
        Shape::Pair(_, _, _) => None,
        Shape::Longer(_) => None,
    }
}

/// The first code of a list, or its end.
fn next_code(bank: &Bank, t: TermId) -> Code
    requires { Stands bank.now t }
    ensures { IsCode bank.now t result }
{
    match shape_of(bank, t) {
        Shape::Number(n) => { if n == 0 { Code::End } else { Code::Other } }
        Shape::Pair(f, first, rest) => {
            if !bank.is_ground(f, ground::CONS) {
                return Code::Other;
            }
            match number_at(bank, first) {
                Some(n) if n < 256 => Code::Next(n as u8, rest),
                Some(_) => Code::Other,
                None => Code::Other,
            }
        }
        Shape::Variable(_) => Code::Other,
        Shape::Constant(_) => Code::Other,
        Shape::Single(_, _) => Code::Other,
        Shape::Longer(_) => Code::Other,
    }
}

fn whole_name(name: Vec<u8>) -> Option<Vec<u8>>
    ensures { name_form result ≡ atom_object (Some name.items) }
{
    if is_atom_name(&name) {
        Some(name)
    } else {
        None
    }
}

/// The name of the literal atom with these codes, where it is quoted.
pub fn atom_name(bank: &Bank, codes: TermId) -> Result<Option<Vec<u8>>, AllocError>
    requires { Stands bank.now codes }
    ensures { IfOk result (λ name. name_form name ≡ atom_object (codes_of (term_at bank.now codes))) }
{
    let mut name = Vec::new(bank.alloc());
    let mut rest = codes;
    loop {
        match next_code(bank, rest) {
            Code::End => return Ok(whole_name(name)),
            Code::Other => return Ok(None),
            Code::Next(code, further) => {
                if name.len() == LONGEST {
                    return Ok(None);
                }
                name.push(code)?;
                rest = further;
            }
        }
    }
}
