//! The texts of quoted objects.
ghost use Rattle.std.specs.Prelude.{◌≡◌, ◌++◌, true, false, IfOk, OnOk, decimal, is_some, Some, None};
ghost use Rattle.nq_logic.specs.Terms.{Function, Applied};
ghost use Rattle.nq_logic.specs.Numerals.{number_of};
ghost use Rattle.nq_language.specs.Quotations.{object_of, single_object, negative_object};
ghost use Rattle.nq_bank.specs.Content.{Stands, IsNamed, term_at, text_at};
ghost use Rattle.nq_form.specs.Form.{numeral};
ghost use Rattle.nq_print.specs.ObjectShapes.{IsObjectAt};
ghost use Rattle.nq_print.specs.Pieces.{is_object, is_quoted, object_text, tail_text, shown_text};

use crate::atoms::{atom_name, number_at};
use crate::objects::is_nil_call;
use crate::shape::{Shape, shape_of};
use itoa::Buffer;
use nq_bank::{Bank, Sym, TermId, ground};
use std::alloc::AllocError;

/// Appends a text.
pub fn write_text(text: &[u8], out: &mut Vec<u8>) -> Result<(), AllocError>
    ensures { OnOk result (out.new.items ≡ out.old.items ++ text.now) }
{
    out.extend_from_slice(text)
}

/// Appends a number's decimal digits.
pub fn write_number(n: u128, out: &mut Vec<u8>) -> Result<(), AllocError>
    ensures { OnOk result (out.new.items ≡ out.old.items ++ decimal n) }
{
    let mut buffer = Buffer::new();
    out.extend_from_slice(buffer.format(n).as_bytes())
}

/// Appends a negative number.
fn write_negative(magnitude: Option<u128>, out: &mut Vec<u8>) -> Result<(), AllocError>
    requires { is_some (negative_object magnitude) ≡ true }
    ensures { OnOk result (out.new.items ≡ out.old.items ++ object_text (negative_object magnitude)) }
{
    match magnitude {
        Some(n) => {
            out.push(b'-')?;
            write_number(n, out)
        }
        None => Ok(()),
    }
}

/// Appends a negative number or the name of a literal atom.
fn write_single(bank: &Bank, f: Sym, argument: TermId, out: &mut Vec<u8>) -> Result<(), AllocError>
    requires function { IsNamed bank.now f }
    requires argument { Stands bank.now argument }
    requires other { number_of (Applied (Function (text_at bank.now f)) (term_at bank.now argument)) ≡ None }
    requires single { is_some (single_object (Function (text_at bank.now f)) (term_at bank.now argument)) ≡ true }
    ensures { OnOk result (out.new.items ≡ out.old.items ++ object_text (single_object (Function (text_at bank.now f)) (term_at bank.now argument))) }
{
    if bank.is_ground(f, ground::MINUS) {
        return write_negative(number_at(bank, argument), out);
    }
    match atom_name(bank, argument)? {
        Some(name) => write_text(&name, out),
        None => Ok(()),
    }
}

fn write_dotted_number(n: u128, out: &mut Vec<u8>) -> Result<(), AllocError>
    ensures { OnOk result (out.new.items ≡ out.old.items ++ tail_text (Some (numeral false n))) }
{
    write_text(b" . ", out)?;
    write_number(n, out)
}

/// Appends a list's tail that is no list: nothing for NIL, and else a dot and the tail.
fn write_dotted_single(
    bank: &Bank,
    f: Sym,
    argument: TermId,
    out: &mut Vec<u8>,
) -> Result<(), AllocError>
    requires function { IsNamed bank.now f }
    requires argument { Stands bank.now argument }
    requires other { number_of (Applied (Function (text_at bank.now f)) (term_at bank.now argument)) ≡ None }
    requires single { is_some (single_object (Function (text_at bank.now f)) (term_at bank.now argument)) ≡ true }
    ensures { OnOk result (out.new.items ≡ out.old.items ++ tail_text (single_object (Function (text_at bank.now f)) (term_at bank.now argument))) }
{
    if is_nil_call(bank, f, argument)? {
        return Ok(());
    }
    write_text(b" . ", out)?;
    write_single(bank, f, argument, out)
}

fn is_quoted_single(bank: &Bank, f: Sym, argument: TermId) -> Result<bool, AllocError>
    requires function { IsNamed bank.now f }
    requires argument { Stands bank.now argument }
    requires other { number_of (Applied (Function (text_at bank.now f)) (term_at bank.now argument)) ≡ None }
    requires single { is_some (single_object (Function (text_at bank.now f)) (term_at bank.now argument)) ≡ true }
    ensures { IfOk result (λ answer. answer ≡ is_quoted (single_object (Function (text_at bank.now f)) (term_at bank.now argument))) }
{
    if bank.is_ground(f, ground::MINUS) {
        return Ok(false);
    }
    match is_nil_call(bank, f, argument) {
        Ok(nil) => Ok(!nil),
        Err(fault) => Err(fault),
    }
}

/// An object: a number, a call of MINUS or PACK, or a call of CONS.
#[derive(Clone, Copy)]
enum Object {
    Number(u128),
    Single(Sym, TermId),
    Pair(TermId, TermId),
}

/// What an object is.
fn object_at(bank: &Bank, t: TermId) -> Object
    requires stands { Stands bank.now t }
    requires is_one { is_object (term_at bank.now t) ≡ true }
    ensures { IsObjectAt bank.now t result }
{
    match shape_of(bank, t) {
        Shape::Number(n) => Object::Number(n),
        Shape::Single(f, argument) => Object::Single(f, argument),
        Shape::Pair(_, first, rest) => Object::Pair(first, rest),
        Shape::Variable(_) => Object::Number(0),
        Shape::Constant(_) => Object::Number(0),
        Shape::Longer(_) => Object::Number(0),
    }
}

/// Appends the text of an object.
#[cycle(objects)]
fn write_object(bank: &Bank, t: TermId, out: &mut Vec<u8>) -> Result<(), AllocError>
    requires stands { Stands bank.now t }
    requires is_one { is_object (term_at bank.now t) ≡ true }
    ensures { OnOk result (out.new.items ≡ out.old.items ++ object_text (object_of (term_at bank.now t))) }
{
    match object_at(bank, t) {
        Object::Number(n) => write_number(n, out),
        Object::Single(f, argument) => write_single(bank, f, argument, out),
        Object::Pair(first, rest) => {
            out.push(b'(')?;
            write_object(bank, first, out)?;
            write_tail(bank, rest, out)?;
            out.push(b')')?;
            Ok(())
        }
    }
}

/// Appends what stands in a list behind an element, where the list's tail is an object.
#[cycle(objects)]
fn write_tail(bank: &Bank, t: TermId, out: &mut Vec<u8>) -> Result<(), AllocError>
    requires stands { Stands bank.now t }
    requires is_one { is_object (term_at bank.now t) ≡ true }
    ensures { OnOk result (out.new.items ≡ out.old.items ++ tail_text (object_of (term_at bank.now t))) }
{
    match object_at(bank, t) {
        Object::Pair(first, rest) => {
            out.push(b' ')?;
            write_object(bank, first, out)?;
            write_tail(bank, rest, out)
        }
        Object::Number(n) => write_dotted_number(n, out),
        Object::Single(f, argument) => write_dotted_single(bank, f, argument, out),
    }
}

/// Does a quote mark stand before an object?
fn is_quoted(bank: &Bank, t: TermId) -> Result<bool, AllocError>
    requires stands { Stands bank.now t }
    requires is_one { is_object (term_at bank.now t) ≡ true }
    ensures { IfOk result (λ answer. answer ≡ is_quoted (object_of (term_at bank.now t))) }
{
    match object_at(bank, t) {
        Object::Number(_) => Ok(false),
        Object::Single(f, argument) => is_quoted_single(bank, f, argument),
        Object::Pair(_, _) => Ok(true),
    }
}

/// Appends an object, with a quote mark before it where it is due.
pub fn write_shown(bank: &Bank, t: TermId, out: &mut Vec<u8>) -> Result<(), AllocError>
    requires stands { Stands bank.now t }
    requires is_one { is_object (term_at bank.now t) ≡ true }
    ensures { OnOk result (out.new.items ≡ out.old.items ++ shown_text (object_of (term_at bank.now t))) }
{
    if is_quoted(bank, t)? {
        out.push(b'\'')?;
        write_object(bank, t, out)
    } else {
        write_object(bank, t, out)
    }
}
