//! The texts of terms.
ghost use Rattle.std.specs.Prelude.{◌≡◌, ℕ, ◌++◌, ◌∷◌, ◌<◌, [], length, OnOk, OnErr, IfOk, None};
ghost use Rattle.nq_logic.specs.Terms.{call};
ghost use Rattle.nq_logic.specs.Numerals.{number_of};
ghost use Rattle.nq_bank.specs.Parts.{parts_of};
ghost use Rattle.nq_bank.specs.Content.{Stands, IsNamed, term_at, text_at};
ghost use Rattle.nq_form.specs.Spelling.{spelled};
ghost use Rattle.nq_language.specs.Printing.{form_under, constant_form, printed};
ghost use Rattle.nq_print.specs.Pieces.{letter_at, opening, closing, call_text};
ghost use Rattle.nq_print.specs.Known.{HasAnswers};

use crate::letters::letter_at;
use crate::objects::{Known, is_object};
use crate::quoting::{write_number, write_shown, write_text};
use nq_bank::{Bank, Node, Sym, TermId, ground};
use std::alloc::AllocError;
use std::collections::HashMap;

/// The greatest count of letters in the name of one nest.
const FULL: usize = 200;

/// The greatest size of a term that is printed.
const LARGEST: u64 = 100_000;

/// Appends what stands before the form inside a nest of CAR and CDR.
fn write_opening(letters: &[u8], out: &mut Vec<u8>) -> Result<(), AllocError>
    ensures { OnOk result (out.new.items ≡ out.old.items ++ opening letters.now) }
{
    if letters.is_empty() {
        return Ok(());
    }
    write_text(b"(C", out)?;
    write_text(letters, out)?;
    write_text(b"R ", out)
}

/// Appends what stands behind it.
fn write_closing(letters: &[u8], out: &mut Vec<u8>) -> Result<(), AllocError>
    ensures { OnOk result (out.new.items ≡ out.old.items ++ closing letters.now) }
{
    if letters.is_empty() {
        return Ok(());
    }
    write_text(b")", out)
}

/// Appends T, F, 0 or a call without arguments.
fn write_constant(bank: &Bank, f: Sym, out: &mut Vec<u8>) -> Result<(), AllocError>
    requires named { IsNamed bank.now f }
    ensures { OnOk result (out.new.items ≡ out.old.items ++ spelled (constant_form (text_at bank.now f))) }
{
    if bank.is_ground(f, ground::TRUE) {
        write_text(b"T", out)
    } else if bank.is_ground(f, ground::FALSE) {
        write_text(b"F", out)
    } else if bank.is_ground(f, ground::ZERO) {
        write_number(0, out)
    } else {
        write_text(b"(", out)?;
        write_text(bank.text(f), out)?;
        write_text(b")", out)
    }
}

/// Appends a term inside a nest of CAR and CDR with these letters.
#[cycle(terms)]
fn write_under(
    bank: &Bank,
    known: &mut Known,
    mut letters: Vec<u8>,
    t: TermId,
    out: &mut Vec<u8>,
) -> Result<(), AllocError>
    requires stands { Stands bank.now t }
    requires answers { HasAnswers bank.now known.old }
    ensures ok { OnOk result (out.new.items ≡ out.old.items ++ spelled (form_under letters.items (term_at bank.now t))) }
    ensures answers { OnOk result (HasAnswers bank.now known.new) }
{
    match letter_at(bank, t) {
        Some(inner) => {
            if letters.len() >= FULL {
                let mut further = Vec::new(bank.alloc());
                further.push(inner.letter)?;
                write_opening(&letters, out)?;
                write_under(bank, known, further, inner.argument, out)?;
                write_closing(&letters, out)
            } else {
                letters.push(inner.letter)?;
                write_under(bank, known, letters, inner.argument, out)
            }
        }
        None => {
            write_opening(&letters, out)?;
            write_plain(bank, known, t, out)?;
            write_closing(&letters, out)
        }
    }
}

/// Appends a term that is no call of CAR or CDR.
#[cycle(terms)]
fn write_plain(
    bank: &Bank,
    known: &mut Known,
    t: TermId,
    out: &mut Vec<u8>,
) -> Result<(), AllocError>
    requires stands { Stands bank.now t }
    requires answers { HasAnswers bank.now known.old }
    requires plain { letter_at (term_at bank.now t) ≡ None }
    ensures ok { OnOk result (out.new.items ≡ out.old.items ++ spelled (form_under [] (term_at bank.now t))) }
    ensures answers { OnOk result (HasAnswers bank.now known.new) }
{
    match bank.node(t) {
        Node::Var(s) => write_text(bank.text(s), out),
        Node::Num(n) => write_number(n, out),
        Node::App(f, count) => {
            if count == 0 {
                write_constant(bank, f, out)
            } else if is_object(bank, known, t)? {
                write_shown(bank, t, out)
            } else {
                write_call(bank, known, f, t, out)
            }
        }
    }
}

/// Appends a call as a list.
#[cycle(terms)]
fn write_call(
    bank: &Bank,
    known: &mut Known,
    f: Sym,
    t: TermId,
    out: &mut Vec<u8>,
) -> Result<(), AllocError>
    requires stands { Stands bank.now t }
    requires function { IsNamed bank.now f }
    requires answers { HasAnswers bank.now known.old }
    ensures ok { OnOk result (out.new.items ≡ out.old.items ++ call_text (text_at bank.now f) (parts_of (term_at bank.now t))) }
    ensures answers { OnOk result (HasAnswers bank.now known.new) }
{
    write_text(b"(", out)?;
    write_text(bank.text(f), out)?;
    for argument in bank.args(t) {
        out.push(b' ')?;
        write_under(bank, known, Vec::new(bank.alloc()), *argument, out)?;
    }
    write_text(b")", out)
}

/// Appends the text of a term: `<large term>` where it has more than 100,000 nodes. After want of
/// memory the text is what it was.
pub fn print_term(bank: &Bank, t: TermId, out: &mut Vec<u8>) -> Result<(), AllocError>
    requires { Stands bank.now t }
    ensures ok { OnOk result (out.new.items ≡ out.old.items ++ printed (term_at bank.now t)) }
    ensures err { OnErr result (out.new.items ≡ out.old.items) }
{
    if bank.size(t) > LARGEST {
        return out.extend_from_slice(b"<large term>");
    }
    let text = text_of(bank, t)?;
    out.extend_from_slice(&text)
}

/// The text of a term of any size.
fn text_of(bank: &Bank, t: TermId) -> Result<Vec<u8>, AllocError>
    requires { Stands bank.now t }
    ensures { IfOk result (λ text. text.items ≡ spelled (form_under [] (term_at bank.now t))) }
{
    let mut text = Vec::new(bank.alloc());
    let mut known = HashMap::new(bank.alloc());
    write_under(bank, &mut known, Vec::new(bank.alloc()), t, &mut text)?;
    Ok(text)
}
