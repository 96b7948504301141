//! The reader: the forms of an event file, by the grammar of nq_form.
//!
//! A [`Reader`] hands out one form a call, from any source and in any pieces. Its one promise to the
//! layer above: the forms that [`Reader::next`] gives, call by call, and the end or the fault that it
//! meets, are the one reading that the grammar gives the whole text. The faults come in the order of
//! the text, each with the place of the byte that the grammar names.
//!
//! It reads as the grammar's machine does, byte by byte: `stack` holds what is open and the whole forms
//! in it, `scan` what has begun behind them, `token` says what a token is, and `input` asks the source
//! for more only where no byte is in hand, and never behind the end that the source told. So a read
//! that fails never comes behind a symbol or numeral that stands whole at the end of a text. A form is
//! a [`Sexp`] in an arena, which is reset between events.
#![tactic(auto)]

mod bytes;
mod fault;
mod form;
mod input;
mod reader;
mod scan;
mod stack;
mod token;

pub use fault::ReadFault;
pub use reader::{Reader, failed_reads_have_one_list, read_all};

/// A form, in an arena.
#[derive(Clone, Copy)]
pub enum Sexp<'a> {
    /// A symbol, in upper case.
    Symbol(&'a [u8]),
    /// A numeral: whether it is below 0, and its magnitude.
    Numeral(bool, u128),
    /// A string's bytes.
    Str(&'a [u8]),
    /// A quote.
    Quote(&'a Sexp<'a>),
    /// A list: its elements, and what stands behind a dot.
    List(&'a [Sexp<'a>], Option<&'a Sexp<'a>>),
}
