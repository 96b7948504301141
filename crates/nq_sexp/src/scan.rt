// What has begun behind the whole forms, byte by byte.
ghost use Rattle.std.specs.Prelude.{◌≡◌, ◌≤◌, ◌<◌, ◌+◌, ◌^◌, ◌&&◌, nat_eq, [], IfOk, Some, None, false, not};
ghost use Rattle.nq_form.specs.Bytes.{is_constituent};
ghost use Rattle.nq_form.specs.Kinds.{kind_of};
ghost use Rattle.nq_form.specs.Machine.{Stack as StackPart, word, apart_byte, opening, takes, block_step, string_step, live, finish};
ghost use Rattle.nq_sexp.specs.Stacks.{stack_of, levels_in, EndsAs};
ghost use Rattle.nq_sexp.specs.Modes.{mode_of, nested_in, ends_token, settled, stepped, is_whole_word, IsWord, Turns};

use crate::bytes::{is_constituent, is_opening, is_separator};
use crate::stack::{Opened, Stack};
use crate::{ReadFault, Sexp};
use bumpalo::Bump;
use std::alloc::Global;

/// A token so far, or none; a sharp sign; a comment; or a string. Each with its place.
#[derive(Drop)]
pub(crate) enum Mode {
    /// The bytes of a token.
    Word(u64, Vec<u8>),
    Sharp(u64),
    Line,
    /// How many comments are open around the innermost one, and the byte that may begin a pair.
    Block(u64, u64, u8),
    /// The bytes of a string, and whether a backslash came last.
    Text(u64, Vec<u8>, bool),
}

impl Mode {
    /// Nothing has begun.
    pub(crate) fn idle(alloc: Global) -> Self
        ensures { mode_of result ≡ word 0 [] }
    {
        Mode::Word(0, Vec::new(alloc))
    }
}

/// Whether a token is over before this byte, or at the end.
fn is_token_over(next: Option<u8>) -> bool
    ensures { result ≡ ends_token next }
{
    match next {
        Some(byte) => !is_constituent(byte),
        None => true,
    }
}

/// Takes a token that the next byte doesn't carry on.
pub(crate) fn settle<'a>(
    alloc: Global,
    stack: &mut Stack<'a>,
    arena: &'a Bump,
    mode: Mode,
    next: Option<u8>,
) -> Result<Mode, ReadFault>
    requires levels { levels_in (stack_of stack.old) ≤ 500 }
    requires constituents { IsWord (mode_of mode) }
    ensures { Turns (settled (ends_token next) (stack_of stack.old) (mode_of mode)) (stack_of stack.old) (stack_of stack.new) result }
{
    match mode {
        Mode::Word(place, word) => {
            if !is_token_over(next) {
                return Ok(Mode::Word(place, word));
            }
            if !word.is_empty() {
                stack.judge(arena, place, &word)?;
            }
            Ok(Mode::idle(alloc))
        }
        Mode::Sharp(place) => Ok(Mode::Sharp(place)),
        Mode::Line => Ok(Mode::Line),
        Mode::Block(place, depth, last) => Ok(Mode::Block(place, depth, last)),
        Mode::Text(place, bytes, escaped) => Ok(Mode::Text(place, bytes, escaped)),
    }
}

/// Takes a byte that is no constituent, where nothing has begun.
fn take_apart<'a>(
    alloc: Global,
    stack: &mut Stack<'a>,
    arena: &'a Bump,
    place: u64,
    byte: u8,
) -> Result<Mode, ReadFault>
    requires { levels_in (stack_of stack.old) ≤ 500 }
    ensures { Turns (apart_byte place (stack_of stack.old) byte) (stack_of stack.old) (stack_of stack.new) result }
{
    if is_separator(byte) {
        return Ok(Mode::idle(alloc));
    }
    if is_opening(byte) {
        return take_opening(alloc, stack, place, byte);
    }
    match byte {
        b')' => {
            stack.close(arena, place)?;
            Ok(Mode::idle(alloc))
        }
        b';' => Ok(Mode::Line),
        b'#' => Ok(Mode::Sharp(place)),
        _ => Err(ReadFault::BadToken(place)),
    }
}

/// Opens a string, a quote or a list.
fn take_opening<'a>(
    alloc: Global,
    stack: &mut Stack<'a>,
    place: u64,
    byte: u8,
) -> Result<Mode, ReadFault>
    ensures { Turns (opening (takes (stack_of stack.old)) place (stack_of stack.old) byte) (stack_of stack.old) (stack_of stack.new) result }
{
    if !stack.takes_form() {
        return Err(ReadFault::BadToken(stack.top_place()));
    }
    if byte == b'"' {
        return Ok(Mode::Text(place, Vec::new(alloc), false));
    }
    let opened = if byte == b'\'' {
        Opened::Mark
    } else {
        Opened::List
    };
    stack.open_level(opened, place)?;
    Ok(Mode::idle(alloc))
}

/// Takes a byte in a block comment.
fn step_block(alloc: Global, place: u64, depth: u64, last: u8, byte: u8) -> Mode
    requires { depth < 2 ^ 62 }
    ensures { (k : StackPart) → live k (mode_of result) ≡ block_step (nat_eq last 124 && nat_eq byte 35) (nat_eq last 35 && nat_eq byte 124) place depth k byte }
{
    if last == b'|' && byte == b'#' {
        if depth == 0 {
            Mode::idle(alloc)
        } else {
            Mode::Block(place, depth - 1, 0)
        }
    } else if last == b'#' && byte == b'|' {
        Mode::Block(place, depth + 1, 0)
    } else {
        Mode::Block(place, depth, byte)
    }
}

/// Takes a byte in a string.
fn step_text<'a>(
    alloc: Global,
    stack: &mut Stack<'a>,
    arena: &'a Bump,
    place: u64,
    text: Vec<u8>,
    escaped: bool,
    byte: u8,
) -> Result<Mode, ReadFault>
    requires { levels_in (stack_of stack.old) ≤ 500 }
    ensures { Turns (string_step escaped (nat_eq byte 34) (nat_eq byte 92) place text.items (stack_of stack.old) byte) (stack_of stack.old) (stack_of stack.new) result }
{
    let mut bytes = text;
    if !escaped && byte == b'"' {
        let copy: &[u8] = arena.try_alloc_slice_copy(&bytes)?;
        stack.give(arena, Sexp::Str(copy))?;
        return Ok(Mode::idle(alloc));
    }
    if !escaped && byte == b'\\' {
        return Ok(Mode::Text(place, bytes, true));
    }
    bytes.push(byte)?;
    Ok(Mode::Text(place, bytes, false))
}

/// Takes one byte more. A token that it doesn't carry on was taken before.
pub(crate) fn step<'a>(
    alloc: Global,
    stack: &mut Stack<'a>,
    arena: &'a Bump,
    mode: Mode,
    place: u64,
    byte: u8,
) -> Result<Mode, ReadFault>
    requires levels { levels_in (stack_of stack.old) ≤ 500 }
    requires nested { nested_in (mode_of mode) < 2 ^ 62 }
    ensures { Turns (stepped place (stack_of stack.old) (mode_of mode) byte) (stack_of stack.old) (stack_of stack.new) result }
{
    match mode {
        Mode::Word(start, word) => {
            if !is_constituent(byte) {
                return take_apart(alloc, stack, arena, place, byte);
            }
            let start = if word.is_empty() { place } else { start };
            let mut word = word;
            word.push(byte)?;
            Ok(Mode::Word(start, word))
        }
        Mode::Sharp(start) => {
            if byte == b'|' {
                Ok(Mode::Block(start, 0, 0))
            } else {
                Err(ReadFault::BadToken(start))
            }
        }
        Mode::Line => {
            if byte == b'\n' {
                Ok(Mode::idle(alloc))
            } else {
                Ok(Mode::Line)
            }
        }
        Mode::Block(start, depth, last) => Ok(step_block(alloc, start, depth, last, byte)),
        Mode::Text(start, text, escaped) => {
            step_text(alloc, stack, arena, start, text, escaped, byte)
        }
    }
}

/// How the end of the text is answered, where no token is last.
pub(crate) fn finish(stack: &Stack<'_>, mode: &Mode) -> Result<(), ReadFault>
    requires { is_whole_word (mode_of mode.now) ≡ false }
    ensures { EndsAs (finish kind_of (live (stack_of stack.now) (mode_of mode.now))).ending result }
{
    match mode {
        Mode::Word(_, _) => stack.end(),
        Mode::Sharp(place) => Err(ReadFault::BadToken(*place)),
        Mode::Line => stack.end(),
        Mode::Block(place, _, _) => Err(stack.cut_fault(*place)),
        Mode::Text(place, _, _) => Err(stack.cut_fault(*place)),
    }
}
