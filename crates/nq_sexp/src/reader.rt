// Reads one form after another from a source.
ghost use Rattle.std.specs.Prelude.{◌≡◌, ◌≤◌, ◌-◌, ◌^◌, [], ℕ, List, true, false, Some, is_ok, IfOk, IfErr, IfNone, IfSome, IsTrue, IsErrOf};
ghost use Rattle.nq_io.specs.Faults.{Rose};
ghost use Rattle.nq_form.specs.Form.{Forms, end};
ghost use Rattle.nq_form.specs.Grammar.{Reads, done};
ghost use Rattle.nq_sexp.specs.Held.{ahead, IsNext, Taken};
ghost use Rattle.nq_sexp.specs.Halt.{IsLookFault, IsMet, IsFound};
ghost use Rattle.nq_sexp.specs.Tree.{tree, trees};
ghost use Rattle.nq_sexp.specs.Whole.{IsEnding, OneListWhereReadsFail};

use crate::input::{Input, LIMIT};
use crate::scan::{Mode, finish, settle, step};
use crate::stack::Stack;
use crate::{ReadFault, Sexp};
use bumpalo::Bump;
use nq_io::{Failed, Source};
use std::alloc::Global;
use std::marker::Model;

/// How many levels lists and quotes may nest.
const LEVELS: u16 = 500;

/// The next byte, which stays in hand. There is none past the limit of a file.
fn look<S: Source>(input: &mut Input, source: &mut S) -> Result<Option<u8>, ReadFault>
    ensures taken { Taken S.left input.old source.old input.new source.new [] }
    ensures next { IfOk result (λ next. IsNext input.new next) }
    ensures fault { IfErr result (λ fault. IsLookFault input.new fault) }
    ensures later { S.faults source.old ≤ S.faults source.new }
    ensures read { IsErrOf result ReadFault.Read → Rose (S.faults source.old) (S.faults source.new) }
{
    match input.peek(source) {
        Err(Failed) => Err(ReadFault::Read),
        Ok(None) => Ok(None),
        Ok(Some(byte)) => {
            if input.at() < LIMIT {
                Ok(Some(byte))
            } else {
                Err(ReadFault::FileTooLong)
            }
        }
    }
}

/// The next form, or none at the end.
fn read_form<'a, S: Source>(
    alloc: Global,
    arena: &'a Bump,
    input: &mut Input,
    source: &mut S,
) -> Result<Option<Sexp<'a>>, ReadFault>
    ensures form { IfOk result (λ found. IfSome found (λ form. IsFound S.left input.old source.old input.new source.new (tree form))) }
    ensures none { IfOk result (λ found. IfNone found (IfSome (ahead input.old (S.left source.old)) (λ rest. Reads 500 (2 ^ 25 - input.old.at) rest end done))) }
    ensures fault { IfErr result (λ fault. IfSome (ahead input.old (S.left source.old)) (λ rest. IsMet input.old rest input.new (S.left source.new) fault)) }
    ensures later { S.faults source.old ≤ S.faults source.new }
    ensures read { IsErrOf result ReadFault.Read → Rose (S.faults source.old) (S.faults source.new) }
{
    let mut stack = Stack::new(alloc, LEVELS);
    let mut mode = Mode::idle(alloc);
    let mut next = look(input, source)?;
    while let Some(byte) = next {
        mode = settle(alloc, &mut stack, arena, mode, Some(byte))?;
        if let Some(form) = stack.take_whole() {
            return Ok(Some(form));
        }
        mode = step(alloc, &mut stack, arena, mode, input.at(), byte)?;
        input.advance();
        if let Some(form) = stack.take_whole() {
            return Ok(Some(form));
        }
        next = look(input, source)?;
    }
    mode = settle(alloc, &mut stack, arena, mode, None)?;
    if let Some(form) = stack.take_whole() {
        return Ok(Some(form));
    }
    finish(&stack, &mode)?;
    Ok(None)
}

/// Reads the forms of a text, one a call.
#[derive(Drop)]
pub struct Reader {
    alloc: Global,
    input: Input,
    live: bool,
}

impl Model for Reader {
    ghost use Rattle.nq_sexp.specs.Held.{Reading};

    ghost Value = { Reading };

    ghost view = { λ r. record { held = r.input; live = r.live } };
}

impl Reader {
    /// A reader at the beginning of a text.
    pub fn new(alloc: Global) -> Self
        ensures { result ≡ record { held = record { bytes = []; at = 0; told = false }; live = true } }
    {
        Reader {
            alloc,
            input: Input::new(),
            live: true,
        }
    }

    /// Whether no fault was met yet.
    pub fn is_live(&self) -> bool
        ensures { result ≡ self.now.live }
    {
        self.live
    }

    /// The next form, or none at the end. After a fault the reader reads no more, and a source that told its end is not
    /// asked again.
    pub fn next<'a, S: Source>(
        &mut self,
        arena: &'a Bump,
        source: &mut S,
    ) -> Result<Option<Sexp<'a>>, ReadFault>
        requires { IsTrue self.old.live }
        ensures form { IfOk result (λ found. IfSome found (λ form. IsFound S.left self.old.held source.old self.new.held source.new (tree form))) }
        ensures none { IfOk result (λ found. IfNone found (IfSome (ahead self.old.held (S.left source.old)) (λ rest. Reads 500 (2 ^ 25 - self.old.held.at) rest end done))) }
        ensures fault { IfErr result (λ fault. IfSome (ahead self.old.held (S.left source.old)) (λ rest. IsMet self.old.held rest self.new.held (S.left source.new) fault)) }
        ensures live { self.new.live ≡ is_ok result }
        ensures later { S.faults source.old ≤ S.faults source.new }
        ensures read { IsErrOf result ReadFault.Read → Rose (S.faults source.old) (S.faults source.new) }
    {
        let result = read_form(self.alloc, arena, &mut self.input, source);
        self.live = result.is_ok();
        result
    }
}

/// All the forms of a source, which is read to its end.
pub fn read_all<'a, S: Source>(
    alloc: Global,
    arena: &'a Bump,
    source: &mut S,
) -> Result<Vec<Sexp<'a>>, ReadFault>
    ensures whole { IfOk result (λ forms. IfSome (S.left source.old) (λ text. Reads 500 (2 ^ 25) text (trees forms.items end) done)) }
    ensures fault { IfErr result (λ fault. IfSome (S.left source.old) (λ text. (forms : Forms) × IsEnding text forms (S.left source.new) fault)) }
{
    let mut forms = Vec::new(alloc);
    let mut reader = Reader::new(alloc);
    while let Some(form) = reader.next(arena, source)? {
        forms.push(form)?;
    }
    Ok(forms)
}

/// Where a read failed, the forms that stand whole in the bytes taken are one list: a symbol or numeral at their end is no
/// form yet, since the next byte may carry it on, and a source that told its end is not asked again.
pub fn failed_reads_have_one_list()
    ensures { OneListWhereReadsFail }
{}
