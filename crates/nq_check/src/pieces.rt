//! A text that comes piece by piece, taken line by line.
ghost use Rattle.std.specs.Prelude.{◌≡◌, ℕ, ◌+◌, ◌<◌, ◌≤◌, ◌^◌, [], ◌∷◌, ◌++◌, List, length, IfOk, OnOk, OnErr, MatchOption, Ok, Err, None, true, false};
ghost use Rattle.std.specs.Io.KnownBytes.{Appends};
ghost use Rattle.nq_io.specs.Faults.{Rose};
ghost use Rattle.nq_io.specs.Told.{AppendsPart};
ghost use Rattle.nq_log.specs.Blocks.{HasNoLineFeed};
ghost use Rattle.nq_check.specs.Passing.{IsReady, Passed, Stopped, Interrupted, Waits};

use crate::checker::{Checker, Moved, Spot};
use crate::verdict::{CheckFault, Refusal};
use memchr::memchr;
use nq_io::{Sink, SinkFault};

/// Two parts of a text, about a line feed.
#[derive(Clone, Copy)]
struct Cut<'a> {
    line: &'a [u8],
    rest: &'a [u8],
}

/// The bytes before the first line feed, and those behind it.
fn cut_line(bytes: &[u8]) -> Option<Cut<'_>>
    ensures { MatchOption result (HasNoLineFeed bytes.now) (λ cut. HasNoLineFeed cut.line.now × (bytes.now ≡ cut.line.now ++ (10 ∷ cut.rest.now))) }
{
    match memchr(b'\n', bytes) {
        Some(end) => Some(Cut {
            line: &bytes[..end],
            rest: &bytes[end + 1..],
        }),
        None => None,
    }
}

/// Writes a text by one write.
pub fn write_text<O: Sink>(out: &mut O, text: &[u8]) -> Result<(), CheckFault>
    ensures ok { OnOk result (Appends (O.written out.old) (O.written out.new) text.now) }
    ensures err { OnErr result (AppendsPart (O.written out.old) (O.written out.new) text.now) }
    ensures write { result ≡ Err CheckFault.Write → Rose (O.faults out.old) (O.faults out.new) }
    ensures later { O.faults out.old ≤ O.faults out.new }
    ensures no_read { result ≡ Err CheckFault.Read → ⊥ }
    ensures no_length { result ≡ Err CheckFault.TooLong → ⊥ }
{
    match out.write_all(text) {
        Ok(()) => Ok(()),
        Err(SinkFault::Failed) => Err(CheckFault::Write),
        Err(SinkFault::Memory) => Err(CheckFault::Memory),
    }
}

impl Checker {
    /// Takes a line whose line feed was read. The line of a claim is written.
    fn take_whole_line<O: Sink>(
        &mut self,
        out: &mut O,
        bytes: &[u8],
    ) -> Result<Option<Refusal>, CheckFault>
        requires ready { IsReady self.old }
        requires room { self.old.line + 1 < 2 ^ 64 }
        requires free { HasNoLineFeed bytes.now }
        ensures taken { IfOk result (λ refusal. MatchOption refusal
            ((rest : List ℕ) → Passed self.old self.new (bytes.now ++ (10 ∷ rest)) rest (O.written out.old) (O.written out.new))
            (λ why. (rest : List ℕ) → Stopped self.old self.new (bytes.now ++ (10 ∷ rest)) why (O.written out.old) (O.written out.new))) }
        ensures interrupted { OnErr result ((rest : List ℕ) → Interrupted self.old (bytes.now ++ (10 ∷ rest)) (O.written out.old) (O.written out.new)) }
        ensures write { result ≡ Err CheckFault.Write → Rose (O.faults out.old) (O.faults out.new) }
        ensures later { O.faults out.old ≤ O.faults out.new }
        ensures no_read { result ≡ Err CheckFault.Read → ⊥ }
        ensures no_length { result ≡ Err CheckFault.TooLong → ⊥ }
    {
        let moved = match self.take_line(bytes) {
            Ok(moved) => moved,
            Err(_) => return Err(CheckFault::Memory),
        };
        match moved {
            Moved::Moves => Ok(None),
            Moved::Fails(why) => Ok(Some(why)),
            Moved::Establishes(text) => {
                self.claims += 1;
                match write_text(out, text.as_slice()) {
                    Ok(()) => Ok(None),
                    Err(fault) => Err(fault),
                }
            }
        }
    }

    /// Takes a piece of the text, behind the bytes of an unfinished line: each line that it ends is judged, and the line of
    /// each claim written. What stands behind the last line feed is the unfinished line.
    pub fn take_piece<O: Sink>(
        &mut self,
        out: &mut O,
        unfinished: &mut Vec<u8>,
        piece: &[u8],
    ) -> Result<Option<Refusal>, CheckFault>
        requires ready { IsReady self.old }
        requires room { self.old.line + (length unfinished.old.items + length piece.now) + 1 < 2 ^ 64 }
        requires waits { Waits self.old unfinished.old.items }
        ensures taken { IfOk result (λ refusal. MatchOption refusal
            (Passed self.old self.new (unfinished.old.items ++ piece.now) unfinished.new.items (O.written out.old) (O.written out.new) × Waits self.new unfinished.new.items)
            (λ why. Stopped self.old self.new (unfinished.old.items ++ piece.now) why (O.written out.old) (O.written out.new))) }
        ensures interrupted { OnErr result (Interrupted self.old (unfinished.old.items ++ piece.now) (O.written out.old) (O.written out.new)) }
        ensures write { result ≡ Err CheckFault.Write → Rose (O.faults out.old) (O.faults out.new) }
        ensures later { O.faults out.old ≤ O.faults out.new }
        ensures no_read { result ≡ Err CheckFault.Read → ⊥ }
        ensures no_length { result ≡ Err CheckFault.TooLong → ⊥ }
    {
        let mut rest = piece;
        'lines: while let Some(cut) = cut_line(rest) {
            if unfinished.extend_from_slice(cut.line).is_err() {
                return Err(CheckFault::Memory);
            }
            rest = cut.rest;
            match self.take_whole_line(out, unfinished.as_slice()) {
                Ok(None) => unfinished.clear(),
                Ok(Some(why)) => return Ok(Some(why)),
                Err(fault) => return Err(fault),
            }
        }
        if unfinished.extend_from_slice(rest).is_err() {
            return Err(CheckFault::Memory);
        }
        if self.is_past_end(unfinished.as_slice()) {
            return Ok(Some(Refusal::Malformed));
        }
        Ok(None)
    }

    /// Do bytes stand after the last line?
    fn is_past_end(&self, hand: &[u8]) -> bool
        ensures past { result ≡ true → (self.now.spot ≡ Spot.End) × (hand.now ≡ [] → ⊥) }
        ensures none { result ≡ false → self.now.spot ≡ Spot.End → hand.now ≡ [] }
    {
        self.spot == Spot::End && !hand.is_empty()
    }
}
