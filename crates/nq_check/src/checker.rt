//! A checker between two lines of a log.
ghost use Rattle.std.specs.Prelude.{◌≡◌, ℕ, ◌+◌, ◌<◌, ◌^◌, [], ◌∷◌, ◌++◌, List, IfOk, OnErr, MatchOption, OnOk, Err, Some, ◌≤◌};
ghost use Rattle.std.specs.Option.{option_map};
ghost use Rattle.nq_io.specs.Faults.{Rose};
ghost use Rattle.nq_logtext.specs.Reading.{line_of};
ghost use Rattle.nq_logtext.specs.Views.{view};
ghost use Rattle.nq_log.specs.Blocks.{HasNoLineFeed};
ghost use Rattle.nq_log.specs.Logs.{is_header};
ghost use Rattle.nq_log.specs.Streams.{AtStart, move_at};
ghost use Rattle.nq_log.specs.Logs.{step};
ghost use Rattle.nq_check.specs.Passing.{place_of, IsReady, IsMove, Passed, Stopped, Interrupted};

use crate::context::Context;
use crate::judged::Judged;
use crate::verdict::{CheckFault, Refusal};
use nq_io::{Sink, SinkFault};
use nq_logtext::{LogLine, parse_line};
use std::alloc::{AllocError, Global};

/// Where a checker stands.
#[derive(Clone, Copy, Debug, PartialEq, Eq)]
pub enum Spot {
    /// Before the first line.
    Start,
    /// Between two lines.
    Between,
    /// After the last line.
    End,
}

/// What a line led to.
#[derive(Debug, Drop)]
pub enum Moved {
    /// The checker stands at the next line.
    Moves,
    /// The same, and a claim was established, whose line, with its end, is this.
    Establishes(Vec<u8>),
    /// The line is wrong.
    Fails(Refusal),
}

/// A checker that stands before a line: where, in what context, the number of the line, and how many claims were
/// established.
#[derive(Drop)]
pub struct Checker {
    pub context: Context,
    pub spot: Spot,
    pub line: u64,
    pub claims: u64,
}

/// The line that the bytes spell, if they spell one.
fn read_line(alloc: Global, bytes: &[u8]) -> Result<Option<LogLine>, AllocError>
    ensures { IfOk result (λ line. option_map view line ≡ line_of bytes.now) }
{
    parse_line(alloc, bytes)
}

/// Is a line the first one of a log?
fn is_header(line: &LogLine) -> bool
    ensures { result ≡ is_header (view line.now).word }
{
    match line {
        LogLine::Header { .. } => true,
        LogLine::End => false,
        LogLine::Function { .. } => false,
        LogLine::Variable { .. } => false,
        LogLine::Numeral { .. } => false,
        LogLine::Call { .. } => false,
        LogLine::Taut { .. } => false,
        LogLine::Axiom { .. } => false,
        LogLine::Event { .. } => false,
        LogLine::Weaken { .. } => false,
        LogLine::Cut { .. } => false,
        LogLine::Inst { .. } => false,
        LogLine::Refl { .. } => false,
        LogLine::Replace { .. } => false,
        LogLine::Join { .. } => false,
        LogLine::Split { .. } => false,
        LogLine::NotNot { .. } => false,
        LogLine::Value { .. } => false,
        LogLine::Linear { .. } => false,
        LogLine::Induct { .. } => false,
        LogLine::Drop { .. } => false,
        LogLine::Case { .. } => false,
        LogLine::Hyp { .. } => false,
        LogLine::BootStrap => false,
        LogLine::Shell { .. } => false,
        LogLine::Part { .. } => false,
        LogLine::Dcl { .. } => false,
        LogLine::Axiomatize { .. } => false,
        LogLine::Lemma { .. } => false,
        LogLine::Defn { .. } => false,
        LogLine::Measure { .. } => false,
        LogLine::Toggle { .. } => false,
        LogLine::Undo { .. } => false,
    }
}

impl Checker {
    /// A checker before the first line.
    pub fn new(alloc: Global) -> Result<Checker, AllocError>
        ensures ready { IfOk result (λ c. IsReady c) }
        ensures place { IfOk result (λ c. place_of c ≡ AtStart) }
        ensures none { IfOk result (λ c. c.claims ≡ 0) }
    {
        let context = Context::new(alloc)?;
        Ok(Checker {
            context,
            spot: Spot::Start,
            line: 1,
            claims: 0,
        })
    }

    /// Judges a line, which has no end. No line stands after the last one.
    #[tactic(auto, using(crate::proofs::PassingLemmas::no_move, crate::proofs::PassingLemmas::end_move))]
    pub fn take_line(&mut self, bytes: &[u8]) -> Result<Moved, AllocError>
        requires ready { IsReady self.old }
        requires room { self.old.line + 1 < 2 ^ 64 }
        ensures { IfOk result (λ moved. IsMove (move_at step (place_of self.old) (line_of bytes.now)) moved self.old self.new) }
    {
        if self.spot == Spot::End {
            return Ok(Moved::Fails(Refusal::Malformed));
        }
        match read_line(self.context.bank.alloc(), bytes)? {
            Some(line) => self.take_read(&line),
            None => Ok(Moved::Fails(Refusal::Malformed)),
        }
    }

    /// Judges a line that was read.
    fn take_read(&mut self, line: &LogLine) -> Result<Moved, AllocError>
        requires ready { IsReady self.old }
        requires room { self.old.line + 1 < 2 ^ 64 }
        ensures { IfOk result (λ moved. IsMove (move_at step (place_of self.old) (Some (view line.now))) moved self.old self.new) }
    {
        match self.spot {
            Spot::Start => self.take_header(line),
            Spot::Between => self.take_between(line),
            Spot::End => Ok(Moved::Fails(Refusal::Malformed)),
        }
    }

    fn take_header(&mut self, line: &LogLine) -> Result<Moved, AllocError>
        requires ready { IsReady self.old }
        requires room { self.old.line + 1 < 2 ^ 64 }
        requires start { self.old.spot ≡ Spot.Start }
        ensures { IfOk result (λ moved. IsMove (move_at step (place_of self.old) (Some (view line.now))) moved self.old self.new) }
    {
        let header = is_header(line);
        if !header {
            return Ok(Moved::Fails(Refusal::NotAllowed));
        }
        self.context = Context::new(self.context.bank.alloc())?;
        self.spot = Spot::Between;
        self.line = 2;
        Ok(Moved::Moves)
    }

    fn take_between(&mut self, line: &LogLine) -> Result<Moved, AllocError>
        requires ready { IsReady self.old }
        requires room { self.old.line + 1 < 2 ^ 64 }
        requires between { self.old.spot ≡ Spot.Between }
        ensures { IfOk result (λ moved. IsMove (move_at step (place_of self.old) (Some (view line.now))) moved self.old self.new) }
    {
        match self.context.judge(line)? {
            Judged::NotAllowed => Ok(Moved::Fails(Refusal::NotAllowed)),
            Judged::Continues => {
                self.line += 1;
                Ok(Moved::Moves)
            }
            Judged::Claims(text) => {
                self.line += 1;
                Ok(Moved::Establishes(text))
            }
            Judged::Ends => {
                self.line += 1;
                self.spot = Spot::End;
                Ok(Moved::Moves)
            }
        }
    }
}
