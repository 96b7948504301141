ghost use Rattle.std.specs.Prelude.{◌≡◌, IfOk};
ghost use Rattle.nq_check.specs.Texts.{accepted_text, reason_text, refused_text};
ghost use Rattle.nq_check.specs.Outcomes.{answer_text, reason_of};

use itoa::Buffer;
use nq_logtext::Text;
use std::alloc::{AllocError, Global};

/// Why a text is no log.
#[derive(Clone, Copy, Debug, PartialEq, Eq)]
pub enum Refusal {
    /// The line is outside the grammar.
    Malformed,
    /// A condition of the line fails.
    NotAllowed,
    /// The text ends before the last line and its line feed.
    UnexpectedEnd,
}

/// What checking a text came to.
#[derive(Clone, Copy, Debug, PartialEq, Eq)]
pub enum Checked {
    /// The text is a log with so many claims.
    Accepted(u64),
    /// The number of its first wrong line, counted from 1, and what is wrong there.
    Refused(u64, Refusal),
}

/// Why checking stopped before its verdict.
#[derive(Clone, Copy, Debug, PartialEq, Eq)]
pub enum CheckFault {
    /// The source could not be read.
    Read,
    /// The sink could not be written.
    Write,
    /// The text has more than 2^62 bytes, and no line of the first 2^62 is wrong.
    TooLong,
    /// Memory is wanting.
    Memory,
}

impl Refusal {
    /// The words of the verdict.
    pub fn words(self) -> &'static [u8]
        ensures { result.now ≡ reason_text (reason_of self) }
    {
        match self {
            Refusal::Malformed => b"malformed",
            Refusal::NotAllowed => b"not allowed",
            Refusal::UnexpectedEnd => b"unexpected end",
        }
    }
}

fn accepted_line(alloc: Global, claims: u64) -> Result<Text, AllocError>
    ensures { IfOk result (λ line. line ≡ accepted_text claims) }
{
    let mut buffer = Buffer::new();
    let mut line = Text::of(alloc, b"Accepted, ")?;
    line.extend_from_slice(buffer.format(claims).as_bytes())?;
    line.extend_from_slice(b" claims.\n")?;
    Ok(line)
}

fn refused_line(alloc: Global, number: u64, why: Refusal) -> Result<Text, AllocError>
    ensures { IfOk result (λ line. line ≡ refused_text number (reason_of why)) }
{
    let mut buffer = Buffer::new();
    let mut line = Text::of(alloc, b"Refused, line ")?;
    line.extend_from_slice(buffer.format(number).as_bytes())?;
    line.extend_from_slice(b": ")?;
    line.extend_from_slice(why.words())?;
    line.extend_from_slice(b".\n")?;
    Ok(line)
}

/// The line of the verdict, with its end of line.
pub fn verdict_line(alloc: Global, answer: Checked) -> Result<Text, AllocError>
    ensures { IfOk result (λ line. line ≡ answer_text answer) }
{
    match answer {
        Checked::Accepted(claims) => accepted_line(alloc, claims),
        Checked::Refused(line, why) => refused_line(alloc, line, why),
    }
}
