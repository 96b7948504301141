//! The lines of a text.
ghost use Rattle.std.specs.Prelude.{◌≡◌, ◌++◌, ◌∷◌, [], IfOk, OnOk, MatchOption, map};
ghost use Rattle.std.specs.Option.{option_map};
ghost use Rattle.nq_logtext.specs.Reading.{line_of};
ghost use Rattle.nq_logtext.specs.Views.{view};
ghost use Rattle.nq_log.specs.Blocks.{HasNoLineFeed};
ghost use Rattle.nq_log.specs.Logs.{cut_lines};
ghost use Rattle.nq_drops.specs.Texts.{kept_line, lines_found};

use memchr::memchr;
use nq_logtext::{LogLine, Word, parse_line};
use std::alloc::{AllocError, Global};

/// Two parts of a text, about a line feed.
#[derive(Clone, Copy)]
struct Cut<'a> {
    line: &'a [u8],
    rest: &'a [u8],
}

/// The bytes before the first line feed, and those behind it.
fn cut_line(bytes: &[u8]) -> Option<Cut<'_>>
    ensures { MatchOption result (HasNoLineFeed bytes.now) (λ cut. HasNoLineFeed cut.line.now × (bytes.now ≡ cut.line.now ++ (10 ∷ cut.rest.now))) }
{
    match memchr(b'\n', bytes) {
        Some(end) => Some(Cut {
            line: &bytes[..end],
            rest: &bytes[end + 1..],
        }),
        None => None,
    }
}

/// The line that the bytes spell, if they spell one.
fn read_line(alloc: Global, bytes: &[u8]) -> Result<Option<LogLine>, AllocError>
    ensures { IfOk result (λ line. option_map view line ≡ line_of bytes.now) }
{
    parse_line(alloc, bytes)
}

/// Adds a line, where there is one and it is no DROP line.
fn keep(lines: &mut Vec<LogLine>, line: Option<LogLine>) -> Result<(), AllocError>
    ensures { OnOk result (map view lines.new.items ≡ map view lines.old.items ++ kept_line (option_map view line) []) }
{
    match line {
        Some(line) => {
            if line.word() != Word::Drop {
                lines.push(line)?;
            }
            Ok(())
        }
        None => Ok(()),
    }
}

/// The lines of a text but its DROP lines.
pub fn read_lines(alloc: Global, text: &[u8]) -> Result<Vec<LogLine>, AllocError>
    ensures { IfOk result (λ lines. map view lines.items ≡ lines_found (cut_lines text.now).0) }
{
    let mut lines = Vec::new(alloc);
    let mut rest = text;
    'lines: while let Some(cut) = cut_line(rest) {
        let line = read_line(alloc, cut.line)?;
        keep(&mut lines, line)?;
        rest = cut.rest;
    }
    Ok(lines)
}
