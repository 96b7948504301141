//! A block's lines, written with their DROP lines.
ghost use Rattle.std.specs.Prelude.{◌≡◌, ◌+◌, ◌<◌, ◌≤◌, ◌^◌, ◌++◌, [], ◌∷◌, List, IfOk, OnOk, OnErr, map, get_or};
ghost use Rattle.nq_logtext.specs.Lines.{Line, IsSpellable};
ghost use Rattle.nq_logtext.specs.Views.{view};
ghost use Rattle.nq_logic.specs.Terms.{Each};
ghost use Rattle.nq_log.specs.Blocks.{lines_text};
ghost use Rattle.nq_drops.specs.Drops.{drop_line, dropping, with_drops};

use crate::ends::ends_of;
use crate::reading::read_lines;
use crate::uses::{is_rule, last_uses, uses_of};
use nq_logtext::{LogLine, Text, write_line};
use std::alloc::{AllocError, Global};

/// Adds a line.
fn put_line(line: &LogLine, out: &mut Text) -> Result<(), AllocError>
    ensures { OnOk result (out.new ≡ out.old ++ lines_text (view line.now ∷ [])) }
{
    write_line(line, out)?;
    out.extend_from_slice(b"\n")
}

/// Adds DROP lines.
fn put_drops(ended: &[u64], out: &mut Text) -> Result<(), AllocError>
    ensures { OnOk result (out.new ≡ out.old ++ lines_text (map drop_line ended.now)) }
{
    for l in ended {
        put_line(&LogLine::Drop { line: *l }, out)?;
    }
    Ok(())
}

/// Adds the DROP lines of the lines that end at a line.
fn put_ended(ends: &[Vec<u64>], n: usize, out: &mut Text) -> Result<(), AllocError>
    ensures { OnOk result (out.new ≡ out.old ++ lines_text (map drop_line (get_or (map (λ ls. ls.items) ends.now) n []))) }
{
    match ends.get(n) {
        Some(ended) => put_drops(ended.as_slice(), out),
        None => Ok(()),
    }
}

/// Adds a line that comes after n rule lines, and after a rule line those that end there. Tells how many rule lines come before
/// the next line.
fn put_with_ends(
    line: &LogLine,
    n: usize,
    ends: &[Vec<u64>],
    out: &mut Text,
) -> Result<usize, AllocError>
    requires { n < 2 ^ 63 }
    ensures count { IfOk result (λ m. m ≤ n + 1) }
    ensures added { IfOk result (λ m. (rest : List Line) → out.new ++ lines_text (dropping (λ n. get_or (map (λ ls. ls.items) ends.now) n []) m rest) ≡ out.old ++ lines_text (dropping (λ n. get_or (map (λ ls. ls.items) ends.now) n []) n (view line.now ∷ rest))) }
{
    put_line(line, out)?;
    if is_rule(line.word()) {
        put_ended(ends, n + 1, out)?;
        Ok(n + 1)
    } else {
        Ok(n)
    }
}

/// Adds lines, and after each rule line those that end there.
fn put_dropping(lines: &[LogLine], ends: &[Vec<u64>], out: &mut Text) -> Result<(), AllocError>
    ensures { OnOk result (out.new ≡ out.old ++ lines_text (dropping (λ n. get_or (map (λ ls. ls.items) ends.now) n []) 0 (map view lines.now))) }
{
    let mut n: usize = 0;
    for line in lines {
        n = put_with_ends(line, n, ends, out)?;
    }
    Ok(())
}

/// Adds the text of a block, whose lines are dropped: directly after each rule line stand the DROP lines of those that it is
/// the last to cite, and of itself where nothing cites it. What the closing line cites is not dropped. Those lines have
/// spellings too.
pub fn write_dropped(alloc: Global, text: &[u8], out: &mut Text) -> Result<(), AllocError>
    ensures ok { OnOk result ((lines : List Line) → Each IsSpellable lines → text.now ≡ lines_text lines → out.new ≡ out.old ++ lines_text (with_drops lines)) }
    ensures spelled { OnOk result ((lines : List Line) → Each IsSpellable lines → text.now ≡ lines_text lines → Each IsSpellable (with_drops lines)) }
    ensures err { OnErr result (out.new ≡ out.old) }
{
    let _size = text.len();
    let lines = read_lines(alloc, text)?;
    let all = uses_of(alloc, lines.as_slice())?;
    let last = last_uses(alloc, all.as_slice())?;
    let ends = ends_of(alloc, last.as_slice())?;
    let mut dropped = Text::new(alloc);
    put_dropping(lines.as_slice(), ends.as_slice(), &mut dropped)?;
    out.extend_from_slice(dropped.as_slice())
}
