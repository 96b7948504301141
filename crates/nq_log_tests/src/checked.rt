//! Logs, and what is written for them.
ghost use Rattle.std.specs.Prelude.{◌≤◌};

use nq_check::check;
use nq_io::{MemSink, MemSource};
use std::alloc::{AllocError, Global};
use std::process::Abort;
use std::test::Fail;

/// What is written for a log whose source gives so many bytes at a time.
pub fn written(alloc: Global, log: &[u8], piece: usize) -> Result<Vec<u8>, AllocError>
    requires { 1 ≤ piece }
{
    let mut source = MemSource::new(log.to_vec(alloc)?, piece, Vec::new(alloc));
    let mut sink = MemSink::new(alloc, Vec::new(alloc));
    let _ = check(alloc, &mut source, &mut sink);
    sink.bytes().to_vec(alloc)
}

/// The log leads to this text, however it comes.
pub fn expect(rt: &impl Abort, alloc: Global, log: &[u8], want: &[u8]) -> Result<(), Fail> {
    for piece in [1, 7, 4096] {
        let found = written(alloc, log, piece)?;
        assert!(rt; found.as_slice() == want, "in pieces of {piece}: {found:?}");
    }
    Ok(())
}

fn joined(alloc: Global, first: &str, second: &str) -> Result<Vec<u8>, AllocError> {
    let mut text = first.as_bytes().to_vec(alloc)?;
    text.extend_from_slice(second.as_bytes())?;
    Ok(text)
}

/// How logs begin, and what is written for that.
#[derive(Clone, Copy)]
pub struct Begun {
    pub log: &'static str,
    pub claims: &'static str,
}

/// Each row is what stands behind the beginning, and what is written behind the claims of that.
pub fn expect_rows(
    rt: &impl Abort,
    alloc: Global,
    begun: Begun,
    rows: &[(&str, &str)],
) -> Result<(), Fail> {
    for (rest, want) in rows {
        let log = joined(alloc, begun.log, rest)?;
        let whole = joined(alloc, begun.claims, want)?;
        expect(rt, alloc, log.as_slice(), whole.as_slice())?;
    }
    Ok(())
}

/// Each row is lines behind the beginning and the number of the line of the log at which they are refused.
pub fn expect_refused(
    rt: &impl Abort,
    alloc: Global,
    begun: Begun,
    rows: &[(&str, u64)],
) -> Result<(), Fail> {
    for (rest, number) in rows {
        let mut log = joined(alloc, begun.log, rest)?;
        log.push(b'\n')?;
        let refused = format!(in alloc; "Refused, line {number}: not allowed.\n")?;
        let whole = joined(alloc, begun.claims, refused.as_str())?;
        expect(rt, alloc, log.as_slice(), whole.as_slice())?;
    }
    Ok(())
}
