// The edge to std's readers and writers. What a reader held and a writer took is trusted: it is told
// only as far as the reader or writer tells it.
ghost use Rattle.std.specs.Prelude.{◌≡◌, OnOk, OnErr, IsErrOf};
ghost use Rattle.std.specs.Bool.{OnTrue, OnFalse};
ghost use Rattle.std.specs.Io.KnownBytes.{Appends};
ghost use Rattle.nq_io.specs.Faults.{HasSinkCause};
ghost use Rattle.nq_io.specs.Told.{AppendsPart};

use crate::{Failed, Sink, SinkFault, Source};
use std::io::{Read, Write};

/// A source over a reader. An error of the reader is a fault, and is counted.
#[derive(Drop)]
pub struct ReadSource<R> {
    reader: R,
    faults: u64,
}

impl<R: Read> ReadSource<R> {
    /// Reads from `reader`. No fault was met yet.
    pub fn new(reader: R) -> Self
        ensures left { ⟦<ReadSource<R> as Source>⟧.left result ≡ R.remaining reader }
        ensures faults { ⟦<ReadSource<R> as Source>⟧.faults result ≡ 0 }
    {
        ReadSource { reader, faults: 0 }
    }
}

impl<R: Read> Source for ReadSource<R> {
    ghost left = { λ s. R.remaining s.reader };

    ghost faults = { λ s. s.faults };

    fn read(&mut self, buf: &mut [u8]) -> Result<usize, Failed> {
        match self.reader.read(buf) {
            Ok(count) => Ok(count),
            Err(_) => {
                self.faults = self.faults.saturating_add(1);
                Err(Failed)
            }
        }
    }
}

/// A sink over a writer. An error of the writer is a fault, and is counted; so is a write that takes
/// nothing of some bytes.
#[derive(Drop)]
pub struct WriteSink<W> {
    writer: W,
    faults: u64,
}

impl<W: Write> WriteSink<W> {
    /// Writes to `writer`. No fault was met yet.
    pub fn new(writer: W) -> Self
        ensures written { ⟦<WriteSink<W> as Sink>⟧.written result ≡ W.contents writer }
        ensures faults { ⟦<WriteSink<W> as Sink>⟧.faults result ≡ 0 }
    {
        WriteSink { writer, faults: 0 }
    }
}

impl<W: Write> Sink for WriteSink<W> {
    ghost written = { λ s. W.contents s.writer };

    ghost faults = { λ s. s.faults };

    fn write_all(&mut self, bytes: &[u8]) -> Result<(), SinkFault>
        ensures ok { OnOk result (Appends (W.contents self.old.writer) (W.contents self.new.writer) bytes.now) }
        ensures err { OnErr result (AppendsPart (W.contents self.old.writer) (W.contents self.new.writer) bytes.now) }
        ensures cause { HasSinkCause self.old.faults self.new.faults result }
        ensures only { IsErrOf result SinkFault.Memory → ⊥ }
    {
        if write_pieces(&mut self.writer, bytes) {
            Ok(())
        } else {
            self.faults = self.faults.saturating_add(1);
            Err(SinkFault::Failed)
        }
    }
}

/// Writes the bytes in as many pieces as the writer takes, and says whether it took them all.
fn write_pieces<W: Write>(writer: &mut W, bytes: &[u8]) -> bool
    ensures all { OnTrue result (Appends (W.contents writer.old) (W.contents writer.new) bytes.now) }
    ensures part { OnFalse result (AppendsPart (W.contents writer.old) (W.contents writer.new) bytes.now) }
{
    let mut rest = bytes;
    while !rest.is_empty() {
        match writer.write(rest) {
            Ok(0) => return false,
            Ok(count) => rest = &rest[count..],
            Err(_) => return false,
        }
    }
    true
}
