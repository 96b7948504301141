// Sources and sinks in memory that fail at chosen calls.
ghost use Rattle.std.specs.Prelude.{◌≡◌, ◌≤◌, ◌<◌, ◌↔◌, ◌++◌, ℕ, [], List, Some, min, length, drop, take, IsErr, IfOk, OnOk, OnErr, IsErrOf, Contains};
ghost use Rattle.std.specs.Io.{ReadsAtMost};
ghost use Rattle.std.specs.Io.KnownBytes.{Appends, ReadConsumes};
ghost use Rattle.nq_io.specs.Faults.{HasCause, HasSinkCause};
ghost use Rattle.nq_io.specs.Told.{AppendsPart};
ghost use Rattle.nq_io.specs.Scripted.{Feed, Filled, next_count};

use crate::copy::copy_front;
use crate::{Failed, Sink, SinkFault, Source};
use std::alloc::Global;
use std::marker::Model;

/// A source of the bytes that it was given. It fails at chosen calls.
#[derive(Drop)]
pub struct MemSource {
    bytes: Vec<u8>,
    at: usize,
    piece: usize,
    fails: Vec<u64>,
    calls: u64,
    faults: u64,
}

impl Model for MemSource {
    ghost Value = { Feed };

    ghost view = { λ s. record { left = drop s.at s.bytes.items; piece = s.piece; fails = s.fails.items; calls = s.calls; faults = s.faults } };

    ghost invariant = { λ s. (s.at ≤ length s.bytes.items) × (1 ≤ s.piece) };
}

impl MemSource {
    /// Gives at most `piece` bytes a call, where `piece` is at least 1. The calls whose numbers, counted
    /// from 1, are in `fails` fail, and take nothing.
    pub fn new(bytes: Vec<u8>, piece: usize, fails: Vec<u64>) -> Self
        requires { 1 ≤ piece }
        ensures { result ≡ record { left = bytes.items; piece = piece; fails = fails.items; calls = 0; faults = 0 } }
    {
        MemSource {
            bytes,
            at: 0,
            piece,
            fails,
            calls: 0,
            faults: 0,
        }
    }
}

impl Source for MemSource {
    ghost left = { λ s. Some s.left };

    ghost faults = { λ s. s.faults };

    fn read(&mut self, buf: &mut [u8]) -> Result<usize, Failed>
        requires { 0 < length buf.old }
        ensures bound { ReadsAtMost result buf.new }
        ensures bytes { ReadConsumes (Some self.old.left) (Some self.new.left) result buf.new }
        ensures cause { HasCause self.old.faults self.new.faults result }
        ensures calls { self.new.calls ≡ next_count self.old.calls }
        ensures script { (self.new.piece ≡ self.old.piece) × (self.new.fails ≡ self.old.fails) }
        ensures fails { IsErr result ↔ Contains self.old.fails (next_count self.old.calls) }
        ensures count { IfOk result (λ n. n ≡ min self.old.piece (min (length self.old.left) (length buf.old))) }
        ensures counted { OnOk result (self.new.faults ≡ self.old.faults) }
    {
        self.calls = self.calls.saturating_add(1);
        if self.fails.contains(&self.calls) {
            self.faults = self.faults.saturating_add(1);
            return Err(Failed);
        }
        let count = copy_front(&self.bytes[self.at..], self.piece, buf);
        self.at += count;
        Ok(count)
    }
}

/// A sink in memory. It fails at chosen calls, and then appends nothing.
#[derive(Drop)]
pub struct MemSink {
    bytes: Vec<u8>,
    fails: Vec<u64>,
    calls: u64,
    faults: u64,
}

impl Model for MemSink {
    ghost Value = { Filled };

    ghost view = { λ s. record { written = s.bytes.items; fails = s.fails.items; calls = s.calls; faults = s.faults } };
}

impl MemSink {
    /// An empty sink. The calls whose numbers, counted from 1, are in `fails` fail.
    pub fn new(alloc: Global, fails: Vec<u64>) -> Self
        ensures { result ≡ record { written = []; fails = fails.items; calls = 0; faults = 0 } }
    {
        MemSink {
            bytes: Vec::new(alloc),
            fails,
            calls: 0,
            faults: 0,
        }
    }

    /// What was written.
    pub fn bytes(&self) -> &[u8]
        ensures { result.now ≡ self.now.written }
    {
        &self.bytes
    }
}

impl Sink for MemSink {
    ghost written = { λ s. Some s.written };

    ghost faults = { λ s. s.faults };

    fn write_all(&mut self, bytes: &[u8]) -> Result<(), SinkFault>
        ensures ok { OnOk result (Appends (Some self.old.written) (Some self.new.written) bytes.now) }
        ensures err { OnErr result (AppendsPart (Some self.old.written) (Some self.new.written) bytes.now) }
        ensures cause { HasSinkCause self.old.faults self.new.faults result }
        ensures calls { self.new.calls ≡ next_count self.old.calls }
        ensures script { self.new.fails ≡ self.old.fails }
        ensures fails { IsErrOf result SinkFault.Failed ↔ Contains self.old.fails (next_count self.old.calls) }
        ensures nothing { OnErr result (self.new.written ≡ self.old.written) }
        ensures counted { OnOk result (self.new.faults ≡ self.old.faults) }
    {
        self.calls = self.calls.saturating_add(1);
        if self.fails.contains(&self.calls) {
            self.faults = self.faults.saturating_add(1);
            return Err(SinkFault::Failed);
        }
        match self.bytes.extend_from_slice(bytes) {
            Ok(()) => Ok(()),
            Err(_) => Err(SinkFault::Memory),
        }
    }
}
