//! Ports over readers and writers of std. They tell of the bytes what the reader or the writer told when it was handed over.
ghost use Rattle.std.specs.Prelude.{◌≡◌, ◌+◌, ◌^◌, ◌<◌, ◌≤◌, IfOk, OnOk, OnErr};
ghost use Rattle.hpx_ports.specs.Counted.{Readings, Writings};
ghost use Rattle.hpx_ports.specs.Faults.{Rose, raised};
ghost use Rattle.hpx_ports.specs.Bytes.{Reads, Writes};

use crate::fault::{Failed, raise};
use crate::sink::Sink;
use crate::source::Source;
use std::io::{Read, Write};
use std::marker::Model;
use std::snapshot::Snapshot;

/// A source over a reader.
#[derive(Drop)]
pub struct ReaderSource<R: Read> {
    reader: R,
    start: Snapshot<R>,
    taken: u64,
    faults: u64,
}

impl<R: Read> Model for ReaderSource<R> {
    ghost use Rattle.hpx_ports.specs.Counted.{Readings};
    ghost use Rattle.hpx_ports.specs.Told.{told_since, StaysTold};

    ghost Value = { Readings };

    ghost view = { λ s. record { left = told_since (R.remaining s.start.value) (R.remaining s.reader); taken = s.taken; faults = s.faults } };

    ghost invariant = { λ s. StaysTold (R.remaining s.start.value) (R.remaining s.reader) };
}

impl<R: Read> ReaderSource<R> {
    /// Nothing was read. What the reader knows of its bytes now, the source tells from now on.
    pub fn new(reader: R) -> ReaderSource<R>
        ensures { result ≡ record { left = R.remaining reader; taken = 0; faults = 0 } }
    {
        let start = Snapshot::of(&reader);
        ReaderSource {
            reader,
            start,
            taken: 0,
            faults: 0,
        }
    }

    /// How many bytes were read.
    pub fn taken(&self) -> u64
        ensures { result ≡ self.now.taken }
    {
        self.taken
    }

    /// How many reads failed.
    pub fn faults(&self) -> u64
        ensures { result ≡ self.now.faults }
    {
        self.faults
    }
}

impl<R: Read> Source for ReaderSource<R> {
    ghost faults = { λ s. s.faults };

    ghost taken = { λ s. s.taken };

    ghost left = { λ s. s.left };

    /// A read that was interrupted has failed, and so has one that might take the count over `2^64 - 1`.
    fn read(&mut self, buf: &mut [u8]) -> Result<usize, Failed>
        ensures ok { IfOk result (λ n. Reads n buf.new self.old.left self.new.left) }
        ensures taken { IfOk result (λ n. self.new.taken ≡ self.old.taken + n) }
        ensures taken_fits { OnOk result (self.new.taken < 2 ^ 64) }
        ensures stands { OnOk result (self.new.faults ≡ self.old.faults) }
        ensures err { OnErr result (self.new ≡ record self.old { faults = raised self.old.faults }) }
        ensures left_err { OnErr result (self.new.left ≡ self.old.left) }
        ensures taken_err { OnErr result (self.new.taken ≡ self.old.taken) }
        ensures cause { OnErr result (Rose self.old.faults self.new.faults) }
        ensures never_falls { self.old.faults ≤ self.new.faults }
    {
        if buf.len() as u64 > u64::MAX - self.taken {
            self.faults = raise(self.faults);
            return Err(Failed);
        }
        match self.reader.read(buf) {
            Ok(count) => {
                self.taken += count as u64;
                Ok(count)
            }
            Err(_) => {
                self.faults = raise(self.faults);
                Err(Failed)
            }
        }
    }
}

/// A sink over a writer.
#[derive(Drop)]
pub struct WriterSink<W: Write> {
    writer: W,
    start: Snapshot<W>,
    faults: u64,
}

impl<W: Write> Model for WriterSink<W> {
    ghost use Rattle.hpx_ports.specs.Counted.{Writings};
    ghost use Rattle.hpx_ports.specs.Told.{told_since, StaysTold};

    ghost Value = { Writings };

    ghost view = { λ s. record { held = told_since (W.contents s.start.value) (W.contents s.writer); faults = s.faults } };

    ghost invariant = { λ s. StaysTold (W.contents s.start.value) (W.contents s.writer) };
}

impl<W: Write> WriterSink<W> {
    /// No write has failed. What the writer knows of its bytes now, the sink tells from now on.
    pub fn new(writer: W) -> WriterSink<W>
        ensures { result ≡ record { held = W.contents writer; faults = 0 } }
    {
        let start = Snapshot::of(&writer);
        WriterSink {
            writer,
            start,
            faults: 0,
        }
    }

    /// How many writes failed.
    pub fn faults(&self) -> u64
        ensures { result ≡ self.now.faults }
    {
        self.faults
    }
}

impl<W: Write> Sink for WriterSink<W> {
    ghost faults = { λ s. s.faults };

    ghost held = { λ s. s.held };

    /// A writer that takes nothing of a piece has failed.
    fn write(&mut self, piece: &[u8]) -> Result<usize, Failed>
        ensures ok { IfOk result (λ n. Writes n piece.now self.old.held self.new.held) }
        ensures stands { OnOk result (self.new.faults ≡ self.old.faults) }
        ensures err { OnErr result (self.new.held ≡ self.old.held) }
        ensures raised { OnErr result (self.new.faults ≡ raised self.old.faults) }
        ensures cause { OnErr result (Rose self.old.faults self.new.faults) }
        ensures never_falls { self.old.faults ≤ self.new.faults }
    {
        match self.writer.write(piece) {
            Ok(count) if count > 0 || piece.is_empty() => Ok(count),
            _ => {
                self.faults = raise(self.faults);
                Err(Failed)
            }
        }
    }
}
