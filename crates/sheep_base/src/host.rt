ghost use Rattle.std.specs.Prelude.{◌≡◌};

use crate::fault::{Fault, raised};
use crate::sink::Sink;
use crate::source::Source;
use std::io::{Read, Write};

/// A source over one of std's readers. It tells what the reader tells, and each error is a fault.
#[derive(Drop)]
pub struct HostSource<R> {
    inner: R,
    faults: u64,
}

impl<R: Read> HostSource<R> {
    pub fn new(inner: R) -> HostSource<R>
        ensures left { ⟦<HostSource<R> as Source>⟧.left result ≡ R.remaining inner }
        ensures faults { ⟦<HostSource<R> as Source>⟧.faults result ≡ 0 }
    {
        HostSource { inner, faults: 0 }
    }
}

impl<R: Read> Source for HostSource<R> {
    ghost use Rattle.sheep_base.specs.Host.{reader_of_source, read_faults};

    ghost left = { λ s. R.remaining (reader_of_source s) };

    ghost faults = { λ s. read_faults s };

    fn take(&mut self, buf: &mut [u8]) -> Result<usize, Fault> {
        match self.inner.read(buf) {
            Ok(taken) => Ok(taken),
            Err(_) => Err(raised(&mut self.faults)),
        }
    }
}

/// A sink over one of std's writers. It tells what the writer tells; each error is a fault, and so is a
/// write that takes nothing of a piece.
#[derive(Drop)]
pub struct HostSink<W> {
    inner: W,
    faults: u64,
}

impl<W: Write> HostSink<W> {
    pub fn new(inner: W) -> HostSink<W>
        ensures given { ⟦<HostSink<W> as Sink>⟧.given result ≡ W.contents inner }
        ensures faults { ⟦<HostSink<W> as Sink>⟧.faults result ≡ 0 }
    {
        HostSink { inner, faults: 0 }
    }
}

impl<W: Write> Sink for HostSink<W> {
    ghost use Rattle.std.specs.Prelude.{false};
    ghost use Rattle.sheep_base.specs.Host.{writer_of_sink, write_faults};

    ghost given = { λ s. W.contents (writer_of_sink s) };

    ghost stops = { false };

    ghost faults = { λ s. write_faults s };

    fn put(&mut self, piece: &[u8]) -> Result<usize, Fault> {
        match self.inner.write(piece) {
            Ok(given) if given > 0 || piece.is_empty() => Ok(given),
            _ => Err(raised(&mut self.faults)),
        }
    }
}
