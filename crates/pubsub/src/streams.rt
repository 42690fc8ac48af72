ghost use Rattle.std.specs.Prelude.{◌≡◌, None};

use ps_edge::{Failed, Got, Sink, Source};
use std::io::{Read, Write};

/// A reader as a source. What is left to read isn't known.
#[derive(Drop)]
pub struct StreamSource<R> {
    reader: R,
    faults: u64,
}

impl<R> StreamSource<R> {
    pub fn new(reader: R) -> StreamSource<R>
        ensures { result ≡ record { reader = reader; faults = 0 } }
    {
        StreamSource { reader, faults: 0 }
    }
}

impl<R: Read> Source for StreamSource<R> {
    ghost left = { λ _. None };

    ghost faults = { λ s. s.faults };

    fn read(&mut self, room: &mut [u8]) -> Got {
        match self.reader.read(room) {
            Ok(0) => Got::End,
            Ok(count) => Got::Bytes(count),
            Err(_) => {
                self.faults = self.faults.saturating_add(1);
                Got::Failed
            }
        }
    }
}

/// A writer as a sink, flushed after each write. What was written isn't known.
#[derive(Drop)]
pub struct StreamSink<W> {
    writer: W,
    faults: u64,
}

impl<W> StreamSink<W> {
    pub fn new(writer: W) -> StreamSink<W>
        ensures { result ≡ record { writer = writer; faults = 0 } }
    {
        StreamSink { writer, faults: 0 }
    }
}

impl<W: Write> Sink for StreamSink<W> {
    ghost holds = { λ _. None };

    ghost faults = { λ s. s.faults };

    fn write(&mut self, piece: &[u8]) -> Result<usize, Failed> {
        if let Ok(count) = self.writer.write(piece)
            && count > 0
            && self.writer.flush().is_ok()
        {
            return Ok(count);
        }
        self.faults = self.faults.saturating_add(1);
        Err(Failed)
    }
}
